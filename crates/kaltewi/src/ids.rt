// Push ids: keys that rise, made without the server.

/// Makes push ids, each above those that it made before: of a moment and twelve random digits.
///
/// ```rust
/// fn two_ids(ids: &mut PushIds, now_ms: u64) -> Result<([u8; 20], [u8; 20]), PushError> {
///     // For the prover: the ids of one source rise as keys.
///     keys_rise();
///     let first = ids.next(now_ms, DIGITS)?;
///     let second = ids.next(now_ms, DIGITS)?;
///     Ok((first, second))
/// }
///
/// pub(crate) fn show(rt: &impl Print, alloc: Global) -> Result<()> {
///     show_ids(rt, alloc, &mut PushIds::new())
/// }
/// ```
pub use rt_push::PushIds;

/// The law that the ids of one source rise as keys.
///
/// ```rust
/// fn two_ids(ids: &mut PushIds, now_ms: u64) -> Result<([u8; 20], [u8; 20]), PushError> {
///     // For the prover: the ids of one source rise as keys.
///     keys_rise();
///     let first = ids.next(now_ms, DIGITS)?;
///     let second = ids.next(now_ms, DIGITS)?;
///     Ok((first, second))
/// }
/// ```
pub use rt_client::keys_rise;

/// The law that each id is a key.
///
/// ```rust
/// fn key_of(alloc: Global, id: &[u8; 20]) -> Result<Key, TreeError> {
///     // For the prover: each id is a key.
///     ids_are_keys();
///     Key::parse(alloc, str::from_utf8(id).unwrap_or(""))
/// }
/// ```
pub use rt_client::ids_are_keys;
