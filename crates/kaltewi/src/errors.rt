// Errors: each has a number, a name, and words.

/// Why a key, a path, a leaf or a tree is refused.
///
/// ```rust
/// fn bad_path(alloc: Global) -> Option<TreeError> {
///     Path::parse(alloc, "/a.b").err()
/// }
///
/// fn tell_bad_path(rt: &impl Print, why: TreeError) -> Result<()> {
///     tell(rt, why.code(), why.name(), &why)
/// }
/// ```
pub use rt_tree::TreeError;

/// Why a call on a draft is refused.
///
/// ```rust
/// fn bad_limit(path: Path) -> Option<QueryError> {
///     Query::at(path).limit_to_first(0).err()
/// }
///
/// fn tell_bad_limit(rt: &impl Print, why: QueryError) -> Result<()> {
///     tell(rt, why.code(), why.name(), &why)
/// }
/// ```
pub use rt_query::QueryError;

/// Why a text is no message of that side.
///
/// ```rust
/// fn bad_message(alloc: Global) -> Option<WireError> {
///     ServerMessage::read(alloc, "hello").err()
/// }
///
/// fn tell_bad_message(rt: &impl Print, why: WireError) -> Result<()> {
///     tell(rt, why.code(), why.name(), &why)
/// }
/// ```
pub use rt_wire::WireError;

/// Why a call of a client is refused.
///
/// ```rust
/// fn bad_listener(shared: &mut Shared, seat: &mut Seat) -> Option<ClientError> {
///     shared.unlisten(seat, 9).err()
/// }
///
/// fn tell_bad_listener(rt: &impl Print, why: ClientError) -> Result<()> {
///     tell(rt, why.code(), why.name(), &why)
/// }
/// ```
pub use rt_client::ClientError;

/// Why a step is refused. Of a client's call it stands in `ClientError::Core`.
///
/// ```rust
/// fn refusal_of_core(why: ClientError) -> Option<CoreError> {
///     match why {
///         ClientError::Core(why) => Some(why),
///         _ => None,
///     }
/// }
///
/// fn tell_core(rt: &impl Print, why: CoreError) -> Result<()> {
///     tell(rt, why.code(), why.name(), &why)
/// }
/// ```
pub use rt_world::CoreError;

/// Why a mirror refuses: it lacks memory, or has before.
///
/// ```rust
/// fn tell_failed(rt: &impl Print, why: MailError) -> Result<()> {
///     tell(rt, why.code(), why.name(), &why)
/// }
/// ```
pub use rt_mail::MailError;

/// Why a call of a server is refused.
///
/// ```rust
/// fn bad_connection(peer: &mut Peer) -> Option<PeerError> {
///     peer.disconnect(7).err()
/// }
///
/// fn tell_bad_connection(rt: &impl Print, why: PeerError) -> Result<()> {
///     tell(rt, why.code(), why.name(), &why)
/// }
/// ```
pub use rt_peer::PeerError;

/// Why no push id is given.
///
/// ```rust
/// fn bad_digit(ids: &mut PushIds) -> Option<PushError> {
///     ids.next(0, [64; 12]).err()
/// }
///
/// fn tell_bad_digit(rt: &impl Print, why: PushError) -> Result<()> {
///     tell(rt, why.code(), why.name(), &why)
/// }
/// ```
pub use rt_push::PushError;
