// What a seat is told, and what one knows who takes it all.

/// What a seat is told, in order.
///
/// ```rust
/// fn kind_of(item: &Item) -> &'static str {
///     match item {
///         Item::Receipt(_) => "its own call is made",
///         Item::Batch(_) => "a view has changed",
///         Item::Settled { .. } => "a request is settled",
///         Item::Cancelled { .. } => "a listener has ended",
///     }
/// }
/// ```
pub use rt_mail::Item;

/// What a seat's own call has made.
///
/// ```rust
/// fn number_of(receipt: &Receipt) -> u64 {
///     match receipt {
///         Receipt::Listened { listener, .. } | Receipt::Unlistened { listener } => *listener,
///         Receipt::Wrote { id, .. } | Receipt::Asked { id, .. } => *id,
///     }
/// }
/// ```
pub use rt_mail::Receipt;

/// A ring of items, as each seat has one of its own.
///
/// ```rust
/// fn ring(alloc: Global) -> Result<Inbox, AllocError> {
///     Inbox::new(alloc, 4)
/// }
///
/// fn take_first(ring: &mut Inbox) -> Option<Item> {
///     if ring.len() == 0 {
///         return None;
///     }
///     ring.next()
/// }
/// ```
pub use rt_mail::Inbox;

/// A change of a view: of a child, with the key of the row before it, or the whole view, which comes
/// last.
///
/// ```rust
/// fn key_of(change: &Change) -> Option<&Key> {
///     match change {
///         Change::Removed { key, .. }
///         | Change::Added { key, .. }
///         | Change::Moved { key, .. }
///         | Change::Changed { key, .. } => Some(key),
///         Change::Value { .. } => None,
///     }
/// }
/// ```
pub use rt_view::Change;

/// The changes of one listener's view in one step, never none.
///
/// ```rust
/// fn count(batch: &Batch) -> usize {
///     batch.changes.as_slice().len()
/// }
/// ```
pub use rt_view::Batch;

/// The changes of some kinds alone, as the listeners for child events of the Firebase SDKs get them.
///
/// ```rust
/// fn count_added(alloc: Global, batch: &Batch) -> Result<usize, AllocError> {
///     let added = Kinds {
///         removed: false,
///         added: true,
///         moved: false,
///         changed: false,
///         value: false,
///     };
///     Ok(of_kinds(alloc, batch, added)?.as_slice().len())
/// }
/// ```
pub use rt_view::{Kinds, of_kinds};

/// Plays the changes of a view over its children, by their keys.
///
/// ```rust
/// fn play(
///     alloc: Global,
///     children: &mut BTreeMap<Key, Tree>,
///     changes: &[Change],
/// ) -> Result<(), AllocError> {
///     apply_changes(alloc, children, changes)
/// }
/// ```
pub use rt_view::apply_changes;

/// What one who takes all that a seat is told knows: its listeners with their children, and its
/// unsettled requests.
///
/// ```rust
/// fn mirror(alloc: Global) -> Mirror {
///     Mirror::new(alloc)
/// }
///
/// fn follow(seat: &mut Seat, mirror: &mut Mirror) -> Result<usize, MailError> {
///     seat.mirror(mirror)
/// }
///
/// fn follow_one(mirror: &mut Mirror, item: Item) -> Result<(), MailError> {
///     mirror.take(item)
/// }
///
/// fn children_in(mirror: &Mirror, listener: u64) -> usize {
///     mirror
///         .children(listener)
///         .map_or(0, |children| children.len())
/// }
///
/// fn is_quiet(mirror: &Mirror) -> bool {
///     !mirror.has_failed() && mirror.listeners().is_empty() && mirror.requests().is_empty()
/// }
/// ```
pub use rt_mail::Mirror;

/// What one who takes a seat's items can show of its listeners: of each its query, and its view as a tree
/// and as rows in the query's order. Unlike a mirror it tells a path of which nothing is known from null and
/// from a leaf.
///
/// ```rust
/// fn snapshots(alloc: Global) -> Snapshots {
///     Snapshots::new(alloc)
/// }
///
/// fn show_with(snapshots: &mut Snapshots, item: &Item) -> Result<(), AllocError> {
///     snapshots.take(item)
/// }
///
/// fn is_known(snapshots: &Snapshots, listener: u64) -> bool {
///     match snapshots.get(listener) {
///         Some(snapshot) => snapshots.len() > 0 && snapshot.value().is_some(),
///         None => false,
///     }
/// }
///
/// fn rows_of(snapshot: &Snapshot) -> Result<usize, AllocError> {
///     match snapshot.shown()? {
///         Some(shown) => Ok(shown.rows().len()),
///         None => Ok(0),
///     }
/// }
///
/// fn show_texts(rt: &impl Print, snapshots: &Snapshots, listener: u64) -> Result<()> {
///     if let Some(shown) = snapshots.shown(listener)? {
///         for row in shown.rows() {
///             println!(rt;
///                 "{} says {}",
///                 row.key,
///                 row.value.text_at("/").unwrap_or("nothing")
///             )?;
///         }
///     }
///     Ok(())
/// }
///
/// fn is_of_all(snapshot: &Snapshot) -> bool {
///     !snapshot.query().is_filtered()
/// }
/// ```
pub use rt_mail::{Snapshot, Snapshots};
