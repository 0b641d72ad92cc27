// Queries, and what they show.

/// What a listener asks for: the children of a path in an order, of these a range, and of that a
/// limited number.
///
/// ```rust
/// pub(crate) fn all(path: Path) -> Query {
///     Query::at(path).done()
/// }
///
/// fn show_query(rt: &impl Print, query: &Query) -> Result<()> {
///     let (path, order, most) = (query.path(), order_of(query), most(query));
///     let (has_start, is_filtered) = (query.range().lower.is_some(), query.is_filtered());
///     println!(rt; "{path} by {order}: {most} {has_start} {is_filtered}")?;
///     Ok(())
/// }
///
/// fn is_enough(query: &Query, other: &Query) -> bool {
///     query.takes_in(other)
/// }
///
/// fn brings(query: &Query, other: &Query) -> bool {
///     query.supplies(other)
/// }
///
/// fn shown(alloc: Global, query: &Query) -> Result<Shown> {
///     Ok(query.select(&chat(alloc)?)?)
/// }
/// ```
pub use rt_query::Query;

/// A query that is being made. An order is named before a bound, and each is set once; a call that is
/// refused changes nothing.
///
/// ```rust
/// fn latest(path: Path, by: Path) -> Result<Query, QueryError> {
///     let mut draft = Query::at(path);
///     draft.order_by_child(by)?;
///     draft.limit_to_last(2)?;
///     Ok(draft.done())
/// }
///
/// fn first(path: Path) -> Result<Query, QueryError> {
///     let mut draft = Query::at(path);
///     draft.limit_to_first(1)?;
///     Ok(draft.done())
/// }
///
/// fn by_key(draft: &mut Draft, from: Leaf, to: Leaf) -> Result<(), QueryError> {
///     draft.order_by_key()?;
///     draft.start_at(Mark::Leaf(from), None)?;
///     draft.end_before(Mark::Leaf(to), None)
/// }
///
/// fn by_value(draft: &mut Draft, to: Leaf) -> Result<(), QueryError> {
///     draft.order_by_value()?;
///     draft.start_after(Mark::Null, None)?;
///     draft.end_at(Mark::Leaf(to), None)
/// }
///
/// fn equal(draft: &mut Draft, by: Path, value: Mark) -> Result<(), QueryError> {
///     draft.order_by_child(by)?;
///     draft.equal_to(value, None)
/// }
/// ```
pub use rt_query::Draft;

/// The value of a bound: null, or a leaf. In key order it is a text, which names a key.
///
/// ```rust
/// fn by_value(draft: &mut Draft, to: Leaf) -> Result<(), QueryError> {
///     draft.order_by_value()?;
///     draft.start_after(Mark::Null, None)?;
///     draft.end_at(Mark::Leaf(to), None)
/// }
/// ```
pub use rt_order::Mark;

/// What the children of a path are ordered by.
///
/// ```rust
/// fn order_of(query: &Query) -> &'static str {
///     match query.index() {
///         Index::Key => "keys",
///         Index::Child(_) => "what stands below each",
///         Index::Value => "values",
///     }
/// }
/// ```
pub use rt_order::Index;

/// How many rows are shown at most.
///
/// ```rust
/// fn most(query: &Query) -> u32 {
///     match query.limit() {
///         Some(Limit::First(n)) | Some(Limit::Last(n)) => n,
///         None => 0,
///     }
/// }
/// ```
pub use rt_query::Limit;

/// What a query shows of a tree: a leaf, or rows in the query's order.
///
/// ```rust
/// fn shown(alloc: Global, query: &Query) -> Result<Shown> {
///     Ok(query.select(&chat(alloc)?)?)
/// }
///
/// fn show_row(rt: &impl Print, shown: &Shown, row: &Row) -> Result<()> {
///     let (is_there, is_leaf) = (shown.row(&row.key).is_some(), shown.leaf().is_some());
///     let is_null = shown.tree().is_null();
///     println!(rt; "{} {is_there} {is_leaf} {is_null}", row.key)?;
///     Ok(())
/// }
///
/// fn nothing(alloc: Global) -> Shown {
///     Shown::of(None, Vec::new(alloc), Tree::null())
/// }
/// ```
pub use rt_query::Shown;

/// A child as a query shows it: its `key` and its `value`.
///
/// ```rust
/// fn first_row(shown: &Shown) -> Option<&Row> {
///     shown.rows().first()
/// }
///
/// fn show_row(rt: &impl Print, shown: &Shown, row: &Row) -> Result<()> {
///     let (is_there, is_leaf) = (shown.row(&row.key).is_some(), shown.leaf().is_some());
///     let is_null = shown.tree().is_null();
///     println!(rt; "{} {is_there} {is_leaf} {is_null}", row.key)?;
///     Ok(())
/// }
/// ```
pub use rt_query::Row;

/// The text of a listen's `q`; none for a query that is not filtered, which is listened to as the
/// plain one of its path.
///
/// ```rust
/// fn show_listen(rt: &impl Print, alloc: Global, query: &Query) -> Result<()> {
///     let is_same = query.listening_form()? == *query;
///     let text = query_text(alloc, query)?;
///     let q = text.as_deref().unwrap_or("no q");
///     println!(rt; "the same: {is_same}, {q}")?;
///     Ok(())
/// }
/// ```
pub use rt_wire::query_text;
