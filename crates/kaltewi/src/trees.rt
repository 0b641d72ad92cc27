// Keys, paths, leaves and trees, and the entries of a write.

/// The name of a child: 1 to 768 bytes without `.` `$` `#` `[` `]` `/` and control characters. A copy
/// shares its text.
///
/// ```rust
/// fn key(alloc: Global) -> Result<Key, TreeError> {
///     let key = Key::parse(alloc, "m1")?;
///     Ok(key.copy()?)
/// }
///
/// fn show_key(rt: &impl Print, key: &Key) -> Result<()> {
///     println!(rt; "the key {key} has {} bytes", key.text().len())?;
///     Ok(())
/// }
/// ```
pub use rt_tree::Key;

/// A place in a tree: at most 32 keys, from the root down. It prints as `/` and its keys joined by
/// `/`.
///
/// ```rust
/// fn path(alloc: Global, key: &Key) -> Result<Path, TreeError> {
///     Path::parse(alloc, "/chat")?.child(key)
/// }
///
/// fn show_path(rt: &impl Print, path: &Path) -> Result<()> {
///     let root = Path::root(path.allocator());
///     let keys = path.strip_prefix(&root).map_or(0, |keys| keys.len());
///     let is_below = root.is_prefix_of(path);
///     println!(rt; "{path} has {keys} keys below {root}: {is_below}")?;
///     Ok(())
/// }
///
/// fn show_same(rt: &impl Print, alloc: Global, path: &Path) -> Result<()> {
///     let same = Path::from_keys(alloc, path.keys())?;
///     println!(rt; "the same as a text: {}", same.text()?)?;
///     Ok(())
/// }
/// ```
pub use rt_tree::Path;

/// A value without children: a truth value, a whole number that JavaScript has exactly, or a text of
/// at most 65,536 bytes.
///
/// ```rust
/// fn leaf(alloc: Global) -> Result<Leaf, TreeError> {
///     Leaf::text(String::from_str(alloc, "hello")?)
/// }
///
/// fn seven() -> Result<Leaf, TreeError> {
///     Leaf::number(7)
/// }
///
/// fn show_leaf(rt: &impl Print, leaf: &Leaf) -> Result<()> {
///     let (truth, number) = (leaf.as_bool().is_some(), leaf.as_i64().unwrap_or(0));
///     let text = leaf.as_str().unwrap_or("none");
///     println!(rt; "{}: {truth} {number} {text}", kind_of(leaf))?;
///     Ok(())
/// }
/// ```
pub use rt_tree::Leaf;

/// What a leaf holds, borrowed.
///
/// ```rust
/// fn kind_of(leaf: &Leaf) -> &'static str {
///     match leaf.value() {
///         LeafRef::Truth(_) => "a truth value",
///         LeafRef::Number(_) => "a number",
///         LeafRef::Text(_) => "a text",
///     }
/// }
/// ```
pub use rt_tree::LeafRef;

/// A tree of values: null, a leaf, or an object of children, none of which is null. A copy shares all
/// of its original, and a change copies what is on its path alone.
///
/// ```rust
/// pub(crate) fn chat(alloc: Global) -> Result<Tree, TreeError> {
///     Tree::read(alloc, r#"{"m1":"hi","m2":"there"}"#)
/// }
///
/// pub(crate) fn show_tree(rt: &impl Print, alloc: Global, tree: &Tree) -> Result<()> {
///     println!(rt; "{}", tree.text(alloc)?)?;
///     Ok(())
/// }
///
/// fn set(alloc: Global, tree: &mut Tree, path: &Path) -> Result<(), TreeError> {
///     tree.put(alloc, path, Tree::leaf(Leaf::truth(true)))
/// }
///
/// fn clear(alloc: Global, tree: &mut Tree, path: &Path) -> Result<(), TreeError> {
///     tree.put(alloc, path, Tree::null())
/// }
///
/// fn mark(alloc: Global, tree: &mut Tree, key: &Key) -> Result<Option<Tree>, AllocError> {
///     tree.put_child(alloc, key, Tree::leaf(Leaf::truth(true)))
/// }
///
/// fn is_marked(tree: &Tree, key: &Key) -> bool {
///     tree.child_at(key).is_some()
/// }
///
/// fn note(alloc: Global, text: Leaf, age: Leaf) -> Result<Tree, TreeError> {
///     let children = vec![in alloc; ("text", Tree::leaf(text)), ("age", Tree::leaf(age))]?;
///     Tree::object_of(alloc, children)
/// }
///
/// fn show_note(rt: &impl Print, tree: &Tree) -> Result<()> {
///     let text = tree.text_at("text").unwrap_or("none");
///     let age = tree.number_at("age").unwrap_or(0);
///     let is_read = tree.truth_at("read").is_some();
///     let has_name = tree.leaf_at("/from/name").is_some() || tree.part_at("from").is_some();
///     let has_text = tree.child("text").is_some();
///     println!(rt; "{text}, {age}: {is_read} {has_name} {has_text}")?;
///     Ok(())
/// }
///
/// fn leaf_at<'a>(tree: &'a Tree, path: &Path) -> Option<&'a Leaf> {
///     tree.get(path)?.as_leaf()
/// }
///
/// fn show_looks(rt: &impl Print, tree: &Tree, path: &Path) -> Result<()> {
///     let has_leaf = leaf_at(tree, path).is_some() && tree.at(path.keys()).is_some();
///     let (levels, is_null) = (tree.levels(), tree.is_null());
///     println!(rt; "{levels} levels, null: {is_null}, a leaf: {has_leaf}")?;
///     Ok(())
/// }
///
/// fn object(alloc: Global, key: Key, child: Tree) -> Result<Tree, TreeError> {
///     Tree::from_children(alloc, vec![in alloc; (key, child)]?)
/// }
///
/// fn childless(alloc: Global) -> Result<Tree, AllocError> {
///     Ok(Tree::object(OrdMap::new(alloc)?))
/// }
///
/// fn count(tree: &Tree) -> usize {
///     tree.children().map_or(0, |children| children.len())
/// }
/// ```
pub use rt_tree::Tree;

/// A tree made of a JSON value that is lent, or that is taken; a tree as a JSON value; a tree and a leaf written behind
/// what a writer of JSON has.
///
/// ```rust
/// fn read_value(alloc: Global, value: &Value) -> Result<Tree, TreeError> {
///     tree_from_value(alloc, value)
/// }
///
/// fn take_value(alloc: Global, value: Value) -> Result<Tree, TreeError> {
///     tree_of_value(alloc, value)
/// }
///
/// fn write_both(leaf: &Leaf, tree: &Tree, out: &mut Writer) -> Result<(), AllocError> {
///     out.begin_array()?;
///     write_leaf(leaf, out)?;
///     write_tree(tree, out)?;
///     out.end_array()
/// }
///
/// fn show_values(rt: &impl Print, alloc: Global, leaf: &Leaf, tree: &Tree) -> Result<()> {
///     let value = value_of_tree(alloc, tree)?;
///     let is_same = read_value(alloc, &value)? == take_value(alloc, value)?;
///     let count = both(alloc, leaf, tree)?.len();
///     println!(rt; "of a value the same: {is_same}, {count} bytes of both")?;
///     Ok(())
/// }
/// ```
pub use rt_tree::{tree_from_value, tree_of_value, value_of_tree, write_leaf, write_tree};

/// The children of an object, in the order of their keys' bytes; read as a `BTreeMap` is. A copy
/// shares its parts.
///
/// ```rust
/// fn map(alloc: Global, key: Key, tree: Tree) -> Result<OrdMap<Key, Tree>, AllocError> {
///     let mut children = OrdMap::new(alloc)?;
///     children.insert(alloc, key, tree)?;
///     Ok(children)
/// }
///
/// fn sorted(alloc: Global, key: Key, tree: Tree) -> Result<OrdMap<Key, Tree>, AllocError> {
///     OrdMap::from_sorted(alloc, vec![in alloc; (key, tree)]?)
/// }
///
/// fn take(children: &mut OrdMap<Key, Tree>, key: &Key) -> Result<Option<Tree>, AllocError> {
///     children.remove(key)
/// }
///
/// fn is_alone(children: &OrdMap<Key, Tree>, key: &Key) -> bool {
///     let is_last = children.last().map_or(false, |(last, _)| last == key);
///     is_last && children.before(key).is_none()
/// }
///
/// fn show_children(rt: &impl Print, children: &OrdMap<Key, Tree>, key: &Key) -> Result<()> {
///     let first = children.first().map_or("none", |(key, _)| key.text());
///     let has_null = children.values().any(|tree| tree.is_null());
///     let is_there = children.get(key).is_some() && children.keys().any(|it| it == key);
///     let is_alone = is_alone(children, key);
///     println!(rt; "from {first}: {has_null} {is_there} {is_alone}")?;
///     Ok(())
/// }
///
/// fn show_map(rt: &impl Print, children: &mut OrdMap<Key, Tree>, key: &Key) -> Result<()> {
///     let is_cleared = clear_child(children, key)?;
///     show_children(rt, children, key)?;
///     let is_taken = take(children, key)?.is_some() && !children.contains_key(key);
///     let is_empty = children.is_empty() && children.iter().next().is_none();
///     println!(rt; "cleared: {is_cleared}, taken: {is_taken}, empty: {is_empty}")?;
///     Ok(())
/// }
/// ```
pub use rt_map::OrdMap;

/// Why a map hands out no slot of a key: the place of its value, to write to.
///
/// ```rust
/// fn clear_child(children: &mut OrdMap<Key, Tree>, key: &Key) -> Result<bool, AllocError> {
///     match children.slot(key) {
///         Ok(child) => *child = Tree::null(),
///         Err(NoSlot::Absent) => return Ok(false),
///         Err(NoSlot::NoMemory) => return Err(AllocError),
///     }
///     Ok(true)
/// }
/// ```
pub use rt_map::NoSlot;

/// Trees set at paths: what one write sets, or one push brings. A write is refused where one of its
/// paths is at or above another one.
///
/// ```rust
/// pub(crate) fn entries(alloc: Global, path: Path, tree: Tree) -> Result<Entries, AllocError> {
///     Ok(Entries::of(vec![in alloc; (path, tree)]?))
/// }
///
/// fn show_entries(rt: &impl Print, entries: Entries) -> Result<()> {
///     let (count, overlap) = (entries.as_slice().len(), entries.have_overlap());
///     let all = entries.into_vec().len();
///     println!(rt; "{count} of {all} entries, overlap: {overlap}")?;
///     Ok(())
/// }
/// ```
pub use rt_writes::Entries;
