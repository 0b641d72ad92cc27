// Nodes are made of trees. Nothing leads to them until all stand.
ghost use Rattle.std.specs.Prelude.{◌≡◌, ◌∷◌, [], false, IfOk, OnErr, map, reverse, OnOk, List, ℕ, Some};
ghost use Rattle.std.specs.Prelude.{if◌then◌else◌, ◌≤◌, None};
ghost use Rattle.rt_map.specs.Maps.{IsOrdered};
ghost use Rattle.rt_tree.specs.PathTree.{key_cmp, null, is_null, put, AllFull, key_eq, child_of};
ghost use Rattle.rt_store.specs.Rows.{in_key_order};
ghost use Rattle.rt_nodes.specs.Forest.{row_at, IsRow, times};
ghost use Rattle.rt_store.specs.inside.Entries.{entries, tree_with, IsFull, Filled};
ghost use Rattle.rt_nodes.specs.Changes.{Same, Told};
ghost use Rattle.rt_store.specs.inside.Changes.{IsGrown, IsPut};
ghost use Rattle.rt_store.specs.inside.Growing.{seen};
ghost use Rattle.rt_tree.specs.Allowed.{IsAllowed};
ghost use Rattle.rt_nodes.specs.Walks.{IsPlace};

use rt_map::OrdMap;
use rt_nodes::{Linked, SeekResult, Siblings};
use rt_order::key_cmp;
use rt_tree::{Key, Leaf, Tree};
use std::alloc::{AllocError, Global};

// A child where it stands.
#[derive(Clone, Copy)]
pub(crate) struct StoreChild<'a> {
    key: &'a Key,
    tree: &'a Tree,
}

// The children, the last in the order of keys first.
fn falling<'a>(
    alloc: Global,
    children: &'a OrdMap<Key, Tree>,
) -> Result<Vec<StoreChild<'a>>, AllocError>
    requires { IsOrdered key_cmp children.now }
    ensures { IfOk result (λ found. reverse (map seen found.items)
        ≡ in_key_order children.now.entries) }
{
    let mut found = Vec::with_capacity(alloc, children.len())?;
    for (key, tree) in children {
        found.push(StoreChild { key, tree })?;
    }
    found.sort_unstable_by(|a, b| key_cmp(b.key, a.key));
    Ok(found)
}

// Makes a node of what a tree put at `rest` is, with all below it.
#[cycle(grow)]
pub(crate) fn grow(
    nodes: &mut Linked<Option<Leaf>>,
    alloc: Global,
    parent: Option<usize>,
    key: &Key,
    rest: &[Key],
    tree: &Tree,
) -> Result<usize, AllocError>
    requires full { is_null tree.now ≡ false }
    ensures grown { IfOk result (λ index. IsGrown nodes.old nodes.new (Some index) parent) }
    ensures is { IfOk result (λ index. entries (row_at nodes.new (Some index))
        ≡ (key.now, put null rest.now tree.now) ∷ []) }
    ensures err { OnErr result (Same nodes.old nodes.new) }
{
    let index = nodes.insert(alloc, parent, key, None)?;
    match content(nodes, alloc, Some(index), rest, tree) {
        Ok((leaf, first)) => {
            nodes.set_content(index, leaf, first);
            Ok(index)
        }
        Err(error) => {
            nodes.remove(index);
            Err(error)
        }
    }
}

// Makes the nodes below a node that a tree is put at `rest` under: the leaf that it is, or else its
// children.
#[cycle(grow)]
pub(crate) fn content(
    nodes: &mut Linked<Option<Leaf>>,
    alloc: Global,
    parent: Option<usize>,
    rest: &[Key],
    tree: &Tree,
) -> Result<(Option<Leaf>, Option<usize>), AllocError>
    requires full { is_null tree.now ≡ false }
    ensures grown { IfOk result (λ r. IsGrown nodes.old nodes.new r.1 parent) }
    ensures full { IfOk result (λ r. IsFull r.0 (row_at nodes.new r.1)) }
    ensures is { IfOk result (λ r. tree_with r.0 (entries (row_at nodes.new r.1))
        ≡ put null rest.now tree.now) }
    ensures err { OnErr result (Same nodes.old nodes.new) }
{
    if let Some((key, rest)) = rest.split_first() {
        let index = grow(nodes, alloc, parent, key, rest, tree)?;
        return Ok((None, Some(index)));
    }
    if let Some(leaf) = tree.as_leaf() {
        return Ok((Some(leaf.copy(alloc)?), None));
    }
    match tree.children() {
        Some(children) => Ok((None, grow_row(nodes, alloc, parent, rest, children)?)),
        None => Ok((None, None)),
    }
}

// Makes a row of nodes of some children.
#[cycle(grow)]
pub(crate) fn grow_row(
    nodes: &mut Linked<Option<Leaf>>,
    alloc: Global,
    parent: Option<usize>,
    rest: &[Key],
    children: &OrdMap<Key, Tree>,
) -> Result<Option<usize>, AllocError>
    requires end { rest.now ≡ [] }
    requires ordered { IsOrdered key_cmp children.now }
    requires full { AllFull children.now.entries }
    ensures grown { IfOk result (λ first. IsGrown nodes.old nodes.new first parent) }
    ensures is { IfOk result (λ first. entries (row_at nodes.new first)
        ≡ in_key_order children.now.entries) }
    ensures err { OnErr result (Same nodes.old nodes.new) }
{
    let mut first = None;
    for child in &falling(alloc, children)? {
        match grow(nodes, alloc, parent, child.key, rest, child.tree) {
            Ok(index) => {
                nodes.link(None, index, first);
                first = Some(index);
            }
            Err(error) => {
                nodes.fell(first);
                return Err(error);
            }
        }
    }
    Ok(first)
}

// ---- trees made of linked nodes

// `insert`, at a key that is new.
fn add_child(
    children: &mut OrdMap<Key, Tree>,
    alloc: Global,
    key: Key,
    child: Tree,
) -> Result<(), AllocError>
    ensures { OnOk result ((j : List ℕ) → child_of children.new.entries j
        ≡ if key_eq key j then Some child else child_of children.old.entries j) }
{
    children.insert(alloc, key, child)?;
    Ok(())
}

// The tree of a leaf, or else of the children from `first` on.
pub(crate) fn build(
    alloc: Global,
    nodes: &Linked<Option<Leaf>>,
    leaf: &Option<Leaf>,
    first: Option<usize>,
) -> Result<Tree, AllocError>
    requires place { IsPlace nodes.now first }
    requires filled { Filled (row_at nodes.now first) }
    requires allowed { IsAllowed (tree_with leaf.now (entries (row_at nodes.now first))) }
    ensures { IfOk result (λ tree. tree ≡ tree_with leaf.now (entries (row_at nodes.now first))) }
{
    if let Some(leaf) = leaf {
        let leaf = leaf.copy(alloc)?;
        return Ok(Tree::leaf(leaf));
    }
    let mut children = OrdMap::new(alloc)?;
    let mut next = first;
    while let Some(index) = next {
        let slot = nodes.get(index).unwrap();
        let key = slot.key.key().copy()?;
        let child = build(alloc, nodes, &slot.value, slot.first_child)?;
        add_child(&mut children, alloc, key, child)?;
        next = slot.next;
    }
    Ok(Tree::object(children))
}

// ---- what stands at a path is replaced by nodes that are made of a tree

// Puts a tree at a path below a row. The answer is the first node of the row then. All nodes are
// made before the first of the row changes.
pub(crate) fn put_row(
    nodes: &mut Linked<Option<Leaf>>,
    alloc: Global,
    row: Siblings,
    key: &Key,
    rest: &[Key],
    tree: &Tree,
) -> Result<Option<usize>, AllocError>
    requires row { IsRow nodes.old row.first row.parent None (row_at nodes.old row.first) }
    requires told { Told nodes.old row.first row.parent }
    requires once { (n : ℕ) → times n (row_at nodes.old row.first) ≤ 1 }
    requires filled { Filled (row_at nodes.old row.first) }
    requires full { is_null tree.now ≡ false }
    ensures ok { IfOk result (λ first.
        IsPut nodes.old nodes.new row.first first row.parent key.now rest.now tree.now) }
    ensures err { OnErr result (Same nodes.old nodes.new) }
{
    let index = match nodes.seek(row, key) {
        SeekResult::Here(index) => index,
        SeekResult::Gap(previous, next) => {
            let index = grow(nodes, alloc, row.parent, key, rest, tree)?;
            nodes.link(previous, index, next);
            return match previous {
                None => Ok(Some(index)),
                Some(_) => Ok(row.first),
            };
        }
    };
    let below = nodes.get(index).unwrap().first_child;
    match rest.split_first() {
        None => {
            let (leaf, grown) = content(nodes, alloc, Some(index), rest, tree)?;
            nodes.fell(below);
            nodes.set_content(index, leaf, grown);
            Ok(row.first)
        }
        Some((key, rest)) => {
            let below = Siblings {
                parent: Some(index),
                first: below,
            };
            let below = put_row(nodes, alloc, below, key, rest, tree)?;
            nodes.set_content(index, None, below);
            Ok(row.first)
        }
    }
}
