// A tree as linked nodes.
ghost use Rattle.std.specs.Prelude.{◌≡◌, ◌+◌, ◌<◌, ◌↔◌, [], not, is_some, length, IfOk, OnOk, OnErr, Err};
ghost use Rattle.std.specs.Prelude.{Some, None, ℕ, take, IfErr, ◌≤◌, Option};
ghost use Rattle.std.specs.Option.{option_copied, option_map};
ghost use Rattle.rt_tree.specs.PathTree.{null, is_null, sub, put, leaf_of, levels};
ghost use Rattle.rt_store.specs.Rows.{row, from_path};
ghost use Rattle.rt_store.specs.Stored.{IsAsBefore, onward, some_row, behind, tree_at, key_at};
ghost use Rattle.rt_store.specs.declared.error.StoreError.TheVariants.{TooDeep, NoMemory};
ghost use Rattle.rt_store.specs.Runs.{after, after_all};
ghost use Rattle.rt_store.specs.laws.Walks.{RowsRise, RowsHaveTheChildren, PathsLead};
ghost use Rattle.rt_store.specs.inside.Entries.{Filled};
ghost use Rattle.rt_nodes.specs.Forest.{IsRow, row_at, times};
ghost use Rattle.rt_nodes.specs.Walks.{IsPlace};
ghost use Rattle.rt_nodes.specs.Changes.{Changed, Told};
ghost use Rattle.rt_store.specs.inside.Changes.{is_bare, cleared};

use crate::error::StoreError;
use crate::nodes::{build, content, put_row};
use rt_nodes::{Linked, Siblings};
use rt_order::key_cmp;
use rt_tree::{Key, Leaf, MAX_LEVELS, Path, Tree};
use std::alloc::{AllocError, Global};
use std::marker::Model;

/// A tree kept as linked nodes.
///
/// Siblings stand in the order of keys. To find a child costs by the logarithm of their number.
#[derive(Debug)]
pub struct Store {
    nodes: Linked<Option<Leaf>>,
    // The first child of the root.
    first: Option<usize>,
    // The leaf that the whole tree is, where it is one.
    leaf: Option<Leaf>,
}

impl Drop for Store {
    fn drop(self) {
        let Store {
            nodes: _,
            first: _,
            leaf: _,
        } = self;
    }
}

impl Model for Store {
    ghost use Rattle.rt_store.specs.Stored.{Stored, stored_code};

    ghost Value = { Stored };

    ghost coded = { stored_code };

    ghost use Rattle.rt_store.specs.inside.StoreView.{stored, IsStore};

    ghost view = { stored };

    ghost invariant = { IsStore };
}

impl Store {
    /// The store with nothing in it.
    pub fn new(alloc: Global) -> Store
        ensures { result.tree ≡ null }
    {
        Store {
            nodes: Linked::new(alloc),
            first: None,
            leaf: None,
        }
    }

    /// Puts a copy of a tree in the place of what stands at the path. Null clears the path; any
    /// other tree replaces a leaf above the path by an object.
    ///
    /// Costs by the path, the logarithm of the number of siblings at each of its keys, the tree
    /// that is put and what it replaces.
    ///
    /// # Errors
    ///
    /// `TooDeep` where path and tree together have more than 32 keys, or `NoMemory`. A refusal
    /// changes nothing: all nodes are made before the first of the store's changes.
    pub fn set(&mut self, alloc: Global, path: &Path, tree: &Tree) -> Result<(), StoreError>
        ensures ok { OnOk result (self.new.tree ≡ put self.old.tree path.now tree.now) }
        ensures err { OnErr result (IsAsBefore self.old self.new) }
        ensures too_deep { (result ≡ Err TooDeep) ↔ (MAX_LEVELS < length path.now + levels tree.now) }
    {
        let keys = path.keys();
        if tree.is_null() {
            self.clear(path);
            return Ok(());
        }
        if tree.levels() > MAX_LEVELS - keys.len() {
            return Err(StoreError::TooDeep);
        }
        match keys.split_first() {
            None => {
                let (leaf, first) = content(&mut self.nodes, alloc, None, keys, tree)?;
                self.leaf = leaf;
                self.nodes.fell(self.first);
                self.first = first;
            }
            Some((key, rest)) => {
                let row = Siblings {
                    parent: None,
                    first: self.first,
                };
                let first = put_row(&mut self.nodes, alloc, row, key, rest, tree)?;
                self.leaf = None;
                self.first = first;
            }
        }
        Ok(())
    }

    /// Takes out what stands at the path, and with it each object above that is left without
    /// children. Takes no memory.
    ///
    /// Costs by the path, the logarithm of the number of siblings at each of its keys and what is
    /// taken out.
    pub fn clear(&mut self, path: &Path)
        ensures { self.new.tree ≡ put self.old.tree path.now null }
    {
        match path.keys().split_first() {
            None => {
                self.leaf = None;
                self.nodes.fell(self.first);
                self.first = None;
            }
            Some((key, rest)) => {
                let row = Siblings {
                    parent: None,
                    first: self.first,
                };
                self.first = clear_row(&mut self.nodes, row, key, rest);
            }
        }
    }

    /// Whether there is nothing in the store.
    pub fn is_null(&self) -> bool
        ensures { result ≡ is_null self.now.tree }
    {
        self.leaf.is_none() && self.first.is_none()
    }

    /// Whether something stands at the path.
    pub fn has(&self, path: &Path) -> bool
        ensures { result ≡ not (is_null (sub self.now.tree path.now)) }
    {
        self.at(path).is_some()
    }

    /// The node at the path; `None` where nothing stands there.
    pub fn at(&self, path: &Path) -> Option<Node>
        ensures row { option_map (onward self.now) result
            ≡ some_row (from_path self.now.tree path.now) }
        ensures there { is_some result ≡ not (is_null (sub self.now.tree path.now)) }
    {
        let Some((key, rest)) = path.keys().split_first() else {
            return if self.is_null() {
                None
            } else {
                Some(Node::root())
            };
        };
        let row = Siblings {
            parent: None,
            first: self.first,
        };
        Node::linked(self.nodes.descend(row, key, rest))
    }

    /// The part of the tree at the path; null where nothing stands there. Costs by the path, the
    /// logarithm of the number of siblings at each of its keys, and the part.
    pub fn get(&self, alloc: Global, path: &Path) -> Result<Tree, AllocError>
        ensures { IfOk result (λ tree. tree ≡ sub self.now.tree path.now) }
    {
        let Some((key, rest)) = path.keys().split_first() else {
            return build(alloc, &self.nodes, &self.leaf, self.first);
        };
        let row = Siblings {
            parent: None,
            first: self.first,
        };
        let Some(index) = self.nodes.descend(row, key, rest) else {
            return Ok(Tree::null());
        };
        let slot = self.nodes.get(index).unwrap();
        build(alloc, &self.nodes, &slot.value, slot.first_child)
    }

    /// The first child in the order of keys.
    pub fn first_child(&self, node: Node) -> Option<Node>
        ensures { option_map (onward self.now) result ≡ some_row (row (tree_at self.now node)) }
    {
        match node.index() {
            None => Node::linked(self.first),
            Some(index) => match self.nodes.get(index) {
                Some(slot) => Node::linked(slot.first_child),
                None => None,
            },
        }
    }

    /// The sibling behind the node in the order of keys.
    pub fn next_sibling(&self, node: Node) -> Option<Node>
        ensures { option_map (onward self.now) result ≡ some_row (behind (onward self.now node)) }
    {
        match node.index() {
            None => None,
            Some(index) => match self.nodes.get(index) {
                Some(slot) => Node::linked(slot.next),
                None => None,
            },
        }
    }

    /// The key of the node; the root has none.
    pub fn key(&self, node: Node) -> Option<&Key>
        ensures { option_copied result ≡ key_at self.now node }
    {
        match node.index() {
            None => None,
            Some(index) => match self.nodes.get(index) {
                Some(slot) => Some(slot.key.key()),
                None => None,
            },
        }
    }

    /// The leaf that the node is; `None` where it has children.
    pub fn leaf(&self, node: Node) -> Option<&Leaf>
        ensures { option_copied result ≡ leaf_of (tree_at self.now node) }
    {
        match node.index() {
            None => self.leaf.as_ref(),
            Some(index) => match self.nodes.get(index) {
                Some(slot) => slot.value.as_ref(),
                None => None,
            },
        }
    }
}

// ---- a place in a store

/// What stands at a place of a store. A node is good until the store next changes; after that it
/// may stand for anything that is in the store, or for nothing.
#[derive(Clone, Copy, Debug, PartialEq, Eq)]
pub struct Node {
    // The key of the node in the slab; none at the root.
    index: Option<usize>,
}

impl Model for Node {
    ghost use Rattle.std.specs.Prelude.{ℕ, Option};

    ghost Value = { Option ℕ };

    ghost view = { λ a. a.index };

    ghost inverse = { λ v. record { index = v } };
}

impl Node {
    // The node of the root.
    pub(crate) fn root() -> Node
        ensures { result ≡ None }
    {
        Node { index: None }
    }

    // The node that a link leads to.
    pub(crate) fn linked(link: Option<usize>) -> Option<Node>
        ensures { result ≡ option_map Some link }
    {
        match link {
            Some(index) => Some(Node { index: Some(index) }),
            None => None,
        }
    }

    pub(crate) fn index(self) -> Option<usize>
        ensures { result ≡ self }
    {
        self.index
    }
}

// ---- runs of changes

/// A change of a store.
#[derive(Debug, Drop)]
pub enum Change {
    Set(Path, Tree),
    Clear(Path),
}

impl Store {
    /// Makes each change in turn. One that would put a value below more than 32 keys changes
    /// nothing, and the next ones follow.
    ///
    /// # Errors
    ///
    /// `NoMemory`, after which the changes before that one stay made, and neither that one nor
    /// those behind it.
    pub fn run(&mut self, alloc: Global, changes: &[Change]) -> Result<(), StoreError>
        ensures ok { OnOk result (self.new.tree ≡ after_all self.old.tree changes.now) }
        ensures err { OnErr result ((n : ℕ) × (n < length changes.now)
            × (self.new.tree ≡ after_all self.old.tree (take n changes.now))) }
        ensures errors { IfErr result (λ e. e ≡ NoMemory) }
    {
        for change in changes {
            self.change(alloc, change)?;
        }
        Ok(())
    }

    // Makes a change, unless it is too deep.
    fn change(&mut self, alloc: Global, change: &Change) -> Result<(), StoreError>
        ensures ok { OnOk result (self.new.tree ≡ after self.old.tree change.now) }
        ensures err { OnErr result (IsAsBefore self.old self.new) }
        ensures errors { IfErr result (λ e. e ≡ NoMemory) }
    {
        match change {
            Change::Set(path, tree) => match self.set(alloc, path, tree) {
                Err(StoreError::NoMemory) => Err(StoreError::NoMemory),
                _ => Ok(()),
            },
            Change::Clear(path) => {
                self.clear(path);
                Ok(())
            }
        }
    }
}

// ---- the laws of walks

/// A walk meets each child once, in the order of keys, and nothing else; from a path it meets first
/// what stands there.
pub fn walk_law()
    ensures rise { RowsRise }
    ensures children { RowsHaveTheChildren }
    ensures lead { PathsLead }
{}

// ---- what stands at a path is taken out, with each node above it that is left without children

// Whether nothing is left of a row, once what stands at the path is taken out.
pub(crate) fn vanishes(
    nodes: &Linked<Option<Leaf>>,
    first: Option<usize>,
    key: &Key,
    rest: &[Key],
) -> bool
    requires { IsPlace nodes.now first }
    ensures { result ≡ is_bare (cleared key.now rest.now (row_at nodes.now first)) }
{
    let Some(index) = first else {
        return true;
    };
    let slot = nodes.get(index).unwrap();
    if slot.next.is_some() || !key_cmp(key, slot.key.key()).is_eq() {
        return false;
    }
    match rest.split_first() {
        None => true,
        Some((child, rest)) => {
            slot.value.is_none() && vanishes(nodes, slot.first_child, child, rest)
        }
    }
}

// Clears a path below a row. The answer is the first node that is left.
pub(crate) fn clear_row(
    nodes: &mut Linked<Option<Leaf>>,
    row: Siblings,
    key: &Key,
    rest: &[Key],
) -> Option<usize>
    requires row { IsRow nodes.old row.first row.parent None (row_at nodes.old row.first) }
    requires told { Told nodes.old row.first row.parent }
    requires once { (n : ℕ) → times n (row_at nodes.old row.first) ≤ 1 }
    requires filled { Filled (row_at nodes.old row.first) }
    ensures row { (parent : Option ℕ)
        → IsRow nodes.old row.first parent None (row_at nodes.old row.first)
        → IsRow nodes.new result parent None (cleared key.now rest.now (row_at nodes.old row.first)) }
    ensures changed { Changed nodes.old nodes.new (row_at nodes.old row.first)
        (cleared key.now rest.now (row_at nodes.old row.first)) }
{
    let Some(index) = nodes.find(row, key) else {
        return row.first;
    };
    let slot = nodes.get(index).unwrap();
    let below = slot.first_child;
    if let Some((child, rest)) = rest.split_first() {
        if slot.value.is_some() {
            return row.first;
        }
        if !vanishes(nodes, below, child, rest) {
            let below = Siblings {
                parent: Some(index),
                first: below,
            };
            let below = clear_row(nodes, below, child, rest);
            nodes.set_content(index, None, below);
            return row.first;
        }
    }
    nodes.take_out(row.first, index)
}
