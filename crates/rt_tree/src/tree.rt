// A tree of leaves.
ghost use Rattle.std.specs.Prelude.{[], ◌∷◌, ◌≡◌, ◌<◌, ◌≤◌, ◌+◌, false, true, length, IsTrue, ◌↔◌, IfOk};
ghost use Rattle.std.specs.Prelude.{IfErr, OnOk, OnErr, ◌⊎◌, is_some, IfSome, IfNone, List, ℕ};
ghost use Rattle.std.specs.Prelude.{None, Some, if◌then◌else◌};
ghost use Rattle.std.specs.Option.{option_copied};
ghost use Rattle.std.specs.BTreeMap.{insert_entry};
ghost use Rattle.rt_map.specs.Maps.{IsOrdered};
ghost use Rattle.rt_tree.specs.Trees.{leaf_at, null, of_leaf, is_null, sub, put, non_null, object};
ghost use Rattle.rt_tree.specs.Trees.{levels, child_of, AllFull, IsAllowed, MayStandAt, is_object};
ghost use Rattle.rt_tree.specs.Trees.{children_of, child};
ghost use Rattle.rt_tree.specs.Leaves.{key_cmp, key_eq};
ghost use Rattle.rt_tree.specs.inside.Puts.{PutsBelow};
ghost use Rattle.rt_tree.specs.inside.TreeView.{IsObject};

mod children;
mod names;
mod text;
mod value;

use crate::error::TreeError;
use crate::key::Key;
use crate::leaf::Leaf;
use crate::limits::{MAX_KEYS, MAX_LEVELS};
use crate::path::Path;
use rt_map::{NoSlot, OrdMap, Share};
use std::alloc::{AllocError, Global};
use std::marker::Model;
use std::mem;
use std::slice::from_ref;
pub use text::{tree_from_value, tree_of_value, value_of_tree, write_leaf, write_tree};

/// A tree of values: null, a leaf, or an object of children. No child is null, and an object
/// without children is null. At most 32 keys stand above a leaf.
///
/// A copy shares all of its original, and takes next to no time. [`Tree::put`] copies of what another
/// tree shares the parts on its path alone.
#[cycle(tree)]
#[derive(Debug, Drop)]
pub struct Tree {
    node: Node,
}

#[cycle(tree)]
#[derive(Debug, Drop)]
enum Node {
    Null,
    Leaf(Leaf),
    Object(OrdMap<Key, Tree>),
}

impl Model for Tree {
    ghost use Rattle.rt_tree.specs.Trees.{PathTree, levels};
    ghost use Rattle.rt_tree.specs.inside.TreeCode.{tree_code};

    ghost Value = { PathTree };

    ghost coded = { tree_code };

    ghost use Rattle.rt_tree.specs.inside.TreeView.{tree_of, IsNode};

    ghost view = { λ a. tree_of a.node };

    ghost invariant = { λ a. IsNode a.node };

    ghost size = { levels };

    ghost use Rattle.rt_tree.specs.inside.TreeFalls.{deep_le_levels};

    ghost size_decreases = { λ a h. deep_le_levels a.node h };
}

impl Tree {
    /// The tree with nothing in it.
    pub fn null() -> Tree
        ensures { result ≡ null }
    {
        Tree { node: Node::Null }
    }

    /// A leaf as a tree.
    pub fn leaf(leaf: Leaf) -> Tree
        ensures { result ≡ of_leaf leaf }
    {
        // For the prover: what it holds is in range.
        let _in_range = leaf.value();
        let node = Node::Leaf(leaf);
        Tree { node }
    }

    /// The object of these children; null where there are none.
    pub fn object(children: OrdMap<Key, Tree>) -> Tree
        requires full { AllFull children.entries }
        requires allowed { IsAllowed (object children.entries) }
        ensures { result ≡ object children.entries }
    {
        if children.len() == 0 {
            return Tree::null();
        }
        let node = Node::Object(children);
        Tree { node }
    }

    /// Whether there is nothing in the tree.
    pub fn is_null(&self) -> bool
        ensures { result ≡ is_null self.now }
    {
        match &self.node {
            Node::Null => true,
            Node::Leaf(_) => false,
            Node::Object(_) => false,
        }
    }

    /// The part of the tree at the path; `None` where that is null. Costs by the path alone.
    pub fn get(&self, path: &Path) -> Option<&Tree>
        ensures { option_copied result ≡ non_null (sub self.now path.now) }
    {
        self.at(path.keys())
    }

    /// The part of the tree below these keys, from the root down; `None` where that is null.
    pub fn at(&self, keys: &[Key]) -> Option<&Tree>
        ensures { option_copied result ≡ non_null (sub self.now keys.now) }
    {
        let Some((key, rest)) = keys.split_first() else {
            return if self.is_null() { None } else { Some(self) };
        };
        match &self.node {
            Node::Object(children) => match children.get(key) {
                Some(child) => child.at(rest),
                None => None,
            },
            Node::Null => None,
            Node::Leaf(_) => None,
        }
    }

    /// The child at the key; `None` where that is null. Takes no memory.
    pub fn child_at(&self, key: &Key) -> Option<&Tree>
        ensures { option_copied result ≡ non_null (child self.now key.now) }
    {
        self.at(from_ref(key))
    }

    /// The children of an object, in the order of their keys' bytes; `None` for null and a leaf.
    pub fn children(&self) -> Option<&OrdMap<Key, Tree>>
        ensures object { is_some result ≡ is_object self.now }
        ensures children { IfSome result (λ children. children.now.entries ≡ children_of self.now) }
        ensures none { IfNone result (children_of self.now ≡ []) }
        ensures allowed { IsAllowed self.now }
    {
        match &self.node {
            Node::Object(children) => Some(children),
            Node::Null => None,
            Node::Leaf(_) => None,
        }
    }

    /// An equal tree, which shares the children with this one.
    pub fn copy(&self, alloc: Global) -> Result<Tree, AllocError>
        ensures { IfOk result (λ tree. tree ≡ self.now) }
    {
        match &self.node {
            Node::Leaf(leaf) => {
                let leaf = leaf.copy(alloc)?;
                Ok(Tree {
                    node: Node::Leaf(leaf),
                })
            }
            Node::Null | Node::Object(_) => self.share(),
        }
    }

    /// The leaf that the tree is; `None` for null and an object.
    pub fn as_leaf(&self) -> Option<&Leaf>
        ensures { option_copied result ≡ leaf_at self.now [] }
    {
        match &self.node {
            Node::Leaf(leaf) => Some(leaf),
            Node::Null => None,
            Node::Object(_) => None,
        }
    }

    /// One more than the number of keys above the deepest leaf; 0 for null. Walks the whole tree.
    pub fn levels(&self) -> usize
        ensures levels { result ≡ levels self.now }
        ensures shallow { result ≤ MAX_LEVELS }
        ensures allowed { IsAllowed self.now }
    {
        match &self.node {
            Node::Null => 0,
            Node::Leaf(_) => 1,
            Node::Object(children) => {
                let mut most = 0;
                for child in children.values() {
                    most = most.max(child.levels());
                }
                most + 1
            }
        }
    }

    /// Puts a tree in the place of what stands at the path. Null takes that out, and with it each
    /// object above that is left without children. Any other tree replaces a leaf above the path by
    /// an object; null leaves such a leaf.
    ///
    /// Costs by the path and by the tree that is put, whether another tree shares the children along
    /// the path or not.
    ///
    /// # Errors
    ///
    /// `TooDeep` where path and tree together have more than 32 keys, else `NoMemory`. A refused
    /// tree is dropped, and nothing changes.
    pub fn put(&mut self, alloc: Global, path: &Path, tree: Tree) -> Result<(), TreeError>
        ensures ok { OnOk result (self.new ≡ put self.old path.now tree) }
        ensures err { OnErr result (self.new ≡ self.old) }
        ensures too_deep { (result ≡ Err TreeError.TooDeep)
            ↔ (MAX_LEVELS < length path.now + levels tree) }
        ensures errors { IfErr result (λ e. (e ≡ TreeError.TooDeep) ⊎ (e ≡ TreeError.NoMemory)) }
    {
        let keys = path.keys();
        if tree.levels() > MAX_LEVELS - keys.len() {
            return Err(TreeError::TooDeep);
        }
        if self.is_emptied(keys, &tree) {
            *self = Tree::null();
            return Ok(());
        }
        self.put_at(alloc, keys, tree)?;
        Ok(())
    }

    /// Puts a tree in the place of the child at the key, as [`Tree::put`] does at the path of that key
    /// alone, and gives back the child that stood there; `None` where there was none. Makes no path, and
    /// doesn't walk the tree.
    ///
    /// # Errors
    ///
    /// `AllocError` where memory is missing. The tree is dropped then, and nothing changes.
    pub fn put_child(
        &mut self,
        alloc: Global,
        key: &Key,
        tree: Tree,
    ) -> Result<Option<Tree>, AllocError>
        requires { levels tree ≤ MAX_KEYS }
        ensures ok { OnOk result (self.new ≡ put self.old (key.now ∷ []) tree) }
        ensures old { IfOk result (λ old. old ≡ child_of (children_of self.old) key.now) }
        ensures err { OnErr result (self.new ≡ self.old) }
    {
        // For the prover: it is a key.
        let _text = key.text();
        let place = from_ref(key);
        if self.is_emptied(place, &tree) {
            let old = copy_of(alloc, self.child_at(key))?;
            *self = Tree::null();
            return Ok(old);
        }
        self.replace_child(alloc, key, tree)
    }

    // The same where something is left then.
    fn replace_child(
        &mut self,
        alloc: Global,
        key: &Key,
        tree: Tree,
    ) -> Result<Option<Tree>, AllocError>
        requires fits { MayStandAt (key.now ∷ []) tree }
        requires left { is_null (put self.old (key.now ∷ []) tree) ≡ false }
        ensures ok { OnOk result (self.new ≡ put self.old (key.now ∷ []) tree) }
        ensures old { IfOk result (λ old. old ≡ child_of (children_of self.old) key.now) }
        ensures err { OnErr result (self.new ≡ self.old) }
    {
        if let Node::Object(children) = &mut self.node {
            let old = replace_in(children, alloc, key, tree)?;
            return Ok(old);
        }
        self.put_at(alloc, from_ref(key), tree)?;
        Ok(None)
    }

    // Puts a tree at keys where something is left then.
    #[cycle(put)]
    fn put_at(&mut self, alloc: Global, keys: &[Key], tree: Tree) -> Result<(), AllocError>
        requires fits { MayStandAt keys.now tree }
        requires left { is_null (put self.old keys.now tree) ≡ false }
        ensures ok { OnOk result (self.new ≡ put self.old keys.now tree) }
        ensures err { OnErr result (self.new ≡ self.old) }
    {
        let Some((key, rest)) = keys.split_first() else {
            *self = tree;
            return Ok(());
        };
        if let Node::Object(children) = &mut self.node {
            put_below(children, alloc, key, rest, tree)?;
            return Ok(());
        }
        if !tree.is_null() {
            *self = Tree::branch(alloc, keys, tree)?;
        }
        Ok(())
    }

    // Whether nothing is left once null comes at `keys`.
    fn goes_without(&self, keys: &[Key]) -> bool
        ensures { result ≡ is_null (put self.now keys.now null) }
    {
        let Some((key, rest)) = keys.split_first() else {
            return true;
        };
        match &self.node {
            Node::Null => true,
            Node::Leaf(_) => false,
            Node::Object(children) => {
                if children.len() > 1 {
                    return false;
                }
                match children.get(key) {
                    Some(child) => child.goes_without(rest),
                    None => false,
                }
            }
        }
    }

    // Whether nothing is left once `tree` comes at `keys`.
    fn is_emptied(&self, keys: &[Key], tree: &Tree) -> bool
        ensures { result ≡ is_null (put self.now keys.now tree.now) }
    {
        tree.is_null() && self.goes_without(keys)
    }

    // A tree with nothing but `tree` at `keys`.
    fn branch(alloc: Global, keys: &[Key], tree: Tree) -> Result<Tree, AllocError>
        requires full { is_null tree ≡ false }
        requires allowed { MayStandAt keys.now tree }
        ensures { IfOk result (λ t. t ≡ put null keys.now tree) }
    {
        let Some((key, rest)) = keys.split_first() else {
            return Ok(tree);
        };
        let inner = Tree::branch(alloc, rest, tree)?;
        let key = key.copy()?;
        let mut children = OrdMap::new(alloc)?;
        children.insert(alloc, key, inner)?;
        Ok(Tree {
            node: Node::Object(children),
        })
    }
}

/// Trees are equal where they have the same leaves.
impl PartialEq for Tree {
    ghost use Rattle.std.specs.Cmp as Cmp;
    ghost use Rattle.rt_tree.specs.Trees.{tree_eq};
    ghost use Rattle.rt_tree.specs.laws.TreeEq.{tree_eq_tells, equivalence};

    ghost eq = { tree_eq };

    ghost laws = { Cmp.partial_equiv_from_equiv (equivalence tree_eq_tells) };

    fn eq(&self, other: &Tree) -> bool {
        match (&self.node, &other.node) {
            (Node::Null, Node::Null) => true,
            (Node::Leaf(left), Node::Leaf(right)) => left == right,
            (Node::Object(left), Node::Object(right)) => *left == *right,
            _ => false,
        }
    }
}

impl Eq for Tree {
    ghost use Rattle.rt_tree.specs.laws.TreeEq.{tree_eq_tells, equivalence};

    ghost laws = { equivalence tree_eq_tells };
}

impl Share for Tree {
    fn share(&self) -> Result<Tree, AllocError> {
        match &self.node {
            Node::Null => Ok(Tree { node: Node::Null }),
            Node::Leaf(leaf) => {
                let leaf = leaf.share()?;
                Ok(Tree {
                    node: Node::Leaf(leaf),
                })
            }
            Node::Object(children) => {
                let children = children.copy()?;
                Ok(Tree {
                    node: Node::Object(children),
                })
            }
        }
    }
}

// `insert`, without the old child.
fn set_child(
    children: &mut OrdMap<Key, Tree>,
    alloc: Global,
    key: Key,
    child: Tree,
) -> Result<(), AllocError>
    ensures entries { OnOk result (children.new.entries
        ≡ insert_entry key_cmp children.old.entries key child) }
    ensures sets { OnOk result ((j : List ℕ) → child_of children.new.entries j ≡ if key_eq key j
        then Some child else child_of children.old.entries j) }
    ensures ordered { IsOrdered key_cmp children.new }
{
    children.insert(alloc, key, child)?;
    Ok(())
}

// Whether nothing is left of a child once `tree` comes at `rest` below it. An only child is not asked,
// where something is left of all children.
fn goes(is_only: bool, child: &Tree, rest: &[Key], tree: &Tree) -> bool
    requires { is_only ≡ true → is_null (put child.now rest.now tree.now) ≡ false }
    ensures { result ≡ is_null (put child.now rest.now tree.now) }
{
    !is_only && child.is_emptied(rest, tree)
}

// Puts a tree at a path below a key that has no child; null changes nothing there.
fn add_child(
    children: &mut OrdMap<Key, Tree>,
    alloc: Global,
    key: &Key,
    rest: &[Key],
    tree: Tree,
) -> Result<(), AllocError>
    requires absent { child_of children.old.entries key.now ≡ None }
    requires was_ordered { IsOrdered key_cmp children.old }
    requires allowed { MayStandAt (key.now ∷ rest.now) tree }
    ensures ok { OnOk result
        (PutsBelow children.old.entries children.new.entries key.now rest.now tree) }
    ensures err { OnErr result (children.new.entries ≡ children.old.entries) }
    ensures ordered { IsOrdered key_cmp children.new }
{
    if tree.is_null() {
        return Ok(());
    }
    let branch = Tree::branch(alloc, rest, tree)?;
    let key = key.copy()?;
    children.insert(alloc, key, branch)?;
    Ok(())
}

// An equal tree, where there is one.
fn copy_of(alloc: Global, tree: Option<&Tree>) -> Result<Option<Tree>, AllocError>
    ensures { IfOk result (λ copy. copy ≡ option_copied tree.entry) }
{
    match tree {
        Some(tree) => Ok(Some(tree.copy(alloc)?)),
        None => Ok(None),
    }
}

// Puts a tree in the place of the child at `key`, and gives that child back; null takes it out.
fn replace_in(
    children: &mut OrdMap<Key, Tree>,
    alloc: Global,
    key: &Key,
    tree: Tree,
) -> Result<Option<Tree>, AllocError>
    requires allowed { MayStandAt (key.now ∷ []) tree }
    requires kept { IsObject children.old.entries }
    ensures ok { OnOk result (PutsBelow children.old.entries children.new.entries key.now [] tree) }
    ensures old { IfOk result (λ old. old ≡ child_of children.old.entries key.now) }
    ensures err { OnErr result (children.new.entries ≡ children.old.entries) }
    ensures ordered { IsOrdered key_cmp children.new }
{
    if tree.is_null() {
        return children.remove(key);
    }
    match children.slot(key) {
        Ok(child) => Ok(Some(mem::replace(child, tree))),
        Err(NoSlot::Absent) => {
            add_child(children, alloc, key, &[], tree)?;
            Ok(None)
        }
        Err(NoSlot::NoMemory) => Err(AllocError),
    }
}

// Puts a tree at a path below the child at `key`, or takes that child out where nothing is left of
// it. Something is left of all children. Those that another tree shares are copied on the way to
// `key` alone.
#[cycle(put)]
fn put_below(
    children: &mut OrdMap<Key, Tree>,
    alloc: Global,
    key: &Key,
    rest: &[Key],
    tree: Tree,
) -> Result<(), AllocError>
    requires allowed { MayStandAt (key.now ∷ rest.now) tree }
    requires kept { IsObject children.old.entries }
    requires left { is_null (put (object children.old.entries) (key.now ∷ rest.now) tree) ≡ false }
    ensures ok { OnOk result
        (PutsBelow children.old.entries children.new.entries key.now rest.now tree) }
    ensures err { OnErr result (children.new.entries ≡ children.old.entries) }
    ensures ordered { IsOrdered key_cmp children.new }
{
    let is_only = children.len() == 1;
    match children.slot(key) {
        Ok(child) => {
            if goes(is_only, child, rest, &tree) {
                children.remove(key)?;
                return Ok(());
            }
            child.put_at(alloc, rest, tree)?;
            Ok(())
        }
        Err(NoSlot::Absent) => add_child(children, alloc, key, rest, tree),
        Err(NoSlot::NoMemory) => Err(AllocError),
    }
}
