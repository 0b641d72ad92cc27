// Children and leaves are found by the texts of their names and paths, which takes no memory; an object
// is made of children by their names.
ghost use Rattle.std.specs.Prelude.{◌≡◌, ◌++◌, ◌∷◌, [], ◌⊎◌, IfOk, IfErr, IfSome, OnOk, Some, None, reverse};
ghost use Rattle.std.specs.Option.{option_copied, option_and_then};
ghost use Rattle.std.specs.Result.{result_err};
ghost use Rattle.rt_tree.specs.Key.{IsKey};
ghost use Rattle.rt_tree.specs.Leaf.{truth_of, number_of, text_of};
ghost use Rattle.rt_tree.specs.Path.{path_keys};
ghost use Rattle.rt_tree.specs.Named.{by_name, children_fault};
ghost use Rattle.rt_tree.specs.Trees.{leaf_at, sub, child, child_of, non_null, object};

use super::Tree;
use super::children::object_of;
use crate::error::TreeError;
use crate::key::{Key, check_key, valid_key};
use crate::leaf::Leaf;
use crate::limits::MAX_LEVELS;
use rt_map::OrdMap;
use std::alloc::{AllocError, Global};

impl Tree {
    /// The child of that name; `None` where that is null, as it is where the name is no key. Takes no
    /// memory.
    ///
    /// Looks at one name after another. Of many children [`Tree::child_at`] finds one sooner, by its key.
    pub fn child(&self, name: &str) -> Option<&Tree>
        ensures { option_copied result ≡ non_null (child self.now name.now) }
    {
        match self.children() {
            Some(children) => named_in(children, name),
            None => None,
        }
    }

    /// The part of the tree at a path, whose text is cut as [`Path::parse`](crate::Path::parse) cuts it;
    /// `None` where that is null, as it is where the text is no path. Takes no memory.
    ///
    /// Looks at the children of each object on the way as [`Tree::child`] does.
    pub fn part_at(&self, path: &str) -> Option<&Tree>
        ensures { option_copied result ≡ non_null (sub self.now (path_keys path.now)) }
    {
        let mut part = self;
        for name in path.split('/') {
            if name.is_empty() {
                continue;
            }
            match part.child(name) {
                Some(child) => part = child,
                None => return None,
            }
        }
        if part.is_null() { None } else { Some(part) }
    }

    /// The leaf at a path, found as [`Tree::part_at`] finds the part.
    ///
    /// ```text
    /// tree.leaf_at("from/name")       // Some(Text("ann")) of {"from":{"name":"ann"}}
    /// ```
    pub fn leaf_at(&self, path: &str) -> Option<&Leaf>
        ensures { option_copied result ≡ leaf_at self.now (path_keys path.now) }
    {
        match self.part_at(path) {
            Some(part) => part.as_leaf(),
            None => None,
        }
    }

    /// The text at a path; `None` where something else or nothing stands there.
    pub fn text_at(&self, path: &str) -> Option<&str>
        ensures { option_copied result
            ≡ option_and_then text_of (leaf_at self.now (path_keys path.now)) }
    {
        match self.leaf_at(path) {
            Some(leaf) => leaf.as_str(),
            None => None,
        }
    }

    /// The number at a path; `None` where something else or nothing stands there.
    pub fn number_at(&self, path: &str) -> Option<i64>
        ensures { result ≡ option_and_then number_of (leaf_at self.now (path_keys path.now)) }
    {
        match self.leaf_at(path) {
            Some(leaf) => leaf.as_i64(),
            None => None,
        }
    }

    /// The truth value at a path; `None` where something else or nothing stands there.
    pub fn truth_at(&self, path: &str) -> Option<bool>
        ensures { result ≡ option_and_then truth_of (leaf_at self.now (path_keys path.now)) }
    {
        match self.leaf_at(path) {
            Some(leaf) => leaf.as_bool(),
            None => None,
        }
    }

    /// The object of these children by their names, as putting each at its name in turn makes it: of
    /// equal names the last counts, and null takes out what stood at its name. Null where no child is
    /// left.
    ///
    /// ```text
    /// let text = Tree::leaf(Leaf::text(String::from_str(alloc, "hi")?)?);
    /// Tree::object_of(alloc, vec![in alloc; ("text", text), ("from", from)]?)?
    /// ```
    ///
    /// # Errors
    ///
    /// The children are looked at in turn: a name that is no key is refused as
    /// [`Key::parse`](crate::Key::parse) refuses it, and a child of 33 levels is `TooDeep`; `NoMemory`
    /// where each is fine. Refused children are dropped.
    pub fn object_of(alloc: Global, children: Vec<(&str, Tree)>) -> Result<Tree, TreeError>
        ensures ok { IfOk result (λ tree. tree ≡ object (reverse (by_name children.entry.items))) }
        ensures refused { IfSome (children_fault (by_name children.entry.items))
            (λ e. result ≡ Err e) }
        ensures fault { IfErr result (λ e. (children_fault (by_name children.entry.items) ≡ Some e)
            ⊎ (e ≡ TreeError.NoMemory)) }
    {
        check_children(&children)?;
        let keyed = keyed(alloc, children)?;
        Ok(object_of(alloc, keyed)?)
    }
}

// The child of that name.
fn named_in<'a>(children: &'a OrdMap<Key, Tree>, name: &str) -> Option<&'a Tree>
    ensures { option_copied result ≡ child_of children.now.entries name.now }
{
    for (key, child) in children {
        if key.text() == name {
            return Some(child);
        }
    }
    None
}

// The first fault of a name or of a child that is too deep for a key above it.
fn check_children(children: &[(&str, Tree)]) -> Result<(), TreeError>
    ensures { result_err result ≡ children_fault (by_name children.now) }
{
    for entry in children {
        check_key(entry.0)?;
        if entry.1.levels() >= MAX_LEVELS {
            return Err(TreeError::TooDeep);
        }
    }
    Ok(())
}

// The children at their keys.
fn keyed(alloc: Global, children: Vec<(&str, Tree)>) -> Result<Vec<(Key, Tree)>, AllocError>
    requires { children_fault (by_name children.items) ≡ None }
    ensures { IfOk result (λ keyed. keyed.items ≡ by_name children.entry.items) }
{
    let mut keyed = Vec::with_capacity(alloc, children.len())?;
    for (name, child) in children {
        push_keyed(&mut keyed, alloc, name, child)?;
    }
    Ok(keyed)
}

fn push_keyed(
    keyed: &mut Vec<(Key, Tree)>,
    alloc: Global,
    name: &str,
    child: Tree,
) -> Result<(), AllocError>
    requires { IsKey name.now }
    ensures { OnOk result (keyed.new.items ≡ keyed.old.items ++ (name.now, child) ∷ []) }
{
    let key = valid_key(alloc, name)?;
    keyed.push((key, child))?;
    Ok(())
}
