// The object of children that come in any order, some of them null or at one key.
ghost use Rattle.std.specs.Prelude.{◌≡◌, ◌<◌, ◌+◌, [], ◌∷◌, ◌⊎◌, ◌↔◌, MatchBool, IfOk, IfErr};
ghost use Rattle.std.specs.Prelude.{OnOk, reverse};
ghost use Rattle.std.specs.List.{All, Any};
ghost use Rattle.rt_map.specs.Maps.{IsOrdered};
ghost use Rattle.rt_tree.specs.Leaves.{key_cmp};
ghost use Rattle.rt_tree.specs.Trees.{put, object, levels, AllFull, IsAllowed};

use super::{Tree, set_child};
use crate::error::TreeError;
use crate::key::Key;
use crate::limits::MAX_LEVELS;
use rt_map::OrdMap;
use std::alloc::{AllocError, Global};

impl Tree {
    /// The object of these children, as putting each at its key in turn makes it: of equal keys the
    /// last counts, and null takes out what stood at its key. Null where no child is left.
    ///
    /// ```text
    /// let mut children = Vec::new(alloc);
    /// children.push((Key::parse(alloc, "a")?, Tree::leaf(Leaf::truth(false))))?;
    /// children.push((Key::parse(alloc, "b")?, Tree::null()))?;
    /// children.push((Key::parse(alloc, "a")?, Tree::leaf(Leaf::truth(true))))?;
    /// Tree::from_children(alloc, children)?.text(alloc)?  // {"a":true}
    /// ```
    ///
    /// Walks the children to see how deep they are, and moves them. [`Tree::object`] takes children
    /// in their order, and walks none.
    ///
    /// # Errors
    ///
    /// `TooDeep` where a child has 33 levels, else `NoMemory`. Refused children are dropped.
    pub fn from_children(alloc: Global, children: Vec<(Key, Tree)>) -> Result<Tree, TreeError>
        ensures ok { IfOk result (λ tree. tree ≡ object (reverse children.items)) }
        ensures too_deep { (result ≡ Err TreeError.TooDeep)
            ↔ Any (λ e. MAX_LEVELS < 1 + levels e.1) children.items }
        ensures errors { IfErr result (λ e. (e ≡ TreeError.TooDeep) ⊎ (e ≡ TreeError.NoMemory)) }
    {
        if is_one_too_deep(&children) {
            return Err(TreeError::TooDeep);
        }
        Ok(object_of(alloc, children)?)
    }
}

// Whether one of the children is too deep for a key above it.
fn is_one_too_deep(children: &[(Key, Tree)]) -> bool
    ensures { MatchBool result (Any (λ e. MAX_LEVELS < 1 + levels e.1) children.now)
        (All (λ e. levels e.1 < MAX_LEVELS) children.now) }
{
    for entry in children {
        if entry.1.levels() >= MAX_LEVELS {
            return true;
        }
    }
    false
}

// The object of children that have room below a key.
pub fn object_of(alloc: Global, children: Vec<(Key, Tree)>) -> Result<Tree, AllocError>
    requires { All (λ e. levels e.1 < MAX_LEVELS) children.items }
    ensures { IfOk result (λ tree. tree ≡ object (reverse children.items)) }
{
    let mut placed = OrdMap::new(alloc)?;
    for (key, child) in children {
        put_child(&mut placed, alloc, key, child)?;
    }
    Ok(Tree::object(placed))
}

// Puts a child at its key; null takes out what stands there.
fn put_child(
    children: &mut OrdMap<Key, Tree>,
    alloc: Global,
    key: Key,
    child: Tree,
) -> Result<(), AllocError>
    requires shallow { levels child < MAX_LEVELS }
    requires full { AllFull children.old.entries }
    requires allowed { IsAllowed (object children.old.entries) }
    ensures put { OnOk result
        (object children.new.entries ≡ put (object children.old.entries) (key ∷ []) child) }
    ensures full { OnOk result (AllFull children.new.entries) }
    ensures allowed { OnOk result (IsAllowed (object children.new.entries)) }
    ensures ordered { IsOrdered key_cmp children.new }
{
    // For the prover: it is a key.
    let _text = key.text();
    if child.is_null() {
        drop(children.remove(&key)?);
        return Ok(());
    }
    set_child(children, alloc, key, child)?;
    Ok(())
}
