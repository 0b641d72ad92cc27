// What the client asks the server for.
ghost use Rattle.std.specs.Prelude.{◌≡◌, IfOk, string_bytes};
ghost use Rattle.std.specs.List.{list_any};
ghost use Rattle.rt_tree.specs.Assignments.{have_overlap};
ghost use Rattle.rt_wire.specs.Actions.{entries_of, is_empty_action, stands_too_deep};

use rt_tree::{Path, Tree};
use rt_writes::{Entries, is_shallow};
use std::alloc::{AllocError, Global};
use std::marker::Model;

/// What a write sets.
#[derive(Debug, Drop)]
pub enum Action {
    /// One tree at a path; null removes.
    Put { path: Path, tree: Tree },
    /// Several trees, each at its path.
    Merge { entries: Entries },
}

/// What is to be done when the connection ends.
#[derive(Debug, Drop)]
pub enum Ending {
    /// The server runs it, once.
    Run(Action),
    /// What was to be run at and below a path is dropped.
    Cancel(Path),
}

/// What a request asks for.
#[derive(Debug, Drop)]
pub enum Asked {
    /// A write.
    Now(Action),
    /// Something for the end of the connection.
    AtDisconnect(Ending),
}

impl Action {
    /// An equal action. Its keys and trees are shared.
    ///
    /// # Errors
    ///
    /// Want of memory.
    pub fn copy(&self, alloc: Global) -> Result<Action, AllocError>
        ensures { IfOk result (λ copy. copy ≡ self.now) }
    {
        match self {
            Action::Put { path, tree } => {
                let path = path.copy()?;
                let tree = tree.copy(alloc)?;
                Ok(Action::Put { path, tree })
            }
            Action::Merge { entries } => {
                let entries = entries.copy()?;
                Ok(Action::Merge { entries })
            }
        }
    }

    /// The paths and trees that the action sets, shared with it.
    ///
    /// # Errors
    ///
    /// Want of memory.
    pub fn entries(&self, alloc: Global) -> Result<Entries, AllocError>
        ensures { IfOk result (λ entries. entries ≡ entries_of self.now) }
    {
        match self {
            Action::Put { path, tree } => {
                let mut items = Vec::new(alloc);
                items.push((path.copy()?, tree.copy(alloc)?))?;
                Ok(Entries::of(items))
            }
            Action::Merge { entries } => entries.copy(),
        }
    }

    /// Whether of two of its entries one is at or above the other. Compares each with each.
    pub fn has_overlap(&self) -> bool
        ensures { result ≡ have_overlap (entries_of self.now) }
    {
        match self {
            Action::Put { .. } => false,
            Action::Merge { entries } => entries.have_overlap(),
        }
    }

    /// Whether it is an update without entries.
    pub fn is_empty(&self) -> bool
        ensures { result ≡ is_empty_action self.now }
    {
        match self {
            Action::Put { .. } => false,
            Action::Merge { entries } => match entries.as_slice() {
                [] => true,
                [_, ..] => false,
            },
        }
    }

    /// Whether a leaf that it sets would stand under more than 32 keys.
    pub fn is_too_deep(&self) -> bool
        ensures { result ≡ list_any stands_too_deep (entries_of self.now) }
    {
        match self {
            Action::Put { path, tree } => stands_too_deep(path, tree),
            Action::Merge { entries } => some_stands_too_deep(entries),
        }
    }
}

/// Whether a leaf of the tree, set at the path, would stand under more than 32 keys.
pub fn stands_too_deep(path: &Path, tree: &Tree) -> bool
    ensures { result ≡ stands_too_deep (path.now, tree.now) }
{
    !is_shallow(path, tree)
}

/// Whether a leaf of one of these entries would.
pub fn some_stands_too_deep(entries: &Entries) -> bool
    ensures { result ≡ list_any stands_too_deep entries.now }
{
    entries
        .as_slice()
        .iter()
        .any(|entry| stands_too_deep(&entry.0, &entry.1))
}

impl Ending {
    /// An equal one. Its keys and trees are shared.
    ///
    /// # Errors
    ///
    /// Want of memory.
    pub fn copy(&self, alloc: Global) -> Result<Ending, AllocError>
        ensures { IfOk result (λ copy. copy ≡ self.now) }
    {
        match self {
            Ending::Run(action) => Ok(Ending::Run(action.copy(alloc)?)),
            Ending::Cancel(path) => Ok(Ending::Cancel(path.copy()?)),
        }
    }
}

impl Asked {
    /// An equal one: a request stays with the core until it is settled, and one is sent. Their keys
    /// and trees are shared.
    ///
    /// # Errors
    ///
    /// Want of memory.
    pub fn copy(&self, alloc: Global) -> Result<Asked, AllocError>
        ensures { IfOk result (λ copy. copy ≡ self.now) }
    {
        match self {
            Asked::Now(action) => Ok(Asked::Now(action.copy(alloc)?)),
            Asked::AtDisconnect(ending) => Ok(Asked::AtDisconnect(ending.copy(alloc)?)),
        }
    }
}

// ---- why the server refuses or revokes

/// Why the server refuses a request or revokes a listen, in its own words.
#[derive(Debug)]
pub struct Reason {
    text: String,
}

impl Drop for Reason {
    fn drop(self) {
        let Reason { text: _ } = self;
    }
}

impl Model for Reason {
    ghost use Rattle.std.specs.Prelude.{List, ℕ, string_bytes};

    ghost Value = { List ℕ };

    ghost view = { λ a. string_bytes a.text };
}

impl Reason {
    /// The reason with that text.
    pub fn of(text: String) -> Reason
        ensures { result ≡ string_bytes text }
    {
        Reason { text }
    }

    /// The text of the reason.
    pub fn text(&self) -> &str
        ensures { result.now ≡ self.now }
    {
        self.text.as_str()
    }

    /// An equal reason.
    pub fn copy(&self, alloc: Global) -> Result<Reason, AllocError>
        ensures { IfOk result (λ reason. reason ≡ self.now) }
    {
        let text = String::from_str(alloc, self.text.as_str())?;
        Ok(Reason { text })
    }
}
