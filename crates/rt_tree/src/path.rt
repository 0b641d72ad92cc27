// A place in a tree.
ghost use Rattle.std.specs.Prelude.{◌≡◌, ◌↔◌, ◌++◌, ◌∷◌, [], ◌<◌, length, IfOk, IfErr, IfSome};
ghost use Rattle.std.specs.Prelude.{OnOk, Some, ◌⊎◌, is_some, string_bytes};
ghost use Rattle.std.specs.Option.{option_copied};
ghost use Rattle.std.specs.Result.{result_err};
ghost use Rattle.std.specs.List.{AllByRecursion};
ghost use Rattle.rt_tree.specs.Key.{IsKey};
ghost use Rattle.rt_tree.specs.Path.{IsPath, path_keys, path_text, path_fault};
ghost use Rattle.rt_tree.specs.Leaves.{strip};

use crate::error::TreeError;
use crate::key::{Key, check_key, valid_key};
use crate::limits::MAX_KEYS;
use std::alloc::{AllocError, Global};
use std::cmp::Ordering;
use std::fmt;
use std::marker::Model;

/// A place in a tree: at most 32 keys, from the root down. The root has none.
///
/// Paths compare key by key, each by its bytes, so that a path stands right before all that lie
/// under it.
#[derive(Debug)]
pub struct Path {
    keys: Vec<Key>,
}

impl Drop for Path {
    fn drop(self) {
        let Path { keys: _ } = self;
    }
}

impl Model for Path {
    ghost use Rattle.std.specs.Prelude.{List, ℕ, length, ◌≤◌};
    ghost use Rattle.rt_tree.specs.Path.{IsPath};

    ghost Value = { List (List ℕ) };

    ghost view = { λ a. a.keys.items };

    ghost invariant = { λ a. IsPath a.keys.items };
}

// Whether a text is a path, or why it is none: the first fault from left to right.
fn check_path(text: &str) -> Result<(), TreeError>
    ensures { result_err result ≡ path_fault text.now }
{
    let mut count: usize = 0;
    for piece in text.split('/') {
        if piece.is_empty() {
            continue;
        }
        if count == MAX_KEYS {
            return Err(TreeError::TooDeep);
        }
        check_key(piece)?;
        count += 1;
    }
    Ok(())
}

// The keys of a text that is a path.
fn valid_keys(alloc: Global, text: &str) -> Result<Vec<Key>, AllocError>
    requires { IsPath (path_keys text.now) }
    ensures { IfOk result (λ keys. keys.items ≡ path_keys text.now) }
{
    let mut keys = Vec::new(alloc);
    for piece in text.split('/') {
        if !piece.is_empty() {
            keys.push(valid_key(alloc, piece)?)?;
        }
    }
    Ok(keys)
}

// Equal keys, which share their texts.
fn copy_keys(alloc: Global, keys: &[Key]) -> Result<Vec<Key>, AllocError>
    ensures same { IfOk result (λ copies. copies.items ≡ keys.now) }
    ensures keys { OnOk result (AllByRecursion IsKey keys.now) }
{
    let mut copies = Vec::new(alloc);
    for key in keys {
        // For the prover: it is a key.
        let _text = key.text();
        copies.push(key.copy()?)?;
    }
    Ok(copies)
}

impl Path {
    /// The path of the whole tree, `/`.
    pub fn root(alloc: Global) -> Path
        ensures { result ≡ [] }
    {
        Path {
            keys: Vec::new(alloc),
        }
    }

    /// Reads a path. The text is cut at each `/`, and empty pieces are dropped: `a//b/` is `/a/b`,
    /// and both `/` and the empty text are the root.
    ///
    /// # Errors
    ///
    /// The pieces are looked at from left to right: a 33rd is `TooDeep`, and a piece that is no key
    /// is refused as [`Key::parse`] refuses it; `NoMemory` where the text is a path.
    pub fn parse(alloc: Global, text: &str) -> Result<Path, TreeError>
        ensures ok { IfOk result (λ path. path ≡ path_keys text.now) }
        ensures valid { OnOk result (IsPath (path_keys text.now)) }
        ensures refused { IfSome (path_fault text.now) (λ e. result ≡ Err e) }
        ensures fault { IfErr result (λ e. (path_fault text.now ≡ Some e) ⊎ (e ≡ TreeError.NoMemory)) }
    {
        check_path(text)?;
        Ok(Path {
            keys: valid_keys(alloc, text)?,
        })
    }

    /// The path of these keys, from the root down. They share their texts.
    ///
    /// # Errors
    ///
    /// `TooDeep` where there are more than 32, else `NoMemory`.
    pub fn from_keys(alloc: Global, keys: &[Key]) -> Result<Path, TreeError>
        ensures ok { IfOk result (λ path. path ≡ keys.now) }
        ensures too_deep { (result ≡ Err TreeError.TooDeep) ↔ (MAX_KEYS < length keys.now) }
        ensures errors { IfErr result (λ e. (e ≡ TreeError.TooDeep) ⊎ (e ≡ TreeError.NoMemory)) }
    {
        if keys.len() > MAX_KEYS {
            return Err(TreeError::TooDeep);
        }
        Ok(Path {
            keys: copy_keys(alloc, keys)?,
        })
    }

    /// The keys of the path, from the root down.
    pub fn keys(&self) -> &[Key]
        ensures keys { result.now ≡ self.now }
        ensures valid { IsPath self.now }
    {
        self.keys.as_slice()
    }

    /// The allocator of the keys, for calls that take none of their own. All allocators of this type
    /// are alike, so its contract says nothing.
    pub fn allocator(&self) -> Global {
        *self.keys.allocator()
    }

    /// Whether the other path is this one or lies under it.
    pub fn is_prefix_of(&self, other: &Path) -> bool
        ensures { result ≡ is_some (strip self.now other.now) }
    {
        other.keys().starts_with(self.keys())
    }

    /// The keys of this path below the other one; `None` where the other is no prefix of it.
    pub fn strip_prefix(&self, prefix: &Path) -> Option<&[Key]>
        ensures { option_copied result ≡ strip prefix.now self.now }
    {
        self.keys().strip_prefix(prefix.keys())
    }

    /// The path as it is printed: `/` and its keys joined by `/`. [`Path::parse`] reads it back.
    pub fn text(&self) -> Result<String, AllocError>
        ensures text { IfOk result (λ text. string_bytes text ≡ path_text self.now) }
        ensures reads_back { path_keys (path_text self.now) ≡ self.now }
    {
        let mut text = String::new(*self.keys.allocator());
        for key in &self.keys {
            text.push('/')?;
            text.push_str(key.text())?;
        }
        if self.keys.is_empty() {
            text.push('/')?;
        }
        Ok(text)
    }

    /// An equal path, whose keys share their texts.
    pub fn copy(&self) -> Result<Path, AllocError>
        ensures { IfOk result (λ path. path ≡ self.now) }
    {
        let keys = copy_keys(self.allocator(), self.keys())?;
        Ok(Path { keys })
    }

    /// The path one key further down.
    ///
    /// # Errors
    ///
    /// `TooDeep` where this one has 32 keys already, else `NoMemory`.
    pub fn child(&self, key: &Key) -> Result<Path, TreeError>
        ensures ok { IfOk result (λ path. path ≡ self.now ++ key.now ∷ []) }
        ensures too_deep { (result ≡ Err TreeError.TooDeep) ↔ (length self.now ≡ MAX_KEYS) }
        ensures errors { IfErr result (λ e. (e ≡ TreeError.TooDeep) ⊎ (e ≡ TreeError.NoMemory)) }
    {
        // For the prover: it is a key.
        let _text = key.text();
        if self.keys.len() == MAX_KEYS {
            return Err(TreeError::TooDeep);
        }
        let mut path = self.copy()?;
        path.keys.push(key.copy()?)?;
        Ok(path)
    }
}

/// A path prints as its text.
impl fmt::Display for Path {
    ghost use Rattle.rt_tree.specs.Path.{path_text};

    ghost output = { λ path. Some (path_text path) };

    fn fmt<W: fmt::Write>(&self, f: &mut fmt::Formatter<W>) -> fmt::Result {
        if self.keys.is_empty() {
            return f.write_str("/");
        }
        for key in &self.keys {
            f.write_str("/")?;
            f.write_str(key.text())?;
        }
        Ok(())
    }
}

impl PartialEq for Path {
    ghost use Rattle.std.specs.Cmp as Cmp;
    ghost use Rattle.rt_tree.specs.Leaves.{path_eq};
    ghost use Rattle.rt_tree.specs.laws.Prefixes.{paths_total};

    ghost eq = { path_eq };

    ghost laws = { Cmp.partial_equiv_from_equiv (Cmp.eq_by_cmp_equiv paths_total) };

    fn eq(&self, other: &Path) -> bool {
        self.cmp(other).is_eq()
    }
}

impl Eq for Path {
    ghost use Rattle.std.specs.Cmp.{eq_by_cmp_equiv};
    ghost use Rattle.rt_tree.specs.laws.Prefixes.{paths_total};

    ghost laws = { eq_by_cmp_equiv paths_total };
}

impl PartialOrd for Path {
    ghost use Rattle.std.specs.Ordering.{as_partial_cmp};
    ghost use Rattle.std.specs.Cmp.{partial_order_from_total};
    ghost use Rattle.rt_tree.specs.Leaves.{path_cmp};
    ghost use Rattle.rt_tree.specs.laws.Prefixes.{paths_total};

    ghost partial_cmp = { as_partial_cmp path_cmp };

    ghost laws = { partial_order_from_total paths_total };

    fn partial_cmp(&self, other: &Path) -> Option<Ordering> {
        Some(self.cmp(other))
    }
}

impl Ord for Path {
    ghost use Rattle.rt_tree.specs.Leaves.{path_cmp};
    ghost use Rattle.rt_tree.specs.laws.Prefixes.{paths_total};
    ghost use Rattle.std.proofs.Common.{rules};

    ghost cmp = { path_cmp };

    ghost total = { paths_total };

    ghost matches_partial_cmp = { Prim.search rules };

    ghost matches_eq = { Prim.search rules };

    fn cmp(&self, other: &Path) -> Ordering {
        self.keys().cmp(other.keys())
    }
}
