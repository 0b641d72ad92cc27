// A key of an object.
ghost use Rattle.std.specs.Prelude.{◌≡◌, ◌⊎◌, IfOk, IfErr, IfSome, OnOk, Some, decimal, string_bytes};
ghost use Rattle.std.specs.Prelude.{drop, slice_index_or};
ghost use Rattle.std.specs.Arc.{arc_str_bytes};
ghost use Rattle.std.specs.List.{list_all};
ghost use Rattle.std.specs.Result.{result_err};
ghost use Rattle.rt_tree.specs.Key.{IsKey, is_allowed, key_fault};
ghost use Rattle.rt_tree.specs.inside.KeyWords.{IsWord};

use crate::error::TreeError;
use crate::limits::MAX_KEY_BYTES;
use rt_map::Share;
use std::alloc::{AllocError, Global};
use std::cmp::Ordering;
use std::convert::AsStr;
use std::fmt;
use std::hash::{Hash, Hasher};
use std::marker::Model;
use std::sync::ArcStr;

/// The name of a child: 1 to 768 bytes of UTF-8 without the characters 0 to 31 and 127 and without
/// `.` `$` `#` `[` `]` `/`, as Firebase has them.
///
/// Keys compare by their bytes. A copy shares its text with the original.
pub struct Key {
    // The first eight bytes, and the next eight: they mostly tell two keys apart without their texts.
    head: u64,
    next: u64,
    text: ArcStr,
}

impl Drop for Key {
    fn drop(self) {
        let Key {
            head: _,
            next: _,
            text: _,
        } = self;
    }
}

impl Model for Key {
    ghost use Rattle.std.specs.Prelude.{List, ℕ};
    ghost use Rattle.std.specs.Arc.{arc_str_bytes};
    ghost use Rattle.rt_tree.specs.Key.{IsKey};
    ghost use Rattle.rt_tree.specs.inside.KeyWords.{HasWords};

    ghost Value = { List ℕ };

    ghost view = { λ a. arc_str_bytes a.text };

    ghost invariant = { λ a. IsKey (arc_str_bytes a.text)
        × HasWords (arc_str_bytes a.text) a.head a.next };
}

// Whether the byte may stand in a key. The bytes of a character above 127 all may.
fn is_allowed(byte: u8) -> bool
    ensures { result ≡ is_allowed byte }
{
    byte >= 32 && byte != 127 && !matches!(byte, b'.' | b'$' | b'#' | b'[' | b']' | b'/')
}

fn all_allowed(text: &str) -> bool
    ensures { result ≡ list_all is_allowed text.now }
{
    text.as_bytes().iter().all(|b| is_allowed(*b))
}

// Whether a text is a key, or why it is none.
pub fn check_key(text: &str) -> Result<(), TreeError>
    ensures { result_err result ≡ key_fault text.now }
{
    if text.is_empty() {
        return Err(TreeError::BadKey);
    }
    if text.len() > MAX_KEY_BYTES {
        return Err(TreeError::KeyTooLong);
    }
    if !all_allowed(text) {
        return Err(TreeError::BadKey);
    }
    Ok(())
}

// The byte at a place of a text; 0 behind its end.
fn byte_at(text: &[u8], at: usize) -> u8
    ensures { result ≡ slice_index_or text.now at 0 }
{
    if at < text.len() { text[at] } else { 0 }
}

// The first eight bytes of a text as a number, the first of them highest.
fn word_of(text: &[u8]) -> u64
    ensures { IsWord text.now result }
{
    let mut word: u64 = 0;
    for at in 0..8 {
        word = word * 256 + u64::from(byte_at(text, at));
    }
    word
}

// The bytes behind the first eight.
fn behind_word(text: &[u8]) -> &[u8]
    ensures { result.now ≡ drop 8 text.now }
{
    if text.len() < 8 {
        return &text[text.len()..];
    }
    &text[8..]
}

// The key of a shared text that is one.
fn shared_key(text: ArcStr) -> Key
    requires { IsKey (arc_str_bytes text) }
    ensures { result ≡ arc_str_bytes text }
{
    let bytes = text.as_str().as_bytes();
    let head = word_of(bytes);
    let next = word_of(behind_word(bytes));
    Key { head, next, text }
}

// The key of a text that is one.
pub fn valid_key(alloc: Global, text: &str) -> Result<Key, AllocError>
    requires { IsKey text.now }
    ensures { IfOk result (λ key. key ≡ text.now) }
{
    let text = ArcStr::from_str(alloc, text)?;
    Ok(shared_key(text))
}

// The key of a text that is one, which becomes the key's own.
pub fn moved_key(text: String) -> Result<Key, AllocError>
    requires { IsKey (string_bytes text) }
    ensures { IfOk result (λ key. key ≡ string_bytes text) }
{
    let text = ArcStr::from_string(text)?;
    Ok(shared_key(text))
}

// The key of a place in an array.
pub fn index_key(alloc: Global, index: usize) -> Result<Key, AllocError>
    ensures key { IfOk result (λ key. key ≡ decimal index) }
    ensures valid { OnOk result (IsKey (decimal index)) }
{
    let text = index.to_string(alloc)?;
    valid_key(alloc, text.as_str())
}

impl Key {
    /// Reads a key: the text itself, where it is one.
    ///
    /// # Errors
    ///
    /// `BadKey` for the empty text, then `KeyTooLong` for one above 768 bytes, then `BadKey` for a
    /// character that no key has; `NoMemory` where none of them holds.
    pub fn parse(alloc: Global, text: &str) -> Result<Key, TreeError>
        ensures ok { IfOk result (λ key. key ≡ text.now) }
        ensures valid { OnOk result (IsKey text.now) }
        ensures refused { IfSome (key_fault text.now) (λ e. result ≡ Err e) }
        ensures fault { IfErr result (λ e. (key_fault text.now ≡ Some e) ⊎ (e ≡ TreeError.NoMemory)) }
    {
        check_key(text)?;
        Ok(valid_key(alloc, text)?)
    }

    /// The text of the key.
    pub fn text(&self) -> &str
        ensures text { result.now ≡ self.now }
        ensures key { IsKey self.now }
    {
        self.text.as_str()
    }

    /// An equal key that shares the text, and so takes no memory.
    pub fn copy(&self) -> Result<Key, AllocError>
        ensures { IfOk result (λ key. key ≡ self.now) }
    {
        let text = self.text.clone()?;
        Ok(Key {
            head: self.head,
            next: self.next,
            text,
        })
    }
}

impl Share for Key {
    fn share(&self) -> Result<Key, AllocError> {
        self.copy()
    }
}

impl AsStr for Key {
    ghost text = { λ key. key };

    fn as_str(&self) -> &str {
        self.text()
    }
}

/// Prints the text alone, which is all that a caller can tell apart.
impl fmt::Debug for Key {
    fn fmt<W: fmt::Write>(&self, f: &mut fmt::Formatter<W>) -> fmt::Result {
        f.debug_struct("Key").field("text", &self.text).finish()
    }
}

/// A key prints as its text.
impl fmt::Display for Key {
    ghost output = { λ key. Some key };

    fn fmt<W: fmt::Write>(&self, f: &mut fmt::Formatter<W>) -> fmt::Result {
        f.write_str(self.text())
    }
}

/// A key hashes as its text.
impl Hash for Key {
    ghost use Rattle.std.specs.Hash as fed;
    ghost use Rattle.std.specs.Cmp.Rules.{hashing};
    ghost use Rattle.std.proofs.Common.{rules};

    ghost hash_input = { λ key. fed.str key };

    ghost respects_eq = { Prim.search (hashing, rules) };

    fn hash<H: Hasher>(&self, state: &mut H) {
        self.text().hash(state)
    }
}

impl PartialEq for Key {
    ghost use Rattle.std.specs.Prelude.{◌==◌};
    ghost use Rattle.std.specs.Cmp.Lexicographic.{pointwise, nat_list_eq_equiv};
    ghost use Rattle.std.specs.Cmp as Cmp;

    ghost eq = { pointwise ◌==◌ };

    ghost laws = { Cmp.partial_equiv_from_equiv nat_list_eq_equiv };

    fn eq(&self, other: &Key) -> bool {
        self.cmp(other).is_eq()
    }
}

impl Eq for Key {
    ghost use Rattle.std.specs.Cmp.Lexicographic.{nat_list_eq_equiv};

    ghost laws = { nat_list_eq_equiv };
}

impl PartialOrd for Key {
    ghost use Rattle.std.specs.Ordering.{as_partial_cmp, nat_cmp};
    ghost use Rattle.std.specs.Cmp.Lexicographic.{slice_cmp};
    ghost use Rattle.std.specs.Cmp.{partial_order_from_own_ties};
    ghost use Rattle.std.specs.Cmp.Rules.{comparing};
    ghost use Rattle.std.proofs.Common.{rules};

    ghost partial_cmp = { as_partial_cmp (slice_cmp nat_cmp) };

    ghost laws = { partial_order_from_own_ties (Prim.search (comparing, rules))
        (Prim.search (comparing, rules)) };

    fn partial_cmp(&self, other: &Key) -> Option<Ordering> {
        Some(self.cmp(other))
    }
}

impl Ord for Key {
    ghost use Rattle.std.specs.Ordering.{nat_cmp};
    ghost use Rattle.std.specs.Cmp.Lexicographic.{slice_cmp};
    ghost use Rattle.std.specs.Cmp.Rules.{comparing};
    ghost use Rattle.std.proofs.Common.{rules};

    ghost cmp = { slice_cmp nat_cmp };

    ghost total = { Prim.search (comparing, rules) };

    ghost matches_partial_cmp = { Prim.search (comparing, rules) };

    ghost matches_eq = { Prim.search (comparing, rules) };

    fn cmp(&self, other: &Key) -> Ordering {
        if self.head != other.head {
            return self.head.cmp(&other.head);
        }
        if self.next != other.next {
            return self.next.cmp(&other.next);
        }
        // The sixteenth byte is missing: no byte of a key is 0.
        if self.next % 256 == 0 {
            return Ordering::Equal;
        }
        self.text.as_bytes().cmp(other.text.as_bytes())
    }
}
