// A write, as listens are told of it.
ghost use Rattle.std.specs.Prelude.{◌≡◌, IfOk, OnOk, ◌++◌, ◌∷◌, [], None, if◌then◌else◌, ◌+◌, ◌-◌, ◌<◌, ◌≤◌};
ghost use Rattle.std.specs.Prelude.{◌^◌, length, decimal};
ghost use Rattle.std.specs.List.{All, list_all, list_any};
ghost use Rattle.std.specs.Option.{unwrap_or};
ghost use Rattle.std.specs.Ordering.{is_eq};
ghost use Rattle.std.specs.Fmt.{signed_decimal};
ghost use Rattle.json.specs.Print.{escape_byte, quoted};
ghost use Rattle.serde_json.specs.Written.{compact_text};
ghost use Rattle.rt_writes.specs.Writes.{IsShallow};
ghost use Rattle.rt_peer.specs.Pushes.{written};
ghost use Rattle.rt_peer.specs.inside.Met.{at_owner, entry_at, picked, AreMet, AreNoted, MeetsSo};
ghost use Rattle.rt_peer.specs.inside.Spots.{has_owner, owner_cmp};
ghost use Rattle.rt_tree.specs.Assignments.{is_at_or_above};
ghost use Rattle.rt_tree.specs.PathTree.{sub, put};
ghost use Rattle.rt_tree.specs.Trees.{tree_eq};
ghost use Rattle.rt_peer.specs.inside.Standing.{leaves_part, stands, tells_apart};
ghost use Rattle.rt_tree.specs.Writing.{leaf_data};
ghost use Rattle.rt_peer.specs.Lengths.{capped, text_length};

use crate::listens::{ListenKey, Owner, gather};
use crate::views::put_entry;
use rt_tree::{Key, Leaf, LeafRef, MAX_TEXT_BYTES, Path, Tree};
use std::alloc::{AllocError, Global};
use std::collections::{BTreeMap, BTreeSet};
use std::marker::Model;

// The tree before a write, and after it.
pub(crate) struct Write {
    pub(crate) before: Tree,
    pub(crate) after: Tree,
}

impl Drop for Write {
    fn drop(self) {
        let Write {
            before: _,
            after: _,
        } = self;
    }
}

impl Write {
    // Puts the entries into the tree.
    pub(crate) fn of(
        alloc: Global,
        tree: &mut Measured,
        entries: &[(Path, Tree)],
    ) -> Result<Write, AllocError>
        requires { All IsShallow entries.now }
        ensures tree { OnOk result (tree.new ≡ written tree.old entries.now) }
        ensures before { IfOk result (λ write. write.before ≡ tree.old) }
        ensures after { IfOk result (λ write. write.after ≡ tree.new) }
    {
        let before = tree.tree().copy(alloc)?;
        tree.put_all(alloc, entries)?;
        let after = tree.tree().copy(alloc)?;
        Ok(Write { before, after })
    }
}

// ---- the numbers of some entries of a write

// Numbers, as they were added.
pub(crate) struct Numbers {
    numbers: Vec<usize>,
}

impl Drop for Numbers {
    fn drop(self) {
        let Numbers { numbers: _ } = self;
    }
}

impl Model for Numbers {
    ghost use Rattle.std.specs.Prelude.{List, ℕ};

    ghost Value = { List ℕ };

    ghost view = { λ a. a.numbers.items };
}

impl Numbers {
    pub(crate) fn new(alloc: Global) -> Numbers
        ensures { result ≡ [] }
    {
        Numbers {
            numbers: Vec::new(alloc),
        }
    }

    // Adds a number.
    pub(crate) fn push(&mut self, number: usize) -> Result<(), AllocError>
        ensures { OnOk result (self.new ≡ self.old ++ number ∷ []) }
    {
        self.numbers.push(number)?;
        Ok(())
    }

    pub(crate) fn as_slice(&self) -> &[usize]
        ensures { result.now ≡ self.now }
    {
        &self.numbers
    }
}

// ---- which entries of a write meet whose listens, so that each listen is handed its own entries
// and no others

// Takes out the numbers of the owner's entries.
fn take(alloc: Global, met: &mut BTreeMap<Owner, Numbers>, owner: Owner) -> Numbers
    ensures taken { result ≡ unwrap_or (at_owner met.old.entries owner) [] }
    ensures left { (o : Owner) → at_owner met.new.entries o
        ≡ if is_eq (owner_cmp owner o) then None else at_owner met.old.entries o }
{
    match met.remove(&owner) {
        Some(numbers) => numbers,
        None => Numbers::new(alloc),
    }
}

// Notes the number of an entry for the owner.
fn note(
    alloc: Global,
    met: &mut BTreeMap<Owner, Numbers>,
    owner: Owner,
    number: usize,
) -> Result<(), AllocError>
    ensures { OnOk result (AreNoted (λ o. is_eq (owner_cmp owner o)) number met.old.entries met.new.entries) }
{
    let mut numbers = take(alloc, met, owner);
    numbers.push(number)?;
    match met.insert(owner, numbers) {
        Ok(_) => Ok(()),
        Err(_) => Err(AllocError),
    }
}

// Notes the number of an entry for each of the owners.
fn note_each(
    alloc: Global,
    met: &mut BTreeMap<Owner, Numbers>,
    owners: &BTreeSet<Owner>,
    number: usize,
) -> Result<(), AllocError>
    ensures { OnOk result (AreNoted (has_owner owners.now.keys) number met.old.entries met.new.entries) }
{
    for owner in owners.iter() {
        note(alloc, met, *owner, number)?;
    }
    Ok(())
}

// Notes the number of the entry of that path for those whose spots it overlaps.
fn note_entry(
    alloc: Global,
    met: &mut BTreeMap<Owner, Numbers>,
    spots: &BTreeSet<ListenKey>,
    path: &Path,
    number: usize,
) -> Result<(), AllocError>
    ensures { OnOk result (All (MeetsSo path.now number met.old.entries met.new.entries) spots.now.keys) }
{
    let mut found = BTreeSet::new(alloc);
    gather(alloc, spots, path, &mut found)?;
    note_each(alloc, met, &found, number)
}

// By the owner of each spot, the numbers of the entries whose paths overlap its path, in order.
pub(crate) fn entries_met(
    alloc: Global,
    spots: &BTreeSet<ListenKey>,
    entries: &[(Path, Tree)],
) -> Result<BTreeMap<Owner, Numbers>, AllocError>
    ensures { IfOk result (λ met. AreMet entries.now entries.now met.entries spots.now.keys) }
{
    let mut met = BTreeMap::new(alloc);
    for at in 0..entries.len() {
        let entry = &entries[at];
        note_entry(alloc, &mut met, spots, &entry.0, at)?;
    }
    Ok(met)
}

// Adds the entry of that number.
fn push_entry(
    alloc: Global,
    own: &mut Vec<(Path, Tree)>,
    entries: &[(Path, Tree)],
    number: usize,
) -> Result<(), AllocError>
    ensures { OnOk result (own.new.items ≡ own.old.items ++ entry_at entries.now number) }
{
    match entries.get(number) {
        Some(entry) => {
            own.push((entry.0.copy()?, entry.1.copy(alloc)?))?;
            Ok(())
        }
        None => Ok(()),
    }
}

// The entries of these numbers.
pub(crate) fn picked(
    alloc: Global,
    entries: &[(Path, Tree)],
    numbers: &[usize],
) -> Result<Vec<(Path, Tree)>, AllocError>
    ensures { IfOk result (λ own. own.items ≡ picked entries.now numbers.now) }
{
    let mut own = Vec::new(alloc);
    for number in numbers {
        push_entry(alloc, &mut own, entries, *number)?;
    }
    Ok(own)
}

// ---- what a write leaves as it is at a path, and where it is seen that it does not

// Whether an entry is at or above the path.
pub(crate) fn is_any_above(entries: &[(Path, Tree)], path: &Path) -> bool
    ensures { result ≡ list_any (λ a. is_at_or_above a.0 path.now) entries.now }
{
    entries.iter().any(|entry| entry.0.is_prefix_of(path))
}

// Whether the tree has just this part at the path.
fn has_part(tree: &Tree, path: &Path, part: &Tree) -> bool
    ensures { result ≡ tree_eq (sub tree.now path.now) part.now }
{
    match tree.get(path) {
        Some(there) => there == part,
        None => part.is_null(),
    }
}

// Whether an entry, where it is at or below the path, writes what the tree has there.
fn stands(tree: &Tree, path: &Path, entry: &(Path, Tree)) -> bool
    ensures { result ≡ stands tree.now path.now entry.now }
{
    !path.is_prefix_of(&entry.0) || has_part(tree, &entry.0, &entry.1)
}

// Whether the entries at and below the path write what the tree has there.
fn all_stand(tree: &Tree, path: &Path, entries: &[(Path, Tree)]) -> bool
    ensures { result ≡ list_all (stands tree.now path.now) entries.now }
{
    entries.iter().all(|entry| stands(tree, path, entry))
}

// Whether no entry is above the path, and those at or below it write what the tree has there: then the part
// at the path stays as it is. Costs by the entries.
pub(crate) fn leaves_part(tree: &Tree, path: &Path, entries: &[(Path, Tree)]) -> bool
    ensures { result ≡ leaves_part tree.now path.now entries.now }
{
    !is_any_above(entries, path) && all_stand(tree, path, entries)
}

// Whether the two trees have the same at the path.
pub(crate) fn is_same_at(before: &Tree, after: &Tree, path: &Path) -> bool
    ensures { result ≡ tree_eq (sub before.now path.now) (sub after.now path.now) }
{
    match after.get(path) {
        Some(part) => has_part(before, path, part),
        None => before.get(path).is_none(),
    }
}

// Whether the two trees differ where an entry at or below the path writes. Costs by the entries.
pub(crate) fn differ_below(
    before: &Tree,
    after: &Tree,
    path: &Path,
    entries: &[(Path, Tree)],
) -> bool
    ensures { result ≡ list_any (tells_apart before.now after.now path.now) entries.now }
{
    entries.iter().any(|entry| path.is_prefix_of(&entry.0) && !is_same_at(before, after, &entry.0))
}

// ---- how long the texts of trees are

// What stands in a text for a byte: a short escape, a long one, or the byte.
#[tactic(auto, unfolding(json::specs::Print::escape_byte))]
fn escaped_len(byte: u8) -> usize
    ensures len { result ≡ length (escape_byte byte) }
    ensures bound { result ≤ 6 }
{
    match byte {
        8 | 9 | 10 | 12 | 13 | 34 | 92 => 2,
        0..=31 => 6,
        _ => 1,
    }
}

// How long a text is in quotes.
fn quoted_len(bytes: &[u8]) -> usize
    requires { length bytes.now ≤ MAX_TEXT_BYTES }
    ensures len { result ≡ length (quoted bytes.now) }
    ensures bound { result ≤ 393218 }
{
    let mut len: usize = 2;
    for byte in bytes {
        len += escaped_len(*byte);
    }
    len
}

// How many digits a number has.
fn decimal_len(number: u64) -> usize
    ensures len { result ≡ length (decimal number) }
    ensures bound { result ≤ 20 }
{
    let mut rest = number;
    let mut len: usize = 1;
    while rest >= 10 {
        rest /= 10;
        len += 1;
    }
    len
}

fn number_len(number: i64) -> usize
    ensures { result ≡ length (signed_decimal number) }
{
    let digits = decimal_len(number.unsigned_abs());
    if number < 0 { digits + 1 } else { digits }
}

// How many bytes the leaf has as JSON.
fn leaf_len(leaf: &Leaf) -> usize
    ensures { result ≡ length (compact_text (leaf_data leaf.now)) }
{
    match leaf.value() {
        LeafRef::Truth(true) => 4,
        LeafRef::Truth(false) => 5,
        LeafRef::Number(value) => number_len(value),
        LeafRef::Text(value) => quoted_len(value.as_bytes()),
    }
}

// What a child with a text so long adds to the text of an object: the key in quotes, a colon, the child's
// text, and a comma or the closing bracket.
fn entry_len(key: &Key, child: usize) -> usize
    ensures { result ≡ capped (length (quoted key.now) + 2 + child) }
{
    (quoted_len(key.text().as_bytes()) + 2).saturating_add(child)
}

// How many bytes the tree has as JSON; the largest number where it has more. Walks the tree.
pub(crate) fn text_len(tree: &Tree) -> usize
    ensures { result ≡ capped (text_length tree.now) }
{
    if let Some(leaf) = tree.as_leaf() {
        return leaf_len(leaf);
    }
    let Some(children) = tree.children() else {
        return 4;
    };
    let mut len: usize = 1;
    for (key, child) in children {
        len = len.saturating_add(entry_len(key, text_len(child)));
    }
    len
}

// How long a text is with the second tree in the place of the first. Walks both.
fn replaced(before: &Tree, after: &Tree, whole: usize) -> usize
    requires counted { text_length before.now ≤ whole }
    requires exact { whole < 2 ^ 64 - 1 }
    ensures { result ≡ capped (whole - text_length before.now + text_length after.now) }
{
    (whole - text_len(before)).saturating_add(text_len(after))
}

// How long a text is with the second tree in the place of the first, of which it differs below these keys alone.
// Costs by the keys, and by what went and what came there.
pub(crate) fn changed(before: &Tree, after: &Tree, keys: &[Key], whole: usize) -> usize
    requires counted { text_length before.now ≤ whole }
    requires exact { whole < 2 ^ 64 - 1 }
    requires put { after.now ≡ put before.now keys.now (sub after.now keys.now) }
    ensures { result ≡ capped (whole - text_length before.now + text_length after.now) }
{
    let Some((key, rest)) = keys.split_first() else {
        return replaced(before, after, whole);
    };
    let Some(olds) = before.children() else {
        return replaced(before, after, whole);
    };
    let Some(news) = after.children() else {
        return replaced(before, after, whole);
    };
    match (olds.get(key), news.get(key)) {
        (Some(old), Some(new)) => changed(old, new, rest, whole),
        (Some(old), None) => whole - entry_len(key, text_len(old)),
        (None, Some(new)) => whole.saturating_add(entry_len(key, text_len(new))),
        (None, None) => whole,
    }
}

// ---- a tree, and how long its text is

// A tree, and how many bytes it has as JSON: the largest number where it has more.
pub(crate) struct Measured {
    tree: Tree,
    len: usize,
}

impl Drop for Measured {
    fn drop(self) {
        let Measured { tree: _, len: _ } = self;
    }
}

impl Model for Measured {
    ghost use Rattle.std.specs.Prelude.{◌≡◌};
    ghost use Rattle.rt_tree.specs.PathTree.{PathTree};
    ghost use Rattle.rt_peer.specs.Lengths.{capped, text_length};

    ghost Value = { PathTree };

    ghost view = { λ a. a.tree };

    ghost invariant = { λ a. a.len ≡ capped (text_length a.tree) };
}

impl Measured {
    // Walks the tree.
    pub(crate) fn of(tree: Tree) -> Measured
        ensures { result ≡ tree }
    {
        let len = text_len(&tree);
        Measured { tree, len }
    }

    pub(crate) fn tree(&self) -> &Tree
        ensures { result.now ≡ self.now }
    {
        &self.tree
    }

    // How many bytes it has as JSON; the largest number where it has more.
    pub(crate) fn text_len(&self) -> usize
        ensures { result ≡ capped (text_length self.now) }
    {
        self.len
    }

    pub(crate) fn copy(&self, alloc: Global) -> Result<Measured, AllocError>
        ensures { IfOk result (λ copy. copy ≡ self.now) }
    {
        let tree = self.tree.copy(alloc)?;
        Ok(Measured {
            tree,
            len: self.len,
        })
    }

    // Puts one entry. Path and tree are short enough together, so only memory can refuse. Costs by the path, and
    // by what goes and what comes.
    fn put(&mut self, alloc: Global, path: &Path, entry: &Tree) -> Result<(), AllocError>
        requires { IsShallow (path.now, entry.now) }
        ensures { OnOk result (self.new ≡ put self.old path.now entry.now) }
    {
        let before = self.tree.copy(alloc)?;
        put_entry(alloc, &mut self.tree, path, entry)?;
        self.len = if self.len == usize::MAX {
            text_len(&self.tree)
        } else {
            changed(&before, &self.tree, path.keys(), self.len)
        };
        Ok(())
    }

    // Puts each entry, in order.
    pub(crate) fn put_all(
        &mut self,
        alloc: Global,
        entries: &[(Path, Tree)],
    ) -> Result<(), AllocError>
        requires { All IsShallow entries.now }
        ensures { OnOk result (self.new ≡ written self.old entries.now) }
    {
        for (path, entry) in entries {
            self.put(alloc, path, entry)?;
        }
        Ok(())
    }
}
