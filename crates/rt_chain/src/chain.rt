// A chain that is cut at one place.
ghost use Rattle.std.specs.Prelude.{◌≡◌, ◌++◌, ◌∷◌, ◌≢◌, [], ℕ, List, Some, None, IfOk, IfSome, IfNone};
ghost use Rattle.std.specs.Prelude.{OnErr, OnOk, if◌then◌else◌, ◌||◌, drop, length, is_some, take};
ghost use Rattle.std.specs.List.Sorted.{IsStrictlySortedBy};
ghost use Rattle.std.specs.Option.{option_and_then, option_copied, option_map};
ghost use Rattle.std.specs.declared.cmp.Ordering.TheVariants.{Equal};
ghost use Rattle.std.specs.BTreeMap.{insert_entry, is_at};
ghost use Rattle.std.specs.Map.{keys_of, lookup, remove_entry, values_of};
ghost use Rattle.slab.specs.Slab.{HasRoomFor, SameValues, get};
ghost use Rattle.rt_chain.specs.Chains.{CrossesAhead, CrossesBack, IsApart, IsOther, Puts, all_in, below};
ghost use Rattle.rt_chain.specs.Chains.{entries_of, half_at, half_between, head_or, in_half, is_half};
ghost use Rattle.rt_chain.specs.Chains.{last_in, last_or, slots_of};
ghost use Rattle.rt_chain.specs.inside.Links.{Pushes, is_marked, joined, slot_after, slot_below, slot_next};
ghost use Rattle.rt_chain.specs.inside.Links.{slot_previous, value_in, with_mark, with_next, with_previous};
ghost use Rattle.rt_chain.specs.inside.Links.{with_value};
ghost use Rattle.rt_chain.specs.inside.Halves.{half_by, is_behind, is_front};
ghost use Rattle.rt_chain.specs.declared.chain.Half.TheVariants.{Front, Behind};

use slab::Slab;
use std::alloc::{AllocError, Global};
use std::collections::BTreeMap;
use std::marker::Model;
use std::mem;

/// Values in the order of their keys, linked in a slab, with a cut between two of them, or at an end.
///
/// A call by a key looks for it in the map from keys to slots: once where it is there, and at most three
/// times where it isn't. A call by a slot, and one that moves the cut, looks for nothing.
pub struct Chain<K: Ord, V> {
    nodes: Slab<Node<V>>,
    places: BTreeMap<K, u32>,
    last: Option<u32>,
    first: Option<u32>,
    count: usize,
}

impl<K: Ord + Drop, V: Drop> Drop for Chain<K, V> {
    fn drop(self) {
        let Chain {
            nodes: _,
            places: _,
            last: _,
            first: _,
            count: _,
        } = self;
    }
}

impl<K: Ord, V> Model for Chain<K, V> {
    ghost use Rattle.rt_chain.specs.Chains.{Chain, chain_code};
    ghost use Rattle.rt_chain.specs.inside.Halves.{IsCut, chain_of};

    ghost Value = { Chain K V };

    ghost coded = { chain_code K.code V.code };

    ghost view = { λ a. chain_of a.places.entries a.nodes };

    ghost invariant = { λ a. IsCut K.cmp a.places.entries a.nodes a.last a.first a.count
        (chain_of a.places.entries a.nodes) };
}

impl<K: Ord + Drop, V: Drop> Chain<K, V> {
    /// A chain of nothing.
    pub fn new(alloc: Global) -> Chain<K, V>
        ensures front { result.front ≡ [] }
        ensures behind { result.behind ≡ [] }
    {
        Chain {
            nodes: Slab::new(alloc),
            places: BTreeMap::new(alloc),
            last: None,
            first: None,
            count: 0,
        }
    }

    /// A chain of these entries, whose keys rise, of which so many stand in front of the cut. No key is
    /// looked for: the map from keys to slots is made in order, so that the parts of it are full.
    ///
    /// # Errors
    ///
    /// An `AllocError`, for want of memory or where there are more than 2^32 entries, after which the
    /// entries are dropped.
    pub fn from_sorted(
        alloc: Global,
        entries: Vec<(K, V)>,
        front: usize,
    ) -> Result<Chain<K, V>, AllocError>
        requires rises { IsStrictlySortedBy K.cmp (keys_of entries.items) }
        requires same { (j k : K) → K.cmp j k ≡ Equal → j ≡ k }
        ensures whole { IfOk result (λ chain. entries_of (all_in chain) ≡ entries.items) }
        ensures front { IfOk result (λ chain. entries_of chain.front ≡ take front entries.items) }
        ensures behind { IfOk result (λ chain. entries_of chain.behind ≡ drop front entries.items) }
    {
        let mut nodes = Slab::with_capacity(alloc, entries.len())?;
        let mut places = Vec::with_capacity(alloc, entries.len())?;
        let (mut tail, mut last, mut first) = (None, None, None);
        for (key, value) in entries {
            let in_front = places.len() < front;
            let slot = next_slot(&mut nodes)?;
            push(&mut nodes, slot, tail, None, value, in_front);
            places.push((key, slot))?;
            tail = Some(slot);
            last = either(in_front, tail, last);
            first = first_of(first, in_front, slot);
        }
        let count = places.len().min(front);
        let places = BTreeMap::from_iter(alloc, places)?;
        Ok(Chain {
            nodes,
            places,
            last,
            first,
            count,
        })
    }

    /// How many values. The keys rise, and no slot is one of two keys.
    pub fn len(&self) -> usize
        ensures len { result ≡ length (all_in self.now) }
        ensures rises { IsStrictlySortedBy K.cmp (keys_of (all_in self.now)) }
        ensures apart { IsApart (slots_of (all_in self.now)) }
    {
        self.places.len()
    }

    /// How many values are in front of the cut.
    pub fn front_len(&self) -> usize
        ensures { result ≡ length self.now.front }
    {
        self.count
    }

    /// How many values are behind the cut.
    pub fn behind_len(&self) -> usize
        ensures { result ≡ length self.now.behind }
    {
        self.places.len() - self.count
    }

    /// Puts a value at a key, in place of the one that was there. Where the key lies at the cut, the
    /// value comes to stand in the half that is named.
    ///
    /// # Errors
    ///
    /// An `AllocError`, for want of memory or where all 2^32 slots are taken, after which nothing has
    /// changed. A key that is there needs neither.
    pub fn put(&mut self, key: K, value: V, at_cut: Half) -> Result<Placed<V>, AllocError>
        ensures puts { IfOk result (λ p. Puts p.half K.cmp key (p.slot, value) self.old self.new) }
        ensures whole { IfOk result (λ p. all_in self.new
            ≡ insert_entry K.cmp (all_in self.old) key (p.slot, value)) }
        ensures half { IfOk result (λ p. p.half ≡ half_at K.cmp key at_cut self.old) }
        ensures slot { IfOk result (λ p. IfSome (lookup (is_at (K.cmp key)) (all_in self.old))
            (λ q. p.slot ≡ q.0)) }
        ensures old { IfOk result (λ p. p.old
            ≡ option_map (λ q. q.1) (lookup (is_at (K.cmp key)) (all_in self.old))) }
        ensures stood { IfOk result (λ p. p.old
            ≡ option_map (λ q. q.1) (lookup (is_at (K.cmp key)) (in_half p.half self.old))) }
        ensures err { OnErr result (self.new ≡ self.old) }
        ensures absent { OnErr result (lookup (is_at (K.cmp key)) (all_in self.old) ≡ None) }
    {
        if let Some(slot) = find(&self.places, &key) {
            let half = half_of(&self.nodes, slot);
            let old = set_value(&mut self.nodes, slot, value);
            return Ok(Placed { slot, half, old });
        }
        let slot = next_slot(&mut self.nodes)?;
        let previous = below(&self.places, &key);
        let next = after(&self.nodes, &self.places, previous);
        let in_front = is_front(&self.nodes, next);
        let behind = is_behind(&self.nodes, previous);
        let half = half_between(in_front, behind, at_cut);
        if let Err(failed) = self.places.insert(key, slot) {
            drop(failed);
            return Err(AllocError);
        }
        // For the prover: no more values stand in front of the cut than there are.
        let _len = self.places.len();
        match half {
            Half::Front => {
                push(&mut self.nodes, slot, previous, next, value, true);
                self.last = either(in_front, self.last, Some(slot));
                self.count += 1;
                let half = Half::Front;
                Ok(Placed {
                    slot,
                    half,
                    old: None,
                })
            }
            Half::Behind => {
                push(&mut self.nodes, slot, previous, next, value, false);
                self.first = either(behind, self.first, Some(slot));
                let half = Half::Behind;
                Ok(Placed {
                    slot,
                    half,
                    old: None,
                })
            }
        }
    }

    /// Takes out the value at a key. The answer is the half in which it stood, and the value.
    pub fn remove(&mut self, key: &K) -> Option<(Half, V)>
        ensures front { self.new.front ≡ remove_entry (is_at (K.cmp key.now)) self.old.front }
        ensures behind { self.new.behind ≡ remove_entry (is_at (K.cmp key.now)) self.old.behind }
        ensures whole { all_in self.new ≡ remove_entry (is_at (K.cmp key.now)) (all_in self.old) }
        ensures was_front { is_half Front (option_map (λ p. p.0) result)
            ≡ is_some (lookup (is_at (K.cmp key.now)) self.old.front) }
        ensures was_behind { is_half Behind (option_map (λ p. p.0) result)
            ≡ is_some (lookup (is_at (K.cmp key.now)) self.old.behind) }
        ensures value { option_map (λ p. p.1) result
            ≡ option_map (λ q. q.1) (lookup (is_at (K.cmp key.now)) (all_in self.old)) }
        ensures none { IfNone result (self.new ≡ self.old) }
    {
        let slot = self.places.remove(key)?;
        let node = self.nodes.remove(slot as usize);
        let (value, marked, previous, next) = node.parts();
        join(&mut self.nodes, previous, next);
        if marked {
            let stays = is_front(&self.nodes, next);
            self.last = either(stays, self.last, previous);
            self.count -= 1;
            Some((Half::Front, value))
        } else {
            let stays = is_behind(&self.nodes, previous);
            self.first = either(stays, self.first, next);
            Some((Half::Behind, value))
        }
    }

    /// The last value in front of the cut goes behind it. The answer is its slot.
    pub fn cross_back(&mut self) -> Option<u32>
        ensures crosses { IfSome result (λ slot. CrossesBack slot self.old self.new) }
        ensures none { IfNone result (self.old.front ≡ []) }
        ensures same { IfNone result (self.new ≡ self.old) }
    {
        let slot = self.last?;
        set_mark(&mut self.nodes, slot, false);
        self.count -= 1;
        self.first = Some(slot);
        self.last = previous_of(&self.nodes, slot);
        Some(slot)
    }

    /// The first value behind the cut goes in front of it. The answer is its slot.
    pub fn cross_ahead(&mut self) -> Option<u32>
        ensures crosses { IfSome result (λ slot. CrossesAhead slot self.old self.new) }
        ensures none { IfNone result (self.old.behind ≡ []) }
        ensures same { IfNone result (self.new ≡ self.old) }
    {
        let slot = self.first?;
        // For the prover: no more values stand in front of the cut than there are.
        let _len = self.places.len();
        set_mark(&mut self.nodes, slot, true);
        self.count += 1;
        self.last = Some(slot);
        self.first = next_of(&self.nodes, slot);
        Some(slot)
    }

    /// The value in a slot.
    pub fn get(&self, slot: u32) -> Option<&V>
        ensures value { (fs gs : List (K × (ℕ × V))) (k : K) (v : V)
            → all_in self.now ≡ fs ++ (k, (slot, v)) ∷ gs → option_copied result ≡ Some v }
        ensures none { IsOther slot (slots_of (all_in self.now)) → option_copied result ≡ None }
    {
        value_of(&self.nodes, slot)
    }

    /// The slot behind one.
    pub fn next(&self, slot: u32) -> Option<u32>
        ensures value { (fs gs : List (K × (ℕ × V))) (k : K) (v : V)
            → all_in self.now ≡ fs ++ (k, (slot, v)) ∷ gs → result ≡ head_or (slots_of gs) None }
        ensures none { IsOther slot (slots_of (all_in self.now)) → result ≡ None }
    {
        next_of(&self.nodes, slot)
    }

    /// The slot in front of one.
    pub fn previous(&self, slot: u32) -> Option<u32>
        ensures value { (fs gs : List (K × (ℕ × V))) (k : K) (v : V)
            → all_in self.now ≡ fs ++ (k, (slot, v)) ∷ gs → result ≡ last_or None (slots_of fs) }
        ensures none { IsOther slot (slots_of (all_in self.now)) → result ≡ None }
    {
        previous_of(&self.nodes, slot)
    }

    /// The last slot in front of the cut.
    pub fn last_front(&self) -> Option<u32>
        ensures { result ≡ last_or None (slots_of self.now.front) }
    {
        self.last
    }

    /// The first slot behind the cut.
    pub fn first_behind(&self) -> Option<u32>
        ensures { result ≡ head_or (slots_of self.now.behind) None }
    {
        self.first
    }

    /// The last value of a half below a key.
    pub fn before(&self, key: &K, half: Half) -> Option<&V>
        ensures { option_copied result ≡ option_map (λ e. e.1.1)
            (last_in (below (K.cmp key.now) (in_half half self.now))) }
    {
        let slot = self.slot_before(key, half)?;
        value_of(&self.nodes, slot)
    }

    // The slot of the last value of a half below a key.
    fn slot_before(&self, key: &K, half: Half) -> Option<u32>
        ensures { result ≡ last_or None (slots_of (below (K.cmp key.now) (in_half half self.now))) }
    {
        let lower = match find(&self.places, key) {
            Some(slot) => previous_of(&self.nodes, slot),
            None => below(&self.places, key),
        };
        let behind = is_behind(&self.nodes, lower);
        match half {
            Half::Front => either(behind, self.last, lower),
            Half::Behind => either(behind, lower, None),
        }
    }
}

// ---- one of the two halves of a list

/// The values in front of a cut, or those behind it.
#[derive(Clone, Copy, Debug, PartialEq, Eq)]
pub enum Half {
    Front,
    Behind,
}

// The half in which a value comes to stand: that of those beside it, or the named one at the cut.
fn half_between(in_front: bool, behind: bool, at_cut: Half) -> Half
    ensures { result ≡ half_between in_front behind at_cut }
{
    if in_front {
        Half::Front
    } else if behind {
        Half::Behind
    } else {
        at_cut
    }
}

// The old slot, where it stays, or the new one.
fn either(stays: bool, old: Option<u32>, new: Option<u32>) -> Option<u32>
    ensures { result ≡ if stays then old else new }
{
    if stays { old } else { new }
}

// The first slot behind the cut, once one came that stands in front of it or behind.
fn first_of(first: Option<u32>, in_front: bool, slot: u32) -> Option<u32>
    ensures { result ≡ if in_front || is_some first then first else Some slot }
{
    if in_front || first.is_some() {
        first
    } else {
        Some(slot)
    }
}

// ---- what a put answers

/// Where a value was put: its slot, the half in which that stands, and the value that was there.
pub struct Placed<V> {
    pub slot: u32,
    pub half: Half,
    pub old: Option<V>,
}

impl<V: Drop> Drop for Placed<V> {
    fn drop(self) {
        let Placed {
            slot: _,
            half: _,
            old: _,
        } = self;
    }
}

// ---- the slots of keys

// The slot of a key.
fn find<K: Ord>(places: &BTreeMap<K, u32>, key: &K) -> Option<u32>
    ensures { result ≡ lookup (is_at (K.cmp key.now)) places.now.entries }
{
    match places.get(key) {
        Some(slot) => Some(*slot),
        None => None,
    }
}

// The slot of the last key below this one.
fn below<K: Ord + Drop>(places: &BTreeMap<K, u32>, key: &K) -> Option<u32>
    ensures { result ≡ slot_below (K.cmp key.now) places.now.entries }
{
    match places.range(..key).next_back() {
        Some((_, slot)) => Some(*slot),
        None => None,
    }
}

// The slot behind one, or the first.
fn after<K: Ord, V>(
    nodes: &Slab<Node<V>>,
    places: &BTreeMap<K, u32>,
    previous: Option<u32>,
) -> Option<u32>
    ensures { result ≡ slot_after nodes.now places.now.entries previous }
{
    if let Some(slot) = previous {
        return next_of(nodes, slot);
    }
    match places.first_key_value() {
        Some((_, slot)) => Some(*slot),
        None => None,
    }
}

// ---- a value, its mark and its links

// A value as it stands in a slab, whether it is in front of the cut, and the slots of those beside it.
pub struct Node<V> {
    pub value: V,
    pub marked: bool,
    pub previous: Option<u32>,
    pub next: Option<u32>,
}

impl<V: Drop> Drop for Node<V> {
    fn drop(self) {
        let Node {
            value: _,
            marked: _,
            previous: _,
            next: _,
        } = self;
    }
}

impl<V> Node<V> {
    // The value, the mark, and the links.
    fn parts(self) -> (V, bool, Option<u32>, Option<u32>)
        ensures value { result.0 ≡ self.value }
        ensures marked { result.1 ≡ self.marked }
        ensures previous { result.2 ≡ self.previous }
        ensures next { result.3 ≡ self.next }
    {
        let Node {
            value,
            marked,
            previous,
            next,
        } = self;
        (value, marked, previous, next)
    }
}

// The value in a slot.
fn value_of<V>(nodes: &Slab<Node<V>>, slot: u32) -> Option<&V>
    ensures { option_copied result ≡ value_in nodes.now slot }
{
    match nodes.get(slot as usize) {
        Some(node) => Some(&node.value),
        None => None,
    }
}

// The slot behind one.
fn next_of<V>(nodes: &Slab<Node<V>>, slot: u32) -> Option<u32>
    ensures { result ≡ slot_next nodes.now slot }
{
    match nodes.get(slot as usize) {
        Some(node) => node.next,
        None => None,
    }
}

// The slot in front of one.
fn previous_of<V>(nodes: &Slab<Node<V>>, slot: u32) -> Option<u32>
    ensures { result ≡ slot_previous nodes.now slot }
{
    match nodes.get(slot as usize) {
        Some(node) => node.previous,
        None => None,
    }
}

// Whether a slot is in front of the cut.
fn is_marked<V>(nodes: &Slab<Node<V>>, slot: u32) -> bool
    ensures { result ≡ is_marked nodes.now slot }
{
    match nodes.get(slot as usize) {
        Some(node) => node.marked,
        None => false,
    }
}

// The half of a slot.
fn half_of<V>(nodes: &Slab<Node<V>>, slot: u32) -> Half
    ensures { result ≡ half_by (is_marked nodes.now slot) }
{
    if is_marked(nodes, slot) {
        Half::Front
    } else {
        Half::Behind
    }
}

// Whether there is a slot, and it is in front of the cut.
fn is_front<V>(nodes: &Slab<Node<V>>, slot: Option<u32>) -> bool
    ensures { result ≡ is_front (is_marked nodes.now) slot }
{
    match slot {
        Some(slot) => is_marked(nodes, slot),
        None => false,
    }
}

// Whether there is a slot, and it is behind the cut.
fn is_behind<V>(nodes: &Slab<Node<V>>, slot: Option<u32>) -> bool
    ensures { result ≡ is_behind (is_marked nodes.now) slot }
{
    match slot {
        Some(slot) => !is_marked(nodes, slot),
        None => false,
    }
}

// ---- nodes are linked to each other

// A slot takes four bytes: one beyond that is refused as memory.
const LAST_SLOT: usize = u32::MAX as usize;

// The slot of the next node, for which room is made.
fn next_slot<V>(nodes: &mut Slab<Node<V>>) -> Result<u32, AllocError>
    ensures room { OnOk result (HasRoomFor nodes.new 1) }
    ensures slot { IfOk result (λ slot. nodes.new.vacant_key ≡ slot) }
    ensures same { SameValues nodes.old nodes.new }
{
    nodes.reserve(1)?;
    let place = nodes.vacant_key();
    if place > LAST_SLOT {
        return Err(AllocError);
    }
    Ok(place as u32)
}

// Puts a node into the next slot, between two others.
fn push<V: Drop>(
    nodes: &mut Slab<Node<V>>,
    slot: u32,
    previous: Option<u32>,
    next: Option<u32>,
    value: V,
    marked: bool,
)
    requires room { HasRoomFor nodes.old 1 }
    requires slot { nodes.old.vacant_key ≡ slot }
    ensures { Pushes previous next slot marked value nodes.old nodes.new }
{
    nodes.insert_reserved(Node {
        value,
        marked,
        previous: None,
        next: None,
    });
    join(nodes, previous, Some(slot));
    join(nodes, Some(slot), next);
}

// Sets the value of a node. The old one is handed out.
fn set_value<V: Drop>(nodes: &mut Slab<Node<V>>, slot: u32, value: V) -> Option<V>
    ensures old { result ≡ value_in nodes.old slot }
    ensures written { get nodes.new slot ≡ option_map (with_value value) (get nodes.old slot) }
    ensures others { (n : ℕ) → n ≢ slot → get nodes.new n ≡ get nodes.old n }
{
    match nodes.get_mut(slot as usize) {
        Some(node) => Some(mem::replace(&mut node.value, value)),
        None => None,
    }
}

// Marks a node, or takes its mark.
fn set_mark<V: Drop>(nodes: &mut Slab<Node<V>>, slot: u32, marked: bool)
    ensures written { get nodes.new slot ≡ option_map (with_mark marked) (get nodes.old slot) }
    ensures others { (n : ℕ) → n ≢ slot → get nodes.new n ≡ get nodes.old n }
{
    if let Some(node) = nodes.get_mut(slot as usize) {
        node.marked = marked;
    }
}

// Sets the slot behind a node.
fn set_next<V: Drop>(nodes: &mut Slab<Node<V>>, slot: u32, link: Option<u32>)
    ensures written { get nodes.new slot ≡ option_map (with_next link) (get nodes.old slot) }
    ensures others { (n : ℕ) → n ≢ slot → get nodes.new n ≡ get nodes.old n }
{
    if let Some(node) = nodes.get_mut(slot as usize) {
        node.next = link;
    }
}

// Sets the slot in front of a node.
fn set_previous<V: Drop>(nodes: &mut Slab<Node<V>>, slot: u32, link: Option<u32>)
    ensures written { get nodes.new slot ≡ option_map (with_previous link) (get nodes.old slot) }
    ensures others { (n : ℕ) → n ≢ slot → get nodes.new n ≡ get nodes.old n }
{
    if let Some(node) = nodes.get_mut(slot as usize) {
        node.previous = link;
    }
}

// Links two nodes to each other, where they are there.
fn join<V: Drop>(nodes: &mut Slab<Node<V>>, previous: Option<u32>, next: Option<u32>)
    ensures { (n : ℕ) → get nodes.new n ≡ option_map (joined previous next n) (get nodes.old n) }
{
    if let Some(slot) = previous {
        set_next(nodes, slot, next);
    }
    if let Some(slot) = next {
        set_previous(nodes, slot, previous);
    }
}
