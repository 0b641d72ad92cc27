// Nodes of trees, linked in a slab.
ghost use Rattle.std.specs.Prelude.{◌≡◌, ◌≢◌, ◌≤◌, ◌+◌, ℕ, Option, None, IfOk, OnErr, IfSome, Some};
ghost use Rattle.std.specs.Option.{option_copied, option_map};
ghost use Rattle.slab.specs.Slab.{get, slab_len, Updates};
ghost use Rattle.rt_nodes.specs.Forest.{IsRow, row_at, times};
ghost use Rattle.rt_nodes.specs.Walks.{IsPlace, spot_in, index_in, place_in};
ghost use Rattle.rt_nodes.specs.Nodes.{Inserted};
ghost use Rattle.rt_nodes.specs.Changes.{Felled, Changed, IsHead, InRow, Same, Told, without, linked_in};
ghost use Rattle.rt_nodes.specs.Changes.{with_content, with_value, joined, with_next, with_previous};
ghost use Rattle.rt_nodes.specs.inside.Ranks.{IsRanked};
ghost use Rattle.rt_order.specs.KeyOrder.{key_cmp};

use crate::children::Ranks;
use rt_order::{PlacedKey, PlacedRef};
use rt_tree::Key;
use slab::Slab;
use std::alloc::{AllocError, Global};
use std::cmp::Ordering;
use std::marker::Model;

/// Nodes by their numbers, each with its key, its links and a value. A contract sees them as the
/// slab that they stand in.
///
/// To find a child costs by the logarithm of the number of its siblings.
#[derive(Debug)]
pub struct Linked<V> {
    nodes: Slab<Slot<V>>,
    // The children of each node in the order of keys, from which searches begin.
    ranks: Ranks,
}

impl<V: Drop> Drop for Linked<V> {
    fn drop(self) {
        let Linked { nodes: _, ranks: _ } = self;
    }
}

impl<V> Model for Linked<V> {
    ghost use Rattle.slab.specs.Slab.{Slab as Slots, slab_code};
    ghost use Rattle.rt_nodes.specs.declared.nodes.Slot.{Slot as SlotValue};
    ghost use Rattle.rt_nodes.specs.Nodes.{slot_code};

    ghost Value = { Slots (SlotValue V) };

    ghost coded = { slab_code (slot_code V.code) };

    ghost use Rattle.rt_nodes.specs.inside.Ranks.{IsRanked};

    ghost view = { λ a. a.nodes };

    ghost invariant = { λ a. IsRanked a.nodes a.ranks };
}

impl<V: Drop> Linked<V> {
    /// No nodes.
    pub fn new(alloc: Global) -> Linked<V>
        ensures empty { (n : ℕ) → get result n ≡ None }
        ensures len { slab_len result ≡ 0 }
    {
        Linked {
            nodes: Slab::new(alloc),
            ranks: Ranks::new(alloc),
        }
    }

    /// The node of this number.
    pub fn get(&self, index: usize) -> Option<&Slot<V>>
        ensures { option_copied result ≡ get self.now index }
    {
        self.nodes.get(index)
    }

    /// Makes a node under this parent, to which no other leads yet. The answer is its number.
    ///
    /// # Errors
    ///
    /// An `AllocError`, after which every node is as it was.
    pub fn insert(
        &mut self,
        alloc: Global,
        parent: Option<usize>,
        key: &Key,
        value: V,
    ) -> Result<usize, AllocError>
        ensures ok { IfOk result (λ n. Inserted self.old self.new n key.now parent value) }
        ensures err { OnErr result (Same self.old self.new) }
    {
        let name = PlacedKey::of(key.copy()?);
        let index = self.nodes.insert(Slot {
            key: name,
            parent,
            first_child: None,
            previous: None,
            next: None,
            value,
        })?;
        if let Err(error) = self
            .ranks
            .add(alloc, &self.nodes, parent, &PlacedRef::of(key), index)
        {
            drop(self.nodes.try_remove(index));
            return Err(error);
        }
        Ok(index)
    }

    /// Takes one node out of the slab, and changes no link.
    pub fn remove(&mut self, index: usize)
        ensures updates { Updates self.old self.new index None }
        ensures len { get self.old index ≢ None → slab_len self.new + 1 ≡ slab_len self.old }
    {
        if let Some(slot) = self.nodes.try_remove(index) {
            let key = slot.key.borrowed();
            self.ranks.remove(&self.nodes, slot.parent, &key, index);
        }
    }

    /// Puts a node between two siblings, of which either may be missing.
    pub fn link(&mut self, previous: Option<usize>, index: usize, next: Option<usize>)
        ensures each { (n : ℕ) → get self.new n ≡ option_map (linked_in previous index next n)
            (get self.old n) }
        ensures len { slab_len self.new ≡ slab_len self.old }
    {
        link(&mut self.nodes, previous, index, next);
    }

    /// Sets what a node carries, and its first child.
    pub fn set_content(&mut self, index: usize, value: V, link: Option<usize>)
        ensures written { get self.new index ≡ option_map (with_content value link)
            (get self.old index) }
        ensures others { (n : ℕ) → n ≢ index → get self.new n ≡ get self.old n }
        ensures len { slab_len self.new ≡ slab_len self.old }
    {
        set_content(&mut self.nodes, index, value, link);
    }

    /// Sets what a node carries. The answer is what it carried; `None` where no node has the number.
    pub fn exchange(&mut self, index: usize, value: V) -> Option<V>
        ensures value { result ≡ option_map (λ slot. slot.value) (get self.old index) }
        ensures written { get self.new index ≡ option_map (with_value value) (get self.old index) }
        ensures others { (n : ℕ) → n ≢ index → get self.new n ≡ get self.old n }
        ensures len { slab_len self.new ≡ slab_len self.old }
    {
        exchange(&mut self.nodes, index, value)
    }

    /// Takes the nodes of a row out of the slab, with all below it.
    pub fn fell(&mut self, first: Option<usize>)
        requires place { IsPlace self.old first }
        requires once { (n : ℕ) → times n (row_at self.old first) ≤ 1 }
        ensures { Felled self.old self.new (row_at self.old first) }
    {
        fell(&mut self.nodes, &mut self.ranks, first);
    }

    /// Takes a node out of its row, with all below it. The answer is the first node that is left.
    pub fn take_out(&mut self, first: Option<usize>, index: usize) -> Option<usize>
        requires head { IsHead self.old first }
        requires once { (n : ℕ) → times n (row_at self.old first) ≤ 1 }
        requires there { InRow index (row_at self.old first) }
        ensures row { (parent : Option ℕ) → IsRow self.old first parent None (row_at self.old first)
            → IsRow self.new result parent None (without index (row_at self.old first)) }
        ensures changed { Changed self.old self.new (row_at self.old first)
            (without index (row_at self.old first)) }
    {
        take_out(&mut self.nodes, &mut self.ranks, first, index)
    }

    /// Where a key stands in a row.
    pub fn seek(&self, row: Siblings, key: &Key) -> SeekResult
        requires row { IsRow self.now row.first row.parent None (row_at self.now row.first) }
        requires told { Told self.now row.first row.parent }
        ensures { result ≡ spot_in key.now None (row_at self.now row.first) }
    {
        seek(&self.nodes, &self.ranks, row, key)
    }

    /// The node of a key in a row.
    pub fn find(&self, row: Siblings, key: &Key) -> Option<usize>
        requires row { IsRow self.now row.first row.parent None (row_at self.now row.first) }
        requires told { Told self.now row.first row.parent }
        ensures { result ≡ index_in key.now (row_at self.now row.first) }
    {
        find(&self.nodes, &self.ranks, row, key)
    }

    /// The node at a path below a row.
    pub fn descend(&self, row: Siblings, key: &Key, rest: &[Key]) -> Option<usize>
        requires row { IsRow self.now row.first row.parent None (row_at self.now row.first) }
        requires told { Told self.now row.first row.parent }
        ensures { result ≡ place_in key.now rest.now (row_at self.now row.first) }
    {
        descend(&self.nodes, &self.ranks, row, key, rest)
    }
}

// ---- a node as it stands in a slab

/// A node: its key, its links, and what it carries.
#[derive(Debug)]
pub struct Slot<V> {
    pub key: PlacedKey,
    pub parent: Option<usize>,
    pub first_child: Option<usize>,
    pub previous: Option<usize>,
    pub next: Option<usize>,
    pub value: V,
}

impl<V: Drop> Drop for Slot<V> {
    fn drop(self) {
        let Slot {
            key: _,
            parent: _,
            first_child: _,
            previous: _,
            next: _,
            value: _,
        } = self;
    }
}

// ---- nodes are linked and taken out

// Sets the sibling behind a node.
pub(crate) fn set_next<V: Drop>(nodes: &mut Slab<Slot<V>>, index: usize, link: Option<usize>)
    ensures written { get nodes.new index ≡ option_map (with_next link) (get nodes.old index) }
    ensures others { (n : ℕ) → n ≢ index → get nodes.new n ≡ get nodes.old n }
    ensures len { slab_len nodes.new ≡ slab_len nodes.old }
{
    if let Some(slot) = nodes.get_mut(index) {
        slot.next = link;
    }
}

// Sets the sibling in front of a node.
pub(crate) fn set_previous<V: Drop>(nodes: &mut Slab<Slot<V>>, index: usize, link: Option<usize>)
    ensures written { get nodes.new index ≡ option_map (with_previous link) (get nodes.old index) }
    ensures others { (n : ℕ) → n ≢ index → get nodes.new n ≡ get nodes.old n }
    ensures len { slab_len nodes.new ≡ slab_len nodes.old }
{
    if let Some(slot) = nodes.get_mut(index) {
        slot.previous = link;
    }
}

// Links two siblings to each other, where they are there.
pub(crate) fn join<V: Drop>(nodes: &mut Slab<Slot<V>>, previous: Option<usize>, next: Option<usize>)
    ensures each { (n : ℕ) → get nodes.new n ≡ option_map (joined previous next n) (get nodes.old n) }
    ensures len { slab_len nodes.new ≡ slab_len nodes.old }
{
    if let Some(index) = previous {
        set_next(nodes, index, next);
    }
    if let Some(index) = next {
        set_previous(nodes, index, previous);
    }
}

// Puts a node between two siblings.
pub(crate) fn link<V: Drop>(
    nodes: &mut Slab<Slot<V>>,
    previous: Option<usize>,
    index: usize,
    next: Option<usize>,
)
    ensures each { (n : ℕ) → get nodes.new n ≡ option_map (linked_in previous index next n)
        (get nodes.old n) }
    ensures len { slab_len nodes.new ≡ slab_len nodes.old }
{
    join(nodes, previous, Some(index));
    join(nodes, Some(index), next);
}

// Sets what a node carries, and its first child.
pub(crate) fn set_content<V: Drop>(
    nodes: &mut Slab<Slot<V>>,
    index: usize,
    value: V,
    link: Option<usize>,
)
    ensures written { get nodes.new index ≡ option_map (with_content value link) (get nodes.old index) }
    ensures others { (n : ℕ) → n ≢ index → get nodes.new n ≡ get nodes.old n }
    ensures len { slab_len nodes.new ≡ slab_len nodes.old }
{
    if let Some(slot) = nodes.get_mut(index) {
        slot.first_child = link;
        slot.value = value;
    }
}

// Sets what a node carries. The answer is what it carried.
pub(crate) fn exchange<V: Drop>(nodes: &mut Slab<Slot<V>>, index: usize, value: V) -> Option<V>
    ensures value { result ≡ option_map (λ slot. slot.value) (get nodes.old index) }
    ensures written { get nodes.new index ≡ option_map (with_value value) (get nodes.old index) }
    ensures others { (n : ℕ) → n ≢ index → get nodes.new n ≡ get nodes.old n }
    ensures len { slab_len nodes.new ≡ slab_len nodes.old }
{
    match nodes.get_mut(index) {
        Some(slot) => Some(std::mem::replace(&mut slot.value, value)),
        None => None,
    }
}

// Takes the nodes of a row out of the slab, with all below them.
pub(crate) fn fell<V: Drop>(nodes: &mut Slab<Slot<V>>, ranks: &mut Ranks, first: Option<usize>)
    requires place { IsPlace nodes.old first }
    requires once { (n : ℕ) → times n (row_at nodes.old first) ≤ 1 }
    requires ranked { IsRanked nodes.old ranks.old }
    ensures felled { Felled nodes.old nodes.new (row_at nodes.old first) }
    ensures ranked { IsRanked nodes.new ranks.new }
{
    let mut next = first;
    while let Some(index) = next {
        let Some(slot) = nodes.try_remove(index) else {
            return;
        };
        ranks.remove(nodes, slot.parent, &slot.key.borrowed(), index);
        next = slot.next;
        let below = slot.first_child;
        drop(slot);
        fell(nodes, ranks, below);
    }
}

// Takes a node out of its row, with all below it. The answer is the first node that is left.
pub(crate) fn take_out<V: Drop>(
    nodes: &mut Slab<Slot<V>>,
    ranks: &mut Ranks,
    first: Option<usize>,
    index: usize,
) -> Option<usize>
    requires head { IsHead nodes.old first }
    requires once { (n : ℕ) → times n (row_at nodes.old first) ≤ 1 }
    requires there { InRow index (row_at nodes.old first) }
    requires ranked { IsRanked nodes.old ranks.old }
    ensures row { (parent : Option ℕ) → IsRow nodes.old first parent None (row_at nodes.old first)
        → IsRow nodes.new result parent None (without index (row_at nodes.old first)) }
    ensures changed { Changed nodes.old nodes.new (row_at nodes.old first)
        (without index (row_at nodes.old first)) }
    ensures ranked { IsRanked nodes.new ranks.new }
{
    let Some(slot) = nodes.try_remove(index) else {
        return first;
    };
    ranks.remove(nodes, slot.parent, &slot.key.borrowed(), index);
    let below = slot.first_child;
    let previous = slot.previous;
    let next = slot.next;
    drop(slot);
    join(nodes, previous, next);
    fell(nodes, ranks, below);
    match previous {
        None => next,
        Some(_) => first,
    }
}

// ---- how keys and paths are found in rows of siblings

// The children of a node, or of the root: the first of them.
#[derive(Clone, Copy)]
pub struct Siblings {
    pub parent: Option<usize>,
    pub first: Option<usize>,
}

// Where a key stands in a row: at a node, or else between two siblings, of which either may be missing.
#[derive(Clone, Copy)]
pub enum SeekResult {
    Here(usize),
    Gap(Option<usize>, Option<usize>),
}

// How a key stands to that of a node.
fn order<V>(key: &PlacedRef<'_>, slot: &Slot<V>) -> Ordering
    ensures { result ≡ key_cmp key.now slot.now.key }
{
    key.cmp(&slot.key.borrowed())
}

// The child of `parent` that the ranks have at the key, or last in front of it.
fn nearest<V>(
    nodes: &Slab<Slot<V>>,
    ranks: &Ranks,
    parent: Option<usize>,
    key: &PlacedRef<'_>,
) -> Option<usize>
    ensures { IfSome result (λ n. (slot : Slot V) × (get nodes.now n ≡ Some slot)
        × (slot.parent ≡ parent)) }
{
    let index = ranks.nearest(nodes, parent, key)?;
    let slot = nodes.get(index)?;
    if slot.parent == parent {
        Some(index)
    } else {
        None
    }
}

// Passes the siblings in front of a key, from `next` on, which stands behind `previous`.
fn walk<V>(
    nodes: &Slab<Slot<V>>,
    previous: Option<usize>,
    next: Option<usize>,
    key: &PlacedRef<'_>,
) -> SeekResult
    requires { IsPlace nodes.now next }
    ensures { result ≡ spot_in key.now previous (row_at nodes.now next) }
{
    let mut previous = previous;
    let mut next = next;
    while let Some(index) = next {
        let slot = nodes.get(index).unwrap();
        match order(key, slot) {
            Ordering::Less => return SeekResult::Gap(previous, next),
            Ordering::Equal => return SeekResult::Here(index),
            Ordering::Greater => {
                previous = next;
                next = slot.next;
            }
        }
    }
    SeekResult::Gap(previous, None)
}

// `seek`, with the key's place known. The search begins at the nearest sibling.
fn pass<V>(nodes: &Slab<Slot<V>>, ranks: &Ranks, row: Siblings, key: &PlacedRef<'_>) -> SeekResult
    requires row { IsRow nodes.now row.first row.parent None (row_at nodes.now row.first) }
    requires told { Told nodes.now row.first row.parent }
    ensures { result ≡ spot_in key.now None (row_at nodes.now row.first) }
{
    let Some(index) = nearest(nodes, ranks, row.parent, key) else {
        return walk(nodes, None, row.first, key);
    };
    let slot = nodes.get(index).unwrap();
    match order(key, slot) {
        Ordering::Less => walk(nodes, None, row.first, key),
        Ordering::Equal => SeekResult::Here(index),
        Ordering::Greater => walk(nodes, Some(index), slot.next, key),
    }
}

// The spot of a key in a row.
pub(crate) fn seek<V>(nodes: &Slab<Slot<V>>, ranks: &Ranks, row: Siblings, key: &Key) -> SeekResult
    requires row { IsRow nodes.now row.first row.parent None (row_at nodes.now row.first) }
    requires told { Told nodes.now row.first row.parent }
    ensures { result ≡ spot_in key.now None (row_at nodes.now row.first) }
{
    pass(nodes, ranks, row, &PlacedRef::of(key))
}

// The node of a key in a row.
pub(crate) fn find<V>(
    nodes: &Slab<Slot<V>>,
    ranks: &Ranks,
    row: Siblings,
    key: &Key,
) -> Option<usize>
    requires row { IsRow nodes.now row.first row.parent None (row_at nodes.now row.first) }
    requires told { Told nodes.now row.first row.parent }
    ensures { result ≡ index_in key.now (row_at nodes.now row.first) }
{
    match seek(nodes, ranks, row, key) {
        SeekResult::Here(index) => Some(index),
        SeekResult::Gap(_, _) => None,
    }
}

// The node at a path below a row.
pub(crate) fn descend<V>(
    nodes: &Slab<Slot<V>>,
    ranks: &Ranks,
    row: Siblings,
    key: &Key,
    rest: &[Key],
) -> Option<usize>
    requires row { IsRow nodes.now row.first row.parent None (row_at nodes.now row.first) }
    requires told { Told nodes.now row.first row.parent }
    ensures { result ≡ place_in key.now rest.now (row_at nodes.now row.first) }
{
    let index = find(nodes, ranks, row, key)?;
    match rest.split_first() {
        None => Some(index),
        Some((key, rest)) => match nodes.get(index) {
            Some(slot) => {
                let below = Siblings {
                    parent: Some(index),
                    first: slot.first_child,
                };
                descend(nodes, ranks, below, key, rest)
            }
            None => None,
        },
    }
}
