// The children of a node in the order of keys, in pieces: a child more or less moves those of its
// piece alone.
ghost use Rattle.std.specs.Prelude.{◌≡◌, ◌+◌, ◌<◌, ◌≤◌, ℕ, Some, length, slice_get, nat_eq, true, false};
ghost use Rattle.std.specs.Prelude.{IfSome, IfNone, OnOk, OnErr, Option, vec_len};
ghost use Rattle.rt_nodes.specs.Forest.{one_if};
ghost use Rattle.rt_nodes.specs.inside.Often.{in_piece, in_pieces, in_row, in_nth};

use crate::nodes::Slot;
use rt_order::PlacedRef;
use rt_tree::Key;
use slab::Slab;
use std::alloc::{AllocError, Global};
use std::cmp::Ordering;

// How many places a piece has before it is parted.
const PIECE: usize = 128;
// How many stay in the lower part.
const LOWER: usize = 64;

// A child, and a number that rises with its key.
#[derive(Clone, Copy, Debug)]
pub(crate) struct PiecePlace {
    head: u64,
    child: usize,
}

// The first piece, and those behind it.
#[derive(Debug)]
pub(crate) struct Children {
    first: Vec<PiecePlace>,
    more: Vec<Vec<PiecePlace>>,
}

impl Drop for Children {
    fn drop(self) {
        let Children { first: _, more: _ } = self;
    }
}

// How a key stands to that of a place. A child that has left the nodes has the key itself.
fn order_at<V>(
    nodes: &Slab<Slot<V>>,
    key: &PlacedRef<'_>,
    head: u64,
    place: PiecePlace,
) -> Ordering {
    match head.cmp(&place.head) {
        Ordering::Less => Ordering::Less,
        Ordering::Greater => Ordering::Greater,
        Ordering::Equal => match nodes.get(place.child) {
            Some(slot) => key.cmp(&slot.key.borrowed()),
            None => Ordering::Equal,
        },
    }
}

// How many of the places stand at the key or in front of it.
fn place_of<V>(piece: &[PiecePlace], nodes: &Slab<Slot<V>>, key: &PlacedRef<'_>, head: u64) -> usize
    ensures { result ≤ length piece.now }
{
    let mut low = 0;
    let mut high = piece.len();
    while low < high {
        let middle = low + (high - low) / 2;
        match order_at(nodes, key, head, piece[middle]) {
            Ordering::Less => high = middle,
            Ordering::Equal | Ordering::Greater => low = middle + 1,
        }
    }
    low
}

// Whether the key stands in front of a piece.
fn is_in_front<V>(
    piece: &[PiecePlace],
    nodes: &Slab<Slot<V>>,
    key: &PlacedRef<'_>,
    head: u64,
) -> bool {
    match piece.first() {
        Some(place) => order_at(nodes, key, head, *place).is_lt(),
        None => false,
    }
}

// How many of the pieces begin at the key or in front of it.
fn piece_of<V>(
    pieces: &[Vec<PiecePlace>],
    nodes: &Slab<Slot<V>>,
    key: &PlacedRef<'_>,
    head: u64,
) -> usize
    ensures { result ≤ length pieces.now }
{
    let mut low = 0;
    let mut high = pieces.len();
    while low < high {
        let middle = low + (high - low) / 2;
        if is_in_front(pieces[middle].as_slice(), nodes, key, head) {
            high = middle;
        } else {
            low = middle + 1;
        }
    }
    low
}

// The first place from `from` on at which the child stands.
fn place_from(piece: &[PiecePlace], from: usize, child: usize) -> Option<usize>
    ensures there { IfSome result (λ place. (there : PiecePlace) × (slice_get piece.now place ≡ Some there)
        × (there.child ≡ child)) }
    ensures none { IfNone result (from ≡ 0 → in_piece child piece.now ≡ 0) }
{
    for place in from..piece.len() {
        if piece[place].child == child {
            return Some(place);
        }
    }
    None
}

// The place at which a child stands.
fn find_child<V>(
    piece: &[PiecePlace],
    nodes: &Slab<Slot<V>>,
    key: &PlacedRef<'_>,
    head: u64,
    child: usize,
) -> Option<usize>
    ensures there { IfSome result (λ place. (there : PiecePlace) × (slice_get piece.now place ≡ Some there)
        × (there.child ≡ child)) }
    ensures none { IfNone result (in_piece child piece.now ≡ 0) }
{
    let near = place_of(piece, nodes, key, head).saturating_sub(1);
    match place_from(piece, near, child) {
        Some(place) => Some(place),
        None => place_from(piece, 0, child),
    }
}

// Puts a child at the place of its key.
fn insert_at<V>(
    piece: &mut Vec<PiecePlace>,
    nodes: &Slab<Slot<V>>,
    key: &PlacedRef<'_>,
    place: PiecePlace,
) -> Result<(), AllocError>
    ensures ok { OnOk result ((m : ℕ) → in_piece m piece.new.items
        ≡ in_piece m piece.old.items + one_if (nat_eq m place.child)) }
    ensures err { OnErr result (piece.new.items ≡ piece.old.items) }
{
    let at = place_of(piece.as_slice(), nodes, key, place.head);
    piece.insert(at, place)?;
    Ok(())
}

// Takes out a child, where it stands here.
fn take_from<V>(
    piece: &mut Vec<PiecePlace>,
    nodes: &Slab<Slot<V>>,
    key: &PlacedRef<'_>,
    head: u64,
    child: usize,
) -> bool
    ensures taken { result ≡ true → (m : ℕ) → in_piece m piece.new.items + one_if (nat_eq m child)
        ≡ in_piece m piece.old.items }
    ensures kept { result ≡ false → piece.new ≡ piece.old }
    ensures none { result ≡ false → in_piece child piece.old.items ≡ 0 }
{
    match find_child(piece.as_slice(), nodes, key, head, child) {
        Some(place) => {
            piece.remove(place);
            true
        }
        None => false,
    }
}

// Takes a child out of one of the pieces, where it stands there. A piece that is left empty goes.
fn take_in<V>(
    pieces: &mut Vec<Vec<PiecePlace>>,
    at: usize,
    nodes: &Slab<Slot<V>>,
    key: &PlacedRef<'_>,
    head: u64,
    child: usize,
) -> bool
    requires { at < length pieces.old.items }
    ensures taken { result ≡ true → (m : ℕ) → in_pieces m pieces.new.items + one_if (nat_eq m child)
        ≡ in_pieces m pieces.old.items }
    ensures kept { result ≡ false → (m : ℕ) → in_pieces m pieces.new.items
        ≡ in_pieces m pieces.old.items }
{
    if !take_from(&mut pieces[at], nodes, key, head, child) {
        return false;
    }
    if pieces[at].is_empty() {
        pieces.remove(at);
    }
    true
}

// Takes a child out of the piece that it stands in.
fn take_anywhere<V>(
    pieces: &mut Vec<Vec<PiecePlace>>,
    nodes: &Slab<Slot<V>>,
    key: &PlacedRef<'_>,
    head: u64,
    child: usize,
)
    requires { 0 < in_pieces child pieces.old.items }
    ensures { (m : ℕ) → in_pieces m pieces.new.items + one_if (nat_eq m child)
        ≡ in_pieces m pieces.old.items }
{
    for at in 0..pieces.len() {
        if let Some(place) = find_child(pieces[at].as_slice(), nodes, key, head, child) {
            pieces[at].remove(place);
            return;
        }
    }
}

// Parts a piece in two, where it is full.
fn part(pieces: &mut Vec<Vec<PiecePlace>>, alloc: Global, at: usize) -> Result<(), AllocError>
    requires { at < length pieces.old.items }
    ensures { (m : ℕ) → in_pieces m pieces.new.items ≡ in_pieces m pieces.old.items }
{
    if pieces[at].len() < PIECE {
        return Ok(());
    }
    let upper = Vec::from_slice(alloc, &pieces[at].as_slice()[LOWER..])?;
    pieces.insert(at + 1, upper)?;
    pieces[at].truncate(LOWER);
    Ok(())
}

impl Children {
    pub(crate) fn new(alloc: Global) -> Children
        ensures { (m : ℕ) → in_row m result ≡ 0 }
    {
        Children {
            first: Vec::new(alloc),
            more: Vec::new(alloc),
        }
    }

    // The last of the children at the key or in front of it.
    pub(crate) fn nearest<V>(&self, nodes: &Slab<Slot<V>>, key: &PlacedRef<'_>) -> Option<usize> {
        let head = head_of(key.key());
        let piece = match piece_of(self.more.as_slice(), nodes, key, head).checked_sub(1) {
            None => self.first.as_slice(),
            Some(at) => self.more[at].as_slice(),
        };
        let place = place_of(piece, nodes, key, head).checked_sub(1)?;
        match piece.get(place) {
            Some(place) => Some(place.child),
            None => None,
        }
    }

    // Parts the first piece in two, where it is full.
    fn part_first(&mut self, alloc: Global) -> Result<(), AllocError>
        ensures { (m : ℕ) → in_row m self.new ≡ in_row m self.old }
    {
        if self.first.len() < PIECE {
            return Ok(());
        }
        let upper = Vec::from_slice(alloc, &self.first.as_slice()[LOWER..])?;
        self.more.insert(0, upper)?;
        self.first.truncate(LOWER);
        Ok(())
    }

    // Parts the piece of a key in two, where it is full.
    fn make_room<V>(
        &mut self,
        alloc: Global,
        nodes: &Slab<Slot<V>>,
        key: &PlacedRef<'_>,
        head: u64,
    ) -> Result<(), AllocError>
        ensures { (m : ℕ) → in_row m self.new ≡ in_row m self.old }
    {
        match piece_of(self.more.as_slice(), nodes, key, head).checked_sub(1) {
            None => self.part_first(alloc),
            Some(at) => part(&mut self.more, alloc, at),
        }
    }

    // Puts a child at the place of its key.
    pub(crate) fn insert<V>(
        &mut self,
        alloc: Global,
        nodes: &Slab<Slot<V>>,
        key: &PlacedRef<'_>,
        child: usize,
    ) -> Result<(), AllocError>
        ensures ok { OnOk result ((m : ℕ) → in_row m self.new
            ≡ in_row m self.old + one_if (nat_eq m child)) }
        ensures err { OnErr result ((m : ℕ) → in_row m self.new ≡ in_row m self.old) }
    {
        let place = PiecePlace {
            head: head_of(key.key()),
            child,
        };
        self.make_room(alloc, nodes, key, place.head)?;
        match piece_of(self.more.as_slice(), nodes, key, place.head).checked_sub(1) {
            None => insert_at(&mut self.first, nodes, key, place),
            Some(at) => insert_at(&mut self.more[at], nodes, key, place),
        }
    }

    // Takes a child out of the piece of its key, where it stands there.
    fn take_near<V>(
        &mut self,
        nodes: &Slab<Slot<V>>,
        key: &PlacedRef<'_>,
        head: u64,
        child: usize,
    ) -> bool
        ensures taken { result ≡ true → (m : ℕ) → in_row m self.new + one_if (nat_eq m child)
            ≡ in_row m self.old }
        ensures kept { result ≡ false → (m : ℕ) → in_row m self.new ≡ in_row m self.old }
    {
        match piece_of(self.more.as_slice(), nodes, key, head).checked_sub(1) {
            None => take_from(&mut self.first, nodes, key, head, child),
            Some(at) => take_in(&mut self.more, at, nodes, key, head, child),
        }
    }

    // Takes out a child.
    pub(crate) fn remove<V>(&mut self, nodes: &Slab<Slot<V>>, key: &PlacedRef<'_>, child: usize)
        requires { 0 < in_row child self.old }
        ensures { (m : ℕ) → in_row m self.new + one_if (nat_eq m child) ≡ in_row m self.old }
    {
        let head = head_of(key.key());
        if self.take_near(nodes, key, head, child)
            || take_from(&mut self.first, nodes, key, head, child)
        {
            return;
        }
        // For the prover: the child stood in the piece of its key.
        take_anywhere(&mut self.more, nodes, key, head, child);
    }
}

// ---- the children of each node in the order of keys, from which a search begins

// The children of the root, and those of each node by its number.
#[derive(Debug)]
pub(crate) struct Ranks {
    top: Children,
    below: Vec<Children>,
}

impl Drop for Ranks {
    fn drop(self) {
        let Ranks { top: _, below: _ } = self;
    }
}

// Makes rows up to that of a node.
fn lengthen(below: &mut Vec<Children>, alloc: Global, node: usize) -> Result<(), AllocError>
    ensures room { OnOk result (node < vec_len below.new) }
    ensures same { (m n : ℕ) → in_nth m below.new.items n ≡ in_nth m below.old.items n }
{
    while below.len() <= node {
        below.push(Children::new(alloc))?;
    }
    Ok(())
}

impl Ranks {
    ghost use Rattle.rt_nodes.specs.inside.Ranks.{held, Added, IsAlike};

    pub(crate) fn new(alloc: Global) -> Ranks
        ensures { (p : Option ℕ) (m : ℕ) → held m result p ≡ 0 }
    {
        Ranks {
            top: Children::new(alloc),
            below: Vec::new(alloc),
        }
    }

    // The last of the children at the key or in front of it.
    pub(crate) fn nearest<V>(
        &self,
        nodes: &Slab<Slot<V>>,
        parent: Option<usize>,
        key: &PlacedRef<'_>,
    ) -> Option<usize> {
        match parent {
            None => self.top.nearest(nodes, key),
            Some(node) => self.below.get(node)?.nearest(nodes, key),
        }
    }

    // Puts a child at the place of its key.
    pub(crate) fn add<V>(
        &mut self,
        alloc: Global,
        nodes: &Slab<Slot<V>>,
        parent: Option<usize>,
        key: &PlacedRef<'_>,
        child: usize,
    ) -> Result<(), AllocError>
        ensures ok { OnOk result (Added self.old self.new parent child) }
        ensures err { OnErr result (IsAlike self.old self.new) }
    {
        let Some(node) = parent else {
            return self.top.insert(alloc, nodes, key, child);
        };
        lengthen(&mut self.below, alloc, node)?;
        self.below[node].insert(alloc, nodes, key, child)
    }

    // Takes out a child.
    pub(crate) fn remove<V>(
        &mut self,
        nodes: &Slab<Slot<V>>,
        parent: Option<usize>,
        key: &PlacedRef<'_>,
        child: usize,
    )
        requires { 0 < held child self.old parent }
        ensures { Added self.new self.old parent child }
    {
        match parent {
            None => self.top.remove(nodes, key, child),
            Some(node) => {
                if let Some(children) = self.below.get_mut(node) {
                    children.remove(nodes, key, child);
                }
            }
        }
    }
}

// ---- what of a key stands beside its node in an index

// A byte of a text; 0 behind its end.
fn byte_at(bytes: &[u8], at: usize) -> u8 {
    match bytes.get(at) {
        Some(byte) => *byte,
        None => 0,
    }
}

// A number that rises with the key: that of an integer key, or else its first bytes, of which none
// is a control character.
pub(crate) fn head_of(key: &Key) -> u64 {
    let bytes = key.text().as_bytes();
    let first = byte_at(bytes, 0);
    if first == b'-' || first.is_ascii_digit() {
        if let Ok(number) = key.text().parse::<i32>() {
            return u64::from(number.abs_diff(i32::MIN));
        }
    }
    u64::from_be_bytes([
        byte_at(bytes, 0),
        byte_at(bytes, 1),
        byte_at(bytes, 2),
        byte_at(bytes, 3),
        byte_at(bytes, 4),
        byte_at(bytes, 5),
        byte_at(bytes, 6),
        byte_at(bytes, 7),
    ])
}
