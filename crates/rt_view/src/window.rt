// All children that are known, linked in order in two halves, and which of them a range and a limit
// show.
ghost use Rattle.std.specs.Prelude.{◌≡◌, map, IfOk, OnOk, None, T, true, false, ◌&&◌, cond, ◌≤◌, ◌++◌, ◌∷◌};
ghost use Rattle.std.specs.Prelude.{OnErr, Some, drop, length, take, ℕ};
ghost use Rattle.std.specs.Option.{option_copied};
ghost use Rattle.std.specs.FinMap.Entries.{is_sorted};
ghost use Rattle.std.specs.BTreeMap.{is_at};
ghost use Rattle.std.specs.Map.{remove_entry};
ghost use Rattle.rt_chain.specs.Chains.{is_half, all_in, head_or, in_half, slots_of};
ghost use Rattle.rt_order.specs.Cuts.{has};
ghost use Rattle.rt_order.specs.Entries.{entry_cmp, Entry};
ghost use Rattle.rt_query.specs.Select.{row_of};
ghost use Rattle.rt_view.specs.inside.Ranged.{inside, cut_at, inner, outside};
ghost use Rattle.rt_view.specs.inside.Windows.{Becomes, IsApart, IsOrdering, IsWhole, IsWindow, all_of};
ghost use Rattle.rt_view.specs.inside.Windows.{before, half_of, is_over, is_there, known_in, other_half};
ghost use Rattle.rt_view.specs.inside.Windows.{put_inside, rest_in, shown_in, without, GoesAhead, GoesBack, Had, PutAt};
ghost use Rattle.rt_view.specs.inside.Windows.{Puts, half_at, half_in, Goes, Taken};
ghost use Rattle.rt_view.specs.inside.Turns.{Refills, Spills};
ghost use Rattle.rt_chain.specs.declared.chain.Half.TheVariants.{Behind, Front};
ghost use Rattle.rt_view.specs.declared.window.Child.{Child as LinkedChild};
ghost use Rattle.rt_view.specs.inside.ChildChain.{AllMarked, HasNames, Linked, halves_of, key_above, last_below};
ghost use Rattle.rt_view.specs.inside.ChildChain.{linked_in, marked, near_cut};
ghost use Rattle.std.specs.FinMap as map_of;

use crate::position::Position;
use rt_chain::{Chain, Half};
use rt_order::Range;
use rt_query::{Limit, Row};
use rt_tree::{Key, Tree};
use std::alloc::{AllocError, Global};
use std::marker::Model;

// What is shown otherwise once a child was put or taken out at an entry: whether one was shown there,
// whether one is now, and the child that crosses the cut for it.
pub struct Turned {
    pub was: bool,
    pub is: bool,
    pub crossed: Option<(Key, Tree)>,
}

impl Drop for Turned {
    fn drop(self) {
        let Turned {
            was: _,
            is: _,
            crossed: _,
        } = self;
    }
}

impl Turned {
    // Nothing was shown at the entry, and nothing is.
    pub fn none() -> Turned
        ensures { result ≡ record { was = false; is = false; crossed = None } }
    {
        Turned {
            was: false,
            is: false,
            crossed: None,
        }
    }

    // A child was shown at the entry, and is no more.
    pub fn left(crossed: Option<(Key, Tree)>) -> Turned
        ensures { result ≡ record { was = true; is = false; crossed = crossed } }
    {
        Turned {
            was: true,
            is: false,
            crossed,
        }
    }

    // A child is shown at the entry.
    pub fn came(was: bool, crossed: Option<(Key, Tree)>) -> Turned
        ensures { result ≡ record { was = was; is = true; crossed = crossed } }
    {
        Turned {
            was,
            is: true,
            crossed,
        }
    }
}

// These children in order. No memory is asked for.
pub fn ordered(mut children: Vec<(Position, Tree)>) -> Vec<(Position, Tree)>
    requires { IsApart children.items }
    ensures { IsOrdering children.items result.items }
{
    children.sort_unstable_by(|one, other| one.0.cmp(&other.0));
    children
}

// The half of the children that a limit shows.
fn half_of(limit: Option<Limit>) -> Half
    ensures { result ≡ half_of limit }
{
    match limit {
        None | Some(Limit::First(_)) => Half::Front,
        Some(Limit::Last(_)) => Half::Behind,
    }
}

// The other half of the children.
fn other_half(half: Half) -> Half
    ensures { result ≡ other_half half }
{
    match half {
        Half::Front => Half::Behind,
        Half::Behind => Half::Front,
    }
}

// Whether so many shown children are more than a limit lets.
fn is_over(limit: Option<Limit>, shown: usize) -> bool
    ensures { result ≡ is_over limit shown }
{
    match limit {
        None => false,
        Some(Limit::First(most) | Limit::Last(most)) => (most as usize) < shown,
    }
}

// Whether an answer is this half.
fn is_half(half: Half, answer: Option<Half>) -> bool
    ensures { result ≡ is_half half answer }
{
    match (half, answer) {
        (Half::Front, Some(Half::Front)) | (Half::Behind, Some(Half::Behind)) => true,
        (Half::Front, Some(Half::Behind)) | (Half::Behind, Some(Half::Front)) => false,
        (Half::Front | Half::Behind, None) => false,
    }
}

// What stands at an entry: the child's key and tree, and whether the entry lies above the lower cut.
pub struct Child {
    pub key: Key,
    pub value: Tree,
    pub above: bool,
}

impl Drop for Child {
    fn drop(self) {
        let Child {
            key: _,
            value: _,
            above: _,
        } = self;
    }
}

// The key and the tree of the child in a slot. The tree is shared.
fn child_in(
    chain: &Chain<Position, Child>,
    alloc: Global,
    slot: u32,
) -> Result<Option<(Key, Tree)>, AllocError>
    ensures { IfOk result (λ child. (fs gs : Linked) (e : Entry) (at : LinkedChild)
        → all_in chain.now ≡ fs ++ (e, (slot, at)) ∷ gs → child ≡ Some (at.key, at.value)) }
{
    let Some(child) = chain.get(slot) else {
        return Ok(None);
    };
    let key = child.key.copy()?;
    let value = child.value.copy(alloc)?;
    Ok(Some((key, value)))
}

// The slot of the first of so many children that end the half in front.
fn slot_back(chain: &Chain<Position, Child>, number: usize) -> Option<u32>
    requires { number ≤ length chain.now.front }
    ensures { result ≡ head_or (slots_of (near_cut Front number chain.now.front)) None }
{
    let mut slot = None;
    let mut previous = chain.last_front();
    let mut left = number;
    while left > 0 {
        let Some(here) = previous else {
            return None;
        };
        slot = previous;
        previous = chain.previous(here);
        left -= 1;
    }
    slot
}

// The slot of the first of so many children of a half that stand next to the cut.
fn first_near(chain: &Chain<Position, Child>, half: Half, number: usize) -> Option<u32>
    requires { number ≤ length (in_half half chain.now) }
    ensures { (e : Entry) (p : ℕ × LinkedChild) (es : Linked)
        → near_cut half number (in_half half chain.now) ≡ (e, p) ∷ es → result ≡ Some p.0 }
{
    match half {
        Half::Front => slot_back(chain, number),
        Half::Behind => chain.first_behind(),
    }
}

// So many children of a half that stand next to the cut, as rows. Their trees are shared.
fn rows_of(
    chain: &Chain<Position, Child>,
    alloc: Global,
    half: Half,
    number: usize,
) -> Result<Vec<Row>, AllocError>
    requires named { HasNames chain.now }
    requires many { number ≤ length (in_half half chain.now) }
    ensures { IfOk result (λ rows.
        rows.items ≡ map row_of (near_cut half number (half_in half (halves_of chain.now)))) }
{
    let mut rows = Vec::with_capacity(alloc, number)?;
    let mut next = first_near(chain, half, number);
    while rows.len() < number {
        let Some(slot) = next else {
            return Ok(rows);
        };
        let Some(child) = chain.get(slot) else {
            return Ok(rows);
        };
        let key = child.key.copy()?;
        let value = child.value.copy(alloc)?;
        rows.push(Row { key, value })?;
        next = chain.next(slot);
    }
    Ok(rows)
}

// These children in order, as they are linked.
fn list_children(
    alloc: Global,
    from: &Range,
    children: Vec<(Position, Tree)>,
) -> Result<Vec<(Position, Child)>, AllocError>
    ensures { IfOk result (λ list. list.items ≡ marked from.now children.items) }
{
    let mut list = Vec::with_capacity(alloc, children.len())?;
    for (position, value) in children {
        let key = position.key().copy()?;
        let above = position.is_in(from);
        list.push((position, Child { key, value, above }))?;
    }
    Ok(list)
}

// These children, of which so many stand in front of the cut. Each knows whether it lies in the range.
fn chain_of(
    alloc: Global,
    from: &Range,
    children: Vec<(Position, Tree)>,
    front: usize,
) -> Result<Chain<Position, Child>, AllocError>
    requires { T (is_sorted entry_cmp children.items) }
    ensures halves { IfOk result (λ chain. halves_of chain
        ≡ (take front children.items, drop front children.items)) }
    ensures marks { IfOk result (λ chain. AllMarked from.now chain) }
{
    let children = list_children(alloc, from, children)?;
    let chain = Chain::from_sorted(alloc, children, front)?;
    Ok(chain)
}

// Puts a child at its entry. Where that lies at the cut, it comes to stand in the half that is named.
// The answer is its half, and whether there was a child.
fn put_child(
    chain: &mut Chain<Position, Child>,
    position: Position,
    tree: Tree,
    at_cut: Half,
    above: bool,
) -> Result<(Half, bool), AllocError>
    ensures puts { IfOk result (λ p.
        Puts p.0 position tree (halves_of chain.old) (halves_of chain.new)) }
    ensures whole { OnOk result (linked_in chain.new
        ≡ map_of.put entry_cmp position tree (linked_in chain.old)) }
    ensures half { IfOk result (λ p. p.0 ≡ half_at position at_cut (halves_of chain.old)) }
    ensures was { IfOk result (λ p.
        p.1 ≡ is_there position (half_in p.0 (halves_of chain.old))) }
    ensures marks { OnOk result ((from : Range) → above ≡ has from position
        → AllMarked from chain.old → AllMarked from chain.new) }
    ensures err { OnErr result (chain.new ≡ chain.old) }
{
    let key = position.key().copy()?;
    let child = Child {
        key,
        value: tree,
        above,
    };
    let placed = chain.put(position, child, at_cut)?;
    Ok((placed.half, placed.old.is_some()))
}

// Takes out the child at an entry. The answer is the half in which it stood.
fn take_child(chain: &mut Chain<Position, Child>, position: &Position) -> Option<Half>
    ensures taken { Taken position.now (halves_of chain.old) (halves_of chain.new) }
    ensures whole { linked_in chain.new
        ≡ remove_entry (is_at (entry_cmp position.now)) (linked_in chain.old) }
    ensures had { Had position.now result (halves_of chain.old) }
    ensures marks { (from : Range) → AllMarked from chain.old → AllMarked from chain.new }
{
    let Some((half, child)) = chain.remove(position) else {
        return None;
    };
    drop(child);
    Some(half)
}

// The last child in front of the cut goes behind it, and is handed out. This costs a link, and no search.
fn go_back(
    chain: &mut Chain<Position, Child>,
    alloc: Global,
) -> Result<Option<(Key, Tree)>, AllocError>
    ensures all { all_in chain.new ≡ all_in chain.old }
    ensures crosses { IfOk result (λ child. (from : Range) → AllMarked from chain.old
        → GoesBack child (halves_of chain.old) (halves_of chain.new)) }
    ensures err { OnErr result (chain.new ≡ chain.old) }
{
    let Some(slot) = chain.last_front() else {
        return Ok(None);
    };
    let child = child_in(chain, alloc, slot)?;
    let _slot = chain.cross_back();
    Ok(child)
}

// The first child behind the cut goes in front of it, and is handed out. This costs a link, and no search.
fn go_ahead(
    chain: &mut Chain<Position, Child>,
    alloc: Global,
) -> Result<Option<(Key, Tree)>, AllocError>
    ensures all { all_in chain.new ≡ all_in chain.old }
    ensures crosses { IfOk result (λ child. (from : Range) → AllMarked from chain.old
        → GoesAhead child (halves_of chain.old) (halves_of chain.new)) }
    ensures err { OnErr result (chain.new ≡ chain.old) }
{
    let Some(slot) = chain.first_behind() else {
        return Ok(None);
    };
    let child = child_in(chain, alloc, slot)?;
    let _slot = chain.cross_ahead();
    Ok(child)
}

// The child that a half has next to the cut goes over it, and is handed out.
fn go_over(
    chain: &mut Chain<Position, Child>,
    alloc: Global,
    half: Half,
) -> Result<Option<(Key, Tree)>, AllocError>
    ensures all { all_in chain.new ≡ all_in chain.old }
    ensures crosses { IfOk result (λ child. (from : Range) → AllMarked from chain.old
        → Goes half child (halves_of chain.old) (halves_of chain.new)) }
    ensures err { OnErr result (chain.new ≡ chain.old) }
{
    match half {
        Half::Front => go_back(chain, alloc),
        Half::Behind => go_ahead(chain, alloc),
    }
}

// How many children a half has. All children rise.
fn half_len(chain: &Chain<Position, Child>, half: Half) -> usize
    ensures len { result ≡ length (half_in half (halves_of chain.now)) }
    ensures rises { T (is_sorted entry_cmp (linked_in chain.now)) }
{
    // For the prover: the entries rise.
    let _len = chain.len();
    match half {
        Half::Front => chain.front_len(),
        Half::Behind => chain.behind_len(),
    }
}

// The key of the child of a half before an entry, where it lies above the lower cut.
fn key_before<'a>(
    chain: &'a Chain<Position, Child>,
    position: &Position,
    half: Half,
) -> Option<&'a Key>
    ensures { (from : Range) → AllMarked from chain.now → option_copied result
        ≡ key_above from (last_below position.now (half_in half (halves_of chain.now))) }
{
    match chain.before(position, half) {
        Some(child) => { if child.above { Some(&child.key) } else { None } }
        None => None,
    }
}

// How many of these children lie below one range, and how many of the others above another one.
fn beside(children: &[(Position, Tree)], from: &Range, to: &Range) -> (usize, usize)
    ensures low { result.0 ≡ length (outside from.now children.now) }
    ensures high { result.1 ≡ length (outside to.now (inside from.now children.now)) }
{
    let mut low = 0;
    let mut high = 0;
    for (position, _) in children {
        if !position.is_in(from) {
            low += 1;
        } else if !position.is_in(to) {
            high += 1;
        }
    }
    (low, high)
}

// Whether an entry lies in a range, above whose lower cut it lies or not.
fn lies_in(above: bool, to: &Range, position: &Position) -> bool
    ensures { result ≡ (above && has to.now position.now) }
{
    above && position.is_in(to)
}

// The side of the cut for a child beside a range: those above it stand behind the cut, and those below it
// in front.
fn side_of(above: bool) -> Half
    ensures { result ≡ cond above Behind Front }
{
    if above { Half::Behind } else { Half::Front }
}

// How many of so many children stand in front of the cut of a limit.
fn cut_at(limit: Option<Limit>, number: usize) -> usize
    ensures { result ≡ cut_at limit number }
{
    match limit {
        None => number,
        Some(Limit::First(most)) => number.min(most as usize),
        Some(Limit::Last(most)) => number - number.min(most as usize),
    }
}

// All children that are known, linked in the order of their entries: those below a range, those in it,
// and those above it. A cut lies between two of those in the range, or at an end of it; a limit shows the
// first of these in front of it, or the last of them behind it.
pub struct OrderedChildren {
    limit: Option<Limit>,
    from: Range,
    to: Range,
    chain: Chain<Position, Child>,
    low: usize,
    high: usize,
}

impl Drop for OrderedChildren {
    fn drop(self) {
        let OrderedChildren {
            limit: _,
            from: _,
            to: _,
            chain: _,
            low: _,
            high: _,
        } = self;
    }
}

impl Model for OrderedChildren {
    ghost use Rattle.rt_view.specs.inside.ChildChain.{IsRanged, halves_of};
    ghost use Rattle.rt_view.specs.inside.Ranged.{OrderedChildren, between};

    ghost Value = { OrderedChildren };

    ghost view = { λ a. record {
      limit = a.limit;
      children = record { range = between a.from a.to; halves = halves_of a.chain };
    } };

    ghost invariant = { λ a. IsRanged a.from a.to a.chain a.low a.high };
}

impl OrderedChildren {
    // The window of these children. Of those in the range so many are shown as the limit lets, and the
    // cut lies beside them.
    pub fn of(
        alloc: Global,
        range: &Range,
        limit: Option<Limit>,
        children: Vec<(Position, Tree)>,
    ) -> Result<OrderedChildren, AllocError>
        requires { T (is_sorted entry_cmp children.items) }
        ensures limit { IfOk result (λ window. window.limit ≡ limit) }
        ensures range { IfOk result (λ window. window.children.range ≡ range.now) }
        ensures known { IfOk result (λ window. known_in window ≡ children.items) }
        ensures cut { IfOk result (λ window. IsWindow limit (shown_in window) (rest_in window)
            (inside range.now children.items)) }
    {
        let range = range.copy(alloc)?;
        let from = Range {
            lower: range.lower,
            upper: None,
        };
        let to = Range {
            lower: None,
            upper: range.upper,
        };
        let (low, high) = beside(&children, &from, &to);
        let front = low + cut_at(limit, children.len() - low - high);
        let chain = chain_of(alloc, &from, children, front)?;
        Ok(OrderedChildren {
            limit,
            from,
            to,
            chain,
            low,
            high,
        })
    }

    // The half that the limit shows.
    fn half(&self) -> Half
        ensures { result ≡ half_of self.now.limit }
    {
        half_of(self.limit)
    }

    // Whether so many shown children are more than the limit lets.
    fn is_over(&self, shown: usize) -> bool
        ensures { result ≡ is_over self.now.limit shown }
    {
        is_over(self.limit, shown)
    }

    // How many children of the range a half has. All children rise.
    fn len(&self, half: Half) -> usize
        ensures len { result ≡ length (half_in half (inner self.now.children)) }
        ensures rises { T (is_sorted entry_cmp (known_in self.now)) }
    {
        match half {
            Half::Front => half_len(&self.chain, half) - self.low,
            Half::Behind => half_len(&self.chain, half) - self.high,
        }
    }

    // Puts a child at its entry. Where that lies in the range and at the cut, it comes to stand in the
    // half that is named. The answer is its half, and whether there was a child; of one beside the
    // range there is none.
    fn place(
        &mut self,
        position: Position,
        tree: Tree,
        at_cut: Half,
    ) -> Result<Option<(Half, bool)>, AllocError>
        ensures limit { self.new.limit ≡ self.old.limit }
        ensures range { self.new.children.range ≡ self.old.children.range }
        ensures all { OnOk result (known_in self.new
            ≡ map_of.put entry_cmp position tree (known_in self.old)) }
        ensures put { IfOk result (λ p. PutAt position tree at_cut p self.old self.new) }
    {
        let in_front = self.len(Half::Front);
        let in_behind = self.len(Half::Behind);
        let above = position.is_in(&self.from);
        let inside = lies_in(above, &self.to, &position);
        if !inside {
            put_child(&mut self.chain, position, tree, side_of(above), above)?;
            self.low = half_len(&self.chain, Half::Front) - in_front;
            self.high = half_len(&self.chain, Half::Behind) - in_behind;
            return Ok(None);
        }
        let put = put_child(&mut self.chain, position, tree, at_cut, above)?;
        Ok(Some(put))
    }

    // Takes out the child at an entry. The answer is the half in which it stood, where it lay in the
    // range.
    fn unlink(&mut self, position: &Position) -> Option<Half>
        ensures limit { self.new.limit ≡ self.old.limit }
        ensures range { self.new.children.range ≡ self.old.children.range }
        ensures all { known_in self.new
            ≡ remove_entry (is_at (entry_cmp position.now)) (known_in self.old) }
        ensures taken { Taken position.now (inner self.old.children) (inner self.new.children) }
        ensures had { Had position.now result (inner self.old.children) }
    {
        let in_front = self.len(Half::Front);
        let in_behind = self.len(Half::Behind);
        let half = take_child(&mut self.chain, position);
        let above = position.is_in(&self.from);
        let inside = lies_in(above, &self.to, position);
        if inside {
            return half;
        }
        self.low = half_len(&self.chain, Half::Front) - in_front;
        self.high = half_len(&self.chain, Half::Behind) - in_behind;
        None
    }

    // The child of the range that a half has next to the cut goes over it, and is handed out.
    fn cross_from(&mut self, alloc: Global, half: Half) -> Result<Option<(Key, Tree)>, AllocError>
        ensures limit { self.new.limit ≡ self.old.limit }
        ensures range { self.new.children.range ≡ self.old.children.range }
        ensures all { OnOk result (known_in self.new ≡ known_in self.old) }
        ensures crosses { IfOk result (λ child.
            Goes half child (inner self.old.children) (inner self.new.children)) }
    {
        let len = self.len(half);
        if len == 0 {
            return Ok(None);
        }
        go_over(&mut self.chain, alloc, half)
    }

    // Puts a child at its entry. Where that lies in the range another one may cross the cut for it, or
    // itself.
    pub fn put(
        &mut self,
        alloc: Global,
        position: Position,
        tree: Tree,
    ) -> Result<Turned, AllocError>
        requires { IsWhole self.old }
        ensures limit { self.new.limit ≡ self.old.limit }
        ensures range { self.new.children.range ≡ self.old.children.range }
        ensures known { OnOk result (known_in self.new
            ≡ map_of.put entry_cmp position tree (known_in self.old)) }
        ensures put { OnOk result (Becomes self.old self.new
            (put_inside self.old.children.range position tree (all_of self.old))) }
        ensures was { IfOk result (λ turned. turned.was
            ≡ is_there position (shown_in self.old)) }
        ensures crosses { IfOk result (λ turned. Spills turned (shown_in self.old)
            (map_of.put entry_cmp position tree (shown_in self.old)) (shown_in self.new)) }
    {
        let shown = self.half();
        let placed = self.place(position, tree, shown)?;
        let Some((half, was)) = placed else {
            return Ok(Turned::none());
        };
        if !is_half(shown, Some(half)) {
            return Ok(Turned::none());
        }
        let len = self.len(shown);
        if !self.is_over(len) {
            return Ok(Turned::came(was, None));
        }
        let crossed = self.cross_from(alloc, shown)?;
        Ok(Turned::came(was, crossed))
    }

    // Takes out the child at an entry. Another one may cross the cut for it.
    pub fn take(&mut self, alloc: Global, position: &Position) -> Result<Turned, AllocError>
        requires { IsWhole self.old }
        ensures limit { self.new.limit ≡ self.old.limit }
        ensures range { self.new.children.range ≡ self.old.children.range }
        ensures known { OnOk result (known_in self.new ≡ without position.now (known_in self.old)) }
        ensures taken { OnOk result
            (Becomes self.old self.new (without position.now (all_of self.old))) }
        ensures was { IfOk result (λ turned. turned.was
            ≡ is_there position.now (shown_in self.old)) }
        ensures crosses { IfOk result (λ turned. Refills turned (rest_in self.old)
            (without position.now (shown_in self.old)) (shown_in self.new)) }
    {
        // For the prover: all children rise.
        let _len = self.len(Half::Front);
        let shown = self.half();
        let half = self.unlink(position);
        if !is_half(shown, half) {
            return Ok(Turned::none());
        }
        let crossed = self.cross_from(alloc, other_half(shown))?;
        Ok(Turned::left(crossed))
    }

    // The children of the range in a half, as rows. Their trees are shared. Costs by these.
    fn half_rows(&self, alloc: Global, half: Half) -> Result<Vec<Row>, AllocError>
        ensures { IfOk result (λ rows.
            rows.items ≡ map row_of (half_in half (inner self.now.children))) }
    {
        rows_of(&self.chain, alloc, half, self.len(half))
    }

    // The children that are shown, as rows. Their trees are shared.
    pub fn rows(&self, alloc: Global) -> Result<Vec<Row>, AllocError>
        ensures { IfOk result (λ rows. rows.items ≡ map row_of (shown_in self.now)) }
    {
        self.half_rows(alloc, self.half())
    }

    // The key of the child of the range in a half before an entry of the range.
    fn half_before(&self, position: &Position, half: Half) -> Option<&Key>
        ensures { has self.now.children.range position.now ≡ true
            → option_copied result ≡ before position.now (half_in half (inner self.now.children)) }
    {
        if self.len(half) == 0 {
            return None;
        }
        key_before(&self.chain, position, half)
    }

    // The key of the child that is shown before an entry of the range.
    pub fn before(&self, position: &Position) -> Option<&Key>
        requires { has self.now.children.range position.now ≡ true }
        ensures { option_copied result ≡ before position.now (shown_in self.now) }
    {
        self.half_before(position, self.half())
    }
}
