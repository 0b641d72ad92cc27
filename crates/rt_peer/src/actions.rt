// What is to be done when connections end.
ghost use Rattle.std.specs.Prelude.{◌≡◌, ◌∷◌, ◌==◌, [], length, not, map, nat_le, take, IfOk, IfSome, IfNone};
ghost use Rattle.std.specs.Prelude.{OnOk, ◌&&◌, ◌++◌, true, false, if◌then◌else◌, Some};
ghost use Rattle.std.specs.List.{All, filter, list_any};
ghost use Rattle.std.specs.Map.{lookup, remove_entry};
ghost use Rattle.std.specs.Option.{option_map_or};
ghost use Rattle.std.specs.BTreeMap.{is_at as key_is};
ghost use Rattle.std.proofs.Common.{rules};
ghost use Rattle.std.specs.Cmp.{eq_by_cmp_equiv, partial_order_from_total};
ghost use Rattle.std.specs.Ordering.{eq_by_cmp};
ghost use Rattle.rt_writes.specs.Writes.{IsShallow};
ghost use Rattle.rt_peer.specs.Peers.{in_place, runs_before};
ghost use Rattle.rt_peer.specs.Calls.{has_entries, without_below, is_empty};
ghost use Rattle.rt_peer.specs.Turns.{without_first};
ghost use Rattle.rt_tree.specs.Assignments.{is_at_or_above};
ghost use Rattle.rt_peer.specs.inside.Counts.{AreCountedBy};
ghost use Rattle.rt_peer.specs.inside.Placed.{apart, cut_at, deferreds_of, first_own, has_place};
ghost use Rattle.rt_peer.specs.inside.Placed.{is_bare as is_bare_at, is_dirty, is_of, place_cmp, whose};
ghost use Rattle.rt_peer.specs.inside.Placed.{without_bare, AllMarked, AreByPlace, AreListed, places_total};
ghost use Rattle.std.specs.Cmp as Cmp;

use crate::connections::{count_of, lower, raise};
use crate::listens::{EntrySpot, places_under, put_spots, take_spots, take_spots_under};
use rt_tree::{Path, Tree};
use rt_writes::Entries;
use std::alloc::{AllocError, Global};
use std::cmp::Ordering;
use std::collections::{BTreeMap, BTreeSet};
use std::marker::Model;

// What is to be done when a connection ends: whose it is, the number of the request, and its entries,
// which may be put.
pub(crate) struct Deferred {
    pub(crate) connection: u64,
    id: u64,
    entries: Entries,
}

impl Drop for Deferred {
    fn drop(self) {
        let Deferred {
            connection: _,
            id: _,
            entries: _,
        } = self;
    }
}

impl Model for Deferred {
    ghost use Rattle.std.specs.List.{All};
    ghost use Rattle.rt_writes.specs.Writes.{IsShallow};
    ghost use Rattle.rt_peer.specs.Peers.{Deferred};

    ghost Value = { Deferred };

    ghost view = { λ a. record { connection = a.connection; id = a.id; entries = a.entries } };

    ghost invariant = { λ a. All IsShallow a.entries };
}

impl Deferred {
    pub(crate) fn new(connection: u64, id: u64, entries: Entries) -> Deferred
        requires { All IsShallow entries }
        ensures { result ≡ record { connection = connection; id = id; entries = entries } }
    {
        Deferred {
            connection,
            id,
            entries,
        }
    }

    // What is set when the connection ends.
    pub(crate) fn entries(&self) -> &Entries
        ensures entries { result.now ≡ self.now.entries }
        ensures shallow { All IsShallow self.now.entries }
    {
        &self.entries
    }
}

// What is to be done when connections end, by connection, by number and then by arrival.
pub(crate) struct Actions {
    placed: Placed,
}

impl Drop for Actions {
    fn drop(self) {
        let Actions { placed: _ } = self;
    }
}

impl Model for Actions {
    ghost use Rattle.std.specs.Prelude.{List};
    ghost use Rattle.rt_peer.specs.Peers.{Deferred};
    ghost use Rattle.rt_peer.specs.inside.Placed.{deferreds_of};

    ghost Value = { List Deferred };

    ghost view = { λ a. deferreds_of a.placed };
}

impl Actions {
    pub(crate) fn new(alloc: Global) -> Actions
        ensures { result ≡ [] }
    {
        Actions {
            placed: Placed::new(alloc),
        }
    }

    // Adds an action, behind those of its number.
    pub(crate) fn add(
        &mut self,
        connection: u64,
        id: u64,
        entries: Entries,
    ) -> Result<(), AllocError>
        requires { All IsShallow entries }
        ensures { OnOk result (self.new ≡ in_place runs_before
            (record { connection = connection; id = id; entries = entries }) self.old) }
    {
        self.placed.put(connection, id, entries)
    }

    // How many the connection has.
    pub(crate) fn count_of(&self, connection: u64) -> usize
        ensures { result ≡ length (filter (λ a. a.connection == connection) self.now) }
    {
        self.placed.count_of(connection)
    }

    // Takes out what the connection's actions have at and below the path. Costs by the
    // actions that have some, and by their entries.
    pub(crate) fn drop_below(
        &mut self,
        alloc: Global,
        connection: u64,
        path: &Path,
    ) -> Result<(), AllocError>
        ensures { OnOk result (self.new
            ≡ filter has_entries (map (without_below connection path.now) self.old)) }
    {
        let places = self.placed.dirty_of(alloc, connection, path)?;
        for place in places.iter() {
            self.placed.cut(alloc, *place, path)?;
        }
        self.placed.drop_bare();
        Ok(())
    }

    // Takes out the connection's first action.
    fn take_first(&mut self, connection: u64) -> Option<Deferred>
        ensures some { IfSome result (λ a. filter (λ b. b.connection == connection) self.old
            ≡ a ∷ filter (λ b. b.connection == connection) self.new) }
        ensures left { IfSome result (λ a. self.new
            ≡ without_first (λ b. b.connection == connection) 1 self.old) }
        ensures none { IfNone result (filter (λ b. b.connection == connection) self.old ≡ []) }
        ensures same { IfNone result (self.new ≡ self.old) }
    {
        let Some(place) = self.placed.first_of(connection) else {
            return None;
        };
        let Some(entries) = self.placed.take(place) else {
            return None;
        };
        Some(Deferred::new(place.connection, place.id, entries))
    }

    // Takes out the first actions of the connection, so many at most, and answers whether none is left. Costs by
    // these.
    pub(crate) fn take_some(
        &mut self,
        alloc: Global,
        connection: u64,
        most: usize,
    ) -> Result<(Vec<Deferred>, bool), AllocError>
        ensures own { IfOk result (λ taken. taken.0.items
            ≡ take most (filter (λ a. a.connection == connection) self.old)) }
        ensures last { IfOk result (λ taken. taken.1
            ≡ nat_le (length (filter (λ a. a.connection == connection) self.old)) most) }
        ensures rest { OnOk result (self.new
            ≡ without_first (λ a. a.connection == connection) most self.old) }
    {
        let is_last = self.count_of(connection) <= most;
        let mut taken = Vec::new(alloc);
        while taken.len() < most {
            match self.take_first(connection) {
                Some(action) => taken.push(action)?,
                None => return Ok((taken, is_last)),
            }
        }
        Ok((taken, is_last))
    }

    // Takes out the actions of the connection. Costs by these.
    pub(crate) fn take_of(
        &mut self,
        alloc: Global,
        connection: u64,
    ) -> Result<Vec<Deferred>, AllocError>
        ensures own { IfOk result (λ own. own.items ≡ filter (λ a. a.connection == connection) self.old) }
        ensures others { OnOk result (self.new ≡ filter (λ a. not (a.connection == connection)) self.old) }
    {
        let all = self.count_of(connection);
        let (own, _) = self.take_some(alloc, connection, all)?;
        Ok(own)
    }
}

// ---- the actions of connections at their places, and how many each connection has

// Whether there are no entries.
fn is_bare(entries: &Entries) -> bool
    ensures { result ≡ is_empty entries.now }
{
    match entries.as_slice() {
        [] => true,
        [_, ..] => false,
    }
}

// The entries that are not at or below the path.
fn entries_apart(alloc: Global, entries: &Entries, path: &Path) -> Result<Entries, AllocError>
    ensures { IfOk result (λ left. left ≡ apart path.now entries.now) }
{
    let mut left = Vec::new(alloc);
    for (at, tree) in entries.as_slice() {
        if !path.is_prefix_of(at) {
            left.push((at.copy()?, tree.copy(alloc)?))?;
        }
    }
    Ok(Entries::of(left))
}

// Marks the place of an action, where it has no entries.
fn mark(
    empty: &mut BTreeSet<ActionKey>,
    entries: &Entries,
    place: ActionKey,
) -> Result<(), AllocError>
    ensures kept { (p : ActionKey) → has_place empty.old.keys p ≡ true
        → has_place empty.new.keys p ≡ true }
    ensures marked { OnOk result (is_empty entries.now ≡ true
        → has_place empty.new.keys place ≡ true) }
{
    if !is_bare(entries) {
        return Ok(());
    }
    empty.insert(place)?;
    Ok(())
}

// Whether the action at the place has no entries.
fn has_bare(by_place: &BTreeMap<ActionKey, Entries>, place: ActionKey) -> bool
    ensures { result ≡ option_map_or is_empty (lookup (key_is (place_cmp place)) by_place.now.entries) false }
{
    match by_place.get(&place) {
        Some(entries) => is_bare(entries),
        None => false,
    }
}

// Takes out the action at the place, where it has no entries.
fn drop_one(
    by_place: &mut BTreeMap<ActionKey, Entries>,
    counts: &mut BTreeMap<u64, usize>,
    place: ActionKey,
)
    requires order { AreByPlace by_place.old.entries }
    requires counted { AreCountedBy counts.old.entries by_place.old.entries whose }
    ensures order { AreByPlace by_place.new.entries }
    ensures left { by_place.new.entries ≡ without_bare place by_place.old.entries }
    ensures counted { AreCountedBy counts.new.entries by_place.new.entries whose }
{
    if has_bare(by_place, place) {
        by_place.remove(&place);
        lower(counts, place.connection);
    }
}

// Takes out the actions that have no entries, whose places are marked. Costs by these.
fn drop_bare(
    by_place: &mut BTreeMap<ActionKey, Entries>,
    empty: &mut BTreeSet<ActionKey>,
    counts: &mut BTreeMap<u64, usize>,
)
    requires order { AreByPlace by_place.old.entries }
    requires marked { AllMarked empty.old.keys by_place.old.entries }
    requires counted { AreCountedBy counts.old.entries by_place.old.entries whose }
    ensures order { AreByPlace by_place.new.entries }
    ensures left { by_place.new.entries ≡ filter (λ e. not (is_bare_at e)) by_place.old.entries }
    ensures counted { AreCountedBy counts.new.entries by_place.new.entries whose }
{
    while let Some(place) = empty.pop_first() {
        drop_one(by_place, counts, place);
    }
}

// The entries of the actions of connections, by place; the marked places of those that have none; where the
// entries stand by path; how many each connection has; and how many have come.
pub(crate) struct Placed {
    by_place: BTreeMap<ActionKey, Entries>,
    empty: BTreeSet<ActionKey>,
    spots: BTreeSet<EntrySpot>,
    counts: BTreeMap<u64, usize>,
    arrived: u64,
}

impl Drop for Placed {
    fn drop(self) {
        let Placed {
            by_place: _,
            empty: _,
            spots: _,
            counts: _,
            arrived: _,
        } = self;
    }
}

impl Model for Placed {
    ghost use Rattle.rt_peer.specs.inside.EntrySpots.{AllSpotted};
    ghost use Rattle.rt_peer.specs.inside.Placed.{AreKept, PlacedActions};

    ghost Value = { PlacedActions };

    ghost view = { λ a. a.by_place.entries };

    ghost invariant = { λ a. AreKept a.by_place.entries a.empty.keys a.counts.entries a.arrived
        × AllSpotted a.spots.keys a.by_place.entries };
}

impl Placed {
    pub(crate) fn new(alloc: Global) -> Placed
        ensures { result ≡ [] }
    {
        Placed {
            by_place: BTreeMap::new(alloc),
            empty: BTreeSet::new(alloc),
            spots: BTreeSet::new(alloc),
            counts: BTreeMap::new(alloc),
            arrived: 0,
        }
    }

    // How many the connection has.
    pub(crate) fn count_of(&self, connection: u64) -> usize
        ensures { result ≡ length (filter (is_of connection) self.now) }
    {
        count_of(&self.counts, connection)
    }

    // Adds an action behind those of its number. The arrivals can't run over, since each one takes memory.
    pub(crate) fn put(
        &mut self,
        connection: u64,
        id: u64,
        entries: Entries,
    ) -> Result<(), AllocError>
        requires { All IsShallow entries }
        ensures { OnOk result (deferreds_of self.new ≡ in_place runs_before
            (record { connection = connection; id = id; entries = entries }) (deferreds_of self.old)) }
    {
        let place = ActionKey {
            connection,
            id,
            arrival: self.arrived,
        };
        let Some(arrived) = self.arrived.checked_add(1) else {
            return Err(AllocError);
        };
        mark(&mut self.empty, &entries, place)?;
        put_spots(&mut self.spots, place, &entries)?;
        raise(&mut self.counts, connection)?;
        self.arrived = arrived;
        match self.by_place.insert(place, entries) {
            Ok(_) => Ok(()),
            Err(_) => {
                lower(&mut self.counts, connection);
                Err(AllocError)
            }
        }
    }

    // The place of the connection's first action, if there is one. Found by a search.
    pub(crate) fn first_of(&self, connection: u64) -> Option<ActionKey>
        ensures { result ≡ first_own connection self.now }
    {
        let from = first_place(connection);
        match self.by_place.range(from..).next() {
            Some((place, _)) if place.connection == connection => Some(*place),
            Some(_) => None,
            None => None,
        }
    }

    // Takes out the action at the place, and gives its entries.
    pub(crate) fn take(&mut self, place: ActionKey) -> Option<Entries>
        ensures entries { result ≡ lookup (key_is (place_cmp place)) self.old }
        ensures left { self.new ≡ remove_entry (key_is (place_cmp place)) self.old }
        ensures shallow { IfSome result (All IsShallow) }
    {
        match self.by_place.remove(&place) {
            Some(entries) => {
                self.empty.remove(&place);
                take_spots(&mut self.spots, place, &entries);
                lower(&mut self.counts, place.connection);
                Some(entries)
            }
            None => None,
        }
    }

    // The places of the connection's actions that have an entry at or below the path. Costs by these entries.
    pub(crate) fn dirty_of(
        &self,
        alloc: Global,
        connection: u64,
        path: &Path,
    ) -> Result<BTreeSet<ActionKey>, AllocError>
        ensures listed { IfOk result (λ places. AreListed connection path.now places.keys self.now) }
        ensures own { IfOk result (λ places. All (λ p. p.connection ≡ connection) places.keys) }
    {
        // For the prover: what the places lead to.
        let _by_place = &self.by_place;
        places_under(alloc, &self.spots, connection, path)
    }

    // Takes what is at and below the path out of the action at the place, which goes where nothing is left. Costs
    // by the action's entries.
    pub(crate) fn cut(
        &mut self,
        alloc: Global,
        place: ActionKey,
        path: &Path,
    ) -> Result<(), AllocError>
        ensures cut { OnOk result (self.new ≡ cut_at place path.now self.old) }
        ensures order { AreByPlace self.old }
    {
        match self.by_place.get(&place) {
            Some(entries) => {
                let left = entries_apart(alloc, entries, path)?;
                if is_bare(&left) {
                    self.take(place);
                    return Ok(());
                }
                match self.by_place.insert(place, left) {
                    Ok(Some(whole)) => {
                        take_spots_under(&mut self.spots, place, &whole, path);
                        Ok(())
                    }
                    Ok(None) => Ok(()),
                    Err(_) => Err(AllocError),
                }
            }
            None => Ok(()),
        }
    }

    // Takes out the actions that have no entries. Costs by those that came since the last time.
    pub(crate) fn drop_bare(&mut self)
        ensures { self.new ≡ filter (λ e. not (is_bare_at e)) self.old }
    {
        drop_bare(&mut self.by_place, &mut self.empty, &mut self.counts);
    }
}

// ---- where the actions of connections stand

// Where an action stands: by connection, by the number of its request, and then by arrival.
#[derive(Clone, Copy)]
pub(crate) struct ActionKey {
    pub(crate) connection: u64,
    pub(crate) id: u64,
    pub(crate) arrival: u64,
}

impl PartialEq for ActionKey {
    ghost eq = { eq_by_cmp place_cmp };

    ghost laws = { Cmp.partial_equiv_from_equiv (eq_by_cmp_equiv places_total) };

    fn eq(&self, other: &ActionKey) -> bool {
        self.cmp(other).is_eq()
    }
}

impl Eq for ActionKey {
    ghost laws = { eq_by_cmp_equiv places_total };
}

impl PartialOrd for ActionKey {
    ghost partial_cmp = { λ x y. Some (place_cmp x y) };

    ghost laws = { partial_order_from_total places_total };

    fn partial_cmp(&self, other: &ActionKey) -> Option<Ordering> {
        Some(self.cmp(other))
    }
}

impl Ord for ActionKey {
    ghost cmp = { place_cmp };

    ghost total = { places_total };

    ghost matches_partial_cmp = { Prim.search rules };

    ghost matches_eq = { Prim.search rules };

    fn cmp(&self, other: &ActionKey) -> Ordering {
        self.connection.cmp(&other.connection).then(
            self.id
                .cmp(&other.id)
                .then(self.arrival.cmp(&other.arrival)),
        )
    }
}

// The first place that there can be of the connection.
pub(crate) fn first_place(connection: u64) -> ActionKey
    ensures { result ≡ record { connection = connection; id = 0; arrival = 0 } }
{
    ActionKey {
        connection,
        id: 0,
        arrival: 0,
    }
}
