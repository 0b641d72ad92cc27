// The listens of connections, found by owner and by path.
ghost use Rattle.std.specs.Prelude.{◌≡◌, ◌==◌, ◌∷◌, true, false, not, length, [], Some, IfOk, IfSome, IfNone};
ghost use Rattle.std.specs.Prelude.{OnOk};
ghost use Rattle.std.specs.List.{All, AllPairs, filter, list_any};
ghost use Rattle.std.proofs.Common.{rules};
ghost use Rattle.std.specs.Cmp.{eq_by_cmp_equiv, partial_order_from_total};
ghost use Rattle.std.specs.Ordering.{eq_by_cmp};
ghost use Rattle.std.specs.BTreeMap.Comparable.{le_lt_trans};
ghost use Rattle.rt_peer.specs.Peers.{Listen, in_place, is_at, is_before, listens_behind};
ghost use Rattle.rt_peer.specs.inside.Met.{AreHanded};
ghost use Rattle.rt_peer.specs.inside.Spots.{listen_of, start_of, Stand, owner_cmp, owners_total, spot_cmp};
ghost use Rattle.rt_peer.specs.inside.Spots.{spots_total, is_above, is_in, overlaps, AreFound, AreKept};
ghost use Rattle.rt_query.specs.QueryOrder.{query_cmp};
ghost use Rattle.rt_query.specs.laws.QueryOrder.{queries_total};
ghost use Rattle.rt_peer.specs.inside.EntrySpots.{entry_spot_cmp, entry_spots_total, is_under};
ghost use Rattle.rt_peer.specs.inside.EntrySpots.{AreListedUnder, AreOthersKept, AreSpotsKept, HasSpots};
ghost use Rattle.std.specs.Cmp as Cmp;

use crate::actions::{ActionKey, first_place};
use crate::connections::{count_of, lower, raise};
use crate::write::{Numbers, entries_met};
use rt_query::{Query, query_cmp};
use rt_tree::{Key, Path, Tree};
use rt_writes::Entries;
use std::alloc::{AllocError, Global};
use std::cmp::Ordering;
use std::collections::btree_map::Comparable;
use std::collections::{BTreeMap, BTreeSet};
use std::marker::Model;
use std::ops::Bound;

// Adds where the owner's listen stands.
fn add_spot(
    spots: &mut BTreeSet<ListenKey>,
    query: &ListenQuery,
    owner: Owner,
) -> Result<(), AllocError>
    ensures kept { (l : Listen) → Stand spots.old.keys l → Stand spots.new.keys l }
    ensures added { OnOk result (Stand spots.new.keys (listen_of (owner, query.now))) }
{
    let spot = spot_at(query.path(), owner)?;
    spots.insert(spot)?;
    Ok(())
}

// Takes out where the owner's listen at the path stands. Where memory is missing it stays, and leads to
// nothing.
fn take_spot(spots: &mut BTreeSet<ListenKey>, path: &Path, owner: Owner)
    ensures { (l : Listen) → is_at owner.connection owner.tag l ≡ false
        → Stand spots.old.keys l → Stand spots.new.keys l }
{
    match spot_at(path, owner) {
        Ok(spot) => {
            spots.remove(&spot);
        }
        Err(_) => {}
    }
}

// The first owner that a connection can be.
fn first_owner(connection: u64) -> Owner
    ensures { result ≡ record { connection = connection; tag = 0 } }
{
    Owner { connection, tag: 0 }
}

// From where a connection's listens behind that tag stand by owner.
fn start_of(connection: u64, above: Option<u64>) -> Bound<Owner>
    ensures { result ≡ start_of connection above }
{
    match above {
        Some(tag) => Bound::Excluded(Owner { connection, tag }),
        None => Bound::Included(first_owner(connection)),
    }
}

// The queries that are listened to, by owner, where they stand by path, and how many each connection has.
pub(crate) struct Listens {
    by_owner: BTreeMap<Owner, ListenQuery>,
    spots: BTreeSet<ListenKey>,
    counts: BTreeMap<u64, usize>,
}

impl Drop for Listens {
    fn drop(self) {
        let Listens {
            by_owner: _,
            spots: _,
            counts: _,
        } = self;
    }
}

impl Model for Listens {
    ghost use Rattle.std.specs.Prelude.{List};
    ghost use Rattle.rt_peer.specs.Peers.{Listen};
    ghost use Rattle.rt_peer.specs.inside.Counts.{AreCounted};
    ghost use Rattle.rt_peer.specs.inside.Spots.{AllStand, AreByOwner, listens_of};

    ghost Value = { List Listen };

    ghost view = { λ a. listens_of a.by_owner.entries };

    ghost invariant = { λ a. AreByOwner a.by_owner.entries
        × AllStand a.spots.keys (listens_of a.by_owner.entries)
        × AreCounted a.counts.entries (listens_of a.by_owner.entries) };
}

impl Listens {
    pub(crate) fn new(alloc: Global) -> Listens
        ensures { result ≡ [] }
    {
        Listens {
            by_owner: BTreeMap::new(alloc),
            spots: BTreeSet::new(alloc),
            counts: BTreeMap::new(alloc),
        }
    }

    // That owner's query.
    pub(crate) fn get(&self, owner: &Owner) -> Option<&ListenQuery>
        ensures some { IfSome result (λ q. filter (is_at owner.now.connection owner.now.tag) self.now
            ≡ listen_of (owner.now, q.now) ∷ []) }
        ensures none { IfNone result
            (filter (is_at owner.now.connection owner.now.tag) self.now ≡ []) }
    {
        self.by_owner.get(owner)
    }

    // The owners of the listens at, above and below the entries' paths, in order, each with the numbers of these
    // entries. Costs by the entries, the keys of their paths and what is found, each times a logarithm.
    pub(crate) fn met(
        &self,
        alloc: Global,
        entries: &[(Path, Tree)],
    ) -> Result<BTreeMap<Owner, Numbers>, AllocError>
        ensures handed { IfOk result (λ met. AreHanded entries.now met.entries self.now) }
        ensures rise { AllPairs (λ l m. is_before l m ≡ true) self.now }
    {
        entries_met(alloc, &self.spots, entries)
    }

    // Keeps a listen, in the place of the connection's older one with its tag.
    pub(crate) fn keep(&mut self, owner: Owner, query: ListenQuery) -> Result<(), AllocError>
        ensures { OnOk result (self.new ≡ in_place is_before (listen_of (owner, query))
            (filter (λ l. not (is_at owner.connection owner.tag l)) self.old)) }
    {
        self.remove(owner);
        add_spot(&mut self.spots, &query, owner)?;
        raise(&mut self.counts, owner.connection)?;
        match self.by_owner.insert(owner, query) {
            Ok(_) => Ok(()),
            Err(_) => {
                lower(&mut self.counts, owner.connection);
                Err(AllocError)
            }
        }
    }

    // Takes out the owner's listen, if there is one, and gives its query.
    pub(crate) fn remove(&mut self, owner: Owner) -> Option<ListenQuery>
        ensures left { self.new ≡ filter (λ l. not (is_at owner.connection owner.tag l)) self.old }
        ensures some { IfSome result (λ q. filter (is_at owner.connection owner.tag) self.old
            ≡ listen_of (owner, q) ∷ []) }
        ensures none { IfNone result (filter (is_at owner.connection owner.tag) self.old ≡ []) }
    {
        match self.by_owner.remove(&owner) {
            Some(query) => {
                take_spot(&mut self.spots, query.path(), owner);
                lower(&mut self.counts, owner.connection);
                Some(query)
            }
            None => None,
        }
    }

    // How many the connection has.
    pub(crate) fn count_of(&self, connection: u64) -> usize
        ensures { result ≡ length (filter (λ l. l.connection == connection) self.now) }
    {
        count_of(&self.counts, connection)
    }

    // The first owner that is the connection, if there is one. Found by a search.
    pub(crate) fn first_of(&self, connection: u64) -> Option<Owner>
        ensures some { IfSome result (λ o. (o.connection ≡ connection)
            × (list_any (is_at o.connection o.tag) self.now ≡ true)) }
        ensures none { IfNone result (All (λ l. (l.connection == connection) ≡ false) self.now) }
    {
        let from = first_owner(connection);
        match self.by_owner.range(from..).next() {
            Some((owner, _)) if owner.connection == connection => Some(*owner),
            Some(_) => None,
            None => None,
        }
    }

    // The connection's next listen behind that tag: its tag, and its query. Found by a search.
    pub(crate) fn next_of(&self, connection: u64, above: Option<u64>) -> Option<(u64, &Query)>
        ensures some { IfSome result (λ next. listens_behind connection above self.now
            ≡ record { connection = connection; tag = next.0; query = next.1.now }
            ∷ listens_behind connection (Some next.0) self.now) }
        ensures none { IfNone result (listens_behind connection above self.now ≡ []) }
    {
        let range = (start_of(connection, above), Bound::Unbounded);
        match self.by_owner.range(range).next() {
            Some((owner, heard)) if owner.connection == connection => {
                Some((owner.tag, heard.query()))
            }
            Some(_) => None,
            None => None,
        }
    }
}

// ---- where listens stand by path: those at and below a path stand together, and are found by a
// search

// Whose a listen is, and its tag.
#[derive(Clone, Copy)]
pub(crate) struct Owner {
    pub(crate) connection: u64,
    pub(crate) tag: u64,
}

impl PartialEq for Owner {
    ghost eq = { eq_by_cmp owner_cmp };

    ghost laws = { Cmp.partial_equiv_from_equiv (eq_by_cmp_equiv owners_total) };

    fn eq(&self, other: &Owner) -> bool {
        self.cmp(other).is_eq()
    }
}

impl Eq for Owner {
    ghost laws = { eq_by_cmp_equiv owners_total };
}

impl PartialOrd for Owner {
    ghost partial_cmp = { λ x y. Some (owner_cmp x y) };

    ghost laws = { partial_order_from_total owners_total };

    fn partial_cmp(&self, other: &Owner) -> Option<Ordering> {
        Some(self.cmp(other))
    }
}

impl Ord for Owner {
    ghost cmp = { owner_cmp };

    ghost total = { owners_total };

    ghost matches_partial_cmp = { Prim.search rules };

    ghost matches_eq = { Prim.search rules };

    fn cmp(&self, other: &Owner) -> Ordering {
        self.connection
            .cmp(&other.connection)
            .then(self.tag.cmp(&other.tag))
    }
}

// Where a listen stands by path.
pub(crate) struct ListenKey {
    pub(crate) path: Path,
    pub(crate) owner: Owner,
}

impl Drop for ListenKey {
    fn drop(self) {
        let ListenKey { path: _, owner: _ } = self;
    }
}

impl PartialEq for ListenKey {
    ghost eq = { eq_by_cmp spot_cmp };

    ghost laws = { Cmp.partial_equiv_from_equiv (eq_by_cmp_equiv spots_total) };

    fn eq(&self, other: &ListenKey) -> bool {
        self.cmp(other).is_eq()
    }
}

impl Eq for ListenKey {
    ghost laws = { eq_by_cmp_equiv spots_total };
}

impl PartialOrd for ListenKey {
    ghost partial_cmp = { λ x y. Some (spot_cmp x y) };

    ghost laws = { partial_order_from_total spots_total };

    fn partial_cmp(&self, other: &ListenKey) -> Option<Ordering> {
        Some(self.cmp(other))
    }
}

impl Ord for ListenKey {
    ghost cmp = { spot_cmp };

    ghost total = { spots_total };

    ghost matches_partial_cmp = { Prim.search rules };

    ghost matches_eq = { Prim.search rules };

    fn cmp(&self, other: &ListenKey) -> Ordering {
        self.path
            .cmp(&other.path)
            .then(self.owner.cmp(&other.owner))
    }
}

// Whether a spot is at the path, or with what is below, at or below it.
fn is_in(path: &Path, below: bool, spot: &ListenKey) -> bool
    ensures { result ≡ is_in path.now below spot.now }
{
    if below {
        path.is_prefix_of(&spot.path)
    } else {
        *path == spot.path
    }
}

// The owner's spot at the path.
pub(crate) fn spot_at(path: &Path, owner: Owner) -> Result<ListenKey, AllocError>
    ensures { IfOk result (λ s. s ≡ record { path = path.now; owner = owner }) }
{
    Ok(ListenKey {
        path: path.copy()?,
        owner,
    })
}

// The first spot that there can be at the path.
fn first_at(path: &Path) -> Result<ListenKey, AllocError>
    ensures { IfOk result (λ s. s ≡ record {
      path = path.now;
      owner = record { connection = 0; tag = 0 };
    }) }
{
    let owner = Owner {
        connection: 0,
        tag: 0,
    };
    spot_at(path, owner)
}

// Adds whose spots are at the path, or with what is below, at and below it. Costs by these.
fn gather_in(
    spots: &BTreeSet<ListenKey>,
    path: &Path,
    below: bool,
    found: &mut BTreeSet<Owner>,
) -> Result<(), AllocError>
    ensures kept { OnOk result (AreKept found.old.keys found.new.keys) }
    ensures found { OnOk result (AreFound (is_in path.now below) spots.now.keys found.new.keys) }
{
    let from = first_at(path)?;
    for spot in spots.range(from..) {
        if !is_in(path, below, spot) {
            return Ok(());
        }
        found.insert(spot.owner)?;
    }
    Ok(())
}

// The path of these keys, which are not too many.
fn path_of(alloc: Global, keys: &[Key]) -> Result<Path, AllocError>
    ensures { IfOk result (λ path. path ≡ keys.now) }
{
    match Path::from_keys(alloc, keys) {
        Ok(path) => Ok(path),
        Err(_) => Err(AllocError),
    }
}

// Adds whose spots are above the path: one search for each path above it.
fn gather_above(
    alloc: Global,
    spots: &BTreeSet<ListenKey>,
    path: &Path,
    found: &mut BTreeSet<Owner>,
) -> Result<(), AllocError>
    ensures kept { OnOk result (AreKept found.old.keys found.new.keys) }
    ensures found { OnOk result (AreFound (is_above path.now) spots.now.keys found.new.keys) }
{
    let keys = path.keys();
    for count in 0..keys.len() {
        let above = path_of(alloc, &keys[..count])?;
        gather_in(spots, &above, false, found)?;
    }
    Ok(())
}

// Adds whose spots the path overlaps.
pub(crate) fn gather(
    alloc: Global,
    spots: &BTreeSet<ListenKey>,
    path: &Path,
    found: &mut BTreeSet<Owner>,
) -> Result<(), AllocError>
    ensures kept { OnOk result (AreKept found.old.keys found.new.keys) }
    ensures found { OnOk result (AreFound (overlaps path.now) spots.now.keys found.new.keys) }
{
    gather_above(alloc, spots, path, found)?;
    gather_in(spots, path, true, found)?;
    Ok(())
}

// ---- queries that are listened to, each found among others by its order

// A query that is listened to.
pub(crate) struct ListenQuery {
    query: Query,
}

impl Drop for ListenQuery {
    fn drop(self) {
        let ListenQuery { query: _ } = self;
    }
}

impl Model for ListenQuery {
    ghost use Rattle.rt_query.specs.Queries.{Query};

    ghost Value = { Query };

    ghost view = { λ a. a.query };
}

impl ListenQuery {
    pub(crate) fn new(query: Query) -> ListenQuery
        ensures { result ≡ query }
    {
        ListenQuery { query }
    }

    pub(crate) fn query(&self) -> &Query
        ensures { result.now ≡ self.now }
    {
        &self.query
    }

    pub(crate) fn path(&self) -> &Path
        ensures { result.now ≡ self.now.path }
    {
        self.query.path()
    }

    // An equal one.
    pub(crate) fn copy(&self) -> Result<ListenQuery, AllocError>
        ensures { IfOk result (λ heard. heard ≡ self.now) }
    {
        let query = self.query.copy()?;
        Ok(ListenQuery { query })
    }
}

impl PartialEq for ListenQuery {
    ghost eq = { eq_by_cmp query_cmp };

    ghost laws = { Cmp.partial_equiv_from_equiv (eq_by_cmp_equiv queries_total) };

    fn eq(&self, other: &ListenQuery) -> bool {
        self.cmp(other).is_eq()
    }
}

impl Eq for ListenQuery {
    ghost laws = { eq_by_cmp_equiv queries_total };
}

impl PartialOrd for ListenQuery {
    ghost partial_cmp = { λ x y. Some (query_cmp x y) };

    ghost laws = { partial_order_from_total queries_total };

    fn partial_cmp(&self, other: &ListenQuery) -> Option<Ordering> {
        Some(self.cmp(other))
    }
}

impl Ord for ListenQuery {
    ghost cmp = { query_cmp };

    ghost total = { queries_total };

    ghost matches_partial_cmp = { Prim.search rules };

    ghost matches_eq = { Prim.search rules };

    fn cmp(&self, other: &ListenQuery) -> Ordering {
        query_cmp(&self.query, &other.query)
    }
}

// ---- where the entries of actions stand by path: those of a connection at and below a path stand
// together, and are found by a search

// Where an entry of an action stands: whose action it is, and the entry's path.
pub(crate) struct EntrySpot {
    pub(crate) place: ActionKey,
    pub(crate) path: Path,
}

impl Drop for EntrySpot {
    fn drop(self) {
        let EntrySpot { place: _, path: _ } = self;
    }
}

impl PartialEq for EntrySpot {
    ghost eq = { eq_by_cmp entry_spot_cmp };

    ghost laws = { Cmp.partial_equiv_from_equiv (eq_by_cmp_equiv entry_spots_total) };

    fn eq(&self, other: &EntrySpot) -> bool {
        self.cmp(other).is_eq()
    }
}

impl Eq for EntrySpot {
    ghost laws = { eq_by_cmp_equiv entry_spots_total };
}

impl PartialOrd for EntrySpot {
    ghost partial_cmp = { λ x y. Some (entry_spot_cmp x y) };

    ghost laws = { partial_order_from_total entry_spots_total };

    fn partial_cmp(&self, other: &EntrySpot) -> Option<Ordering> {
        Some(self.cmp(other))
    }
}

impl Ord for EntrySpot {
    ghost cmp = { entry_spot_cmp };

    ghost total = { entry_spots_total };

    ghost matches_partial_cmp = { Prim.search rules };

    ghost matches_eq = { Prim.search rules };

    fn cmp(&self, other: &EntrySpot) -> Ordering {
        self.place.connection.cmp(&other.place.connection).then(
            self.path
                .cmp(&other.path)
                .then(self.place.cmp(&other.place)),
        )
    }
}

// The spot of an entry, whose path is lent.
#[derive(Clone, Copy)]
struct Lent<'a> {
    place: ActionKey,
    path: &'a Path,
}

impl Comparable<EntrySpot> for Lent<'_> {
    ghost compare = { λ q. entry_spot_cmp (record { place = q.place; path = q.path.now }) };

    ghost respects_cmp = { λ q. entry_spots_total.congr (record { place = q.place; path = q.path.now }) };

    ghost below_greater = { λ q. le_lt_trans entry_spots_total (record { place = q.place; path = q.path.now }) };

    fn compare(&self, spot: &EntrySpot) -> Ordering {
        self.place.connection.cmp(&spot.place.connection).then(
            self.path.cmp(&spot.path).then(self.place.cmp(&spot.place)),
        )
    }
}

// Whether a spot is the connection's, at or below the path.
fn is_under(connection: u64, path: &Path, spot: &EntrySpot) -> bool
    ensures { result ≡ is_under connection path.now spot.now }
{
    spot.place.connection == connection && path.is_prefix_of(&spot.path)
}

// The spot of an entry.
fn spot_of(place: ActionKey, path: &Path) -> Result<EntrySpot, AllocError>
    ensures { IfOk result (λ s. s ≡ record { place = place; path = path.now }) }
{
    Ok(EntrySpot {
        place,
        path: path.copy()?,
    })
}

// The first spot that there can be of the connection at the path.
fn first_spot(connection: u64, path: &Path) -> Result<EntrySpot, AllocError>
    ensures { IfOk result (λ s. s ≡ record {
      place = record { connection = connection; id = 0; arrival = 0 };
      path = path.now;
    }) }
{
    spot_of(first_place(connection), path)
}

// The places of the connection's actions that have a spot at or below the path. Costs by these spots.
pub(crate) fn places_under(
    alloc: Global,
    spots: &BTreeSet<EntrySpot>,
    connection: u64,
    path: &Path,
) -> Result<BTreeSet<ActionKey>, AllocError>
    ensures listed { IfOk result (λ places. AreListedUnder connection path.now places.keys spots.now.keys) }
    ensures own { IfOk result (λ places. All (λ p. p.connection ≡ connection) places.keys) }
{
    let mut places = BTreeSet::new(alloc);
    let from = first_spot(connection, path)?;
    for spot in spots.range(from..) {
        if !is_under(connection, path, spot) {
            return Ok(places);
        }
        places.insert(spot.place)?;
    }
    Ok(places)
}

// Adds the spots of the entries of an action.
pub(crate) fn put_spots(
    spots: &mut BTreeSet<EntrySpot>,
    place: ActionKey,
    entries: &Entries,
) -> Result<(), AllocError>
    ensures kept { AreSpotsKept spots.old.keys spots.new.keys }
    ensures put { OnOk result (HasSpots spots.new.keys (place, entries.now)) }
{
    for entry in entries.as_slice() {
        spots.insert(spot_of(place, &entry.0)?)?;
    }
    Ok(())
}

// Takes out the spots of an action's entries.
pub(crate) fn take_spots(spots: &mut BTreeSet<EntrySpot>, place: ActionKey, entries: &Entries)
    ensures { AreOthersKept place [] spots.old.keys spots.new.keys }
{
    for entry in entries.as_slice() {
        spots.remove(Lent {
            place,
            path: &entry.0,
        });
    }
}

// Takes out the spots of those entries of an action that are at or below the path.
pub(crate) fn take_spots_under(
    spots: &mut BTreeSet<EntrySpot>,
    place: ActionKey,
    entries: &Entries,
    path: &Path,
)
    ensures { AreOthersKept place path.now spots.old.keys spots.new.keys }
{
    for entry in entries.as_slice() {
        if path.is_prefix_of(&entry.0) {
            spots.remove(Lent {
                place,
                path: &entry.0,
            });
        }
    }
}
