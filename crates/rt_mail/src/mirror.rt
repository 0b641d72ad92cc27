// What one who takes all of a seat's items knows.
ghost use Rattle.std.specs.Prelude.{◌≡◌, Some, ◌≤◌, ◌<◌, ℕ, IfOk, OnOk, length, map, slice_set};
ghost use Rattle.std.specs.Prelude.{slice_index_or, nat_le, ◌==◌, [], IfErr, None};
ghost use Rattle.std.specs.Option.{option_map};
ghost use Rattle.std.specs.List.{find, insert, position_or_len, remove as without_at};
ghost use Rattle.rt_mail.specs.Mailbox.{nothing_known, Children, with_request, without_request};
ghost use Rattle.rt_mail.specs.Mailbox.{without_listener};
ghost use Rattle.rt_mail.specs.Mirrors.{Takes, has_failed, children_in, listeners_in, requests_in};
ghost use Rattle.rt_view.specs.Changes.{replay};
ghost use Rattle.rt_mail.specs.inside.Places.{does_stand, after_changes, numbers_of};
ghost use Rattle.rt_mail.specs.laws.Replays.{Rise};
ghost use Rattle.rt_mail.specs.Snapshots.{seen_of, shown_to, begun, shows, ended, after_item};
ghost use Rattle.rt_mail.specs.Snapshots.{signed as signed_shown, tree_told, shown_of};

use crate::error::MailError;
use crate::item::{Item, Receipt};
use rt_query::{Query, Shown};
use rt_tree::{Key, Tree};
use rt_view::{Batch, Change, apply_changes};
use std::alloc::{AllocError, Global};
use std::collections::BTreeMap;
use std::marker::Model;

/// What one who takes a seat's items knows: its listeners with their children, and its unsettled
/// requests. Once it has lacked memory it has failed, and answers nothing else from then on.
pub struct Mirror {
    known: Option<Known>,
}

impl Drop for Mirror {
    fn drop(self) {
        let Mirror { known: _ } = self;
    }
}

impl Model for Mirror {
    ghost use Rattle.std.specs.Prelude.{Option};
    ghost use Rattle.rt_mail.specs.Mailbox.{Known};

    ghost Value = { Option Known };

    ghost view = { λ a. a.known };
}

impl Mirror {
    /// Before any item.
    pub fn new(alloc: Global) -> Mirror
        ensures { result ≡ Some nothing_known }
    {
        Mirror {
            known: Some(Known::new(alloc)),
        }
    }

    /// Takes an item. Its keys and trees are shared.
    ///
    /// # Errors
    ///
    /// Failed where the mirror has failed; else want of memory, after which it has.
    pub fn take(&mut self, item: Item) -> Result<(), MailError>
        ensures { Takes self.old item result self.new }
    {
        self.take_from(&item)
    }

    // Takes what an item tells.
    pub(crate) fn take_from(&mut self, item: &Item) -> Result<(), MailError>
        ensures { Takes self.old item.now result self.new }
    {
        let Some(known) = self.known.take() else {
            return Err(MailError::Failed);
        };
        self.known = Some(known.after(item)?);
        Ok(())
    }

    /// Whether it has failed.
    pub fn has_failed(&self) -> bool
        ensures { result ≡ has_failed self.now }
    {
        self.known.is_none()
    }

    /// The children of that listener, by their keys; none where no such listener is known.
    pub fn children(&self, listener: u64) -> Option<&BTreeMap<Key, Tree>>
        ensures { option_map (λ c. c.now.entries) result ≡ children_in self.now listener }
    {
        match &self.known {
            Some(known) => known.children(listener),
            None => None,
        }
    }

    /// The numbers of the listeners, which rise.
    pub fn listeners(&self) -> &[u64]
        ensures { result.now ≡ listeners_in self.now }
    {
        match &self.known {
            Some(known) => known.listeners(),
            None => &[],
        }
    }

    /// The numbers of the unsettled requests, which rise.
    pub fn requests(&self) -> &[u64]
        ensures { result.now ≡ requests_in self.now }
    {
        match &self.known {
            Some(known) => known.requests(),
            None => &[],
        }
    }
}

// ---- what is known of a seat by the items that were taken

// A listener with its children.
pub(crate) struct HeardListener {
    listener: u64,
    children: BTreeMap<Key, Tree>,
}

impl Drop for HeardListener {
    fn drop(self) {
        let HeardListener {
            listener: _,
            children: _,
        } = self;
    }
}

impl Model for HeardListener {
    ghost use Rattle.std.specs.Prelude.{List, ℕ};
    ghost use Rattle.std.specs.BTreeMap.{IsOrdered};
    ghost use Rattle.rt_tree.specs.PathTree.{Key, PathTree, key_cmp};

    ghost Value = { ℕ × List (Key × PathTree) };

    ghost view = { λ a. (a.listener, a.children.entries) };

    ghost invariant = { λ a. IsOrdered key_cmp a.children };
}

impl HeardListener {
    // A listener without children.
    fn new(alloc: Global, listener: u64) -> HeardListener
        ensures { result ≡ (listener, []) }
    {
        HeardListener {
            listener,
            children: BTreeMap::new(alloc),
        }
    }

    // The children after the changes.
    fn play(&mut self, alloc: Global, changes: &[Change]) -> Result<(), AllocError>
        ensures { OnOk result (self.new ≡ after_changes changes.now self.old) }
    {
        apply_changes(alloc, &mut self.children, changes)?;
        Ok(())
    }
}

// The first place at which no lesser number stands, by halving.
fn place_of(numbers: &[u64], number: u64) -> usize
    requires { Rise numbers.now }
    ensures first { result ≡ position_or_len (nat_le number) numbers.now }
    ensures within { result ≤ length numbers.now }
{
    numbers.partition_point(|other| *other < number)
}

// Whether the number stands at the place.
fn stands_at(numbers: &[u64], place: usize, number: u64) -> bool
    ensures { result ≡ does_stand numbers.now place number }
{
    match numbers.get(place) {
        Some(other) => *other == number,
        None => false,
    }
}

// The number among the others; it may be there.
fn insert(numbers: &mut Vec<u64>, number: u64) -> Result<(), AllocError>
    requires { Rise numbers.old.items }
    ensures { OnOk result (numbers.new.items ≡ with_request number numbers.old.items) }
{
    let place = place_of(numbers.as_slice(), number);
    if !stands_at(numbers.as_slice(), place, number) {
        numbers.insert(place, number)?;
    }
    Ok(())
}

// The numbers without that one, which may not be there.
fn remove(numbers: &mut Vec<u64>, number: u64)
    requires { Rise numbers.old.items }
    ensures { numbers.new.items ≡ without_request number numbers.old.items }
{
    let place = place_of(numbers.as_slice(), number);
    if stands_at(numbers.as_slice(), place, number) {
        let _is_number = numbers.remove(place);
    }
}

// The listeners after the changes of the one at the place.
fn play_at(
    alloc: Global,
    heard: &mut Vec<HeardListener>,
    place: usize,
    changes: &[Change],
) -> Result<(), AllocError>
    requires { place < length heard.old.items }
    ensures { OnOk result ((one : ℕ × Children) → heard.new.items ≡ slice_set heard.old.items place
        (after_changes changes.now (slice_index_or heard.old.items place one))) }
{
    heard[place].play(alloc, changes)?;
    Ok(())
}

// The children of a listener, of which the numbers are beside.
fn children_of<'a>(
    numbers: &[u64],
    heard: &'a [HeardListener],
    listener: u64,
) -> Option<&'a BTreeMap<Key, Tree>>
    requires rise { Rise numbers.now }
    requires beside { numbers.now ≡ numbers_of heard.now }
    ensures { option_map (λ c. c.now.entries) result
        ≡ option_map (λ l. l.1) (find (λ l. l.0 == listener) heard.now) }
{
    let place = place_of(numbers, listener);
    if !stands_at(numbers, place, listener) {
        return None;
    }
    let one = &heard[place];
    Some(&one.children)
}

// A listener without children at the place.
fn insert_heard(
    alloc: Global,
    heard: &mut Vec<HeardListener>,
    place: usize,
    listener: u64,
) -> Result<(), AllocError>
    requires { place ≤ length heard.old.items }
    ensures { OnOk result (heard.new.items ≡ insert heard.old.items place (listener, [])) }
{
    heard.insert(place, HeardListener::new(alloc, listener))?;
    Ok(())
}

// The listeners but for the one at the place.
fn remove_at(heard: &mut Vec<HeardListener>, place: usize)
    requires { place < length heard.old.items }
    ensures { heard.new.items ≡ without_at heard.old.items place }
{
    drop(heard.remove(place));
}

// The listeners by number, and their numbers beside them; the unsettled requests by number.
#[derive(Drop)]
pub(crate) struct Known {
    heard: Vec<HeardListener>,
    numbers: Vec<u64>,
    requests: Vec<u64>,
}

impl Model for Known {
    ghost use Rattle.rt_mail.specs.Mailbox.{Known};
    ghost use Rattle.rt_mail.specs.inside.Places.{AreInOrder};

    ghost Value = { Known };

    ghost view = { λ a. record { listeners = a.heard.items; requests = a.requests.items } };

    ghost invariant = { λ a. AreInOrder a.heard.items a.numbers.items a.requests.items };
}

impl Known {
    ghost use Rattle.rt_mail.specs.Mailbox.{nothing_known, with_listener, played, signed, taken, children_of};

    // Nothing is known.
    pub(crate) fn new(alloc: Global) -> Known
        ensures { result ≡ nothing_known }
    {
        Known {
            heard: Vec::new(alloc),
            numbers: Vec::new(alloc),
            requests: Vec::new(alloc),
        }
    }

    // The numbers of the listeners.
    pub(crate) fn listeners(&self) -> &[u64]
        ensures { result.now ≡ map (λ l. l.0) self.now.listeners }
    {
        self.numbers.as_slice()
    }

    // The numbers of the unsettled requests.
    pub(crate) fn requests(&self) -> &[u64]
        ensures { result.now ≡ self.now.requests }
    {
        self.requests.as_slice()
    }

    // The children of a listener.
    pub(crate) fn children(&self, listener: u64) -> Option<&BTreeMap<Key, Tree>>
        ensures { option_map (λ c. c.now.entries) result ≡ children_of self.now listener }
    {
        children_of(self.numbers.as_slice(), self.heard.as_slice(), listener)
    }

    // A new listener, unless it is one already.
    fn with_listener(self, listener: u64) -> Result<Known, AllocError>
        ensures { IfOk result (λ known. known ≡ record self { listeners = with_listener listener self.listeners }) }
    {
        let alloc = *self.numbers.allocator();
        let mut known = self;
        let place = place_of(known.numbers.as_slice(), listener);
        if stands_at(known.numbers.as_slice(), place, listener) {
            return Ok(known);
        }
        known.numbers.insert(place, listener)?;
        insert_heard(alloc, &mut known.heard, place, listener)?;
        Ok(known)
    }

    // What is known but for that listener.
    fn without_listener(self, listener: u64) -> Known
        ensures { result ≡ record self { listeners = without_listener listener self.listeners } }
    {
        let mut known = self;
        let numbers = known.numbers.as_slice();
        let place = place_of(numbers, listener);
        if stands_at(numbers, place, listener) {
            let _is_listener = known.numbers.remove(place);
            remove_at(&mut known.heard, place);
        }
        known
    }

    // A new request, unless it is one already.
    fn with_request(self, id: u64) -> Result<Known, AllocError>
        ensures { IfOk result (λ known. known ≡ record self { requests = with_request id self.requests }) }
    {
        let mut known = self;
        insert(&mut known.requests, id)?;
        Ok(known)
    }

    // What is known but for that request.
    fn without_request(self, id: u64) -> Known
        ensures { result ≡ record self { requests = without_request id self.requests } }
    {
        let mut known = self;
        remove(&mut known.requests, id);
        known
    }

    // The changes of a listener's view, played over its children.
    fn played(self, batch: &Batch) -> Result<Known, AllocError>
        ensures { IfOk result (λ known. known ≡ record self {
          listeners = map (played batch.now.listener batch.now.changes) self.listeners;
        }) }
    {
        let alloc = *self.numbers.allocator();
        let mut known = self;
        let place = place_of(known.numbers.as_slice(), batch.listener);
        if !stands_at(known.numbers.as_slice(), place, batch.listener) {
            return Ok(known);
        }
        play_at(alloc, &mut known.heard, place, batch.changes.as_slice())?;
        Ok(known)
    }

    // What is known after a receipt.
    fn signed(self, receipt: &Receipt) -> Result<Known, AllocError>
        ensures { IfOk result (λ known. known ≡ signed self receipt.now) }
    {
        match receipt {
            Receipt::Listened { listener, .. } => self.with_listener(*listener),
            Receipt::Unlistened { listener } => Ok(self.without_listener(*listener)),
            Receipt::Wrote { id, .. } => self.with_request(*id),
            Receipt::Asked { id, .. } => self.with_request(*id),
        }
    }

    // What is known after an item.
    pub(crate) fn after(self, item: &Item) -> Result<Known, AllocError>
        ensures { IfOk result (λ known. known ≡ taken self item.now) }
    {
        match item {
            Item::Receipt(receipt) => self.signed(receipt),
            Item::Batch(batch) => self.played(batch),
            Item::Settled { id, .. } => Ok(self.without_request(*id)),
            Item::Cancelled { listener, .. } => Ok(self.without_listener(*listener)),
        }
    }
}

// ---- what is known of a seat's listeners by the items that it was given

/// What one who takes a seat's items can show of its listeners.
pub struct Snapshots {
    alloc: Global,
    known: BTreeMap<u64, Snapshot>,
}

impl Drop for Snapshots {
    fn drop(self) {
        let Snapshots { alloc: _, known: _ } = self;
    }
}

impl Model for Snapshots {
    ghost use Rattle.std.specs.Prelude.{List, ℕ};
    ghost use Rattle.std.specs.BTreeMap.{IsOrdered};
    ghost use Rattle.std.specs.Ordering.{nat_cmp};
    ghost use Rattle.rt_mail.specs.Snapshots.{Seen};

    ghost Value = { List (ℕ × Seen) };

    ghost view = { λ a. a.known.entries };

    ghost invariant = { λ a. IsOrdered nat_cmp a.known };
}

// The tree that changes end with, which is what the listener shows after them.
fn tree_in(changes: &[Change]) -> Option<&Tree>
    ensures { option_map (λ t. t.now) result ≡ tree_told changes.now }
{
    match changes.last() {
        Some(Change::Value { value }) => Some(value),
        Some(
            Change::Removed { .. }
            | Change::Added { .. }
            | Change::Moved { .. }
            | Change::Changed { .. },
        )
        | None => None,
    }
}

impl Snapshots {
    /// Before any item: no listener is known.
    pub fn new(alloc: Global) -> Snapshots
        ensures { result ≡ [] }
    {
        Snapshots {
            alloc,
            known: BTreeMap::new(alloc),
        }
    }

    /// How many listeners are known.
    pub fn len(&self) -> usize
        ensures { result ≡ length self.now }
    {
        self.known.len()
    }

    /// What is known of the listener of that number; none where no such listener is known.
    pub fn get(&self, listener: u64) -> Option<&Snapshot>
        ensures { option_map (λ s. s.now) result ≡ seen_of listener self.now }
    {
        self.known.get(&listener)
    }

    /// What the listener of that number shows, as a leaf or as rows in its query's order; none where no such
    /// listener is known, or nothing of its path yet. It costs by the rows; their trees are shared.
    ///
    /// # Errors
    ///
    /// Want of memory.
    pub fn shown(&self, listener: u64) -> Result<Option<Shown>, AllocError>
        ensures { IfOk result (λ shown. shown ≡ shown_to listener self.now) }
    {
        match self.get(listener) {
            Some(snapshot) => snapshot.shown(),
            None => Ok(None),
        }
    }

    // A new listener, of which nothing is known yet; one that is there stays as it is.
    fn begin(&mut self, listener: u64, query: &Query) -> Result<(), AllocError>
        ensures begun { OnOk result (self.new ≡ begun listener query.now self.old) }
        ensures unchanged { IfErr result (λ _. self.new ≡ self.old) }
    {
        if self.known.contains_key(&listener) {
            return Ok(());
        }
        let snapshot = Snapshot::new(query.copy()?);
        drop(self.known.insert(listener, snapshot)?);
        Ok(())
    }

    // The listener goes, if it is there.
    fn end(&mut self, listener: u64)
        ensures { self.new ≡ ended listener self.old }
    {
        drop(self.known.remove(&listener));
    }

    // A listener that is there shows another tree, if the batch ends with one.
    fn show(&mut self, batch: &Batch) -> Result<(), AllocError>
        ensures shown { OnOk result (self.new ≡ shows batch.now.listener batch.now.changes self.old) }
        ensures unchanged { IfErr result (λ _. self.new ≡ self.old) }
    {
        let Some(tree) = tree_in(batch.changes.as_slice()) else {
            return Ok(());
        };
        let tree = tree.copy(self.alloc)?;
        match self.known.get_mut(&batch.listener) {
            Some(snapshot) => snapshot.show(tree),
            None => drop(tree),
        }
        Ok(())
    }

    // Takes a receipt.
    fn sign(&mut self, receipt: &Receipt) -> Result<(), AllocError>
        ensures signed { OnOk result (self.new ≡ signed_shown self.old receipt.now) }
        ensures unchanged { IfErr result (λ _. self.new ≡ self.old) }
    {
        match receipt {
            Receipt::Listened { listener, query } => self.begin(*listener, query),
            Receipt::Unlistened { listener } => {
                self.end(*listener);
                Ok(())
            }
            Receipt::Wrote { .. } | Receipt::Asked { .. } => Ok(()),
        }
    }

    /// Takes an item; its trees are shared. After a refusal nothing is changed, and the item can be taken
    /// again.
    ///
    /// # Errors
    ///
    /// Want of memory.
    pub fn take(&mut self, item: &Item) -> Result<(), AllocError>
        ensures taken { OnOk result (self.new ≡ after_item self.old item.now) }
        ensures unchanged { IfErr result (λ _. self.new ≡ self.old) }
    {
        match item {
            Item::Receipt(receipt) => self.sign(receipt),
            Item::Batch(batch) => self.show(batch),
            Item::Settled { .. } => Ok(()),
            Item::Cancelled { listener, .. } => {
                self.end(*listener);
                Ok(())
            }
        }
    }
}

// ---- what is known of one listener

/// What is known of a listener: its query, and what it shows.
pub struct Snapshot {
    query: Query,
    value: Option<Tree>,
}

impl Drop for Snapshot {
    fn drop(self) {
        let Snapshot { query: _, value: _ } = self;
    }
}

impl Model for Snapshot {
    ghost use Rattle.rt_mail.specs.Snapshots.{Seen};

    ghost Value = { Seen };

    ghost view = { λ a. record { query = a.query; value = a.value } };
}

impl Snapshot {
    // Nothing is known yet.
    pub(crate) fn new(query: Query) -> Snapshot
        ensures { result ≡ record { query = query; value = None } }
    {
        Snapshot { query, value: None }
    }

    // It shows that tree from now on.
    pub(crate) fn show(&mut self, tree: Tree)
        ensures { self.new ≡ record (self.old) { value = Some tree } }
    {
        self.value = Some(tree);
    }

    /// What the listener asks for.
    pub fn query(&self) -> &Query
        ensures { result.now ≡ self.now.query }
    {
        &self.query
    }

    /// What it shows, as a tree: null where nothing is there, and a leaf as it is. None while nothing is
    /// known of its path.
    pub fn value(&self) -> Option<&Tree>
        ensures { option_map (λ t. t.now) result ≡ self.now.value }
    {
        self.value.as_ref()
    }

    /// The same as a leaf, or as rows in the query's order. It costs by the rows; their trees are shared.
    ///
    /// # Errors
    ///
    /// Want of memory.
    pub fn shown(&self) -> Result<Option<Shown>, AllocError>
        ensures { IfOk result (λ shown. shown ≡ shown_of self.now) }
    {
        match &self.value {
            Some(value) => Ok(Some(self.query.select(value)?)),
            None => Ok(None),
        }
    }
}
