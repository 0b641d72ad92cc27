// The views of filtered queries that are listened to: one for each, for all that listen to it.
ghost use Rattle.std.specs.Prelude.{◌≡◌, [], true, false, None, Some, IfOk, IfSome, OnOk, if◌then◌else◌, ◌≤◌};
ghost use Rattle.std.specs.Prelude.{◌++◌, ◌∷◌, OnErr};
ghost use Rattle.std.specs.Ordering.{is_eq};
ghost use Rattle.std.specs.List.{All};
ghost use Rattle.rt_query.specs.Queries.{Query, is_filtered};
ghost use Rattle.rt_query.specs.QueryOrder.{query_cmp};
ghost use Rattle.rt_peer.specs.inside.Looked.{at_query, told_of, AreLooked};
ghost use Rattle.rt_peer.specs.inside.Met.{IsMadeAt};
ghost use Rattle.rt_peer.specs.inside.Watched.{IsOf, children_at, first_key, named_keys, IsViewOf, AreTurned};
ghost use Rattle.rt_peer.specs.inside.Watched.{GoesOn};
ghost use Rattle.rt_tree.specs.PathTree.{levels, strip, sub, put};
ghost use Rattle.rt_query.specs.Select.{tree_of};
ghost use Rattle.rt_view.specs.Views.{renewed, shown_of, told, touched};
ghost use Rattle.rt_writes.specs.Writes.{IsShallow};
ghost use Rattle.rt_peer.specs.Pushes.{seen};

use crate::listens::ListenQuery;
use crate::write::{Write, is_any_above, leaves_part};
use rt_query::Query;
use rt_tree::{Key, MAX_KEYS, Path, Tree, TreeError};
use rt_view::{ChangeList, View};
use std::alloc::{AllocError, Global};
use std::collections::BTreeMap;
use std::marker::Model;

// The views by query.
pub(crate) struct Views {
    by_query: BTreeMap<ListenQuery, Watched>,
}

impl Drop for Views {
    fn drop(self) {
        let Views { by_query: _ } = self;
    }
}

impl Model for Views {
    ghost use Rattle.std.specs.Prelude.{List};
    ghost use Rattle.rt_query.specs.Queries.{Query};
    ghost use Rattle.rt_peer.specs.declared.views.Watched.{Watched};

    ghost Value = { List (Query × Watched) };

    ghost view = { λ a. a.by_query.entries };
}

impl Views {
    pub(crate) fn new(alloc: Global) -> Views
        ensures { result ≡ [] }
    {
        Views {
            by_query: BTreeMap::new(alloc),
        }
    }

    // Takes out the query's view.
    pub(crate) fn forget(&mut self, heard: &ListenQuery)
        ensures { (q : Query) → at_query self.new q
            ≡ if is_eq (query_cmp heard.now q) then None else at_query self.old q }
    {
        self.by_query.remove(heard);
    }

    // Takes out the query's view, or makes one of the tree.
    fn take(
        &mut self,
        alloc: Global,
        tree: &Tree,
        heard: &ListenQuery,
    ) -> Result<Watched, AllocError>
        requires filtered { is_filtered heard.now ≡ true }
        requires of { IfSome (at_query self.old heard.now) (IsOf tree.now heard.now) }
        ensures of { IfOk result (λ watched. IsOf tree.now heard.now watched) }
        ensures left { (q : Query) → at_query self.new q
            ≡ if is_eq (query_cmp heard.now q) then None else at_query self.old q }
    {
        match self.by_query.remove(heard) {
            Some(watched) => Ok(watched),
            None => Watched::new(alloc, tree, heard),
        }
    }

    // Puts the query's view where it stands.
    fn put(&mut self, heard: &ListenQuery, watched: Watched) -> Result<(), AllocError>
        ensures { OnOk result ((q : Query) → at_query self.new q
            ≡ if is_eq (query_cmp heard.now q) then Some watched else at_query self.old q) }
    {
        match self.by_query.insert(heard.copy()?, watched) {
            Ok(_) => Ok(()),
            Err(_) => Err(AllocError),
        }
    }

    // Takes what the entries made of the tree into the view of the filtered query, which is made where there is
    // none; and gives what it shows now, where that is something else.
    pub(crate) fn turn(
        &mut self,
        alloc: Global,
        write: &Write,
        entries: &[(Path, Tree)],
        heard: &ListenQuery,
    ) -> Result<Option<Tree>, AllocError>
        requires made { IsMadeAt heard.now.path entries.now write.now }
        requires filtered { is_filtered heard.now ≡ true }
        requires of { IfSome (at_query self.old heard.now) (IsOf write.now.before heard.now) }
        ensures told { IfOk result (λ told. told ≡ told_of write.now.before write.now.after heard.now) }
        ensures of { OnOk result (IfSome (at_query self.new heard.now) (IsOf write.now.after heard.now)) }
        ensures others { OnOk result ((q : Query) → is_eq (query_cmp heard.now q) ≡ false
            → at_query self.new q ≡ at_query self.old q) }
    {
        let mut watched = self.take(alloc, &write.before, heard)?;
        let told = watched.turn(alloc, write, entries, heard)?;
        self.put(heard, watched)?;
        Ok(told)
    }
}

// ---- a filtered query that is listened to, with what it shows of the tree

// The child at the key.
fn child_of(alloc: Global, tree: &Tree, key: &Key) -> Result<Tree, AllocError>
    ensures { IfOk result (λ child. child ≡ sub tree.now (key.now ∷ [])) }
{
    match tree.child_at(key) {
        Some(child) => child.copy(alloc),
        None => Ok(Tree::null()),
    }
}

// The child of the part at the path.
fn child_in(alloc: Global, tree: &Tree, path: &Path, key: &Key) -> Result<Tree, AllocError>
    ensures { IfOk result (λ child. child ≡ sub (sub tree.now path.now) (key.now ∷ [])) }
{
    let part = part_at(alloc, tree, path)?;
    child_of(alloc, &part, key)
}

// The same: a child stands above fewer keys than a tree may.
fn child_at(alloc: Global, tree: &Tree, path: &Path, key: &Key) -> Result<Tree, AllocError>
    ensures child { IfOk result (λ child. child ≡ sub (sub tree.now path.now) (key.now ∷ [])) }
    ensures fits { IfOk result (λ child. levels child ≤ MAX_KEYS) }
{
    // For the prover: the tree is one that may be held.
    let _children = tree.children();
    child_in(alloc, tree, path, key)
}

// Adds the child of the part at the path that the entry names, as the tree has it.
fn name_child(
    named: &mut Vec<(Key, Tree)>,
    alloc: Global,
    tree: &Tree,
    path: &Path,
    entry: &(Path, Tree),
) -> Result<(), AllocError>
    requires { All (λ c. levels c.1 ≤ MAX_KEYS) named.old.items }
    ensures named { OnOk result (named.new.items ≡ named.old.items
        ++ children_at (sub tree.now path.now) (first_key (strip path.now entry.now.0))) }
    ensures fits { OnOk result (All (λ c. levels c.1 ≤ MAX_KEYS) named.new.items) }
{
    let Some([key, ..]) = entry.0.strip_prefix(path) else {
        return Ok(());
    };
    let child = child_at(alloc, tree, path, key)?;
    named.push((key.copy()?, child))?;
    Ok(())
}

// The children of the part at the path that entries name, as the tree has them.
fn named_children(
    alloc: Global,
    tree: &Tree,
    path: &Path,
    entries: &[(Path, Tree)],
) -> Result<Vec<(Key, Tree)>, AllocError>
    ensures named { IfOk result (λ named. named.items
        ≡ children_at (sub tree.now path.now) (named_keys path.now entries.now)) }
    ensures fits { IfOk result (λ named. All (λ c. levels c.1 ≤ MAX_KEYS) named.items) }
{
    let mut named = Vec::new(alloc);
    for entry in entries {
        name_child(&mut named, alloc, tree, path, entry)?;
    }
    Ok(named)
}

// Puts the named children into the view.
fn touch(view: &mut View, alloc: Global, named: Vec<(Key, Tree)>) -> Result<ChangeList, AllocError>
    requires { All (λ c. levels c.1 ≤ MAX_KEYS) named.items }
    ensures touched { OnOk result (view.new ≡ touched view.old named.items) }
    ensures told { IfOk result (λ changes. changes ≡ told view.old view.new) }
{
    match view.touch(alloc, named) {
        Ok(changes) => Ok(changes),
        Err(_) => Err(AllocError),
    }
}

// Gives the view another part.
fn renew(view: &mut View, alloc: Global, part: Tree) -> Result<ChangeList, AllocError>
    ensures renewed { OnOk result (view.new ≡ renewed view.old part) }
    ensures told { IfOk result (λ changes. changes ≡ told view.old view.new) }
{
    match view.renew(alloc, part) {
        Ok(changes) => Ok(changes),
        Err(_) => Err(AllocError),
    }
}

// Takes what the entries made of the tree: the children that they name, where an object stays and none is at or
// above the path; else the whole part. Costs by the entries and by what they change, where an object stays.
fn show(
    view: &mut View,
    alloc: Global,
    write: &Write,
    entries: &[(Path, Tree)],
    heard: &ListenQuery,
) -> Result<ChangeList, AllocError>
    requires made { IsMadeAt heard.now.path entries.now write.now }
    requires of { IsViewOf write.now.before heard.now view.old }
    ensures of { OnOk result (IsViewOf write.now.after heard.now view.new) }
    ensures told { IfOk result (λ changes. changes ≡ told view.old view.new) }
{
    if !is_any_above(entries, heard.path()) {
        let named = named_children(alloc, &write.after, heard.path(), entries)?;
        if view.stays_object(&named) {
            return touch(view, alloc, named);
        }
    }
    let part = part_at(alloc, &write.after, heard.path())?;
    renew(view, alloc, part)
}

// What the view shows, as a tree.
fn shown_tree(alloc: Global, view: &View) -> Result<Tree, AllocError>
    ensures { IfOk result (λ tree. tree ≡ tree_of (shown_of view.now)) }
{
    match view.shown() {
        Ok(shown) => shown.tree().copy(alloc),
        Err(_) => Err(AllocError),
    }
}

// A view of a filtered query, and what it shows as a tree.
pub(crate) struct Watched {
    view: View,
    shown: Tree,
}

impl Drop for Watched {
    fn drop(self) {
        let Watched { view: _, shown: _ } = self;
    }
}

impl Watched {
    // What the filtered query shows of the tree.
    pub(crate) fn new(
        alloc: Global,
        tree: &Tree,
        heard: &ListenQuery,
    ) -> Result<Watched, AllocError>
        requires { is_filtered heard.now ≡ true }
        ensures { IfOk result (λ watched. IsOf tree.now heard.now watched) }
    {
        let part = part_at(alloc, tree, heard.path())?;
        let (view, _changes) = View::first(alloc, heard.query().copy()?, part)?;
        let shown = shown_tree(alloc, &view)?;
        Ok(Watched { view, shown })
    }

    // Takes what the entries made of the tree, and gives what the query shows now, where that is something else.
    pub(crate) fn turn(
        &mut self,
        alloc: Global,
        write: &Write,
        entries: &[(Path, Tree)],
        heard: &ListenQuery,
    ) -> Result<Option<Tree>, AllocError>
        requires made { IsMadeAt heard.now.path entries.now write.now }
        requires of { IsOf write.now.before heard.now self.old }
        ensures of { OnOk result (IsOf write.now.after heard.now self.new) }
        ensures told { IfOk result (λ told. told ≡ told_of write.now.before write.now.after heard.now) }
    {
        if leaves_part(&write.before, heard.path(), entries) {
            return Ok(None);
        }
        let changes = show(&mut self.view, alloc, write, entries, heard)?;
        if changes.is_empty() {
            return Ok(None);
        }
        let shown = shown_tree(alloc, &self.view)?;
        let is_same = self.shown == shown;
        if is_same {
            return Ok(None);
        }
        self.shown = shown.copy(alloc)?;
        Ok(Some(shown))
    }
}

// ---- what filtered queries are told of one write: each is looked at once, for all that listen to
// it

// An equal one.
fn copied(alloc: Global, told: &Option<Tree>) -> Result<Option<Tree>, AllocError>
    ensures { IfOk result (λ copy. copy ≡ told.now) }
{
    match told {
        Some(tree) => Ok(Some(tree.copy(alloc)?)),
        None => Ok(None),
    }
}

// Notes what a query is told.
fn note(
    alloc: Global,
    looked: &mut BTreeMap<ListenQuery, Option<Tree>>,
    heard: &ListenQuery,
    told: &Option<Tree>,
) -> Result<(), AllocError>
    ensures { OnOk result ((q : Query) → at_query looked.new.entries q
        ≡ if is_eq (query_cmp heard.now q) then Some told.now else at_query looked.old.entries q) }
{
    let told = copied(alloc, told)?;
    match looked.insert(heard.copy()?, told) {
        Ok(_) => Ok(()),
        Err(_) => Err(AllocError),
    }
}

// What the filtered query is told, which was not looked at before: its view takes the write.
fn look_anew(
    alloc: Global,
    write: &Write,
    entries: &[(Path, Tree)],
    heard: &ListenQuery,
    looked: &mut BTreeMap<ListenQuery, Option<Tree>>,
    views: &mut Views,
) -> Result<Option<Tree>, AllocError>
    requires made { IsMadeAt heard.now.path entries.now write.now }
    requires filtered { is_filtered heard.now ≡ true }
    requires anew { None ≡ at_query looked.old.entries heard.now }
    requires looked { AreLooked write.now.before write.now.after looked.old.entries }
    requires turned { AreTurned write.now.before write.now.after looked.old.entries views.old }
    ensures told { IfOk result (λ told. told ≡ told_of write.now.before write.now.after heard.now) }
    ensures looked { OnOk result (AreLooked write.now.before write.now.after looked.new.entries) }
    ensures turned { OnOk result (AreTurned write.now.before write.now.after looked.new.entries views.new) }
    ensures goes { OnOk result (GoesOn heard.now looked.old.entries looked.new.entries views.old views.new) }
{
    let told = views.turn(alloc, write, entries, heard)?;
    note(alloc, looked, heard, &told)?;
    Ok(told)
}

// What the filtered query is told, as it is noted, or looked at and noted.
pub(crate) fn look(
    alloc: Global,
    write: &Write,
    entries: &[(Path, Tree)],
    heard: &ListenQuery,
    looked: &mut BTreeMap<ListenQuery, Option<Tree>>,
    views: &mut Views,
) -> Result<Option<Tree>, AllocError>
    requires made { IsMadeAt heard.now.path entries.now write.now }
    requires filtered { is_filtered heard.now ≡ true }
    requires looked { AreLooked write.now.before write.now.after looked.old.entries }
    requires turned { AreTurned write.now.before write.now.after looked.old.entries views.old }
    ensures told { IfOk result (λ told. told ≡ told_of write.now.before write.now.after heard.now) }
    ensures looked { OnOk result (AreLooked write.now.before write.now.after looked.new.entries) }
    ensures turned { OnOk result (AreTurned write.now.before write.now.after looked.new.entries views.new) }
    ensures goes { OnOk result (GoesOn heard.now looked.old.entries looked.new.entries views.old views.new) }
{
    match looked.get(heard) {
        Some(told) => copied(alloc, told),
        None => look_anew(alloc, write, entries, heard, looked, views),
    }
}

// ---- what queries show of a tree, and what an entry makes of it

// The part of the tree at the path.
pub(crate) fn part_at(alloc: Global, tree: &Tree, path: &Path) -> Result<Tree, AllocError>
    ensures { IfOk result (λ part. part ≡ sub tree.now path.now) }
{
    match tree.get(path) {
        Some(part) => part.copy(alloc),
        None => Ok(Tree::null()),
    }
}

// What the query shows of the tree: the part at its path, or the object of the rows.
pub(crate) fn seen(alloc: Global, query: &Query, tree: &Tree) -> Result<Tree, AllocError>
    ensures { IfOk result (λ shown. shown ≡ seen query.now tree.now) }
{
    let part = part_at(alloc, tree, query.path())?;
    if !query.is_filtered() {
        return Ok(part);
    }
    let shown = query.select(&part)?;
    shown.tree().copy(alloc)
}

// Puts one entry. Path and tree are short enough together, so only memory can refuse.
pub(crate) fn put_entry(
    alloc: Global,
    tree: &mut Tree,
    path: &Path,
    entry: &Tree,
) -> Result<(), AllocError>
    requires { IsShallow (path.now, entry.now) }
    ensures ok { OnOk result (tree.new ≡ put tree.old path.now entry.now) }
    ensures err { OnErr result (tree.new ≡ tree.old) }
{
    let entry = entry.copy(alloc)?;
    match tree.put(alloc, path, entry) {
        Ok(()) => Ok(()),
        Err(TreeError::NoMemory) => Err(AllocError),
        Err(_) => unreachable!(),
    }
}
