// What the listens brought.
ghost use Rattle.std.specs.Prelude.{◌≡◌, ◌+◌, ◌<◌, ◌≤◌, T, true, false, not, length, IfOk, IfSome, ◌++◌, ◌∷◌};
ghost use Rattle.std.specs.Prelude.{[], List, None, IsOk, OnOk, OnErr};
ghost use Rattle.std.specs.List.{All, AllPairs, Contains};
ghost use Rattle.std.specs.Option.{option_copied};
ghost use Rattle.rt_tree.specs.PathTree.{PathTree, path_cmp, levels};
ghost use Rattle.rt_tree.specs.Assignments.{is_at_or_above, have_overlap};
ghost use Rattle.rt_query.specs.Queries.{Query};
ghost use Rattle.rt_query.specs.Supply.{form};
ghost use Rattle.rt_cache.specs.Canonical.{IsCanonical, Belongs};
ghost use Rattle.rt_cache.specs.Recover.{do_plains_overlap, recover, without_places, EndsForms};
ghost use Rattle.rt_cache.specs.inside.ByPath.{AreByQuery, query_of};
ghost use Rattle.rt_cache.specs.inside.Held.{pairs_of, held};
ghost use Rattle.rt_cache.specs.Brought.{nothing_brought, base, base_child, knows, push_plain, with_form};
ghost use Rattle.rt_cache.specs.Brought.{may_put, push, is_without_window, source, may_move};
ghost use Rattle.std.specs.FinMap as map_of;

use crate::by_path::{has_another_at, has_supplier};
use crate::forms::Forms;
use crate::recovery;
use crate::regions::{self, BoxedRegion, child_of};
use crate::windows::{self, BoxedWindow};
use rt_query::Query;
use rt_tree::{Key, MAX_LEVELS, Path, Tree};
use std::alloc::{AllocError, Global};
use std::marker::Model;

/// What the listens brought: regions, which are trees at paths under plain listens, and windows,
/// which are the known children of filtered queries.
///
/// Regions stand in the order of their paths, and none is at or above another, so that the one at
/// or above a path is found by halving. Windows stand in the order of their queries, so that the one
/// of a query is found by halving, and one that supplies it too. A tree that a call doesn't touch is
/// neither copied nor walked, and all parts that are handed out are shared copies. Each form, region and window stands in
/// memory of its own, so that a list moves a pointer to it and no more.
pub struct Brought {
    registered: Forms,
    regions: Vec<BoxedRegion>,
    windows: Vec<BoxedWindow>,
}

impl Drop for Brought {
    fn drop(self) {
        let Brought {
            registered: _,
            regions: _,
            windows: _,
        } = self;
    }
}

impl Model for Brought {
    ghost use Rattle.rt_cache.specs.Brought as what;

    ghost Value = { what.Brought };

    ghost use Rattle.rt_cache.specs.Canonical.{IsCanonical, FitsLevels, Belongs};
    ghost use Rattle.rt_cache.specs.inside.ByPath.{AreByQuery, query_of};
    ghost use Rattle.rt_cache.specs.inside.Held.{held, AreShort};

    ghost view = { λ a. held a.registered a.regions.items a.windows.items };

    ghost invariant = { λ a. IsCanonical (held a.registered a.regions.items a.windows.items)
        × FitsLevels (held a.registered a.regions.items a.windows.items)
        × AreByQuery query_of a.windows.items
        × Belongs (held a.registered a.regions.items a.windows.items)
        × AreShort a.registered };
}

// The tree put into the region at or above the path, or else begun as a region.
fn put_plain(
    alloc: Global,
    regions: &mut Vec<BoxedRegion>,
    windows: &mut Vec<BoxedWindow>,
    path: &Path,
    tree: &Tree,
) -> Result<(), AllocError>
    requires levels { length path.now + levels tree.now ≤ MAX_LEVELS }
    requires sorted { T (map_of.is_sorted path_cmp (pairs_of regions.old.items)) }
    requires apart { have_overlap (pairs_of regions.old.items) ≡ false }
    requires windows { AreByQuery query_of windows.old.items }
    ensures order { AreByQuery query_of windows.new.items }
    ensures ok { (fs : List Query) → OnOk result (held fs regions.new.items windows.new.items
        ≡ push_plain (held fs regions.old.items windows.old.items) (path.now, tree.now)) }
    ensures err { (fs : List Query) → OnErr result (held fs regions.new.items windows.new.items
        ≡ held fs regions.old.items windows.old.items) }
{
    match regions::place_above(regions, path) {
        Some(place) => regions::put_into(alloc, &mut regions[place], path, tree),
        None => {
            regions::begin(alloc, regions, path, tree)?;
            windows::remove_under(windows, path);
            Ok(())
        }
    }
}

impl Brought {
    pub(crate) fn allocator(&self) -> Global {
        *self.regions.allocator()
    }

    /// Nothing is brought yet.
    pub fn new(alloc: Global) -> Brought
        ensures { result ≡ nothing_brought }
    {
        Brought {
            registered: Forms::new(alloc),
            regions: Vec::new(alloc),
            windows: Vec::new(alloc),
        }
    }

    /// Registers a listener of the query, behind those that are registered, by its listening form.
    /// Nothing is brought for it. It costs a copy of the form. Of a filtered one it costs two: the other is
    /// put in its place by halving, and moves a pointer of each of those behind it.
    ///
    /// An `Err` is want of memory, or of a stamp that is higher than that of the form in front, which is a
    /// `u64` from 0 on; it changes nothing.
    pub fn register(&mut self, query: &Query) -> Result<(), AllocError>
        ensures ok { OnOk result (self.new ≡ with_form (form query.now) self.old) }
        ensures err { OnErr result (self.new ≡ self.old) }
    {
        let form = query.listening_form()?;
        // For the prover: so long are paths at most.
        let _ = form.path().keys();
        let alloc = self.allocator();
        self.registered.push(alloc, form)?;
        Ok(())
    }

    /// Whether the listen of the query is kept, so that [`Brought::put`] may be called for it: the
    /// query is registered, and no other registered form supplies it.
    ///
    /// It looks at each registered form. Takes no memory.
    pub fn may_put(&self, query: &Query) -> bool
        ensures answer { result ≡ may_put self.now query.now }
        ensures belongs { Belongs self.now }
    {
        self.registered.contains(query) && !self.registered.supplies(query)
    }

    /// Takes in a tree that was pushed on the listen of this query, at the query's path or under it.
    /// That listen is kept: the query is registered, and no other registered form supplies it.
    ///
    /// On an unfiltered query the tree is put into the region at or above the path; where there is
    /// none, it begins a region, which takes in the regions and windows below. On a filtered one it
    /// replaces the window by its children, or is put into the window, if there is one. `Ok(false)`
    /// where there is none ([`Brought::lacks_window`]): the push is stale and changes nothing.
    ///
    /// Finds the region by halving, where keys that the path shares with all regions that are left
    /// are not compared again, or the window by halving,
    /// and then costs by the path and the tree that is put. A new window moves a pointer of each of those
    /// behind it, and of a range without a limit it looks at those of them at its path. A push that begins
    /// a region finds those that it takes in by halving, drops them, and moves a pointer of each of the
    /// regions and windows behind it. No other tree is walked.
    ///
    /// An `Err` is want of memory, and changes nothing. A stale push takes none.
    pub fn put(&mut self, query: &Query, path: &Path, tree: &Tree) -> Result<bool, AllocError>
        requires kept { may_put self.old query.now ≡ true }
        requires under { is_at_or_above query.now.path path.now ≡ true }
        requires levels { length path.now + levels tree.now ≤ MAX_LEVELS }
        ensures ok { OnOk result (self.new ≡ push query.now self.old (path.now, tree.now)) }
        ensures taken { IfOk result (λ taken. taken
            ≡ not (is_without_window self.old query.now (path.now, tree.now))) }
        ensures err { OnErr result (self.new ≡ self.old) }
        ensures stale { is_without_window self.old query.now (path.now, tree.now) ≡ true → IsOk result }
    {
        let alloc = self.allocator();
        if query.is_filtered() {
            return windows::push(alloc, &mut self.windows, query, path, tree);
        }
        put_plain(alloc, &mut self.regions, &mut self.windows, path, tree)?;
        Ok(true)
    }

    /// Whether something is brought for the query: a region at or above its path, or a window whose
    /// form supplies it.
    ///
    /// Finds the region by halving, and where there is none a window. Builds no tree, and takes no memory.
    pub fn knows(&self, query: &Query) -> bool
        ensures known { result ≡ knows self.now query.now }
        ensures canonical { IsCanonical self.now }
    {
        regions::place_above(&self.regions, query.path()).is_some()
            || has_supplier(&self.windows, query)
    }

    /// Whether a push on the listen of this query at the path would be stale, for want of a window:
    /// [`Brought::put`] would give `Ok(false)`, whatever the tree.
    ///
    /// Finds the window by halving, if the query is filtered and the path is not its own. Takes no
    /// memory.
    pub fn lacks_window(&self, query: &Query, path: &Path) -> bool
        ensures { (u : PathTree) → result ≡ is_without_window self.now query.now (path.now, u) }
    {
        query.is_filtered()
            && query.path() != path
            && windows::place_of_window(&self.windows, query).is_none()
    }

    /// What is brought for the query: the part of the region at or above its path, which is whole, or
    /// the window of the first registered form that supplies it and has one; `None` where there is
    /// neither.
    ///
    /// Finds it as [`Brought::knows`] does, and where several windows supply it by going over the filtered
    /// forms of its path, and then costs by the path: the tree shares its parts with
    /// what is brought, and with what else was handed out of it. It is no deeper than a tree at the
    /// query's path may be.
    ///
    /// An `Err` is want of memory. Where nothing is brought it takes none.
    pub fn base(&self, query: &Query) -> Result<Option<Base>, AllocError>
        ensures found { IfOk result (λ found. found ≡ base self.now query.now) }
        ensures shallow { IfOk result (λ found. IfSome found (λ base.
            length query.now.path + levels base.tree ≤ MAX_LEVELS)) }
        ensures absent { base self.now query.now ≡ None → IsOk result }
    {
        let alloc = self.allocator();
        // For the prover: so long are paths at most.
        let _ = query.path().keys();
        if let Some(place) = regions::place_above(&self.regions, query.path()) {
            let tree = regions::part_at(alloc, &self.regions[place], query.path())?;
            return Ok(Some(Base { tree, whole: true }));
        }
        let Some(place) = windows::place_of_source(&self.windows, &self.registered, query) else {
            return Ok(None);
        };
        let window = self.windows[place].window();
        let tree = window.children.copy(alloc)?;
        Ok(Some(Base {
            tree,
            whole: window.is_whole,
        }))
    }

    /// [`Brought::base`] with one child of the tree in its place, null where there is none. It costs
    /// by the path. It is no deeper than a tree at the child's path may be. Where nothing is brought for
    /// the query it takes no memory.
    pub fn base_child(&self, query: &Query, key: &Key) -> Result<Option<Base>, AllocError>
        ensures found { IfOk result (λ found. found ≡ base_child self.now query.now key.now) }
        ensures shallow { IfOk result (λ found. IfSome found (λ base.
            length (query.now.path ++ key.now ∷ []) + levels base.tree ≤ MAX_LEVELS)) }
        ensures absent { base self.now query.now ≡ None → IsOk result }
    {
        let alloc = self.allocator();
        // For the prover: so long are paths at most.
        let _ = query.path().keys();
        if let Some(place) = regions::place_above(&self.regions, query.path()) {
            let tree = regions::child_at(alloc, &self.regions[place], query.path(), key)?;
            return Ok(Some(Base { tree, whole: true }));
        }
        let Some(place) = windows::place_of_source(&self.windows, &self.registered, query) else {
            return Ok(None);
        };
        let window = self.windows[place].window();
        let tree = child_of(alloc, &window.children, key)?;
        Ok(Some(Base {
            tree,
            whole: window.is_whole,
        }))
    }

    /// The form whose window is brought for the query: the first registered one that supplies it and has a
    /// window; `None` where there is none, or a region is at or above the query's path.
    ///
    /// Finds it as [`Brought::base`] does, and takes no memory.
    pub fn source(&self, query: &Query) -> Option<&Query>
        ensures { option_copied result ≡ source self.now query.now }
    {
        if regions::place_above(&self.regions, query.path()).is_some() {
            return None;
        }
        let Some(place) = windows::place_of_source(&self.windows, &self.registered, query) else {
            return None;
        };
        let window = self.windows[place].window();
        Some(&window.query)
    }

    /// Whether the end of a listener of the form may leave another query another window than it had:
    /// the form has a window and no limit, and another window stands at its path. Where no form of a
    /// listener that ends may, no query gets another form's window instead of one that it had.
    ///
    /// Finds the window, and the first of the path, by halving. Takes no memory.
    pub fn may_move(&self, form: &Query) -> bool
        ensures { result ≡ may_move self.now form.now }
    {
        if form.limit().is_some() {
            return false;
        }
        if windows::place_of_window(&self.windows, form).is_none() {
            return false;
        }
        has_another_at(&self.windows, form)
    }

    /// Takes in a change of the registered forms and of the listens kept, which are registered forms,
    /// and of which no plain one is at or above another. A region at or under a
    /// plain listen that is kept stays as it is; of any other the parts at the plain listens under
    /// it stay. Windows of other forms go. Of the registered filtered forms that lose what was brought
    /// for them, those that no other of them supplies get it as their window: whole where it was a
    /// region's, and as whole as the window was else.
    ///
    /// Finds the regions that stay by halving, once for each plain listen kept: of these it reads the
    /// paths that halving meets, and no tree. For each plain listen kept it finds by halving the region
    /// above it and whether that is lost. It sorts the registered forms by path, without copying one,
    /// and looks for the form of each window by halving. For each registered filtered form it finds by
    /// halving the region above it, the last window that supplies it, and the last of those that stays.
    /// Of the forms that lose something it finds the widest by halving. It copies only the parts and the
    /// windows that are handed on. For each row of lost regions, and for each part or window, a pointer of
    /// each of those behind is moved; where none is lost, no region is touched.
    ///
    /// An `Err` is want of memory, and changes nothing: all that is made is made before the first
    /// change.
    pub fn recover(&mut self, registered: &[Query], kept: &[Query]) -> Result<(), AllocError>
        requires apart { do_plains_overlap kept.now ≡ false }
        requires registered { All (Contains registered.now) kept.now }
        ensures ok { OnOk result (self.new ≡ recover registered.now kept.now self.old) }
        ensures err { OnErr result (self.new ≡ self.old) }
    {
        let forms = Forms::copies(self.allocator(), registered)?;
        recovery::change_cover(
            &mut self.regions,
            &mut self.windows,
            &self.registered,
            registered,
            kept,
        )?;
        self.registered = forms;
        Ok(())
    }

    /// Takes in that listeners end: those at these places among the registered ones, which count from
    /// 0 and rise. `ended` are the forms that no listener has any more, but for the plain ones that a
    /// registered plain form is at or above; `begun` are the listens that are kept now and weren't
    /// before. All that changes is what [`Brought::recover`] would change, handed the forms that are
    /// registered then and the listens that are kept then.
    ///
    /// Finds what these forms and listens name by halving: the regions at and under each plain one, the
    /// region above each listen that begins, the window of each form that ends. Of the filtered forms it
    /// looks at those at or under a region that is lost, and at those of the path of a form without limit
    /// that ends and has a window. Of the windows that supply one of these it finds by halving the last one
    /// that stays. It sorts the forms that end, and those that it looks at, by query. It copies only the parts
    /// and the windows that are handed on, and moves pointers to what stands behind.
    ///
    /// An `Err` is want of memory, and changes nothing.
    pub fn unregister(
        &mut self,
        places: &[usize],
        ended: &[Query],
        begun: &[Query],
    ) -> Result<(), AllocError>
        requires rising { AllPairs (λ p q. p < q) places.now }
        requires within { All (λ p. p < length self.old.registered) places.now }
        requires ends { (kept : List Query) × EndsForms ended.now begun.now self.old.registered
            (without_places places.now self.old.registered) kept self.old.regions }
        ensures ok { (kept : List Query) → EndsForms ended.now begun.now self.old.registered
            (without_places places.now self.old.registered) kept self.old.regions
            → OnOk result (self.new
            ≡ recover (without_places places.now self.old.registered) kept self.old) }
        ensures err { OnErr result (self.new ≡ self.old) }
    {
        recovery::end_forms(
            &mut self.regions,
            &mut self.windows,
            &self.registered,
            ended,
            begun,
        )?;
        self.registered.remove_places(places);
        Ok(())
    }
}

// ---- what is brought for a query

/// What is brought for a query.
#[derive(Debug, Drop)]
pub struct Base {
    pub tree: Tree,
    /// Whether the tree is all that the query's path has.
    pub whole: bool,
}
