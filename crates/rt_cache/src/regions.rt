// Regions in the order of their paths, of which none is at or above another.
ghost use Rattle.std.specs.Prelude.{◌≡◌, IfOk, OnOk, OnErr, ℕ, suc, ◌+◌, ◌<◌, ◌≤◌, T, true, false, not};
ghost use Rattle.std.specs.Prelude.{length, slice_index_or, filter, vec_len, vec_capacity, IfSome, IfNone};
ghost use Rattle.std.specs.Prelude.{Some, None, is_some};
ghost use Rattle.std.specs.List.{list_any, remove_range};
ghost use Rattle.std.specs.Option.{option_map};
ghost use Rattle.std.specs.Ordering.{is_lt};
ghost use Rattle.rt_tree.specs.PathTree.{put, levels, path_cmp, path_eq, strip, sub, child, children_alone};
ghost use Rattle.rt_tree.specs.Assignments.{is_at_or_above, have_overlap};
ghost use Rattle.rt_cache.specs.Brought.{region_part, region_put};
ghost use Rattle.rt_cache.specs.inside.Held.{pair_of, pairs_of};
ghost use Rattle.rt_cache.specs.inside.Spans.{has_place};
ghost use Rattle.rt_cache.specs.declared.regions.Region.{Region};
ghost use Rattle.rt_cache.specs.inside.Shared.{do_share};
ghost use Rattle.std.specs.FinMap as map_of;

use crate::by_path::Span;
use rt_tree::{Key, MAX_LEVELS, Path, Tree};
use std::alloc::{AllocError, Global};
use std::cmp::Ordering;
use std::marker::Model;
use std::slice;

// ---- a region

// A tree at a path.
pub(crate) struct Region {
    pub(crate) path: Path,
    pub(crate) tree: Tree,
}

impl Drop for Region {
    fn drop(self) {
        let Region { path: _, tree: _ } = self;
    }
}

// A region in memory of its own, so that a list of regions moves a pointer of each.
pub(crate) struct BoxedRegion {
    region: Box<Region>,
}

impl Drop for BoxedRegion {
    fn drop(self) {
        let BoxedRegion { region: _ } = self;
    }
}

impl Model for BoxedRegion {
    ghost use Rattle.rt_cache.specs.declared.regions.Region.{Region};

    ghost Value = { Region };

    ghost view = { λ a. a.region.value };
}

impl BoxedRegion {
    // The region, in memory of its own.
    pub(crate) fn new(alloc: Global, region: Region) -> Result<BoxedRegion, AllocError>
        ensures { IfOk result (λ boxed. boxed ≡ region) }
    {
        Ok(BoxedRegion {
            region: Box::new(alloc, region)?,
        })
    }

    // The region.
    pub(crate) fn region(&self) -> &Region
        ensures { result.now ≡ self.now }
    {
        &self.region
    }

    // Its path.
    pub(crate) fn path(&self) -> &Path
        ensures { result.now ≡ self.now.path }
    {
        &self.region.path
    }

    // The tree put into its own, below these keys.
    pub(crate) fn set(&mut self, alloc: Global, keys: &[Key], tree: &Tree) -> Result<(), AllocError>
        ensures ok { OnOk result (self.new ≡ record {
          path = self.old.path;
          tree = put self.old.tree keys.now tree.now;
        }) }
        ensures err { OnErr result (self.new ≡ self.old) }
    {
        put_at(alloc, &mut self.region.tree, keys, tree)
    }
}

// ---- regions in the order of their paths, of which none is at or above another

// How many regions stand at the path or in front of it, by halving: the path comes before the one at
// this place, and not before the one in front. The keys that the path shares with both ends of what
// is left all paths between them share, so these are not compared again.
fn place_of(regions: &[BoxedRegion], path: &Path) -> usize
    requires sorted { T (map_of.is_sorted path_cmp (pairs_of regions.now)) }
    ensures within { result ≤ length regions.now }
    ensures front { (k : ℕ) (d : Region) → suc k ≡ result
        → is_lt (path_cmp path.now (slice_index_or regions.now k d).path) ≡ false }
    ensures behind { (d : Region) → result < length regions.now
        → is_lt (path_cmp path.now (slice_index_or regions.now result d).path) ≡ true }
{
    let mut low = 0;
    let mut high = regions.len();
    let mut shared_below = 0;
    let mut shared_above = 0;
    while low < high {
        let middle = low + (high - low) / 2;
        let known = shared_below.min(shared_above);
        let (shared, is_before) = meet(path, regions[middle].path(), known);
        if is_before {
            high = middle;
            shared_above = shared;
        } else {
            low = middle + 1;
            shared_below = shared;
        }
    }
    low
}

// Where the region at or above the path stands: it can only be the last that is not behind the path.
pub(crate) fn place_above(regions: &[BoxedRegion], path: &Path) -> Option<usize>
    requires sorted { T (map_of.is_sorted path_cmp (pairs_of regions.now)) }
    requires apart { have_overlap (pairs_of regions.now) ≡ false }
    ensures known { is_some result ≡ is_some (region_part (pairs_of regions.now) path.now) }
    ensures none { IfNone result (region_part (pairs_of regions.now) path.now ≡ None) }
    ensures within { IfSome result (λ n. n < length regions.now) }
    ensures above { IfSome result (λ n. (d : Region)
        → is_at_or_above (slice_index_or regions.now n d).path path.now ≡ true) }
{
    let count = place_of(regions, path);
    if count == 0 {
        return None;
    }
    let place = count - 1;
    if regions[place].path().is_prefix_of(path) {
        Some(place)
    } else {
        None
    }
}

// The part at the path of a region at or above it.
pub(crate) fn part_at(alloc: Global, region: &BoxedRegion, path: &Path) -> Result<Tree, AllocError>
    requires { is_at_or_above region.now.path path.now ≡ true }
    ensures { IfOk result (λ part. Some part
        ≡ option_map (sub region.now.tree) (strip region.now.path path.now)) }
{
    let keys = rest_of(region.path(), path);
    part_of(alloc, &region.region().tree, keys)
}

// The child of that part.
pub(crate) fn child_at(
    alloc: Global,
    region: &BoxedRegion,
    path: &Path,
    key: &Key,
) -> Result<Tree, AllocError>
    requires { is_at_or_above region.now.path path.now ≡ true }
    ensures { IfOk result (λ part. Some part
        ≡ option_map (λ rest. child (sub region.now.tree rest) key.now)
        (strip region.now.path path.now)) }
{
    let keys = rest_of(region.path(), path);
    match region.region().tree.at(keys) {
        Some(part) => child_of(alloc, part, key),
        None => Ok(Tree::null()),
    }
}

// The tree put into the region, which is at or above the path.
pub(crate) fn put_into(
    alloc: Global,
    region: &mut BoxedRegion,
    path: &Path,
    tree: &Tree,
) -> Result<(), AllocError>
    requires under { is_at_or_above region.old.path path.now ≡ true }
    requires levels { length path.now + levels tree.now ≤ MAX_LEVELS }
    ensures ok { OnOk result (pair_of region.new
        ≡ region_put (path.now, tree.now) (pair_of region.old)) }
    ensures err { OnErr result (pair_of region.new ≡ pair_of region.old) }
{
    let keys = rest_of(region.path(), path);
    region.set(alloc, keys, tree)
}

// The region in its place, for which there is room.
pub(crate) fn insert(regions: &mut Vec<BoxedRegion>, region: BoxedRegion)
    requires room { vec_len regions.old < vec_capacity regions.old }
    requires sorted { T (map_of.is_sorted path_cmp (pairs_of regions.old.items)) }
    requires absent { list_any (λ r. path_eq region.path r.path) regions.old.items ≡ false }
    ensures placed { pairs_of regions.new.items
        ≡ map_of.put path_cmp region.path region.tree (pairs_of regions.old.items) }
    ensures len { vec_len regions.new ≡ vec_len regions.old + 1 }
    ensures room { vec_capacity regions.old ≤ vec_capacity regions.new }
{
    let place = place_of(regions, region.path());
    let _in_reserved_room = regions.insert(place, region);
}

// Where the first region stands that is not in front of the path.
fn first_under(regions: &[BoxedRegion], path: &Path) -> usize
    requires sorted { T (map_of.is_sorted path_cmp (pairs_of regions.now)) }
    ensures within { result ≤ length regions.now }
    ensures front { (k : ℕ) (d : Region) → k < result
        → is_at_or_above path.now (slice_index_or regions.now k d).path ≡ false }
    ensures behind { (k : ℕ) (d : Region) → result ≤ k → k < length regions.now
        → is_lt (path_cmp (slice_index_or regions.now k d).path path.now) ≡ false }
{
    let count = place_of(regions, path);
    if count == 0 {
        return 0;
    }
    let last = count - 1;
    if path.is_prefix_of(regions[last].path()) {
        last
    } else {
        count
    }
}

// Where the regions at or under the path stand, by halving: one behind another, from the first that
// is not in front of the path.
pub(crate) fn span_under(regions: &[BoxedRegion], path: &Path) -> Span
    requires sorted { T (map_of.is_sorted path_cmp (pairs_of regions.now)) }
    ensures ordered { result.start ≤ result.end }
    ensures within { result.end ≤ length regions.now }
    ensures exact { (k : ℕ) (d : Region) → k < length regions.now
        → is_at_or_above path.now (slice_index_or regions.now k d).path ≡ has_place k result }
{
    let start = first_under(regions, path);
    let (_, behind) = regions.split_at(start);
    let count = behind.partition_point(|region| path.is_prefix_of(region.path()));
    Span {
        start,
        end: start + count,
    }
}

// The regions that are not in the span.
pub(crate) fn remove_span(regions: &mut Vec<BoxedRegion>, span: Span)
    requires ordered { span.start ≤ span.end }
    requires within { span.end ≤ length regions.old.items }
    ensures left { regions.new.items ≡ remove_range regions.old.items span.start span.end }
    ensures len { vec_len regions.new ≤ vec_len regions.old }
    ensures room { vec_capacity regions.new ≡ vec_capacity regions.old }
{
    drop(regions.drain(span.start..span.end));
}

// The regions that are not at or under the path.
fn remove_under(regions: &mut Vec<BoxedRegion>, path: &Path)
    requires sorted { T (map_of.is_sorted path_cmp (pairs_of regions.old.items)) }
    ensures left { regions.new.items
        ≡ filter (λ r. not (is_at_or_above path.now r.path)) regions.old.items }
    ensures len { vec_len regions.new ≤ vec_len regions.old }
    ensures room { vec_capacity regions.new ≡ vec_capacity regions.old }
{
    let span = span_under(regions, path);
    remove_span(regions, span);
}

// A region of a copy of the tree.
pub(crate) fn region_of(alloc: Global, path: &Path, tree: &Tree) -> Result<BoxedRegion, AllocError>
    ensures { IfOk result (λ region. pair_of region ≡ (path.now, tree.now)) }
{
    let region = Region {
        path: path.copy()?,
        tree: tree.copy(alloc)?,
    };
    BoxedRegion::new(alloc, region)
}

// A new region, in the place of those at or under the path.
pub(crate) fn begin(
    alloc: Global,
    regions: &mut Vec<BoxedRegion>,
    path: &Path,
    tree: &Tree,
) -> Result<(), AllocError>
    requires sorted { T (map_of.is_sorted path_cmp (pairs_of regions.old.items)) }
    ensures ok { OnOk result (pairs_of regions.new.items
        ≡ map_of.put path_cmp path.now tree.now (filter (λ r. not (is_at_or_above path.now r.0))
        (pairs_of regions.old.items))) }
    ensures err { OnErr result (regions.new.items ≡ regions.old.items) }
{
    let region = region_of(alloc, path, tree)?;
    regions.reserve(1)?;
    remove_under(regions, path);
    insert(regions, region);
    Ok(())
}

// ---- parts of trees, and trees put into others

// A copy of the part of the tree below these keys; null where there is none.
pub(crate) fn part_of(alloc: Global, tree: &Tree, keys: &[Key]) -> Result<Tree, AllocError>
    ensures { IfOk result (λ part. part ≡ sub tree.now keys.now) }
{
    match tree.at(keys) {
        Some(part) => part.copy(alloc),
        None => Ok(Tree::null()),
    }
}

// A copy of the tree's child; null where there is none.
pub(crate) fn child_of(alloc: Global, tree: &Tree, key: &Key) -> Result<Tree, AllocError>
    ensures { IfOk result (λ part. part ≡ child tree.now key.now) }
{
    part_of(alloc, tree, slice::from_ref(key))
}

// A copy of the tree's children. A leaf has none.
pub(crate) fn children_alone(alloc: Global, tree: &Tree) -> Result<Tree, AllocError>
    ensures { IfOk result (λ children. children ≡ children_alone tree.now) }
{
    if tree.as_leaf().is_some() {
        Ok(Tree::null())
    } else {
        tree.copy(alloc)
    }
}

// A copy of the other tree put below these keys.
pub(crate) fn put_at(
    alloc: Global,
    tree: &mut Tree,
    keys: &[Key],
    other: &Tree,
) -> Result<(), AllocError>
    ensures ok { OnOk result (tree.new ≡ put tree.old keys.now other.now) }
    ensures err { OnErr result (tree.new ≡ tree.old) }
{
    let path = Path::from_keys(alloc, keys).map_err(|_| AllocError)?;
    let other = other.copy(alloc)?;
    tree.put(alloc, &path, other).map_err(|_| AllocError)
}

// ---- paths below paths, and beside them

// How many keys the paths share from the root on, which are at least those that are known, and
// whether the first path comes before the other.
pub(crate) fn meet(path: &Path, other: &Path, known: usize) -> (usize, bool)
    requires { do_share known path.now other.now ≡ true }
    ensures shared { do_share result.0 path.now other.now ≡ true }
    ensures before { result.1 ≡ is_lt (path_cmp path.now other.now) }
{
    let (keys, others) = (path.keys(), other.keys());
    let mut shared = known;
    while shared < keys.len() && shared < others.len() {
        match keys[shared].cmp(&others[shared]) {
            Ordering::Equal => shared += 1,
            Ordering::Less => return (shared, true),
            Ordering::Greater => return (shared, false),
        }
    }
    (shared, keys.len() < others.len())
}

// The keys that follow `above` in `path`, which is at or under it.
pub(crate) fn rest_of<'a>(above: &Path, path: &'a Path) -> &'a [Key]
    requires { is_at_or_above above.now path.now ≡ true }
    ensures { Some result.now ≡ strip above.now path.now }
{
    path.keys().split_at(above.keys().len()).1
}
