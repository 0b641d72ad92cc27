// The view of a listener, and what its seat is told.
ghost use Rattle.std.specs.Prelude.{◌≡◌, ◌==◌, ◌<◌, ◌++◌, ◌||◌, true, false, map, OnOk, IfOk, IfSome, not};
ghost use Rattle.std.specs.Prelude.{◌≤◌, ◌∷◌, ◌&&◌, Bool, [], ◌≢◌, ◌↔◌, None, Err};
ghost use Rattle.std.specs.List.{All, AllPairs, filter_map, list_any, slice_get, find};
ghost use Rattle.std.specs.Option.{option_map_or, option_to_list, option_copied, option_and_then};
ghost use Rattle.std.specs.Map.{keys_of};
ghost use Rattle.std.specs.List.Sorted.{IsStrictlySortedBy};
ghost use Rattle.rt_tree.specs.Assignments.{do_overlap, is_at_or_above};
ghost use Rattle.rt_world.specs.Views.{is_known, base_tree, is_base_whole, seen_over, is_child_known};
ghost use Rattle.rt_world.specs.After.{renewed};
ghost use Rattle.rt_world.specs.Answers.{batch_note};
ghost use Rattle.rt_parts.specs.Listeners.{count_if, count_with};
ghost use Rattle.rt_parts.specs.inside.HeldView.{IsHeld, AreHeld, counted_of, listener_of, pair_of};
ghost use Rattle.rt_parts.specs.inside.HeldView.{recounted_among, recounted_at, refreshed, refreshed_among};
ghost use Rattle.rt_parts.specs.inside.HeldView.{refreshed_at, told_among, told_at, own_number, shown_in};
ghost use Rattle.rt_parts.specs.inside.Pairs.{AreUp, HasOwn, IsDue, named_at};
ghost use Rattle.rt_parts.specs.Renewed.{view_anew};
ghost use Rattle.rt_parts.specs.Refreshed.{FollowsNamed, view_after};
ghost use Rattle.rt_world.specs.Met.{do_meet, told, told_met};
ghost use Rattle.rt_world.specs.Touched.{is_covered, named_by};
ghost use Rattle.rt_writes.specs.Writes.{IsShallow, overlay, sets_child_whole};
ghost use Rattle.rt_cache.specs.Brought.{base};
ghost use Rattle.rt_tree.specs.PathTree.{child, is_null, with_children, Key, key_cmp, levels};
ghost use Rattle.rt_tree.specs.Children.{children_of};
ghost use Rattle.rt_parts.specs.inside.Unknown.{unknown_keys, without_child};
ghost use Rattle.rt_query.specs.Queries.{is_filtered};
ghost use Rattle.rt_parts.specs.inside.Named.{AreNamed, AreNamedKeys};

use crate::entries::own_of;
use crate::error::ShownError;
use crate::listeners::{
    BoxedListener, HeldListener, is_primed, place_of, show, shown_of, stays_object, touch,
};
use rt_cache::{Base, Brought};
use rt_query::{Query, Shown};
use rt_tree::{Key, MAX_KEYS, Path, Tree};
use rt_view::{Batch, ChangeList};
use rt_world::{Body, Note};
use rt_writes::{Pending, overlay_law};
use std::alloc::{AllocError, Global};

// Whether the listener has a view, or gets its first.
fn is_due(listener: &HeldListener, brought: &Brought, pending: &Pending) -> bool
    ensures { result ≡ ((listener_of listener.now).is_primed
        || is_known brought.now pending.now listener.now.query) }
{
    is_primed(listener) || is_known(brought, pending, &listener.query)
}

// Tells the listener's seat of these changes, if there are any.
fn tell(
    notes: &mut Vec<Note>,
    listener: &HeldListener,
    changes: ChangeList,
) -> Result<(), AllocError>
    ensures { OnOk result (notes.new.items
        ≡ notes.old.items ++ option_to_list (batch_note (listener_of listener.now) changes)) }
{
    if changes.is_empty() {
        return Ok(());
    }
    notes.push(Note {
        seat: listener.seat,
        body: Body::Batch(Batch {
            listener: listener.number,
            changes,
        }),
    })?;
    Ok(())
}

// Takes the view from scratch, where the listener has one or something is known for it, and tells
// its seat what changes.
pub(crate) fn renew(
    listener: &mut HeldListener,
    brought: &Brought,
    pending: &Pending,
    notes: &mut Vec<Note>,
) -> Result<(), AllocError>
    requires held { IsHeld listener.old }
    ensures view { OnOk result (listener_of listener.new
        ≡ renewed brought.now pending.now (listener_of listener.old)) }
    ensures held { OnOk result (IsHeld listener.new) }
    ensures number { listener.new.number ≡ listener.old.number }
    ensures taken { OnOk result (listener.new.view
        ≡ view_anew brought.now pending.now listener.old.query listener.old.view) }
    ensures count { OnOk result
        (listener.new.count ≡ count_with listener.old.count listener.new.view) }
    ensures notes { OnOk result (notes.new.items ≡ notes.old.items
        ++ option_to_list (told brought.now pending.now (listener_of listener.old))) }
{
    if !is_due(listener, brought, pending) {
        return Ok(());
    }
    let seen = seen(brought, pending, &listener.query)?;
    let changes = show(listener, seen)?;
    tell(notes, listener, changes)
}

// Touches the view with the children that the entries name, if it stays an object; else takes it from
// scratch.
fn touch_or_renew(
    listener: &mut HeldListener,
    entries: &[(Path, Tree)],
    own: &[(u64, usize)],
    brought: &Brought,
    pending: &Pending,
    notes: &mut Vec<Note>,
) -> Result<(), AllocError>
    requires held { IsHeld listener.old }
    requires own { HasOwn entries.now own.now listener.old.query.path }
    requires low { is_covered listener.old.query.path entries.now ≡ false }
    requires follow { FollowsNamed entries.now brought.now pending.now (pair_of listener.old) }
    ensures view { OnOk result (listener_of listener.new
        ≡ renewed brought.now pending.now (listener_of listener.old)) }
    ensures held { OnOk result (IsHeld listener.new) }
    ensures number { listener.new.number ≡ listener.old.number }
    ensures taken { OnOk result (listener.new.view
        ≡ view_after entries.now brought.now pending.now listener.old.query listener.old.view) }
    ensures count { OnOk result
        (listener.new.count ≡ count_with listener.old.count listener.new.view) }
    ensures notes { OnOk result (notes.new.items ≡ notes.old.items
        ++ option_to_list (told brought.now pending.now (listener_of listener.old))) }
{
    let named = named_children(entries, own, brought, pending, &listener.query)?;
    if !stays_object(listener, &named) {
        return renew(listener, brought, pending, notes);
    }
    let changes = touch(listener, named)?;
    tell(notes, listener, changes)
}

// Whether the pair's entry sits at, above or below the path.
fn meets(entries: &[(Path, Tree)], pair: &(u64, usize), path: &Path) -> bool
    ensures { result ≡ option_map_or (λ a. do_overlap a.0 path.now)
        (slice_get entries.now (pair.now).1) false }
{
    match entries.get(pair.1) {
        Some(entry) => entry.0.is_prefix_of(path) || path.is_prefix_of(&entry.0),
        None => false,
    }
}

// Whether an entry of these pairs does.
fn any_meets(entries: &[(Path, Tree)], own: &[(u64, usize)], path: &Path) -> bool
    ensures { result ≡ list_any (λ o. option_map_or (λ a. do_overlap a.0 path.now)
        (slice_get entries.now o.1) false) own.now }
{
    own.iter().any(|pair| meets(entries, pair, path))
}

// Whether one of the entries does. Those that do are among the own ones, which are alone looked at.
fn do_meet(entries: &[(Path, Tree)], own: &[(u64, usize)], path: &Path) -> bool
    requires { HasOwn entries.now own.now path.now }
    ensures { result ≡ do_meet entries.now path.now }
{
    any_meets(entries, own, path)
}

// Whether the pair's entry sits at or above the path.
fn covers(entries: &[(Path, Tree)], pair: &(u64, usize), path: &Path) -> bool
    ensures { result ≡ option_map_or (λ a. is_at_or_above a.0 path.now)
        (slice_get entries.now (pair.now).1) false }
{
    match entries.get(pair.1) {
        Some(entry) => entry.0.is_prefix_of(path),
        None => false,
    }
}

// Whether an entry of these pairs does.
fn any_covers(entries: &[(Path, Tree)], own: &[(u64, usize)], path: &Path) -> bool
    ensures { result ≡ list_any (λ o. option_map_or (λ a. is_at_or_above a.0 path.now)
        (slice_get entries.now o.1) false) own.now }
{
    own.iter().any(|pair| covers(entries, pair, path))
}

// Whether one of the entries does; the own ones are alone looked at.
fn is_covered(entries: &[(Path, Tree)], own: &[(u64, usize)], path: &Path) -> bool
    requires { HasOwn entries.now own.now path.now }
    ensures { result ≡ is_covered path.now entries.now }
{
    any_covers(entries, own, path)
}

// Touches or renews the view, where an entry meets the listener's path; else it isn't looked at.
fn refresh_one(
    listener: &mut BoxedListener,
    entries: &[(Path, Tree)],
    own: &[(u64, usize)],
    brought: &Brought,
    pending: &Pending,
    notes: &mut Vec<Note>,
) -> Result<(), AllocError>
    requires held { IsHeld listener.old }
    requires own { HasOwn entries.now own.now listener.old.query.path }
    requires follow { FollowsNamed entries.now brought.now pending.now (pair_of listener.old) }
    ensures pair { OnOk result (pair_of listener.new
        ≡ refreshed entries.now brought.now pending.now (pair_of listener.old)) }
    ensures count { OnOk result (listener.new.count
        ≡ count_if (do_meet entries.now listener.old.query.path) listener.old.count
        listener.new.view) }
    ensures held { OnOk result (IsHeld listener.new) }
    ensures number { listener.new.number ≡ listener.old.number }
    ensures notes { OnOk result (notes.new.items ≡ notes.old.items ++ option_to_list
        (told_met entries.now brought.now pending.now (listener_of listener.old))) }
{
    if !do_meet(entries, own, listener.query().path()) {
        return Ok(());
    }
    if is_covered(entries, own, listener.query().path()) {
        return renew(&mut listener.held, brought, pending, notes);
    }
    touch_or_renew(&mut listener.held, entries, own, brought, pending, notes)
}

// Touches or renews the view of the listener of that number, if an entry meets its path.
fn refresh_number(
    listeners: &mut [BoxedListener],
    number: u64,
    entries: &[(Path, Tree)],
    met: &[(u64, usize)],
    brought: &Brought,
    pending: &Pending,
    notes: &mut Vec<Note>,
) -> Result<(), AllocError>
    requires held { AreHeld listeners.old }
    requires up { AreUp met.now }
    requires due { All (λ p. p.0.number == number ≡ true
        → IsDue entries.now brought.now pending.now met.now p) (map pair_of listeners.old) }
    ensures pairs { OnOk result (map pair_of listeners.new
        ≡ map (refreshed_at number entries.now brought.now pending.now)
        (map pair_of listeners.old)) }
    ensures counts { OnOk result (map counted_of listeners.new
        ≡ map (recounted_at number entries.now brought.now pending.now)
        (map counted_of listeners.old)) }
    ensures held { OnOk result (AreHeld listeners.new) }
    ensures notes { OnOk result (notes.new.items ≡ notes.old.items
        ++ filter_map (told_at number entries.now brought.now pending.now)
        (map pair_of listeners.old)) }
{
    match place_of(listeners, number) {
        Some(at) => {
            let own = own_of(met, number);
            refresh_one(&mut listeners[at], entries, own, brought, pending, notes)
        }
        None => Ok(()),
    }
}

// Touches or renews the views of the listeners of these numbers, one after another, where an entry meets
// their paths. The pairs tell which entries meet each of them. No other listener is looked at, and of each
// no other entry.
pub(crate) fn refresh(
    listeners: &mut [BoxedListener],
    numbers: &[u64],
    entries: &[(Path, Tree)],
    met: &[(u64, usize)],
    brought: &Brought,
    pending: &Pending,
    notes: &mut Vec<Note>,
) -> Result<(), AllocError>
    requires held { AreHeld listeners.old }
    requires up { AreUp met.now }
    requires rise { AllPairs (λ m n. m < n) numbers.now }
    requires due { All (λ p. list_any (λ n. p.0.number == n) numbers.now ≡ true
        → IsDue entries.now brought.now pending.now met.now p) (map pair_of listeners.old) }
    ensures pairs { OnOk result (map pair_of listeners.new
        ≡ map (refreshed_among numbers.now entries.now brought.now pending.now)
        (map pair_of listeners.old)) }
    ensures counts { OnOk result (map counted_of listeners.new
        ≡ map (recounted_among numbers.now entries.now brought.now pending.now)
        (map counted_of listeners.old)) }
    ensures held { OnOk result (AreHeld listeners.new) }
    ensures notes { OnOk result (notes.new.items ≡ notes.old.items
        ++ filter_map (told_among numbers.now entries.now brought.now pending.now)
        (map pair_of listeners.old)) }
{
    for number in numbers {
        refresh_number(listeners, *number, entries, met, brought, pending, notes)?;
    }
    Ok(())
}

// ---- what a query sees of what is brought, under the pending writes

// Whether something is known for the query.
pub(crate) fn is_known(brought: &Brought, pending: &Pending, query: &Query) -> bool
    ensures { result ≡ is_known brought.now pending.now query.now }
{
    brought.knows(query) || pending.sets_whole(query.path())
}

// The tree brought for the path; nothing is null.
pub(crate) fn tree_of(path: &Path, base: Option<Base>) -> Tree
    requires { IfSome base (λ b. IsShallow (path.now, b.tree)) }
    ensures tree { result ≡ base_tree base }
    ensures shallow { IsShallow (path.now, result) }
{
    // For the prover: no path has more than 32 keys.
    let _is_path = path.keys();
    match base {
        Some(base) => base.tree,
        None => Tree::null(),
    }
}

// Whether all that the query's path has is brought.
pub(crate) fn is_whole(base: &Option<Base>) -> bool
    ensures { result ≡ is_base_whole base.now }
{
    match base {
        Some(base) => base.whole,
        None => false,
    }
}

// What the query sees: what is brought, overlaid by the pending writes; without the children that
// are not known, where the query is filtered and not all is brought.
pub(crate) fn seen(brought: &Brought, pending: &Pending, query: &Query) -> Result<Tree, AllocError>
    ensures { IfOk result (λ tree.
        tree ≡ seen_over (base brought.now query.now) pending.now query.now) }
{
    let base = brought.base(query)?;
    let whole = is_whole(&base);
    let tree = tree_of(query.path(), base);
    if query.is_filtered() && !whole {
        return known_over(pending, query.path(), tree);
    }
    pending.overlay(query.path(), tree)
}

// ---- the children that are known of a filtered query

// Whether the tree has a child of that key.
fn has_child(tree: &Tree, key: &Key) -> bool
    ensures { result ≡ not (is_null (child tree.now key.now)) }
{
    match tree.children() {
        Some(children) => children.contains_key(key),
        None => false,
    }
}

// Whether the child is known: the base has it, or a pending entry sits at or above its path.
fn is_child_known(base: &Tree, pending: &Pending, path: &Path, key: &Key) -> bool
    ensures { result ≡ is_child_known base.now pending.now path.now key.now }
{
    has_child(base, key) || pending.sets_child_whole(path, key)
}

// The keys of the tree's children that are not known.
fn unknown_keys(
    alloc: Global,
    seen: &Tree,
    base: &Tree,
    pending: &Pending,
    path: &Path,
) -> Result<Vec<Key>, AllocError>
    ensures { IfOk result (λ keys. keys.items ≡ unknown_keys
        (is_child_known base.now pending.now path.now) (keys_of (children_of seen.now))) }
{
    let mut unknown = Vec::new(alloc);
    let Some(children) = seen.children() else {
        return Ok(unknown);
    };
    for key in children.keys() {
        if !is_child_known(base, pending, path, key) {
            unknown.push(key.copy()?)?;
        }
    }
    Ok(unknown)
}

// Takes the child of that key out. Only memory can refuse.
fn take_child(alloc: Global, tree: &mut Tree, key: &Key) -> Result<(), AllocError>
    ensures { OnOk result (tree.new ≡ without_child tree.old key.now) }
{
    tree.put_child(alloc, key, Tree::null())?;
    Ok(())
}

// What is seen, without the children that are not known. It looks at each child once, and changes
// the tree where it stands.
fn known_alone(
    alloc: Global,
    seen: Tree,
    base: &Tree,
    pending: &Pending,
    path: &Path,
) -> Result<Tree, AllocError>
    ensures { IfOk result (λ tree.
        tree ≡ with_children (is_child_known base.now pending.now path.now) seen) }
{
    let unknown = unknown_keys(alloc, &seen, base, pending, path)?;
    let mut known = seen;
    for key in &unknown {
        take_child(alloc, &mut known, key)?;
    }
    Ok(known)
}

// The base overlaid by the pending writes, without the children that are not known. The base is
// shared meanwhile, so that a write below it copies the words of its children once.
pub(crate) fn known_over(pending: &Pending, path: &Path, base: Tree) -> Result<Tree, AllocError>
    requires { IsShallow (path.now, base) }
    ensures { IfOk result (λ tree. tree ≡ with_children (is_child_known base pending.now path.now)
        (overlay path.now base pending.now)) }
{
    let alloc = path.allocator();
    let shared = base.copy(alloc)?;
    let seen = pending.overlay(path, base)?;
    known_alone(alloc, seen, &shared, pending, path)
}

// ---- the children of a query's path that entries name, as the query sees them

// The key that follows the path in the entry's, if that is below it.
fn named_by<'a>(path: &Path, entry: &'a (Path, Tree)) -> Option<&'a Key>
    ensures { option_copied result ≡ named_by path.now entry.now }
{
    match entry.0.strip_prefix(path) {
        Some([key, ..]) => Some(key),
        Some([]) => None,
        None => None,
    }
}

// The key that follows the path in that of the pair's entry, if that is below it.
fn named_at<'a>(path: &Path, entries: &'a [(Path, Tree)], pair: (u64, usize)) -> Option<&'a Key>
    ensures { option_copied result ≡ named_at path.now entries.now pair }
{
    match entries.get(pair.1) {
        Some(entry) => named_by(path, entry),
        None => None,
    }
}

// Puts the key that the pair's entry names behind the others, if it names one.
fn put_named(
    keys: &mut Vec<Key>,
    path: &Path,
    entries: &[(Path, Tree)],
    pair: (u64, usize),
) -> Result<(), AllocError>
    ensures { OnOk result (keys.new.items
        ≡ keys.old.items ++ filter_map (named_at path.now entries.now) (pair ∷ [])) }
{
    match named_at(path, entries, pair) {
        Some(key) => keys.push(key.copy()?)?,
        None => {}
    }
    Ok(())
}

// The keys of the path's children that the entries of these pairs name, one behind another.
fn keys_by(
    path: &Path,
    entries: &[(Path, Tree)],
    own: &[(u64, usize)],
) -> Result<Vec<Key>, AllocError>
    ensures { IfOk result (λ keys. keys.items
        ≡ filter_map (named_at path.now entries.now) own.now) }
{
    let mut keys = Vec::new(path.allocator());
    for pair in own {
        put_named(&mut keys, path, entries, *pair)?;
    }
    Ok(keys)
}

// Sorts the keys, each once.
fn sort_once(keys: &mut Vec<Key>)
    ensures rise { IsStrictlySortedBy key_cmp keys.new.items }
    ensures same { (p : Key → Bool) → list_any p keys.new.items ≡ list_any p keys.old.items }
{
    keys.sort_unstable();
    keys.dedup();
}

// The keys of the path's children that the entries name, in order, each once. Those that meet the path
// are among the own ones, which are alone looked at.
fn named_keys(
    path: &Path,
    entries: &[(Path, Tree)],
    own: &[(u64, usize)],
) -> Result<Vec<Key>, AllocError>
    requires { HasOwn entries.now own.now path.now }
    ensures { IfOk result (λ keys. AreNamedKeys path.now entries.now keys.items) }
{
    let mut keys = keys_by(path, entries, own)?;
    sort_once(&mut keys);
    Ok(keys)
}

// The path of the child of that key. Only memory can refuse: an entry's path has it.
fn path_of_child(path: &Path, key: &Key) -> Result<Path, AllocError>
    ensures { IfOk result (λ below. below ≡ path.now ++ key.now ∷ []) }
{
    path.child(key).map_err(|_| AllocError)
}

// The tree that is brought of a child; nothing is null.
fn child_tree(base: Option<Base>) -> Tree
    requires { IfSome base (λ b. levels b.tree ≤ MAX_KEYS) }
    ensures tree { result ≡ base_tree base }
    ensures levels { levels result ≤ MAX_KEYS }
{
    match base {
        Some(base) => base.tree,
        None => Tree::null(),
    }
}

// Whether the query doesn't see a child, of which this is brought: it is filtered, not all is brought,
// and the child is not known.
fn is_hidden(pending: &Pending, query: &Query, key: &Key, whole: bool, child: &Tree) -> bool
    ensures { result ≡ ((is_filtered query.now && not whole)
        && not (not (is_null child.now)
        || sets_child_whole pending.now query.now.path key.now)) }
{
    query.is_filtered() && !whole && child.is_null() && !pending.sets_child_whole(query.path(), key)
}

// The child of that key as the query sees it, taken alone. Where nothing is pending that is what is
// brought of it.
fn seen_child(
    brought: &Brought,
    pending: &Pending,
    query: &Query,
    key: &Key,
) -> Result<Tree, AllocError>
    ensures child { IfOk result (λ tree. tree
        ≡ child (seen_over (base brought.now query.now) pending.now query.now) key.now) }
    ensures levels { IfOk result (λ tree. levels tree ≤ MAX_KEYS) }
{
    // For the prover: a child of an overlaid tree is the child, overlaid.
    overlay_law();
    let base = brought.base_child(query, key)?;
    if pending.is_empty() {
        return Ok(child_tree(base));
    }
    let whole = is_whole(&base);
    let path = path_of_child(query.path(), key)?;
    let tree = tree_of(&path, base);
    if is_hidden(pending, query, key, whole, &tree) {
        return Ok(Tree::null());
    }
    pending.overlay(&path, tree)
}

// The children that the entries name, in the order of keys, each taken alone.
pub(crate) fn named_children(
    entries: &[(Path, Tree)],
    own: &[(u64, usize)],
    brought: &Brought,
    pending: &Pending,
    query: &Query,
) -> Result<Vec<(Key, Tree)>, AllocError>
    requires { HasOwn entries.now own.now query.now.path }
    ensures children { IfOk result (λ named.
        AreNamed entries.now brought.now pending.now query.now named.items) }
    ensures levels { IfOk result (λ named. All (λ c. levels c.1 ≤ MAX_KEYS) named.items) }
{
    let keys = named_keys(query.path(), entries, own)?;
    let mut named = Vec::new(query.path().allocator());
    for key in &keys {
        let tree = seen_child(brought, pending, query, key)?;
        named.push((key.copy()?, tree))?;
    }
    Ok(named)
}

// ---- what is read of listeners

// Adds the listener's number, if it is the seat's.
fn push_own(numbers: &mut Vec<u64>, listener: &BoxedListener, seat: u64) -> Result<(), AllocError>
    ensures { OnOk result (numbers.new.items
        ≡ numbers.old.items ++ option_to_list (own_number seat listener.now)) }
{
    if listener.seat() != seat {
        return Ok(());
    }
    numbers.push(listener.number())?;
    Ok(())
}

// The numbers of the seat's listeners.
pub(crate) fn numbers_of(
    alloc: Global,
    held: &[BoxedListener],
    seat: u64,
) -> Result<Vec<u64>, AllocError>
    ensures { IfOk result (λ numbers. numbers.items ≡ filter_map (own_number seat) held.now) }
{
    let mut numbers = Vec::new(alloc);
    for listener in held {
        push_own(&mut numbers, listener, seat)?;
    }
    Ok(numbers)
}

// What the view of the listener of that number shows, if it has one.
pub(crate) fn shown(held: &[BoxedListener], number: u64) -> Result<Option<Shown>, ShownError>
    requires { AreHeld held.now }
    ensures shown { IfOk result (λ shown. shown
        ≡ option_and_then (λ l. shown_in l.view) (find (λ l. l.number == number) held.now)) }
    ensures unknown { (result ≡ Err ShownError.NoListener)
        ↔ (find (λ l. l.number == number) held.now ≡ None) }
    ensures memory { result ≡ Err ShownError.NoMemory
        → option_and_then (λ l. shown_in l.view) (find (λ l. l.number == number) held.now) ≢ None }
{
    match place_of(held, number) {
        Some(place) => Ok(shown_of(&held[place])?),
        None => Err(ShownError::NoListener),
    }
}
