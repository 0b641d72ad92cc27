// A view that is changed child by child, and what it told.
ghost use Rattle.std.specs.Prelude.{◌≤◌, All, IfOk};
ghost use Rattle.rt_tree.specs.PathTree.{levels};

use crate::fault::{Fault, Told};
use crate::line::Line;
use crate::tell::tell_changes;
use rt_query::Shown;
use rt_tree::{Key, MAX_KEYS, Tree};
use rt_view::{Batch, ChangeList, Kinds, View, ViewError, of_kinds};

fn tell(changes: &ChangeList, line: &mut Line) {
    if changes.is_empty() {
        line.say("none");
    }
    tell_changes(changes.as_slice(), line);
}

// What a view told, which is kept, and its counts since.
fn turn(view: &View, told: &mut Batch, changes: ChangeList, line: &mut Line) {
    tell(&changes, line);
    line.say(" reads ");
    line.display(&view.reads());
    line.say(" turns ");
    line.display(&view.turns());
    told.changes = changes;
}

// A view of a query and a tree.
fn first(view: &mut Option<View>, told: &mut Batch, line: &mut Line) -> Told {
    let given = (line.query(), line.read());
    let (query, known) = line.given(given)?;
    let (new, changes) = View::first(line.alloc, query, known)?;
    turn(&new, told, changes, line);
    *view = Some(new);
    Ok(())
}

// The children to the end of the line, each a key and a tree.
fn named(line: &mut Line) -> Result<Vec<(Key, Tree)>, Fault>
    ensures { IfOk result (λ named. All (λ c. levels c.1 ≤ MAX_KEYS) named.items) }
{
    let mut named = Vec::new(line.alloc);
    for _ in 0..line.len() {
        if line.is_empty() {
            break;
        }
        let key = line.key()?;
        let value: Tree = line.read();
        if value.levels() > MAX_KEYS {
            return Err(Fault::NoSuchCall);
        }
        named.push((key, value))?;
    }
    Ok(named)
}

fn fault(error: ViewError) -> Fault {
    match error {
        ViewError::NoMemory => Fault::NoMemory,
        ViewError::Failed => Fault::Failed,
    }
}

// The view touched by named children.
fn touch(view: &mut View, line: &mut Line) -> Result<ChangeList, Fault> {
    let named = named(line)?;
    line.sound()?;
    view.touch(line.alloc, named).map_err(fault)
}

// The view shown of another tree.
fn renew(view: &mut View, line: &mut Line) -> Result<ChangeList, Fault> {
    let tree: Tree = line.read();
    view.renew(line.alloc, line.given(tree)?).map_err(fault)
}

// A copy of what is shown: its rows, the tree of all of them, whether that is a leaf, and the row of a
// key.
fn shown(view: &View, line: &mut Line) -> Told {
    let key = line.key()?;
    let copy = view.shown().map_err(fault)?.copy()?;
    tell_shown(&copy, &key, line);
    Ok(())
}

fn tell_shown(shown: &Shown, key: &Key, line: &mut Line) {
    for row in shown.rows() {
        line.say(row.key.text());
        line.say(":");
        line.say_tree(&row.value);
        line.say(" ");
    }
    line.say_tree(shown.tree());
    line.say(if shown.leaf().is_some() {
        " leaf "
    } else {
        " rows "
    });
    match shown.row(key) {
        Some(tree) => line.say_tree(tree),
        None => line.say("none"),
    }
}

// The changes of some kinds, by their first letters, among what was told last.
fn kinds(told: &Batch, line: &mut Line) -> Told {
    let word = line.next();
    let kinds = Kinds {
        removed: word.contains('r'),
        added: word.contains('a'),
        moved: word.contains('m'),
        changed: word.contains('c'),
        value: word.contains('v'),
    };
    let changes = of_kinds(line.alloc, told, kinds)?;
    tell(&changes, line);
    Ok(())
}

// Calls of a view, and of what it told last.
pub(crate) fn call(place: &mut Option<View>, told: &mut Batch, line: &mut Line) -> Told {
    let name = line.word();
    let Some(view) = place else {
        return first(place, told, line);
    };
    let changes = match line.at(name) {
        "first" => return first(place, told, line),
        "touch" => touch(view, line)?,
        "renew" => renew(view, line)?,
        "shown" => return shown(view, line),
        "kinds" => return kinds(told, line),
        _ => return Err(Fault::NoSuchCall),
    };
    turn(view, told, changes, line);
    Ok(())
}
