// Pending writes.
ghost use Rattle.std.specs.Prelude.{IfOk};
ghost use Rattle.std.specs.List.{All};
ghost use Rattle.rt_writes.specs.Writes.{IsShallow};

use crate::fault::{Fault, Told};
use crate::line::Line;
use rt_tree::{Path, Tree};
use rt_writes::{Pending, WriteError, is_shallow};

// A path and a tree, together of at most 32 levels of keys.
fn entry(line: &mut Line) -> Result<(Path, Tree), Fault>
    ensures { IfOk result IsShallow }
{
    let (path, tree) = line.entry();
    if !is_shallow(&path, &tree) {
        return Err(Fault::NoSuchCall);
    }
    Ok((path, tree))
}

// So many paths and trees.
fn entries(line: &mut Line) -> Result<Vec<(Path, Tree)>, Fault>
    ensures { IfOk result (λ entries. All IsShallow entries.items) }
{
    let mut entries = Vec::new(line.alloc);
    for _ in 0..line.number::<u64>() {
        entries.push(entry(line)?)?;
    }
    Ok(entries)
}

// A write of a number above all others: whether it was added, and then how many are pending.
fn add(pending: &mut Pending, line: &mut Line) -> Told {
    let id = line.number();
    let entries = entries(line)?;
    line.sound()?;
    if !pending.is_above_all(id) {
        return Err(Fault::NoSuchCall);
    }
    match pending.add(id, entries) {
        Ok(()) => line.say("added"),
        Err(WriteError::NoMemory) => return Err(Fault::NoMemory),
        Err(error) => line.say(error.name()),
    }
    line.say(" ");
    line.display(&pending.len());
    Ok(())
}

// How many writes are pending, whether none is, and whether a number is above all of theirs.
fn count(pending: &Pending, line: &mut Line) -> Told {
    let is_above_all = pending.is_above_all(line.number());
    line.debug((pending.len(), pending.is_empty(), is_above_all));
    Ok(())
}

pub(crate) fn call(pending: &mut Pending, line: &mut Line) -> Told {
    match line.next() {
        "new" => *pending = Pending::new(line.alloc),
        "add" => return add(pending, line),
        "count" => return count(pending, line),
        _ => return Err(Fault::NoSuchCall),
    }
    Ok(())
}
