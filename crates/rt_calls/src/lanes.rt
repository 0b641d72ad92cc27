// A lane and its ring. What waits is settled requests, and what is signed is ends of listeners, each by
// number.
use crate::fault::{Fault, Told};
use crate::line::{Line, Word};
use crate::tell::tell_next;
use rt_mail::{Inbox, Item, Lane, MAX_CAPACITY, Receipt};

fn queue(lane: &mut Lane, id: u64) -> Told {
    let queued = lane.queue(Item::Settled { id, why: None });
    Ok(queued.map_err(|refused| refused.why)?)
}

// All numbers from 1 on to one. Where memory lacks, the first of them wait.
fn fill(lane: &mut Lane, last: u64) -> Told {
    for before in 0..last {
        queue(lane, before + 1).map_err(|_| Fault::Lost)?;
    }
    Ok(())
}

// Signs a receipt, where there is room for it.
fn sign(lane: &mut Lane, inbox: &mut Inbox, listener: u64) -> Told {
    if !lane.has_room(inbox) {
        return Err(Fault::NoSuchCall);
    }
    lane.sign(inbox, Receipt::Unlistened { listener });
    Ok(())
}

// Changes a lane or its ring.
fn change(lane: &mut Lane, inbox: &mut Inbox, name: Word, line: &mut Line) -> Told {
    match line.at(name) {
        "queue" => queue(lane, line.number()),
        "fill" => fill(lane, line.number()),
        "flush" => {
            lane.flush(inbox);
            Ok(())
        }
        "sign" => sign(lane, inbox, line.number()),
        _ => Err(Fault::NoSuchCall),
    }
}

// Calls with a ring. Of a change, how many items wait then, and how many the ring holds.
fn call_with_ring(lane: &mut Lane, inbox: &mut Inbox, name: Word, line: &mut Line) -> Told {
    match line.at(name) {
        "room" => line.debug(lane.has_room(inbox)),
        "next" => tell_next(inbox.next(), line),
        _ => {
            change(lane, inbox, name, line)?;
            line.debug((lane.len(), inbox.len()));
        }
    }
    Ok(())
}

// Calls of a lane, and of a ring where there is one.
pub(crate) fn call(lane: &mut Lane, place: &mut Option<Inbox>, line: &mut Line) -> Told {
    let name = line.word();
    match line.at(name) {
        "new" => *lane = Lane::new(line.alloc),
        "ring" => *place = Some(Inbox::new(line.alloc, line.number())?),
        "most" => line.display(&MAX_CAPACITY),
        _ => {
            let Some(inbox) = place else {
                return Err(Fault::NoSuchCall);
            };
            return call_with_ring(lane, inbox, name, line);
        }
    }
    Ok(())
}
