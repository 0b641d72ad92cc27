// What several libraries hand out, told.
use crate::line::Line;
use rt_cover::Kept;
use rt_mail::{Item, Receipt};
use rt_tree::{Key, Tree};
use rt_view::Change;
use rt_wire::{Asked, ClientMessage, Reason};

fn tell_row(word: &str, key: &Key, value: &Tree, line: &mut Line) {
    line.say(word);
    line.say(key.text());
    line.say(" ");
    line.say_tree(value);
}

fn tell_change(change: &Change, line: &mut Line) {
    let (word, key, value, after) = match change {
        Change::Removed { key, old } => return tell_row(" removed ", key, old, line),
        Change::Added { key, value, after } => (" added ", key, value, after.as_ref()),
        Change::Moved { key, value, after } => (" moved ", key, value, after.as_ref()),
        Change::Changed { key, value, after } => (" changed ", key, value, after.as_ref()),
        Change::Value { value } => {
            line.say(" value ");
            return line.say_tree(value);
        }
    };
    tell_row(word, key, value, line);
    line.say(" ");
    line.say(after.map_or("-", |key| key.text()));
}

pub(crate) fn tell_changes(changes: &[Change], line: &mut Line) {
    for change in changes {
        tell_change(change, line);
    }
}

fn tell_number(word: &str, number: u64, line: &mut Line) {
    line.say(word);
    line.display(&number);
}

pub(crate) fn tell_reason(why: Option<&Reason>, line: &mut Line) {
    if let Some(why) = why {
        line.say(" ");
        line.say(why.text());
    }
}

// The message that asks for what a receipt tells, with the listener's number as its tag.
fn message_of(receipt: Receipt) -> ClientMessage {
    let (id, asked) = match receipt {
        Receipt::Listened {
            listener: tag,
            query,
        } => return ClientMessage::Listen { tag, query },
        Receipt::Unlistened { listener: tag } => return ClientMessage::Unlisten { tag },
        Receipt::Wrote { id, what } => (id, Asked::Now(what)),
        Receipt::Asked { id, what } => (id, Asked::AtDisconnect(what)),
    };
    ClientMessage::Ask { id, asked }
}

// An item, and that is the end of it; or `none`.
pub(crate) fn tell_next(item: Option<Item>, line: &mut Line) {
    match item {
        Some(Item::Receipt(receipt)) => tell_message(Some(message_of(receipt)), line),
        Some(Item::Batch(batch)) => {
            tell_number("batch ", batch.listener, line);
            tell_changes(batch.changes.as_slice(), line);
        }
        Some(Item::Settled { id, why }) => {
            tell_number("settled ", id, line);
            tell_reason(why.as_ref(), line);
        }
        Some(Item::Cancelled { listener, why }) => {
            tell_number("cancelled ", listener, line);
            tell_reason(Some(&why), line);
        }
        None => line.say("none"),
    }
}

// A message that is to be sent, which does not come again: a text that lacked memory is made once
// more; or `none`.
pub(crate) fn tell_message(message: Option<ClientMessage>, line: &mut Line) {
    match &message {
        Some(message) => {
            let _ = line.made(message.text(line.alloc)) || line.made(message.text(line.alloc));
        }
        None => line.say("none"),
    }
    drop(message);
}

// The listens kept, each with its tag, a listener that needs it, and its path; or `none`.
pub(crate) fn tell_kept(listens: &[Kept], line: &mut Line) {
    if listens.is_empty() {
        line.say("none");
    }
    for kept in listens {
        line.debug((kept.tag, kept.listener));
        line.display(kept.query.path());
    }
}
