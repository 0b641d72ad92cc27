// A mirror of what seats' rings gave.
use crate::fault::{Fault, Told};
use crate::line::Line;
use rt_mail::Mirror;

// Whether a mirror has failed, its listeners, and its requests.
fn known(mirror: &Mirror, line: &mut Line) {
    line.debug(mirror.has_failed());
    line.say(" ");
    line.debug(mirror.listeners());
    line.say(" ");
    line.debug(mirror.requests());
}

// The children of a listener, by their keys.
fn children(mirror: &Mirror, listener: u64, line: &mut Line) {
    let Some(children) = mirror.children(listener) else {
        return line.say("none");
    };
    line.display(&children.len());
    for (key, value) in children {
        line.say(" ");
        line.say(key.text());
        line.say(" ");
        line.say_tree(value);
    }
}

pub(crate) fn call(mirror: &mut Mirror, line: &mut Line) -> Told {
    match line.next() {
        "new" => *mirror = Mirror::new(line.alloc),
        "known" => known(mirror, line),
        "children" => {
            let listener = line.number();
            children(mirror, line.given(listener)?, line);
        }
        _ => return Err(Fault::NoSuchCall),
    }
    Ok(())
}
