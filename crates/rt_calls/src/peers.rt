// A peer, its connections, and what it sends: `> N MESSAGE` for each message to connection N, or
// `nothing`.
use crate::fault::{Fault, Told};
use crate::line::Line;
use rt_peer::{Peer, PeerError, Sent};
use rt_tree::{Path, Tree};
use rt_wire::ClientMessage;

// A peer of a tree, and of denied paths to the end of the line.
fn new(peer: &mut Peer, line: &mut Line) -> Told {
    let given: (Tree, Vec<Path>) = (line.read(), line.all());
    let (tree, paths) = line.given(given)?;
    *peer = Peer::new(tree, paths);
    Ok(())
}

// Says why a call is refused.
fn refused(error: PeerError, line: &mut Line) -> Told {
    match error {
        PeerError::NoMemory => Err(Fault::NoMemory),
        PeerError::Failed => Err(Fault::Failed),
        PeerError::UnknownConnection => line.refused(error.name()),
    }
}

fn tell_sent(sent: &[Sent], line: &mut Line) {
    if sent.is_empty() {
        line.say("nothing");
    }
    let mut between = "> ";
    for it in sent {
        line.say(between);
        between = " > ";
        line.display(&it.to);
        line.say(" ");
        let _ = line.made(it.message.text(line.alloc)) || line.made(it.message.text(line.alloc));
    }
}

// What a call sent, or why it was refused.
fn tell(answer: Result<Vec<Sent>, PeerError>, line: &mut Line) -> Told {
    match answer {
        Ok(sent) => Ok(tell_sent(sent.as_slice(), line)),
        Err(error) => refused(error, line),
    }
}

fn connect(peer: &mut Peer, line: &mut Line) -> Told {
    match peer.connect() {
        Ok(number) => Ok(line.display(&number)),
        Err(error) => refused(error, line),
    }
}

// A message of a connection.
fn message(peer: &mut Peer, line: &mut Line) -> Told {
    let connection = line.number();
    line.sound()?;
    let message = ClientMessage::read(line.alloc, line.next())?;
    tell(peer.message(connection, message), line)
}

fn disconnect(peer: &mut Peer, line: &mut Line) -> Told {
    let connection = line.number();
    tell(peer.disconnect(line.given(connection)?), line)
}

pub(crate) fn call(peer: &mut Peer, line: &mut Line) -> Told {
    match line.next() {
        "new" => return new(peer, line),
        "connect" => return connect(peer, line),
        "message" => return message(peer, line),
        "disconnect" => return disconnect(peer, line),
        "tree" => line.say_tree(peer.tree()),
        _ => return Err(Fault::NoSuchCall),
    }
    Ok(())
}
