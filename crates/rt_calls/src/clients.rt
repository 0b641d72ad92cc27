// A client, and the calls of whoever holds its connection.
use crate::cores::limits;
use crate::fault::{Fault, Told};
use crate::line::{Line, Word};
use crate::tell::{tell_kept, tell_message};
use rt_client::{Client, ClientError, MAX_SEATS, Seat, Shared};
use rt_wire::ServerMessage;

// The seats of all clients, none where one is closed.
pub(crate) type Seats = Vec<Option<Seat>>;

// Says the name of a refusal, and of the core's own, but for want of memory.
pub(crate) fn refused(error: ClientError, line: &mut Line) -> Told {
    match error {
        ClientError::NoMemory => Err(Fault::NoMemory),
        ClientError::Failed => Err(Fault::Failed),
        ClientError::Core(why) => {
            line.say("Core ");
            line.refused(why.name())
        }
        ClientError::WrongSeat | ClientError::MailboxFull | ClientError::TooManySeats => {
            line.refused(error.name())
        }
    }
}

// `open NUMBER LIMITS CAPACITY ..`: a client, and seats behind those that are there; how many there are
// then.
fn open(place: &mut Option<Client>, all: &mut Seats, line: &mut Line) -> Told {
    let (number, limits) = (line.number(), limits(line));
    let capacities: Vec<usize> = line.all();
    line.sound()?;
    all.reserve(capacities.len())?;
    match Client::open(line.alloc, number, capacities.as_slice(), limits) {
        Ok((client, seats)) => {
            *place = Some(client);
            for seat in seats {
                let _ = all.push(Some(seat));
            }
            line.display(&all.len());
        }
        Err(error) => return refused(error, line),
    }
    Ok(())
}

// A step of the connection: `connected`, `disconnected` or `server MESSAGE`.
fn make(shared: &mut Shared, name: Word, line: &mut Line) -> Told {
    let outcome = match line.at(name) {
        "connected" => shared.connected(),
        "disconnected" => shared.disconnected(),
        "server" => shared.server_message(ServerMessage::read(line.alloc, line.next())?),
        _ => return Err(Fault::NoSuchCall),
    };
    match outcome {
        Ok(outcome) => Ok(line.debug(outcome)),
        Err(error) => refused(error, line),
    }
}

// The first message that is to be sent, or `none`.
fn out(shared: &mut Shared, line: &mut Line) -> Told {
    match shared.take_outgoing() {
        Ok(message) => Ok(tell_message(message, line)),
        Err(error) => refused(error, line),
    }
}

// The listens kept.
fn cover(shared: &Shared, line: &mut Line) -> Told {
    match shared.cover() {
        Ok(kept) => Ok(tell_kept(kept.as_slice(), line)),
        Err(error) => refused(error, line),
    }
}

// `view LISTENER`: the tree that a listener shows, or `unknown`.
fn view(shared: &Shared, line: &mut Line) -> Told {
    match shared.view(line.number()) {
        Ok(Some(shown)) => Ok(line.say_tree(shown.tree())),
        Ok(None) => Ok(line.say("unknown")),
        Err(error) => refused(error, line),
    }
}

// `push_key MOMENT DIGIT`: the push id of a moment, and of twelve times that digit.
fn push_key(shared: &mut Shared, line: &mut Line) -> Told {
    let moment = line.number();
    let digit = line.number();
    line.sound()?;
    match shared.push_key(moment, [digit; 12]) {
        Ok(id) => line.say(str::from_utf8(&id).unwrap_or("no text")),
        Err(error) => line.say(error.name()),
    }
    Ok(())
}

// Calls on the locked value of a client.
fn call_locked(shared: &mut Shared, name: Word, line: &mut Line) -> Told {
    match line.at(name) {
        "out" => out(shared, line),
        "cover" => cover(shared, line),
        "view" => view(shared, line),
        "push_key" => push_key(shared, line),
        "stop" => Ok(shared.stop()),
        _ => make(shared, name, line),
    }
}

// Calls of the client that was opened last.
pub(crate) fn call(place: &mut Option<Client>, seats: &mut Seats, line: &mut Line) -> Told {
    let name = line.word();
    match line.at(name) {
        "most" => line.display(&MAX_SEATS),
        "open" => return open(place, seats, line),
        _ => {
            let Some(client) = place else {
                return Err(Fault::NoSuchCall);
            };
            return call_locked(client.shared.get_mut(), name, line);
        }
    }
    Ok(())
}
