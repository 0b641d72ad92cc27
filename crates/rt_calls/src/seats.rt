// A seat's calls on the locked value of the client that was opened last, and what its ring gives.
use crate::clients::{Seats, refused};
use crate::deliveries::{deliver, for_each, hand_out};
use crate::fault::{Fault, Told};
use crate::line::{Line, Word};
use crate::tell::tell_next;
use rt_client::{Call, Client, ClientError, Seat, Shared, Unclosed};
use rt_lines::Order;
use rt_mail::Mirror;
use rt_world::{Action, Ending};
use std::sync::Wait;

// The number of a new listener or request, where there is one, or why a call is refused.
type Answer = Result<Option<u64>, ClientError>;

fn write(shared: &mut Shared, seat: &mut Seat, action: Action) -> Answer {
    let answer = match action {
        Action::Put { path, tree } if tree.is_null() => shared.remove(seat, path),
        Action::Put { path, tree } => shared.set(seat, path, tree),
        Action::Merge { entries } => shared.update(seat, entries.into_vec()),
    };
    answer.map(Some)
}

// A seat's call, by its own name.
fn made(shared: &mut Shared, seat: &mut Seat, call: Call) -> Answer {
    match call {
        Call::Listen { query } => shared.listen(seat, query).map(Some),
        Call::Unlisten { listener } => shared.unlisten(seat, listener).map(|()| None),
        Call::Write { action } => write(shared, seat, action),
        Call::OnDisconnect { ending } => match ending {
            Ending::Run(action) => shared.on_disconnect(seat, action).map(Some),
            Ending::Cancel(path) => shared.cancel_disconnect(seat, path).map(Some),
        },
    }
}

// Says what a seat's call answers.
fn tell(answer: Answer, line: &mut Line) -> Told {
    match answer {
        Ok(Some(number)) => Ok(line.display(&number)),
        Ok(None) => Ok(line.say("ok")),
        Err(error) => refused(error, line),
    }
}

// The mirror takes what the ring holds; says how many items that are.
fn take_all(seat: &mut Seat, mirror: &mut Mirror, line: &mut Line) -> Told {
    line.display(&seat.mirror(mirror).map_err(|_| Fault::Lost)?);
    Ok(())
}

// The seat goes, or is handed back.
fn close(shared: &mut Shared, place: &mut Option<Seat>, line: &mut Line) -> Told {
    let Some(seat) = place.take() else {
        return Err(Fault::NoSuchCall);
    };
    match shared.close_seat(seat) {
        Ok(()) => tell(Ok(None), line),
        Err(Unclosed { seat, why }) => {
            *place = Some(seat);
            refused(why, line)
        }
    }
}

// The first item of the ring, or `none`: a copy of it.
fn next(seat: &mut Seat, line: &mut Line) -> Told {
    let item = seat.next();
    let copy = item.as_ref().map(|item| item.copy(line.alloc));
    drop(item);
    match copy {
        Some(copy) => tell_next(Some(copy.map_err(|_| Fault::Lost)?), line),
        None => line.say("none"),
    }
    Ok(())
}

fn call_seat<R: Wait>(
    client: &mut Client,
    seat: &mut Seat,
    mirror: &mut Mirror,
    name: Word,
    line: &mut Line,
) -> Told {
    match line.at(name) {
        "next" => next(seat, line),
        "mirror" => take_all(seat, mirror, line),
        "settle" => tell(client.shared.get_mut().settle(seat).map(|()| None), line),
        "hand_out" => hand_out(seat, line),
        "deliver" => deliver::<R>(client, seat, line),
        "for_each" => for_each::<R>(client, seat, line),
        _ => Err(Fault::NoSuchCall),
    }
}

fn place_of(seats: &mut Seats, number: u64) -> Result<&mut Option<Seat>, Fault> {
    let place = seats.get_mut((number as usize).wrapping_sub(1));
    place.ok_or(Fault::NoSuchCall)
}

fn seat_of(seats: &mut Seats, number: u64) -> Result<&mut Seat, Fault> {
    place_of(seats, number)?.as_mut().ok_or(Fault::NoSuchCall)
}

// What an order of the script asks of the seat that it names.
fn order(client: &mut Client, seats: &mut Seats, order: Order, line: &mut Line) -> Told {
    let shared = client.shared.get_mut();
    match order {
        Order::Seat { seat, call } => tell(made(shared, seat_of(seats, seat)?, call), line),
        Order::Close { seat } => close(shared, place_of(seats, seat)?, line),
        Order::Cover | Order::Read { .. } => Err(Fault::NoSuchCall),
    }
}

// `NAME NUMBER ..`, of the seat of that number, counted from 1 over all clients, or an order of the script,
// of the seat that it names.
pub(crate) fn call<R: Wait>(
    place: &mut Option<Client>,
    seats: &mut Seats,
    mirror: &mut Mirror,
    line: &mut Line,
) -> Told {
    let name = line.word();
    let Some(client) = place else {
        return Err(Fault::NoSuchCall);
    };
    if line.at(name).starts_with('[') {
        let asked = Order::read(line.alloc, line.at(name).as_bytes())?;
        return order(client, seats, asked, line);
    }
    let seat = seat_of(seats, line.number())?;
    call_seat::<R>(client, seat, mirror, name, line)
}
