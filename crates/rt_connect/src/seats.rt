// What lines and messages ask of a client's locked value and its seats, and what they print.
ghost use Rattle.std.specs.Prelude.{◌≡◌, ◌+◌, ◌<◌, ◌++◌, ℕ, List, [], false, true, length, map, Some, None};
ghost use Rattle.std.specs.Prelude.{IfOk, IfSome, OnOk, ◌≢◌};
ghost use Rattle.std.specs.Option.{option_map};
ghost use Rattle.rt_wire.specs.Server.{server_message};
ghost use Rattle.rt_client.specs.Delivery.{emptied};
ghost use Rattle.rt_lines.specs.inside.Appending.{Appends};
ghost use Rattle.rt_connect.specs.Doing.{Calls, ClosesAt, IsCalled, IsClosed, IsTold, Obeys, Shows};
ghost use Rattle.rt_connect.specs.Doing.{TakesTold, disconnected, seat_at};
ghost use Rattle.rt_connect.specs.Printing.{items_text, item_text, own_refusal, refusal_text};
ghost use Rattle.rt_connect.specs.Taking.{Takes};
ghost use Rattle.rt_connect.specs.Telling.{FillsRing, TellsAll, TellsPlace, TellsSeat};
ghost use Rattle.rt_connect.specs.inside.Waiting.{waiting_of, without_waiting};
ghost use Rattle.rt_world.specs.declared.step.Step.TheVariants as step;

use crate::link::ServerFrame;
use rt_client::{Call, ClientError, Seat, Shared, with_seat};
use rt_lines::{
    Order, Refusal, write_batch, write_cancelled, write_cover, write_outcome, write_refusal,
    write_refused, write_settled,
};
use rt_mail::Item;
use rt_wire::{ServerMessage, WireError};
use rt_world::{ClientMessage, Outcome};
use std::alloc::{AllocError, Global};

/// The client's seats by their numbers, from 1; none where one is closed.
pub type Seats = Vec<Option<Seat>>;

/// The seats by their numbers, all of them open.
///
/// # Errors
///
/// Only where memory is refused.
pub fn open_seats(alloc: Global, seats: Vec<Seat>) -> Result<Seats, AllocError>
    ensures { IfOk result (λ all. all.items ≡ map Some seats.items) }
{
    let mut open = Vec::with_capacity(alloc, seats.len())?;
    for seat in seats {
        open.push(Some(seat))?;
    }
    Ok(open)
}

// The place of the seat of that number, if the client has it.
fn place_of(seats: &Seats, number: u64) -> Option<usize>
    ensures here { IfSome result (λ place.
        (place < length seats.now.items) × (number ≡ place + 1)) }
    ensures none { result ≡ None → seat_at seats.now.items number ≡ None }
{
    if number == 0 {
        return None;
    }
    let place = (number - 1) as usize;
    if place >= seats.len() {
        return None;
    }
    Some(place)
}

// Makes a call of a seat, and prints what became of it.
fn call_open(
    out: &mut String,
    shared: &mut Shared,
    seat: &mut Seat,
    call: Call,
) -> Result<(), AllocError>
    ensures { OnOk result ((text : List ℕ) × Appends out.old out.new text
        × IsCalled shared.old seat.old call text shared.new seat.new) }
{
    match with_seat(shared, seat, call) {
        Ok(done) => write_outcome(out, done.outcome, done.given),
        Err(why) => write_why(out, why),
    }
}

// Makes a call of the seat of that number, and prints what became of it.
pub(crate) fn make_call(
    out: &mut String,
    shared: &mut Shared,
    seats: &mut Seats,
    number: u64,
    call: Call,
) -> Result<(), AllocError>
    ensures { OnOk result ((text : List ℕ) × Appends out.old out.new text
        × Calls shared.old seats.old.items number call text shared.new seats.new.items) }
{
    let Some(place) = place_of(seats, number) else {
        drop(call);
        return write_why(out, ClientError::WrongSeat);
    };
    match &mut seats[place] {
        Some(seat) => call_open(out, shared, seat, call),
        None => {
            drop(call);
            write_why(out, ClientError::WrongSeat)
        }
    }
}

// Ends a seat, and prints what became of it. Answers the seat where it stays.
fn close_open(out: &mut String, shared: &mut Shared, seat: Seat) -> Result<Option<Seat>, AllocError>
    ensures { IfOk result (λ left. (text : List ℕ) × Appends out.old out.new text
        × IsClosed shared.old seat text shared.new left) }
{
    match shared.close_seat(seat) {
        Ok(()) => {
            write_outcome(out, Outcome::Done, None)?;
            Ok(None)
        }
        Err(unclosed) => match write_why(out, unclosed.why) {
            Ok(()) => Ok(Some(unclosed.seat)),
            Err(lacking) => {
                drop(unclosed);
                Err(lacking)
            }
        },
    }
}

// Ends the seat of that number, and prints what became of it.
pub(crate) fn close_seat(
    out: &mut String,
    shared: &mut Shared,
    seats: &mut Seats,
    number: u64,
) -> Result<(), AllocError>
    ensures { OnOk result ((text : List ℕ) × Appends out.old out.new text
        × ClosesAt shared.old seats.old.items number text shared.new seats.new.items) }
{
    let Some(place) = place_of(seats, number) else {
        return write_why(out, ClientError::WrongSeat);
    };
    let Some(seat) = seats[place].take() else {
        return write_why(out, ClientError::WrongSeat);
    };
    seats[place] = close_open(out, shared, seat)?;
    Ok(())
}

// Prints the listens that are kept.
pub(crate) fn show_cover(out: &mut String, alloc: Global, shared: &Shared) -> Result<(), AllocError>
    ensures { OnOk result ((text : List ℕ) × Appends out.old out.new text
        × Shows shared.now text) }
{
    match shared.cover() {
        Ok(kept) => {
            let written = write_cover(out, alloc, kept.as_slice());
            drop(kept);
            written
        }
        Err(why) => write_why(out, why),
    }
}

// Takes a text of the server, and prints what became of it.
pub(crate) fn take_text(
    out: &mut String,
    alloc: Global,
    shared: &mut Shared,
    words: &str,
) -> Result<(), AllocError>
    ensures { OnOk result ((text : List ℕ) × Appends out.old out.new text
        × Takes (server_message words.now) shared.old shared.new text) }
{
    let message = match ServerMessage::read(alloc, words) {
        Ok(message) => message,
        Err(WireError::NoMemory) => return Err(AllocError),
        Err(error) => return write_refusal(out, Refusal::Wire(error)),
    };
    match shared.server_message(message) {
        Ok(outcome) => write_outcome(out, outcome, None),
        Err(why) => write_why(out, why),
    }
}

// Takes a message of the server, and prints what became of it.
pub(crate) fn take_told(
    out: &mut String,
    alloc: Global,
    shared: &mut Shared,
    told: ServerFrame,
) -> Result<(), AllocError>
    ensures { OnOk result ((text : List ℕ) × Appends out.old out.new text
        × TakesTold told shared.old shared.new text) }
{
    match told {
        ServerFrame::Text(words) => take_text(out, alloc, shared, words.as_str()),
        ServerFrame::Binary => write_refusal(out, Refusal::Wire(WireError::NotJson)),
    }
}

// Tells the client that it is connected. Prints nothing, but why that is refused.
pub(crate) fn tell_connected(out: &mut String, shared: &mut Shared) -> Result<(), AllocError>
    ensures { OnOk result ((text : List ℕ) × Appends out.old out.new text
        × IsTold shared.old step.Connected shared.new text) }
{
    match shared.connected() {
        Ok(_) => Ok(()),
        Err(why) => write_why(out, why),
    }
}

// Tells the client that its connection has ended. Prints nothing, but why that is refused.
pub(crate) fn tell_disconnected(out: &mut String, shared: &mut Shared) -> Result<(), AllocError>
    ensures { OnOk result ((text : List ℕ) × Appends out.old out.new text
        × IsTold shared.old step.Disconnected shared.new text) }
{
    match shared.disconnected() {
        Ok(_) => Ok(()),
        Err(why) => write_why(out, why),
    }
}

// Tells the client that its connection is gone, and prints it.
pub(crate) fn tell_lost(out: &mut String, shared: &mut Shared) -> Result<(), AllocError>
    ensures { OnOk result ((text : List ℕ) × Appends out.old out.new (disconnected ++ text)
        × IsTold shared.old step.Disconnected shared.new text) }
{
    out.push_str("disconnected\n")?;
    tell_disconnected(out, shared)
}

/// Does what an order asks of a client and its seats, and appends what became of it to `out`: of a call its
/// outcome or why it is refused, of the end of a seat `done` or why it stays, and of a look the listens that
/// are kept. Of an order to read messages it does nothing: the caller reads them. What the seats are then
/// told, [`settle_all`] prints.
///
/// # Errors
///
/// Only where memory is refused. `out` may then have a part of the text, and the client may have failed.
pub fn obey(
    out: &mut String,
    alloc: Global,
    shared: &mut Shared,
    seats: &mut Seats,
    order: Order,
) -> Result<(), AllocError>
    ensures { OnOk result ((text : List ℕ) × Appends out.old out.new text
        × Obeys order shared.old seats.old.items text shared.new seats.new.items) }
{
    match order {
        Order::Seat { seat, call } => make_call(out, shared, seats, seat, call),
        Order::Close { seat } => close_seat(out, shared, seats, seat),
        Order::Cover => show_cover(out, alloc, shared),
        Order::Read { .. } => Ok(()),
    }
}

// Takes out the messages that are to be sent; a client that has failed has none.
#[tactic(auto, using(crate::proofs::Waiting::taking))]
pub(crate) fn take_messages(
    alloc: Global,
    shared: &mut Shared,
) -> Result<Vec<ClientMessage>, AllocError>
    ensures taken { IfOk result (λ messages. messages.items ≡ waiting_of shared.old) }
    ensures left { OnOk result (shared.new ≡ without_waiting shared.old) }
{
    let mut messages = Vec::new(alloc);
    'messages: loop {
        match shared.take_outgoing() {
            Ok(Some(message)) => messages.push(message)?,
            Ok(None) | Err(_) => return Ok(messages),
        }
    }
}

// Prints all that the seat's ring holds, and answers whether it held anything.
#[tactic(auto, using(crate::proofs::Telling::telling))]
fn tell_ring(out: &mut String, alloc: Global, seat: &mut Seat) -> Result<bool, AllocError>
    ensures printed { OnOk result (Appends out.old out.new (items_text seat.old.ring.items)) }
    ensures any { IfOk result (λ any. any ≡ false → seat.old.ring.items ≡ []) }
    ensures seat { OnOk result (seat.new ≡ emptied seat.old) }
    ensures told { IfOk result (λ any. any ≡ true → 0 < length seat.old.ring.items) }
{
    let mut any = false;
    'items: while let Some(item) = seat.next() {
        let written = write_item(out, alloc, &item);
        drop(item);
        written?;
        any = true;
    }
    Ok(any)
}

// Hands over to the seat's ring what waits for it, as far as there is room. A client that has failed and
// a seat that is not the client's hand over nothing; the call of a line has printed why.
fn fill_ring(shared: &mut Shared, seat: &mut Seat) -> Result<(), AllocError>
    ensures { OnOk result (FillsRing shared.old seat.old shared.new seat.new) }
{
    match shared.settle(seat) {
        Ok(()) => Ok(()),
        Err(ClientError::NoMemory) => Err(AllocError),
        Err(
            ClientError::Failed
            | ClientError::WrongSeat
            | ClientError::MailboxFull
            | ClientError::TooManySeats
            | ClientError::Core(_),
        ) => Ok(()),
    }
}

// Settles a seat, and prints what it is told, until nothing waits for it.
fn settle_seat(
    out: &mut String,
    alloc: Global,
    shared: &mut Shared,
    seat: &mut Seat,
) -> Result<(), AllocError>
    ensures told { OnOk result ((text : List ℕ) × Appends out.old out.new text
        × TellsSeat shared.old seat.old text shared.new) }
    ensures ring { OnOk result (seat.new ≡ emptied seat.old) }
{
    'rounds: loop {
        fill_ring(shared, seat)?;
        if !tell_ring(out, alloc, seat)? {
            return Ok(());
        }
    }
}

// Settles a seat where it is open.
fn settle_place(
    out: &mut String,
    alloc: Global,
    shared: &mut Shared,
    place: &mut Option<Seat>,
) -> Result<(), AllocError>
    ensures told { OnOk result ((text : List ℕ) × Appends out.old out.new text
        × TellsPlace shared.old place.old text shared.new) }
    ensures ring { OnOk result (place.new ≡ option_map emptied place.old) }
{
    match place {
        Some(seat) => settle_seat(out, alloc, shared, seat),
        None => Ok(()),
    }
}

// Settles seats one after another, and prints what each is told.
fn settle_each(
    out: &mut String,
    alloc: Global,
    shared: &mut Shared,
    seats: &mut [Option<Seat>],
) -> Result<(), AllocError>
    ensures told { OnOk result ((text : List ℕ) × Appends out.old out.new text
        × TellsAll shared.old seats.old text shared.new) }
    ensures rings { OnOk result (seats.new ≡ map (option_map emptied) seats.old) }
{
    for place in seats.iter_mut() {
        settle_place(out, alloc, shared, place)?;
    }
    Ok(())
}

/// Tells each seat, in the order of their numbers, what its ring holds and then what waits for it, and
/// appends that to `out`, in a script's words. The rings are empty then. Where the client has failed, or the
/// seat is another client's, nothing waits for it.
///
/// # Errors
///
/// Only where memory is refused. `out` may then have a part of the text, and the client may have failed.
pub fn settle_all(
    out: &mut String,
    alloc: Global,
    shared: &mut Shared,
    seats: &mut Seats,
) -> Result<(), AllocError>
    ensures told { OnOk result ((text : List ℕ) × Appends out.old out.new text
        × TellsAll shared.old seats.old.items text shared.new) }
    ensures rings { OnOk result (seats.new.items ≡ map (option_map emptied) seats.old.items) }
{
    settle_each(out, alloc, shared, seats.as_mut_slice())
}

// ---- what is printed of a client: what its seats are told, and why its calls are refused

// Prints what a seat is told: a batch, a settled request, the end of a listener. Receipts print nothing.
pub(crate) fn write_item(out: &mut String, alloc: Global, item: &Item) -> Result<(), AllocError>
    ensures { OnOk result (Appends out.old out.new (item_text item.now)) }
{
    match item {
        Item::Receipt(_) => Ok(()),
        Item::Batch(batch) => write_batch(out, alloc, batch),
        Item::Settled { id, why } => write_settled(out, alloc, *id, why),
        Item::Cancelled { listener, why } => write_cancelled(out, alloc, *listener, why),
    }
}

// Prints why the client itself refuses a call.
fn write_own(out: &mut String, why: ClientError) -> Result<(), AllocError>
    ensures { OnOk result (Appends out.old out.new (own_refusal why)) }
{
    write_refused(out, "client", why.code(), why.name())
}

/// Prints why a client refuses: `refused LAYER CODE NAME`. Want of memory, which ends a run, is not printed.
pub fn write_why(out: &mut String, why: ClientError) -> Result<(), AllocError>
    ensures printed { OnOk result (Appends out.old out.new (refusal_text why)) }
    ensures memory { OnOk result (why ≢ ClientError.NoMemory) }
{
    match why {
        ClientError::NoMemory => Err(AllocError),
        ClientError::Core(refused) => write_refusal(out, Refusal::Core(refused)),
        ClientError::Failed
        | ClientError::WrongSeat
        | ClientError::MailboxFull
        | ClientError::TooManySeats => write_own(out, why),
    }
}
