// A client with its seats, as C holds it.
ghost use Rattle.std.specs.Prelude.{◌≡◌, ◌⊎◌, ◌<◌, ◌≤◌, ◌+◌, if◌then◌else◌, List, length, string_bytes, None};
ghost use Rattle.std.specs.Prelude.{IfOk, IfErr, IfSome, OnOk, Ok, Err, []};
ghost use Rattle.rt_cover.specs.declared.listen.Kept.{Kept};
ghost use Rattle.rt_client.specs.declared.error.ClientError.TheVariants.{TooManySeats, NoMemory};
ghost use Rattle.rt_client.specs.Calls.{HasFailed, Comes, RefusesOn};
ghost use Rattle.rt_client.specs.Settling.{RefusesCover, ShowsCover};
ghost use Rattle.rt_lines.specs.Printing.{cover_text};
ghost use Rattle.rt_foreign.specs.Asking.{AsksFor, CallsSeat, Settles, Tells, WantsOf};
ghost use Rattle.rt_foreign.specs.Clients.{new_client, place_at, places_from, unrefused};
ghost use Rattle.rt_foreign.specs.Connection.{HearsOf, IsHeard, IsUnheard, LooksOut, Sends};
ghost use Rattle.rt_foreign.specs.Looks.{GivesKey, GivesWhy, Shows};
ghost use Rattle.rt_foreign.specs.Refusing.{refusal_of, refusal_read, status_of, status_read};
ghost use Rattle.rt_foreign.specs.Events.{event_read, is_end, step_of_event};
ghost use Rattle.rt_foreign.specs.Room.{CanHold};
ghost use Rattle.std.specs.List.{All};

use crate::calls::text_of;
use crate::seat::OpenSeat;
use crate::session::give;
use crate::status::{
    DONE, FAILED, NO_MEMORY, NONE, REFUSED, TOO_SMALL, WRONG_SEAT, refusal_of, refusal_read,
    status_of, status_of_outcome, status_read,
};
use rt_client::{Call, ClientError, Seat, Shared};
use rt_lines::{LineError, Refusal, write_cover};
use rt_view::Kinds;
use rt_wire::{ClientMessage, ServerMessage, WireError};
use rt_world::{Limits, Outcome};
use std::alloc::{AllocError, Global};
use std::marker::Model;
use std::mem;

/// A client, its seats by their numbers from 1, the message that was taken out of it and is still to be given,
/// and why a layer refused the last call, if one did.
#[derive(Drop)]
pub struct Client {
    alloc: Global,
    shared: Shared,
    places: Vec<OpenSeat>,
    message: Option<ClientMessage>,
    refused: Option<Refusal>,
}

impl Model for Client {
    ghost use Rattle.rt_foreign.specs.Clients.{Client as Seen};

    ghost Value = { Seen };

    ghost view = { λ c. record {
      shared = c.shared;
      places = c.places.items;
      message = c.message;
      refused = c.refused;
    } };
}

// The seats, of whose rings nothing was taken.
fn places_of(alloc: Global, seats: Vec<Seat>) -> Result<Vec<OpenSeat>, AllocError>
    requires { All CanHold seats.items }
    ensures { IfOk result (λ places. places.items ≡ places_from seats.items) }
{
    let mut places = Vec::with_capacity(alloc, seats.len())?;
    for seat in seats {
        places.push(OpenSeat::new(alloc, seat)?)?;
    }
    Ok(places)
}

// The place of the seat of that number, if the client has it.
#[tactic(auto, using(crate::proofs::Placing::beyond))]
fn place_of(places: &Vec<OpenSeat>, number: u64) -> Option<usize>
    ensures here { IfSome result (λ place. (place < length places.now.items) × (number ≡ place + 1)) }
    ensures none { result ≡ None → place_at places.now.items number ≡ None }
{
    if number == 0 {
        return None;
    }
    let place = (number - 1) as usize;
    if place >= places.len() {
        return None;
    }
    Some(place)
}

impl Client {
    /// A new client with a seat for each capacity of a ring.
    #[tactic(auto, using(crate::proofs::Room::all_hold))]
    pub fn open(alloc: Global, rings: &[usize]) -> Result<Client, ClientError>
        ensures few { IfOk result (λ client. length rings.now ≤ 64) }
        ensures opened { IfOk result (λ client. client ≡ new_client rings.now) }
        ensures refused { IfErr result (λ e. ((e ≡ TooManySeats) × (64 < length rings.now))
            ⊎ (e ≡ NoMemory)) }
    {
        let (shared, seats) = Shared::open(alloc, 1, rings, Limits::full())?;
        let places = places_of(alloc, seats)?;
        Ok(Client {
            alloc,
            shared,
            places,
            message: None,
            refused: None,
        })
    }

    // A call whose texts are not read changes nothing, but why the last call was refused.
    fn turn_away(&mut self, why: LineError) -> u32
        ensures status { result ≡ status_read why }
        ensures kept { self.new ≡ record (self.old) { refused = refusal_read why } }
    {
        self.refused = refusal_read(why);
        status_read(why)
    }

    // What the client refuses is kept.
    fn refuse(&mut self, why: ClientError) -> u32
        ensures status { result ≡ status_of why }
        ensures kept { self.new ≡ record (self.old) { refused = refusal_of why } }
    {
        self.refused = refusal_of(why);
        status_of(why)
    }

    // Makes a call of the seat of that number.
    #[tactic(auto, using(crate::proofs::Placing::call_made, crate::proofs::Placing::call_refused, crate::proofs::Placing::call_nowhere))]
    fn call(&mut self, number: u64, call: Call, given: &mut u64) -> u32
        ensures { CallsSeat (place_at self.old.places number) self.old number call result given.new self.new }
    {
        *given = 0;
        self.refused = None;
        let Some(place) = place_of(&self.places, number) else {
            drop(call);
            return WRONG_SEAT;
        };
        match self.places[place].call(&mut self.shared, call) {
            Ok(done) => {
                *given = done.given.unwrap_or(0);
                status_of_outcome(done.outcome)
            }
            Err(why) => self.refuse(why),
        }
    }

    /// Makes the call that was read for the seat of that number, and says which number it was given.
    pub fn ask(&mut self, number: u64, asked: Result<Call, LineError>, given: &mut u64) -> u32
        ensures { AsksFor asked number self.old result given.new self.new }
    {
        match asked {
            Ok(call) => self.call(number, call, given),
            Err(why) => {
                *given = 0;
                self.turn_away(why)
            }
        }
    }

    // The message that is still to be given is that one, if there is one.
    fn hold(&mut self, message: Option<ClientMessage>)
        ensures { self.new ≡ record (self.old) { message = message } }
    {
        drop(mem::replace(&mut self.message, message));
    }

    // It is gone where the connection has ended.
    fn forget(&mut self, is_end: bool)
        ensures { self.new ≡ record (self.old) { message = if is_end then None else self.old.message } }
    {
        if is_end {
            self.hold(None);
        }
    }

    // Makes the step of what the connection brings.
    #[tactic(auto, using(crate::proofs::Giving::heard, crate::proofs::Giving::unheard))]
    fn hear(&mut self, event: Event) -> u32
        ensures { IsHeard event self.old result self.new ⊎ IsUnheard event self.old result self.new }
    {
        self.refused = None;
        let is_end = event.is_end();
        match tell(&mut self.shared, event) {
            Ok(outcome) => {
                self.forget(is_end);
                status_of_outcome(outcome)
            }
            Err(why) => self.refuse(why),
        }
    }

    /// Takes what the connection brings, as it was read.
    pub fn take(&mut self, event: Result<Event, LineError>) -> u32
        ensures { HearsOf event self.old result self.new }
    {
        match event {
            Ok(event) => self.hear(event),
            Err(why) => self.turn_away(why),
        }
    }

    // Takes out the first message that is to be sent, where none was taken before.
    #[tactic(auto, using(crate::proofs::Giving::looks_kept, crate::proofs::Giving::looks_out))]
    fn look(&mut self) -> Result<(), ClientError>
        ensures looked { OnOk result (LooksOut self.old.message self.old self.new) }
        ensures failed { IfErr result (λ e. (self.old.message ≡ None) × HasFailed self.old.shared
            × (self.new ≡ unrefused self.old)) }
    {
        self.refused = None;
        if self.message.is_some() {
            return Ok(());
        }
        let message = self.shared.take_outgoing()?;
        self.hold(message);
        Ok(())
    }

    /// Gives the text of the first message that is to be sent, where its room is enough for it: then it is gone.
    #[tactic(auto, using(crate::proofs::Giving::sends_none, crate::proofs::Giving::sends_lacking, crate::proofs::Giving::sends_given, crate::proofs::Giving::sends_kept, crate::proofs::Giving::sends_failed))]
    pub fn take_outgoing(&mut self, out: &mut [u8], len: &mut usize) -> u32
        ensures { Sends self.old out.old result self.new out.new len.new }
    {
        *len = 0;
        if self.look().is_err() {
            return FAILED;
        }
        let Some(message) = &self.message else {
            return NONE;
        };
        let Ok(text) = message.text(self.alloc) else {
            return NO_MEMORY;
        };
        let status = give(text.as_str().as_bytes(), out, len);
        if status == DONE {
            drop(self.message.take());
        }
        status
    }

    /// Hands over to the ring of the seat of that number what waits for it.
    #[tactic(auto, using(crate::proofs::Placing::settled, crate::proofs::Placing::unsettled))]
    pub fn settle(&mut self, number: u64) -> u32
        ensures { Settles number self.old result self.new }
    {
        self.refused = None;
        let Some(place) = place_of(&self.places, number) else {
            return WRONG_SEAT;
        };
        match self.places[place].settle(&mut self.shared) {
            Ok(()) => DONE,
            Err(why) => self.refuse(why),
        }
    }

    /// From then on the batches of a listener are given to the seat of that number with these kinds of changes alone.
    #[tactic(auto, using(crate::proofs::Placing::wanted, crate::proofs::Placing::unwanted))]
    pub fn want(&mut self, number: u64, listener: u64, kinds: Kinds) -> u32
        ensures { WantsOf number listener kinds self.old result self.new }
    {
        self.refused = None;
        let Some(place) = place_of(&self.places, number) else {
            return WRONG_SEAT;
        };
        if self.places[place].want(listener, kinds).is_err() {
            return NO_MEMORY;
        }
        DONE
    }

    /// Gives the text of the next item of the seat of that number.
    #[tactic(auto, using(crate::proofs::Placing::told))]
    pub fn next(&mut self, number: u64, out: &mut [u8], len: &mut usize) -> u32
        ensures { Tells number self.old out.old result self.new out.new len.new }
    {
        *len = 0;
        self.refused = None;
        let Some(place) = place_of(&self.places, number) else {
            return WRONG_SEAT;
        };
        self.places[place].next(self.alloc, out, len)
    }

    // The listens that are kept, as the console prints them.
    fn cover_text(&self) -> Result<String, ClientError>
        ensures shown { IfOk result (λ text. (kept : List Kept) × ShowsCover self.now.shared kept
            × (string_bytes text ≡ cover_text kept)) }
        ensures refused { IfErr result (λ e. RefusesCover self.now.shared e) }
    {
        let kept = self.shared.cover()?;
        let mut text = String::new(self.alloc);
        write_cover(&mut text, self.alloc, kept.as_slice())?;
        Ok(text)
    }

    /// Gives the listens that are kept.
    #[tactic(auto, using(crate::proofs::Giving::shown, crate::proofs::Giving::unshown))]
    pub fn cover(&mut self, out: &mut [u8], len: &mut usize) -> u32
        ensures { Shows self.old out.old result self.new out.new len.new }
    {
        *len = 0;
        self.refused = None;
        match self.cover_text() {
            Ok(text) => give(text.as_str().as_bytes(), out, len),
            Err(why) => self.refuse(why),
        }
    }

    /// Gives the next push id, where its room is enough for it; else none is used up.
    #[tactic(auto, using(crate::proofs::Giving::key_no_room, crate::proofs::Giving::key_refused, crate::proofs::Giving::key_given))]
    pub fn push_key(
        &mut self,
        now_ms: u64,
        random: [u8; 12],
        out: &mut [u8],
        len: &mut usize,
    ) -> u32
        ensures { GivesKey now_ms random self.old out.old result self.new out.new len.new }
    {
        *len = 20;
        self.refused = None;
        if out.len() < 20 {
            return TOO_SMALL;
        }
        match self.shared.push_key(now_ms, random) {
            Ok(id) => give(&id, out, len),
            Err(error) => {
                *len = 0;
                self.refused = Some(Refusal::Push(error));
                REFUSED
            }
        }
    }

    /// Gives the layer and the name of what was refused last, and its number within its layer.
    pub fn refusal(&self, code: &mut u32, out: &mut [u8], len: &mut usize) -> u32
        ensures { GivesWhy self.now.refused code.new out.old result out.new len.new }
    {
        *len = 0;
        *code = 0;
        let Some(refusal) = self.refused else {
            return NONE;
        };
        let (layer, name) = (refusal.layer(), refusal.name());
        let Ok(text) = format!(in self.alloc; "{layer} {name}") else {
            return NO_MEMORY;
        };
        *code = refusal.code() as u32;
        give(text.as_str().as_bytes(), out, len)
    }
}

// ---- what the connection brings

/// What the connection brings: that it stands, that it has ended, a message of the server.
#[derive(Drop)]
pub enum Event {
    Connected,
    Disconnected,
    Message(ServerMessage),
}

impl Event {
    // Whether the connection has ended.
    pub(crate) fn is_end(&self) -> bool
        ensures { result ≡ is_end self.now }
    {
        match self {
            Event::Disconnected => true,
            Event::Connected | Event::Message(_) => false,
        }
    }
}

/// The message of the server that a text is.
pub fn message_of(alloc: Global, bytes: &[u8]) -> Result<Event, LineError>
    ensures ok { IfOk result (λ event. event_read bytes.now ≡ Ok event) }
    ensures fault { IfErr result (λ e. (event_read bytes.now ≡ Err e) ⊎ (e ≡ LineError.NoMemory)) }
{
    match ServerMessage::read(alloc, text_of(bytes)?) {
        Ok(message) => Ok(Event::Message(message)),
        Err(WireError::NoMemory) => Err(LineError::NoMemory),
        Err(error) => Err(LineError::Refused(Refusal::Wire(error))),
    }
}

/// Makes the step of what the connection brings.
pub(crate) fn tell(shared: &mut Shared, event: Event) -> Result<Outcome, ClientError>
    ensures made { IfOk result (λ outcome. Comes shared.old (step_of_event event) outcome shared.new) }
    ensures refused { IfErr result (λ e. RefusesOn shared.old (step_of_event event) e shared.new) }
{
    match event {
        Event::Connected => shared.connected(),
        Event::Disconnected => shared.disconnected(),
        Event::Message(message) => shared.server_message(message),
    }
}
