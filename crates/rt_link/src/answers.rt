// What the server answers to a request.
ghost use Rattle.std.specs.Prelude.{◌≡◌, ◌≢◌, ◌⊎◌, length, None, IfOk, IfErr, OnOk};
ghost use Rattle.std.specs.List.{fold};
ghost use Rattle.std.specs.Option.{option_map};
ghost use Rattle.rt_link.specs.Answering.{answer_among, answer_in, behind_answer, settled_by, IsDoneBehind};
ghost use Rattle.rt_link.specs.Answering.{IsSameSeat, IsUnmadeBehind, RefusesHearing, none_answered};
ghost use Rattle.rt_link.specs.Answering.{one_more, tallied, HearsAll};
ghost use Rattle.rt_mail.specs.Mailbox.{known_of};
ghost use Rattle.rt_mail.specs.Mirrors.{requests_in};
ghost use Rattle.rt_client.specs.Delivery.{emptied, RefusesTurn};
ghost use Rattle.rt_client.specs.declared.error.ClientError.TheVariants.{MailboxFull, NoMemory};
ghost use Rattle.rt_link.specs.inside.Trials.{tried_of, IsSettled, Tries};

use crate::linked::{Linked, WaitBound};
use rt_client::{Call, ClientError, Done, Seat, Uncalled};
use rt_mail::{Item, MailError, Mirror};
use rt_wire::Reason;
use std::sync::Wait;
use std::time::{Clock, Duration};

/// What the server says of a request.
#[derive(Drop)]
pub enum Answer {
    /// It has done it.
    Done,
    /// It refuses it, for a reason.
    Refused(Reason),
}

// How it is settled, with a reason where it is refused.
fn settled_by(why: Option<Reason>) -> Answer
    ensures { result ≡ settled_by why }
{
    match why {
        None => Answer::Done,
        Some(why) => Answer::Refused(why),
    }
}

// What an item says of a request.
fn answer_in(item: Item, request: u64) -> Option<Answer>
    ensures { result ≡ answer_in item request }
{
    match item {
        Item::Settled { id, why } => {
            if id == request {
                Some(settled_by(why))
            } else {
                None
            }
        }
        Item::Receipt(_) | Item::Batch(_) | Item::Cancelled { .. } => None,
    }
}

// Takes items of the seat's ring up to the first that speaks of a request, and answers what it says.
pub(crate) fn find_answer(seat: &mut Seat, request: u64) -> Option<Answer>
    ensures answer { result ≡ answer_among seat.old.ring.items request }
    ensures seat { seat.new ≡ record (seat.old) {
      ring = record (seat.old.ring) { items = behind_answer seat.old.ring.items request };
    } }
{
    while let Some(item) = seat.next() {
        let answer = answer_in(item, request);
        if answer.is_some() {
            return answer;
        }
    }
    None
}

// ---- what a seat's thread hears: calls that find room, and a wait for all answers

/// What became of a seat's requests, as far as its thread has heard.
#[derive(Clone, Copy, Debug, PartialEq, Eq)]
pub struct Answered {
    /// How many the server has done,
    pub done: u64,
    /// and how many it has refused.
    pub refused: u64,
}

impl Answered {
    /// Before any answer.
    pub fn none() -> Answered
        ensures { result ≡ none_answered }
    {
        Answered {
            done: 0,
            refused: 0,
        }
    }

    // With one more that is done.
    fn with_done(self) -> Answered
        ensures { result ≡ record self { done = one_more self.done } }
    {
        Answered {
            done: self.done.saturating_add(1),
            refused: self.refused,
        }
    }

    // With one more that is refused.
    fn with_refused(self) -> Answered
        ensures { result ≡ record self { refused = one_more self.refused } }
    {
        Answered {
            done: self.done,
            refused: self.refused.saturating_add(1),
        }
    }

    // With an item, where it answers a request.
    fn tallied(self, item: &Item) -> Answered
        ensures { result ≡ tallied self item.now }
    {
        match item {
            Item::Settled { id: _, why } => match why {
                None => self.with_done(),
                Some(_) => self.with_refused(),
            },
            Item::Receipt(_) | Item::Batch(_) | Item::Cancelled { .. } => self,
        }
    }
}

// Takes all that the seat's ring holds into the mirror, in order, and counts it.
fn take_ring(seat: &mut Seat, heard: &mut Mirror, answers: Answered) -> Result<Answered, MailError>
    ensures counted { IfOk result (λ has. has ≡ fold tallied answers seat.old.ring.items) }
    ensures knows { OnOk result
        (heard.new ≡ option_map (λ k. known_of k seat.old.ring.items) heard.old) }
    ensures seat { OnOk result (seat.new ≡ emptied seat.old) }
    ensures failed { IfErr result (λ _. (heard.new ≡ None) × IsSameSeat seat.old seat.new) }
{
    let mut has = answers;
    while let Some(item) = seat.next() {
        has = has.tallied(&item);
        heard.take(item)?;
    }
    Ok(has)
}

// What became of a call that is tried.
#[derive(Drop)]
enum Tried {
    Made(Done),
    // The seat's mailbox is full: the call comes back.
    Full(Call),
    Refused(ClientError),
}

// What became of a call that was refused.
fn tried_of(refused: Uncalled) -> Tried
    ensures { result ≡ tried_of refused.why refused.call }
{
    let Uncalled { call, why } = refused;
    match why {
        ClientError::MailboxFull => match call {
            Some(call) => Tried::Full(call),
            None => Tried::Refused(why),
        },
        ClientError::Failed
        | ClientError::WrongSeat
        | ClientError::TooManySeats
        | ClientError::Core(_)
        | ClientError::NoMemory => {
            drop(call);
            Tried::Refused(why)
        }
    }
}

impl Linked {
    // Settles the seat, and waits for nobody.
    #[tactic(auto, using(crate::proofs::Told::unsettled))]
    pub(crate) fn settle<R: Wait>(&self, rt: &R, seat: &mut Seat) -> Result<(), ClientError>
        ensures settled { OnOk result (IsSettled seat.old seat.new) }
        ensures refused { IfErr result (λ e. RefusesTurn seat.old e seat.new) }
        ensures memory { IfErr result (λ e. e ≢ NoMemory) }
    {
        let mut shared = self.client.shared.lock(rt);
        shared.settle(seat)?;
        drop(shared);
        Ok(())
    }

    // Takes what is there for the seat into the mirror, counts it, and waits for nobody.
    #[tactic(auto, using(crate::proofs::Told::nothing_heard, crate::proofs::Told::not_settled))]
    fn hear<R: Wait>(
        &self,
        rt: &R,
        seat: &mut Seat,
        heard: &mut Mirror,
        answers: &mut Answered,
    ) -> Result<(), ClientError>
        ensures heard { OnOk result
            (HearsAll seat.old heard.old answers.old seat.new heard.new answers.new) }
        ensures refused { IfErr result (λ e.
            RefusesHearing seat.old heard.old answers.old e seat.new heard.new answers.new) }
    {
        if heard.has_failed() {
            return Err(ClientError::Failed);
        }
        self.settle(rt, seat)?;
        match take_ring(seat, heard, *answers) {
            Ok(has) => {
                *answers = has;
                Ok(())
            }
            Err(_) => Err(ClientError::NoMemory),
        }
    }

    // Makes a call, where the seat's mailbox has room.
    fn try_once<R: Wait>(&self, rt: &R, seat: &mut Seat, call: Call) -> Tried
        ensures { Tries seat.old call result seat.new }
    {
        match self.try_call(rt, seat, call) {
            Ok(done) => Tried::Made(done),
            Err(refused) => tried_of(refused),
        }
    }

    /// Makes a seat's call. Where its mailbox is full, what the seat was told is taken into `heard` and counted in
    /// `answers`, and the call is made again: none is lost for want of room. It waits for nobody.
    ///
    /// # Errors
    ///
    /// As of [`Client::try_call`](rt_client::Client::try_call), but for MailboxFull. Where the mailbox is
    /// full, Failed also where `heard` has failed, and NoMemory where there is none for what it hears, after
    /// which it has.
    #[tactic(auto, using(crate::proofs::Told::nothing_heard))]
    pub fn call<R: Wait>(
        &self,
        rt: &R,
        seat: &mut Seat,
        heard: &mut Mirror,
        answers: &mut Answered,
        call: Call,
    ) -> Result<Done, ClientError>
        ensures made { IfOk result (λ done.
            IsDoneBehind seat.old heard.old answers.old call done seat.new heard.new answers.new) }
        ensures refused { IfErr result (λ e.
            IsUnmadeBehind seat.old heard.old answers.old call e seat.new heard.new answers.new
            ⊎ RefusesHearing seat.old heard.old answers.old e seat.new heard.new answers.new) }
        ensures room { IfErr result (λ e. e ≢ MailboxFull) }
    {
        let mut call = call;
        for _ in rt.forever() {
            let back = match self.try_once(rt, seat, call) {
                Tried::Full(back) => back,
                Tried::Made(done) => return Ok(done),
                Tried::Refused(why) => return Err(why),
            };
            match self.hear(rt, seat, heard, answers) {
                Ok(()) => call = back,
                Err(why) => {
                    drop(back);
                    return Err(why);
                }
            }
        }
        unreachable!()
    }

    /// Waits until the server has answered all requests of a seat, but not longer than so long, and not once
    /// the client was told to stop: how many it has not answered. So who ends writes nothing that is lost unseen.
    /// What the seat is told until then is taken into `heard`, and counted in `answers`. It waits for the
    /// requests that `heard` then knows of: so what the seat was told of them before is to be in it, by
    /// [`Linked::call`] or by [`Mirror::take`](rt_mail::Mirror::take).
    ///
    /// # Errors
    ///
    /// As of [`Client::wait`](rt_client::Client::wait). Failed also where `heard` has failed, and NoMemory
    /// where there is none for what it hears, after which it has.
    #[tactic(auto, using(crate::proofs::Told::nothing_heard))]
    pub fn wait_answers<R: Wait + Clock>(
        &self,
        rt: &R,
        seat: &mut Seat,
        heard: &mut Mirror,
        answers: &mut Answered,
        within: Duration,
    ) -> Result<usize, ClientError>
        ensures heard { OnOk result
            (HearsAll seat.old heard.old answers.old seat.new heard.new answers.new) }
        ensures unanswered { IfOk result (λ count. count ≡ length (requests_in heard.new)) }
        ensures refused { IfErr result (λ e.
            RefusesHearing seat.old heard.old answers.old e seat.new heard.new answers.new) }
    {
        let bound = WaitBound::new(rt, within);
        for _ in rt.forever() {
            let look = self.begin_look(rt, bound);
            self.hear(rt, seat, heard, answers)?;
            let unanswered = heard.requests().len();
            if unanswered == 0 || !self.pauses(rt, seat, look) {
                return Ok(unanswered);
            }
        }
        unreachable!()
    }

    /// Waits as [`Linked::wait_answers`] does, and then tells all to stop, as [`Linked::stop`] does: how many
    /// requests of the seat the server has not answered. All are told to stop also where the wait is refused.
    ///
    /// # Errors
    ///
    /// Those of [`Linked::wait_answers`].
    pub fn stop_when_answered<R: Wait + Clock>(
        &self,
        rt: &R,
        seat: &mut Seat,
        heard: &mut Mirror,
        answers: &mut Answered,
        within: Duration,
    ) -> Result<usize, ClientError>
        ensures heard { OnOk result
            (HearsAll seat.old heard.old answers.old seat.new heard.new answers.new) }
        ensures unanswered { IfOk result (λ count. count ≡ length (requests_in heard.new)) }
        ensures refused { IfErr result (λ e.
            RefusesHearing seat.old heard.old answers.old e seat.new heard.new answers.new) }
    {
        let unanswered = self.wait_answers(rt, seat, heard, answers, within);
        self.stop(rt);
        unanswered
    }
}
