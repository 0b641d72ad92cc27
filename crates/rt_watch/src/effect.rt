// What a line asks of a client's locked value and its seats, and what is printed of it and of what the server
// sends.
ghost use Rattle.std.specs.Prelude.{◌≡◌, ◌++◌, ℕ, List, IfOk, OnOk, IfErr, false};
ghost use Rattle.rt_lines.specs.inside.Appending.{Appends};
ghost use Rattle.rt_connect.specs.Doing.{disconnected};
ghost use Rattle.rt_wire.specs.declared.request.Action.TheVariants.{Put};
ghost use Rattle.rt_world.specs.declared.step.Call.TheVariants.{Write};
ghost use Rattle.rt_watch.specs.Asking.{is_done, is_good_asked, Asks, AsksPush, HasNone};
ghost use Rattle.rt_watch.specs.Watching.{DoesAsked, DoesLine, DoesOrder, Pushes, TellsNews, Views};
ghost use Rattle.rt_watch.specs.Watching.{passed_text, passed_texts, is_good};
ghost use Rattle.rt_lines.specs.Typing.{typed_of_bytes};
ghost use Rattle.rt_watch.specs.Faults.{IsNoWriteFault, after_input, fault_code, fault_name, of_link};
ghost use Rattle.rt_link.specs.Pushing.{is_client_fault};
ghost use Rattle.rt_input.specs.declared.fault.ConsoleError.TheVariants.{NoMemory};
ghost use Rattle.rt_watch.specs.declared.effect.WatchFault.TheVariants.{System, Ended};
ghost use Rattle.rt_lines.specs.declared.order.Order.TheVariants as order;

use crate::lines::End;
use rt_client::{Action, Call, Shared};
use rt_connect::{Seats, obey, settle_all, write_why};
use rt_input::ConsoleError;
use rt_lines::{
    LineError, Order, Refusal, Typed, write_bad_line, write_id, write_refusal, write_view,
};
use rt_link::{LinkFault, Linked, Lost, Passed, Unpushed};
use rt_tree::{Key, Path, Tree, TreeError};
use std::alloc::{AllocError, AllocFailed, Global};
use std::fmt;
use std::io::{self, ErrorKind};
use std::net::SocketAddr;
use std::random::RandomSource;
use std::sync::Wait;
use std::time::Clock;
use thiserror::Error;

// Whether an order is done. Messages come by themselves, so that one which reads them is not.
fn is_done(order: &Order) -> bool
    ensures { result ≡ is_done order.now }
{
    match order {
        Order::Seat { .. } | Order::Close { .. } | Order::Cover => true,
        Order::Read { .. } => false,
    }
}

// Does an order, or prints that the line of that number is bad, and answers which.
fn do_order(
    out: &mut String,
    alloc: Global,
    shared: &mut Shared,
    seats: &mut Seats,
    number: u64,
    order: Order,
) -> Result<bool, AllocError>
    ensures good { IfOk result (λ good. good ≡ is_done order) }
    ensures done { OnOk result ((text : List ℕ) × Appends out.old out.new text
        × DoesOrder (is_done order) order number shared.old seats.old.items text shared.new
        seats.new.items) }
{
    if !is_done(&order) {
        drop(order);
        write_bad_line(out, number)?;
        return Ok(false);
    }
    obey(out, alloc, shared, seats, order)?;
    Ok(true)
}

// Prints what the listener of that number shows.
fn show_view(
    out: &mut String,
    alloc: Global,
    shared: &Shared,
    listener: u64,
) -> Result<(), AllocError>
    ensures { OnOk result ((text : List ℕ) × Appends out.old out.new text
        × Views shared.now listener text) }
{
    match shared.view(listener) {
        Ok(shown) => {
            let written = write_view(out, alloc, shown.as_ref());
            drop(shown);
            written
        }
        Err(why) => write_why(out, why),
    }
}

// Prints a push id, and makes the write at the path that ends with it.
#[tactic(auto, using(crate::proofs::Typed::pushes))]
fn do_push(
    out: &mut String,
    alloc: Global,
    shared: &mut Shared,
    seats: &mut Seats,
    id: &Key,
    seat: u64,
    path: Path,
    tree: Tree,
) -> Result<(), AllocError>
    ensures { OnOk result ((text : List ℕ) × Appends out.old out.new text
        × Pushes id.now (order.Seat seat (Write (Put path tree))) shared.old seats.old.items text
        shared.new seats.new.items) }
{
    write_id(out, id.text())?;
    let action = Action::Put { path, tree };
    let call = Call::Write { action };
    obey(out, alloc, shared, seats, Order::Seat { seat, call })
}

// Does what the line of that number asks for, and prints what became of it. Answers whether the line is
// good.
fn do_asked(
    out: &mut String,
    alloc: Global,
    shared: &mut Shared,
    seats: &mut Seats,
    number: u64,
    asked: AskedLine,
) -> Result<bool, AllocError>
    ensures good { IfOk result (λ good. good ≡ is_good_asked asked) }
    ensures done { OnOk result ((text : List ℕ) × Appends out.old out.new text
        × DoesAsked asked number shared.old seats.old.items text shared.new seats.new.items) }
{
    match asked {
        AskedLine::Order(order) => do_order(out, alloc, shared, seats, number, order),
        AskedLine::View { listener } => {
            show_view(out, alloc, shared, listener)?;
            Ok(true)
        }
        AskedLine::Push {
            id,
            seat,
            path,
            tree,
        } => {
            let pushed = do_push(out, alloc, shared, seats, &id, seat, path, tree);
            drop(id);
            pushed?;
            Ok(true)
        }
        AskedLine::Refused(refusal) => {
            write_refusal(out, refusal)?;
            Ok(true)
        }
        AskedLine::Bad => {
            write_bad_line(out, number)?;
            Ok(false)
        }
    }
}

// Does what the line of that number asks for, and prints what became of it and what the seats are told then.
// Answers whether the line is good.
pub(crate) fn do_line(
    out: &mut String,
    alloc: Global,
    shared: &mut Shared,
    seats: &mut Seats,
    number: u64,
    asked: AskedLine,
) -> Result<bool, AllocError>
    ensures good { IfOk result (λ good. good ≡ is_good_asked asked) }
    ensures done { OnOk result ((text : List ℕ) × Appends out.old out.new text
        × DoesLine asked number shared.old seats.old.items text shared.new seats.new.items) }
{
    let is_good = do_asked(out, alloc, shared, seats, number, asked)?;
    settle_all(out, alloc, shared, seats)?;
    Ok(is_good)
}

// Prints why a message of the server was passed over.
fn write_passed(out: &mut String, why: Passed) -> Result<(), AllocError>
    ensures { OnOk result (Appends out.old out.new (passed_text why)) }
{
    match why {
        Passed::Wire(why) => write_refusal(out, Refusal::Wire(why)),
        Passed::Core(why) => write_refusal(out, Refusal::Core(why)),
    }
}

// Prints why messages of the server were passed over, in order.
fn write_all_passed(out: &mut String, passed: &[Passed]) -> Result<(), AllocError>
    ensures { OnOk result (Appends out.old out.new (passed_texts passed.now)) }
{
    for why in passed {
        write_passed(out, *why)?;
    }
    Ok(())
}

// Prints what came of messages of the server that the client has taken, of which these were passed over.
pub(crate) fn tell_news(
    out: &mut String,
    alloc: Global,
    shared: &mut Shared,
    seats: &mut Seats,
    passed: &[Passed],
) -> Result<(), AllocError>
    ensures { OnOk result ((text : List ℕ) × Appends out.old out.new text
        × TellsNews passed.now shared.old seats.old.items text shared.new seats.new.items) }
{
    write_all_passed(out, passed)?;
    settle_all(out, alloc, shared, seats)
}

// Prints that the connection is gone, or did not come about.
pub(crate) fn write_lost(out: &mut String) -> Result<(), AllocError>
    ensures { OnOk result (Appends out.old out.new disconnected) }
{
    out.push_str("disconnected\n")
}

// ---- what a line asks for, as it is known before the client is locked

/// What a line asks for.
#[derive(Drop)]
pub(crate) enum AskedLine {
    /// What it asks of any client that is connected.
    Order(Order),
    /// What the listener of that number shows.
    View {
        listener: u64,
    },
    /// A write of the seat of that number at a path, whose last key is that push id.
    Push {
        id: Key,
        seat: u64,
        path: Path,
        tree: Tree,
    },
    /// One of its words is refused, or there is no push id for it.
    Refused(Refusal),
    /// It has none of the forms.
    Bad,
}

// What a write asks for by a push id that there is none of.
#[tactic(auto, using(crate::proofs::Typed::asks))]
fn without_id(why: Unpushed) -> Result<AskedLine, WatchFault>
    requires { is_client_fault why ≡ false }
    ensures none { IfOk result HasNone }
    ensures fault { IfErr result IsNoWriteFault }
{
    match why {
        Unpushed::Ids(why) => Ok(AskedLine::Refused(Refusal::Push(why))),
        Unpushed::Path(TreeError::NoMemory) => Err(WatchFault::Ended(ConsoleError::NoMemory)),
        Unpushed::Path(why) => Ok(AskedLine::Refused(Refusal::Tree(why))),
        Unpushed::Clock | Unpushed::Random => {
            Err(WatchFault::System(io::Error::from(ErrorKind::Unsupported)))
        }
        Unpushed::Client(_) => unreachable!(),
    }
}

// A write below a path, by the client's next push id.
#[tactic(auto, using(crate::proofs::Typed::asks))]
fn push_of<R: Wait + Clock + RandomSource>(
    rt: &R,
    alloc: Global,
    linked: &Linked,
    seat: u64,
    path: Path,
    tree: Tree,
) -> Result<AskedLine, WatchFault>
    ensures asks { IfOk result (λ asked. AsksPush seat path tree asked) }
    ensures fault { IfErr result IsNoWriteFault }
{
    let id = match linked.push_key(rt, alloc) {
        Ok(id) => id,
        Err(why) => return without_id(why),
    };
    match path.child(&id) {
        Ok(path) => Ok(AskedLine::Push {
            id,
            seat,
            path,
            tree,
        }),
        Err(TreeError::NoMemory) => Err(WatchFault::Ended(ConsoleError::NoMemory)),
        Err(why) => Ok(AskedLine::Refused(Refusal::Tree(why))),
    }
}

// What a line asks for.
#[tactic(auto, using(crate::proofs::Typed::asks))]
pub(crate) fn asked_of<R: Wait + Clock + RandomSource>(
    rt: &R,
    alloc: Global,
    linked: &Linked,
    bytes: &[u8],
) -> Result<AskedLine, WatchFault>
    ensures asks { IfOk result (λ asked. Asks (typed_of_bytes bytes.now) asked) }
    ensures good { IfOk result (λ asked. is_good (typed_of_bytes bytes.now) ≡ is_good_asked asked) }
    ensures fault { IfErr result IsNoWriteFault }
{
    match Typed::read(alloc, bytes) {
        Ok(Typed::Order(order)) => Ok(AskedLine::Order(order)),
        Ok(Typed::View { listener }) => Ok(AskedLine::View { listener }),
        Ok(Typed::Push { seat, path, tree }) => push_of(rt, alloc, linked, seat, path, tree),
        Err(LineError::Refused(why)) => Ok(AskedLine::Refused(why)),
        Err(LineError::Bad) => Ok(AskedLine::Bad),
        Err(LineError::NoMemory) => Err(WatchFault::Ended(ConsoleError::NoMemory)),
    }
}

// ---- why a run ends early

/// Why a run ends early, or does not begin.
#[derive(Drop, Error)]
pub enum WatchFault {
    /// Nothing listens there, or the stream failed before the handshake was done.
    #[error("{address}: {why}")]
    NotConnected { address: SocketAddr, why: Lost },
    /// The system refuses a thread, or what waiting needs.
    #[error("the system refuses a thread, or what waiting needs: {0}")]
    System(io::Error),
    /// The reader or the writer failed, or memory is lacking.
    #[error("{0}")]
    Ended(ConsoleError),
}

impl fmt::Debug for WatchFault {
    // In its words.
    fn fmt<W: fmt::Write>(&self, f: &mut fmt::Formatter<W>) -> fmt::Result {
        fmt::Display::fmt(self, f)
    }
}

impl WatchFault {
    /// The number of the fault, from 1 to 3. That of what ended a run is its own.
    pub fn code(&self) -> u8
        ensures { result ≡ fault_code self.now }
    {
        match self {
            WatchFault::NotConnected { .. } => 1,
            WatchFault::System(_) => 2,
            WatchFault::Ended(_) => 3,
        }
    }

    /// The name of the fault.
    pub fn name(&self) -> &'static str
        ensures { result.now ≡ fault_name self.now }
    {
        match self {
            WatchFault::NotConnected { .. } => "NotConnected",
            WatchFault::System(_) => "System",
            WatchFault::Ended(_) => "Ended",
        }
    }
}

impl From<AllocError> for WatchFault {
    ghost from_gives = { λ _ e. e ≡ Ended NoMemory };

    fn from(_error: AllocError) -> WatchFault {
        WatchFault::Ended(ConsoleError::NoMemory)
    }
}

impl<T: Drop> From<AllocFailed<T>> for WatchFault {
    ghost from_gives = { λ _ e. e ≡ Ended NoMemory };

    fn from(_error: AllocFailed<T>) -> WatchFault {
        WatchFault::Ended(ConsoleError::NoMemory)
    }
}

impl From<io::Error> for WatchFault {
    ghost from_gives = { λ why e. e ≡ System why };

    fn from(why: io::Error) -> WatchFault {
        WatchFault::System(why)
    }
}

// A client that has lacked memory answers nothing any more, and nobody else tells it of a connection.
impl From<LinkFault> for WatchFault {
    ghost from_gives = { λ why e. e ≡ of_link why };

    fn from(why: LinkFault) -> WatchFault {
        match why {
            LinkFault::Client(_) | LinkFault::NoMemory => WatchFault::Ended(ConsoleError::NoMemory),
            LinkFault::System(why) => WatchFault::System(why),
        }
    }
}

impl From<ConsoleError> for WatchFault {
    ghost from_gives = { λ why e. e ≡ Ended why };

    fn from(why: ConsoleError) -> WatchFault {
        WatchFault::Ended(why)
    }
}

// What the end of an input makes of a run: it goes on, or ends early.
pub(crate) fn after_input(end: End) -> Result<(), WatchFault>
    ensures { result ≡ after_input end }
{
    match end {
        End::Read => Ok(()),
        End::Unread => Err(WatchFault::Ended(ConsoleError::ReadFault)),
        End::NoMemory => Err(WatchFault::Ended(ConsoleError::NoMemory)),
    }
}
