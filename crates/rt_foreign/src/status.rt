// How a call ends, as a number: `include/kaltewi.h` names them.
ghost use Rattle.std.specs.Prelude.{◌≡◌};
ghost use Rattle.rt_foreign.specs.Refusing.{refusal_of, refusal_read, status_of, status_of_outcome};
ghost use Rattle.rt_foreign.specs.Refusing.{status_read};

use rt_client::ClientError;
use rt_lines::{LineError, Refusal};
use rt_world::Outcome;

/// The call is done.
pub const DONE: u32 = 0;
/// Nothing is there to be taken.
pub const NONE: u32 = 1;
/// The step came too late, and has changed nothing.
pub const STALE: u32 = 2;
/// The text is longer than its room: nothing is written, and it is still to be had.
pub const TOO_SMALL: u32 = 3;
/// The handle is closed, or another kind's.
pub const CLOSED: u32 = 4;
/// A growth was refused.
pub const NO_MEMORY: u32 = 5;
/// The client has lacked memory before.
pub const FAILED: u32 = 6;
/// No UTF-8, no JSON, or of another form than the call has.
pub const BAD_TEXT: u32 = 7;
/// The client has no such seat.
pub const WRONG_SEAT: u32 = 8;
/// The seat's ring has no room.
pub const MAILBOX_FULL: u32 = 9;
/// More seats than a client has.
pub const TOO_MANY_SEATS: u32 = 10;
/// A layer refuses.
pub const REFUSED: u32 = 11;

/// How a step ends that is made.
pub(crate) fn status_of_outcome(outcome: Outcome) -> u32
    ensures { result ≡ status_of_outcome outcome }
{
    match outcome {
        Outcome::Done => DONE,
        Outcome::Stale => STALE,
    }
}

/// How a call ends that the client refuses.
pub fn status_of(why: ClientError) -> u32
    ensures { result ≡ status_of why }
{
    match why {
        ClientError::Failed => FAILED,
        ClientError::WrongSeat => WRONG_SEAT,
        ClientError::MailboxFull => MAILBOX_FULL,
        ClientError::TooManySeats => TOO_MANY_SEATS,
        ClientError::Core(_) => REFUSED,
        ClientError::NoMemory => NO_MEMORY,
    }
}

/// The layer that refuses, where it isn't the client itself.
pub(crate) fn refusal_of(why: ClientError) -> Option<Refusal>
    ensures { result ≡ refusal_of why }
{
    match why {
        ClientError::Core(refused) => Some(Refusal::Core(refused)),
        ClientError::Failed
        | ClientError::WrongSeat
        | ClientError::MailboxFull
        | ClientError::TooManySeats
        | ClientError::NoMemory => None,
    }
}

/// How a call ends whose texts are not read.
pub(crate) fn status_read(why: LineError) -> u32
    ensures { result ≡ status_read why }
{
    match why {
        LineError::Bad => BAD_TEXT,
        LineError::Refused(_) => REFUSED,
        LineError::NoMemory => NO_MEMORY,
    }
}

/// The layer that refuses one of its texts.
pub(crate) fn refusal_read(why: LineError) -> Option<Refusal>
    ensures { result ≡ refusal_read why }
{
    match why {
        LineError::Refused(refusal) => Some(refusal),
        LineError::Bad | LineError::NoMemory => None,
    }
}
