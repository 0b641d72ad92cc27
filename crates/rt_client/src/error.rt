// Why a call of a client is refused.
ghost use Rattle.std.specs.Prelude.{◌≡◌};
ghost use Rattle.rt_client.specs.Codes.{code_of, name_of, of_core, of_mail};
ghost use Rattle.rt_client.specs.declared.error.ClientError.TheVariants.{NoMemory};

use rt_mail::MailError;
use rt_world::CoreError;
use std::alloc::AllocError;
use thiserror::Error;

/// Why a call of a client is refused; in the order in which the causes are looked at.
#[derive(Clone, Copy, Debug, PartialEq, Eq, Error)]
pub enum ClientError {
    /// The client has lacked memory before, and answers nothing else from then on.
    #[error("the client has failed")]
    Failed,
    /// A seat of another client, or one that is closed.
    #[error("a seat of another client, or a closed one")]
    WrongSeat,
    /// The seat's ring has no room for what waits and the receipt. The call was not made, and nothing of it
    /// is kept: a write is lost unless it is made again, once the seat has taken items. `try_call` hands
    /// the call back for that.
    #[error("the mailbox is full")]
    MailboxFull,
    /// More seats than a client has.
    #[error("too many seats")]
    TooManySeats,
    /// The core refuses the step; that it has failed or lacks memory is said by the client's own.
    #[error("{0}")]
    Core(CoreError),
    /// A growth was refused.
    #[error("no memory")]
    NoMemory,
}

impl ClientError {
    /// The number of the refusal, from 1; each refusal of the core has 5.
    pub fn code(&self) -> u8
        ensures { result ≡ code_of self.now }
    {
        match self {
            ClientError::Failed => 1,
            ClientError::WrongSeat => 2,
            ClientError::MailboxFull => 3,
            ClientError::TooManySeats => 4,
            ClientError::Core(_) => 5,
            ClientError::NoMemory => 6,
        }
    }

    /// The word of the refusal; each refusal of the core has `Core`.
    pub fn name(&self) -> &'static str
        ensures { result.now ≡ name_of self.now }
    {
        match self {
            ClientError::Failed => "Failed",
            ClientError::WrongSeat => "WrongSeat",
            ClientError::MailboxFull => "MailboxFull",
            ClientError::TooManySeats => "TooManySeats",
            ClientError::Core(_) => "Core",
            ClientError::NoMemory => "NoMemory",
        }
    }
}

impl From<CoreError> for ClientError {
    ghost from_gives = { λ refused e. e ≡ of_core refused };

    fn from(refused: CoreError) -> ClientError {
        match refused {
            CoreError::Failed => ClientError::Failed,
            CoreError::UnknownListener => ClientError::Core(CoreError::UnknownListener),
            CoreError::TooManyListeners => ClientError::Core(CoreError::TooManyListeners),
            CoreError::TooManyRequests => ClientError::Core(CoreError::TooManyRequests),
            CoreError::Overlap => ClientError::Core(CoreError::Overlap),
            CoreError::EmptyUpdate => ClientError::Core(CoreError::EmptyUpdate),
            CoreError::TooDeep => ClientError::Core(CoreError::TooDeep),
            CoreError::BadPush => ClientError::Core(CoreError::BadPush),
            CoreError::AlreadyConnected => ClientError::Core(CoreError::AlreadyConnected),
            CoreError::NotConnected => ClientError::Core(CoreError::NotConnected),
            CoreError::NoMemory => ClientError::NoMemory,
        }
    }
}

impl From<MailError> for ClientError {
    ghost from_gives = { λ refused e. e ≡ of_mail refused };

    fn from(refused: MailError) -> ClientError {
        match refused {
            MailError::Failed => ClientError::Failed,
            MailError::NoMemory => ClientError::NoMemory,
        }
    }
}

impl From<AllocError> for ClientError {
    ghost from_gives = { λ _ e. e ≡ NoMemory };

    fn from(_error: AllocError) -> ClientError {
        ClientError::NoMemory
    }
}
