// Why a link can't go on.
ghost use Rattle.std.specs.Prelude.{◌≡◌};
ghost use Rattle.rt_link.specs.declared.error.LinkFault.TheVariants.{Client, System, NoMemory};

use rt_client::ClientError;
use std::alloc::{AllocError, AllocFailed};
use std::{fmt, io};
use thiserror::Error;

/// Why a link can't go on. The end of a connection is none: `Lost` says that.
#[derive(Clone, Copy, Error)]
pub enum LinkFault {
    /// The client has failed, or somebody else has told it of a connection.
    #[error("{0}")]
    Client(ClientError),
    /// The system refuses what waiting needs.
    #[error("{0}")]
    System(io::Error),
    /// A growth was refused.
    #[error("out of memory")]
    NoMemory,
}

impl fmt::Debug for LinkFault {
    // In its words.
    fn fmt<W: fmt::Write>(&self, f: &mut fmt::Formatter<W>) -> fmt::Result {
        fmt::Display::fmt(self, f)
    }
}

impl From<AllocError> for LinkFault {
    ghost from_gives = { λ _ e. e ≡ NoMemory };

    fn from(_error: AllocError) -> LinkFault {
        LinkFault::NoMemory
    }
}

impl<T: Drop> From<AllocFailed<T>> for LinkFault {
    ghost from_gives = { λ _ e. e ≡ NoMemory };

    fn from(_error: AllocFailed<T>) -> LinkFault {
        LinkFault::NoMemory
    }
}

impl From<ClientError> for LinkFault {
    ghost from_gives = { λ why e. e ≡ Client why };

    fn from(why: ClientError) -> LinkFault {
        LinkFault::Client(why)
    }
}

impl From<io::Error> for LinkFault {
    ghost from_gives = { λ why e. e ≡ System why };

    fn from(why: io::Error) -> LinkFault {
        LinkFault::System(why)
    }
}
