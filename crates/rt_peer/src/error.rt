// Why a peer refuses.
ghost use Rattle.std.specs.Prelude.{◌≡◌};
ghost use Rattle.rt_peer.specs.Errors.{code_of, name_of};

use thiserror::Error;

/// Why a call of a peer is refused.
#[derive(Clone, Copy, Debug, PartialEq, Eq, Error)]
pub enum PeerError {
    /// It has lacked memory before, and answers nothing else from then on.
    #[error("it has lacked memory before")]
    Failed,
    /// No connection with that number is known.
    #[error("no such connection")]
    UnknownConnection,
    /// A growth was refused.
    #[error("out of memory")]
    NoMemory,
}

impl PeerError {
    /// The number of the error, from 1 to 3.
    pub fn code(&self) -> u8
        ensures { result ≡ code_of self.now }
    {
        match self {
            PeerError::Failed => 1,
            PeerError::UnknownConnection => 2,
            PeerError::NoMemory => 3,
        }
    }

    /// The name of the error, as it is printed.
    pub fn name(&self) -> &'static str
        ensures { result.now ≡ name_of self.now }
    {
        match self {
            PeerError::Failed => "Failed",
            PeerError::UnknownConnection => "UnknownConnection",
            PeerError::NoMemory => "NoMemory",
        }
    }
}
