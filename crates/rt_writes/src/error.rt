// Why a write is refused.
ghost use Rattle.std.specs.Prelude.{◌≡◌};
ghost use Rattle.rt_writes.specs.Errors.{code_of, name_of};
ghost use Rattle.rt_writes.specs.declared.error.WriteError.TheVariants.{NoMemory};

use std::alloc::{AllocError, AllocFailed};
use thiserror::Error;

/// Why a write is refused.
#[derive(Clone, Copy, Debug, PartialEq, Eq, Error)]
pub enum WriteError {
    /// The path of one entry is a prefix of another's, or the same.
    #[error("the paths of a write must not overlap")]
    Overlap,
    /// The write has no entry.
    #[error("an update must have an entry")]
    EmptyUpdate,
    /// A growth was refused.
    #[error("out of memory")]
    NoMemory,
}

impl WriteError {
    /// The number of the error, from 1 to 3.
    pub fn code(&self) -> u8
        ensures { result ≡ code_of self.now }
    {
        match self {
            WriteError::Overlap => 1,
            WriteError::EmptyUpdate => 2,
            WriteError::NoMemory => 3,
        }
    }

    /// The name of the error, as it is printed.
    pub fn name(&self) -> &'static str
        ensures { result.now ≡ name_of self.now }
    {
        match self {
            WriteError::Overlap => "Overlap",
            WriteError::EmptyUpdate => "EmptyUpdate",
            WriteError::NoMemory => "NoMemory",
        }
    }
}

impl From<AllocError> for WriteError {
    ghost from_gives = { λ _ e. e ≡ NoMemory };

    fn from(_error: AllocError) -> WriteError {
        WriteError::NoMemory
    }
}

impl<T: Drop> From<AllocFailed<T>> for WriteError {
    ghost from_gives = { λ _ e. e ≡ NoMemory };

    fn from(_error: AllocFailed<T>) -> WriteError {
        WriteError::NoMemory
    }
}
