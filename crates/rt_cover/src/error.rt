// Why a change is refused.
ghost use Rattle.std.specs.Prelude.{◌≡◌};
ghost use Rattle.rt_cover.specs.Errors.{code_of, name_of};
ghost use Rattle.rt_cover.specs.declared.error.CoverError.TheVariants.{NoMemory};

use std::alloc::{AllocError, AllocFailed};
use thiserror::Error;

/// Why a change of a cover is refused. A refused change leaves the cover as it was.
#[derive(Clone, Copy, Debug, PartialEq, Eq, Error)]
pub enum CoverError {
    /// A listener that is to be removed is not registered.
    #[error("no such listener")]
    UnknownListener,
    /// No listen with the tag that is revoked is kept.
    #[error("no listen has this tag")]
    UnknownTag,
    /// A new listen would need a tag above the last one.
    #[error("no tag is left")]
    NoTag,
    /// A growth was refused.
    #[error("out of memory")]
    NoMemory,
}

impl CoverError {
    /// The number of the error, from 1 to 4.
    pub fn code(&self) -> u8
        ensures { result ≡ code_of self.now }
    {
        match self {
            CoverError::UnknownListener => 1,
            CoverError::UnknownTag => 2,
            CoverError::NoTag => 3,
            CoverError::NoMemory => 4,
        }
    }

    /// The name of the error, as it is printed.
    pub fn name(&self) -> &'static str
        ensures { result.now ≡ name_of self.now }
    {
        match self {
            CoverError::UnknownListener => "UnknownListener",
            CoverError::UnknownTag => "UnknownTag",
            CoverError::NoTag => "NoTag",
            CoverError::NoMemory => "NoMemory",
        }
    }
}

impl From<AllocError> for CoverError {
    ghost from_gives = { λ _ e. e ≡ NoMemory };

    fn from(_error: AllocError) -> CoverError {
        CoverError::NoMemory
    }
}

impl<T: Drop> From<AllocFailed<T>> for CoverError {
    ghost from_gives = { λ _ e. e ≡ NoMemory };

    fn from(_error: AllocFailed<T>) -> CoverError {
        CoverError::NoMemory
    }
}
