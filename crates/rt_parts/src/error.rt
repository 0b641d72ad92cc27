// Why nothing is shown.
ghost use Rattle.std.specs.Prelude.{◌≡◌};
ghost use Rattle.rt_parts.specs.Errors.{code_of, name_of};

use std::alloc::AllocError;
use thiserror::Error;

/// Why a call does not say what a listener's view shows.
#[derive(Clone, Copy, Debug, PartialEq, Eq, Error)]
pub enum ShownError {
    /// No listener of that number is registered.
    #[error("no such listener")]
    NoListener,
    /// This call lacked memory.
    #[error("out of memory")]
    NoMemory,
}

impl ShownError {
    /// The number of the error, from 1 to 2.
    pub fn code(&self) -> u8
        ensures { result ≡ code_of self.now }
    {
        match self {
            ShownError::NoListener => 1,
            ShownError::NoMemory => 2,
        }
    }

    /// The name of the error.
    pub fn name(&self) -> &'static str
        ensures { result.now ≡ name_of self.now }
    {
        match self {
            ShownError::NoListener => "NoListener",
            ShownError::NoMemory => "NoMemory",
        }
    }
}

impl From<AllocError> for ShownError {
    ghost use Rattle.std.specs.Prelude.{◌≡◌};
    ghost use Rattle.rt_parts.specs.declared.error.ShownError.TheVariants.{NoMemory};

    ghost from_gives = { λ _ e. e ≡ NoMemory };

    fn from(_e: AllocError) -> ShownError {
        ShownError::NoMemory
    }
}
