// Why a message is refused.
ghost use Rattle.std.specs.Prelude.{◌≡◌};
ghost use Rattle.rt_wire.specs.Errors.{code_of, name_of};
ghost use Rattle.rt_wire.specs.declared.error.WireError.TheVariants.{NoMemory};

use std::alloc::{AllocError, AllocFailed};
use thiserror::Error;

/// Why a text is no message of that side.
#[derive(Clone, Copy, Debug, PartialEq, Eq, Error)]
pub enum WireError {
    /// The text is not JSON, or nests deeper than 127 levels.
    #[error("the text is not JSON")]
    NotJson,
    /// It is no object, or its `k` is none of that side's kinds.
    #[error("the message is of no kind that this side sends")]
    UnknownKind,
    /// A member of that kind is missing, or isn't as the kind has it; the trees apart.
    #[error("a member of the message is missing or not as its kind has it")]
    BadField,
    /// A `value`, or a value of `entries`, is refused as a tree.
    #[error("a value of the message is no tree")]
    BadTree,
    /// A growth was refused.
    #[error("out of memory")]
    NoMemory,
}

impl WireError {
    /// The number of the error, from 1 to 5.
    pub fn code(&self) -> u8
        ensures { result ≡ code_of self.now }
    {
        match self {
            WireError::NotJson => 1,
            WireError::UnknownKind => 2,
            WireError::BadField => 3,
            WireError::BadTree => 4,
            WireError::NoMemory => 5,
        }
    }

    /// The name of the error, as it is printed.
    pub fn name(&self) -> &'static str
        ensures { result.now ≡ name_of self.now }
    {
        match self {
            WireError::NotJson => "NotJson",
            WireError::UnknownKind => "UnknownKind",
            WireError::BadField => "BadField",
            WireError::BadTree => "BadTree",
            WireError::NoMemory => "NoMemory",
        }
    }
}

impl From<AllocError> for WireError {
    ghost from_gives = { λ _ e. e ≡ NoMemory };

    fn from(_error: AllocError) -> WireError {
        WireError::NoMemory
    }
}

impl<T: Drop> From<AllocFailed<T>> for WireError {
    ghost from_gives = { λ _ e. e ≡ NoMemory };

    fn from(_error: AllocFailed<T>) -> WireError {
        WireError::NoMemory
    }
}
