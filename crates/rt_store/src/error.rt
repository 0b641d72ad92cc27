// Why a call is refused.
ghost use Rattle.std.specs.Prelude.{◌≡◌};
ghost use Rattle.rt_store.specs.Errors.{code_of, name_of};
ghost use Rattle.rt_store.specs.declared.error.StoreError.TheVariants.{NoMemory};

use std::alloc::{AllocError, AllocFailed};
use thiserror::Error;

/// Why a store refuses a tree.
#[derive(Clone, Copy, Debug, PartialEq, Eq, Error)]
pub enum StoreError {
    #[error("no value may stand below more than 32 keys")]
    TooDeep,
    #[error("out of memory")]
    NoMemory,
}

impl StoreError {
    /// The number of the error, 1 or 2.
    pub fn code(&self) -> u8
        ensures { result ≡ code_of self.now }
    {
        match self {
            StoreError::TooDeep => 1,
            StoreError::NoMemory => 2,
        }
    }

    /// The name of the error, as it is printed.
    pub fn name(&self) -> &'static str
        ensures { result.now ≡ name_of self.now }
    {
        match self {
            StoreError::TooDeep => "TooDeep",
            StoreError::NoMemory => "NoMemory",
        }
    }
}

impl From<AllocError> for StoreError {
    ghost from_gives = { λ _ e. e ≡ NoMemory };

    fn from(_error: AllocError) -> StoreError {
        StoreError::NoMemory
    }
}

impl<T: Drop> From<AllocFailed<T>> for StoreError {
    ghost from_gives = { λ _ e. e ≡ NoMemory };

    fn from(_error: AllocFailed<T>) -> StoreError {
        StoreError::NoMemory
    }
}
