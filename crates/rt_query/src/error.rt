// Why a call on a draft is refused.
ghost use Rattle.std.specs.Prelude.{◌≡◌};
ghost use Rattle.rt_query.specs.Errors.{code_of, name_of};
ghost use Rattle.rt_query.specs.declared.error.QueryError.TheVariants.{NoMemory};

use std::alloc::AllocError;
use thiserror::Error;

/// Why a call on a draft is refused.
#[derive(Clone, Copy, Debug, PartialEq, Eq, Error)]
pub enum QueryError {
    /// An order was named before.
    #[error("an order is named already")]
    OrderTwice,
    /// A start was set before.
    #[error("there is a start already")]
    StartTwice,
    /// An end was set before.
    #[error("there is an end already")]
    EndTwice,
    /// A limit was set before.
    #[error("there is a limit already")]
    LimitTwice,
    /// A limit of no rows.
    #[error("a limit must be at least 1")]
    LimitZero,
    /// In key order, a bound with another value than a text.
    #[error("in key order a bound must be a text")]
    NeedsText,
    /// In key order, a bound with a key beside its text.
    #[error("in key order a bound has no key besides")]
    KeyNotAllowed,
    /// A bound before an order.
    #[error("an order must be named before a bound")]
    NoOrder,
    /// The key of a bound is no key.
    #[error("the key of a bound is no key")]
    BadBoundKey,
    /// A growth was refused.
    #[error("out of memory")]
    NoMemory,
}

impl QueryError {
    /// The number of the error, from 1 to 10.
    pub fn code(&self) -> u8
        ensures { result ≡ code_of self.now }
    {
        match self {
            QueryError::OrderTwice => 1,
            QueryError::StartTwice => 2,
            QueryError::EndTwice => 3,
            QueryError::LimitTwice => 4,
            QueryError::LimitZero => 5,
            QueryError::NeedsText => 6,
            QueryError::KeyNotAllowed => 7,
            QueryError::NoOrder => 8,
            QueryError::BadBoundKey => 9,
            QueryError::NoMemory => 10,
        }
    }

    /// The name of the error, as it is printed.
    pub fn name(&self) -> &'static str
        ensures { result.now ≡ name_of self.now }
    {
        match self {
            QueryError::OrderTwice => "OrderTwice",
            QueryError::StartTwice => "StartTwice",
            QueryError::EndTwice => "EndTwice",
            QueryError::LimitTwice => "LimitTwice",
            QueryError::LimitZero => "LimitZero",
            QueryError::NeedsText => "NeedsText",
            QueryError::KeyNotAllowed => "KeyNotAllowed",
            QueryError::NoOrder => "NoOrder",
            QueryError::BadBoundKey => "BadBoundKey",
            QueryError::NoMemory => "NoMemory",
        }
    }
}

impl From<AllocError> for QueryError {
    ghost from_gives = { λ _ e. e ≡ NoMemory };

    fn from(_error: AllocError) -> QueryError {
        QueryError::NoMemory
    }
}
