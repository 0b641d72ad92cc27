// Why an id is refused.
ghost use Rattle.std.specs.Prelude.{◌≡◌};
ghost use Rattle.rt_push.specs.Errors.{code_of, name_of};

use thiserror::Error;

/// Why no push id is given.
#[derive(Clone, Copy, Debug, PartialEq, Eq, Error)]
pub enum PushError {
    /// The last random part can be counted up no more.
    #[error("the last random part cannot be counted up in its moment")]
    Exhausted,
    /// The moment has no eight digits.
    #[error("a moment must be less than 2^48 milliseconds")]
    MomentTooLarge,
    /// One of the twelve digits is 64 or more.
    #[error("a digit of the random part must be less than 64")]
    RandomOutOfRange,
}

impl PushError {
    /// The number of the error, from 1 to 3.
    pub fn code(&self) -> u8
        ensures { result ≡ code_of self.now }
    {
        match self {
            PushError::Exhausted => 1,
            PushError::MomentTooLarge => 2,
            PushError::RandomOutOfRange => 3,
        }
    }

    /// The name of the error, as it is printed.
    pub fn name(&self) -> &'static str
        ensures { result.now ≡ name_of self.now }
    {
        match self {
            PushError::Exhausted => "Exhausted",
            PushError::MomentTooLarge => "MomentTooLarge",
            PushError::RandomOutOfRange => "RandomOutOfRange",
        }
    }
}
