// Why a lane or a mirror refuses.
ghost use Rattle.std.specs.Prelude.{◌≡◌};
ghost use Rattle.rt_mail.specs.Errors.{code_of, name_of};
ghost use Rattle.rt_mail.specs.declared.error.MailError.TheVariants.{NoMemory};

use std::alloc::AllocError;
use thiserror::Error;

/// Why a lane or a mirror refuses.
#[derive(Clone, Copy, Debug, PartialEq, Eq, Error)]
pub enum MailError {
    /// It has lacked memory before, and answers nothing else from then on.
    #[error("it has lacked memory before")]
    Failed,
    /// A growth was refused.
    #[error("out of memory")]
    NoMemory,
}

impl MailError {
    /// The number of the error, from 1 to 2.
    pub fn code(&self) -> u8
        ensures { result ≡ code_of self.now }
    {
        match self {
            MailError::Failed => 1,
            MailError::NoMemory => 2,
        }
    }

    /// The name of the error, as it is printed.
    pub fn name(&self) -> &'static str
        ensures { result.now ≡ name_of self.now }
    {
        match self {
            MailError::Failed => "Failed",
            MailError::NoMemory => "NoMemory",
        }
    }
}

impl From<AllocError> for MailError {
    ghost from_gives = { λ _ e. e ≡ NoMemory };

    fn from(_error: AllocError) -> MailError {
        MailError::NoMemory
    }
}
