// Why a run ends early, with its cause.
ghost use Rattle.std.specs.Prelude.{◌≡◌, ◌<◌, ◌↔◌};
ghost use Rattle.rt_input.specs.Errors.{code_of, name_of};
ghost use Rattle.rt_input.specs.declared.fault.ConsoleError.TheVariants.{NoMemory};
ghost use Rattle.rt_input.specs.Causes.{error_of};

use crate::lines::MOST_INPUT;
use crate::stream::{Drain, Reading, Source, Writing};
use std::alloc::{AllocError, AllocFailed};
use std::fmt;
use std::io::{self, Read, Write};
use thiserror::Error;

// ---- why a run ends early

/// Why a run of the console ends early, or does not begin.
#[derive(Clone, Copy, Debug, PartialEq, Eq, Error)]
pub enum ConsoleError {
    #[error("the input can't be read, or has more than 67108864 bytes")]
    ReadFault,
    #[error("the output can't be written")]
    WriteFault,
    #[error("the words of the command line make no command")]
    BadWords,
    #[error("out of memory")]
    NoMemory,
}

impl ConsoleError {
    /// The number of the error, from 1 to 4.
    pub fn code(&self) -> u8
        ensures { result ≡ code_of self.now }
    {
        match self {
            ConsoleError::ReadFault => 1,
            ConsoleError::WriteFault => 2,
            ConsoleError::BadWords => 3,
            ConsoleError::NoMemory => 4,
        }
    }

    /// The name of the error.
    pub fn name(&self) -> &'static str
        ensures { result.now ≡ name_of self.now }
    {
        match self {
            ConsoleError::ReadFault => "ReadFault",
            ConsoleError::WriteFault => "WriteFault",
            ConsoleError::BadWords => "BadWords",
            ConsoleError::NoMemory => "NoMemory",
        }
    }
}

impl From<AllocError> for ConsoleError {
    ghost from_gives = { λ _ e. e ≡ NoMemory };

    fn from(_error: AllocError) -> ConsoleError {
        ConsoleError::NoMemory
    }
}

impl<T: Drop> From<AllocFailed<T>> for ConsoleError {
    ghost from_gives = { λ _ e. e ≡ NoMemory };

    fn from(_error: AllocFailed<T>) -> ConsoleError {
        ConsoleError::NoMemory
    }
}

// ---- why a run ends early, with its cause

/// A [`ConsoleError`] with why it came, as it is told to a person.
#[derive(Drop, Error)]
pub enum Fault {
    /// A read failed, and what the system says of it.
    #[error("the input can't be read: {0}")]
    Unread(io::Error),
    /// There was more input than is taken.
    #[error("the input has more than {MOST_INPUT} bytes")]
    TooLong,
    /// A write failed, and what the system says of it.
    #[error("the output can't be written: {0}")]
    Unwritten(io::Error),
    #[error("the words of the command line make no command")]
    BadWords,
    #[error("out of memory")]
    NoMemory,
}

impl fmt::Debug for Fault {
    // In its words.
    fn fmt<W: fmt::Write>(&self, f: &mut fmt::Formatter<W>) -> fmt::Result {
        fmt::Display::fmt(self, f)
    }
}

impl Fault {
    /// The error of a run that read and wrote by these, with its cause: a read that failed, or else that
    /// there was too much to be read.
    pub fn of<R: Read + Drop, W: Write + Drop>(
        error: ConsoleError,
        reader: Reading<R>,
        writer: Writing<W>,
    ) -> Fault
        requires { error ≡ ConsoleError.WriteFault → 0 < ⟦<Writing<W> as Drain>⟧.failures writer }
        ensures error { error_of result ≡ error }
        ensures too_long { error ≡ ConsoleError.ReadFault
            → ((result ≡ Fault.TooLong) ↔ (⟦<Reading<R> as Source>⟧.failures reader ≡ 0)) }
    {
        match error {
            ConsoleError::ReadFault => match reader.into_cause() {
                Some(why) => Fault::Unread(why),
                None => Fault::TooLong,
            },
            ConsoleError::WriteFault => match writer.into_cause() {
                Some(why) => Fault::Unwritten(why),
                None => unreachable!(),
            },
            ConsoleError::BadWords => Fault::BadWords,
            ConsoleError::NoMemory => Fault::NoMemory,
        }
    }

    // Which error it is.
    fn error(&self) -> ConsoleError
        ensures { result ≡ error_of self.now }
    {
        match self {
            Fault::Unread(_) | Fault::TooLong => ConsoleError::ReadFault,
            Fault::Unwritten(_) => ConsoleError::WriteFault,
            Fault::BadWords => ConsoleError::BadWords,
            Fault::NoMemory => ConsoleError::NoMemory,
        }
    }

    /// The number of the error that it is, from 1 to 4.
    pub fn code(&self) -> u8
        ensures { result ≡ code_of (error_of self.now) }
    {
        self.error().code()
    }

    /// The name of the error that it is.
    pub fn name(&self) -> &'static str
        ensures { result.now ≡ name_of (error_of self.now) }
    {
        self.error().name()
    }
}
