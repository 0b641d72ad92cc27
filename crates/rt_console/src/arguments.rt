// The words that the program is given.
ghost use Rattle.std.specs.Prelude.{◌≡◌, ◌⊎◌, string_bytes, IfOk, IfErr, OnOk};
ghost use Rattle.std.specs.Str.{IsUtf8};
ghost use Rattle.rt_console.specs.Errors.{argument_status};
ghost use Rattle.rt_console.specs.declared.arguments.ArgumentError.TheVariants.{NoMemory};

use std::alloc::{AllocError, AllocFailed, Global};
use std::env::{Env, FillError};
use thiserror::Error;

// The most bytes of a word, with the zero byte behind it: as many as Linux hands to a program.
const MOST_BYTES: usize = 131_072;

/// Why the words can't be had. Words are counted from 1, behind the program's name.
#[derive(Clone, Copy, Debug, PartialEq, Eq, Error)]
pub(crate) enum ArgumentError {
    #[error("word {number} of the command line is not UTF-8")]
    NotUtf8 { number: usize },
    #[error("word {number} of the command line has more than 131071 bytes")]
    TooLong { number: usize },
    #[error("out of memory")]
    NoMemory,
}

impl ArgumentError {
    /// The exit status: 2 for a word that makes no command.
    pub(crate) fn status(&self) -> u8
        ensures { result ≡ argument_status self.now }
    {
        match self {
            ArgumentError::NotUtf8 { .. } | ArgumentError::TooLong { .. } => 2,
            ArgumentError::NoMemory => 1,
        }
    }
}

impl From<AllocError> for ArgumentError {
    ghost from_gives = { λ _ e. e ≡ NoMemory };

    fn from(_error: AllocError) -> ArgumentError {
        ArgumentError::NoMemory
    }
}

impl<T: Drop> From<AllocFailed<T>> for ArgumentError {
    ghost from_gives = { λ _ e. e ≡ NoMemory };

    fn from(_error: AllocFailed<T>) -> ArgumentError {
        ArgumentError::NoMemory
    }
}

// The text that the bytes of the word of that number are.
fn text_of(alloc: Global, number: usize, bytes: &[u8]) -> Result<String, ArgumentError>
    ensures text { IfOk result (λ text. string_bytes text ≡ bytes.now) }
    ensures utf8 { OnOk result (IsUtf8 bytes.now) }
    ensures fault { IfErr result (λ e.
        (e ≡ ArgumentError.NoMemory)
        ⊎ ((e ≡ ArgumentError.NotUtf8 number) × (IsUtf8 bytes.now → ⊥))) }
{
    match std::str::from_utf8(bytes) {
        Ok(text) => {
            let text = String::from_str(alloc, text)?;
            Ok(text)
        }
        Err(_) => Err(ArgumentError::NotUtf8 { number }),
    }
}

/// The words behind the program's name.
pub(crate) fn words_of<R: Env>(rt: &R, alloc: Global) -> Result<Vec<String>, ArgumentError> {
    let mut bytes = vec![in alloc; 0u8; MOST_BYTES]?;
    let mut words = Vec::new(alloc);
    for number in 1..usize::MAX {
        match rt.arg(number, bytes.as_mut_slice()) {
            Ok(len) => {
                let word = text_of(alloc, number, &bytes[..len])?;
                words.push(word)?;
            }
            Err(FillError::NotPresent) => break,
            Err(FillError::TooLong) => return Err(ArgumentError::TooLong { number }),
        }
    }
    Ok(words)
}
