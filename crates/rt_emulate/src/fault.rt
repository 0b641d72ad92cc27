// Why an emulator ends early, or does not begin.
ghost use Rattle.std.specs.Prelude.{◌≡◌};
ghost use Rattle.rt_emulate.specs.Faults.{code_of, name_of, of_journal};
ghost use Rattle.rt_emulate.specs.declared.fault.EmulateFault.TheVariants.{NoMemory};

use rt_journal::JournalFault;
use std::alloc::{AllocError, AllocFailed};
use std::{fmt, io};
use thiserror::Error;

/// Why an emulator ends early, or does not begin.
#[derive(Error)]
pub enum EmulateFault {
    #[error("port {port} can't be bound: {why}")]
    NotBound { port: u16, why: io::Error },
    #[error("connections can't be waited for: {0}")]
    NotWaited(io::Error),
    #[error("{0}")]
    NotKept(JournalFault),
    #[error("out of memory")]
    NoMemory,
    #[error("the folder {folder} can't be served: {why}")]
    NotServed { folder: String, why: io::Error },
}

impl Drop for EmulateFault {
    fn drop(self) {
        match self {
            EmulateFault::NotBound { port: _, why: _ }
            | EmulateFault::NotWaited(_)
            | EmulateFault::NotKept(_)
            | EmulateFault::NoMemory
            | EmulateFault::NotServed { folder: _, why: _ } => {}
        }
    }
}

impl fmt::Debug for EmulateFault {
    fn fmt<W: fmt::Write>(&self, f: &mut fmt::Formatter<W>) -> fmt::Result {
        f.write_str(self.name())
    }
}

impl EmulateFault {
    /// The number of the fault, from 1 to 5.
    pub fn code(&self) -> u8
        ensures { result ≡ code_of self.now }
    {
        match self {
            EmulateFault::NotBound { .. } => 1,
            EmulateFault::NotWaited(_) => 2,
            EmulateFault::NotKept(_) => 3,
            EmulateFault::NoMemory => 4,
            EmulateFault::NotServed { .. } => 5,
        }
    }

    /// The name of the fault.
    pub fn name(&self) -> &'static str
        ensures { result.now ≡ name_of self.now }
    {
        match self {
            EmulateFault::NotBound { .. } => "NotBound",
            EmulateFault::NotWaited(_) => "NotWaited",
            EmulateFault::NotKept(_) => "NotKept",
            EmulateFault::NoMemory => "NoMemory",
            EmulateFault::NotServed { .. } => "NotServed",
        }
    }
}

impl From<AllocError> for EmulateFault {
    ghost from_gives = { λ _ e. e ≡ NoMemory };

    fn from(_error: AllocError) -> EmulateFault {
        EmulateFault::NoMemory
    }
}

impl<T: Drop> From<AllocFailed<T>> for EmulateFault {
    ghost from_gives = { λ _ e. e ≡ NoMemory };

    fn from(_error: AllocFailed<T>) -> EmulateFault {
        EmulateFault::NoMemory
    }
}

impl From<JournalFault> for EmulateFault {
    ghost from_gives = { λ fault e. e ≡ of_journal fault };

    fn from(fault: JournalFault) -> EmulateFault {
        match &fault {
            JournalFault::NoMemory => EmulateFault::NoMemory,
            JournalFault::Locked { .. }
            | JournalFault::Unread { .. }
            | JournalFault::NoTree { .. }
            | JournalFault::BadLine { .. }
            | JournalFault::Unwritten { .. } => EmulateFault::NotKept(fault),
        }
    }
}
