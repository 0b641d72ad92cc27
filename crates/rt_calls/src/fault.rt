// Why a line said nothing.
use rt_lines::LineError;
use rt_mail::MailError;
use rt_tree::TreeError;
use rt_wire::WireError;
use std::alloc::{AllocError, AllocFailed};

// Nothing, where what a line asks for is made and said.
pub(crate) type Told = Result<(), Fault>;

// Why a line said nothing.
#[derive(Clone, Copy)]
pub(crate) enum Fault {
    // Memory was lacking, and nothing has changed, or else what was called has failed for good: the line
    // is made once more, and says then which it was.
    NoMemory,
    // Memory was lacking for a part of what the line asks for: all is made anew.
    Lost,
    // What is called has failed for good: all is made anew.
    Failed,
    // There is no such call, or a word of it stands for nothing.
    NoSuchCall,
}

impl From<AllocError> for Fault {
    fn from(_error: AllocError) -> Fault {
        Fault::NoMemory
    }
}

impl<T: Drop> From<AllocFailed<T>> for Fault {
    fn from(_error: AllocFailed<T>) -> Fault {
        Fault::NoMemory
    }
}

// The fault of what is given to a call; what the call itself refuses is said.
impl From<TreeError> for Fault {
    fn from(error: TreeError) -> Fault {
        match error {
            TreeError::NoMemory => Fault::NoMemory,
            _ => Fault::NoSuchCall,
        }
    }
}

// The fault of a message that is given to a call.
impl From<WireError> for Fault {
    fn from(error: WireError) -> Fault {
        match error {
            WireError::NoMemory => Fault::NoMemory,
            _ => Fault::NoSuchCall,
        }
    }
}

// The fault of a line of a script that is given to a call.
impl From<LineError> for Fault {
    fn from(error: LineError) -> Fault {
        match error {
            LineError::NoMemory => Fault::NoMemory,
            LineError::Bad | LineError::Refused(_) => Fault::NoSuchCall,
        }
    }
}

impl From<MailError> for Fault {
    fn from(error: MailError) -> Fault {
        match error {
            MailError::NoMemory => Fault::NoMemory,
            MailError::Failed => Fault::Failed,
        }
    }
}
