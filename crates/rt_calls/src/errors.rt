// All refusals of a library, in the order of their numbers: number, name and text of each. Of a core
// that a client stands on there is one.
use crate::fault::{Fault, Told};
use crate::line::Line;
use rt_client::ClientError;
use rt_cover::CoverError;
use rt_mail::MailError;
use rt_peer::PeerError;
use rt_push::PushError;
use rt_query::QueryError;
use rt_store::StoreError;
use rt_tree::TreeError;
use rt_view::ViewError;
use rt_wire::WireError;
use rt_world::CoreError;
use rt_writes::WriteError;
use std::fmt::Display;

fn tell(code: u8, name: &str, error: &impl Display, line: &mut Line) {
    line.display(&code);
    line.say(" ");
    line.say(name);
    line.say(": ");
    line.display(error);
    line.say("; ");
}

macro_rules! tell_all {
    ($line:expr, $kind:ident { $($name:ident)* }) => {
        tell_all!($line, [$($kind::$name),*])
    };
    ($line:expr, $errors:expr) => {
        for error in $errors {
            tell(error.code(), error.name(), &error, $line);
        }
    };
}

pub(crate) fn call(line: &mut Line) -> Told {
    match line.next() {
        "client" => {
            tell_all!(line, ClientError { Failed WrongSeat MailboxFull TooManySeats });
            tell_all!(
                line,
                [ClientError::Core(CoreError::TooDeep), ClientError::NoMemory]
            );
        }
        "core" => tell_all!(line, CoreError {
            Failed UnknownListener TooManyListeners TooManyRequests Overlap EmptyUpdate TooDeep
            BadPush AlreadyConnected NotConnected NoMemory
        }),
        "cover" => tell_all!(line, CoverError { UnknownListener UnknownTag NoTag NoMemory }),
        "mail" => tell_all!(line, MailError { Failed NoMemory }),
        "peer" => tell_all!(line, PeerError { Failed UnknownConnection NoMemory }),
        "push" => tell_all!(line, PushError { Exhausted MomentTooLarge RandomOutOfRange }),
        "query" => tell_all!(line, QueryError {
            OrderTwice StartTwice EndTwice LimitTwice LimitZero NeedsText KeyNotAllowed NoOrder
            BadBoundKey NoMemory
        }),
        "store" => tell_all!(line, StoreError { TooDeep NoMemory }),
        "tree" => tell_all!(line, TreeError {
            BadKey KeyTooLong TooDeep NotWhole TextTooLong TooManyNodes NotJson NoMemory
        }),
        "view" => tell_all!(line, ViewError { Failed NoMemory }),
        "wire" => tell_all!(line, WireError { NotJson UnknownKind BadField BadTree NoMemory }),
        "writes" => tell_all!(line, WriteError { Overlap EmptyUpdate NoMemory }),
        _ => return Err(Fault::NoSuchCall),
    }
    Ok(())
}
