// Messages of the client: what the pieces of a text are read as, written again.
use crate::fault::{Fault, Told};
use crate::line::Line;
use rt_wire::{ClientMessage, WireError};
use std::alloc::Global;

fn written(alloc: Global, text: &str) -> Result<String, WireError> {
    let message = ClientMessage::read(alloc, text)?;
    let again = message.text(alloc);
    drop(message);
    Ok(again?)
}

// `read PIECES`.
pub(crate) fn call(line: &mut Line) -> Told {
    if line.next() != "read" {
        return Err(Fault::NoSuchCall);
    }
    let text = line.pieces();
    match written(line.alloc, text.as_str()) {
        Ok(again) => line.say(again.as_str()),
        Err(WireError::NoMemory) => return Err(Fault::NoMemory),
        Err(error) => line.say(error.name()),
    }
    Ok(())
}
