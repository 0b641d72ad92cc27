// A core that lines drive, and what the last line printed.
ghost use Rattle.std.specs.Prelude.{◌≡◌};
ghost use Rattle.rt_foreign.specs.Sessions.{TakesLine, new_session};
ghost use Rattle.rt_foreign.specs.Texts.{Gives};

use crate::status::{BAD_TEXT, DONE, NO_MEMORY, TOO_SMALL};
use rt_script::{State, do_bytes};
use rt_world::Limits;
use std::alloc::Global;
use std::marker::Model;

/// A core and its push ids, how many lines it was given, and what the last of them printed.
#[derive(Drop)]
pub struct Session {
    alloc: Global,
    state: State,
    lines: u64,
    printed: String,
}

impl Model for Session {
    ghost use Rattle.std.specs.Prelude.{string_bytes};
    ghost use Rattle.rt_foreign.specs.Sessions.{Session as Seen};

    ghost Value = { Seen };

    ghost view = { λ s. record {
      state = s.state;
      lines = s.lines;
      printed = string_bytes s.printed;
    } };
}

impl Session {
    /// A new core, which takes all that a core takes.
    pub fn new(alloc: Global) -> Session
        ensures { result ≡ new_session }
    {
        Session {
            alloc,
            state: State::new(alloc, Limits::full()),
            lines: 0,
            printed: String::new(alloc),
        }
    }

    /// Does what a line asks for, and answers how that ends; what it prints is kept.
    pub fn line(&mut self, line: &[u8]) -> u32
        ensures { TakesLine line.now result self.old self.new }
    {
        self.printed.clear();
        self.lines = self.lines.saturating_add(1);
        match do_bytes(
            self.alloc,
            &mut self.state,
            self.lines,
            line,
            &mut self.printed,
        ) {
            Ok(true) => DONE,
            Ok(false) => BAD_TEXT,
            Err(_no_memory) => NO_MEMORY,
        }
    }

    /// Gives what the last line printed.
    pub fn text(&self) -> &str
        ensures { result.now ≡ self.now.printed }
    {
        self.printed.as_str()
    }
}

// ---- texts that C is given

/// Copies a text to the front of its room, where there is enough, and says how long it is.
pub fn give(text: &[u8], out: &mut [u8], len: &mut usize) -> u32
    ensures { Gives text.now out.old result out.new len.new }
{
    *len = text.len();
    if out.len() < text.len() {
        return TOO_SMALL;
    }
    let (front, _rest) = out.split_at_mut(text.len());
    front.copy_from_slice(text);
    DONE
}
