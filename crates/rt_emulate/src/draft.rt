// A text that is put together piece by piece, unless it gets too long.
ghost use Rattle.std.specs.Prelude.{◌≡◌, [], Some, is_none, option_map, string_bytes, OnOk};
ghost use Rattle.rt_emulate.specs.inside.Rosters.{put_to};

use std::alloc::{AllocError, Global};
use std::marker::Model;

/// How many bytes a text has at most that says who is connected.
pub(crate) const MOST_TOLD: usize = 1_048_576;

/// A text that is put together piece by piece: none any more once it is too long.
pub(crate) struct Draft {
    text: String,
    is_over: bool,
}

impl Drop for Draft {
    fn drop(self) {
        let Draft {
            text: _,
            is_over: _,
        } = self;
    }
}

impl Model for Draft {
    ghost use Rattle.std.specs.Prelude.{◌≡◌, ◌≤◌, false, length, string_bytes, List, ℕ, Option};
    ghost use Rattle.rt_emulate.specs.declared.draft.TheConstants.{MOST_TOLD};
    ghost use Rattle.rt_emulate.specs.inside.Rosters.{held_of};

    ghost Value = { Option (List ℕ) };

    ghost view = { λ d. held_of d.is_over (string_bytes d.text) };

    ghost invariant = { λ d. d.is_over ≡ false → length (string_bytes d.text) ≤ MOST_TOLD };
}

impl Draft {
    /// An empty text. Takes no memory.
    pub(crate) fn new(alloc: Global) -> Draft
        ensures { result ≡ Some [] }
    {
        Draft {
            text: String::new(alloc),
            is_over: false,
        }
    }

    /// Whether it is too long.
    pub(crate) fn is_over(&self) -> bool
        ensures { result ≡ is_none self.now }
    {
        self.is_over
    }

    /// A piece comes behind.
    pub(crate) fn put(&mut self, piece: &str) -> Result<(), AllocError>
        ensures { OnOk result (self.new ≡ put_to piece.now self.old) }
    {
        if self.is_over {
            return Ok(());
        }
        if piece.len() > MOST_TOLD - self.text.len() {
            self.is_over = true;
            return Ok(());
        }
        self.text.push_str(piece)
    }

    /// The text, unless it is too long.
    pub(crate) fn into_text(self) -> Option<String>
        ensures { option_map string_bytes result ≡ self }
    {
        let Draft { text, is_over } = self;
        if is_over { None } else { Some(text) }
    }
}
