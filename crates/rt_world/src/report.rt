// What a step answers.
ghost use Rattle.std.specs.Prelude.{◌≡◌};

use rt_view::Batch;
use rt_wire::Reason;
use std::marker::Model;

/// Whether a step was made, or changed nothing since it came too late.
#[derive(Clone, Copy, Debug, PartialEq, Eq)]
pub enum Outcome {
    Done,
    Stale,
}

/// What a seat is told.
#[derive(Drop)]
pub enum Body {
    /// A request is accepted, or refused for a reason.
    Settled { id: u64, why: Option<Reason> },
    /// A listener has ended, for a reason.
    Cancelled { listener: u64, why: Reason },
    /// The changes of a listener's view.
    Batch(Batch),
}

/// What one seat is told.
#[derive(Drop)]
pub struct Note {
    pub seat: u64,
    pub body: Body,
}

/// What the seats are told of a step: settlements, ended listeners, batches, each by number.
pub struct Notes {
    items: Vec<Note>,
}

impl Drop for Notes {
    fn drop(self) {
        let Notes { items: _ } = self;
    }
}

impl Model for Notes {
    ghost use Rattle.std.specs.Prelude.{List};
    ghost use Rattle.rt_world.specs.declared.report.Note.{Note};

    ghost Value = { List Note };

    ghost view = { λ a. a.items.items };
}

impl Notes {
    /// The notes of the list, as they are.
    pub fn of(items: Vec<Note>) -> Notes
        ensures { result ≡ items.items }
    {
        Notes { items }
    }

    /// The notes, in order.
    pub fn as_slice(&self) -> &[Note]
        ensures { result.now ≡ self.now }
    {
        self.items.as_slice()
    }

    /// The list of the notes.
    pub fn into_vec(self) -> Vec<Note>
        ensures { result.items ≡ self }
    {
        let Notes { items } = self;
        items
    }
}

/// What a step answers: its outcome, the number of the new listener or request, and what the seats
/// are told.
#[derive(Drop)]
pub struct Report {
    pub outcome: Outcome,
    pub given: Option<u64>,
    pub notes: Notes,
}
