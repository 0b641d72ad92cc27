// Who keeps what was accepted.
ghost use Rattle.std.specs.Prelude.{◌≡◌, None, Some, OnOk};
ghost use Rattle.std.specs.Option.{option_and_then, option_map};
ghost use Rattle.rt_journal.specs.Due.{next_at};
ghost use Rattle.rt_journal.specs.Journals.{appended};
ghost use Rattle.rt_emulate.specs.declared.settings.Halt.TheVariants.{Unkept};
ghost use Rattle.rt_emulate.specs.inside.Keeping.{fault_by, note_all, note_end, note_text, note_turn};
ghost use Rattle.rt_emulate.specs.inside.Keeping.{noted_of};

use crate::diary::{self, Diary};
use crate::fault::EmulateFault;
use crate::settings::Halt;
use rt_hub::{Accepted, When};
use rt_journal::{Journal, JournalFault, Noted, Notice};
use rt_tree::Tree;
use std::fs::File;
use std::random::RandomSource;
use std::rt::Files;
use std::thread::Threads;

/// Keeps what was accepted, in the journal of the tree's file, where there is a file.
pub(crate) struct Keeper {
    journal: Option<Journal>,
    // Why it can't be kept any more.
    fault: Option<JournalFault>,
}

impl Drop for Keeper {
    fn drop(self) {
        let Keeper {
            journal: _,
            fault: _,
        } = self;
    }
}

// What kind of request is noted.
fn noted(when: When) -> Noted
    ensures { result ≡ noted_of when }
{
    match when {
        When::Now => Noted::Write,
        When::AtEnd => Noted::AtEnd,
    }
}

// Notes these requests of the connection.
fn note_each(journal: &mut Journal, connection: u64, all: &[Accepted]) -> Result<(), Halt>
    ensures { OnOk result (journal.new ≡ note_all connection all.now journal.old) }
{
    for one in all {
        journal.note(connection, noted(one.when), one.text.as_str())?;
    }
    Ok(())
}

/// Says what is to be said of the tree's file.
pub(crate) fn say(journal: &Journal, notice: Option<Notice>, log: &mut Diary) {
    if let Some(notice) = notice {
        diary::of_file(log, journal.line(notice));
    }
}

impl Keeper {
    pub(crate) fn new(journal: Option<Journal>) -> Keeper
        ensures { result ≡ record { journal = journal; fault = None } }
    {
        Keeper {
            journal,
            fault: None,
        }
    }

    /// Notes these requests of the connection, which were accepted.
    pub(crate) fn note(&mut self, connection: u64, all: &[Accepted]) -> Result<(), Halt>
        ensures { OnOk result
            (self.new.journal ≡ option_map (note_all connection all.now) self.old.journal) }
    {
        match &mut self.journal {
            Some(journal) => note_each(journal, connection, all),
            None => Ok(()),
        }
    }

    /// Notes a request of the connection, which was accepted.
    pub(crate) fn note_one(&mut self, connection: u64, when: When, text: &str) -> Result<(), Halt>
        ensures { OnOk result (self.new.journal
            ≡ option_map (note_text connection when text.now) self.old.journal) }
    {
        match &mut self.journal {
            Some(journal) => Ok(journal.note(connection, noted(when), text)?),
            None => Ok(()),
        }
    }

    /// Notes that the connection ended.
    pub(crate) fn note_end(&mut self, connection: u64) -> Result<(), Halt>
        ensures { OnOk result
            (self.new.journal ≡ option_map (note_end connection) self.old.journal) }
    {
        match &mut self.journal {
            Some(journal) => Ok(journal.note_end(connection)?),
            None => Ok(()),
        }
    }

    /// Notes a turn of the connection's end, in which so many of its requests were done and which is not the
    /// last.
    pub(crate) fn note_turn(&mut self, connection: u64, count: usize) -> Result<(), Halt>
        ensures { OnOk result
            (self.new.journal ≡ option_map (note_turn connection count) self.old.journal) }
    {
        match &mut self.journal {
            Some(journal) => Ok(journal.note_turn(connection, count)?),
            None => Ok(()),
        }
    }

    // Keeps why it can't be kept any more.
    fn fail(&mut self, fault: JournalFault) -> Halt
        ensures halt { result ≡ Unkept }
        ensures kept { self.new ≡ record (self.old) { fault = Some fault } }
    {
        self.fault = Some(fault);
        Halt::Unkept
    }

    /// What is noted stands in the journal from now on.
    pub(crate) fn append(&mut self) -> Result<(), Halt>
        ensures { OnOk result
            (self.new.journal ≡ option_map appended self.old.journal) }
    {
        let Some(journal) = &mut self.journal else {
            return Ok(());
        };
        match journal.append() {
            Ok(()) => Ok(()),
            Err(fault) => Err(self.fail(fault)),
        }
    }

    /// Makes the file anew, of that tree, as far as that is due.
    pub(crate) fn turn<R, Y>(&mut self, rt: &R, system: &Y, tree: &Tree, now: u64, log: &mut Diary)
    where
        R: Threads,
        Y: Files<File = File> + RandomSource,
    {
        if let Some(journal) = &mut self.journal {
            let notice = journal.turn(rt, system, tree, now);
            say(journal, notice, log);
        }
    }

    /// When its next turn is to come; none where nothing is due.
    pub(crate) fn next_at(&self, now: u64) -> Option<u64>
        ensures { result ≡ option_and_then (λ j. next_at j.standing now) self.now.journal }
    {
        match &self.journal {
            Some(journal) => journal.next_at(now),
            None => None,
        }
    }

    /// The file is that tree from now on, and its journal goes.
    pub(crate) fn close<R, Y>(
        &mut self,
        rt: &R,
        system: &Y,
        tree: &Tree,
        log: &mut Diary,
    ) -> Result<(), Halt>
    where
        R: Threads,
        Y: Files<File = File> + RandomSource,
    {
        let Some(journal) = &mut self.journal else {
            return Ok(());
        };
        match journal.close(rt, system, tree) {
            Ok(notice) => {
                say(journal, notice, log);
                Ok(())
            }
            Err(fault) => Err(self.fail(fault)),
        }
    }

    /// Why turns ended early, as it is said.
    pub(crate) fn fault_of(&mut self, halt: Halt) -> EmulateFault
        ensures fault { result ≡ fault_by halt self.old.fault }
        ensures taken { self.new ≡ record (self.old) { fault = None } }
    {
        match (halt, self.fault.take()) {
            (Halt::Unkept, Some(fault)) => EmulateFault::from(fault),
            (Halt::Unkept, None) | (Halt::NoMemory, _) => EmulateFault::NoMemory,
        }
    }
}
