// A tree's file, and the journal beside it.
ghost use Rattle.std.specs.Prelude.{◌≡◌, ◌||◌, ◌&&◌, [], None, Some, false, true, not};
ghost use Rattle.std.specs.Prelude.{if◌then◌else◌, is_some, nat_lt, IfOk, OnOk, string_bytes};
ghost use Rattle.std.specs.Option.{option_map_or};
ghost use Rattle.rt_tree.specs.PathTree.{is_null};
ghost use Rattle.rt_journal.specs.Books.{is_resting, new_book, with_end, with_request, with_turn};
ghost use Rattle.rt_journal.specs.Due.{due_after, is_due, next_at, postponed};
ghost use Rattle.rt_journal.specs.Journals.{KeepsNotes, appended, notice_text};
ghost use Rattle.rt_journal.specs.declared.fault.Notice.TheVariants.{TornLine};
ghost use Rattle.rt_journal.specs.inside.Places.{names_in};

use crate::book::{Book, Noted, Replayed};
use crate::fault::{JournalFault, Notice, line_of};
use crate::file::{
    FileStamp, Gone, Making, POLL_MS, TreeFiles, due_after, made_beside, may_make, plain_at,
    read_file, resolved, stamp_at, sync_folder, take_leavings, write_tree,
};
use crate::log::{begin_log, leave_none, log_of, replay_log};
use rt_tree::Tree;
use std::alloc::{AllocError, AllocGlobal, Global};
use std::fs::{self, File};
use std::io::{self, ErrorKind, Write};
use std::marker::Model;
use std::random::RandomSource;
use std::rt::Files;
use std::thread::Threads;

// What the numbers of a journal are.
#[derive(Clone, Copy)]
struct Standing {
    // What the file was when it was read or made; none where there was none.
    stamp: Option<FileStamp>,
    // When the file is made anew next, where the tree is not the file's, in milliseconds.
    due_at: u64,
    // Whether each line is on the disk before anybody hears of it.
    is_synced: bool,
    // Whether the tree is not the file's.
    is_changed: bool,
    // Whether another program changed the file.
    is_foreign: bool,
}

/// A tree's file, and the journal beside it.
///
/// A contract sees what is noted and not written yet, what is to be done at the end of connections, the names
/// of the files, and what stands of the tree's file.
pub struct Journal {
    alloc: Global,
    place: TreeFiles,
    log: File,
    book: Book,
    // What was written to the journal since a copy of the tree was taken for the file that is being made.
    since: Vec<u8>,
    standing: Standing,
    // The name of the new file that was made last.
    made: String,
    // What was replaced since the last file was begun.
    gone: Gone,
    making: Option<Making>,
}

impl Drop for Journal {
    fn drop(self) {
        let Journal {
            alloc: _,
            place: _,
            log: _,
            book: _,
            since: _,
            standing: _,
            made: _,
            gone: _,
            making: _,
        } = self;
    }
}

impl Model for Journal {
    ghost use Rattle.std.specs.Prelude.{is_some};
    ghost use Rattle.std.specs.Option.{option_map_or};
    ghost use Rattle.rt_journal.specs.Journals.{Journal};
    ghost use Rattle.rt_journal.specs.inside.Places.{names_in};

    ghost Value = { Journal };

    ghost view = { λ a. record {
      book = a.book;
      names = names_in a.place;
      standing = record {
        bytes = option_map_or (λ s. s.length) a.standing.stamp 0;
        is_making = is_some a.making;
        is_changed = a.standing.is_changed;
        is_foreign = a.standing.is_foreign;
        due_at = a.standing.due_at;
      };
    } };
}

/// A journal that was opened.
pub struct Opened {
    pub journal: Journal,
    /// The tree of the file and the journal.
    pub tree: Tree,
    /// What is to be said of it.
    pub notice: Option<Notice>,
}

impl Drop for Opened {
    fn drop(self) {
        let Opened {
            journal: _,
            tree: _,
            notice: _,
        } = self;
    }
}

impl Opened {
    /// The journal, the tree, and what is to be said.
    pub fn into_parts(self) -> (Journal, Tree, Option<Notice>)
        ensures { result ≡ (self.journal, self.tree, self.notice) }
    {
        let Opened {
            journal,
            tree,
            notice,
        } = self;
        (journal, tree, notice)
    }
}

// Where the file of that name stands.
fn placed<Y: Files>(system: &Y, alloc: Global, file: String) -> Result<TreeFiles, JournalFault> {
    match resolved(system, alloc, file.as_str()) {
        Ok(name) => Ok(TreeFiles::of(alloc, name)?),
        Err(why) => Err(JournalFault::unread(alloc, file.as_str(), why)),
    }
}

// Makes ready to keep the file, once the journal is had: what an earlier run left goes, and a new file can be
// made.
fn prepare<Y: Files<File = File> + RandomSource + AllocGlobal>(
    system: &Y,
    alloc: Global,
    file: &str,
) -> Result<(), JournalFault> {
    take_leavings(system, file);
    match may_make(system, alloc, file) {
        Ok(()) => Ok(()),
        Err(why) => Err(JournalFault::unwritten(alloc, file, why)),
    }
}

// The tree of the file and its journal, what the file was when it was read, and how many bytes of the journal
// stand in whole lines.
fn read_all<Y: Files<File = File> + RandomSource + AllocGlobal>(
    system: &Y,
    alloc: Global,
    place: &TreeFiles,
    log: &mut File,
    first: Tree,
) -> Result<(Replayed, Option<FileStamp>, u64), JournalFault> {
    prepare(system, alloc, place.file.as_str())?;
    let (tree, stamp) = read_file(system, alloc, place.file.as_str(), first)?;
    let (replayed, length) = replay_log(alloc, log, place.log.as_str(), tree)?;
    Ok((replayed, stamp, length))
}

// What the numbers of a journal are that was opened: so many bytes of it stand in whole lines.
fn standing_of(stamp: Option<FileStamp>, length: u64, is_synced: bool, tree: &Tree) -> Standing
    ensures { result ≡ record {
      stamp = stamp;
      due_at = option_map_or (λ s. due_after 0 s.length) stamp 0;
      is_synced = is_synced;
      is_changed = nat_lt 0 length || (not (is_some stamp) && not (is_null tree.now));
      is_foreign = false;
    } }
{
    let due_at = match stamp {
        Some(stamp) => due_after(0, stamp.length),
        None => 0,
    };
    Standing {
        stamp,
        due_at,
        is_synced,
        is_changed: length > 0 || (stamp.is_none() && !tree.is_null()),
        is_foreign: false,
    }
}

impl Journal {
    // The journal whose file was read: so many bytes of it stand in whole lines. A torn line is cut off, and
    // the ends that stand in no line are written.
    fn of(
        alloc: Global,
        place: TreeFiles,
        log: File,
        length: u64,
        standing: Standing,
        replayed: &Replayed,
    ) -> Result<Journal, JournalFault>
        ensures book { IfOk result (λ journal. journal.book ≡ new_book) }
        ensures names { IfOk result (λ journal. journal.names ≡ names_in place) }
        ensures begun { IfOk result (λ journal. (journal.standing.is_making ≡ false)
            × (journal.standing.is_foreign ≡ standing.is_foreign)) }
    {
        if replayed.torn > 0 {
            if let Err(why) = log.set_len(length) {
                return Err(JournalFault::unwritten(alloc, place.log.as_str(), why));
            }
        }
        let mut book = Book::new(alloc);
        book.note_left(replayed.left.as_slice())?;
        let mut journal = Journal {
            alloc,
            place,
            log,
            book,
            since: Vec::new(alloc),
            standing,
            made: String::new(alloc),
            gone: Gone::none(),
            making: None,
        };
        journal.append()?;
        Ok(journal)
    }

    /// Reads the file and its journal, which no other emulator has from here on: `first` is the tree where
    /// there is no file yet. A link leads to the file, and stays a link. A torn last line of the journal is
    /// cut off, and the connections that are left in it have ended.
    ///
    /// # Errors
    ///
    /// `Locked` where another emulator has the file, `Unread` and `NoTree` where the file can't be read or
    /// has no tree, `BadLine` where the journal has a line that is none, `Unwritten` where the file or its
    /// journal can't be written, each with the file's name; `NoMemory` where memory is lacking.
    pub fn open<Y: Files<File = File> + RandomSource + AllocGlobal>(
        system: &Y,
        file: String,
        first: Tree,
        is_synced: bool,
    ) -> Result<Opened, JournalFault>
        ensures book { IfOk result (λ opened. opened.journal.book ≡ new_book) }
        ensures begun { IfOk result (λ opened. (opened.journal.standing.is_making ≡ false)
            × (opened.journal.standing.is_foreign ≡ false)) }
    {
        let alloc = system.alloc();
        let place = placed(system, alloc, file)?;
        let mut log = log_of(system, alloc, &place, is_synced)?;
        let (replayed, stamp, length) = match read_all(system, alloc, &place, &mut log, first) {
            Ok(read) => read,
            Err(why) => {
                leave_none(system, &log, place.log.as_str());
                return Err(why);
            }
        };
        let standing = standing_of(stamp, length, is_synced, &replayed.tree);
        let journal = Journal::of(alloc, place, log, length, standing, &replayed)?;
        Ok(with_notice(journal, replayed))
    }

    /// An accepted request of a connection is noted, as it came. Where memory is lacking, the journal is not
    /// to be used any more.
    pub fn note(&mut self, connection: u64, noted: Noted, text: &str) -> Result<(), AllocError>
        ensures { OnOk result (self.new ≡ record (self.old) {
          book = with_request self.old.book connection noted text.now;
        }) }
    {
        self.book.note(connection, noted, text)
    }

    /// So many requests were done of those that a connection had for its end, the first of them, and its end
    /// goes on: that is noted where something was to be done then. Until [`Journal::note_end`] no new file is
    /// begun. Where memory is lacking, the journal is not to be used any more.
    pub fn note_turn(&mut self, connection: u64, count: usize) -> Result<(), AllocError>
        ensures { OnOk result (self.new ≡ record (self.old) {
          book = with_turn self.old.book connection count;
        }) }
    {
        self.book.note_turn(connection, count)
    }

    /// A connection ended: that is noted where something was to be done at its end. Where memory is lacking,
    /// the journal is not to be used any more.
    pub fn note_end(&mut self, connection: u64) -> Result<(), AllocError>
        ensures { OnOk result (self.new ≡ record (self.old) {
          book = with_end self.old.book connection;
        }) }
    {
        self.book.note_end(connection)
    }

    // Writes what is noted.
    fn write_lines(&mut self) -> io::Result<()>
        ensures { OnOk result (self.new ≡ record (self.old) {
          book = record (self.old.book) { lines = [] };
          standing = record (self.old.standing) { is_changed = true };
        }) }
    {
        let lines = self.book.lines();
        if self.making.is_some() {
            self.since.extend_from_slice(lines)?;
        }
        self.log.write_all(lines)?;
        if self.standing.is_synced {
            self.log.sync_data()?;
        }
        self.standing.is_changed = true;
        self.book.clear();
        Ok(())
    }

    /// Writes what is noted to the journal: from here on it outlives a kill, and where lines are synced a
    /// failure of the machine too. Nothing is written where nothing is noted.
    ///
    /// # Errors
    ///
    /// `Unwritten` where the journal can't be written: nobody may hear that what is noted was done.
    /// `NoMemory` where memory is lacking.
    pub fn append(&mut self) -> Result<(), JournalFault>
        ensures { OnOk result (self.new ≡ appended self.old) }
    {
        if self.book.is_empty() {
            return Ok(());
        }
        match self.write_lines() {
            Ok(()) => Ok(()),
            Err(why) => Err(JournalFault::unwritten(self.alloc, self.place.log.as_str(), why)),
        }
    }

    /// When [`Journal::turn`] is to be called next, if it is so late now, in milliseconds since the start;
    /// none where nothing of it is due.
    pub fn next_at(&self, now: u64) -> Option<u64>
        ensures { result ≡ next_at self.now.standing now }
    {
        if self.making.is_some() {
            Some(now.saturating_add(POLL_MS))
        } else if self.standing.is_changed && !self.standing.is_foreign {
            Some(self.standing.due_at)
        } else {
            None
        }
    }

    /// The line of a notice.
    ///
    /// # Errors
    ///
    /// Where memory is lacking.
    pub fn line(&self, notice: Notice) -> Result<String, AllocError>
        ensures { IfOk result (λ line. string_bytes line ≡ notice_text notice self.now.names) }
    {
        line_of(self.alloc, notice, &self.place)
    }

    // Whether the file is to be made anew: not while a connection's end is under way, since a journal that is
    // begun anew can't say what of that is done.
    fn is_due(&self, now: u64) -> bool
        ensures { result ≡ (is_due self.now.standing now && is_resting self.now.book) }
    {
        let standing = self.standing;
        standing.is_changed
            && !standing.is_foreign
            && standing.due_at <= now
            && self.book.is_resting()
    }

    // The file is made anew only after a pause.
    fn postpone(&mut self, now: u64)
        ensures { self.new ≡ record (self.old) { standing = postponed self.old.standing now } }
    {
        let file = match self.standing.stamp {
            Some(stamp) => stamp.length,
            None => 0,
        };
        self.standing.due_at = due_after(now, file);
    }

    // Makes a new file beside the file, with its rights and its owner, and keeps its name.
    fn make<Y: Files<File = File> + RandomSource>(&mut self, system: &Y) -> io::Result<File>
        ensures kept { KeepsNotes self.old self.new }
    {
        let file = self.place.file.as_str();
        let like = plain_at(system, file)?;
        let (made, name) = made_beside(system, self.alloc, file, like.as_ref())?;
        self.made = name;
        Ok(made)
    }

    // Takes away the new file.
    fn unmake<Y: Files>(&mut self, system: &Y)
        ensures { self.new ≡ self.old }
    {
        let _gone = fs::remove_file(system, self.made.as_str());
    }

    // Begins to make the file anew, by a thread that has a copy of the tree.
    fn begin<R: Threads, Y: Files<File = File> + RandomSource>(
        &mut self,
        rt: &R,
        system: &Y,
        tree: &Tree,
    ) -> io::Result<()>
        requires { is_resting self.old.book ≡ true }
        ensures kept { KeepsNotes self.old self.new }
    {
        let anew = self.book.anew()?;
        let file = self.make(system)?;
        let gone = std::mem::replace(&mut self.gone, Gone::none());
        match Making::begin(rt, self.alloc, file, tree, gone, anew) {
            Ok(making) => {
                self.making = Some(making);
                self.since.clear();
                Ok(())
            }
            Err(_) => {
                self.unmake(system);
                Err(io::Error::from(ErrorKind::OutOfMemory))
            }
        }
    }

    // Puts the new file in the file's place, or beside it where another program changed the file. Answers
    // whether it is in its place.
    fn put_in_place<Y: Files<File = File>>(&mut self, system: &Y) -> io::Result<bool>
        ensures kept { KeepsNotes self.old self.new }
    {
        let file = self.place.file.as_str();
        if self.standing.is_foreign || stamp_at(system, file)? != self.standing.stamp {
            fs::rename(system, self.made.as_str(), self.place.new.as_str())?;
            self.standing.is_foreign = true;
            return Ok(false);
        }
        self.gone.file = File::open(system, file).ok();
        fs::rename(system, self.made.as_str(), file)?;
        self.standing.stamp = stamp_at(system, file)?;
        if self.standing.is_synced {
            sync_folder(system, file)?;
        }
        Ok(true)
    }

    // Writes to a new journal with what it begins, and puts it in the journal's place; the one that was there
    // is given back.
    fn fill<Y: Files<File = File>>(
        &mut self,
        system: &Y,
        log: &mut File,
        name: &str,
        anew: &[u8],
    ) -> io::Result<()>
        ensures kept { KeepsNotes self.old self.new }
    {
        begin_log(log, anew, self.since.as_slice(), self.standing.is_synced)?;
        fs::rename(system, name, self.place.log.as_str())?;
        std::mem::swap(&mut self.log, log);
        self.since.clear();
        if self.standing.is_synced {
            sync_folder(system, self.place.log.as_str())?;
        }
        Ok(())
    }

    // The journal begins anew, with what is to be done at the end of connections, and what was written since
    // the copy was taken.
    fn begin_anew<Y: Files<File = File> + RandomSource>(
        &mut self,
        system: &Y,
        anew: &[u8],
    ) -> io::Result<()>
        ensures kept { KeepsNotes self.old self.new }
    {
        let like = self.log.metadata()?;
        let log = self.place.log.as_str();
        let (mut made, name) = made_beside(system, self.alloc, log, Some(&like))?;
        match self.fill(system, &mut made, name.as_str(), anew) {
            Ok(()) => {
                self.gone.log = Some(made);
                Ok(())
            }
            Err(why) => {
                let _gone = fs::remove_file(system, name.as_str());
                Err(why)
            }
        }
    }

    // Puts the file that was written in its place, and begins the journal anew. Answers whether it is in its
    // place.
    fn settle<Y: Files<File = File> + RandomSource>(
        &mut self,
        system: &Y,
        wrote: io::Result<()>,
        anew: &[u8],
    ) -> io::Result<bool>
        ensures kept { KeepsNotes self.old self.new }
    {
        wrote?;
        if !self.put_in_place(system)? {
            return Ok(false);
        }
        self.standing.is_changed = !self.since.is_empty();
        self.begin_anew(system, anew)?;
        Ok(true)
    }

    // Ends the making of a file that its thread is done with.
    fn finish<R: Threads, Y: Files<File = File> + RandomSource>(
        &mut self,
        rt: &R,
        system: &Y,
        making: Making,
        now: u64,
    ) -> Option<Notice>
        ensures kept { KeepsNotes self.old self.new }
    {
        let (wrote, anew) = making.wait(rt);
        let settled = self.settle(system, wrote, anew.as_slice());
        self.postpone(now);
        match settled {
            Ok(true) => None,
            Ok(false) => Some(Notice::Foreign),
            Err(_) => {
                self.unmake(system);
                Some(Notice::NotMade)
            }
        }
    }

    /// Makes the file anew where it is due, if it is so late now, in milliseconds since the start: begins it,
    /// or puts it in its place once it is written. It is written by a thread of its own, from a copy of the
    /// tree, which shares all of it. Answers what is to be said of it.
    pub fn turn<R: Threads, Y: Files<File = File> + RandomSource>(
        &mut self,
        rt: &R,
        system: &Y,
        tree: &Tree,
        now: u64,
    ) -> Option<Notice>
        ensures kept { KeepsNotes self.old self.new }
    {
        match self.making.take() {
            Some(making) if making.is_done() => self.finish(rt, system, making, now),
            Some(making) => {
                self.making = Some(making);
                None
            }
            None => {
                if !self.is_due(now) || self.begin(rt, system, tree).is_ok() {
                    return None;
                }
                self.postpone(now);
                Some(Notice::NotMade)
            }
        }
    }

    // Makes the file anew, and waits for it.
    fn write_last<Y: Files<File = File> + RandomSource>(
        &mut self,
        system: &Y,
        tree: &Tree,
    ) -> io::Result<()>
        ensures kept { KeepsNotes self.old self.new }
    {
        let mut file = self.make(system)?;
        let wrote = write_tree(self.alloc, &mut file, tree);
        let done = match wrote {
            Ok(()) => self.put_in_place(system),
            Err(why) => Err(why),
        };
        match done {
            Ok(_) => Ok(()),
            Err(why) => {
                self.unmake(system);
                Err(why)
            }
        }
    }

    /// Writes the tree to its file, where it isn't the file's, and takes the journal away. Nothing may be
    /// noted and not written. Answers what is to be said of it, if that was not said before.
    ///
    /// # Errors
    ///
    /// `Unwritten` where the file can't be written: the journal stays, and so nothing is lost.
    pub fn close<R: Threads, Y: Files<File = File> + RandomSource>(
        &mut self,
        rt: &R,
        system: &Y,
        tree: &Tree,
    ) -> Result<Option<Notice>, JournalFault>
        ensures kept { KeepsNotes self.old self.new }
    {
        let is_said = self.standing.is_foreign;
        if let Some(making) = self.making.take() {
            let _said_at_the_end = self.finish(rt, system, making, 0);
        }
        if self.standing.is_changed || self.standing.is_foreign {
            if let Err(why) = self.write_last(system, tree) {
                return Err(JournalFault::unwritten(self.alloc, self.place.file.as_str(), why));
            }
        }
        let _gone = fs::remove_file(system, self.place.log.as_str());
        Ok(if self.standing.is_foreign && !is_said {
            Some(Notice::Foreign)
        } else {
            None
        })
    }
}

// A journal with what came of its replay.
fn with_notice(journal: Journal, replayed: Replayed) -> Opened
    ensures journal { result.journal ≡ journal }
    ensures tree { result.tree ≡ replayed.tree }
    ensures notice { result.notice ≡ (if nat_lt 0 replayed.torn then Some TornLine else None) }
{
    let notice = if replayed.torn > 0 {
        Some(Notice::TornLine)
    } else {
        None
    };
    Opened {
        journal,
        tree: replayed.into_tree(),
        notice,
    }
}
