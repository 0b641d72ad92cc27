// A line of calls: its words, one space between two, and what they stand for; and all that is said.
use crate::fault::{Fault, Told};
use rt_lines::{Line as ScriptLine, LineError};
use rt_query::Query;
use rt_tree::{Key, Path, Tree};
use rt_world::Step;
use std::alloc::{AllocError, Global};
use std::fmt::{Debug, Display};
use std::num::ParseIntError;
use std::str::FromStr;

// Where a word stands in its line. It has no borrow of the line, since a borrow that a value holds is
// dear to prove wherever the value is passed on.
#[derive(Clone, Copy, Drop)]
pub(crate) struct Word {
    from: usize,
    to: usize,
}

// A line, whose words are read one after another, and what was said of this one and of those before
// it. The room of both is taken before the first call, so that reading and printing take no memory
// of their own.
//
// Where a word stands for nothing, or memory lacks for what it stands for, the line fails: what is
// read of it may be empty from then on, and nothing more is said of it. So a call that changes
// something asks first for what it was given.
#[derive(Drop)]
pub(crate) struct Line {
    pub(crate) alloc: Global,
    text: String,
    from: usize,
    said: String,
    fault: Option<Fault>,
    pub(crate) is_quiet: bool,
}

const ROOM: usize = 1 << 20;

// What words of a line stand for.
pub(crate) trait FromLine: Drop + Sized {
    fn from_line(line: &mut Line) -> Self;
}

impl FromLine for u64 {
    fn from_line(line: &mut Line) -> u64 {
        line.number()
    }
}

impl FromLine for usize {
    fn from_line(line: &mut Line) -> usize {
        line.number()
    }
}

// A path, as `/a/b`.
impl FromLine for Path {
    fn from_line(line: &mut Line) -> Path {
        let word = line.word();
        line.path_of(word)
    }
}

// The tree of JSON data.
impl FromLine for Tree {
    fn from_line(line: &mut Line) -> Tree {
        let word = line.word();
        line.tree_of(word)
    }
}

// A step, as the line of a script that asks for it, without spaces.
impl FromLine for Step {
    fn from_line(line: &mut Line) -> Step {
        let word = line.word();
        match line.step_of(word) {
            Ok(step) => step,
            Err(error) => {
                line.fail(error.into());
                Step::Disconnected
            }
        }
    }
}

impl Line {
    // An empty line, with room for one of so many bytes, and nothing said yet.
    pub(crate) fn new(alloc: Global, room: usize) -> Result<Line, AllocError> {
        Ok(Line {
            alloc,
            text: String::with_capacity(alloc, room)?,
            from: 0,
            said: String::with_capacity(alloc, ROOM)?,
            fault: None,
            is_quiet: false,
        })
    }

    // The next line.
    pub(crate) fn begin(&mut self, line: &str) {
        self.fault = None;
        self.from = 0;
        self.text.clear();
        if self.text.push_str(line).is_err() {
            self.fail(Fault::NoMemory);
        }
    }

    // ---- whether it is sound

    // Fails, unless it has failed before; that memory was lacking counts above all.
    pub(crate) fn fail(&mut self, fault: Fault) {
        match fault {
            Fault::NoSuchCall => self.fault = self.fault.or(Some(fault)),
            Fault::NoMemory | Fault::Lost | Fault::Failed => self.fault = Some(fault),
        }
    }

    // Why it has failed, if it has.
    pub(crate) fn sound(&self) -> Told {
        match self.fault {
            Some(fault) => Err(fault),
            None => Ok(()),
        }
    }

    // A value that was read, unless the line has failed.
    pub(crate) fn given<T: Drop>(&self, value: T) -> Result<T, Fault> {
        self.sound()?;
        Ok(value)
    }

    // Why it has failed, if it has. What is said from then on is said.
    pub(crate) fn end(&mut self) -> Told {
        let answer = self.sound();
        self.fault = None;
        answer
    }

    // ---- its words

    // Whether all words are read.
    pub(crate) fn is_empty(&self) -> bool {
        self.len() == 0
    }

    // How many bytes are not read yet: no fewer than there are words.
    pub(crate) fn len(&self) -> usize {
        self.text.len().saturating_sub(self.from)
    }

    // The text of a word.
    pub(crate) fn at(&self, word: Word) -> &str {
        self.text.as_str().get(word.from..word.to).unwrap_or("")
    }

    // Where the next word stands; behind the last there is none.
    pub(crate) fn word(&mut self) -> Word {
        if self.is_empty() {
            self.fail(Fault::NoSuchCall);
        }
        let (from, to) = (self.from, self.text.len());
        let rest = self.at(Word { from, to });
        let (front, back) = rest.split_once(' ').unwrap_or((rest, ""));
        let word = Word {
            from,
            to: from.saturating_add(front.len()),
        };
        self.from = to.saturating_sub(back.len());
        word
    }

    // The next word.
    pub(crate) fn next(&mut self) -> &str {
        let word = self.word();
        self.at(word)
    }

    // What the next words stand for.
    pub(crate) fn read<T: FromLine>(&mut self) -> T {
        T::from_line(self)
    }

    // What all words to the end stand for.
    pub(crate) fn all<T: FromLine>(&mut self) -> Vec<T> {
        let mut values = Vec::new(self.alloc);
        for _ in 0..self.len() {
            if self.is_empty() {
                break;
            }
            if values.push(T::from_line(self)).is_err() {
                self.fail(Fault::NoMemory);
            }
        }
        values
    }

    // A number of that type; 0 where the word is none.
    pub(crate) fn number<T: FromStr<Err = ParseIntError> + Default>(&mut self) -> T {
        let word = self.word();
        match self.at(word).parse() {
            Ok(number) => number,
            Err(_) => {
                self.fail(Fault::NoSuchCall);
                T::default()
            }
        }
    }

    // The path of a word.
    pub(crate) fn path_of(&mut self, word: Word) -> Path {
        match Path::parse(self.alloc, self.at(word)) {
            Ok(path) => path,
            Err(error) => {
                self.fail(error.into());
                Path::root(self.alloc)
            }
        }
    }

    // A key.
    pub(crate) fn key(&mut self) -> Result<Key, Fault> {
        let word = self.word();
        Ok(Key::parse(self.alloc, self.at(word))?)
    }

    // The tree of a word.
    pub(crate) fn tree_of(&mut self, word: Word) -> Tree {
        match Tree::read(self.alloc, self.at(word)) {
            Ok(tree) => tree,
            Err(error) => {
                self.fail(error.into());
                Tree::null()
            }
        }
    }

    // A path, and the tree that stands or is to stand there.
    pub(crate) fn entry(&mut self) -> (Path, Tree) {
        (self.read(), self.read())
    }

    // The step of a word that is a line of a script.
    fn step_of(&mut self, word: Word) -> Result<Step, LineError> {
        match ScriptLine::read(self.alloc, self.at(word).as_bytes())? {
            ScriptLine::Step(step) => Ok(step),
            ScriptLine::Out | ScriptLine::Cover => Err(LineError::Bad),
            ScriptLine::View(_) | ScriptLine::Push { .. } => Err(LineError::Bad),
        }
    }

    // A query: a path, or the line of a script that listens with it.
    pub(crate) fn query(&mut self) -> Query {
        let word = self.word();
        if !self.at(word).starts_with('[') {
            return Query::at(self.path_of(word)).done();
        }
        match self.step_of(word) {
            Ok(Step::Listen { query, .. }) => return query,
            Ok(_) => self.fail(Fault::NoSuchCall),
            Err(error) => self.fail(error.into()),
        }
        Query::at(Path::root(self.alloc)).done()
    }

    // The text of pieces: a word, and each that follows as many times as the number before it.
    pub(crate) fn pieces(&mut self) -> String {
        let mut text = String::new(self.alloc);
        let first = self.word();
        self.add_times(&mut text, first, 1);
        for _ in 0..self.len() {
            if self.is_empty() {
                break;
            }
            let count = self.number();
            let piece = self.word();
            self.add_times(&mut text, piece, count);
        }
        text
    }

    fn add_times(&mut self, text: &mut String, word: Word, count: u64) {
        for _ in 0..count {
            if text.push_str(self.at(word)).is_err() {
                self.fail(Fault::NoMemory);
            }
        }
    }

    // ---- what is said

    // Says a text, unless it is quiet. Past a room of 2^20 bytes it takes no more, and the row differs.
    pub(crate) fn say(&mut self, text: &str) {
        if self.fault.is_none() && !self.is_quiet {
            let _ = self.said.push_str(text);
        }
    }

    // Says the name of a refusal, which is all that is answered.
    pub(crate) fn refused(&mut self, name: &str) -> Told {
        self.say(name);
        Ok(())
    }

    // All that was said.
    pub(crate) fn said(&self) -> &str {
        self.said.as_str()
    }

    // Says a made text. One that lacked memory is made once more by the caller; where the line has
    // failed, all of it is.
    pub(crate) fn made(&mut self, made: Result<String, AllocError>) -> bool {
        match made {
            Ok(text) => {
                self.say(text.as_str());
                true
            }
            Err(_) => {
                if self.fault.is_some() {
                    self.fail(Fault::NoMemory);
                }
                self.say("NoMemory\n");
                false
            }
        }
    }

    // Says the JSON text of a tree.
    pub(crate) fn say_tree(&mut self, tree: &Tree) {
        let _ = self.made(tree.text(self.alloc)) || self.made(tree.text(self.alloc));
    }

    // Says what a value is displayed as.
    pub(crate) fn display(&mut self, value: &impl Display) {
        let alloc = self.alloc;
        let _ = self.made(format!(in alloc; "{value}")) || self.made(format!(in alloc; "{value}"));
    }

    // Says numbers, truth values, and what is made of them.
    pub(crate) fn debug(&mut self, value: impl Debug + Drop) {
        let alloc = self.alloc;
        let _ = self.made(format!(in alloc; "{value:?}"))
            || self.made(format!(in alloc; "{value:?}"));
    }
}
