// Why a tree's file is not opened, or not kept.
ghost use Rattle.std.specs.Prelude.{◌≡◌, IfOk, string_bytes};
ghost use Rattle.rt_journal.specs.Faults.{code_of, name_of};
ghost use Rattle.rt_journal.specs.declared.fault.JournalFault.TheVariants.{NoMemory};
ghost use Rattle.rt_journal.specs.Journals.{notice_text};
ghost use Rattle.rt_journal.specs.inside.Places.{names_in};

use crate::file::TreeFiles;
use json::{Reader, Scratch, Token};
use rt_tree::{Key, MAX_KEYS, MAX_TEXT_BYTES, Tree, TreeError};
use serde_json::Value;
use std::alloc::{AllocError, AllocFailed, Global};
use std::{fmt, io};
use thiserror::Error;

/// Why a tree's file is not opened, or not kept.
#[derive(Error)]
pub enum JournalFault {
    #[error("the tree's file {file} is another emulator's")]
    Locked { file: String },
    #[error("the tree's file {file} can't be read: {why}")]
    Unread { file: String, why: io::Error },
    #[error("the tree's file {file} has no tree: {why}")]
    NoTree { file: String, why: Trouble },
    #[error("{file} has a line that is none of a journal")]
    BadLine { file: String },
    #[error("the tree's file {file} can't be written: {why}")]
    Unwritten { file: String, why: io::Error },
    #[error("out of memory")]
    NoMemory,
}

impl Drop for JournalFault {
    fn drop(self) {
        match self {
            JournalFault::Locked { file: _ }
            | JournalFault::Unread { file: _, why: _ }
            | JournalFault::NoTree { file: _, why: _ }
            | JournalFault::BadLine { file: _ }
            | JournalFault::Unwritten { file: _, why: _ }
            | JournalFault::NoMemory => {}
        }
    }
}

impl fmt::Debug for JournalFault {
    fn fmt<W: fmt::Write>(&self, f: &mut fmt::Formatter<W>) -> fmt::Result {
        f.write_str(self.name())
    }
}

impl JournalFault {
    pub(crate) fn locked(alloc: Global, file: &str) -> JournalFault {
        match String::from_str(alloc, file) {
            Ok(file) => JournalFault::Locked { file },
            Err(_) => JournalFault::NoMemory,
        }
    }

    pub(crate) fn unread(alloc: Global, file: &str, why: io::Error) -> JournalFault {
        match String::from_str(alloc, file) {
            Ok(file) => JournalFault::Unread { file, why },
            Err(_) => JournalFault::NoMemory,
        }
    }

    pub(crate) fn no_tree(alloc: Global, file: &str, why: Trouble) -> JournalFault {
        match String::from_str(alloc, file) {
            Ok(file) => JournalFault::NoTree { file, why },
            Err(_) => JournalFault::NoMemory,
        }
    }

    pub(crate) fn bad_line(alloc: Global, file: &str) -> JournalFault {
        match String::from_str(alloc, file) {
            Ok(file) => JournalFault::BadLine { file },
            Err(_) => JournalFault::NoMemory,
        }
    }

    pub(crate) fn unwritten(alloc: Global, file: &str, why: io::Error) -> JournalFault {
        match String::from_str(alloc, file) {
            Ok(file) => JournalFault::Unwritten { file, why },
            Err(_) => JournalFault::NoMemory,
        }
    }

    /// The number of the fault, from 1 to 6.
    pub fn code(&self) -> u8
        ensures { result ≡ code_of self.now }
    {
        match self {
            JournalFault::Locked { .. } => 1,
            JournalFault::Unread { .. } => 2,
            JournalFault::NoTree { .. } => 3,
            JournalFault::BadLine { .. } => 4,
            JournalFault::Unwritten { .. } => 5,
            JournalFault::NoMemory => 6,
        }
    }

    /// The name of the fault.
    pub fn name(&self) -> &'static str
        ensures { result.now ≡ name_of self.now }
    {
        match self {
            JournalFault::Locked { .. } => "Locked",
            JournalFault::Unread { .. } => "Unread",
            JournalFault::NoTree { .. } => "NoTree",
            JournalFault::BadLine { .. } => "BadLine",
            JournalFault::Unwritten { .. } => "Unwritten",
            JournalFault::NoMemory => "NoMemory",
        }
    }
}

impl From<AllocError> for JournalFault {
    ghost from_gives = { λ _ e. e ≡ NoMemory };

    fn from(_error: AllocError) -> JournalFault {
        JournalFault::NoMemory
    }
}

impl<T: Drop> From<AllocFailed<T>> for JournalFault {
    ghost from_gives = { λ _ e. e ≡ NoMemory };

    fn from(_error: AllocFailed<T>) -> JournalFault {
        JournalFault::NoMemory
    }
}

// ---- what is to be said of a tree's file

/// What is to be said of a tree's file, in one line.
#[derive(Clone, Copy, Debug, PartialEq, Eq)]
pub enum Notice {
    /// The journal's last line was torn, and is passed over.
    TornLine,
    /// Another program changed the file: the tree stands beside it.
    Foreign,
    /// The file can't be made anew for now.
    NotMade,
}

/// The line of a notice.
pub(crate) fn line_of(
    alloc: Global,
    notice: Notice,
    place: &TreeFiles,
) -> Result<String, AllocError>
    ensures { IfOk result (λ line. string_bytes line ≡ notice_text notice (names_in place.now)) }
{
    let (file, log, new) = (place.file.as_str(), place.log.as_str(), place.new.as_str());
    match notice {
        Notice::TornLine => format!(in alloc;
            "the last line of {log} was torn, and is passed over"
        ),
        Notice::Foreign => format!(in alloc;
            "the tree's file {file} was changed by another program: the tree stands in {new}"
        ),
        Notice::NotMade => format!(in alloc;
            "the tree's file {file} can't be written for now: what is written stands in {log}"
        ),
    }
}

// ---- why a text stands for no tree, and where: its line, its column, and the path of the value
// No clause says what is found, since no clause says where a reader stands
// (`json::Reader::offset`).

const BYTE_ORDER_MARK: char = '\u{feff}';

// What is wrong with a text.
#[derive(Clone, Copy)]
enum Cause {
    Empty,
    Marked,
    Cut,
    NotJson,
    Tree(TreeError),
}

// What encloses a value: the key of an object's member, or a place in an array.
#[derive(Clone, Copy, Drop)]
enum TextLevel<'a> {
    Member(&'a str),
    Place(usize),
}

// Where something stands in a text: both are counted from 1, the column in bytes.
#[derive(Clone, Copy)]
struct TextSpot {
    line: usize,
    column: usize,
}

/// Why a text stands for no tree, and where. It is written as it is to be read:
/// `line 12, column 9, /users/ann/height: a number must be whole, ..`.
pub struct Trouble {
    cause: Cause,
    // None where it is wrong as a whole.
    spot: Option<TextSpot>,
    path: String,
}

impl Drop for Trouble {
    fn drop(self) {
        let Trouble {
            cause: _,
            spot: _,
            path: _,
        } = self;
    }
}

impl fmt::Display for Cause {
    fn fmt<W: fmt::Write>(&self, f: &mut fmt::Formatter<W>) -> fmt::Result {
        match self {
            Cause::Empty => f.write_str("it is empty"),
            Cause::Marked => f.write_str("it begins with a byte order mark"),
            Cause::Cut => f.write_str("it ends here, within a value"),
            Cause::NotJson => f.write_str("this is no JSON"),
            Cause::Tree(why) => write!(f, "{why}"),
        }
    }
}

impl fmt::Display for Trouble {
    fn fmt<W: fmt::Write>(&self, f: &mut fmt::Formatter<W>) -> fmt::Result {
        if let Some(spot) = self.spot {
            write!(f, "line {}, column {}", spot.line, spot.column)?;
            if !self.path.is_empty() {
                write!(f, ", {}", self.path)?;
            }
            f.write_str(": ")?;
        }
        write!(f, "{}", self.cause)
    }
}

// Where the byte of that number stands.
fn spot_of(text: &str, offset: usize) -> TextSpot {
    let mut spot = TextSpot { line: 1, column: 1 };
    for byte in text.as_bytes().iter().take(offset) {
        if *byte == b'\n' {
            spot = TextSpot {
                line: spot.line.saturating_add(1),
                column: 1,
            };
        } else {
            spot.column = spot.column.saturating_add(1);
        }
    }
    spot
}

// Where the next token begins, from the end of the one in front.
fn begin_of(text: &str, offset: usize) -> usize {
    let mut at = offset;
    for byte in text.as_bytes().iter().skip(offset) {
        if !matches!(*byte, b' ' | b'\t' | b'\r' | b'\n' | b',' | b':') {
            return at;
        }
        at = at.saturating_add(1);
    }
    at
}

// The path of what these levels enclose.
fn path_of(alloc: Global, levels: &[TextLevel<'_>]) -> Result<String, AllocError> {
    let mut path = String::new(alloc);
    for level in levels {
        path.push('/')?;
        match level {
            TextLevel::Member(key) => path.push_str(key)?,
            TextLevel::Place(place) => path.push_str(format!(in alloc; "{place}")?.as_str())?,
        }
    }
    Ok(path)
}

// What a tree refuses of a key.
fn key_fault(alloc: Global, key: &str) -> Result<Option<TreeError>, AllocError> {
    match Key::parse(alloc, key) {
        Ok(_) => Ok(None),
        Err(TreeError::NoMemory) => Err(AllocError),
        Err(why) => Ok(Some(why)),
    }
}

// What a tree refuses of a number, a text or a truth value under so many keys.
fn leaf_fault(
    alloc: Global,
    token: Token<'_>,
    depth: usize,
) -> Result<Option<TreeError>, AllocError> {
    if depth > MAX_KEYS {
        return Ok(Some(TreeError::TooDeep));
    }
    match token {
        Token::String(text) if text.len() > MAX_TEXT_BYTES => Ok(Some(TreeError::TextTooLong)),
        Token::Number(text) => match Tree::read(alloc, text) {
            Ok(_) => Ok(None),
            Err(TreeError::NoMemory) => Err(AllocError),
            Err(why) => Ok(Some(why)),
        },
        _ => Ok(None),
    }
}

// A value of this level has ended: the next one in an array has the next place.
fn pass(levels: &mut [TextLevel<'_>]) {
    if let Some(TextLevel::Place(place)) = levels.last_mut() {
        *place = place.saturating_add(1);
    }
}

// What the token is refused for under these levels, which are those behind it then.
fn take<'a>(
    alloc: Global,
    levels: &mut Vec<TextLevel<'a>>,
    token: Token<'a>,
) -> Result<Option<TreeError>, AllocError> {
    match token {
        Token::BeginObject => levels.push(TextLevel::Member(""))?,
        Token::BeginArray => levels.push(TextLevel::Place(0))?,
        Token::EndObject | Token::EndArray => {
            levels.pop();
            pass(levels);
        }
        Token::Key(key) => {
            levels.pop();
            let fault = key_fault(alloc, key)?;
            if fault.is_none() {
                levels.push(TextLevel::Member(key))?;
            }
            return Ok(fault);
        }
        Token::String(_) | Token::Number(_) | Token::Bool(_) => {
            let fault = leaf_fault(alloc, token, levels.len())?;
            if fault.is_none() {
                pass(levels);
            }
            return Ok(fault);
        }
        Token::Null => pass(levels),
        Token::Bad => {}
    }
    Ok(None)
}

// The first value that a tree refuses; none where each is one of a tree.
fn refused_in(alloc: Global, text: &str) -> Result<Option<Trouble>, AllocError> {
    let mut scratch = Scratch::new(alloc);
    let mut reader = Reader::new(text, &mut scratch)?;
    let mut levels = Vec::new(alloc);
    loop {
        let offset = begin_of(text, reader.offset());
        let Some(token) = reader.next() else {
            return Ok(None);
        };
        if let Some(why) = take(alloc, &mut levels, token)? {
            return Ok(Some(Trouble {
                cause: Cause::Tree(why),
                spot: Some(spot_of(text, offset)),
                path: path_of(alloc, levels.as_slice())?,
            }));
        }
    }
}

// What is wrong with a text that is no JSON.
fn broken_in(alloc: Global, text: &str) -> Result<Trouble, AllocError> {
    let whole = |cause| Trouble {
        cause,
        spot: None,
        path: String::new(alloc),
    };
    if text.trim().is_empty() {
        return Ok(whole(Cause::Empty));
    }
    if text.starts_with(BYTE_ORDER_MARK) {
        return Ok(whole(Cause::Marked));
    }
    match Value::from_str(alloc, text) {
        Ok(_) => Ok(whole(Cause::NotJson)),
        Err(error) if error.is_memory() => Err(AllocError),
        Err(error) => Ok(Trouble {
            cause: if error.is_eof() {
                Cause::Cut
            } else {
                Cause::NotJson
            },
            spot: Some(TextSpot {
                line: error.line(),
                column: error.column().max(1),
            }),
            path: String::new(alloc),
        }),
    }
}

/// Where and why a text stands for no tree, which was refused for this.
pub(crate) fn trouble_in(alloc: Global, text: &str, why: TreeError) -> Result<Trouble, AllocError> {
    match why {
        TreeError::NotJson => broken_in(alloc, text),
        TreeError::NoMemory => Err(AllocError),
        TreeError::BadKey
        | TreeError::KeyTooLong
        | TreeError::TooDeep
        | TreeError::NotWhole
        | TreeError::TextTooLong
        | TreeError::TooManyNodes => match refused_in(alloc, text)? {
            Some(trouble) => Ok(trouble),
            None => Ok(Trouble {
                cause: Cause::Tree(why),
                spot: None,
                path: String::new(alloc),
            }),
        },
    }
}
