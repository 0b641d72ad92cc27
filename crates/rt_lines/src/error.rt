// Why a line is not read, or not done.
ghost use Rattle.std.specs.Prelude.{◌≡◌, ℕ, List, false, true, option_map, IfOk, OnOk};
ghost use Rattle.serde_json.specs.View.{view as data_of};
ghost use Rattle.rt_lines.specs.Refusals.{code_of, layer_of, line_code, line_name, name_of, of_query};
ghost use Rattle.rt_lines.specs.declared.error.LineError.TheVariants.{NoMemory};
ghost use Rattle.rt_lines.specs.Bad.{IsNote, Tells, fault_line, fault_text, form_among, form_text};
ghost use Rattle.rt_lines.specs.Bad.{formless_text, refusal_of_bytes, rows_of, typed_refusal, why_line};
ghost use Rattle.rt_lines.specs.Lines.{data_of_bytes};
ghost use Rattle.rt_lines.specs.Typing.{typed_of_bytes};
ghost use Rattle.rt_lines.specs.inside.Appending.{Appends};

use crate::line::{Line, has_mark, value_of};
use crate::order::Typed;
use crate::words::parts_of;
use rt_input::Log;
use rt_push::PushError;
use rt_query::QueryError;
use rt_tree::TreeError;
use rt_wire::WireError;
use rt_world::CoreError;
use serde_json::Value;
use std::alloc::{AllocError, AllocFailed, Global};
use std::fmt::Write;
use thiserror::Error;

/// Why what a line of a form asks for is refused, by the layer that refuses it.
#[derive(Clone, Copy, Debug, PartialEq, Eq, Error)]
pub enum Refusal {
    /// A path, a value or the value of a bound.
    #[error("{0}")]
    Tree(TreeError),
    /// A call of a query.
    #[error("{0}")]
    Query(QueryError),
    /// A text of the server.
    #[error("{0}")]
    Wire(WireError),
    /// A step, or a look at the core.
    #[error("{0}")]
    Core(CoreError),
    /// A push id.
    #[error("{0}")]
    Push(PushError),
}

/// Why a line is not read.
#[derive(Clone, Copy, Debug, PartialEq, Eq, Error)]
pub enum LineError {
    /// It has none of the forms.
    #[error("a line of no form")]
    Bad,
    /// One of its words is refused.
    #[error("a word of the line is refused: {0}")]
    Refused(Refusal),
    /// A growth was refused.
    #[error("out of memory")]
    NoMemory,
}

impl Refusal {
    /// The layer that refuses.
    pub fn layer(&self) -> &'static str
        ensures { result.now ≡ layer_of self.now }
    {
        match self {
            Refusal::Tree(_) => "tree",
            Refusal::Query(_) => "query",
            Refusal::Wire(_) => "wire",
            Refusal::Core(_) => "core",
            Refusal::Push(_) => "push",
        }
    }

    /// The number of the refusal, within its layer.
    pub fn code(&self) -> u8
        ensures { result ≡ code_of self.now }
    {
        match self {
            Refusal::Tree(error) => error.code(),
            Refusal::Query(error) => error.code(),
            Refusal::Wire(error) => error.code(),
            Refusal::Core(error) => error.code(),
            Refusal::Push(error) => error.code(),
        }
    }

    /// The name of the refusal, within its layer.
    pub fn name(&self) -> &'static str
        ensures { result.now ≡ name_of self.now }
    {
        match self {
            Refusal::Tree(error) => error.name(),
            Refusal::Query(error) => error.name(),
            Refusal::Wire(error) => error.name(),
            Refusal::Core(error) => error.name(),
            Refusal::Push(error) => error.name(),
        }
    }
}

impl LineError {
    /// The number of the error, from 1 to 3. That of a refusal is its own.
    pub fn code(&self) -> u8
        ensures { result ≡ line_code self.now }
    {
        match self {
            LineError::Bad => 1,
            LineError::Refused(_) => 2,
            LineError::NoMemory => 3,
        }
    }

    /// The name of the error.
    pub fn name(&self) -> &'static str
        ensures { result.now ≡ line_name self.now }
    {
        match self {
            LineError::Bad => "Bad",
            LineError::Refused(_) => "Refused",
            LineError::NoMemory => "NoMemory",
        }
    }
}

impl From<AllocError> for LineError {
    ghost from_gives = { λ _ e. e ≡ NoMemory };

    fn from(_error: AllocError) -> LineError {
        LineError::NoMemory
    }
}

impl<T: Drop> From<AllocFailed<T>> for LineError {
    ghost from_gives = { λ _ e. e ≡ NoMemory };

    fn from(_error: AllocFailed<T>) -> LineError {
        LineError::NoMemory
    }
}

impl From<QueryError> for LineError {
    ghost from_gives = { λ error made. made ≡ of_query error };

    fn from(error: QueryError) -> LineError {
        match error {
            QueryError::OrderTwice
            | QueryError::StartTwice
            | QueryError::EndTwice
            | QueryError::LimitTwice
            | QueryError::LimitZero
            | QueryError::NeedsText
            | QueryError::KeyNotAllowed
            | QueryError::NoOrder
            | QueryError::BadBoundKey => LineError::Refused(Refusal::Query(error)),
            QueryError::NoMemory => LineError::NoMemory,
        }
    }
}

// ---- what is told of a line beside its output: what is wrong with it

/// The lines that a command takes, as they are told of.
#[derive(Clone, Copy)]
pub struct LinesTaken {
    /// All words that they begin with.
    pub words: &'static str,
    /// Each of these words, and the form of its lines.
    pub forms: &'static [(&'static str, &'static str)],
}

// The form of the lines that begin with a word.
fn form_among(forms: &'static [(&'static str, &'static str)], word: &str) -> Option<&'static str>
    ensures { option_map (λ form. form.now) result ≡ form_among word.now (rows_of forms.now) }
{
    for row in forms {
        if row.0 == word {
            return Some(row.1);
        }
    }
    None
}

// Says which form a line hasn't whose first word is that, or that there is no such word.
fn write_form(out: &mut String, taken: &LinesTaken, word: &str) -> Result<(), AllocError>
    ensures { OnOk result (Appends out.old out.new (form_text taken.now word.now)) }
{
    match form_among(taken.forms, word) {
        Some(form) => write!(out, " is no {word}: {form}"),
        None => write!(out, " begins with none of the words {}", taken.words),
    }
}

// Says what is wrong with JSON that is no line.
fn write_formless(out: &mut String, taken: &LinesTaken, value: &Value) -> Result<(), AllocError>
    ensures { OnOk result (Appends out.old out.new (formless_text taken.now (data_of value.now))) }
{
    match parts_of(value) {
        Some((word, _)) => write_form(out, taken, word),
        None => out.push_str(" is no array that begins with a word"),
    }
}

// The JSON value of bytes, where they are JSON.
fn value_in(alloc: Global, bytes: &[u8]) -> Result<Option<Value>, AllocError>
    ensures { IfOk result (λ value. option_map data_of value ≡ data_of_bytes bytes.now) }
{
    match value_of(alloc, bytes) {
        Ok(value) => Ok(Some(value)),
        Err(LineError::Bad) => Ok(None),
        Err(LineError::NoMemory) => Err(AllocError),
        Err(LineError::Refused(_)) => unreachable!(),
    }
}

// Says what is wrong with what was found in a line.
fn write_found(
    out: &mut String,
    taken: &LinesTaken,
    value: &Option<Value>,
) -> Result<(), AllocError>
    ensures { OnOk result (Appends out.old out.new
        (fault_text taken.now (option_map data_of value.now))) }
{
    match value {
        Some(value) => write_formless(out, taken, value),
        None => out.push_str(" is no JSON"),
    }
}

// Says what is wrong with the line of that number, which has none of the forms.
fn write_fault(
    out: &mut String,
    alloc: Global,
    taken: &LinesTaken,
    number: u64,
    bytes: &[u8],
) -> Result<(), AllocError>
    ensures { OnOk result (Appends out.old out.new
        (fault_line taken.now number (data_of_bytes bytes.now))) }
{
    let value = value_in(alloc, bytes)?;
    write!(out, "line {number}")?;
    write_found(out, taken, &value)
}

// Why a word of a line that is no script's is refused, if one is.
fn typed_refusal(alloc: Global, bytes: &[u8]) -> Result<Option<Refusal>, AllocError>
    ensures { IfOk result (λ why. why ≡ typed_refusal (typed_of_bytes bytes.now)) }
{
    match Typed::read(alloc, bytes) {
        Err(LineError::Refused(why)) => Ok(Some(why)),
        Ok(_) | Err(LineError::Bad) => Ok(None),
        Err(LineError::NoMemory) => Err(AllocError),
    }
}

// Why a word of a line is refused, if one is.
fn refusal_of(alloc: Global, bytes: &[u8]) -> Result<Option<Refusal>, AllocError>
    ensures { IfOk result (λ why. why ≡ refusal_of_bytes bytes.now) }
{
    match Line::read(alloc, bytes) {
        Err(LineError::Refused(why)) => Ok(Some(why)),
        Err(LineError::Bad) => typed_refusal(alloc, bytes),
        Ok(_) => Ok(None),
        Err(LineError::NoMemory) => Err(AllocError),
    }
}

// Says why a word of the line of that number is refused.
fn write_why(
    out: &mut String,
    alloc: Global,
    number: u64,
    refusal: Refusal,
) -> Result<(), AllocError>
    ensures { OnOk result ((words : List ℕ) × Appends out.old out.new (why_line number words)) }
{
    let why = format!(in alloc; "{refusal}")?;
    write!(out, "line {number} is refused: {why}")
}

// Says what is to be told of a line that has one of the forms: why a word of it is refused, or that it begins
// with a byte order mark.
fn write_note(out: &mut String, alloc: Global, number: u64, bytes: &[u8]) -> Result<(), AllocError>
    ensures { OnOk result ((text : List ℕ) × Appends out.old out.new text
        × IsNote (refusal_of_bytes bytes.now) number bytes.now text) }
{
    match refusal_of(alloc, bytes)? {
        Some(why) => write_why(out, alloc, number, why),
        None if has_mark(bytes) => {
            write!(
                out,
                "line {number} begins with a byte order mark, which is passed over"
            )
        }
        None => Ok(()),
    }
}

// Says what is to be told of the line of that number, which has one of the forms or not.
fn write_told(
    out: &mut String,
    alloc: Global,
    taken: &LinesTaken,
    number: u64,
    bytes: &[u8],
    is_good: bool,
) -> Result<(), AllocError>
    ensures bad { OnOk result (is_good ≡ false → Appends out.old out.new
        (fault_line taken.now number (data_of_bytes bytes.now))) }
    ensures good { OnOk result (is_good ≡ true → (text : List ℕ) × Appends out.old out.new text
        × IsNote (refusal_of_bytes bytes.now) number bytes.now text) }
{
    if is_good {
        write_note(out, alloc, number, bytes)
    } else {
        write_fault(out, alloc, taken, number, bytes)
    }
}

// Tells a line, and nothing where it has no byte.
fn tell_some<L: Log>(line: &str, log: &mut L)
    ensures on { L.is_on log.new ≡ L.is_on log.old }
    ensures told { L.is_on log.old ≡ true → L.has_lost log.new ≡ false
        → Tells (L.told log.old) (L.told log.new) line.now }
{
    if !line.is_empty() {
        log.tell(line);
    }
}

/// Tells of the line of that number, which has one of the forms that are taken or not. Where it has none it is
/// told which form its word has, all words where it has none of them, or that it is no JSON. Else it is told
/// why a word of it is refused, in the words of the error, or that it begins with a byte order mark.
pub fn say_line<L: Log>(
    alloc: Global,
    taken: &LinesTaken,
    number: u64,
    bytes: &[u8],
    is_good: bool,
    log: &mut L,
) -> Result<(), AllocError>
    ensures on { L.is_on log.new ≡ L.is_on log.old }
    ensures off { L.is_on log.old ≡ false → log.new ≡ log.old }
    ensures bad { OnOk result (is_good ≡ false → L.is_on log.old ≡ true → L.has_lost log.new ≡ false
        → Tells (L.told log.old) (L.told log.new)
        (fault_line taken.now number (data_of_bytes bytes.now))) }
    ensures good { OnOk result (is_good ≡ true → L.is_on log.old ≡ true → L.has_lost log.new ≡ false
        → (text : List ℕ) × IsNote (refusal_of_bytes bytes.now) number bytes.now text
        × Tells (L.told log.old) (L.told log.new) text) }
{
    if !log.is_on() {
        return Ok(());
    }
    let mut line = String::new(alloc);
    write_told(&mut line, alloc, taken, number, bytes, is_good)?;
    tell_some(line.as_str(), log);
    Ok(())
}
