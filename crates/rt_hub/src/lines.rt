// The lines of connections, by their numbers.
ghost use Rattle.std.specs.Prelude.{◌≡◌, ◌+◌, ◌<◌, ◌≤◌, ◌==◌, ◌∷◌, [], ℕ, false, is_some, length};
ghost use Rattle.std.specs.Prelude.{string_bytes, if◌then◌else◌, Some, None, IfSome, OnOk, drop, IfOk};
ghost use Rattle.std.specs.List.{fold, slice_get};
ghost use Rattle.std.specs.Option.{option_map, option_map_or};
ghost use Rattle.rt_hub.specs.Hubs.{IsSlowest, count_of, first_of, left_line, waits_for};
ghost use Rattle.rt_hub.specs.Lines.{bytes_for, empty_line, line_of, texts_to, told_more, with_text};
ghost use Rattle.rt_hub.specs.Lines.{without_first, bytes_in, over_line, text_of, bytes_in_all, checked};
ghost use Rattle.rt_hub.specs.Lines.{with_texts};
ghost use Rattle.rt_wire.specs.Actions.{entries_of};
ghost use Rattle.rt_hub.specs.Bounded.{grows_too_long, shows_too_long};

use crate::refusal::{Bounds, MAX_TREE_BYTES};
use rt_peer::{Peer, Sent};
use rt_query::Query;
use rt_wire::{Action, ServerMessage, some_stands_too_deep};
use std::alloc::{AllocError, Global};
use std::collections::VecDeque;
use std::marker::Model;

// The lines by number, from 1; none where there is no such connection.
pub(crate) type Lines = Vec<Option<Line>>;

// The place of the line of that number, if there may be one.
fn place_of(lines: &Lines, connection: u64) -> Option<usize>
    ensures here { IfSome result (λ place.
        (place < length lines.now.items) × (connection ≡ place + 1)) }
    ensures none { result ≡ None → line_of lines.now.items connection ≡ None }
    ensures beyond { result ≡ None → 0 < connection → length lines.now.items < connection }
{
    if connection == 0 {
        return None;
    }
    let place = (connection - 1) as usize;
    if place >= lines.len() {
        return None;
    }
    Some(place)
}

// Whether the connection has a line.
pub(crate) fn has_line(lines: &Lines, connection: u64) -> bool
    ensures { result ≡ is_some (line_of lines.now.items connection) }
{
    match place_of(lines, connection) {
        Some(place) => lines[place].is_some(),
        None => false,
    }
}

// How many bytes wait for the connection.
pub(crate) fn bytes_of(lines: &Lines, connection: u64) -> usize
    ensures { result ≡ bytes_for (line_of lines.now.items connection) }
{
    let Some(place) = place_of(lines, connection) else {
        return 0;
    };
    match &lines[place] {
        Some(line) => line.bytes(),
        None => 0,
    }
}

// How many bytes of the connection are elsewhere.
fn count_of(elsewhere: &[usize], connection: u64) -> usize
    ensures { result ≡ count_of elsewhere.now connection }
{
    if connection == 0 {
        return 0;
    }
    match elsewhere.get((connection - 1) as usize) {
        Some(count) => *count,
        None => 0,
    }
}

// How many bytes wait for the connection, here and elsewhere.
fn waits_for(lines: &Lines, elsewhere: &[usize], connection: u64) -> u128
    ensures { result ≡ waits_for lines.now.items elsewhere.now connection }
{
    bytes_of(lines, connection) as u128 + count_of(elsewhere, connection) as u128
}

// Of two connections that for which more bytes wait; the first where as many do.
fn slower(lines: &Lines, elsewhere: &[usize], first: u64, second: u64) -> u64
    ensures first { waits_for lines.now.items elsewhere.now first
        ≤ waits_for lines.now.items elsewhere.now result }
    ensures second { waits_for lines.now.items elsewhere.now second
        ≤ waits_for lines.now.items elsewhere.now result }
{
    if waits_for(lines, elsewhere, first) < waits_for(lines, elsewhere, second) {
        second
    } else {
        first
    }
}

// The number of a connection for which as many bytes wait as for any; 0 where none wait.
#[tactic(auto, using(crate::proofs::Slowest::all_looked))]
pub(crate) fn slowest_of(lines: &Lines, elsewhere: &[usize]) -> u64
    ensures { IsSlowest lines.now.items elsewhere.now result }
{
    let mut slowest = 0;
    let most = lines.len().max(elsewhere.len());
    for place in 0..most {
        slowest = slower(lines, elsewhere, slowest, place as u64 + 1);
    }
    slowest
}

// Whether more came to the connection where as much waited as may.
pub(crate) fn is_over(lines: &Lines, connection: u64) -> bool
    ensures { result ≡ option_map_or (λ l. l.is_over) (line_of lines.now.items connection) false }
{
    let Some(place) = place_of(lines, connection) else {
        return false;
    };
    match &lines[place] {
        Some(line) => line.is_over(),
        None => false,
    }
}

// Takes out what waits for the connection, if it has a line, and the line too where it has ended.
pub(crate) fn leave_line(lines: &mut Lines, alloc: Global, connection: u64, has_ended: bool)
    ensures { (n : ℕ) → line_of lines.new.items n ≡ (if connection == n
        then left_line has_ended (line_of lines.old.items n) else line_of lines.old.items n) }
{
    let Some(place) = place_of(lines, connection) else {
        return;
    };
    if has_ended {
        lines[place] = None;
    } else if let Some(line) = &mut lines[place] {
        *line = Line::new(alloc);
    }
}

// Puts a line in which nothing waits at that number, which is at most one more than there are places.
pub(crate) fn add_line(lines: &mut Lines, alloc: Global, connection: u64) -> Result<(), AllocError>
    requires from { 0 < connection }
    requires next { connection < length lines.old.items + 2 }
    ensures { OnOk result ((n : ℕ) → line_of lines.new.items n
        ≡ (if connection == n then Some empty_line else line_of lines.old.items n)) }
{
    let line = Some(Line::new(alloc));
    match place_of(lines, connection) {
        Some(place) => lines[place] = line,
        None => lines.push(line)?,
    }
    Ok(())
}

// The oldest text that waits for the connection.
pub(crate) fn next_of(lines: &mut Lines, connection: u64) -> Option<String>
    ensures first { option_map string_bytes result ≡ first_of (line_of lines.old.items connection) }
    ensures rest { (n : ℕ) → line_of lines.new.items n
        ≡ (if connection == n then without_first (line_of lines.old.items n) else line_of lines.old.items n) }
{
    let place = place_of(lines, connection)?;
    match &mut lines[place] {
        Some(line) => line.next(),
        None => None,
    }
}

// Something is to be put behind what waits for the connection.
pub(crate) fn check_one(lines: &mut Lines, alloc: Global, bounds: Bounds, connection: u64)
    ensures { (n : ℕ) → line_of lines.new.items n
        ≡ (if connection == n then option_map (told_more bounds) (line_of lines.old.items n)
        else line_of lines.old.items n) }
{
    let Some(place) = place_of(lines, connection) else {
        return;
    };
    if let Some(line) = &mut lines[place] {
        line.check(alloc, bounds);
    }
}

// Puts the text of a message behind what waits for its connection.
pub(crate) fn put_one(lines: &mut Lines, alloc: Global, one: &Sent) -> Result<(), AllocError>
    ensures { OnOk result ((n : ℕ) → line_of lines.new.items n
        ≡ option_map (λ l. fold with_text l (texts_to n (one.now ∷ []))) (line_of lines.old.items n)) }
{
    let Some(place) = place_of(lines, one.to) else {
        return Ok(());
    };
    match &mut lines[place] {
        Some(line) => line.put(alloc, &one.message),
        None => Ok(()),
    }
}

// ---- what waits for one connection

// The texts that wait, oldest first, how many bytes they have, and whether more came where as much waited as
// may.
pub(crate) struct Line {
    waiting: VecDeque<String>,
    bytes: usize,
    is_over: bool,
}

impl Drop for Line {
    fn drop(self) {
        let Line {
            waiting: _,
            bytes: _,
            is_over: _,
        } = self;
    }
}

impl Model for Line {
    ghost use Rattle.std.specs.Prelude.{◌≡◌, map, string_bytes};
    ghost use Rattle.rt_hub.specs.Lines.{Line, bytes_in};

    ghost Value = { Line };

    ghost view = { λ a. record { waiting = map string_bytes a.waiting.items; is_over = a.is_over } };

    ghost invariant = { λ a. a.bytes ≡ bytes_in (map string_bytes a.waiting.items) };
}

impl Line {
    pub(crate) fn new(alloc: Global) -> Line
        ensures { result ≡ empty_line }
    {
        Line {
            waiting: VecDeque::new(alloc),
            bytes: 0,
            is_over: false,
        }
    }

    // A line to which more came where as much waited as may.
    fn over(alloc: Global) -> Line
        ensures { result ≡ over_line }
    {
        Line {
            waiting: VecDeque::new(alloc),
            bytes: 0,
            is_over: true,
        }
    }

    // How many bytes wait.
    pub(crate) fn bytes(&self) -> usize
        ensures { result ≡ bytes_in self.now.waiting }
    {
        self.bytes
    }

    pub(crate) fn is_over(&self) -> bool
        ensures { result ≡ self.now.is_over }
    {
        self.is_over
    }

    // Texts are to come: where as much waits as may, the line is over.
    pub(crate) fn check(&mut self, alloc: Global, bounds: Bounds)
        ensures { self.new ≡ told_more bounds self.old }
    {
        if self.waiting.len() >= bounds.messages || self.bytes >= bounds.bytes {
            *self = Line::over(alloc);
        }
    }

    // Puts the text of a message behind those that wait. Where the line is over, none does.
    pub(crate) fn put(&mut self, alloc: Global, message: &ServerMessage) -> Result<(), AllocError>
        ensures { OnOk result (self.new ≡ with_text self.old (text_of message.now)) }
    {
        if self.is_over {
            return Ok(());
        }
        let text = message.text(alloc)?;
        let Some(bytes) = self.bytes.checked_add(text.len()) else {
            return Err(AllocError);
        };
        self.waiting.push_back(text)?;
        self.bytes = bytes;
        Ok(())
    }

    // The oldest text.
    pub(crate) fn next(&mut self) -> Option<String>
        ensures first { option_map string_bytes result ≡ slice_get self.old.waiting 0 }
        ensures rest { self.new ≡ record (self.old) { waiting = drop 1 self.old.waiting } }
    {
        let text = self.waiting.pop_front()?;
        self.bytes -= text.len();
        Some(text)
    }
}

// ---- trees that are longer than one that is sent

// Whether the action makes the tree too long. Costs by what it writes, and by what stands there.
pub(crate) fn grows_too_long(
    alloc: Global,
    peer: &Peer,
    action: &Action,
) -> Result<bool, AllocError>
    ensures { IfOk result (λ answer. IfSome peer.now (λ p.
        answer ≡ grows_too_long p.tree (entries_of action.now))) }
{
    let entries = action.entries(alloc)?;
    if some_stands_too_deep(&entries) {
        return Ok(false);
    }
    let len = peer.text_len_with(entries.as_slice())?;
    Ok(len > MAX_TREE_BYTES)
}

// Whether the query shows a tree that is too long. Takes no time where the whole tree is not.
pub(crate) fn shows_too_long(peer: &Peer, query: &Query) -> Result<bool, AllocError>
    ensures { IfOk result (λ answer. IfSome peer.now (λ p.
        answer ≡ shows_too_long p.tree query.now)) }
{
    if peer.text_len() <= MAX_TREE_BYTES {
        return Ok(false);
    }
    let shown = peer.seen_len(query)?;
    Ok(shown > MAX_TREE_BYTES)
}

// ---- what waits for all connections

// The lines of connections, and how many bytes wait in all of them.
pub(crate) struct Waiting {
    lines: Lines,
    bytes: usize,
}

impl Drop for Waiting {
    fn drop(self) {
        let Waiting { lines: _, bytes: _ } = self;
    }
}

impl Model for Waiting {
    ghost use Rattle.std.specs.Prelude.{◌≡◌, List, Option};
    ghost use Rattle.rt_hub.specs.Lines.{Line, bytes_in_all};

    ghost Value = { List (Option Line) };

    ghost view = { λ a. a.lines.items };

    ghost invariant = { λ a. a.bytes ≡ bytes_in_all a.lines.items };
}

impl Waiting {
    // There is no connection.
    pub(crate) fn new(alloc: Global) -> Waiting
        ensures { result ≡ [] }
    {
        Waiting {
            lines: Vec::new(alloc),
            bytes: 0,
        }
    }

    // How many bytes wait in all.
    pub(crate) fn bytes(&self) -> usize
        ensures { result ≡ bytes_in_all self.now }
    {
        self.bytes
    }

    // Whether the connection has a line.
    pub(crate) fn has_line(&self, connection: u64) -> bool
        ensures { result ≡ is_some (line_of self.now connection) }
    {
        has_line(&self.lines, connection)
    }

    // Whether more came to the connection where as much waited as may.
    pub(crate) fn is_over(&self, connection: u64) -> bool
        ensures { result ≡ option_map_or (λ l. l.is_over) (line_of self.now connection) false }
    {
        is_over(&self.lines, connection)
    }

    // The number of a connection for which as many bytes wait as for any, here and elsewhere; 0 where none
    // wait.
    pub(crate) fn slowest(&self, elsewhere: &[usize]) -> u64
        ensures { IsSlowest self.now elsewhere.now result }
    {
        slowest_of(&self.lines, elsewhere)
    }

    // Puts a line in which nothing waits at that number, which is at most one more than there are places, and
    // has none.
    pub(crate) fn add_line(&mut self, alloc: Global, connection: u64) -> Result<(), AllocError>
        requires from { 0 < connection }
        requires next { connection < length self.old + 2 }
        requires none { line_of self.old connection ≡ None }
        ensures { OnOk result ((n : ℕ) → line_of self.new n
            ≡ (if connection == n then Some empty_line else line_of self.old n)) }
    {
        if let Ok(()) = add_line(&mut self.lines, alloc, connection) {
            return Ok(());
        }
        // Nothing waits any more, since memory lacked.
        self.lines.clear();
        self.bytes = 0;
        Err(AllocError)
    }

    // Takes out what waits for the connection, if it has a line, and the line too where it has ended.
    pub(crate) fn leave_line(&mut self, alloc: Global, connection: u64, has_ended: bool)
        ensures { (n : ℕ) → line_of self.new n ≡ (if connection == n
            then left_line has_ended (line_of self.old n) else line_of self.old n) }
    {
        let waits = bytes_of(&self.lines, connection);
        leave_line(&mut self.lines, alloc, connection, has_ended);
        self.bytes -= waits;
    }

    // The oldest text that waits for the connection.
    pub(crate) fn next_of(&mut self, connection: u64) -> Option<String>
        ensures first { option_map string_bytes result ≡ first_of (line_of self.old connection) }
        ensures rest { (n : ℕ) → line_of self.new n
            ≡ (if connection == n then without_first (line_of self.old n) else line_of self.old n) }
    {
        let before = bytes_of(&self.lines, connection);
        let text = next_of(&mut self.lines, connection);
        let after = bytes_of(&self.lines, connection);
        self.bytes -= before - after;
        text
    }

    // Something is to be put behind what waits for the connection.
    fn check_one(&mut self, alloc: Global, bounds: Bounds, connection: u64)
        ensures { (n : ℕ) → line_of self.new n
            ≡ (if connection == n then option_map (told_more bounds) (line_of self.old n)
            else line_of self.old n) }
    {
        let had = bytes_of(&self.lines, connection);
        check_one(&mut self.lines, alloc, bounds, connection);
        let has = bytes_of(&self.lines, connection);
        self.bytes -= had - has;
    }

    // These messages are to be put behind what waits for their connections: the lines are over where as much
    // waits as may.
    fn check_all(&mut self, alloc: Global, bounds: Bounds, sent: &[Sent])
        ensures { (n : ℕ) → line_of self.new n
            ≡ option_map (checked bounds (texts_to n sent.now)) (line_of self.old n) }
    {
        for one in sent {
            self.check_one(alloc, bounds, one.to);
        }
    }

    // Puts the text of a message behind what waits for its connection.
    fn put_one(&mut self, alloc: Global, one: &Sent) -> Result<(), AllocError>
        ensures { OnOk result ((n : ℕ) → line_of self.new n
            ≡ option_map (λ l. fold with_text l (texts_to n (one.now ∷ []))) (line_of self.old n)) }
    {
        let had = bytes_of(&self.lines, one.to);
        let others = self.bytes - had;
        if let Ok(()) = put_one(&mut self.lines, alloc, one) {
            let has = bytes_of(&self.lines, one.to);
            if let Some(bytes) = others.checked_add(has) {
                self.bytes = bytes;
                return Ok(());
            }
        }
        // Nothing waits any more, since memory lacked.
        self.lines.clear();
        self.bytes = 0;
        Err(AllocError)
    }

    // Puts the text of each message behind what waits for its connection, in order.
    fn put_each(&mut self, alloc: Global, sent: &[Sent]) -> Result<(), AllocError>
        ensures { OnOk result ((n : ℕ) → line_of self.new n
            ≡ option_map (λ l. fold with_text l (texts_to n sent.now)) (line_of self.old n)) }
    {
        for one in sent {
            self.put_one(alloc, one)?;
        }
        Ok(())
    }

    // Puts what one call sends behind what waits for those that it is sent to, in order.
    pub(crate) fn put_all(
        &mut self,
        alloc: Global,
        bounds: Bounds,
        sent: &[Sent],
    ) -> Result<(), AllocError>
        ensures { OnOk result ((n : ℕ) → line_of self.new n
            ≡ with_texts bounds (texts_to n sent.now) (line_of self.old n)) }
    {
        self.check_all(alloc, bounds, sent);
        self.put_each(alloc, sent)
    }
}
