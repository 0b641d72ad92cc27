// The known connections.
ghost use Rattle.std.specs.Prelude.{◌≡◌, ◌<◌, ◌≤◌, ℕ, nat_lt, not, ◌==◌, [], true, false, IfOk, OnOk, OnErr};
ghost use Rattle.std.specs.Prelude.{◌+◌, ◌-◌, if◌then◌else◌};
ghost use Rattle.std.specs.List.{filter};
ghost use Rattle.rt_peer.specs.Peers.{in_place, is_known, least_free};
ghost use Rattle.rt_peer.specs.Calls.{marked};
ghost use Rattle.rt_peer.specs.inside.Rising.{RisesFrom};
ghost use Rattle.rt_peer.specs.inside.Counts.{count_of};

use std::alloc::{AllocError, Global};
use std::collections::BTreeMap;
use std::marker::Model;

// The numbers of the known connections, each from 1, which rise.
pub(crate) struct Connections {
    numbers: Vec<u64>,
}

impl Drop for Connections {
    fn drop(self) {
        let Connections { numbers: _ } = self;
    }
}

impl Model for Connections {
    ghost use Rattle.std.specs.Prelude.{List, ℕ};
    ghost use Rattle.rt_peer.specs.inside.Rising.{RisesFrom};

    ghost Value = { List ℕ };

    ghost view = { λ a. a.numbers.items };

    ghost invariant = { λ a. RisesFrom 1 a.numbers.items };
}

impl Connections {
    pub(crate) fn new(alloc: Global) -> Connections
        ensures { result ≡ [] }
    {
        Connections {
            numbers: Vec::new(alloc),
        }
    }

    // The allocator of the list.
    pub(crate) fn alloc(&self) -> Global {
        *self.numbers.allocator()
    }

    pub(crate) fn contains(&self, number: u64) -> bool
        ensures { result ≡ is_known self.now number }
    {
        has_number(&self.numbers, number)
    }

    // Adds the least number that is not known.
    pub(crate) fn add(&mut self) -> Result<u64, AllocError>
        ensures number { IfOk result (λ n. n ≡ least_free self.old) }
        ensures fresh { IfOk result (λ n. is_known self.old n ≡ false) }
        ensures least { IfOk result (λ m. (n : ℕ) → 1 ≤ n → n < m → is_known self.old n ≡ true) }
        ensures added { IfOk result (λ n. self.new ≡ in_place nat_lt n self.old) }
    {
        let number = least_free(&self.numbers);
        let numbers = with_number(self.alloc(), &self.numbers, number)?;
        self.numbers = numbers;
        Ok(number)
    }

    // Takes a number out, if it is known.
    pub(crate) fn remove(&mut self, number: u64)
        ensures { self.new ≡ filter (λ m. not (m == number)) self.old }
    {
        remove_number(&mut self.numbers, number);
    }
}

// The least number from 1 that is not among these, which rise.
fn least_free(numbers: &[u64]) -> u64
    ensures { result ≡ least_free numbers.now }
{
    let mut number = 1;
    for known in numbers {
        if *known == number {
            number += 1;
        }
    }
    number
}

// The numbers with another one, in its place.
fn with_number(alloc: Global, numbers: &[u64], number: u64) -> Result<Vec<u64>, AllocError>
    ensures { IfOk result (λ all. all.items ≡ in_place nat_lt number numbers.now) }
{
    let mut all = Vec::new(alloc);
    let mut behind = Vec::new(alloc);
    for known in numbers {
        if number < *known {
            behind.push(*known)?;
        } else {
            all.push(*known)?;
        }
    }
    all.push(number)?;
    all.append(&mut behind)?;
    Ok(all)
}

// Takes a number out, if it is there.
pub(crate) fn remove_number(numbers: &mut Vec<u64>, number: u64)
    ensures { numbers.new.items ≡ filter (λ m. not (m == number)) numbers.old.items }
{
    numbers.retain(|known| *known != number);
}

// Puts a number in its place, or takes it out.
pub(crate) fn mark(numbers: &mut Vec<u64>, number: u64, is_there: bool) -> Result<(), AllocError>
    ensures ok { OnOk result (numbers.new.items ≡ marked is_there number numbers.old.items) }
    ensures err { OnErr result (numbers.new.items ≡ marked false number numbers.old.items) }
{
    remove_number(numbers, number);
    if is_there {
        let all = with_number(*numbers.allocator(), numbers, number)?;
        *numbers = all;
    }
    Ok(())
}

// ---- numbers of connections in rising order, each found by halving

// Whether the number is one of these, by halving.
pub(crate) fn has_number(numbers: &[u64], number: u64) -> bool
    requires { RisesFrom 0 numbers.now }
    ensures { result ≡ is_known numbers.now number }
{
    numbers.binary_search(&number).is_ok()
}

// Numbers that rise.
pub(crate) struct Rising {
    numbers: Vec<u64>,
}

impl Drop for Rising {
    fn drop(self) {
        let Rising { numbers: _ } = self;
    }
}

impl Model for Rising {
    ghost use Rattle.std.specs.Prelude.{List, ℕ};
    ghost use Rattle.rt_peer.specs.inside.Rising.{RisesFrom};

    ghost Value = { List ℕ };

    ghost view = { λ a. a.numbers.items };

    ghost invariant = { λ a. RisesFrom 0 a.numbers.items };
}

impl Rising {
    pub(crate) fn new(alloc: Global) -> Rising
        ensures { result ≡ [] }
    {
        Rising {
            numbers: Vec::new(alloc),
        }
    }

    pub(crate) fn has(&self, number: u64) -> bool
        ensures { result ≡ is_known self.now number }
    {
        has_number(&self.numbers, number)
    }

    // Takes a number out, if it is there.
    pub(crate) fn remove(&mut self, number: u64)
        ensures { self.new ≡ filter (λ m. not (m == number)) self.old }
    {
        remove_number(&mut self.numbers, number);
    }

    // Puts a number in its place, or takes it out.
    pub(crate) fn mark(&mut self, number: u64, is_there: bool) -> Result<(), AllocError>
        ensures { OnOk result (self.new ≡ marked is_there number self.old) }
    {
        mark(&mut self.numbers, number, is_there)
    }
}

// ---- how many of something each connection has

// How many the connection has.
pub(crate) fn count_of(counts: &BTreeMap<u64, usize>, connection: u64) -> usize
    ensures { result ≡ count_of counts.now.entries connection }
{
    match counts.get(&connection) {
        Some(count) => *count,
        None => 0,
    }
}

// The connection has one more. The count can't run over, since each one takes memory.
pub(crate) fn raise(counts: &mut BTreeMap<u64, usize>, connection: u64) -> Result<(), AllocError>
    ensures ok { OnOk result ((n : ℕ) → count_of counts.new.entries n
        ≡ count_of counts.old.entries n + (if connection == n then 1 else 0)) }
    ensures err { OnErr result ((n : ℕ) → count_of counts.new.entries n
        ≡ count_of counts.old.entries n) }
{
    let Some(count) = count_of(counts, connection).checked_add(1) else {
        return Err(AllocError);
    };
    match counts.insert(connection, count) {
        Ok(_) => Ok(()),
        Err(_) => Err(AllocError),
    }
}

// The connection has one less, if it has any. Takes no memory.
pub(crate) fn lower(counts: &mut BTreeMap<u64, usize>, connection: u64)
    ensures { (n : ℕ) → count_of counts.new.entries n
        ≡ count_of counts.old.entries n - (if connection == n then 1 else 0) }
{
    let count = count_of(counts, connection);
    if count <= 1 {
        counts.remove(&connection);
        return;
    }
    match counts.insert(connection, count - 1) {
        Ok(_) => {}
        Err(_) => {}
    }
}

// ---- how much a connection holds

/// How many listens and actions a connection has.
#[derive(Clone, Copy, Debug, PartialEq, Eq)]
pub struct ConnectionLoad {
    /// Its listens, each with a tag of its own.
    pub listens: usize,
    /// What is to be done when it ends: the requests that are kept, of which several may have one number.
    pub actions: usize,
}
