// Numbers of listeners.
ghost use Rattle.std.specs.Prelude.{◌≡◌, ◌<◌, ◌≤◌, ◌+◌, ◌==◌, ◌∷◌, [], false, true, length, IfOk, OnOk, OnErr};
ghost use Rattle.std.specs.List.{list_any};
ghost use Rattle.rt_forms.specs.Numbers.{with_number, without_number};
ghost use Rattle.rt_forms.specs.inside.Places.{place, Rises};

use std::alloc::{AllocError, Global};
use std::marker::Model;

// Numbers of listeners, in rising order.
#[derive(Debug)]
pub(crate) struct Numbers {
    items: Vec<u64>,
}

impl Drop for Numbers {
    fn drop(self) {
        let Numbers { items: _ } = self;
    }
}

impl Model for Numbers {
    ghost use Rattle.std.specs.Prelude.{List, ℕ};

    ghost Value = { List ℕ };

    ghost use Rattle.rt_forms.specs.inside.Places.{Rises};

    ghost view = { λ a. a.items.items };

    ghost invariant = { λ a. Rises a.items.items };
}

// The first place at which no lesser number stands, by halving.
fn place_of(numbers: &[u64], number: u64) -> usize
    requires { Rises numbers.now }
    ensures first { result ≡ place number numbers.now }
    ensures within { result ≤ length numbers.now }
{
    numbers.partition_point(|other| *other < number)
}

// Puts a number in its place.
fn insert_number(numbers: &mut Vec<u64>, number: u64) -> Result<(), AllocError>
    requires rise { Rises numbers.old.items }
    requires free { list_any (λ m. m == number) numbers.old.items ≡ false }
    ensures ok { OnOk result (numbers.new.items ≡ with_number number numbers.old.items) }
    ensures err { OnErr result (numbers.new.items ≡ numbers.old.items) }
    ensures rise { Rises numbers.new.items }
{
    let place = place_of(numbers, number);
    numbers.insert(place, number)?;
    Ok(())
}

// Takes a number out, where it stands.
fn take_number(numbers: &mut Vec<u64>, number: u64)
    requires { Rises numbers.old.items }
    ensures left { numbers.new.items ≡ without_number number numbers.old.items }
    ensures rise { Rises numbers.new.items }
{
    let place = place_of(numbers, number);
    if place == numbers.len() {
        return;
    }
    if numbers[place] != number {
        return;
    }
    let _taken = numbers.remove(place);
}

impl Numbers {
    // No number.
    pub(crate) fn new(alloc: Global) -> Numbers
        ensures { result ≡ [] }
    {
        Numbers {
            items: Vec::new(alloc),
        }
    }

    // The numbers.
    pub(crate) fn as_slice(&self) -> &[u64]
        ensures { result.now ≡ self.now }
    {
        self.items.as_slice()
    }

    // Whether there is none.
    pub(crate) fn is_empty(&self) -> bool
        ensures { result ≡ (length self.now == 0) }
    {
        self.items.is_empty()
    }

    // Puts one in its place.
    pub(crate) fn insert(&mut self, number: u64) -> Result<(), AllocError>
        requires { list_any (λ m. m == number) self.old ≡ false }
        ensures ok { OnOk result (self.new ≡ with_number number self.old) }
        ensures err { OnErr result (self.new ≡ self.old) }
    {
        insert_number(&mut self.items, number)
    }

    // Takes one out.
    pub(crate) fn remove(&mut self, number: u64)
        ensures numbers { self.new ≡ without_number number self.old }
        ensures less { list_any (λ m. m == number) self.old ≡ true
            → length self.new + 1 ≡ length self.old }
    {
        take_number(&mut self.items, number);
    }
}
