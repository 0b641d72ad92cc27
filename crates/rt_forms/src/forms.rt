// The tree of forms.
ghost use Rattle.std.specs.Prelude.{◌≡◌, ◌<◌, ◌+◌, ◌^◌, ◌==◌, [], ℕ, Bool, true, false, length};
ghost use Rattle.std.specs.Prelude.{if◌then◌else◌, ◌++◌, OnOk, OnErr, IfOk, IfSome, ◌≢◌, ◌≤◌, ◌∷◌, Option};
ghost use Rattle.std.specs.Prelude.{None, Some};
ghost use Rattle.std.specs.List.{list_any};
ghost use Rattle.std.specs.Option.{option_copied, option_map_or, option_map};
ghost use Rattle.slab.specs.Slab.{get, slab_len};
ghost use Rattle.rt_query.specs.Queries.{Query as QueryValue, plain};
ghost use Rattle.rt_nodes.specs.Forest.{row_at, IsRow, times};
ghost use Rattle.rt_forms.specs.Numbers.{with_number, without_number};
ghost use Rattle.rt_tree.specs.Assignments.{is_at_or_above};
ghost use Rattle.rt_forms.specs.Forms.{numbers, count, share_form, IsAsBefore, IsHeardUnder, AreFilteredAt};
ghost use Rattle.rt_forms.specs.Order.{AreInOrder};
ghost use Rattle.rt_forms.specs.inside.FormsView.{all_under};
ghost use Rattle.rt_forms.specs.inside.Trees.{own, seen, AreAt, seen_in, total, Good, IsAdded, HasRoomAt};
ghost use Rattle.rt_forms.specs.inside.Trees.{Gains, MayPass, Passes, IsTaken, pruned, HasAt, Loses};
ghost use Rattle.rt_forms.specs.inside.Trees.{MayLeave, Leaves, all_own, all_in};
ghost use Rattle.rt_tree.specs.PathTree.{Path};
ghost use Rattle.rt_nodes.specs.Changes.{Same, Told, Changed, InRow, IsHead};
ghost use Rattle.rt_nodes.specs.Walks.{IsPlace};

use crate::growth::grow;
use crate::standing::{Filtered, Standing};
use rt_nodes::{Linked, SeekResult, Siblings};
use rt_query::Query;
use rt_tree::Key;
use std::alloc::{AllocError, Global};
use std::marker::Model;

/// The listeners of forms, by the paths of these: the numbers of each form's, in rising order.
#[derive(Debug)]
pub struct Forms {
    // What is registered at the root, which is no node of the slab.
    top: Standing,
    nodes: Linked<Standing>,
    // The first child of the root.
    first: Option<usize>,
}

impl Drop for Forms {
    fn drop(self) {
        let Forms {
            top: _,
            nodes: _,
            first: _,
        } = self;
    }
}

impl Model for Forms {
    ghost use Rattle.std.specs.Coded.{codes};
    ghost use Rattle.slab.specs.Slab.{slab_code};
    ghost use Rattle.rt_nodes.specs.Nodes.{slot_code};
    ghost use Rattle.rt_forms.specs.Forms.{Forms};

    ghost Value = { Forms };

    ghost coded = { Prim.hlevel (codes, slab_code, slot_code) };

    ghost use Rattle.rt_forms.specs.inside.FormsView.{IsForms};

    ghost view = { λ a. record { top = a.top; nodes = a.nodes; first = a.first } };

    ghost invariant = { λ a. IsForms (record { top = a.top; nodes = a.nodes; first = a.first }) };
}

impl Forms {
    /// No listener.
    pub fn new(alloc: Global) -> Forms
        ensures none { (query : QueryValue) → numbers result query ≡ [] }
        ensures count { count result ≡ 0 }
    {
        Forms {
            top: Standing::new(alloc),
            nodes: Linked::new(alloc),
            first: None,
        }
    }

    /// How many listeners there are.
    pub fn count(&self) -> usize
        ensures { result ≡ count self.now }
    {
        self.top.count()
    }

    // What is registered at a path.
    fn standing(&self, path: &[Key]) -> Option<&Standing>
        ensures numbers { (query : QueryValue) → option_map_or (own query) (option_copied result) []
            ≡ seen query path.now self.now.top (row_at self.now.nodes self.now.first) }
        ensures at { IfSome result (λ standing. AreAt path.now standing.now.filtered) }
    {
        let Some((key, rest)) = path.split_first() else {
            return Some(&self.top);
        };
        let row = Siblings {
            parent: None,
            first: self.first,
        };
        let Some(index) = self.nodes.descend(row, key, rest) else {
            return None;
        };
        match self.nodes.get(index) {
            Some(slot) => Some(&slot.value),
            None => None,
        }
    }

    /// The numbers of the listeners of a query's form, in rising order; none where it has none.
    ///
    /// Costs by the path, and the logarithm of the number of siblings at each of its keys and of the
    /// filtered forms at it.
    pub fn numbers(&self, query: &Query) -> &[u64]
        ensures { result.now ≡ numbers self.now query.now }
    {
        match self.standing(query.path().keys()) {
            Some(standing) => standing.numbers(query),
            None => &[],
        }
    }

    /// The numbers of the listeners of the plain form of a path, in rising order: whoever looks for
    /// what supplies a query asks at its path and at each beginning of it, and makes no query.
    ///
    /// Costs by the path, and the logarithm of the number of siblings at each of its keys.
    pub fn plain_numbers(&self, path: &[Key]) -> &[u64]
        ensures { result.now ≡ numbers self.now (plain path.now) }
    {
        match self.standing(path) {
            Some(standing) => standing.plain_numbers(),
            None => &[],
        }
    }

    /// The filtered forms of a path that have listeners, with the numbers of theirs, in the order of
    /// queries: whoever looks for what takes in a query, or for what it takes in, looks at these alone.
    ///
    /// Costs by the path, and the logarithm of the number of siblings at each of its keys.
    pub fn filtered_at(&self, path: &[Key]) -> &[Filtered]
        ensures forms { AreFilteredAt self.now path.now result.now }
        ensures order { AreInOrder result.now }
    {
        match self.standing(path) {
            Some(standing) => standing.filtered(),
            None => &[],
        }
    }

    // Adds the numbers of the listeners at and under a path.
    fn gather_under(&self, path: &[Key], numbers: &mut Vec<u64>) -> Result<(), AllocError>
        ensures { OnOk result (numbers.new.items ≡ numbers.old.items ++ all_under self.now path.now) }
    {
        let Some((key, rest)) = path.split_first() else {
            return gather_at(&self.nodes, &self.top, self.first, numbers);
        };
        let row = Siblings {
            parent: None,
            first: self.first,
        };
        let Some(index) = self.nodes.descend(row, key, rest) else {
            return Ok(());
        };
        match self.nodes.get(index) {
            Some(slot) => gather_at(&self.nodes, &slot.value, slot.first_child, numbers),
            None => Ok(()),
        }
    }

    /// The numbers of the listeners of all forms at and under a path, in no order.
    ///
    /// Costs by the path, the logarithm of the number of siblings at each of its keys, and what stands
    /// at and under it.
    ///
    /// # Errors
    ///
    /// An `AllocError`.
    pub fn numbers_under(&self, alloc: Global, path: &[Key]) -> Result<Vec<u64>, AllocError>
        ensures each { IfOk result (λ v. (query : QueryValue) (test : ℕ → Bool)
            → is_at_or_above path.now query.path ≡ true
            → list_any test (numbers self.now query) ≡ true → list_any test v.items ≡ true) }
        ensures only { IfOk result (λ v. (test : ℕ → Bool)
            → list_any test v.items ≡ true → IsHeardUnder self.now path.now test) }
    {
        // For the prover: what the tree keeps.
        let _first = self.first;
        let mut numbers = Vec::new(alloc);
        self.gather_under(path, &mut numbers)?;
        Ok(numbers)
    }

    /// Registers a listener of a query's form, under a number that none of the form has.
    ///
    /// Costs by the path, and the logarithm of the number of siblings at each of its keys, of the
    /// filtered forms at it, and of the numbers; words of forms and of numbers are moved.
    ///
    /// # Errors
    ///
    /// An `AllocError`, after which all is as it was.
    pub fn add(&mut self, alloc: Global, number: u64, query: &Query) -> Result<(), AllocError>
        requires free { list_any (λ m. m == number) (numbers self.old query.now) ≡ false }
        requires room { count self.old + 1 < 2 ^ 64 }
        ensures numbers { OnOk result ((other : QueryValue) → numbers self.new other
            ≡ (if share_form other query.now then with_number number (numbers self.old other)
            else numbers self.old other)) }
        ensures count { OnOk result (count self.new ≡ count self.old + 1) }
        ensures unchanged { OnErr result (IsAsBefore self.old self.new) }
    {
        match query.path().keys().split_first() {
            None => self.top.add(alloc, number, query)?,
            Some((key, rest)) => {
                let row = Siblings {
                    parent: None,
                    first: self.first,
                };
                let first = add_row(&mut self.nodes, alloc, row, key, rest, number, query)?;
                self.first = first;
                self.top.pass();
            }
        }
        Ok(())
    }

    /// Ends the listener of a query's form that has this number. A path at and under which no
    /// listener is left goes.
    ///
    /// Costs as [`Forms::add`] does, and takes no memory.
    pub fn remove(&mut self, number: u64, query: &Query)
        requires there { list_any (λ m. m == number) (numbers self.old query.now) ≡ true }
        ensures numbers { (other : QueryValue) → numbers self.new other
            ≡ (if share_form other query.now then without_number number (numbers self.old other)
            else numbers self.old other) }
        ensures count { count self.new + 1 ≡ count self.old }
    {
        match query.path().keys().split_first() {
            None => self.top.remove(number, query),
            Some((key, rest)) => {
                let row = Siblings {
                    parent: None,
                    first: self.first,
                };
                let alloc = self.top.alloc();
                self.first = remove_row(&mut self.nodes, alloc, row, key, rest, number, query);
                self.top.fall();
            }
        }
    }
}

// ---- a listener is registered at a path below a row

// Registers a listener at a node.
fn add_at(
    nodes: &mut Linked<Standing>,
    alloc: Global,
    index: usize,
    number: u64,
    query: &Query,
) -> Result<(), AllocError>
    requires { HasRoomAt nodes.old index number query.now }
    ensures ok { OnOk result (Gains nodes.old nodes.new index query.now number) }
    ensures err { OnErr result (Same nodes.old nodes.new) }
{
    let below = nodes.get(index).unwrap().first_child;
    let mut standing = nodes.exchange(index, Standing::new(alloc)).unwrap();
    let added = standing.add(alloc, number, query);
    nodes.set_content(index, standing, below);
    added
}

// A listener was registered under a node, whose first child is this one now.
fn pass_at(nodes: &mut Linked<Standing>, alloc: Global, index: usize, below: Option<usize>)
    requires { MayPass nodes.old index }
    ensures { Passes nodes.old nodes.new index below }
{
    let mut standing = nodes.exchange(index, Standing::new(alloc)).unwrap();
    standing.pass();
    nodes.set_content(index, standing, below);
}

// Registers a listener at a path below a row. The answer is the first node of the row then. All nodes
// are made before the first of the row changes.
pub(crate) fn add_row(
    nodes: &mut Linked<Standing>,
    alloc: Global,
    row: Siblings,
    key: &Key,
    rest: &[Key],
    number: u64,
    query: &Query,
) -> Result<Option<usize>, AllocError>
    requires row { IsRow nodes.old row.first row.parent None (row_at nodes.old row.first) }
    requires told { Told nodes.old row.first row.parent }
    requires once { (n : ℕ) → times n (row_at nodes.old row.first) ≤ 1 }
    requires good { (d : Path) × (query.now.path ≡ d ++ (key.now ∷ rest.now))
        × Good d (row_at nodes.old row.first) }
    requires room { total (row_at nodes.old row.first) + 1 < 2 ^ 64 }
    requires free { list_any (λ m. m == number)
        (seen_in query.now key.now rest.now (row_at nodes.old row.first)) ≡ false }
    ensures ok { IfOk result (λ first.
        IsAdded nodes.old nodes.new row.first first row.parent key.now rest.now query.now number) }
    ensures err { OnErr result (Same nodes.old nodes.new) }
{
    let index = match nodes.seek(row, key) {
        SeekResult::Here(index) => index,
        SeekResult::Gap(previous, next) => {
            let index = grow(nodes, alloc, row.parent, key, rest, number, query)?;
            nodes.link(previous, index, next);
            return match previous {
                None => Ok(Some(index)),
                Some(_) => Ok(row.first),
            };
        }
    };
    match rest.split_first() {
        None => add_at(nodes, alloc, index, number, query)?,
        Some((child, rest)) => {
            let below = Siblings {
                parent: Some(index),
                first: nodes.get(index).unwrap().first_child,
            };
            let below = add_row(nodes, alloc, below, child, rest, number, query)?;
            pass_at(nodes, alloc, index, below);
        }
    }
    Ok(row.first)
}

// ---- a listener ends at a path below a row

// Ends a listener at a node.
fn end_at(nodes: &mut Linked<Standing>, alloc: Global, index: usize, number: u64, query: &Query)
    requires { HasAt nodes.old index number query.now }
    ensures { Loses nodes.old nodes.new index query.now number }
{
    let below = nodes.get(index).unwrap().first_child;
    let mut standing = nodes.exchange(index, Standing::new(alloc)).unwrap();
    standing.remove(number, query);
    nodes.set_content(index, standing, below);
}

// A listener ended under a node, whose first child is this one now.
fn leave_at(nodes: &mut Linked<Standing>, alloc: Global, index: usize, below: Option<usize>)
    requires { MayLeave nodes.old index }
    ensures { Leaves nodes.old nodes.new index below }
{
    let mut standing = nodes.exchange(index, Standing::new(alloc)).unwrap();
    standing.fall();
    nodes.set_content(index, standing, below);
}

// Takes a node out of its row, where no listener is left at or under it. The answer is the first node
// that is left.
fn prune(nodes: &mut Linked<Standing>, first: Option<usize>, index: usize) -> Option<usize>
    requires head { IsHead nodes.old first }
    requires once { (n : ℕ) → times n (row_at nodes.old first) ≤ 1 }
    requires there { InRow index (row_at nodes.old first) }
    ensures row { (parent : Option ℕ) → IsRow nodes.old first parent None (row_at nodes.old first)
        → IsRow nodes.new result parent None (pruned index (row_at nodes.old first)) }
    ensures changed { Changed nodes.old nodes.new (row_at nodes.old first)
        (pruned index (row_at nodes.old first)) }
{
    if nodes.get(index).unwrap().value.count() > 0 {
        return first;
    }
    nodes.take_out(first, index)
}

// Ends a listener at a path below a row. The answer is the first node of the row then: a node at or
// under which no listener is left goes.
pub(crate) fn remove_row(
    nodes: &mut Linked<Standing>,
    alloc: Global,
    row: Siblings,
    key: &Key,
    rest: &[Key],
    number: u64,
    query: &Query,
) -> Option<usize>
    requires row { IsRow nodes.old row.first row.parent None (row_at nodes.old row.first) }
    requires told { Told nodes.old row.first row.parent }
    requires once { (n : ℕ) → times n (row_at nodes.old row.first) ≤ 1 }
    requires good { (d : Path) × Good d (row_at nodes.old row.first) }
    requires there { list_any (λ m. m == number)
        (seen_in query.now key.now rest.now (row_at nodes.old row.first)) ≡ true }
    ensures { IsTaken nodes.old nodes.new row.first result row.parent key.now rest.now query.now number }
{
    let SeekResult::Here(index) = nodes.seek(row, key) else {
        return row.first;
    };
    match rest.split_first() {
        None => {
            end_at(nodes, alloc, index, number, query);
            prune(nodes, row.first, index)
        }
        Some((child, rest)) => {
            let below = Siblings {
                parent: Some(index),
                first: nodes.get(index).unwrap().first_child,
            };
            let below = remove_row(nodes, alloc, below, child, rest, number, query);
            leave_at(nodes, alloc, index, below);
            prune(nodes, row.first, index)
        }
    }
}

// ---- the numbers of all listeners at and under a path

// Adds the numbers of a row, with those of all below it.
fn gather_row(
    nodes: &Linked<Standing>,
    first: Option<usize>,
    numbers: &mut Vec<u64>,
) -> Result<(), AllocError>
    requires { IsPlace nodes.now first }
    ensures { OnOk result (numbers.new.items ≡ numbers.old.items ++ all_in (row_at nodes.now first)) }
{
    let mut next = first;
    while let Some(index) = next {
        let slot = nodes.get(index).unwrap();
        slot.value.gather(numbers)?;
        gather_row(nodes, slot.first_child, numbers)?;
        next = slot.next;
    }
    Ok(())
}

// Adds the numbers of what is registered at a path, and of the row below it with all below that.
pub(crate) fn gather_at(
    nodes: &Linked<Standing>,
    standing: &Standing,
    below: Option<usize>,
    numbers: &mut Vec<u64>,
) -> Result<(), AllocError>
    requires { IsPlace nodes.now below }
    ensures { OnOk result (numbers.new.items
        ≡ numbers.old.items ++ (all_own standing.now ++ all_in (row_at nodes.now below))) }
{
    standing.gather(numbers)?;
    gather_row(nodes, below, numbers)
}
