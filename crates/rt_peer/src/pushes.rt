// What listens are sent when a write changes what they show.
ghost use Rattle.std.specs.Prelude.{◌≡◌, ◌++◌, ◌∷◌, [], true, false, not, IfOk, OnOk};
ghost use Rattle.std.specs.List.{filter};
ghost use Rattle.rt_tree.specs.PathTree.{sub};
ghost use Rattle.rt_tree.specs.Trees.{tree_eq};
ghost use Rattle.rt_query.specs.Queries.{is_filtered};
ghost use Rattle.rt_peer.specs.Peers.{is_at};
ghost use Rattle.rt_peer.specs.Pushes.{parts_below, parts_message, push_of, pushes, written, bundled};
ghost use Rattle.rt_peer.specs.Pushes.{go_together, parts_in, together};
ghost use Rattle.rt_peer.specs.inside.Looked.{AreLooked};
ghost use Rattle.rt_peer.specs.inside.Met.{picked, AreSameOver, IsHanded, IsMadeAt};
ghost use Rattle.rt_peer.specs.inside.Spots.{listen_of};
ghost use Rattle.rt_peer.specs.inside.Watched.{AreHeard, AreOf, AreTurned, GoesOn, IsVisited};

use crate::connections::Rising;
use crate::listens::{ListenQuery, Listens, Owner};
use crate::views::{Views, look, part_at};
use crate::write::{Numbers, Write, differ_below, is_any_above, is_same_at, leaves_part, picked};
use rt_query::Query;
use rt_tree::{Path, Tree};
use rt_wire::{Part, Parts, ServerMessage};
use rt_writes::Entries;
use std::alloc::{AllocError, Global};
use std::collections::BTreeMap;
use std::mem;

// Whether the part at the path is another one after a write than before. All of it is compared only where an
// entry is above the path.
fn is_changed(write: &Write, entries: &[(Path, Tree)], path: &Path) -> bool
    requires { IsMadeAt path.now entries.now write.now }
    ensures { result ≡ not (tree_eq (sub write.now.before path.now) (sub write.now.after path.now)) }
{
    if leaves_part(&write.before, path, entries) {
        return false;
    }
    if differ_below(&write.before, &write.after, path, entries) {
        return true;
    }
    !is_same_at(&write.before, &write.after, path)
}

// The entries below the path, each with what stands there.
fn parts_below(
    alloc: Global,
    tree: &Tree,
    path: &Path,
    entries: &[(Path, Tree)],
) -> Result<Vec<(Path, Tree)>, AllocError>
    ensures { IfOk result (λ parts. parts.items ≡ parts_below tree.now path.now entries.now) }
{
    let mut parts = Vec::new(alloc);
    for (at, _) in entries {
        if path.is_prefix_of(at) {
            parts.push((at.copy()?, part_at(alloc, tree, at)?))?;
        }
    }
    Ok(parts)
}

// One part by itself, or several together.
fn parts_message(tag: u64, mut parts: Vec<(Path, Tree)>) -> ServerMessage
    ensures { result ≡ parts_message tag parts.items }
{
    if parts.len() != 1 {
        let entries = Entries::of(parts);
        return ServerMessage::DataMerge { tag, entries };
    }
    let (path, tree) = parts.remove(0);
    ServerMessage::Data { tag, path, tree }
}

// What the owner's listen of a plain query is sent once the entries have made the tree.
fn push_of(
    alloc: Global,
    tree: &Tree,
    entries: &[(Path, Tree)],
    owner: &Owner,
    query: &Query,
) -> Result<ServerMessage, AllocError>
    requires { is_filtered query.now ≡ false }
    ensures { IfOk result (λ message. message
        ≡ push_of tree.now entries.now (listen_of (owner.now, query.now))) }
{
    let tag = owner.tag;
    if !is_any_above(entries, query.path()) {
        let parts = parts_below(alloc, tree, query.path(), entries)?;
        return Ok(parts_message(tag, parts));
    }
    let path = query.path().copy()?;
    let tree = part_at(alloc, tree, query.path())?;
    Ok(ServerMessage::Data { tag, path, tree })
}

// Adds what the owner's listen of a plain query is sent, if it shows something else after the write than before.
fn push_plain(
    alloc: Global,
    write: &Write,
    entries: &[(Path, Tree)],
    owner: &Owner,
    query: &Query,
    sent: &mut Vec<Sent>,
) -> Result<(), AllocError>
    requires made { IsMadeAt query.now.path entries.now write.now }
    requires plain { is_filtered query.now ≡ false }
    ensures { OnOk result (sent.new.items ≡ sent.old.items
        ++ pushes write.now.before write.now.after entries.now (listen_of (owner.now, query.now) ∷ [])) }
{
    if is_changed(write, entries, query.path()) {
        let message = push_of(alloc, &write.after, entries, owner, query)?;
        sent.push(Sent {
            to: owner.connection,
            message,
        })?;
    }
    Ok(())
}

// What a write has brought so far: what filtered queries were told, the views, and what is sent.
struct Round {
    looked: BTreeMap<ListenQuery, Option<Tree>>,
    views: Views,
    sent: Vec<Sent>,
}

impl Drop for Round {
    fn drop(self) {
        let Round {
            looked: _,
            views: _,
            sent: _,
        } = self;
    }
}

impl Round {
    // The allocator of its list.
    fn alloc(&self) -> Global {
        *self.sent.allocator()
    }

    // The views, and what is sent.
    fn into_parts(self) -> (Views, Vec<Sent>)
        ensures { result ≡ (self.views, self.sent) }
    {
        let Round {
            looked: _,
            views,
            sent,
        } = self;
        (views, sent)
    }
}

// Adds what the owner's listen of a filtered query is sent: all that it shows, if that is something else after
// the write than before.
fn push_filtered(
    alloc: Global,
    write: &Write,
    entries: &[(Path, Tree)],
    owner: &Owner,
    heard: &ListenQuery,
    round: &mut Round,
) -> Result<(), AllocError>
    requires made { IsMadeAt heard.now.path entries.now write.now }
    requires filtered { is_filtered heard.now ≡ true }
    requires looked { AreLooked write.now.before write.now.after round.old.looked.entries }
    requires turned { AreTurned write.now.before write.now.after round.old.looked.entries round.old.views }
    ensures looked { OnOk result (AreLooked write.now.before write.now.after round.new.looked.entries) }
    ensures turned { OnOk result
        (AreTurned write.now.before write.now.after round.new.looked.entries round.new.views) }
    ensures goes { OnOk result
        (GoesOn heard.now round.old.looked.entries round.new.looked.entries round.old.views round.new.views) }
    ensures sent { OnOk result (round.new.sent.items ≡ round.old.sent.items
        ++ pushes write.now.before write.now.after entries.now (listen_of (owner.now, heard.now) ∷ [])) }
{
    match look(
        alloc,
        write,
        entries,
        heard,
        &mut round.looked,
        &mut round.views,
    )? {
        Some(tree) => {
            let message = ServerMessage::Data {
                tag: owner.tag,
                path: heard.path().copy()?,
                tree,
            };
            round.sent.push(Sent {
                to: owner.connection,
                message,
            })?;
            Ok(())
        }
        None => Ok(()),
    }
}

// Adds what the owner's listen is sent, if it shows something else after the write than before.
fn push_one(
    alloc: Global,
    write: &Write,
    entries: &[(Path, Tree)],
    owner: &Owner,
    heard: &ListenQuery,
    round: &mut Round,
) -> Result<(), AllocError>
    requires made { IsMadeAt heard.now.path entries.now write.now }
    requires looked { AreLooked write.now.before write.now.after round.old.looked.entries }
    requires turned { AreTurned write.now.before write.now.after round.old.looked.entries round.old.views }
    ensures looked { OnOk result (AreLooked write.now.before write.now.after round.new.looked.entries) }
    ensures turned { OnOk result
        (AreTurned write.now.before write.now.after round.new.looked.entries round.new.views) }
    ensures goes { OnOk result
        (GoesOn heard.now round.old.looked.entries round.new.looked.entries round.old.views round.new.views) }
    ensures sent { OnOk result (round.new.sent.items ≡ round.old.sent.items
        ++ pushes write.now.before write.now.after entries.now (listen_of (owner.now, heard.now) ∷ [])) }
{
    if heard.query().is_filtered() {
        push_filtered(alloc, write, entries, owner, heard, round)
    } else {
        push_plain(alloc, write, entries, owner, heard.query(), &mut round.sent)
    }
}

// Adds what the owner's listen is sent, which is handed its own entries: those of the numbers. All of them are handed
// on as they are.
fn push_own(
    write: &Write,
    entries: &[(Path, Tree)],
    owner: &Owner,
    numbers: &Numbers,
    heard: &ListenQuery,
    round: &mut Round,
) -> Result<(), AllocError>
    requires made { write.now.after ≡ written write.now.before entries.now }
    requires own { AreSameOver heard.now.path (picked entries.now numbers.now) entries.now }
    requires looked { AreLooked write.now.before write.now.after round.old.looked.entries }
    requires turned { AreTurned write.now.before write.now.after round.old.looked.entries round.old.views }
    ensures looked { OnOk result (AreLooked write.now.before write.now.after round.new.looked.entries) }
    ensures turned { OnOk result
        (AreTurned write.now.before write.now.after round.new.looked.entries round.new.views) }
    ensures goes { OnOk result
        (GoesOn heard.now round.old.looked.entries round.new.looked.entries round.old.views round.new.views) }
    ensures sent { OnOk result (round.new.sent.items ≡ round.old.sent.items
        ++ pushes write.now.before write.now.after entries.now (listen_of (owner.now, heard.now) ∷ [])) }
{
    let alloc = round.alloc();
    if numbers.as_slice().len() == entries.len() {
        return push_one(alloc, write, entries, owner, heard, round);
    }
    let own = picked(alloc, entries, numbers.as_slice())?;
    push_one(alloc, write, &own, owner, heard, round)
}

// Adds what that owner's listen is sent, if there is one.
fn push_owned(
    write: &Write,
    entries: &[(Path, Tree)],
    listens: &Listens,
    owner: &Owner,
    numbers: &Numbers,
    round: &mut Round,
) -> Result<(), AllocError>
    requires made { write.now.after ≡ written write.now.before entries.now }
    requires own { IsHanded entries.now owner.now numbers.now listens.now }
    requires looked { AreLooked write.now.before write.now.after round.old.looked.entries }
    requires turned { AreTurned write.now.before write.now.after round.old.looked.entries round.old.views }
    ensures looked { OnOk result (AreLooked write.now.before write.now.after round.new.looked.entries) }
    ensures turned { OnOk result
        (AreTurned write.now.before write.now.after round.new.looked.entries round.new.views) }
    ensures visited { OnOk result (IsVisited owner.now listens.now round.old.looked.entries
        round.new.looked.entries round.old.views round.new.views) }
    ensures sent { OnOk result (round.new.sent.items ≡ round.old.sent.items
        ++ pushes write.now.before write.now.after entries.now
        (filter (is_at owner.now.connection owner.now.tag) listens.now)) }
{
    match listens.get(owner) {
        Some(heard) => push_own(write, entries, owner, numbers, heard, round),
        None => Ok(()),
    }
}

// What the listens are sent once the entries have made one tree of the other, which the views take. Only those
// are looked at that stand at, above or below an entry's path, each with these entries alone, and of filtered ones
// each query once.
pub(crate) fn push_all(
    alloc: Global,
    write: &Write,
    entries: &[(Path, Tree)],
    listens: &Listens,
    views: Views,
) -> Result<(Views, Vec<Sent>), AllocError>
    requires made { write.now.after ≡ written write.now.before entries.now }
    requires of { AreOf write.now.before views }
    requires heard { AreHeard listens.now views }
    ensures of { IfOk result (λ all. AreOf write.now.after all.0) }
    ensures heard { IfOk result (λ all. AreHeard listens.now all.0) }
    ensures sent { IfOk result (λ all. all.1.items
        ≡ pushes write.now.before write.now.after entries.now listens.now) }
{
    let met = listens.met(alloc, entries)?;
    let mut round = Round {
        looked: BTreeMap::new(alloc),
        views,
        sent: Vec::new(alloc),
    };
    for (owner, numbers) in met.iter() {
        push_owned(write, entries, listens, owner, numbers, &mut round)?;
    }
    Ok(round.into_parts())
}

// ---- pushes for connections that read version 2: several of one write are one message

// A list of one part.
fn one_part(alloc: Global, tag: u64, entries: Entries) -> Result<Vec<Part>, AllocError>
    ensures { IfOk result (λ parts. parts.items ≡ (tag, entries) ∷ []) }
{
    let mut parts = Vec::new(alloc);
    parts.push(Part::new(tag, entries))?;
    Ok(parts)
}

// One entry.
fn one_entry(alloc: Global, path: Path, tree: Tree) -> Result<Entries, AllocError>
    ensures { IfOk result (λ entries. entries ≡ (path, tree) ∷ []) }
{
    let mut entries = Vec::new(alloc);
    entries.push((path, tree))?;
    Ok(Entries::of(entries))
}

// The parts of a message that pushes.
fn parts_in(alloc: Global, message: ServerMessage) -> Result<Vec<Part>, AllocError>
    ensures { IfOk result (λ parts. parts.items ≡ parts_in message) }
{
    match message {
        ServerMessage::Data { tag, path, tree } => {
            one_part(alloc, tag, one_entry(alloc, path, tree)?)
        }
        ServerMessage::DataMerge { tag, entries } => one_part(alloc, tag, entries),
        ServerMessage::Push { parts } => Ok(parts.into_vec()),
        ServerMessage::Accepted { .. }
        | ServerMessage::Refused { .. }
        | ServerMessage::Revoked { .. } => Ok(Vec::new(alloc)),
    }
}

// Whether two are for one connection, which reads version 2.
fn go_together(newer: &Rising, first: &Sent, second: &Sent) -> bool
    ensures { result ≡ go_together newer.now first.now second.now }
{
    first.to == second.to && newer.has(first.to)
}

// One push with the parts of both.
fn together(alloc: Global, first: Sent, second: Sent) -> Result<Sent, AllocError>
    ensures { IfOk result (λ both. both ≡ together first second) }
{
    let Sent { to, message } = first;
    let mut parts = parts_in(alloc, message)?;
    let mut others = parts_in(alloc, second.message)?;
    parts.append(&mut others)?;
    let parts = Parts::of(parts);
    Ok(Sent {
        to,
        message: ServerMessage::Push { parts },
    })
}

// The pushes, by connection, as they are sent.
pub(crate) fn bundle(
    alloc: Global,
    newer: &Rising,
    pushes: Vec<Sent>,
) -> Result<Vec<Sent>, AllocError>
    ensures { IfOk result (λ sent. sent.items ≡ bundled newer.now pushes.items) }
{
    let mut sent = Vec::new(alloc);
    let mut rest = pushes.into_iter();
    let Some(mut last) = rest.next() else {
        return Ok(sent);
    };
    for push in rest {
        if go_together(newer, &last, &push) {
            last = together(alloc, last, push)?;
        } else {
            sent.push(mem::replace(&mut last, push))?;
        }
    }
    sent.push(last)?;
    Ok(sent)
}

// ---- what a peer sends

/// A message for one connection.
#[derive(Debug, Drop)]
pub struct Sent {
    /// The number of the connection.
    pub to: u64,
    /// What is sent to it.
    pub message: ServerMessage,
}
