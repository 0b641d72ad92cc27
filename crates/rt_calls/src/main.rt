//! Makes calls of the libraries, one a line of its input, and prints each with what it answers: those
//! that no script of the console makes.
//!
//! A line names a library, a call and what is given to it. It is printed, and behind ` => ` its answer.
//! A call that lacks memory prints `NoMemory`, and is made once more: since `./check` refuses one
//! allocation of a run, all that is printed but for this line has to be what is printed with none
//! refused. Empty lines, and those that begin with `#`, are passed over.
//!
//! ```text
//! rt_calls                          makes the calls of its input
//! rt_calls FIRST COUNT CALLS        so many runs of threads over one client (`stress.rt`)
//! ```
#![tactic(auto)]

mod cache;
mod clients;
mod cores;
mod deliveries;
mod errors;
mod fault;
mod lanes;
mod line;
mod lines;
mod mirrors;
mod peers;
mod seats;
mod store;
mod stress;
mod tell;
mod tree;
mod view;
mod wire;
mod writes;

use crate::clients::Seats;
use crate::fault::{Fault, Told};
use crate::line::Line;
use crate::lines::Called;
use anyhow::Error;
use rt_cache::Brought;
use rt_client::Client;
use rt_mail::{Inbox, Lane, Mirror};
use rt_peer::Peer;
use rt_store::{Node, Store};
use rt_sync::Core;
use rt_tree::Tree;
use rt_view::{Batch, ChangeList, View};
use rt_world::Limits;
use rt_writes::Pending;
use std::alloc::Global;
use std::process::ExitCode;
use std::sync::Wait;

// What the lines so far have made. There is no client, no ring and no view at first, and the peer has no
// tree and no denied path; the lane is the ring's, the mirror that of what seats gave. The copy is the
// tree's, the node one of the store, found before its last changes; `told` is what the view told last.
#[derive(Drop)]
struct State {
    brought: Brought,
    client: Option<Client>,
    copy: Tree,
    core: Core,
    inbox: Option<Inbox>,
    lane: Lane,
    mirror: Mirror,
    node: Option<Node>,
    peer: Peer,
    seats: Seats,
    store: Store,
    told: Batch,
    tree: Tree,
    view: Option<View>,
    writes: Pending,
}

impl Called for State {
    fn new(alloc: Global) -> State {
        let changes = ChangeList::of(Vec::new(alloc));
        State {
            brought: Brought::new(alloc),
            client: None,
            copy: Tree::null(),
            core: Core::new(alloc, Limits::full()),
            inbox: None,
            lane: Lane::new(alloc),
            mirror: Mirror::new(alloc),
            node: None,
            peer: Peer::new(Tree::null(), Vec::new(alloc)),
            seats: Vec::new(alloc),
            store: Store::new(alloc),
            told: Batch {
                listener: 0,
                changes,
            },
            tree: Tree::null(),
            view: None,
            writes: Pending::new(alloc),
        }
    }

    fn call<R: Wait>(&mut self, line: &mut Line) -> Told {
        match line.next() {
            "cache" => cache::call(&mut self.brought, line),
            "client" => clients::call(&mut self.client, &mut self.seats, line),
            "core" => cores::call(&mut self.core, line),
            "errors" => errors::call(line),
            "lane" => lanes::call(&mut self.lane, &mut self.inbox, line),
            "mirror" => mirrors::call(&mut self.mirror, line),
            "peer" => peers::call(&mut self.peer, line),
            "seat" => {
                seats::call::<R>(&mut self.client, &mut self.seats, &mut self.mirror, line)
            }
            "store" => store::call(&mut self.store, &mut self.node, line),
            "tree" => tree::call(&mut self.tree, &mut self.copy, line),
            "view" => view::call(&mut self.view, &mut self.told, line),
            "wire" => wire::call(line),
            "writes" => writes::call(&mut self.writes, line),
            _ => Err(Fault::NoSuchCall),
        }
    }
}

// The status of the program where runs of threads were made.
fn status_of(rt: &HostRuntime, made: Result<(), Error>) -> ExitCode {
    match made {
        Ok(()) => ExitCode::SUCCESS,
        Err(error) => {
            let _ = eprintln!(rt; "Error: {error}");
            ExitCode::FAILURE
        }
    }
}

fn main(rt: HostRuntime) -> ExitCode {
    let Ok(asked) = stress::asked(&rt) else {
        return ExitCode::FAILURE;
    };
    if let Some(runs) = asked {
        return status_of(&rt, stress::play(&rt, rt.alloc(), runs));
    }
    match lines::run::<State, HostRuntime>(rt.alloc(), &mut rt.stdin(), &mut rt.stdout()) {
        Some(()) => ExitCode::SUCCESS,
        None => ExitCode::FAILURE,
    }
}
