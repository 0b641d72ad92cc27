// Calls of the peer, and what they put behind what waits.
ghost use Rattle.std.specs.Prelude.{◌≡◌, ℕ, None, IfOk, IfSome, OnOk};
ghost use Rattle.rt_peer.specs.Calls.{fault, one};
ghost use Rattle.rt_peer.specs.Peers.{least_free};
ghost use Rattle.rt_peer.specs.Runs.{Connect, Message, EndSome};
ghost use Rattle.rt_peer.specs.Turns.{is_last_turn};
ghost use Rattle.rt_hub.specs.Bounded.{bar_of, bounded, said_by};
ghost use Rattle.rt_hub.specs.Hubs.{receivers};
ghost use Rattle.rt_hub.specs.Lines.{line_of, texts_to, with_texts};
ghost use Rattle.rt_hub.specs.Verdicts.{verdict_of, verdict_when};
ghost use Rattle.rt_hub.specs.inside.Lined.{AreLinedOf, IsDone};

use crate::door::{Bar, bar_of, refusal};
use crate::lines::Waiting;
use crate::refusal::{Bounds, Verdict, When, verdict_when, when_in};
use rt_peer::{Peer, Sent};
use rt_wire::ClientMessage;
use std::alloc::{AllocError, Global};
use std::slice;

// To whom something is sent, in order.
fn receivers_of(alloc: Global, sent: &[Sent]) -> Result<Vec<u64>, AllocError>
    ensures { IfOk result (λ all. all.items ≡ receivers sent.now) }
{
    let mut all = Vec::with_capacity(alloc, sent.len())?;
    for one in sent {
        all.push(one.to)?;
    }
    Ok(all)
}

// Puts what is sent behind what waits for those that it is sent to, and answers who they are.
fn send(
    lines: &mut Waiting,
    alloc: Global,
    bounds: Bounds,
    sent: &[Sent],
) -> Result<Vec<u64>, AllocError>
    ensures put { OnOk result ((n : ℕ) → line_of lines.new n
        ≡ with_texts bounds (texts_to n sent.now) (line_of lines.old n)) }
    ensures told { IfOk result (λ told. told.items ≡ receivers sent.now) }
{
    lines.put_all(alloc, bounds, sent)?;
    receivers_of(alloc, sent)
}

// Puts what is sent for a request that is done then behind what waits for those that it is sent to, and
// answers what became of it, and who they are; none: it is no request.
fn send_judged(
    lines: &mut Waiting,
    alloc: Global,
    bounds: Bounds,
    when: Option<When>,
    sent: &[Sent],
) -> Result<(Verdict, Vec<u64>), AllocError>
    ensures put { OnOk result ((n : ℕ) → line_of lines.new n
        ≡ with_texts bounds (texts_to n sent.now) (line_of lines.old n)) }
    ensures judged { IfOk result (λ answer. answer.0 ≡ verdict_when when sent.now) }
    ensures told { IfOk result (λ answer. answer.1.items ≡ receivers sent.now) }
{
    let told = send(lines, alloc, bounds, sent)?;
    Ok((verdict_when(when, sent), told))
}

// A connection begins.
pub(crate) fn begin(
    peer: &mut Peer,
    lines: &mut Waiting,
    alloc: Global,
    bounds: Bounds,
) -> Result<u64, AllocError>
    requires { AreLinedOf peer.old lines.old }
    ensures number { IfOk result (λ n. IfSome peer.old (λ p. n ≡ least_free p.connections)) }
    ensures done { OnOk result
        (IsDone bounds peer.old lines.old Connect peer.new lines.new) }
{
    let Ok(connection) = peer.connect() else {
        return Err(AllocError);
    };
    lines.add_line(alloc, connection)?;
    Ok(connection)
}

// A known connection says something that its peer may do. Answers what became of it, and to whom something is
// sent.
fn ask(
    peer: &mut Peer,
    lines: &mut Waiting,
    alloc: Global,
    bounds: Bounds,
    connection: u64,
    message: ClientMessage,
) -> Result<(Verdict, Vec<u64>), AllocError>
    requires lined { AreLinedOf peer.old lines.old }
    requires known { fault peer.old connection ≡ None }
    requires room { IfSome peer.old (λ p. bar_of p connection message ≡ None) }
    ensures done { OnOk result (IsDone bounds peer.old lines.old (Message connection message)
        peer.new lines.new) }
    ensures judged { IfOk result (λ answer. IfSome peer.old (λ p.
        answer.0 ≡ verdict_of message (bounded p (Message connection message)).1)) }
    ensures told { IfOk result (λ answer. IfSome peer.old (λ p.
        answer.1.items ≡ receivers (bounded p (Message connection message)).1)) }
{
    let when = when_in(&message);
    let Ok(sent) = peer.message(connection, message) else {
        return Err(AllocError);
    };
    send_judged(lines, alloc, bounds, when, sent.as_slice())
}

// A message that the hub answers itself is answered.
fn refuse(
    lines: &mut Waiting,
    alloc: Global,
    bounds: Bounds,
    connection: u64,
    bar: Bar,
    when: Option<When>,
) -> Result<(Verdict, Vec<u64>), AllocError>
    ensures put { OnOk result ((n : ℕ) → line_of lines.new n
        ≡ with_texts bounds (texts_to n (one connection (said_by bar))) (line_of lines.old n)) }
    ensures judged { IfOk result (λ answer. answer.0
        ≡ verdict_when when (one connection (said_by bar))) }
    ensures told { IfOk result (λ answer. answer.1.items
        ≡ receivers (one connection (said_by bar))) }
{
    let sent = refusal(alloc, connection, bar)?;
    send_judged(lines, alloc, bounds, when, slice::from_ref(&sent))
}

// A known connection says something. Answers what became of it, and to whom something is sent.
pub(crate) fn answer(
    peer: &mut Peer,
    lines: &mut Waiting,
    alloc: Global,
    bounds: Bounds,
    connection: u64,
    message: ClientMessage,
) -> Result<(Verdict, Vec<u64>), AllocError>
    requires lined { AreLinedOf peer.old lines.old }
    requires known { fault peer.old connection ≡ None }
    ensures done { OnOk result (IsDone bounds peer.old lines.old (Message connection message)
        peer.new lines.new) }
    ensures judged { IfOk result (λ answer. IfSome peer.old (λ p.
        answer.0 ≡ verdict_of message (bounded p (Message connection message)).1)) }
    ensures told { IfOk result (λ answer. IfSome peer.old (λ p.
        answer.1.items ≡ receivers (bounded p (Message connection message)).1)) }
{
    let bar = bar_of(alloc, peer, connection, &message)?;
    match bar {
        Some(bar) => refuse(lines, alloc, bounds, connection, bar, when_in(&message)),
        None => ask(peer, lines, alloc, bounds, connection, message),
    }
}

// A turn of a known connection's end. Answers to whom something is sent, and whether it was the last turn.
pub(crate) fn end_some(
    peer: &mut Peer,
    lines: &mut Waiting,
    alloc: Global,
    bounds: Bounds,
    connection: u64,
    most: usize,
) -> Result<(Vec<u64>, bool), AllocError>
    requires lined { AreLinedOf peer.old lines.old }
    requires known { fault peer.old connection ≡ None }
    ensures done { OnOk result (IsDone bounds peer.old lines.old (EndSome connection most)
        peer.new lines.new) }
    ensures told { IfOk result (λ turn. IfSome peer.old (λ p.
        turn.0.items ≡ receivers (bounded p (EndSome connection most)).1)) }
    ensures last { IfOk result (λ turn. IfSome peer.old (λ p. turn.1 ≡ is_last_turn p connection most)) }
{
    let Ok(turn) = peer.end_some(connection, most) else {
        return Err(AllocError);
    };
    let is_last = turn.1;
    lines.leave_line(alloc, connection, is_last);
    let told = send(lines, alloc, bounds, turn.0.as_slice())?;
    Ok((told, is_last))
}
