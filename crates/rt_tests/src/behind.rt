// What a client's lock keeps is what the laws of seats and of steps ask for: each of them is used behind the
// lock, whatever others did to the client before.
ghost use Rattle.std.specs.Prelude.{◌≡◌, [], List, Some, None, true, IfOk};
ghost use Rattle.std.specs.Sync.Mutex.{mutex_guard_value};
ghost use Rattle.rt_world.specs.declared.step.Step.{Step};
ghost use Rattle.rt_world.specs.declared.step.Step.TheVariants as step;
ghost use Rattle.rt_world.specs.World.{World};
ghost use Rattle.rt_world.specs.Answers.{step as made, world_after};
ghost use Rattle.rt_world.specs.Refusals.{refusal};
ghost use Rattle.rt_world.specs.Limited.{IsWithin};
ghost use Rattle.rt_world.specs.laws.World.{changes_listeners, StayUnlessMoved, MovedStayPrimed, SendsAll};
ghost use Rattle.rt_mail.specs.Lanes.{Line};
ghost use Rattle.rt_mail.specs.Mailbox.{Known};
ghost use Rattle.rt_client.specs.Seats.{reflection};
ghost use Rattle.rt_client.specs.Shared.{Held};
ghost use Rattle.rt_client.specs.Calls.{Seated, IsOpen};
ghost use Rattle.rt_client.specs.laws.Showing.{Foresees};

use rt_client::{Client, ClientError, Seat, Shared, following_law, showing_law};
use rt_world::{Limits, cover_law, limit_law, message_law};
use std::sync::{MutexGuard, Wait};

// Where nothing waits for a seat, its lane's mirror knows just what the core knows of it.
fn knows_all<'a>(rt: &impl Wait, client: &'a Client) -> MutexGuard<'a, Shared>
    ensures { (seat : Seated) (w : World) (h : Held) (lane : Line) (known : Known)
        → (mutex_guard_value result).held ≡ Some h → h.core ≡ Some w
        → IsOpen (mutex_guard_value result) h seat lane → lane.waiting ≡ []
        → lane.mirror ≡ Some known → known ≡ reflection w seat.number }
{
    // For the prover: the law.
    following_law();
    let shared = client.shared.lock(rt);
    // For the prover: what the lock keeps.
    let _has_failed = shared.has_failed();
    shared
}

// New snapshots of a seat that is opened foresee what the core shows.
fn opens<'a>(
    rt: &impl Wait,
    client: &'a Client,
) -> (Result<Seat, ClientError>, MutexGuard<'a, Shared>)
    ensures { IfOk result.0 (λ seat. Foresees (mutex_guard_value result.1) seat []) }
{
    // For the prover: the law.
    showing_law();
    let mut shared = client.shared.lock(rt);
    // For the prover: what the lock keeps.
    let _has_failed = shared.has_failed();
    (shared.open_seat(8), shared)
}

// A step that registers or ends listeners changes no other's view, unless that moves to another window.
fn stays_shown<'a>(rt: &impl Wait, client: &'a Client) -> MutexGuard<'a, Shared>
    ensures { (h : Held) (w : World) (s : Step) → (mutex_guard_value result).held ≡ Some h
        → h.core ≡ Some w → changes_listeners s ≡ true
        → StayUnlessMoved w (made w s).0 × MovedStayPrimed w (made w s).0 }
{
    // For the prover: the law.
    cover_law();
    let shared = client.shared.lock(rt);
    // For the prover: what the lock keeps.
    let _has_failed = shared.has_failed();
    shared
}

// A connection that is opened sends all listens that are kept, and all requests.
fn sends_all<'a>(rt: &impl Wait, client: &'a Client) -> MutexGuard<'a, Shared>
    ensures { (h : Held) (w : World) → (mutex_guard_value result).held ≡ Some h → h.core ≡ Some w
        → refusal w step.Connected ≡ None → SendsAll (made w step.Connected).0 }
{
    // For the prover: the law.
    message_law();
    let shared = client.shared.lock(rt);
    // For the prover: what the lock keeps.
    let _has_failed = shared.has_failed();
    shared
}

// No steps pass the limits.
fn stays_within<'a>(rt: &impl Wait, client: &'a Client) -> MutexGuard<'a, Shared>
    ensures { (h : Held) (w : World) (steps : List Step) → (mutex_guard_value result).held ≡ Some h
        → h.core ≡ Some w → IsWithin (world_after w steps) }
{
    // For the prover: the law.
    limit_law();
    let shared = client.shared.lock(rt);
    // For the prover: what the lock keeps.
    let _has_failed = shared.has_failed();
    shared
}

#[test]
fn laws_are_used_behind_the_lock(rt: HostRuntime) {
    let opened = Client::open(rt.alloc(), 1, &[8], Limits::full());
    let (client, seats) = opened.expect(&rt, "a client");
    drop(seats);
    drop(knows_all(&rt, &client));
    drop(stays_shown(&rt, &client));
    drop(sends_all(&rt, &client));
    drop(stays_within(&rt, &client));
    let (seat, shared) = opens(&rt, &client);
    drop(shared);
    assert!(rt; seat.is_ok());
}
