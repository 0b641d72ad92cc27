// What a seat's ring holds is given to a sink, once and over turns.
ghost use Rattle.std.specs.Prelude.{◌≡◌, ◌≢◌, Ok, true, false, IfErr, IfNone, IfSome, OnOk};
ghost use Rattle.std.specs.Sync.Mutex.{mutex_guard_value};
ghost use Rattle.rt_client.specs.Delivery.{Turns, RefusesTurnOf, Delivers, RefusesDelivery};
ghost use Rattle.rt_client.specs.Calls.{Keeps};
ghost use Rattle.rt_client.specs.Waiting.{is_due};
ghost use Rattle.rt_client.specs.declared.error.ClientError.TheVariants.{NoMemory};

use crate::client::Client;
use crate::error::ClientError;
use crate::seat::Seat;
use crate::shared::Shared;
use rt_mail::Item;
use std::sync::{MutexGuard, Wait};

/// Who takes what a seat is told. A sink that keeps items is made with its room.
pub trait Sink {
    ghost use Rattle.rt_mail.specs.declared.item.Item.{Item};

    // The sink after an item.
    ghost after_item: { Self → Item → Self };

    /// Takes an item; it neither refuses nor waits.
    fn take(&mut self, item: Item)
        ensures { self.new ≡ after_item self.old item };
}

/// Who says whether a delivery goes on.
pub trait Gate {
    ghost use Rattle.std.specs.Prelude.{⊤};

    // That the gate may say no, as it may where nothing else is said.
    ghost may_stop: { Self → Type 0 } = { λ _. ⊤ };

    // That it may say yes, so too.
    ghost may_go: { Self → Type 0 } = { λ _. ⊤ };

    /// Whether there is to be another turn.
    fn go(&self) -> bool
        ensures stops { result ≡ false → may_stop self.now }
        ensures goes { result ≡ true → may_go self.now };
}

/// A turn of a delivery, on the locked value: settles the seat, lets the lock go, and hands out.
///
/// # Errors
///
/// Those of [`Shared::settle`].
pub fn turn<S: Sink>(
    shared: MutexGuard<'_, Shared>,
    seat: &mut Seat,
    sink: &mut S,
) -> Result<(), ClientError>
    ensures made { OnOk result (Turns S.after_item
        (mutex_guard_value shared.entry) seat.old sink.old seat.new sink.new) }
    ensures refused { IfErr result (λ e. RefusesTurnOf (mutex_guard_value shared.entry) seat.old e seat.new) }
    ensures none { IfErr result (λ _. sink.new ≡ sink.old) }
    ensures memory { IfErr result (λ e. e ≢ NoMemory) }
{
    let mut shared = shared;
    shared.settle(seat)?;
    drop(shared);
    seat.hand_out(sink);
    Ok(())
}

// Asks the gate, and where it says yes locks the client once something is there for the seat. It asks
// again each time that it is woken.
fn go_on<'a, R: Wait, G: Gate>(
    rt: &R,
    client: &'a Client,
    seat: &Seat,
    gate: &G,
) -> Option<MutexGuard<'a, Shared>>
    ensures stops { IfNone result (G.may_stop gate.now) }
    ensures goes { IfSome result (λ shared. G.may_go gate.now) }
    ensures due { IfSome result (λ shared. is_due (mutex_guard_value shared) seat.now ≡ true) }
    ensures kept { IfSome result (λ shared. Keeps (mutex_guard_value shared)) }
{
    for _ in rt.forever() {
        let notices = client.notices();
        if !gate.go() {
            return None;
        }
        if let Some(shared) = client.lock_since(rt, seat, notices) {
            return Some(shared);
        }
    }
    unreachable!()
}

/// Delivers what a seat is told to its sink, over so many turns at most. A turn asks the gate, waits until
/// something is there for the seat, settles it under the client's lock, lets that go, and hands out; the
/// delivery ends where the gate says no. Each time that it is woken while it waits, it asks the gate again:
/// who changes the gate's answer wakes it by [`Client::wake`]. It makes no step. The sink takes what the
/// ring held, and then what the turns handed over to it, in order, each once.
///
/// # Errors
///
/// Those of [`Shared::settle`]: Failed and WrongSeat. What was handed out before stays with the sink, and
/// the ring keeps what it holds.
#[tactic(auto, using(crate::proofs::Delivered::refused_once))]
pub fn deliver<S: Sink, G: Gate>(
    rt: &impl Wait,
    client: &Client,
    seat: &mut Seat,
    sink: &mut S,
    gate: &G,
    turns: u64,
) -> Result<(), ClientError>
    ensures made { OnOk result
        (Delivers S.after_item (G.may_stop gate.now) turns seat.old sink.old seat.new sink.new) }
    ensures refused { IfErr result (λ e.
        RefusesDelivery S.after_item turns seat.old sink.old e seat.new sink.new) }
    ensures memory { IfErr result (λ e. e ≢ NoMemory) }
    ensures never { (G.may_go gate.now → ⊥)
        → (result ≡ Ok tt) × (seat.new ≡ seat.old) × (sink.new ≡ sink.old) }
    ensures no_turns { turns ≡ 0
        → (result ≡ Ok tt) × (seat.new ≡ seat.old) × (sink.new ≡ sink.old) }
{
    for _ in 0..turns {
        let Some(shared) = go_on(rt, client, seat, gate) else {
            return Ok(());
        };
        turn(shared, seat, sink)?;
    }
    Ok(())
}
