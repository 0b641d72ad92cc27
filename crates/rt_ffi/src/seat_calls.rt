// The calls of a client's seats.
ghost use Rattle.std.specs.Prelude.{◌≡◌, ℕ, Some, Ok};
ghost use Rattle.rt_world.specs.declared.step.Call.TheVariants as call;
ghost use Rattle.rt_foreign.specs.Asking.{Asks, AsksFor, Settles, Tells, WantsOf};
ghost use Rattle.rt_ffi.specs.Held.{CallsClient};
ghost use Rattle.rt_foreign.specs.Reading.{at_end_read, at_end_words, cancel_read, listen_read, order_read};
ghost use Rattle.rt_foreign.specs.Reading.{removal_read, set_read, update_words};
ghost use Rattle.rt_foreign.specs.Status as status;
ghost use Rattle.rt_foreign.specs.Texts.{IsTurnedAway};
ghost use Rattle.rt_foreign.specs.Wants.{kinds_of};

use rt_client::Call;
use rt_foreign::{
    CLOSED, Handle, HandleContent, at_end_call, cancel_call, kinds_of, listen_call, remove_call,
    set_call, update_at_end_call, update_call,
};
use rt_lines::LineError;
use rt_view::Kinds;
use std::alloc::Global;

// Makes the call that was read for the seat of that number on what a handle holds.
fn ask_held(
    held: &mut HandleContent,
    seat: u64,
    asked: Result<Call, LineError>,
    given: &mut u64,
) -> u32
    ensures { CallsClient ((result ≡ status.closed) × (given.new ≡ given.old))
        (λ before after. AsksFor asked seat before result given.new after)
        (Some held.old) (Some held.new) }
{
    match held {
        HandleContent::Client(client) => client.ask(seat, asked, given),
        HandleContent::Core(_) => CLOSED,
    }
}

// Makes the call that was read for the seat of that number, and says which number it was given.
fn ask(
    alloc: Global,
    handle: &mut Handle,
    seat: u64,
    asked: Result<Call, LineError>,
    given: &mut u64,
) -> u32
    ensures { CallsClient ((result ≡ status.closed) × (given.new ≡ 0))
        (λ before after. AsksFor asked seat before result given.new after)
        handle.old.loose.value handle.new.loose.value }
{
    *given = 0;
    let Some(mut held) = handle.take(alloc) else {
        return CLOSED;
    };
    let status = ask_held(&mut held, seat, asked, given);
    handle.put(held);
    status
}

/// Registers a listener, which the seat is told of from then on.
#[unsafe(no_mangle)]
pub extern "C" fn kw_client_listen(
    alloc: Global,
    handle: &mut Handle,
    seat: u64,
    path: &[u8],
    query: &[u8],
    listener: &mut u64,
) -> u32
    ensures { CallsClient ((result ≡ status.closed) × (listener.new ≡ 0))
        (λ before after. Asks (listen_read path.now query.now) seat before result listener.new after)
        handle.old.loose.value handle.new.loose.value }
{
    ask(
        alloc,
        handle,
        seat,
        listen_call(alloc, path, query),
        listener,
    )
}

/// Ends a listener of the seat.
#[unsafe(no_mangle)]
pub extern "C" fn kw_client_unlisten(
    alloc: Global,
    handle: &mut Handle,
    seat: u64,
    listener: u64,
) -> u32
    ensures { CallsClient (result ≡ status.closed)
        (λ before after. (given : ℕ)
        × AsksFor (Ok (call.Unlisten listener)) seat before result given after)
        handle.old.loose.value handle.new.loose.value }
{
    let mut given = 0u64;
    ask(
        alloc,
        handle,
        seat,
        Ok(Call::Unlisten { listener }),
        &mut given,
    )
}

/// Sets a tree at a path; null removes.
#[unsafe(no_mangle)]
pub extern "C" fn kw_client_set(
    alloc: Global,
    handle: &mut Handle,
    seat: u64,
    path: &[u8],
    tree: &[u8],
    request: &mut u64,
) -> u32
    ensures { CallsClient ((result ≡ status.closed) × (request.new ≡ 0))
        (λ before after. Asks (set_read path.now tree.now) seat before result request.new after)
        handle.old.loose.value handle.new.loose.value }
{
    ask(alloc, handle, seat, set_call(alloc, path, tree), request)
}

/// Sets several trees, each at its path, in one write.
#[unsafe(no_mangle)]
pub extern "C" fn kw_client_update(
    alloc: Global,
    handle: &mut Handle,
    seat: u64,
    entries: &[u8],
    request: &mut u64,
) -> u32
    ensures { CallsClient ((result ≡ status.closed) × (request.new ≡ 0))
        (λ before after. Asks (order_read (update_words entries.now)) seat before result request.new after)
        handle.old.loose.value handle.new.loose.value }
{
    ask(alloc, handle, seat, update_call(alloc, entries), request)
}

/// Removes what is at a path.
#[unsafe(no_mangle)]
pub extern "C" fn kw_client_remove(
    alloc: Global,
    handle: &mut Handle,
    seat: u64,
    path: &[u8],
    request: &mut u64,
) -> u32
    ensures { CallsClient ((result ≡ status.closed) × (request.new ≡ 0))
        (λ before after. Asks (removal_read path.now) seat before result request.new after)
        handle.old.loose.value handle.new.loose.value }
{
    ask(alloc, handle, seat, remove_call(alloc, path), request)
}

/// Asks the server to set a tree at a path when the connection ends.
#[unsafe(no_mangle)]
pub extern "C" fn kw_client_on_disconnect(
    alloc: Global,
    handle: &mut Handle,
    seat: u64,
    path: &[u8],
    tree: &[u8],
    request: &mut u64,
) -> u32
    ensures { CallsClient ((result ≡ status.closed) × (request.new ≡ 0))
        (λ before after. Asks (at_end_read path.now tree.now) seat before result request.new after)
        handle.old.loose.value handle.new.loose.value }
{
    ask(alloc, handle, seat, at_end_call(alloc, path, tree), request)
}

/// Asks the server to set several trees, each at its path, when the connection ends.
#[unsafe(no_mangle)]
pub extern "C" fn kw_client_on_disconnect_update(
    alloc: Global,
    handle: &mut Handle,
    seat: u64,
    entries: &[u8],
    request: &mut u64,
) -> u32
    ensures { CallsClient ((result ≡ status.closed) × (request.new ≡ 0))
        (λ before after. Asks (order_read (at_end_words entries.now)) seat before result request.new after)
        handle.old.loose.value handle.new.loose.value }
{
    ask(
        alloc,
        handle,
        seat,
        update_at_end_call(alloc, entries),
        request,
    )
}

/// Drops what was to be written at and below a path when the connection ends.
#[unsafe(no_mangle)]
pub extern "C" fn kw_client_cancel_disconnect(
    alloc: Global,
    handle: &mut Handle,
    seat: u64,
    path: &[u8],
    request: &mut u64,
) -> u32
    ensures { CallsClient ((result ≡ status.closed) × (request.new ≡ 0))
        (λ before after. Asks (cancel_read path.now) seat before result request.new after)
        handle.old.loose.value handle.new.loose.value }
{
    ask(alloc, handle, seat, cancel_call(alloc, path), request)
}

// Hands over to the ring of the seat of that number, on what a handle holds.
fn settle_held(held: &mut HandleContent, seat: u64) -> u32
    ensures { CallsClient (result ≡ status.closed)
        (λ before after. Settles seat before result after) (Some held.old) (Some held.new) }
{
    match held {
        HandleContent::Client(client) => client.settle(seat),
        HandleContent::Core(_) => CLOSED,
    }
}

/// Hands over to the seat's ring what waits for it, in order, as long as there is room.
#[unsafe(no_mangle)]
pub extern "C" fn kw_client_settle(alloc: Global, handle: &mut Handle, seat: u64) -> u32
    ensures { CallsClient (result ≡ status.closed)
        (λ before after. Settles seat before result after)
        handle.old.loose.value handle.new.loose.value }
{
    let Some(mut held) = handle.take(alloc) else {
        return CLOSED;
    };
    let status = settle_held(&mut held, seat);
    handle.put(held);
    status
}

// From then on batches of a listener are given so, on what a handle holds.
fn want_held(held: &mut HandleContent, seat: u64, listener: u64, kinds: Kinds) -> u32
    ensures { CallsClient (result ≡ status.closed)
        (λ before after. WantsOf seat listener kinds before result after) (Some held.old) (Some held.new) }
{
    match held {
        HandleContent::Client(client) => client.want(seat, listener, kinds),
        HandleContent::Core(_) => CLOSED,
    }
}

/// From then on batches of a listener of the seat are given with changes of these kinds alone.
#[unsafe(no_mangle)]
pub extern "C" fn kw_client_want(
    alloc: Global,
    handle: &mut Handle,
    seat: u64,
    listener: u64,
    kinds: u32,
) -> u32
    ensures { CallsClient (result ≡ status.closed)
        (λ before after. WantsOf seat listener (kinds_of kinds) before result after)
        handle.old.loose.value handle.new.loose.value }
{
    let Some(mut held) = handle.take(alloc) else {
        return CLOSED;
    };
    let status = want_held(&mut held, seat, listener, kinds_of(kinds));
    handle.put(held);
    status
}

// Gives the next item of the seat of that number, on what a handle holds.
fn next_held(held: &mut HandleContent, seat: u64, out: &mut [u8], len: &mut usize) -> u32
    ensures { CallsClient ((result ≡ status.closed) × (out.new ≡ out.old) × (len.new ≡ len.old))
        (λ before after. Tells seat before out.old result after out.new len.new)
        (Some held.old) (Some held.new) }
{
    match held {
        HandleContent::Client(client) => client.next(seat, out, len),
        HandleContent::Core(_) => CLOSED,
    }
}

/// Takes the first item that the seat's ring holds, as JSON.
#[unsafe(no_mangle)]
pub extern "C" fn kw_client_next(
    alloc: Global,
    handle: &mut Handle,
    seat: u64,
    out: &mut [u8],
    len: &mut usize,
) -> u32
    ensures { CallsClient (IsTurnedAway out.old result out.new len.new)
        (λ before after. Tells seat before out.old result after out.new len.new)
        handle.old.loose.value handle.new.loose.value }
{
    *len = 0;
    let Some(mut held) = handle.take(alloc) else {
        return CLOSED;
    };
    let status = next_held(&mut held, seat, out, len);
    handle.put(held);
    status
}
