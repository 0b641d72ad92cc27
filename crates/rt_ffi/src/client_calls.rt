// The calls on a client with its seats, but for those of a seat.
ghost use Rattle.std.specs.Prelude.{◌≡◌, ◌⊎◌, ◌<◌, ◌≤◌, length, None, Some, Ok, MatchOption};
ghost use Rattle.rt_foreign.specs.Clients.{new_client};
ghost use Rattle.rt_foreign.specs.Connection.{Hears, HearsOf, Sends};
ghost use Rattle.rt_foreign.specs.Events.{event_read};
ghost use Rattle.rt_ffi.specs.Held.{CallsClient, client_in};
ghost use Rattle.rt_foreign.specs.Looks.{GivesKey, GivesWhy, Shows};
ghost use Rattle.rt_foreign.specs.Status as status;
ghost use Rattle.rt_foreign.specs.Texts.{IsTurnedAway};
ghost use Rattle.rt_foreign.specs.declared.client.Event.TheVariants as event;

use rt_foreign::{
    CLOSED, Client, DONE, Event, Handle, HandleContent, NO_MEMORY, message_of, status_of,
};
use rt_lines::LineError;
use std::alloc::Global;

/// Opens a client with a seat for each capacity of a ring. A handle that is open is closed first.
#[unsafe(no_mangle)]
pub extern "C" fn kw_client_open(alloc: Global, handle: &mut Handle, rings: &[usize]) -> u32
    ensures opened { result ≡ status.done
        → (length rings.now ≤ 64) × (client_in handle.new.loose.value ≡ Some (new_client rings.now)) }
    ensures refused { (result ≡ status.done)
        ⊎ ((result ≡ status.too_many_seats) × (64 < length rings.now) × (handle.new.loose.value ≡ None))
        ⊎ ((result ≡ status.no_memory) × (handle.new.loose.value ≡ None)) }
{
    let _ = handle.take(alloc);
    let client = match Client::open(alloc, rings) {
        Ok(client) => client,
        Err(why) => return status_of(why),
    };
    match Box::new(alloc, HandleContent::Client(client)) {
        Ok(held) => {
            handle.put(held);
            DONE
        }
        Err(_no_memory) => NO_MEMORY,
    }
}

// Takes what the connection brings, on what a handle holds.
fn hear_held(held: &mut HandleContent, event: Result<Event, LineError>) -> u32
    ensures { CallsClient (result ≡ status.closed)
        (λ before after. HearsOf event before result after) (Some held.old) (Some held.new) }
{
    match held {
        HandleContent::Client(client) => client.take(event),
        HandleContent::Core(_) => CLOSED,
    }
}

// Takes what the connection brings, as it was read.
fn hear(alloc: Global, handle: &mut Handle, event: Result<Event, LineError>) -> u32
    ensures { CallsClient (result ≡ status.closed)
        (λ before after. HearsOf event before result after)
        handle.old.loose.value handle.new.loose.value }
{
    let Some(mut held) = handle.take(alloc) else {
        return CLOSED;
    };
    let status = hear_held(&mut held, event);
    handle.put(held);
    status
}

/// A connection is opened.
#[unsafe(no_mangle)]
pub extern "C" fn kw_client_connected(alloc: Global, handle: &mut Handle) -> u32
    ensures { CallsClient (result ≡ status.closed)
        (λ before after. HearsOf (Ok event.Connected) before result after)
        handle.old.loose.value handle.new.loose.value }
{
    hear(alloc, handle, Ok(Event::Connected))
}

/// The connection ends.
#[unsafe(no_mangle)]
pub extern "C" fn kw_client_disconnected(alloc: Global, handle: &mut Handle) -> u32
    ensures { CallsClient (result ≡ status.closed)
        (λ before after. HearsOf (Ok event.Disconnected) before result after)
        handle.old.loose.value handle.new.loose.value }
{
    hear(alloc, handle, Ok(Event::Disconnected))
}

/// Takes a message of the server.
#[unsafe(no_mangle)]
pub extern "C" fn kw_client_server_message(
    alloc: Global,
    handle: &mut Handle,
    message: &[u8],
) -> u32
    ensures { CallsClient (result ≡ status.closed)
        (λ before after. Hears (event_read message.now) before result after)
        handle.old.loose.value handle.new.loose.value }
{
    hear(alloc, handle, message_of(alloc, message))
}

// Gives the first message that is to be sent, on what a handle holds.
fn outgoing_held(held: &mut HandleContent, out: &mut [u8], len: &mut usize) -> u32
    ensures { CallsClient ((result ≡ status.closed) × (out.new ≡ out.old) × (len.new ≡ len.old))
        (λ before after. Sends before out.old result after out.new len.new)
        (Some held.old) (Some held.new) }
{
    match held {
        HandleContent::Client(client) => client.take_outgoing(out, len),
        HandleContent::Core(_) => CLOSED,
    }
}

/// Takes out the first message that is to be sent.
#[unsafe(no_mangle)]
pub extern "C" fn kw_client_take_outgoing(
    alloc: Global,
    handle: &mut Handle,
    out: &mut [u8],
    len: &mut usize,
) -> u32
    ensures { CallsClient (IsTurnedAway out.old result out.new len.new)
        (λ before after. Sends before out.old result after out.new len.new)
        handle.old.loose.value handle.new.loose.value }
{
    *len = 0;
    let Some(mut held) = handle.take(alloc) else {
        return CLOSED;
    };
    let status = outgoing_held(&mut held, out, len);
    handle.put(held);
    status
}

// Gives the listens that are kept, on what a handle holds.
fn cover_held(held: &mut HandleContent, out: &mut [u8], len: &mut usize) -> u32
    ensures { CallsClient ((result ≡ status.closed) × (out.new ≡ out.old) × (len.new ≡ len.old))
        (λ before after. Shows before out.old result after out.new len.new)
        (Some held.old) (Some held.new) }
{
    match held {
        HandleContent::Client(client) => client.cover(out, len),
        HandleContent::Core(_) => CLOSED,
    }
}

/// Copies the listens that are kept, as the console prints them.
#[unsafe(no_mangle)]
pub extern "C" fn kw_client_cover(
    alloc: Global,
    handle: &mut Handle,
    out: &mut [u8],
    len: &mut usize,
) -> u32
    ensures { CallsClient (IsTurnedAway out.old result out.new len.new)
        (λ before after. Shows before out.old result after out.new len.new)
        handle.old.loose.value handle.new.loose.value }
{
    *len = 0;
    let Some(mut held) = handle.take(alloc) else {
        return CLOSED;
    };
    let status = cover_held(&mut held, out, len);
    handle.put(held);
    status
}

// Gives the next push id, on what a handle holds.
fn push_key_held(
    held: &mut HandleContent,
    now_ms: u64,
    random: [u8; 12],
    out: &mut [u8],
    len: &mut usize,
) -> u32
    ensures { CallsClient ((result ≡ status.closed) × (out.new ≡ out.old) × (len.new ≡ len.old))
        (λ before after. GivesKey now_ms random before out.old result after out.new len.new)
        (Some held.old) (Some held.new) }
{
    match held {
        HandleContent::Client(client) => client.push_key(now_ms, random, out, len),
        HandleContent::Core(_) => CLOSED,
    }
}

/// Makes the next push id, of 20 characters.
#[unsafe(no_mangle)]
pub extern "C" fn kw_client_push_key(
    alloc: Global,
    handle: &mut Handle,
    now_ms: u64,
    random: &[u8; 12],
    out: &mut [u8],
    len: &mut usize,
) -> u32
    ensures { CallsClient (IsTurnedAway out.old result out.new len.new)
        (λ before after. GivesKey now_ms random.now before out.old result after out.new len.new)
        handle.old.loose.value handle.new.loose.value }
{
    *len = 0;
    let Some(mut held) = handle.take(alloc) else {
        return CLOSED;
    };
    let status = push_key_held(&mut held, now_ms, *random, out, len);
    handle.put(held);
    status
}

// Gives why a layer refused the last call, on what a handle holds.
fn error_held(held: &HandleContent, code: &mut u32, out: &mut [u8], len: &mut usize) -> u32
    ensures { MatchOption (client_in (Some held.now))
        ((result ≡ status.closed) × (out.new ≡ out.old) × (len.new ≡ len.old) × (code.new ≡ code.old))
        (λ client. GivesWhy client.refused code.new out.old result out.new len.new) }
{
    match held {
        HandleContent::Client(client) => client.refusal(code, out, len),
        HandleContent::Core(_) => CLOSED,
    }
}

/// Copies why a layer refused the last call: the layer and the name, and the number within the layer.
#[unsafe(no_mangle)]
pub extern "C" fn kw_client_error(
    alloc: Global,
    handle: &mut Handle,
    code: &mut u32,
    out: &mut [u8],
    len: &mut usize,
) -> u32
    ensures { CallsClient (IsTurnedAway out.old result out.new len.new × (code.new ≡ 0))
        (λ before after. (after ≡ before)
        × GivesWhy before.refused code.new out.old result out.new len.new)
        handle.old.loose.value handle.new.loose.value }
{
    *len = 0;
    *code = 0;
    let Some(held) = handle.take(alloc) else {
        return CLOSED;
    };
    let status = error_held(&held, code, out, len);
    handle.put(held);
    status
}

/// Closes a client; one that is closed stays so.
#[unsafe(no_mangle)]
pub extern "C" fn kw_client_close(alloc: Global, handle: &mut Handle)
    ensures { handle.new.loose.value ≡ None }
{
    drop(handle.take(alloc));
}
