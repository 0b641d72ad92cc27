// The calls on a core that lines drive.
ghost use Rattle.std.specs.Prelude.{◌≡◌, ◌⊎◌, None, Some, MatchOption};
ghost use Rattle.rt_ffi.specs.Held.{CallsCore, core_in};
ghost use Rattle.rt_foreign.specs.Sessions.{TakesLine, new_session};
ghost use Rattle.rt_foreign.specs.Status as status;
ghost use Rattle.rt_foreign.specs.Texts.{Gives, IsTurnedAway};

use rt_foreign::{CLOSED, DONE, Handle, HandleContent, NO_MEMORY, Session, give};
use std::alloc::Global;

/// Opens a core, which takes all that a core takes. A handle that is open is closed first.
#[unsafe(no_mangle)]
pub extern "C" fn kw_core_open(alloc: Global, handle: &mut Handle) -> u32
    ensures opened { result ≡ status.done → core_in handle.new.loose.value ≡ Some new_session }
    ensures refused { (result ≡ status.done)
        ⊎ ((result ≡ status.no_memory) × (handle.new.loose.value ≡ None)) }
{
    let _ = handle.take(alloc);
    match Box::new(alloc, HandleContent::Core(Session::new(alloc))) {
        Ok(held) => {
            handle.put(held);
            DONE
        }
        Err(_no_memory) => NO_MEMORY,
    }
}

// Does a line on what a handle holds.
fn line_on(held: &mut HandleContent, line: &[u8]) -> u32
    ensures { CallsCore (result ≡ status.closed) (TakesLine line.now result)
        (Some held.old) (Some held.new) }
{
    match held {
        HandleContent::Core(session) => session.line(line),
        HandleContent::Client(_) => CLOSED,
    }
}

// Gives what the last line on what a handle holds has printed.
fn text_on(held: &HandleContent, out: &mut [u8], len: &mut usize) -> u32
    ensures { MatchOption (core_in (Some held.now))
        ((result ≡ status.closed) × (out.new ≡ out.old) × (len.new ≡ len.old))
        (λ session. Gives session.printed out.old result out.new len.new) }
{
    match held {
        HandleContent::Core(session) => give(session.text().as_bytes(), out, len),
        HandleContent::Client(_) => CLOSED,
    }
}

/// Does what a line asks for. What it prints is the core's text until the next line.
#[unsafe(no_mangle)]
pub extern "C" fn kw_core_line(alloc: Global, handle: &mut Handle, line: &[u8]) -> u32
    ensures { CallsCore (result ≡ status.closed) (TakesLine line.now result)
        handle.old.loose.value handle.new.loose.value }
{
    let Some(mut held) = handle.take(alloc) else {
        return CLOSED;
    };
    let status = line_on(&mut held, line);
    handle.put(held);
    status
}

/// Copies what the last line printed, where its room is enough for it.
#[unsafe(no_mangle)]
pub extern "C" fn kw_core_text(
    alloc: Global,
    handle: &mut Handle,
    out: &mut [u8],
    len: &mut usize,
) -> u32
    ensures { CallsCore (IsTurnedAway out.old result out.new len.new)
        (λ before after. (after ≡ before) × Gives before.printed out.old result out.new len.new)
        handle.old.loose.value handle.new.loose.value }
{
    *len = 0;
    let Some(held) = handle.take(alloc) else {
        return CLOSED;
    };
    let status = text_on(&held, out, len);
    handle.put(held);
    status
}

/// Closes a core; one that is closed stays so.
#[unsafe(no_mangle)]
pub extern "C" fn kw_core_close(alloc: Global, handle: &mut Handle)
    ensures { handle.new.loose.value ≡ None }
{
    drop(handle.take(alloc));
}
