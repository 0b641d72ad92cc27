// What C holds of what is open.
ghost use Rattle.std.specs.Prelude.{◌≡◌, true, Option, None, Some, IfNone, IfSome, is_some};
ghost use Rattle.std.specs.Box.Ownership.{box_owns};
ghost use Rattle.rt_foreign.specs.Boxes.{maybe_box_owns};
ghost use Rattle.rt_foreign.specs.declared.handle.HandleContent.{HandleContent};
ghost use Rattle.rt_foreign.specs.contracts.handle.HandleContent.{the_row as the_held};

use crate::client::Client;
use crate::session::Session;
use std::alloc::{Allocator, Global};
use std::marker::Model;
use std::{mem, ptr};

/// What is open, in memory of its own, or nothing.
#[repr(C)]
#[derive(Drop)]
pub struct Loose {
    at: *mut u8,
    alloc: Global,
    pub ghost value: { Option HandleContent },
}

impl Model for Loose {
    ghost also_owns = { λ l. maybe_box_owns l.alloc the_held l.at l.value };
}

impl Loose {
    fn none(alloc: Global) -> Loose
        ensures { result.value ≡ None }
    {
        Loose {
            at: ptr::null_mut(),
            alloc,
        }
    }

    fn of(parts: BoxParts<HandleContent, Global>) -> Loose
        ensures { result.value ≡ Some parts.value }
    {
        let BoxParts { ptr, alloc } = parts;
        Loose {
            at: ptr as *mut u8,
            alloc,
        }
    }

    fn into_parts(self) -> BoxParts<HandleContent, Global>
        requires { is_some self.value ≡ true }
        ensures { Some result.value ≡ self.value }
    {
        let Loose { at, alloc } = self;
        BoxParts {
            ptr: at as *mut HandleContent,
            alloc,
        }
    }
}

/// What C holds: open or closed. C makes a closed one of zeros, and copies none.
#[repr(C)]
#[derive(Drop)]
pub struct Handle {
    is_open: bool,
    pub loose: Loose,
    ghost has_one: { is_some loose.value ≡ is_open },
}

impl Handle {
    pub fn closed(alloc: Global) -> Handle
        ensures { result.loose.value ≡ None }
    {
        Handle {
            is_open: false,
            loose: Loose::none(alloc),
        }
    }

    /// Takes out what is open, if there is something: the handle is closed then.
    pub fn take(&mut self, alloc: Global) -> Option<Box<HandleContent>>
        ensures closed { self.new.loose.value ≡ None }
        ensures none { IfNone result (self.old.loose.value ≡ None) }
        ensures held { IfSome result (λ held. self.old.loose.value ≡ Some held.value) }
    {
        let was = mem::replace(self, Handle::closed(alloc));
        if was.is_open {
            Some(was.loose.into_parts().into_box())
        } else {
            None
        }
    }

    /// Opens a handle that is closed. What was open before is not freed.
    pub fn put(&mut self, held: Box<HandleContent>)
        ensures { self.new.loose.value ≡ Some held.value }
    {
        *self = Handle {
            is_open: true,
            loose: Loose::of(BoxParts::of(held)),
        };
    }
}

// ---- what a handle holds

/// What a handle holds.
#[derive(Drop)]
pub enum HandleContent {
    /// A core that lines drive.
    Core(Session),
    /// A client with its seats.
    Client(Client),
}

// ---- a box as a pointer and an allocator, and back

/// A box taken apart: where its value lies, and the allocator that frees it. It owns what the box owned,
/// so it is made by a box, and made a box again, and by a function whose proof moves what it owns.
pub(crate) struct BoxParts<T, A: Allocator> {
    /// Where the value lies, which is never null.
    pub ptr: *mut T,
    /// Who frees it.
    pub alloc: A,
    /// The value that lies there.
    pub ghost value: { T },
}

impl<T, A: Allocator> Model for BoxParts<T, A> {
    ghost also_owns = { λ p. box_owns (A.dealloc_token p.alloc) T.row p.ptr p.value };
}

impl<T, A: Allocator> BoxParts<T, A> {
    /// Takes a box apart.
    pub fn of(whole: Box<T, A>) -> BoxParts<T, A>
    where
        T: Drop,
        ensures value { result.value ≡ whole.value }
    {
        let (ptr, alloc) = Box::into_raw_with_allocator(whole);
        BoxParts { ptr, alloc }
    }

    /// The box again.
    pub fn into_box(self) -> Box<T, A>
        ensures value { result.value ≡ self.value }
    {
        let BoxParts { ptr, alloc } = self;
        unsafe { Box::from_raw(alloc, ptr) }
    }
}
