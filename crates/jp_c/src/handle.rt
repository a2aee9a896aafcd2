//! What C holds, and the box that it stands for.

ghost use Rattle.std.specs.Prelude.{◌≡◌, Option, Some, None, MatchOption};
ghost use Rattle.jp_c.specs.declared.session.Session.{Session};
ghost use Rattle.jp_c.specs.Owned.{session_coded};

use crate::parts::Parts;
use crate::session::Session;
use std::alloc::Global;
use std::marker::Model;
use std::mem::replace;
use std::ptr::null_mut;

/// What C holds. Where it is open it owns the session behind the pointer.
#[repr(C)]
pub struct Jpq {
    at: *mut u8,
    is_open: bool,
    ghost session: { Option Session } by { session_coded },
}

impl Model for Jpq {
    ghost use Rattle.std.specs.Prelude.{Option};
    ghost use Rattle.jp_c.specs.declared.session.Session.{Session};
    ghost use Rattle.jp_c.specs.contracts.session.Session.{the_row};
    ghost use Rattle.jp_c.specs.Owned.{handle_owns};

    ghost also_owns = { λ h. handle_owns the_row h.is_open h.at h.session };
}

impl Jpq {
    /// A handle that is not open.
    fn shut() -> Jpq
        ensures { result.session ≡ None }
    {
        Jpq {
            at: null_mut(),
            is_open: false,
        }
    }

    /// A handle that owns what the parts own.
    fn of_parts(parts: Parts<Session, Global>) -> Jpq
        ensures { result.session ≡ Some parts.value }
    {
        let Parts { ptr, alloc: _ } = parts;
        Jpq {
            at: ptr as *mut u8,
            is_open: true,
        }
    }

    /// What the handle owns, where it is open.
    fn into_parts(self, alloc: Global) -> Option<Parts<Session, Global>>
        ensures { MatchOption result (self.session ≡ None) (λ parts. self.session ≡ Some parts.value) }
    {
        let Jpq { at, is_open } = self;
        if is_open {
            return Some(Parts {
                ptr: at as *mut Session,
                alloc,
            });
        }
        None
    }

    /// Takes out the session, and leaves the handle shut.
    pub(crate) fn take(&mut self, alloc: Global) -> Option<Box<Session>>
        ensures after { self.new.session ≡ None }
        ensures value { MatchOption result (self.old.session ≡ None) (λ session. self.old.session ≡ Some session.value) }
    {
        match replace(self, Jpq::shut()).into_parts(alloc) {
            Some(parts) => Some(parts.into_box()),
            None => None,
        }
    }

    /// Puts a session into the handle, and frees the one that was there.
    pub(crate) fn put(&mut self, session: Box<Session>, alloc: Global)
        ensures { self.new.session ≡ Some session.value }
    {
        if let Some(parts) = replace(self, Jpq::of_parts(Parts::of(session))).into_parts(alloc) {
            drop(parts.into_box());
        }
    }
}

unsafe impl Send for Jpq {}
