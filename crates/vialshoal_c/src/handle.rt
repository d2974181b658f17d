ghost use Rattle.std.specs.Prelude.{◌≡◌, None, Some, IfSome, IfNone, Option};
ghost use Rattle.std.specs.Coded.{coded_option};
ghost use Rattle.vialshoal_c.specs.SessionState.{SessionState};
ghost use Rattle.vialshoal_c.specs.contracts.session.Session.{the_row};

use crate::loose::Loose;
use crate::session::Session;
use std::alloc::Global;
use std::marker::Model;
use std::mem::replace;
use std::ptr::null_mut;

/// A session in a box, or none: in C one word, null where there is none.
#[repr(C)]
pub struct Handle {
    at: *mut u8,
    /// The session.
    pub ghost value: { Option SessionState } by { coded_option the_row.coded },
}

impl Model for Handle {
    ghost use Rattle.vialshoal_c.specs.Owned.{owned};
    ghost use Rattle.vialshoal_c.specs.contracts.session.Session.{the_row};

    ghost also_owns = { λ h. owned the_row h.at h.value };
}

impl Handle {
    // No session.
    fn empty() -> Handle
        ensures { result.value ≡ None }
    {
        Handle { at: null_mut() }
    }

    // The handle of a box.
    fn of(loose: Loose<Session, Global>) -> Handle
        ensures { result.value ≡ Some loose.value }
    {
        let Loose { at, alloc: _ } = loose;
        Handle { at: at as *mut u8 }
    }

    // The box of a handle, if it has one.
    fn into_loose(self, alloc: Global) -> Option<Loose<Session, Global>>
        ensures none { IfNone result (self.value ≡ None) }
        ensures some { IfSome result (λ loose. self.value ≡ Some loose.value) }
    {
        let Handle { at } = self;
        if at.is_null() {
            None
        } else {
            Some(Loose {
                at: at as *mut Session,
                alloc,
            })
        }
    }

    // Takes the session out of a handle, which has none then.
    pub(crate) fn open(&mut self, alloc: Global) -> Option<Box<Session>>
        ensures none { IfNone result (self.old.value ≡ None) }
        ensures some { IfSome result (λ session. self.old.value ≡ Some session.value) }
        ensures empty { self.new.value ≡ None }
    {
        let loose = replace(self, Handle::empty()).into_loose(alloc)?;
        Some(loose.into_box())
    }

    // Puts a session into a handle; one that it had is freed.
    pub(crate) fn close(&mut self, alloc: Global, session: Box<Session>)
        ensures { self.new.value ≡ Some session.value }
    {
        let before = replace(self, Handle::of(Loose::of(session)));
        if let Some(loose) = before.into_loose(alloc) {
            drop(loose.into_box());
        }
    }
}
