ghost use Rattle.std.specs.Prelude.{◌≡◌, None, Some, IfSome, IfNone, Option};
ghost use Rattle.std.specs.Coded.{coded_option};
ghost use Rattle.vialshoal_c.specs.NoteState.{NoteState};
ghost use Rattle.vialshoal_c.specs.contracts.note_session.NoteSession.{the_row};

use crate::loose::Loose;
use crate::note_session::NoteSession;
use std::alloc::Global;
use std::marker::Model;
use std::mem::replace;
use std::ptr::null_mut;

/// A note in a box, or none: in C one word, null where there is none. It is a `Handle` to a note.
#[repr(C)]
pub struct NoteHandle {
    at: *mut u8,
    /// The note.
    pub ghost value: { Option NoteState } by { coded_option the_row.coded },
}

impl Model for NoteHandle {
    ghost use Rattle.vialshoal_c.specs.Owned.{owned};
    ghost use Rattle.vialshoal_c.specs.contracts.note_session.NoteSession.{the_row};

    ghost also_owns = { λ h. owned the_row h.at h.value };
}

impl NoteHandle {
    // No note.
    fn empty() -> NoteHandle
        ensures { result.value ≡ None }
    {
        NoteHandle { at: null_mut() }
    }

    // The handle of a box.
    fn of(loose: Loose<NoteSession, Global>) -> NoteHandle
        ensures { result.value ≡ Some loose.value }
    {
        let Loose { at, alloc: _ } = loose;
        NoteHandle { at: at as *mut u8 }
    }

    // The box of a handle, if it has one.
    fn into_loose(self, alloc: Global) -> Option<Loose<NoteSession, Global>>
        ensures none { IfNone result (self.value ≡ None) }
        ensures some { IfSome result (λ loose. self.value ≡ Some loose.value) }
    {
        let NoteHandle { at } = self;
        if at.is_null() {
            None
        } else {
            Some(Loose {
                at: at as *mut NoteSession,
                alloc,
            })
        }
    }

    // Takes the note out of a handle, which has none then.
    pub(crate) fn open(&mut self, alloc: Global) -> Option<Box<NoteSession>>
        ensures none { IfNone result (self.old.value ≡ None) }
        ensures some { IfSome result (λ note. self.old.value ≡ Some note.value) }
        ensures empty { self.new.value ≡ None }
    {
        let loose = replace(self, NoteHandle::empty()).into_loose(alloc)?;
        Some(loose.into_box())
    }

    // Puts a note into a handle; one that it had is freed.
    pub(crate) fn close(&mut self, alloc: Global, note: Box<NoteSession>)
        ensures { self.new.value ≡ Some note.value }
    {
        let before = replace(self, NoteHandle::of(Loose::of(note)));
        if let Some(loose) = before.into_loose(alloc) {
            drop(loose.into_box());
        }
    }
}
