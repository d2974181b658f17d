ghost use Rattle.std.specs.Prelude.{◌≡◌, None, Some, IfSome, IfNone, Option};
ghost use Rattle.std.specs.Coded.{coded_option};
ghost use Rattle.texts.specs.TextState.{TextState};
ghost use Rattle.texts.specs.contracts.past.Past.{the_row};

use crate::loose::Loose;
use std::alloc::Global;
use std::marker::Model;
use std::mem::replace;
use std::ptr::null_mut;
use texts::Past;

/// A text as it was in a box, or none: in C one word, null where there is none. It is a `Handle` to a past text.
#[repr(C)]
pub struct PastHandle {
    at: *mut u8,
    /// The text.
    pub ghost value: { Option TextState } by { coded_option the_row.coded },
}

impl Model for PastHandle {
    ghost use Rattle.texts.specs.contracts.past.Past.{the_row};
    ghost use Rattle.vialshoal_c.specs.Owned.{owned};

    ghost also_owns = { λ h. owned the_row h.at h.value };
}

impl PastHandle {
    // No text.
    fn empty() -> PastHandle
        ensures { result.value ≡ None }
    {
        PastHandle { at: null_mut() }
    }

    // The handle of a box.
    fn of(loose: Loose<Past, Global>) -> PastHandle
        ensures { result.value ≡ Some loose.value }
    {
        let Loose { at, alloc: _ } = loose;
        PastHandle { at: at as *mut u8 }
    }

    // The box of a handle, if it has one.
    fn into_loose(self, alloc: Global) -> Option<Loose<Past, Global>>
        ensures none { IfNone result (self.value ≡ None) }
        ensures some { IfSome result (λ loose. self.value ≡ Some loose.value) }
    {
        let PastHandle { at } = self;
        if at.is_null() {
            None
        } else {
            Some(Loose {
                at: at as *mut Past,
                alloc,
            })
        }
    }

    // Takes the text out of a handle, which has none then.
    pub(crate) fn open(&mut self, alloc: Global) -> Option<Box<Past>>
        ensures none { IfNone result (self.old.value ≡ None) }
        ensures some { IfSome result (λ past. self.old.value ≡ Some past.value) }
        ensures empty { self.new.value ≡ None }
    {
        let loose = replace(self, PastHandle::empty()).into_loose(alloc)?;
        Some(loose.into_box())
    }

    // Puts a text into a handle; one that it had is freed.
    pub(crate) fn close(&mut self, alloc: Global, past: Box<Past>)
        ensures { self.new.value ≡ Some past.value }
    {
        let before = replace(self, PastHandle::of(Loose::of(past)));
        if let Some(loose) = before.into_loose(alloc) {
            drop(loose.into_box());
        }
    }
}
