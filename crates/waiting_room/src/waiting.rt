//! An operation that waits, with a hint of what it waits for.

ghost use Rattle.std.specs.Prelude.{◌≡◌, ◌↔◌, IsTrue};
ghost use Rattle.set_laws.specs.Verdict.{HasForeignNames, IsNew};
ghost use Rattle.waiting_room.specs.Room.{StaysWaiting};

use crate::held::Held;
use crate::judging::{fits_file, follows_on};
use crate::missing::{misses, missing_name};
use char_files::Name;
use operations::Op;
use std::cell::Cell;
use std::marker::Model;

/// An operation that waits. It is seen as the operation alone.
#[derive(Drop)]
pub(crate) struct Waiting {
    op: Op,
    // The name that was found missing last. It is asked again, and never believed.
    missing: Cell<Option<Name>>,
}

impl Model for Waiting {
    ghost use Rattle.operations.specs.Operation.{Operation};

    ghost Value = { Operation };

    ghost view = { λ w. w.op };
}

// Whether the operation's identity isn't held.
fn is_new<H: Held>(op: &Op, held: &H) -> bool
    ensures { IsTrue result ↔ IsNew (H.ops held.now) op.now }
{
    held.lemma_are_good();
    held.front(op.site()) < op.seq()
}

impl Waiting {
    /// The operation, of which nothing is known.
    pub(crate) fn new(op: Op) -> Waiting
        ensures { result ≡ op }
    {
        Waiting {
            op,
            missing: Cell::new(None),
        }
    }

    /// The operation.
    pub(crate) fn op(&self) -> &Op
        ensures { result.now ≡ self.now }
    {
        &self.op
    }

    /// The operation, which waits no more.
    pub(crate) fn into_op(self) -> Op
        ensures { result ≡ self }
    {
        self.op
    }

    // Whether a name of another site is missing. The one that was missing last is asked first.
    fn misses_a_name<H: Held>(&self, held: &H) -> bool
        ensures { IsTrue result ↔ (¬ HasForeignNames (H.ops held.now) self.now) }
    {
        if let Some(name) = self.missing.get() {
            if misses(&self.op, name, held) {
                return true;
            }
        }
        let missing = missing_name(&self.op, held);
        self.missing.set(missing);
        missing.is_some()
    }

    /// Whether it stays: its identity isn't held, and the verdict is that it waits.
    pub(crate) fn stays<H: Held>(&self, held: &H) -> bool
        ensures { IsTrue result ↔ StaysWaiting (H.ops held.now) self.now }
    {
        if !is_new(&self.op, held) {
            return false;
        }
        if !follows_on(&self.op, held) {
            return true;
        }
        fits_file(&self.op, held) && self.misses_a_name(held)
    }
}
