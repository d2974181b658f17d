//! The text as it was, up to fronts that somebody names.

ghost use Rattle.std.specs.Prelude.{◌≡◌, ◌↔◌, IfOk, IsTrue, OnOk};
ghost use Rattle.looks.specs.Refusal.{RefusedForMemoryAlone};
ghost use Rattle.set_laws.specs.Verdict.{IsNew};
ghost use Rattle.texts.specs.Past.{IsDue, IsPastOf};
ghost use Rattle.texts.specs.TextState.{empty_text};

use super::Replica;
use crate::front::{Front, front_in};
use crate::past::Past;
use looks::Refusal;
use operations::Op;
use waiting_room::{GoodLog, Verdict, judge};

impl Replica {
    // Whether an operation whose identity isn't held is up to the fronts, and ready.
    fn is_due(&self, op: &Op, fronts: &[Front]) -> bool
        requires { IsNew self.now.operations op.now }
        ensures { IsTrue result ↔ IsDue self.now.operations fronts.now op.now }
    {
        self.taken.lemma_is_defined();
        op.seq() <= front_in(fronts, op.site())
            && matches!(judge(op, &GoodLog::new(self.taken.log())), Verdict::Ready)
    }

    // Takes in, in an empty text, those of another replica's operations up to the fronts that are ready in their turn.
    fn take_past(&mut self, other: &Replica, fronts: &[Front]) -> Result<(), Refusal>
        requires { self.old ≡ empty_text other.now.text other.now.site }
        ensures ok { OnOk result (IsPastOf other.now fronts.now self.new) }
        ensures errors { RefusedForMemoryAlone result }
    {
        self.lemma_is_text();
        other.lemma_is_text();
        other.lemma_are_taken_once();
        for place in 0..other.taken_len() {
            let op = other.taken(place)?;
            if self.is_due(&op, fronts) {
                self.take_over(op)?;
            }
        }
        Ok(())
    }

    /// The text as it was up to these fronts: what its operations up to them show. One whose causes aren't up to them
    /// is left out. A front past what is held means what is held, and a site that has no front has no operations.
    ///
    /// It is a text of its own, which takes room; this one isn't changed. The time grows with the number of operations
    /// times that of the fronts. Refused `OutOfMemory` alone.
    pub fn past(&self, fronts: &[Front]) -> Result<Past, Refusal>
        ensures ok { IfOk result (λ p. IsPastOf self.now fronts.now p) }
        ensures errors { RefusedForMemoryAlone result }
    {
        let mut past = Replica::new(self.alloc, self.text, self.site)?;
        past.take_past(self, fronts)?;
        Ok(Past::new(past))
    }
}
