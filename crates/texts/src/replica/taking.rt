//! Messages of all sites are taken in, or wait for their causes.

ghost use Rattle.std.specs.Prelude.{◌≡◌, ◌<◌, ◌≤◌, ◌⊎◌, ℕ, All, length, [], Err, false, true};
ghost use Rattle.looks.specs.Refusal.{RefusedForMemoryAlone};
ghost use Rattle.operations.specs.Letters.{letter, letters};
ghost use Rattle.operations.specs.Spelling.{HasSpelling};
ghost use Rattle.set_laws.specs.Fronts.{IsHeld};
ghost use Rattle.set_laws.specs.Verdict.{IsNew, ready};
ghost use Rattle.texts.specs.Take.{Enters, HasFate, Stays, StaysOut, Takes, TakesIn, TakesOp, TakesOpShort};
ghost use Rattle.texts.specs.Take.{TakesShort};
ghost use Rattle.texts.specs.Taking.{HasTakenAll, IsJudged};

use super::Replica;
use crate::fate::Fate;
use crate::settled::Settled;
use crate::took::Took;
use looks::Refusal;
use operations::{MAX_INSERT, Op, Typing, decode};
use waiting_room::{GoodLog, Verdict, judge};

impl Replica {
    // What becomes of an operation of this text whose identity isn't held, and under which none waits.
    fn judged(&self, op: &Op) -> Fate
        requires text { op.now.text ≡ self.now.text }
        requires new { IsNew self.now.operations op.now }
        requires unheard { ¬ IsHeld self.now.waiting_room op.now.site op.now.seq }
        ensures { HasFate self.now op.now result }
    {
        self.taken.lemma_is_defined();
        match judge(op, &GoodLog::new(self.taken.log())) {
            Verdict::Wait => Fate::Wait,
            Verdict::Misfit => Fate::Misfit,
            Verdict::LowStamp => Fate::LowStamp,
            Verdict::Ready => Fate::Ready,
        }
    }

    // What becomes of an operation of this text whose identity isn't held.
    fn fate_of_new(&self, op: &Op) -> Fate
        requires text { op.now.text ≡ self.now.text }
        requires new { IsNew self.now.operations op.now }
        ensures { HasFate self.now op.now result }
    {
        match self.room.waits(op) {
            Some(true) => Fate::AlreadyWaits,
            Some(false) => Fate::Conflicting,
            None => self.judged(op),
        }
    }

    // What becomes of an operation.
    fn fate_of(&self, op: &Op) -> Fate
        ensures { HasFate self.now op.now result }
    {
        op.lemma_has_spelling();
        if op.text() != self.text {
            return Fate::OtherText;
        }
        let log = self.taken.log();
        if !log.holds(op.site(), op.seq()) {
            return self.fate_of_new(op);
        }
        if log.agrees_on(op) {
            Fate::Known
        } else {
            Fate::Conflicting
        }
    }

    // Lets an operation wait, if there is a place.
    fn let_wait(&mut self, op: Op) -> Result<Took, Refusal>
        requires { HasFate self.old op Fate.Wait }
        ensures { Enters self.old op result self.new ⊎ StaysOut self.old result self.new }
    {
        self.room.offer(op)?;
        Ok(Took::Waits)
    }

    // Takes in an operation that is ready, and drains the room.
    fn take_in(&mut self, op: Op) -> Result<Took, Refusal>
        requires { HasFate self.old op Fate.Ready }
        ensures { TakesIn self.old op false result self.new
            ⊎ (TakesIn self.old op true result self.new
            ⊎ Stays self.old (Err Refusal.OutOfMemory) result self.new) }
    {
        self.take_over(op)?;
        let Settled {
            drained,
            dropped,
            stopped,
        } = self.settle();
        Ok(Took::Taken {
            drained,
            dropped,
            stopped,
        })
    }

    /// Takes in an operation of any site, or lets it wait for its causes. What waited for it is taken in after it.
    ///
    /// Refused, in this order, `WrongText`, `Conflict` where another operation is held or waits under its identity;
    /// then, by the verdict, `RoomFull` where it would have to wait and 64 wait already, `BadOffset`, `BadStamp`. A
    /// repeat is answered so, and changes nothing, whether its operation is held or waits. `OutOfMemory` comes only
    /// where the operation is ready, or has to wait and has a place.
    pub fn take_op(&mut self, op: Op) -> Result<Took, Refusal>
        ensures { TakesOp self.old op result self.new ⊎ TakesOpShort self.old op result self.new }
    {
        match self.fate_of(&op) {
            Fate::OtherText => Err(Refusal::WrongText),
            Fate::Known => Ok(Took::Repeat),
            Fate::Conflicting => Err(Refusal::Conflict),
            Fate::AlreadyWaits => Ok(Took::Waits),
            Fate::Wait => self.let_wait(op),
            Fate::Misfit => Err(Refusal::BadOffset),
            Fate::LowStamp => Err(Refusal::BadStamp),
            Fate::Ready => self.take_in(op),
        }
    }

    /// Takes in the operation that a message tells, as `take_op` does.
    ///
    /// Refused `Malformed` where it tells none, before all other refusals; and `OutOfMemory`, also where there is
    /// no memory to read it.
    pub fn take(&mut self, message: &[u8]) -> Result<Took, Refusal>
        ensures { Takes self.old message.now result self.new ⊎ TakesShort self.old message.now result self.new }
    {
        let op = decode(self.alloc, message)?;
        op.lemma_has_spelling();
        self.take_op(op)
    }

    // Whether the next letter that is typed there is ready, whichever it is, where nothing waits.
    fn is_letter_ready(&self, typing: &Typing, byte: u8) -> Result<bool, Refusal>
        requires spelled { HasSpelling (letter typing.now byte) }
        requires room { self.now.waiting_room ≡ [] }
        ensures ready { result ≡ Ok true → (b : ℕ) → IsJudged self.now (letter typing.now b) ready }
        ensures others { result ≡ Ok false → (b : ℕ) → ¬ IsJudged self.now (letter typing.now b) ready }
        ensures errors { RefusedForMemoryAlone result }
    {
        let op = typing.letter(self.alloc, byte)?;
        match self.fate_of(&op) {
            Fate::Ready => Ok(true),
            _ => Ok(false),
        }
    }

    /// Takes in letters that a site typed one after the other, where nothing waits: all of them, if the first is ready, which
    /// is answered; else none. Refused `OutOfMemory` alone, and then none is taken in.
    pub fn take_letters(&mut self, typing: &Typing, bytes: &[u8]) -> Result<bool, Refusal>
        requires some { 0 < length bytes.now }
        requires few { length bytes.now ≤ MAX_INSERT }
        requires spelled { All HasSpelling (letters typing.now bytes.now) }
        requires room { self.old.waiting_room ≡ [] }
        ensures taken { result ≡ Ok true → HasTakenAll self.old (letters typing.now bytes.now) self.new }
        ensures others { result ≡ Ok false → (b : ℕ) → ¬ IsJudged self.old (letter typing.now b) ready }
        ensures kept { (result ≡ Ok true → ⊥) → self.new ≡ self.old }
        ensures errors { RefusedForMemoryAlone result }
    {
        if !self.is_letter_ready(typing, bytes[0])? {
            return Ok(false);
        }
        self.taken.add_letters(typing, bytes)?;
        self.lemma_is_text();
        self.let_notes_go();
        Ok(true)
    }
}
