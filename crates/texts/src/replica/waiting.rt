//! What waits is taken in as its causes come.

ghost use Rattle.std.specs.Prelude.{◌≡◌, [], length, IfNone, IfSome};
ghost use Rattle.waiting_room.specs.Room.{IsFirstToLeave};
ghost use Rattle.texts.specs.Draining.{AllStay, Drains, IsReadyAt, LeavesRoom};
ghost use Rattle.texts.specs.TextState.{with_room};

use super::Replica;
use crate::settled::Settled;
use looks::Refusal;
use waiting_room::{GoodLog, Verdict, judge};

impl Replica {
    // The index of the first waiting operation, in order of arrival, that doesn't stay.
    fn first_out(&self) -> Option<usize>
        ensures none { IfNone result (AllStay self.now) }
        ensures some { IfSome result (IsFirstToLeave self.now.operations self.now.waiting_room) }
    {
        self.taken.lemma_is_defined();
        self.room.first_ready(&GoodLog::new(self.taken.log()))
    }

    // Whether the waiting operation at this index can be taken in.
    fn is_ready(&self, index: usize) -> bool
        requires { IsFirstToLeave self.now.operations self.now.waiting_room index }
        ensures { IsReadyAt self.now index result }
    {
        self.lemma_is_text();
        let op = self.room.get(index);
        op.lemma_has_spelling();
        let log = self.taken.log();
        !log.holds(op.site(), op.seq()) && matches!(judge(op, &GoodLog::new(log)), Verdict::Ready)
    }

    // The waiting operation at this index leaves the room: it is taken in if it is ready, which is answered, else
    // thrown away. An `Err` changes nothing.
    fn take_out(&mut self, index: usize) -> Result<bool, Refusal>
        requires { IsFirstToLeave self.old.operations self.old.waiting_room index }
        ensures { LeavesRoom self.old index result self.new }
    {
        if !self.is_ready(index) {
            let _ = self.room.remove(index);
            return Ok(false);
        }
        // It stays where memory is refused.
        let op = self.room.get(index).copy()?;
        self.take_over(op)?;
        let _ = self.room.remove(index);
        self.lemma_is_text();
        Ok(true)
    }

    /// Drains the room: again and again the first waiting operation, in order of arrival, that is held by now or
    /// waits for no cause leaves it, and is taken in if it is ready, else thrown away. A merge and a want of memory
    /// may leave such ones.
    pub fn settle(&mut self) -> Settled
        ensures { Drains self.old result.drained result.dropped result.stopped self.new }
    {
        self.lemma_is_text();
        let (mut drained, mut dropped) = (0, 0);
        while let Some(index) = self.first_out() {
            match self.take_out(index) {
                Ok(true) => drained += 1,
                Ok(false) => dropped += 1,
                Err(_) => {
                    let stopped = true;
                    return Settled {
                        drained,
                        dropped,
                        stopped,
                    };
                }
            }
        }
        Settled {
            drained,
            dropped,
            stopped: false,
        }
    }

    /// Throws away all operations that wait, and answers how many there were. They may come again.
    pub fn forget_waiting(&mut self) -> u32
        ensures count { result ≡ length self.old.waiting_room }
        ensures forgotten { self.new ≡ with_room self.old [] }
    {
        self.room.clear()
    }
}
