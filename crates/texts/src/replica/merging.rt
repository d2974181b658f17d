//! Another replica's operations are taken over.

ghost use Rattle.std.specs.Prelude.{◌≡◌, ◌⊎◌, ◌<◌, ◌++◌, length, slice_get, MatchBool, OnErr, OnOk, Some};
ghost use Rattle.looks.specs.Refusal.{RefusedForMemoryAlone};
ghost use Rattle.operations.specs.Operation.{Operation};
ghost use Rattle.set_laws.specs.Sets.{AreIdentified};
ghost use Rattle.set_laws.specs.Verdict.{ready};
ghost use Rattle.texts.specs.Merge.{AreInConflict, CanMerge, IsUnionOf, Merges, MergesShort};
ghost use Rattle.texts.specs.Taking.{HasTaken, IsJudged};

use super::Replica;
use crate::merge_refusal::MergeRefusal;
use looks::Refusal;
use operations::Op;

impl Replica {
    // Whether no identity is held with two operations, here and there.
    fn agrees_with(&self, other: &Replica) -> bool
        ensures { MatchBool result (AreIdentified (self.now.operations ++ other.now.operations))
            (AreInConflict self.now other.now) }
    {
        self.taken.log().agrees_with(other.taken.log())
    }

    // Takes in an operation that is ready. Of what it changed nothing is kept where noting has ended. An `Err` changes nothing.
    pub(crate) fn take_over(&mut self, op: Op) -> Result<(), Refusal>
        requires { IsJudged self.old op ready }
        ensures ok { OnOk result (HasTaken self.old op self.new) }
        ensures errors { RefusedForMemoryAlone result }
        ensures err { OnErr result (self.new ≡ self.old) }
    {
        self.taken.add(op)?;
        self.lemma_is_text();
        self.let_notes_go();
        Ok(())
    }

    // Takes in the operation at this place of another replica, which is ready here. An `Err` changes nothing.
    fn take_over_at(&mut self, other: &Replica, place: u64) -> Result<(), Refusal>
        requires within { place < length other.now.operations }
        requires ready { (op : Operation) → slice_get other.now.operations place ≡ Some op → IsJudged self.old op ready }
        ensures ok { OnOk result ((op : Operation) → slice_get other.now.operations place ≡ Some op
            → HasTaken self.old op self.new) }
        ensures errors { RefusedForMemoryAlone result }
        ensures err { OnErr result (self.new ≡ self.old) }
    {
        let op = other.taken(place)?;
        self.take_over(op)
    }

    // Takes in those of another replica's operations that aren't held here.
    fn take_news(&mut self, other: &Replica) -> Result<u64, MergeRefusal>
        requires { CanMerge self.old other.now }
        ensures { Merges self.old other.now result self.new ⊎ MergesShort self.old other.now result self.new }
    {
        self.lemma_is_text();
        other.lemma_is_text();
        other.lemma_are_taken_once();
        let mut done = 0;
        for place in 0..other.taken_len() {
            let (site, seq) = other.taken_identity(place);
            if self.front(site) < seq {
                if self.take_over_at(other, place).is_err() {
                    return Err(MergeRefusal::Stopped { done });
                }
                done += 1;
            }
        }
        Ok(done)
    }

    /// Takes in all operations of another replica that aren't held here, in its order, and answers how many they
    /// are. The room isn't drained: `settle` does that. It costs their taking in, and a look-up for each operation
    /// that the other holds.
    ///
    /// Refused, before anything is changed, `WrongText`, or `Conflict` where an identity is held with two
    /// operations; where memory is refused, those taken in before stand.
    pub fn merge_from(&mut self, other: &Replica) -> Result<u64, MergeRefusal>
        ensures merges { Merges self.old other.now result self.new ⊎ MergesShort self.old other.now result self.new }
        ensures union { OnOk result (IsUnionOf self.old other.now self.new) }
    {
        if other.text != self.text {
            return Err(MergeRefusal::Whole(Refusal::WrongText));
        }
        if !self.agrees_with(other) {
            return Err(MergeRefusal::Whole(Refusal::Conflict));
        }
        self.lemma_is_text();
        other.lemma_is_text();
        self.take_news(other)
    }
}
