//! The site's next operation: what refuses it, and how it is made and sent.

ghost use Rattle.std.specs.Prelude.{◌≡◌, [], ◌∷◌, ◌++◌, Some, None, IfSome, IfNone, OnOk, OnErr};
ghost use Rattle.std.specs.Prelude.{◌<◌, ◌≤◌, length, nat_lt, if◌then◌else◌};
ghost use Rattle.looks.specs.Refusal.{RefusedForMemoryAlone};
ghost use Rattle.char_files.specs.declared.TheConstants.{MAX_FILE};
ghost use Rattle.operations.specs.NameSet.{IsNamed};
ghost use Rattle.operations.specs.Operation.{OpKind};
ghost use Rattle.operations.specs.Seen.{kind_of};
ghost use Rattle.operations.specs.Spelling.{IsKind, spelling};
ghost use Rattle.set_laws.specs.Verdict.{ready};
ghost use Rattle.waiting_room.specs.Room.{is_behind};
ghost use Rattle.texts.specs.Edit.{own_op};
ghost use Rattle.texts.specs.Outcome.{is_scattered, passes_file, refusal_for};
ghost use Rattle.texts.specs.Own.{MayGoOn, answer_of_one, refused_after};
ghost use Rattle.texts.specs.Taking.{HasTaken, IsJudged};

use super::Replica;
use crate::MAX_SEQ;
use crate::edit_refusal::EditRefusal;
use crate::outbox::Outbox;
use char_files::MAX_FILE;
use looks::Refusal;
use operations::{Kind, MAX_RANGES, MAX_STAMP, NameSet, Op};
use waiting_room::GoodLog;

// What an edit of one operation answers.
pub(crate) fn answer_of_one(made: Result<(), Refusal>) -> Result<u32, EditRefusal>
    ensures { result ≡ answer_of_one made }
{
    match made {
        Ok(()) => Ok(1),
        Err(why) => Err(EditRefusal::Whole(why)),
    }
}

// What an edit answers of whose operations so many stand, and the next one was refused.
pub(crate) fn refused_after(done: u32, why: Refusal) -> EditRefusal
    ensures { result ≡ refused_after done why }
{
    if done == 0 {
        EditRefusal::Whole(why)
    } else {
        EditRefusal::Partial { done, why }
    }
}

// A law: a set with a name at least is one that a message may name. A proof gets it by calling this, at no cost.
pub(crate) fn lemma_may_be_named(names: &NameSet)
    ensures few { length names.now ≤ MAX_RANGES }
    ensures some { 0 < length names.now → IsNamed names.now }
{
    let _ = names.ranges();
}

impl Replica {
    // Whether a waiting operation shows that the site has gone further than is known here.
    fn is_behind(&self) -> bool
        ensures { result ≡ is_behind self.now.operations self.now.waiting_room self.now.site }
    {
        self.lemma_is_text();
        self.room.behind(self.site, &GoodLog::new(self.taken.log()))
    }

    // Why the site's next operation is refused, whatever the memory and its ranges, where the site's file, or the
    // stretch that it keeps, would have so many bytes.
    pub(crate) fn refusal_for(&self, len: u64) -> Option<Refusal>
        ensures some { IfSome result (λ why. (kind : OpKind)
            → passes_file self.now kind ≡ nat_lt MAX_FILE len → refusal_for self.now kind ≡ Some why) }
        ensures none { IfNone result ((kind : OpKind) → passes_file self.now kind ≡ nat_lt MAX_FILE len
            → refusal_for self.now kind ≡ (if is_scattered kind then Some Refusal.Scattered else None)) }
    {
        let log = self.taken.log();
        if self.is_behind() {
            Some(Refusal::Behind)
        } else if log.front(self.site) == MAX_SEQ {
            Some(Refusal::SeqSpent)
        } else if log.stamp() == MAX_STAMP {
            Some(Refusal::StampsSpent)
        } else if MAX_FILE < len {
            Some(Refusal::FileSpent)
        } else {
            None
        }
    }

    // The site's next operation, which is of this kind.
    fn next_op(&self, kind: Kind) -> Op
        requires allowed { MayGoOn self.now }
        requires valid { IsKind self.now.site (kind_of kind) }
        ensures { result ≡ own_op self.now (kind_of kind) }
    {
        // The numbers are in range by their types.
        let _ = (self.text.get(), self.site.get());
        let log = self.taken.log();
        let (seq, stamp) = (log.front(self.site) + 1, log.stamp() + 1);
        Op::new(self.text, self.site, seq, stamp, kind).unwrap()
    }

    // Takes in the site's next operation, which is of this kind, and sends it. An `Err` changes nothing.
    pub(crate) fn make(&mut self, kind: Kind, outbox: &mut Outbox) -> Result<(), Refusal>
        requires allowed { MayGoOn self.old }
        requires valid { IsKind self.old.site (kind_of kind) }
        requires ready { IsJudged self.old (own_op self.old (kind_of kind)) ready }
        ensures ok { let op = own_op self.old (kind_of kind) in
            OnOk result (HasTaken self.old op self.new × (outbox.new ≡ outbox.old ++ spelling op ∷ [])) }
        ensures errors { RefusedForMemoryAlone result }
        ensures err { OnErr result ((self.new ≡ self.old) × (outbox.new ≡ outbox.old)) }
    {
        let op = self.next_op(kind);
        outbox.push(&op)?;
        if let Err(why) = self.take_over(op) {
            outbox.take_back();
            return Err(why);
        }
        Ok(())
    }
}
