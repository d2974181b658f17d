ghost use Rattle.std.specs.Prelude.{◌≡◌, ℕ, ◌+◌, ◌<◌, ◌≤◌, ◌↔◌, length, Contains, List, IfOk, IsSome, IsTrue};
ghost use Rattle.looks.specs.Refusal.{RefusedForMemoryAlone};
ghost use Rattle.operations.specs.Operation.{Operation};
ghost use Rattle.tree_order.specs.Good.{Good, IsPredecessor};
ghost use Rattle.set_laws.specs.Fronts.{greatest_stamp};
ghost use Rattle.set_laws.specs.Verdict.{FollowsOn, HasVerdict, IsNew};
ghost use Rattle.set_laws.specs.Verdict as verdict;
ghost use Rattle.note_laws.specs.Note.{Note, Saying as Said};
ghost use Rattle.note_laws.specs.Chains.{operations};
ghost use Rattle.note_laws.specs.Admission.{MeetsFate, said_of, MAX_LEAP as LEAP};
ghost use Rattle.waiting_room.specs.Judged.{verdict_of};
ghost use Rattle.note_admission.specs.declared.fate.Fate.TheVariants.{Counts};
ghost use Rattle.note_admission.specs.Fates.{fate_of, is_fit, is_ready, lacks_none};
ghost use Rattle.note_admission.specs.Kept.{IsKeptOf, IsMadeOver};

use crate::admitted::Admitted;
use crate::mentioned::mentioned_ranges;
use char_files::Name;
use looks::Refusal;
use note_entries::{Digest, Hash, Saying};
use op_log::Log;
use operations::Op;
use waiting_room::{GoodLog, Verdict, judge};

/// How far a message's stamp may be above the greatest one that is admitted.
pub const MAX_LEAP: u64 = 1 << 20;

/// What becomes of the next message of a chain.
#[derive(Clone, Copy, Debug, PartialEq, Eq)]
pub enum Fate {
    /// It counts.
    Counts,
    /// It is wrong, and its chain ends before it.
    Wrong,
    /// Its stamp is far above all that count: it waits for greater ones.
    HeldBack,
    /// It lacks characters of others, which it mentions.
    Lacks,
    /// It builds on messages that don't count.
    OnOthers,
}

impl Fate {
    /// Whether it is that the message counts.
    pub fn counts(self) -> bool
        ensures { IsTrue result ↔ (self ≡ Counts) }
    {
        match self {
            Fate::Counts => true,
            Fate::Wrong | Fate::HeldBack | Fate::Lacks | Fate::OnOthers => false,
        }
    }
}

// Whether the operation's stamp is above that of its predecessor, if it has one.
fn is_above_previous(log: &Log, op: &Op) -> bool
    requires new { IsNew log.now.ops op.now }
    requires follows { FollowsOn log.now.ops op.now }
    ensures { IsTrue result ↔ ((p : Operation) → Contains log.now.ops p → IsPredecessor p op.now
        → p.stamp < op.now.stamp) }
{
    log.lemma_are_held_to_the_front();
    op.seq() == 1 || log.op_stamp(op.site(), op.seq() - 1) < op.stamp()
}

// Whether the verdict says that the operation fits its site's file.
fn is_fit(verdict: Verdict) -> bool
    ensures { result ≡ is_fit verdict }
{
    match verdict {
        Verdict::Misfit => false,
        Verdict::Wait | Verdict::LowStamp | Verdict::Ready => true,
    }
}

// Whether it says that the characters of others are here, too.
fn lacks_none(verdict: Verdict) -> bool
    ensures { result ≡ lacks_none verdict }
{
    match verdict {
        Verdict::Misfit | Verdict::Wait => false,
        Verdict::LowStamp | Verdict::Ready => true,
    }
}

// Whether it says that the operation is ready.
fn is_ready(verdict: Verdict) -> bool
    ensures { result ≡ is_ready verdict }
{
    match verdict {
        Verdict::Misfit | Verdict::Wait | Verdict::LowStamp => false,
        Verdict::Ready => true,
    }
}

// Whether a message says what it builds on just where it has to.
fn says_where_it_must(saying: &Saying, lasts: &[Name]) -> bool
    ensures { IsTrue result ↔ (IsSome saying.now.on ↔ (0 < length lasts.now)) }
{
    match saying.on {
        Some(_) => !lasts.is_empty(),
        None => lasts.is_empty(),
    }
}

// Whether a message is well made, of which this is the verdict, and the last names beyond that it mentions.
fn is_well_made(log: &Log, saying: &Saying, verdict: Verdict, lasts: &[Name]) -> bool
    requires new { IsNew log.now.ops saying.now.op }
    requires follows { FollowsOn log.now.ops saying.now.op }
    requires judged { HasVerdict log.now.ops saying.now.op (verdict_of verdict) }
    ensures { IsTrue result ↔ IsMadeOver log.now.ops saying.now lasts.now }
{
    if !is_fit(verdict) {
        return false;
    }
    if !says_where_it_must(saying, lasts) {
        return false;
    }
    is_above_previous(log, &saying.op)
}

// Whether the stamp isn't far above all that the log has.
fn is_in_reach(log: &Log, op: &Op) -> bool
    ensures { IsTrue result ↔ (op.now.stamp ≤ greatest_stamp log.now.ops + LEAP) }
{
    op.stamp() <= log.stamp() + MAX_LEAP
}

// Whether this is what is said of these hashes.
fn is_said_of<D: Digest>(digest: &D, on: Option<Hash>, hashes: &[Hash]) -> bool
    ensures { IsTrue result ↔ (on ≡ said_of (D.digest digest.now) hashes.now) }
{
    match on {
        None => hashes.is_empty(),
        Some(said) => !hashes.is_empty() && said == digest.of(hashes),
    }
}

impl Admitted {
    /// What becomes of the next message of a chain, by the definition. The log has the operations of what is admitted.
    ///
    /// The time grows with the number of ranges that the message mentions, and as the logarithm of how many messages are
    /// admitted. Refused `OutOfMemory` alone.
    pub fn fate<D: Digest>(&self, log: &Log, digest: &D, saying: &Saying) -> Result<Fate, Refusal>
        requires whole { length self.now.hashes ≡ length log.now.ops }
        requires good { Good log.now.ops }
        requires new { IsNew log.now.ops saying.now.op }
        requires follows { FollowsOn log.now.ops saying.now.op }
        ensures ok { IfOk result (λ fate. (note : Note) (admitted : List Said) → operations admitted ≡ log.now.ops
            → IsKeptOf note admitted self.now → note.digest ≡ D.digest digest.now
            → MeetsFate note admitted saying.now (fate_of fate)) }
        ensures ready { IfOk result (λ fate. fate ≡ Counts → HasVerdict log.now.ops saying.now.op verdict.ready) }
        ensures errors { RefusedForMemoryAlone result }
    {
        log.lemma_are_held_to_the_front();
        let op = &saying.op;
        let ranges = mentioned_ranges(self.alloc(), op)?;
        let lasts = self.lasts_beyond(op.site(), &ranges)?;
        let verdict = judge(op, &GoodLog::new(log));
        if !is_well_made(log, saying, verdict, &lasts) {
            return Ok(Fate::Wrong);
        }
        if !is_in_reach(log, op) {
            return Ok(Fate::HeldBack);
        }
        if !lacks_none(verdict) {
            return Ok(Fate::Lacks);
        }
        let hashes = self.hashes_of_inserts(log, &lasts)?;
        if !is_said_of(digest, saying.on, &hashes) {
            return Ok(Fate::OnOthers);
        }
        if !is_ready(verdict) {
            return Ok(Fate::Wrong);
        }
        Ok(Fate::Counts)
    }
}
