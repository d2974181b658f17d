//! What a message of one's own has to say that it builds on.

ghost use Rattle.std.specs.Prelude.{◌≡◌, ◌⊎◌, ◌++◌, length, Contains, List, IfErr, IfOk, IsTrue};
ghost use Rattle.looks.specs.declared.refusal.Refusal.TheVariants as refusal;
ghost use Rattle.char_files.specs.CharName.{CharName};
ghost use Rattle.tree_order.specs.Good.{Good};
ghost use Rattle.set_laws.specs.Fronts.{IsHere};
ghost use Rattle.note_laws.specs.Note.{Note, Saying as Said};
ghost use Rattle.note_laws.specs.Chains.{operations};
ghost use Rattle.note_laws.specs.Admission.{BuildsOn, said_of};
ghost use Rattle.note_admission.specs.Continuing.{AreMentionedIn};
ghost use Rattle.note_admission.specs.Kept.{IsKeptOf};

use crate::admitted::Admitted;
use crate::continuing::Continuing;
use crate::mentioned::mentioned_ranges;
use char_files::Name;
use looks::Refusal;
use note_entries::{Digest, Hash};
use op_log::Log;
use operations::Op;

// Whether all of these characters are here.
fn are_here(log: &Log, names: &[Name]) -> bool
    ensures { IsTrue result → (name : CharName) → Contains names.now name → IsHere log.now.ops name }
{
    for name in names {
        if log.file_len(name.site()) <= name.off() {
            return false;
        }
    }
    true
}

// What is said of these hashes.
fn said_of<D: Digest>(digest: &D, hashes: &[Hash]) -> Option<Hash>
    ensures { result ≡ said_of (D.digest digest.now) hashes.now }
{
    if hashes.is_empty() {
        None
    } else {
        Some(digest.of(hashes))
    }
}

impl Admitted {
    /// What the next message of a chain has to say that it builds on, where this is its operation, and these messages of the chain come
    /// between what is admitted and it. The log has the operations of what is admitted.
    ///
    /// Refused `Behind` where it mentions another's character that isn't there, and `OutOfMemory`.
    pub fn builds_on<D: Digest>(
        &self,
        log: &Log,
        digest: &D,
        op: &Op,
        between: &Continuing,
    ) -> Result<Option<Hash>, Refusal>
        requires whole { length self.now.hashes ≡ length log.now.ops }
        requires good { Good log.now.ops }
        ensures ok { IfOk result (λ on. (note : Note) (admitted more : List Said) → operations admitted ≡ log.now.ops
            → IsKeptOf note admitted self.now → AreMentionedIn op.now.site more between.now → note.digest ≡ D.digest digest.now
            → (s : Said) → s.op ≡ op.now → s.on ≡ on → BuildsOn note (admitted ++ more) s) }
        ensures errors { IfErr result (λ why. (why ≡ refusal.Behind) ⊎ (why ≡ refusal.OutOfMemory)) }
    {
        log.lemma_are_held_to_the_front();
        let ranges = mentioned_ranges(self.alloc(), op)?;
        let lasts = self.lasts_beyond(op.site(), &ranges)?;
        let past = between.past(&lasts)?;
        if !are_here(log, &past) {
            return Err(Refusal::Behind);
        }
        let hashes = self.hashes_of_inserts(log, &past)?;
        Ok(said_of(digest, &hashes))
    }
}
