//! The entries that say what a site did itself.

ghost use Rattle.std.specs.Prelude.{◌≡◌, ℕ, ◌⊎◌, true, false, List, All, IfErr, IfOk, IfSome, MatchOption, OnOk, Some as Just, slice_get};
ghost use Rattle.looks.specs.declared.refusal.Refusal.TheVariants as refusal;
ghost use Rattle.note_laws.specs.Note.{Saying as Said};
ghost use Rattle.note_laws.specs.Chains.{operations};
ghost use Rattle.note_bodies.specs.Writing.{nothing_said};
ghost use Rattle.note.specs.Editing.{IsOwnEntry, SayAllLeft, is_own_left, own_left};
ghost use Rattle.note.specs.Own.{HasNoRoom, HasPut, HaveSaid, IsNextEntry, PutsSaying};

use crate::note_text::NoteText;
use looks::Refusal;
use note_admission::Continuing;
use note_bodies::{BodyWriter, Head};
use note_entries::Hash;
use note_hashes::NoteKey;
use operations::Op;

/// An entry of a site's own that is to be made.
#[derive(Drop)]
pub struct OwnEntry {
    pub head: Head,
    pub body: Vec<u8>,
}

// How far own messages are put into entries.
#[derive(Drop)]
pub(crate) struct Turn {
    // The place in the replica of the next operation.
    pub(crate) place: u64,
    // The seq of the next message.
    pub(crate) seq: u32,
    // The hash of the last message.
    pub(crate) before: Hash,
    // Those that aren't admitted.
    pub(crate) between: Continuing,
}

impl NoteText {
    // Whether an operation is the site's own, and isn't admitted.
    fn is_own(&self, op: &Op) -> bool
        ensures { result ≡ is_own_left self.now op.now }
    {
        op.site() == self.replica.site() && self.admission.front(op.site()) < op.seq()
    }

    // Puts an own message into a body; `false` where that has no room.
    //
    // Refused `Behind` where it mentions another's character that isn't admitted, and `OutOfMemory`.
    fn write_message(
        &self,
        key: &NoteKey,
        author: Hash,
        op: Op,
        turn: &mut Turn,
        body: &mut BodyWriter,
    ) -> Result<bool, Refusal>
        requires { slice_get self.now.replica.operations turn.old.place ≡ Just op }
        ensures put { IfOk result (λ put. put ≡ true
            → PutsSaying key.now author self.now op turn.old turn.new body.old body.new) }
        ensures full { IfOk result (λ put. put ≡ false → HasNoRoom self.now op turn.old turn.new body.old body.new) }
        ensures errors { IfErr result (λ why. (why ≡ refusal.Behind) ⊎ (why ≡ refusal.OutOfMemory)) }
    {
        let on = self.admission.builds_on(key, &op, &turn.between)?;
        if !body.add(&op, self.replica.file_before(turn.place), on)? {
            return Ok(false);
        }
        turn.between.add(&op)?;
        turn.seq = op.seq().saturating_add(1);
        turn.before = key.saying(self.alloc, author, turn.before, op, on)?.hash;
        Ok(true)
    }

    // Puts own messages into an empty body, as many as go there: one at least, if one is left.
    //
    // Refused `Behind` where one mentions another's character that isn't admitted, and `OutOfMemory`.
    fn write_body(
        &self,
        key: &NoteKey,
        author: Hash,
        turn: &mut Turn,
        body: &mut BodyWriter,
    ) -> Result<(), Refusal>
        ensures ok { OnOk result ((last : ℕ) (said : List Said) → HaveSaid key.now author self.now last turn.old said
            → body.old ≡ nothing_said self.now.replica.text
            → HasPut key.now author self.now last said turn.old turn.new body.new) }
        ensures errors { IfErr result (λ why. (why ≡ refusal.Behind) ⊎ (why ≡ refusal.OutOfMemory)) }
    {
        self.replica.lemma_is_text();
        self.replica.lemma_are_taken_once();
        self.replica.lemma_have_spelling();
        while turn.place < self.replica.taken_len() {
            let op = self.replica.taken(turn.place)?;
            if self.is_own(&op) && !self.write_message(key, author, op, turn, body)? {
                return Ok(());
            }
            turn.place += 1;
        }
        Ok(())
    }

    // The entry that says the next own messages, `None` where none is left.
    //
    // Refused `Behind` where one mentions another's character that isn't admitted, and `OutOfMemory`.
    fn own_entry(
        &self,
        key: &NoteKey,
        author: Hash,
        turn: &mut Turn,
    ) -> Result<Option<OwnEntry>, Refusal>
        ensures some { IfOk result (λ entry. IfSome entry (IsOwnEntry author self.now)) }
        ensures ok { IfOk result (λ entry. (last : ℕ) (said : List Said)
            → HaveSaid key.now author self.now last turn.old said
            → MatchOption entry (operations said ≡ own_left self.now)
            (λ made. IsNextEntry key.now author self.now last said turn.old made turn.new)) }
        ensures errors { IfErr result (λ why. (why ≡ refusal.Behind) ⊎ (why ≡ refusal.OutOfMemory)) }
    {
        let (first, before) = (turn.seq, turn.before);
        let mut body = BodyWriter::new(self.alloc, self.replica.text())?;
        self.write_body(key, author, turn, &mut body)?;
        let count = body.count();
        if count == 0 {
            return Ok(None);
        }
        let head = Head {
            author,
            site: self.replica.site(),
            text: self.replica.text(),
            first,
            count,
            before,
        };
        Ok(Some(OwnEntry {
            head,
            body: body.finish(self.alloc)?,
        }))
    }

    // The entries that say the site's own messages that aren't admitted, in the order of their making; none where all are.
    //
    // Refused `Behind` where one mentions another's character that isn't admitted, and `OutOfMemory`.
    pub(crate) fn own_entries(&self, key: &NoteKey, author: Hash) -> Result<Vec<OwnEntry>, Refusal>
        ensures heads { IfOk result (λ entries. All (IsOwnEntry author self.now) entries.items) }
        ensures all { IfOk result (λ entries. SayAllLeft key.now author self.now entries.items) }
        ensures errors { IfErr result (λ why. (why ≡ refusal.Behind) ⊎ (why ≡ refusal.OutOfMemory)) }
    {
        let site = self.replica.site();
        let mut turn = Turn {
            place: self.alike,
            seq: self.admission.front(site).saturating_add(1),
            before: self.admission.last(site),
            between: Continuing::new(self.alloc),
        };
        let mut entries = Vec::new(self.alloc);
        while let Some(entry) = self.own_entry(key, author, &mut turn)? {
            entries.push(entry)?;
        }
        Ok(entries)
    }
}
