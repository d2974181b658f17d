//! Edits of the site's own.

ghost use Rattle.std.specs.Prelude.{◌≡◌, ◌-◌, ◌<◌, ◌≤◌, ◌⊎◌, ◌↔◌, [], length, slice_range, IfOk, IfErr, IsOk};
ghost use Rattle.std.specs.Prelude.{IsErrOf};
ghost use Rattle.looks.specs.Refusal.{RefusedForMemoryAlone};
ghost use Rattle.char_files.specs.declared.TheConstants.{MAX_FILE};
ghost use Rattle.texts.specs.Edit.{deletion, looks_change, restoration};
ghost use Rattle.texts.specs.Outcome.{EditsSending};
ghost use Rattle.texts.specs.TextState.{shown_items, shown_of};

use super::Replica;
use super::own::answer_of_one;
use crate::edit_refusal::EditRefusal;
use crate::outbox::Outbox;
use char_files::Buffer;
use looks::{Looks, Refusal, Sel};

impl Replica {
    /// Takes the characters shown from `beg` to `end` out of what is shown, by one Delete. The stretch is kept
    /// for `recall`, and its names for `restore`; a refused one leaves those kept before.
    ///
    /// Answers how many messages it added to the Outbox. Refused, in this order, `Behind`, `SeqSpent` and
    /// `StampsSpent` as in `insert`, `FileSpent` where the stretch has more than 2^24 characters, `Scattered` where
    /// its names make more than 1,024 ranges, and `OutOfMemory`, which may come before `Scattered`. An empty
    /// stretch sends nothing and is never refused.
    pub fn delete(&mut self, beg: u64, end: u64, outbox: &mut Outbox) -> Result<u32, EditRefusal>
        requires range { beg ≤ end }
        requires in_text { end ≤ length (shown_of self.old) }
        ensures { EditsSending self.old (deletion beg end) result self.new outbox.old outbox.new }
    {
        self.lemma_is_text();
        if beg == end {
            return Ok(0);
        }
        answer_of_one(self.delete_some(beg, end, outbox))
    }

    /// Gives the characters shown from `beg` to `end` the looks that are selected, by one ChangeLooks.
    ///
    /// Answers how many messages it added to the Outbox. Refused, in this order, `Behind`, `SeqSpent` and
    /// `StampsSpent` as in `insert`, `Scattered` where the names make more than 1,024 ranges, and `OutOfMemory`,
    /// which may come before `Scattered`. An empty stretch sends nothing and is never refused.
    pub fn change_looks(
        &mut self,
        beg: u64,
        end: u64,
        sel: Sel,
        looks: &Looks,
        outbox: &mut Outbox,
    ) -> Result<u32, EditRefusal>
        requires range { beg ≤ end }
        requires in_text { end ≤ length (shown_of self.old) }
        ensures { EditsSending self.old (looks_change beg end sel looks.now) result self.new outbox.old outbox.new }
    {
        self.lemma_is_text();
        if beg == end {
            return Ok(0);
        }
        answer_of_one(self.dress_some(beg, end, sel, looks, outbox))
    }

    /// Shows again what was cut last, under its own names, by one Restore. What was cut last stays so.
    ///
    /// Answers how many messages it added to the Outbox. Refused, in this order, `Behind`, `SeqSpent` and
    /// `StampsSpent` as in `insert`, and `OutOfMemory`. Where nothing was deleted yet, or all of it is shown, it
    /// sends nothing and is never refused.
    pub fn restore(&mut self, outbox: &mut Outbox) -> Result<u32, EditRefusal>
        ensures { EditsSending self.old restoration result self.new outbox.old outbox.new }
    {
        self.lemma_is_text();
        if self.taken.are_shown(&self.set) {
            return Ok(0);
        }
        answer_of_one(self.show_again(outbox))
    }

    /// The characters shown from `beg` to `end`, outside the text.
    ///
    /// Refused `FileSpent` where there are more than 2^24, else `OutOfMemory` where memory is; an empty stretch
    /// is never refused.
    pub fn save(&self, beg: u64, end: u64) -> Result<Buffer, Refusal>
        requires range { beg ≤ end }
        requires in_text { end ≤ length (shown_of self.now) }
        ensures ok { IfOk result (λ buffer. buffer ≡ slice_range (shown_items self.now) beg end) }
        ensures long { IsErrOf result Refusal.FileSpent ↔ (MAX_FILE < end - beg) }
        ensures errors { IfErr result (λ e. (e ≡ Refusal.FileSpent) ⊎ (e ≡ Refusal.OutOfMemory)) }
        ensures empty { beg ≡ end → IsOk result }
    {
        self.taken.stretch(beg, end)
    }

    /// The stretch that the site cut last; empty before that. Refused `OutOfMemory` alone, and never where
    /// it is empty.
    pub fn recall(&self) -> Result<Buffer, Refusal>
        ensures ok { IfOk result (λ buffer. buffer ≡ self.now.last_stretch) }
        ensures errors { RefusedForMemoryAlone result }
        ensures empty { self.now.last_stretch ≡ [] → IsOk result }
    {
        if self.stretch.is_empty() {
            return Ok(Buffer::new(self.alloc));
        }
        self.stretch.copy()
    }
}
