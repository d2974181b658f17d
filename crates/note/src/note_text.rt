//! A text of a note.

ghost use Rattle.std.specs.Prelude.{◌≡◌, false, ℕ, ◌<◌, ◌↔◌, ◌⊎◌, [], length, slice_get, Contains, IfErr, IfOk, IsTrue, OnErr, OnOk};
ghost use Rattle.std.specs.Option.{option_map};
ghost use Rattle.looks.specs.declared.refusal.Refusal.TheVariants as refusal;
ghost use Rattle.looks.specs.Refusal.{RefusedForMemoryAlone};
ghost use Rattle.note_laws.specs.Note.{Note, Entries, IsOfBase};
ghost use Rattle.note_admission.specs.Growing.{AreAdmitted, IsOfLost, IsReplaced, StaysAdmitted};
ghost use Rattle.note_replicas.specs.Following.{Advances, HasTakenJust};
ghost use Rattle.note.specs.Texts.{HasFollowed, HasAdmittedMore, IsSameText, IsUpToDate, ReportsChanges};
ghost use Rattle.note.specs.Editing.{FitsText, HasEditedText, IsLastOfText, IsSaidWell};

use crate::own_edit::OwnEdit;
use char_files::{SiteNo, TextNo};
use list_changes::Change;
use looks::Refusal;
use note_admission::{Continuing, NoteChains, TextAdmission};
use note_entries::{Hash, Saying};
use note_hashes::NoteKey;
use note_replicas::take_rest;
use operations::Op;
use std::alloc::Global;
use std::marker::Model;
use std::mem::replace;
use texts::{EditRefusal, Outbox, Replica};

// A replica that takes in what is admitted of its text.
#[derive(Drop)]
pub(crate) struct NoteText {
    pub(crate) admission: TextAdmission,
    pub(crate) replica: Replica,
    // How many of the first operations of both are known to be the same.
    pub(crate) alike: u64,
    // Whether the replica was begun anew since its changes were asked for.
    anew: bool,
    pub(crate) alloc: Global,
}

impl Model for NoteText {
    ghost use Rattle.note.specs.Texts.{IsFollowing, NoteText as Seen};

    ghost Value = { Seen };

    ghost view = { λ t. record { admission = t.admission; replica = t.replica; alike = t.alike; anew = t.anew } };

    ghost invariant = { λ t. IsFollowing (record { admission = t.admission; replica = t.replica; alike = t.alike; anew = t.anew }) };
}

impl NoteText {
    // Nothing of it came; the base has messages of these numbers. Refused `OutOfMemory` alone.
    pub(crate) fn new(
        alloc: Global,
        text: TextNo,
        site: SiteNo,
        base: &[SiteNo],
    ) -> Result<NoteText, Refusal>
        ensures text { IfOk result (λ t. t.admission.text ≡ text) }
        ensures site { IfOk result (λ t. t.replica.site ≡ site) }
        ensures ok { IfOk result (λ t. (note : Note) (entries : Entries) → entries.said ≡ []
            → ((site : ℕ) → Contains base.now site ↔ IsOfBase note site) → AreAdmitted note entries t.admission []) }
        ensures errors { RefusedForMemoryAlone result }
    {
        let admission = TextAdmission::new(alloc, text, base)?;
        let replica = Replica::new(alloc, text, site)?;
        Ok(NoteText {
            admission,
            replica,
            alike: 0,
            anew: false,
            alloc,
        })
    }

    pub(crate) fn replica(&self) -> &Replica
        ensures value { result.now ≡ self.now.replica }
        ensures text { result.now.text ≡ self.now.admission.text }
    {
        &self.replica
    }

    // Edits the replica as its site, and puts the messages after those that were sent.
    pub(crate) fn edit(&mut self, edit: &OwnEdit, outbox: &mut Outbox) -> Result<u32, EditRefusal>
        requires { FitsText edit.now self.old.replica }
        ensures { HasEditedText edit.now self.old result self.new outbox.old outbox.new }
    {
        match edit {
            OwnEdit::Insert { pos, buffer } => self.replica.insert(*pos, buffer, outbox),
            OwnEdit::Delete { beg, end } => self.replica.delete(*beg, *end, outbox),
            OwnEdit::ChangeLooks {
                beg,
                end,
                sel,
                looks,
            } => { self.replica.change_looks(*beg, *end, *sel, looks, outbox) }
            OwnEdit::ByNames { what, names } => { self.replica.edit_by_names(*what, names, outbox) }
        }
    }

    // What changed of what the replica shows since this was asked for, or `None` where the replica was begun anew.
    pub(crate) fn changes(&mut self) -> Option<Vec<Change>>
        ensures { ReportsChanges self.old (option_map (λ changes. changes.items) result) self.new }
    {
        let changes = self.replica.changes();
        if replace(&mut self.anew, false) {
            return None;
        }
        Some(changes)
    }

    // The hash of the last message that is admitted of a number, zeros for none.
    pub(crate) fn last(&self, site: SiteNo) -> Hash
        ensures { IsLastOfText self.now site result }
    {
        self.admission.last(site)
    }

    // What an author says by this operation, after the message of this hash.
    //
    // Refused `Behind` where it mentions another's character that isn't admitted, and `OutOfMemory`.
    pub(crate) fn own_saying(
        &self,
        key: &NoteKey,
        author: Hash,
        before: Hash,
        op: Op,
    ) -> Result<Saying, Refusal>
        ensures ok { IfOk result (λ s. IsSaidWell key.now author before op self.now s) }
        ensures errors { IfErr result (λ why. (why ≡ refusal.Behind) ⊎ (why ≡ refusal.OutOfMemory)) }
    {
        let on = self
            .admission
            .builds_on(key, &op, &Continuing::new(self.alloc))?;
        key.saying(self.alloc, author, before, op, on)
    }

    // A message of this number may come. Refused `OutOfMemory` alone, and then all is as before.
    pub(crate) fn expect(&mut self, site: SiteNo) -> Result<(), Refusal>
        ensures known { OnOk result (Contains self.new.admission.sites site) }
        ensures stays { StaysAdmitted self.old.admission self.new.admission }
        ensures same { IsSameText self.old self.new }
        ensures err { OnErr result (self.new ≡ self.old) }
        ensures errors { RefusedForMemoryAlone result }
    {
        self.admission.expect(site)
    }

    // The chains have a message of a number that was expected, and it may have taken another's place.
    pub(crate) fn note_message(&mut self, site: SiteNo, seq: u32, lost: bool)
        ensures { HasFollowed site (IsReplaced lost site seq) self.old self.new }
    {
        if self.admission.note_message(site, seq, lost) {
            self.alike = 0;
        }
    }

    // The chains have a claim of a number, and it may have taken the number from another.
    pub(crate) fn note_claim(&mut self, site: SiteNo, lost: bool)
        ensures { HasFollowed site (IsOfLost lost site) self.old self.new }
    {
        if self.admission.note_claim(site, lost) {
            self.alike = 0;
        }
    }

    // Whether one operation more is the same. Refused `OutOfMemory` alone.
    fn is_next_alike(&self) -> Result<bool, Refusal>
        requires taken { self.now.alike < length self.now.replica.operations }
        requires admitted { self.now.alike < length self.now.admission.ops }
        ensures ok { IfOk result (λ same. IsTrue same
            → slice_get self.now.replica.operations self.now.alike ≡ slice_get self.now.admission.ops self.now.alike) }
        ensures errors { RefusedForMemoryAlone result }
    {
        let taken = self.replica.taken(self.alike)?;
        let admitted = self.admission.log().op(self.alike)?;
        Ok(taken.is_same(&admitted))
    }

    // Compares the operations that aren't known to be the same, up to the first that isn't. Refused `OutOfMemory` alone.
    fn compare(&mut self) -> Result<(), Refusal>
        ensures admission { self.new.admission ≡ self.old.admission }
        ensures replica { self.new.replica ≡ self.old.replica }
        ensures anew { self.new.anew ≡ self.old.anew }
        ensures errors { RefusedForMemoryAlone result }
    {
        while self.alike < self.replica.taken_len() && self.alike < self.admission.log().len() {
            if !self.is_next_alike()? {
                return Ok(());
            }
            self.alike += 1;
        }
        Ok(())
    }

    // Begins with an empty replica where this one took in something else. Refused `OutOfMemory` alone, and then all is as before.
    fn begin_anew(&mut self) -> Result<(), Refusal>
        ensures ok { OnOk result (self.new.alike ≡ length self.new.replica.operations) }
        ensures admission { self.new.admission ≡ self.old.admission }
        ensures same { IsSameText self.old self.new }
        ensures noting { self.new.anew ≡ false → (self.old.anew ≡ false) × (self.new.replica ≡ self.old.replica) }
        ensures err { OnErr result (self.new ≡ self.old) }
        ensures errors { RefusedForMemoryAlone result }
    {
        if self.alike < self.replica.taken_len() {
            self.replica = Replica::new(self.alloc, self.replica.text(), self.replica.site())?;
            self.alike = 0;
            self.anew = true;
        }
        Ok(())
    }

    // Takes in what is admitted since. Refused `OutOfMemory` alone, and then a part of it may be taken in.
    fn take(&mut self) -> Result<(), Refusal>
        requires { self.old.alike ≡ length self.old.replica.operations }
        ensures ok { OnOk result (HasTakenJust self.new.replica self.new.admission.ops) }
        ensures admission { self.new.admission ≡ self.old.admission }
        ensures same { IsSameText self.old self.new }
        ensures anew { self.new.anew ≡ self.old.anew }
        ensures on { Advances self.old.replica self.new.replica }
        ensures errors { RefusedForMemoryAlone result }
    {
        let taken = take_rest(&mut self.replica, self.admission.log());
        self.alike = self.replica.taken_len();
        taken
    }

    // Admits what counts, and takes it in. Refused `OutOfMemory` alone, and then a further call makes it whole.
    pub(crate) fn update(&mut self, chains: &NoteChains, key: &NoteKey) -> Result<(), Refusal>
        ensures grown { HasAdmittedMore key.now chains.now self.old self.new }
        ensures ok { OnOk result (IsUpToDate self.new) }
        ensures errors { RefusedForMemoryAlone result }
    {
        self.admission.settle(chains, key)?;
        self.compare()?;
        self.begin_anew()?;
        self.take()
    }
}
