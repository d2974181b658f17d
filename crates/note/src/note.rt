ghost use Rattle.std.specs.Prelude.{◌≡◌, ◌+◌, ◌-◌, ◌<◌, ◌≤◌, ◌⊎◌, List, All, Err, IfErr, IfNone, IfOk, IfSome, OnErr, OnOk, Some as Just, length, slice_get};
ghost use Rattle.std.specs.Option.{option_map};
ghost use Rattle.looks.specs.declared.refusal.Refusal.TheVariants as refusal;
ghost use Rattle.looks.specs.Refusal.{RefusedForMemoryAlone};
ghost use Rattle.note_laws.specs.Note.{Note as Definition, Entries, Saying as Said};
ghost use Rattle.note_laws.specs.Admission.{IsAdmission};
ghost use Rattle.note_laws.specs.Chains.{operations};
ghost use Rattle.note_laws.specs.Laws.{AddsNoLesser, AreSameEntries, IsBaseIdentified};
ghost use Rattle.texts.specs.Laws.{AreTextsAlike};
ghost use Rattle.texts.specs.TextState.{TextState, shown_of};
ghost use Rattle.tree_order.specs.Shown.{IsShown};
ghost use Rattle.note_convergence.specs.Replicas.{HasOnlyGained, TookWhatCounts};
ghost use Rattle.note_entries.specs.Kept.{no_entries};
ghost use Rattle.note_hashes.specs.Hashes.{digest_of};
ghost use Rattle.note_admission.specs.Standing.{BeginsNote};
ghost use Rattle.note_bodies.specs.Bodies.{AreMessagesOf};
ghost use Rattle.note_bodies.specs.declared.messages.TheConstants.{TEXTS};
ghost use Rattle.note.specs.Texts.{ArePairs, EachText, IsSameText, KeepsNoting, ReportsChanges};
ghost use Rattle.note.specs.Notes.{IsOfEntries, KeepsEntries, ShowsEntries, ShowsWhatCounts, TakesClaim, TakesEntry, TakesSaying, TakesSomeOf};
ghost use Rattle.note.specs.Texts.{NoteText as NoteTextSeen};
ghost use Rattle.note.specs.Editing.{FitsText, HasEditedText, IsLastOfText, IsOtherwiseAsBefore, IsOwnEntry, IsSaidWell, SayAllLeft, numbered_text};

use crate::each_text;
use crate::note_text::NoteText;
use crate::own_edit::OwnEdit;
use crate::own_entry::OwnEntry;
use char_files::{SiteNo, TextNo};
use list_changes::Change;
use looks::Refusal;
use note_admission::{NoteChains, Opening};
use note_bodies::{Head, TEXTS, messages_of};
use note_convergence::replicas::{
    lemma_more_entries_only_add, lemma_the_same_entries_show_the_same, lemma_what_counts_is_shown,
};
use note_entries::{Claim, Hash, Saying};
use note_hashes::NoteKey;
use note_replicas::laws::lemma_what_was_admitted_was_taken;
use operations::Op;
use std::alloc::Global;
use std::marker::Model;
use texts::{EditRefusal, Outbox, Replica};

/// A note, as a site has it: what counts of its entries, in whatever order they came, decides what its texts show.
#[derive(Drop)]
pub struct Note {
    key: NoteKey,
    chains: NoteChains,
    // From text 1 on.
    texts: Vec<NoteText>,
}

impl Model for Note {
    ghost use Rattle.note.specs.Texts.{ArePairs, EachText, IsSameText, KeepsNoting, ReportsChanges};
    ghost use Rattle.note.specs.Notes.{AreNumberedTexts, NoteSeen};

    ghost Value = { NoteSeen };

    ghost view = { λ n. record { key = n.key; chains = n.chains; texts = n.texts.items } };

    ghost invariant = { λ n. AreNumberedTexts n.texts.items };
}

impl Note {
    /// A note of no entries but the opening and these messages of the base, as a site of this number has it. Refused `OutOfMemory`
    /// alone.
    pub fn new(
        alloc: Global,
        key: NoteKey,
        opening: Opening,
        base: Vec<Saying>,
        site: SiteNo,
    ) -> Result<Note, Refusal>
        ensures ok { IfOk result (λ n. (note : Definition) → note.digest ≡ digest_of key → BeginsNote opening note
            → note.base ≡ base.items → IsBaseIdentified note → IsOfEntries n note no_entries) }
        ensures key { IfOk result (λ n. n.key ≡ key) }
        ensures shows { IfOk result (λ n. ShowsWhatCounts n) }
        ensures site { IfOk result (λ n. EachText (λ k t. t.replica.site ≡ site) n.texts) }
        ensures errors { RefusedForMemoryAlone result }
    {
        let chains = NoteChains::new(alloc, opening, base)?;
        let texts = each_text::begin(alloc, site, chains.base_sites())?;
        let mut note = Note { key, chains, texts };
        note.update()?;
        Ok(note)
    }

    /// Admits what counts of the entries that came, and has the texts show it. Refused `OutOfMemory` alone, and then a further call makes
    /// it whole.
    pub fn update(&mut self) -> Result<(), Refusal>
        ensures keeps { KeepsEntries self.old self.new }
        ensures key { self.new.key ≡ self.old.key }
        ensures place { ArePairs (λ was t. IsSameText was t) self.old.texts self.new.texts }
        ensures noting { ArePairs (λ was t. KeepsNoting was t) self.old.texts self.new.texts }
        ensures ok { OnOk result (ShowsWhatCounts self.new) }
        ensures errors { RefusedForMemoryAlone result }
    {
        each_text::update(&mut self.texts, &self.chains, &self.key)
    }

    /// A claim came, which counts after the next `update`. Refused `OutOfMemory` alone, and then it didn't.
    pub fn claim(&mut self, claim: Claim) -> Result<(), Refusal>
        ensures ok { OnOk result (TakesClaim self.old claim self.new) }
        ensures place { ArePairs (λ was t. IsSameText was t) self.old.texts self.new.texts }
        ensures err { OnErr result (self.new ≡ self.old) }
        ensures errors { RefusedForMemoryAlone result }
    {
        let lost = self.chains.claim(claim)?;
        each_text::note_claim(&mut self.texts, claim.site, lost);
        Ok(())
    }

    // The place of a text, if the note has it.
    fn place(&self, text: TextNo) -> Option<usize>
        ensures some { IfSome result (λ at. (at + 1 ≡ text) × (at < TEXTS)) }
        ensures none { IfNone result (TEXTS < text) }
    {
        if text.get() <= TEXTS {
            Some(text.get() as usize - 1)
        } else {
            None
        }
    }

    /// A message came, which counts after the next `update`. Refused `OutOfMemory` alone, and then it didn't.
    pub fn say(&mut self, saying: Saying) -> Result<(), Refusal>
        ensures ok { OnOk result (TakesSaying self.old saying self.new) }
        ensures many { length self.new.texts ≡ length self.old.texts }
        ensures place { ArePairs (λ was t. IsSameText was t) self.old.texts self.new.texts }
        ensures err { OnErr result (KeepsEntries self.old self.new) }
        ensures errors { RefusedForMemoryAlone result }
    {
        let (site, seq) = (saying.op.site(), saying.op.seq());
        match self.place(saying.op.text()) {
            None => {
                self.chains.say(saying)?;
            }
            Some(at) => {
                each_text::expect(&mut self.texts, at, site)?;
                let lost = self.chains.say(saying)?;
                each_text::note_message(&mut self.texts, at, site, seq, lost);
            }
        }
        Ok(())
    }

    /// An entry of messages came, which count after the next `update`.
    ///
    /// Refused `Malformed`, and nothing came, where the body isn't one of such an entry. Refused `OutOfMemory` where a part of its messages
    /// may have come; once a further call comes through, all have.
    pub fn add(&mut self, alloc: Global, head: &Head, body: &[u8]) -> Result<(), Refusal>
        ensures ok { OnOk result (TakesEntry self.old head.now body.now self.new) }
        ensures place { ArePairs (λ was t. IsSameText was t) self.old.texts self.new.texts }
        ensures malformed { result ≡ Err refusal.Malformed
            → (self.new ≡ self.old) × ((sayings : List Said) → ¬ AreMessagesOf self.old.key head.now body.now sayings) }
        ensures err { OnErr result (TakesSomeOf self.old head.now body.now self.new) }
        ensures errors { IfErr result (λ why. (why ≡ refusal.Malformed) ⊎ (why ≡ refusal.OutOfMemory)) }
    {
        for saying in messages_of(alloc, &self.key, head, body)? {
            self.say(saying)?;
        }
        Ok(())
    }

    /// Edits a text as the note's site, and puts the messages after those that were sent. What was edited is shown at once; the next
    /// `update` takes it back unless its messages are said before.
    pub fn edit(
        &mut self,
        text: TextNo,
        edit: &OwnEdit,
        outbox: &mut Outbox,
    ) -> Result<u32, EditRefusal>
        requires has { text ≤ TEXTS }
        requires fits { (d : NoteTextSeen) → FitsText edit.now (numbered_text self.old text d).replica }
        ensures own { (d : NoteTextSeen) → HasEditedText edit.now (numbered_text self.old text d) result (numbered_text self.new text d)
            outbox.old outbox.new }
        ensures rest { IsOtherwiseAsBefore text self.old self.new }
        ensures keeps { KeepsEntries self.old self.new }
    {
        let Some(at) = self.place(text) else {
            unreachable!()
        };
        each_text::edit(&mut self.texts, at, edit, outbox)
    }

    /// What changed of what a text shows since this was asked for, one change after the other; `None` where the text was begun anew since, as
    /// where a lesser hash came: then all that it showed gives way to what it shows. Own edits are among the changes.
    pub fn changes(&mut self, text: TextNo) -> Option<Vec<Change>>
        requires has { text ≤ TEXTS }
        ensures own { (d : NoteTextSeen) → ReportsChanges (numbered_text self.old text d) (option_map (λ changes. changes.items) result)
            (numbered_text self.new text d) }
        ensures rest { IsOtherwiseAsBefore text self.old self.new }
        ensures keeps { KeepsEntries self.old self.new }
    {
        let Some(at) = self.place(text) else {
            unreachable!()
        };
        each_text::changes(&mut self.texts, at)
    }

    /// The entries that say the site's own messages of a text that don't count yet, as those of its edits since the last `update`, in the
    /// order of their making; none where all count. They are to be added before the next `update`, which takes back what isn't.
    ///
    /// Refused `Behind` where one mentions another's character that doesn't count, and `OutOfMemory`.
    pub fn own_entries(&self, text: TextNo, author: Hash) -> Result<Vec<OwnEntry>, Refusal>
        requires { text ≤ TEXTS }
        ensures heads { IfOk result (λ entries. (d : NoteTextSeen)
            → All (IsOwnEntry author (numbered_text self.now text d)) entries.items) }
        ensures all { IfOk result (λ entries. (d : NoteTextSeen)
            → SayAllLeft self.now.key author (numbered_text self.now text d) entries.items) }
        ensures errors { IfErr result (λ why. (why ≡ refusal.Behind) ⊎ (why ≡ refusal.OutOfMemory)) }
    {
        let Some(at) = self.place(text) else {
            unreachable!()
        };
        self.texts[at].own_entries(&self.key, author)
    }

    /// The hash of the last message that counts of a number in a text, as of the last `update`; zeros for none. The number's next message
    /// is said after it.
    pub fn last(&self, text: TextNo, site: SiteNo) -> Hash
        requires { text ≤ TEXTS }
        ensures { (d : NoteTextSeen) → IsLastOfText (numbered_text self.now text d) site result }
    {
        let Some(at) = self.place(text) else {
            unreachable!()
        };
        self.texts[at].last(site)
    }

    /// What an author says by an operation of his own, after the message of this hash: to be put into an entry, and said. Of several
    /// messages of an edit each is said after the one before it.
    ///
    /// Refused `Behind` where it mentions another's character that doesn't count, and `OutOfMemory`.
    pub fn own_saying(&self, author: Hash, before: Hash, op: Op) -> Result<Saying, Refusal>
        requires { op.text ≤ TEXTS }
        ensures ok { IfOk result (λ s. (d : NoteTextSeen)
            → IsSaidWell self.now.key author before op (numbered_text self.now op.text d) s) }
        ensures errors { IfErr result (λ why. (why ≡ refusal.Behind) ⊎ (why ≡ refusal.OutOfMemory)) }
    {
        let Some(at) = self.place(op.text()) else {
            unreachable!()
        };
        self.texts[at].own_saying(&self.key, author, before, op)
    }

    /// A text, `None` where the note has no such text. After an `update` that came through it shows what counts of the entries that came.
    pub fn text(&self, text: TextNo) -> Option<&Replica>
        ensures some { IfSome result (λ r. (note : Definition) (entries : Entries) → IsOfEntries self.now note entries
            → ShowsWhatCounts self.now → TookWhatCounts note entries r.now) }
        ensures alike { IfSome result (λ r. (note : Definition) (entries others : Entries) (other : TextState)
            → ShowsEntries self.now note entries → AreSameEntries entries others → r.now.text ≡ other.text
            → TookWhatCounts note others other → AreTextsAlike r.now other) }
        ensures defined { IfSome result (λ r. (note : Definition) (entries : Entries) (admitted : List Said)
            → ShowsEntries self.now note entries → IsAdmission note entries r.now.text admitted
            → IsShown (operations admitted) (shown_of r.now)) }
        ensures gains { IfSome result (λ r. (note : Definition) (fewer entries : Entries) (was : TextState)
            → ShowsEntries self.now note entries → AddsNoLesser fewer entries → was.text ≡ r.now.text
            → TookWhatCounts note fewer was → HasOnlyGained was r.now) }
        ensures value { IfSome result (λ r. (d : NoteTextSeen) → (numbered_text self.now text d).replica ≡ r.now) }
        ensures here { IfSome result (λ r. option_map (λ t. t.replica) (slice_get self.now.texts (text - 1)) ≡ Just r.now) }
        ensures number { IfSome result (λ r. r.now.text ≡ text) }
        ensures none { IfNone result (TEXTS < text) }
    {
        lemma_what_was_admitted_was_taken();
        lemma_the_same_entries_show_the_same();
        lemma_what_counts_is_shown();
        lemma_more_entries_only_add();
        let replica = self.texts[self.place(text)?].replica();
        replica.lemma_is_text();
        Some(replica)
    }
}
