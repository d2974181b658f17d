//! What is done with each text of a note.

ghost use Rattle.std.specs.Prelude.{◌≡◌, ◌≢◌, ℕ, ◌<◌, ◌↔◌, [], length, slice_index_or, Contains, IfOk, OnOk};
ghost use Rattle.std.specs.Option.{option_map};
ghost use Rattle.looks.specs.Refusal.{RefusedForMemoryAlone};
ghost use Rattle.note_laws.specs.Note.{Note, Entries, IsOfBase};
ghost use Rattle.note_admission.specs.Growing.{AreAdmitted, IsOfLost, IsReplaced, StaysAdmitted};
ghost use Rattle.note.specs.Notes.{AreNumberedTexts};
ghost use Rattle.note.specs.Texts.{ArePairs, EachText, HasFollowed, HasAdmittedMore, IsSameText, IsUpToDate, NoteText as Seen, ReportsChanges};
ghost use Rattle.note.specs.Editing.{FitsText, HasEditedText};

use crate::note_text::NoteText;
use crate::own_edit::OwnEdit;
use char_files::{SiteNo, TextNo};
use list_changes::Change;
use looks::Refusal;
use note_admission::NoteChains;
use note_bodies::TEXTS;
use note_hashes::NoteKey;
use std::alloc::Global;
use texts::{EditRefusal, Outbox};

// Of no text anything came; the base has messages of these numbers. Refused `OutOfMemory` alone.
pub(crate) fn begin(alloc: Global, site: SiteNo, base: &[SiteNo]) -> Result<Vec<NoteText>, Refusal>
    ensures numbers { IfOk result (λ texts. AreNumberedTexts texts.items) }
    ensures site { IfOk result (λ texts. EachText (λ k t. t.replica.site ≡ site) texts.items) }
    ensures ok { IfOk result (λ texts. (note : Note) (entries : Entries) → entries.said ≡ []
        → ((site : ℕ) → Contains base.now site ↔ IsOfBase note site)
        → EachText (λ k t. AreAdmitted note entries t.admission []) texts.items) }
    ensures errors { RefusedForMemoryAlone result }
{
    let mut texts = Vec::new(alloc);
    for number in 1..TEXTS + 1 {
        let Some(text) = TextNo::new(number) else {
            unreachable!()
        };
        texts.push(NoteText::new(alloc, text, site, base)?)?;
    }
    Ok(texts)
}

// Edits a text as its site, and puts the messages after those that were sent.
pub(crate) fn edit(
    texts: &mut [NoteText],
    at: usize,
    edit: &OwnEdit,
    outbox: &mut Outbox,
) -> Result<u32, EditRefusal>
    requires at { at < length texts.old }
    requires fits { (d : Seen) → FitsText edit.now (slice_index_or texts.old at d).replica }
    ensures len { length texts.new ≡ length texts.old }
    ensures others { (k : ℕ) (d : Seen) → k ≢ at → slice_index_or texts.new k d ≡ slice_index_or texts.old k d }
    ensures own { (d : Seen) → HasEditedText edit.now (slice_index_or texts.old at d) result (slice_index_or texts.new at d)
        outbox.old outbox.new }
{
    texts[at].edit(edit, outbox)
}

// What changed of what a text shows since this was asked for, or `None` where it was begun anew.
pub(crate) fn changes(texts: &mut [NoteText], at: usize) -> Option<Vec<Change>>
    requires at { at < length texts.old }
    ensures len { length texts.new ≡ length texts.old }
    ensures others { (k : ℕ) (d : Seen) → k ≢ at → slice_index_or texts.new k d ≡ slice_index_or texts.old k d }
    ensures own { (d : Seen) → ReportsChanges (slice_index_or texts.old at d) (option_map (λ changes. changes.items) result)
        (slice_index_or texts.new at d) }
{
    texts[at].changes()
}

// A message of this number may come to a text. Refused `OutOfMemory` alone.
pub(crate) fn expect(texts: &mut [NoteText], at: usize, site: SiteNo) -> Result<(), Refusal>
    requires { at < length texts.old }
    ensures len { length texts.new ≡ length texts.old }
    ensures stays { ArePairs (λ was t. StaysAdmitted was.admission t.admission × IsSameText was t) texts.old texts.new }
    ensures known { OnOk result ((d : Seen) → Contains (slice_index_or texts.new at d).admission.sites site) }
    ensures errors { RefusedForMemoryAlone result }
{
    texts[at].expect(site)
}

// The chains have a message of a text and a number that was expected, and it may have taken another's place.
pub(crate) fn note_message(texts: &mut [NoteText], at: usize, site: SiteNo, seq: u32, lost: bool)
    requires { at < length texts.old }
    ensures len { length texts.new ≡ length texts.old }
    ensures others { (k : ℕ) (d : Seen) → k ≢ at → slice_index_or texts.new k d ≡ slice_index_or texts.old k d }
    ensures own { (d : Seen) → HasFollowed site (IsReplaced lost site seq) (slice_index_or texts.old at d)
        (slice_index_or texts.new at d) }
{
    texts[at].note_message(site, seq, lost);
}

// The chains have a claim of a number, and it may have taken the number from another.
pub(crate) fn note_claim(texts: &mut [NoteText], site: SiteNo, lost: bool)
    ensures len { length texts.new ≡ length texts.old }
    ensures follows { ArePairs (λ was t. HasFollowed site (IsOfLost lost site) was t) texts.old texts.new }
{
    for index in 0..texts.len() {
        texts[index].note_claim(site, lost);
    }
}

// Admits what counts, and takes it in. Refused `OutOfMemory` alone, and then a further call makes it whole.
pub(crate) fn update(
    texts: &mut [NoteText],
    chains: &NoteChains,
    key: &NoteKey,
) -> Result<(), Refusal>
    ensures len { length texts.new ≡ length texts.old }
    ensures grown { ArePairs (λ was t. HasAdmittedMore key.now chains.now was t) texts.old texts.new }
    ensures ok { OnOk result (EachText (λ k t. IsUpToDate t) texts.new) }
    ensures errors { RefusedForMemoryAlone result }
{
    for index in 0..texts.len() {
        texts[index].update(chains, key)?;
    }
    Ok(())
}
