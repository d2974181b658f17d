//! What an open note handle holds.

ghost use Rattle.std.specs.Prelude.{◌≡◌, ◌≤◌, [], IfErr, IfOk, IsTrue, length, map, replicate};
ghost use Rattle.std.specs.List.{list_all};
ghost use Rattle.std.specs.Option.{option_map};
ghost use Rattle.looks.specs.Refusal.{RefusedForMemoryAlone};
ghost use Rattle.texts.specs.Edit.{is_range_in};
ghost use Rattle.texts.specs.TextState.{TextState};
ghost use Rattle.note_bodies.specs.declared.messages.TheConstants.{TEXTS};
ghost use Rattle.note_entries.specs.Bytes.{hash_of};
ghost use Rattle.note.specs.Editing.{FitsText, numbered_text};
ghost use Rattle.note.specs.Texts.{NoteText};
ghost use Rattle.vialshoal_c.specs.Naming.{is_here, is_range};
ghost use Rattle.vialshoal_c.specs.NoteAsking.{PutsEntry, PutsEntryAt, PutsOwn, SayOwn, TellsChangesIn, TellsNoOwn};
ghost use Rattle.vialshoal_c.specs.NoteBeginning.{HasBegun};
ghost use Rattle.vialshoal_c.specs.NoteEditing.{DeletesRange, DressesRange, EditsNamed, EditsNoteNames, EditsNoteText, EditsRange, InsertsInto};
ghost use Rattle.vialshoal_c.specs.NoteFeeding.{AddsEntry, ClaimsNumber, TakesClaimOf, TakesEntryOf, Updates, number_of_done};
ghost use Rattle.vialshoal_c.specs.NoteState.{is_note_text, note_text, note_text_in};

use crate::asking::{Put, put_bytes, put_changes};
use crate::editing::{Edited, are_few, asked_looks, stretch_of};
use crate::inputs::{CharNames, EntryHead, NoteHash};
use crate::naming::{are_ranges, has_all, ranges_of};
use crate::numbers::{NO_MESSAGE, NO_NAME, NO_NUMBER, OUT_OF_TEXT, TOO_LONG};
use crate::outputs::TextChange;
use crate::showing::has_range;
use char_files::{SiteNo, TextNo};
use list_changes::Change;
use looks::{Looks, Refusal, Sel};
use note::{Head, Note, OwnEdit, OwnEntry, TEXTS};
use note_admission::Opening;
use note_entries::{Claim, Hash, Saying};
use note_hashes::NoteKey;
use std::alloc::Global;
use std::marker::Model;
use texts::{ByNames, EditRefusal, Outbox, Replica};

/// What an open note handle holds.
#[derive(Drop)]
pub struct NoteSession {
    note: Note,
    // Of each text the changes that were asked for, until they go into a room.
    told: Vec<Vec<Change>>,
    alloc: Global,
}

impl Model for NoteSession {
    ghost use Rattle.std.specs.Prelude.{◌≡◌, length, map};
    ghost use Rattle.note_bodies.specs.declared.messages.TheConstants.{TEXTS};
    ghost use Rattle.vialshoal_c.specs.NoteState.{NoteState};

    ghost Value = { NoteState };

    ghost view = { λ s. record { note = s.note; told = map (λ changes. changes.items) s.told.items } };

    ghost invariant = { λ s. length s.told.items ≡ TEXTS };
}

// The number of a text that a note can have.
fn text_number(text: u16) -> Option<TextNo>
    ensures { result ≡ note_text text }
{
    if TEXTS < text {
        return None;
    }
    TextNo::new(text)
}

// The number that says what became of it.
fn number_of_done(done: Result<(), Refusal>) -> u32
    ensures { result ≡ number_of_done done }
{
    match done {
        Ok(()) => 0,
        Err(why) => u32::from(why.number()),
    }
}

// No changes of any text.
fn nothing_told(alloc: Global) -> Result<Vec<Vec<Change>>, Refusal>
    ensures many { IfOk result (λ told. length told.items ≡ TEXTS) }
    ensures none { IfOk result (λ told. map (λ changes. changes.items) told.items ≡ replicate TEXTS []) }
    ensures errors { RefusedForMemoryAlone result }
{
    let mut told = Vec::with_capacity(alloc, TEXTS as usize)?;
    for _ in 0..TEXTS {
        told.push(Vec::new(alloc))?;
    }
    Ok(told)
}

// Puts the body of an entry into a room, and its head where that is long enough.
fn put_entry(entry: &OwnEntry, head: &mut EntryHead, room: &mut [u8]) -> Put
    ensures { PutsEntry entry.now head.old head.new room.old result.number result.need room.new }
{
    let put = put_bytes(&entry.body, room);
    if put.number == 0 {
        *head = EntryHead::of(&entry.head);
    }
    put
}

// The same of the entry at this index, if there is one.
fn put_entry_at(entries: &[OwnEntry], index: u64, head: &mut EntryHead, room: &mut [u8]) -> Put
    ensures { PutsEntryAt entries.now index head.old head.new room.old result.number result.need room.new }
{
    if entries.len() as u64 <= index {
        return Put::none(NO_MESSAGE);
    }
    put_entry(&entries[index as usize], head, room)
}

impl NoteSession {
    /// A note of no entries but the opening and these messages of the base. Refused `OutOfMemory` alone.
    pub(crate) fn begin(
        alloc: Global,
        key: NoteKey,
        opening: Opening,
        base: Vec<Saying>,
        site: SiteNo,
    ) -> Result<Box<NoteSession>, Refusal>
        ensures ok { IfOk result (λ made. HasBegun site key opening base.items made.value) }
        ensures errors { RefusedForMemoryAlone result }
    {
        let note = Note::new(alloc, key, opening, base, site)?;
        let told = nothing_told(alloc)?;
        Ok(Box::new(alloc, NoteSession { note, told, alloc })?)
    }

    // A claim came.
    fn take_claim(&mut self, claim: Claim) -> u32
        ensures { TakesClaimOf self.old claim result self.new }
    {
        number_of_done(self.note.claim(claim))
    }

    /// A claim of these came.
    pub(crate) fn claim(&mut self, author: &NoteHash, site: u16, rank: &NoteHash) -> u32
        ensures { ClaimsNumber self.old author.now site rank.now result self.new }
    {
        match SiteNo::new(site) {
            Some(site) => self.take_claim(Claim {
                author: author.hash(),
                site,
                rank: rank.hash(),
            }),
            None => NO_NUMBER,
        }
    }

    // An entry of messages came.
    fn take_entry(&mut self, alloc: Global, head: &Head, body: &[u8]) -> u32
        ensures { TakesEntryOf self.old head.now body.now result self.new }
    {
        number_of_done(self.note.add(alloc, head, body))
    }

    /// An entry of messages came, whose head is given so.
    pub(crate) fn add(&mut self, alloc: Global, head: &EntryHead, body: &[u8]) -> u32
        ensures { AddsEntry self.old head.now body.now result self.new }
    {
        match head.head() {
            Some(head) => self.take_entry(alloc, &head, body),
            None => NO_NUMBER,
        }
    }

    /// What counts is admitted, and shown.
    pub(crate) fn update(&mut self) -> u32
        ensures { Updates self.old result self.new }
    {
        number_of_done(self.note.update())
    }

    /// The replica of a text, if the note has it.
    pub(crate) fn text(&self, text: u16) -> Option<&Replica>
        ensures { option_map (λ r. r.now) result ≡ note_text_in self.now.note text }
    {
        self.note.text(text_number(text)?)
    }

    // Does an edit that fits.
    fn edit(&mut self, text: TextNo, edit: &OwnEdit) -> Edited
        requires has { text ≤ TEXTS }
        requires fits { (d : NoteText) → FitsText edit.now (numbered_text self.old.note text d).replica }
        ensures { EditsNoteText self.old text edit.now result.number result.sent self.new }
    {
        let mut outbox = Outbox::new(self.alloc);
        Edited::of(self.note.edit(text, edit, &mut outbox))
    }

    /// Puts bytes in default looks after the first `pos` characters of a text.
    pub(crate) fn insert(&mut self, alloc: Global, text: u16, pos: u64, bytes: &[u8]) -> Edited
        ensures { InsertsInto self.old text pos bytes.now result.number result.sent self.new }
    {
        let Some(number) = text_number(text) else {
            return Edited::misused(NO_NUMBER);
        };
        let Some(replica) = self.text(text) else {
            return Edited::misused(NO_NUMBER);
        };
        if !are_few(bytes) {
            return Edited::misused(TOO_LONG);
        }
        if replica.shown_len() < pos {
            return Edited::misused(OUT_OF_TEXT);
        }
        match stretch_of(alloc, bytes, &Looks::plain()) {
            Ok(buffer) => self.edit(number, &OwnEdit::Insert { pos, buffer }),
            Err(why) => Edited::of(Err(EditRefusal::Whole(why))),
        }
    }

    // Does an edit of a range, if that lies in the text.
    fn edit_range(&mut self, text: u16, beg: u64, end: u64, edit: &OwnEdit) -> Edited
        requires { (t : TextState) → IsTrue (is_range_in t beg end) → FitsText edit.now t }
        ensures { EditsRange self.old text beg end edit.now result.number result.sent self.new }
    {
        let Some(number) = text_number(text) else {
            return Edited::misused(NO_NUMBER);
        };
        let Some(replica) = self.text(text) else {
            return Edited::misused(NO_NUMBER);
        };
        if !has_range(replica, beg, end) {
            return Edited::misused(OUT_OF_TEXT);
        }
        self.edit(number, edit)
    }

    /// Takes the characters from `beg` to `end` out of what a text shows.
    pub(crate) fn delete(&mut self, text: u16, beg: u64, end: u64) -> Edited
        ensures { DeletesRange self.old text beg end result.number result.sent self.new }
    {
        self.edit_range(text, beg, end, &OwnEdit::Delete { beg, end })
    }

    // Gives the characters from `beg` to `end` of a text the looks that are selected.
    fn dress(&mut self, text: u16, beg: u64, end: u64, sel: Sel, looks: Looks) -> Edited
        ensures { EditsRange self.old text beg end (OwnEdit.ChangeLooks beg end sel looks) result.number result.sent self.new }
    {
        let edit = OwnEdit::ChangeLooks {
            beg,
            end,
            sel,
            looks,
        };
        self.edit_range(text, beg, end, &edit)
    }

    /// Gives the characters from `beg` to `end` of a text the looks of these that the bits select.
    pub(crate) fn change_looks(
        &mut self,
        text: u16,
        beg: u64,
        end: u64,
        bits: u8,
        font: &[u8],
        colour: u8,
        offset: i8,
    ) -> Edited
        ensures { DressesRange self.old text beg end bits font.now colour offset result.number result.sent self.new }
    {
        let Some(sel) = Sel::new(bits) else {
            return Edited::misused(NO_NUMBER);
        };
        match asked_looks(sel, font, colour, offset) {
            Some(looks) => self.dress(text, beg, end, sel, looks),
            None => Edited::misused(NO_NUMBER),
        }
    }

    // Hands an edit by names on to a text.
    fn change_names(
        &mut self,
        alloc: Global,
        text: TextNo,
        what: ByNames,
        names: &[CharNames],
    ) -> Edited
        requires names { IsTrue (list_all is_range names.now) }
        requires has { text ≤ TEXTS }
        requires here { (d : NoteText) → IsTrue (list_all (is_here (numbered_text self.old.note text d).replica) names.now) }
        ensures { EditsNamed self.old text what names.now result.number result.sent self.new }
    {
        match ranges_of(alloc, names) {
            Ok(names) => self.edit(text, &OwnEdit::ByNames { what, names }),
            Err(why) => Edited::of(Err(EditRefusal::Whole(why))),
        }
    }

    /// Takes the characters of these names out of what a text shows, or shows them again.
    pub(crate) fn edit_by_names(
        &mut self,
        alloc: Global,
        text: u16,
        what: ByNames,
        names: &[CharNames],
    ) -> Edited
        ensures { EditsNoteNames self.old text what names.now result.number result.sent self.new }
    {
        let Some(number) = text_number(text) else {
            return Edited::misused(NO_NUMBER);
        };
        let Some(replica) = self.text(text) else {
            return Edited::misused(NO_NUMBER);
        };
        if !are_ranges(names) {
            return Edited::misused(NO_NUMBER);
        }
        if !has_all(replica, names) {
            return Edited::misused(NO_NAME);
        }
        self.change_names(alloc, number, what, names)
    }

    // The entries of the site's own messages of a text that don't count yet; a number where there are none to tell.
    fn own_entries(&self, text: u16, author: Hash) -> Result<Vec<OwnEntry>, u32>
        ensures ok { IfOk result (λ entries. IsTrue (is_note_text text) × SayOwn self.now text author entries.items) }
        ensures err { IfErr result (TellsNoOwn text) }
    {
        let Some(number) = text_number(text) else {
            return Err(NO_NUMBER);
        };
        match self.note.own_entries(number, author) {
            Ok(entries) => Ok(entries),
            Err(why) => Err(u32::from(why.number())),
        }
    }

    /// Puts the body of one of these entries into a room, and its head.
    pub(crate) fn own(
        &self,
        text: u16,
        author: &NoteHash,
        index: u64,
        head: &mut EntryHead,
        room: &mut [u8],
    ) -> Put
        ensures { PutsOwn self.now text (hash_of author.now.bytes) index head.old head.new room.old result.number result.need room.new }
    {
        match self.own_entries(text, author.hash()) {
            Ok(entries) => put_entry_at(&entries, index, head, room),
            Err(number) => Put::none(number),
        }
    }

    /// Puts the changes of what a text shows into a room; or says that the text was begun anew.
    pub(crate) fn changes(&mut self, text: u16, is_anew: &mut bool, room: &mut [TextChange]) -> Put
        ensures { TellsChangesIn self.old text is_anew.old is_anew.new room.old result.number result.need room.new self.new }
    {
        let Some(number) = text_number(text) else {
            return Put::none(NO_NUMBER);
        };
        let at = number.get() as usize - 1;
        if !self.told[at].is_empty() {
            return put_changes(&mut self.told[at], room);
        }
        match self.note.changes(number) {
            Some(changes) => {
                self.told[at] = changes;
                put_changes(&mut self.told[at], room)
            }
            None => {
                *is_anew = true;
                Put::none(0)
            }
        }
    }
}
