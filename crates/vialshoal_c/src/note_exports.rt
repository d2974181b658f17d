//! What C calls of a note. Each call takes the note out of its handle, does one thing to it, and puts it back.

ghost use Rattle.std.specs.Prelude.{◌≡◌, ◌⊎◌, false, None, MatchOption, List, Err, IfErr, IfOk, length, ⊤};
ghost use Rattle.looks.specs.declared.refusal.Refusal.TheVariants as refusal;
ghost use Rattle.note_laws.specs.Note.{Saying as Said};
ghost use Rattle.char_files.specs.Chars.{char_bytes};
ghost use Rattle.note_entries.specs.Bytes.{hash_of};
ghost use Rattle.texts.specs.TextState.{shown_of};
ghost use Rattle.vialshoal_c.specs.Asking.{FindsName, PutsShown, PutsSites, TellsFront, TellsRun, c_names};
ghost use Rattle.vialshoal_c.specs.History.{OpensPast};
ghost use Rattle.vialshoal_c.specs.NoteAsking.{PutsOwn, TellsChangesIn};
ghost use Rattle.vialshoal_c.specs.NoteBeginning.{BeginsNoteIn, BeginsNoteSo, HasBegun, IsBaseOf, beginning_of};
ghost use Rattle.vialshoal_c.specs.NoteEditing.{DeletesRange, DressesRange, EditsNoteNames, InsertsInto};
ghost use Rattle.vialshoal_c.specs.NoteFeeding.{AddsEntry, ClaimsNumber, Updates};
ghost use Rattle.vialshoal_c.specs.NoteState.{OfText};
ghost use Rattle.vialshoal_c.specs.Opened.{OnOpen, Reads};

use crate::asking::{Put, put_sites_of, tell_front};
use crate::inputs::{CharNames, EntryHead, NoteHash, SiteFront};
use crate::note_base::read_base;
use crate::note_handle::NoteHandle;
use crate::note_session::NoteSession;
use crate::numbers::{ALREADY_OPEN, NO_NUMBER, NOT_OPEN};
use crate::outputs::{CharName, LooksRun, Place, TextChange};
use crate::past_exports::open_past;
use crate::past_handle::PastHandle;
use crate::showing::{find_name, put_shown_bytes, put_shown_names, tell_run};
use char_files::SiteNo;
use looks::Refusal;
use note_admission::Opening;
use note_hashes::NoteKey;
use std::alloc::Global;
use texts::ByNames;

// A note whose base is in these chunks.
//
// Refused `Malformed` where they are none of such a base, and `OutOfMemory`.
fn made(
    alloc: Global,
    site: SiteNo,
    key: &NoteHash,
    opening: Opening,
    base_key: &NoteHash,
    root: &NoteHash,
    base: &[u8],
) -> Result<Box<NoteSession>, Refusal>
    ensures ok { IfOk result (λ note. (copied : List Said)
        × IsBaseOf base_key.now.bytes (hash_of root.now.bytes) base.now copied
        × HasBegun site key.now.bytes opening copied note.value) }
    ensures malformed { result ≡ Err refusal.Malformed
        → (copied : List Said) → ¬ IsBaseOf base_key.now.bytes (hash_of root.now.bytes) base.now copied }
    ensures errors { IfErr result (λ why. (why ≡ refusal.Malformed) ⊎ (why ≡ refusal.OutOfMemory)) }
{
    let copied = read_base(alloc, base_key, root, base)?;
    NoteSession::begin(alloc, NoteKey::new(key.bytes), opening, copied, site)
}

// Begins a note in an empty handle.
fn begin(
    alloc: Global,
    handle: &mut NoteHandle,
    site: SiteNo,
    key: &NoteHash,
    opening: Opening,
    base_key: &NoteHash,
    root: &NoteHash,
    base: &[u8],
) -> u32
    requires { handle.old.value ≡ None }
    ensures { BeginsNoteSo site (record {
      key = key.now.bytes;
      opening = opening;
      base_key = base_key.now.bytes;
      root = hash_of root.now.bytes;
      chunks = base.now;
    }) result handle.new.value }
{
    match made(alloc, site, key, opening, base_key, root, base) {
        Ok(note) => {
            handle.close(alloc, note);
            0
        }
        Err(why) => u32::from(why.number()),
    }
}

/// Begins a note in an empty handle, of its opening and its base alone.
#[unsafe(no_mangle)]
pub extern "C" fn vialshoal_note_new(
    alloc: Global,
    handle: &mut NoteHandle,
    site: u16,
    key: &NoteHash,
    founder: &NoteHash,
    number: u16,
    base_key: &NoteHash,
    root: &NoteHash,
    base: &[u8],
) -> u32
    ensures { BeginsNoteIn handle.old.value site (beginning_of key.now founder.now number base_key.now root.now base.now) result
        handle.new.value }
{
    if let Some(note) = handle.open(alloc) {
        handle.close(alloc, note);
        return ALREADY_OPEN;
    }
    let Some(site) = SiteNo::new(site) else {
        return NO_NUMBER;
    };
    let opening = Opening {
        founder: founder.hash(),
        number: SiteNo::new(number),
    };
    begin(alloc, handle, site, key, opening, base_key, root, base)
}

/// Frees what a note's handle holds.
#[unsafe(no_mangle)]
pub extern "C" fn vialshoal_note_free(alloc: Global, handle: &mut NoteHandle) -> u32
    ensures answer { MatchOption handle.old.value (result ≡ NOT_OPEN) (λ _. result ≡ 0) }
    ensures freed { handle.new.value ≡ None }
{
    match handle.open(alloc) {
        Some(note) => {
            drop(note);
            0
        }
        None => NOT_OPEN,
    }
}

/// A claim came, which counts after the next update.
#[unsafe(no_mangle)]
pub extern "C" fn vialshoal_note_claim(
    alloc: Global,
    handle: &mut NoteHandle,
    author: &NoteHash,
    site: u16,
    rank: &NoteHash,
) -> u32
    ensures { OnOpen handle.old.value handle.new.value result ⊤
        (λ s new. ClaimsNumber s author.now site rank.now result new) }
{
    let Some(mut note) = handle.open(alloc) else {
        return NOT_OPEN;
    };
    let number = note.claim(author, site, rank);
    handle.close(alloc, note);
    number
}

/// An opened entry of messages came, which count after the next update.
#[unsafe(no_mangle)]
pub extern "C" fn vialshoal_note_add(
    alloc: Global,
    handle: &mut NoteHandle,
    head: &EntryHead,
    body: &[u8],
) -> u32
    ensures { OnOpen handle.old.value handle.new.value result ⊤
        (λ s new. AddsEntry s head.now body.now result new) }
{
    let Some(mut note) = handle.open(alloc) else {
        return NOT_OPEN;
    };
    let number = note.add(alloc, head, body);
    handle.close(alloc, note);
    number
}

/// What counts of the entries that came is admitted, and shown.
#[unsafe(no_mangle)]
pub extern "C" fn vialshoal_note_update(alloc: Global, handle: &mut NoteHandle) -> u32
    ensures { OnOpen handle.old.value handle.new.value result ⊤
        (λ s new. Updates s result new) }
{
    let Some(mut note) = handle.open(alloc) else {
        return NOT_OPEN;
    };
    let number = note.update();
    handle.close(alloc, note);
    number
}

/// Puts bytes in default looks after the first `pos` characters of a text.
#[unsafe(no_mangle)]
pub extern "C" fn vialshoal_note_insert(
    alloc: Global,
    handle: &mut NoteHandle,
    text: u16,
    pos: u64,
    bytes: &[u8],
    sent: &mut u32,
) -> u32
    ensures { OnOpen handle.old.value handle.new.value result (sent.new ≡ 0)
        (λ s new. InsertsInto s text pos bytes.now result sent.new new) }
{
    *sent = 0;
    let Some(mut note) = handle.open(alloc) else {
        return NOT_OPEN;
    };
    let edited = note.insert(alloc, text, pos, bytes);
    handle.close(alloc, note);
    *sent = edited.sent;
    edited.number
}

/// Takes the characters from `beg` to `end` out of what a text shows.
#[unsafe(no_mangle)]
pub extern "C" fn vialshoal_note_delete(
    alloc: Global,
    handle: &mut NoteHandle,
    text: u16,
    beg: u64,
    end: u64,
    sent: &mut u32,
) -> u32
    ensures { OnOpen handle.old.value handle.new.value result (sent.new ≡ 0)
        (λ s new. DeletesRange s text beg end result sent.new new) }
{
    *sent = 0;
    let Some(mut note) = handle.open(alloc) else {
        return NOT_OPEN;
    };
    let edited = note.delete(text, beg, end);
    handle.close(alloc, note);
    *sent = edited.sent;
    edited.number
}

/// Gives the characters from `beg` to `end` of a text the looks that the bits select.
#[unsafe(no_mangle)]
pub extern "C" fn vialshoal_note_change_looks(
    alloc: Global,
    handle: &mut NoteHandle,
    text: u16,
    beg: u64,
    end: u64,
    bits: u8,
    font: &[u8],
    colour: u8,
    offset: i8,
    sent: &mut u32,
) -> u32
    ensures { OnOpen handle.old.value handle.new.value result (sent.new ≡ 0)
        (λ s new. DressesRange s text beg end bits font.now colour offset result sent.new new) }
{
    *sent = 0;
    let Some(mut note) = handle.open(alloc) else {
        return NOT_OPEN;
    };
    let edited = note.change_looks(text, beg, end, bits, font, colour, offset);
    handle.close(alloc, note);
    *sent = edited.sent;
    edited.number
}

// Edits a text by names.
fn edit_names(
    alloc: Global,
    handle: &mut NoteHandle,
    text: u16,
    what: ByNames,
    names: &[CharNames],
    sent: &mut u32,
) -> u32
    ensures { OnOpen handle.old.value handle.new.value result (sent.new ≡ 0)
        (λ s new. EditsNoteNames s text what names.now result sent.new new) }
{
    *sent = 0;
    let Some(mut note) = handle.open(alloc) else {
        return NOT_OPEN;
    };
    let edited = note.edit_by_names(alloc, text, what, names);
    handle.close(alloc, note);
    *sent = edited.sent;
    edited.number
}

/// Takes the characters of these names out of what a text shows, wherever they stand.
#[unsafe(no_mangle)]
pub extern "C" fn vialshoal_note_delete_names(
    alloc: Global,
    handle: &mut NoteHandle,
    text: u16,
    names: &[CharNames],
    sent: &mut u32,
) -> u32
    ensures { OnOpen handle.old.value handle.new.value result (sent.new ≡ 0)
        (λ s new. EditsNoteNames s text ByNames.Delete names.now result sent.new new) }
{
    edit_names(alloc, handle, text, ByNames::Delete, names, sent)
}

/// Shows the characters of these names again, each at its own place.
#[unsafe(no_mangle)]
pub extern "C" fn vialshoal_note_restore_names(
    alloc: Global,
    handle: &mut NoteHandle,
    text: u16,
    names: &[CharNames],
    sent: &mut u32,
) -> u32
    ensures { OnOpen handle.old.value handle.new.value result (sent.new ≡ 0)
        (λ s new. EditsNoteNames s text ByNames.Restore names.now result sent.new new) }
{
    edit_names(alloc, handle, text, ByNames::Restore, names, sent)
}

/// The head and the body of one of the entries that say the own messages of a text which don't count yet.
#[unsafe(no_mangle)]
pub extern "C" fn vialshoal_note_own(
    alloc: Global,
    handle: &mut NoteHandle,
    text: u16,
    author: &NoteHash,
    index: u64,
    head: &mut EntryHead,
    room: &mut [u8],
    need: &mut u64,
) -> u32
    ensures { Reads handle.old.value handle.new.value result ((need.new ≡ 0) × (room.new ≡ room.old) × (head.new ≡ head.old))
        (λ s. PutsOwn s text (hash_of author.now.bytes) index head.old head.new room.old result need.new room.new) }
{
    *need = 0;
    let Some(note) = handle.open(alloc) else {
        return NOT_OPEN;
    };
    let put = note.own(text, author, index, head, room);
    handle.close(alloc, note);
    *need = put.need;
    put.number
}

/// What changed of what a text shows since the changes were asked for, or that it was begun anew since.
#[unsafe(no_mangle)]
pub extern "C" fn vialshoal_note_changes(
    alloc: Global,
    handle: &mut NoteHandle,
    text: u16,
    is_anew: &mut bool,
    room: &mut [TextChange],
    need: &mut u64,
) -> u32
    ensures { OnOpen handle.old.value handle.new.value result
        ((need.new ≡ 0) × (is_anew.new ≡ false) × (room.new ≡ room.old))
        (λ s new. TellsChangesIn s text false is_anew.new room.old result need.new room.new new) }
{
    *need = 0;
    *is_anew = false;
    let Some(mut note) = handle.open(alloc) else {
        return NOT_OPEN;
    };
    let put = note.changes(text, is_anew, room);
    handle.close(alloc, note);
    *need = put.need;
    put.number
}

/// How many characters a text shows.
#[unsafe(no_mangle)]
pub extern "C" fn vialshoal_note_length(
    alloc: Global,
    handle: &mut NoteHandle,
    text: u16,
    len: &mut u64,
) -> u32
    ensures { Reads handle.old.value handle.new.value result (len.new ≡ len.old)
        (λ s. OfText s text result (len.new ≡ len.old) (λ t. (result ≡ 0) × (len.new ≡ length (shown_of t)))) }
{
    let Some(note) = handle.open(alloc) else {
        return NOT_OPEN;
    };
    let mut number = NO_NUMBER;
    if let Some(replica) = note.text(text) {
        *len = replica.shown_len();
        number = 0;
    }
    handle.close(alloc, note);
    number
}

/// The bytes that a text shows from `beg` to `end`.
#[unsafe(no_mangle)]
pub extern "C" fn vialshoal_note_bytes(
    alloc: Global,
    handle: &mut NoteHandle,
    text: u16,
    beg: u64,
    end: u64,
    room: &mut [u8],
    need: &mut u64,
) -> u32
    ensures { Reads handle.old.value handle.new.value result ((need.new ≡ 0) × (room.new ≡ room.old))
        (λ s. OfText s text result ((need.new ≡ 0) × (room.new ≡ room.old)) (λ t. PutsShown char_bytes t beg end room.old result need.new room.new)) }
{
    *need = 0;
    let Some(note) = handle.open(alloc) else {
        return NOT_OPEN;
    };
    let put = match note.text(text) {
        Some(replica) => put_shown_bytes(replica, beg, end, room),
        None => Put::none(NO_NUMBER),
    };
    handle.close(alloc, note);
    *need = put.need;
    put.number
}

/// What the character at a position of a text looks like, and where characters of other looks begin.
#[unsafe(no_mangle)]
pub extern "C" fn vialshoal_note_looks(
    alloc: Global,
    handle: &mut NoteHandle,
    text: u16,
    pos: u64,
    run: &mut LooksRun,
    font: &mut [u8],
    need: &mut u64,
) -> u32
    ensures { Reads handle.old.value handle.new.value result ((need.new ≡ 0) × (run.new ≡ run.old) × (font.new ≡ font.old))
        (λ s. OfText s text result ((need.new ≡ 0) × (run.new ≡ run.old) × (font.new ≡ font.old)) (λ t. TellsRun t pos run.old run.new font.old result need.new font.new)) }
{
    *need = 0;
    let Some(note) = handle.open(alloc) else {
        return NOT_OPEN;
    };
    let put = match note.text(text) {
        Some(replica) => tell_run(replica, pos, run, font),
        None => Put::none(NO_NUMBER),
    };
    handle.close(alloc, note);
    *need = put.need;
    put.number
}

/// The names of the characters that a text shows from `beg` to `end`.
#[unsafe(no_mangle)]
pub extern "C" fn vialshoal_note_names(
    alloc: Global,
    handle: &mut NoteHandle,
    text: u16,
    beg: u64,
    end: u64,
    room: &mut [CharName],
    need: &mut u64,
) -> u32
    ensures { Reads handle.old.value handle.new.value result ((need.new ≡ 0) × (room.new ≡ room.old))
        (λ s. OfText s text result ((need.new ≡ 0) × (room.new ≡ room.old)) (λ t. PutsShown c_names t beg end room.old result need.new room.new)) }
{
    *need = 0;
    let Some(note) = handle.open(alloc) else {
        return NOT_OPEN;
    };
    let put = match note.text(text) {
        Some(replica) => put_shown_names(replica, beg, end, room),
        None => Put::none(NO_NUMBER),
    };
    handle.close(alloc, note);
    *need = put.need;
    put.number
}

/// Where the character of this site and this offset is in a text.
#[unsafe(no_mangle)]
pub extern "C" fn vialshoal_note_find(
    alloc: Global,
    handle: &mut NoteHandle,
    text: u16,
    site: u16,
    offset: u32,
    place: &mut Place,
) -> u32
    ensures { Reads handle.old.value handle.new.value result (place.new ≡ place.old)
        (λ s. OfText s text result (place.new ≡ place.old) (λ t. FindsName t site offset result place.old place.new)) }
{
    let Some(note) = handle.open(alloc) else {
        return NOT_OPEN;
    };
    let number = match note.text(text) {
        Some(replica) => find_name(replica, site, offset, place),
        None => NO_NUMBER,
    };
    handle.close(alloc, note);
    number
}

/// The front of a site in a text.
#[unsafe(no_mangle)]
pub extern "C" fn vialshoal_note_front(
    alloc: Global,
    handle: &mut NoteHandle,
    text: u16,
    site: u16,
    front: &mut u32,
) -> u32
    ensures { Reads handle.old.value handle.new.value result (front.new ≡ front.old)
        (λ s. OfText s text result (front.new ≡ front.old) (λ t. TellsFront t site result front.old front.new)) }
{
    let Some(note) = handle.open(alloc) else {
        return NOT_OPEN;
    };
    let number = match note.text(text) {
        Some(replica) => tell_front(replica, site, front),
        None => NO_NUMBER,
    };
    handle.close(alloc, note);
    number
}

/// The sites of which a text took operations in, rising.
#[unsafe(no_mangle)]
pub extern "C" fn vialshoal_note_sites(
    alloc: Global,
    handle: &mut NoteHandle,
    text: u16,
    room: &mut [u16],
    need: &mut u64,
) -> u32
    ensures { Reads handle.old.value handle.new.value result ((need.new ≡ 0) × (room.new ≡ room.old))
        (λ s. OfText s text result ((need.new ≡ 0) × (room.new ≡ room.old)) (λ t. PutsSites t room.old result need.new room.new)) }
{
    *need = 0;
    let Some(note) = handle.open(alloc) else {
        return NOT_OPEN;
    };
    let put = match note.text(text) {
        Some(replica) => put_sites_of(replica, room),
        None => Put::none(NO_NUMBER),
    };
    handle.close(alloc, note);
    *need = put.need;
    put.number
}

/// Opens an empty past handle with a text as it was up to these fronts.
#[unsafe(no_mangle)]
pub extern "C" fn vialshoal_note_past(
    alloc: Global,
    handle: &mut NoteHandle,
    text: u16,
    fronts: &[SiteFront],
    past: &mut PastHandle,
) -> u32
    ensures { Reads handle.old.value handle.new.value result (past.new.value ≡ past.old.value)
        (λ s. OfText s text result (past.new.value ≡ past.old.value) (λ t. OpensPast t past.old.value fronts.now result past.new.value)) }
{
    let Some(note) = handle.open(alloc) else {
        return NOT_OPEN;
    };
    let number = match note.text(text) {
        Some(replica) => open_past(alloc, replica, fronts, past),
        None => NO_NUMBER,
    };
    handle.close(alloc, note);
    number
}
