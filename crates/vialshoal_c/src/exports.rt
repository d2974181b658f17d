//! What C calls. Each call takes the handle's session out, does one thing to it, and puts it back.

ghost use Rattle.std.specs.Prelude.{◌≡◌, [], None, MatchOption, length, ⊤};
ghost use Rattle.looks.specs.Looks.{plain_looks};
ghost use Rattle.texts.specs.Changes.{noting_ended};
ghost use Rattle.texts.specs.Edit.{deletion, recalling, restoration};
ghost use Rattle.texts.specs.TextState.{shown_of};
ghost use Rattle.vialshoal_c.specs.Asking.{FindsName, PutsMessage, PutsShown, TellsChanges, TellsFront};
ghost use Rattle.char_files.specs.Chars.{char_bytes};
ghost use Rattle.vialshoal_c.specs.Asking.{PutsSites, TellsReplacement, TellsRun, c_names};
ghost use Rattle.vialshoal_c.specs.Editing.{BeginsHandle, BeginsText, Dresses, EditsSession, InsertsInLooks, InsertsRun};
ghost use Rattle.vialshoal_c.specs.Feeding.{ForgetsWaiting, MergesHandle, SessionTakesIn, Settles, UnpacksIn};
ghost use Rattle.vialshoal_c.specs.History.{PutsChunks, TellsSince};
ghost use Rattle.vialshoal_c.specs.Keeping.{Opens, OpensFile, PutsFile, PutsText};
ghost use Rattle.vialshoal_c.specs.Naming.{EditsSessionNames};
ghost use Rattle.vialshoal_c.specs.Opened.{OnOpen, Reads};

use crate::asking::{put_sites_of, tell_front};
use crate::handle::Handle;
use crate::inputs::{CharNames, SiteFront};
use crate::numbers::{ALREADY_OPEN, NO_NUMBER, NOT_OPEN};
use crate::outputs::{
    CharName, LooksRun, Place, Replacing, Settling, Taking, TextChange, Unpacking,
};
use crate::session::Session;
use crate::showing::{find_name, put_shown_bytes, put_shown_names, tell_run};
use char_files::{SiteNo, TextNo};
use kept_file::KeptForm;
use std::alloc::Global;
use texts::ByNames;

// Begins a text in an empty handle.
fn begin(alloc: Global, handle: &mut Handle, text: TextNo, site: SiteNo) -> u32
    requires { handle.old.value ≡ None }
    ensures { BeginsText text site result handle.new.value }
{
    match Session::begin(alloc, text, site) {
        Ok(session) => {
            handle.close(alloc, session);
            0
        }
        Err(why) => u32::from(why.number()),
    }
}

/// Begins a text in an empty handle.
#[unsafe(no_mangle)]
pub extern "C" fn vialshoal_new(alloc: Global, handle: &mut Handle, text: u16, site: u16) -> u32
    ensures { BeginsHandle handle.old.value text site result handle.new.value }
{
    if let Some(session) = handle.open(alloc) {
        handle.close(alloc, session);
        return ALREADY_OPEN;
    }
    match (TextNo::new(text), SiteNo::new(site)) {
        (Some(text), Some(site)) => begin(alloc, handle, text, site),
        _ => NO_NUMBER,
    }
}

// Opens the file of a site in an empty handle.
fn load(alloc: Global, handle: &mut Handle, file: &[u8]) -> u32
    requires { handle.old.value ≡ None }
    ensures { OpensFile file.now result handle.new.value }
{
    match Session::load(alloc, file) {
        Ok(session) => {
            handle.close(alloc, session);
            0
        }
        Err(why) => u32::from(why.number()),
    }
}

/// Opens an empty handle with the text that a site's file, in either form, has.
#[unsafe(no_mangle)]
pub extern "C" fn vialshoal_load(alloc: Global, handle: &mut Handle, file: &[u8]) -> u32
    ensures { Opens handle.old.value file.now result handle.new.value }
{
    match handle.open(alloc) {
        Some(session) => {
            handle.close(alloc, session);
            ALREADY_OPEN
        }
        None => load(alloc, handle, file),
    }
}

// The site's file of the text, in this form.
fn store(alloc: Global, handle: &mut Handle, form: KeptForm, room: &mut [u8], need: &mut u64) -> u32
    ensures { Reads handle.old.value handle.new.value result ((need.new ≡ 0) × (room.new ≡ room.old))
        (λ s. PutsFile form s.text room.old result need.new room.new) }
{
    *need = 0;
    let Some(session) = handle.open(alloc) else {
        return NOT_OPEN;
    };
    let put = session.store(alloc, form, room);
    handle.close(alloc, session);
    *need = put.need;
    put.number
}

/// The site's file of the text, from which it is opened again.
#[unsafe(no_mangle)]
pub extern "C" fn vialshoal_store(
    alloc: Global,
    handle: &mut Handle,
    room: &mut [u8],
    need: &mut u64,
) -> u32
    ensures { Reads handle.old.value handle.new.value result ((need.new ≡ 0) × (room.new ≡ room.old))
        (λ s. PutsFile KeptForm.Messages s.text room.old result need.new room.new) }
{
    store(alloc, handle, KeptForm::Messages, room, need)
}

/// The same file packed.
#[unsafe(no_mangle)]
pub extern "C" fn vialshoal_store_packed(
    alloc: Global,
    handle: &mut Handle,
    room: &mut [u8],
    need: &mut u64,
) -> u32
    ensures { Reads handle.old.value handle.new.value result ((need.new ≡ 0) × (room.new ≡ room.old))
        (λ s. PutsFile KeptForm.Packed s.text room.old result need.new room.new) }
{
    store(alloc, handle, KeptForm::Packed, room, need)
}

/// The formatted file of what is shown, which keeps looks.
#[unsafe(no_mangle)]
pub extern "C" fn vialshoal_save(
    alloc: Global,
    handle: &mut Handle,
    room: &mut [u8],
    need: &mut u64,
) -> u32
    ensures { Reads handle.old.value handle.new.value result ((need.new ≡ 0) × (room.new ≡ room.old))
        (λ s. PutsText s.text room.old result need.new room.new) }
{
    *need = 0;
    let Some(session) = handle.open(alloc) else {
        return NOT_OPEN;
    };
    let put = session.save(alloc, room);
    handle.close(alloc, session);
    *need = put.need;
    put.number
}

/// Frees what a handle holds.
#[unsafe(no_mangle)]
pub extern "C" fn vialshoal_free(alloc: Global, handle: &mut Handle) -> u32
    ensures answer { MatchOption handle.old.value (result ≡ NOT_OPEN) (λ _. result ≡ 0) }
    ensures freed { handle.new.value ≡ None }
{
    match handle.open(alloc) {
        Some(session) => {
            drop(session);
            0
        }
        None => NOT_OPEN,
    }
}

/// Puts bytes in default looks after the first `pos` characters.
#[unsafe(no_mangle)]
pub extern "C" fn vialshoal_insert(
    alloc: Global,
    handle: &mut Handle,
    pos: u64,
    bytes: &[u8],
    sent: &mut u32,
) -> u32
    ensures { OnOpen handle.old.value handle.new.value result (sent.new ≡ 0)
        (λ s new. InsertsRun s pos bytes.now plain_looks result sent.new new) }
{
    *sent = 0;
    let Some(mut session) = handle.open(alloc) else {
        return NOT_OPEN;
    };
    let edited = session.insert(pos, bytes);
    handle.close(alloc, session);
    *sent = edited.sent;
    edited.number
}

/// Puts bytes in looks of this font, colour and offset after the first `pos` characters.
#[unsafe(no_mangle)]
pub extern "C" fn vialshoal_insert_in_looks(
    alloc: Global,
    handle: &mut Handle,
    pos: u64,
    bytes: &[u8],
    font: &[u8],
    colour: u8,
    offset: i8,
    sent: &mut u32,
) -> u32
    ensures { OnOpen handle.old.value handle.new.value result (sent.new ≡ 0)
        (λ s new. InsertsInLooks s pos bytes.now font.now colour offset result sent.new new) }
{
    *sent = 0;
    let Some(mut session) = handle.open(alloc) else {
        return NOT_OPEN;
    };
    let edited = session.insert_in_looks(alloc, pos, bytes, font, colour, offset);
    handle.close(alloc, session);
    *sent = edited.sent;
    edited.number
}

/// Takes the characters from `beg` to `end` out of what is shown.
#[unsafe(no_mangle)]
pub extern "C" fn vialshoal_delete(
    alloc: Global,
    handle: &mut Handle,
    beg: u64,
    end: u64,
    sent: &mut u32,
) -> u32
    ensures { OnOpen handle.old.value handle.new.value result (sent.new ≡ 0)
        (λ s new. EditsSession s (deletion beg end) result sent.new new) }
{
    *sent = 0;
    let Some(mut session) = handle.open(alloc) else {
        return NOT_OPEN;
    };
    let edited = session.delete(beg, end);
    handle.close(alloc, session);
    *sent = edited.sent;
    edited.number
}

/// Gives the characters from `beg` to `end` the looks that the bits select.
#[unsafe(no_mangle)]
pub extern "C" fn vialshoal_change_looks(
    alloc: Global,
    handle: &mut Handle,
    beg: u64,
    end: u64,
    bits: u8,
    font: &[u8],
    colour: u8,
    offset: i8,
    sent: &mut u32,
) -> u32
    ensures { OnOpen handle.old.value handle.new.value result (sent.new ≡ 0)
        (λ s new. Dresses s beg end bits font.now colour offset result sent.new new) }
{
    *sent = 0;
    let Some(mut session) = handle.open(alloc) else {
        return NOT_OPEN;
    };
    let edited = session.change_looks(beg, end, bits, font, colour, offset);
    handle.close(alloc, session);
    *sent = edited.sent;
    edited.number
}

/// Shows again what was cut last by positions.
#[unsafe(no_mangle)]
pub extern "C" fn vialshoal_restore(alloc: Global, handle: &mut Handle, sent: &mut u32) -> u32
    ensures { OnOpen handle.old.value handle.new.value result (sent.new ≡ 0)
        (λ s new. EditsSession s restoration result sent.new new) }
{
    *sent = 0;
    let Some(mut session) = handle.open(alloc) else {
        return NOT_OPEN;
    };
    let edited = session.restore();
    handle.close(alloc, session);
    *sent = edited.sent;
    edited.number
}

/// Puts a copy of what was cut last by positions after the first `pos` characters.
#[unsafe(no_mangle)]
pub extern "C" fn vialshoal_recall(
    alloc: Global,
    handle: &mut Handle,
    pos: u64,
    sent: &mut u32,
) -> u32
    ensures { OnOpen handle.old.value handle.new.value result (sent.new ≡ 0)
        (λ s new. EditsSession s (recalling pos) result sent.new new) }
{
    *sent = 0;
    let Some(mut session) = handle.open(alloc) else {
        return NOT_OPEN;
    };
    let edited = session.recall(pos);
    handle.close(alloc, session);
    *sent = edited.sent;
    edited.number
}

// Edits a text by names.
fn edit_names(
    alloc: Global,
    handle: &mut Handle,
    what: ByNames,
    names: &[CharNames],
    sent: &mut u32,
) -> u32
    ensures { OnOpen handle.old.value handle.new.value result (sent.new ≡ 0)
        (λ s new. EditsSessionNames s what names.now result sent.new new) }
{
    *sent = 0;
    let Some(mut session) = handle.open(alloc) else {
        return NOT_OPEN;
    };
    let edited = session.edit_by_names(alloc, what, names);
    handle.close(alloc, session);
    *sent = edited.sent;
    edited.number
}

/// Takes the characters of these names out of what is shown, wherever they stand.
#[unsafe(no_mangle)]
pub extern "C" fn vialshoal_delete_names(
    alloc: Global,
    handle: &mut Handle,
    names: &[CharNames],
    sent: &mut u32,
) -> u32
    ensures { OnOpen handle.old.value handle.new.value result (sent.new ≡ 0)
        (λ s new. EditsSessionNames s ByNames.Delete names.now result sent.new new) }
{
    edit_names(alloc, handle, ByNames::Delete, names, sent)
}

/// Shows the characters of these names again, each at its own place.
#[unsafe(no_mangle)]
pub extern "C" fn vialshoal_restore_names(
    alloc: Global,
    handle: &mut Handle,
    names: &[CharNames],
    sent: &mut u32,
) -> u32
    ensures { OnOpen handle.old.value handle.new.value result (sent.new ≡ 0)
        (λ s new. EditsSessionNames s ByNames.Restore names.now result sent.new new) }
{
    edit_names(alloc, handle, ByNames::Restore, names, sent)
}

/// Takes in a message of any site, or lets it wait.
#[unsafe(no_mangle)]
pub extern "C" fn vialshoal_take(
    alloc: Global,
    handle: &mut Handle,
    message: &[u8],
    taking: &mut Taking,
) -> u32
    ensures { OnOpen handle.old.value handle.new.value result (taking.new ≡ taking.old)
        (λ s new. SessionTakesIn s message.now result taking.new new) }
{
    let Some(mut session) = handle.open(alloc) else {
        return NOT_OPEN;
    };
    let answer = session.take(message);
    handle.close(alloc, session);
    *taking = answer.taking;
    answer.number
}

/// Takes in the operations of a chunk, or lets them wait.
#[unsafe(no_mangle)]
pub extern "C" fn vialshoal_unpack(
    alloc: Global,
    handle: &mut Handle,
    chunk: &[u8],
    unpacking: &mut Unpacking,
) -> u32
    ensures { OnOpen handle.old.value handle.new.value result (unpacking.new ≡ unpacking.old)
        (λ s new. UnpacksIn s chunk.now result unpacking.new new) }
{
    let Some(mut session) = handle.open(alloc) else {
        return NOT_OPEN;
    };
    let handed = session.unpack(alloc, chunk);
    handle.close(alloc, session);
    *unpacking = handed.unpacking;
    handed.number
}

/// Takes in what waits, as far as it is ready.
#[unsafe(no_mangle)]
pub extern "C" fn vialshoal_settle(
    alloc: Global,
    handle: &mut Handle,
    settling: &mut Settling,
) -> u32
    ensures { OnOpen handle.old.value handle.new.value result (settling.new ≡ settling.old)
        (λ s new. Settles s result settling.new.drained settling.new.dropped settling.new.stopped new) }
{
    let Some(mut session) = handle.open(alloc) else {
        return NOT_OPEN;
    };
    *settling = session.settle();
    handle.close(alloc, session);
    0
}

/// Forgets what waits.
#[unsafe(no_mangle)]
pub extern "C" fn vialshoal_forget(alloc: Global, handle: &mut Handle, count: &mut u32) -> u32
    ensures { OnOpen handle.old.value handle.new.value result (count.new ≡ count.old)
        (λ s new. ForgetsWaiting s result count.new new) }
{
    let Some(mut session) = handle.open(alloc) else {
        return NOT_OPEN;
    };
    *count = session.forget();
    handle.close(alloc, session);
    0
}

/// Takes in what another handle's text holds.
#[unsafe(no_mangle)]
pub extern "C" fn vialshoal_merge(
    alloc: Global,
    handle: &mut Handle,
    other: &mut Handle,
    taken: &mut u64,
) -> u32
    ensures merges { OnOpen handle.old.value handle.new.value result (taken.new ≡ 0)
        (λ s new. MergesHandle other.old.value s result taken.new new) }
    ensures other { other.new.value ≡ other.old.value }
{
    *taken = 0;
    let Some(mut session) = handle.open(alloc) else {
        return NOT_OPEN;
    };
    let Some(source) = other.open(alloc) else {
        handle.close(alloc, session);
        return NOT_OPEN;
    };
    let merged = session.merge(&source);
    handle.close(alloc, session);
    other.close(alloc, source);
    *taken = merged.taken;
    merged.number
}

/// How many characters are shown.
#[unsafe(no_mangle)]
pub extern "C" fn vialshoal_length(alloc: Global, handle: &mut Handle, len: &mut u64) -> u32
    ensures { Reads handle.old.value handle.new.value result (len.new ≡ len.old)
        (λ s. (result ≡ 0) × (len.new ≡ length (shown_of s.text))) }
{
    let Some(session) = handle.open(alloc) else {
        return NOT_OPEN;
    };
    *len = session.replica.shown_len();
    handle.close(alloc, session);
    0
}

/// How many messages wait for a cause.
#[unsafe(no_mangle)]
pub extern "C" fn vialshoal_waiting(alloc: Global, handle: &mut Handle, count: &mut u32) -> u32
    ensures { Reads handle.old.value handle.new.value result (count.new ≡ count.old)
        (λ s. (result ≡ 0) × (count.new ≡ length s.text.waiting_room)) }
{
    let Some(session) = handle.open(alloc) else {
        return NOT_OPEN;
    };
    *count = session.replica.waiting();
    handle.close(alloc, session);
    0
}

/// The bytes shown from `beg` to `end`.
#[unsafe(no_mangle)]
pub extern "C" fn vialshoal_bytes(
    alloc: Global,
    handle: &mut Handle,
    beg: u64,
    end: u64,
    room: &mut [u8],
    need: &mut u64,
) -> u32
    ensures { Reads handle.old.value handle.new.value result ((need.new ≡ 0) × (room.new ≡ room.old))
        (λ s. PutsShown char_bytes s.text beg end room.old result need.new room.new) }
{
    *need = 0;
    let Some(session) = handle.open(alloc) else {
        return NOT_OPEN;
    };
    let put = put_shown_bytes(&session.replica, beg, end, room);
    handle.close(alloc, session);
    *need = put.need;
    put.number
}

/// What the character at a position looks like, and where characters of other looks begin.
#[unsafe(no_mangle)]
pub extern "C" fn vialshoal_looks(
    alloc: Global,
    handle: &mut Handle,
    pos: u64,
    run: &mut LooksRun,
    font: &mut [u8],
    need: &mut u64,
) -> u32
    ensures { Reads handle.old.value handle.new.value result
        ((need.new ≡ 0) × (run.new ≡ run.old) × (font.new ≡ font.old))
        (λ s. TellsRun s.text pos run.old run.new font.old result need.new font.new) }
{
    *need = 0;
    let Some(session) = handle.open(alloc) else {
        return NOT_OPEN;
    };
    let put = tell_run(&session.replica, pos, run, font);
    handle.close(alloc, session);
    *need = put.need;
    put.number
}

/// The names of the characters shown from `beg` to `end`.
#[unsafe(no_mangle)]
pub extern "C" fn vialshoal_names(
    alloc: Global,
    handle: &mut Handle,
    beg: u64,
    end: u64,
    room: &mut [CharName],
    need: &mut u64,
) -> u32
    ensures { Reads handle.old.value handle.new.value result ((need.new ≡ 0) × (room.new ≡ room.old))
        (λ s. PutsShown c_names s.text beg end room.old result need.new room.new) }
{
    *need = 0;
    let Some(session) = handle.open(alloc) else {
        return NOT_OPEN;
    };
    let put = put_shown_names(&session.replica, beg, end, room);
    handle.close(alloc, session);
    *need = put.need;
    put.number
}

/// Where the character of this site and this offset is.
#[unsafe(no_mangle)]
pub extern "C" fn vialshoal_find(
    alloc: Global,
    handle: &mut Handle,
    site: u16,
    offset: u32,
    place: &mut Place,
) -> u32
    ensures { Reads handle.old.value handle.new.value result (place.new ≡ place.old)
        (λ s. FindsName s.text site offset result place.old place.new) }
{
    let Some(session) = handle.open(alloc) else {
        return NOT_OPEN;
    };
    let number = find_name(&session.replica, site, offset, place);
    handle.close(alloc, session);
    number
}

/// The front of a site: the greatest number of its operations that was taken in, 0 for none.
#[unsafe(no_mangle)]
pub extern "C" fn vialshoal_front(
    alloc: Global,
    handle: &mut Handle,
    site: u16,
    front: &mut u32,
) -> u32
    ensures { Reads handle.old.value handle.new.value result (front.new ≡ front.old)
        (λ s. TellsFront s.text site result front.old front.new) }
{
    let Some(session) = handle.open(alloc) else {
        return NOT_OPEN;
    };
    let number = tell_front(&session.replica, site, front);
    handle.close(alloc, session);
    number
}

/// The sites of which operations were taken in, rising.
#[unsafe(no_mangle)]
pub extern "C" fn vialshoal_sites(
    alloc: Global,
    handle: &mut Handle,
    room: &mut [u16],
    need: &mut u64,
) -> u32
    ensures { Reads handle.old.value handle.new.value result ((need.new ≡ 0) × (room.new ≡ room.old))
        (λ s. PutsSites s.text room.old result need.new room.new) }
{
    *need = 0;
    let Some(session) = handle.open(alloc) else {
        return NOT_OPEN;
    };
    let put = put_sites_of(&session.replica, room);
    handle.close(alloc, session);
    *need = put.need;
    put.number
}

/// A message of what was taken in past these fronts: of the first that is, from the place on that the index has.
#[unsafe(no_mangle)]
pub extern "C" fn vialshoal_since(
    alloc: Global,
    handle: &mut Handle,
    fronts: &[SiteFront],
    index: &mut u64,
    room: &mut [u8],
    need: &mut u64,
) -> u32
    ensures { Reads handle.old.value handle.new.value result
        ((need.new ≡ 0) × (index.new ≡ index.old) × (room.new ≡ room.old))
        (λ s. TellsSince s.text fronts.now index.old room.old result need.new room.new index.new) }
{
    *need = 0;
    let Some(session) = handle.open(alloc) else {
        return NOT_OPEN;
    };
    let put = session.since(alloc, fronts, index, room);
    handle.close(alloc, session);
    *need = put.need;
    put.number
}

/// The chunks of what was taken in past these fronts, each after its length.
#[unsafe(no_mangle)]
pub extern "C" fn vialshoal_pack(
    alloc: Global,
    handle: &mut Handle,
    fronts: &[SiteFront],
    room: &mut [u8],
    need: &mut u64,
) -> u32
    ensures { Reads handle.old.value handle.new.value result ((need.new ≡ 0) × (room.new ≡ room.old))
        (λ s. PutsChunks s.text fronts.now room.old result need.new room.new) }
{
    *need = 0;
    let Some(session) = handle.open(alloc) else {
        return NOT_OPEN;
    };
    let put = session.pack(alloc, fronts, room);
    handle.close(alloc, session);
    *need = put.need;
    put.number
}

/// How many messages are kept, of those that edits sent.
#[unsafe(no_mangle)]
pub extern "C" fn vialshoal_messages(alloc: Global, handle: &mut Handle, count: &mut u64) -> u32
    ensures { Reads handle.old.value handle.new.value result (count.new ≡ count.old)
        (λ s. (result ≡ 0) × (count.new ≡ length s.sent)) }
{
    let Some(session) = handle.open(alloc) else {
        return NOT_OPEN;
    };
    *count = session.outbox.len() as u64;
    handle.close(alloc, session);
    0
}

/// The bytes of a message that is kept.
#[unsafe(no_mangle)]
pub extern "C" fn vialshoal_message(
    alloc: Global,
    handle: &mut Handle,
    index: u64,
    room: &mut [u8],
    need: &mut u64,
) -> u32
    ensures { Reads handle.old.value handle.new.value result ((need.new ≡ 0) × (room.new ≡ room.old))
        (λ s. PutsMessage s.sent index room.old result need.new room.new) }
{
    *need = 0;
    let Some(session) = handle.open(alloc) else {
        return NOT_OPEN;
    };
    let put = session.message(index, room);
    handle.close(alloc, session);
    *need = put.need;
    put.number
}

/// Lets all messages go that are kept.
#[unsafe(no_mangle)]
pub extern "C" fn vialshoal_let_go(alloc: Global, handle: &mut Handle) -> u32
    ensures { OnOpen handle.old.value handle.new.value result ⊤
        (λ s new. (result ≡ 0) × (new ≡ record s { sent = [] })) }
{
    let Some(mut session) = handle.open(alloc) else {
        return NOT_OPEN;
    };
    session.let_go();
    handle.close(alloc, session);
    0
}

/// What changed of what is shown since the changes were asked for.
#[unsafe(no_mangle)]
pub extern "C" fn vialshoal_changes(
    alloc: Global,
    handle: &mut Handle,
    room: &mut [TextChange],
    need: &mut u64,
) -> u32
    ensures { OnOpen handle.old.value handle.new.value result ((need.new ≡ 0) × (room.new ≡ room.old))
        (λ s new. TellsChanges s room.old result need.new room.new new) }
{
    *need = 0;
    let Some(mut session) = handle.open(alloc) else {
        return NOT_OPEN;
    };
    let put = session.changes(room);
    handle.close(alloc, session);
    *need = put.need;
    put.number
}

/// Ends the noting of changes: so many characters were reported.
#[unsafe(no_mangle)]
pub extern "C" fn vialshoal_end_noting(alloc: Global, handle: &mut Handle, shown: u64) -> u32
    ensures { OnOpen handle.old.value handle.new.value result ⊤
        (λ s new. (result ≡ 0) × (new ≡ record s { text = noting_ended s.text shown; told = [] })) }
{
    let Some(mut session) = handle.open(alloc) else {
        return NOT_OPEN;
    };
    session.end_noting(shown);
    handle.close(alloc, session);
    0
}

/// What leads from what was reported last to what is shown, where noting has ended.
#[unsafe(no_mangle)]
pub extern "C" fn vialshoal_replacement(
    alloc: Global,
    handle: &mut Handle,
    replacing: &mut Replacing,
) -> u32
    ensures { OnOpen handle.old.value handle.new.value result (replacing.new ≡ replacing.old)
        (λ s new. TellsReplacement s result replacing.old replacing.new new) }
{
    let Some(mut session) = handle.open(alloc) else {
        return NOT_OPEN;
    };
    let number = session.replacement(replacing);
    handle.close(alloc, session);
    number
}
