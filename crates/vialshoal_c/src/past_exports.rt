//! What C calls of a text as it was. A call that asks takes the past handle's text out, reads it, and puts it back.

ghost use Rattle.std.specs.Prelude.{◌≡◌, None, MatchOption, length};
ghost use Rattle.texts.specs.TextState.{shown_of};
ghost use Rattle.vialshoal_c.specs.Asking.{FindsName, PutsShown, TellsRun, c_names};
ghost use Rattle.char_files.specs.Chars.{char_bytes};
ghost use Rattle.vialshoal_c.specs.History.{OpensPast};
ghost use Rattle.vialshoal_c.specs.Opened.{Reads};

use crate::handle::Handle;
use crate::history::{are_fronts, past_of};
use crate::inputs::SiteFront;
use crate::numbers::{ALREADY_OPEN, NO_NUMBER, NOT_OPEN};
use crate::outputs::{CharName, LooksRun, Place};
use crate::past_handle::PastHandle;
use crate::showing::{find_name, put_shown_bytes, put_shown_names, tell_run};
use std::alloc::Global;
use texts::Replica;

// Opens an empty past handle with a replica's text as it was, if all of these are fronts.
fn open_past_of(
    alloc: Global,
    replica: &Replica,
    fronts: &[SiteFront],
    past: &mut PastHandle,
) -> u32
    requires { past.old.value ≡ None }
    ensures { OpensPast replica.now None fronts.now result past.new.value }
{
    if !are_fronts(fronts) {
        return NO_NUMBER;
    }
    match past_of(alloc, replica, fronts) {
        Ok(text) => {
            past.close(alloc, text);
            0
        }
        Err(why) => u32::from(why.number()),
    }
}

// Opens a past handle so, if it is empty.
pub(crate) fn open_past(
    alloc: Global,
    replica: &Replica,
    fronts: &[SiteFront],
    past: &mut PastHandle,
) -> u32
    ensures { OpensPast replica.now past.old.value fronts.now result past.new.value }
{
    match past.open(alloc) {
        Some(held) => {
            past.close(alloc, held);
            ALREADY_OPEN
        }
        None => open_past_of(alloc, replica, fronts, past),
    }
}

/// Opens an empty past handle with the text as it was up to these fronts.
#[unsafe(no_mangle)]
pub extern "C" fn vialshoal_past(
    alloc: Global,
    handle: &mut Handle,
    fronts: &[SiteFront],
    past: &mut PastHandle,
) -> u32
    ensures { Reads handle.old.value handle.new.value result (past.new.value ≡ past.old.value)
        (λ s. OpensPast s.text past.old.value fronts.now result past.new.value) }
{
    let Some(session) = handle.open(alloc) else {
        return NOT_OPEN;
    };
    let number = open_past(alloc, &session.replica, fronts, past);
    handle.close(alloc, session);
    number
}

/// Frees what a past handle holds.
#[unsafe(no_mangle)]
pub extern "C" fn vialshoal_past_free(alloc: Global, past: &mut PastHandle) -> u32
    ensures answer { MatchOption past.old.value (result ≡ NOT_OPEN) (λ _. result ≡ 0) }
    ensures freed { past.new.value ≡ None }
{
    match past.open(alloc) {
        Some(text) => {
            drop(text);
            0
        }
        None => NOT_OPEN,
    }
}

/// How many characters were shown.
#[unsafe(no_mangle)]
pub extern "C" fn vialshoal_past_length(alloc: Global, past: &mut PastHandle, len: &mut u64) -> u32
    ensures { Reads past.old.value past.new.value result (len.new ≡ len.old)
        (λ p. (result ≡ 0) × (len.new ≡ length (shown_of p))) }
{
    let Some(text) = past.open(alloc) else {
        return NOT_OPEN;
    };
    *len = text.replica().shown_len();
    past.close(alloc, text);
    0
}

/// The bytes that were shown from `beg` to `end`.
#[unsafe(no_mangle)]
pub extern "C" fn vialshoal_past_bytes(
    alloc: Global,
    past: &mut PastHandle,
    beg: u64,
    end: u64,
    room: &mut [u8],
    need: &mut u64,
) -> u32
    ensures { Reads past.old.value past.new.value result ((need.new ≡ 0) × (room.new ≡ room.old))
        (λ p. PutsShown char_bytes p beg end room.old result need.new room.new) }
{
    *need = 0;
    let Some(text) = past.open(alloc) else {
        return NOT_OPEN;
    };
    let put = put_shown_bytes(text.replica(), beg, end, room);
    past.close(alloc, text);
    *need = put.need;
    put.number
}

/// What the character at a position looked like, and where characters of other looks began.
#[unsafe(no_mangle)]
pub extern "C" fn vialshoal_past_looks(
    alloc: Global,
    past: &mut PastHandle,
    pos: u64,
    run: &mut LooksRun,
    font: &mut [u8],
    need: &mut u64,
) -> u32
    ensures { Reads past.old.value past.new.value result
        ((need.new ≡ 0) × (run.new ≡ run.old) × (font.new ≡ font.old))
        (λ p. TellsRun p pos run.old run.new font.old result need.new font.new) }
{
    *need = 0;
    let Some(text) = past.open(alloc) else {
        return NOT_OPEN;
    };
    let put = tell_run(text.replica(), pos, run, font);
    past.close(alloc, text);
    *need = put.need;
    put.number
}

/// The names of the characters that were shown from `beg` to `end`.
#[unsafe(no_mangle)]
pub extern "C" fn vialshoal_past_names(
    alloc: Global,
    past: &mut PastHandle,
    beg: u64,
    end: u64,
    room: &mut [CharName],
    need: &mut u64,
) -> u32
    ensures { Reads past.old.value past.new.value result ((need.new ≡ 0) × (room.new ≡ room.old))
        (λ p. PutsShown c_names p beg end room.old result need.new room.new) }
{
    *need = 0;
    let Some(text) = past.open(alloc) else {
        return NOT_OPEN;
    };
    let put = put_shown_names(text.replica(), beg, end, room);
    past.close(alloc, text);
    *need = put.need;
    put.number
}

/// Where the character of this site and this offset was.
#[unsafe(no_mangle)]
pub extern "C" fn vialshoal_past_find(
    alloc: Global,
    past: &mut PastHandle,
    site: u16,
    offset: u32,
    place: &mut Place,
) -> u32
    ensures { Reads past.old.value past.new.value result (place.new ≡ place.old)
        (λ p. FindsName p site offset result place.old place.new) }
{
    let Some(text) = past.open(alloc) else {
        return NOT_OPEN;
    };
    let number = find_name(text.replica(), site, offset, place);
    past.close(alloc, text);
    number
}
