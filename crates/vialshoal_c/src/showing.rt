//! What a replica shows, that of a session or of a text as it was.

ghost use Rattle.std.specs.Prelude.{◌≡◌, ◌+◌, ◌++◌, ◌<◌, ◌≤◌, ◌↔◌, length, take, drop, slice_get, IfSome, IsTrue};
ghost use Rattle.taken_text.specs.Rows.{chars_of_rows};
ghost use Rattle.texts.specs.Edit.{is_range_in};
ghost use Rattle.texts.specs.TextState.{shown_of};
ghost use Rattle.vialshoal_c.specs.Asking.{FindsName, FindsPlace, IsRun, PutsShown, TellsRun, c_names};
ghost use Rattle.char_files.specs.Chars.{char_bytes};

use crate::asking::{Put, put_bytes};
use crate::numbers::{NO_NAME, NO_NUMBER, OUT_OF_TEXT, TOO_SHORT};
use crate::outputs::{CharName, LooksRun, Place};
use char_files::{Anchor, Name, SiteNo};
use looks::Looks;
use texts::{Replica, Shown, ShownRows};

// Whether a range lies in the text.
pub(crate) fn has_range(replica: &Replica, beg: u64, end: u64) -> bool
    ensures { result ≡ is_range_in replica.now beg end }
{
    beg <= end && end <= replica.shown_len()
}

// Puts bytes into a room at a place.
fn put_at(room: &mut [u8], at: usize, bytes: &[u8])
    requires { at + length bytes.now ≤ length room.old }
    ensures { room.new ≡ take at room.old ++ bytes.now ++ drop (at + length bytes.now) room.old }
{
    room[at..at + bytes.len()].copy_from_slice(bytes);
}

// The bytes of the characters of rows, one after the other, at the beginning of a room.
fn fill_with_bytes(rows: ShownRows<'_>, room: &mut [u8])
    requires { length (chars_of_rows rows) ≤ length room.old }
    ensures { room.new
        ≡ char_bytes (chars_of_rows rows.entry) ++ drop (length (chars_of_rows rows.entry)) room.old }
{
    let mut at = 0;
    for row in rows {
        let bytes = row.bytes();
        put_at(room, at, bytes);
        at += bytes.len();
    }
}

// The names of characters alike.
fn fill_with_names(chars: Shown<'_>, room: &mut [CharName])
    requires { length chars ≤ length room.old }
    ensures { room.new ≡ c_names chars.entry ++ drop (length chars.entry) room.old }
{
    let mut at = 0;
    for char in chars {
        room[at] = CharName {
            site: char.name.site().get(),
            offset: char.name.off(),
        };
        at += 1;
    }
}

/// Puts the bytes shown from `beg` to `end` into a room.
pub(crate) fn put_shown_bytes(replica: &Replica, beg: u64, end: u64, room: &mut [u8]) -> Put
    ensures { PutsShown char_bytes replica.now beg end room.old result.number result.need room.new }
{
    if !has_range(replica, beg, end) {
        return Put::none(OUT_OF_TEXT);
    }
    let need = end - beg;
    if (room.len() as u64) < need {
        return Put {
            number: TOO_SHORT,
            need,
        };
    }
    fill_with_bytes(replica.rows_between(beg, end), room);
    Put { number: 0, need }
}

/// Puts the names of the characters shown from `beg` to `end` into a room.
pub(crate) fn put_shown_names(replica: &Replica, beg: u64, end: u64, room: &mut [CharName]) -> Put
    ensures { PutsShown c_names replica.now beg end room.old result.number result.need room.new }
{
    if !has_range(replica, beg, end) {
        return Put::none(OUT_OF_TEXT);
    }
    let need = end - beg;
    if (room.len() as u64) < need {
        return Put {
            number: TOO_SHORT,
            need,
        };
    }
    fill_with_names(replica.shown_between(beg, end), room);
    Put { number: 0, need }
}

// Whether two looks are the same.
fn are_same(looks: &Looks, other: &Looks) -> bool
    ensures { IsTrue result ↔ (looks.now ≡ other.now) }
{
    looks == other
}

// Where characters of other looks begin after a position at which these looks are.
fn end_of_run(replica: &Replica, pos: u64, looks: &Looks) -> u64
    requires in_text { pos < length (shown_of replica.now) }
    requires here { IfSome (slice_get (shown_of replica.now) pos) (λ c. c.looks ≡ looks.now) }
    ensures { IsRun (shown_of replica.now) pos result looks.now }
{
    let len = replica.shown_len();
    let mut end = pos + 1;
    for row in replica.rows_between(pos + 1, len) {
        let bytes = row.bytes();
        if !are_same(row.looks(), looks) {
            return end;
        }
        end += bytes.len() as u64;
    }
    end
}

/// Writes what the character at a position looks like, and where characters of other looks begin.
pub(crate) fn tell_run(replica: &Replica, pos: u64, run: &mut LooksRun, font: &mut [u8]) -> Put
    ensures { TellsRun replica.now pos run.old run.new font.old result.number result.need font.new }
{
    if replica.shown_len() <= pos {
        return Put::none(OUT_OF_TEXT);
    }
    let (_, looks) = replica.attributes(pos);
    *run = LooksRun {
        end: end_of_run(replica, pos, &looks),
        colour: looks.colour.number(),
        offset: looks.offset,
    };
    put_bytes(looks.font.as_bytes(), font)
}

// Whether an anchor is this character.
fn is_at(anchor: Anchor, name: Name) -> bool
    ensures { IsTrue result ↔ (anchor ≡ Anchor.At name) }
{
    match anchor {
        Anchor::Root => false,
        Anchor::At(other) => {
            other.site().get() == name.site().get() && other.off() == name.off()
        }
    }
}

// Where a character is.
fn find(replica: &Replica, name: Name, place: &mut Place) -> u32
    ensures { FindsPlace replica.now name result place.old place.new }
{
    replica.lemma_is_text();
    let Some(pos) = replica.position(Anchor::At(name)) else {
        return NO_NAME;
    };
    let is_shown = is_at(replica.anchor_after(pos), name);
    *place = Place { pos, is_shown };
    0
}

/// Where the character of this site and this offset is.
pub(crate) fn find_name(replica: &Replica, site: u16, offset: u32, place: &mut Place) -> u32
    ensures { FindsName replica.now site offset result place.old place.new }
{
    let Some(site) = SiteNo::new(site) else {
        return NO_NUMBER;
    };
    match Name::new(site, offset) {
        Some(name) => find(replica, name, place),
        None => NO_NUMBER,
    }
}
