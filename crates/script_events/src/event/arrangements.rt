ghost use Rattle.std.specs.Prelude.{◌≡◌, option_map, IfSome};
ghost use Rattle.script_events.specs.EventView.{OpensDeskText};
ghost use Rattle.script_events.specs.Script.{cell_in, close_arrangement, move_arrangement, open_arrangement, opening_in, pair_in};
ghost use Rattle.script_events.specs.Script.{point_arrangement, scroll_arrangement, select_arrangement, track_in};

use crate::event::words::{number_in, split_number, split_word, text_in};
use machine::{Arrangement, Cell};
use viewers::Track;

// A track's name.
fn track_in(word: &[u8]) -> Option<Track>
    ensures { result ≡ track_in word.now }
{
    if word == b"user".as_slice() {
        Some(Track::User)
    } else if word == b"system".as_slice() {
        Some(Track::System)
    } else {
        None
    }
}

// Two numbers that end the line.
fn pair_in(rest: &[u8]) -> Option<(u32, usize)>
    ensures { result ≡ pair_in rest.now }
{
    let (first, second) = split_word(rest)?;
    let first = number_in(first)?;
    let second = number_in(second)? as usize;
    Some((first, second))
}

// The column and the row of a cell, which end the line.
pub(crate) fn cell_in(rest: &[u8]) -> Option<Cell>
    ensures { result ≡ cell_in rest.now }
{
    let (col, row) = pair_in(rest)?;
    let col = col as usize;
    Some(Cell { col, row })
}

// What `open` goes on with after its track: a text, which ends the line or has a row after it.
fn opening_in(track: Track, rest: &[u8]) -> Option<Arrangement>
    ensures arrangement { result ≡ opening_in track rest.now }
    ensures on_desk { IfSome result (λ arrangement. OpensDeskText arrangement) }
{
    match split_word(rest) {
        Some((text, row)) => {
            let text = text_in(text)?;
            let row = Some(number_in(row)? as usize);
            Some(Arrangement::Open { track, text, row })
        }
        None => {
            let text = text_in(rest)?;
            let row = None;
            Some(Arrangement::Open { track, text, row })
        }
    }
}

// `open`: a track, a text, and perhaps a row.
pub(crate) fn open_arrangement(rest: &[u8]) -> Option<Arrangement>
    ensures arrangement { result ≡ open_arrangement rest.now }
    ensures on_desk { IfSome result (λ arrangement. OpensDeskText arrangement) }
{
    let (track, rest) = split_word(rest)?;
    opening_in(track_in(track)?, rest)
}

// `close`: a viewer.
pub(crate) fn close_arrangement(rest: &[u8]) -> Option<Arrangement>
    ensures arrangement { result ≡ close_arrangement rest.now }
    ensures on_desk { IfSome result (λ arrangement. OpensDeskText arrangement) }
{
    let viewer = number_in(rest)?;
    Some(Arrangement::Close { viewer })
}

// `move`: a viewer, and a row.
pub(crate) fn move_arrangement(rest: &[u8]) -> Option<Arrangement>
    ensures arrangement { result ≡ move_arrangement rest.now }
    ensures on_desk { IfSome result (λ arrangement. OpensDeskText arrangement) }
{
    let (viewer, row) = pair_in(rest)?;
    Some(Arrangement::Move { viewer, row })
}

// `scroll`: a viewer, and a line.
pub(crate) fn scroll_arrangement(rest: &[u8]) -> Option<Arrangement>
    ensures arrangement { result ≡ scroll_arrangement rest.now }
    ensures on_desk { IfSome result (λ arrangement. OpensDeskText arrangement) }
{
    let (viewer, line) = pair_in(rest)?;
    let line = line as u64;
    Some(Arrangement::Scroll { viewer, line })
}

// `point`: a cell.
pub(crate) fn point_arrangement(rest: &[u8]) -> Option<Arrangement>
    ensures arrangement { result ≡ point_arrangement rest.now }
    ensures on_desk { IfSome result (λ arrangement. OpensDeskText arrangement) }
{
    let cell = cell_in(rest)?;
    Some(Arrangement::Point { cell })
}

// `select`: the columns and rows of two cells.
pub(crate) fn select_arrangement(rest: &[u8]) -> Option<Arrangement>
    ensures arrangement { result ≡ select_arrangement rest.now }
    ensures on_desk { IfSome result (λ arrangement. OpensDeskText arrangement) }
{
    let (col, rest) = split_number(rest)?;
    let (row, rest) = split_number(rest)?;
    let beg = Cell {
        col: col as usize,
        row: row as usize,
    };
    let end = cell_in(rest)?;
    Some(Arrangement::Select { beg, end })
}
