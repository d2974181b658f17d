ghost use Rattle.std.specs.Prelude.{◌≡◌, ℕ, suc, ◌+◌, ◌-◌, ◌<◌, ◌≤◌, length, take, min, vec_capacity, nat_lt, All};
ghost use Rattle.line_drawing.specs.Lines.{beg_of, ends_in};
ghost use Rattle.line_drawing.specs.Rows.{rows_from};
ghost use Rattle.texts.specs.Text.{IsAnchor};
ghost use Rattle.texts.specs.TextState.{shown_of};
ghost use Rattle.machine.specs.Windows.{bytes_shown, place_in};
ghost use Rattle.text_frames.specs.Frames.{last_row, reads_of, rows_in};
ghost use Rattle.text_frames.specs.Reading.{counted};

use crate::MAX_ROWS;
use crate::reading::CountingReader;
use crate::rows::{DrawnRow, read_row};
use char_files::Anchor;
use line_drawing::LINE_END;
use texts::Replica;
use viewers::MAX_WIDTH;

// How many shown characters are the anchor or stand before it; 0 for one that isn't here.
pub(crate) fn place_of(replica: &Replica, anchor: Anchor) -> u64
    ensures place { IsAnchor replica.now.operations anchor → result ≡ place_in replica.now anchor }
    ensures within { result ≤ length (shown_of replica.now) }
{
    replica.lemma_is_text();
    match replica.position(anchor) {
        Some(place) => place,
        None => 0,
    }
}

// Where the line begins that has this place: sought backward, character by character.
fn line_begin(text: &mut CountingReader<'_>, place: u64) -> u64
    requires { place ≤ length (shown_of text.old.text) }
    ensures value { result ≡ beg_of (bytes_shown text.old.text) (ends_in (take place (bytes_shown text.old.text))) }
    ensures within { result ≤ place }
    ensures text { text.new.text ≡ text.old.text }
    ensures reads { text.new.reads ≡ counted (text.old.reads + (place - (result - 1))) }
{
    // A count is in range.
    let _reads = text.count();
    let mut beg = place;
    while beg > 0 && text.byte_at(beg - 1) != LINE_END {
        beg -= 1;
    }
    beg
}

// Where a line begins, counted from 0: sought from the text's begin on. Past the last line, where the last one does.
pub(crate) fn begin_of_line(text: &mut CountingReader<'_>, number: u64) -> u64
    ensures value { result
        ≡ beg_of (bytes_shown text.old.text) (min number (ends_in (bytes_shown text.old.text))) }
    ensures within { result ≤ length (shown_of text.old.text) }
    ensures text { text.new.text ≡ text.old.text }
    ensures reads { text.new.reads ≡ counted (text.old.reads + beg_of (bytes_shown text.old.text) number) }
{
    // A count is in range.
    let _reads = text.count();
    let len = text.shown_len();
    text.go_to(0);
    let mut beg = 0;
    for _line in 0..number {
        let end = read_row(text, beg, 0).end;
        if end >= len {
            return beg;
        }
        beg = end + 1;
    }
    beg
}

// Draws so many rows, the first of the line that begins here.
fn draw_rows(
    rows: &mut Vec<DrawnRow>,
    text: &mut CountingReader<'_>,
    from: u64,
    width: usize,
    count: usize,
)
    requires narrow { width ≤ MAX_WIDTH }
    requires some { 0 < count }
    requires room { count ≤ vec_capacity rows.old }
    requires in_text { from ≤ length (shown_of text.old.text) }
    ensures rows { (j : ℕ) → from ≡ beg_of (bytes_shown text.old.text) j
        → rows.new.items ≡ rows_from (bytes_shown text.old.text) width j count }
    ensures len { length rows.new.items ≡ count }
    ensures capacity { vec_capacity rows.new ≡ vec_capacity rows.old }
    ensures text { text.new.text ≡ text.old.text }
    ensures reads { text.new.reads ≡ counted (text.old.reads
        + (min (suc (last_row rows.new.items).end) (length (shown_of text.old.text)) - from)) }
{
    // A count is in range.
    let _reads = text.count();
    let len = text.shown_len();
    text.go_to(from);
    let mut beg = from;
    rows.clear();
    while rows.len() < count {
        let row = read_row(text, beg, width);
        beg = row.end.saturating_add(1).min(len);
        rows.push_reserved(row);
    }
}

// Draws so many rows of a text from the line of an anchor on. It tells whether they are full.
pub(crate) fn draw(
    rows: &mut Vec<DrawnRow>,
    text: &mut CountingReader<'_>,
    anchor: Anchor,
    width: usize,
    count: usize,
) -> bool
    requires narrow { width ≤ MAX_WIDTH }
    requires some { 0 < count }
    requires few { count ≤ MAX_ROWS }
    requires room { MAX_ROWS ≤ vec_capacity rows.old }
    ensures rows { IsAnchor text.old.text.operations anchor
        → rows.new.items ≡ rows_in text.old.text anchor width count }
    ensures len { length rows.new.items ≡ count }
    ensures wide { All (λ r. length r.cells ≡ width) rows.new.items }
    ensures capacity { vec_capacity rows.new ≡ vec_capacity rows.old }
    ensures full { result ≡ nat_lt (last_row rows.new.items).end (length (shown_of text.old.text)) }
    ensures reads { IsAnchor text.old.text.operations anchor → text.new.reads ≡ counted (text.old.reads
        + reads_of (length (shown_of text.old.text)) (place_in text.old.text anchor) rows.new.items) }
{
    let place = text.place_of(anchor);
    let beg = line_begin(text, place);
    draw_rows(rows, text, beg, width, count);
    let last = &rows[count - 1];
    last.end < text.shown_len()
}
