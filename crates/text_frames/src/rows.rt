ghost use Rattle.std.specs.Prelude.{◌≡◌, ◌+◌, ◌-◌, ◌^◌, ◌<◌, ◌≤◌, ◌∷◌, [], ◌++◌, length, take};
ghost use Rattle.line_drawing.specs.Rows.{blanks, sign_of};
ghost use Rattle.text_frames.specs.Reading.{after_line, counted, line_before, row_before};
ghost use Rattle.char_files.specs.Chars.{char_bytes};

use crate::reading::CountingReader;
use arrayvec::ArrayVec;
use line_drawing::sign;
use std::marker::Model;
use viewers::MAX_WIDTH;

// A row as it was drawn: the positions between which its line stands, and its cells.
#[derive(Drop)]
pub(crate) struct DrawnRow {
    pub(crate) beg: u64,
    pub(crate) end: u64,
    pub(crate) cells: ArrayVec<u8, MAX_WIDTH>,
}

impl Model for DrawnRow {
    ghost use Rattle.line_drawing.specs.Rows.{Row};

    ghost Value = { Row };

    ghost view = { λ r. record { beg = r.beg; end = r.end; cells = r.cells.items } };
}

// Draws one byte more, unless the row is full.
fn put_sign(cells: &mut ArrayVec<u8, MAX_WIDTH>, width: usize, byte: u8)
    requires wide { width ≤ MAX_WIDTH }
    requires within { length cells.old.items ≤ width }
    ensures { cells.new.items ≡ take width (cells.old.items ++ sign_of byte ∷ []) }
{
    if cells.len() < width {
        cells.push(sign(byte));
    }
}

// Fills a row with blanks up to its width.
fn fill(cells: &mut ArrayVec<u8, MAX_WIDTH>, width: usize)
    requires wide { width ≤ MAX_WIDTH }
    requires within { length cells.old.items ≤ width }
    ensures { cells.new.items ≡ cells.old.items ++ blanks (width - length cells.old.items) }
{
    while cells.len() < width {
        cells.push(b' ');
    }
}

// Reads a line from its begin on, with its end, and draws it. Where nothing is left the row is blank.
pub(crate) fn read_row(text: &mut CountingReader<'_>, beg: u64, width: usize) -> DrawnRow
    requires wide { width ≤ MAX_WIDTH }
    requires in_text { beg + length text.old.left < 2 ^ 64 }
    ensures row { result ≡ row_before width beg (char_bytes text.old.left) }
    ensures rest { text.new.left ≡ after_line (line_before (char_bytes text.old.left)) text.old.left }
    ensures text { text.new.text ≡ text.old.text }
    ensures reads { text.new.reads ≡ counted (text.old.reads + (length text.old.left - length text.new.left)) }
{
    // A count is in range.
    let _reads = text.count();
    let mut cells = ArrayVec::new();
    let mut end = beg;
    while let Some(byte) = text.next_byte() {
        put_sign(&mut cells, width, byte);
        end += 1;
    }
    fill(&mut cells, width);
    DrawnRow { beg, end, cells }
}
