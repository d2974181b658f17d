ghost use Rattle.std.specs.Prelude.{◌≡◌, length};
ghost use Rattle.line_drawing.specs.Rows.{sign_of, cells_of};

/// The byte that ends a line, 0DH. The last line of a text ends with the text. Project Oberon, chapter 5.
pub const LINE_END: u8 = 0x0D;

/// What a byte shows as in its cell: 20H to 7EH as themselves, a tab as one blank, every other byte as a
/// question mark.
pub fn sign(byte: u8) -> u8
    ensures { result ≡ sign_of byte }
{
    match byte {
        b'\t' => b' ',
        b' '..=b'~' => byte,
        _ => b'?',
    }
}

/// Draws a line, given without its end, into a row's cells: cut at their number, with blanks after it.
pub fn draw_line(cells: &mut [u8], line: &[u8])
    ensures { cells.new ≡ cells_of (length cells.old) line.now }
{
    for col in 0..cells.len() {
        cells[col] = if col < line.len() {
            sign(line[col])
        } else {
            b' '
        };
    }
}
