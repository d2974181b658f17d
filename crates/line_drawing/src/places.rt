ghost use Rattle.std.specs.Prelude.{◌≡◌};
ghost use Rattle.line_drawing.specs.Rows.{place_of};

/// The position of the cell in column `col`, counted from 0, of a row whose line begins and ends at these
/// positions: that of its character, or past the line's last one that of its end.
pub fn located(beg: u64, end: u64, col: u64) -> u64
    ensures { result ≡ place_of beg end col }
{
    beg.saturating_add(col).min(end)
}
