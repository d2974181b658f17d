ghost use Rattle.std.specs.Prelude.{ℕ, List};
ghost use Rattle.line_drawing.specs.Laws.{AreJoined, HasOneLineMore, BegsRise, IsOfItsOwnLine, IsSetCell};
ghost use Rattle.line_drawing.specs.Laws.{StandsBetween, LiesOnOneLine, IsLocated};

/// A law: where two lists stand on both sides of a line's end, the lines are those of both.
pub fn lines_are_joined()
    ensures { (a b : List ℕ) → AreJoined a b }
{}

/// A law: there is one line more than there are ends of lines.
pub fn one_line_more()
    ensures { (bytes : List ℕ) → HasOneLineMore bytes }
{}

/// A law: a row hangs on the bytes up to the end of its line alone.
pub fn a_row_is_of_its_own_line()
    ensures { (a b : List ℕ) (width k : ℕ) → IsOfItsOwnLine a b width k }
{}

/// A law: lines begin one after the other.
pub fn begins_rise()
    ensures { (bytes : List ℕ) (k : ℕ) → BegsRise bytes k }
{}

/// A law: one byte more at a line's end sets one cell, if the row is wide enough. So a row may be drawn byte
/// by byte.
pub fn a_byte_sets_a_cell()
    ensures { (width : ℕ) (line : List ℕ) (byte : ℕ) → IsSetCell width line byte }
{}

/// A law: each line stands between two ends of lines, or where the bytes begin or end, and has none itself.
pub fn lines_stand_between_ends()
    ensures { (bytes : List ℕ) (k : ℕ) → StandsBetween bytes k }
{}

/// A law: each position lies on one line, that of as many ends as stand before the position.
pub fn positions_lie_on_one_line()
    ensures { (bytes : List ℕ) (pos : ℕ) → LiesOnOneLine bytes pos }
{}

/// A law: the position of a cell is that of the byte that the cell shows, for each row and each column; of a
/// blank cell it is that of its line's end.
pub fn cells_are_located()
    ensures { (bytes : List ℕ) (width k col : ℕ) → IsLocated bytes width k col }
{}
