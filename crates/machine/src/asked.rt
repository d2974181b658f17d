//! What is asked of a text or of a screen, as the machine has it.

ghost use Rattle.std.specs.Prelude.{◌≡◌};

use char_files::TextNo;
use operations::NameRange;
use std::marker::Model;
use texts::Front;
use viewers::Track;

/// The fronts that a query names.
#[derive(Debug, Drop)]
pub struct Fronts<'a> {
    listed: &'a [Front],
}

impl<'a> Model for Fronts<'a> {
    ghost use Rattle.std.specs.Prelude.{List};
    ghost use Rattle.texts.specs.declared.front.Front.{Front};

    ghost Value = { List Front };

    ghost view = { λ f. f.listed.now };
}

impl<'a> Fronts<'a> {
    /// These.
    pub fn new(listed: &'a [Front]) -> Fronts<'a>
        ensures { result ≡ listed.now }
    {
        Fronts { listed }
    }

    /// They, one after the other.
    pub fn list(&self) -> &'a [Front]
        ensures { result.now ≡ self.now }
    {
        self.listed
    }
}

/// What is to be printed of a text.
#[derive(Debug, Drop)]
pub enum Query<'a> {
    /// Its length and its characters.
    Text,
    /// The fronts of its sites, and how many operations wait.
    Front,
    /// Its runs of equal looks.
    Runs,
    /// Where the characters of these names are shown.
    WhereShown(NameRange),
    /// The names of what is shown from one position to another.
    Names { beg: u64, end: u64 },
    /// What was taken in beyond these fronts.
    Since(Fronts<'a>),
    /// Its length and its characters as they were, up to these fronts.
    Past(Fronts<'a>),
    /// Chunks of what was taken in beyond these fronts.
    Pack(Fronts<'a>),
}

/// What is to be printed of a screen.
#[derive(Clone, Copy, Debug, PartialEq, Eq)]
pub enum View {
    /// Its viewers.
    Views,
    /// Its caret and its selection.
    Marks,
    /// Its rows of cells.
    Show,
}

/// A cell of the whole screen, by its column and its row.
#[derive(Clone, Copy, Debug, PartialEq, Eq)]
pub struct Cell {
    pub col: usize,
    pub row: usize,
}

/// What is done with a screen alone.
#[derive(Clone, Copy, Debug, PartialEq, Eq)]
pub enum Arrangement {
    /// To open a viewer on a text in a track, perhaps at a row.
    Open {
        track: Track,
        text: TextNo,
        row: Option<usize>,
    },
    /// To close a viewer.
    Close {
        viewer: u32,
    },
    /// To move the top of a viewer to a row.
    Move {
        viewer: u32,
        row: usize,
    },
    /// To show a viewer's text from this line on, counted from 0; past the last one, from that.
    Scroll {
        viewer: u32,
        line: u64,
    },
    /// To set the caret into a cell.
    Point {
        cell: Cell,
    },
    /// To select what is shown from one cell to another.
    Select {
        beg: Cell,
        end: Cell,
    },
}
