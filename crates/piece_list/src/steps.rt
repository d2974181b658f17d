ghost use Rattle.std.specs.Prelude.{◌≡◌, ◌↔◌, IsTrue};
ghost use Rattle.looks.specs.Key.{is_below};
ghost use Rattle.operations.specs.NameSet.{IsIn};
ghost use Rattle.piece_list.specs.Pieces.{range_of};
ghost use Rattle.piece_list.specs.Placing.{IsCounted};

use crate::piece::PieceRef;
use char_files::Name;
use looks::Key;
use std::marker::Model;

/// How often a name was compared with a piece, or a piece's key was looked at. Finding and placing do both here, and
/// each adds one, up to the greatest `u64`.
#[derive(Drop)]
pub(crate) struct Steps {
    count: u64,
}

impl Model for Steps {
    ghost use Rattle.std.specs.Prelude.{ℕ};

    ghost Value = { ℕ };

    ghost view = { λ s. s.count };
}

impl Steps {
    // None were made.
    pub(crate) fn none() -> Steps
        ensures { result ≡ 0 }
    {
        Steps { count: 0 }
    }

    // How many were made.
    pub(crate) fn count(&self) -> u64
        ensures { result ≡ self.now }
    {
        self.count
    }

    // Whether the name is that of one of the piece's characters.
    pub(crate) fn compare(&mut self, piece: &PieceRef<'_>, name: Name) -> bool
        ensures value { IsTrue result ↔ IsIn (range_of piece.now) name }
        ensures counted { IsCounted self.old 1 self.new }
    {
        self.count = self.count.saturating_add(1);
        let off = name.off();
        piece.site().get() == name.site().get()
            && piece.off() <= off
            && off - piece.off() < piece.len()
    }

    // Whether the piece's key is greater than this one.
    pub(crate) fn is_above(&mut self, piece: &PieceRef<'_>, key: Key) -> bool
        ensures value { result ≡ is_below key piece.now.key }
        ensures counted { IsCounted self.old 1 self.new }
    {
        self.count = self.count.saturating_add(1);
        key < piece.key()
    }
}
