ghost use Rattle.std.specs.Prelude.{◌≡◌};
ghost use Rattle.piece_list.specs.declared.piece.TheConstants.{MAX_PIECE};

/// A law: the limit of pieces, by its number.
pub fn the_limits()
    ensures piece { MAX_PIECE ≡ 4096 }
{}
