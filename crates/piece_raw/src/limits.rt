ghost use Rattle.std.specs.Prelude.{◌≡◌, ◌^◌};
ghost use Rattle.piece_raw.specs.declared.TheConstants.{MAX_TAGS};

/// A law: the limit of a ring, by its number.
pub fn the_limits()
    ensures tags { MAX_TAGS ≡ 2 ^ 32 }
{}
