ghost use Rattle.std.specs.Prelude.{◌≡◌};
ghost use Rattle.text_frames.specs.declared.TheConstants.{MAX_ROWS};

/// A law: the most rows of a frame, by their number.
pub fn the_limits()
    ensures highest { MAX_ROWS ≡ 99 }
{}
