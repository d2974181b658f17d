ghost use Rattle.std.specs.Prelude.{◌≡◌};
ghost use Rattle.chunks.specs.declared.TheConstants.{MAX_CHUNK};

/// A law: the limit of a chunk's bytes by its number.
pub fn the_limits()
    ensures { MAX_CHUNK ≡ 16000 }
{}
