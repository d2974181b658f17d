ghost use Rattle.std.specs.Prelude.{◌≡◌, ◌^◌};
ghost use Rattle.char_files.specs.declared.TheConstants.{MAX_FILE};

/// A law: the limit of files, by its number.
pub fn the_limits()
    ensures file { MAX_FILE ≡ 2 ^ 24 }
{}
