ghost use Rattle.std.specs.Prelude.{◌≡◌};
ghost use Rattle.shelf.specs.declared.names.TheConstants.{MAX_NAME_LEN};

/// A law: the limit of a file's name, by its number.
pub fn the_limits()
    ensures name { MAX_NAME_LEN ≡ 31 }
{}
