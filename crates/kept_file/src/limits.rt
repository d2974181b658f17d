ghost use Rattle.std.specs.Prelude.{◌≡◌, ◌^◌};
ghost use Rattle.kept_file.specs.declared.TheConstants.{MAX_PACKED};

/// A law: the limit of a packed file's operations by its number.
pub fn the_limits()
    ensures { MAX_PACKED ≡ 2 ^ 22 }
{}
