ghost use Rattle.std.specs.Prelude.{◌≡◌, ◌^◌};
ghost use Rattle.text_file.specs.declared.TheConstants.{MAX_STORED};

/// A law: the limit of a file's text, by its number.
pub fn the_limits()
    ensures text { MAX_STORED ≡ 2 ^ 20 }
{}
