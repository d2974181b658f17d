ghost use Rattle.std.specs.Prelude.{◌≡◌};
ghost use Rattle.script_io.specs.declared.lines.TheConstants.{MAX_LINE};

/// A law: the limit of a line, by its number.
pub fn the_limits()
    ensures line { MAX_LINE ≡ 32768 }
{}
