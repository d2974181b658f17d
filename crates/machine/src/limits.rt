ghost use Rattle.std.specs.Prelude.{◌≡◌};
ghost use Rattle.machine.specs.declared.TheConstants.{MAX_TEXT};

/// A law: the limit of a desk's texts, by its number.
pub fn the_limits()
    ensures text { MAX_TEXT ≡ 16 }
{}
