ghost use Rattle.std.specs.Prelude.{◌≡◌};
ghost use Rattle.looks.specs.declared.colour.TheConstants.{MAX_COLOUR};
ghost use Rattle.looks.specs.declared.font_name.TheConstants.{MAX_FONT_NAME};

/// A law: the limits of looks, by their numbers.
pub fn the_limits()
    ensures colour { MAX_COLOUR ≡ 15 }
    ensures font_name { MAX_FONT_NAME ≡ 31 }
{}
