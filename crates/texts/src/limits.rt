ghost use Rattle.std.specs.Prelude.{◌≡◌, ◌-◌, ◌^◌};
ghost use Rattle.texts.specs.declared.TheConstants.{MAX_KEPT, MAX_SEQ};

/// A law: the limits of a site's operations, and of those that its file tells, by their numbers.
pub fn the_limits()
    ensures seq { MAX_SEQ ≡ 2 ^ 32 - 1 }
    ensures kept { MAX_KEPT ≡ 2 ^ 32 - 1 }
{}
