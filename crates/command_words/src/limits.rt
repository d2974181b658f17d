ghost use Rattle.std.specs.Prelude.{◌≡◌};
ghost use Rattle.command_words.specs.declared.calls.TheConstants.{NEAR};
ghost use Rattle.command_words.specs.declared.menu.TheConstants.{MAX_MENU};

/// A law: the limits of words and menus, by their numbers.
pub fn the_limits()
    ensures near { NEAR ≡ 32 }
    ensures menu { MAX_MENU ≡ 64 }
{}
