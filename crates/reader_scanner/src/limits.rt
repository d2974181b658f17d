ghost use Rattle.std.specs.Prelude.{◌≡◌, ◌-◌, ◌^◌};
ghost use Rattle.reader_scanner.specs.declared.token.TheConstants.{MAX_TOKEN, MAX_INT};

/// A law: the limits of tokens, by their numbers.
pub fn the_limits()
    ensures token { MAX_TOKEN ≡ 31 }
    ensures int { MAX_INT ≡ 2 ^ 31 - 1 }
{}
