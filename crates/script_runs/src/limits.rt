ghost use Rattle.std.specs.Prelude.{◌≡◌, ◌^◌};
ghost use Rattle.script_runs.specs.declared.running.TheConstants.{MAX_LINES};

/// A law: the most lines of a script, by their number.
pub fn the_limits()
    ensures lines { MAX_LINES ≡ 2 ^ 20 }
{}
