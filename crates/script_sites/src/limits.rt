ghost use Rattle.std.specs.Prelude.{◌≡◌};
ghost use Rattle.script_sites.specs.declared.settings.TheConstants.{MAX_SITES, MAX_FIRST, MIN_WIDTH, MAX_WIDTH, MIN_HEIGHT, MAX_HEIGHT};

/// A law: the limits of a run's sites and screens, by their numbers.
pub fn the_limits()
    ensures sites { MAX_SITES ≡ 8 }
    ensures first { MAX_FIRST ≡ 65528 }
    ensures min_width { MIN_WIDTH ≡ 20 }
    ensures max_width { MAX_WIDTH ≡ 200 }
    ensures min_height { MIN_HEIGHT ≡ 8 }
    ensures max_height { MAX_HEIGHT ≡ 100 }
{}
