ghost use Rattle.std.specs.Prelude.{◌≡◌};
ghost use Rattle.viewers.specs.declared.seats.TheConstants.{MIN_WIDTH, MAX_WIDTH, MIN_HEIGHT, MAX_HEIGHT, MAX_SEATS, MAX_VIEWERS};

/// A law: the limits of a screen, by their numbers.
pub fn the_limits()
    ensures narrowest { MIN_WIDTH ≡ 20 }
    ensures widest { MAX_WIDTH ≡ 200 }
    ensures lowest { MIN_HEIGHT ≡ 8 }
    ensures highest { MAX_HEIGHT ≡ 100 }
    ensures seats { MAX_SEATS ≡ 50 }
    ensures viewers { MAX_VIEWERS ≡ 100 }
{}
