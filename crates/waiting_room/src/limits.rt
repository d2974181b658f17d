ghost use Rattle.std.specs.Prelude.{◌≡◌};
ghost use Rattle.waiting_room.specs.declared.room.TheConstants.{MAX_WAITING};

/// A law: the places of a room, by their number.
pub fn the_limits()
    ensures waiting { MAX_WAITING ≡ 64 }
{}
