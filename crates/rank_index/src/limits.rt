ghost use Rattle.std.specs.Prelude.{◌≡◌};
ghost use Rattle.rank_index.specs.declared.chunk.TheConstants.{HALF, MOST};
ghost use Rattle.rank_index.specs.declared.groups.TheConstants.{GROUP};

/// A law: how many members a chunk has and how many chunks a group has, by their numbers.
pub fn the_limits()
    ensures most { MOST ≡ 128 }
    ensures half { HALF ≡ 64 }
    ensures group { GROUP ≡ 32 }
{}
