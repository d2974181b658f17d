ghost use Rattle.std.specs.Prelude.{◌≡◌, ◌-◌, ◌^◌};
ghost use Rattle.operations.specs.declared.kind.TheConstants.{MAX_INSERT};
ghost use Rattle.operations.specs.declared.name_set.TheConstants.{MAX_RANGES};
ghost use Rattle.operations.specs.declared.op.TheConstants.{MAX_STAMP};

/// A law: the limits of operations, by their numbers.
pub fn the_limits()
    ensures insert { MAX_INSERT ≡ 4096 }
    ensures ranges { MAX_RANGES ≡ 1024 }
    ensures stamp { MAX_STAMP ≡ 2 ^ 48 - 1 }
{}
