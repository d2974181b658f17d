ghost use Rattle.std.specs.Prelude.{◌≡◌, ◌^◌};
ghost use Rattle.op_log.specs.declared.TheConstants.{MAX_OPS};

/// A law: the limit of a log, by its number.
pub fn the_limits()
    ensures ops { MAX_OPS ≡ 2 ^ 32 }
{}
