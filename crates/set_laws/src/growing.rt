ghost use Rattle.std.specs.Prelude.{List};
ghost use Rattle.operations.specs.Operation.{Operation};
ghost use Rattle.tree_order.specs.Good.{Good};
ghost use Rattle.set_laws.specs.Sets.{AreIdentified, IsPartOf};
ghost use Rattle.set_laws.specs.Verdict.{ready, IsNew};
ghost use Rattle.set_laws.specs.Growing.{GrowsByVerdict, RefusalsLast};

/// A law: a good set with one operation more is good exactly where that is ready; one that is refused never
/// makes a good set, whatever else is added; and one that waits has a cause that is missing.
pub fn good_sets_grow_by_verdict()
    ensures { (ops : List Operation) (op : Operation) → Good ops → AreIdentified ops → IsNew ops op
        → GrowsByVerdict ops op }
{}

/// A law: a refusal lasts. A greater good set refuses the operation for the same, so nothing is lost when it
/// is thrown away.
pub fn refusals_last()
    ensures { (ops more : List Operation) (op : Operation) → Good ops → Good more → AreIdentified more
        → IsPartOf ops more → IsNew more op → RefusalsLast ops op more }
{}
