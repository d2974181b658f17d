ghost use Rattle.std.specs.Prelude.{◌↔◌, List, [], ◌∷◌, ◌++◌};
ghost use Rattle.operations.specs.Operation.{Operation};
ghost use Rattle.tree_order.specs.Good.{Good};
ghost use Rattle.set_laws.specs.Sets.{AreIdentified, IsPartOf};
ghost use Rattle.set_laws.specs.Verdict.{ready, HasVerdict, IsNew};
ghost use Rattle.set_laws.specs.Closure.{IsFreedBy, IsClosure, HasOneClosure, IsGreatestGoodPart};
ghost use Rattle.set_laws.specs.Closure.{GrowsByWhatIsFreed, NoneIsReady, IsKept, AllWait};

/// A law: no operations are a good set.
pub fn lemma_nothing_is_good()
    ensures good { Good [] }
    ensures identified { AreIdentified [] }
{}

/// A law: a set in which no identity has two operations has a closure, and only one.
pub fn lemma_there_is_one_closure()
    ensures { (all : List Operation) → AreIdentified all → HasOneClosure all }
{}

/// A law: the closure is good, lies in the set, and has each good part of it.
pub fn closure_is_the_greatest_good_part()
    ensures { (all set : List Operation) → AreIdentified all → IsClosure all set
        → IsGreatestGoodPart all set }
{}

/// A law: with one operation more in the set, the closure grows by that and what it then frees, or stays.
pub fn closure_grows_by_what_is_freed()
    ensures { (all set grown : List Operation) (op : Operation) → IsClosure all set
        → IsClosure (all ++ op ∷ []) grown → GrowsByWhatIsFreed all set op grown }
{}

/// A law: a good set frees a new operation where the verdict on it is that it is ready.
pub fn ready_is_freed()
    ensures { (set : List Operation) (op : Operation) → Good set → AreIdentified set → IsNew set op
        → HasVerdict set op ready ↔ IsFreedBy set op }
{}

/// A law: a good part is the closure where no other operation is ready.
pub fn closed_where_none_is_ready()
    ensures { (all set : List Operation) → AreIdentified all → IsPartOf set all → Good set
        → IsClosure all set ↔ NoneIsReady all set }
{}

/// A law: where all that isn't taken in waits or was refused, what is taken in is the closure of all.
pub fn lemma_kept_and_waiting_is_closed()
    ensures { (taken waiting all : List Operation) → AreIdentified all → Good taken → IsKept taken waiting all
        → AllWait taken waiting → IsClosure all taken }
{}
