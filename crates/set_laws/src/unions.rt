ghost use Rattle.std.specs.Prelude.{◌↔◌, List, [], ◌∷◌, ◌++◌};
ghost use Rattle.char_files.specs.CharName.{CharName};
ghost use Rattle.operations.specs.Operation.{Operation};
ghost use Rattle.tree_order.specs.Good.{Good};
ghost use Rattle.tree_order.specs.Laws.{AreSameSet};
ghost use Rattle.tree_order.specs.Tree.{IsChar};
ghost use Rattle.set_laws.specs.Fronts.{IsHere};
ghost use Rattle.set_laws.specs.Sets.{AreIdentified, UnionIsGood, UnionsAreSets, UnionsShowSets};
ghost use Rattle.set_laws.specs.Sets.{HasCausesBefore, HaveEqualFronts, KeepsCauses};

use tree_order::laws::lemma_only_the_set_counts;

/// A law: the union of two good sets is good, if no identity has two operations in it.
pub fn union_is_good()
    ensures { (a b : List Operation) → UnionIsGood a b }
{}

/// A law: union is commutative, associative and idempotent, for lists that are read as sets.
pub fn lemma_unions_are_sets()
    ensures { (a b c : List Operation) → UnionsAreSets a b c }
{}

/// A law: what a union says is as little changed by order, grouping and repeats.
pub fn unions_show_sets()
    ensures { (a b c : List Operation) → UnionsShowSets a b c }
{
    lemma_only_the_set_counts();
}

/// A law: good sets with equal fronts are equal, if no identity has two operations in both together.
pub fn equal_fronts_have_equal_sets()
    ensures { (a b : List Operation) → Good a → Good b → AreIdentified (a ++ b) → HaveEqualFronts a b
        → AreSameSet a b }
{}

/// A law: the names that are here, those whose offsets are below the length of their site's file, are the
/// characters of a good set.
pub fn names_here_are_the_characters()
    ensures { (ops : List Operation) (name : CharName) → Good ops → AreIdentified ops
        → IsHere ops name ↔ IsChar ops name }
{}

/// A law: in a list that keeps causes, each operation's causes stand before it.
pub fn causes_stand_before()
    ensures { (ops : List Operation) → KeepsCauses ops → AreIdentified ops → HasCausesBefore ops }
{}

/// A law: a list that keeps causes goes on so with each operation with which it is good.
pub fn lists_that_keep_causes_grow()
    ensures { (ops : List Operation) (op : Operation) → KeepsCauses ops → Good (ops ++ op ∷ [])
        → KeepsCauses (ops ++ op ∷ []) }
{}
