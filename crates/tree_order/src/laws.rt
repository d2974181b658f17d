ghost use Rattle.std.specs.Prelude.{List};
ghost use Rattle.char_files.specs.CharName.{CharName};
ghost use Rattle.operations.specs.Operation.{Operation};
ghost use Rattle.tree_order.specs.Good.{Good};
ghost use Rattle.tree_order.specs.Laws.{KeysDiffer, IsStrictTotalOrder, HasOneOrder, RunsStayTogether};
ghost use Rattle.tree_order.specs.Laws.{TheLastSwitchDecides, ShowsOneText, AreSameSet, SaysTheSame};

pub mod insertion;
pub mod registers;
pub mod sequential;

/// A law: in a good set two operations have different keys.
pub fn keys_differ()
    ensures { (ops : List Operation) → Good ops → KeysDiffer ops }
{}

/// A law: in a good set, to stand before is a strict total order on the characters.
pub fn before_is_a_strict_total_order()
    ensures { (ops : List Operation) → Good ops → IsStrictTotalOrder ops }
{}

/// A law: a good set has an order, and only one.
pub fn there_is_one_order()
    ensures { (ops : List Operation) → Good ops → HasOneOrder ops }
{}

/// A law: between two neighbouring bytes of one Insert stand descendants of the former alone, so that no text
/// splits a run but what hangs on a byte of the run's own.
pub fn runs_stay_together()
    ensures { (ops : List Operation) → Good ops → RunsStayTogether ops }
{}

/// A law: in a good set a character is visible when no Delete or Restore names it, or when the one of the
/// greatest key among these is a Restore.
pub fn the_last_switch_decides()
    ensures { (ops : List Operation) → Good ops → (c : CharName) → TheLastSwitchDecides ops c }
{}

/// A law: a good set shows a text, and only one, in which each anchor has a place, and only one.
pub fn there_is_one_text()
    ensures { (ops : List Operation) → Good ops → ShowsOneText ops }
{}

/// A law: of a list of operations only the set counts, not their order, nor how often one stands in it.
pub fn lemma_only_the_set_counts()
    ensures { (a b : List Operation) → AreSameSet a b → Good a → SaysTheSame a b }
{}
