ghost use Rattle.std.specs.Prelude.{ℕ, Bool, List};
ghost use Rattle.list_changes.specs.declared.change.Change.{Change};
ghost use Rattle.list_changes.specs.Changes.{Makes};
ghost use Rattle.list_changes.specs.Laws.{AreComposed, HasBounds, KeepsUpTo, LeadBackByNone, passing};

/// A law: two lists of changes, one after the other, lead where the first leads and then the second.
pub fn changes_compose()
    ensures { (alike : ℕ → ℕ → Bool) (first then : List Change) (a b : List ℕ)
        → AreComposed (passing alike) first then a b }
{}

/// A law: a change that a list allows has its stretch within the list, and makes it longer or shorter by that
/// stretch, or leaves its length.
pub fn changes_are_within()
    ensures { (alike : ℕ → ℕ → Bool) (change : Change) (a b : List ℕ) → Makes (passing alike) change a b
        → HasBounds change a b }
{}

/// A law: quiet changes keep what stands up to a position of the list, as far as alike elements agree.
pub fn quiet_changes_keep()
    ensures { (alike : ℕ → ℕ → Bool) (tells : ℕ → ℕ) (changes : List Change) (last : ℕ) (a b : List ℕ)
        → KeepsUpTo (passing alike) tells changes last a b }
{}

/// A law: what only puts elements in, or only cuts them out, and leads back to the list that it began with is
/// nothing.
pub fn no_change_is_told_of_the_same()
    ensures { (alike : ℕ → ℕ → Bool) (changes : List Change) (a : List ℕ)
        → LeadBackByNone (passing alike) changes a }
{}
