//! What replicas show that took in what counts.

ghost use Rattle.std.specs.Prelude.{◌≡◌, List};
ghost use Rattle.operations.specs.Operation.{Operation};
ghost use Rattle.tree_order.specs.Laws.{AreSameSet};
ghost use Rattle.tree_order.specs.Shown.{IsShown};
ghost use Rattle.texts.specs.Draining.{AllStay};
ghost use Rattle.texts.specs.Laws.{AreTextsAlike};
ghost use Rattle.texts.specs.Text.{IsText};
ghost use Rattle.texts.specs.TextState.{TextState, shown_of};
ghost use Rattle.convergence.specs.HandedIn.{AccountsFor};
ghost use Rattle.note_laws.specs.Note.{Note, Entries, Saying};
ghost use Rattle.note_laws.specs.Chains.{operations};
ghost use Rattle.note_laws.specs.Admission.{IsAdmission};
ghost use Rattle.note_laws.specs.Laws.{AddsNoLesser, AreSameEntries, AreToldApart, IsBaseIdentified};
ghost use Rattle.note_convergence.specs.Replicas.{HasOnlyGained, TookWhatCounts};

use convergence::handed_in::lemma_what_is_kept_is_closed;
use note_laws::admissions::{
    lemma_what_counts_is_good, more_entries_take_nothing_away, the_entries_determine_the_admission,
};
use set_laws::closures::closure_is_the_greatest_good_part;
use texts::laws::{
    grown_texts_keep_the_order, lemma_a_text_shows_the_definition,
    lemma_the_operations_determine_the_text,
};
use tree_order::laws::lemma_only_the_set_counts;

/// A law: two who have the same entries show the same text, the same characters with the same looks at each position;
/// in whatever order the entries came, and in whatever order what counts was taken in.
pub fn lemma_the_same_entries_show_the_same()
    ensures { (note : Note) (entries others : Entries) (t u : TextState) → IsBaseIdentified note
        → AreToldApart entries → AreSameEntries entries others → t.text ≡ u.text → TookWhatCounts note entries t
        → TookWhatCounts note others u → AreTextsAlike t u }
{
    the_entries_determine_the_admission();
    lemma_the_operations_determine_the_text();
}

/// A law: what such a text shows is what the definition gives of what is admitted.
pub fn lemma_what_counts_is_shown()
    ensures { (note : Note) (entries : Entries) (t : TextState) (admitted : List Saying) → IsBaseIdentified note
        → AreToldApart entries → TookWhatCounts note entries t → IsAdmission note entries t.text admitted
        → IsShown (operations admitted) (shown_of t) }
{
    the_entries_determine_the_admission();
    lemma_a_text_shows_the_definition();
    lemma_only_the_set_counts();
}

/// A law: with more entries, of which none has a lesser rank or hash, such a text only grows: it keeps its operations,
/// and its characters keep their order.
pub fn lemma_more_entries_only_add()
    ensures { (note : Note) (entries more : Entries) (t u : TextState) → IsBaseIdentified note → AreToldApart more
        → AddsNoLesser entries more → t.text ≡ u.text → TookWhatCounts note entries t → TookWhatCounts note more u
        → HasOnlyGained t u }
{
    more_entries_take_nothing_away();
    grown_texts_keep_the_order();
}

/// A law: a text to which just what is admitted was handed in, in whatever order and however often, took that in,
/// where all that waits waits for a cause.
pub fn what_counts_is_taken_in()
    ensures { (note : Note) (entries : Entries) (t : TextState) (admitted : List Saying) (handed : List Operation)
        → IsText t → IsAdmission note entries t.text admitted → AreSameSet handed (operations admitted)
        → AccountsFor t handed → AllStay t → TookWhatCounts note entries t }
{
    lemma_what_counts_is_good();
    lemma_what_is_kept_is_closed();
    closure_is_the_greatest_good_part();
}
