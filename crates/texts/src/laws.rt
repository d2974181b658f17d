//! Laws of what replicas show, over what contracts see of them.

ghost use Rattle.std.specs.Prelude.{◌≡◌, [], ◌∷◌, ◌++◌};
ghost use Rattle.operations.specs.Operation.{Operation};
ghost use Rattle.tree_order.specs.Good.{Good};
ghost use Rattle.set_laws.specs.Sets.{AreIdentified};
ghost use Rattle.texts.specs.Changes.{ReplacementsLead};
ghost use Rattle.texts.specs.Laws.{ShowsTheDefinition, OperationsDetermineTheText, FrontsDetermineTheText};
ghost use Rattle.texts.specs.Laws.{ADeleteKeepsItsStretch, ChangesLead, EditsByNamesArePlain, GrownTextsKeepTheOrder};
ghost use Rattle.texts.specs.Laws.{HasOneTextWith};
ghost use Rattle.texts.specs.Laws.{MergesShowTheUnion, OwnEditsArePlain, ThePastIsTheTextOfThen};
ghost use Rattle.texts.specs.Text.{IsText};
ghost use Rattle.texts.specs.TextState.{TextState};

/// A law: what a text shows is what the definition gives from the operations that it took in.
pub fn lemma_a_text_shows_the_definition()
    ensures { ShowsTheDefinition }
{}

/// A law: two texts that have taken in the same operations, in whatever order, are alike.
pub fn lemma_the_operations_determine_the_text()
    ensures { OperationsDetermineTheText }
{}

/// A law: the characters of a text keep their order in every text that has taken in more, hidden ones too.
pub fn grown_texts_keep_the_order()
    ensures { GrownTextsKeepTheOrder }
{}

/// A law: changes that a text hands out lead, one after the other, from what was shown when they were last asked
/// for to what is shown now.
pub fn changes_lead()
    ensures { ChangesLead }
{}

/// A law: a replacement leads from all that has the length that it takes out to all that has the length that it puts in.
pub fn replacements_lead()
    ensures { ReplacementsLead }
{}

/// A law: two texts of equal fronts are alike, if no identity is used twice.
pub fn lemma_the_fronts_determine_the_text()
    ensures { FrontsDetermineTheText }
{}

/// A law: the set of the names shown from beg to end names this stretch and no others; an own Delete of it keeps
/// the stretch.
pub fn a_delete_keeps_its_stretch()
    ensures { ADeleteKeepsItsStretch }
{}

/// A law: own edits are plain edits, however many of their operations stand.
pub fn lemma_own_edits_are_plain()
    ensures { OwnEditsArePlain }
{}

/// A law: one operation more, of this text, of which the set with it is good, leaves one text and no other.
pub fn there_is_one_text_with_it()
    ensures { (t : TextState) (op : Operation) → IsText t → Good (t.operations ++ op ∷ [])
        → AreIdentified (t.operations ++ op ∷ []) → op.text ≡ t.text → HasOneTextWith t op }
{}

/// A law: a merge leaves the operations of both texts, and shows what the definition gives from these.
pub fn lemma_merges_show_the_union()
    ensures { MergesShowTheUnion }
{}

/// A law: the past of a text up to fronts is alike with the text that stood there. A front past what is held means
/// what is held.
pub fn lemma_the_past_is_the_text_of_then()
    ensures { ThePastIsTheTextOfThen }
{}

/// A law: an edit by names hides or shows those that it names, leaves all others as they were, and keeps what the site deleted
/// last.
pub fn edits_by_names_are_plain()
    ensures { EditsByNamesArePlain }
{}
