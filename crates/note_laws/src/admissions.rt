ghost use Rattle.std.specs.Prelude.{ℕ, List};
ghost use Rattle.note_laws.specs.Note.{Note, Entries, Saying};
ghost use Rattle.note_laws.specs.Chains.{ComesNext};
ghost use Rattle.note_laws.specs.Admission.{CountInTurn, IsAdmission, on_others, wrong};
ghost use Rattle.note_laws.specs.Laws.{AddsNoLesser, AreEqualAdmissions, AreAmong, AreSameEntries, AreToldApart};
ghost use Rattle.note_laws.specs.Laws.{CountAsGoodSet, EndsOrWaits, HasOneAdmission, HasOneFate, HasOneNext};
ghost use Rattle.note_laws.specs.Laws.{IsBaseIdentified, KeepTheirPlaces, KeepsItsFate};

use tree_order::laws::lemma_only_the_set_counts;

/// A law: the set of entries decides what is admitted, and so the text that is shown; in whatever order they came, and
/// however often.
pub fn the_entries_determine_the_admission()
    ensures { (note : Note) (entries others : Entries) (text : ℕ) (a b : List Saying) → IsBaseIdentified note
        → AreToldApart entries → AreSameEntries entries others → IsAdmission note entries text a
        → IsAdmission note others text b → AreEqualAdmissions a b }
{
    lemma_only_the_set_counts();
}

/// A law: there is an admission of each text, and any two are of the same messages and show the same.
pub fn lemma_there_is_one_admission()
    ensures { (note : Note) (entries : Entries) (text : ℕ) → IsBaseIdentified note → AreToldApart entries
        → HasOneAdmission note entries text }
{
    lemma_only_the_set_counts();
}

/// A law: messages that count in turn are a good set, and each comes after its causes.
pub fn lemma_what_counts_is_good()
    ensures { (note : Note) (entries : Entries) (text : ℕ) (admitted : List Saying)
        → CountInTurn note entries text admitted → CountAsGoodSet admitted }
{}

/// A law: what was admitted is admitted of other entries, too, in which each message of it keeps its place.
pub fn lemma_what_keeps_its_place_stays()
    ensures { (note : Note) (entries more : Entries) (text : ℕ) (a b : List Saying) → IsBaseIdentified note
        → AreToldApart more → CountInTurn note entries text a → KeepTheirPlaces note more a
        → IsAdmission note more text b → AreAmong a b }
{}

/// A law: more entries take nothing away where no lesser rank or hash comes.
pub fn more_entries_take_nothing_away()
    ensures { (note : Note) (entries more : Entries) (text : ℕ) (a b : List Saying) → IsBaseIdentified note
        → AreToldApart more → AddsNoLesser entries more → IsAdmission note entries text a
        → IsAdmission note more text b → AreAmong a b }
{}

/// A law: over messages that count in turn one message of each number comes next.
pub fn lemma_one_message_comes_next()
    ensures { (note : Note) (entries : Entries) (text : ℕ) (admitted : List Saying) → IsBaseIdentified note
        → AreToldApart entries → CountInTurn note entries text admitted → HasOneNext note entries text admitted }
{}

/// A law: over messages that count in turn the next message of a chain has one fate.
pub fn lemma_the_next_has_one_fate()
    ensures { (note : Note) (entries : Entries) (text : ℕ) (admitted : List Saying) (s : Saying)
        → CountInTurn note entries text admitted → ComesNext note entries text admitted s
        → HasOneFate note admitted s }
{}

/// A law: a chain that keeps its places is admitted, where what it builds on is, up to its first message that is wrong
/// or whose stamp is held back.
pub fn lemma_a_chain_ends_or_waits()
    ensures { (note : Note) (entries : Entries) (text : ℕ) (admitted : List Saying) (s : Saying)
        → IsAdmission note entries text admitted → ComesNext note entries text admitted s
        → EndsOrWaits note admitted s }
{}

/// A law: a message that is wrong where it comes next is so over each greater admission in which it keeps its place.
pub fn lemma_wrong_is_for_good()
    ensures { (note : Note) (entries more : Entries) (text : ℕ) (a b : List Saying) (s : Saying)
        → IsBaseIdentified note → AreToldApart more → CountInTurn note entries text a
        → CountInTurn note more text b → AreAmong a b → KeepsItsFate note entries more text a b s wrong }
{}

/// A law: so does one that builds on others.
pub fn lemma_building_on_others_lasts()
    ensures { (note : Note) (entries more : Entries) (text : ℕ) (a b : List Saying) (s : Saying)
        → IsBaseIdentified note → AreToldApart more → CountInTurn note entries text a
        → CountInTurn note more text b → AreAmong a b → KeepsItsFate note entries more text a b s on_others }
{}
