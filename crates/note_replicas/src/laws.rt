//! What a note's admission has to do with a log that is taken in.

ghost use Rattle.std.specs.Prelude.{◌≡◌, ℕ, List};
ghost use Rattle.texts.specs.Text.{IsText};
ghost use Rattle.texts.specs.TextState.{TextState};
ghost use Rattle.note_laws.specs.Note.{Note, Entries, Saying};
ghost use Rattle.note_laws.specs.Chains.{operations};
ghost use Rattle.note_laws.specs.Admission.{CountInTurn, IsAdmission};
ghost use Rattle.note_laws.specs.Laws.{AreReadyInTurn};
ghost use Rattle.note_convergence.specs.Replicas.{TookWhatCounts};
ghost use Rattle.note_replicas.specs.Following.{HasTakenJust};

/// A law: the operations of messages that count in turn are ready in turn.
pub fn what_counts_in_turn_is_ready()
    ensures { (note : Note) (entries : Entries) (text : ℕ) (admitted : List Saying)
        → CountInTurn note entries text admitted → AreReadyInTurn text (operations admitted) }
{}

/// A law: a replica that took in just the operations of an admission of its text took what counts.
pub fn lemma_what_was_admitted_was_taken()
    ensures { (note : Note) (entries : Entries) (t : TextState) (admitted : List Saying) → IsText t
        → IsAdmission note entries t.text admitted → HasTakenJust t (operations admitted)
        → TookWhatCounts note entries t }
{}
