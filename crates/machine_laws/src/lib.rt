//! Laws of the machine of events: what runs can come to, that an event has one reply, and that no task lacks one. They are
//! over the definitions alone.
#![tactic(auto)]

ghost use Rattle.machine_laws.specs.Laws.{OperationsDetermineWhatIsPrinted, WhatIsReachedIsNumbered};
ghost use Rattle.machine_laws.specs.Laws.{EachEventHasOneReply, FrontLinesDetermineFronts};
ghost use Rattle.machine_laws.specs.Laws.{EachTaskIsAnswered, FrontsDetermineWhatIsPrinted, TextsDetermineTheScreen};
ghost use Rattle.machine_laws.specs.Laws.{TheCaretStandsAfterTheLast, TheSameOverAnyFiles, WhatARunReachesIsSound};

use char_files::lemma_runs_are_maximal;
use chunks::lemma_one_chunk;
use convergence::outcomes::{
    lemma_drainings_end_one_way, lemma_edits_end_one_way, lemma_merges_end_one_way,
    lemma_takings_end_one_way,
};
use kept_file::lemma_one_kept;
use set_laws::closures::lemma_nothing_is_good;
use text_file::lemma_one_text;
use texts::laws::{
    lemma_own_edits_are_plain, lemma_the_fronts_determine_the_text,
    lemma_the_operations_determine_the_text,
};
use tree_order::laws::sequential::lemma_one_writer_goes_after_causes;

/// A law: two texts, of one run or of two, that have taken in the same operations answer the same of what they show, be
/// it lines or a refusal.
pub fn lemma_the_same_operations_print_the_same()
    ensures { OperationsDetermineWhatIsPrinted }
{
    lemma_the_operations_determine_the_text();
    lemma_runs_are_maximal();
}

/// A law: two texts, of one run or of two, that have equal fronts answer the same of what they show, be it lines or a
/// refusal, if no identity is used twice.
pub fn lemma_the_same_fronts_print_the_same()
    ensures { FrontsDetermineWhatIsPrinted }
{
    lemma_the_fronts_determine_the_text();
    lemma_runs_are_maximal();
}

/// A law: in a run of sites below 2^16, each operation that a text has taken in has a site and a seq that a message has
/// places for, whatever else the run does to screens and files.
pub fn lemma_what_is_reached_is_numbered()
    ensures { WhatIsReachedIsNumbered }
{}

/// A law: texts of which `front` prints the same lines of fronts, however many operations wait, have equal fronts, if
/// their sites and seqs are numbers that a message has places for.
pub fn lemma_front_lines_determine_the_fronts()
    ensures { FrontLinesDetermineFronts }
{}

/// A law: an event has one reply and one next state for each part that the files have in it, where memory is there; where it
/// was refused, one of each shape and its counts. Of an event that may load a file the latter holds where each text had told its
/// changes, which is so in each state that a run can come to.
pub fn each_event_has_one_reply()
    ensures { EachEventHasOneReply }
{
    lemma_edits_end_one_way();
    lemma_takings_end_one_way();
    lemma_drainings_end_one_way();
    lemma_merges_end_one_way();
    lemma_runs_are_maximal();
    lemma_one_text();
    lemma_one_kept();
    lemma_one_chunk();
}

/// A law: an event that asks for no file is answered the same over any files, and leaves them as they are.
pub fn any_files_will_do()
    ensures { TheSameOverAnyFiles }
{}

/// A law: after what is put in at the caret it stands after the last character that came in, or where it stood if none did.
pub fn lemma_the_caret_stands_after_the_last()
    ensures { TheCaretStandsAfterTheLast }
{}

/// A law: no task and no click lacks a rule. Where the texts that it names are there, and the caret's viewer shows a
/// text, it is answered for each part that the files may have in it, and there is such a part.
pub fn each_task_is_answered()
    ensures { EachTaskIsAnswered }
{
    lemma_own_edits_are_plain();
}

/// A law: whatever a run of texts, screens, commands and files does, each desk has its sixteen texts, each of them is what its
/// operations define and has told its changes, and all that a screen points at, by its caret, its selection and its viewers'
/// first lines, are characters of the texts that it shows.
pub fn lemma_what_a_run_reaches_is_sound()
    ensures { WhatARunReachesIsSound }
{
    lemma_nothing_is_good();
    lemma_one_writer_goes_after_causes();
    lemma_own_edits_are_plain();
}

/// A law: what is printed of a screen follows from which operations each of its site's texts has taken in, in whatever
/// order, and from what the screen points at: two desks that hold the same print one screen alike.
pub fn lemma_the_same_texts_show_the_same_screen()
    ensures { TextsDetermineTheScreen }
{
    lemma_the_operations_determine_the_text();
}
