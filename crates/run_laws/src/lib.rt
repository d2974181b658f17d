//! Laws of whole scripts, over the definitions; and of the call that runs them over a folder.
#![tactic(auto)]

mod folder;

ghost use Rattle.run_laws.specs.Laws.{EachTraceIsReached, TheSameFrontsAreAnswered, TheSameIsAnswered};
ghost use Rattle.run_laws.specs.Laws.{TheSameViewsAreAnswered, WithoutFilesAllIsAnswered};

pub use folder::run_over_a_folder;
use machine_laws::{
    any_files_will_do, lemma_front_lines_determine_the_fronts,
    lemma_the_same_fronts_print_the_same, lemma_the_same_operations_print_the_same,
    lemma_the_same_texts_show_the_same_screen, lemma_what_a_run_reaches_is_sound,
    lemma_what_is_reached_is_numbered,
};

/// A law: after any lines of a script stands a state that a run can come to. So what is said of those is said
/// of whole scripts.
pub fn lemma_each_trace_is_reached()
    ensures { EachTraceIsReached }
{}

/// A law: wherever in a run, or in two runs, two sites have taken in the same operations of a text, their answers
/// to `text`, `runs`, `where`, `names` and `past` are the same, byte for byte, unless memory is refused.
pub fn the_same_operations_are_answered_the_same()
    ensures { TheSameIsAnswered }
{
    lemma_each_trace_is_reached();
    lemma_what_a_run_reaches_is_sound();
    lemma_the_same_operations_print_the_same();
}

/// A law: wherever in a run, or in two runs, two sites answer `front` of a text by the same lines of fronts, however many
/// operations wait, their answers to `text`, `runs`, `where`, `names` and `past` are the same, byte for byte, if no identity is used
/// twice, unless memory is refused. The numbers of the sites are below 2^16, as they are in every run.
pub fn the_same_fronts_are_answered_the_same()
    ensures { TheSameFrontsAreAnswered }
{
    lemma_each_trace_is_reached();
    lemma_what_a_run_reaches_is_sound();
    lemma_what_is_reached_is_numbered();
    lemma_front_lines_determine_the_fronts();
    lemma_the_same_fronts_print_the_same();
}

/// A law: wherever in a run, or in two runs, two sites have taken in the same operations of each text, and their screens
/// are the same in tracks, windows, caret, selection and the number of the next viewer, their answers to `views`, `marks`
/// and `show` are the same, byte for byte, unless memory is refused.
pub fn the_same_texts_answer_the_same_views()
    ensures { TheSameViewsAreAnswered }
{
    lemma_each_trace_is_reached();
    lemma_what_a_run_reaches_is_sound();
    lemma_the_same_texts_show_the_same_screen();
}

/// A law: over a shelf that doesn't report its files, as the folder's, lines that ask for none are answered as over one that reports
/// them. So what they print hangs on the script alone, and on memory.
pub fn without_files_all_is_answered()
    ensures { WithoutFilesAllIsAnswered }
{
    any_files_will_do();
}
