//! A law of runs, over the definitions alone.

ghost use Rattle.char_files.specs.Runs.{NoOtherRuns, RunsAreMaximal};

/// A law: the maximal runs of some characters can't be joined and have these characters, and there are no others
/// that do. A proof gets it by calling this, at no cost.
pub fn lemma_runs_are_maximal()
    ensures runs { RunsAreMaximal }
    ensures only { NoOtherRuns }
{}
