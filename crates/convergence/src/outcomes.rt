//! What calls do is one thing, memory aside.

ghost use Rattle.convergence.specs.Outcomes.{DrainsOneWay, EditsOneWay, MergesOneWay, TakesOneWay};

/// A law: a draining has one outcome; one that was stopped after so many operations leaves one text.
pub fn lemma_drainings_end_one_way()
    ensures { DrainsOneWay }
{}

/// A law: a message has one answer and leaves one text; where memory was refused, one text of its answer.
pub fn lemma_takings_end_one_way()
    ensures { TakesOneWay }
{}

/// A law: a merge has one answer and leaves one text; where memory was refused, one text of its answer.
pub fn lemma_merges_end_one_way()
    ensures { MergesOneWay }
{}

/// A law: an own edit's operations have one outcome.
pub fn lemma_edits_end_one_way()
    ensures { EditsOneWay }
{}
