ghost use Rattle.packed.specs.Told.{OwnOperationsTell};
ghost use Rattle.packed.specs.Laws.{AddsAtTheEnd, NextIsDetermined, BeginningsAreHistories, NoneArePackedAlike};

/// A law: what is expected of a site is told by its own operations, wherever the others' stand among them. A proof gets it
/// by calling this, at no cost.
pub fn lemma_own_operations_tell()
    ensures { OwnOperationsTell }
{}

/// A law: packed lists of operations only grow at their end, and lists and their packed bytes are one to one. A proof gets it
/// by calling this, at no cost.
pub fn lemma_one_packing()
    ensures grows { AddsAtTheEnd }
    ensures next { NextIsDetermined }
    ensures beginnings { BeginningsAreHistories }
    ensures one { NoneArePackedAlike }
{}
