//! What becomes of all that was handed in to a replica.

ghost use Rattle.convergence.specs.HandedIn.{KeptByDraining, KeptByEdits, KeptByForgetting, KeptByMerging, KeptByNames};
ghost use Rattle.convergence.specs.HandedIn.{KeptByReopening, KeptByTaking, KeptByTakingOps, KeptByUnpacking};
ghost use Rattle.convergence.specs.HandedIn.{NothingIsKept, StayWaiting, WhatIsKeptIsClosed};

use set_laws::closures::lemma_kept_and_waiting_is_closed;

/// A law: a new text keeps nothing.
pub fn lemma_nothing_is_kept()
    ensures { NothingIsKept }
{}

/// A law: a text that began as its site's file tells keeps what that told, and nothing else.
pub fn reopening_keeps()
    ensures { KeptByReopening }
{}

/// A law: draining the room leaves all kept that was handed in.
pub fn lemma_draining_keeps()
    ensures { KeptByDraining }
{}

/// A law: an operation is kept with all that was handed in before it; one of another text, in conflict, or refused for
/// want of a place or of memory, leaves that as it was.
pub fn lemma_taking_operations_keeps()
    ensures { KeptByTakingOps }
{
    lemma_draining_keeps();
}

/// A law: a message is kept with all that was handed in before it; one that is malformed, of another text, in
/// conflict, or refused for want of a place or of memory, leaves that as it was.
pub fn lemma_taking_keeps()
    ensures { KeptByTaking }
{
    lemma_taking_operations_keeps();
}

/// A law: the operations of a chunk are kept with all that was handed in before them, up to the one that is refused.
pub fn unpacking_keeps()
    ensures { KeptByUnpacking }
{
    lemma_taking_operations_keeps();
}

/// A law: the operations of an own edit that stand are kept with all that was handed in before them.
pub fn own_edits_keep()
    ensures { KeptByEdits }
{}

/// A law: the operation of an edit by names is kept with all that was handed in before it.
pub fn edits_by_names_keep()
    ensures { KeptByNames }
{}

/// A law: what a merge took in is kept with all that was handed in before it.
pub fn merging_keeps()
    ensures { KeptByMerging }
{}

/// A law: where the room is emptied, all else that was handed in is kept.
pub fn forgetting_keeps()
    ensures { KeptByForgetting }
{}

/// A law: where all that waits waits for a cause, what is taken in is the closure of all that was handed in.
pub fn lemma_what_is_kept_is_closed()
    ensures { WhatIsKeptIsClosed }
{
    lemma_kept_and_waiting_is_closed();
}

/// A law: all that waits waits for a cause, after every call but a merge and a draining that was stopped.
pub fn lemma_what_waits_stays_waiting()
    ensures { StayWaiting }
{}
