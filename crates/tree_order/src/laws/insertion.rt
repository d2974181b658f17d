//! Where the run of one Insert more goes, and what is shown then.

ghost use Rattle.tree_order.specs.Insertion.{RunGoesIntoGap, OrderGainsRun};
ghost use Rattle.tree_order.specs.AtomInsertion.{RunGoesAfterGreaterKeys};
ghost use Rattle.tree_order.specs.Sequential.{ShownGainsRun};

/// A law, for one Insert more: the order of the larger set is the order with the run put in, in one stretch,
/// directly after the longest stretch of characters of greater key that follows the cause. The root stands
/// before all.
pub fn the_order_gains_a_run()
    ensures { OrderGainsRun }
{}

/// The same law, for one who has found the gap in the list of names.
pub fn a_run_goes_into_its_gap()
    ensures { RunGoesIntoGap }
{}

/// The same law, for one who has all characters in order with their keys and registers, the index after the
/// cause, and the number of characters of greater key that follow.
pub fn a_run_goes_after_greater_keys()
    ensures { RunGoesAfterGreaterKeys }
{}

/// A law, for one Insert more: what is shown gains its run, after what is visible before the gap, and all
/// else stays as it was. Nothing hides a run that is new.
pub fn what_is_shown_gains_a_run()
    ensures { ShownGainsRun }
{}
