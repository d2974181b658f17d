//! One Insert more that is stamped above all others, and the operations of a writer that took nothing in.

ghost use Rattle.tree_order.specs.Sequential.{LatestSkipsNone, LatestGoesAfterCause, LatestIsShownAtPlace};
ghost use Rattle.tree_order.specs.Sequential.{PlaceIsAfter, LatestIsPlainEdit, OneWriterGoesAfterCauses};

/// A law, for one Insert more that is stamped above all others: it skips nothing, since no key is greater.
pub fn the_latest_skips_none()
    ensures { LatestSkipsNone }
{}

/// A law, for one Insert more that is stamped above all others: its run, put in directly after its cause,
/// makes the order of the larger set.
pub fn the_latest_goes_after_its_cause()
    ensures { LatestGoesAfterCause }
{}

/// A law, for one Insert more that is stamped above all others: what is shown gains its run at the place of
/// its cause, which may be a deleted character, and all else stays as it was.
pub fn the_latest_is_shown_at_its_place()
    ensures { LatestIsShownAtPlace }
{}

/// A law: an anchor that is shown has as its place the index after it in what is shown; the root has 0.
pub fn places_are_determined_by_what_is_shown()
    ensures { PlaceIsAfter }
{}

/// A law, for one Insert more that is stamped above all others and was typed after the first n characters
/// shown: what is shown gains its run there, as an edit of a plain list does it.
pub fn the_latest_is_a_plain_edit()
    ensures { LatestIsPlainEdit }
{}

/// A law, for a writer that took nothing in: each run, put in directly after its cause, makes the order of
/// the first operations, however many.
pub fn lemma_one_writer_goes_after_causes()
    ensures { OneWriterGoesAfterCauses }
{}
