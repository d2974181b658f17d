//! What an edit of a text begins with: its positions are tested, and what a copy puts in is made.

ghost use Rattle.std.specs.Prelude.{◌≡◌, length, nat_le};
ghost use Rattle.texts.specs.Edit.{is_range_in};
ghost use Rattle.texts.specs.TextState.{shown_of};
ghost use Rattle.desk_texts.specs.TextStep.{CopiesOut};

use char_files::Buffer;
use looks::Refusal;
use texts::Replica;

// Whether `beg` to `end` lie in the text.
pub(crate) fn has_range(replica: &Replica, beg: u64, end: u64) -> bool
    ensures { result ≡ is_range_in replica.now beg end }
{
    beg <= end && end <= replica.shown_len()
}

// Whether a position lies in the text.
pub(crate) fn has_position(replica: &Replica, pos: u64) -> bool
    ensures { result ≡ nat_le pos (length (shown_of replica.now)) }
{
    pos <= replica.shown_len()
}

// What `save` is to put into the other text.
pub(crate) fn copy_out_of(
    replica: &Replica,
    beg: u64,
    end: u64,
    other: &Replica,
    pos: u64,
) -> Result<Buffer, Refusal>
    ensures { CopiesOut replica.now beg end pos other.now result }
{
    // Positions come first: a long stretch is refused after them.
    if !has_range(replica, beg, end) || !has_position(other, pos) {
        return Err(Refusal::OutOfRange);
    }
    replica.save(beg, end)
}
