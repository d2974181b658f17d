use commands::Answer;
use looks::Refusal;
use text_chunks::{UnpackRefusal, Unpacked};
use texts::{EditRefusal, MergeRefusal, Settled, Took};

/// What a run's sites reply to an event: the value of the desk's call. Messages that it sent are in the Outbox.
#[derive(Debug, Drop)]
pub enum Reply {
    /// To an edit, how many messages it sent.
    Edited(Result<u32, EditRefusal>),
    /// To a message.
    Taken(Result<Took, Refusal>),
    /// To a chunk.
    Unpacked(Result<Unpacked, UnpackRefusal>),
    /// To a settling.
    Settled(Settled),
    /// To a merge, how many operations were taken in.
    Merged(Result<u64, MergeRefusal>),
    /// To a query or a view, its lines.
    Printed(Result<Vec<u8>, Refusal>),
    /// To an opening, the viewer.
    Opened(Result<u32, Refusal>),
    /// To another arrangement.
    Arranged(Result<(), Refusal>),
    /// To a click, a keeping or a reopening.
    Commanded(Result<Answer, EditRefusal>),
}
