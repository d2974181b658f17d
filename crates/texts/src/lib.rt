//! Replicas: one site's copy of a text, the messages that its edits send, those that it takes in or lets
//! wait, and merges.
#![tactic(auto)]

mod by_names;
mod edit_refusal;
mod fate;
mod front;
pub mod laws;
mod limits;
mod merge_refusal;
mod outbox;
mod past;
mod replacement;
mod replica;
mod settled;
mod source;
mod took;

pub use by_names::ByNames;
pub use edit_refusal::EditRefusal;
pub use fate::Fate;
pub use front::{Front, front_in};
pub use limits::the_limits;
pub use merge_refusal::MergeRefusal;
pub use outbox::Outbox;
pub use past::Past;
pub use replacement::Replacement;
pub use replica::Replica;
pub use settled::Settled;
pub use taken_text::{Shown, ShownRow, ShownRows};
pub use took::Took;

/// The greatest number of an operation among its site's in one text.
pub const MAX_SEQ: u32 = u32::MAX;

/// The most operations that a site's file of a text tells.
pub const MAX_KEPT: u64 = (1 << 32) - 1;
