//! Which of a note's messages count, text by text.
#![tactic(auto)]

mod admitted;
mod base_messages;
mod building_on;
mod chains;
mod continuing;
mod fate;
mod inserter;
mod mentioned;
mod note_chains;
mod offsets;
mod seen;
mod text_admission;

pub use admitted::Admitted;
pub use chains::Chains;
pub use continuing::Continuing;
pub use fate::Fate;
pub use note_chains::{NoteChains, Opening};
pub use text_admission::{TextAdmission, Unsettled};
