//! A text's operations in chunks: what lies beyond some fronts is packed, and what comes in is unpacked.
#![tactic(auto)]

mod cutter;
mod laws;
mod packing;
mod typed;
mod unpacked;
mod unpacking;

pub use laws::lemma_chunks_hand_in_the_messages;
pub use packing::pack;
pub use unpacked::{UnpackRefusal, Unpacked};
pub use unpacking::unpack;
