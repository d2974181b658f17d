//! The hashes of a note's messages.
#![tactic(auto)]

mod base_key;
mod hmac;
mod note_key;

pub use base_key::BaseKey;
pub use hmac::HmacKey;
pub use note_key::NoteKey;
