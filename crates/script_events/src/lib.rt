//! How the events of a script are spelled, a line each.
#![tactic(auto)]

mod escaped;
mod event;
mod front_words;
mod hex_bytes;
mod name_words;

pub use escaped::Escaped;
pub use event::{Delivery, Edit, Event, Save, Side, event_in};
pub use front_words::FrontWords;
pub use hex_bytes::Hex;
pub use name_words::NameWords;
