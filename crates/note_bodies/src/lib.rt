//! What entries of messages say, and the bodies of one's own.
#![tactic(auto)]

mod messages;
mod ons;
mod writing;

pub use messages::{Head, MAX_SITE, TEXTS, messages_of};
pub use writing::{BodyWriter, MAX_ONS};
