//! Runs of a script: its lines are taken from a reader, and the answers go to a writer.
#![tactic(auto)]

mod limits;
mod running;

pub use limits::the_limits;
pub use running::{MAX_LINES, run, status_of};
