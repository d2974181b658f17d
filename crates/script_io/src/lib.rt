//! The reader and the writer of a run: lines come in, bytes go out, and faults are told.
#![tactic(auto)]

mod input;
mod limits;
mod lines;
mod output;

pub use input::Input;
pub use limits::the_limits;
pub use lines::{MAX_LINE, NextLine, next_line};
pub use output::Output;
