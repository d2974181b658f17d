//! Text frames: rows of cells that show a text from the line of a character on, kept by its changes. Beside them
//! carets and selections, which are told by characters and not by positions.
#![tactic(auto)]

mod drawing;
mod frame;
mod limits;
mod marks;
mod reading;
mod rows;

pub use frame::Frame;
pub use limits::the_limits;
pub use marks::{Caret, Selection};
use viewers::MAX_HEIGHT;

/// The most rows of a frame, which stands below a row of the screen; the fewest is 1.
pub const MAX_ROWS: usize = MAX_HEIGHT - 1;
