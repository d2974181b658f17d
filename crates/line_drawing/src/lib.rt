//! The lines of a list of bytes and how they are drawn: rows of cells of a given width, and the positions that
//! stand in those cells.
#![tactic(auto)]

mod drawing;
pub mod laws;
mod limits;
mod places;

pub use drawing::{LINE_END, draw_line, sign};
pub use limits::the_limits;
pub use places::located;
