//! The windows of a site's viewers: each shows a text of the site's desk by a frame, which is drawn of that text.
#![tactic(auto)]

mod fitting;
mod marks;
mod pointing;
mod printing;
mod telling;
mod window;
mod windows;

pub use marks::MarkedStretch;
pub use pointing::{CellTarget, Clicked};
pub use windows::Windows;
