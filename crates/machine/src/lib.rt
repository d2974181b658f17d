//! The machine of events, as definitions: what a run of several sites may reply to an event, and how it goes on.
#![tactic(auto)]

mod asked;
mod limits;

pub use asked::{Arrangement, Cell, Fronts, Query, View};
pub use limits::the_limits;

/// The greatest number of a text on a desk; the least is 1.
pub const MAX_TEXT: u16 = 16;
