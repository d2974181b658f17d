//! Good sets of operations, the order of their characters, and what they show, as they are defined: laws of
//! them, and slow programs that compute them.
#![tactic(auto)]

mod attributes;
mod good;
pub mod laws;
mod lookup;
mod path_order;
mod showing;
mod sorting;

pub use good::is_good;
pub use lookup::has_char;
pub use path_order::slow_before;
pub use showing::{slow_place, slow_shown};
pub use sorting::slow_order;
