//! The operations that a replica has taken in, found by their identities at once.
#![tactic(auto)]

mod found;
mod limits;
mod log;
mod one_delete;
mod op_list;
mod site_log;
mod site_tables;
mod stretch;

pub use limits::the_limits;
pub use log::Log;

/// The most operations of a log, so that the place of each has 32 bits.
pub const MAX_OPS: usize = 1 << 32;
