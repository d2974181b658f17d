//! A ring of numbered members, linked both ways through raw pointers.
#![tactic(auto)]

mod block;
mod limits;
mod links;
mod members;
mod nodes;
mod ring;
mod spares;

pub use limits::the_limits;
pub use members::Members;
pub use ring::Ring;

/// The most members of a ring, so that a tag has 32 bits: the table isn't grown past it.
pub const MAX_TAGS: usize = 1 << 32;
