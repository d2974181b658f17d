//! A list of numbered members, each with a weight, that finds a member by a position in the sum of the weights
//! and tells how much stands before one.
#![tactic(auto)]

mod chunk;
mod groups;
mod index;
mod keys;
mod limits;
mod passing;
mod peeks;

pub use index::RankIndex;
pub use limits::the_limits;
pub use peeks::Peeks;
