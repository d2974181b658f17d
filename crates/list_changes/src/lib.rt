//! Changes of a list, told by the stretches that they insert, delete or replace, and what such changes lead to.
#![tactic(auto)]

mod change;
pub mod laws;

pub use change::{Change, ChangeKind, all_quiet};
