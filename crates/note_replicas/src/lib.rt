//! Replicas that take in what counts of a note, in the order of its admission.
#![tactic(auto)]

mod following;
pub mod laws;

pub use following::take_rest;
