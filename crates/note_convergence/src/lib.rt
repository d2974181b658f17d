//! Laws of replicas that took in what counts of a note.
#![tactic(auto)]

pub mod replicas;
