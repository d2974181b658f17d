//! Laws of what counts of a note's entries: they are over the definitions alone.
#![tactic(auto)]

pub mod admissions;
