//! Laws of good sets of operations: unions of them, what may be added to them, and closures. They are over
//! the definitions alone, so that a body that takes operations in one by one need only cite them.
#![tactic(auto)]

pub mod closures;
pub mod growing;
pub mod unions;
