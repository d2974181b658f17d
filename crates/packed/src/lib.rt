//! A text's operations in a compact form, a byte a keystroke: each is spelled by how it differs from what its site's own
//! operations before it lead one to expect.
#![tactic(auto)]

mod codes;
mod expected;
mod history;
mod laws;
mod numbers;
mod reading;
mod sets;
mod writing;

pub use expected::Expected;
pub use history::History;
pub use laws::{lemma_one_packing, lemma_own_operations_tell};
pub use numbers::{number_at, put_number};
