//! A text as the operations that were taken in make it.
#![tactic(auto)]

mod joining;
mod letters;
mod named;
mod rows;
mod shown;
mod stretches;
mod taken_text;

pub use rows::{ShownRow, ShownRows};
pub use shown::Shown;
pub use taken_text::TakenText;
