//! One site's texts, with a call for each event that a script may ask of them.
#![tactic(auto)]

mod editing;
mod laws;
mod names_shown;
mod packing;
mod printing;
mod runs;
mod since;
mod site_texts;
mod where_shown;

pub use laws::where_gives_names_back;
pub use site_texts::Texts;
