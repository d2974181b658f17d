//! Texts as files of a shelf: each is read whole, and written by one write.
#![tactic(auto)]

mod site_files;
mod text_files;

pub use site_files::{read_site, write_site};
pub use text_files::{read_text, write_text};
