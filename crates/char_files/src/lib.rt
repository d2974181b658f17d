//! The lasting names of characters, sites' files of bytes, a character as it is shown, and characters outside
//! any text.
#![tactic(auto)]

mod buffer;
mod char_file;
mod char_files;
mod character;
mod laws;
mod limits;
mod looks_run;
mod name;
mod site_map;
mod site_no;
mod source;
mod text_no;

pub use buffer::Buffer;
pub use char_file::CharFile;
pub use char_files::CharFiles;
pub use character::Char;
pub use laws::lemma_runs_are_maximal;
pub use limits::the_limits;
pub use looks_run::LooksRun;
pub use name::{Anchor, Name};
pub use site_map::SiteMap;
pub use site_no::SiteNo;
pub use source::{Plain, Source};
pub use text_no::TextNo;

/// The most bytes that a site's file of one text may have, and the most characters of a stretch: 2^24.
pub const MAX_FILE: u64 = 1 << 24;
