//! Texts as files: formatted ones, which keep looks, and plain ones, which are bytes.
#![tactic(auto)]

mod filling;
mod laws;
mod limits;
mod loading;
mod plain;
mod storing;

pub use laws::lemma_one_text;
pub use limits::the_limits;
pub use loading::load;
pub use storing::store;

/// The most characters that a file's text may have: 2^20.
pub const MAX_STORED: u64 = 1 << 20;
