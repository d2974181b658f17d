//! A site's text as a file in one of two forms: as messages, or packed.
#![tactic(auto)]

mod files;
mod form;
mod head;
mod laws;
mod limits;
mod packed_file;
mod site_file;
mod taking;

pub use files::{load_kept, store_kept};
pub use form::KeptForm;
pub use laws::{
    lemma_first_parts, lemma_one_kept, lemma_one_packed_file, lemma_one_site,
    lemma_packed_files_grow,
};
pub use limits::the_limits;
pub use packed_file::{load_packed, store_packed};
pub use site_file::{load_site, store_site};

/// The most operations that a packed file tells: one takes a byte at least there, and some hundreds of bytes of memory.
pub const MAX_PACKED: u64 = 1 << 22;
