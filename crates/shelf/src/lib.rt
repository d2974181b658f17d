//! Files by their names: what a desk loads from and stores to.
#![tactic(auto)]

mod limits;
mod memory_shelf;
mod names;
mod shelf;

pub use limits::the_limits;
pub use memory_shelf::MemoryShelf;
pub use names::{MAX_NAME_LEN, file_name, is_file_name};
pub use shelf::Shelf;
