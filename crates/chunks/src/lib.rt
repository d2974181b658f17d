//! Chunks: operations of a text in a compact form, for what travels between sites. A chunk leans on nothing that its
//! receiver holds.
#![tactic(auto)]

mod codes;
mod laws;
mod limits;
mod reading;
mod rows;
mod writing;

pub use laws::{lemma_chunks_tell, lemma_one_chunk};
pub use limits::the_limits;
pub use reading::{Chunk, read_chunk};
pub use writing::ChunkWriter;

/// The most bytes of a chunk.
pub const MAX_CHUNK: u64 = 16_000;
