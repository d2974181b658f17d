//! What Oberon's programs do with texts: reading, scanning and writing (Project Oberon, chapter 5).
#![tactic(auto)]

mod laws;
mod limits;
mod reader;
mod scanner;
mod token;
mod writer;

pub use laws::lemma_one_token;
pub use limits::the_limits;
pub use reader::Reader;
pub use scanner::{Scanner, byte_at};
pub use token::{Class, MAX_INT, MAX_TOKEN, Token, TokenText, TokenValue};
pub use writer::Writer;
