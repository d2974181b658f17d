//! The fields that messages and files are made of: numbers, the highest byte first. Each is appended at the end of bytes,
//! or read at their front with the bytes after it.
#![tactic(auto)]

mod reading;
mod writing;

pub use reading::{site_at, stretch_at, text_at, u8_at, u16_at, u32_at, u64_at};
pub use writing::{put_u16, put_u32, put_u64};
