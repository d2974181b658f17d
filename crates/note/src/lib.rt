//! A note that several people edit, as a value: the entries go in, its texts come out.
#![tactic(auto)]

mod each_text;
mod note;
mod note_text;
mod own_edit;
mod own_entry;

pub use note::Note;
pub use note_bodies::{Head, TEXTS};
pub use own_edit::OwnEdit;
pub use own_entry::OwnEntry;
