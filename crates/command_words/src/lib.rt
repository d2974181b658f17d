//! The commands that a click calls by their words in a text, and the menus that have such words.
#![tactic(auto)]

mod calls;
mod command;
mod laws;
mod limits;
mod menu;

pub use calls::{Call, command_at};
pub use command::Command;
pub use laws::one_call;
pub use limits::the_limits;
pub use menu::{MAX_MENU, menu_text};
