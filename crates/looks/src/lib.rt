//! What a character looks like, the keys that order concurrent changes, and the refusals of the whole system.
#![tactic(auto)]

mod colour;
mod font_name;
mod key;
mod limits;
mod looks;
mod refusal;
mod register;
mod sel;

pub use colour::{Colour, MAX_COLOUR};
pub use font_name::{FontName, MAX_FONT_NAME};
pub use key::Key;
pub use limits::the_limits;
pub use looks::Looks;
pub use refusal::{OUT_OF_MEMORY, Refusal};
pub use register::Register;
pub use sel::Sel;
