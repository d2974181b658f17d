//! Operations on a text, and the one message that each is spelled as.
#![tactic(auto)]

mod joining;
mod kind;
mod laws;
mod limits;
mod name_set;
mod name_walk;
mod op;
mod reading;
mod stripping;
mod typing;
mod writing;

pub use kind::{Kind, MAX_INSERT};
pub use laws::sets_are_determined_by_their_names;
pub use limits::the_limits;
pub use name_set::{MAX_RANGES, NameRange, NameSet};
pub use name_walk::{NameWalk, named};
pub use op::{MAX_STAMP, Op};
pub use reading::{decode, lemma_one_spelling, read_looks, sel_at, selected_at};
pub use typing::Typing;
pub use writing::{encode, put_selected, write_looks};
