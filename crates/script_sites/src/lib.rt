//! The sites of a run, one to eight: each line of a script is answered by a step of the machine of events.
#![tactic(auto)]

mod answers;
mod desks;
mod limits;
mod reply;
mod sent_at;
mod settings;
mod sites;

pub use answers::put_refused;
pub use limits::the_limits;
pub use settings::{MAX_FIRST, MAX_HEIGHT, MAX_SITES, MAX_WIDTH, MIN_HEIGHT, MIN_WIDTH, Settings};
pub use sites::Sites;
