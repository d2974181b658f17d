//! Which operations a replica may take in: the verdict on one that is handed in, and the room in which those wait
//! whose causes are missing.
#![tactic(auto)]

mod good_log;
mod held;
mod judging;
mod limits;
mod mentions;
mod missing;
mod room;
mod waiting;

pub use good_log::GoodLog;
pub use held::Held;
pub use judging::{Verdict, judge};
pub use limits::the_limits;
pub use room::{MAX_WAITING, Offered, Room};
