//! A screen's viewers: two tracks whose rows they divide, and what each shows.
#![tactic(auto)]

mod laws;
mod limits;
mod screen;
mod seats;
mod tracks;

pub use laws::{
    a_number_is_used_once, a_track_stays_covered, others_keep_their_rows,
    viewers_show_where_they_stand,
};
pub use limits::the_limits;
pub use screen::{Area, Screen, Track};
pub use seats::{MAX_HEIGHT, MAX_SEATS, MAX_VIEWERS, MAX_WIDTH, MIN_HEIGHT, MIN_WIDTH, Seat};
