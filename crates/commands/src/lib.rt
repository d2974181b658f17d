//! One site's desk: its texts and its screen, with a call for each event that a script may ask of them.
#![tactic(auto)]

mod answer;
mod clicking;
mod desk;
mod executing;
mod filing;
mod inserting;
mod parameters;
mod searching;
mod site_files;
mod telling;

pub use answer::Answer;
pub use desk::Desk;
