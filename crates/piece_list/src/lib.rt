//! A text as a list of pieces, the neighbouring characters of a site's file that were changed alike.
#![tactic(auto)]

mod limits;
mod list;
mod numbers;
mod piece;
mod record;
mod ring;
mod run;
mod setting;
mod spot;
mod steps;
mod tags;
mod values;

pub use limits::the_limits;
pub use list::{Between, PieceList, Walk};
pub use piece::MAX_PIECE;
pub use run::Run;
pub use spot::Spot;
