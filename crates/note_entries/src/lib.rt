//! What a note's entries say, and what is kept of them: of each number the claim of least rank, of each place in a chain the message of
//! least hash.
#![tactic(auto)]

mod branches;
mod claim;
mod digest;
mod hash;
mod holders;
mod kept_entries;
mod place;
mod rows;
mod saying;

pub use branches::Said;
pub use claim::Claim;
pub use digest::Digest;
pub use hash::Hash;
pub use holders::Claimed;
pub use kept_entries::KeptEntries;
pub use saying::Saying;
