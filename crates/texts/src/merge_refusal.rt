use looks::Refusal;

/// Why a merge was refused.
#[derive(Clone, Copy, Debug, PartialEq, Eq, Hash)]
pub enum MergeRefusal {
    /// Nothing was changed.
    Whole(Refusal),
    /// Memory was refused after so many takings, which stand. No other crate can make one.
    #[non_exhaustive]
    Stopped {
        /// How many operations were taken in.
        done: u64,
    },
}
