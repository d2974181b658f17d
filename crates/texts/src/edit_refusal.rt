use looks::Refusal;

/// Why an edit was refused.
#[derive(Clone, Copy, Debug, PartialEq, Eq, Hash)]
pub enum EditRefusal {
    /// Nothing was changed and nothing sent.
    Whole(Refusal),
    /// The edit's first operations, one at least, stand and were sent, and nothing else was changed.
    Partial {
        /// How many operations stand.
        done: u32,
        /// Why the next one was refused.
        why: Refusal,
    },
}
