/// What taking in a message did.
#[derive(Clone, Copy, Debug, PartialEq, Eq)]
pub enum Took {
    /// Its operation was taken in, and then those that waited for it.
    Taken {
        /// How many operations that waited were taken in after it.
        drained: u32,
        /// How many operations that waited were thrown away.
        dropped: u32,
        /// Whether that ended early, for want of memory.
        stopped: bool,
    },
    /// Its operation is held already. Nothing was changed.
    Repeat,
    /// Its operation waits for a cause, from now on or already.
    Waits,
}
