use looks::Refusal;

/// What unpacking a chunk did.
#[derive(Clone, Copy, Debug, PartialEq, Eq)]
pub struct Unpacked {
    /// How many operations were taken in, those that had waited among them.
    pub taken: u64,
    /// How many of the chunk's are held already, or wait already.
    pub known: u64,
    /// How many of the chunk's were put among those that wait.
    pub waiting: u64,
    /// Whether the draining of those that wait ended early, once or more, for want of memory.
    pub stopped: bool,
}

/// Why a chunk wasn't unpacked to its end.
#[derive(Clone, Copy, Debug, PartialEq, Eq)]
pub enum UnpackRefusal {
    /// Nothing was changed.
    Whole(Refusal),
    /// The chunk's first operations, one at least, were handed in, and nothing else was done.
    Partial {
        /// How many operations were handed in.
        done: u64,
        /// Why the next one was refused.
        why: Refusal,
    },
}
