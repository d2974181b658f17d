/// What draining the room did.
#[derive(Clone, Copy, Debug, PartialEq, Eq)]
pub struct Settled {
    /// How many operations that waited were taken in.
    pub drained: u32,
    /// How many operations that waited were thrown away: those that were held by now, or are refused.
    pub dropped: u32,
    /// Whether that ended early, for want of memory.
    pub stopped: bool,
}
