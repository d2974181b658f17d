/// Where a character stands: the number of its piece, which the piece keeps for good, and how many
/// characters of the piece stand before it.
#[derive(Clone, Copy, Debug, PartialEq, Eq)]
pub struct Spot {
    pub piece: u64,
    pub within: u32,
}
