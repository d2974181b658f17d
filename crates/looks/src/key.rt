/// What decides between concurrent changes: the greater key goes first, or holds (a Lamport timestamp).
///
/// The order is by stamp, then by site, which the order of the fields makes. The tree's root has no key.
#[derive(Clone, Copy, Debug, PartialEq, Eq, Hash, PartialOrd, Ord)]
pub struct Key {
    /// The stamp of the operation, 1 to 2^48 - 1.
    pub stamp: u64,
    /// The number of the operation's site, 1 to 65535.
    pub site: u16,
}
