/// What becomes of an operation that is handed in.
#[derive(Clone, Copy, Debug, PartialEq, Eq)]
pub enum Fate {
    /// It is of another text.
    OtherText,
    /// It is held already.
    Known,
    /// Another operation is held or waits under its identity.
    Conflicting,
    /// It waits already.
    AlreadyWaits,
    /// A cause of it isn't held.
    Wait,
    /// It begins elsewhere than its site's file ends, or names an own character after that end.
    Misfit,
    /// Its stamp isn't above each cause's.
    LowStamp,
    /// It may be taken in.
    Ready,
}
