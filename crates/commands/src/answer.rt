/// What a command did.
#[derive(Clone, Copy, Debug, PartialEq, Eq)]
pub enum Answer {
    /// It added so many messages to the Outbox.
    Sent(u32),
    /// It opened the viewer of this number.
    Viewer(u32),
    /// It found what was looked for, up to this position.
    Found(u64),
    NotFound,
    /// It threw away so many operations that waited.
    Forgot(u32),
    Done,
}
