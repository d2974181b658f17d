/// How a file tells what a text has taken in.
#[derive(Debug, Clone, Copy, PartialEq, Eq, Drop)]
pub enum KeptForm {
    /// As messages, some 50 bytes a keystroke.
    Messages,
    /// Packed, a byte a keystroke.
    Packed,
}
