use char_files::TextNo;

/// Where the operation of a message stands that was sent: among those that a desk's text has taken in. Eight bytes.
#[derive(Clone, Copy)]
pub struct SentAt {
    /// Its place there, from 0.
    pub place: u32,
    /// The text.
    pub text: TextNo,
    /// The desk's index.
    pub desk: u16,
}
