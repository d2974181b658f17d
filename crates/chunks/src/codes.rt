// What a chunk begins with, before the text.
pub(crate) const TAG: &[u8; 4] = b"OTC1";

// A site begins.
pub(crate) const BEGIN: u8 = 15;
