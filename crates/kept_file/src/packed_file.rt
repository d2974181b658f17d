//! Sites as packed files: a text with all that its site has taken in, in a byte a keystroke.

mod loading;
mod reading;
mod storing;

pub use loading::load_packed;
pub use storing::store_packed;

// What a packed file begins with.
pub(crate) const TAG: &[u8; 4] = b"OTP1";
