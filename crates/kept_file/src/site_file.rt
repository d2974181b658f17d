//! Sites as files: a text with all that its site has taken in, as messages in the order of their taking.

mod loading;
mod reading;
mod storing;

pub use loading::load_site;
pub use storing::store_site;
