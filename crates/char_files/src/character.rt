use crate::name::Name;
use looks::Looks;

/// A character of a text, as it is shown (Project Oberon, chapter 5), with its name.
#[derive(Debug, Drop)]
pub struct Char {
    pub name: Name,
    pub byte: u8,
    pub looks: Looks,
}
