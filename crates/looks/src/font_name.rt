ghost use Rattle.std.specs.Prelude.{◌≡◌, ◌≤◌, ◌↔◌, length, IsSome, IfSome};
ghost use Rattle.looks.specs.FontName.{IsFontName, is_font_byte};

use arrayvec::ArrayVec;
use std::marker::Model;

/// The most bytes that a font's name may have.
pub const MAX_FONT_NAME: usize = 31;

/// The name of a font: 1 to 31 letters, digits and full stops, the first a letter.
///
/// Oberon names fonts by files, as `Oberon10.Scn.Fnt` (Project Oberon, chapter 5).
#[derive(Debug, Drop, PartialEq, Eq)]
pub struct FontName {
    bytes: ArrayVec<u8, MAX_FONT_NAME>,
}

impl Model for FontName {
    ghost use Rattle.std.specs.Prelude.{ℕ, List};
    ghost use Rattle.looks.specs.FontName.{IsFontName};

    ghost Value = { List ℕ };

    ghost view = { λ f. f.bytes.items };

    ghost invariant = { λ f. IsFontName f.bytes.items };

    ghost inverse = { λ bytes. record { bytes = record { items = bytes } } };
}

// Whether a font's name may have this byte after its first.
fn is_font_byte(byte: u8) -> bool
    ensures { result ≡ is_font_byte byte }
{
    byte.is_ascii_alphanumeric() || byte == b'.'
}

fn array_of(bytes: &[u8]) -> ArrayVec<u8, MAX_FONT_NAME>
    requires { length bytes.now ≤ MAX_FONT_NAME }
    ensures { result.items ≡ bytes.now }
{
    let mut array = ArrayVec::new();
    let _ = array.try_extend_from_slice(bytes);
    array
}

impl FontName {
    /// The font of this name, or `None` where the bytes are no font name.
    pub fn new(bytes: &[u8]) -> Option<FontName>
        ensures valid { IsSome result ↔ IsFontName bytes.now }
        ensures value { IfSome result (λ font. font ≡ bytes.now) }
    {
        let first = *bytes.first()?;
        if MAX_FONT_NAME < bytes.len()
            || !first.is_ascii_alphabetic()
            || !bytes.iter().all(|byte| is_font_byte(*byte))
        {
            return None;
        }
        Some(FontName {
            bytes: array_of(bytes),
        })
    }

    /// The same name again. It takes no memory.
    pub fn copy(&self) -> FontName
        ensures { result ≡ self.now }
    {
        FontName {
            bytes: array_of(self.bytes.as_slice()),
        }
    }

    /// The bytes of the name.
    pub fn as_bytes(&self) -> &[u8]
        ensures value { result.now ≡ self.now }
        ensures valid { IsFontName self.now }
    {
        self.bytes.as_slice()
    }
}
