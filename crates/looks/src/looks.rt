ghost use Rattle.std.specs.Prelude.{◌≡◌};
ghost use Rattle.looks.specs.Looks.{IsLooks, plain_looks};

use crate::colour::Colour;
use crate::font_name::FontName;

/// What a character looks like (Project Oberon, chapter 5).
#[derive(Debug, Drop, PartialEq, Eq)]
pub struct Looks {
    pub font: FontName,
    pub colour: Colour,
    /// The vertical offset from the base line, -128 to 127.
    pub offset: i8,
}

impl Looks {
    /// The default looks: the font `Oberon10.Scn.Fnt`, colour 1, offset 0.
    pub fn plain() -> Looks
        ensures { result ≡ plain_looks }
    {
        Looks {
            font: FontName::new(b"Oberon10.Scn.Fnt").unwrap(),
            colour: Colour::new(1).unwrap(),
            offset: 0,
        }
    }

    /// The same looks again. It takes no memory.
    pub fn copy(&self) -> Looks
        ensures { result ≡ self.now }
    {
        Looks {
            font: self.font.copy(),
            colour: self.colour,
            offset: self.offset,
        }
    }

    /// A law: looks are in range, as the types of their parts see to. A proof gets it by calling this, at no
    /// cost.
    pub fn lemma_are_in_range(&self)
        ensures { IsLooks self.now }
    {
        let _ = (
            self.font.as_bytes().len(),
            self.colour.number(),
            self.offset,
        );
    }
}
