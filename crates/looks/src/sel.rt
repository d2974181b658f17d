ghost use Rattle.std.specs.Prelude.{◌≡◌, ◌<◌, ◌↔◌, IsSome, IfSome};
ghost use Rattle.looks.specs.Sel.{bits_of};

use std::marker::Model;

/// Which attributes of looks a change sets: one of them at least.
///
/// Its bits are a set of Oberon's (Project Oberon, chapter 5): 0 selects the font, 1 the colour, 2 the
/// offset.
#[derive(Clone, Copy, Debug, PartialEq, Eq, Hash)]
pub struct Sel {
    font: bool,
    colour: bool,
    offset: bool,
}

impl Model for Sel {
    ghost use Rattle.std.specs.Prelude.{◌<◌};
    ghost use Rattle.looks.specs.Sel.{Selection, bits_of};

    ghost Value = { Selection };

    ghost view = { λ s. record { font = s.font; colour = s.colour; offset = s.offset } };

    ghost invariant = { λ s. 0 < bits_of (record { font = s.font; colour = s.colour; offset = s.offset }) };

    ghost inverse = { λ s. record { font = s.font; colour = s.colour; offset = s.offset } };
}

impl Sel {
    /// The selection of these bits, or `None` for 0, which selects nothing, and above 7.
    pub fn new(bits: u8) -> Option<Sel>
        ensures valid { IsSome result ↔ ((0 < bits) × (bits < 8)) }
        ensures value { IfSome result (λ sel. bits_of sel ≡ bits) }
    {
        if bits == 0 || 8 <= bits {
            return None;
        }
        Some(Sel {
            font: bits % 2 == 1,
            colour: bits / 2 % 2 == 1,
            offset: bits / 4 == 1,
        })
    }

    /// The bits, 1 to 7.
    pub fn bits(self) -> u8
        ensures value { result ≡ bits_of self }
        ensures some { 0 < result }
    {
        u8::from(self.font) + 2 * u8::from(self.colour) + 4 * u8::from(self.offset)
    }

    /// Whether the font is selected.
    pub fn font(self) -> bool
        ensures { result ≡ self.font }
    {
        self.font
    }

    /// Whether the colour is selected.
    pub fn colour(self) -> bool
        ensures { result ≡ self.colour }
    {
        self.colour
    }

    /// Whether the offset is selected.
    pub fn offset(self) -> bool
        ensures { result ≡ self.offset }
    {
        self.offset
    }
}
