ghost use Rattle.std.specs.Prelude.{◌≡◌, ◌≤◌, ◌↔◌, IsSome, IfSome};

use std::marker::Model;

/// The greatest number of a colour.
pub const MAX_COLOUR: u8 = 15;

/// A colour, 0 to 15. Which colour a number stands for is the display's business.
///
/// Oberon's texts have colours (Project Oberon, chapter 5).
#[derive(Clone, Copy, Debug, PartialEq, Eq, Hash, PartialOrd, Ord)]
pub struct Colour {
    number: u8,
}

impl Model for Colour {
    ghost use Rattle.std.specs.Prelude.{ℕ, ◌≤◌};
    ghost use Rattle.looks.specs.declared.colour.TheConstants.{MAX_COLOUR};

    ghost Value = { ℕ };

    ghost view = { λ c. c.number };

    ghost invariant = { λ c. c.number ≤ MAX_COLOUR };

    ghost inverse = { λ n. record { number = n } };
}

impl Colour {
    /// The colour of this number, or `None` above 15.
    pub fn new(number: u8) -> Option<Colour>
        ensures valid { IsSome result ↔ (number ≤ MAX_COLOUR) }
        ensures value { IfSome result (λ colour. colour ≡ number) }
    {
        if number <= MAX_COLOUR {
            Some(Colour { number })
        } else {
            None
        }
    }

    /// The colour's number, 0 to 15.
    pub fn number(self) -> u8
        ensures value { result ≡ self }
        ensures in_range { result ≤ MAX_COLOUR }
    {
        self.number
    }
}
