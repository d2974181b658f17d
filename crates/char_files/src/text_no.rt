ghost use Rattle.std.specs.Prelude.{◌≡◌, ◌<◌, ◌↔◌, IsSome, IfSome};

use std::marker::Model;

/// A text's number, 1 to 65535. Texts of different numbers have nothing to do with one another.
#[derive(Clone, Copy, Debug, PartialEq, Eq, Hash, PartialOrd, Ord)]
pub struct TextNo {
    number: u16,
}

impl Model for TextNo {
    ghost use Rattle.std.specs.Prelude.{ℕ, ◌<◌};

    ghost Value = { ℕ };

    ghost view = { λ text. text.number };

    ghost invariant = { λ text. 0 < text.number };

    ghost inverse = { λ n. record { number = n } };
}

impl TextNo {
    /// The text of this number, or `None` for 0.
    pub fn new(number: u16) -> Option<TextNo>
        ensures valid { IsSome result ↔ (0 < number) }
        ensures value { IfSome result (λ text. text ≡ number) }
    {
        if number == 0 {
            None
        } else {
            Some(TextNo { number })
        }
    }

    /// The number, 1 to 65535.
    pub fn get(self) -> u16
        ensures value { result ≡ self }
        ensures some { 0 < result }
    {
        self.number
    }
}
