ghost use Rattle.std.specs.Prelude.{◌≡◌, ◌<◌, ◌↔◌, IsSome, IfSome};

use std::marker::Model;

/// A site's number, 1 to 65535. A site is where texts are edited; 0 is no site.
#[derive(Clone, Copy, Debug, PartialEq, Eq, Hash, PartialOrd, Ord)]
pub struct SiteNo {
    number: u16,
}

impl Model for SiteNo {
    ghost use Rattle.std.specs.Prelude.{ℕ, ◌<◌};

    ghost Value = { ℕ };

    ghost view = { λ site. site.number };

    ghost invariant = { λ site. 0 < site.number };

    ghost inverse = { λ n. record { number = n } };
}

impl SiteNo {
    /// The site of this number, or `None` for 0.
    pub fn new(number: u16) -> Option<SiteNo>
        ensures valid { IsSome result ↔ (0 < number) }
        ensures value { IfSome result (λ site. site ≡ number) }
    {
        if number == 0 {
            None
        } else {
            Some(SiteNo { number })
        }
    }

    /// The number, 1 to 65535.
    pub fn get(self) -> u16
        ensures value { result ≡ self }
        ensures some { 0 < result }
    {
        self.number
    }
}
