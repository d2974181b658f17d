use crate::hash::Hash;
use char_files::SiteNo;
use std::marker::Model;

/// An author claims a number.
#[derive(Clone, Copy, Debug)]
pub struct Claim {
    /// His key.
    pub author: Hash,
    pub site: SiteNo,
    pub rank: Hash,
}

impl Model for Claim {
    ghost use Rattle.note_laws.specs.Note.{Claim as Claims};

    ghost Value = { Claims };

    ghost view = { λ c. record { author = c.author; site = c.site; rank = c.rank } };

    ghost inverse = { λ c. record { author = c.author; site = c.site; rank = c.rank } };
}
