ghost use Rattle.std.specs.Prelude.{◌≡◌, ◌<◌, ◌↔◌, IsSome, IfSome};
ghost use Rattle.char_files.specs.CharName.{CharName};

use crate::MAX_FILE;
use crate::site_no::SiteNo;
use std::marker::Model;

/// The lasting name of a character (its identity, or dot): the site that inserted it, and its offset in that
/// site's file of one text.
///
/// Offsets count from 0, over all bytes that the site ever inserted in the text.
#[derive(Clone, Copy, Debug, PartialEq, Eq, Hash, PartialOrd, Ord)]
pub struct Name {
    site: SiteNo,
    off: u32,
}

impl Model for Name {
    ghost use Rattle.std.specs.Prelude.{◌<◌};
    ghost use Rattle.char_files.specs.CharName.{CharName};
    ghost use Rattle.char_files.specs.declared.TheConstants.{MAX_FILE};

    ghost Value = { CharName };

    ghost view = { λ n. record { site = n.site; off = n.off } };

    ghost invariant = { λ n. n.off < MAX_FILE };

    ghost inverse = { λ n. record { site = n.site; off = n.off } };
}

impl Name {
    /// The name at this offset of the site's file, or `None` at 2^24 and past it, where no file reaches.
    pub fn new(site: SiteNo, off: u32) -> Option<Name>
        ensures valid { IsSome result ↔ (off < MAX_FILE) }
        ensures value { IfSome result (λ name. name ≡ record { site = site; off = off }) }
    {
        if u64::from(off) < MAX_FILE {
            Some(Name { site, off })
        } else {
            None
        }
    }

    /// The site that inserted the character.
    pub fn site(self) -> SiteNo
        ensures { result ≡ self.site }
    {
        self.site
    }

    /// The character's offset in its site's file, below 2^24.
    pub fn off(self) -> u32
        ensures value { result ≡ self.off }
        ensures in_file { result < MAX_FILE }
    {
        self.off
    }
}

/// What a character can hang on: the root of a text's tree, or a character.
#[derive(Clone, Copy, Debug, PartialEq, Eq, Hash)]
pub enum Anchor {
    Root,
    At(Name),
}
