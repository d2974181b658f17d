//! Where messages stand.

ghost use Rattle.std.specs.Prelude.{◌≡◌};
ghost use Rattle.note_entries.specs.Branches.{place_in_chain};
ghost use Rattle.note_entries.specs.Rows.{row_begin};

use crate::hash::Hash;
use crate::saying::Saying;
use char_files::{SiteNo, TextNo};
use std::marker::Model;

/// Where in a chain a message stands: messages of one place follow the same one.
#[derive(Clone, Copy, Debug, PartialEq, Eq, PartialOrd, Ord)]
pub struct Place {
    pub author: Hash,
    pub text: TextNo,
    pub site: SiteNo,
    pub seq: u32,
    /// The hash of the message before it, zeros for the first.
    pub before: Hash,
}

impl Model for Place {
    ghost use Rattle.note_entries.specs.Branches.{Place as InChain};

    ghost Value = { InChain };

    ghost view = { λ p. record {
      author = p.author;
      text = p.text;
      site = p.site;
      seq = p.seq;
      before = p.before;
    } };

    ghost inverse = { λ p. record {
      author = p.author;
      text = p.text;
      site = p.site;
      seq = p.seq;
      before = p.before;
    } };
}

impl Place {
    /// Where a message stands.
    pub fn of(saying: &Saying) -> Place
        ensures { result ≡ place_in_chain saying.now }
    {
        Place {
            author: saying.author,
            text: saying.op.text(),
            site: saying.op.site(),
            seq: saying.op.seq(),
            before: saying.before,
        }
    }

    // Where the first message of its author, text and number stands.
    pub(crate) fn begin(self) -> Place
        ensures { result ≡ row_begin self }
    {
        Place {
            seq: 1,
            before: Hash::new(0, 0),
            ..self
        }
    }
}
