ghost use Rattle.std.specs.Prelude.{◌≡◌};

use crate::replica::Replica;
use std::marker::Model;

/// A text as it was, up to some fronts.
///
/// It is a copy of its own, and is only read: nothing is typed in it, and it takes nothing in, so that no identity is
/// used a second time. `Replica::past` makes it.
#[derive(Drop)]
pub struct Past {
    replica: Replica,
}

impl Model for Past {
    ghost use Rattle.texts.specs.TextState.{TextState};

    ghost Value = { TextState };

    ghost view = { λ p. p.replica };
}

impl Past {
    /// What was put together is only read from here on.
    pub(crate) fn new(replica: Replica) -> Past
        ensures { result ≡ replica }
    {
        Past { replica }
    }

    /// The text, to be read.
    pub fn replica(&self) -> &Replica
        ensures { result.now ≡ self.now }
    {
        &self.replica
    }
}
