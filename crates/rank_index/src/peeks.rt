ghost use Rattle.std.specs.Prelude.{◌≡◌, ◌+◌, ◌-◌, ◌<◌, ◌^◌, ◌↔◌, IsTrue, min};

use std::marker::Model;

/// How often a key was looked at: the least key of a group or of a chunk, or the key of a member. Each look adds one, up to the greatest
/// `u64`.
#[derive(Drop)]
pub struct Peeks {
    count: u64,
}

impl Model for Peeks {
    ghost use Rattle.std.specs.Prelude.{ℕ};

    ghost Value = { ℕ };

    ghost view = { λ p. p.count };
}

impl Peeks {
    /// None were made.
    pub fn none() -> Peeks
        ensures { result ≡ 0 }
    {
        Peeks { count: 0 }
    }

    /// How many were made.
    pub fn count(&self) -> u64
        ensures { result ≡ self.now }
    {
        self.count
    }

    // Whether the key that is kept is greater than this one.
    pub(crate) fn is_above(&mut self, kept: u64, key: u64) -> bool
        ensures value { IsTrue result ↔ key < kept }
        ensures counted { self.new ≡ min (self.old + 1) (2 ^ 64 - 1) }
    {
        self.count = self.count.saturating_add(1);
        key < kept
    }
}
