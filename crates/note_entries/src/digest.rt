ghost use Rattle.std.specs.Prelude.{◌≡◌};

use crate::hash::Hash;

/// The digest of hashes that a note's key gives.
pub trait Digest {
    ghost use Rattle.std.specs.Prelude.{ℕ, List};

    ghost digest: { Self → List ℕ → ℕ };

    /// The digest of these hashes, in this order.
    fn of(&self, hashes: &[Hash]) -> Hash
        ensures { result ≡ digest self.now hashes.now };
}
