ghost use Rattle.std.specs.Prelude.{◌≡◌, ℕ, ◌+◌, ◌*◌, ◌^◌, ◌<◌};
ghost use Rattle.note_entries.specs.Bytes.{IsHash, hash_bytes, hash_of};

use std::marker::Model;

/// A hash or a key: 32 bytes, read as a number, the first byte as the highest.
#[derive(Clone, Copy, Debug, PartialEq, Eq, PartialOrd, Ord)]
pub struct Hash {
    high: u128,
    low: u128,
}

impl Model for Hash {
    ghost use Rattle.std.specs.Prelude.{ℕ, ◌+◌, ◌*◌, ◌/◌, ◌%◌, ◌^◌, ◌<◌};

    ghost Value = { ℕ };

    ghost view = { λ h. h.high * 2 ^ 128 + h.low };

    ghost invariant = { λ h. (h.high < 2 ^ 128) × (h.low < 2 ^ 128) };

    ghost inverse = { λ n. record { high = n / 2 ^ 128; low = n % 2 ^ 128 } };
}

impl Hash {
    /// The hash of these two halves.
    pub fn new(high: u128, low: u128) -> Hash
        ensures { result ≡ high * 2 ^ 128 + low }
    {
        Hash { high, low }
    }

    /// The hash of these bytes.
    pub fn of_bytes(bytes: [u8; 32]) -> Hash
        ensures { result ≡ hash_of bytes }
    {
        let Some((high, rest)) = bytes.split_first_chunk::<16>() else {
            unreachable!()
        };
        let Some(low) = rest.first_chunk::<16>() else {
            unreachable!()
        };
        Hash::new(u128::from_be_bytes(*high), u128::from_be_bytes(*low))
    }

    /// Its bytes.
    pub fn bytes(self) -> [u8; 32]
        ensures value { result ≡ hash_bytes self }
        ensures back { IsHash self }
    {
        let mut bytes = [0; 32];
        bytes[..16].copy_from_slice(&self.high.to_be_bytes());
        bytes[16..].copy_from_slice(&self.low.to_be_bytes());
        bytes
    }
}
