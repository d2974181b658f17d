//! HMAC (RFC 2104) by SHA-256.

ghost use Rattle.std.specs.Prelude.{◌≡◌, ◌++◌, ℕ, List, bit_xor, map};
ghost use Rattle.sha2.specs.Hashers.{Holds256};
ghost use Rattle.note_hashes.specs.Hmac.{hmac, padded};

use sha2::{Digest, Sha256};
use std::marker::Model;

const BLOCK: usize = 64;

const INNER_PAD: u8 = 0x36;

const OUTER_PAD: u8 = 0x5c;

/// A key of 32 bytes.
#[derive(Drop)]
pub struct HmacKey {
    bytes: [u8; 32],
    // Both hold the padded key, so that it is hashed once.
    inner: Sha256,
    outer: Sha256,
}

impl Model for HmacKey {
    ghost use Rattle.std.specs.Prelude.{ℕ, List};
    ghost use Rattle.sha2.specs.Hashers.{Holds256};
    ghost use Rattle.note_hashes.specs.Hmac.{padded};

    ghost Value = { List ℕ };

    ghost view = { λ k. k.bytes };

    ghost invariant = { λ k. Holds256 k.inner (padded 0x36 k.bytes) × Holds256 k.outer (padded 0x5C k.bytes) };
}

// Adds bytes to what a hasher holds.
pub(crate) fn add(hasher: &mut Sha256, bytes: &[u8])
    ensures { (held : List ℕ) → Holds256 hasher.old held → Holds256 hasher.new (held ++ bytes.now) }
{
    hasher.update(bytes);
}

// The bytes of a key, each xored with the pad.
fn xored(bytes: [u8; 32], pad: u8) -> [u8; 32]
    ensures { result ≡ map (λ b. bit_xor b pad) bytes }
{
    let mut xored = [0; 32];
    for i in 0..32 {
        xored[i] = bytes[i] ^ pad;
    }
    xored
}

// A hasher that holds the padded key.
fn keyed(bytes: [u8; 32], pad: u8) -> Sha256
    ensures { Holds256 result (padded pad bytes) }
{
    let mut hasher = Sha256::new();
    hasher.update(xored(bytes, pad));
    hasher.update([pad; BLOCK - 32]);
    hasher
}

// The same hasher again.
fn again(hasher: &Sha256) -> Sha256
    ensures { result ≡ hasher.now }
{
    // It takes no memory.
    let Ok(copy) = hasher.clone() else {
        unreachable!()
    };
    copy
}

impl HmacKey {
    /// The key of these bytes.
    pub fn new(bytes: [u8; 32]) -> HmacKey
        ensures { result ≡ bytes }
    {
        HmacKey {
            bytes,
            inner: keyed(bytes, INNER_PAD),
            outer: keyed(bytes, OUTER_PAD),
        }
    }

    // A hasher, to which the message is to be added.
    pub(crate) fn begin(&self) -> Sha256
        ensures { Holds256 result (padded 0x36 self.now) }
    {
        again(&self.inner)
    }

    // The HMAC of the message that was added to such a hasher.
    pub(crate) fn finish(&self, hasher: Sha256) -> [u8; 32]
        ensures { (message : List ℕ) → Holds256 hasher (padded 0x36 self.now ++ message) → result ≡ hmac self.now message }
    {
        let mut outer = again(&self.outer);
        outer.update(hasher.finalize());
        outer.finalize()
    }

    /// The HMAC of a message.
    pub fn of(&self, message: &[u8]) -> [u8; 32]
        ensures { result ≡ hmac self.now message.now }
    {
        let mut hasher = self.begin();
        add(&mut hasher, message);
        self.finish(hasher)
    }
}
