ghost use Rattle.std.specs.Prelude.{◌≡◌, ◌++◌, IfOk};
ghost use Rattle.looks.specs.Refusal.{RefusedForMemoryAlone};
ghost use Rattle.note_hashes.specs.Hashes.{copied_by, keyed_hash};
ghost use Rattle.note_entries.specs.Bytes.{hash_bytes};

use crate::hmac::{HmacKey, add};
use crate::note_key::add_hash;
use looks::Refusal;
use note_entries::{Hash, Saying};
use operations::{Op, encode};
use std::alloc::Global;
use std::marker::Model;

/// The key by which the messages of a note's base are hashed.
#[derive(Drop)]
pub struct BaseKey {
    key: HmacKey,
}

impl Model for BaseKey {
    ghost use Rattle.std.specs.Prelude.{ℕ, List};

    ghost Value = { List ℕ };

    ghost view = { λ k. k.key };
}

impl BaseKey {
    /// The key of these bytes.
    pub fn new(bytes: [u8; 32]) -> BaseKey
        ensures { result ≡ bytes }
    {
        BaseKey {
            key: HmacKey::new(bytes),
        }
    }

    // The hash of the message that comes after the one of this hash.
    fn copied_hash(&self, before: Hash, message: &[u8]) -> Hash
        ensures { result ≡ keyed_hash self.now (hash_bytes before ++ message.now) }
    {
        let mut hasher = self.key.begin();
        add_hash(&mut hasher, before);
        add(&mut hasher, message);
        Hash::of_bytes(self.key.finish(hasher))
    }

    /// The message of the base that comes after the one of this hash, with its own. Refused `OutOfMemory` alone.
    pub fn copied(
        &self,
        alloc: Global,
        author: Hash,
        before: Hash,
        op: Op,
    ) -> Result<Saying, Refusal>
        ensures ok { IfOk result (λ saying. saying ≡ copied_by self.now author before op) }
        ensures errors { RefusedForMemoryAlone result }
    {
        let mut message = Vec::new(alloc);
        encode(&op, &mut message)?;
        let hash = self.copied_hash(before, &message);
        Ok(Saying {
            author,
            hash,
            before,
            on: None,
            op,
        })
    }
}
