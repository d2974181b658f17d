ghost use Rattle.std.specs.Prelude.{◌≡◌, ◌++◌, ℕ, List, IfOk};
ghost use Rattle.std.specs.List.{flat_map};
ghost use Rattle.looks.specs.Refusal.{RefusedForMemoryAlone};
ghost use Rattle.sha2.specs.Hashers.{Holds256};
ghost use Rattle.note_entries.specs.Bytes.{hash_bytes};
ghost use Rattle.note_hashes.specs.Hashes.{keyed_hash, on_bytes, said_by, said_bytes};

use crate::hmac::{HmacKey, add};
use looks::Refusal;
use note_entries::{Digest, Hash, Saying};
use operations::{Op, encode};
use sha2::Sha256;
use std::alloc::Global;
use std::marker::Model;

const OF_MESSAGE: u8 = 1;

const OF_HASHES: u8 = 2;

/// The key by which the messages of a note are hashed.
#[derive(Drop)]
pub struct NoteKey {
    key: HmacKey,
}

impl Model for NoteKey {
    ghost use Rattle.std.specs.Prelude.{ℕ, List};

    ghost Value = { List ℕ };

    ghost view = { λ k. k.key };
}

// Adds a hash's bytes to what a hasher holds.
pub(crate) fn add_hash(hasher: &mut Sha256, hash: Hash)
    ensures { (held : List ℕ) → Holds256 hasher.old held → Holds256 hasher.new (held ++ hash_bytes hash) }
{
    add(hasher, &hash.bytes());
}

// Adds the bytes of what a message builds on.
fn add_on(hasher: &mut Sha256, on: &Option<Hash>)
    ensures { (held : List ℕ) → Holds256 hasher.old held → Holds256 hasher.new (held ++ on_bytes on.now) }
{
    if let Some(on) = on {
        add_hash(hasher, *on);
    }
}

// Adds the bytes of hashes.
fn add_hashes(hasher: &mut Sha256, hashes: &[Hash])
    ensures { (held : List ℕ) → Holds256 hasher.old held → Holds256 hasher.new (held ++ flat_map hash_bytes hashes.now) }
{
    for hash in hashes {
        add_hash(hasher, *hash);
    }
}

impl NoteKey {
    /// The key of these bytes.
    pub fn new(bytes: [u8; 32]) -> NoteKey
        ensures { result ≡ bytes }
    {
        NoteKey {
            key: HmacKey::new(bytes),
        }
    }

    // The hash of a message that an author said after the one of this hash.
    fn message_hash(&self, author: Hash, before: Hash, message: &[u8], on: &Option<Hash>) -> Hash
        ensures { result ≡ keyed_hash self.now (said_bytes author before message.now on.now) }
    {
        let mut hasher = self.key.begin();
        add(&mut hasher, &[OF_MESSAGE]);
        add_hash(&mut hasher, author);
        add_hash(&mut hasher, before);
        add(&mut hasher, message);
        add_on(&mut hasher, on);
        Hash::of_bytes(self.key.finish(hasher))
    }

    /// What an author says after the message of this hash, with its own. Refused `OutOfMemory` alone.
    pub fn saying(
        &self,
        alloc: Global,
        author: Hash,
        before: Hash,
        op: Op,
        on: Option<Hash>,
    ) -> Result<Saying, Refusal>
        ensures ok { IfOk result (λ saying. saying ≡ said_by self.now author before op on) }
        ensures errors { RefusedForMemoryAlone result }
    {
        let mut message = Vec::new(alloc);
        encode(&op, &mut message)?;
        let hash = self.message_hash(author, before, &message, &on);
        Ok(Saying {
            author,
            hash,
            before,
            on,
            op,
        })
    }
}

impl Digest for NoteKey {
    ghost use Rattle.note_hashes.specs.Hashes.{digest_of};

    ghost digest = { λ key hashes. digest_of key hashes };

    fn of(&self, hashes: &[Hash]) -> Hash {
        let mut hasher = self.key.begin();
        add(&mut hasher, &[OF_HASHES]);
        add_hashes(&mut hasher, hashes);
        Hash::of_bytes(self.key.finish(hasher))
    }
}
