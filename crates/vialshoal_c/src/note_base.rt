//! What a note begins with, as C gives it.

ghost use Rattle.std.specs.Prelude.{◌≡◌, ℕ, ◌++◌, ◌⊎◌, List, Err, IfErr, IfNone, IfOk, IfSome};
ghost use Rattle.looks.specs.Refusal.{RefusedForMemoryAlone};
ghost use Rattle.looks.specs.declared.refusal.Refusal.TheVariants as refusal;
ghost use Rattle.note_entries.specs.Bytes.{hash_of};
ghost use Rattle.note_laws.specs.Note.{Saying as Said};
ghost use Rattle.note.specs.Editing.{last_hash};
ghost use Rattle.chunks.specs.Chunks.{IsNoChunk};
ghost use Rattle.vialshoal_c.specs.NoteBeginning.{AddsChunk, BeginsWithChunk, IsBaseOf, copied_after};

use crate::inputs::NoteHash;
use chunks::read_chunk;
use looks::Refusal;
use note_entries::{Hash, Saying};
use note_hashes::BaseKey;
use operations::Op;
use std::alloc::Global;

// A chunk after its length in two bytes, the low one first, and the bytes after it.
fn first_chunk(bytes: &[u8]) -> Option<(&[u8], &[u8])>
    ensures some { IfSome result (λ x. BeginsWithChunk bytes.now x.0.now x.1.now) }
    ensures none { IfNone result ((chunk rest : List ℕ) → ¬ BeginsWithChunk bytes.now chunk rest) }
{
    let (len, rest) = bytes.split_first_chunk::<2>()?;
    rest.split_at_checked(u16::from_le_bytes(*len) as usize)
}

// Adds messages of a base, each behind the one before it, whose hash is given back. Refused `OutOfMemory` alone.
fn add_copied(
    alloc: Global,
    key: &BaseKey,
    before: Hash,
    operations: &[Op],
    base: &mut Vec<Saying>,
) -> Result<Hash, Refusal>
    ensures ok { IfOk result (λ last. (base.new.items ≡ base.old.items ++ copied_after key.now before operations.now)
        × (last ≡ last_hash before (copied_after key.now before operations.now))) }
    ensures errors { RefusedForMemoryAlone result }
{
    let mut last = before;
    for op in operations {
        let saying = key.copied(alloc, Hash::new(0, 0), last, op.copy()?)?;
        last = saying.hash;
        base.push(saying)?;
    }
    Ok(last)
}

// Adds the messages of a chunk to a base, behind the one of this hash, and gives the last one's.
//
// Refused `Malformed` where the bytes are no chunk, and `OutOfMemory`.
fn add_chunk(
    alloc: Global,
    key: &BaseKey,
    before: Hash,
    bytes: &[u8],
    base: &mut Vec<Saying>,
) -> Result<Hash, Refusal>
    ensures ok { IfOk result (λ last. AddsChunk key.now before bytes.now base.old.items base.new.items last) }
    ensures malformed { result ≡ Err refusal.Malformed → IsNoChunk bytes.now }
    ensures errors { IfErr result (λ why. (why ≡ refusal.Malformed) ⊎ (why ≡ refusal.OutOfMemory)) }
{
    let chunk = read_chunk(alloc, bytes)?;
    add_copied(alloc, key, before, &chunk.operations, base)
}

/// The messages of a base whose last one has this hash, in chunks each after its length.
///
/// Refused `Malformed` where the bytes are none of such a base, and `OutOfMemory`.
pub(crate) fn read_base(
    alloc: Global,
    key: &NoteHash,
    root: &NoteHash,
    bytes: &[u8],
) -> Result<Vec<Saying>, Refusal>
    ensures ok { IfOk result (λ base. IsBaseOf key.now.bytes (hash_of root.now.bytes) bytes.now base.items) }
    ensures malformed { result ≡ Err refusal.Malformed
        → (base : List Said) → ¬ IsBaseOf key.now.bytes (hash_of root.now.bytes) bytes.now base }
    ensures errors { IfErr result (λ why. (why ≡ refusal.Malformed) ⊎ (why ≡ refusal.OutOfMemory)) }
{
    let base_key = BaseKey::new(key.bytes);
    let mut base = Vec::new(alloc);
    let mut last = Hash::new(0, 0);
    let mut rest = bytes;
    // Each chunk takes bytes away.
    while !rest.is_empty() {
        let Some((chunk, after)) = first_chunk(rest) else {
            return Err(Refusal::Malformed);
        };
        last = add_chunk(alloc, &base_key, last, chunk, &mut base)?;
        rest = after;
    }
    if last != root.hash() {
        return Err(Refusal::Malformed);
    }
    Ok(base)
}
