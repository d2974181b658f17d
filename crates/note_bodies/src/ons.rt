//! What messages of an entry build on, as it stands before them.

ghost use Rattle.std.specs.Prelude.{◌≡◌, ◌≤◌, IfOk, IfErr, ◌⊎◌, length, drop, Some, None};
ghost use Rattle.byte_fields.specs.Fields.{Finds};
ghost use Rattle.looks.specs.declared.refusal.Refusal.TheVariants as refusal;
ghost use Rattle.note_bodies.specs.Bodies.{hash_at, on_here, on_at, ons_after, ons_at};

use byte_fields::u16_at;
use looks::Refusal;
use note_entries::Hash;
use std::alloc::Global;

// The hash that a message of this index builds on.
#[derive(Clone, Copy)]
pub(crate) struct On {
    pub(crate) index: u16,
    pub(crate) hash: Hash,
}

// A hash.
fn hash_at(bytes: &[u8]) -> Option<(Hash, &[u8])>
    ensures { Finds (λ x. (x.0, x.1.now)) result (hash_at bytes.now) }
{
    let (front, rest) = bytes.split_first_chunk::<32>()?;
    Some((Hash::of_bytes(*front), rest))
}

// What a message builds on, whose index isn't below the least one, and below the bound.
fn on_at(bytes: &[u8], least: u32, bound: u16) -> Option<(On, &[u8])>
    ensures { Finds (λ x. (x.0, x.1.now)) result (on_at least bound bytes.now) }
{
    let (index, after) = u16_at(bytes)?;
    let Some((hash, rest)) = hash_at(after) else {
        return None;
    };
    if u32::from(index) < least || bound <= index {
        return None;
    }
    Some((On { index, hash }, rest))
}

// So many of them, whose indices rise and are below the bound, and the bytes after them. Refused `Malformed` where they aren't there,
// and `OutOfMemory`.
pub(crate) fn ons_at(
    alloc: Global,
    count: u16,
    bound: u16,
    bytes: &[u8],
) -> Result<(Vec<On>, &[u8]), Refusal>
    ensures ok { IfOk result (λ x. ons_at count 0 bound bytes.now ≡ Some (x.0.items, x.1.now)) }
    ensures refused { result ≡ Err refusal.Malformed → ons_at count 0 bound bytes.now ≡ None }
    ensures errors { IfErr result (λ why. (why ≡ refusal.Malformed) ⊎ (why ≡ refusal.OutOfMemory)) }
{
    let mut ons = Vec::new(alloc);
    let mut rest = bytes;
    let mut least = 0;
    for _ in 0..count {
        let Some((on, after)) = on_at(rest, least, bound) else {
            return Err(Refusal::Malformed);
        };
        least = u32::from(on.index) + 1;
        rest = after;
        ons.push(on)?;
    }
    Ok((ons, rest))
}

// What the message of this index builds on, where these are of it and of those after it; and those of the messages after it.
pub(crate) fn on_here(ons: &[On], index: usize) -> (Option<Hash>, &[On])
    ensures on { result.0 ≡ on_here ons.now index }
    ensures after { result.1.now ≡ ons_after ons.now index }
{
    match ons {
        [on, rest @ ..] if on.index as usize == index => (Some(on.hash), rest),
        _ => (None, ons),
    }
}
