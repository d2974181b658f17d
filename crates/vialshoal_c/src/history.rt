//! What a session has taken in past some fronts, and its text as it was up to them.

ghost use Rattle.std.specs.Prelude.{◌≡◌, ◌+◌, ◌++◌, ◌<◌, ◌≤◌, length, map, slice_get, IfNone, IfOk, IfSome, IsTrue};
ghost use Rattle.std.specs.Prelude.{vec_capacity, vec_len};
ghost use Rattle.std.specs.Int.{to_le_bytes, w16};
ghost use Rattle.std.specs.List.{list_all};
ghost use Rattle.looks.specs.Refusal.{RefusedForMemoryAlone};
ghost use Rattle.operations.specs.Spelling.{spelling};
ghost use Rattle.text_chunks.specs.Packing.{chunks_beyond};
ghost use Rattle.texts.specs.Fronts.{front_in, is_beyond};
ghost use Rattle.texts.specs.Past.{IsPastOf};
ghost use Rattle.vialshoal_c.specs.History.{IsFirstBeyond, NoneIsBeyond, PutsChunks, PutsSpelling, TellsSince};
ghost use Rattle.vialshoal_c.specs.History.{framed, fronts_of, is_front};

use crate::asking::{Put, put_bytes};
use crate::inputs::SiteFront;
use crate::numbers::{NO_MESSAGE, NO_NUMBER};
use crate::session::Session;
use char_files::SiteNo;
use looks::Refusal;
use operations::encode;
use std::alloc::Global;
use text_chunks::pack;
use texts::{Front, Past, Replica};

// Whether all of these are fronts.
pub(crate) fn are_fronts(fronts: &[SiteFront]) -> bool
    ensures { result ≡ list_all is_front fronts.now }
{
    fronts.iter().all(|some| some.front().is_some())
}

// The number that these fronts give a site: of the first that is its, 0 where there is none.
fn front_in(fronts: &[SiteFront], site: SiteNo) -> u32
    ensures { result ≡ front_in (fronts_of fronts.now) site }
{
    for some in fronts {
        if some.site == site.get() {
            return some.seq;
        }
    }
    0
}

// Whether the operation that was taken in at this place is beyond the fronts.
fn is_beyond(replica: &Replica, fronts: &[SiteFront], place: u64) -> bool
    requires { place < length replica.now.operations }
    ensures { IfSome (slice_get replica.now.operations place) (λ op. result ≡ is_beyond (fronts_of fronts.now) op) }
{
    let (site, seq) = replica.taken_identity(place);
    front_in(fronts, site) < seq
}

// Where to look for the first operation beyond the fronts: none is from the one place on up to this. The first time of all
// it is that of the operation itself, or where no memory is left that of the first one of all.
fn begin(alloc: Global, replica: &Replica, fronts: &[SiteFront], from: u64) -> u64
    requires { IsTrue (list_all is_front fronts.now) }
    ensures later { from ≤ result }
    ensures none { NoneIsBeyond replica.now.operations (fronts_of fronts.now) from result }
{
    if from > 0 {
        return from;
    }
    match fronts_of(alloc, fronts) {
        Ok(taken) => replica.first_beyond(&taken),
        Err(_) => 0,
    }
}

// The place of the first operation beyond the fronts that was taken in at this place or after it.
fn first_beyond(alloc: Global, replica: &Replica, fronts: &[SiteFront], from: u64) -> Option<u64>
    requires { IsTrue (list_all is_front fronts.now) }
    ensures some { IfSome result (IsFirstBeyond replica.now.operations (fronts_of fronts.now) from) }
    ensures none { IfNone result
        (NoneIsBeyond replica.now.operations (fronts_of fronts.now) from (length replica.now.operations)) }
{
    for place in begin(alloc, replica, fronts, from)..replica.taken_len() {
        if is_beyond(replica, fronts, place) {
            return Some(place);
        }
    }
    None
}

// The message of the operation that was taken in at this place. Refused `OutOfMemory` alone.
fn spelt(alloc: Global, replica: &Replica, place: u64) -> Result<Vec<u8>, Refusal>
    requires { place < length replica.now.operations }
    ensures ok { IfOk result (λ message.
        IfSome (slice_get replica.now.operations place) (λ op. message.items ≡ spelling op)) }
    ensures errors { RefusedForMemoryAlone result }
{
    let op = replica.taken(place)?;
    let mut message = Vec::new(alloc);
    encode(&op, &mut message)?;
    Ok(message)
}

// Puts the message of the operation that was taken in at this place into a room.
fn put_spelling(alloc: Global, replica: &Replica, place: u64, room: &mut [u8]) -> Put
    requires { place < length replica.now.operations }
    ensures { IfSome (slice_get replica.now.operations place)
        (λ op. PutsSpelling op room.old result.number result.need room.new) }
{
    match spelt(alloc, replica, place) {
        Ok(message) => put_bytes(&message, room),
        Err(why) => Put::none(u32::from(why.number())),
    }
}

// Puts fronts into a vector that has the room.
fn put(fronts: &[SiteFront], taken: &mut Vec<Front>)
    requires fronts { IsTrue (list_all is_front fronts.now) }
    requires room { vec_len taken.old + length fronts.now ≤ vec_capacity taken.old }
    ensures { taken.new.items ≡ taken.old.items ++ fronts_of fronts.now }
{
    for some in fronts {
        // They were checked.
        let Some(front) = some.front() else {
            return;
        };
        taken.push_reserved(front);
    }
}

// The fronts as a replica takes them. Refused `OutOfMemory` alone.
fn fronts_of(alloc: Global, fronts: &[SiteFront]) -> Result<Vec<Front>, Refusal>
    requires { IsTrue (list_all is_front fronts.now) }
    ensures ok { IfOk result (λ taken. taken.items ≡ fronts_of fronts.now) }
    ensures errors { RefusedForMemoryAlone result }
{
    let mut taken = Vec::with_capacity(alloc, fronts.len())?;
    put(fronts, &mut taken);
    Ok(taken)
}

// A chunk's length in two bytes, the low one first.
fn length_bytes(chunk: &[u8]) -> [u8; 2]
    ensures { result ≡ to_le_bytes w16 (length chunk.now) }
{
    let [low, high, ..] = (chunk.len() as u64).to_le_bytes();
    [low, high]
}

// Chunks one after the other, each after its length. Refused `OutOfMemory` alone.
fn framed(alloc: Global, chunks: &[Vec<u8>]) -> Result<Vec<u8>, Refusal>
    ensures ok { IfOk result (λ bytes. bytes.items ≡ framed (map (λ chunk. chunk.items) chunks.now)) }
    ensures errors { RefusedForMemoryAlone result }
{
    let mut bytes = Vec::new(alloc);
    for chunk in chunks {
        bytes.extend_from_slice(&length_bytes(chunk))?;
        bytes.extend_from_slice(chunk)?;
    }
    Ok(bytes)
}

// The chunks of what a text has taken in past these fronts, each after its length. Refused `OutOfMemory` alone.
fn packed(alloc: Global, replica: &Replica, fronts: &[SiteFront]) -> Result<Vec<u8>, Refusal>
    requires { IsTrue (list_all is_front fronts.now) }
    ensures ok { IfOk result (λ bytes. bytes.items ≡ framed (chunks_beyond (fronts_of fronts.now) replica.now)) }
    ensures errors { RefusedForMemoryAlone result }
{
    let taken = fronts_of(alloc, fronts)?;
    framed(alloc, &pack(alloc, replica, &taken)?)
}

/// The text of a replica as it was up to these fronts. Refused `OutOfMemory` alone.
pub(crate) fn past_of(
    alloc: Global,
    replica: &Replica,
    fronts: &[SiteFront],
) -> Result<Box<Past>, Refusal>
    requires { IsTrue (list_all is_front fronts.now) }
    ensures ok { IfOk result (λ past. IsPastOf replica.now (fronts_of fronts.now) past.value) }
    ensures errors { RefusedForMemoryAlone result }
{
    let taken = fronts_of(alloc, fronts)?;
    Ok(Box::new(alloc, replica.past(&taken)?)?)
}

impl Session {
    /// Puts a message of what was taken in past these fronts into a room: of the first that is, from a place on. With
    /// it the place is that after its.
    pub(crate) fn since(
        &self,
        alloc: Global,
        fronts: &[SiteFront],
        index: &mut u64,
        room: &mut [u8],
    ) -> Put
        ensures { TellsSince self.now.text fronts.now index.old room.old result.number result.need room.new index.new }
    {
        if !are_fronts(fronts) {
            return Put::none(NO_NUMBER);
        }
        let Some(place) = first_beyond(alloc, &self.replica, fronts, *index) else {
            return Put::none(NO_MESSAGE);
        };
        let put = put_spelling(alloc, &self.replica, place, room);
        // No more is taken in than a `u64` counts.
        let _ = self.replica.taken_len();
        if put.number == 0 {
            *index = place + 1;
        }
        put
    }

    /// Puts the chunks of what was taken in past these fronts into a room, each after its length.
    pub(crate) fn pack(&self, alloc: Global, fronts: &[SiteFront], room: &mut [u8]) -> Put
        ensures { PutsChunks self.now.text fronts.now room.old result.number result.need room.new }
    {
        if !are_fronts(fronts) {
            return Put::none(NO_NUMBER);
        }
        match packed(alloc, &self.replica, fronts) {
            Ok(bytes) => put_bytes(&bytes, room),
            Err(why) => Put::none(u32::from(why.number())),
        }
    }
}
