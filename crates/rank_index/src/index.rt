ghost use Rattle.std.specs.Prelude.{◌≡◌, ℕ, ◌+◌, ◌*◌, ◌/◌, ◌<◌, ◌≤◌, ◌^◌, [], ◌∷◌, ◌++◌, length, max, IfOk, IfSome, OnOk, slice_get};
ghost use Rattle.std.specs.Prelude.{vec_len, vec_capacity};
ghost use Rattle.looks.specs.Refusal.{RefusedForMemoryAlone};
ghost use Rattle.piece_raw.specs.Ring.{HasTag, IsPushed, AreTags, with_value};
ghost use Rattle.piece_raw.specs.declared.TheConstants.{MAX_TAGS};
ghost use Rattle.rank_index.specs.Chunks.{ChunkSeen, members_of, AreEnteredUnder, AreHomes, AreTied, AreEmpty, AreHalfFull};
ghost use Rattle.rank_index.specs.Chunks.{AreSlotsTo, AreInSlots, HomesDiffer, IsSlotOf, IsSlotAfter, HasRoomInChunk, IsHalved, chunk_room};
ghost use Rattle.rank_index.specs.Groups.{AreLows};
ghost use Rattle.rank_index.specs.Keyed.{AreLeast, IsPassedIn};
ghost use Rattle.rank_index.specs.Ranked.{weight_of, IsRank, IsFound};

use crate::chunk::{Chunk, HALF, MOST};
use crate::groups::{GROUP, find_lows_if_grown, group_at, regroup_if_grown, weight_before};
use crate::passing::pass_on;
use crate::peeks::Peeks;
use looks::Refusal;
use std::alloc::Global;
use std::marker::Model;

/// A list of members, each a tag, a weight and a key, that tells how much weight stands before a member, which
/// member holds a position in the sum of all weights, and how far after a member all keys are greater than one.
/// Tags count from 0 in the order of insertion.
///
/// It has chunks of neighbours with their sums and least keys, the sums of groups of chunks, and a
/// table from a tag to its chunk.
#[derive(Drop)]
pub struct RankIndex {
    // In order; at least one.
    chunks: Vec<Chunk>,
    // By tag, the home of the member's chunk.
    homes: Vec<u32>,
    // By tag, the member's key.
    keys: Vec<u64>,
    // By home, the slot of the chunk in the list of all.
    slots: Vec<usize>,
    // Chunks without members.
    spare: Vec<Chunk>,
    // Of each group of neighbouring chunks, the sum.
    groups: Vec<u64>,
    // And the least key.
    lows: Vec<u64>,
    total: u64,
    alloc: Global,
}

impl Model for RankIndex {
    ghost use Rattle.std.specs.Prelude.{◌≡◌, ◌+◌, ◌-◌, ◌<◌, ◌≤◌, ◌^◌, min, vec_len, vec_capacity};
    ghost use Rattle.piece_raw.specs.declared.TheConstants.{MAX_TAGS};
    ghost use Rattle.rank_index.specs.Chunks.{members_of, AreInSlots, AreTied, AreEmpty, index_room};
    ghost use Rattle.rank_index.specs.Groups.{AreGroups, AreLows};
    ghost use Rattle.rank_index.specs.Keyed.{AreLeast};
    ghost use Rattle.rank_index.specs.Ranked.{Ranked, ranked, weight_of};

    ghost Value = { Ranked };

    ghost view = { λ r. ranked (members_of r.chunks.items) r.keys.items
        (index_room (min (min (vec_capacity r.homes) (vec_capacity r.keys)) MAX_TAGS - vec_len r.homes)
        (vec_len r.chunks) (vec_len r.spare) (vec_len r.homes)) };

    ghost invariant = { λ r. AreTied r.homes.items r.chunks.items
        × AreEmpty r.spare.items
        × (vec_len r.chunks + vec_len r.spare ≤ vec_capacity r.chunks)
        × (r.total ≡ weight_of (members_of r.chunks.items))
        × (weight_of (members_of r.chunks.items) < 2 ^ 64)
        × AreInSlots r.slots.items r.chunks.items
        × (vec_len r.chunks + vec_len r.spare ≤ vec_capacity r.slots)
        × AreGroups r.groups.items r.chunks.items
        × (vec_len r.chunks + vec_len r.spare ≤ vec_capacity r.groups)
        × (vec_len r.keys ≡ vec_len r.homes)
        × AreLeast r.keys.items r.chunks.items
        × AreLows r.lows.items r.chunks.items
        × (vec_len r.chunks + vec_len r.spare ≤ vec_capacity r.lows) };
}

// The slot of the chunk that has the member of this tag, as the tables tell it: the chunks aren't read.
fn chunk_of(chunks: &[Chunk], slots: &[usize], homes: &[u32], tag: u64) -> usize
    requires here { HasTag (members_of chunks.now) tag }
    requires homes { AreHomes homes.now chunks.now }
    requires placed { AreInSlots slots.now chunks.now }
    ensures { IsSlotOf chunks.now result tag }
{
    let _ = chunks;
    let home = homes[tag as usize] as usize;
    slots[home]
}

// The member whose stretch of the sum in these chunks holds the position, and how far inside.
fn found_in(chunks: &[Chunk], pos: u64) -> (u64, u64)
    requires { pos < weight_of (members_of chunks.now) }
    ensures { IsFound (members_of chunks.now) pos result.0 result.1 }
{
    let mut left = pos;
    for chunk in chunks {
        if left < chunk.sum() {
            return chunk.find(left);
        }
        left -= chunk.sum();
    }
    unreachable!()
}

// Enters the members of the chunk as being in it.
fn enter(homes: &mut [u32], chunk: &Chunk)
    requires { (tag : ℕ) → HasTag chunk.now.members tag → tag < length homes.old }
    ensures entered { AreEnteredUnder homes.new chunk.now.home chunk.now.members }
    ensures others { (tag : ℕ) → (HasTag chunk.now.members tag → ⊥)
        → slice_get homes.new tag ≡ slice_get homes.old tag }
{
    let home = chunk.home();
    let members = chunk.members();
    for member in members {
        homes[member.0 as usize] = home;
    }
}

// Tells the slots of the chunks from this one on anew, as those before it are told.
fn renumber(slots: &mut [usize], chunks: &[Chunk], from: usize)
    requires before { AreSlotsTo slots.old chunks.now from }
    requires homes { HomesDiffer chunks.now }
    requires within { (slot : ℕ) (c : ChunkSeen) → slice_get chunks.now slot ≡ Some c → c.home < length slots.old }
    ensures { AreSlotsTo slots.new chunks.now (length chunks.now) }
{
    for slot in from..chunks.len() {
        slots[chunks[slot].home() as usize] = slot;
    }
}

// Halves the full chunk at this slot.
fn halve(
    chunks: &mut Vec<Chunk>,
    spare: &mut Vec<Chunk>,
    slots: &mut Vec<usize>,
    homes: &mut [u32],
    keys: &[u64],
    slot: usize,
)
    requires full { (c : ChunkSeen) × (slice_get chunks.old.items slot ≡ Some c) × (length c.members ≡ MOST) }
    requires spare { 0 < vec_len spare.old }
    requires empty { AreEmpty spare.old.items }
    requires tied { AreTied homes.old chunks.old.items }
    requires placed { AreInSlots slots.old.items chunks.old.items }
    requires room { vec_len chunks.old + vec_len spare.old ≤ vec_capacity chunks.old }
    requires slots_room { vec_len chunks.old + vec_len spare.old ≤ vec_capacity slots.old }
    requires few { vec_len slots.old < MAX_TAGS }
    requires least { AreLeast keys.now chunks.old.items }
    ensures halved { IsHalved slot chunks.old.items chunks.new.items }
    ensures empty { AreEmpty spare.new.items }
    ensures tied { AreTied homes.new chunks.new.items }
    ensures placed { AreInSlots slots.new.items chunks.new.items }
    ensures count { vec_len chunks.new + vec_len spare.new ≡ vec_len chunks.old + vec_len spare.old }
    ensures one { vec_len spare.new + 1 ≡ vec_len spare.old }
    ensures room { vec_capacity chunks.old ≤ vec_capacity chunks.new }
    ensures slots_room { vec_capacity slots.old ≤ vec_capacity slots.new }
    ensures least { AreLeast keys.now chunks.new.items }
{
    match spare.pop() {
        Some(mut rest) => {
            let home = slots.len();
            rest.move_to(home as u32);
            chunks[slot].halve(&mut rest, keys);
            enter(homes, &rest);
            match chunks.insert(slot + 1, rest) {
                Ok(()) => {}
                Err(_) => unreachable!(),
            }
            slots.push_reserved(home);
            renumber(slots, chunks, slot + 1);
        }
        None => unreachable!(),
    }
}

// The slot of a chunk with room for one more after this member, at the front for `None`. A full one is halved.
fn slot_after(
    chunks: &mut Vec<Chunk>,
    spare: &mut Vec<Chunk>,
    slots: &mut Vec<usize>,
    homes: &mut [u32],
    keys: &[u64],
    after: Option<u64>,
) -> usize
    requires after { IfSome after (HasTag (members_of chunks.old.items)) }
    requires room { 0 < chunk_room (vec_len chunks.old) (vec_len spare.old) (length (members_of chunks.old.items)) }
    requires empty { AreEmpty spare.old.items }
    requires tied { AreTied homes.old chunks.old.items }
    requires placed { AreInSlots slots.old.items chunks.old.items }
    requires chunks_room { vec_len chunks.old + vec_len spare.old ≤ vec_capacity chunks.old }
    requires slots_room { vec_len chunks.old + vec_len spare.old ≤ vec_capacity slots.old }
    requires few { length homes.old < MAX_TAGS }
    requires least { AreLeast keys.now chunks.old.items }
    ensures slot { IsSlotAfter chunks.new.items result after }
    ensures room { HasRoomInChunk chunks.new.items result }
    ensures members { members_of chunks.new.items ≡ members_of chunks.old.items }
    ensures empty { AreEmpty spare.new.items }
    ensures tied { AreTied homes.new chunks.new.items }
    ensures placed { AreInSlots slots.new.items chunks.new.items }
    ensures count { vec_len chunks.new + vec_len spare.new ≡ vec_len chunks.old + vec_len spare.old }
    ensures one { vec_len spare.old ≤ vec_len spare.new + 1 }
    ensures chunks_room { vec_capacity chunks.old ≤ vec_capacity chunks.new }
    ensures slots_room { vec_capacity slots.old ≤ vec_capacity slots.new }
    ensures least { AreLeast keys.now chunks.new.items }
    ensures same { vec_len chunks.new ≤ vec_len chunks.old → chunks.new.items ≡ chunks.old.items }
{
    let slot = match after {
        Some(tag) => chunk_of(chunks, slots, homes, tag),
        None => 0,
    };
    if chunks[slot].members().len() < MOST {
        return slot;
    }
    halve(chunks, spare, slots, homes, keys, slot);
    match after {
        Some(tag) if !chunks[slot].has(tag) => slot + 1,
        _ => slot,
    }
}

// Makes chunks without members, until there are so many chunks in all.
fn fill_spare(
    chunks: &mut Vec<Chunk>,
    spare: &mut Vec<Chunk>,
    slots: &mut Vec<usize>,
    alloc: Global,
    wanted: usize,
) -> Result<(), Refusal>
    requires empty { AreEmpty spare.old.items }
    requires counted { vec_len slots.old ≡ vec_len chunks.old }
    requires room { vec_len chunks.old + vec_len spare.old ≤ vec_capacity chunks.old }
    requires slots_room { vec_len chunks.old + vec_len spare.old ≤ vec_capacity slots.old }
    ensures ok { OnOk result (wanted ≤ vec_len chunks.new + vec_len spare.new) }
    ensures most { vec_len chunks.new + vec_len spare.new ≤ max wanted (vec_len chunks.old + vec_len spare.old) }
    ensures errors { RefusedForMemoryAlone result }
    ensures chunks { chunks.new.items ≡ chunks.old.items }
    ensures spare { vec_len spare.old ≤ vec_len spare.new }
    ensures empty { AreEmpty spare.new.items }
    ensures slots { slots.new.items ≡ slots.old.items }
    ensures room { vec_len chunks.new + vec_len spare.new ≤ vec_capacity chunks.new }
    ensures slots_room { vec_len chunks.new + vec_len spare.new ≤ vec_capacity slots.new }
{
    while chunks.len() + spare.len() < wanted {
        chunks.reserve(spare.len() + 1)?;
        slots.reserve(spare.len() + 1)?;
        spare.push(Chunk::new(alloc)?)?;
    }
    Ok(())
}

impl RankIndex {
    /// No members. Refused `OutOfMemory` alone.
    pub fn new(alloc: Global) -> Result<RankIndex, Refusal>
        ensures ok { IfOk result (λ r. r.items ≡ []) }
        ensures errors { RefusedForMemoryAlone result }
    {
        let mut chunks = Vec::new(alloc);
        chunks.push(Chunk::new(alloc)?)?;
        let mut slots = Vec::new(alloc);
        slots.push(0)?;
        let mut groups = Vec::new(alloc);
        groups.push(0)?;
        let mut lows = Vec::new(alloc);
        lows.push(u64::MAX)?;
        Ok(RankIndex {
            chunks,
            homes: Vec::new(alloc),
            keys: Vec::new(alloc),
            slots,
            spare: Vec::new(alloc),
            groups,
            lows,
            total: 0,
            alloc,
        })
    }

    /// Makes room for n more members, so that there are no more than a ring has: so many insertions take no memory.
    /// Refused `OutOfMemory` alone.
    pub fn reserve(&mut self, n: usize) -> Result<(), Refusal>
        requires most { length self.old.items + n ≤ MAX_TAGS }
        ensures ok { OnOk result (n ≤ self.new.room) }
        ensures errors { RefusedForMemoryAlone result }
        ensures items { self.new.items ≡ self.old.items }
        ensures keys { self.new.keys ≡ self.old.keys }
        ensures room { self.old.room ≤ self.new.room }
    {
        self.homes.reserve(n)?;
        self.keys.reserve(n)?;
        // A member more takes one spare chunk at most, and half full chunks aren't more than all members fill.
        let wanted = ((self.homes.len() + n) / HALF).min(self.chunks.len() + n);
        // One for each chunk is more than enough.
        self.groups.reserve(wanted)?;
        self.lows.reserve(wanted)?;
        fill_spare(
            &mut self.chunks,
            &mut self.spare,
            &mut self.slots,
            self.alloc,
            wanted,
        )
    }

    /// How many members there are.
    pub fn len(&self) -> usize
        ensures { result ≡ length self.now.items }
    {
        self.homes.len()
    }

    /// The sum of all weights.
    pub fn total(&self) -> u64
        ensures total { result ≡ weight_of self.now.items }
        ensures tags { AreTags self.now.items }
    {
        self.total
    }

    /// Puts a member directly after that of another tag, at the front for `None`. A member has that tag, its own
    /// is the next one, and there is room; the sum of all weights stays below 2^64.
    pub fn insert_after(&mut self, after: Option<u64>, tag: u64, weight: u32, key: u64)
        requires after { IfSome after (HasTag self.old.items) }
        requires tag { tag ≡ length self.old.items }
        requires room { 0 < self.old.room }
        requires total { weight_of self.old.items + weight < 2 ^ 64 }
        ensures inserted { IsPushed self.old.items after tag weight self.new.items }
        ensures keyed { (self.new.keys ≡ self.old.keys ++ key ∷ []) × (length self.old.keys ≡ tag) }
        ensures room { self.old.room ≤ self.new.room + 1 }
    {
        let before = self.chunks.len();
        let slot = slot_after(
            &mut self.chunks,
            &mut self.spare,
            &mut self.slots,
            &mut self.homes,
            &self.keys,
            after,
        );
        regroup_if_grown(&mut self.groups, &self.chunks, before);
        find_lows_if_grown(&mut self.lows, &self.chunks, before);
        let chunk = &mut self.chunks[slot];
        chunk.insert_after(after, tag, weight, key);
        self.homes.push_reserved(chunk.home());
        self.keys.push_reserved(key);
        let group = &mut self.groups[slot / GROUP];
        *group += u64::from(weight);
        let low = &mut self.lows[slot / GROUP];
        *low = (*low).min(key);
        self.total += u64::from(weight);
    }

    /// Gives a member another weight. A member has this tag; the sum of all weights stays below 2^64.
    pub fn set_weight(&mut self, tag: u64, weight: u32)
        requires here { HasTag self.old.items tag }
        requires total { weight_of (with_value tag weight self.old.items) < 2 ^ 64 }
        ensures items { self.new.items ≡ with_value tag weight self.old.items }
        ensures keys { self.new.keys ≡ self.old.keys }
        ensures room { self.new.room ≡ self.old.room }
    {
        let slot = chunk_of(&self.chunks, &self.slots, &self.homes, tag);
        let chunk = &mut self.chunks[slot];
        let was = chunk.sum();
        chunk.set_weight(tag, weight);
        let is = chunk.sum();
        let group = &mut self.groups[slot / GROUP];
        *group = *group - was + is;
        self.total = self.total - was + is;
    }

    /// How much weight stands before a member. A member has this tag.
    pub fn rank(&self, tag: u64) -> u64
        requires here { HasTag self.now.items tag }
        ensures rank { IsRank self.now.items tag result }
    {
        let slot = chunk_of(&self.chunks, &self.slots, &self.homes, tag);
        weight_before(&self.groups, &self.chunks, slot) + self.chunks[slot].rank(tag)
    }

    /// The member whose stretch of the sum of all weights holds this position, and how far after the
    /// stretch's start it lies. The position is below that sum.
    pub fn find(&self, pos: u64) -> (u64, u64)
        requires within { pos < weight_of self.now.items }
        ensures found { IsFound self.now.items pos result.0 result.1 }
    {
        let (slot, left) = group_at(&self.groups, &self.chunks, pos);
        found_in(&self.chunks[slot..], left)
    }

    /// Passes the members that follow this one, up to the first whose key isn't greater than this one, and answers the tag of the
    /// last that was passed; the member's own where there is none. A member has this tag. It looks at one key at most for each
    /// group of half-full chunks that the members fill, and beside them at those of two groups' chunks and of two chunks' members.
    pub fn pass(&self, tag: u64, key: u64, peeks: &mut Peeks) -> u64
        requires here { HasTag self.now.items tag }
        ensures passed { IsPassedIn self.now.keys key self.now.items tag result }
        ensures few { peeks.new ≤ peeks.old + (length self.now.items / (GROUP * HALF) + 2 * (GROUP + MOST)) }
    {
        let slot = chunk_of(&self.chunks, &self.slots, &self.homes, tag);
        let (last, stops) = self.chunks[slot].pass_after(tag, &self.keys, key, peeks);
        if stops {
            return last;
        }
        pass_on(
            &self.chunks,
            &self.lows,
            slot + 1,
            last,
            &self.keys,
            key,
            peeks,
        )
    }
}
