//! A stretch of the list that is looked through as a whole.

ghost use Rattle.std.specs.Prelude.{◌≡◌, ℕ, ◌+◌, ◌-◌, ◌<◌, ◌≤◌, ◌^◌, ◌↔◌, ◌==◌, List, [], ◌∷◌, ◌++◌, length, min, take, drop};
ghost use Rattle.std.specs.Prelude.{IfOk, IfSome, IsSome, IsTrue};
ghost use Rattle.looks.specs.Refusal.{RefusedForMemoryAlone};
ghost use Rattle.piece_raw.specs.Ring.{HasTag, IsPushed, last_tag, with_value, tags};
ghost use Rattle.piece_raw.specs.declared.TheConstants.{MAX_TAGS};
ghost use Rattle.std.specs.List.{IsDistinct};
ghost use Rattle.rank_index.specs.Keyed.{least_of, AreAbove, IsPassed, last_tag_from};
ghost use Rattle.rank_index.specs.Slots.{IsSlot};
ghost use Rattle.rank_index.specs.Ranked.{weight_of, IsRank, IsFound};

use crate::keys::{last_of, least_in, pass};
use crate::peeks::Peeks;
use looks::Refusal;
use std::alloc::Global;
use std::marker::Model;

// How many members a chunk has at most.
pub(crate) const MOST: usize = 128;

// Half of it.
pub(crate) const HALF: usize = 64;

// Up to `MOST` neighbouring members, with the sum of their weights and the least of their keys.
#[derive(Drop)]
pub(crate) struct Chunk {
    // A tag and a weight in eight bytes: a look along a chunk takes as long as its members are in memory.
    members: Vec<(u32, u32)>,
    sum: u64,
    home: u32,
    // What it was told last: the least key of its members.
    least: u64,
}

impl Model for Chunk {
    ghost use Rattle.std.specs.Prelude.{◌≡◌, ◌<◌, ◌≤◌, ◌^◌, vec_len, vec_capacity};
    ghost use Rattle.rank_index.specs.Chunks.{ChunkSeen};
    ghost use Rattle.rank_index.specs.declared.chunk.TheConstants.{MOST};
    ghost use Rattle.rank_index.specs.Ranked.{weight_of};

    ghost Value = { ChunkSeen };

    ghost view = { λ c. record { members = c.members.items; home = c.home; least = c.least } };

    ghost invariant = { λ c. (c.sum ≡ weight_of c.members.items) × (weight_of c.members.items < 2 ^ 64)
        × (vec_len c.members ≤ MOST) × (MOST ≤ vec_capacity c.members) };
}

// At which slot a member of this tag stands, if one is here. It looks from the back, where one who types on puts members.
fn slot_in(members: &[(u32, u32)], tag: u64) -> Option<usize>
    ensures slot { IfSome result (IsSlot members.now tag) }
    ensures here { IsSome result ↔ HasTag members.now tag }
{
    let mut left = members.len();
    while 0 < left {
        left -= 1;
        if u64::from(members[left].0) == tag {
            return Some(left);
        }
    }
    None
}

impl Chunk {
    // No members, and memory for all that come. Its home is 0 until it is given another one.
    pub(crate) fn new(alloc: Global) -> Result<Chunk, Refusal>
        ensures ok { IfOk result (λ c. c ≡ record { members = []; home = 0; least = 2 ^ 64 - 1 }) }
        ensures errors { RefusedForMemoryAlone result }
    {
        Ok(Chunk {
            members: Vec::with_capacity(alloc, MOST)?,
            sum: 0,
            home: 0,
            least: u64::MAX,
        })
    }

    // The number under which its members are entered.
    pub(crate) fn home(&self) -> u32
        ensures { result ≡ self.now.home }
    {
        self.home
    }

    // Gives it another home.
    pub(crate) fn move_to(&mut self, home: u32)
        ensures members { self.new.members ≡ self.old.members }
        ensures home { self.new.home ≡ home }
        ensures least { self.new.least ≡ self.old.least }
    {
        self.home = home;
    }

    // Finds the least key anew.
    fn find_least(&mut self, keys: &[u64])
        ensures members { self.new.members ≡ self.old.members }
        ensures home { self.new.home ≡ self.old.home }
        ensures least { self.new.least ≡ least_of keys.now self.new.members }
    {
        self.least = least_in(keys, &self.members);
    }

    pub(crate) fn sum(&self) -> u64
        ensures { result ≡ weight_of self.now.members }
    {
        self.sum
    }

    pub(crate) fn members(&self) -> &[(u32, u32)]
        ensures members { result.now ≡ self.now.members }
        ensures most { length self.now.members ≤ MOST }
    {
        &self.members
    }

    // At which slot the member of this tag stands, if it is here.
    fn slot_of(&self, tag: u64) -> Option<usize>
        ensures slot { IfSome result (IsSlot self.now.members tag) }
        ensures here { IsSome result ↔ HasTag self.now.members tag }
    {
        slot_in(self.members(), tag)
    }

    pub(crate) fn has(&self, tag: u64) -> bool
        ensures { IsTrue result ↔ HasTag self.now.members tag }
    {
        self.slot_of(tag).is_some()
    }

    // How much stands before the member of this tag.
    pub(crate) fn rank(&self, tag: u64) -> u64
        requires { HasTag self.now.members tag }
        ensures { IsRank self.now.members tag result }
    {
        let mut before = 0;
        for member in &self.members {
            if u64::from(member.0) == tag {
                return before;
            }
            before += u64::from(member.1);
        }
        unreachable!()
    }

    // The member whose stretch of the sum holds this position, and how far inside.
    pub(crate) fn find(&self, pos: u64) -> (u64, u64)
        requires { pos < weight_of self.now.members }
        ensures { IsFound self.now.members pos result.0 result.1 }
    {
        let mut left = pos;
        for member in &self.members {
            let weight = u64::from(member.1);
            if left < weight {
                return (u64::from(member.0), left);
            }
            left -= weight;
        }
        unreachable!()
    }

    // The slot directly after the member of a tag, the front for `None`.
    fn slot_after(&self, after: Option<u64>) -> usize
        requires after { IfSome after (HasTag self.now.members) }
        requires room { length self.now.members < MOST }
        ensures within { result ≤ length self.now.members }
        ensures last { last_tag (take result self.now.members) ≡ after }
    {
        match after {
            Some(tag) => match self.slot_of(tag) {
                Some(slot) => slot + 1,
                None => unreachable!(),
            },
            None => 0,
        }
    }

    // Puts a member directly after that of a tag, at the front for `None`.
    pub(crate) fn insert_after(&mut self, after: Option<u64>, tag: u64, weight: u32, key: u64)
        requires after { IfSome after (HasTag self.old.members) }
        requires tag { tag < MAX_TAGS }
        requires room { length self.old.members < MOST }
        requires total { weight_of self.old.members + weight < 2 ^ 64 }
        ensures inserted { IsPushed self.old.members after tag weight self.new.members }
        ensures home { self.new.home ≡ self.old.home }
        ensures least { self.new.least ≡ min self.old.least key }
    {
        let slot = self.slot_after(after);
        self.least = self.least.min(key);
        match self.members.insert(slot, (tag as u32, weight)) {
            Ok(()) => self.sum += u64::from(weight),
            Err(_) => unreachable!(),
        }
    }

    // Gives the member of this tag another weight.
    pub(crate) fn set_weight(&mut self, tag: u64, weight: u32)
        requires here { HasTag self.old.members tag }
        requires once { IsDistinct ◌==◌ (tags self.old.members) }
        requires total { weight_of (with_value tag weight self.old.members) < 2 ^ 64 }
        ensures members { self.new.members ≡ with_value tag weight self.old.members }
        ensures home { self.new.home ≡ self.old.home }
        ensures least { self.new.least ≡ self.old.least }
    {
        match self.slot_of(tag) {
            Some(slot) => {
                let others = self.sum - u64::from(self.members[slot].1);
                self.members[slot].1 = weight;
                self.sum = others + u64::from(weight);
            }
            None => unreachable!(),
        }
    }

    // The least key of its members.
    pub(crate) fn least(&self) -> u64
        ensures { result ≡ self.now.least }
    {
        self.least
    }

    // Passes its members up to the first whose key isn't greater, after a member of this tag. It answers the tag of the last that was
    // passed, and whether there is such a first one.
    pub(crate) fn pass_from(
        &self,
        tag: u64,
        keys: &[u64],
        key: u64,
        peeks: &mut Peeks,
    ) -> (u64, bool)
        requires least { self.now.least ≡ least_of keys.now self.now.members }
        ensures stops { IsTrue result.1 → (more : List (ℕ × ℕ)) → IsPassed keys.now key (self.now.members ++ more) tag result.0 }
        ensures all { ¬ IsTrue result.1 → AreAbove keys.now key self.now.members × (result.0 ≡ last_tag_from tag self.now.members) }
        ensures above { ¬ IsTrue result.1 → 0 < length self.now.members → key < self.now.least }
        ensures one { ¬ IsTrue result.1 → 0 < length self.now.members → peeks.new ≤ peeks.old + 1 }
        ensures few { peeks.new ≤ peeks.old + (1 + MOST) }
    {
        let members = self.members();
        if peeks.is_above(self.least(), key) {
            return (last_of(members, members.len(), tag), false);
        }
        pass(keys, members, key, tag, peeks)
    }

    // The same of its members after that of this tag.
    pub(crate) fn pass_after(
        &self,
        tag: u64,
        keys: &[u64],
        key: u64,
        peeks: &mut Peeks,
    ) -> (u64, bool)
        requires here { HasTag self.now.members tag }
        ensures passed { (before : List (ℕ × ℕ)) × (weight : ℕ) × (follow : List (ℕ × ℕ))
            × (self.now.members ≡ before ++ (tag, weight) ∷ follow)
            × (IsTrue result.1 → (more : List (ℕ × ℕ)) → IsPassed keys.now key (follow ++ more) tag result.0)
            × (¬ IsTrue result.1 → AreAbove keys.now key follow × (result.0 ≡ last_tag_from tag follow)) }
        ensures few { peeks.new ≤ peeks.old + MOST }
    {
        let members = self.members();
        match self.slot_of(tag) {
            Some(slot) => pass(keys, &members[slot + 1..], key, tag, peeks),
            None => unreachable!(),
        }
    }

    // The tag of its last member, this one where it has none.
    pub(crate) fn last_tag(&self, tag: u64) -> u64
        ensures { result ≡ last_tag_from tag self.now.members }
    {
        let members = self.members();
        last_of(members, members.len(), tag)
    }

    // Puts a member at the end.
    fn push(&mut self, member: (u32, u32))
        requires room { length self.old.members < MOST }
        requires total { weight_of self.old.members + member.1 < 2 ^ 64 }
        ensures members { self.new.members ≡ self.old.members ++ member ∷ [] }
        ensures home { self.new.home ≡ self.old.home }
        ensures least { self.new.least ≡ self.old.least }
    {
        self.members.push_reserved(member);
        self.sum += u64::from(member.1);
    }

    // Gives its second half to a chunk that has no members. Each has the least of its own keys then.
    pub(crate) fn halve(&mut self, rest: &mut Chunk, keys: &[u64])
        requires full { length self.old.members ≡ MOST }
        requires empty { rest.old.members ≡ [] }
        ensures parts { self.old.members ≡ self.new.members ++ rest.new.members }
        ensures halves { (length self.new.members ≡ HALF) × (length rest.new.members ≡ HALF) }
        ensures homes { (self.new.home ≡ self.old.home) × (rest.new.home ≡ rest.old.home) }
        ensures least { self.new.least ≡ least_of keys.now self.new.members }
        ensures rest_least { rest.new.least ≡ least_of keys.now rest.new.members }
    {
        for member in &self.members[HALF..] {
            rest.push(*member);
        }
        self.members.truncate(HALF);
        self.sum -= rest.sum();
        self.find_least(keys);
        rest.find_least(keys);
    }
}
