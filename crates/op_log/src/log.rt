ghost use Rattle.std.specs.Prelude.{◌≡◌, ◌+◌, ◌≤◌, ◌↔◌, [], ◌∷◌, ◌++◌, length, IfNone, IfSome, IsSome, OnOk};
ghost use Rattle.std.specs.Prelude.{◌≢◌, ◌<◌, All, AllPairs, Contains, IfOk, IsTrue, MatchBool, None as Nothing, Some as Just, slice_get, ◌==◌, if◌then◌else◌};
ghost use Rattle.looks.specs.Refusal.{RefusedForMemoryAlone};
ghost use Rattle.operations.specs.Letters.{letters};
ghost use Rattle.operations.specs.Operation.{Operation, appended_len, Begins};
ghost use Rattle.operations.specs.Spelling.{HasSpelling};
ghost use Rattle.tree_order.specs.Good.{file_before};
ghost use Rattle.tree_order.specs.Tree.{IsInsertOf};
ghost use Rattle.set_laws.specs.Fronts.{front_of, file_len, greatest_stamp};
ghost use Rattle.set_laws.specs.Fronts.{IsHeld, IsHere, AreSites};
ghost use Rattle.set_laws.specs.Sets.{AreIdentified, AreHeldToTheFront, IsInConflict};
ghost use Rattle.op_log.specs.Seen.{HasRoom, HasRoomFor, IsKnownIn, KeepsRoom};
ghost use Rattle.op_log.specs.Logged.{first_sites};

use crate::op_list::OpList;
use crate::site_log::Entry;
use crate::site_tables::SiteTables;
use char_files::{MAX_FILE, Name, SiteNo};
use looks::Refusal;
use operations::{Kind, MAX_INSERT, MAX_STAMP, Op, Typing};
use std::alloc::Global;
use std::marker::Model;

/// The operations that a replica has taken in, each found by its identity at once.
///
/// Of each site they are those from 1 up to its front, each once.
#[derive(Drop)]
pub struct Log {
    // In the order of their taking.
    ops: OpList,
    sites: SiteTables,
    // The greatest stamp.
    stamp: u64,
}

impl Model for Log {
    ghost use Rattle.op_log.specs.Seen.{LogSeen};
    ghost use Rattle.op_log.specs.Tables.{rooms_of};
    ghost use Rattle.op_log.specs.Logged.{AreLogged};

    ghost Value = { LogSeen };

    ghost view = { λ l. record {
      ops = l.ops.items;
      room = l.ops.room;
      runs = l.ops.runs;
      letters = l.ops.letters;
      rooms = rooms_of l.sites;
    } };

    ghost invariant = { λ l. AreLogged l.ops.items l.sites l.stamp };
}

// How many bytes an operation appends to its site's file.
fn appended_bytes(op: &Op) -> u32
    ensures value { result ≡ appended_len op.now.kind }
    ensures few { result ≤ MAX_INSERT }
{
    op.lemma_has_spelling();
    match op.kind() {
        Kind::Insert { bytes, .. } => bytes.len() as u32,
        Kind::Delete { .. } | Kind::Restore { .. } | Kind::ChangeLooks { .. } => 0,
    }
}

// Puts the site of an operation at the end, if that is its first. Refused `OutOfMemory` alone.
fn add_first(sites: &mut Vec<SiteNo>, site: SiteNo, seq: u32) -> Result<(), Refusal>
    ensures ok { OnOk result (sites.new.items ≡ sites.old.items ++ (if seq == 1 then site ∷ [] else [])) }
    ensures errors { RefusedForMemoryAlone result }
{
    if seq == 1 {
        sites.push(site)?;
    }
    Ok(())
}

// The sites of the operations that are the first of theirs. Refused `OutOfMemory` alone.
fn first_sites(ops: &OpList) -> Result<Vec<SiteNo>, Refusal>
    ensures ok { IfOk result (λ sites. sites.items ≡ first_sites ops.now.items) }
    ensures errors { RefusedForMemoryAlone result }
{
    let mut sites = Vec::new(ops.alloc());
    for at in 0..ops.len() {
        let (site, seq) = ops.identity(at);
        add_first(&mut sites, site, seq)?;
    }
    Ok(sites)
}

impl Log {
    /// No operations.
    pub fn new(alloc: Global) -> Log
        ensures { result.ops ≡ [] }
    {
        Log {
            ops: OpList::new(alloc),
            sites: SiteTables::new(alloc),
            stamp: 0,
        }
    }

    /// How many operations there are.
    pub fn len(&self) -> u64
        ensures { result ≡ length self.now.ops }
    {
        self.ops.len() as u64
    }

    /// The operation that was taken in at this place, from 0. Refused `OutOfMemory` alone.
    pub fn op(&self, place: u64) -> Result<Op, Refusal>
        requires { place < length self.now.ops }
        ensures ok { IfOk result (λ op. slice_get self.now.ops place ≡ Just op) }
        ensures errors { RefusedForMemoryAlone result }
    {
        self.ops.get(place as usize)
    }

    /// Whose the operation is that was taken in at this place, and its number. It takes no memory.
    pub fn identity(&self, place: u64) -> (SiteNo, u32)
        requires { place < length self.now.ops }
        ensures { IfSome (slice_get self.now.ops place) (λ op. (result.0 ≡ op.site) × (result.1 ≡ op.seq)) }
    {
        self.ops.identity(place as usize)
    }

    // What is known of the operation of this identity, if it is held.
    fn entry(&self, site: SiteNo, seq: u32) -> Option<Entry>
        ensures here { IsSome result ↔ IsHeld self.now.ops site seq }
        ensures value { IfSome result (λ e. (op : Operation) × (slice_get self.now.ops e.index ≡ Just op)
            × (op.site ≡ site) × (op.seq ≡ seq) × (e.stamp ≡ op.stamp)) }
    {
        self.sites.entry(site, seq)
    }

    /// The place of the operation of this identity, if it is held. It reads one entry of a table.
    pub fn place(&self, site: SiteNo, seq: u32) -> Option<u64>
        ensures here { IsSome result ↔ IsHeld self.now.ops site seq }
        ensures value { IfSome result (λ place. (op : Operation) × (slice_get self.now.ops place ≡ Just op)
            × (op.site ≡ site) × (op.seq ≡ seq)) }
    {
        Some(u64::from(self.entry(site, seq)?.index))
    }

    /// Whether an operation of this identity is held. It reads one entry of a table.
    pub fn holds(&self, site: SiteNo, seq: u32) -> bool
        ensures { IsTrue result ↔ IsHeld self.now.ops site seq }
    {
        self.entry(site, seq).is_some()
    }

    /// The stamp of the operation of this identity, which is held.
    pub fn op_stamp(&self, site: SiteNo, seq: u32) -> u64
        requires { IsHeld self.now.ops site seq }
        ensures { (p : Operation) → Contains self.now.ops p → p.site ≡ site → p.seq ≡ seq → result ≡ p.stamp }
    {
        self.lemma_are_held_to_the_front();
        match self.entry(site, seq) {
            Some(entry) => entry.stamp,
            None => unreachable!(),
        }
    }

    /// Whether no other operation is held under this one's identity. It takes no memory.
    pub fn agrees_on(&self, op: &Op) -> bool
        ensures { MatchBool result (AreIdentified (self.now.ops ++ op.now ∷ []))
            (IsInConflict self.now.ops op.now) }
    {
        self.lemma_are_held_to_the_front();
        op.lemma_has_spelling();
        match self.entry(op.site(), op.seq()) {
            Some(entry) => self.ops.is_at(entry.index as usize, op),
            None => true,
        }
    }

    // The same of the operation at a place of another log.
    fn agrees_at(&self, other: &Log, place: usize) -> bool
        requires { place < length other.now.ops }
        ensures { (op : Operation) → slice_get other.now.ops place ≡ Just op
            → MatchBool result (AreIdentified (self.now.ops ++ op ∷ [])) (IsInConflict self.now.ops op) }
    {
        self.lemma_are_held_to_the_front();
        other.lemma_are_held_to_the_front();
        let (site, seq) = other.ops.identity(place);
        match self.entry(site, seq) {
            Some(entry) => self.ops.is_same_at(entry.index as usize, &other.ops, place),
            None => true,
        }
    }

    /// Whether no identity is held with two operations, here and there. It takes no memory.
    pub fn agrees_with(&self, other: &Log) -> bool
        ensures { MatchBool result (AreIdentified (self.now.ops ++ other.now.ops))
            ((op : Operation) × Contains other.now.ops op × IsInConflict self.now.ops op) }
    {
        self.lemma_are_held_to_the_front();
        other.lemma_are_held_to_the_front();
        for place in 0..other.ops.len() {
            if !self.agrees_at(other, place) {
                return false;
            }
        }
        true
    }

    /// The front of a site: the greatest seq of its operations, 0 for none.
    pub fn front(&self, site: SiteNo) -> u32
        ensures { result ≡ front_of self.now.ops site }
    {
        self.sites.front(site)
    }

    /// How long a site's file is by what its Inserts append, at most 2^24.
    pub fn file_len(&self, site: SiteNo) -> u32
        ensures value { result ≡ file_len self.now.ops site }
        ensures bound { result ≤ MAX_FILE }
    {
        self.sites.file_len(site)
    }

    /// How long its site's file is before the operation that was taken in at this place. It reads one entry of a table.
    pub fn file_before(&self, place: u64) -> u32
        requires { place < length self.now.ops }
        ensures { IfSome (slice_get self.now.ops place) (λ op. result ≡ file_before self.now.ops op.site op.seq) }
    {
        let (site, seq) = self.identity(place);
        match self.sites.entry(site, seq.saturating_sub(1)) {
            Some(entry) => entry.end,
            None => 0,
        }
    }

    /// The greatest stamp of all operations, 0 for none.
    pub fn stamp(&self) -> u64
        ensures value { result ≡ greatest_stamp self.now.ops }
        ensures bound { result ≤ MAX_STAMP }
    {
        self.stamp
    }

    /// The stamp of the Insert of a name that is here. The time grows as the logarithm of how many
    /// operations the name's site has.
    pub fn name_stamp(&self, name: Name) -> u64
        requires { IsHere self.now.ops name }
        ensures found { (i : Operation) × IsInsertOf self.now.ops name i × (result ≡ i.stamp) }
        ensures only { (i : Operation) → IsInsertOf self.now.ops name i → result ≡ i.stamp }
    {
        self.sites.entry_of(name).stamp
    }

    /// The sites that have operations, ascending. The time grows with the number of operations. Refused
    /// `OutOfMemory` alone.
    pub fn sites(&self) -> Result<Vec<SiteNo>, Refusal>
        ensures ok { IfOk result (λ sites. AreSites self.now.ops sites.items) }
        ensures errors { RefusedForMemoryAlone result }
    {
        let mut sites = first_sites(&self.ops)?;
        sites.sort_unstable_by_key(|site| site.get());
        Ok(sites)
    }

    /// How many sites are known; each that has operations is.
    pub fn sites_len(&self) -> usize
        ensures { result ≡ length self.now.rooms }
    {
        self.sites.len()
    }

    /// The site at this place, from 0, among those that are known.
    pub fn site_at(&self, place: usize) -> Option<SiteNo>
        ensures some { IfSome (slice_get self.now.rooms place) (λ known. 0 < known.0 → result ≡ Just known.0) }
        ensures none { IfNone (slice_get self.now.rooms place) (result ≡ Nothing) }
    {
        self.sites.site_at(place)
    }

    /// A law: the site of each operation is known. A proof gets it by calling this, at no cost.
    pub fn lemma_sites_are_known(&self)
        ensures { (op : Operation) → Contains self.now.ops op → IsKnownIn self.now.rooms op.site }
    {
        let _ = &self.ops;
    }

    /// A law: each operation has a message. A proof gets it by calling this, at no cost.
    pub fn lemma_have_spelling(&self)
        ensures { All HasSpelling self.now.ops }
    {
        self.ops.lemma_have_spelling();
    }

    /// A law: of each site the operations are those from 1 up to its front, each once. A proof gets it by
    /// calling this, at no cost.
    pub fn lemma_are_held_to_the_front(&self)
        ensures held { AreHeldToTheFront self.now.ops }
        ensures identified { AreIdentified self.now.ops }
        ensures once { AllPairs (λ a b. a ≢ b) self.now.ops }
    {
        let _ = &self.ops;
    }

    /// Makes room for one operation more of this site: the next push of one takes no memory.
    ///
    /// Refused `OutOfMemory` alone, which is also where there are 2^32 operations. The operations and the room that was
    /// there stay in either case.
    pub fn reserve(&mut self, site: SiteNo) -> Result<(), Refusal>
        ensures ok { OnOk result (HasRoom self.new site) }
        ensures errors { RefusedForMemoryAlone result }
        ensures ops { self.new.ops ≡ self.old.ops }
        ensures keeps { KeepsRoom self.old self.new }
    {
        self.ops.reserve()?;
        self.sites.reserve(site)
    }

    /// Takes in its site's next operation, for which there is room. An Insert begins where its site's file
    /// ends.
    pub fn push(&mut self, op: Op)
        requires reserved { HasRoom self.old op.site }
        requires next { op.seq ≡ front_of self.old.ops op.site + 1 }
        requires begins { Begins op.kind (file_len self.old.ops op.site) }
        ensures { self.new.ops ≡ self.old.ops ++ op ∷ [] }
    {
        op.lemma_has_spelling();
        let site = op.site();
        let entry = Entry {
            stamp: op.stamp(),
            end: self.sites.file_len(site) + appended_bytes(&op),
            index: self.ops.len() as u32,
        };
        self.ops.push(op);
        self.sites.push(site, entry);
        self.stamp = entry.stamp.max(self.stamp);
    }

    /// Makes room for so many letters more that this site types one after the other: pushing as many takes no memory.
    ///
    /// Refused `OutOfMemory` alone, which is also where there would be more than 2^32 operations. The operations and the room that
    /// was there stay in either case.
    pub fn reserve_letters(&mut self, site: SiteNo, len: usize) -> Result<(), Refusal>
        ensures ok { OnOk result (HasRoomFor self.new site len) }
        ensures errors { RefusedForMemoryAlone result }
        ensures ops { self.new.ops ≡ self.old.ops }
        ensures keeps { KeepsRoom self.old self.new }
    {
        self.ops.reserve_letters(len)?;
        self.sites.reserve_many(site, len)
    }

    /// Takes in letters of a site, its next operations, for which there is room. The first one begins where its site's file ends.
    pub fn push_letters(&mut self, typing: &Typing, bytes: &[u8])
        requires reserved { HasRoomFor self.old typing.now.site (length bytes.now) }
        requires next { typing.now.seq ≡ front_of self.old.ops typing.now.site + 1 }
        requires begins { typing.now.at ≡ file_len self.old.ops typing.now.site }
        requires spelled { All HasSpelling (letters typing.now bytes.now) }
        ensures { self.new.ops ≡ self.old.ops ++ letters typing.now bytes.now }
    {
        if bytes.is_empty() {
            return;
        }
        let index = self.ops.len() as u32;
        let first = Entry {
            stamp: typing.stamp,
            end: typing.at + 1,
            index,
        };
        self.ops.push_letters(typing, bytes);
        self.sites.push_letters(typing.site, first, bytes.len());
        self.stamp = (typing.stamp + (bytes.len() as u64 - 1)).max(self.stamp);
    }
}
