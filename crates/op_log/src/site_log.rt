ghost use Rattle.std.specs.Prelude.{◌≡◌, ◌+◌, ◌-◌, ◌<◌, ◌≤◌, ◌^◌, [], ◌∷◌, ◌++◌, length, slice_get, OnOk};
ghost use Rattle.std.specs.Prelude.{None as Nothing};
ghost use Rattle.std.specs.Option.{option_map};
ghost use Rattle.std.specs.List.Sorted.{IsNonDecreasingBy};
ghost use Rattle.looks.specs.Refusal.{RefusedForMemoryAlone};
ghost use Rattle.op_log.specs.Tables.{entries_end, letter_entries, EndBy, EndsPast, IsFirstPast};

use char_files::MAX_FILE;
use looks::Refusal;
use std::alloc::Global;
use std::marker::Model;

// An operation's stamp, where its site's file ends after it, and where it stands in the list of all, which has at most
// 2^32.
#[derive(Clone, Copy)]
pub(crate) struct Entry {
    pub(crate) stamp: u64,
    pub(crate) end: u32,
    pub(crate) index: u32,
}

const _: () = prove!(size_of::<Entry>() == 16);

// What is known of a site: its operations by their numbers, from 1 on.
#[derive(Drop)]
pub(crate) struct SiteLog {
    entries: Vec<Entry>,
}

impl Model for SiteLog {
    ghost use Rattle.std.specs.Prelude.{◌<◌, ◌≤◌, ◌-◌, ◌^◌, vec_len, vec_capacity};
    ghost use Rattle.char_files.specs.declared.TheConstants.{MAX_FILE};
    ghost use Rattle.op_log.specs.Tables.{SiteSeen, entries_end};

    ghost Value = { SiteSeen };

    ghost view = { λ l. record {
      entries = l.entries.items;
      room = vec_capacity l.entries - vec_len l.entries;
    } };

    ghost invariant = { λ l. (vec_len l.entries < 2 ^ 32) × (entries_end l.entries.items ≤ MAX_FILE) };
}

// Where to look first for the entry that ends past this offset: in proportion, as if all operations appended alike.
fn guess(entries: &[Entry], off: u32, end: u32) -> usize
    requires some { 0 < length entries.now }
    requires end { 0 < end }
    ensures { result < length entries.now }
{
    let last = entries.len() - 1;
    let scaled = u64::from(off).saturating_mul(entries.len() as u64) / u64::from(end);
    last.min(scaled as usize)
}

// A slot up to which all entries end by this offset: this one, or one before it. Each step is twice the one before.
fn low_index(entries: &[Entry], from: usize, off: u32) -> usize
    requires rising { IsNonDecreasingBy (λ e. e.end) entries.now }
    requires within { from < length entries.now }
    ensures low { EndBy entries.now off result }
    ensures within { result ≤ from }
{
    let mut slot = from;
    let mut step = 1;
    while 0 < slot && off < entries[slot - 1].end {
        slot = slot.saturating_sub(step);
        step = step.saturating_mul(2);
    }
    slot
}

// The slot of an entry that ends past this offset: this one, or one after it. Each step is twice the one before.
fn high_index(entries: &[Entry], from: usize, off: u32) -> usize
    requires past { off < entries_end entries.now }
    requires within { from < length entries.now }
    ensures high { EndsPast entries.now off result }
    ensures within { from ≤ result }
{
    let last = entries.len() - 1;
    let mut slot = from;
    let mut step = 1;
    while entries[slot].end <= off {
        slot = last.min(slot.saturating_add(step));
        step = step.saturating_mul(2);
    }
    slot
}

impl SiteLog {
    // Nothing is known.
    pub(crate) fn new(alloc: Global) -> SiteLog
        ensures entries { result.entries ≡ [] }
    {
        SiteLog {
            entries: Vec::new(alloc),
        }
    }

    // The number of the site's last operation.
    pub(crate) fn front(&self) -> u32
        ensures { result ≡ length self.now.entries }
    {
        self.entries.len() as u32
    }

    // How long the site's file is.
    pub(crate) fn file_len(&self) -> u32
        ensures value { result ≡ entries_end self.now.entries }
        ensures bound { result ≤ MAX_FILE }
    {
        match self.entries.last() {
            Some(entry) => entry.end,
            None => 0,
        }
    }

    // What is known of the operation of this number.
    pub(crate) fn entry(&self, seq: u32) -> Option<Entry>
        ensures none { seq ≡ 0 → result ≡ Nothing }
        ensures value { 0 < seq → result ≡ slice_get self.now.entries (seq - 1) }
    {
        if seq == 0 {
            return None;
        }
        Some(*self.entries.get(seq as usize - 1)?)
    }

    // The first operation after which the site's file is longer than this.
    pub(crate) fn entry_past(&self, off: u32) -> Entry
        requires rising { IsNonDecreasingBy (λ e. e.end) self.now.entries }
        requires within { off < entries_end self.now.entries }
        ensures { IsFirstPast self.now.entries off result }
    {
        let entries = self.entries.as_slice();
        let from = low_index(entries, guess(entries, off, self.file_len()), off);
        let to = high_index(entries, from, off);
        let after = entries[from..to].partition_point(|entry| entry.end <= off);
        entries[from + after]
    }

    // Makes room for one operation more. Refused `OutOfMemory` alone.
    pub(crate) fn reserve(&mut self) -> Result<(), Refusal>
        ensures ok { OnOk result (0 < self.new.room) }
        ensures errors { RefusedForMemoryAlone result }
        ensures entries { self.new.entries ≡ self.old.entries }
        ensures room { self.old.room ≤ self.new.room }
    {
        self.reserve_many(1)
    }

    // Makes room for so many operations more. Refused `OutOfMemory` alone.
    pub(crate) fn reserve_many(&mut self, len: usize) -> Result<(), Refusal>
        ensures ok { OnOk result (len ≤ self.new.room) }
        ensures errors { RefusedForMemoryAlone result }
        ensures entries { self.new.entries ≡ self.old.entries }
        ensures room { self.old.room ≤ self.new.room }
    {
        self.entries.reserve(len)?;
        Ok(())
    }

    // Enters the next operation.
    pub(crate) fn push(&mut self, entry: Entry)
        requires room { 0 < self.old.room }
        requires few { length self.old.entries + 1 < 2 ^ 32 }
        requires end { entry.end ≤ MAX_FILE }
        ensures entries { self.new.entries ≡ self.old.entries ++ entry ∷ [] }
        ensures room { self.new.room + 1 ≡ self.old.room }
    {
        self.entries.push_reserved(entry);
    }

    // Enters so many letters, each of which has the number, the stamp and the place after the one before. This is the first one's
    // entry.
    pub(crate) fn push_letters(&mut self, first: Entry, len: usize)
        requires some { 0 < len }
        requires room { len ≤ self.old.room }
        requires few { length self.old.entries + len < 2 ^ 32 }
        requires stamp { first.stamp + len ≤ 2 ^ 64 }
        requires end { first.end + len ≤ MAX_FILE + 1 }
        requires index { first.index + len ≤ 2 ^ 32 }
        ensures entries { self.new.entries ≡ self.old.entries ++ letter_entries first len }
    {
        for k in 0..len {
            self.push(Entry {
                stamp: first.stamp + k as u64,
                end: first.end + k as u32,
                index: first.index + k as u32,
            });
        }
    }
}
