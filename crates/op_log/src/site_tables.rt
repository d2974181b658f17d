ghost use Rattle.std.specs.Prelude.{◌≡◌, ◌≢◌, ℕ, ◌+◌, ◌-◌, ◌<◌, ◌≤◌, ◌^◌, [], ◌∷◌, ◌++◌, length};
ghost use Rattle.std.specs.Prelude.{slice_get, IfNone, IfSome, OnOk, None as Nothing, Some as Just};
ghost use Rattle.std.specs.List.Sorted.{IsNonDecreasingBy};
ghost use Rattle.looks.specs.Refusal.{RefusedForMemoryAlone};
ghost use Rattle.op_log.specs.Tables.{entries_end, table_front, letter_entries, log_table, IsFirstPast};

use crate::site_log::{Entry, SiteLog};
use char_files::{MAX_FILE, Name, SiteMap, SiteNo};
use looks::Refusal;
use std::alloc::Global;
use std::marker::Model;

// A table for each site.
#[derive(Drop)]
pub(crate) struct SiteTables {
    sites: SiteMap<SiteLog>,
    alloc: Global,
}

impl Model for SiteTables {
    ghost use Rattle.op_log.specs.Tables.{LogTables};

    ghost Value = { LogTables };

    ghost view = { λ t. t.sites };
}

impl SiteTables {
    // No site is known.
    pub(crate) fn new(alloc: Global) -> SiteTables
        ensures { result ≡ [] }
    {
        SiteTables {
            sites: SiteMap::new(alloc),
            alloc,
        }
    }

    // How many sites are known.
    pub(crate) fn len(&self) -> usize
        ensures { result ≡ length self.now }
    {
        self.sites.len()
    }

    // The site at this place among those that are known.
    pub(crate) fn site_at(&self, place: usize) -> Option<SiteNo>
        ensures some { IfSome (slice_get self.now place) (λ t. 0 < t.0 → result ≡ Just t.0) }
        ensures none { IfNone (slice_get self.now place) (result ≡ Nothing) }
    {
        self.sites.site_at(place)
    }

    // The number of the site's last operation; 0 where there is none.
    pub(crate) fn front(&self, site: SiteNo) -> u32
        ensures { result ≡ table_front self.now site }
    {
        match self.sites.get(site) {
            Some(table) => table.front(),
            None => 0,
        }
    }

    // How long the site's file is.
    pub(crate) fn file_len(&self, site: SiteNo) -> u32
        ensures value { result ≡ entries_end (log_table self.now site).entries }
        ensures bound { result ≤ MAX_FILE }
    {
        match self.sites.get(site) {
            Some(table) => table.file_len(),
            None => 0,
        }
    }

    // What is known of the site's operation of this number.
    pub(crate) fn entry(&self, site: SiteNo, seq: u32) -> Option<Entry>
        ensures none { seq ≡ 0 → result ≡ Nothing }
        ensures value { 0 < seq → result ≡ slice_get (log_table self.now site).entries (seq - 1) }
    {
        self.sites.get(site)?.entry(seq)
    }

    // The first operation of the name's site after which that one's file has the name.
    pub(crate) fn entry_of(&self, name: Name) -> Entry
        requires rising { IsNonDecreasingBy (λ e. e.end) (log_table self.now name.site).entries }
        requires within { name.off < entries_end (log_table self.now name.site).entries }
        ensures { IsFirstPast (log_table self.now name.site).entries name.off result }
    {
        match self.sites.get(name.site()) {
            Some(table) => table.entry_past(name.off()),
            None => unreachable!(),
        }
    }

    // Makes room for one operation more of this site. Refused `OutOfMemory` alone. What is known stays in
    // either case.
    pub(crate) fn reserve(&mut self, site: SiteNo) -> Result<(), Refusal>
        ensures ok { OnOk result (0 < (log_table self.new site).room) }
        ensures errors { RefusedForMemoryAlone result }
        ensures entries { (other : ℕ) → (log_table self.new other).entries ≡ (log_table self.old other).entries }
        ensures rooms { (other : ℕ) → (log_table self.old other).room ≤ (log_table self.new other).room }
    {
        self.reserve_many(site, 1)
    }

    // The same for so many operations.
    pub(crate) fn reserve_many(&mut self, site: SiteNo, len: usize) -> Result<(), Refusal>
        ensures ok { OnOk result (len ≤ (log_table self.new site).room) }
        ensures errors { RefusedForMemoryAlone result }
        ensures entries { (other : ℕ) → (log_table self.new other).entries ≡ (log_table self.old other).entries }
        ensures rooms { (other : ℕ) → (log_table self.old other).room ≤ (log_table self.new other).room }
    {
        if let Some(table) = self.sites.get_mut(site) {
            return table.reserve_many(len);
        }
        let mut table = SiteLog::new(self.alloc);
        table.reserve_many(len)?;
        self.sites.insert(site, table)?;
        Ok(())
    }

    // Enters the site's next operation, for which there is room.
    pub(crate) fn push(&mut self, site: SiteNo, entry: Entry)
        requires room { 0 < (log_table self.old site).room }
        requires few { length (log_table self.old site).entries + 1 < 2 ^ 32 }
        requires end { entry.end ≤ MAX_FILE }
        ensures entries { (log_table self.new site).entries ≡ (log_table self.old site).entries ++ entry ∷ [] }
        ensures others { (other : ℕ) → other ≢ site → log_table self.new other ≡ log_table self.old other }
    {
        match self.sites.get_mut(site) {
            Some(table) => table.push(entry),
            None => unreachable!(),
        }
    }

    // Enters letters of the site, its next operations, for which there is room. This is the first one's entry.
    pub(crate) fn push_letters(&mut self, site: SiteNo, first: Entry, len: usize)
        requires some { 0 < len }
        requires room { len ≤ (log_table self.old site).room }
        requires few { length (log_table self.old site).entries + len < 2 ^ 32 }
        requires stamp { first.stamp + len ≤ 2 ^ 64 }
        requires end { first.end + len ≤ MAX_FILE + 1 }
        requires index { first.index + len ≤ 2 ^ 32 }
        ensures entries { (log_table self.new site).entries ≡ (log_table self.old site).entries ++ letter_entries first len }
        ensures others { (other : ℕ) → other ≢ site → log_table self.new other ≡ log_table self.old other }
    {
        match self.sites.get_mut(site) {
            Some(table) => table.push_letters(first, len),
            None => unreachable!(),
        }
    }
}
