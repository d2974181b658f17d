ghost use Rattle.std.specs.Prelude.{◌≡◌, ◌≢◌, ℕ, ◌+◌, ◌<◌, ◌≤◌, [], Some as Just, length, replicate, OnOk};
ghost use Rattle.looks.specs.Refusal.{RefusedForMemoryAlone};
ghost use Rattle.piece_list.specs.Tables.{tag_in, table_of, tag_at, written};
ghost use Rattle.piece_list.specs.declared.tags.TheConstants.{NO_TAG};

use char_files::{Name, SiteMap, SiteNo};
use looks::Refusal;
use std::alloc::Global;
use std::marker::Model;

// What stands where no piece holds a byte.
const NO_TAG: u32 = u32::MAX;

// How many entries are written one by one.
const FEW: usize = 32;

// Beside each byte of a site's file, the number of the piece that holds it, in four bytes.
#[derive(Drop)]
struct SiteTags {
    tags: Vec<u32>,
}

impl Model for SiteTags {
    ghost use Rattle.std.specs.Prelude.{ℕ, List, Option, map};
    ghost use Rattle.piece_list.specs.Tables.{tag_of};

    ghost Value = { List (Option ℕ) };

    ghost view = { λ t. map tag_of t.tags.items };
}

// Writes this tag in all entries: in a few one by one, and then what is written is copied to as many again, a block of memory at a time.
fn spread(tags: &mut [u32], tag: u32)
    ensures { tags.new ≡ replicate (length tags.old) tag }
{
    if tags.len() <= FEW {
        tags.fill(tag);
        return;
    }
    let half = tags.len() / 2;
    let (front, back) = tags.split_at_mut(tags.len() - half);
    spread(front, tag);
    back.copy_from_slice(&front[..half]);
}

// Writes this tag in the entries from an offset on.
fn overwrite(tags: &mut Vec<u32>, off: usize, len: usize, tag: u32)
    requires { off + len ≤ length tags.old.items }
    ensures { tags.new.items ≡ written tags.old.items off len tag }
{
    spread(&mut tags[off..off + len], tag);
}

impl SiteTags {
    fn get(&self, off: u32) -> Option<u64>
        ensures { result ≡ tag_in self.now off }
    {
        match self.tags.get(off as usize) {
            Some(tag) if *tag != NO_TAG => Some(u64::from(*tag)),
            _ => None,
        }
    }

    // Makes the table so long, at least. What it says stays, also where memory is refused.
    #[tactic(auto, using(crate::proofs::Tables::pushed_none))]
    fn grow(&mut self, len: u32) -> Result<(), Refusal>
        ensures ok { OnOk result (len ≤ length self.new) }
        ensures errors { RefusedForMemoryAlone result }
        ensures same { (off : ℕ) → tag_in self.new off ≡ tag_in self.old off }
    {
        for _ in self.tags.len()..len as usize {
            self.tags.push(NO_TAG)?;
        }
        Ok(())
    }

    // Enters a piece.
    fn fill(&mut self, off: u32, len: u32, tag: u64)
        requires within { off + len ≤ length self.old }
        requires tag { tag < NO_TAG }
        ensures inside { (at : ℕ) → off ≤ at → at < off + len → tag_in self.new at ≡ Just tag }
        ensures before { (at : ℕ) → at < off → tag_in self.new at ≡ tag_in self.old at }
        ensures after { (at : ℕ) → off + len ≤ at → tag_in self.new at ≡ tag_in self.old at }
        ensures long { length self.new ≡ length self.old }
    {
        overwrite(&mut self.tags, off as usize, len as usize, tag as u32);
    }
}

/// Which piece holds a name: a table for each site. What the tables say doesn't depend on how long they are.
#[derive(Drop)]
pub(crate) struct TagTables {
    sites: SiteMap<SiteTags>,
    alloc: Global,
}

impl Model for TagTables {
    ghost use Rattle.piece_list.specs.Tables.{Tables};

    ghost Value = { Tables };

    ghost view = { λ t. t.sites };
}

impl TagTables {
    pub fn new(alloc: Global) -> TagTables
        ensures { result ≡ [] }
    {
        TagTables {
            sites: SiteMap::new(alloc),
            alloc,
        }
    }

    /// The number of the piece that holds the name. It reads one entry.
    pub fn get(&self, name: Name) -> Option<u64>
        ensures { result ≡ tag_at self.now name }
    {
        match self.sites.get(name.site()) {
            Some(tags) => tags.get(name.off()),
            None => None,
        }
    }

    /// Makes a site's table so long, at least. What the tables say stays, also where memory is refused.
    pub fn reserve(&mut self, site: SiteNo, len: u32) -> Result<(), Refusal>
        ensures ok { OnOk result (len ≤ length (table_of self.new site)) }
        ensures errors { RefusedForMemoryAlone result }
        ensures same { (other off : ℕ) → tag_in (table_of self.new other) off
            ≡ tag_in (table_of self.old other) off }
    {
        if let Some(tags) = self.sites.get_mut(site) {
            return tags.grow(len);
        }
        let mut tags = SiteTags {
            tags: Vec::new(self.alloc),
        };
        tags.grow(len)?;
        self.sites.insert(site, tags)?;
        Ok(())
    }

    /// Enters a piece's names, for which the table is long enough.
    pub fn fill(&mut self, site: SiteNo, off: u32, len: u32, tag: u64)
        requires within { off + len ≤ length (table_of self.old site) }
        requires tag { tag < NO_TAG }
        ensures inside { (at : ℕ) → off ≤ at → at < off + len → tag_in (table_of self.new site) at
            ≡ Just tag }
        ensures before { (at : ℕ) → at < off → tag_in (table_of self.new site) at
            ≡ tag_in (table_of self.old site) at }
        ensures after { (at : ℕ) → off + len ≤ at
            → tag_in (table_of self.new site) at ≡ tag_in (table_of self.old site) at }
        ensures others { (other : ℕ) → other ≢ site → table_of self.new other ≡ table_of self.old other }
        ensures long { length (table_of self.new site) ≡ length (table_of self.old site) }
    {
        if let Some(tags) = self.sites.get_mut(site) {
            tags.fill(off, len, tag);
        }
    }
}
