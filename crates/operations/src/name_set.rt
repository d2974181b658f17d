ghost use Rattle.std.specs.Prelude.{◌≡◌, ◌+◌, ◌<◌, ◌≤◌, ◌↔◌, ◌⊎◌, [], ◌∷◌, length, Some, IsOk, IfOk, IfErr};
ghost use Rattle.std.specs.Prelude.{OnOk, OnErr, IsTrue, IsErrOf};
ghost use Rattle.std.specs.Option.{option_map_or};
ghost use Rattle.looks.specs.Refusal.{RefusedForMemoryAlone};
ghost use Rattle.char_files.specs.CharName.{CharName};
ghost use Rattle.operations.specs.NameSet.{IsIn, IsAmong, IsRange, IsBefore, IsSet, IsInsertionPoint};
ghost use Rattle.operations.specs.NameSet.{of_name, names_of, names_in, set_of, with_range_at, with_other_at};
ghost use Rattle.operations.specs.NameSet.{with_name};

use crate::joining::joined;
use char_files::{Name, SiteNo};
use looks::Refusal;
use std::alloc::Global;
use std::marker::Model;

/// The most ranges that a set of names may have.
pub const MAX_RANGES: usize = 1024;

/// Neighbouring names of one site, one at least.
#[derive(Clone, Copy, Debug, PartialEq, Eq)]
pub struct NameRange {
    site: SiteNo,
    at: u32,
    len: u32,
}

impl Model for NameRange {
    ghost use Rattle.operations.specs.NameSet.{Range, IsRange};

    ghost Value = { Range };

    ghost view = { λ r. record { site = r.site; at = r.at; len = r.len } };

    ghost invariant = { λ r. IsRange (record { site = r.site; at = r.at; len = r.len }) };

    ghost inverse = { λ r. record { site = r.site; at = r.at; len = r.len } };
}

impl NameRange {
    // The name alone.
    pub(crate) fn of(name: Name) -> NameRange
        ensures value { result ≡ of_name name }
        ensures range { IsRange result }
    {
        NameRange {
            site: name.site(),
            at: name.off(),
            len: 1,
        }
    }

    /// The site whose names they are.
    pub fn site(self) -> SiteNo
        ensures { result ≡ self.site }
    {
        self.site
    }

    /// The first name's offset in the site's file.
    pub fn at(self) -> u32
        ensures { result ≡ self.at }
    {
        self.at
    }

    /// How many names there are, one at least.
    pub fn len(self) -> u32
        ensures value { result ≡ self.len }
        ensures range { IsRange self }
    {
        self.len
    }

    // The offset after the last name.
    fn end(self) -> u32
        ensures { result ≡ self.at + self.len }
    {
        self.at + self.len
    }

    // The first name.
    pub(crate) fn first(self) -> Option<Name>
        ensures { result ≡ Some (record { site = self.site; off = self.at }) }
    {
        Name::new(self.site, self.at)
    }

    // The range without its first name, if there are others.
    pub(crate) fn others(self) -> Option<NameRange>
        ensures { names_of self
            ≡ record { site = self.site; off = self.at } ∷ option_map_or names_of result [] }
    {
        if self.len == 1 {
            return None;
        }
        Some(NameRange {
            site: self.site,
            at: self.at + 1,
            len: self.len - 1,
        })
    }

    // Whether the name is one of the range's.
    fn contains(self, name: Name) -> bool
        ensures { IsTrue result ↔ IsIn self name }
    {
        name.site().get() == self.site.get() && self.at <= name.off() && name.off() < self.end()
    }

    // Whether the range stands before the other, and doesn't touch it.
    pub(crate) fn comes_before(self, other: NameRange) -> bool
        ensures { IsTrue result ↔ IsBefore self other }
    {
        let (site, next) = (self.site.get(), other.site.get());
        site < next || (site == next && self.end() < other.at)
    }

    // Whether the other goes on where this one ends.
    fn touches(self, other: NameRange) -> bool
        ensures { IsTrue result ↔ ((self.site ≡ other.site) × (self.at + self.len ≡ other.at)) }
    {
        self.site.get() == other.site.get() && self.end() == other.at
    }

    // Whether the other, of the same site, starts where this one ends, or before that.
    pub(crate) fn reaches(self, other: NameRange) -> bool
        ensures { IsTrue result ↔ ((self.site ≡ other.site) × (other.at ≤ self.at + self.len)) }
    {
        other.at <= self.end() && other.site.get() == self.site.get()
    }

    // Its names and those of the next range, which it touches.
    fn union(self, next: NameRange) -> NameRange
        requires site { self.site ≡ next.site }
        requires at { self.at + self.len ≡ next.at }
        ensures { result ≡ record self { len = self.len + next.len } }
    {
        NameRange {
            site: self.site,
            at: self.at,
            len: self.len + next.len,
        }
    }

    // All from this range's first name to the last of both. The other starts in this range, or where it ends.
    pub(crate) fn hull(self, other: NameRange) -> NameRange
        requires site { self.site ≡ other.site }
        requires at { (self.at ≤ other.at) × (other.at ≤ self.at + self.len) }
        ensures start { (result.site ≡ self.site) × (result.at ≡ self.at) }
        ensures names { (name : CharName) → IsIn result name ↔ (IsIn self name ⊎ IsIn other name) }
        ensures range { IsRange result }
    {
        NameRange {
            site: self.site,
            at: self.at,
            len: self.end().max(other.end()) - self.at,
        }
    }

    /// So many names of the site, from this offset on.
    pub fn new(site: SiteNo, at: u32, len: u32) -> NameRange
        requires { IsRange (record { site = site; at = at; len = len }) }
        ensures { result ≡ record { site = site; at = at; len = len } }
    {
        NameRange { site, at, len }
    }
}

// How many ranges stand before this one, and don't touch it.
fn insertion_point(ranges: &[NameRange], range: NameRange) -> usize
    requires { IsSet ranges.now }
    ensures within { result ≤ length ranges.now }
    ensures point { IsInsertionPoint ranges.now result range }
{
    ranges.partition_point(|other| other.comes_before(range))
}

// Puts a range before those from `at` on, in one with the first of them where they touch. An `Err` changes
// nothing.
fn add(ranges: &mut Vec<NameRange>, at: usize, range: NameRange) -> Result<(), Refusal>
    requires within { at ≤ length ranges.old.items }
    requires few { length ranges.old.items ≤ MAX_RANGES }
    ensures ok { OnOk result (ranges.new.items ≡ with_range_at ranges.old.items at range) }
    ensures scattered { IsErrOf result Refusal.Scattered
        ↔ (MAX_RANGES < length (with_range_at ranges.old.items at range)) }
    ensures errors { IfErr result (λ e. (e ≡ Refusal.Scattered) ⊎ (e ≡ Refusal.OutOfMemory)) }
    ensures err { OnErr result (ranges.new.items ≡ ranges.old.items) }
{
    if at < ranges.len() && range.touches(ranges[at]) {
        ranges[at] = range.union(ranges[at]);
        return Ok(());
    }
    if ranges.len() == MAX_RANGES {
        return Err(Refusal::Scattered);
    }
    ranges.insert(at, range)?;
    Ok(())
}

// Replaces the range at `at` by another, in one with the next where they touch.
fn replace(ranges: &mut Vec<NameRange>, at: usize, range: NameRange)
    requires { at < length ranges.old.items }
    ensures { ranges.new.items ≡ with_other_at ranges.old.items at range }
{
    if at + 1 < ranges.len() && range.touches(ranges[at + 1]) {
        let next = ranges.remove(at + 1);
        ranges[at] = range.union(next);
    } else {
        ranges[at] = range;
    }
}

// Puts a name into a set's ranges at its insertion point. An `Err` changes nothing.
fn insert_name(ranges: &mut Vec<NameRange>, at: usize, name: Name) -> Result<(), Refusal>
    requires set { IsSet ranges.old.items }
    requires within { at ≤ length ranges.old.items }
    requires point { IsInsertionPoint ranges.old.items at (of_name name) }
    requires few { length ranges.old.items ≤ MAX_RANGES }
    ensures ok { OnOk result (ranges.new.items ≡ with_name ranges.old.items name) }
    ensures scattered { IsErrOf result Refusal.Scattered
        ↔ (MAX_RANGES < length (with_name ranges.old.items name)) }
    ensures errors { IfErr result (λ e. (e ≡ Refusal.Scattered) ⊎ (e ≡ Refusal.OutOfMemory)) }
    ensures err { OnErr result (ranges.new.items ≡ ranges.old.items) }
    ensures held { IsAmong ranges.old.items name → IsOk result × (ranges.new.items ≡ ranges.old.items) }
{
    let one = NameRange::of(name);
    if at < ranges.len() {
        let range = ranges[at];
        if range.contains(name) {
            return Ok(());
        }
        if range.touches(one) {
            replace(ranges, at, range.union(one));
            return Ok(());
        }
    }
    add(ranges, at, one)
}

/// A set of names of characters: its maximal ranges, rising, at most 1,024 of them.
#[derive(Debug, Drop)]
pub struct NameSet {
    ranges: Vec<NameRange>,
}

impl Model for NameSet {
    ghost use Rattle.std.specs.Prelude.{◌≤◌, List, length};
    ghost use Rattle.operations.specs.NameSet.{Range, IsSet};
    ghost use Rattle.operations.specs.declared.name_set.TheConstants.{MAX_RANGES};

    ghost Value = { List Range };

    ghost view = { λ s. s.ranges.items };

    ghost invariant = { λ s. IsSet s.ranges.items × (length s.ranges.items ≤ MAX_RANGES) };
}

impl NameSet {
    /// No names.
    pub fn new(alloc: Global) -> NameSet
        ensures { result ≡ [] }
    {
        NameSet {
            ranges: Vec::new(alloc),
        }
    }

    /// The same names again. Refused `OutOfMemory` alone.
    pub fn copy(&self) -> Result<NameSet, Refusal>
        ensures ok { IfOk result (λ set. set ≡ self.now) }
        ensures errors { RefusedForMemoryAlone result }
    {
        Ok(NameSet {
            ranges: Vec::from_slice(*self.ranges.allocator(), &self.ranges)?,
        })
    }

    /// Whether both have the same names.
    pub fn is_same(&self, other: &NameSet) -> bool
        ensures { IsTrue result ↔ (self.now ≡ other.now) }
    {
        self.ranges() == other.ranges()
    }

    /// Whether the name is in the set.
    pub fn contains(&self, name: Name) -> bool
        ensures { IsTrue result ↔ IsAmong self.now name }
    {
        let at = insertion_point(&self.ranges, NameRange::of(name));
        at < self.ranges.len() && self.ranges[at].contains(name)
    }

    /// The maximal ranges, rising.
    pub fn ranges(&self) -> &[NameRange]
        ensures value { result.now ≡ self.now }
        ensures set { IsSet result.now }
        ensures few { length result.now ≤ MAX_RANGES }
    {
        &self.ranges
    }

    /// A law: what `with_name` makes of a set. A proof gets it by calling this, at no cost.
    pub fn lemma_with_name(&self, name: Name)
        ensures set { IsSet (with_name self.now name) }
        ensures names { (other : CharName) →
            IsAmong (with_name self.now name) other ↔ (IsAmong self.now other ⊎ (other ≡ name)) }
    {
        let _ = &self.ranges;
        let _ = NameRange::of(name);
    }

    /// Puts a name into the set. Nothing changes where it is there already.
    ///
    /// Refused `Scattered` where the set would need more than 1,024 ranges, else `OutOfMemory` where memory
    /// is.
    pub fn insert(&mut self, name: Name) -> Result<(), Refusal>
        ensures ok { OnOk result (self.new ≡ with_name self.old name) }
        ensures scattered { IsErrOf result Refusal.Scattered
            ↔ (MAX_RANGES < length (with_name self.old name)) }
        ensures errors { IfErr result (λ e. (e ≡ Refusal.Scattered) ⊎ (e ≡ Refusal.OutOfMemory)) }
        ensures err { OnErr result (self.new ≡ self.old) }
        ensures held { IsAmong self.old name → IsOk result × (self.new ≡ self.old) }
    {
        let at = insertion_point(&self.ranges, NameRange::of(name));
        insert_name(&mut self.ranges, at, name)
    }

    /// The set of all names of these ranges, which may stand in any order, touch and overlap. It takes no memory.
    ///
    /// Refused `Scattered` where the set would need more than 1,024 ranges.
    pub fn of_all(ranges: Vec<NameRange>) -> Result<NameSet, Refusal>
        ensures ok { IfOk result (λ set. set ≡ set_of (names_in ranges.items)) }
        ensures scattered { IsErrOf result Refusal.Scattered
            ↔ (MAX_RANGES < length (set_of (names_in ranges.items))) }
        ensures errors { IfErr result (λ e. e ≡ Refusal.Scattered) }
    {
        let ranges = joined(ranges);
        if ranges.len() > MAX_RANGES {
            return Err(Refusal::Scattered);
        }
        Ok(NameSet { ranges })
    }

    // The set of these ranges.
    pub(crate) fn of_ranges(ranges: Vec<NameRange>) -> NameSet
        requires set { IsSet ranges.items }
        requires few { length ranges.items ≤ MAX_RANGES }
        ensures { result ≡ ranges.items }
    {
        NameSet { ranges }
    }
}
