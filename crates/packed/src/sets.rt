ghost use Rattle.std.specs.Prelude.{◌≡◌, ◌+◌, ◌^◌, ◌<◌, ◌≤◌, Some, None, length, option_map, IfOk, IfSome};
ghost use Rattle.looks.specs.Refusal.{RefusedForMemoryAlone};
ghost use Rattle.char_files.specs.declared.TheConstants.{MAX_FILE};
ghost use Rattle.byte_fields.specs.Fields.{Appends, Finds};
ghost use Rattle.operations.specs.NameSet.{IsRange, IsSet, IsNamed};
ghost use Rattle.packed.specs.Sets.{is_one, FollowsApart, gap_before, range_after, ranges_after, packed_set};
ghost use Rattle.packed.specs.Sets.{range_in_file, range_after_at, ranges_after_at, packed_set_at};

use crate::numbers::{number_at, put_number};
use char_files::{MAX_FILE, SiteNo};
use looks::Refusal;
use operations::{MAX_RANGES, NameRange, NameSet};
use std::alloc::{AllocError, Global};
use std::marker::Model;

// How many names are between one of this site that ends there and the range; before it where its site is another.
fn gap_before(site: u16, end: u32, range: NameRange) -> u32
    requires { FollowsApart site end range }
    ensures { result ≡ gap_before site end range }
{
    if range.site().get() == site {
        range.at() - (end + 1)
    } else {
        range.at()
    }
}

// What the range has after one of this site that ends there.
#[tactic(auto, unfolding(crate::specs::Sets::range_after))]
fn put_range(out: &mut Vec<u8>, site: u16, end: u32, range: NameRange) -> Result<(), AllocError>
    requires { FollowsApart site end range }
    ensures { Appends result out.old.items out.new.items (range_after site end range) }
{
    put_number(out, u64::from(range.site().get() - site))?;
    put_number(out, u64::from(gap_before(site, end, range)))?;
    put_number(out, u64::from(range.len() - 1))
}

// What the ranges have, each after the one before.
fn put_ranges(out: &mut Vec<u8>, ranges: &[NameRange]) -> Result<(), AllocError>
    requires { IsSet ranges.now }
    ensures { Appends result out.old.items out.new.items (ranges_after 0 0 ranges.now) }
{
    let mut site = 0;
    let mut end = 0;
    for range in ranges {
        put_range(out, site, end, *range)?;
        site = range.site().get();
        end = range.at() + range.len();
    }
    Ok(())
}

/// Appends a set of names, of 1 to 1,024 ranges. After an `Err` some of it may stand there.
#[tactic(auto, unfolding(crate::specs::Sets::packed_set))]
pub(crate) fn put_set(out: &mut Vec<u8>, names: &NameSet) -> Result<(), AllocError>
    requires { IsNamed names.now }
    ensures { Appends result out.old.items out.new.items (packed_set names.now) }
{
    let ranges = names.ranges();
    put_number(out, ranges.len() as u64 - 1)?;
    put_ranges(out, ranges)
}

/// A set of names as it is spelled, checked and not yet made. A contract sees its maximal ranges.
#[derive(Drop)]
pub(crate) struct PackedSet<'a> {
    raw: &'a [u8],
    count: u16,
}

impl<'a> Model for PackedSet<'a> {
    ghost use Rattle.std.specs.Prelude.{List, IsSome};
    ghost use Rattle.operations.specs.NameSet.{Range, IsNamed};
    ghost use Rattle.packed.specs.Sets.{packed_ranges_in, ranges_after_at};

    ghost Value = { List Range };

    ghost view = { λ r. packed_ranges_in r.count r.raw.now };

    ghost invariant = { λ r. IsSome (ranges_after_at r.count 0 0 r.raw.now)
        × IsNamed (packed_ranges_in r.count r.raw.now) };
}

impl<'a> PackedSet<'a> {
    /// Whether the set is one name.
    pub(crate) fn is_one(&self) -> bool
        ensures { result ≡ is_one self.now }
    {
        match first_len(self.raw) {
            Some(len) => self.count == 1 && len == 1,
            None => false,
        }
    }

    /// The set of these names. Refused `OutOfMemory` alone.
    pub(crate) fn set(&self, alloc: Global) -> Result<NameSet, Refusal>
        ensures ok { IfOk result (λ set. set ≡ self.now) }
        ensures errors { RefusedForMemoryAlone result }
    {
        let mut ranges = Vec::with_capacity(alloc, usize::from(self.count))?;
        let mut raw = self.raw;
        let mut site = 0;
        let mut end = 0;
        for _ in 0..self.count {
            let Some(next) = range_after_at(site, end, raw) else {
                unreachable!()
            };
            ranges.push_reserved(next.0);
            raw = next.1;
            site = next.0.site().get();
            end = next.0.at() + next.0.len();
        }
        NameSet::of_all(ranges)
    }
}

// These names, where there is such a site and they are within its file.
fn range_of(site: u64, at: u64, len: u64) -> Option<NameRange>
    requires some { 0 < len }
    requires few { at + len < 2 ^ 60 }
    ensures { Finds (λ r. r) result (range_in_file site at len) }
{
    let site = u16::try_from(site).ok()?;
    let site = SiteNo::new(site)?;
    if MAX_FILE < at + len {
        return None;
    }
    Some(NameRange::new(site, at as u32, len as u32))
}

// A range after one of this site that ends there.
#[tactic(auto, unfolding(crate::specs::Sets::range_after_at))]
fn range_after_at(site: u16, end: u32, bytes: &[u8]) -> Option<(NameRange, &[u8])>
    ensures { Finds (λ x. (x.0, x.1.now)) result (range_after_at site end bytes.now) }
{
    let (further, rest) = number_at(bytes)?;
    let (gap, rest) = number_at(rest)?;
    let (more, rest) = number_at(rest)?;
    let at = if further == 0 {
        u64::from(end) + 1 + gap
    } else {
        gap
    };
    let range = range_of(u64::from(site) + further, at, more + 1)?;
    Some((range, rest))
}

// How many names the first range has.
fn first_len(bytes: &[u8]) -> Option<u32>
    ensures { Finds (λ len. len) result (option_map (λ x. x.0.len) (range_after_at 0 0 bytes.now)) }
{
    let Some((range, _)) = range_after_at(0, 0, bytes) else {
        return None;
    };
    Some(range.len())
}

// The bytes after so many ranges, each of which stands after the one before.
fn after_ranges(count: u16, bytes: &[u8]) -> Option<&[u8]>
    ensures { Finds (λ rest. rest.now) result (option_map (λ x. x.1) (ranges_after_at count 0 0 bytes.now)) }
{
    let mut rest = bytes;
    let mut site = 0;
    let mut end = 0;
    for _ in 0..count {
        let Some(next) = range_after_at(site, end, rest) else {
            return None;
        };
        rest = next.1;
        site = next.0.site().get();
        end = next.0.at() + next.0.len();
    }
    Some(rest)
}

/// A set of names; `None` where the bytes don't begin with one. It takes no memory.
#[tactic(auto, unfolding(crate::specs::Sets::packed_set_at))]
pub(crate) fn set_at(bytes: &[u8]) -> Option<(PackedSet<'_>, &[u8])>
    ensures found { Finds (λ x. (x.0, x.1.now)) result (packed_set_at bytes.now) }
    ensures named { IfSome result (λ x. IsNamed x.0) }
{
    let (more, raw) = number_at(bytes)?;
    if MAX_RANGES as u64 <= more {
        return None;
    }
    let count = more as u16 + 1;
    let rest = after_ranges(count, raw)?;
    Some((PackedSet { raw, count }, rest))
}
