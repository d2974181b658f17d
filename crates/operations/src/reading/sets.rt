//! Sets of names, checked without memory, and made when they are used.

ghost use Rattle.std.specs.Prelude.{◌≡◌, ◌<◌, ◌≤◌, None, length, option_map, IfOk};
ghost use Rattle.looks.specs.Refusal.{RefusedForMemoryAlone};
ghost use Rattle.operations.specs.NameSet.{IsSet};
ghost use Rattle.byte_fields.specs.Fields.{Finds};
ghost use Rattle.operations.specs.Reading.{range_at, is_after, ranges_at, set_at};

use super::fields::{positive_u16_at, positive_u32_at};
use crate::name_set::{MAX_RANGES, NameRange, NameSet};
use byte_fields::{site_at, u32_at};
use char_files::MAX_FILE;
use looks::Refusal;
use std::alloc::Global;
use std::marker::Model;

/// Ranges as a message spells them, each after the one before. They are checked when they are read, and made
/// a set when all of the message was.
#[derive(Drop)]
pub(super) struct Ranges<'a> {
    raw: &'a [u8],
    count: u16,
}

impl<'a> Model for Ranges<'a> {
    ghost use Rattle.std.specs.Prelude.{List, None, IsSome};
    ghost use Rattle.operations.specs.NameSet.{Range};
    ghost use Rattle.operations.specs.Reading.{ranges_at, ranges_in};

    ghost Value = { List Range };

    ghost view = { λ r. ranges_in r.count r.raw.now };

    ghost invariant = { λ r. IsSome (ranges_at None r.count r.raw.now) };
}

impl<'a> Ranges<'a> {
    // The set of these ranges. Refused `OutOfMemory` alone.
    pub(super) fn set(&self, alloc: Global) -> Result<NameSet, Refusal>
        requires set { IsSet self.now }
        requires few { length self.now ≤ MAX_RANGES }
        ensures ok { IfOk result (λ set. set ≡ self.now) }
        ensures errors { RefusedForMemoryAlone result }
    {
        let mut ranges = Vec::with_capacity(alloc, usize::from(self.count))?;
        let mut raw = self.raw;
        for _ in 0..self.count {
            let Some(next) = range_at(raw) else {
                unreachable!()
            };
            ranges.push_reserved(next.0);
            raw = next.1;
        }
        Ok(NameSet::of_ranges(ranges))
    }
}

#[tactic(auto, unfolding(crate::specs::Reading::range_at), using(byte_fields::proofs::Readers::positive_is))]
fn range_at(bytes: &[u8]) -> Option<(NameRange, &[u8])>
    ensures { Finds (λ x. (x.0, x.1.now)) result (range_at bytes.now) }
{
    let Some((site, rest)) = site_at(bytes) else {
        return None;
    };
    let (at, rest) = u32_at(rest)?;
    let (len, rest) = positive_u32_at(rest)?;
    if MAX_FILE < u64::from(at) + u64::from(len) {
        return None;
    }
    Some((NameRange::new(site, at, len), rest))
}

// Whether the range stands after the last one, if there is one, and doesn't touch it.
fn is_after(last: Option<NameRange>, range: NameRange) -> bool
    ensures { result ≡ is_after last range }
{
    match last {
        None => true,
        Some(last) => last.comes_before(range),
    }
}

// The bytes after so many ranges, each of which stands after the one before.
fn after_ranges(count: u16, bytes: &[u8]) -> Option<&[u8]>
    ensures { Finds (λ rest. rest.now) result (option_map (λ x. x.1) (ranges_at None count bytes.now)) }
{
    let mut last = None;
    let mut rest = bytes;
    for _ in 0..count {
        let Some(next) = range_at(rest) else {
            return None;
        };
        if !is_after(last, next.0) {
            return None;
        }
        last = Some(next.0);
        rest = next.1;
    }
    Some(rest)
}

#[tactic(auto, unfolding(crate::specs::Reading::set_at))]
pub(super) fn set_at(bytes: &[u8]) -> Option<(Ranges<'_>, &[u8])>
    ensures { Finds (λ x. (x.0, x.1.now)) result (set_at bytes.now) }
{
    let (count, raw) = positive_u16_at(bytes)?;
    if MAX_RANGES < usize::from(count) {
        return None;
    }
    let rest = after_ranges(count, raw)?;
    Some((Ranges { raw, count }, rest))
}
