//! Ranges of names, joined where they touch or overlap.

ghost use Rattle.std.specs.Prelude.{◌≡◌, ◌+◌, ◌≤◌, ◌⊎◌, ◌↔◌, ◌++◌, All, IfOk, OnOk, IsTrue};
ghost use Rattle.looks.specs.Refusal.{RefusedForMemoryAlone};
ghost use Rattle.char_files.specs.CharName.{CharName};
ghost use Rattle.operations.specs.NameSet.{IsAmong, IsIn, IsRange, names_in, names_of};
ghost use Rattle.taken_text.specs.Reached.{Reaches};

use looks::Refusal;
use operations::NameRange;
use std::alloc::Global;

// The offset after the last name of a range.
fn end_of(range: NameRange) -> u32
    ensures value { result ≡ range.at + range.len }
    ensures range { IsRange range }
{
    range.at() + range.len()
}

// Whether another range begins among the names of a range, or where they end.
fn reaches(range: NameRange, other: NameRange) -> bool
    ensures { IsTrue result → Reaches range other }
{
    range.site().get() == other.site().get()
        && range.at() <= other.at()
        && other.at() <= end_of(range)
}

// The names of a range, and those of another that begins among them or where they end.
fn hull(range: NameRange, other: NameRange) -> NameRange
    requires { Reaches range other }
    ensures names { (c : CharName) → IsIn result c ↔ (IsIn range c ⊎ IsIn other c) }
    ensures range { IsRange result }
{
    let end = end_of(range).max(end_of(other));
    NameRange::new(range.site(), range.at(), end - range.at())
}

// Adds the names of a range to those of others, the last of which becomes longer where it reaches that range. Refused
// `OutOfMemory` alone.
fn add(ranges: &mut Vec<NameRange>, range: NameRange) -> Result<(), Refusal>
    requires { All IsRange ranges.old.items }
    ensures names { OnOk result ((c : CharName) → IsAmong ranges.new.items c
        ↔ (IsAmong ranges.old.items c ⊎ IsIn range c)) }
    ensures ranges { OnOk result (All IsRange ranges.new.items) }
    ensures errors { RefusedForMemoryAlone result }
{
    let _ = range.len();
    let Some(last) = ranges.pop() else {
        ranges.push(range)?;
        return Ok(());
    };
    if reaches(last, range) {
        ranges.push_reserved(hull(last, range));
        return Ok(());
    }
    ranges.push_reserved(last);
    ranges.push(range)?;
    Ok(())
}

// The names of ranges, each range added after those before it. Refused `OutOfMemory` alone.
fn added(alloc: Global, ranges: &[NameRange]) -> Result<Vec<NameRange>, Refusal>
    ensures names { IfOk result (λ joined. (c : CharName) → IsAmong joined.items c ↔ IsAmong ranges.now c) }
    ensures ranges { IfOk result (λ joined. All IsRange joined.items) }
    ensures errors { RefusedForMemoryAlone result }
{
    let mut joined = Vec::new(alloc);
    for range in ranges {
        add(&mut joined, *range)?;
    }
    Ok(joined)
}

/// Ranges of the same names as these, which may stand in any order, touch and overlap. Those that are given do neither.
/// Refused `OutOfMemory` alone.
pub(crate) fn joined(alloc: Global, ranges: &[NameRange]) -> Result<Vec<NameRange>, Refusal>
    ensures names { IfOk result (λ joined. (c : CharName) → IsAmong joined.items c ↔ IsAmong ranges.now c) }
    ensures ranges { IfOk result (λ joined. All IsRange joined.items) }
    ensures errors { RefusedForMemoryAlone result }
{
    let mut sorted = Vec::from_slice(alloc, ranges)?;
    sorted.sort_unstable_by_key(|range| (range.site().get(), range.at()));
    added(alloc, &sorted)
}

/// Puts a range after others, in one with the last of them where it goes on from there. Refused `OutOfMemory` alone.
pub(crate) fn push_joined(ranges: &mut Vec<NameRange>, range: NameRange) -> Result<(), Refusal>
    ensures ok { OnOk result (names_in ranges.new.items ≡ names_in ranges.old.items ++ names_of range) }
    ensures errors { RefusedForMemoryAlone result }
{
    let Some(last) = ranges.pop() else {
        ranges.push(range)?;
        return Ok(());
    };
    if last.site().get() == range.site().get() && end_of(last) == range.at() {
        // All names of a range are within its site's file.
        let len = last.len() + range.len();
        ranges.push_reserved(NameRange::new(last.site(), last.at(), len));
        return Ok(());
    }
    ranges.push_reserved(last);
    ranges.push(range)?;
    Ok(())
}
