//! Ranges of names in any order, made the ranges of a set in their place.

ghost use Rattle.std.specs.Prelude.{◌≡◌, ◌+◌, ◌<◌, ◌≤◌, ◌↔◌, ◌⊎◌, length, take, drop, All, AllPairs};
ghost use Rattle.std.specs.List.Sorted.{IsPermutation};
ghost use Rattle.char_files.specs.CharName.{CharName};
ghost use Rattle.operations.specs.NameSet.{IsIn, IsAmong, IsRange, IsSet, StartsNoLater, names_in, set_of};

use crate::name_set::NameRange;

// Sorts ranges by their first names.
fn sort(ranges: &mut Vec<NameRange>)
    ensures permutation { IsPermutation ranges.old.items ranges.new.items }
    ensures rising { AllPairs StartsNoLater ranges.new.items }
{
    ranges.sort_unstable_by_key(|range| (range.site().get(), range.at()));
}

// Puts a range after the kept ones, in one with the last of them where that reaches it, and tells how many
// are kept then.
fn keep(ranges: &mut Vec<NameRange>, kept: usize, range: NameRange) -> usize
    requires within { kept < length ranges.old.items }
    requires set { IsSet (take kept ranges.old.items) }
    requires rising { All (λ q. StartsNoLater q range) (take kept ranges.old.items) }
    ensures within { (kept ≤ result) × (result ≤ kept + 1) }
    ensures len { length ranges.new.items ≡ length ranges.old.items }
    ensures rest { drop (kept + 1) ranges.new.items ≡ drop (kept + 1) ranges.old.items }
    ensures set { IsSet (take result ranges.new.items) }
    ensures rising { All (λ q. StartsNoLater q range) (take result ranges.new.items) }
    ensures names { (c : CharName) → IsAmong (take result ranges.new.items) c
        ↔ (IsAmong (take kept ranges.old.items) c ⊎ IsIn range c) }
{
    // A range has names, all of them within its site's file.
    let _ = range.len();
    if kept > 0 && ranges[kept - 1].reaches(range) {
        ranges[kept - 1] = ranges[kept - 1].hull(range);
        return kept;
    }
    ranges[kept] = range;
    kept + 1
}

// Joins ranges that touch or overlap, of ranges that rise by their first names.
fn join(ranges: &mut Vec<NameRange>)
    requires { AllPairs StartsNoLater ranges.old.items }
    ensures set { IsSet ranges.new.items }
    ensures names { (c : CharName) → IsAmong ranges.new.items c ↔ IsAmong ranges.old.items c }
{
    let mut kept = 0;
    for i in 0..ranges.len() {
        let range = ranges[i];
        kept = keep(ranges, kept, range);
    }
    ranges.truncate(kept);
}

// The maximal ranges of all names of these ranges, rising, in the same memory.
pub(crate) fn joined(mut ranges: Vec<NameRange>) -> Vec<NameRange>
    ensures set { IsSet result.items }
    ensures value { result.items ≡ set_of (names_in ranges.items) }
{
    sort(&mut ranges);
    join(&mut ranges);
    ranges
}
