//! What is shown between two positions, taken out of a text, and whether all of a set is shown.

ghost use Rattle.std.specs.Prelude.{◌≡◌, ◌-◌, ◌<◌, ◌≤◌, ◌⊎◌, ◌↔◌, length, map, All, slice_range, IsTrue};
ghost use Rattle.std.specs.Prelude.{IfOk, IfErr, IsOk, IsErrOf};
ghost use Rattle.looks.specs.Refusal.{RefusedForMemoryAlone};
ghost use Rattle.char_files.specs.CharName.{CharName};
ghost use Rattle.operations.specs.NameSet.{IsAmong};
ghost use Rattle.operations.specs.declared.name_set.TheConstants.{MAX_RANGES};
ghost use Rattle.piece_list.specs.RunSplits.{AreWithin};
ghost use Rattle.tree_order.specs.Shown.{is_visible};
ghost use Rattle.tree_order.specs.Tree.{IsChar};
ghost use Rattle.taken_text.specs.Rows.{chars_of_rows};
ghost use Rattle.taken_text.specs.Shown.{range_of_run};
ghost use Rattle.taken_text.specs.Taken.{names_between, shown_of_taken};

use crate::rows::ShownRows;
use crate::shown::Shown;
use crate::taken_text::TakenText;
use char_files::{Buffer, MAX_FILE};
use looks::Refusal;
use operations::{NameRange, NameSet};
use piece_list::Between;
use std::alloc::Global;

// The names of these runs, run by run. Refused `OutOfMemory` alone.
fn ranges_of(alloc: Global, runs: Between<'_>) -> Result<Vec<NameRange>, Refusal>
    requires { AreWithin runs }
    ensures ok { IfOk result (λ ranges. ranges.items ≡ map range_of_run runs.entry) }
    ensures errors { RefusedForMemoryAlone result }
{
    let mut ranges = Vec::new(alloc);
    for run in runs {
        // A site's number isn't 0.
        let _ = run.site.get();
        ranges.push(NameRange::new(run.site, run.off, run.len))?;
    }
    Ok(ranges)
}

// The characters of these rows, outside the text. Refused `OutOfMemory` alone.
fn taken_out(alloc: Global, rows: ShownRows<'_>) -> Result<Buffer, Refusal>
    requires { length (chars_of_rows rows) ≤ MAX_FILE }
    ensures ok { IfOk result (λ buffer. buffer ≡ map (λ c. (c.byte, c.looks)) (chars_of_rows rows.entry)) }
    ensures errors { RefusedForMemoryAlone result }
    ensures none { length (chars_of_rows rows.entry) ≡ 0 → IsOk result }
{
    let mut buffer = Buffer::new(alloc);
    for row in rows {
        buffer.push_all(row.bytes(), row.looks())?;
    }
    Ok(buffer)
}

impl TakenText {
    /// The characters that are shown from `beg` to `end`, one after the other. It takes no memory.
    pub fn shown_between(&self, beg: u64, end: u64) -> Shown<'_>
        requires { beg ≤ end }
        ensures { result ≡ slice_range (shown_of_taken self.now) beg end }
    {
        Shown::of(self.pieces.walk_between(beg, end), &self.files)
    }

    /// The same as rows of neighbouring bytes, one after the other. It takes no memory.
    pub fn rows_between(&self, beg: u64, end: u64) -> ShownRows<'_>
        requires { beg ≤ end }
        ensures { chars_of_rows result ≡ slice_range (shown_of_taken self.now) beg end }
    {
        ShownRows::of(self.pieces.walk_between(beg, end), &self.files)
    }

    /// The names of the characters that are shown from `beg` to `end`, as a set.
    ///
    /// Refused `Scattered` where they make more than 1,024 ranges, and `OutOfMemory`, which may come before
    /// it.
    pub fn names_shown(&self, beg: u64, end: u64) -> Result<NameSet, Refusal>
        requires range { beg ≤ end }
        requires in_text { end ≤ length (shown_of_taken self.now) }
        ensures ok { IfOk result (λ set. set ≡ names_between self.now beg end) }
        ensures scattered { IsErrOf result Refusal.Scattered
            → MAX_RANGES < length (names_between self.now beg end) }
        ensures errors { IfErr result (λ e. (e ≡ Refusal.Scattered) ⊎ (e ≡ Refusal.OutOfMemory)) }
    {
        NameSet::of_all(ranges_of(self.alloc, self.pieces.walk_between(beg, end))?)
    }

    /// The characters that are shown from `beg` to `end`, outside the text: their bytes and looks.
    ///
    /// Refused `FileSpent` where there are more than 2^24, else `OutOfMemory` where memory is; an empty
    /// stretch is never refused.
    pub fn stretch(&self, beg: u64, end: u64) -> Result<Buffer, Refusal>
        requires range { beg ≤ end }
        requires in_text { end ≤ length (shown_of_taken self.now) }
        ensures ok { IfOk result
            (λ buffer. buffer ≡ map (λ c. (c.byte, c.looks)) (slice_range (shown_of_taken self.now) beg end)) }
        ensures long { IsErrOf result Refusal.FileSpent ↔ (MAX_FILE < end - beg) }
        ensures errors { IfErr result (λ e. (e ≡ Refusal.FileSpent) ⊎ (e ≡ Refusal.OutOfMemory)) }
        ensures empty { beg ≡ end → IsOk result }
    {
        if MAX_FILE < end - beg {
            return Err(Refusal::FileSpent);
        }
        taken_out(self.alloc, self.rows_between(beg, end))
    }

    /// Whether all characters of these names are shown.
    pub fn are_shown(&self, names: &NameSet) -> bool
        requires { (c : CharName) → IsAmong names.now c → IsChar self.now.operations c }
        ensures { IsTrue result
            ↔ ((c : CharName) → IsAmong names.now c → IsTrue (is_visible self.now.operations c)) }
    {
        !self.pieces.has_hidden(names)
    }
}
