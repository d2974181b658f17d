//! What an operation mentions, as ranges.

ghost use Rattle.std.specs.Prelude.{◌≡◌, IfOk};
ghost use Rattle.looks.specs.Refusal.{RefusedForMemoryAlone};
ghost use Rattle.operations.specs.NameSet.{IsSet};
ghost use Rattle.waiting_room.specs.Judged.{last_of};
ghost use Rattle.note_admission.specs.Ranges.{ends_site, mentioned_ranges_by};

use char_files::{Anchor, Name};
use looks::Refusal;
use operations::{Kind, NameRange, Op};
use std::alloc::Global;

/// The maximal ranges of what the operation mentions, rising. Refused `OutOfMemory` alone.
pub(crate) fn mentioned_ranges(alloc: Global, op: &Op) -> Result<Vec<NameRange>, Refusal>
    ensures ok { IfOk result (λ ranges. ranges.items ≡ mentioned_ranges_by op.now.kind) }
    ensures set { IfOk result (λ ranges. IsSet ranges.items) }
    ensures errors { RefusedForMemoryAlone result }
{
    Ok(match op.kind() {
        Kind::Insert { cause, .. } => match *cause {
            Anchor::Root => Vec::new(alloc),
            Anchor::At(name) => {
                Vec::from_slice(alloc, &[NameRange::new(name.site(), name.off(), 1)])?
            }
        },
        Kind::Delete { names } | Kind::Restore { names } | Kind::ChangeLooks { names, .. } => {
            Vec::from_slice(alloc, names.ranges())?
        }
    })
}

/// The range's last name.
pub(crate) fn last_name(range: NameRange) -> Name
    ensures { result ≡ last_of range }
{
    Name::new(range.site(), range.at() + (range.len() - 1)).unwrap()
}

/// Whether none of the ranges that follow is of the same site.
pub(crate) fn ends_site(range: NameRange, rest: &[NameRange]) -> bool
    ensures { result ≡ ends_site range rest.now }
{
    match rest.first() {
        Some(next) => next.site() != range.site(),
        None => true,
    }
}
