ghost use Rattle.std.specs.Prelude.{◌≡◌, ◌↔◌, [], ◌∷◌, IfNone, IfOk, IfSome, IsTrue};
ghost use Rattle.looks.specs.Refusal.{RefusedForMemoryAlone};
ghost use Rattle.operations.specs.NameSet.{of_name};
ghost use Rattle.operations.specs.Spelling.{HasSpelling};
ghost use Rattle.op_log.specs.declared.one_delete.OneDelete.{OneDelete};
ghost use Rattle.op_log.specs.Stretches.{one_delete};

use char_files::{Name, SiteNo, TextNo};
use looks::Refusal;
use operations::{Kind, NameSet, Op};
use std::alloc::Global;

/// A Delete of one character.
#[derive(Clone, Copy, Drop)]
pub(crate) struct OneDelete {
    pub(crate) stamp: u64,
    pub(crate) seq: u32,
    // The character's place in its site's file.
    pub(crate) off: u32,
    pub(crate) text: TextNo,
    pub(crate) site: SiteNo,
    // The character's site.
    pub(crate) of: SiteNo,
}

// The operation as a Delete of one character, if it is one.
pub(crate) fn one_delete_in(op: &Op) -> Option<OneDelete>
    ensures some { IfSome result (λ one. op.now ≡ one_delete one) }
    ensures none { IfNone result ((one : OneDelete) → op.now ≡ one_delete one → ⊥) }
{
    let Kind::Delete { names } = op.kind() else {
        return None;
    };
    let ranges = names.ranges();
    if ranges.len() != 1 || ranges[0].len() != 1 {
        return None;
    }
    Some(OneDelete {
        stamp: op.stamp(),
        seq: op.seq(),
        off: ranges[0].at(),
        text: op.text(),
        site: op.site(),
        of: ranges[0].site(),
    })
}

// Whether both are one operation.
pub(crate) fn are_one_delete(one: &OneDelete, other: &OneDelete) -> bool
    ensures { IsTrue result ↔ (one_delete one.now ≡ one_delete other.now) }
{
    let is_same_name = one.of == other.of && one.off == other.off;
    is_same_name
        && one.text == other.text
        && one.site == other.site
        && one.seq == other.seq
        && one.stamp == other.stamp
}

// Whether the Delete is this operation.
pub(crate) fn is_one_delete(one: &OneDelete, op: &Op) -> bool
    ensures { IsTrue result ↔ (one_delete one.now ≡ op.now) }
{
    match one_delete_in(op) {
        Some(other) => are_one_delete(one, &other),
        None => false,
    }
}

// The set of one name. Refused `OutOfMemory` alone.
fn set_of_one(alloc: Global, name: Name) -> Result<NameSet, Refusal>
    ensures ok { IfOk result (λ set. set ≡ of_name name ∷ []) }
    ensures errors { RefusedForMemoryAlone result }
{
    let mut names = NameSet::new(alloc);
    names.insert(name)?;
    Ok(names)
}

// The operation. Refused `OutOfMemory` alone.
pub(crate) fn one_delete(alloc: Global, one: &OneDelete) -> Result<Op, Refusal>
    requires { HasSpelling (one_delete one.now) }
    ensures ok { IfOk result (λ op. op ≡ one_delete one.now) }
    ensures errors { RefusedForMemoryAlone result }
{
    let name = Name::new(one.of, one.off).unwrap();
    let kind = Kind::Delete {
        names: set_of_one(alloc, name)?,
    };
    let op = Op::new(one.text, one.site, one.seq, one.stamp, kind);
    Ok(op.unwrap())
}
