ghost use Rattle.std.specs.Prelude.{◌≡◌, ◌⊎◌, ◌↔◌, All, IfOk, IsTrue};
ghost use Rattle.looks.specs.Refusal.{RefusedForMemoryAlone};
ghost use Rattle.tree_order.specs.Good.{Good};
ghost use Rattle.tree_order.specs.Tree.{IsChar, IsPath, IsProperPrefix};
ghost use Rattle.tree_order.specs.Order.{HasGreaterKey, TurnsBefore, Before};

use crate::lookup::{insert_of, is_key_below, parent_of};
use char_files::{Anchor, Name};
use looks::Refusal;
use operations::Op;
use std::alloc::Global;

// A character, and the characters from a child of the root down to it.
#[derive(Drop)]
pub(crate) struct Path {
    pub(crate) of: Name,
    names: Vec<Name>,
}

// The path of the character: those from it up to a child of the root, turned round.
pub(crate) fn path_of(alloc: Global, ops: &[Op], c: Name) -> Result<Path, Refusal>
    requires good { Good ops.now }
    requires character { IsChar ops.now c }
    ensures path { IfOk result (λ path. (path.of ≡ c) × IsPath ops.now c path.names.items) }
    ensures errors { RefusedForMemoryAlone result }
{
    let mut names = Vec::new(alloc);
    let mut name = c;
    let mut op = insert_of(ops, name).unwrap();
    names.push(name)?;
    while let Anchor::At(parent) = parent_of(op, name) {
        name = parent;
        op = insert_of(ops, name).unwrap();
        op.lemma_has_spelling();
        names.push(name)?;
    }
    names.reverse();
    Ok(Path { of: c, names })
}

// Whether the key of `c` is greater than that of `d`.
fn has_greater_key(ops: &[Op], c: Name, d: Name) -> bool
    requires good { Good ops.now }
    requires first { IsChar ops.now c }
    requires second { IsChar ops.now d }
    ensures { IsTrue result ↔ HasGreaterKey ops.now c d }
{
    let (first, second) = (insert_of(ops, c).unwrap(), insert_of(ops, d).unwrap());
    is_key_below(second, first)
}

// Whether the path `p` ends first, or turns before `q`.
fn is_path_before(ops: &[Op], p: &[Name], q: &[Name]) -> bool
    requires good { Good ops.now }
    requires first { All (IsChar ops.now) p.now }
    requires second { All (IsChar ops.now) q.now }
    ensures { IsTrue result ↔ (IsProperPrefix p.now q.now ⊎ TurnsBefore ops.now p.now q.now) }
{
    for i in 0..p.len().min(q.len()) {
        let (c, d) = (p[i], q[i]);
        if c != d {
            return has_greater_key(ops, c, d);
        }
    }
    p.len() < q.len()
}

// Whether the first path's character stands before the second's.
pub(crate) fn is_before(ops: &[Op], p: &Path, q: &Path) -> bool
    requires good { Good ops.now }
    requires first { IsPath ops.now p.now.of p.now.names.items }
    requires second { IsPath ops.now q.now.of q.now.names.items }
    ensures { IsTrue result ↔ Before ops.now p.now.of q.now.of }
{
    is_path_before(ops, &p.names, &q.names)
}

/// Whether `c` stands before `d`. Refused `OutOfMemory` alone.
pub fn slow_before(alloc: Global, ops: &[Op], c: Name, d: Name) -> Result<bool, Refusal>
    requires good { Good ops.now }
    requires first { IsChar ops.now c }
    requires second { IsChar ops.now d }
    ensures ok { IfOk result (λ before. IsTrue before ↔ Before ops.now c d) }
    ensures errors { RefusedForMemoryAlone result }
{
    let first = path_of(alloc, ops, c)?;
    let second = path_of(alloc, ops, d)?;
    Ok(is_before(ops, &first, &second))
}
