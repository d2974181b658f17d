ghost use Rattle.std.specs.Prelude.{◌≡◌, ◌+◌, ◌<◌, ◌≤◌, ◌↔◌, All, Any, IfOk, IsTrue};
ghost use Rattle.looks.specs.Refusal.{RefusedForMemoryAlone};
ghost use Rattle.operations.specs.Operation.{appended_len, Begins};
ghost use Rattle.operations.specs.declared.kind.TheConstants.{MAX_INSERT};
ghost use Rattle.tree_order.specs.GoodEach.{Agree, AgreesWithAll, HasPredecessor, MentionsCharacters};
ghost use Rattle.tree_order.specs.GoodEach.{BeginsAtEnd, OwnNamesBelow, OwnNamesAreEarlier, IsAboveEachCause};
ghost use Rattle.tree_order.specs.GoodEach.{file_starts};
ghost use Rattle.tree_order.specs.Good.{Good, IsPredecessor, IsCauseOf, appended_len_at, file_before};

use crate::lookup::{has_char, inserts};
use char_files::SiteNo;
use looks::Refusal;
use operations::{Kind, Op, named};
use std::alloc::Global;

// Whether both are one operation, if they have one identity.
fn agree(a: &Op, b: &Op) -> bool
    ensures { IsTrue result ↔ Agree a.now b.now }
{
    a.site() != b.site() || a.seq() != b.seq() || a.is_same(b)
}

// Whether no operation differs from this one under its identity.
fn all_agree_with(ops: &[Op], a: &Op) -> bool
    ensures { IsTrue result ↔ AgreesWithAll ops.now a.now }
{
    ops.iter().all(|b| agree(a, b))
}

// Whether no two operations differ under one identity.
fn identities_agree(ops: &[Op]) -> bool
    ensures { IsTrue result ↔ All (AgreesWithAll ops.now) ops.now }
{
    ops.iter().all(|a| all_agree_with(ops, a))
}

// Whether `p` is the operation of the same site and of the seq before.
fn is_predecessor(p: &Op, op: &Op) -> bool
    ensures { IsTrue result ↔ IsPredecessor p.now op.now }
{
    op.lemma_has_spelling();
    p.site() == op.site() && p.seq() == op.seq() - 1
}

// Whether the operation's predecessor is held.
fn has_predecessor(ops: &[Op], op: &Op) -> bool
    ensures { IsTrue result ↔ Any (λ p. IsPredecessor p op.now) ops.now }
{
    ops.iter().any(|p| is_predecessor(p, op))
}

// Whether each operation is its site's first or has its predecessor.
fn predecessors_are_held(ops: &[Op]) -> bool
    ensures { IsTrue result ↔ All (HasPredecessor ops.now) ops.now }
{
    ops.iter()
        .all(|op| op.seq() <= 1 || has_predecessor(ops, op))
}

// Whether the names that the operation mentions are characters.
fn mentions_characters(ops: &[Op], op: &Op) -> bool
    ensures { IsTrue result ↔ MentionsCharacters ops.now op.now }
{
    named(op).all(|name| has_char(ops, name))
}

// Whether the names that are mentioned are characters.
fn mentions_are_held(ops: &[Op]) -> bool
    ensures { IsTrue result ↔ All (MentionsCharacters ops.now) ops.now }
{
    ops.iter().all(|op| mentions_characters(ops, op))
}

// How many bytes the operation appends to its site's file.
fn appended_bytes(op: &Op) -> u64
    ensures value { result ≡ appended_len op.now.kind }
    ensures few { result ≤ MAX_INSERT }
{
    op.lemma_has_spelling();
    match op.kind() {
        Kind::Insert { bytes, .. } => bytes.len() as u64,
        Kind::Delete { .. } | Kind::Restore { .. } | Kind::ChangeLooks { .. } => 0,
    }
}

// How many bytes the site's operation of this seq appends to its file, 0 where there is none.
fn appended_len_at(ops: &[Op], site: SiteNo, seq: u32) -> u64
    ensures value { result ≡ appended_len_at ops.now site seq }
    ensures few { result ≤ MAX_INSERT }
{
    for op in ops {
        if op.site() == site && op.seq() == seq {
            return appended_bytes(op);
        }
    }
    0
}

// How long the site's file is before its operation of this seq.
fn file_before(ops: &[Op], site: SiteNo, seq: u32) -> u64
    ensures { result ≡ file_before ops.now site seq }
{
    let mut len = 0;
    for earlier in 0..seq {
        len += appended_len_at(ops, site, earlier);
    }
    len
}

// How long each operation's site's file is before it. Refused `OutOfMemory` alone.
fn file_starts(alloc: Global, ops: &[Op]) -> Result<Vec<u64>, Refusal>
    ensures ok { IfOk result (λ starts. starts.items ≡ file_starts ops.now) }
    ensures errors { RefusedForMemoryAlone result }
{
    let starts = ops.iter().map(|op| file_before(ops, op.site(), op.seq()));
    Ok(starts.collect(alloc)?)
}

// Whether each Insert begins where its site's file ended before it.
fn inserts_begin(ops: &[Op], starts: &[u64]) -> bool
    requires { starts.now ≡ file_starts ops.now }
    ensures { IsTrue result ↔ All (BeginsAtEnd ops.now) ops.now }
{
    ops.iter()
        .zip(starts)
        .all(|(op, start)| op.begins_at(*start))
}

// Whether the names of its own site that the operation mentions stand below this end of its file.
fn own_names_below(op: &Op, end: u64) -> bool
    ensures { IsTrue result ↔ OwnNamesBelow op.now end }
{
    named(op).all(|name| name.site() != op.site() || u64::from(name.off()) < end)
}

// Whether own names that are mentioned stand in the site's file before the operation.
fn own_names_are_earlier(ops: &[Op], starts: &[u64]) -> bool
    requires { starts.now ≡ file_starts ops.now }
    ensures { IsTrue result ↔ All (OwnNamesAreEarlier ops.now) ops.now }
{
    ops.iter()
        .zip(starts)
        .all(|(op, start)| own_names_below(op, *start))
}

// Whether `p` is a cause of the operation: its predecessor, or the Insert of a name that it mentions.
fn is_cause_of(p: &Op, op: &Op) -> bool
    ensures { IsTrue result ↔ IsCauseOf p.now op.now }
{
    is_predecessor(p, op) || named(op).any(|name| inserts(p, name))
}

// Whether the operation's stamp is greater than those of its causes.
fn is_above_causes(ops: &[Op], op: &Op) -> bool
    ensures { IsTrue result ↔ IsAboveEachCause ops.now op.now }
{
    ops.iter()
        .all(|p| p.stamp() < op.stamp() || !is_cause_of(p, op))
}

// Whether each stamp is greater than those of the operation's causes.
fn stamps_rise(ops: &[Op]) -> bool
    ensures { IsTrue result ↔ All (IsAboveEachCause ops.now) ops.now }
{
    ops.iter().all(|op| is_above_causes(ops, op))
}

/// Whether the operations are a set that a replica can have taken in (a causally closed one).
///
/// That is so when no two differ under one identity; each one's predecessor is held; each name that is
/// mentioned has its Insert; each Insert begins where its site's file ended before it; names of the
/// operation's own site stand in that file before it; and each stamp is greater than those of the operation's
/// causes. The list is read as a set: repeats and order don't matter, the empty list is good, and it isn't
/// asked which text they are of. The time grows as the cube of their number. Refused `OutOfMemory` alone.
pub fn is_good(alloc: Global, ops: &[Op]) -> Result<bool, Refusal>
    ensures ok { IfOk result (λ good. IsTrue good ↔ Good ops.now) }
    ensures errors { RefusedForMemoryAlone result }
{
    if !identities_agree(ops) || !predecessors_are_held(ops) || !mentions_are_held(ops) {
        return Ok(false);
    }
    // Each predecessor is held, so there are no more seqs below an operation's than operations.
    let starts = file_starts(alloc, ops)?;
    Ok(inserts_begin(ops, &starts) && own_names_are_earlier(ops, &starts) && stamps_rise(ops))
}
