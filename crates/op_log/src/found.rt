ghost use Rattle.std.specs.Prelude.{◌≡◌, ◌↔◌, IfOk, IsTrue};
ghost use Rattle.looks.specs.Refusal.{RefusedForMemoryAlone};
ghost use Rattle.op_log.specs.Found.{found_op, IsSound};

use crate::one_delete::{OneDelete, are_one_delete, is_one_delete, one_delete};
use crate::stretch::{TypedRun, are_one_letter, is_letter, letter};
use char_files::SiteNo;
use looks::{Looks, Refusal};
use operations::Op;
use std::alloc::Global;

// What stands at a place of a list of operations: a letter of a run, a Delete of one character, or an operation that
// stands alone under a number.
#[derive(Drop)]
pub(crate) enum Found<'a> {
    Letter { run: TypedRun, k: u32, byte: u8 },
    Deleted(OneDelete),
    Single(&'a Op),
}

// The operation that was found. Refused `OutOfMemory` alone.
pub(crate) fn made(alloc: Global, looks: &[Looks], found: &Found<'_>) -> Result<Op, Refusal>
    requires { IsSound looks.now found.now }
    ensures ok { IfOk result (λ op. op ≡ found_op looks.now found.now) }
    ensures errors { RefusedForMemoryAlone result }
{
    match found {
        Found::Letter { run, k, byte } => letter(alloc, looks, run, *k, *byte),
        Found::Deleted(one) => one_delete(alloc, one),
        Found::Single(op) => op.copy(),
    }
}

// Whose it is, and its number.
pub(crate) fn identity_of(looks: &[Looks], found: &Found<'_>) -> (SiteNo, u32)
    requires { IsSound looks.now found.now }
    ensures { (result.0 ≡ (found_op looks.now found.now).site) × (result.1 ≡ (found_op looks.now found.now).seq) }
{
    let _ = looks;
    match found {
        Found::Letter { run, k, .. } => (run.site, run.seq + *k),
        Found::Deleted(one) => (one.site, one.seq),
        Found::Single(op) => (op.site(), op.seq()),
    }
}

// Whether what was found in two lists is one operation.
pub(crate) fn are_same(
    looks: &[Looks],
    found: &Found<'_>,
    others: &[Looks],
    other: &Found<'_>,
) -> bool
    requires here { IsSound looks.now found.now }
    requires there { IsSound others.now other.now }
    ensures { IsTrue result ↔ (found_op looks.now found.now ≡ found_op others.now other.now) }
{
    match found {
        Found::Letter { run, k, byte } => match other {
            Found::Letter {
                run: another,
                k: j,
                byte: there,
            } => are_one_letter(looks, run, *k, *byte, others, another, *j, *there),
            Found::Deleted(_) => false,
            Found::Single(op) => is_letter(looks, run, *k, *byte, op),
        },
        Found::Deleted(one) => match other {
            Found::Letter { .. } => false,
            Found::Deleted(another) => are_one_delete(one, another),
            Found::Single(op) => is_one_delete(one, op),
        },
        Found::Single(op) => match other {
            Found::Letter { run, k, byte } => is_letter(others, run, *k, *byte, op),
            Found::Deleted(one) => is_one_delete(one, op),
            Found::Single(another) => op.is_same(another),
        },
    }
}
