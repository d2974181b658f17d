ghost use Rattle.std.specs.Prelude.{◌≡◌, ◌↔◌, true, Contains, IsTrue, IfSome, IfNone, IfOk};
ghost use Rattle.looks.specs.Key.{is_below};
ghost use Rattle.looks.specs.Refusal.{RefusedForMemoryAlone};
ghost use Rattle.char_files.specs.declared.name.Anchor.TheVariants.{At};
ghost use Rattle.operations.specs.Operation.{Operation, key_of};
ghost use Rattle.tree_order.specs.Good.{Good};
ghost use Rattle.tree_order.specs.Tree.{IsChar, HasByte};
ghost use Rattle.tree_order.specs.Looks.{HasLooks};
ghost use Rattle.tree_order.specs.Shown.{is_visible, SwitchesBy, IsLastToSwitch, is_delete, IsShown, IsPlace};

use crate::attributes::looks_of;
use crate::lookup::{byte_of, insert_of, is_key_below};
use crate::sorting::slow_order;
use char_files::{Char, Name};
use looks::Refusal;
use operations::{Kind, Op};
use std::alloc::Global;

// Whether the operation is a Delete or a Restore that names the character.
fn switches(op: &Op, c: Name) -> bool
    ensures { IsTrue result ↔ SwitchesBy op.now.kind c }
{
    match op.kind() {
        Kind::Delete { names } | Kind::Restore { names } => names.contains(c),
        Kind::Insert { .. } | Kind::ChangeLooks { .. } => false,
    }
}

// Whether the operation's key is greater than that of the other one, if there is one.
fn is_above(op: &Op, other: Option<&Op>) -> bool
    ensures { IsTrue result
        ↔ IfSome other.entry (λ o. is_below (key_of o.now) (key_of op.now) ≡ true) }
{
    match other {
        None => true,
        Some(other) => is_key_below(other, op),
    }
}

// Whether the operation is a Delete or a Restore that names the character, and has a greater key than the
// other one, if there is one.
fn switches_over(op: &Op, other: Option<&Op>, c: Name) -> bool
    ensures { IsTrue result ↔ (SwitchesBy op.now.kind c
        × IfSome other.entry (λ o. is_below (key_of o.now) (key_of op.now) ≡ true)) }
{
    switches(op, c) && is_above(op, other)
}

// Of the Deletes and Restores that name the character the one with the greatest key, if there is one.
fn last_to_switch(ops: &[Op], c: Name) -> Option<&Op>
    ensures some { IfSome result (λ op. IsLastToSwitch ops.now c op.now) }
    ensures none { IfNone result ((op : Operation) → Contains ops.now op → ¬ SwitchesBy op.kind c) }
{
    let mut last = None;
    for op in ops {
        if switches_over(op, last, c) {
            last = Some(op);
        }
    }
    last
}

fn is_delete(op: &Op) -> bool
    ensures { result ≡ is_delete op.now.kind }
{
    matches!(op.kind(), Kind::Delete { .. })
}

// Whether no operation hides the character.
fn is_visible(ops: &[Op], c: Name) -> bool
    requires { Good ops.now }
    ensures { result ≡ is_visible ops.now c }
{
    match last_to_switch(ops, c) {
        None => true,
        Some(last) => !is_delete(last),
    }
}

// The character with its byte and its looks.
fn char_of(ops: &[Op], name: Name) -> Char
    requires { IsChar ops.now name }
    ensures name { result.name ≡ name }
    ensures byte { HasByte ops.now name result.byte }
    ensures looks { HasLooks ops.now name result.looks }
{
    let op = insert_of(ops, name).unwrap();
    Char {
        name,
        byte: byte_of(op, name),
        looks: looks_of(ops, name),
    }
}

/// What the operations show: the visible characters in their order (a reference model for the tests of faster
/// programs). Refused `OutOfMemory` alone.
pub fn slow_shown(alloc: Global, ops: &[Op]) -> Result<Vec<Char>, Refusal>
    requires { Good ops.now }
    ensures ok { IfOk result (λ shown. IsShown ops.now shown.items) }
    ensures errors { RefusedForMemoryAlone result }
{
    let order = slow_order(alloc, ops)?;
    let mut shown = Vec::new(alloc);
    for name in &order {
        if is_visible(ops, *name) {
            shown.push(char_of(ops, *name))?;
        }
    }
    Ok(shown)
}

/// How many visible characters are `c` or stand before it. Refused `OutOfMemory` alone.
pub fn slow_place(alloc: Global, ops: &[Op], c: Name) -> Result<u64, Refusal>
    requires good { Good ops.now }
    requires character { IsChar ops.now c }
    ensures ok { IfOk result (λ place. IsPlace ops.now (At c) place) }
    ensures errors { RefusedForMemoryAlone result }
{
    let order = slow_order(alloc, ops)?;
    let mut place = 0;
    for other in &order {
        if is_visible(ops, *other) {
            place += 1;
        }
        if *other == c {
            break;
        }
    }
    Ok(place)
}
