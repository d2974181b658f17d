ghost use Rattle.std.specs.Prelude.{◌≡◌, ◌↔◌, IsTrue, IfSome, IfNone};
ghost use Rattle.looks.specs.Key.{is_below};
ghost use Rattle.operations.specs.Operation.{Inserts, key_of};
ghost use Rattle.tree_order.specs.Tree.{IsChar, IsInsertOf, parent_by, byte_by};

use char_files::{Anchor, Name};
use operations::{Kind, Op};

// Whether the operation inserts the character.
pub(crate) fn inserts(op: &Op, c: Name) -> bool
    ensures { IsTrue result ↔ Inserts op.now c }
{
    match op.kind() {
        Kind::Insert { at, bytes, .. } => {
            let end = u64::from(*at) + bytes.len() as u64;
            c.site().get() == op.site().get() && *at <= c.off() && u64::from(c.off()) < end
        }
        Kind::Delete { .. } | Kind::Restore { .. } | Kind::ChangeLooks { .. } => false,
    }
}

// The Insert of the character, if there is one.
pub(crate) fn insert_of(ops: &[Op], c: Name) -> Option<&Op>
    ensures some { IfSome result (λ i. IsInsertOf ops.now c i.now) }
    ensures none { IfNone result (¬ IsChar ops.now c) }
{
    ops.iter().find(|op| inserts(op, c))
}

/// Whether the operations have a character of this name.
pub fn has_char(ops: &[Op], c: Name) -> bool
    ensures { IsTrue result ↔ IsChar ops.now c }
{
    insert_of(ops, c).is_some()
}

// What the character of this Insert hangs on.
pub(crate) fn parent_of(op: &Op, c: Name) -> Anchor
    requires { Inserts op.now c }
    ensures { result ≡ parent_by op.now.kind c }
{
    match op.kind() {
        Kind::Insert { cause, at, .. } => {
            if c.off() == *at {
                *cause
            } else {
                Anchor::At(Name::new(c.site(), c.off() - 1).unwrap())
            }
        }
        Kind::Delete { .. } | Kind::Restore { .. } | Kind::ChangeLooks { .. } => Anchor::Root,
    }
}

// The byte of the character of this Insert.
pub(crate) fn byte_of(op: &Op, c: Name) -> u8
    requires { Inserts op.now c }
    ensures { result ≡ byte_by op.now.kind c }
{
    match op.kind() {
        Kind::Insert { at, bytes, .. } => bytes[(c.off() - *at) as usize],
        Kind::Delete { .. } | Kind::Restore { .. } | Kind::ChangeLooks { .. } => 0,
    }
}

// Whether the key of the second operation is greater.
pub(crate) fn is_key_below(op: &Op, other: &Op) -> bool
    ensures { result ≡ is_below (key_of op.now) (key_of other.now) }
{
    op.key() < other.key()
}
