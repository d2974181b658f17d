ghost use Rattle.std.specs.Prelude.{◌≡◌, ◌↔◌, true, IsTrue};
ghost use Rattle.looks.specs.Key.{is_below};
ghost use Rattle.operations.specs.Operation.{key_of};
ghost use Rattle.tree_order.specs.Tree.{IsChar};
ghost use Rattle.tree_order.specs.Looks.{looks_by, ChangesBy, Sets, IsLastToSet, HasLooks};
ghost use Rattle.tree_order.specs.Attribute.{selects};

use crate::lookup::{insert_of, inserts, is_key_below};
use char_files::Name;
use looks::{Looks, Sel};
use operations::{Kind, Op};

// What a ChangeLooks can select.
#[derive(Clone, Copy)]
enum Attribute {
    Font,
    Colour,
    Offset,
}

// Whether the selection has the attribute.
fn selects(sel: Sel, attribute: Attribute) -> bool
    ensures { result ≡ selects attribute sel }
{
    match attribute {
        Attribute::Font => sel.font(),
        Attribute::Colour => sel.colour(),
        Attribute::Offset => sel.offset(),
    }
}

// Whether the operation is a ChangeLooks that selects the attribute and names the character.
fn changes(op: &Op, attribute: Attribute, c: Name) -> bool
    ensures { IsTrue result ↔ ChangesBy op.now.kind (selects attribute) c }
{
    match op.kind() {
        Kind::ChangeLooks { sel, names, .. } => selects(*sel, attribute) && names.contains(c),
        Kind::Insert { .. } | Kind::Delete { .. } | Kind::Restore { .. } => false,
    }
}

// Whether the operation sets this attribute of the character.
fn sets(op: &Op, attribute: Attribute, c: Name) -> bool
    ensures { IsTrue result ↔ Sets op.now (selects attribute) c }
{
    inserts(op, c) || changes(op, attribute, c)
}

// Whether the operation sets this attribute of the character, and has a greater key than the other.
fn sets_over(op: &Op, other: &Op, attribute: Attribute, c: Name) -> bool
    ensures { IsTrue result
        ↔ (Sets op.now (selects attribute) c × (is_below (key_of other.now) (key_of op.now) ≡ true)) }
{
    sets(op, attribute, c) && is_key_below(other, op)
}

// Of the operations that set this attribute of the character the one with the greatest key.
fn last_to_set(ops: &[Op], attribute: Attribute, c: Name) -> &Op
    requires { IsChar ops.now c }
    ensures { IsLastToSet ops.now (selects attribute) c result.now }
{
    let mut last = insert_of(ops, c).unwrap();
    for op in ops {
        if sets_over(op, last, attribute, c) {
            last = op;
        }
    }
    last
}

// The looks that the operation gives, all or some of them.
fn given_looks(op: &Op) -> Looks
    ensures { result ≡ looks_by op.now.kind }
{
    match op.kind() {
        Kind::Insert { looks, .. } | Kind::ChangeLooks { looks, .. } => looks.copy(),
        Kind::Delete { .. } | Kind::Restore { .. } => Looks::plain(),
    }
}

// The looks of the character, each attribute by itself.
pub(crate) fn looks_of(ops: &[Op], c: Name) -> Looks
    requires { IsChar ops.now c }
    ensures { HasLooks ops.now c result }
{
    let font = given_looks(last_to_set(ops, Attribute::Font, c));
    let colour = given_looks(last_to_set(ops, Attribute::Colour, c));
    let offset = given_looks(last_to_set(ops, Attribute::Offset, c));
    offset.lemma_are_in_range();
    Looks {
        font: font.font.copy(),
        colour: colour.colour,
        offset: offset.offset,
    }
}
