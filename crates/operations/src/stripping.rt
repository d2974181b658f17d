//! Whether a message is an operation's. Each field is compared where it stands in the message, which takes no memory.

ghost use Rattle.std.specs.Prelude.{◌≡◌, ◌≤◌, ◌↔◌, [], ◌∷◌, length, if◌then◌else◌, IsTrue};
ghost use Rattle.std.specs.Int.{w16, w32, w64};
ghost use Rattle.std.specs.List.{flat_map};
ghost use Rattle.byte_fields.specs.Fields.{Finds, number_spelling};
ghost use Rattle.operations.specs.Operation.{insert, change_looks};
ghost use Rattle.operations.specs.Spelling.{HasSpelling, tag_spelling, name_spelling};
ghost use Rattle.operations.specs.Spelling.{anchor_spelling, font_spelling, looks_spelling};
ghost use Rattle.operations.specs.Spelling.{selected_spelling, range_spelling, set_spelling, kind_spelling};
ghost use Rattle.operations.specs.Spelling.{header_spelling, spelling};
ghost use Rattle.operations.specs.Stripped.{stripped};

use crate::kind::{Kind, MAX_INSERT, version_of};
use crate::name_set::{NameRange, NameSet};
use crate::op::Op;
use char_files::Anchor;
use looks::{FontName, Looks, Sel};

// What follows these bytes, where they stand in front; and so each function below, for the bytes of a field.
fn after<'a>(bytes: &'a [u8], front: &[u8]) -> Option<&'a [u8]>
    ensures { Finds (λ rest. rest.now) result (stripped front.now bytes.now) }
{
    bytes.strip_prefix(front)
}

#[tactic(auto, unfolding(byte_fields::specs::Fields::number_spelling))]
fn after_u16(bytes: &[u8], number: u16) -> Option<&[u8]>
    ensures { Finds (λ rest. rest.now) result (stripped (number_spelling w16 number) bytes.now) }
{
    after(bytes, &number.to_be_bytes())
}

#[tactic(auto, unfolding(byte_fields::specs::Fields::number_spelling))]
fn after_u32(bytes: &[u8], number: u32) -> Option<&[u8]>
    ensures { Finds (λ rest. rest.now) result (stripped (number_spelling w32 number) bytes.now) }
{
    after(bytes, &number.to_be_bytes())
}

#[tactic(auto, unfolding(byte_fields::specs::Fields::number_spelling))]
fn after_u64(bytes: &[u8], number: u64) -> Option<&[u8]>
    ensures { Finds (λ rest. rest.now) result (stripped (number_spelling w64 number) bytes.now) }
{
    after(bytes, &number.to_be_bytes())
}

#[tactic(auto, using(crate::proofs::Stripped::stripped_head))]
fn after_font<'a>(bytes: &'a [u8], font: &FontName) -> Option<&'a [u8]>
    ensures { Finds (λ rest. rest.now) result (stripped (font_spelling font.now) bytes.now) }
{
    let name = font.as_bytes();
    let rest = after(bytes, &[name.len() as u8])?;
    after(rest, name)
}

#[tactic(auto, using(crate::proofs::Stripped::stripped_cons))]
fn after_looks<'a>(bytes: &'a [u8], looks: &Looks) -> Option<&'a [u8]>
    ensures { Finds (λ rest. rest.now) result (stripped (looks_spelling looks.now) bytes.now) }
{
    let rest = after_font(bytes, &looks.font)?;
    after(rest, &[looks.colour.number(), looks.offset.cast_unsigned()])
}

// What follows a font where it is selected, else all of the bytes.
#[tactic(auto, unfolding(crate::specs::Stripped::stripped))]
fn after_font_if<'a>(selected: bool, bytes: &'a [u8], font: &FontName) -> Option<&'a [u8]>
    ensures { Finds (λ rest. rest.now) result
        (stripped (if selected then font_spelling font.now else []) bytes.now) }
{
    if selected {
        after_font(bytes, font)
    } else {
        Some(bytes)
    }
}

// The same of a byte.
#[tactic(auto, unfolding(crate::specs::Stripped::stripped))]
fn after_byte_if(selected: bool, bytes: &[u8], byte: u8) -> Option<&[u8]>
    ensures { Finds (λ rest. rest.now) result
        (stripped (if selected then byte ∷ [] else []) bytes.now) }
{
    if selected {
        after(bytes, &[byte])
    } else {
        Some(bytes)
    }
}

#[tactic(auto, using(crate::proofs::Stripped::stripped_append))]
fn after_selected<'a>(bytes: &'a [u8], sel: Sel, looks: &Looks) -> Option<&'a [u8]>
    ensures { Finds (λ rest. rest.now) result (stripped (selected_spelling sel looks.now) bytes.now) }
{
    let rest = after_font_if(sel.font(), bytes, &looks.font)?;
    let rest = after_byte_if(sel.colour(), rest, looks.colour.number())?;
    after_byte_if(sel.offset(), rest, looks.offset.cast_unsigned())
}

#[tactic(auto, using(crate::proofs::Stripped::stripped_append))]
fn after_range(bytes: &[u8], range: NameRange) -> Option<&[u8]>
    ensures { Finds (λ rest. rest.now) result (stripped (range_spelling range) bytes.now) }
{
    let rest = after_u16(bytes, range.site().get())?;
    let rest = after_u32(rest, range.at())?;
    after_u32(rest, range.len())
}

fn after_ranges<'a>(bytes: &'a [u8], ranges: &[NameRange]) -> Option<&'a [u8]>
    ensures { Finds (λ rest. rest.now) result (stripped (flat_map range_spelling ranges.now) bytes.now) }
{
    let mut rest = bytes;
    for range in ranges {
        rest = after_range(rest, *range)?;
    }
    Some(rest)
}

#[tactic(auto, using(crate::proofs::Stripped::stripped_append))]
fn after_names<'a>(bytes: &'a [u8], names: &NameSet) -> Option<&'a [u8]>
    ensures { Finds (λ rest. rest.now) result (stripped (set_spelling names.now) bytes.now) }
{
    let ranges = names.ranges();
    let rest = after_u16(bytes, ranges.len() as u16)?;
    after_ranges(rest, ranges)
}

#[tactic(auto, using(crate::proofs::Stripped::stripped_append))]
fn after_name(bytes: &[u8], site: u16, off: u32) -> Option<&[u8]>
    ensures { Finds (λ rest. rest.now) result (stripped (name_spelling (record { site = site; off = off })) bytes.now) }
{
    let rest = after_u16(bytes, site)?;
    after_u32(rest, off)
}

fn after_anchor(bytes: &[u8], anchor: Anchor) -> Option<&[u8]>
    ensures { Finds (λ rest. rest.now) result (stripped (anchor_spelling anchor) bytes.now) }
{
    match anchor {
        Anchor::Root => after_name(bytes, 0, 0),
        Anchor::At(name) => after_name(bytes, name.site().get(), name.off()),
    }
}

#[tactic(auto, using(crate::proofs::Stripped::stripped_append))]
fn after_insert<'a>(
    message: &'a [u8],
    cause: Anchor,
    at: u32,
    looks: &Looks,
    bytes: &[u8],
) -> Option<&'a [u8]>
    requires { length bytes.now ≤ MAX_INSERT }
    ensures { Finds (λ rest. rest.now) result
        (stripped (kind_spelling (insert cause at looks.now bytes.now)) message.now) }
{
    let rest = after_anchor(message, cause)?;
    let rest = after_u32(rest, at)?;
    let rest = after_looks(rest, looks)?;
    let rest = after_u16(rest, bytes.len() as u16)?;
    after(rest, bytes)
}

#[tactic(auto, using(crate::proofs::Stripped::stripped_head, crate::proofs::Stripped::stripped_append))]
fn after_change<'a>(bytes: &'a [u8], sel: Sel, looks: &Looks, names: &NameSet) -> Option<&'a [u8]>
    ensures { Finds (λ rest. rest.now) result
        (stripped (kind_spelling (change_looks sel looks.now names.now)) bytes.now) }
{
    let rest = after(bytes, &[sel.bits()])?;
    let rest = after_selected(rest, sel, looks)?;
    after_names(rest, names)
}

fn after_kind<'a>(message: &'a [u8], op: &Op) -> Option<&'a [u8]>
    requires { HasSpelling op.now }
    ensures { Finds (λ rest. rest.now) result (stripped (kind_spelling op.now.kind) message.now) }
{
    match op.kind() {
        Kind::Insert {
            cause,
            at,
            looks,
            bytes,
        } => after_insert(message, *cause, *at, looks, bytes),
        Kind::Delete { names } | Kind::Restore { names } => after_names(message, names),
        Kind::ChangeLooks { sel, looks, names } => after_change(message, *sel, looks, names),
    }
}

#[tactic(auto, unfolding(crate::specs::Spelling::tag_spelling))]
fn after_tag(bytes: &[u8], kind: u8) -> Option<&[u8]>
    ensures { Finds (λ rest. rest.now) result (stripped (tag_spelling kind) bytes.now) }
{
    after(bytes, &[b'O', b'T', version_of(kind), kind])
}

#[tactic(auto, using(crate::proofs::Stripped::stripped_append))]
fn after_header(bytes: &[u8], kind: u8, text: u16, site: u16, seq: u32, stamp: u64) -> Option<&[u8]>
    ensures { Finds (λ rest. rest.now) result (stripped (header_spelling kind text site seq stamp) bytes.now) }
{
    let rest = after_tag(bytes, kind)?;
    let rest = after_u16(rest, text)?;
    let rest = after_u16(rest, site)?;
    let rest = after_u32(rest, seq)?;
    after_u64(rest, stamp)
}

#[tactic(auto, using(crate::proofs::Stripped::stripped_append))]
fn after_op<'a>(message: &'a [u8], op: &Op) -> Option<&'a [u8]>
    requires { HasSpelling op.now }
    ensures { Finds (λ rest. rest.now) result (stripped (spelling op.now) message.now) }
{
    let (text, site) = (op.text().get(), op.site().get());
    let rest = after_header(
        message,
        op.kind().number(),
        text,
        site,
        op.seq(),
        op.stamp(),
    )?;
    after_kind(rest, op)
}

impl Op {
    /// Whether this is the operation's message. It takes no memory.
    pub fn is_spelled(&self, message: &[u8]) -> bool
        ensures { IsTrue result ↔ (message.now ≡ spelling self.now) }
    {
        self.lemma_has_spelling();
        match after_op(message, self) {
            Some(rest) => rest.is_empty(),
            None => false,
        }
    }
}
