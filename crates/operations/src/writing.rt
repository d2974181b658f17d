ghost use Rattle.std.specs.Prelude.{◌≡◌, ◌≤◌, ◌++◌, ◌↔◌, length, take, IsOk, OnOk, OnErr};
ghost use Rattle.std.specs.List.{flat_map};
ghost use Rattle.looks.specs.Refusal.{RefusedForMemoryAlone};
ghost use Rattle.byte_fields.specs.Fields.{Appends};
ghost use Rattle.operations.specs.Spelling.{HasSpelling, tag_spelling, name_spelling};
ghost use Rattle.operations.specs.Spelling.{anchor_spelling, font_spelling, looks_spelling};
ghost use Rattle.operations.specs.Spelling.{selected_spelling, range_spelling, set_spelling, kind_spelling};
ghost use Rattle.operations.specs.Spelling.{header_spelling, spelling};
ghost use Rattle.operations.specs.Operation.{insert, change_looks};

use crate::kind::{Kind, MAX_INSERT, version_of};
use crate::name_set::{NameRange, NameSet};
use crate::op::Op;
use byte_fields::{put_u16, put_u32, put_u64};
use char_files::Anchor;
use looks::{FontName, Looks, Refusal, Sel};
use std::alloc::AllocError;

fn put_font(out: &mut Vec<u8>, font: &FontName) -> Result<(), AllocError>
    ensures { Appends result out.old.items out.new.items (font_spelling font.now) }
{
    let name = font.as_bytes();
    out.push(name.len() as u8)?;
    out.extend_from_slice(name)
}

fn put_looks(out: &mut Vec<u8>, looks: &Looks) -> Result<(), AllocError>
    ensures { Appends result out.old.items out.new.items (looks_spelling looks.now) }
{
    put_font(out, &looks.font)?;
    out.push(looks.colour.number())?;
    out.push(looks.offset.cast_unsigned())?;
    Ok(())
}

/// Appends of looks the selected values alone, as a ChangeLooks spells them. After an `Err` some of it may stand there.
pub fn put_selected(out: &mut Vec<u8>, sel: Sel, looks: &Looks) -> Result<(), AllocError>
    ensures { Appends result out.old.items out.new.items (selected_spelling sel looks.now) }
{
    if sel.font() {
        put_font(out, &looks.font)?;
    }
    if sel.colour() {
        out.push(looks.colour.number())?;
    }
    if sel.offset() {
        out.push(looks.offset.cast_unsigned())?;
    }
    Ok(())
}

fn put_range(out: &mut Vec<u8>, range: NameRange) -> Result<(), AllocError>
    ensures { Appends result out.old.items out.new.items (range_spelling range) }
{
    put_u16(out, range.site().get())?;
    put_u32(out, range.at())?;
    put_u32(out, range.len())
}

fn put_ranges(out: &mut Vec<u8>, ranges: &[NameRange]) -> Result<(), AllocError>
    ensures { Appends result out.old.items out.new.items (flat_map range_spelling ranges.now) }
{
    for range in ranges {
        put_range(out, *range)?;
    }
    Ok(())
}

fn put_names(out: &mut Vec<u8>, names: &NameSet) -> Result<(), AllocError>
    ensures { Appends result out.old.items out.new.items (set_spelling names.now) }
{
    let ranges = names.ranges();
    put_u16(out, ranges.len() as u16)?;
    put_ranges(out, ranges)
}

fn put_name(out: &mut Vec<u8>, site: u16, off: u32) -> Result<(), AllocError>
    ensures { Appends result out.old.items out.new.items (name_spelling (record { site = site; off = off })) }
{
    put_u16(out, site)?;
    put_u32(out, off)
}

fn put_anchor(out: &mut Vec<u8>, anchor: Anchor) -> Result<(), AllocError>
    ensures { Appends result out.old.items out.new.items (anchor_spelling anchor) }
{
    match anchor {
        Anchor::Root => put_name(out, 0, 0),
        Anchor::At(name) => put_name(out, name.site().get(), name.off()),
    }
}

// What an Insert has after the fields that every message has.
fn put_insert(
    out: &mut Vec<u8>,
    cause: Anchor,
    at: u32,
    looks: &Looks,
    bytes: &[u8],
) -> Result<(), AllocError>
    requires { length bytes.now ≤ MAX_INSERT }
    ensures { Appends result out.old.items out.new.items
        (kind_spelling (insert cause at looks.now bytes.now)) }
{
    put_anchor(out, cause)?;
    put_u32(out, at)?;
    put_looks(out, looks)?;
    put_u16(out, bytes.len() as u16)?;
    out.extend_from_slice(bytes)
}

// What a ChangeLooks has after the fields that every message has.
fn put_change(out: &mut Vec<u8>, sel: Sel, looks: &Looks, names: &NameSet) -> Result<(), AllocError>
    ensures { Appends result out.old.items out.new.items
        (kind_spelling (change_looks sel looks.now names.now)) }
{
    out.push(sel.bits())?;
    put_selected(out, sel, looks)?;
    put_names(out, names)
}

fn put_kind(out: &mut Vec<u8>, op: &Op) -> Result<(), AllocError>
    requires { HasSpelling op.now }
    ensures { Appends result out.old.items out.new.items (kind_spelling op.now.kind) }
{
    match op.kind() {
        Kind::Insert {
            cause,
            at,
            looks,
            bytes,
        } => put_insert(out, *cause, *at, looks, bytes),
        Kind::Delete { names } | Kind::Restore { names } => put_names(out, names),
        Kind::ChangeLooks { sel, looks, names } => put_change(out, *sel, looks, names),
    }
}

#[tactic(auto, unfolding(crate::specs::Spelling::tag_spelling))]
fn put_tag(out: &mut Vec<u8>, kind: u8) -> Result<(), AllocError>
    ensures { Appends result out.old.items out.new.items (tag_spelling kind) }
{
    out.extend_from_slice(&[b'O', b'T', version_of(kind), kind])
}

// What every message begins with.
fn put_header(
    out: &mut Vec<u8>,
    kind: u8,
    text: u16,
    site: u16,
    seq: u32,
    stamp: u64,
) -> Result<(), AllocError>
    ensures { Appends result out.old.items out.new.items (header_spelling kind text site seq stamp) }
{
    put_tag(out, kind)?;
    put_u16(out, text)?;
    put_u16(out, site)?;
    put_u32(out, seq)?;
    put_u64(out, stamp)
}

fn put_op(out: &mut Vec<u8>, op: &Op) -> Result<(), AllocError>
    requires { HasSpelling op.now }
    ensures { Appends result out.old.items out.new.items (spelling op.now) }
{
    let (text, site) = (op.text().get(), op.site().get());
    put_header(out, op.kind().number(), text, site, op.seq(), op.stamp())?;
    put_kind(out, op)
}

// Takes back what was appended from `start` on, where memory was refused.
fn all_or_nothing(
    written: Result<(), AllocError>,
    out: &mut Vec<u8>,
    start: usize,
) -> Result<(), Refusal>
    ensures ok { IsOk result ↔ IsOk written }
    ensures errors { RefusedForMemoryAlone result }
    ensures kept { OnOk result (out.new.items ≡ out.old.items) }
    ensures taken_back { OnErr result (out.new.items ≡ take start out.old.items) }
{
    if let Err(refused) = written {
        out.truncate(start);
        return Err(refused.into());
    }
    Ok(())
}

/// Appends the bytes that stand for looks in a message. Refused `OutOfMemory` alone, and then the vector is
/// as it was.
pub fn write_looks(looks: &Looks, out: &mut Vec<u8>) -> Result<(), Refusal>
    ensures ok { OnOk result (out.new.items ≡ out.old.items ++ looks_spelling looks.now) }
    ensures errors { RefusedForMemoryAlone result }
    ensures err { OnErr result (out.new.items ≡ out.old.items) }
{
    let start = out.len();
    let written = put_looks(out, looks);
    all_or_nothing(written, out, start)
}

/// Appends the operation's message. Refused `OutOfMemory` alone, and then the vector is as it was.
pub fn encode(op: &Op, out: &mut Vec<u8>) -> Result<(), Refusal>
    ensures ok { OnOk result (out.new.items ≡ out.old.items ++ spelling op.now) }
    ensures errors { RefusedForMemoryAlone result }
    ensures err { OnErr result (out.new.items ≡ out.old.items) }
{
    op.lemma_has_spelling();
    let start = out.len();
    let written = put_op(out, op);
    all_or_nothing(written, out, start)
}
