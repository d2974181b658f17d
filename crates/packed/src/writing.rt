ghost use Rattle.std.specs.Prelude.{◌≡◌, ◌<◌, ◌≤◌, ◌^◌, [], ◌∷◌, ◌++◌, length, true};
ghost use Rattle.byte_fields.specs.Fields.{Appends};
ghost use Rattle.char_files.specs.Runs.{same_looks};
ghost use Rattle.operations.specs.NameSet.{IsNamed};
ghost use Rattle.operations.specs.Spelling.{selected_spelling};
ghost use Rattle.looks.specs.Sel.{bits_of};
ghost use Rattle.char_files.specs.declared.name.Anchor.TheVariants.{Root, At};
ghost use Rattle.operations.specs.declared.kind.TheConstants.{MAX_INSERT};
ghost use Rattle.packed.specs.Numbers.{sevens};
ghost use Rattle.packed.specs.Sets.{packed_set};
ghost use Rattle.packed.specs.Spelling.{is_last, time_lead, looks_lead, place_lead, bytes_spelling};
ghost use Rattle.packed.specs.Spelling.{delete_spelling, edit_spelling};

use crate::codes::{
    BYTES, CHANGE_LOOKS, DELETE, DELETE_SET, ESCAPE, FAR, LATER, OTHER_LOOKS, OTHER_SITE, RESTORE,
    STEP, is_code,
};
use crate::expected::{Expected, name_at};
use crate::numbers::{put_number, put_step};
use crate::sets::put_set;
use char_files::{Anchor, Name, SiteNo};
use looks::{Looks, Sel};
use operations::{Kind, NameSet, Op, put_selected};
use std::alloc::AllocError;

// Whether the last operation was of this site.
pub(crate) fn is_last(last: Option<SiteNo>, site: SiteNo) -> bool
    ensures { result ≡ is_last last site }
{
    match last {
        None => false,
        Some(last) => site.get() == last.get(),
    }
}

// Whether both are the same looks.
pub(crate) fn same_looks(typed: &Looks, looks: &Looks) -> bool
    ensures { result ≡ same_looks typed.now looks.now }
{
    *typed == *looks
}

// All that looks have.
pub(crate) fn all_selected() -> Sel
    ensures { result ≡ record { font = true; colour = true; offset = true } }
{
    Sel::new(0b111).unwrap()
}

// A site that isn't that of the operation before, and by how much the stamp is above the one expected.
fn put_other_site(out: &mut Vec<u8>, site: SiteNo, more: u64) -> Result<(), AllocError>
    requires { more < 2 ^ 49 }
    ensures { Appends result out.old.items out.new.items (1 ∷ sevens site ++ sevens more) }
{
    out.push(OTHER_SITE)?;
    put_number(out, u64::from(site.get()))?;
    put_number(out, more)
}

// The site, where it isn't that of the operation before, and by how much the stamp is above the one expected.
pub(crate) fn put_time(
    out: &mut Vec<u8>,
    last: Option<SiteNo>,
    site: SiteNo,
    more: u64,
) -> Result<(), AllocError>
    requires { more < 2 ^ 49 }
    ensures { Appends result out.old.items out.new.items (time_lead last site more) }
{
    if !is_last(last, site) {
        return put_other_site(out, site, more);
    }
    if more == 0 {
        return Ok(());
    }
    out.push(LATER)?;
    put_number(out, more)
}

// The looks, where they aren't those that the site types in.
fn put_looks(out: &mut Vec<u8>, typed: &Looks, looks: &Looks) -> Result<(), AllocError>
    ensures { Appends result out.old.items out.new.items (looks_lead typed.now looks.now) }
{
    if same_looks(typed, looks) {
        return Ok(());
    }
    out.push(OTHER_LOOKS)?;
    put_selected(out, all_selected(), looks)
}

// A name of a site that isn't the caret's.
fn put_far(out: &mut Vec<u8>, name: Name) -> Result<(), AllocError>
    ensures { Appends result out.old.items out.new.items (5 ∷ sevens name.site ++ sevens name.off) }
{
    out.push(FAR)?;
    put_number(out, u64::from(name.site().get()))?;
    put_number(out, u64::from(name.off()))
}

// A name, where it isn't the caret.
fn put_name(out: &mut Vec<u8>, caret: Name, name: Name) -> Result<(), AllocError>
    ensures { Appends result out.old.items out.new.items (place_lead (At caret) (At name)) }
{
    if name.site().get() != caret.site().get() {
        return put_far(out, name);
    }
    if name.off() == caret.off() {
        return Ok(());
    }
    out.push(STEP)?;
    put_step(out, caret.off(), name.off())
}

// The place of an edit, where the caret is at the root.
fn put_from_root(out: &mut Vec<u8>, place: Anchor) -> Result<(), AllocError>
    ensures { Appends result out.old.items out.new.items (place_lead Root place) }
{
    match place {
        Anchor::Root => Ok(()),
        Anchor::At(name) => put_far(out, name),
    }
}

// The place of an edit, where the caret is at a name.
fn put_from_name(out: &mut Vec<u8>, caret: Name, place: Anchor) -> Result<(), AllocError>
    ensures { Appends result out.old.items out.new.items (place_lead (At caret) place) }
{
    match place {
        Anchor::Root => {
            out.push(FAR)?;
            put_number(out, 0)
        }
        Anchor::At(name) => put_name(out, caret, name),
    }
}

// The place of an edit, if that isn't the caret.
fn put_place(out: &mut Vec<u8>, caret: Anchor, place: Anchor) -> Result<(), AllocError>
    ensures { Appends result out.old.items out.new.items (place_lead caret place) }
{
    match caret {
        Anchor::Root => put_from_root(out, place),
        Anchor::At(name) => put_from_name(out, name, place),
    }
}

// One byte, as itself or, where it is a code, after what says that it isn't one.
fn put_byte(out: &mut Vec<u8>, in_chunk: bool, byte: u8) -> Result<(), AllocError>
    ensures { Appends result out.old.items out.new.items (bytes_spelling in_chunk (byte ∷ [])) }
{
    if is_code(in_chunk, byte) {
        out.push(ESCAPE)?;
    }
    out.push(byte)?;
    Ok(())
}

// The bytes of an Insert.
fn put_bytes(out: &mut Vec<u8>, in_chunk: bool, bytes: &[u8]) -> Result<(), AllocError>
    requires some { 0 < length bytes.now }
    requires few { length bytes.now ≤ MAX_INSERT }
    ensures { Appends result out.old.items out.new.items (bytes_spelling in_chunk bytes.now) }
{
    if let [byte] = bytes {
        return put_byte(out, in_chunk, *byte);
    }
    out.push(BYTES)?;
    put_number(out, bytes.len() as u64 - 2)?;
    out.extend_from_slice(bytes)
}

// A set of names after the byte that says what becomes of them.
fn put_names(out: &mut Vec<u8>, code: u8, names: &NameSet) -> Result<(), AllocError>
    requires { IsNamed names.now }
    ensures { Appends result out.old.items out.new.items (code ∷ packed_set names.now) }
{
    out.push(code)?;
    put_set(out, names)
}

fn put_delete(out: &mut Vec<u8>, caret: Anchor, names: &NameSet) -> Result<(), AllocError>
    requires { IsNamed names.now }
    ensures { Appends result out.old.items out.new.items (delete_spelling caret names.now) }
{
    match names.ranges() {
        [one] if one.len() == 1 => {
            put_place(out, caret, name_at(one.site(), one.at()))?;
            out.push(DELETE)?;
            Ok(())
        }
        _ => put_names(out, DELETE_SET, names),
    }
}

// What is selected, its values, and of which names.
fn put_values(out: &mut Vec<u8>, sel: Sel, looks: &Looks, names: &NameSet) -> Result<(), AllocError>
    requires { IsNamed names.now }
    ensures { Appends result out.old.items out.new.items
        (bits_of sel ∷ selected_spelling sel looks.now ++ packed_set names.now) }
{
    out.push(sel.bits())?;
    put_selected(out, sel, looks)?;
    put_set(out, names)
}

fn put_change(out: &mut Vec<u8>, sel: Sel, looks: &Looks, names: &NameSet) -> Result<(), AllocError>
    requires { IsNamed names.now }
    ensures { Appends result out.old.items out.new.items
        (11 ∷ bits_of sel ∷ selected_spelling sel looks.now ++ packed_set names.now) }
{
    out.push(CHANGE_LOOKS)?;
    put_values(out, sel, looks, names)
}

fn put_insert(
    out: &mut Vec<u8>,
    in_chunk: bool,
    expected: &Expected,
    cause: Anchor,
    looks: &Looks,
    bytes: &[u8],
) -> Result<(), AllocError>
    requires some { 0 < length bytes.now }
    requires few { length bytes.now ≤ MAX_INSERT }
    ensures { Appends result out.old.items out.new.items (looks_lead expected.now.looks looks.now
        ++ place_lead expected.now.caret cause ++ bytes_spelling in_chunk bytes.now) }
{
    put_looks(out, &expected.looks, looks)?;
    put_place(out, expected.caret, cause)?;
    put_bytes(out, in_chunk, bytes)
}

// What the operation does, where this is expected of its site.
pub(crate) fn put_edit(
    out: &mut Vec<u8>,
    in_chunk: bool,
    expected: &Expected,
    op: &Op,
) -> Result<(), AllocError>
    ensures { Appends result out.old.items out.new.items (edit_spelling in_chunk expected.now op.now.kind) }
{
    op.lemma_has_spelling();
    match op.kind() {
        Kind::Insert {
            cause,
            looks,
            bytes,
            ..
        } => put_insert(out, in_chunk, expected, *cause, looks, bytes),
        Kind::Delete { names } => put_delete(out, expected.caret, names),
        Kind::Restore { names } => put_names(out, RESTORE, names),
        Kind::ChangeLooks { sel, looks, names } => put_change(out, *sel, looks, names),
    }
}
