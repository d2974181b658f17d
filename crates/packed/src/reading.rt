ghost use Rattle.std.specs.Prelude.{◌≡◌, [], ◌∷◌, IfOk};
ghost use Rattle.byte_fields.specs.Fields.{Finds};
ghost use Rattle.looks.specs.Refusal.{RefusedForMemoryAlone};
ghost use Rattle.operations.specs.NameSet.{of_name};
ghost use Rattle.operations.specs.Reading.{looks_at};
ghost use Rattle.operations.specs.Seen.{kind_of};
ghost use Rattle.packed.specs.Reading.{site_at, same_site, other_site_at, later_at, time_at, other_looks_at};
ghost use Rattle.packed.specs.Reading.{typed_looks_at, near_at, root_from, name_from, far_at, step_from, place_at};
ghost use Rattle.packed.specs.Reading.{long_at, code_at, bytes_at, one_from, insert_from, here_at, placed_at};
ghost use Rattle.packed.specs.Reading.{is_of, named, packed_delete_at, packed_restore_at, packed_change_at, edit_at};
ghost use Rattle.packed.specs.Seen.{view_edit};

use crate::codes::{
    BYTES, CHANGE_LOOKS, DELETE, DELETE_SET, ESCAPE, FAR, LATER, OTHER_LOOKS, OTHER_SITE, RESTORE,
    STEP, is_code,
};
use crate::expected::Expected;
use crate::numbers::{number_at, step_at};
use crate::sets::{PackedSet, set_at};
use crate::writing::{all_selected, is_last, same_looks};
use byte_fields::{stretch_at, u8_at};
use char_files::{Anchor, MAX_FILE, Name, SiteNo};
use looks::{Looks, Refusal, Sel};
use operations::{Kind, NameSet, sel_at, selected_at};
use std::alloc::Global;

// What an operation does, before memory is asked for.
#[derive(Drop)]
pub(crate) enum Edit<'a> {
    Insert {
        place: Anchor,
        at: u32,
        looks: Looks,
        bytes: &'a [u8],
    },
    // Deletes one character.
    One {
        name: Name,
    },
    Delete {
        names: PackedSet<'a>,
    },
    Restore {
        names: PackedSet<'a>,
    },
    ChangeLooks {
        sel: Sel,
        looks: Looks,
        names: PackedSet<'a>,
    },
}

// An operation that comes next.
#[derive(Drop)]
pub(crate) struct Read<'a> {
    pub(crate) site: SiteNo,
    // By how much the stamp is above the one expected.
    pub(crate) more: u64,
    pub(crate) edit: Edit<'a>,
}

impl<'a> Edit<'a> {
    // The kind of this edit. Refused `OutOfMemory` alone.
    pub(crate) fn kind(self, alloc: Global) -> Result<Kind, Refusal>
        ensures ok { IfOk result (λ kind. kind_of kind ≡ view_edit self.entry) }
        ensures errors { RefusedForMemoryAlone result }
    {
        Ok(match self {
            Edit::Insert {
                place,
                at,
                looks,
                bytes,
            } => Kind::Insert {
                cause: place,
                at,
                looks,
                bytes: Vec::from_slice(alloc, bytes)?,
            },
            Edit::One { name } => Kind::Delete {
                names: one_name(alloc, name)?,
            },
            Edit::Delete { names } => Kind::Delete {
                names: names.set(alloc)?,
            },
            Edit::Restore { names } => Kind::Restore {
                names: names.set(alloc)?,
            },
            Edit::ChangeLooks { sel, looks, names } => Kind::ChangeLooks {
                sel,
                looks,
                names: names.set(alloc)?,
            },
        })
    }
}

// The set of this name. Refused `OutOfMemory` alone.
fn one_name(alloc: Global, name: Name) -> Result<NameSet, Refusal>
    ensures ok { IfOk result (λ set. set ≡ of_name name ∷ []) }
    ensures errors { RefusedForMemoryAlone result }
{
    let mut names = NameSet::new(alloc);
    names.insert(name)?;
    Ok(names)
}

// A site's number.
#[tactic(auto, unfolding(crate::specs::Reading::site_at))]
fn site_at(bytes: &[u8]) -> Option<(SiteNo, &[u8])>
    ensures { Finds (λ x. (x.0, x.1.now)) result (site_at bytes.now) }
{
    let (number, rest) = number_at(bytes)?;
    if number > u64::from(u16::MAX) {
        return None;
    }
    let site = SiteNo::new(number as u16)?;
    Some((site, rest))
}

// The site of the operation before again.
fn same_site(last: Option<SiteNo>, more: u64, rest: &[u8]) -> Option<((SiteNo, u64), &[u8])>
    ensures { Finds (λ x. (x.0, x.1.now)) result (same_site last more rest.now) }
{
    let site = last?;
    Some(((site, more), rest))
}

#[tactic(auto, unfolding(crate::specs::Reading::other_site_at))]
fn other_site_at(last: Option<SiteNo>, bytes: &[u8]) -> Option<((SiteNo, u64), &[u8])>
    ensures { Finds (λ x. (x.0, x.1.now)) result (other_site_at last bytes.now) }
{
    let Some((site, rest)) = site_at(bytes) else {
        return None;
    };
    let (more, rest) = number_at(rest)?;
    if is_last(last, site) {
        return None;
    }
    Some(((site, more), rest))
}

#[tactic(auto, unfolding(crate::specs::Reading::later_at))]
fn later_at(last: Option<SiteNo>, bytes: &[u8]) -> Option<((SiteNo, u64), &[u8])>
    ensures { Finds (λ x. (x.0, x.1.now)) result (later_at last bytes.now) }
{
    let (more, rest) = number_at(bytes)?;
    if more == 0 {
        return None;
    }
    same_site(last, more, rest)
}

// The site, and by how much the stamp is above the one expected.
#[tactic(auto, unfolding(crate::specs::Reading::time_at))]
pub(crate) fn time_at(last: Option<SiteNo>, bytes: &[u8]) -> Option<((SiteNo, u64), &[u8])>
    ensures { Finds (λ x. (x.0, x.1.now)) result (time_at last bytes.now) }
{
    let (first, rest) = u8_at(bytes)?;
    match first {
        OTHER_SITE => other_site_at(last, rest),
        LATER => later_at(last, rest),
        _ => same_site(last, 0, bytes),
    }
}

#[tactic(auto, unfolding(operations::specs::Reading::looks_at, operations::specs::Reading::selected_at))]
fn looks_at(bytes: &[u8]) -> Option<(Looks, &[u8])>
    ensures { Finds (λ x. (x.0, x.1.now)) result (looks_at bytes.now) }
{
    selected_at(all_selected(), bytes)
}

#[tactic(auto, unfolding(crate::specs::Reading::other_looks_at))]
fn other_looks_at<'a>(typed: &Looks, bytes: &'a [u8]) -> Option<(Looks, &'a [u8])>
    ensures { Finds (λ x. (x.0, x.1.now)) result (other_looks_at typed.now bytes.now) }
{
    let Some((looks, rest)) = looks_at(bytes) else {
        return None;
    };
    if same_looks(typed, &looks) {
        return None;
    }
    Some((looks, rest))
}

// An Insert's looks, where the site types in these.
#[tactic(auto, unfolding(crate::specs::Reading::typed_looks_at))]
fn typed_at<'a>(typed: &Looks, bytes: &'a [u8]) -> Option<(Looks, &'a [u8])>
    ensures { Finds (λ x. (x.0, x.1.now)) result (typed_looks_at typed.now bytes.now) }
{
    let (first, rest) = u8_at(bytes)?;
    if first == OTHER_LOOKS {
        return other_looks_at(typed, rest);
    }
    Some((typed.copy(), bytes))
}

// The name of these numbers.
fn named(site: u64, off: u64) -> Option<Name>
    ensures { result ≡ named site off }
{
    if site > u64::from(u16::MAX) || off >= MAX_FILE {
        return None;
    }
    let site = SiteNo::new(site as u16)?;
    Name::new(site, off as u32)
}

// Another place in the caret's file.
#[tactic(auto, unfolding(crate::specs::Reading::near_at))]
fn near_at(caret: Name, bytes: &[u8]) -> Option<(Anchor, &[u8])>
    ensures { Finds (λ x. (x.0, x.1.now)) result (near_at caret bytes.now) }
{
    let (off, rest) = step_at(caret.off(), bytes)?;
    let name = named(u64::from(caret.site().get()), u64::from(off))?;
    if off == caret.off() {
        return None;
    }
    Some((Anchor::At(name), rest))
}

// The root, where the caret isn't there.
fn root_from(caret: Anchor, rest: &[u8]) -> Option<(Anchor, &[u8])>
    ensures { Finds (λ x. (x.0, x.1.now)) result (root_from caret rest.now) }
{
    match caret {
        Anchor::At(_) => Some((Anchor::Root, rest)),
        Anchor::Root => None,
    }
}

// Whether the caret is a name of this site.
fn is_of(caret: Anchor, site: u64) -> bool
    ensures { result ≡ is_of caret site }
{
    match caret {
        Anchor::Root => false,
        Anchor::At(name) => site == u64::from(name.site().get()),
    }
}

// A name of this site, which isn't the caret's.
#[tactic(auto, unfolding(crate::specs::Reading::name_from))]
fn name_from(caret: Anchor, site: u64, bytes: &[u8]) -> Option<(Anchor, &[u8])>
    ensures { Finds (λ x. (x.0, x.1.now)) result (name_from caret site bytes.now) }
{
    let (off, rest) = number_at(bytes)?;
    let name = named(site, off)?;
    if is_of(caret, site) {
        return None;
    }
    Some((Anchor::At(name), rest))
}

// The root, or a place in another file than the caret's.
#[tactic(auto, unfolding(crate::specs::Reading::far_at))]
fn far_at(caret: Anchor, bytes: &[u8]) -> Option<(Anchor, &[u8])>
    ensures { Finds (λ x. (x.0, x.1.now)) result (far_at caret bytes.now) }
{
    let (site, rest) = number_at(bytes)?;
    if site == 0 {
        return root_from(caret, rest);
    }
    name_from(caret, site, rest)
}

// Another place in the caret's file, if that has one.
fn step_from(caret: Anchor, bytes: &[u8]) -> Option<(Anchor, &[u8])>
    ensures { Finds (λ x. (x.0, x.1.now)) result (step_from caret bytes.now) }
{
    match caret {
        Anchor::Root => None,
        Anchor::At(name) => near_at(name, bytes),
    }
}

// Where an edit is.
#[tactic(auto, unfolding(crate::specs::Reading::place_at))]
fn place_at(caret: Anchor, bytes: &[u8]) -> Option<(Anchor, &[u8])>
    ensures { Finds (λ x. (x.0, x.1.now)) result (place_at caret bytes.now) }
{
    let (first, rest) = u8_at(bytes)?;
    match first {
        STEP => step_from(caret, rest),
        FAR => far_at(caret, rest),
        _ => Some((caret, bytes)),
    }
}

// Two bytes or more.
#[tactic(auto, unfolding(crate::specs::Reading::long_at))]
fn long_at(bytes: &[u8]) -> Option<(&[u8], &[u8])>
    ensures { Finds (λ x. (x.0.now, x.1.now)) result (long_at bytes.now) }
{
    let (more, rest) = number_at(bytes)?;
    stretch_at(more as usize + 2, rest)
}

// A byte that is a code.
#[tactic(auto, unfolding(crate::specs::Reading::code_at))]
fn code_at(in_chunk: bool, bytes: &[u8]) -> Option<(&[u8], &[u8])>
    ensures { Finds (λ x. (x.0.now, x.1.now)) result (code_at in_chunk bytes.now) }
{
    let (first, _) = u8_at(bytes)?;
    if !is_code(in_chunk, first) {
        return None;
    }
    stretch_at(1, bytes)
}

// The bytes of an Insert.
#[tactic(auto, unfolding(crate::specs::Reading::bytes_at))]
fn bytes_at(in_chunk: bool, bytes: &[u8]) -> Option<(&[u8], &[u8])>
    ensures { Finds (λ x. (x.0.now, x.1.now)) result (bytes_at in_chunk bytes.now) }
{
    let (first, rest) = u8_at(bytes)?;
    match first {
        BYTES => long_at(rest),
        ESCAPE => code_at(in_chunk, rest),
        _ if is_code(in_chunk, first) => None,
        _ => stretch_at(1, bytes),
    }
}

// A Delete of the character at this place, which comes with no looks.
fn one_from<'a>(
    typed: &Looks,
    looks: &Looks,
    place: Anchor,
    rest: &'a [u8],
) -> Option<(Edit<'a>, &'a [u8])>
    ensures { Finds (λ x. (view_edit x.0, x.1.now)) result (one_from typed.now looks.now place rest.now) }
{
    match place {
        Anchor::At(name) if same_looks(typed, looks) => Some((Edit::One { name }, rest)),
        _ => None,
    }
}

// An Insert of these looks at this place.
#[tactic(auto, unfolding(crate::specs::Reading::insert_from))]
fn insert_from<'a>(
    in_chunk: bool,
    at: u32,
    looks: Looks,
    place: Anchor,
    bytes: &'a [u8],
) -> Option<(Edit<'a>, &'a [u8])>
    ensures { Finds (λ x. (view_edit x.0, x.1.now)) result (insert_from in_chunk at looks place bytes.now) }
{
    let (bytes, rest) = bytes_at(in_chunk, bytes)?;
    let edit = Edit::Insert {
        place,
        at,
        looks,
        bytes,
    };
    Some((edit, rest))
}

// An Insert or a Delete of one character, of these looks at this place.
#[tactic(auto, unfolding(crate::specs::Reading::here_at))]
fn here_at<'a>(
    in_chunk: bool,
    expected: &Expected,
    looks: Looks,
    place: Anchor,
    bytes: &'a [u8],
) -> Option<(Edit<'a>, &'a [u8])>
    ensures { Finds (λ x. (view_edit x.0, x.1.now)) result (here_at in_chunk expected.now looks place bytes.now) }
{
    let (first, rest) = u8_at(bytes)?;
    if first == DELETE {
        return one_from(&expected.looks, &looks, place, rest);
    }
    insert_from(in_chunk, expected.len, looks, place, bytes)
}

// An Insert or a Delete of one character.
#[tactic(auto, unfolding(crate::specs::Reading::placed_at))]
fn placed_at<'a>(
    in_chunk: bool,
    expected: &Expected,
    bytes: &'a [u8],
) -> Option<(Edit<'a>, &'a [u8])>
    ensures { Finds (λ x. (view_edit x.0, x.1.now)) result (placed_at in_chunk expected.now bytes.now) }
{
    let Some((looks, rest)) = typed_at(&expected.looks, bytes) else {
        return None;
    };
    let Some((place, rest)) = place_at(expected.caret, rest) else {
        return None;
    };
    here_at(in_chunk, expected, looks, place, rest)
}

// A Delete of another set than one character.
#[tactic(auto, unfolding(crate::specs::Reading::packed_delete_at))]
fn delete_at(bytes: &[u8]) -> Option<(Edit<'_>, &[u8])>
    ensures { Finds (λ x. (view_edit x.0, x.1.now)) result (packed_delete_at bytes.now) }
{
    let (names, rest) = set_at(bytes)?;
    if names.is_one() {
        return None;
    }
    Some((Edit::Delete { names }, rest))
}

#[tactic(auto, unfolding(crate::specs::Reading::packed_restore_at))]
fn restore_at(bytes: &[u8]) -> Option<(Edit<'_>, &[u8])>
    ensures { Finds (λ x. (view_edit x.0, x.1.now)) result (packed_restore_at bytes.now) }
{
    let (names, rest) = set_at(bytes)?;
    Some((Edit::Restore { names }, rest))
}

#[tactic(auto, unfolding(crate::specs::Reading::packed_change_at))]
fn change_at(bytes: &[u8]) -> Option<(Edit<'_>, &[u8])>
    ensures { Finds (λ x. (view_edit x.0, x.1.now)) result (packed_change_at bytes.now) }
{
    let Some((sel, rest)) = sel_at(bytes) else {
        return None;
    };
    let Some((looks, rest)) = selected_at(sel, rest) else {
        return None;
    };
    let Some((names, rest)) = set_at(rest) else {
        return None;
    };
    Some((Edit::ChangeLooks { sel, looks, names }, rest))
}

// What an operation does, where this is expected of its site.
#[tactic(auto, unfolding(crate::specs::Reading::edit_at))]
pub(crate) fn edit_at<'a>(
    in_chunk: bool,
    expected: &Expected,
    bytes: &'a [u8],
) -> Option<(Edit<'a>, &'a [u8])>
    ensures { Finds (λ x. (view_edit x.0, x.1.now)) result (edit_at in_chunk expected.now bytes.now) }
{
    let (first, rest) = u8_at(bytes)?;
    match first {
        DELETE_SET => delete_at(rest),
        CHANGE_LOOKS => change_at(rest),
        RESTORE => restore_at(rest),
        _ => placed_at(in_chunk, expected, bytes),
    }
}
