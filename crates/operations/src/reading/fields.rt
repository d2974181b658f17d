//! The fields of a message, each with the bytes after it.

ghost use Rattle.std.specs.Prelude.{◌≡◌};
ghost use Rattle.std.specs.Int.{w16, w32, w64};
ghost use Rattle.looks.specs.Looks.{plain_looks};
ghost use Rattle.byte_fields.specs.Fields.{Finds, positive_at};
ghost use Rattle.operations.specs.Reading.{font_at, colour_at, offset_at, looks_at, selected_or, selected_at};
ghost use Rattle.operations.specs.Reading.{sel_at, checked_anchor, anchor_at};

use byte_fields::{stretch_at, u8_at, u16_at, u32_at, u64_at};
use char_files::{Anchor, Name, SiteNo};
use looks::{Colour, FontName, Looks, Sel};

// A number from 1 on.
#[tactic(auto, unfolding(byte_fields::specs::Fields::positive_at))]
pub(super) fn positive_u16_at(bytes: &[u8]) -> Option<(u16, &[u8])>
    ensures { Finds (λ x. (x.0, x.1.now)) result (positive_at w16 bytes.now) }
{
    let (number, rest) = u16_at(bytes)?;
    if number == 0 {
        return None;
    }
    Some((number, rest))
}

// A number from 1 on.
#[tactic(auto, unfolding(byte_fields::specs::Fields::positive_at))]
pub(super) fn positive_u32_at(bytes: &[u8]) -> Option<(u32, &[u8])>
    ensures { Finds (λ x. (x.0, x.1.now)) result (positive_at w32 bytes.now) }
{
    let (number, rest) = u32_at(bytes)?;
    if number == 0 {
        return None;
    }
    Some((number, rest))
}

// A number from 1 on.
#[tactic(auto, unfolding(byte_fields::specs::Fields::positive_at))]
pub(super) fn positive_u64_at(bytes: &[u8]) -> Option<(u64, &[u8])>
    ensures { Finds (λ x. (x.0, x.1.now)) result (positive_at w64 bytes.now) }
{
    let (number, rest) = u64_at(bytes)?;
    if number == 0 {
        return None;
    }
    Some((number, rest))
}

#[tactic(auto, unfolding(crate::specs::Reading::font_at), using(crate::proofs::Fields::font_name_is))]
fn font_at(bytes: &[u8]) -> Option<(FontName, &[u8])>
    ensures { Finds (λ x. (x.0, x.1.now)) result (font_at bytes.now) }
{
    let (len, rest) = u8_at(bytes)?;
    let (name, rest) = stretch_at(usize::from(len), rest)?;
    let font = FontName::new(name)?;
    Some((font, rest))
}

#[tactic(auto, unfolding(crate::specs::Reading::colour_at))]
fn colour_at(bytes: &[u8]) -> Option<(Colour, &[u8])>
    ensures { Finds (λ x. (x.0, x.1.now)) result (colour_at bytes.now) }
{
    let (number, rest) = u8_at(bytes)?;
    let colour = Colour::new(number)?;
    Some((colour, rest))
}

#[tactic(auto, unfolding(crate::specs::Reading::offset_at))]
fn offset_at(bytes: &[u8]) -> Option<(i8, &[u8])>
    ensures { Finds (λ x. (x.0, x.1.now)) result (offset_at bytes.now) }
{
    let (number, rest) = u8_at(bytes)?;
    Some((number.cast_signed(), rest))
}

#[tactic(auto, unfolding(crate::specs::Reading::looks_at))]
pub(super) fn looks_at(bytes: &[u8]) -> Option<(Looks, &[u8])>
    ensures { Finds (λ x. (x.0, x.1.now)) result (looks_at bytes.now) }
{
    let Some((font, rest)) = font_at(bytes) else {
        return None;
    };
    let Some((colour, rest)) = colour_at(rest) else {
        return None;
    };
    let (offset, rest) = offset_at(rest)?;
    let looks = Looks {
        font,
        colour,
        offset,
    };
    Some((looks, rest))
}

fn font_or_default(selected: bool, bytes: &[u8]) -> Option<(FontName, &[u8])>
    ensures { Finds (λ x. (x.0, x.1.now)) result (selected_or selected plain_looks.font font_at bytes.now) }
{
    if selected {
        font_at(bytes)
    } else {
        Some((Looks::plain().font, bytes))
    }
}

fn colour_or_default(selected: bool, bytes: &[u8]) -> Option<(Colour, &[u8])>
    ensures { Finds (λ x. (x.0, x.1.now)) result
        (selected_or selected plain_looks.colour colour_at bytes.now) }
{
    if selected {
        colour_at(bytes)
    } else {
        Some((Looks::plain().colour, bytes))
    }
}

fn offset_or_default(selected: bool, bytes: &[u8]) -> Option<(i8, &[u8])>
    ensures { Finds (λ x. (x.0, x.1.now)) result
        (selected_or selected plain_looks.offset offset_at bytes.now) }
{
    if selected {
        offset_at(bytes)
    } else {
        Some((Looks::plain().offset, bytes))
    }
}

/// The looks that the bytes begin with, as a ChangeLooks spells them, and the bytes after them: the selected values alone
/// stand there, and each other one is the default. `None` where they begin with none.
#[tactic(auto, unfolding(crate::specs::Reading::selected_at))]
pub fn selected_at(sel: Sel, bytes: &[u8]) -> Option<(Looks, &[u8])>
    ensures { Finds (λ x. (x.0, x.1.now)) result (selected_at sel bytes.now) }
{
    let Some((font, rest)) = font_or_default(sel.font(), bytes) else {
        return None;
    };
    let Some((colour, rest)) = colour_or_default(sel.colour(), rest) else {
        return None;
    };
    let (offset, rest) = offset_or_default(sel.offset(), rest)?;
    let looks = Looks {
        font,
        colour,
        offset,
    };
    Some((looks, rest))
}

/// The selection that the bytes begin with, and the bytes after it; `None` where they begin with none.
#[tactic(auto, unfolding(crate::specs::Reading::sel_at), using(crate::proofs::Fields::selection_is))]
pub fn sel_at(bytes: &[u8]) -> Option<(Sel, &[u8])>
    ensures { Finds (λ x. (x.0, x.1.now)) result (sel_at bytes.now) }
{
    let (bits, rest) = u8_at(bytes)?;
    let sel = Sel::new(bits)?;
    Some((sel, rest))
}

// The cause of these numbers: the root is offset 0 of site 0.
fn anchor_of(site: u16, off: u32) -> Option<Anchor>
    ensures { result ≡ checked_anchor site off }
{
    match SiteNo::new(site) {
        None if off == 0 => Some(Anchor::Root),
        None => None,
        Some(site) => Some(Anchor::At(Name::new(site, off)?)),
    }
}

#[tactic(auto, unfolding(crate::specs::Reading::anchor_at))]
pub(super) fn anchor_at(bytes: &[u8]) -> Option<(Anchor, &[u8])>
    ensures { Finds (λ x. (x.0, x.1.now)) result (anchor_at bytes.now) }
{
    let (site, rest) = u16_at(bytes)?;
    let (off, rest) = u32_at(rest)?;
    let anchor = anchor_of(site, off)?;
    Some((anchor, rest))
}
