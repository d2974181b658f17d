ghost use Rattle.std.specs.Prelude.{◌≡◌, ℕ, ◌<◌, ◌≤◌, ◌++◌, ◌↔◌, ◌⊎◌, ◌&&◌, List, length, take, Some};
ghost use Rattle.std.specs.Prelude.{IsNone, IfSome, IfOk, IfErr, IsErrOf};
ghost use Rattle.looks.specs.declared.looks.Looks.{Looks};
ghost use Rattle.looks.specs.Looks.{IsLooks};
ghost use Rattle.looks.specs.Refusal.{RefusedForMemoryAlone};
ghost use Rattle.operations.specs.Operation.{Operation};
ghost use Rattle.operations.specs.Spelling.{HasSpelling, looks_spelling, spelling};
ghost use Rattle.byte_fields.specs.Fields.{Finds};
ghost use Rattle.operations.specs.Reading.{FindsWithMemory, looks_len_at, fits_in_file, is_cause, insert_at};
ghost use Rattle.operations.specs.Reading.{delete_at, restore_at, change_at, kind_at, message_tag_at, stamp_at};
ghost use Rattle.operations.specs.Reading.{header_at, operation_of, operation_at, message_of, SpellsNone};
ghost use Rattle.operations.specs.Reading.{NoneBeginsAnother, LooksAreDetermined, NoneIsShared};
ghost use Rattle.operations.specs.Parts.{view_header, view_parts, NamesFew};
ghost use Rattle.operations.specs.Seen.{kind_of};

mod fields;
mod sets;

use crate::kind::{
    CHANGE_LOOKS, DELETE, INSERT, Kind, RESTORE, fits_in_file, is_cause, version_of,
};
use crate::op::{MAX_STAMP, Op};
use byte_fields::{site_at, stretch_at, text_at, u16_at, u32_at};
use char_files::{Anchor, SiteNo, TextNo};
use fields::{anchor_at, looks_at, positive_u32_at, positive_u64_at};
pub use fields::{sel_at, selected_at};
use looks::{Looks, Refusal, Sel};
use sets::{Ranges, set_at};
use std::alloc::Global;

// What all messages begin with.
#[derive(Clone, Copy, Drop)]
struct Header {
    kind: u8,
    text: TextNo,
    site: SiteNo,
    seq: u32,
    stamp: u64,
}

// What a kind has to itself, before memory is asked for.
#[derive(Drop)]
enum Parts<'a> {
    Insert {
        cause: Anchor,
        at: u32,
        looks: Looks,
        bytes: &'a [u8],
    },
    Delete {
        names: Ranges<'a>,
    },
    Restore {
        names: Ranges<'a>,
    },
    ChangeLooks {
        sel: Sel,
        looks: Looks,
        names: Ranges<'a>,
    },
}

#[tactic(auto, using(crate::proofs::Fields::is_cause_is))]
fn may_insert(site: SiteNo, cause: &Anchor, at: u32, len: u16) -> bool
    ensures { result ≡ (fits_in_file at len && is_cause site at cause.now) }
{
    fits_in_file(at, usize::from(len)) && is_cause(site, at, *cause)
}

#[tactic(auto, unfolding(crate::specs::Reading::insert_at))]
fn insert_at(site: SiteNo, bytes: &[u8]) -> Option<(Parts<'_>, &[u8])>
    ensures { Finds (λ x. (view_parts x.0, x.1.now)) result (insert_at site bytes.now) }
{
    let Some((cause, rest)) = anchor_at(bytes) else {
        return None;
    };
    let (at, rest) = u32_at(rest)?;
    let Some((looks, rest)) = looks_at(rest) else {
        return None;
    };
    let (len, rest) = u16_at(rest)?;
    let (bytes, rest) = stretch_at(usize::from(len), rest)?;
    if !may_insert(site, &cause, at, len) {
        return None;
    }
    let parts = Parts::Insert {
        cause,
        at,
        looks,
        bytes,
    };
    Some((parts, rest))
}

#[tactic(auto, unfolding(crate::specs::Reading::delete_at))]
fn delete_at(bytes: &[u8]) -> Option<(Parts<'_>, &[u8])>
    ensures { Finds (λ x. (view_parts x.0, x.1.now)) result (delete_at bytes.now) }
{
    let (names, rest) = set_at(bytes)?;
    Some((Parts::Delete { names }, rest))
}

#[tactic(auto, unfolding(crate::specs::Reading::restore_at))]
fn restore_at(bytes: &[u8]) -> Option<(Parts<'_>, &[u8])>
    ensures { Finds (λ x. (view_parts x.0, x.1.now)) result (restore_at bytes.now) }
{
    let (names, rest) = set_at(bytes)?;
    Some((Parts::Restore { names }, rest))
}

#[tactic(auto, unfolding(crate::specs::Reading::change_at))]
fn change_at(bytes: &[u8]) -> Option<(Parts<'_>, &[u8])>
    ensures { Finds (λ x. (view_parts x.0, x.1.now)) result (change_at bytes.now) }
{
    let Some((sel, rest)) = sel_at(bytes) else {
        return None;
    };
    let Some((looks, rest)) = selected_at(sel, rest) else {
        return None;
    };
    let Some((names, rest)) = set_at(rest) else {
        return None;
    };
    Some((Parts::ChangeLooks { sel, looks, names }, rest))
}

#[tactic(auto, unfolding(crate::specs::Reading::kind_at))]
fn parts_at(kind: u8, site: SiteNo, bytes: &[u8]) -> Option<(Parts<'_>, &[u8])>
    ensures { Finds (λ x. (view_parts x.0, x.1.now)) result (kind_at kind site bytes.now) }
{
    match kind {
        INSERT => insert_at(site, bytes),
        DELETE => delete_at(bytes),
        CHANGE_LOOKS => change_at(bytes),
        RESTORE => restore_at(bytes),
        _ => None,
    }
}

// The number of the kind, after what tells a message and the kind's version.
fn tag_at(bytes: &[u8]) -> Option<(u8, &[u8])>
    ensures { Finds (λ x. (x.0, x.1.now)) result (message_tag_at bytes.now) }
{
    match bytes {
        [b'O', b'T', version, kind, rest @ ..] if *version == version_of(*kind) => {
            Some((*kind, rest))
        }
        _ => None,
    }
}

#[tactic(auto, unfolding(crate::specs::Reading::stamp_at))]
fn stamp_at(bytes: &[u8]) -> Option<(u64, &[u8])>
    ensures { Finds (λ x. (x.0, x.1.now)) result (stamp_at bytes.now) }
{
    let (stamp, rest) = positive_u64_at(bytes)?;
    if MAX_STAMP < stamp {
        return None;
    }
    Some((stamp, rest))
}

#[tactic(auto, unfolding(crate::specs::Reading::header_at))]
fn header_at(bytes: &[u8]) -> Option<(Header, &[u8])>
    ensures { Finds (λ x. (view_header x.0, x.1.now)) result (header_at bytes.now) }
{
    let (kind, rest) = tag_at(bytes)?;
    let Some((text, rest)) = text_at(rest) else {
        return None;
    };
    let Some((site, rest)) = site_at(rest) else {
        return None;
    };
    let (seq, rest) = positive_u32_at(rest)?;
    let (stamp, rest) = stamp_at(rest)?;
    let header = Header {
        kind,
        text,
        site,
        seq,
        stamp,
    };
    Some((header, rest))
}

// All that the bytes spell. Nothing may follow it.
#[tactic(auto, unfolding(crate::specs::Reading::operation_at, crate::specs::Reading::message_of))]
fn message_of(bytes: &[u8]) -> Option<(Header, Parts<'_>)>
    ensures { Finds (λ x. operation_of (view_header x.0) (view_parts x.1)) result (message_of bytes.now) }
{
    let Some((header, rest)) = header_at(bytes) else {
        return None;
    };
    let Some((parts, rest)) = parts_at(header.kind, header.site, rest) else {
        return None;
    };
    if !rest.is_empty() {
        return None;
    }
    Some((header, parts))
}

// The kind of these parts. Refused `OutOfMemory` alone.
fn kind_from(alloc: Global, parts: Parts<'_>) -> Result<Kind, Refusal>
    requires { NamesFew (view_parts parts) }
    ensures ok { IfOk result (λ kind. kind_of kind ≡ view_parts parts.entry) }
    ensures errors { RefusedForMemoryAlone result }
{
    Ok(match parts {
        Parts::Insert {
            cause,
            at,
            looks,
            bytes,
        } => Kind::Insert {
            cause,
            at,
            looks,
            bytes: Vec::from_slice(alloc, bytes)?,
        },
        Parts::Delete { names } => Kind::Delete {
            names: names.set(alloc)?,
        },
        Parts::Restore { names } => Kind::Restore {
            names: names.set(alloc)?,
        },
        Parts::ChangeLooks { sel, looks, names } => Kind::ChangeLooks {
            sel,
            looks,
            names: names.set(alloc)?,
        },
    })
}

// The operation of these parts. Refused `OutOfMemory` alone.
fn operation_from(alloc: Global, header: Header, parts: Parts<'_>) -> Result<Op, Refusal>
    requires { HasSpelling (operation_of (view_header header) (view_parts parts)) }
    ensures ok { IfOk result (λ op. op ≡ operation_of (view_header header) (view_parts parts.entry)) }
    ensures errors { RefusedForMemoryAlone result }
{
    let kind = kind_from(alloc, parts)?;
    let op = Op::new(header.text, header.site, header.seq, header.stamp, kind);
    Ok(op.unwrap())
}

fn read_message(alloc: Global, bytes: &[u8]) -> Result<Op, Refusal>
    ensures { FindsWithMemory (λ op. op) result (message_of bytes.now) }
{
    let Some((header, parts)) = message_of(bytes) else {
        return Err(Refusal::Malformed);
    };
    operation_from(alloc, header, parts)
}

/// The operation that these bytes spell, all of them.
///
/// Refused `Malformed` where they spell none, which is told before memory is asked for; else `OutOfMemory`
/// where memory is refused.
pub fn decode(alloc: Global, bytes: &[u8]) -> Result<Op, Refusal>
    // What is read is spelled so.
    ensures ok { IfOk result (λ op. bytes.now ≡ spelling op) }
    // What is spelled so is read, unless memory is refused.
    ensures only { (op : Operation) → HasSpelling op → bytes.now ≡ spelling op
        → IfOk result (λ decoded. decoded ≡ op) }
    // Whether there is memory or not.
    ensures malformed { IsErrOf result Refusal.Malformed ↔ SpellsNone bytes.now }
    ensures errors { IfErr result (λ e. (e ≡ Refusal.Malformed) ⊎ (e ≡ Refusal.OutOfMemory)) }
{
    read_message(alloc, bytes)
}

#[tactic(auto, unfolding(crate::specs::Reading::looks_len_at))]
fn looks_len_at(bytes: &[u8]) -> Option<(Looks, usize)>
    ensures { Finds (λ x. x) result (looks_len_at bytes.now) }
{
    let Some((looks, rest)) = looks_at(bytes) else {
        return None;
    };
    let len = bytes.len() - rest.len();
    Some((looks, len))
}

/// The looks that the bytes begin with, as a message spells them, and how many bytes these are; `None` where
/// they begin with none. It takes no memory.
pub fn read_looks(bytes: &[u8]) -> Option<(Looks, usize)>
    ensures some { IfSome result (λ found. IsLooks found.0 × (found.1 ≤ length bytes.now)
        × (take found.1 bytes.now ≡ looks_spelling found.0)) }
    ensures only { (looks : Looks) (rest : List ℕ) → IsLooks looks → bytes.now ≡ looks_spelling looks ++ rest
        → result ≡ Some (looks, length (looks_spelling looks)) }
    ensures none { IsNone result ↔ ((looks : Looks) (rest : List ℕ) → IsLooks looks
        → bytes.now ≡ looks_spelling looks ++ rest → ⊥) }
{
    looks_len_at(bytes)
}

/// A law: no two operations share a spelling, and no spelling begins another one; and the same of looks. A
/// proof gets it by calling this, at no cost.
pub fn lemma_one_spelling()
    ensures prefix { NoneBeginsAnother }
    ensures one { NoneIsShared }
    ensures looks { LooksAreDetermined }
{}
