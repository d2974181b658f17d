ghost use Rattle.std.specs.Prelude.{◌≡◌, ◌+◌, ◌<◌, ◌≤◌, ◌↔◌, IsTrue, IfOk};
ghost use Rattle.looks.specs.Refusal.{RefusedForMemoryAlone};
ghost use Rattle.operations.specs.Spelling.{IsKind, IsInsert, IsCause, IsChange, IsPlainElsewhere, kind_byte};
ghost use Rattle.operations.specs.Spelling.{version_byte};
ghost use Rattle.operations.specs.NameSet.{IsNamed};
ghost use Rattle.operations.specs.Seen.{kind_of};

use crate::name_set::NameSet;
use char_files::{Anchor, MAX_FILE, SiteNo};
use looks::{Looks, Refusal, Sel};

// The numbers that stand for the kinds in a message.
pub(crate) const INSERT: u8 = 1;

pub(crate) const DELETE: u8 = 2;

pub(crate) const CHANGE_LOOKS: u8 = 3;

pub(crate) const RESTORE: u8 = 4;

// The version of the messages.
const VERSION: u8 = 1;

// The version of a Restore's message, which a reader of version 1 refuses.
const RESTORE_VERSION: u8 = 2;

/// The most bytes that one Insert may have.
pub const MAX_INSERT: usize = 4096;

/// What an operation does.
#[derive(Debug, Drop)]
pub enum Kind {
    /// Puts bytes of one set of looks into the text.
    Insert {
        /// The first byte hangs on it in the tree, each other byte on the one before.
        cause: Anchor,
        /// How many bytes its site's file had before it, where its bytes are then appended.
        at: u32,
        looks: Looks,
        /// 1 to 4,096 bytes.
        bytes: Vec<u8>,
    },
    /// Hides characters, whose names stay (tombstones).
    Delete {
        /// One name at least.
        names: NameSet,
    },
    /// Shows characters again that a Delete of smaller key hides.
    Restore {
        /// One name at least.
        names: NameSet,
    },
    /// Sets some attributes of characters' looks (Project Oberon, chapter 5, ChangeLooks).
    ChangeLooks {
        sel: Sel,
        /// The values of the selected attributes; each other one has its default.
        looks: Looks,
        /// One name at least.
        names: NameSet,
    },
}

// The version of a message of the kind of this number.
pub(crate) fn version_of(kind: u8) -> u8
    ensures { result ≡ version_byte kind }
{
    if kind == RESTORE {
        RESTORE_VERSION
    } else {
        VERSION
    }
}

// Whether an Insert of this site, whose file has `at` bytes, may have this cause.
pub(crate) fn is_cause(site: SiteNo, at: u32, cause: Anchor) -> bool
    ensures { IsTrue result ↔ IsCause site at cause }
{
    match cause {
        Anchor::Root => true,
        Anchor::At(name) => {
            let own = name.site().get() == site.get();
            !own || name.off() < at
        }
    }
}

// Whether this many bytes make an Insert, after `at` bytes of its site's file.
pub(crate) fn fits_in_file(at: u32, len: usize) -> bool
    ensures { IsTrue result ↔ ((0 < len) × (len ≤ MAX_INSERT) × (at + len ≤ MAX_FILE)) }
{
    0 < len && len <= MAX_INSERT && u64::from(at) + len as u64 <= MAX_FILE
}

// Whether the fields of an Insert of this site are in range.
fn is_insert(site: SiteNo, cause: Anchor, at: u32, looks: &Looks, bytes: &[u8]) -> bool
    ensures { IsTrue result ↔ IsInsert site cause at looks.now bytes.now }
{
    looks.lemma_are_in_range();
    fits_in_file(at, bytes.len()) && is_cause(site, at, cause)
}

// Whether a message may name these characters: a set may be empty, a message's may not.
fn is_named(names: &NameSet) -> bool
    ensures { IsTrue result ↔ IsNamed names.now }
{
    !names.ranges().is_empty()
}

// Whether the attributes that aren't selected have their defaults.
fn is_plain_elsewhere(sel: Sel, looks: &Looks) -> bool
    ensures { IsTrue result ↔ IsPlainElsewhere sel looks.now }
{
    let plain = Looks::plain();
    (sel.font() || looks.font == plain.font)
        && (sel.colour() || looks.colour == plain.colour)
        && (sel.offset() || looks.offset == plain.offset)
}

// Whether the fields of a ChangeLooks are in range.
fn is_change(sel: Sel, looks: &Looks, names: &NameSet) -> bool
    ensures { IsTrue result ↔ IsChange sel looks.now names.now }
{
    looks.lemma_are_in_range();
    let _ = sel.bits();
    is_named(names) && is_plain_elsewhere(sel, looks)
}

impl Kind {
    // Whether each field is in its range, in an operation of this site.
    pub(crate) fn is_valid(&self, site: SiteNo) -> bool
        ensures { IsTrue result ↔ IsKind site (kind_of self.now) }
    {
        match self {
            Kind::Insert {
                cause,
                at,
                looks,
                bytes,
            } => is_insert(site, *cause, *at, looks, bytes),
            Kind::Delete { names } | Kind::Restore { names } => is_named(names),
            Kind::ChangeLooks { sel, looks, names } => is_change(*sel, looks, names),
        }
    }

    // The same again. Refused `OutOfMemory` alone.
    pub(crate) fn copy(&self) -> Result<Kind, Refusal>
        ensures ok { IfOk result (λ kind. kind_of kind ≡ kind_of self.now) }
        ensures errors { RefusedForMemoryAlone result }
    {
        Ok(match self {
            Kind::Insert {
                cause,
                at,
                looks,
                bytes,
            } => Kind::Insert {
                cause: *cause,
                at: *at,
                looks: looks.copy(),
                bytes: Vec::from_slice(*bytes.allocator(), bytes)?,
            },
            Kind::Delete { names } => Kind::Delete {
                names: names.copy()?,
            },
            Kind::Restore { names } => Kind::Restore {
                names: names.copy()?,
            },
            Kind::ChangeLooks { sel, looks, names } => Kind::ChangeLooks {
                sel: *sel,
                looks: looks.copy(),
                names: names.copy()?,
            },
        })
    }

    // Whether both do the same.
    pub(crate) fn is_same(&self, other: &Kind) -> bool
        ensures { IsTrue result ↔ (kind_of self.now ≡ kind_of other.now) }
    {
        match (self, other) {
            (
                Kind::Insert {
                    cause,
                    at,
                    looks,
                    bytes,
                },
                Kind::Insert {
                    cause: other_cause,
                    at: other_at,
                    looks: other_looks,
                    bytes: other_bytes,
                },
            ) => {
                *cause == *other_cause
                    && *at == *other_at
                    && *looks == *other_looks
                    && bytes.as_slice() == other_bytes.as_slice()
            }
            (Kind::Delete { names }, Kind::Delete { names: other_names })
            | (Kind::Restore { names }, Kind::Restore { names: other_names }) => {
                names.is_same(other_names)
            }
            (
                Kind::ChangeLooks { sel, looks, names },
                Kind::ChangeLooks {
                    sel: other_sel,
                    looks: other_looks,
                    names: other_names,
                },
            ) => *sel == *other_sel && *looks == *other_looks && names.is_same(other_names),
            _ => false,
        }
    }

    // The number that stands for it in a message.
    pub(crate) fn number(&self) -> u8
        ensures { result ≡ kind_byte (kind_of self.now) }
    {
        match self {
            Kind::Insert { .. } => INSERT,
            Kind::Delete { .. } => DELETE,
            Kind::Restore { .. } => RESTORE,
            Kind::ChangeLooks { .. } => CHANGE_LOOKS,
        }
    }
}
