ghost use Rattle.std.specs.Prelude.{◌≡◌, ℕ, ◌+◌, ◌<◌, ◌≤◌, ◌↔◌, List, ◌∷◌, [], ◌++◌, length, IfOk, IfNone, IfSome, IsTrue};
ghost use Rattle.std.specs.Prelude.{slice_get, Some as Just, vec_len, vec_capacity};
ghost use Rattle.looks.specs.declared.looks.Looks.{Looks};
ghost use Rattle.op_log.specs.declared.stretch.TypedRun.{TypedRun};
ghost use Rattle.op_log.specs.declared.stretch.Stretch.{Stretch};
ghost use Rattle.op_log.specs.declared.stretch.Stretch.TheVariants.{Deleted, Single, Typed};
ghost use Rattle.looks.specs.Refusal.{RefusedForMemoryAlone};
ghost use Rattle.operations.specs.Operation.{insert};
ghost use Rattle.operations.specs.Spelling.{HasSpelling};
ghost use Rattle.op_log.specs.Stretches.{anchor_of, cause_of, letter_of_run, looks_in, TypingGoesOn};

use crate::one_delete::OneDelete;
use char_files::{Anchor, MAX_FILE, Name, SiteNo, TextNo};
use looks::{Looks, Refusal};
use operations::{Kind, Op, Typing};
use std::alloc::Global;

/// Letters that a site typed one after the other: each operation inserts one byte that hangs on the one before, under the next
/// stamp and number, in the same looks.
#[derive(Clone, Copy, Drop)]
pub(crate) struct TypedRun {
    // Of the first one; those of the others follow from it.
    pub(crate) stamp: u64,
    // Where its byte stands among those of all runs.
    pub(crate) from: u32,
    pub(crate) seq: u32,
    pub(crate) at: u32,
    // The number of its looks.
    pub(crate) looks: u32,
    // How many there are.
    pub(crate) len: u32,
    // The name that the first one hangs on; site 0 for the root.
    pub(crate) cause_off: u32,
    pub(crate) cause_site: u16,
    pub(crate) text: TextNo,
    pub(crate) site: SiteNo,
}

/// Operations that a log keeps together.
#[derive(Clone, Copy, Drop)]
pub(crate) enum Stretch {
    Typed(TypedRun),
    // It takes no memory of its own.
    Deleted(OneDelete),
    // Any other stands alone, under a number.
    Single(usize),
}

// Puts an operation at the end that stands alone, under a number. There is room.
pub(crate) fn push_single(stretches: &mut Vec<Stretch>, index: usize)
    requires { vec_len stretches.old < vec_capacity stretches.old }
    ensures { stretches.new.items ≡ stretches.old.items ++ Single index ∷ [] }
{
    stretches.push_reserved(Stretch::Single(index));
}

// Puts a Delete of one character at the end. There is room.
pub(crate) fn push_deleted(stretches: &mut Vec<Stretch>, one: OneDelete)
    requires { vec_len stretches.old < vec_capacity stretches.old }
    ensures { stretches.new.items ≡ stretches.old.items ++ Deleted one ∷ [] }
{
    stretches.push_reserved(Stretch::Deleted(one));
}

// The numbers of an anchor: those of its name; 0 and 0 for the root.
pub(crate) fn numbers_of(anchor: Anchor) -> (u16, u32)
    ensures anchor { anchor_of result.0 result.1 ≡ anchor }
    ensures in_file { result.1 < 16777216 }
{
    match anchor {
        Anchor::Root => (0, 0),
        Anchor::At(name) => (name.site().get(), name.off()),
    }
}

// What the letter of this number hangs on.
fn cause_of(run: &TypedRun, k: u32) -> Anchor
    requires in_file { run.now.at + k < 16777216 }
    requires cause { run.now.cause_off < 16777216 }
    ensures { result ≡ cause_of run.now k }
{
    let (site, off) = if k == 0 {
        (run.cause_site, run.cause_off)
    } else {
        (run.site.get(), run.at + k - 1)
    };
    match SiteNo::new(site) {
        Some(site) => match Name::new(site, off) {
            Some(name) => Anchor::At(name),
            None => unreachable!(),
        },
        None => Anchor::Root,
    }
}

// Whether a letter's fields other than what it does are those of this one's operation.
fn has_head(run: &TypedRun, k: u32, op: &Op) -> bool
    requires seq { run.now.seq + k < 4294967296 }
    requires stamp { run.now.stamp + k < 18446744073709551616 }
    ensures { IsTrue result ↔ ((op.now.text ≡ run.now.text) × (op.now.site ≡ run.now.site) × (op.now.seq ≡ run.now.seq + k)
        × (op.now.stamp ≡ run.now.stamp + k)) }
{
    op.text() == run.text
        && op.site() == run.site
        && op.seq() == run.seq + k
        && op.stamp() == run.stamp + u64::from(k)
}

// The byte of an operation that is the letter of this number, but for its byte.
pub(crate) fn byte_of_letter(looks: &[Looks], run: &TypedRun, k: u32, op: &Op) -> Option<u8>
    requires looks { run.now.looks < length looks.now }
    requires seq { run.now.seq + k < 4294967296 }
    requires stamp { run.now.stamp + k < 18446744073709551616 }
    requires at { run.now.at + k < 16777216 }
    requires cause { run.now.cause_off < 16777216 }
    ensures some { IfSome result (λ byte. op.now ≡ letter_of_run looks.now run.now k byte) }
    ensures none { IfNone result ((byte : ℕ) → op.now ≡ letter_of_run looks.now run.now k byte → ⊥) }
{
    if !has_head(run, k, op) {
        return None;
    }
    match op.kind() {
        Kind::Insert {
            cause,
            at,
            looks: own,
            bytes,
        } => {
            if *cause == cause_of(run, k)
                && *at == run.at + k
                && *own == looks[run.looks as usize]
                && bytes.len() == 1
            {
                Some(bytes[0])
            } else {
                None
            }
        }
        Kind::Delete { .. } | Kind::Restore { .. } | Kind::ChangeLooks { .. } => None,
    }
}

// Whether this letter of a run is this operation.
pub(crate) fn is_letter(looks: &[Looks], run: &TypedRun, k: u32, byte: u8, op: &Op) -> bool
    requires looks { run.now.looks < length looks.now }
    requires spelled { HasSpelling (letter_of_run looks.now run.now k byte) }
    requires cause { run.now.cause_off < 16777216 }
    ensures { IsTrue result ↔ (letter_of_run looks.now run.now k byte ≡ op.now) }
{
    match byte_of_letter(looks, run, k, op) {
        Some(found) => found == byte,
        None => false,
    }
}

// Whether two letters have the same stamp, number, site and text.
fn have_one_head(run: &TypedRun, k: u32, other: &TypedRun, j: u32) -> bool
    requires seq { (run.now.seq + k < 4294967296) × (other.now.seq + j < 4294967296) }
    requires stamp { (run.now.stamp + k < 18446744073709551616) × (other.now.stamp + j < 18446744073709551616) }
    ensures { IsTrue result ↔ ((run.now.text ≡ other.now.text) × (run.now.site ≡ other.now.site)
        × (run.now.seq + k ≡ other.now.seq + j) × (run.now.stamp + k ≡ other.now.stamp + j)) }
{
    run.text == other.text
        && run.site == other.site
        && run.seq + k == other.seq + j
        && run.stamp + u64::from(k) == other.stamp + u64::from(j)
}

// Whether letters of two lists' runs are one operation.
pub(crate) fn are_one_letter(
    looks: &[Looks],
    run: &TypedRun,
    k: u32,
    byte: u8,
    others: &[Looks],
    other: &TypedRun,
    j: u32,
    there: u8,
) -> bool
    requires looks { (run.now.looks < length looks.now) × (other.now.looks < length others.now) }
    requires spelled { HasSpelling (letter_of_run looks.now run.now k byte) × HasSpelling (letter_of_run others.now other.now j there) }
    requires cause { (run.now.cause_off < 16777216) × (other.now.cause_off < 16777216) }
    ensures { IsTrue result ↔ (letter_of_run looks.now run.now k byte ≡ letter_of_run others.now other.now j there) }
{
    if !have_one_head(run, k, other, j)
        || cause_of(run, k) != cause_of(other, j)
        || run.at + k != other.at + j
    {
        return false;
    }
    looks[run.looks as usize] == others[other.looks as usize] && byte == there
}

// Whether one letter more of the run has a number, a stamp and a place.
fn may_go_on(run: &TypedRun) -> bool
    ensures { IsTrue result → (run.now.seq + run.now.len < 4294967296)
        × (run.now.stamp + run.now.len < 18446744073709551616) × (run.now.at + run.now.len < 16777216) }
{
    let len = u64::from(run.len);
    u64::from(run.seq) + len <= u64::from(u32::MAX)
        && run.stamp.checked_add(len).is_some()
        && u64::from(run.at) + len < MAX_FILE
}

// The byte of an operation that goes on where the last run ends, if it does.
pub(crate) fn next_byte(stretches: &[Stretch], looks: &[Looks], op: &Op) -> Option<u8>
    requires { (before : List Stretch) (r : TypedRun) → stretches.now ≡ before ++ Typed r ∷ []
        → (r.looks < length looks.now) × (r.cause_off < 16777216) }
    ensures { IfSome result (λ byte. (before : List Stretch) × (r : TypedRun) × (stretches.now ≡ before ++ Typed r ∷ [])
        × (op.now ≡ letter_of_run looks.now r r.len byte) × (r.len < 16777216)) }
{
    match stretches.last() {
        Some(Stretch::Typed(run)) if may_go_on(run) => byte_of_letter(looks, run, run.len, op),
        _ => None,
    }
}

// Whether a site types on where this run ends.
fn goes_on_from(looks: &[Looks], run: &TypedRun, typing: &Typing) -> bool
    requires looks { run.now.looks < length looks.now }
    requires cause { run.now.cause_off < 16777216 }
    ensures { IsTrue result → TypingGoesOn looks.now run.now run.now.len typing.now }
{
    may_go_on(run)
        && typing.text == run.text
        && typing.site == run.site
        && typing.seq == run.seq + run.len
        && typing.stamp == run.stamp + u64::from(run.len)
        && typing.at == run.at + run.len
        && typing.cause == cause_of(run, run.len)
        && typing.looks == looks[run.looks as usize]
}

// Whether a site types on where the last run ends.
pub(crate) fn goes_on(stretches: &[Stretch], looks: &[Looks], typing: &Typing) -> bool
    requires { (before : List Stretch) (r : TypedRun) → stretches.now ≡ before ++ Typed r ∷ []
        → (r.looks < length looks.now) × (r.cause_off < 16777216) }
    ensures { IsTrue result → (before : List Stretch) × (r : TypedRun) × (stretches.now ≡ before ++ Typed r ∷ [])
        × TypingGoesOn looks.now r r.len typing.now }
{
    match stretches.last() {
        Some(Stretch::Typed(run)) => goes_on_from(looks, run, typing),
        _ => false,
    }
}

// Makes the last run so many letters longer.
pub(crate) fn lengthen_by(stretches: &mut Vec<Stretch>, more: usize)
    requires { (before : List Stretch) × (r : TypedRun) × (stretches.old.items ≡ before ++ Typed r ∷ [])
        × (r.len + more < 4294967296) }
    ensures { (before : List Stretch) (r : TypedRun) → stretches.old.items ≡ before ++ Typed r ∷ []
        → stretches.new.items ≡ before ++ Typed (record r { len = r.len + more }) ∷ [] }
{
    match stretches.pop() {
        Some(Stretch::Typed(run)) => {
            let mut longer = run;
            longer.len += more as u32;
            stretches.push_reserved(Stretch::Typed(longer));
        }
        _ => unreachable!(),
    }
}

// The number of looks, which are entered if the last that were entered are others. There is room.
pub(crate) fn number_of(entered: &mut Vec<Looks>, looks: &Looks) -> u32
    requires room { vec_len entered.old < vec_capacity entered.old }
    requires few { vec_len entered.old < 4294967295 }
    ensures grows { (more : List Looks) × (entered.new.items ≡ entered.old.items ++ more) }
    ensures there { slice_get entered.new.items result ≡ Just looks.now }
    ensures many { vec_len entered.new ≤ vec_len entered.old + 1 }
{
    if let Some(last) = entered.last() {
        if *last == *looks {
            return (entered.len() - 1) as u32;
        }
    }
    let number = entered.len() as u32;
    entered.push_reserved(looks.copy());
    number
}

// What the Insert of one letter has: what it hangs on, where its byte stands in its site's file, its looks, and the byte. `None` for
// any other operation.
pub(crate) fn letter_in(op: &Op) -> Option<((u16, u32), u32, &Looks, u8)>
    ensures { IfSome result (λ x. (op.now.kind ≡ insert (anchor_of x.0.0 x.0.1) x.1 x.2.now (x.3 ∷ []))
        × (x.0.1 < 16777216)) }
{
    match op.kind() {
        Kind::Insert {
            cause,
            at,
            looks,
            bytes,
        } if bytes.len() == 1 => Some((numbers_of(*cause), *at, looks, bytes[0])),
        _ => None,
    }
}

// The operation of the letter of this number. Refused `OutOfMemory` alone.
pub(crate) fn letter(
    alloc: Global,
    looks: &[Looks],
    run: &TypedRun,
    k: u32,
    byte: u8,
) -> Result<Op, Refusal>
    requires looks { run.now.looks < length looks.now }
    requires spelled { HasSpelling (letter_of_run looks.now run.now k byte) }
    requires cause { run.now.cause_off < 16777216 }
    ensures ok { IfOk result (λ op. op ≡ letter_of_run looks.now run.now k byte) }
    ensures errors { RefusedForMemoryAlone result }
{
    let kind = Kind::Insert {
        cause: cause_of(run, k),
        at: run.at + k,
        looks: looks[run.looks as usize].copy(),
        bytes: Vec::from_slice(alloc, &[byte])?,
    };
    let op = Op::new(
        run.text,
        run.site,
        run.seq + k,
        run.stamp + u64::from(k),
        kind,
    );
    Ok(op.unwrap())
}
