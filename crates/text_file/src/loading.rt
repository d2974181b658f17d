ghost use Rattle.std.specs.Prelude.{◌≡◌, ◌≢◌, ◌^◌, ◌<◌, ◌≤◌, ◌++◌, ◌↔◌, ◌⊎◌, List, length, take, ℕ};
ghost use Rattle.std.specs.Prelude.{MatchOption, IfSome, IfNone, IfOk, IfErr, IsErrOf, IsTrue};
ghost use Rattle.std.specs.Int.{w32};
ghost use Rattle.std.specs.List.{flat_map};
ghost use Rattle.looks.specs.Refusal.{RefusedForMemoryAlone};
ghost use Rattle.char_files.specs.Stretch.{Item, items_of};
ghost use Rattle.byte_fields.specs.Fields.{number_spelling};
ghost use Rattle.text_file.specs.Files.{text_tag, plain_bytes, IsFormatted, IsPlain, IsFileOf, IsNoFile};
ghost use Rattle.text_file.specs.Heads.{head_spelling, IsHead, AreHeads, total_of, cut_into_runs, AreSpelled, IsFormattedBody};
ghost use Rattle.text_file.specs.declared.loading.Head.{Head};

use crate::MAX_STORED;
use crate::filling::push_all;
use crate::plain::{plain_len, plain_text};
use byte_fields::u32_at;
use char_files::Buffer;
use looks::{Looks, Refusal};
use operations::read_looks;
use std::alloc::Global;

// A run's looks, and how many characters it has.
#[derive(Drop)]
struct Head {
    looks: Looks,
    len: u32,
}

// What stands after the runs' number: how the runs are spelled, and their characters.
#[derive(Clone, Copy, Drop)]
struct Parts<'a> {
    heads: &'a [u8],
    chars: &'a [u8],
}

// A run that there may be, and the bytes after it.
fn head_at(bytes: &[u8]) -> Option<(Head, &[u8])>
    ensures some { IfSome result (λ x. IsHead x.0 × (bytes.now ≡ head_spelling x.0 ++ x.1.now)) }
    ensures none { IfNone result ((h : Head) (rest : List ℕ) → IsHead h
        → bytes.now ≡ head_spelling h ++ rest → ⊥) }
{
    let Some((looks, looks_len)) = read_looks(bytes) else {
        return None;
    };
    let (len, rest) = u32_at(&bytes[looks_len..])?;
    if len == 0 {
        return None;
    }
    Some((Head { looks, len }, rest))
}

// Whether these are the last looks.
fn is_last(last: &Option<Looks>, looks: &Looks) -> bool
    ensures { IsTrue result ↔ (last.now ≡ Some looks.now) }
{
    match last {
        Some(last) => last == looks,
        None => false,
    }
}

// A run that may stand after one of the looks `last`, where at most `left` characters more may stand.
fn next_head<'a>(last: &Option<Looks>, left: u64, bytes: &'a [u8]) -> Option<(Head, &'a [u8])>
    ensures some { IfSome result (λ x. IsHead x.0 × (last.now ≢ Some x.0.looks) × (x.0.len ≤ left)
        × (bytes.now ≡ head_spelling x.0 ++ x.1.now)) }
    ensures none { IfNone result ((h : Head) (rest : List ℕ) → IsHead h → last.now ≢ Some h.looks
        → h.len ≤ left → bytes.now ≡ head_spelling h ++ rest → ⊥) }
{
    operations::lemma_one_spelling();
    let Some((head, rest)) = head_at(bytes) else {
        return None;
    };
    if left < u64::from(head.len) {
        return None;
    }
    if is_last(last, &head.looks) {
        return None;
    }
    Some((head, rest))
}

// So many runs: how many characters they have, and the bytes after them.
fn heads_at(count: u32, bytes: &[u8]) -> Option<(u64, &[u8])>
    ensures some { IfSome result (λ x. (heads : List Head) × AreHeads None heads × (length heads ≡ count)
        × (total_of heads ≡ x.0) × (x.0 ≤ MAX_STORED)
        × (bytes.now ≡ flat_map head_spelling heads ++ x.1.now)) }
    ensures none { IfNone result ((heads : List Head) (rest : List ℕ) → AreHeads None heads
        → length heads ≡ count → total_of heads ≤ MAX_STORED
        → bytes.now ≡ flat_map head_spelling heads ++ rest → ⊥) }
{
    operations::lemma_one_spelling();
    let mut rest = bytes;
    let mut left = MAX_STORED;
    let mut last = None;
    for _ in 0..count {
        let Some((head, after)) = next_head(&last, left, rest) else {
            return None;
        };
        left -= u64::from(head.len);
        last = Some(head.looks);
        rest = after;
    }
    Some((MAX_STORED - left, rest))
}

// The parts of a formatted file, of which these bytes stand after the tag.
fn parts_of(bytes: &[u8]) -> Option<Parts<'_>>
    ensures some { IfSome result (λ p. (heads : List Head) × IsFormattedBody heads p.chars.now bytes.now
        × AreSpelled heads p.chars.now p.heads.now) }
    ensures none { IfNone result ((heads : List Head) (chars : List ℕ) → IsFormattedBody heads chars bytes.now → ⊥) }
{
    operations::lemma_one_spelling();
    let (count, rest) = u32_at(bytes)?;
    let (sum, after) = heads_at(count, rest)?;
    let (total, chars) = u32_at(after)?;
    if u64::from(total) != sum {
        return None;
    }
    if chars.len() as u64 != sum {
        return None;
    }
    let heads = &rest[..rest.len() - after.len()];
    Some(Parts { heads, chars })
}

// The characters of these runs. Refused `OutOfMemory` alone.
fn text_of(alloc: Global, heads: &[u8], chars: &[u8]) -> Result<Buffer, Refusal>
    requires spelled { (runs : List Head) × AreSpelled runs chars.now heads.now }
    requires few { length chars.now ≤ MAX_STORED }
    ensures ok { IfOk result (λ text. (runs : List Head) → AreSpelled runs chars.now heads.now
        → text ≡ items_of (cut_into_runs runs chars.now)) }
    ensures errors { RefusedForMemoryAlone result }
{
    operations::lemma_one_spelling();
    let mut text = Buffer::new(alloc);
    let mut rest = heads;
    let mut left = chars;
    while let Some((head, after)) = head_at(rest) {
        let (front, others) = left.split_at(head.len as usize);
        push_all(&mut text, front, &head.looks)?;
        rest = after;
        left = others;
    }
    Ok(text)
}

// The text of a formatted file, of which these bytes stand after the tag.
fn load_formatted(alloc: Global, bytes: &[u8]) -> Result<Buffer, Refusal>
    ensures ok { IfOk result (λ items. IsFormatted items (text_tag ++ bytes.now)) }
    ensures refused { IsErrOf result Refusal.BadFile
        ↔ ((items : List Item) → IsFormatted items (text_tag ++ bytes.now) → ⊥) }
    ensures errors { IfErr result (λ e. (e ≡ Refusal.BadFile) ⊎ (e ≡ Refusal.OutOfMemory)) }
{
    char_files::lemma_runs_are_maximal();
    let Some(parts) = parts_of(bytes) else {
        return Err(Refusal::BadFile);
    };
    text_of(alloc, parts.heads, parts.chars)
}

// The text of a plain file.
fn load_plain(alloc: Global, bytes: &[u8]) -> Result<Buffer, Refusal>
    requires { take 4 bytes.now ≢ text_tag }
    ensures ok { IfOk result (λ items. IsPlain items bytes.now) }
    ensures refused { IsErrOf result Refusal.BadFile ↔ (MAX_STORED < length (plain_bytes bytes.now)) }
    ensures errors { IfErr result (λ e. (e ≡ Refusal.BadFile) ⊎ (e ≡ Refusal.OutOfMemory)) }
{
    if MAX_STORED < plain_len(bytes) {
        return Err(Refusal::BadFile);
    }
    plain_text(alloc, bytes)
}

// What stands after the tag, where the file begins with it.
fn rest_of_tag(bytes: &[u8]) -> Option<&[u8]>
    ensures { MatchOption result (take 4 bytes.now ≢ text_tag) (λ rest. bytes.now ≡ text_tag ++ rest.now) }
{
    bytes.strip_prefix(b"OTF1")
}

/// The text of a file. A file that begins with `OTF1` is read as a formatted one, every other one as a plain
/// one: 0DH 0AH becomes one 0DH, a lone 0AH becomes 0DH, all other bytes stay, in the default looks.
///
/// Refused `BadFile` where no text has this file, which is told before memory is asked for: it begins with
/// `OTF1` and is no formatted file, or its text would have more than 2^20 characters. Else refused `OutOfMemory`
/// where memory is.
pub fn load(alloc: Global, bytes: &[u8]) -> Result<Buffer, Refusal>
    // What is loaded has this file.
    ensures ok { IfOk result (λ items. IsFileOf items bytes.now) }
    // A text is loaded from its files, unless memory is refused.
    ensures only { (items : List Item) → IsFileOf items bytes.now → IfOk result (λ loaded. loaded ≡ items) }
    // Whether there is memory or not.
    ensures refused { IsErrOf result Refusal.BadFile ↔ IsNoFile bytes.now }
    ensures errors { IfErr result (λ e. (e ≡ Refusal.BadFile) ⊎ (e ≡ Refusal.OutOfMemory)) }
{
    crate::laws::lemma_one_text();
    match rest_of_tag(bytes) {
        Some(rest) => load_formatted(alloc, rest),
        None => load_plain(alloc, bytes),
    }
}
