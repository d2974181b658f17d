ghost use Rattle.std.specs.Prelude.{true, false, ◌≡◌, ◌≢◌, ◌++◌, ◌<◌, ◌≤◌, ◌⊎◌, ◌↔◌, IsTrue, ℕ, List, [], ◌∷◌, length, take, MatchOption, OnOk, IfOk, IfErr, IfNone, IfSome, IsErrOf};
ghost use Rattle.looks.specs.Refusal.{RefusedForMemoryAlone};
ghost use Rattle.byte_fields.specs.Fields.{Finds};
ghost use Rattle.operations.specs.Operation.{Operation};
ghost use Rattle.packed.specs.Told.{nothing_begun, has_begun, told_on, IsNext};
ghost use Rattle.packed.specs.Spelling.{packed_next};
ghost use Rattle.packed.specs.Reading.{CanBeNext, BeginsWithNone};
ghost use Rattle.chunks.specs.declared.TheConstants.{MAX_CHUNK};
ghost use Rattle.chunks.specs.Chunks.{Placed, operations_of, added_after, chunk_tag, CanAllCome, BeginsAsChunk, IsChunkOf, IsNoChunk};
ghost use Rattle.chunks.specs.Rows.{ReadsRow, ReadsSome};
ghost use Rattle.chunks.specs.Parts.{begin_of, begin_at, begun_so, BeginsNoSite, IsOpen, ReadsFirst, NoneIsFirst, HasAll};

use crate::MAX_CHUNK;
use crate::codes::{BEGIN, TAG};
use crate::rows::push_letters;
use byte_fields::text_at;
use char_files::{MAX_FILE, SiteNo, TextNo};
use looks::Refusal;
use operations::{MAX_STAMP, Op};
use packed::{History, number_at};
use std::alloc::Global;

/// What a chunk has.
#[derive(Drop)]
pub struct Chunk {
    /// The text that its operations are on.
    pub text: TextNo,
    /// The operations, in the order of the chunk.
    pub operations: Vec<Op>,
}

/// Where a site begins: with an operation of this seq and stamp, before which its file is so long.
#[derive(Clone, Copy, Drop)]
pub(crate) struct Begin {
    pub(crate) site: SiteNo,
    pub(crate) seq: u32,
    pub(crate) stamp: u64,
    pub(crate) len: u32,
}

// A site that begins with these numbers.
fn begin_of(site: u64, seq: u64, stamp: u64, len: u64) -> Option<Begin>
    ensures { Finds (λ b. b) result (begin_of site seq stamp len) }
{
    let site = SiteNo::new(u16::try_from(site).ok()?)?;
    let seq = u32::try_from(seq).ok()?;
    if seq == 0 || stamp == 0 || MAX_STAMP < stamp || MAX_FILE < len {
        return None;
    }
    Some(Begin {
        site,
        seq,
        stamp,
        len: len as u32,
    })
}

// A site that begins.
#[tactic(auto, unfolding(crate::specs::Parts::begin_at))]
fn begin_at(bytes: &[u8]) -> Option<(Begin, &[u8])>
    ensures { Finds (λ x. (x.0, x.1.now)) result (begin_at bytes.now) }
{
    let (site, rest) = number_at(bytes)?;
    let (seq, rest) = number_at(rest)?;
    let (stamp, rest) = number_at(rest)?;
    let (len, rest) = number_at(rest)?;
    let begin = begin_of(site, seq, stamp, len)?;
    Some((begin, rest))
}

// Why a chunk is refused, one of whose operations is refused for this.
fn refusal_of_chunk(why: Refusal) -> Refusal
    ensures short { (why ≡ Refusal.OutOfMemory) → result ≡ Refusal.OutOfMemory }
    ensures value { (result ≡ Refusal.Malformed) ⊎ (result ≡ Refusal.OutOfMemory) }
{
    match why {
        Refusal::OutOfMemory { .. } => why,
        _ => Refusal::Malformed,
    }
}

// The next operation, whether its site has begun or not. Refused `Malformed` where the bytes begin with none.
fn next_packed<'a>(
    history: &mut History,
    alloc: Global,
    text: TextNo,
    bytes: &'a [u8],
) -> Result<(Op, &'a [u8]), Refusal>
    ensures bytes { IfOk result (λ x. bytes.now ≡ packed_next history.old x.0 ++ x.1.now) }
    ensures next { IfOk result (λ x. CanBeNext history.old text x.0) }
    ensures told { IfOk result (λ x. history.new ≡ told_on history.old x.0) }
    ensures only { (op : Operation) (rest : List ℕ) → CanBeNext history.old text op
        → bytes.now ≡ packed_next history.old op ++ rest → IfOk result (λ x. (x.0 ≡ op) × (x.1.now ≡ rest)) }
    ensures bad { IsErrOf result Refusal.Malformed → BeginsWithNone history.old text bytes.now }
    ensures errors { IfErr result (λ e. (e ≡ Refusal.Malformed) ⊎ (e ≡ Refusal.OutOfMemory)) }
{
    match history.next(alloc, text, bytes) {
        Ok((op, rest)) => {
            op.lemma_has_spelling();
            Ok((op, rest))
        }
        Err(why) => Err(refusal_of_chunk(why)),
    }
}

// Notes that a site begins so. Refused `Malformed` where it has begun, else `OutOfMemory` alone.
fn note_begin(history: &mut History, begin: &Begin) -> Result<(), Refusal>
    requires seq { 0 < begin.now.seq }
    requires stamp { 0 < begin.now.stamp }
    ensures once { OnOk result (has_begun history.old begin.now.site ≡ false) }
    ensures ok { OnOk result (history.new ≡ begun_so history.old begin.now) }
    ensures twice { IsErrOf result Refusal.Malformed → has_begun history.old begin.now.site ≡ true }
    ensures errors { IfErr result (λ e. (e ≡ Refusal.Malformed) ⊎ (e ≡ Refusal.OutOfMemory)) }
{
    if history.has_begun(begin.site) {
        return Err(Refusal::Malformed);
    }
    history.begin(begin.site, begin.seq - 1, begin.stamp - 1, begin.len)
}

// Whether it is the operation that its site was to begin with.
fn begins_so(op: &Op, begin: &Begin) -> bool
    ensures { IsTrue result ↔ ((op.now.site ≡ begin.now.site) × (op.now.stamp ≡ begin.now.stamp)) }
{
    op.site() == begin.site && op.stamp() == begin.stamp
}

// An operation with which its site begins; these bytes stand after what says that one does.
fn first_of_site<'a>(
    history: &mut History,
    alloc: Global,
    text: TextNo,
    bytes: &'a [u8],
) -> Result<(Op, &'a [u8]), Refusal>
    requires { IsOpen history.old }
    ensures ok { IfOk result (λ x. ReadsFirst history.old history.new text (15 ∷ bytes.now) x.0 x.1.now) }
    ensures refused { IsErrOf result Refusal.Malformed → NoneIsFirst history.old text (15 ∷ bytes.now) }
    ensures errors { IfErr result (λ e. (e ≡ Refusal.Malformed) ⊎ (e ≡ Refusal.OutOfMemory)) }
{
    let Some((begin, rest)) = begin_at(bytes) else {
        return Err(Refusal::Malformed);
    };
    if let Err(refused) = note_begin(history, &begin) {
        return Err(refused);
    }
    match next_packed(history, alloc, text, rest) {
        Ok((op, rest)) => {
            if !begins_so(&op, &begin) {
                return Err(Refusal::Malformed);
            }
            Ok((op, rest))
        }
        Err(why) => Err(why),
    }
}

// Whether it is the first of its site.
fn is_first(op: &Op) -> bool
    ensures { IsTrue result ↔ (op.now.seq ≡ 1) }
{
    op.seq() == 1
}

// An operation of a site that has begun.
fn later_of_site<'a>(
    history: &mut History,
    alloc: Global,
    text: TextNo,
    bytes: &'a [u8],
) -> Result<(Op, &'a [u8]), Refusal>
    requires opened { IsOpen history.old }
    requires later { BeginsNoSite bytes.now }
    ensures ok { IfOk result (λ x. ReadsFirst history.old history.new text bytes.now x.0 x.1.now) }
    ensures refused { IsErrOf result Refusal.Malformed → NoneIsFirst history.old text bytes.now }
    ensures errors { IfErr result (λ e. (e ≡ Refusal.Malformed) ⊎ (e ≡ Refusal.OutOfMemory)) }
{
    match next_packed(history, alloc, text, bytes) {
        Ok((op, rest)) => {
            // Of a site that hasn't begun its first operation of all was expected, and of no other site.
            if is_first(&op) {
                return Err(Refusal::Malformed);
            }
            Ok((op, rest))
        }
        Err(why) => Err(why),
    }
}

// The next operation. Refused `Malformed` where the bytes begin with none that can come.
fn next_op<'a>(
    history: &mut History,
    alloc: Global,
    text: TextNo,
    bytes: &'a [u8],
) -> Result<(Op, &'a [u8]), Refusal>
    requires { IsOpen history.old }
    ensures ok { IfOk result (λ x. ReadsFirst history.old history.new text bytes.now x.0 x.1.now) }
    ensures refused { IsErrOf result Refusal.Malformed → NoneIsFirst history.old text bytes.now }
    ensures errors { IfErr result (λ e. (e ≡ Refusal.Malformed) ⊎ (e ≡ Refusal.OutOfMemory)) }
{
    match bytes {
        [BEGIN, rest @ ..] => first_of_site(history, alloc, text, rest),
        _ => later_of_site(history, alloc, text, bytes),
    }
}

// Whether a chunk can have so many bytes.
fn is_short(bytes: &[u8]) -> bool
    ensures { IsTrue result ↔ (length bytes.now ≤ MAX_CHUNK) }
{
    bytes.len() as u64 <= MAX_CHUNK
}

// What stands after the tag, where the bytes begin with it.
fn rest_of_tag(bytes: &[u8]) -> Option<&[u8]>
    ensures { MatchOption result (take 4 bytes.now ≢ chunk_tag) (λ rest. bytes.now ≡ chunk_tag ++ rest.now) }
{
    bytes.strip_prefix(TAG)
}

// Reads the letters that a site types on with, if it has begun and some come next, and answers the bytes after them; else nothing is
// noted. Refused `OutOfMemory` alone.
fn read_row<'a>(
    history: &mut History,
    operations: &mut Vec<Op>,
    alloc: Global,
    text: TextNo,
    bytes: &'a [u8],
) -> Result<Option<&'a [u8]>, Refusal>
    ensures row { IfOk result (λ found. IfSome found
        (λ rest. ReadsRow history.old history.new text bytes.now operations.old.items operations.new.items rest.now)) }
    ensures none { IfOk result (λ found. IfNone found
        ((history.new ≡ history.old) × (operations.new.items ≡ operations.old.items))) }
    ensures errors { RefusedForMemoryAlone result }
{
    let Some((typing, typed, rest)) = history.letters(text, bytes) else {
        return Ok(None);
    };
    if !history.has_begun(typing.site) {
        return Ok(None);
    }
    push_letters(operations, alloc, &typing, typed)?;
    history.pass_letters(&typing, typed)?;
    Ok(Some(rest))
}

// Reads what comes next, a row of letters or else an operation, and answers the bytes after it. Refused `Malformed` where the bytes
// begin with none that can come.
fn read_some<'a>(
    history: &mut History,
    operations: &mut Vec<Op>,
    alloc: Global,
    text: TextNo,
    bytes: &'a [u8],
) -> Result<&'a [u8], Refusal>
    requires { IsOpen history.old }
    ensures ok { IfOk result (λ rest. ReadsSome history.old history.new text bytes.now
        operations.old.items operations.new.items rest.now) }
    ensures refused { IsErrOf result Refusal.Malformed → NoneIsFirst history.old text bytes.now }
    ensures errors { IfErr result (λ e. (e ≡ Refusal.Malformed) ⊎ (e ≡ Refusal.OutOfMemory)) }
{
    match read_row(history, operations, alloc, text, bytes) {
        Ok(Some(rest)) => Ok(rest),
        Ok(None) => match next_op(history, alloc, text, bytes) {
            Ok((op, rest)) => {
                operations.push(op)?;
                Ok(rest)
            }
            Err(why) => Err(why),
        },
        Err(why) => Err(why),
    }
}

// All operations. Refused `Malformed` where the bytes aren't operations that can come one after the other.
fn read_all(alloc: Global, text: TextNo, bytes: &[u8]) -> Result<Vec<Op>, Refusal>
    ensures ok { IfOk result (λ ops. HasAll text ops.items bytes.now) }
    ensures only { (ps : List Placed) → CanAllCome nothing_begun text ps
        → bytes.now ≡ added_after nothing_begun ps → IfOk result (λ ops. ops.items ≡ operations_of ps) }
    ensures refused { IsErrOf result Refusal.Malformed → (ps : List Placed) → CanAllCome nothing_begun text ps
        → bytes.now ≡ added_after nothing_begun ps → ⊥ }
    ensures errors { IfErr result (λ e. (e ≡ Refusal.Malformed) ⊎ (e ≡ Refusal.OutOfMemory)) }
{
    let mut history = History::of_chunk(alloc);
    let mut operations = Vec::new(alloc);
    let mut rest = bytes;
    while !rest.is_empty() {
        match read_some(&mut history, &mut operations, alloc, text, rest) {
            Ok(after) => rest = after,
            Err(why) => return Err(why),
        }
    }
    Ok(operations)
}

// The chunk on this text, whose operations these bytes are. Refused `Malformed` where they aren't.
fn chunk_on(alloc: Global, text: TextNo, bytes: &[u8]) -> Result<Chunk, Refusal>
    ensures ok { IfOk result (λ chunk. (chunk.text ≡ text) × HasAll text chunk.operations.items bytes.now) }
    ensures only { (ps : List Placed) → CanAllCome nothing_begun text ps
        → bytes.now ≡ added_after nothing_begun ps → IfOk result (λ chunk. chunk.operations.items ≡ operations_of ps) }
    ensures refused { IsErrOf result Refusal.Malformed → (ps : List Placed) → CanAllCome nothing_begun text ps
        → bytes.now ≡ added_after nothing_begun ps → ⊥ }
    ensures errors { IfErr result (λ e. (e ≡ Refusal.Malformed) ⊎ (e ≡ Refusal.OutOfMemory)) }
{
    match read_all(alloc, text, bytes) {
        Ok(operations) => Ok(Chunk { text, operations }),
        Err(why) => Err(why),
    }
}

/// The text and the operations of a chunk. Nothing else is asked of them here: whether one is ready is a replica's to judge.
///
/// Refused `Malformed` where the bytes are no chunk. Where they don't begin as one, or are too many, this is told before memory
/// is asked for; where an operation is at fault, `OutOfMemory` may come in the place of it, as of all else.
pub fn read_chunk(alloc: Global, bytes: &[u8]) -> Result<Chunk, Refusal>
    ensures ok { IfOk result (λ chunk. (ps : List Placed) × (operations_of ps ≡ chunk.operations.items)
        × IsChunkOf chunk.text ps bytes.now) }
    ensures only { (text : ℕ) (ps : List Placed) → IsChunkOf text ps bytes.now
        → IfOk result (λ chunk. (chunk.text ≡ text) × (chunk.operations.items ≡ operations_of ps)) }
    ensures refused { IsErrOf result Refusal.Malformed → IsNoChunk bytes.now }
    // Whether there is memory or not.
    ensures short { IsErrOf result Refusal.OutOfMemory → BeginsAsChunk bytes.now }
    ensures errors { IfErr result (λ e. (e ≡ Refusal.Malformed) ⊎ (e ≡ Refusal.OutOfMemory)) }
{
    if !is_short(bytes) {
        return Err(Refusal::Malformed);
    }
    let Some(rest) = rest_of_tag(bytes) else {
        return Err(Refusal::Malformed);
    };
    let Some(found) = text_at(rest) else {
        return Err(Refusal::Malformed);
    };
    chunk_on(alloc, found.0, found.1)
}
