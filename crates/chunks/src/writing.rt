ghost use Rattle.std.specs.Prelude.{◌≡◌, ◌++◌, ◌<◌, ◌^◌, ◌↔◌, IsTrue, OnOk, OnErr, IfOk, if◌then◌else◌, true, length};
ghost use Rattle.looks.specs.Refusal.{RefusedForMemoryAlone};
ghost use Rattle.byte_fields.specs.Fields.{Appends};
ghost use Rattle.packed.specs.Told.{IsNext, nothing_begun};
ghost use Rattle.packed.specs.Spelling.{packed_next};
ghost use Rattle.chunks.specs.Chunks.{begin_spelling, begun_with, begun, added, head, told_by};
ghost use Rattle.chunks.specs.Chunks.{nothing_written, fits, written_on};
ghost use Rattle.chunks.specs.Parts.{placed};

use crate::MAX_CHUNK;
use crate::codes::{BEGIN, TAG};
use byte_fields::put_u16;
use char_files::TextNo;
use looks::Refusal;
use operations::Op;
use packed::{History, put_number};
use std::alloc::{AllocError, Global};
use std::marker::Model;

/// A chunk that is being written. A contract sees what it tells, and its bytes.
#[derive(Drop)]
pub struct ChunkWriter {
    history: History,
    bytes: Vec<u8>,
}

impl Model for ChunkWriter {
    ghost use Rattle.std.specs.Prelude.{◌≡◌, ◌≤◌, true, length};
    ghost use Rattle.chunks.specs.Chunks.{Written};
    ghost use Rattle.chunks.specs.declared.TheConstants.{MAX_CHUNK};

    ghost Value = { Written };

    ghost view = { λ w. record { told = w.history; bytes = w.bytes.items } };

    ghost invariant = { λ w. (w.history.in_chunk ≡ true) × (length w.bytes.items ≤ MAX_CHUNK) };
}

// What a chunk begins with.
fn put_head(out: &mut Vec<u8>, text: TextNo) -> Result<(), AllocError>
    ensures { Appends result out.old.items out.new.items (head text) }
{
    out.extend_from_slice(TAG)?;
    put_u16(out, text.get())
}

// Where a site begins with this operation, before which its file is so long.
fn put_begin(out: &mut Vec<u8>, op: &Op, len: u32) -> Result<(), AllocError>
    ensures { Appends result out.old.items out.new.items (begin_spelling (placed op.now len)) }
{
    op.lemma_has_spelling();
    out.push(BEGIN)?;
    put_number(out, u64::from(op.site().get()))?;
    put_number(out, u64::from(op.seq()))?;
    put_number(out, op.stamp())?;
    put_number(out, u64::from(len))
}

// Notes that the operation's site begins with it. Refused `OutOfMemory` alone, and then all is as before.
fn note_begin(history: &mut History, op: &Op, len: u32) -> Result<(), Refusal>
    ensures ok { OnOk result (history.new ≡ begun_with history.old (placed op.now len)) }
    ensures errors { RefusedForMemoryAlone result }
    ensures err { OnErr result (history.new ≡ history.old) }
{
    op.lemma_has_spelling();
    history.begin(op.site(), op.seq() - 1, op.stamp() - 1, len)
}

// An operation with which its site begins. After an `Err` some of it may stand there.
fn put_first(out: &mut Vec<u8>, op: &Op, len: u32) -> Result<(), Refusal>
    requires { IsNext (begun_with nothing_begun (placed op.now len)) op.now }
    ensures put { let p = placed op.now len in Appends result out.old.items out.new.items
        (begin_spelling p ++ packed_next (begun_with nothing_begun p) op.now) }
    ensures errors { RefusedForMemoryAlone result }
{
    put_begin(out, op, len)?;
    let mut begun = History::of_chunk(*out.allocator());
    note_begin(&mut begun, op, len)?;
    begun.spell(op, out)?;
    Ok(())
}

// What an operation adds to a chunk that tells this. After an `Err` some of it may stand there.
fn put_added(out: &mut Vec<u8>, history: &History, op: &Op, len: u32) -> Result<(), Refusal>
    requires in_chunk { history.now.in_chunk ≡ true }
    requires next { IsNext (begun history.now (placed op.now len)) op.now }
    ensures put { Appends result out.old.items out.new.items (added history.now (placed op.now len)) }
    ensures errors { RefusedForMemoryAlone result }
{
    if !history.has_begun(op.site()) {
        return put_first(out, op, len);
    }
    history.spell(op, out)?;
    Ok(())
}

// Notes an operation, and that its site has begun. Refused `OutOfMemory` alone, and then all is as before.
fn note_added(history: &mut History, op: &Op, len: u32) -> Result<(), Refusal>
    requires { IsNext (begun history.old (placed op.now len)) op.now }
    ensures ok { OnOk result (history.new ≡ told_by history.old (placed op.now len)) }
    ensures errors { RefusedForMemoryAlone result }
    ensures err { OnErr result (history.new ≡ history.old) }
{
    if !history.has_begun(op.site()) {
        note_begin(history, op, len)?;
    }
    // The site has its place, so no memory is asked for.
    let Ok(()) = history.pass(op) else {
        unreachable!()
    };
    Ok(())
}

impl ChunkWriter {
    /// A chunk with no operations. Refused `OutOfMemory` alone.
    pub fn new(alloc: Global, text: TextNo) -> Result<ChunkWriter, Refusal>
        ensures ok { IfOk result (λ w. w ≡ nothing_written text) }
        ensures errors { RefusedForMemoryAlone result }
    {
        let mut bytes = Vec::new(alloc);
        put_head(&mut bytes, text)?;
        Ok(ChunkWriter {
            history: History::of_chunk(alloc),
            bytes,
        })
    }

    /// The bytes.
    pub fn bytes(&self) -> &[u8]
        ensures { result.now ≡ self.now.bytes }
    {
        &self.bytes
    }

    /// The bytes, where no more is added. It takes no memory.
    pub fn into_bytes(self) -> Vec<u8>
        ensures { result.items ≡ self.bytes }
    {
        self.bytes
    }

    /// Whether an operation can come next, before which its site's file is so long.
    pub fn can_come(&self, op: &Op, len: u32) -> bool
        ensures { IsTrue result ↔ IsNext (begun self.now.told (placed op.now len)) op.now }
    {
        if self.history.has_begun(op.site()) {
            return self.history.is_next(op);
        }
        op.lemma_has_spelling();
        op.begins_at(u64::from(len))
    }

    /// Adds an operation, before which its site's file is so long; `false` where the chunk has no room for it.
    ///
    /// Refused `OutOfMemory` alone. Then, and where there is no room, all is as before.
    pub fn add(&mut self, op: &Op, len: u32) -> Result<bool, Refusal>
        requires { IsNext (begun self.old.told (placed op.now len)) op.now }
        ensures room { IfOk result (λ added. added ≡ fits self.old (placed op.now len)) }
        ensures ok { OnOk result (let p = placed op.now len in
            self.new ≡ (if fits self.old p then written_on self.old p else self.old)) }
        ensures errors { RefusedForMemoryAlone result }
        ensures err { OnErr result (self.new ≡ self.old) }
    {
        let start = self.bytes.len();
        if let Err(refused) = put_added(&mut self.bytes, &self.history, op, len) {
            self.bytes.truncate(start);
            return Err(refused);
        }
        if MAX_CHUNK < self.bytes.len() as u64 {
            self.bytes.truncate(start);
            return Ok(false);
        }
        if let Err(refused) = note_added(&mut self.history, op, len) {
            self.bytes.truncate(start);
            return Err(refused);
        }
        Ok(true)
    }
}
