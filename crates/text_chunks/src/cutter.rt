ghost use Rattle.std.specs.Prelude.{◌≡◌, [], map, Some, None, OnOk, IfOk};
ghost use Rattle.looks.specs.Refusal.{RefusedForMemoryAlone};
ghost use Rattle.packed.specs.Told.{nothing_begun};
ghost use Rattle.chunks.specs.Chunks.{CanCome, nothing_written, written_on};
ghost use Rattle.chunks.specs.Parts.{placed};
ghost use Rattle.text_chunks.specs.Parts.{IsCutOn, added_to, chunk_closed, chunk_has_room, cut_on, told_in};

use char_files::TextNo;
use chunks::ChunkWriter;
use looks::Refusal;
use operations::Op;
use std::alloc::Global;
use std::marker::Model;

/// Operations of a text that are being cut into chunks.
#[derive(Drop)]
pub(crate) struct Cutter {
    alloc: Global,
    text: TextNo,
    // The chunks before the one that is being written.
    full: Vec<Vec<u8>>,
    // That one, once there is an operation.
    current: Option<ChunkWriter>,
}

impl Model for Cutter {
    ghost use Rattle.std.specs.Prelude.{map};
    ghost use Rattle.text_chunks.specs.Parts.{Cut};

    ghost Value = { Cut };

    ghost view = { λ c. record { text = c.text; full = map (λ chunk. chunk.items) c.full.items; current = c.current } };
}

impl Cutter {
    /// No operations.
    pub(crate) fn new(alloc: Global, text: TextNo) -> Cutter
        ensures { result ≡ record { text = text; full = []; current = None } }
    {
        Cutter {
            alloc,
            text,
            full: Vec::new(alloc),
            current: None,
        }
    }

    // Begins a chunk with an operation, which has room there.
    fn begin(&mut self, op: &Op, len: u32) -> Result<(), Refusal>
        requires { CanCome nothing_begun self.old.text (placed op.now len) }
        ensures ok { OnOk result (self.new ≡ record self.old
            { current = Some (written_on (nothing_written self.old.text) (placed op.now len)) }) }
        ensures errors { RefusedForMemoryAlone result }
    {
        let mut writer = ChunkWriter::new(self.alloc, self.text)?;
        writer.add(op, len)?;
        self.current = Some(writer);
        Ok(())
    }

    // Ends the chunk that is being written.
    fn close(&mut self) -> Result<(), Refusal>
        ensures ok { OnOk result (self.new ≡ chunk_closed self.old) }
        ensures errors { RefusedForMemoryAlone result }
    {
        if let Some(writer) = self.current.take() {
            self.full.push(writer.into_bytes())?;
        }
        Ok(())
    }

    // Adds an operation to the chunk that is being written; `false` where that has no room, or where there is none.
    fn add_here(&mut self, op: &Op, len: u32) -> Result<bool, Refusal>
        requires { CanCome (told_in self.old.current) self.old.text (placed op.now len) }
        ensures room { IfOk result (λ added. added ≡ chunk_has_room self.old.current (placed op.now len)) }
        ensures ok { OnOk result (self.new ≡ record self.old
            { current = added_to self.old.current (placed op.now len) }) }
        ensures errors { RefusedForMemoryAlone result }
    {
        match &mut self.current {
            Some(writer) => writer.add(op, len),
            None => Ok(false),
        }
    }

    /// Adds an operation, before which its site's file is so long. Refused `OutOfMemory` alone.
    pub(crate) fn add(&mut self, op: &Op, len: u32) -> Result<(), Refusal>
        requires { CanCome (told_in self.old.current) self.old.text (placed op.now len) }
        ensures ok { OnOk result (IsCutOn self.old (placed op.now len) self.new) }
        ensures errors { RefusedForMemoryAlone result }
    {
        if self.add_here(op, len)? {
            return Ok(());
        }
        self.close()?;
        self.begin(op, len)
    }

    /// All chunks. Refused `OutOfMemory` alone.
    pub(crate) fn finish(self) -> Result<Vec<Vec<u8>>, Refusal>
        ensures ok { IfOk result (λ packed. map (λ chunk. chunk.items) packed.items ≡ cut_on self []) }
        ensures errors { RefusedForMemoryAlone result }
    {
        let mut cutter = self;
        cutter.close()?;
        Ok(cutter.full)
    }
}
