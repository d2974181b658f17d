//! The body of an entry that is being written.

ghost use Rattle.std.specs.Prelude.{◌≡◌, ◌++◌, ℕ, All, IfOk, OnErr, OnOk, IsTrue, ◌↔◌, List, false, true};
ghost use Rattle.std.specs.List.{flat_map};
ghost use Rattle.looks.specs.Refusal.{RefusedForMemoryAlone};
ghost use Rattle.byte_fields.specs.Fields.{Appends};
ghost use Rattle.operations.specs.Operation.{Operation};
ghost use Rattle.chunks.specs.Parts.{placed};
ghost use Rattle.note_laws.specs.Note.{Saying};
ghost use Rattle.note_entries.specs.Bytes.{IsHash};
ghost use Rattle.note_bodies.specs.declared.messages.Head.{Head};
ghost use Rattle.note_bodies.specs.Bodies.{AreMessagesOf, AreOfHead, CanHaveMessages};
ghost use Rattle.note_bodies.specs.Writing.{AreAddedInTurn, CanBeAdded, BodyHasRoom, body_spelling, added_on, nothing_said, on_spelling};

use crate::ons::On;
use byte_fields::put_u16;
use char_files::TextNo;
use chunks::ChunkWriter;
use looks::Refusal;
use note_entries::Hash;
use operations::Op;
use std::alloc::{AllocError, Global};
use std::marker::Model;

/// How many messages of a body say what they build on, at most: so a body goes into an entry.
pub const MAX_ONS: usize = 5;

/// The messages of a body, as they are put there one after the other.
#[derive(Drop)]
pub struct BodyWriter {
    ons: Vec<On>,
    chunk: ChunkWriter,
    count: u16,
}

impl Model for BodyWriter {
    ghost use Rattle.std.specs.Prelude.{◌≤◌, length};
    ghost use Rattle.note_bodies.specs.Writing.{Begun};
    ghost use Rattle.note_bodies.specs.declared.writing.TheConstants.{MAX_ONS};

    ghost Value = { Begun };

    ghost view = { λ w. record { ons = w.ons.items; chunk = w.chunk; count = w.count } };

    ghost invariant = { λ w. length w.ons.items ≤ MAX_ONS };
}

// Puts what a message builds on, with its index.
fn put_on(out: &mut Vec<u8>, on: &On) -> Result<(), AllocError>
    ensures put { Appends result out.old.items out.new.items (on_spelling on.now) }
    ensures hash { OnOk result (IsHash on.now.hash) }
{
    put_u16(out, on.index)?;
    out.extend_from_slice(&on.hash.bytes())
}

// Puts all of these.
fn put_ons(out: &mut Vec<u8>, ons: &[On]) -> Result<(), AllocError>
    ensures put { OnOk result (out.new.items ≡ out.old.items ++ flat_map on_spelling ons.now) }
    ensures hashes { OnOk result (All (λ on. IsHash on.hash) ons.now) }
{
    for on in ons {
        put_on(out, on)?;
    }
    Ok(())
}

impl BodyWriter {
    /// A body of no messages on this text. Refused `OutOfMemory` alone.
    pub fn new(alloc: Global, text: TextNo) -> Result<BodyWriter, Refusal>
        ensures ok { IfOk result (λ w. w ≡ nothing_said text) }
        ensures errors { RefusedForMemoryAlone result }
    {
        Ok(BodyWriter {
            ons: Vec::new(alloc),
            chunk: ChunkWriter::new(alloc, text)?,
            count: 0,
        })
    }

    /// How many messages it has.
    pub fn count(&self) -> u16
        ensures { result ≡ self.now.count }
    {
        self.count
    }

    // Whether a message that says this, or nothing, has room beside those that are there, but for its chunk's.
    fn has_room(&self, on: &Option<Hash>) -> bool
        ensures { IsTrue result ↔ BodyHasRoom self.now on.now }
    {
        self.count < u16::MAX && (on.is_none() || self.ons.len() < MAX_ONS)
    }

    /// Adds a message by its operation, before which its site's file is so long, and what it builds on; `false` where there is no room
    /// for it, or its operation can't come next.
    ///
    /// Refused `OutOfMemory` alone. Then, and where there is no room, all is as before.
    pub fn add(&mut self, op: &Op, len: u32, on: Option<Hash>) -> Result<bool, Refusal>
        ensures added { IfOk result (λ added. added ≡ true → self.new ≡ added_on self.old (placed op.now len) on) }
        ensures room { IfOk result (λ added. IsTrue added ↔ CanBeAdded self.old (placed op.now len) on) }
        ensures full { IfOk result (λ added. added ≡ false → self.new ≡ self.old) }
        ensures errors { RefusedForMemoryAlone result }
        ensures err { OnErr result (self.new ≡ self.old) }
    {
        if !self.has_room(&on) || !self.chunk.can_come(op, len) {
            return Ok(false);
        }
        self.ons.reserve(1)?;
        if !self.chunk.add(op, len)? {
            return Ok(false);
        }
        if let Some(hash) = on {
            self.ons.push_reserved(On {
                index: self.count,
                hash,
            });
        }
        self.count += 1;
        Ok(true)
    }

    /// The body, which is read as the messages that were added. Refused `OutOfMemory` alone.
    pub fn finish(&self, alloc: Global) -> Result<Vec<u8>, Refusal>
        ensures ok { IfOk result (λ body. body.items ≡ body_spelling self.now.ons self.now.chunk.bytes) }
        ensures messages { IfOk result (λ body. (key : List ℕ) (head : Head) (len : Operation → ℕ) (said : List Saying)
            → CanHaveMessages head → AreOfHead key head said
            → AreAddedInTurn head.text len (nothing_said head.text) said self.now → AreMessagesOf key head body.items said) }
        ensures errors { RefusedForMemoryAlone result }
    {
        let mut body = Vec::new(alloc);
        put_u16(&mut body, self.ons.len() as u16)?;
        put_ons(&mut body, &self.ons)?;
        body.extend_from_slice(self.chunk.bytes())?;
        Ok(body)
    }
}
