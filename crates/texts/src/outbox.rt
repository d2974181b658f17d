ghost use Rattle.std.specs.Prelude.{◌≡◌, ◌≢◌, ℕ, ◌<◌, ◌≤◌, ◌↔◌, List, [], ◌∷◌, ◌++◌, length, slice_get};
ghost use Rattle.std.specs.Prelude.{IsTrue, OnErr, OnOk, slice_range};
ghost use Rattle.looks.specs.Refusal.{RefusedForMemoryAlone};
ghost use Rattle.operations.specs.Spelling.{spelling};
ghost use Rattle.texts.specs.Parts.{part_beg};

use looks::Refusal;
use operations::{Op, encode};
use std::alloc::Global;
use std::marker::Model;

/// The messages that were sent, in order. One Outbox may serve many texts.
#[derive(Debug, Drop)]
pub struct Outbox {
    // All messages, one directly after the other, and where each ends.
    bytes: Vec<u8>,
    ends: Vec<usize>,
}

impl Model for Outbox {
    ghost use Rattle.std.specs.Prelude.{ℕ, List, length};
    ghost use Rattle.texts.specs.Parts.{AreEnds, parts};

    ghost Value = { List (List ℕ) };

    ghost view = { λ o. parts o.bytes.items 0 o.ends.items };

    ghost invariant = { λ o. AreEnds 0 o.ends.items (length o.bytes.items) };
}

// Where the part of this index begins: where the one before it ends.
fn beg_of(ends: &[usize], index: usize) -> usize
    requires { index ≤ length ends.now }
    ensures { result ≡ part_beg ends.now index }
{
    if index == 0 { 0 } else { ends[index - 1] }
}

// The bytes between two positions.
fn part(bytes: &[u8], beg: usize, end: usize) -> &[u8]
    requires beg { beg ≤ end }
    requires end { end ≤ length bytes.now }
    ensures { result.now ≡ slice_range bytes.now beg end }
{
    &bytes[beg..end]
}

impl Outbox {
    /// No messages.
    pub fn new(alloc: Global) -> Outbox
        ensures { result ≡ [] }
    {
        Outbox {
            bytes: Vec::new(alloc),
            ends: Vec::new(alloc),
        }
    }

    /// How many messages there are.
    pub fn len(&self) -> usize
        ensures { result ≡ length self.now }
    {
        self.ends.len()
    }

    /// Whether there is no message.
    pub fn is_empty(&self) -> bool
        ensures { IsTrue result ↔ (self.now ≡ []) }
    {
        self.ends.is_empty()
    }

    /// The bytes of a message; the first one has the index 0.
    pub fn message(&self, index: usize) -> &[u8]
        requires { index < length self.now }
        ensures { slice_get self.now index ≡ Some result.now }
    {
        part(&self.bytes, beg_of(&self.ends, index), self.ends[index])
    }

    /// Lets all messages go, and keeps the memory for others.
    pub fn clear(&mut self)
        ensures { self.new ≡ [] }
    {
        self.bytes.clear();
        self.ends.clear();
    }

    // Puts the message of an operation at the end. An `Err` changes nothing.
    pub(crate) fn push(&mut self, op: &Op) -> Result<(), Refusal>
        ensures ok { OnOk result (self.new ≡ self.old ++ spelling op.now ∷ []) }
        ensures errors { RefusedForMemoryAlone result }
        ensures err { OnErr result (self.new ≡ self.old) }
    {
        self.ends.reserve(1)?;
        encode(op, &mut self.bytes)?;
        self.ends.push_reserved(self.bytes.len());
        Ok(())
    }

    // Takes the last message back.
    pub(crate) fn take_back(&mut self)
        requires { self.old ≢ [] }
        ensures { (messages : List (List ℕ)) (message : List ℕ) → self.old ≡ messages ++ message ∷ []
            → self.new ≡ messages }
    {
        let _ = self.ends.pop();
        let ends = self.ends.as_slice();
        self.bytes.truncate(beg_of(ends, ends.len()));
    }
}
