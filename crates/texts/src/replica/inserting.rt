//! Insertions, a piece at a time.

ghost use Rattle.std.specs.Prelude.{◌≡◌, ◌≢◌, ◌<◌, ◌≤◌, ◌+◌, ℕ, List, [], None, Err, length, map, IfOk, IsOk, OnOk};
ghost use Rattle.looks.specs.Looks.{plain_looks};
ghost use Rattle.looks.specs.Refusal.{RefusedForMemoryAlone};
ghost use Rattle.char_files.specs.Stretch.{Item};
ghost use Rattle.char_files.specs.declared.TheConstants.{MAX_FILE};
ghost use Rattle.operations.specs.Operation.{insert};
ghost use Rattle.operations.specs.Seen.{kind_of};
ghost use Rattle.operations.specs.Spelling.{IsCause, IsKind};
ghost use Rattle.set_laws.specs.Fronts.{file_len};
ghost use Rattle.texts.specs.Edit.{anchor_before, insertion, own_insert, recalling};
ghost use Rattle.texts.specs.Outcome.{EditsSending, refusal_for};
ghost use Rattle.texts.specs.Own.{SendsOne};
ghost use Rattle.texts.specs.Pieces.{first_len};
ghost use Rattle.texts.specs.TextState.{shown_of};

use super::Replica;
use super::own::refused_after;
use super::pieces::{Piece, Pieces};
use crate::edit_refusal::EditRefusal;
use crate::outbox::Outbox;
use char_files::{Anchor, Buffer};
use looks::{Looks, Refusal};
use operations::{Kind, MAX_INSERT};
use std::alloc::{AllocError, Global};

// These bytes in default looks. No bytes take no memory.
fn plain_buffer(alloc: Global, bytes: &[u8]) -> Result<Buffer, Refusal>
    requires { length bytes.now ≤ MAX_FILE }
    ensures ok { IfOk result (λ buffer. buffer ≡ map (λ b. (b, plain_looks)) bytes.now) }
    ensures errors { RefusedForMemoryAlone result }
    ensures empty { bytes.now ≡ [] → IsOk result }
{
    let mut buffer = Buffer::new(alloc);
    if !bytes.is_empty() {
        buffer.push_all(bytes, &Looks::plain())?;
    }
    Ok(buffer)
}

// How many bytes the first Insert of a stretch has.
fn first_len(buffer: &Buffer) -> usize
    ensures value { result ≡ first_len buffer.now }
    ensures few { result ≤ MAX_INSERT }
    ensures some { buffer.now ≢ [] → 0 < result }
{
    let mut pieces = Pieces::of(buffer);
    match pieces.next() {
        Some(piece) => piece.bytes.len(),
        None => 0,
    }
}

impl Replica {
    // The cause of an own Insert after the first `pos` characters shown.
    fn own_cause(&self, pos: u64) -> Anchor
        requires in_text { pos ≤ length (shown_of self.now) }
        ensures value { result ≡ anchor_before (shown_of self.now) pos }
        ensures cause { IsCause self.now.site (file_len self.now.operations self.now.site) result }
    {
        self.lemma_is_text();
        let cause = self.anchor_after(pos);
        if let Anchor::At(name) = cause {
            // The numbers are in range by their types.
            let _ = (name.site().get(), name.off());
        }
        cause
    }

    // Why an Insert of so many bytes is refused whatever the memory.
    fn insert_refusal(&self, len: usize) -> Option<Refusal>
        requires { len ≤ MAX_INSERT }
        ensures { (cause : Anchor) (at : ℕ) (looks : Looks) (bytes : List ℕ) → length bytes ≡ len
            → refusal_for self.now (insert cause at looks bytes) ≡ result }
    {
        let old = self.taken.log().file_len(self.site);
        self.refusal_for(u64::from(old) + len as u64)
    }

    // The Insert of a run after the first `pos` characters shown.
    fn own_insert(&self, pos: u64, looks: &Looks, bytes: &[u8]) -> Result<Kind, AllocError>
        requires in_text { pos ≤ length (shown_of self.now) }
        requires some { 0 < length bytes.now }
        requires few { length bytes.now ≤ MAX_INSERT }
        requires allowed { refusal_for self.now (own_insert self.now pos looks.now bytes.now).kind ≡ None }
        ensures { IfOk result (λ kind. (kind_of kind ≡ (own_insert self.now pos looks.now bytes.now).kind)
            × IsKind self.now.site (kind_of kind)) }
    {
        // The looks are in range by their types.
        looks.lemma_are_in_range();
        Ok(Kind::Insert {
            cause: self.own_cause(pos),
            at: self.taken.log().file_len(self.site),
            looks: looks.copy(),
            bytes: Vec::from_slice(self.alloc, bytes)?,
        })
    }

    // Puts a piece after the first `pos` characters shown, by one Insert. An `Err` changes nothing.
    fn insert_piece(
        &mut self,
        pos: u64,
        piece: &Piece<'_>,
        outbox: &mut Outbox,
    ) -> Result<(), Refusal>
        requires in_text { pos ≤ length (shown_of self.old) }
        ensures sends { SendsOne self.old (own_insert self.old pos piece.now.looks piece.now.bytes) result self.new
            outbox.old outbox.new }
        ensures longer { OnOk result
            (length (shown_of self.new) ≡ length (shown_of self.old) + length piece.now.bytes) }
    {
        self.lemma_is_text();
        if let Some(why) = self.insert_refusal(piece.bytes.len()) {
            return Err(why);
        }
        let kind = self.own_insert(pos, piece.looks, piece.bytes)?;
        self.make(kind, outbox)
    }

    // What an insertion answers whose stretch was refused memory for this: its first Insert, of so many bytes, may be
    // refused whatever the memory.
    fn unmade(&self, len: usize, why: Refusal) -> EditRefusal
        requires some { 0 < len }
        requires few { len ≤ MAX_INSERT }
        requires memory { why ≡ Refusal.OutOfMemory }
        ensures { (pos : ℕ) (items : List Item) (sent : List (List ℕ)) → pos ≤ length (shown_of self.now)
            → first_len items ≡ len → EditsSending self.now (insertion pos items) (Err result) self.now sent sent }
    {
        self.lemma_is_text();
        match self.insert_refusal(len) {
            Some(first) => EditRefusal::Whole(first),
            None => EditRefusal::Whole(why),
        }
    }

    /// Puts a stretch after the first `pos` characters shown: an Insert for each stretch of equal looks, and for
    /// each 4,096 bytes of it, each later one after the one before it.
    ///
    /// Answers how many messages it added to the Outbox. Each Insert is refused, in this order, `Behind` where an
    /// operation that waits shows that the site has gone further elsewhere, `SeqSpent` after the site's last seq,
    /// `StampsSpent` after the greatest stamp, `FileSpent` where the site's file would pass 2^24 bytes, and
    /// `OutOfMemory`. An empty stretch sends nothing and is never refused.
    pub fn insert(
        &mut self,
        pos: u64,
        buffer: &Buffer,
        outbox: &mut Outbox,
    ) -> Result<u32, EditRefusal>
        requires in_text { pos ≤ length (shown_of self.old) }
        ensures { EditsSending self.old (insertion pos buffer.now) result self.new outbox.old outbox.new }
    {
        self.lemma_is_text();
        // No buffer has more than 2^24 characters, and each piece has one at least.
        let _ = buffer.len();
        let (mut at, mut done) = (pos, 0);
        for piece in Pieces::of(buffer) {
            if let Err(why) = self.insert_piece(at, &piece, outbox) {
                return Err(refused_after(done, why));
            }
            // No text shows more characters than a `u64` counts.
            let _ = self.shown_len();
            at += piece.bytes.len() as u64;
            done += 1;
        }
        Ok(done)
    }

    /// Puts a stretch at the end of the text, as `insert` does.
    pub fn append(&mut self, buffer: &Buffer, outbox: &mut Outbox) -> Result<u32, EditRefusal>
        ensures { EditsSending self.old (insertion (length (shown_of self.old)) buffer.now) result
            self.new outbox.old outbox.new }
    {
        self.insert(self.shown_len(), buffer, outbox)
    }

    /// Puts bytes of default looks after the first `pos` characters shown, as `insert` does: their stretch takes memory
    /// after all that refuses the first Insert.
    pub fn type_in(
        &mut self,
        pos: u64,
        bytes: &[u8],
        outbox: &mut Outbox,
    ) -> Result<u32, EditRefusal>
        requires in_text { pos ≤ length (shown_of self.old) }
        requires short { length bytes.now ≤ MAX_FILE }
        ensures { EditsSending self.old (insertion pos (map (λ b. (b, plain_looks)) bytes.now)) result
            self.new outbox.old outbox.new }
    {
        match plain_buffer(self.alloc, bytes) {
            Ok(buffer) => self.insert(pos, &buffer, outbox),
            Err(why) => Err(self.unmade(bytes.len().min(MAX_INSERT), why)),
        }
    }

    /// Puts a copy of the stretch that the site cut last after the first `pos` characters shown, as `insert` does:
    /// the copy takes memory after all that refuses the first Insert.
    pub fn insert_recalled(&mut self, pos: u64, outbox: &mut Outbox) -> Result<u32, EditRefusal>
        requires in_text { pos ≤ length (shown_of self.old) }
        ensures { EditsSending self.old (recalling pos) result self.new outbox.old outbox.new }
    {
        match self.recall() {
            Ok(stretch) => self.insert(pos, &stretch, outbox),
            Err(why) => Err(self.unmade(first_len(&self.stretch), why)),
        }
    }
}
