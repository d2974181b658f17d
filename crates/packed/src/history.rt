ghost use Rattle.std.specs.Prelude.{◌≡◌, ℕ, ◌+◌, ◌<◌, ◌⊎◌, List, ◌++◌, ◌↔◌, OnOk, OnErr, IsOk, IsTrue, true, IfOk, IfErr, IfSome, IfNone, IsErrOf};
ghost use Rattle.looks.specs.Refusal.{RefusedForMemoryAlone};
ghost use Rattle.byte_fields.specs.Fields.{Appends, Finds};
ghost use Rattle.operations.specs.Operation.{Begins, Operation};
ghost use Rattle.operations.specs.Spelling.{HasSpelling};
ghost use Rattle.operations.specs.declared.op.TheConstants.{MAX_STAMP};
ghost use Rattle.packed.specs.Told.{nothing_told, nothing_begun, begun_at, has_begun, noted, expected, told_on, IsNext, IsOffsetInFile, CaretsAreInFiles};
ghost use Rattle.packed.specs.Spelling.{packed_next};
ghost use Rattle.packed.specs.Reading.{parts_at, next_of_parts, CanBeNext, BeginsWithNone};
ghost use Rattle.packed.specs.Seen.{view_read};

mod letters;

use crate::expected::Expected;
use crate::reading::{Read, edit_at, time_at};
use crate::writing::{put_edit, put_time};
use char_files::{SiteNo, TextNo};
use indexmap::IndexMap;
use looks::Refusal;
use operations::Op;
use std::alloc::{AllocError, Global};
use std::marker::Model;

/// What a text's operations so far tell of the next one, by which that one is packed and read.
#[derive(Drop)]
pub struct History {
    // Whether the operations are those of a chunk.
    in_chunk: bool,
    // The site of the last operation.
    last: Option<SiteNo>,
    // By the sites' numbers.
    sites: IndexMap<u16, Expected>,
}

impl Model for History {
    ghost use Rattle.packed.specs.Told.{Told, CaretsAreInFiles};

    ghost Value = { Told };

    ghost view = { λ h. record { in_chunk = h.in_chunk; last = h.last; sites = h.sites.entries } };

    ghost invariant = { λ h. CaretsAreInFiles (record { in_chunk = h.in_chunk; last = h.last; sites = h.sites.entries }) };
}

// The stamp that is so much above the next one; `None` where there is no such number.
fn stamp_after(stamp: u64, more: u64) -> Option<u64>
    ensures some { IfSome result (λ next. next ≡ stamp + 1 + more) }
    ensures none { IfNone result (MAX_STAMP < stamp + 1 + more) }
{
    stamp.checked_add(1)?.checked_add(more)
}

impl History {
    /// No operations.
    pub fn new(alloc: Global) -> History
        ensures { result ≡ nothing_told }
    {
        History {
            in_chunk: false,
            last: None,
            sites: IndexMap::new(alloc),
        }
    }

    /// No operations, in a chunk: each site has to begin before its first one.
    pub fn of_chunk(alloc: Global) -> History
        ensures { result ≡ nothing_begun }
    {
        History {
            in_chunk: true,
            last: None,
            sites: IndexMap::new(alloc),
        }
    }

    // A law: each site's caret is within a file.
    fn lemma_carets(&self)
        ensures { CaretsAreInFiles self.now }
    {
        let _ = &self.last;
    }

    // What is expected of a site.
    fn expected(&self, site: SiteNo) -> Expected
        ensures { result ≡ expected self.now site }
    {
        match self.sites.get(&site.get()) {
            Some(expected) => expected.copy(),
            None => Expected::at_first(),
        }
    }

    /// Whether something is told of a site: it has operations, or has begun.
    pub fn has_begun(&self, site: SiteNo) -> bool
        ensures { result ≡ has_begun self.now site }
    {
        self.sites.get(&site.get()).is_some()
    }

    /// How long a site's file is.
    pub fn len(&self, site: SiteNo) -> u32
        ensures { result ≡ (expected self.now site).len }
    {
        self.expected(site).len
    }

    /// Whether an operation can come next: its number and stamp go on after its site's last ones, and an Insert begins where
    /// its site's file ends.
    pub fn is_next(&self, op: &Op) -> bool
        ensures { IsTrue result ↔ IsNext self.now op.now }
    {
        op.lemma_has_spelling();
        let expected = self.expected(op.site());
        op.seq() - 1 == expected.seq
            && expected.stamp < op.stamp()
            && op.begins_at(u64::from(expected.len))
    }

    // Notes what is expected of a site. Refused `OutOfMemory` alone, and then all is as before.
    fn tell(&mut self, site: SiteNo, expected: Expected) -> Result<(), Refusal>
        requires { IsOffsetInFile expected.caret }
        ensures ok { OnOk result (self.new ≡ noted self.old site expected) }
        ensures room { has_begun self.old site ≡ true → IsOk result }
        ensures errors { RefusedForMemoryAlone result }
        ensures err { OnErr result (self.new ≡ self.old) }
    {
        self.sites.insert(site.get(), expected)?;
        self.last = Some(site);
        Ok(())
    }

    /// Notes that a site begins: its last operation has this seq and stamp, and its file this length.
    ///
    /// Refused `OutOfMemory` alone, and then all is as before.
    pub fn begin(&mut self, site: SiteNo, seq: u32, stamp: u64, len: u32) -> Result<(), Refusal>
        ensures ok { OnOk result (self.new ≡ begun_at self.old site seq stamp len) }
        ensures errors { RefusedForMemoryAlone result }
        ensures err { OnErr result (self.new ≡ self.old) }
    {
        let begun = Expected {
            seq,
            len,
            stamp,
            ..Expected::at_first()
        };
        self.tell(site, begun)
    }

    /// Notes an operation that is counted without being spelled here.
    ///
    /// Refused `OutOfMemory` alone, and then all is as before.
    pub fn pass(&mut self, op: &Op) -> Result<(), Refusal>
        requires { Begins op.now.kind (expected self.old op.now.site).len }
        ensures ok { OnOk result (self.new ≡ told_on self.old op.now) }
        // A site that has begun needs no memory.
        ensures room { has_begun self.old op.now.site ≡ true → IsOk result }
        ensures errors { RefusedForMemoryAlone result }
        ensures err { OnErr result (self.new ≡ self.old) }
    {
        op.lemma_has_spelling();
        let site = op.site();
        let expected = self.expected(site).after(op);
        self.tell(site, expected)
    }

    /// Appends the bytes of the next operation, and doesn't note it. After an `Err` some of them may stand there.
    pub fn spell(&self, op: &Op, out: &mut Vec<u8>) -> Result<(), AllocError>
        requires { IsNext self.now op.now }
        ensures { Appends result out.old.items out.new.items (packed_next self.now op.now) }
    {
        op.lemma_has_spelling();
        let expected = self.expected(op.site());
        let more = op.stamp() - expected.stamp - 1;
        put_time(out, self.last, op.site(), more)?;
        put_edit(out, self.in_chunk, &expected, op)
    }

    // Appends the next operation, and notes it.
    fn put_and_note(&mut self, op: &Op, out: &mut Vec<u8>) -> Result<(), Refusal>
        requires { IsNext self.old op.now }
        ensures put { Appends result out.old.items out.new.items (packed_next self.old op.now) }
        ensures ok { OnOk result (self.new ≡ told_on self.old op.now) }
        ensures errors { RefusedForMemoryAlone result }
        ensures err { OnErr result (self.new ≡ self.old) }
    {
        self.spell(op, out)?;
        self.pass(op)
    }

    /// Appends the bytes of an operation, the next of its site, and takes it into the history.
    ///
    /// Refused `OutOfMemory` alone, and then both are as they were.
    pub fn put(&mut self, op: &Op, out: &mut Vec<u8>) -> Result<(), Refusal>
        requires { IsNext self.old op.now }
        ensures bytes { OnOk result (out.new.items ≡ out.old.items ++ packed_next self.old op.now) }
        ensures told { OnOk result (self.new ≡ told_on self.old op.now) }
        ensures errors { RefusedForMemoryAlone result }
        ensures err { OnErr result ((self.new ≡ self.old) × (out.new.items ≡ out.old.items)) }
    {
        let start = out.len();
        let put = self.put_and_note(op, out);
        if put.is_err() {
            out.truncate(start);
        }
        put
    }

    // The parts of the next operation, and the bytes after it.
    #[tactic(auto, unfolding(crate::specs::Reading::parts_at))]
    fn parts_at<'a>(&self, bytes: &'a [u8]) -> Option<(Read<'a>, &'a [u8])>
        ensures { Finds (λ x. (view_read x.0, x.1.now)) result (parts_at self.now bytes.now) }
    {
        let Some(((site, more), rest)) = time_at(self.last, bytes) else {
            return None;
        };
        let expected = self.expected(site);
        let Some((edit, rest)) = edit_at(self.in_chunk, &expected, rest) else {
            return None;
        };
        Some((Read { site, more, edit }, rest))
    }

    // The next operation of these parts; `BadFile` where it has no spelling.
    fn make(&self, alloc: Global, text: TextNo, read: Read<'_>) -> Result<Op, Refusal>
        ensures ok { IfOk result (λ op. op ≡ next_of_parts self.now text (view_read read.entry)) }
        ensures bad { IsErrOf result Refusal.BadFile → ¬ HasSpelling (next_of_parts self.now text (view_read read.entry)) }
        ensures errors { IfErr result (λ e. (e ≡ Refusal.BadFile) ⊎ (e ≡ Refusal.OutOfMemory)) }
    {
        let expected = self.expected(read.site);
        let seq = expected.seq.checked_add(1).ok_or(Refusal::BadFile)?;
        let stamp = stamp_after(expected.stamp, read.more).ok_or(Refusal::BadFile)?;
        let kind = read.edit.kind(alloc)?;
        Op::new(text, read.site, seq, stamp, kind).ok_or(Refusal::BadFile)
    }

    /// Reads the operation that the bytes begin with, takes it into the history, and gives it with the bytes after it. Its
    /// text is this one.
    ///
    /// Refused `BadFile` where they begin with no operation that can come next. Where all but the bounds of its fields is right,
    /// `OutOfMemory` may come in the place of that, as of all else; and then the history is as it was.
    pub fn next<'a>(
        &mut self,
        alloc: Global,
        text: TextNo,
        bytes: &'a [u8],
    ) -> Result<(Op, &'a [u8]), Refusal>
        // What is read is packed so.
        ensures bytes { IfOk result (λ x. bytes.now ≡ packed_next self.old x.0 ++ x.1.now) }
        ensures next { IfOk result (λ x. IsNext self.old x.0 × (x.0.text ≡ text)) }
        ensures told { IfOk result (λ x. self.new ≡ told_on self.old x.0) }
        // What is packed so is read, unless memory is refused.
        ensures only { (op : Operation) (rest : List ℕ) → CanBeNext self.old text op
            → bytes.now ≡ packed_next self.old op ++ rest → IfOk result (λ x. (x.0 ≡ op) × (x.1.now ≡ rest)) }
        ensures bad { IsErrOf result Refusal.BadFile → BeginsWithNone self.old text bytes.now }
        ensures errors { IfErr result (λ e. (e ≡ Refusal.BadFile) ⊎ (e ≡ Refusal.OutOfMemory)) }
        ensures err { OnErr result (self.new ≡ self.old) }
    {
        self.lemma_carets();
        let Some((read, rest)) = self.parts_at(bytes) else {
            return Err(Refusal::BadFile);
        };
        let op = match self.make(alloc, text, read) {
            Ok(op) => op,
            Err(refused) => return Err(refused),
        };
        self.pass(&op)?;
        Ok((op, rest))
    }
}
