ghost use Rattle.std.specs.Prelude.{◌≡◌, ℕ, ◌+◌, ◌-◌, ◌<◌, ◌≤◌, ◌↔◌, [], ◌∷◌, ◌++◌, length, slice_get, slice_index_or};
ghost use Rattle.std.specs.Prelude.{All, IfOk, IfSome, IsTrue, OnOk, Some as Just, vec_len, vec_capacity};
ghost use Rattle.looks.specs.Refusal.{RefusedForMemoryAlone};
ghost use Rattle.operations.specs.Letters.{letters};
ghost use Rattle.operations.specs.Operation.{insert};
ghost use Rattle.operations.specs.Spelling.{HasSpelling};
ghost use Rattle.op_log.specs.Found.{found_op, IsSound};
ghost use Rattle.op_log.specs.Stretches.{anchor_of, one_delete};
ghost use Rattle.op_log.specs.declared.TheConstants.{MAX_OPS};

use crate::MAX_OPS;
use crate::found::{Found, are_same, identity_of, made};
use crate::one_delete::{OneDelete, one_delete_in};
use crate::stretch::{
    Stretch, TypedRun, goes_on, lengthen_by, letter_in, next_byte, number_of, numbers_of,
    push_deleted, push_single,
};
use char_files::SiteNo;
use looks::{Looks, Refusal};
use operations::{Op, Typing};
use std::alloc::Global;
use std::marker::Model;

// The most looks of a list, so that the number of each has 32 bits.
const MAX_LOOKS: usize = u32::MAX as usize;

/// Operations in order: letters that were typed one after the other take a byte each.
#[derive(Drop)]
pub(crate) struct OpList {
    stretches: Vec<Stretch>,
    // How many operations stand before each stretch.
    firsts: Vec<u32>,
    // What the stretches share: the bytes of letters, the looks of runs, and the operations that stand alone.
    bytes: Vec<u8>,
    looks: Vec<Looks>,
    singles: Vec<Op>,
    len: usize,
    alloc: Global,
}

impl Model for OpList {
    ghost use Rattle.std.specs.Prelude.{◌-◌, ◌≤◌, min, vec_len, vec_capacity};
    ghost use Rattle.op_log.specs.Seen.{OpsSeen};
    ghost use Rattle.op_log.specs.Stretches.{AreStretches, all_ops, letters_in, room_in, runs_in, shared};
    ghost use Rattle.op_log.specs.declared.TheConstants.{MAX_OPS};
    ghost use Rattle.op_log.specs.declared.op_list.TheConstants.{MAX_LOOKS};

    ghost Value = { OpsSeen };

    ghost view = { λ l. record {
      looks = l.looks.items;
      items = all_ops (shared l.bytes.items l.looks.items l.singles.items) l.stretches.items;
      room = room_in l.stretches l.firsts l.bytes l.looks l.singles l.len;
      runs = runs_in l.stretches l.firsts l.looks;
      letters = letters_in l.bytes l.len;
    } };

    ghost invariant = { λ l.
        AreStretches (shared l.bytes.items l.looks.items l.singles.items) l.stretches.items l.firsts.items l.len
        × (l.len ≤ MAX_OPS) × (vec_len l.looks ≤ MAX_LOOKS) };
}

// The slot of the last number that isn't above this one. The first is 0.
fn slot_of(firsts: &[u32], at: usize) -> usize
    requires some { 0 < length firsts.now }
    requires first { (d : ℕ) → slice_index_or firsts.now 0 d ≡ 0 }
    ensures within { result < length firsts.now }
    ensures low { (d : ℕ) → slice_index_or firsts.now result d ≤ at }
    ensures high { (d : ℕ) → result + 1 < length firsts.now → at < slice_index_or firsts.now (result + 1) d }
{
    let mut low = 0;
    let mut high = firsts.len();
    while 1 < high - low {
        let middle = low + (high - low) / 2;
        if firsts[middle] as usize <= at {
            low = middle;
        } else {
            high = middle;
        }
    }
    low
}

// Puts bytes at the end. There is room.
fn append(bytes: &mut Vec<u8>, more: &[u8])
    requires { vec_len bytes.old + length more.now ≤ vec_capacity bytes.old }
    ensures { bytes.new.items ≡ bytes.old.items ++ more.now }
{
    if bytes.extend_from_slice(more).is_err() {
        unreachable!();
    }
}

impl OpList {
    pub(crate) fn new(alloc: Global) -> OpList
        ensures { result.items ≡ [] }
    {
        OpList {
            stretches: Vec::new(alloc),
            firsts: Vec::new(alloc),
            bytes: Vec::new(alloc),
            looks: Vec::new(alloc),
            singles: Vec::new(alloc),
            len: 0,
            alloc,
        }
    }

    // A law: each operation has a message.
    pub(crate) fn lemma_have_spelling(&self)
        ensures { All HasSpelling self.now.items }
    {
        let _ = &self.len;
    }

    pub(crate) fn alloc(&self) -> Global {
        self.alloc
    }

    pub(crate) fn len(&self) -> usize
        ensures value { result ≡ length self.now.items }
        ensures few { length self.now.items + self.now.room ≤ MAX_OPS }
        ensures few_letters { length self.now.items + self.now.letters ≤ MAX_OPS }
    {
        self.len
    }

    // Makes room for one operation more. Refused `OutOfMemory` alone, which is also where there are 2^32.
    pub(crate) fn reserve(&mut self) -> Result<(), Refusal>
        ensures ok { OnOk result (0 < self.new.room) }
        ensures errors { RefusedForMemoryAlone result }
        ensures items { self.new.items ≡ self.old.items }
        ensures room { self.old.room ≤ self.new.room }
        ensures runs { self.old.runs ≤ self.new.runs }
        ensures letters { self.old.letters ≤ self.new.letters }
    {
        Refusal::within_memory(self.len + 1, MAX_OPS)?;
        Refusal::within_memory(self.looks.len() + 1, MAX_LOOKS)?;
        self.stretches.reserve(1)?;
        self.firsts.reserve(1)?;
        self.bytes.reserve(1)?;
        self.looks.reserve(1)?;
        self.singles.reserve(1)?;
        Ok(())
    }

    // Makes room for so many letters more that are typed one after the other. Refused `OutOfMemory` alone, which is also where there
    // would be more than 2^32 operations.
    pub(crate) fn reserve_letters(&mut self, len: usize) -> Result<(), Refusal>
        ensures ok { OnOk result ((0 < self.new.runs) × (len ≤ self.new.letters)) }
        ensures errors { RefusedForMemoryAlone result }
        ensures items { self.new.items ≡ self.old.items }
        ensures room { self.old.room ≤ self.new.room }
        ensures runs { self.old.runs ≤ self.new.runs }
        ensures letters { self.old.letters ≤ self.new.letters }
    {
        Refusal::within_memory(self.len.saturating_add(len), MAX_OPS)?;
        Refusal::within_memory(self.looks.len() + 1, MAX_LOOKS)?;
        self.stretches.reserve(1)?;
        self.firsts.reserve(1)?;
        self.bytes.reserve(len)?;
        self.looks.reserve(1)?;
        Ok(())
    }

    // Puts a letter at the end that goes on where the last run ends; `false` where the operation is none.
    fn go_on(&mut self, op: &Op) -> bool
        requires { 0 < self.old.room }
        ensures goes_on { IsTrue result → self.new.items ≡ self.old.items ++ op.now ∷ [] }
        ensures otherwise { ¬ IsTrue result → self.new ≡ self.old }
    {
        op.lemma_has_spelling();
        let Some(byte) = next_byte(&self.stretches, &self.looks, op) else {
            return false;
        };
        self.bytes.push_reserved(byte);
        lengthen_by(&mut self.stretches, 1);
        self.len += 1;
        true
    }

    // Puts a letter at the end that begins a run.
    fn begin(&mut self, op: &Op, cause: (u16, u32), at: u32, looks: &Looks, byte: u8)
        requires letter { op.now.kind ≡ insert (anchor_of cause.0 cause.1) at looks.now (byte ∷ []) }
        requires cause { cause.1 < 16777216 }
        requires room { 0 < self.old.room }
        ensures { self.new.items ≡ self.old.items ++ op.now ∷ [] }
    {
        op.lemma_has_spelling();
        let run = TypedRun {
            stamp: op.stamp(),
            from: self.bytes.len() as u32,
            seq: op.seq(),
            at,
            looks: number_of(&mut self.looks, looks),
            len: 1,
            cause_off: cause.1,
            cause_site: cause.0,
            text: op.text(),
            site: op.site(),
        };
        self.bytes.push_reserved(byte);
        self.stretches.push_reserved(Stretch::Typed(run));
        self.firsts.push_reserved(self.len as u32);
        self.len += 1;
    }

    // Puts a Delete of one character at the end.
    fn push_deleted(&mut self, op: &Op, one: OneDelete)
        requires one { op.now ≡ one_delete one }
        requires room { 0 < self.old.room }
        ensures { self.new.items ≡ self.old.items ++ op.now ∷ [] }
    {
        op.lemma_has_spelling();
        push_deleted(&mut self.stretches, one);
        self.firsts.push_reserved(self.len as u32);
        self.len += 1;
    }

    // Puts an operation at the end that stands alone.
    fn push_single(&mut self, op: Op)
        requires { 0 < self.old.room }
        ensures { self.new.items ≡ self.old.items ++ op ∷ [] }
    {
        op.lemma_has_spelling();
        push_single(&mut self.stretches, self.singles.len());
        self.singles.push_reserved(op);
        self.firsts.push_reserved(self.len as u32);
        self.len += 1;
    }

    // Puts an operation at the end.
    pub(crate) fn push(&mut self, op: Op)
        requires { 0 < self.old.room }
        ensures items { self.new.items ≡ self.old.items ++ op ∷ [] }
    {
        if self.go_on(&op) {
            return;
        }
        if let Some((cause, at, looks, byte)) = letter_in(&op) {
            self.begin(&op, cause, at, looks, byte);
            return;
        }
        match one_delete_in(&op) {
            Some(one) => self.push_deleted(&op, one),
            None => self.push_single(op),
        }
    }

    // Puts letters at the end that go on where the last run ends; `false` where they don't.
    fn go_on_with(&mut self, typing: &Typing, bytes: &[u8]) -> bool
        requires some { 0 < length bytes.now }
        requires room { length bytes.now ≤ self.old.letters }
        requires spelled { All HasSpelling (letters typing.now bytes.now) }
        ensures goes_on { IsTrue result → self.new.items ≡ self.old.items ++ letters typing.now bytes.now }
        ensures otherwise { ¬ IsTrue result → self.new ≡ self.old }
    {
        if !goes_on(&self.stretches, &self.looks, typing) {
            return false;
        }
        append(&mut self.bytes, bytes);
        lengthen_by(&mut self.stretches, bytes.len());
        self.len += bytes.len();
        true
    }

    // Puts letters at the end that begin a run.
    fn begin_with(&mut self, typing: &Typing, bytes: &[u8])
        requires some { 0 < length bytes.now }
        requires runs { 0 < self.old.runs }
        requires room { length bytes.now ≤ self.old.letters }
        requires spelled { All HasSpelling (letters typing.now bytes.now) }
        ensures { self.new.items ≡ self.old.items ++ letters typing.now bytes.now }
    {
        let (cause_site, cause_off) = numbers_of(typing.cause);
        let from = self.bytes.len() as u32;
        let run = TypedRun {
            stamp: typing.stamp,
            from,
            seq: typing.seq,
            at: typing.at,
            looks: number_of(&mut self.looks, &typing.looks),
            len: bytes.len() as u32,
            cause_off,
            cause_site,
            text: typing.text,
            site: typing.site,
        };
        append(&mut self.bytes, bytes);
        self.stretches.push_reserved(Stretch::Typed(run));
        self.firsts.push_reserved(self.len as u32);
        self.len += bytes.len();
    }

    // Puts letters at the end.
    pub(crate) fn push_letters(&mut self, typing: &Typing, bytes: &[u8])
        requires some { 0 < length bytes.now }
        requires runs { 0 < self.old.runs }
        requires room { length bytes.now ≤ self.old.letters }
        requires spelled { All HasSpelling (letters typing.now bytes.now) }
        ensures { self.new.items ≡ self.old.items ++ letters typing.now bytes.now }
    {
        if !self.go_on_with(typing, bytes) {
            self.begin_with(typing, bytes);
        }
    }

    // What stands at this place.
    fn found(&self, at: usize) -> Found<'_>
        requires { at < length self.now.items }
        ensures { (slice_get self.now.items at ≡ Just (found_op self.now.looks result)) × IsSound self.now.looks result }
    {
        let slot = slot_of(&self.firsts, at);
        let k = at - self.firsts[slot] as usize;
        match self.stretches[slot] {
            Stretch::Typed(run) => Found::Letter {
                run,
                k: k as u32,
                byte: self.bytes[run.from as usize + k],
            },
            Stretch::Deleted(one) => Found::Deleted(one),
            Stretch::Single(single) => Found::Single(&self.singles[single]),
        }
    }

    // The operation at this place. Refused `OutOfMemory` alone.
    pub(crate) fn get(&self, at: usize) -> Result<Op, Refusal>
        requires { at < length self.now.items }
        ensures ok { IfOk result (λ op. slice_get self.now.items at ≡ Just op) }
        ensures errors { RefusedForMemoryAlone result }
    {
        made(self.alloc, &self.looks, &self.found(at))
    }

    // Whose it is, and its number.
    pub(crate) fn identity(&self, at: usize) -> (SiteNo, u32)
        requires { at < length self.now.items }
        ensures { IfSome (slice_get self.now.items at) (λ op. (result.0 ≡ op.site) × (result.1 ≡ op.seq)) }
    {
        identity_of(&self.looks, &self.found(at))
    }

    // Whether this one stands at this place.
    pub(crate) fn is_at(&self, at: usize, op: &Op) -> bool
        requires { at < length self.now.items }
        ensures { IsTrue result ↔ (slice_get self.now.items at ≡ Just op.now) }
    {
        are_same(
            &self.looks,
            &self.found(at),
            &self.looks,
            &Found::Single(op),
        )
    }

    // Whether the same one stands at a place of another list.
    pub(crate) fn is_same_at(&self, at: usize, other: &OpList, there: usize) -> bool
        requires here { at < length self.now.items }
        requires there { there < length other.now.items }
        ensures { IsTrue result ↔ (slice_get self.now.items at ≡ slice_get other.now.items there) }
    {
        are_same(
            &self.looks,
            &self.found(at),
            &other.looks,
            &other.found(there),
        )
    }
}
