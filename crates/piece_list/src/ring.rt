//! Numbered pieces in order, as they are kept.

ghost use Rattle.std.specs.Prelude.{◌≡◌, ℕ, ◌+◌, ◌<◌, ◌≤◌, ◌^◌, List, [], ◌++◌, length, IfOk, IfSome, IsTrue, OnOk};
ghost use Rattle.std.specs.Prelude.{Some as Just};
ghost use Rattle.looks.specs.Refusal.{RefusedForMemoryAlone};
ghost use Rattle.piece_raw.specs.Ring.{ring, IsMember, HasTag, IsPushed, first_tag, last_tag, with_value};
ghost use Rattle.piece_list.specs.declared.ring.TheConstants.{MAX_PIECES};
ghost use Rattle.piece_list.specs.Changing.{changed_piece};
ghost use Rattle.piece_list.specs.Noted.{ShowsOther, ShowsTheSame};
ghost use Rattle.piece_list.specs.Piece.{Piece};
ghost use Rattle.piece_list.specs.Pieces.{IsPiece, piece_front, longer, rest_of, piece_of};
ghost use Rattle.piece_list.specs.Values.{IsEntered, IsWithin, piece_in};

use crate::piece::{PieceRef, PieceRefs};
use crate::record::PieceRecord;
use crate::run::Run;
use crate::setting::Setting;
use crate::values::ValueTables;
use looks::Refusal;
use piece_raw::Ring;
use std::alloc::Global;
use std::marker::Model;

/// Pieces in order, each under its number, kept as records whose registers' values stand in tables.
#[derive(Drop)]
pub(crate) struct PieceRing {
    records: Ring<PieceRecord>,
    values: ValueTables,
    // How many more pieces take no memory.
    room: usize,
}

impl Model for PieceRing {
    ghost use Rattle.std.specs.Prelude.{All, ◌+◌, ◌≤◌, length};
    ghost use Rattle.piece_list.specs.declared.ring.TheConstants.{MAX_PIECES};
    ghost use Rattle.piece_list.specs.Ringed.{Ringed};
    ghost use Rattle.piece_list.specs.Values.{IsWithin, pieces_in};

    ghost Value = { Ringed };

    ghost view = { λ r. record {
      items = pieces_in r.values.values r.records.items;
      values = r.values.values;
      room = r.room;
    } };

    ghost invariant = { λ r. All (λ m. IsWithin r.values.values m.1) r.records.items × (r.room ≤ r.records.room)
        × (r.room ≤ r.values.room) × (length r.records.items + r.room ≤ MAX_PIECES) };
}

/// The most pieces of a text, so that no number of one is 2^32 - 1, which stands for none.
pub(crate) const MAX_PIECES: usize = u32::MAX as usize;

// Sets the cursor on the record of this number, before the first one for `None`.
fn stand_on(records: &mut Ring<PieceRecord>, last: Option<u64>)
    requires { IfSome last (HasTag records.old.items) }
    ensures { records.new ≡ ring records.old.items last records.old.room }
{
    match last {
        Some(number) => records.seek(number),
        None => records.to_trailer(),
    }
}

// Sets a setting in a record's registers, and tells whether its characters show something else now, if that is asked.
fn set(values: &ValueTables, record: &mut PieceRecord, setting: &Setting, asked: bool) -> bool
    requires within { IsWithin values.now.values record.old }
    requires entered { IsEntered values.now.values setting.now }
    ensures within { IsWithin values.now.values record.new }
    ensures changed { piece_in values.now.values record.new ≡ changed_piece setting.now (piece_in values.now.values record.old) }
    ensures other { IsTrue result → IsTrue asked
        × ShowsOther setting.now (piece_in values.now.values record.old) (piece_in values.now.values record.new) }
    ensures same { IsTrue asked → ¬ IsTrue result
        → ShowsTheSame (piece_in values.now.values record.old) (piece_in values.now.values record.new) }
{
    let hidden = values.is_hidden(record);
    match setting {
        Setting::Switch { .. } => {
            values.set(record, setting);
            asked && values.is_hidden(record) != hidden
        }
        Setting::Relook { .. } => {
            let asked = asked && !hidden;
            let was = if asked {
                Some(values.looks_of(record))
            } else {
                None
            };
            values.set(record, setting);
            match was {
                Some(was) => values.looks_of(record) != was,
                None => false,
            }
        }
    }
}

impl PieceRing {
    // No pieces.
    pub(crate) fn new(alloc: Global) -> Result<PieceRing, Refusal>
        ensures ok { IfOk result (λ ring. ring.items ≡ []) }
        ensures errors { RefusedForMemoryAlone result }
    {
        Ok(PieceRing {
            records: Ring::new(alloc)?,
            values: ValueTables::new(alloc),
            room: 0,
        })
    }

    // Makes room for so many more pieces. Refused `OutOfMemory` also where there would be more than `MAX_PIECES`.
    pub(crate) fn reserve(&mut self, n: usize) -> Result<(), Refusal>
        ensures ok { OnOk result (n ≤ self.new.room) }
        ensures most { OnOk result (length self.old.items + n ≤ MAX_PIECES) }
        ensures errors { RefusedForMemoryAlone result }
        ensures items { self.new.items ≡ self.old.items }
        ensures values { self.new.values ≡ self.old.values }
    {
        // The ring's last number isn't used.
        self.records.reserve(n.saturating_add(1))?;
        self.values.reserve(n)?;
        self.room = n;
        Ok(())
    }

    // Enters a setting, so that pieces can be given it.
    pub(crate) fn enter(&mut self, setting: &Setting) -> Result<(), Refusal>
        ensures ok { OnOk result (IsEntered self.new.values setting.now) }
        ensures errors { RefusedForMemoryAlone result }
        ensures items { self.new.items ≡ self.old.items }
        ensures room { self.new.room ≡ self.old.room }
    {
        self.values.enter(setting)
    }

    // The piece of this number.
    pub(crate) fn piece_at(&self, number: u64) -> PieceRef<'_>
        requires { HasTag self.now.items number }
        ensures { IsMember self.now.items number result }
    {
        PieceRef::new(self.records.value_at(number), &self.values)
    }

    // The pieces from the one of this number on; none for `None`.
    pub(crate) fn from(&self, at: Option<u64>) -> PieceRefs<'_>
        requires { IfSome at (HasTag self.now.items) }
        ensures { (before left : List (ℕ × Piece)) → self.now.items ≡ before ++ left → first_tag left ≡ at
            → result ≡ left }
    {
        PieceRefs::new(self.records.from(at), &self.values)
    }

    // The pieces after the one of this number; all for `None`.
    pub(crate) fn rest_after(&self, last: Option<u64>) -> PieceRefs<'_>
        requires { IfSome last (HasTag self.now.items) }
        ensures { (before left : List (ℕ × Piece)) → self.now.items ≡ before ++ left → last_tag before ≡ last
            → result ≡ left }
    {
        PieceRefs::new(self.records.rest_after(last), &self.values)
    }

    // Splits the piece of this number after its first `n` characters. The rest gets the number that is answered.
    pub(crate) fn split(&mut self, number: u64, n: u32) -> u64
        requires here { HasTag self.old.items number }
        requires within { (p : Piece) → IsMember self.old.items number p → IsPiece p × (n < p.len) }
        requires room { 0 < self.old.room }
        ensures number { (result ≡ length self.old.items) × (result < MAX_PIECES) }
        ensures split { (p : Piece) × IsMember self.old.items number p
            × IsPushed (with_value number (piece_front n p) self.old.items) (Just number) result (rest_of n p) self.new.items }
        ensures values { self.new.values ≡ self.old.values }
        ensures room { self.old.room ≤ self.new.room + 1 }
    {
        self.records.seek(number);
        let rest = self.records.value_mut().split_off(n);
        self.room -= 1;
        match self.records.push_after(rest) {
            Ok(new) => new,
            Err(_) => unreachable!(),
        }
    }

    // Adds `n` characters at the end of the piece of this number.
    pub(crate) fn lengthen(&mut self, number: u64, n: u32)
        requires here { HasTag self.old.items number }
        requires small { (p : Piece) → IsMember self.old.items number p → p.len + n < 2 ^ 16 }
        ensures longer { (p : Piece) × IsMember self.old.items number p
            × (self.new.items ≡ with_value number (longer n p) self.old.items) }
        ensures few { length self.old.items ≤ MAX_PIECES }
        ensures values { self.new.values ≡ self.old.values }
        ensures room { self.new.room ≡ self.old.room }
    {
        self.records.seek(number);
        self.records.value_mut().lengthen(n);
    }

    // Inserts the piece of a run directly after the one of this number, at the front for `None`. It gets the number that is
    // answered.
    pub(crate) fn insert(&mut self, last: Option<u64>, run: &Run) -> u64
        requires last { IfSome last (HasTag self.old.items) }
        requires small { run.now.len < 2 ^ 16 }
        requires room { 0 < self.old.room }
        ensures number { (result ≡ length self.old.items) × (result < MAX_PIECES) }
        ensures inserted { IsPushed self.old.items last result (piece_of run.now) self.new.items }
        ensures room { self.old.room ≤ self.new.room + 1 }
    {
        let looks = self.values.number_of(&run.looks);
        stand_on(&mut self.records, last);
        self.room -= 1;
        match self.records.push_after(PieceRecord::of_run(run, looks)) {
            Ok(new) => new,
            Err(_) => unreachable!(),
        }
    }

    // Gives the piece of this number what was entered last, and tells whether it shows something else now, if that is asked.
    pub(crate) fn change(&mut self, number: u64, setting: &Setting, asked: bool) -> bool
        requires here { HasTag self.old.items number }
        requires entered { IsEntered self.old.values setting.now }
        ensures changed { (p : Piece) × IsMember self.old.items number p
            × (self.new.items ≡ with_value number (changed_piece setting.now p) self.old.items)
            × (IsTrue result → IsTrue asked × ShowsOther setting.now p (changed_piece setting.now p))
            × (IsTrue asked → ¬ IsTrue result → ShowsTheSame p (changed_piece setting.now p)) }
        ensures values { self.new.values ≡ self.old.values }
        ensures room { self.new.room ≡ self.old.room }
    {
        self.records.seek(number);
        set(&self.values, self.records.value_mut(), setting, asked)
    }
}
