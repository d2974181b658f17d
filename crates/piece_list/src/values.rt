ghost use Rattle.std.specs.Prelude.{◌≡◌, ◌+◌, ◌-◌, ◌<◌, ◌≤◌, [], length, slice_get, Some as Just, IfSome, OnOk};
ghost use Rattle.std.specs.Prelude.{List, ◌∷◌, ◌++◌};
ghost use Rattle.looks.specs.Refusal.{RefusedForMemoryAlone};
ghost use Rattle.looks.specs.declared.looks.Looks.{Looks};
ghost use Rattle.looks.specs.declared.register.Register.{Register};
ghost use Rattle.piece_list.specs.Changing.{changed_piece};
ghost use Rattle.piece_list.specs.Pieces.{gives_way, offered_to_if};
ghost use Rattle.piece_list.specs.Shown.{looks_of};
ghost use Rattle.piece_list.specs.Values.{IsEntered, IsWithin, ValuesGrow, inserted_with, piece_in, record_looks_by, register_by};

use crate::record::PieceRecord;
use crate::setting::Setting;
use looks::{Key, Looks, Refusal, Register};
use std::alloc::Global;
use std::marker::Model;

// The most entries of a table, so that the number of one has 32 bits.
const MAX_ENTRIES: usize = u32::MAX as usize;

// How far back looks are sought that a run may share.
const FAR_BACK: usize = 8;

/// The values that pieces' registers hold, each entered once for all pieces that have it. Nothing is taken out.
#[derive(Drop)]
pub(crate) struct ValueTables {
    // The looks that runs were inserted with.
    looks: Vec<Looks>,
    // What was set since, each under its key.
    relooks: Vec<Register<Looks>>,
    switches: Vec<Register<bool>>,
}

impl Model for ValueTables {
    ghost use Rattle.std.specs.Prelude.{◌≤◌, ◌-◌, min, vec_len, vec_capacity};
    ghost use Rattle.piece_list.specs.Values.{ValuesSeen};
    ghost use Rattle.piece_list.specs.declared.values.TheConstants.{MAX_ENTRIES};

    ghost Value = { ValuesSeen };

    ghost view = { λ t. record {
      values = record { looks = t.looks.items; relooks = t.relooks.items; switches = t.switches.items };
      room = min (vec_capacity t.looks) MAX_ENTRIES - vec_len t.looks;
    } };

    ghost invariant = { λ t. (vec_len t.looks ≤ MAX_ENTRIES) × (vec_len t.relooks ≤ MAX_ENTRIES)
        × (vec_len t.switches ≤ MAX_ENTRIES) };
}

// The place of looks among the last that were entered, if they are there.
fn near(entered: &[Looks], looks: &Looks) -> Option<usize>
    ensures { IfSome result (λ at. slice_get entered.now at ≡ Just looks.now) }
{
    let mut at = entered.len();
    let first = at.saturating_sub(FAR_BACK);
    while first < at {
        at -= 1;
        if entered[at] == *looks {
            return Some(at);
        }
    }
    None
}

// Whether what a register holds gives way to what is set under this key: what was inserted always does.
fn gives_way<V>(entries: &[Register<V>], by: u32, key: Key) -> bool
    requires { by ≤ length entries.now }
    ensures { (value : V) → result ≡ gives_way (register_by entries.now by value).by key }
{
    by == 0 || entries[by as usize - 1].key < key
}

impl ValueTables {
    pub(crate) fn new(alloc: Global) -> ValueTables
        ensures { result.values ≡ record { looks = []; relooks = []; switches = [] } }
    {
        ValueTables {
            looks: Vec::new(alloc),
            relooks: Vec::new(alloc),
            switches: Vec::new(alloc),
        }
    }

    // Makes room for the looks of so many more runs. Refused `OutOfMemory` alone.
    pub(crate) fn reserve(&mut self, n: usize) -> Result<(), Refusal>
        ensures ok { OnOk result (n ≤ self.new.room) }
        ensures errors { RefusedForMemoryAlone result }
        ensures values { self.new.values ≡ self.old.values }
        ensures room { self.old.room ≤ self.new.room }
    {
        Refusal::within_memory(self.looks.len().saturating_add(n), MAX_ENTRIES)?;
        self.looks.reserve(n)?;
        Ok(())
    }

    // The number of these looks, for which there is room.
    pub(crate) fn number_of(&mut self, looks: &Looks) -> u32
        requires { 0 < self.old.room }
        ensures grows { ValuesGrow self.old.values self.new.values }
        ensures there { slice_get self.new.values.looks result ≡ Just looks.now }
        ensures room { self.old.room ≤ self.new.room + 1 }
    {
        if let Some(at) = near(&self.looks, looks) {
            return at as u32;
        }
        let number = self.looks.len() as u32;
        self.looks.push_reserved(looks.copy());
        number
    }

    // Enters a setting. Refused `OutOfMemory` alone, and then all is as before.
    pub(crate) fn enter(&mut self, setting: &Setting) -> Result<(), Refusal>
        ensures ok { OnOk result (IsEntered self.new.values setting.now) }
        ensures errors { RefusedForMemoryAlone result }
        ensures grows { ValuesGrow self.old.values self.new.values }
        ensures room { self.new.room ≡ self.old.room }
    {
        match setting {
            Setting::Switch { hidden, key } => {
                Refusal::within_memory(self.switches.len().saturating_add(1), MAX_ENTRIES)?;
                self.switches.push(Register {
                    key: *key,
                    value: *hidden,
                })?;
            }
            Setting::Relook { looks, key, .. } => {
                Refusal::within_memory(self.relooks.len().saturating_add(1), MAX_ENTRIES)?;
                self.relooks.push(Register {
                    key: *key,
                    value: looks.copy(),
                })?;
            }
        }
        Ok(())
    }
}

impl ValueTables {
    // Whether a record's characters are hidden.
    pub(crate) fn is_hidden(&self, record: &PieceRecord) -> bool
        requires { IsWithin self.now.values record.now }
        ensures { result ≡ (piece_in self.now.values record.now).hidden.value }
    {
        if record.hidden_by == 0 {
            return false;
        }
        self.switches[record.hidden_by as usize - 1].value
    }

    // The looks that a record's characters were inserted with.
    pub(crate) fn inserted_with(&self, record: &PieceRecord) -> &Looks
        requires { IsWithin self.now.values record.now }
        ensures { result.now ≡ inserted_with self.now.values record.now }
    {
        &self.looks[record.looks as usize]
    }

    // The looks that the entry of this number gave a record's characters.
    fn looks_by(&self, record: &PieceRecord, by: u32) -> &Looks
        requires within { IsWithin self.now.values record.now }
        requires entry { by ≤ length self.now.values.relooks }
        ensures { result.now ≡ (record_looks_by self.now.values record.now by).value }
    {
        if by == 0 {
            return self.inserted_with(record);
        }
        &self.relooks[by as usize - 1].value
    }

    // The looks of a record's characters.
    pub(crate) fn looks_of(&self, record: &PieceRecord) -> Looks
        requires { IsWithin self.now.values record.now }
        ensures { result ≡ looks_of (piece_in self.now.values record.now) }
    {
        Looks {
            font: self.looks_by(record, record.font_by).font.copy(),
            colour: self.looks_by(record, record.colour_by).colour,
            offset: self.looks_by(record, record.offset_by).offset,
        }
    }

    // Which entry sets a register of looks that this one has set: where it is selected the last new looks, if the register gives way.
    fn later(&self, selected: bool, by: u32, key: Key) -> u32
        requires { by ≤ length self.now.values.relooks }
        ensures within { result ≤ length self.now.values.relooks }
        ensures value { (inserted looks : Looks) (others : List (Register Looks))
            → self.now.values.relooks ≡ others ++ record { key = key; value = looks } ∷ []
            → register_by self.now.values.relooks result inserted
            ≡ offered_to_if selected (register_by self.now.values.relooks by inserted) key looks }
    {
        if selected && gives_way(&self.relooks, by, key) {
            self.relooks.len() as u32
        } else {
            by
        }
    }

    // Sets what is set by the last entry in a record's registers, where they weren't set under a greater key.
    pub(crate) fn set(&self, record: &mut PieceRecord, setting: &Setting)
        requires within { IsWithin self.now.values record.old }
        requires entered { IsEntered self.now.values setting.now }
        ensures within { IsWithin self.now.values record.new }
        ensures changed { piece_in self.now.values record.new
            ≡ changed_piece setting.now (piece_in self.now.values record.old) }
    {
        match setting {
            Setting::Switch { key, .. } => {
                if gives_way(&self.switches, record.hidden_by, *key) {
                    record.hidden_by = self.switches.len() as u32;
                }
            }
            Setting::Relook { sel, key, .. } => {
                record.font_by = self.later(sel.font(), record.font_by, *key);
                record.colour_by = self.later(sel.colour(), record.colour_by, *key);
                record.offset_by = self.later(sel.offset(), record.offset_by, *key);
            }
        }
    }
}
