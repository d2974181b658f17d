//! The pieces of a text, with the tables and the index that find them: what is changed together.

ghost use Rattle.std.specs.Prelude.{◌≡◌, ◌≢◌, ℕ, ◌+◌, ◌<◌, ◌≤◌, ◌⊎◌, ◌↔◌, [], length, IfOk, OnOk};
ghost use Rattle.std.specs.Prelude.{IfSome, IsSome};
ghost use Rattle.char_files.specs.CharName.{CharName};
ghost use Rattle.looks.specs.Refusal.{RefusedForMemoryAlone};
ghost use Rattle.piece_list.specs.Held.{HasSpot, IsSplit, IsSpotOf};
ghost use Rattle.piece_list.specs.Placing.{IsCounted};
ghost use Rattle.piece_list.specs.Spelled.{spelled, HasName};
ghost use Rattle.piece_list.specs.Tables.{table_of};
ghost use Rattle.piece_list.specs.Values.{IsEntered};

use crate::numbers::number_of;
use crate::ring::PieceRing;
use crate::setting::Setting;
use crate::spot::Spot;
use crate::steps::Steps;
use crate::tags::TagTables;
use char_files::{Name, SiteNo};
use looks::Refusal;
use rank_index::RankIndex;
use std::alloc::Global;
use std::marker::Model;

/// Pieces in order, each under its number. A name's piece is found by a table, a position's by an index.
#[derive(Drop)]
pub(super) struct Pieces {
    pub(super) ring: PieceRing,
    pub(super) tags: TagTables,
    // How many characters each piece shows, and the number of its key, under the piece's number.
    pub(super) index: RankIndex,
}

impl Model for Pieces {
    ghost use Rattle.std.specs.Prelude.{min};
    ghost use Rattle.piece_list.specs.Held.{HeldPieces, AreHeld};

    ghost Value = { HeldPieces };

    ghost view = { λ p. record {
      items = p.ring.items;
      values = p.ring.values;
      tables = p.tags;
      room = min p.ring.room p.index.room;
    } };

    ghost invariant = { λ p. AreHeld p.ring.items p.tags p.index.items p.index.keys };
}

impl Pieces {
    pub(super) fn new(alloc: Global) -> Result<Pieces, Refusal>
        ensures ok { IfOk result (λ pieces. pieces.items ≡ []) }
        ensures errors { RefusedForMemoryAlone result }
    {
        Ok(Pieces {
            ring: PieceRing::new(alloc)?,
            tags: TagTables::new(alloc),
            index: RankIndex::new(alloc)?,
        })
    }

    // How many there are.
    pub(super) fn len(&self) -> usize
        ensures { result ≡ length self.now.items }
    {
        self.index.len()
    }

    // Makes room for so many more pieces.
    pub(super) fn reserve(&mut self, n: usize) -> Result<(), Refusal>
        ensures ok { OnOk result (n ≤ self.new.room) }
        ensures errors { RefusedForMemoryAlone result }
        ensures items { self.new.items ≡ self.old.items }
        ensures values { self.new.values ≡ self.old.values }
    {
        self.ring.reserve(n)?;
        self.index.reserve(n)
    }

    // Enters a setting, so that pieces can be given it.
    pub(super) fn enter(&mut self, setting: &Setting) -> Result<(), Refusal>
        ensures ok { OnOk result (IsEntered self.new.values setting.now) }
        ensures errors { RefusedForMemoryAlone result }
        ensures items { self.new.items ≡ self.old.items }
        ensures room { self.new.room ≡ self.old.room }
    {
        self.ring.enter(setting)
    }

    // Makes room for the names of a site's file up to this offset.
    pub(super) fn reserve_names(&mut self, site: SiteNo, end: u32) -> Result<(), Refusal>
        ensures ok { OnOk result (end ≤ length (table_of self.new.tables site)) }
        ensures errors { RefusedForMemoryAlone result }
        ensures items { self.new.items ≡ self.old.items }
        ensures room { self.new.room ≡ self.old.room }
    {
        self.tags.reserve(site, end)
    }

    // Where the character of this name stands. It reads one entry of a table, and compares the name with one piece at
    // most, which is counted.
    pub(super) fn locate(&self, name: Name, steps: &mut Steps) -> Option<Spot>
        ensures spot { IfSome result (λ spot. IsSpotOf self.now.items spot name) }
        ensures here { IsSome result ↔ HasName (spelled self.now.items) name }
        ensures counted { IsSome result → IsCounted steps.old 1 steps.new }
        ensures uncounted { ¬ IsSome result → steps.new ≡ steps.old }
    {
        let tag = self.tags.get(name)?;
        let piece = self.ring.piece_at(tag);
        if !steps.compare(&piece, name) {
            return None;
        }
        Some(Spot {
            piece: tag,
            within: name.off() - piece.off(),
        })
    }

    // Splits the piece of this number after its first `n` characters. The rest gets the number that is answered.
    pub(super) fn split(&mut self, tag: u64, n: u32) -> u64
        requires some { 0 < n }
        requires spot { HasSpot self.old.items (record { piece = tag; within = n }) }
        requires room { 0 < self.old.room }
        ensures split { IsSplit tag n result self.old.items self.new.items }
        ensures spot { (c : CharName) → IsSpotOf self.old.items (record { piece = tag; within = n }) c
            → IsSpotOf self.new.items (record { piece = result; within = 0 }) c }
        ensures others { (other : Spot) (c : CharName) → IsSpotOf self.old.items other c
            → (other.piece ≢ tag) ⊎ (other.within < n) → IsSpotOf self.new.items other c }
        ensures values { self.new.values ≡ self.old.values }
        ensures room { self.old.room ≤ self.new.room + 1 }
        ensures long { (site : ℕ) → length (table_of self.new.tables site) ≡ length (table_of self.old.tables site) }
    {
        let whole = self.ring.piece_at(tag);
        let (site, off, len) = (whole.site(), whole.off() + n, whole.len() - n);
        let (before, after) = (whole.shown_of(n), whole.shown_of(len));
        let key = number_of(whole.key_at(n));
        let number = self.ring.split(tag, n);
        self.tags.fill(site, off, len, number);
        self.index.set_weight(tag, before);
        self.index.insert_after(Some(tag), number, after, key);
        number
    }
}
