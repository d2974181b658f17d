ghost use Rattle.std.specs.Prelude.{◌≡◌, ◌≢◌, ◌<◌, ◌⊎◌, ◌↔◌, [], IfOk, OnErr};
ghost use Rattle.std.specs.Prelude.{Contains, IfSome, IsSome, Some as Just};
ghost use Rattle.looks.specs.Refusal.{RefusedForMemoryAlone};
ghost use Rattle.piece_raw.specs.Ring.{AreTags};
ghost use Rattle.tree_order.specs.Registers.{Atom};
ghost use Rattle.char_files.specs.CharName.{CharName};
ghost use Rattle.piece_list.specs.Held.{IsSpotOf, HasSpot, IsSplit};
ghost use Rattle.piece_list.specs.Spelled.{spelled, HasName};

mod between;
mod changing;
mod hidden;
mod pieces;
mod placing;
mod walking;

use crate::spot::Spot;
use crate::steps::Steps;
pub use between::Between;
use char_files::Name;
use looks::{Key, Refusal};
use pieces::Pieces;
use std::alloc::Global;
use std::marker::Model;
pub use walking::Walk;

/// All characters of a text in order, hidden ones too, as a list of pieces (Project Oberon, chapter 5).
///
/// A piece is found by the name of one of its characters at once.
#[derive(Drop)]
pub struct PieceList {
    pieces: Pieces,
    steps: Steps,
    alloc: Global,
}

impl Model for PieceList {
    ghost use Rattle.piece_list.specs.Held.{PiecesSeen};

    ghost Value = { PiecesSeen };

    ghost view = { λ l. record { items = l.pieces.items; steps = l.steps } };
}

impl PieceList {
    /// No characters. Refused `OutOfMemory` alone.
    pub fn new(alloc: Global) -> Result<PieceList, Refusal>
        ensures ok { IfOk result (λ list. list ≡ record { items = []; steps = 0 }) }
        ensures errors { RefusedForMemoryAlone result }
    {
        Ok(PieceList {
            pieces: Pieces::new(alloc)?,
            steps: Steps::none(),
            alloc,
        })
    }

    /// A law: the pieces' numbers count from 0, and none is used twice. A proof gets it by calling this, at no cost.
    pub fn lemma_are_numbered(&self)
        ensures { AreTags self.now.items }
    {
        let pieces = &self.pieces;
        let _ = &pieces.ring;
    }

    /// Where the character of this name stands; `None` for a name that isn't here.
    ///
    /// It reads one entry of a table, and compares the name with the piece that holds it.
    pub fn locate(&mut self, name: Name) -> Option<Spot>
        ensures spot { IfSome result (λ spot. IsSpotOf self.old.items spot name) }
        ensures here { IsSome result ↔ HasName (spelled self.old.items) name }
        ensures items { self.new.items ≡ self.old.items }
        ensures counted { IsSome result → self.new.steps ≡ 1 }
        ensures uncounted { ¬ IsSome result → self.new.steps ≡ 0 }
    {
        self.steps = Steps::none();
        self.pieces.locate(name, &mut self.steps)
    }

    /// The key of the Insert of the character of this name; `None` for a name that isn't here. It is found by one entry of a table.
    pub fn key_of(&self, name: Name) -> Option<Key>
        ensures here { IsSome result ↔ HasName (spelled self.now.items) name }
        ensures key { (k : Atom) → Contains (spelled self.now.items) k → k.name ≡ name → result ≡ Just k.key }
    {
        let pieces = &self.pieces;
        let spot = pieces.locate(name, &mut Steps::none())?;
        Some(pieces.ring.piece_at(spot.piece).key_at(spot.within))
    }

    /// Splits a piece in two before this spot, which is in the list, and answers the spot of the same character
    /// afterwards. The piece keeps its number and what stands before, and every other piece stays. Nothing changes
    /// at a piece's first character.
    ///
    /// Refused `OutOfMemory` alone.
    pub fn split(&mut self, spot: Spot) -> Result<Spot, Refusal>
        requires { HasSpot self.old.items spot }
        ensures first { spot.within ≡ 0 → (result ≡ Ok spot) × (self.new ≡ self.old) }
        ensures spells { spelled self.new.items ≡ spelled self.old.items }
        ensures spot { IfOk result (λ rest. (rest.within ≡ 0)
            × ((c : CharName) → IsSpotOf self.old.items spot c → IsSpotOf self.new.items rest c)) }
        ensures others { (other : Spot) (c : CharName) → IsSpotOf self.old.items other c
            → (other.piece ≢ spot.piece) ⊎ (other.within < spot.within) → IsSpotOf self.new.items other c }
        ensures split { 0 < spot.within → IfOk result
            (λ rest. IsSplit spot.piece spot.within rest.piece self.old.items self.new.items) }
        ensures steps { self.new.steps ≡ self.old.steps }
        ensures errors { RefusedForMemoryAlone result }
        ensures err { OnErr result (self.new ≡ self.old) }
    {
        if spot.within == 0 {
            return Ok(spot);
        }
        self.pieces.reserve(1)?;
        let piece = self.pieces.split(spot.piece, spot.within);
        Ok(Spot { piece, within: 0 })
    }

    /// How many times the last `locate` or `place` compared a name with a piece, or looked at a piece's key.
    pub fn steps(&self) -> u64
        ensures { result ≡ self.now.steps }
    {
        self.steps.count()
    }
}
