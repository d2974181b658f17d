//! What is shown, and where.

ghost use Rattle.std.specs.Prelude.{◌≡◌, ◌+◌, ◌<◌, ◌≤◌, ◌↔◌, length, map, drop, All};
ghost use Rattle.std.specs.Prelude.{IsSome, IfSome, slice_get};
ghost use Rattle.std.specs.Iterator.{YieldsFirst, item_count};
ghost use Rattle.std.specs.List.{flat_map};
ghost use Rattle.tree_order.specs.Registers.{atom_looks};
ghost use Rattle.char_files.specs.declared.TheConstants.{MAX_FILE};
ghost use Rattle.piece_list.specs.Held.{IsSpotOf};
ghost use Rattle.piece_list.specs.RunSplits.{AreWithin, HasFront, HaveStamps};
ghost use Rattle.piece_list.specs.Shown.{AreShownTo, appearance_of, appearances_in, shown_runs};
ghost use Rattle.piece_list.specs.Spelled.{spelled, shown_chars, HasName};

use super::PieceList;
use crate::piece::PieceRefs;
use crate::run::Run;
use crate::spot::Spot;
use crate::steps::Steps;
use char_files::Name;
use looks::Looks;
use std::marker::Model;

/// The stretches of a text that are shown, one after the other, without memory: seen as the list of the runs
/// that are left.
#[derive(Drop)]
pub struct Walk<'a> {
    members: PieceRefs<'a>,
}

impl<'a> Model for Walk<'a> {
    ghost use Rattle.std.specs.Prelude.{List};
    ghost use Rattle.piece_list.specs.declared.run.Run.{Run as Seen};
    ghost use Rattle.piece_list.specs.Shown.{shown_runs};

    ghost Value = { List Seen };

    ghost view = { λ w. shown_runs w.members };
}

impl<'a> Iterator for Walk<'a> {
    type Item = Run;

    ghost next_gives = { YieldsFirst (λ runs. runs) };

    ghost remaining = { item_count (λ runs. runs) };

    fn next(&mut self) -> Option<Run> {
        while let Some((_, piece)) = self.members.next() {
            if !piece.is_hidden() {
                return Some(piece.run());
            }
        }
        None
    }
}

impl PieceList {
    /// How many characters are shown.
    pub fn shown_len(&self) -> u64
        ensures { result ≡ length (shown_chars (spelled self.now.items)) }
    {
        let pieces = &self.pieces;
        pieces.index.total()
    }

    /// How many shown characters stand at or before the character of this name, which may be hidden; `None`
    /// for a name that isn't here.
    pub fn shown_to(&self, name: Name) -> Option<u64>
        ensures here { IsSome result ↔ HasName (spelled self.now.items) name }
        ensures count { IfSome result (AreShownTo (spelled self.now.items) name) }
    {
        let pieces = &self.pieces;
        let spot = pieces.locate(name, &mut Steps::none())?;
        let piece = pieces.ring.piece_at(spot.piece);
        let before = pieces.index.rank(spot.piece);
        Some(before + u64::from(piece.shown_of(spot.within + 1)))
    }

    /// The spot of the character that is shown at this position, from 0. There is one.
    pub fn locate_pos(&self, pos: u64) -> Spot
        requires { pos < length (shown_chars (spelled self.now.items)) }
        ensures { IfSome (slice_get (shown_chars (spelled self.now.items)) pos)
            (λ k. IsSpotOf self.now.items result k.name) }
    {
        let pieces = &self.pieces;
        let (piece, within) = pieces.index.find(pos);
        Spot {
            piece,
            within: within as u32,
        }
    }

    /// The name and the looks of the character that is shown at this position, from 0. There is one.
    pub fn shown_at(&self, pos: u64) -> (Name, Looks)
        requires { pos < length (shown_chars (spelled self.now.items)) }
        ensures { IfSome (slice_get (shown_chars (spelled self.now.items)) pos)
            (λ k. (result.0 ≡ k.name) × (result.1 ≡ atom_looks k)) }
    {
        let spot = self.locate_pos(pos);
        let pieces = &self.pieces;
        let piece = pieces.ring.piece_at(spot.piece);
        match Name::new(piece.site(), piece.off() + spot.within) {
            Some(name) => (name, piece.looks()),
            None => unreachable!(),
        }
    }

    // Walks on from the piece that is shown at this position, and tells how many of its characters stand before
    // of the position. After the end there is nothing.
    pub(super) fn walk_from(&self, pos: u64) -> (Walk<'_>, u64)
        ensures shown { drop result.1 (flat_map appearances_in result.0)
            ≡ drop pos (map appearance_of (shown_chars (spelled self.now.items))) }
        ensures front { HasFront result.1 result.0 }
        ensures within { AreWithin result.0 }
        ensures stamps { HaveStamps result.0 }
    {
        let pieces = &self.pieces;
        if self.shown_len() <= pos {
            let none = pieces.ring.from(None);
            return (Walk { members: none }, 0);
        }
        let (tag, before) = pieces.index.find(pos);
        let members = pieces.ring.from(Some(tag));
        (Walk { members }, before)
    }

    /// Walks the stretches that are shown, in order: each a run that isn't empty.
    pub fn walk(&self) -> Walk<'_>
        ensures runs { result ≡ shown_runs self.now.items }
        ensures shown { flat_map appearances_in result
            ≡ map appearance_of (shown_chars (spelled self.now.items)) }
        ensures some { All (λ run. 0 < run.len) result }
        ensures within { All (λ run. run.off + run.len ≤ MAX_FILE) result }
    {
        let pieces = &self.pieces;
        Walk {
            members: pieces.ring.rest_after(None),
        }
    }
}
