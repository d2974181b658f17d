//! Whether a character is hidden, and whether one of a set of names is.

ghost use Rattle.std.specs.Prelude.{◌≡◌, ◌-◌, ◌<◌, ◌↔◌, [], ◌∷◌, IsTrue, Contains};
ghost use Rattle.operations.specs.NameSet.{IsIn, IsAmong};
ghost use Rattle.tree_order.specs.Registers.{Atom};
ghost use Rattle.piece_list.specs.Changing.{AreHere};
ghost use Rattle.piece_list.specs.Spelled.{spelled, HasName};

use super::PieceList;
use crate::steps::Steps;
use char_files::Name;
use operations::{NameRange, NameSet};

impl PieceList {
    /// Whether the character of this name, which is in the list, is hidden, and the offset after the last of its piece, up to
    /// which the others are alike. It is found by one entry of a table.
    pub fn hidden_from(&self, name: Name) -> (bool, u32)
        requires { HasName (spelled self.now.items) name }
        ensures some { name.off < result.1 }
        ensures alike { (k : Atom) → Contains (spelled self.now.items) k
            → IsIn (record { site = name.site; at = name.off; len = result.1 - name.off }) k.name
            → k.hidden.value ≡ result.0 }
    {
        let pieces = &self.pieces;
        match pieces.locate(name, &mut Steps::none()) {
            Some(spot) => {
                let piece = pieces.ring.piece_at(spot.piece);
                (piece.is_hidden(), piece.off() + piece.len())
            }
            None => unreachable!(),
        }
    }

    // Whether a character of this range is hidden: one step a piece.
    fn has_hidden_in(&self, range: NameRange) -> bool
        requires { AreHere (range ∷ []) (spelled self.now.items) }
        ensures { IsTrue result
            ↔ ((k : Atom) × Contains (spelled self.now.items) k × IsIn range k.name × IsTrue k.hidden.value) }
    {
        let end = range.at() + range.len();
        let mut at = range.at();
        while at < end {
            let (hidden, next) = match Name::new(range.site(), at) {
                Some(name) => self.hidden_from(name),
                None => unreachable!(),
            };
            if hidden {
                return true;
            }
            at = next;
        }
        false
    }

    /// Whether a character of these names, which are in the list, is hidden. One step a piece of the ranges, each
    /// found by one entry of a table.
    pub fn has_hidden(&self, names: &NameSet) -> bool
        requires { AreHere names.now (spelled self.now.items) }
        ensures { IsTrue result ↔ ((k : Atom) × Contains (spelled self.now.items) k × IsAmong names.now k.name
            × IsTrue k.hidden.value) }
    {
        for range in names.ranges() {
            if self.has_hidden_in(*range) {
                return true;
            }
        }
        false
    }
}
