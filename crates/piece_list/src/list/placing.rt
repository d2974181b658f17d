//! How a run's piece goes into the list: after its cause and the pieces of greater key that follow.

ghost use Rattle.std.specs.Prelude.{◌≡◌, ℕ, ◌+◌, ◌-◌, ◌<◌, ◌≤◌, List, [], ◌∷◌, ◌++◌, length, OnOk, OnErr};
ghost use Rattle.std.specs.Prelude.{IfSome, IsSome, vec_len, vec_capacity};
ghost use Rattle.std.specs.Prelude.{Some as Just, None as Nothing, ◌^◌, true};
ghost use Rattle.looks.specs.Refusal.{RefusedForMemoryAlone};
ghost use Rattle.char_files.specs.CharName.{CharName};
ghost use Rattle.operations.specs.NameSet.{IsIn};
ghost use Rattle.piece_raw.specs.Ring.{HasTag, IsMember, with_value};
ghost use Rattle.piece_list.specs.Pieces.{range_of, chars_of, GoesOn, IsPiece, longer, piece_of};
ghost use Rattle.piece_list.specs.Held.{HasSpot};
ghost use Rattle.piece_list.specs.Laws.{BeginNotAbove};
ghost use Rattle.piece_list.specs.Noted.{Notes, appearances};
ghost use Rattle.piece_list.specs.Piece.{Piece};
ghost use Rattle.piece_list.specs.Placed.{IsPlaced};
ghost use Rattle.piece_list.specs.Placing.{AreOrAreJoined, HasAnchor, compared, IsAnchorSpot, IsParted, HasPart, IsPartedAt};
ghost use Rattle.piece_list.specs.Placing.{IsCounted, IsNextPiece, IsSkip, IsInsertedInGap, last_look};
ghost use Rattle.piece_list.specs.Spelled.{spelled, shown_chars, ArePieces, HasName};
ghost use Rattle.piece_list.specs.Tables.{table_of};
ghost use Rattle.piece_list.specs.Typed.{AreTypedIn, entries_of, insertions};
ghost use Rattle.list_changes.specs.Changes.{IsOfKind};
ghost use Rattle.list_changes.specs.declared.change.ChangeKind.TheVariants.{Insert};

use super::PieceList;
use super::pieces::Pieces;
use crate::numbers::number_of;
use crate::ring::PieceRing;
use crate::run::Run;
use crate::spot::Spot;
use crate::steps::Steps;
use char_files::{Anchor, Name};
use list_changes::{Change, ChangeKind};
use looks::{Key, Refusal};
use rank_index::Peeks;

// The piece directly after this one, if its key is greater: one look, which is counted. At the front for `None`.
fn next_above(pieces: &PieceRing, steps: &mut Steps, last: Option<u64>, key: Key) -> Option<u64>
    requires { HasPart pieces.now.items last }
    ensures above { IfSome result (λ next. IsNextPiece pieces.now.items key last next) }
    ensures stops { result ≡ Nothing → (before after : List (ℕ × Piece))
        → IsParted pieces.now.items last before after → BeginNotAbove key after }
    ensures steps { (before after : List (ℕ × Piece)) → IsParted pieces.now.items last before after
        → IsCounted steps.old (last_look after) steps.new }
{
    let mut after = pieces.rest_after(last);
    let (next, piece) = after.next()?;
    if steps.is_above(&piece, key) {
        Some(next)
    } else {
        None
    }
}

impl Pieces {
    // Walks past the pieces of greater key that follow this one, and answers the last of them: the piece itself
    // where there are none. From the first one on the index passes them, as far as their keys' numbers tell them apart.
    fn skip(&self, steps: &mut Steps, from: Option<u64>, key: Key) -> Option<u64>
        requires { HasPart self.now.items from }
        ensures { (before after : List (ℕ × Piece)) → IsParted self.now.items from before after
            → IsSkip key before after result steps.old steps.new }
    {
        let bound = number_of(key);
        let mut last = from;
        while let Some(next) = next_above(&self.ring, steps, last, key) {
            last = Some(self.index.pass(next, bound, &mut Peeks::none()));
        }
        last
    }

    // Makes the character of this spot the last of its piece, which keeps its number.
    fn split_after(&mut self, spot: Spot)
        requires spot { HasSpot self.old.items spot }
        requires room { 0 < self.old.room }
        ensures parted { (cause : Anchor) → IsAnchorSpot self.old.items cause (Just spot)
            → IsPartedAt self.old.items self.new.items (Just spot.piece) cause }
        ensures room { self.old.room ≤ self.new.room + 1 }
        ensures long { (site : ℕ) → length (table_of self.new.tables site) ≡ length (table_of self.old.tables site) }
    {
        let len = self.ring.piece_at(spot.piece).len();
        let n = spot.within + 1;
        if n < len {
            self.split(spot.piece, n);
        }
    }

    // The same for an anchor's spot, and answers the piece's number; `None` for the root.
    fn end_at(&mut self, spot: Option<Spot>) -> Option<u64>
        requires spot { IfSome spot (λ at. HasSpot self.old.items at) }
        requires room { 0 < self.old.room }
        ensures parted { (cause : Anchor) → IsAnchorSpot self.old.items cause spot
            → IsPartedAt self.old.items self.new.items result cause }
        ensures room { self.old.room ≤ self.new.room + 1 }
        ensures long { (site : ℕ) → length (table_of self.new.tables site) ≡ length (table_of self.old.tables site) }
    {
        match spot {
            Some(at) => {
                self.split_after(at);
                Some(at.piece)
            }
            None => None,
        }
    }

    // Adds a run that goes on where the piece of this number ends, and enters its names under that number.
    fn lengthen(&mut self, tag: u64, run: &Run)
        requires here { HasTag self.old.items tag }
        requires goes_on { (p : Piece) → IsMember self.old.items tag p → GoesOn p (piece_of run.now) }
        requires piece { IsPiece (piece_of run.now) }
        requires new { (c : CharName) → IsIn (range_of (piece_of run.now)) c → ¬ HasName (spelled self.old.items) c }
        requires fits { run.now.off + run.now.len ≤ length (table_of self.old.tables run.now.site) }
        ensures longer { (p : Piece) × IsMember self.old.items tag p
            × (self.new.items ≡ with_value tag (longer run.now.len p) self.old.items) }
        ensures pieces { ArePieces self.old.items }
    {
        self.ring.lengthen(tag, run.len);
        let piece = self.ring.piece_at(tag);
        let weight = piece.shown_of(piece.len());
        self.tags.fill(run.site, run.off, run.len, tag);
        self.index.set_weight(tag, weight);
    }

    // Inserts a run directly after the piece of this number, at the front for `None`: as a piece of its own, or as the end of that
    // one where it goes on there; letters always do where they can.
    fn insert(&mut self, last: Option<u64>, run: &Run)
        requires part { HasPart self.old.items last }
        requires piece { IsPiece (piece_of run.now) }
        requires new { (c : CharName) → IsIn (range_of (piece_of run.now)) c → ¬ HasName (spelled self.old.items) c }
        requires fits { run.now.off + run.now.len ≤ length (table_of self.old.tables run.now.site) }
        requires room { 0 < self.old.room }
        ensures insert { (before after : List (ℕ × Piece)) → IsParted self.old.items last before after
            → (tag : ℕ) × AreOrAreJoined tag (before ++ (tag, piece_of run.now) ∷ after) self.new.items }
        ensures joins { (before after : List (ℕ × Piece)) (tag : ℕ) (p : Piece) → self.old.items ≡ before ++ (tag, p) ∷ after
            → last ≡ Just tag → run.now.rising ≡ true → GoesOn p (piece_of run.now)
            → self.new.items ≡ before ++ (tag, longer run.now.len p) ∷ after }
        ensures pieces { ArePieces self.old.items }
    {
        if let Some(number) = last {
            if self.ring.piece_at(number).goes_on(run) {
                self.lengthen(number, run);
                return;
            }
        }
        self.insert_piece(last, run);
    }

    // Inserts a run's piece directly after the one of this number, at the front for `None`, and enters its names.
    fn insert_piece(&mut self, last: Option<u64>, run: &Run)
        requires part { HasPart self.old.items last }
        requires piece { IsPiece (piece_of run.now) }
        requires new { (c : CharName) → IsIn (range_of (piece_of run.now)) c → ¬ HasName (spelled self.old.items) c }
        requires fits { run.now.off + run.now.len ≤ length (table_of self.old.tables run.now.site) }
        requires room { 0 < self.old.room }
        ensures insert { (before after : List (ℕ × Piece)) → IsParted self.old.items last before after
            → (tag : ℕ) × (self.new.items ≡ before ++ (tag, piece_of run.now) ∷ after) }
        ensures pieces { ArePieces self.old.items }
    {
        let number = self.ring.insert(last, run);
        self.tags.fill(run.site, run.off, run.len, number);
        let key = number_of(run.key);
        self.index.insert_after(last, number, run.len, key);
    }
}

// Enters in the note, which has room, that characters came in one after the other, from this place on.
fn note_each(note: &mut Vec<Change>, beg: u64, len: u32)
    requires room { vec_len note.old + len ≤ vec_capacity note.old }
    requires small { beg + len < 2 ^ 64 }
    ensures { note.new.items ≡ note.old.items ++ insertions beg len }
{
    for n in 0..len {
        let beg = beg + u64::from(n);
        let end = beg + 1;
        note.push_reserved(Change {
            kind: ChangeKind::Insert,
            beg,
            end,
        });
    }
}

// How many entries a note gains by a run: one for each letter of a row, one for what an Insert brings.
fn entry_count(run: &Run) -> usize
    ensures { result ≡ length (entries_of run.now 0) }
{
    if run.rising { run.len as usize } else { 1 }
}

// Enters a run in the note, which has room: so many characters are shown up to its first one.
fn note_run(note: &mut Vec<Change>, to: Option<u64>, run: &Run)
    requires room { vec_len note.old + length (entries_of run.now 0) ≤ vec_capacity note.old }
    requires here { IsSome to }
    requires some { IfSome to (λ n. 0 < n) }
    requires small { IfSome to (λ n. n + run.now.len < 2 ^ 64) }
    ensures { IfSome to (λ n. note.new.items ≡ note.old.items ++ entries_of run.now (n - 1)) }
{
    let Some(to) = to else { unreachable!() };
    let beg = to - 1;
    if run.rising {
        note_each(note, beg, run.len);
        return;
    }
    let end = beg + u64::from(run.len);
    note.push_reserved(Change {
        kind: ChangeKind::Insert,
        beg,
        end,
    });
}

impl PieceList {
    // Where the anchor stands; `None` for the root.
    fn locate_cause(&mut self, cause: Anchor) -> Option<Spot>
        requires { HasAnchor (spelled self.old.items) cause }
        ensures spot { IsAnchorSpot self.old.items cause result }
        ensures seen { self.new ≡ record { items = self.old.items; steps = compared cause } }
    {
        match cause {
            Anchor::Root => {
                self.steps = Steps::none();
                None
            }
            Anchor::At(name) => self.locate(name),
        }
    }

    // A law: so many characters are shown that they can be counted. A proof gets it by calling this, at no cost.
    fn lemma_shown_is_countable(&self)
        ensures { length (shown_chars (spelled self.now.items)) ≤ 2 ^ 40 }
    {
        let pieces = &self.pieces;
        let _ = &pieces.ring;
    }

    /// Inserts a run directly after its cause and the longest stretch of characters of greater key that follows the cause: as a piece
    /// of its own, or as the end of the piece there where it goes on with that one's names and keys in the same looks. Where the cause
    /// isn't the last of its piece, the piece is split after it.
    ///
    /// The run has 1 to 4,096 characters within its site's file, none of them in the list, and the cause is
    /// the root or in the list. `steps` counts one comparison that finds the cause, none for the root, and a
    /// look at the key of the piece after those that are skipped, and of no more than those. Refused `OutOfMemory` alone;
    /// then no piece has changed, and `steps` counts the comparison.
    pub fn place(&mut self, run: Run, cause: Anchor) -> Result<(), Refusal>
        requires run { IsPiece (piece_of run) }
        requires here { HasAnchor (spelled self.old.items) cause }
        requires new { (c : CharName) → IsIn (range_of (piece_of run)) c → ¬ HasName (spelled self.old.items) c }
        ensures placed { OnOk result (IsPlaced run.key cause (chars_of (piece_of run))
            (spelled self.old.items) (spelled self.new.items)) }
        ensures steps { OnOk result
            (IsInsertedInGap cause (piece_of run) self.old.items self.new.items self.new.steps) }
        ensures errors { RefusedForMemoryAlone result }
        ensures err { OnErr result
            (self.new ≡ record { items = self.old.items; steps = compared cause }) }
    {
        let mut unread = Vec::new(self.alloc);
        self.place_noting(run, cause, &mut unread)
    }

    /// `place`, which notes what comes: one insert; of a row of letters, whose keys rise, one of each.
    ///
    /// Refused `OutOfMemory` alone, and then the note's entries stay, too.
    pub fn place_noting(
        &mut self,
        run: Run,
        cause: Anchor,
        note: &mut Vec<Change>,
    ) -> Result<(), Refusal>
        requires run { IsPiece (piece_of run) }
        requires here { HasAnchor (spelled self.old.items) cause }
        requires new { (c : CharName) → IsIn (range_of (piece_of run)) c → ¬ HasName (spelled self.old.items) c }
        ensures placed { OnOk result (IsPlaced run.key cause (chars_of (piece_of run))
            (spelled self.old.items) (spelled self.new.items)) }
        ensures steps { OnOk result
            (IsInsertedInGap cause (piece_of run) self.old.items self.new.items self.new.steps) }
        ensures errors { RefusedForMemoryAlone result }
        ensures err { OnErr result ((self.new ≡ record { items = self.old.items; steps = compared cause })
            × (note.new.items ≡ note.old.items)) }
        ensures noted { OnOk result (Notes (IsOfKind Insert)
            note.old.items note.new.items (appearances self.old.items) (appearances self.new.items)) }
        ensures typed { OnOk result (run.rising ≡ true → AreTypedIn run.len run cause
            note.old.items note.new.items (spelled self.old.items) (spelled self.new.items)) }
    {
        let (site, off, len) = (run.site, run.off, run.len);
        let found = self.locate_cause(cause);
        note.reserve(entry_count(&run))?;
        self.pieces.reserve(2)?;
        self.pieces.reserve_names(site, off + len)?;
        let end = self.pieces.end_at(found);
        let last = self.pieces.skip(&mut self.steps, end, run.key);
        self.pieces.insert(last, &run);
        self.lemma_shown_is_countable();
        match Name::new(site, off) {
            Some(first) => note_run(note, self.shown_to(first), &run),
            None => unreachable!(),
        }
        Ok(())
    }
}
