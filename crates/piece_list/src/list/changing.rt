//! How the characters of a set of names are changed: piece by piece, between splits at each range's ends.

ghost use Rattle.std.specs.Prelude.{◌≡◌, ℕ, ◌+◌, ◌-◌, ◌*◌, ◌<◌, ◌≤◌, true, false, [], ◌∷◌, length, map, min, OnOk};
ghost use Rattle.std.specs.Prelude.{◌++◌, ◌^◌, OnErr, IsTrue, vec_len, vec_capacity};
ghost use Rattle.looks.specs.Refusal.{RefusedForMemoryAlone};
ghost use Rattle.operations.specs.NameSet.{IsIn, IsSet};
ghost use Rattle.operations.specs.declared.name_set.TheConstants.{MAX_RANGES};
ghost use Rattle.char_files.specs.declared.TheConstants.{MAX_FILE};
ghost use Rattle.tree_order.specs.Registers.{if_named, switched, relooked};
ghost use Rattle.piece_list.specs.Changing.{changed_piece, changed_char, AreHere, IsEdge, IsNextEdge, AreTheSame};
ghost use Rattle.piece_list.specs.Changing.{AreBelow, AreSplitOnce, setting_key};
ghost use Rattle.piece_list.specs.Held.{KeepFirsts};
ghost use Rattle.piece_list.specs.Noted.{Notes, IsNoted, AreNoted, IsReplaceOf, ShowsOther, ShowsTheSame, appearances};
ghost use Rattle.piece_list.specs.Noted.{entry_room, name_count, setting_kind};
ghost use Rattle.piece_list.specs.Laws.{IsPieceBelow};
ghost use Rattle.piece_list.specs.Piece.{Piece};
ghost use Rattle.piece_list.specs.Pieces.{range_of};
ghost use Rattle.piece_list.specs.Spelled.{spelled, HasName};
ghost use Rattle.piece_list.specs.Values.{IsEntered};
ghost use Rattle.piece_raw.specs.Ring.{HasTag, IsMember};
ghost use Rattle.rank_index.specs.Ranked.{IsRank, weight_of};
ghost use Rattle.list_changes.specs.Changes.{IsOfKind};
ghost use Rattle.list_changes.specs.declared.change.ChangeKind.TheVariants.{Insert, Delete};

use super::PieceList;
use super::pieces::Pieces;
use crate::setting::Setting;
use crate::steps::Steps;
use char_files::{Name, SiteNo};
use list_changes::{Change, ChangeKind};
use looks::{Key, Looks, Refusal, Sel};
use operations::{NameRange, NameSet};
use rank_index::RankIndex;

// Enters a change of what this piece shows in the note, which has room: `len` characters, before it or after it.
fn enter(note: &mut Vec<Change>, index: &RankIndex, tag: u64, kind: ChangeKind, len: u32)
    requires room { vec_len note.old < vec_capacity note.old }
    requires here { HasTag index.now.items tag }
    requires small { weight_of index.now.items + len < 2 ^ 64 }
    ensures entered { (beg : ℕ) × IsRank index.now.items tag beg × (note.new.items
        ≡ note.old.items ++ record { kind = kind; beg = beg; end = beg + len } ∷ []) }
    ensures len { vec_len note.new ≡ vec_len note.old + 1 }
    ensures capacity { vec_capacity note.new ≡ vec_capacity note.old }
{
    let beg = index.rank(tag);
    let end = beg + u64::from(len);
    note.push_reserved(Change { kind, beg, end });
}

impl Pieces {
    // Splits the piece in two that reaches across this offset of the site's file, if one does.
    fn split_across(&mut self, site: SiteNo, off: u32)
        requires room { 0 < self.old.room }
        ensures split { AreSplitOnce self.old.items self.new.items }
        ensures edge { IsEdge site off self.new.items }
        ensures values { self.new.values ≡ self.old.values }
        ensures room { self.old.room ≤ self.new.room + 1 }
    {
        let tags = &self.tags;
        let Some(name) = Name::new(site, off) else {
            return;
        };
        let Some(tag) = tags.get(name) else {
            return;
        };
        let piece = self.ring.piece_at(tag);
        let from = piece.off();
        if from < off && Steps::none().compare(&piece, name) {
            let within = off - from;
            self.split(tag, within);
        }
    }

    // Changes the piece that begins with this name, and answers the offset after its last one. Where that changes what
    // is shown, a note that has room gains an entry, at the piece's rank: all earlier entries are done by then.
    fn change_piece(&mut self, name: Name, setting: &Setting, note: &mut Vec<Change>) -> u32
        requires entered { IsEntered self.old.values setting.now }
        requires below { (tag : ℕ) (p : Piece) → IsMember self.old.items tag p → IsIn (range_of p) name
            → IsPieceBelow (setting_key setting.now) p }
        requires here { HasName (spelled self.old.items) name }
        requires begins { IsEdge name.site name.off self.old.items }
        ensures end { IsNextEdge name result self.old.items }
        ensures changed { spelled self.new.items
            ≡ map (if_named (record { site = name.site; at = name.off; len = result - name.off } ∷ [])
            (changed_char setting.now)) (spelled self.old.items) }
        ensures same { AreTheSame self.old.items self.new.items }
        ensures room { self.new.room ≡ self.old.room }
        ensures values { self.new.values ≡ self.old.values }
        ensures noted { AreNoted setting.now (record { site = name.site; at = name.off; len = result - name.off } ∷ [])
            1 0 note.old note.new self.old.items self.new.items }
    {
        match self.tags.get(name) {
            Some(tag) => {
                let asked = note.len() < note.capacity();
                let shows_other = self.ring.change(tag, setting, asked);
                let piece = self.ring.piece_at(tag);
                let (off, len) = (piece.off(), piece.len());
                let weight = piece.shown_of(len);
                if shows_other {
                    enter(note, &self.index, tag, setting.kind(), len);
                }
                self.index.set_weight(tag, weight);
                off + len
            }
            None => unreachable!(),
        }
    }

    // Changes the pieces that hold these names, and only these.
    fn change_range(&mut self, range: NameRange, setting: &Setting, note: &mut Vec<Change>)
        requires entered { IsEntered self.old.values setting.now }
        requires here { AreHere (range ∷ []) (spelled self.old.items) }
        requires below { AreBelow (setting_key setting.now) (range ∷ []) (spelled self.old.items) }
        requires begins { IsEdge range.site range.at self.old.items }
        requires ends { IsEdge range.site (range.at + range.len) self.old.items }
        ensures changed { spelled self.new.items
            ≡ map (if_named (range ∷ []) (changed_char setting.now)) (spelled self.old.items) }
        ensures same { AreTheSame self.old.items self.new.items }
        ensures room { self.new.room ≡ self.old.room }
        ensures values { self.new.values ≡ self.old.values }
        ensures noted { AreNoted setting.now (range ∷ []) range.len 0 note.old note.new self.old.items self.new.items }
    {
        let end = range.at() + range.len();
        let mut at = range.at();
        while at < end {
            match Name::new(range.site(), at) {
                Some(name) => at = self.change_piece(name, setting, note),
                None => unreachable!(),
            }
        }
    }

    // Changes the characters of these names, range by range.
    fn change_ranges(&mut self, ranges: &[NameRange], setting: &Setting, note: &mut Vec<Change>)
        requires entered { IsEntered self.old.values setting.now }
        requires here { AreHere ranges.now (spelled self.old.items) }
        requires below { AreBelow (setting_key setting.now) ranges.now (spelled self.old.items) }
        requires set { IsSet ranges.now }
        requires room { 2 * length ranges.now ≤ self.old.room }
        ensures changed { spelled self.new.items
            ≡ map (if_named ranges.now (changed_char setting.now)) (spelled self.old.items) }
        ensures few { length self.new.items ≤ length self.old.items + 2 * length ranges.now }
        ensures firsts { KeepFirsts self.old.items self.new.items }
        ensures values { self.new.values ≡ self.old.values }
        ensures noted { AreNoted setting.now ranges.now (name_count ranges.now) (2 * length ranges.now)
            note.old note.new self.old.items self.new.items }
    {
        for range in ranges {
            self.split_across(range.site(), range.at());
            self.split_across(range.site(), range.at() + range.len());
            self.change_range(*range, setting, note);
        }
    }
}

// How many names the ranges have, few enough for a message.
fn count_names(ranges: &[NameRange]) -> usize
    requires { length ranges.now ≤ MAX_RANGES }
    ensures count { result ≡ name_count ranges.now }
    ensures few { result ≤ MAX_FILE * length ranges.now }
{
    let mut count = 0;
    for range in ranges {
        count += range.len() as usize;
    }
    count
}

impl PieceList {
    // Room in a note for one entry more than it may gain where these names are hidden or shown: one a piece, and no more than
    // names; two pieces more may come by each range.
    fn entry_room(&self, ranges: &[NameRange]) -> usize
        requires { length ranges.now ≤ MAX_RANGES }
        ensures { result ≡ min (name_count ranges.now) (length self.now.items) + 2 * length ranges.now + 1 }
    {
        count_names(ranges).min(self.pieces.len()) + 2 * ranges.len() + 1
    }

    // Changes the characters of these names. All memory is taken before the first change. The note tells of it if it
    // has room for one entry more than it may gain: an empty one takes no memory.
    fn change(
        &mut self,
        names: &NameSet,
        setting: &Setting,
        note: &mut Vec<Change>,
    ) -> Result<(), Refusal>
        requires here { AreHere names.now (spelled self.old.items) }
        requires below { AreBelow (setting_key setting.now) names.now (spelled self.old.items) }
        ensures ok { OnOk result (spelled self.new.items
            ≡ map (if_named names.now (changed_char setting.now)) (spelled self.old.items)) }
        ensures errors { RefusedForMemoryAlone result }
        ensures err { OnErr result ((self.new ≡ self.old) × (note.new.items ≡ note.old.items)) }
        ensures few { length self.new.items ≤ length self.old.items + 2 * length names.now }
        ensures firsts { KeepFirsts self.old.items self.new.items }
        ensures steps { self.new.steps ≡ self.old.steps }
        ensures noted { vec_len note.old + entry_room setting.now names.now self.old.items ≤ vec_capacity note.old → OnOk result
            (IsNoted setting.now names.now note.old.items note.new.items self.old.items self.new.items) }
    {
        let ranges = names.ranges();
        self.pieces.reserve(2 * ranges.len())?;
        // Last, since an entry isn't taken out where memory is refused afterwards.
        self.pieces.enter(setting)?;
        self.pieces.change_ranges(ranges, setting, note);
        Ok(())
    }

    /// Hides the characters of these names, which are in the list under lesser keys, but for those that were shown or hidden under
    /// a greater key.
    ///
    /// Refused `OutOfMemory` alone.
    pub fn hide(&mut self, names: &NameSet, key: Key) -> Result<(), Refusal>
        requires here { AreHere names.now (spelled self.old.items) }
        requires below { AreBelow key names.now (spelled self.old.items) }
        ensures ok { OnOk result (spelled self.new.items
            ≡ map (if_named names.now (switched true key)) (spelled self.old.items)) }
        ensures errors { RefusedForMemoryAlone result }
        ensures err { OnErr result (self.new ≡ self.old) }
        ensures few { length self.new.items ≤ length self.old.items + 2 * length names.now }
        ensures firsts { KeepFirsts self.old.items self.new.items }
        ensures steps { self.new.steps ≡ self.old.steps }
    {
        let mut unnoted = Vec::new(self.alloc);
        self.change(names, &Setting::Switch { hidden: true, key }, &mut unnoted)
    }

    /// Shows the characters of these names, which are in the list under lesser keys, again, but for those that were shown or hidden
    /// under a greater key.
    ///
    /// Refused `OutOfMemory` alone.
    pub fn reveal(&mut self, names: &NameSet, key: Key) -> Result<(), Refusal>
        requires here { AreHere names.now (spelled self.old.items) }
        requires below { AreBelow key names.now (spelled self.old.items) }
        ensures ok { OnOk result (spelled self.new.items
            ≡ map (if_named names.now (switched false key)) (spelled self.old.items)) }
        ensures errors { RefusedForMemoryAlone result }
        ensures err { OnErr result (self.new ≡ self.old) }
        ensures few { length self.new.items ≤ length self.old.items + 2 * length names.now }
        ensures firsts { KeepFirsts self.old.items self.new.items }
        ensures steps { self.new.steps ≡ self.old.steps }
    {
        let mut unnoted = Vec::new(self.alloc);
        self.change(names, &Setting::Switch { hidden: false, key }, &mut unnoted)
    }

    /// Gives the characters of these names, which are in the list under lesser keys, the looks that are selected, attribute by
    /// attribute, where they weren't set under a greater key. A hidden character takes new looks, too.
    ///
    /// Refused `OutOfMemory` alone.
    pub fn relook(
        &mut self,
        names: &NameSet,
        sel: Sel,
        looks: &Looks,
        key: Key,
    ) -> Result<(), Refusal>
        requires here { AreHere names.now (spelled self.old.items) }
        requires below { AreBelow key names.now (spelled self.old.items) }
        ensures ok { OnOk result (spelled self.new.items
            ≡ map (if_named names.now (relooked sel looks.now key)) (spelled self.old.items)) }
        ensures errors { RefusedForMemoryAlone result }
        ensures err { OnErr result (self.new ≡ self.old) }
        ensures few { length self.new.items ≤ length self.old.items + 2 * length names.now }
        ensures firsts { KeepFirsts self.old.items self.new.items }
        ensures steps { self.new.steps ≡ self.old.steps }
    {
        let looks = looks.copy();
        let mut unnoted = Vec::new(self.alloc);
        self.change(names, &Setting::Relook { sel, looks, key }, &mut unnoted)
    }

    /// `hide`, which notes what goes: deletes alone, one a piece that was shown.
    ///
    /// Refused `OutOfMemory` alone, and then the note's entries stay, too.
    pub fn hide_noting(
        &mut self,
        names: &NameSet,
        key: Key,
        note: &mut Vec<Change>,
    ) -> Result<(), Refusal>
        requires here { AreHere names.now (spelled self.old.items) }
        requires below { AreBelow key names.now (spelled self.old.items) }
        ensures ok { OnOk result (spelled self.new.items
            ≡ map (if_named names.now (switched true key)) (spelled self.old.items)) }
        ensures errors { RefusedForMemoryAlone result }
        ensures err { OnErr result ((self.new ≡ self.old) × (note.new.items ≡ note.old.items)) }
        ensures few { length self.new.items ≤ length self.old.items + 2 * length names.now }
        ensures firsts { KeepFirsts self.old.items self.new.items }
        ensures steps { self.new.steps ≡ self.old.steps }
        ensures noted { OnOk result (Notes (IsOfKind Delete)
            note.old.items note.new.items (appearances self.old.items) (appearances self.new.items)) }
    {
        note.reserve(self.entry_room(names.ranges()))?;
        self.change(names, &Setting::Switch { hidden: true, key }, note)
    }

    /// `reveal`, which notes what comes back: inserts alone, one a piece that was hidden.
    ///
    /// Refused `OutOfMemory` alone, and then the note's entries stay, too.
    pub fn reveal_noting(
        &mut self,
        names: &NameSet,
        key: Key,
        note: &mut Vec<Change>,
    ) -> Result<(), Refusal>
        requires here { AreHere names.now (spelled self.old.items) }
        requires below { AreBelow key names.now (spelled self.old.items) }
        ensures ok { OnOk result (spelled self.new.items
            ≡ map (if_named names.now (switched false key)) (spelled self.old.items)) }
        ensures errors { RefusedForMemoryAlone result }
        ensures err { OnErr result ((self.new ≡ self.old) × (note.new.items ≡ note.old.items)) }
        ensures few { length self.new.items ≤ length self.old.items + 2 * length names.now }
        ensures firsts { KeepFirsts self.old.items self.new.items }
        ensures steps { self.new.steps ≡ self.old.steps }
        ensures noted { OnOk result (Notes (IsOfKind Insert)
            note.old.items note.new.items (appearances self.old.items) (appearances self.new.items)) }
    {
        note.reserve(self.entry_room(names.ranges()))?;
        self.change(names, &Setting::Switch { hidden: false, key }, note)
    }

    /// `relook`, which notes what looks other than before: replaces alone, one a piece.
    ///
    /// Refused `OutOfMemory` alone, and then the note's entries stay, too.
    pub fn relook_noting(
        &mut self,
        names: &NameSet,
        sel: Sel,
        looks: &Looks,
        key: Key,
        note: &mut Vec<Change>,
    ) -> Result<(), Refusal>
        requires here { AreHere names.now (spelled self.old.items) }
        requires below { AreBelow key names.now (spelled self.old.items) }
        ensures ok { OnOk result (spelled self.new.items
            ≡ map (if_named names.now (relooked sel looks.now key)) (spelled self.old.items)) }
        ensures errors { RefusedForMemoryAlone result }
        ensures err { OnErr result ((self.new ≡ self.old) × (note.new.items ≡ note.old.items)) }
        ensures few { length self.new.items ≤ length self.old.items + 2 * length names.now }
        ensures firsts { KeepFirsts self.old.items self.new.items }
        ensures steps { self.new.steps ≡ self.old.steps }
        ensures noted { OnOk result (Notes (IsReplaceOf names.now (appearances self.old.items))
            note.old.items note.new.items (appearances self.old.items) (appearances self.new.items)) }
    {
        let looks = looks.copy();
        note.reserve(count_names(names.ranges()) + 1)?;
        self.change(names, &Setting::Relook { sel, looks, key }, note)
    }
}
