ghost use Rattle.std.specs.Prelude.{◌≡◌, ◌<◌, ◌≤◌, ◌++◌, ◌↔◌, length, slice_get, slice_range, Some, IfSome, IfOk};
ghost use Rattle.std.specs.Prelude.{◌≢◌, AllPairs, IsSome};
ghost use Rattle.looks.specs.Refusal.{RefusedForMemoryAlone};
ghost use Rattle.set_laws.specs.Fronts.{AreSites, front_of};
ghost use Rattle.tree_order.specs.Shown.{IsPlace};
ghost use Rattle.texts.specs.Changes.{TellsOfChanges};
ghost use Rattle.texts.specs.Edit.{anchor_before};
ghost use Rattle.texts.specs.Text.{IsAnchor, IsText};
ghost use Rattle.texts.specs.TextState.{all_told, empty_text, shown_of};
ghost use Rattle.taken_text.specs.Rows.{chars_of_rows};

mod beyond;
mod by_names;
mod deleting;
mod dressing;
mod editing;
mod inserting;
mod merging;
mod noting;
mod own;
mod past;
mod pieces;
mod taking;
mod waiting;

use char_files::{Anchor, Buffer, SiteNo, TextNo};
use list_changes::Change;
use looks::{Looks, Refusal};
use operations::{NameSet, Op};
use std::alloc::Global;
use std::marker::Model;
use taken_text::{Shown, ShownRows, TakenText};
use waiting_room::Room;

/// One site's copy of a text.
#[derive(Drop)]
pub struct Replica {
    text: TextNo,
    site: SiteNo,
    taken: TakenText,
    // The operations that wait for a cause.
    room: Room,
    // The stretch that the site cut last, and its names; empty before that.
    stretch: Buffer,
    set: NameSet,
    // How many characters were reported last, where noting has ended.
    reported: Option<u64>,
    alloc: Global,
}

impl Model for Replica {
    ghost use Rattle.std.specs.Prelude.{◌≡◌, All};
    ghost use Rattle.texts.specs.Text.{AreCharNames};
    ghost use Rattle.texts.specs.TextState.{TextState, asked_of, text_state_of};

    ghost Value = { TextState };

    ghost view = { λ r. text_state_of r.text r.site r.taken.operations r.taken.chars r.room
        r.stretch r.set (asked_of r.taken.asked r.reported) };

    ghost invariant = { λ r. All (λ op. op.text ≡ r.text) r.taken.operations
        × All (λ op. op.text ≡ r.text) r.room × AreCharNames r.taken.operations r.set };
}

impl Replica {
    /// The text as it begins: empty, with nothing taken in. Refused `OutOfMemory` alone.
    pub fn new(alloc: Global, text: TextNo, site: SiteNo) -> Result<Replica, Refusal>
        ensures ok { IfOk result (λ r. r ≡ empty_text text site) }
        ensures errors { RefusedForMemoryAlone result }
    {
        Ok(Replica {
            text,
            site,
            taken: TakenText::new(alloc)?,
            room: Room::new(alloc),
            stretch: Buffer::new(alloc),
            set: NameSet::new(alloc),
            reported: None,
            alloc,
        })
    }

    /// The text's number.
    pub fn text(&self) -> TextNo
        ensures { result ≡ self.now.text }
    {
        self.text
    }

    /// The site whose copy it is.
    pub fn site(&self) -> SiteNo
        ensures { result ≡ self.now.site }
    {
        self.site
    }

    /// A law: the operations taken in are good, all characters are theirs, in the order that is defined, and those
    /// that wait are a room's. A proof gets it by calling this, at no cost.
    pub fn lemma_is_text(&self)
        ensures { IsText self.now }
    {
        self.taken.lemma_is_defined();
        self.room.lemma_are_identified();
    }

    /// A law: no operation was taken in twice. A proof gets it by calling this, at no cost.
    pub fn lemma_are_taken_once(&self)
        ensures { AllPairs (λ a b. a ≢ b) self.now.operations }
    {
        self.taken.log().lemma_are_held_to_the_front();
    }

    /// The greatest seq of a site's operations that were taken in, its front; 0 for none.
    pub fn front(&self, site: SiteNo) -> u32
        ensures { result ≡ front_of self.now.operations site }
    {
        self.taken.log().front(site)
    }

    /// The sites of which operations were taken in, ascending. The time grows with the number of operations.
    /// Refused `OutOfMemory` alone.
    pub fn sites(&self) -> Result<Vec<SiteNo>, Refusal>
        ensures ok { IfOk result (λ sites. AreSites self.now.operations sites.items) }
        ensures errors { RefusedForMemoryAlone result }
    {
        self.taken.log().sites()
    }

    /// How many operations were taken in.
    pub fn taken_len(&self) -> u64
        ensures { result ≡ length self.now.operations }
    {
        self.taken.log().len()
    }

    /// The operation that was taken in at this place, from 0. Refused `OutOfMemory` alone.
    pub fn taken(&self, place: u64) -> Result<Op, Refusal>
        requires { place < length self.now.operations }
        ensures ok { IfOk result (λ op. slice_get self.now.operations place ≡ Some op) }
        ensures errors { RefusedForMemoryAlone result }
    {
        self.taken.log().op(place)
    }

    /// Whose the operation is that was taken in at this place, and its number. It takes no memory.
    pub fn taken_identity(&self, place: u64) -> (SiteNo, u32)
        requires { place < length self.now.operations }
        ensures { IfSome (slice_get self.now.operations place) (λ op. (result.0 ≡ op.site) × (result.1 ≡ op.seq)) }
    {
        self.taken.log().identity(place)
    }

    /// How many operations wait for a cause, at most 64.
    pub fn waiting(&self) -> u32
        ensures { result ≡ length self.now.waiting_room }
    {
        self.room.len() as u32
    }

    /// How many characters are shown.
    pub fn shown_len(&self) -> u64
        ensures { result ≡ length (shown_of self.now) }
    {
        self.taken.shown_len()
    }

    /// The character shown at this position, and its looks.
    pub fn attributes(&self, pos: u64) -> (u8, Looks)
        requires { pos < length (shown_of self.now) }
        ensures { IfSome (slice_get (shown_of self.now) pos) (λ c. result ≡ (c.byte, c.looks)) }
    {
        let shown = self.taken.char_at(pos);
        (shown.byte, shown.looks)
    }

    /// The characters shown, one after the other. It takes no memory.
    pub fn shown(&self) -> Shown<'_>
        ensures { result ≡ shown_of self.now }
    {
        self.taken.shown()
    }

    /// The characters shown from `beg` to `end`, one after the other. It takes no memory.
    pub fn shown_between(&self, beg: u64, end: u64) -> Shown<'_>
        requires rising { beg ≤ end }
        requires in_text { end ≤ length (shown_of self.now) }
        ensures { result ≡ slice_range (shown_of self.now) beg end }
    {
        self.taken.shown_between(beg, end)
    }

    /// The same as rows of neighbouring bytes, one after the other. It takes no memory.
    pub fn rows_between(&self, beg: u64, end: u64) -> ShownRows<'_>
        requires rising { beg ≤ end }
        requires in_text { end ≤ length (shown_of self.now) }
        ensures { chars_of_rows result ≡ slice_range (shown_of self.now) beg end }
    {
        self.taken.rows_between(beg, end)
    }

    /// What a character hangs on that is typed after the first `pos` characters shown: the last of them, or
    /// the root where there is none.
    pub fn anchor_after(&self, pos: u64) -> Anchor
        requires { pos ≤ length (shown_of self.now) }
        ensures { result ≡ anchor_before (shown_of self.now) pos }
    {
        if pos == 0 {
            Anchor::Root
        } else {
            Anchor::At(self.taken.char_at(pos - 1).name)
        }
    }

    /// How many shown characters are the anchor, which may be hidden, or stand before it; `None` for a name
    /// that isn't here.
    pub fn position(&self, anchor: Anchor) -> Option<u64>
        ensures here { IsSome result ↔ IsAnchor self.now.operations anchor }
        ensures place { IfSome result (IsPlace self.now.operations anchor) }
    {
        self.taken.lemma_is_defined();
        match anchor {
            Anchor::Root => Some(0),
            Anchor::At(name) => self.taken.place_of(name),
        }
    }

    /// What the operations taken in since the last call changed of what is shown, in the order of their taking:
    /// own edits, messages, those that waited, and merges. They lead from what was shown then to what is shown now,
    /// one after the other; they are handed out, and no longer kept. None, where noting has ended. It takes no memory.
    pub fn changes(&mut self) -> Vec<Change>
        ensures told { TellsOfChanges self.old result.items }
        ensures asked { self.new ≡ all_told self.old }
    {
        match self.reported {
            None => self.taken.changes(),
            Some(_) => Vec::new(self.alloc),
        }
    }

    /// Keeps the memory of changes that were told for those to come, where it is little and none are kept.
    pub fn reuse(&mut self, told: Vec<Change>)
        ensures { self.new ≡ self.old }
    {
        self.taken.reuse(told);
    }

    /// Where more changes than so many are kept, and none was asked for before, one insertion of all that is shown is kept in
    /// their place. Refused `OutOfMemory` alone, and then they stay.
    pub fn note_together(&mut self, most: usize) -> Result<(), Refusal>
        ensures same { self.new ≡ self.old }
        ensures errors { RefusedForMemoryAlone result }
    {
        self.taken.note_together(most)
    }
}
