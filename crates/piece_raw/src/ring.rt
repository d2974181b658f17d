ghost use Rattle.std.specs.Prelude.{◌≡◌, ◌+◌, ◌<◌, ◌≤◌, List, ℕ, ◌++◌, [], length, Some as Just, None as Nothing};
ghost use Rattle.std.specs.Prelude.{IsSome, IfSome, IfOk, IfErr, OnOk, OnErr, IsOk};
ghost use Rattle.std.specs.Borrow.{sem};
ghost use Rattle.looks.specs.Refusal.{RefusedForMemoryAlone};
ghost use Rattle.piece_raw.specs.Ring.{ring, Follows, IsMember, HasTag, IsAtCursor, IsPushed, AreTags, first_tag, last_tag};
ghost use Rattle.piece_raw.specs.declared.TheConstants.{MAX_TAGS};

use crate::MAX_TAGS;
use crate::members::Members;
use crate::nodes::Nodes;
use crate::spares::{Spare, fill_up, free_all};
use looks::Refusal;
use std::alloc::Global;
use std::marker::Model;

/// A ring of members closed by a trailer, linked both ways, with one cursor.
///
/// A text's list of pieces has this form (Project Oberon, chapter 5). A member keeps its tag
/// for good, tags count from 0, and none is used twice.
pub struct Ring<T> {
    nodes: Nodes<T>,
    spare: Vec<Spare<T>>,
    cursor: Option<u64>,
}

impl<T> Model for Ring<T> {
    ghost use Rattle.std.specs.Prelude.{◌≡◌};
    ghost use Rattle.std.specs.List.{AllByRecursion};
    ghost use Rattle.piece_raw.specs.Ring.{Ring as Seen, ring, ring_code};

    ghost Value = { Seen T };

    ghost coded = { ring_code T.code };

    ghost use Rattle.piece_raw.specs.Tied.{members, IsTied, IsStop, all_nodes};
    ghost use Rattle.piece_raw.specs.Spares.{IsSpare, ring_room};

    ghost view = { λ r. ring (members r.nodes.links.nodes) r.cursor (ring_room r.nodes.table r.spare) };

    ghost invariant = { λ r. IsTied r.nodes × IsStop (all_nodes r.nodes) r.cursor
        × AllByRecursion IsSpare r.spare.items };
}

impl<T> Ring<T> {
    ghost use Rattle.piece_raw.specs.RingLends.{lends_value};

    /// No members; the cursor on the trailer. Refused `OutOfMemory` alone.
    pub fn new(alloc: Global) -> Result<Ring<T>, Refusal>
        ensures ok { IfOk result (λ r. r ≡ ring [] Nothing 0) }
        ensures errors { RefusedForMemoryAlone result }
    {
        Ok(Ring {
            nodes: Nodes::new(alloc)?,
            spare: Vec::new(alloc),
            cursor: None,
        })
    }

    /// The tag of the first member; `None` where there is none.
    pub fn first(&self) -> Option<u64>
        ensures follows { Follows self.now.items Nothing result }
        ensures there { IfSome result (HasTag self.now.items) }
        ensures tags { AreTags self.now.items }
    {
        self.nodes.next(None)
    }

    /// The tag of the member after this one; `None` at the end.
    pub fn after(&self, tag: u64) -> Option<u64>
        requires { HasTag self.now.items tag }
        ensures follows { Follows self.now.items (Just tag) result }
        ensures there { IfSome result (HasTag self.now.items) }
    {
        self.nodes.next(Some(tag))
    }

    /// The tag of the member before this one; `None` at the beginning.
    pub fn before(&self, tag: u64) -> Option<u64>
        requires { HasTag self.now.items tag }
        ensures follows { Follows self.now.items result (Just tag) }
        ensures there { IfSome result (HasTag self.now.items) }
    {
        self.nodes.prev(Some(tag))
    }

    /// The members from the one of this tag on; none for `None`.
    pub fn from(&self, at: Option<u64>) -> Members<'_, T>
        requires { IfSome at (HasTag self.now.items) }
        ensures { (before left : List (ℕ × T)) → self.now.items ≡ before ++ left → first_tag left ≡ at
            → result ≡ left }
    {
        Members::from(&self.nodes, at)
    }

    /// The members after the one of this tag; all for `None`.
    pub fn rest_after(&self, last: Option<u64>) -> Members<'_, T>
        requires { IfSome last (HasTag self.now.items) }
        ensures { (before left : List (ℕ × T)) → self.now.items ≡ before ++ left → last_tag before ≡ last
            → result ≡ left }
    {
        Members::rest_after(&self.nodes, last)
    }

    /// The value of the member of this tag.
    pub fn value_at(&self, tag: u64) -> &T
        requires { HasTag self.now.items tag }
        ensures { IsMember self.now.items tag result.now }
    {
        self.nodes.value(tag)
    }

    /// Moves the cursor on: from the trailer to the first member, from the last one to the trailer.
    pub fn next(&mut self)
        ensures follows { Follows self.old.items self.old.cursor self.new.cursor }
        ensures unchanged { self.new ≡ ring self.old.items self.new.cursor self.old.room }
    {
        self.cursor = self.nodes.next(self.cursor);
    }

    /// Moves the cursor back: from the trailer to the last member, from the first one to the trailer.
    pub fn prev(&mut self)
        ensures follows { Follows self.old.items self.new.cursor self.old.cursor }
        ensures unchanged { self.new ≡ ring self.old.items self.new.cursor self.old.room }
    {
        self.cursor = self.nodes.prev(self.cursor);
    }

    /// Puts the cursor on the trailer.
    pub fn to_trailer(&mut self)
        ensures { self.new ≡ ring self.old.items Nothing self.old.room }
    {
        self.cursor = None;
    }

    /// Puts the cursor on the member of this tag.
    pub fn seek(&mut self, tag: u64)
        requires { HasTag self.old.items tag }
        ensures { self.new ≡ ring self.old.items (Just tag) self.old.room }
    {
        self.cursor = Some(tag);
    }

    /// The tag of the member that the cursor stands on; `None` on the trailer.
    pub fn tag(&self) -> Option<u64>
        ensures { result ≡ self.now.cursor }
    {
        self.cursor
    }

    /// The value of the member that the cursor stands on, which isn't the trailer.
    pub fn value(&self) -> &T
        requires { IsSome self.now.cursor }
        ensures { IsAtCursor self.now result.now }
    {
        match self.cursor {
            Some(tag) => self.nodes.value(tag),
            None => unreachable!(),
        }
    }

    /// The value of the member that the cursor stands on, which isn't the trailer, to be changed.
    pub fn value_mut(&mut self) -> &mut T
        requires { IsSome self.old.cursor }
        ensures* writes_back { sem 𝓛 (lends_value T.row self.entry result) }
        ensures value { IsAtCursor self.old result.now }
    {
        let node = self.nodes.find(self.cursor);
        match self.nodes.links.value_mut(node) {
            Some(member) => &mut member.value,
            None => unreachable!(),
        }
    }

    /// Makes room for n more members: so many pushes take no memory. Refused `OutOfMemory` alone, which is also
    /// where there would be more than 2^32 members.
    pub fn reserve(&mut self, n: usize) -> Result<(), Refusal>
        ensures ok { OnOk result (n ≤ self.new.room) }
        ensures most { OnOk result (length self.old.items + n ≤ MAX_TAGS) }
        ensures reserved { 0 < n → n ≤ self.old.room → IsOk result }
        ensures errors { RefusedForMemoryAlone result }
        ensures unchanged { (self.new.items ≡ self.old.items) × (self.new.cursor ≡ self.old.cursor) }
        ensures room { self.old.room ≤ self.new.room }
    {
        Refusal::within_memory(self.nodes.table.len().saturating_add(n), MAX_TAGS)?;
        self.nodes.table.reserve(n)?;
        fill_up(&mut self.spare, n)?;
        Ok(())
    }

    /// Puts a member directly after the cursor, under the next tag, and the cursor on it.
    ///
    /// After the trailer is the front. Refused `OutOfMemory` alone, with the value given back, which is also where
    /// there are 2^32 members.
    pub fn push_after(&mut self, value: T) -> Result<u64, (T, Refusal)>
        ensures tag { IfOk result (λ tag. (tag ≡ length self.old.items) × (tag < MAX_TAGS)) }
        ensures pushed { IfOk result
            (λ tag. IsPushed self.old.items self.old.cursor tag value self.new.items) }
        ensures cursor { IfOk result (λ tag. self.new.cursor ≡ Just tag) }
        ensures err { IfErr result (λ e. (e.0 ≡ value) × (e.1 ≡ Refusal.OutOfMemory)) }
        ensures unchanged { OnErr result
            ((self.new.items ≡ self.old.items) × (self.new.cursor ≡ self.old.cursor)) }
        ensures reserved { 0 < self.old.room → IsOk result }
        ensures room { self.old.room ≤ self.new.room + 1 }
    {
        if let Err(why) = self.reserve(1) {
            return Err((value, why));
        }
        match self.spare.pop() {
            Some(Spare { room, block }) => {
                let new = self.nodes.push(self.cursor, value, room, block);
                self.cursor = Some(new);
                Ok(new)
            }
            None => unreachable!(),
        }
    }
}

impl<T: Drop> Drop for Ring<T> {
    fn drop(self) {
        let Ring {
            nodes,
            spare,
            cursor: _,
        } = self;
        let alloc = *spare.allocator();
        free_all(spare, &alloc);
        nodes.destroy(&alloc);
    }
}
