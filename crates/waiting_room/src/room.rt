ghost use Rattle.std.specs.Prelude.{◌≡◌, ◌<◌, ◌≤◌, ◌↔◌, [], length, slice_get, All, Some, IfSome, IfNone, IsTrue};
ghost use Rattle.set_laws.specs.Sets.{AreIdentified};
ghost use Rattle.waiting_room.specs.Room.{IsAhead, IsBehind, IsFirstToLeave, IsWaitingAs, Offers};
ghost use Rattle.waiting_room.specs.Room.{StaysWaiting, is_ahead, is_behind, without};

use crate::held::Held;
use crate::mentions::mentions_past;
use crate::waiting::Waiting;
use char_files::SiteNo;
use indexmap::IndexMap;
use looks::Refusal;
use operations::Op;
use std::alloc::Global;
use std::marker::Model;

/// The most operations that wait.
pub const MAX_WAITING: usize = 64;

/// What became of an operation that was offered to a room.
#[derive(Clone, Copy, Debug, PartialEq, Eq)]
pub enum Offered {
    /// It waits now, as the last.
    New,
    /// An equal one waits already.
    Same,
}

// Whether the operation is one of the site itself, or mentions a name of the site at or past this end of its file.
fn is_ahead(op: &Op, site: SiteNo, end: u32) -> bool
    ensures value { result ≡ is_ahead op.now site end }
    ensures means { IsTrue result ↔ IsAhead op.now site end }
{
    op.site() == site || mentions_past(op, site, end)
}

/// Operations that wait for a cause, in order of arrival, each found by its identity.
#[derive(Drop)]
pub struct Room {
    // By site and seq.
    ops: IndexMap<(u16, u32), Waiting>,
}

impl Model for Room {
    ghost use Rattle.std.specs.Prelude.{List, map};
    ghost use Rattle.operations.specs.Operation.{Operation};
    ghost use Rattle.waiting_room.specs.Room.{AreInRoom};

    ghost Value = { List Operation };

    ghost view = { λ r. map (λ e. e.1) r.ops.entries };

    ghost invariant = { λ r. AreInRoom r.ops.entries };
}

impl Room {
    /// Nothing waits.
    pub fn new(alloc: Global) -> Room
        ensures { result ≡ [] }
    {
        Room {
            ops: IndexMap::new(alloc),
        }
    }

    /// How many operations wait, at most 64.
    pub fn len(&self) -> usize
        ensures value { result ≡ length self.now }
        ensures few { result ≤ MAX_WAITING }
    {
        self.ops.len()
    }

    /// Whether nothing waits.
    pub fn is_empty(&self) -> bool
        ensures { IsTrue result ↔ (self.now ≡ []) }
    {
        self.ops.is_empty()
    }

    /// A law: each operation that waits has an identity of its own, and they are no more than there are places. A
    /// proof gets it by calling this, at no cost.
    pub fn lemma_are_identified(&self)
        ensures identified { AreIdentified self.now }
        ensures few { length self.now ≤ MAX_WAITING }
    {
        let _ = self.ops.len();
    }

    /// Whether an equal operation waits; `None` where none of this identity does.
    pub fn waits(&self, op: &Op) -> Option<bool>
        ensures { IsWaitingAs self.now op.now result }
    {
        match self.ops.get(&(op.site().get(), op.seq())) {
            Some(waiting) => Some(waiting.op().is_same(op)),
            None => None,
        }
    }

    /// Lets an operation wait, as the last.
    ///
    /// Refused, in this order, `Conflict` where another operation of its identity waits, `RoomFull` where 64 wait,
    /// and `OutOfMemory`. Where an equal one waits, nothing is changed, and it isn't refused.
    pub fn offer(&mut self, op: Op) -> Result<Offered, Refusal>
        ensures { Offers self.old op result self.new }
    {
        match self.waits(&op) {
            Some(true) => return Ok(Offered::Same),
            Some(false) => return Err(Refusal::Conflict),
            None => {}
        }
        if self.ops.len() == MAX_WAITING {
            return Err(Refusal::RoomFull);
        }
        op.lemma_has_spelling();
        let key = (op.site().get(), op.seq());
        self.ops.insert(key, Waiting::new(op))?;
        Ok(Offered::New)
    }

    // What waits at an index, in order of arrival, from 0.
    fn waiting(&self, index: usize) -> &Waiting
        requires { index < length self.now }
        ensures { slice_get self.now index ≡ Some result.now }
    {
        match self.ops.get_index(index) {
            Some((_, waiting)) => waiting,
            None => unreachable!(),
        }
    }

    /// The operation at an index, in order of arrival, from 0.
    pub fn get(&self, index: usize) -> &Op
        requires { index < length self.now }
        ensures { slice_get self.now index ≡ Some result.now }
    {
        self.waiting(index).op()
    }

    /// Takes the operation at an index out; the others stay in order.
    pub fn remove(&mut self, index: usize) -> Op
        requires { index < length self.old }
        ensures value { slice_get self.old index ≡ Some result }
        ensures others { self.new ≡ without self.old index }
    {
        match self.ops.shift_remove_index(index) {
            Some((_, waiting)) => waiting.into_op(),
            None => unreachable!(),
        }
    }

    /// Takes all operations out, and answers how many there were.
    pub fn clear(&mut self) -> u32
        ensures count { result ≡ length self.old }
        ensures none { self.new ≡ [] }
    {
        let count = self.ops.len() as u32;
        self.ops.clear();
        count
    }

    /// The index of the first operation, in order of arrival, whose identity is held or whose verdict isn't that it
    /// waits.
    pub fn first_ready<H: Held>(&self, held: &H) -> Option<usize>
        ensures none { IfNone result (All (StaysWaiting (H.ops held.now)) self.now) }
        ensures some { IfSome result (IsFirstToLeave (H.ops held.now) self.now) }
    {
        for index in 0..self.len() {
            if !self.waiting(index).stays(held) {
                return Some(index);
            }
        }
        None
    }

    /// Whether a site has gone further elsewhere than is known here: one of its own operations waits, or one that
    /// mentions a character of the site that isn't here.
    pub fn behind<H: Held>(&self, site: SiteNo, held: &H) -> bool
        ensures value { result ≡ is_behind (H.ops held.now) self.now site }
        ensures means { IsTrue result ↔ IsBehind (H.ops held.now) self.now site }
    {
        let end = held.file_len(site);
        self.ops
            .values()
            .any(|waiting| is_ahead(waiting.op(), site, end))
    }
}
