//! Messages of an author, a text and a number that stand one after the other, as most do.

ghost use Rattle.std.specs.Prelude.{◌≡◌, None, [], Contains, IfNone, IfOk, IfSome, OnErr, OnOk};
ghost use Rattle.looks.specs.Refusal.{RefusedForMemoryAlone};
ghost use Rattle.note_laws.specs.Note.{Saying as Message};
ghost use Rattle.std.specs.Map.{lookup};
ghost use Rattle.note_entries.specs.Branches.{IsPutSaying, is_same_place, place_in_chain};
ghost use Rattle.note_entries.specs.Rows.{AreSayingRows, IsRow, PutsOrReturns, row_begin, said_in};

use crate::place::Place;
use crate::saying::Saying;
use looks::Refusal;
use std::alloc::Global;
use std::collections::BTreeMap;
use std::marker::Model;

// Messages of one author, text and number: the nth has the seq n + 1.
#[derive(Drop)]
struct Row {
    said: Vec<Saying>,
}

impl Model for Row {
    ghost use Rattle.std.specs.Prelude.{List};
    ghost use Rattle.note_laws.specs.Note.{Saying as Message};

    ghost Value = { List Message };

    ghost view = { λ r. r.said.items };
}

impl Row {
    // The message of this place, if it is one of the row.
    fn at(&self, place: Place) -> Option<&Saying>
        requires { IsRow (row_begin place) self.now }
        ensures some { IfSome result (λ s. Contains self.now s.now × (place_in_chain s.now ≡ place)) }
        ensures none { IfNone result ((s : Message) → Contains self.now s → ¬ (place_in_chain s ≡ place)) }
    {
        let kept = self.said.get((place.seq as usize).checked_sub(1)?)?;
        if kept.before == place.before {
            return Some(kept);
        }
        None
    }

    // Puts a message in its place or at the end, or gives it back. Refused `OutOfMemory` alone, and then all is as before.
    fn put(&mut self, saying: Saying) -> Result<Option<Saying>, Refusal>
        requires { IsRow (row_begin (place_in_chain saying)) self.old }
        ensures ok { IfOk result (λ back. PutsOrReturns self.old saying back self.new) }
        ensures row { IsRow (row_begin (place_in_chain saying)) self.new }
        ensures errors { RefusedForMemoryAlone result }
        ensures err { OnErr result (self.new ≡ self.old) }
    {
        let Some(index) = (saying.op.seq() as usize).checked_sub(1) else {
            return Ok(Some(saying));
        };
        if index == self.said.len() {
            self.said.push(saying)?;
            return Ok(None);
        }
        match self.at(Place::of(&saying)) {
            Some(_) => {
                self.said[index] = saying;
                Ok(None)
            }
            None => Ok(Some(saying)),
        }
    }
}

// Messages that are found without being hashed.
#[derive(Drop)]
pub(crate) struct Rows {
    // By the places where they begin, as if no message were before them.
    rows: BTreeMap<Place, Row>,
    alloc: Global,
}

impl Model for Rows {
    ghost use Rattle.std.specs.Prelude.{List};
    ghost use Rattle.note_laws.specs.Note.{Saying as Message};
    ghost use Rattle.note_entries.specs.Rows.{AreSayingRows, said_in};

    ghost Value = { List Message };

    ghost view = { λ r. said_in r.rows.entries };

    ghost invariant = { λ r. AreSayingRows r.rows.entries };
}

// A row begins with a message of seq 1. Refused `OutOfMemory` alone, and then all is as before.
fn begin(rows: &mut BTreeMap<Place, Row>, alloc: Global, saying: Saying) -> Result<(), Refusal>
    requires rows { AreSayingRows rows.old.entries }
    requires first { saying.op.seq ≡ 1 }
    requires none { lookup (is_same_place (row_begin (place_in_chain saying))) rows.old.entries ≡ None }
    ensures rows { OnOk result (AreSayingRows rows.new.entries) }
    ensures ok { OnOk result (IsPutSaying (said_in rows.old.entries) saying (said_in rows.new.entries)) }
    ensures errors { RefusedForMemoryAlone result }
    ensures err { OnErr result (rows.new.entries ≡ rows.old.entries) }
{
    let place = Place::of(&saying).begin();
    let mut said = Vec::new(alloc);
    said.push(saying)?;
    rows.insert(place, Row { said })?;
    Ok(())
}

impl Rows {
    // There is none.
    pub(crate) fn new(alloc: Global) -> Rows
        ensures { result ≡ [] }
    {
        Rows {
            rows: BTreeMap::new(alloc),
            alloc,
        }
    }

    // The message that has this place in a row.
    pub(crate) fn at(&self, place: Place) -> Option<&Saying>
        ensures some { IfSome result (λ s. Contains self.now s.now × (place_in_chain s.now ≡ place)) }
        ensures none { IfNone result ((s : Message) → Contains self.now s → ¬ (place_in_chain s ≡ place)) }
    {
        self.rows.get(&place.begin())?.at(place)
    }

    // Puts a message into a row, or gives it back. Refused `OutOfMemory` alone, and then all is as before.
    pub(crate) fn put(&mut self, saying: Saying) -> Result<Option<Saying>, Refusal>
        ensures ok { IfOk result (λ back. PutsOrReturns self.old saying back self.new) }
        ensures errors { RefusedForMemoryAlone result }
        ensures err { OnErr result (self.new ≡ self.old) }
    {
        if let Some(row) = self.rows.get_mut(&Place::of(&saying).begin()) {
            return row.put(saying);
        }
        if saying.op.seq() != 1 {
            return Ok(Some(saying));
        }
        begin(&mut self.rows, self.alloc, saying)?;
        Ok(None)
    }
}
