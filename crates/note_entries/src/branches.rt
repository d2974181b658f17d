//! Of messages that follow the same one, that of least hash.

ghost use Rattle.std.specs.Prelude.{◌≡◌, [], Contains, IfNone, IfOk, IfSome, OnErr, OnOk};
ghost use Rattle.looks.specs.Refusal.{RefusedForMemoryAlone};
ghost use Rattle.note_laws.specs.Note.{Saying as Message};
ghost use Rattle.std.specs.Map.{values_of};
ghost use Rattle.note_entries.specs.Branches.{IsPutSaying, Says, StandsBeside, StandsInPlace, is_same_place, place_in_chain};
ghost use Rattle.note_entries.specs.Keyed.{StandUnderKeys};

use crate::place::Place;
use crate::rows::Rows;
use crate::saying::Saying;
use looks::Refusal;
use std::alloc::Global;
use std::collections::BTreeMap;
use std::marker::Model;

/// What came of a message.
#[derive(Clone, Copy, Debug, PartialEq, Eq)]
pub enum Said {
    /// One of this hash is kept in its place.
    Repeat,
    /// One of a lesser hash is.
    Greater,
    /// None was kept there.
    First,
    /// One of a greater hash was, and no longer is.
    Lesser,
}

// How a message stands to the one that is kept in its place.
fn stand(kept: &Saying, saying: &Saying) -> Said
    ensures { StandsBeside kept.now saying.now result }
{
    if kept.hash == saying.hash {
        return Said::Repeat;
    }
    if kept.hash < saying.hash {
        return Said::Greater;
    }
    Said::Lesser
}

// Puts a message in its place, by which it is found. Refused `OutOfMemory` alone, and then all is as before.
fn put_aside(aside: &mut BTreeMap<Place, Saying>, saying: Saying) -> Result<(), Refusal>
    requires { StandUnderKeys is_same_place place_in_chain aside.old.entries }
    ensures keyed { StandUnderKeys is_same_place place_in_chain aside.new.entries }
    ensures ok { OnOk result (IsPutSaying (values_of aside.old.entries) saying (values_of aside.new.entries)) }
    ensures errors { RefusedForMemoryAlone result }
    ensures err { OnErr result (aside.new.entries ≡ aside.old.entries) }
{
    aside.insert(Place::of(&saying), saying)?;
    Ok(())
}

// Of each place the message of least hash.
#[derive(Drop)]
pub(crate) struct Branches {
    rows: Rows,
    // Those that stand in no row.
    aside: BTreeMap<Place, Saying>,
}

impl Model for Branches {
    ghost use Rattle.std.specs.Prelude.{◌++◌, List};
    ghost use Rattle.std.specs.Map.{values_of};
    ghost use Rattle.note_laws.specs.Note.{Saying as Message};
    ghost use Rattle.note_entries.specs.Rows.{StandApart};

    ghost Value = { List Message };

    ghost view = { λ b. b.rows ++ values_of b.aside.entries };

    ghost invariant = { λ b. StandApart b.rows b.aside.entries };
}

impl Branches {
    // Nothing was said.
    pub(crate) fn new(alloc: Global) -> Branches
        ensures { result ≡ [] }
    {
        Branches {
            rows: Rows::new(alloc),
            aside: BTreeMap::new(alloc),
        }
    }

    // The message that is kept there.
    pub(crate) fn least(&self, place: Place) -> Option<&Saying>
        ensures some { IfSome result (λ s. Contains self.now s.now × (place_in_chain s.now ≡ place)) }
        ensures none { IfNone result ((s : Message) → Contains self.now s → ¬ (place_in_chain s ≡ place)) }
    {
        match self.rows.at(place) {
            Some(kept) => Some(kept),
            None => self.aside.get(&place),
        }
    }

    // The message is its place's. Refused `OutOfMemory` alone, and then all is as before.
    fn put(&mut self, saying: Saying) -> Result<(), Refusal>
        ensures ok { OnOk result (IsPutSaying self.old saying self.new) }
        ensures errors { RefusedForMemoryAlone result }
        ensures err { OnErr result (self.new ≡ self.old) }
    {
        let place = Place::of(&saying);
        if self.aside.contains_key(&place) {
            return put_aside(&mut self.aside, saying);
        }
        match self.rows.put(saying)? {
            Some(saying) => put_aside(&mut self.aside, saying),
            None => Ok(()),
        }
    }

    // How the message stands to the one that is kept in its place.
    fn stand(&self, saying: &Saying) -> Said
        ensures { StandsInPlace self.now saying.now result }
    {
        match self.least(Place::of(saying)) {
            None => Said::First,
            Some(kept) => stand(kept, saying),
        }
    }

    // A message came. Refused `OutOfMemory` alone, and then all is as before.
    pub(crate) fn say(&mut self, saying: Saying) -> Result<Said, Refusal>
        ensures ok { IfOk result (λ said. Says self.old saying said self.new) }
        ensures errors { RefusedForMemoryAlone result }
        ensures err { OnErr result (self.new ≡ self.old) }
    {
        let said = self.stand(&saying);
        match said {
            Said::Repeat | Said::Greater => return Ok(said),
            Said::First | Said::Lesser => {}
        }
        self.put(saying)?;
        Ok(said)
    }
}
