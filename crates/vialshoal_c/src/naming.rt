//! A session's edits by names.

ghost use Rattle.std.specs.Prelude.{◌≡◌, ◌+◌, ◌++◌, ◌<◌, ◌≤◌, length, IfOk, IfErr, IsTrue};
ghost use Rattle.std.specs.Prelude.{vec_capacity, vec_len};
ghost use Rattle.std.specs.List.{list_all};
ghost use Rattle.looks.specs.Refusal.{RefusedForMemoryAlone};
ghost use Rattle.vialshoal_c.specs.Naming.{AnswersNames, EditsSessionNames, is_here, is_range, replica_ranges};

use crate::editing::Edited;
use crate::inputs::CharNames;
use crate::numbers::{NO_NAME, NO_NUMBER};
use crate::session::Session;
use looks::Refusal;
use operations::NameRange;
use std::alloc::Global;
use texts::{ByNames, EditRefusal, Replica};

// Whether all of these are names.
pub(crate) fn are_ranges(names: &[CharNames]) -> bool
    ensures { result ≡ list_all is_range names.now }
{
    names.iter().all(|some| some.range().is_some())
}

// Whether these are names of characters.
fn has(replica: &Replica, names: CharNames) -> bool
    ensures { result ≡ is_here replica.now names }
{
    match names.range() {
        Some(range) => replica.has_names(&[range]),
        None => false,
    }
}

// Whether all of these names are those of characters.
pub(crate) fn has_all(replica: &Replica, names: &[CharNames]) -> bool
    ensures { result ≡ list_all (is_here replica.now) names.now }
{
    names.iter().all(|some| has(replica, *some))
}

// Puts names into a vector that has the room.
fn put(names: &[CharNames], ranges: &mut Vec<NameRange>)
    requires names { IsTrue (list_all is_range names.now) }
    requires room { vec_len ranges.old + length names.now ≤ vec_capacity ranges.old }
    ensures { ranges.new.items ≡ ranges.old.items ++ replica_ranges names.now }
{
    for some in names {
        // They were checked.
        let Some(range) = some.range() else {
            return;
        };
        ranges.push_reserved(range);
    }
}

// The names as a replica takes them. Refused `OutOfMemory` alone, and where there are names.
pub(crate) fn ranges_of(alloc: Global, names: &[CharNames]) -> Result<Vec<NameRange>, Refusal>
    requires { IsTrue (list_all is_range names.now) }
    ensures ok { IfOk result (λ ranges. ranges.items ≡ replica_ranges names.now) }
    ensures some { IfErr result (λ _. 0 < length names.now) }
    ensures errors { RefusedForMemoryAlone result }
{
    let mut ranges = Vec::with_capacity(alloc, names.len())?;
    put(names, &mut ranges);
    Ok(ranges)
}

impl Session {
    // Hands an edit by names on to the text.
    fn change_names(
        &mut self,
        alloc: Global,
        what: ByNames,
        names: &[CharNames],
    ) -> Result<u32, EditRefusal>
        requires names { IsTrue (list_all is_range names.now) }
        requires here { IsTrue (list_all (is_here self.old.text) names.now) }
        ensures { AnswersNames self.old what names.now result self.new }
    {
        match ranges_of(alloc, names) {
            Ok(ranges) => self.replica.edit_by_names(what, &ranges, &mut self.outbox),
            Err(why) => Err(EditRefusal::Whole(why)),
        }
    }

    /// Takes the characters of these names out of what is shown, or shows them again.
    pub(crate) fn edit_by_names(
        &mut self,
        alloc: Global,
        what: ByNames,
        names: &[CharNames],
    ) -> Edited
        ensures { EditsSessionNames self.old what names.now result.number result.sent self.new }
    {
        if !are_ranges(names) {
            return Edited::misused(NO_NUMBER);
        }
        if !has_all(&self.replica, names) {
            return Edited::misused(NO_NAME);
        }
        Edited::of(self.change_names(alloc, what, names))
    }
}
