//! Edits by names.

ghost use Rattle.std.specs.Prelude.{◌≡◌, IsTrue};
ghost use Rattle.texts.specs.Named.{EditsByNamesSending, are_here, changes_any, names_changed, op_by_names};
ghost use Rattle.texts.specs.Named.{MakesByNames};

use super::Replica;
use super::own::{answer_of_one, lemma_may_be_named};
use crate::by_names::ByNames;
use crate::edit_refusal::EditRefusal;
use crate::outbox::Outbox;
use looks::Refusal;
use operations::NameRange;

impl Replica {
    /// Whether each of these names is that of a character, shown or hidden.
    pub fn has_names(&self, names: &[NameRange]) -> bool
        ensures { result ≡ are_here self.now names.now }
    {
        let log = self.taken.log();
        names.iter().all(|range| range.at() + range.len() <= log.file_len(range.site()))
    }

    // Makes the operation of an edit by names that changes something. An `Err` changes nothing.
    fn make_by_names(
        &mut self,
        what: ByNames,
        names: &[NameRange],
        outbox: &mut Outbox,
    ) -> Result<(), Refusal>
        requires here { IsTrue (are_here self.old names.now) }
        requires some { IsTrue (changes_any self.old what names.now) }
        ensures { MakesByNames self.old what names.now result self.new outbox.old outbox.new }
    {
        self.lemma_is_text();
        if let Some(why) = self.refusal_for(0) {
            return Err(why);
        }
        let changed = self.taken.names_with(names, what.changes_shown())?;
        lemma_may_be_named(&changed);
        self.make(what.kind(changed), outbox)
    }

    /// Takes those that are shown of the characters of these names out of what is shown, or shows those again that are hidden, by
    /// one operation that names these and no others, wherever they stand. The names may be told in any order and more than
    /// once. What `recall` and `restore` give stays as it was.
    ///
    /// Answers how many messages it added to the Outbox. Where all of them are shown already, or hidden, it sends nothing
    /// and is never refused. Else it is refused, in this order, `Behind`, `SeqSpent` and `StampsSpent` as in `insert`,
    /// `Scattered` where the names that change make more than 1,024 ranges, and `OutOfMemory`, which may come before
    /// `Scattered`.
    pub fn edit_by_names(
        &mut self,
        what: ByNames,
        names: &[NameRange],
        outbox: &mut Outbox,
    ) -> Result<u32, EditRefusal>
        requires here { IsTrue (are_here self.old names.now) }
        ensures { EditsByNamesSending self.old what names.now result self.new outbox.old outbox.new }
    {
        self.lemma_is_text();
        if !self.taken.has_any(names, what.changes_shown()) {
            return Ok(0);
        }
        answer_of_one(self.make_by_names(what, names, outbox))
    }
}
