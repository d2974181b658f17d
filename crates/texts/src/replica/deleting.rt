//! Deletions.

ghost use Rattle.std.specs.Prelude.{◌<◌, ◌≤◌, length};
ghost use Rattle.operations.specs.Operation.{delete};
ghost use Rattle.texts.specs.Edit.{names_shown, own_op};
ghost use Rattle.texts.specs.Own.{SendsOne};
ghost use Rattle.texts.specs.TextState.{shown_of};

use super::Replica;
use super::own::lemma_may_be_named;
use crate::outbox::Outbox;
use looks::Refusal;
use operations::Kind;

impl Replica {
    // Takes the characters shown from `beg` to `end` out of what is shown, by one Delete, and keeps them. An `Err`
    // changes nothing.
    pub(crate) fn delete_some(
        &mut self,
        beg: u64,
        end: u64,
        outbox: &mut Outbox,
    ) -> Result<(), Refusal>
        requires some { beg < end }
        requires in_text { end ≤ length (shown_of self.old) }
        ensures { SendsOne self.old (own_op self.old (delete (names_shown self.old beg end))) result self.new
            outbox.old outbox.new }
    {
        self.lemma_is_text();
        if let Some(why) = self.refusal_for(end - beg) {
            return Err(why);
        }
        // What takes memory comes first: a refused Delete leaves what the one before it kept.
        let names = self.taken.names_shown(beg, end)?;
        let stretch = self.taken.stretch(beg, end)?;
        lemma_may_be_named(&names);
        let set = names.copy()?;
        self.make(Kind::Delete { names }, outbox)?;
        self.stretch = stretch;
        self.set = set;
        Ok(())
    }
}
