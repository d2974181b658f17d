//! Changes of looks, and restorations.

ghost use Rattle.std.specs.Prelude.{◌≡◌, ◌<◌, ◌≤◌, length};
ghost use Rattle.looks.specs.Looks.{plain_looks};
ghost use Rattle.operations.specs.Operation.{change_looks, restore};
ghost use Rattle.operations.specs.Spelling.{IsPlainElsewhere};
ghost use Rattle.texts.specs.Edit.{names_shown, own_op};
ghost use Rattle.texts.specs.Order.{with_selected};
ghost use Rattle.texts.specs.Own.{SendsOne};
ghost use Rattle.texts.specs.TextState.{shown_of};

use super::Replica;
use super::own::lemma_may_be_named;
use crate::outbox::Outbox;
use looks::{Looks, Refusal, Sel};
use operations::Kind;

// The looks that are selected, and the default ones elsewhere.
fn selected(sel: Sel, looks: &Looks) -> Looks
    ensures value { result ≡ with_selected sel looks.now plain_looks }
    ensures elsewhere { IsPlainElsewhere sel result }
{
    let mut all = Looks::plain();
    if sel.font() {
        all.font = looks.font.copy();
    }
    if sel.colour() {
        all.colour = looks.colour;
    }
    if sel.offset() {
        all.offset = looks.offset;
    }
    all
}

impl Replica {
    // Gives the characters shown from `beg` to `end` the looks that are selected, by one ChangeLooks. An `Err`
    // changes nothing.
    pub(crate) fn dress_some(
        &mut self,
        beg: u64,
        end: u64,
        sel: Sel,
        looks: &Looks,
        outbox: &mut Outbox,
    ) -> Result<(), Refusal>
        requires some { beg < end }
        requires in_text { end ≤ length (shown_of self.old) }
        ensures { SendsOne self.old
            (own_op self.old
            (change_looks sel (with_selected sel looks.now plain_looks) (names_shown self.old beg end)))
            result self.new outbox.old outbox.new }
    {
        self.lemma_is_text();
        if let Some(why) = self.refusal_for(0) {
            return Err(why);
        }
        let names = self.taken.names_shown(beg, end)?;
        lemma_may_be_named(&names);
        let looks = selected(sel, looks);
        // The looks and the selection are in range by their types.
        looks.lemma_are_in_range();
        let _ = sel.bits();
        self.make(Kind::ChangeLooks { sel, looks, names }, outbox)
    }

    // Shows again what was cut last, by one Restore. An `Err` changes nothing.
    pub(crate) fn show_again(&mut self, outbox: &mut Outbox) -> Result<(), Refusal>
        requires some { 0 < length self.old.last_set }
        ensures { SendsOne self.old (own_op self.old (restore self.old.last_set)) result self.new
            outbox.old outbox.new }
    {
        self.lemma_is_text();
        if let Some(why) = self.refusal_for(0) {
            return Err(why);
        }
        let names = self.set.copy()?;
        lemma_may_be_named(&names);
        self.make(Kind::Restore { names }, outbox)
    }
}
