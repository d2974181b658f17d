//! What is put in at the caret, which stands after it then.

ghost use Rattle.std.specs.Prelude.{◌≡◌, ◌≤◌};
ghost use Rattle.machine.specs.Events.{ask, edit};
ghost use Rattle.machine.specs.OnTexts.{EditsSite};
ghost use Rattle.machine.specs.declared.TheConstants.{MAX_TEXT};
ghost use Rattle.commands.specs.Inserting.{InsertionFits, edit_inserting, items_in, task_of_insertion};
ghost use Rattle.commands.specs.Steps.{IsEditStep};

use crate::desk::Desk;
use crate::telling::tell;
use char_files::{Buffer, TextNo};
use desk_texts::Texts;
use looks::Refusal;
use texts::{EditRefusal, Outbox};

// What is put in: bytes of default looks, a stretch, or what was cut last out of the text.
#[derive(Clone, Copy)]
pub(crate) enum Insertion<'a> {
    Bytes(&'a [u8]),
    Items(&'a Buffer),
    Recalled,
}

// Puts it in at a position of a text.
fn insert_into(
    texts: &mut Texts,
    text: TextNo,
    pos: u64,
    what: Insertion<'_>,
    outbox: &mut Outbox,
) -> Result<u32, EditRefusal>
    requires on_desk { text ≤ MAX_TEXT }
    requires short { InsertionFits what }
    ensures { EditsSite texts.old text (edit_inserting (items_in what.entry) pos) result texts.new outbox.old outbox.new }
{
    match what {
        Insertion::Bytes(bytes) => texts.type_in(text, pos, bytes, outbox),
        Insertion::Items(items) => texts.insert(text, pos, items, outbox),
        Insertion::Recalled => texts.recall(text, pos, outbox),
    }
}

impl Desk {
    // Puts it in at the caret, which stands after the last character that came in then. Refused `NoCaret` where there is none.
    pub(crate) fn insert_at_caret(
        &mut self,
        what: Insertion<'_>,
        outbox: &mut Outbox,
    ) -> Result<u32, EditRefusal>
        requires { InsertionFits what }
        ensures { IsEditStep self.old (λ i. ask i (task_of_insertion (items_in what.entry))) result self.new outbox.old outbox.new }
    {
        let Some(place) = self.windows.caret_place(&self.texts) else {
            return Err(EditRefusal::Whole(Refusal::NoCaret));
        };
        let (text, pos) = place;
        self.texts.lemma_has_text(text);
        let before = self.texts.replica(text).shown_len();
        let outcome = insert_into(&mut self.texts, text, pos, what, outbox);
        tell(&mut self.texts, &mut self.windows, text);
        let after = self.texts.replica(text).shown_len();
        if before < after {
            self.windows.move_caret(&self.texts, pos + (after - before));
        }
        outcome
    }
}
