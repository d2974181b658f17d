//! Commands that read or write a file: a load at the caret, and a store of a text.

ghost use Rattle.std.specs.Prelude.{◌≡◌, ◌≤◌, ℕ, List, IfSome, None as Nothing};
ghost use Rattle.std.specs.Option.{option_copied};
ghost use Rattle.shelf.specs.Files.{Counts};
ghost use Rattle.shelved_texts.specs.Filing.{shelf_seen};
ghost use Rattle.texts.specs.TextState.{TextState};
ghost use Rattle.machine.specs.SiteTexts.{IsTextOf};
ghost use Rattle.machine.specs.Commands.{task_with_value};
ghost use Rattle.machine.specs.Events.{ask, load, store};
ghost use Rattle.machine.specs.declared.TheConstants.{MAX_TEXT};
ghost use Rattle.commands.specs.Filing.{StoresOnce};
ghost use Rattle.commands.specs.Steps.{IsFault, IsShelfStep};

use crate::answer::Answer;
use crate::desk::Desk;
use crate::executing::{sent, written};
use crate::inserting::Insertion;
use char_files::TextNo;
use looks::Refusal;
use shelf::Shelf;
use shelved_texts::{read_text, write_text};
use texts::{EditRefusal, Outbox};

impl Desk {
    // Puts the text of the file that was told in at the caret. Nothing is read where there is none.
    pub(crate) fn load<S: Shelf>(
        &mut self,
        name: Option<&str>,
        shelf: &mut S,
        outbox: &mut Outbox,
    ) -> Result<Answer, EditRefusal>
        ensures step { IsShelfStep self.old (λ i. ask i (task_with_value (option_copied name.entry) load)) result self.new
            outbox.old outbox.new (shelf_seen (S.files shelf.old) (S.faults shelf.old)) (shelf_seen (S.files shelf.new) (S.faults shelf.new)) }
        ensures writes { S.writes shelf.new ≡ S.writes shelf.old }
        ensures fault { IsFault result → Counts (S.faults shelf.old) (S.faults shelf.new) }
    {
        let Some(name) = name else {
            return Err(EditRefusal::Whole(Refusal::BadParameter));
        };
        let Some(_place) = self.windows.caret_place(&self.texts) else {
            return Err(EditRefusal::Whole(Refusal::NoCaret));
        };
        match read_text(self.alloc, name, shelf) {
            Ok(items) => sent(self.insert_at_caret(Insertion::Items(&items), outbox)),
            Err(why) => Err(EditRefusal::Whole(why)),
        }
    }

    // Stores a text in the file that was told.
    pub(crate) fn store<S: Shelf>(
        &self,
        text: TextNo,
        name: Option<&str>,
        shelf: &mut S,
    ) -> Result<Answer, EditRefusal>
        requires { text ≤ MAX_TEXT }
        ensures step { (sent : List (List ℕ)) → IsShelfStep self.now
            (λ i. ask i (task_with_value (option_copied name.entry) (store text))) result self.now sent sent
            (shelf_seen (S.files shelf.old) (S.faults shelf.old)) (shelf_seen (S.files shelf.new) (S.faults shelf.new)) }
        ensures once { IfSome (option_copied name.entry) (λ n. (t : TextState) × IsTextOf self.now.texts text t
            × StoresOnce t n (S.writes shelf.old) (S.writes shelf.new) result) }
        ensures unnamed { option_copied name.entry ≡ Nothing → S.writes shelf.new ≡ S.writes shelf.old }
        ensures fault { IsFault result → Counts (S.faults shelf.old) (S.faults shelf.new) }
    {
        let Some(name) = name else {
            return Err(EditRefusal::Whole(Refusal::BadParameter));
        };
        written(write_text(self.alloc, self.texts.replica(text), name, shelf))
    }
}
