//! A text kept in its site's file, and begun anew as that tells.

ghost use Rattle.std.specs.Prelude.{◌≡◌, ◌≤◌, ◌==◌, ◌&&◌, ℕ, List, IsFalse};
ghost use Rattle.shelf.specs.Files.{Counts};
ghost use Rattle.shelved_texts.specs.Filing.{shelf_seen};
ghost use Rattle.texts.specs.Taking.{HasTakenAll};
ghost use Rattle.texts.specs.TextState.{TextState, empty_text};
ghost use Rattle.machine.specs.SiteTexts.{IsTextOf};
ghost use Rattle.machine.specs.Events.{ask, keep, reopen};
ghost use Rattle.machine.specs.Tasks.{text_has_begun};
ghost use Rattle.machine.specs.declared.TheConstants.{MAX_TEXT};
ghost use Rattle.commands.specs.Filing.{BeginsSo, KeepsOnce};
ghost use Rattle.commands.specs.Steps.{IsFault, IsShelfStep};

use crate::answer::Answer;
use crate::desk::Desk;
use crate::executing::written;
use crate::telling::tell;
use char_files::TextNo;
use kept_file::KeptForm;
use looks::Refusal;
use shelf::Shelf;
use shelved_texts::{read_site, write_site};
use texts::{EditRefusal, Replica};

// Whether a text has taken something in, or something waits for it.
fn has_begun(replica: &Replica) -> bool
    ensures { result ≡ text_has_begun replica.now }
{
    0 < replica.taken_len() || 0 < replica.waiting()
}

// Whether both are copies of one site, of one text.
fn is_same_copy(kept: &Replica, replica: &Replica) -> bool
    ensures { result ≡ (kept.now.text == replica.now.text && kept.now.site == replica.now.site) }
{
    kept.text() == replica.text() && kept.site() == replica.site()
}

impl Desk {
    /// Keeps a text in its site's file of this name, in this form: all that it has taken in, so that the site can go on from
    /// there.
    ///
    /// Refused, in this order, `BadFile` where this is more operations than such a file tells, `OutOfMemory`, and `WriteFault` where the
    /// shelf fails: then nothing is said of that file.
    pub fn keep<S: Shelf>(
        &self,
        form: KeptForm,
        text: TextNo,
        name: &str,
        shelf: &mut S,
    ) -> Result<Answer, EditRefusal>
        requires on_desk { text ≤ MAX_TEXT }
        ensures step { (sent : List (List ℕ)) → IsShelfStep self.now (λ i. ask i (keep form text name.now)) result self.now sent sent
            (shelf_seen (S.files shelf.old) (S.faults shelf.old)) (shelf_seen (S.files shelf.new) (S.faults shelf.new)) }
        ensures once { (t : TextState) × IsTextOf self.now.texts text t
            × KeepsOnce form t name.now (S.writes shelf.old) (S.writes shelf.new) result }
        ensures fault { IsFault result → Counts (S.faults shelf.old) (S.faults shelf.new) }
    {
        written(write_site(self.alloc, form, self.texts.replica(text), name, shelf))
    }

    /// Begins a text, in which nothing was done yet, as its site's file of this name tells.
    ///
    /// Refused, in this order, `Conflict` where the text has taken something in or something waits for it; `ReadFault` where the
    /// shelf fails; `BadFile` where the file is no site's file, in either form; `WrongText` where it is another text's, or another site's.
    /// `OutOfMemory` may come in the place of any from `ReadFault` on. Nothing is changed then.
    ///
    /// No own operation may have been made since the file was kept: the next one gets the number of that again.
    pub fn reopen<S: Shelf>(
        &mut self,
        text: TextNo,
        name: &str,
        shelf: &mut S,
    ) -> Result<Answer, EditRefusal>
        requires on_desk { text ≤ MAX_TEXT }
        ensures step { (sent : List (List ℕ)) → IsShelfStep self.old (λ i. ask i (reopen text name.now)) result self.new sent sent
            (shelf_seen (S.files shelf.old) (S.faults shelf.old)) (shelf_seen (S.files shelf.new) (S.faults shelf.new)) }
        ensures writes { S.writes shelf.new ≡ S.writes shelf.old }
        ensures fault { IsFault result → Counts (S.faults shelf.old) (S.faults shelf.new) }
    {
        if has_begun(self.texts.replica(text)) {
            return Err(EditRefusal::Whole(Refusal::Conflict));
        }
        match read_site(self.alloc, name, shelf) {
            Ok(kept) => self.begin_as(text, kept),
            Err(why) => Err(EditRefusal::Whole(why)),
        }
    }

    // Begins a text, in which nothing was done yet, as it was kept, if it is this site's copy of this text.
    fn begin_as(&mut self, text: TextNo, kept: Replica) -> Result<Answer, EditRefusal>
        requires on_desk { text ≤ MAX_TEXT }
        requires fresh { (t : TextState) → IsTextOf self.old.texts text t → IsFalse (text_has_begun t) }
        requires kept { HasTakenAll (empty_text kept.text kept.site) kept.operations kept }
        ensures { BeginsSo self.old text kept result self.new }
    {
        if !is_same_copy(&kept, self.texts.replica(text)) {
            return Err(EditRefusal::Whole(Refusal::WrongText));
        }
        self.texts.lemma_has_text(text);
        self.texts.replace(text, kept);
        tell(&mut self.texts, &mut self.windows, text);
        Ok(Answer::Done)
    }
}
