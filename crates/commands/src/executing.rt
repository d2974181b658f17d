//! What commands do with the desk's texts and its screen.

ghost use Rattle.std.specs.Prelude.{◌≡◌, ◌≤◌, IfSome, None as Nothing};
ghost use Rattle.std.specs.Option.{option_copied};
ghost use Rattle.machine.specs.Commands.{dress_marked, task_with_value};
ghost use Rattle.machine.specs.Events.{arrange, ask, forget, search};
ghost use Rattle.machine.specs.declared.asked.Arrangement.TheVariants.{Close, Open};
ghost use Rattle.machine.specs.declared.TheConstants.{MAX_TEXT};
ghost use Rattle.commands.specs.Steps.{IsEditStep, IsTaskStep, sent_answer, written_answer};

use crate::answer::Answer;
use crate::desk::Desk;
use crate::searching::find;
use crate::telling::tell;
use char_files::TextNo;
use looks::{Looks, Refusal, Sel};
use texts::{EditRefusal, Outbox};
use viewers::Track;

// What an edit answers, as a command does.
pub(crate) fn sent(outcome: Result<u32, EditRefusal>) -> Result<Answer, EditRefusal>
    ensures { result ≡ sent_answer outcome }
{
    match outcome {
        Ok(count) => Ok(Answer::Sent(count)),
        Err(why) => Err(why),
    }
}

// What a writing answers, as a command does.
pub(crate) fn written(outcome: Result<(), Refusal>) -> Result<Answer, EditRefusal>
    ensures { result ≡ written_answer outcome }
{
    match outcome {
        Ok(()) => Ok(Answer::Done),
        Err(why) => Err(EditRefusal::Whole(why)),
    }
}

impl Desk {
    // Opens a viewer of the text that was told.
    pub(crate) fn open_given(
        &mut self,
        track: Track,
        text: Option<TextNo>,
    ) -> Result<Answer, EditRefusal>
        requires { IfSome text (λ n. n ≤ MAX_TEXT) }
        ensures { IsTaskStep self.old (task_with_value text (λ n. arrange (Open track n Nothing))) result self.new }
    {
        let Some(text) = text else {
            return Err(EditRefusal::Whole(Refusal::BadParameter));
        };
        match self.open(track, text, None) {
            Ok(viewer) => Ok(Answer::Viewer(viewer)),
            Err(why) => Err(EditRefusal::Whole(why)),
        }
    }

    // Closes a viewer.
    pub(crate) fn close_clicked(&mut self, viewer: u32) -> Result<Answer, EditRefusal>
        ensures { IsTaskStep self.old (arrange (Close viewer)) result self.new }
    {
        match self.close(viewer) {
            Ok(()) => Ok(Answer::Done),
            Err(why) => Err(EditRefusal::Whole(why)),
        }
    }

    // Gives what is selected the looks that were told.
    pub(crate) fn dress(
        &mut self,
        change: Option<(Sel, Looks)>,
        outbox: &mut Outbox,
    ) -> Result<u32, EditRefusal>
        ensures { IsEditStep self.old
            (λ i. ask i (task_with_value change (dress_marked self.old.texts self.old.screen))) result self.new
            outbox.old outbox.new }
    {
        let Some(change) = change else {
            return Err(EditRefusal::Whole(Refusal::BadParameter));
        };
        let (sel, looks) = change;
        let Some(marked) = self.windows.marked(&self.texts) else {
            return Err(EditRefusal::Whole(Refusal::NoSelection));
        };
        self.looks(marked.text, marked.beg, marked.end, sel, &looks, outbox)
    }

    // Looks from the caret on for the bytes that were told. The caret stands after them then.
    pub(crate) fn search(&mut self, bytes: Option<&[u8]>) -> Result<Answer, EditRefusal>
        ensures { IsTaskStep self.old (task_with_value (option_copied bytes.entry) search) result self.new }
    {
        let Some(bytes) = bytes else {
            return Err(EditRefusal::Whole(Refusal::BadParameter));
        };
        let Some(place) = self.windows.caret_place(&self.texts) else {
            return Err(EditRefusal::Whole(Refusal::NoCaret));
        };
        let (text, from) = place;
        let replica = self.texts.replica(text);
        // Positions are in range.
        replica.lemma_is_text();
        let _len = replica.shown_len();
        let Some(at) = find(replica, bytes, from) else {
            return Ok(Answer::NotFound);
        };
        let after = at + bytes.len() as u64;
        self.windows.move_caret(&self.texts, after);
        Ok(Answer::Found(after))
    }

    // Throws away what waits for a text.
    pub(crate) fn forget(&mut self, text: TextNo) -> Result<Answer, EditRefusal>
        requires { text ≤ MAX_TEXT }
        ensures { IsTaskStep self.old (forget text) result self.new }
    {
        self.texts.lemma_has_text(text);
        let count = self.texts.forget(text);
        tell(&mut self.texts, &mut self.windows, text);
        Ok(Answer::Forgot(count))
    }
}
