//! A click: the command that stands in a cell, and what it does.

ghost use Rattle.std.specs.Prelude.{◌≡◌, ◌≤◌, ◌&&◌, ℕ, Some as Just, None as Nothing, IfErr, IfSome, IsSome, MatchOption};
ghost use Rattle.looks.specs.declared.refusal.Refusal.TheVariants.{NoSelection};
ghost use Rattle.reader_scanner.specs.Tokens.{IsTokenAt};
ghost use Rattle.reader_scanner.specs.declared.token.Token.{Token as TokenSeen};
ghost use Rattle.command_words.specs.Calls.{IsCallAt, NoCallAt};
ghost use Rattle.command_words.specs.Commands.{has_parameter};
ghost use Rattle.shelf.specs.Files.{Counts};
ghost use Rattle.texts.specs.TextState.{TextState};
ghost use Rattle.machine.specs.Commands.{Clicked as ClickedSeen, IsTaskOfCall, is_caret_sign, task_of};
ghost use Rattle.machine.specs.Events.{Task, ask, click};
ghost use Rattle.machine.specs.Windows.{Window, bytes_shown, marked, window_of};
ghost use Rattle.machine.specs.declared.TheConstants.{MAX_TEXT};
ghost use Rattle.desk_windows.specs.Pointing.{IsClick};
ghost use Rattle.commands.specs.Filing.{WritesOnceAtMost};
ghost use Rattle.shelved_texts.specs.Filing.{shelf_seen};
ghost use Rattle.commands.specs.Steps.{IsFault, IsShelfStep, task_told};

use crate::answer::Answer;
use crate::desk::Desk;
use crate::executing::sent;
use crate::inserting::Insertion;
use crate::parameters::{
    bytes_parameter, colour_parameter, file_parameter, font_parameter, is_caret_sign,
    offset_parameter, text_parameter,
};
use char_files::{Plain, TextNo};
use command_words::{Call, Command, command_at, menu_text};
use desk_windows::{CellTarget, Clicked};
use looks::Refusal;
use reader_scanner::{Scanner, TokenValue};
use shelf::Shelf;
use texts::{EditRefusal, Outbox};
use viewers::Track;

// Whether the parameter of a command is to be looked for at the selection.
fn is_followed(command: Command, value: &TokenValue) -> bool
    ensures { result ≡ (has_parameter command && is_caret_sign value.now) }
{
    command.has_parameter() && is_caret_sign(value)
}

impl Desk {
    // The call that stands at what was clicked.
    fn call_at(&self, at: &Clicked) -> Option<Call>
        requires { at.now.text ≤ MAX_TEXT }
        ensures some { (seen : ClickedSeen) → IsClick self.now.texts seen at.now
            → IfSome result (λ call. IsCallAt seen.bytes seen.pos call) }
        ensures none { (seen : ClickedSeen) → IsClick self.now.texts seen at.now
            → result ≡ Nothing → NoCallAt seen.bytes seen.pos }
    {
        match at.place {
            CellTarget::Menu(pos) => {
                let menu = menu_text(at.viewer, at.text.get());
                command_at(&Plain(menu.as_slice()), pos)
            }
            CellTarget::Text(pos) => command_at(self.texts.replica(at.text), pos),
        }
    }

    // The value of the first token from the selection's begin on.
    fn marked_value(&self) -> Result<TokenValue, Refusal>
        ensures value { MatchOption (marked self.now.texts self.now.screen) (result ≡ Err NoSelection)
            (λ m. (there : TokenSeen) × IsTokenAt (bytes_shown m.text) m.beg there × (result ≡ Ok there.value)) }
        ensures errors { IfErr result (λ why. why ≡ NoSelection) }
    {
        let Some(marked) = self.windows.marked(&self.texts) else {
            return Err(Refusal::NoSelection);
        };
        let token = Scanner::open(self.texts.replica(marked.text), marked.beg).scan();
        Ok(token.value)
    }

    // The value of a call's parameter, which is followed to the selection once; of a call without one any value does.
    fn parameter(&self, call: Call) -> Result<TokenValue, Refusal>
        ensures task { (viewer text : ℕ) → IsTaskOfCall self.now.texts self.now.screen call viewer text
            (task_told self.now.texts self.now.screen call.command result viewer text) }
        ensures errors { IfErr result (λ why. why ≡ NoSelection) }
    {
        if is_followed(call.command, &call.token.value) {
            return self.marked_value();
        }
        Ok(call.token.value)
    }

    // Does a command, with the value of its parameter, in a viewer on a text.
    fn perform<S: Shelf>(
        &mut self,
        command: Command,
        value: &TokenValue,
        viewer: u32,
        text: TextNo,
        shelf: &mut S,
        outbox: &mut Outbox,
    ) -> Result<Answer, EditRefusal>
        requires on_desk { text ≤ MAX_TEXT }
        ensures step { IsShelfStep self.old
            (λ i. ask i (task_of self.old.texts self.old.screen command value.now viewer text)) result self.new
            outbox.old outbox.new (shelf_seen (S.files shelf.old) (S.faults shelf.old)) (shelf_seen (S.files shelf.new) (S.faults shelf.new)) }
        ensures once { WritesOnceAtMost (S.writes shelf.old) (S.writes shelf.new) }
        ensures fault { IsFault result → Counts (S.faults shelf.old) (S.faults shelf.new) }
    {
        match command {
            Command::SystemOpen => self.open_given(Track::System, text_parameter(value)),
            Command::SystemClose => self.close_clicked(viewer),
            Command::EditOpen => self.open_given(Track::User, text_parameter(value)),
            Command::EditLoad => self.load(file_parameter(value), shelf, outbox),
            Command::EditStore => self.store(text, file_parameter(value), shelf),
            Command::EditRecall => sent(self.insert_at_caret(Insertion::Recalled, outbox)),
            Command::EditRestore => sent(self.restore(text, outbox)),
            Command::EditChangeFont => sent(self.dress(font_parameter(value), outbox)),
            Command::EditChangeColor => sent(self.dress(colour_parameter(value), outbox)),
            Command::EditChangeOffset => sent(self.dress(offset_parameter(value), outbox)),
            Command::EditSearch => self.search(bytes_parameter(value)),
            Command::ShareForget => self.forget(text),
        }
    }

    /// Does a command that was called in a viewer, which is on the screen.
    ///
    /// Refused, in this order, `NoSelection` where the parameter is `^` and nothing is selected, else `BadParameter` where it
    /// tells nothing that the command can take; `NoSelection` where looks are to change and nothing is selected; `NoCaret` where
    /// the command needs one; then as the command is. `ReadFault` and `WriteFault` come of the shelf alone.
    pub fn execute<S: Shelf>(
        &mut self,
        call: Call,
        viewer: u32,
        shelf: &mut S,
        outbox: &mut Outbox,
    ) -> Result<Answer, EditRefusal>
        requires on_screen { IsSome (window_of self.old.texts self.old.screen viewer) }
        ensures step { (shown : Window × TextState) → window_of self.old.texts self.old.screen viewer ≡ Just shown
            → (task : Task) × IsTaskOfCall self.old.texts self.old.screen call viewer shown.0.text task
            × IsShelfStep self.old (λ i. ask i task) result self.new outbox.old outbox.new (shelf_seen (S.files shelf.old) (S.faults shelf.old)) (shelf_seen (S.files shelf.new) (S.faults shelf.new)) }
        ensures once { WritesOnceAtMost (S.writes shelf.old) (S.writes shelf.new) }
        ensures fault { IsFault result → Counts (S.faults shelf.old) (S.faults shelf.new) }
    {
        let text = self.windows.text_of(viewer).unwrap();
        let command = call.command;
        match self.parameter(call) {
            Ok(value) => self.perform(command, &value, viewer, text, shelf, outbox),
            Err(why) => Err(EditRefusal::Whole(why)),
        }
    }

    /// Does the command that stands in a cell of the screen: in a viewer's menu, or in what it shows of its text.
    ///
    /// Refused, in this order, `NoViewer` in a blank track and outside the screen; `UnknownCommand` where no command's word
    /// stands; then as `execute` is.
    pub fn click<S: Shelf>(
        &mut self,
        col: usize,
        row: usize,
        shelf: &mut S,
        outbox: &mut Outbox,
    ) -> Result<Answer, EditRefusal>
        ensures step { IsShelfStep self.old (λ i. click i col row) result self.new outbox.old outbox.new
            (shelf_seen (S.files shelf.old) (S.faults shelf.old)) (shelf_seen (S.files shelf.new) (S.faults shelf.new)) }
        ensures once { WritesOnceAtMost (S.writes shelf.old) (S.writes shelf.new) }
        ensures fault { IsFault result → Counts (S.faults shelf.old) (S.faults shelf.new) }
    {
        let Some(at) = self.windows.clicked(&self.texts, col, row) else {
            return Err(EditRefusal::Whole(Refusal::NoViewer));
        };
        let Some(call) = self.call_at(&at) else {
            return Err(EditRefusal::Whole(Refusal::UnknownCommand));
        };
        self.execute(call, at.viewer, shelf, outbox)
    }
}
