ghost use Rattle.std.specs.Prelude.{◌≡◌, ◌<◌, ◌≤◌, map, length, nat_le, is_none, IfErr, IfOk, if◌then◌else◌};
ghost use Rattle.looks.specs.Looks.{plain_looks};
ghost use Rattle.looks.specs.Refusal.{RefusedForMemoryAlone};
ghost use Rattle.looks.specs.declared.refusal.Refusal.TheVariants.{FileSpent, NoCaret, OutOfRange};
ghost use Rattle.operations.specs.Spelling.{spelling};
ghost use Rattle.texts.specs.Edit.{deletion, insertion, looks_change, recalling, restoration};
ghost use Rattle.texts.specs.Text.{IsText};
ghost use Rattle.texts.specs.TextState.{TextState, noting, shown_of};
ghost use Rattle.texts.specs.declared.edit_refusal.EditRefusal.TheVariants.{Whole};
ghost use Rattle.machine.specs.SiteTexts.{IsTextOf, fresh_texts};
ghost use Rattle.machine.specs.Events.{arrange, ask, copy, edit, edit_by_names, print, insert_at_caret, query, settle, settles, unpack, unpack_reply};
ghost use Rattle.machine.specs.OnTexts.{RefusesQuery};
ghost use Rattle.machine.specs.Windows.{blank_screen};
ghost use Rattle.machine.specs.declared.asked.Arrangement.TheVariants.{Close, Move, Open, Point, Scroll, Select};
ghost use Rattle.commands.specs.Steps.{IsEditStep, IsMergeStep, IsStep, IsTakeStep, done_reply, open_reply, print_reply};

use crate::inserting::Insertion;
use crate::telling::tell;
use char_files::{MAX_FILE, SiteNo, TextNo};
use desk_texts::Texts;
use desk_windows::Windows;
use looks::{Looks, Refusal, Sel};
use machine::{MAX_TEXT, Query, View};
use operations::{NameRange, Op};
use std::alloc::Global;
use std::marker::Model;
use text_chunks::{UnpackRefusal, Unpacked};
use texts::{ByNames, EditRefusal, MergeRefusal, Outbox, Replica, Settled, Took};
use viewers::{MAX_HEIGHT, MAX_WIDTH, MIN_HEIGHT, MIN_WIDTH, Track};

/// One site's desk: its sixteen texts, and a screen of viewers that show them, with a caret and a selection. This project's
/// own.
#[derive(Drop)]
pub struct Desk {
    pub(crate) texts: Texts,
    pub(crate) windows: Windows,
    // What a file's memory is taken of.
    pub(crate) alloc: Global,
}

impl Model for Desk {
    ghost use Rattle.commands.specs.Steps.{AreTold, DeskSeen};
    ghost use Rattle.desk_windows.specs.Windows.{AreOf, screened};

    ghost Value = { DeskSeen };

    ghost view = { λ d. record { texts = d.texts; screen = screened d.windows } };

    ghost invariant = { λ d. AreOf d.texts d.windows × AreTold d.texts };
}

impl Desk {
    /// A site's desk as it begins. Refused `OutOfMemory` alone.
    pub fn new(alloc: Global, site: SiteNo, width: usize, height: usize) -> Result<Desk, Refusal>
        requires wide { MIN_WIDTH ≤ width }
        requires narrow { width ≤ MAX_WIDTH }
        requires high { MIN_HEIGHT ≤ height }
        requires low { height ≤ MAX_HEIGHT }
        ensures ok { IfOk result (λ d. d ≡ record { texts = fresh_texts site; screen = blank_screen width height }) }
        ensures errors { RefusedForMemoryAlone result }
    {
        Ok(Desk {
            texts: Texts::new(alloc, site)?,
            windows: Windows::new(alloc, width, height)?,
            alloc,
        })
    }

    // Why more bytes than a file has room for aren't typed at a position.
    fn too_long(&self, text: TextNo, pos: u64) -> Refusal
        requires { text ≤ MAX_TEXT }
        ensures { (t : TextState) × IsTextOf self.now.texts text t
            × (result ≡ (if nat_le pos (length (shown_of t)) then FileSpent else OutOfRange)) }
    {
        if pos <= self.texts.replica(text).shown_len() {
            Refusal::FileSpent
        } else {
            Refusal::OutOfRange
        }
    }

    /// Types bytes of default looks at a position of a text.
    ///
    /// This and the other edits answer how many messages they added to the Outbox. They are refused `OutOfRange` where a
    /// position lies outside the text, else as the replica refuses them; an empty edit is refused for its positions
    /// alone. Want of memory may come before the replica's other refusals. More than 2^24 bytes are refused at once,
    /// with nothing done: no file has room for them, nor is there a buffer that holds them.
    pub fn type_in(
        &mut self,
        text: TextNo,
        pos: u64,
        bytes: &[u8],
        outbox: &mut Outbox,
    ) -> Result<u32, EditRefusal>
        requires on_desk { text ≤ MAX_TEXT }
        ensures step { length bytes.now ≤ MAX_FILE → IsEditStep self.old
            (λ i. (edit i text (insertion pos (map (λ b. (b, plain_looks)) bytes.now))))
            result self.new outbox.old outbox.new }
        ensures long { MAX_FILE < length bytes.now → (t : TextState) × IsTextOf self.old.texts text t
            × (result ≡ Err (Whole (if nat_le pos (length (shown_of t)) then FileSpent else OutOfRange)))
            × (self.new ≡ self.old) × (outbox.new ≡ outbox.old) }
    {
        if MAX_FILE < bytes.len() as u64 {
            return Err(EditRefusal::Whole(self.too_long(text, pos)));
        }
        self.texts.lemma_has_text(text);
        let outcome = self.texts.type_in(text, pos, bytes, outbox);
        tell(&mut self.texts, &mut self.windows, text);
        outcome
    }

    /// Takes the characters from `beg` to `end` out of a text; they are kept for `recall` and `restore`.
    pub fn cut(
        &mut self,
        text: TextNo,
        beg: u64,
        end: u64,
        outbox: &mut Outbox,
    ) -> Result<u32, EditRefusal>
        requires on_desk { text ≤ MAX_TEXT }
        ensures { IsEditStep self.old (λ i. edit i text (deletion beg end)) result self.new
            outbox.old outbox.new }
    {
        self.texts.lemma_has_text(text);
        let outcome = self.texts.cut(text, beg, end, outbox);
        tell(&mut self.texts, &mut self.windows, text);
        outcome
    }

    /// Gives the characters from `beg` to `end` of a text the looks that are selected.
    pub fn looks(
        &mut self,
        text: TextNo,
        beg: u64,
        end: u64,
        sel: Sel,
        looks: &Looks,
        outbox: &mut Outbox,
    ) -> Result<u32, EditRefusal>
        requires on_desk { text ≤ MAX_TEXT }
        ensures { IsEditStep self.old (λ i. edit i text (looks_change beg end sel looks.now)) result self.new
            outbox.old outbox.new }
    {
        self.texts.lemma_has_text(text);
        let outcome = self.texts.change_looks(text, beg, end, sel, looks, outbox);
        tell(&mut self.texts, &mut self.windows, text);
        outcome
    }

    /// Puts a copy of what was cut last out of a text into it, at a position.
    pub fn recall(
        &mut self,
        text: TextNo,
        pos: u64,
        outbox: &mut Outbox,
    ) -> Result<u32, EditRefusal>
        requires on_desk { text ≤ MAX_TEXT }
        ensures { IsEditStep self.old (λ i. edit i text (recalling pos)) result self.new
            outbox.old outbox.new }
    {
        self.texts.lemma_has_text(text);
        let outcome = self.texts.recall(text, pos, outbox);
        tell(&mut self.texts, &mut self.windows, text);
        outcome
    }

    /// Shows again what was cut last out of a text.
    pub fn restore(&mut self, text: TextNo, outbox: &mut Outbox) -> Result<u32, EditRefusal>
        requires on_desk { text ≤ MAX_TEXT }
        ensures { IsEditStep self.old (λ i. edit i text restoration) result self.new outbox.old outbox.new }
    {
        self.texts.lemma_has_text(text);
        let outcome = self.texts.restore(text, outbox);
        tell(&mut self.texts, &mut self.windows, text);
        outcome
    }

    /// Takes the characters of these names out of what a text shows, or shows them again. Refused `OutOfRange` where one of the
    /// names isn't here.
    pub fn edit_by_names(
        &mut self,
        text: TextNo,
        what: ByNames,
        names: &[NameRange],
        outbox: &mut Outbox,
    ) -> Result<u32, EditRefusal>
        requires on_desk { text ≤ MAX_TEXT }
        ensures { IsEditStep self.old (λ i. edit_by_names i text what names.now) result self.new
            outbox.old outbox.new }
    {
        self.texts.lemma_has_text(text);
        let outcome = self.texts.edit_by_names(text, what, names, outbox);
        tell(&mut self.texts, &mut self.windows, text);
        outcome
    }

    /// Puts a copy of the characters from `beg` to `end` of a text into another one, or into itself, at a position.
    /// Refused `FileSpent`, after `OutOfRange`, where there are more than 2^24.
    pub fn save(
        &mut self,
        text: TextNo,
        beg: u64,
        end: u64,
        other: TextNo,
        pos: u64,
        outbox: &mut Outbox,
    ) -> Result<u32, EditRefusal>
        requires on_desk { text ≤ MAX_TEXT }
        requires other_on_desk { other ≤ MAX_TEXT }
        ensures { IsEditStep self.old (λ i. copy i text beg end other pos) result self.new
            outbox.old outbox.new }
    {
        self.texts.lemma_has_text(other);
        let outcome = self.texts.save(text, beg, end, other, pos, outbox);
        tell(&mut self.texts, &mut self.windows, other);
        outcome
    }

    /// Takes a message for a text, as its replica does.
    pub fn take(&mut self, text: TextNo, message: &[u8]) -> Result<Took, Refusal>
        requires on_desk { text ≤ MAX_TEXT }
        ensures { IsTakeStep self.old text message.now result self.new }
    {
        self.texts.lemma_has_text(text);
        let outcome = self.texts.take(text, message);
        tell(&mut self.texts, &mut self.windows, text);
        outcome
    }

    /// Takes an operation for a text, as its message is taken.
    pub fn take_op(&mut self, text: TextNo, op: Op) -> Result<Took, Refusal>
        requires on_desk { text ≤ MAX_TEXT }
        ensures { IsTakeStep self.old text (spelling op) result self.new }
    {
        self.texts.lemma_has_text(text);
        let outcome = self.texts.take_op(text, op);
        tell(&mut self.texts, &mut self.windows, text);
        outcome
    }

    /// Hands the operations of a chunk to a text, one after the other, as messages are handed in.
    pub fn unpack(&mut self, text: TextNo, chunk: &[u8]) -> Result<Unpacked, UnpackRefusal>
        requires on_desk { text ≤ MAX_TEXT }
        ensures { IsStep self.old (λ i. unpack i text chunk.now) (unpack_reply result) self.new }
    {
        self.texts.lemma_has_text(text);
        let outcome = self.texts.unpack(text, chunk);
        tell(&mut self.texts, &mut self.windows, text);
        outcome
    }

    /// Drains what waits for a text, as its replica does.
    pub fn settle(&mut self, text: TextNo) -> Settled
        requires on_desk { text ≤ MAX_TEXT }
        ensures { IsStep self.old (λ i. settle i text)
            (settles result.drained result.dropped result.stopped) self.new }
    {
        self.texts.lemma_has_text(text);
        let outcome = self.texts.settle(text);
        tell(&mut self.texts, &mut self.windows, text);
        outcome
    }

    /// Takes in what another desk's text of this number holds, as its replica does.
    pub fn merge(&mut self, text: TextNo, other: &Desk) -> Result<u64, MergeRefusal>
        requires on_desk { text ≤ MAX_TEXT }
        ensures { IsMergeStep self.old text other.now result self.new }
    {
        self.texts.lemma_has_text(text);
        let outcome = self.texts.merge(text, &other.texts);
        tell(&mut self.texts, &mut self.windows, text);
        outcome
    }

    /// A law: the desk has a text of this number, it is what its operations define, and it has told its changes. A proof
    /// gets it by calling this, at no cost.
    pub fn lemma_has_text(&self, text: TextNo)
        requires { text ≤ MAX_TEXT }
        ensures { (t : TextState) × IsTextOf self.now.texts text t × IsText t × (t.asked ≡ noting (length t.operations)) }
    {
        self.texts.lemma_has_text(text);
    }

    /// The replica of a text.
    pub fn replica(&self, text: TextNo) -> &Replica
        requires { text ≤ MAX_TEXT }
        ensures { IsTextOf self.now.texts text result.now }
    {
        self.texts.replica(text)
    }

    /// The lines that a query prints of a text. Refused `OutOfRange` for positions outside the text, and else `OutOfMemory`
    /// alone.
    pub fn query(&self, text: TextNo, asked: Query) -> Result<Vec<u8>, Refusal>
        requires { text ≤ MAX_TEXT }
        ensures step { IsStep self.now (λ i. query i text asked.entry) (print_reply result (λ lines. lines.items)) self.now }
        ensures errors { IfErr result (λ why. RefusesQuery self.now.texts text asked.entry why) }
    {
        self.texts.query(text, asked)
    }

    /// The line that prints a text: its length and its characters. Refused `OutOfMemory` alone.
    pub fn text(&self, text: TextNo) -> Result<Vec<u8>, Refusal>
        requires { text ≤ MAX_TEXT }
        ensures step { IsStep self.now (λ i. query i text Query.Text) (print_reply result (λ lines. lines.items)) self.now }
        ensures errors { RefusedForMemoryAlone result }
    {
        self.query(text, Query::Text)
    }

    /// The lines that print the fronts of a text: of each site of which it has operations, and how many wait. Refused
    /// `OutOfMemory` alone.
    pub fn front(&self, text: TextNo) -> Result<Vec<u8>, Refusal>
        requires { text ≤ MAX_TEXT }
        ensures step { IsStep self.now (λ i. query i text Query.Front) (print_reply result (λ lines. lines.items)) self.now }
        ensures errors { RefusedForMemoryAlone result }
    {
        self.query(text, Query::Front)
    }

    /// The lines that print the looks of a text: of each maximal run of equal looks, and how many characters it has.
    /// Refused `OutOfMemory` alone.
    pub fn runs(&self, text: TextNo) -> Result<Vec<u8>, Refusal>
        requires { text ≤ MAX_TEXT }
        ensures step { IsStep self.now (λ i. query i text Query.Runs) (print_reply result (λ lines. lines.items)) self.now }
        ensures errors { RefusedForMemoryAlone result }
    {
        self.query(text, Query::Runs)
    }

    /// Opens a viewer of a text at a row of a track; where no row is named, in the middle of the track's tallest viewer.
    ///
    /// Refused, in this order, `OutOfRange` for a row below the screen, `NoRoom` where the viewer there has fewer than four
    /// rows or no number is left, and `OutOfMemory`. Nothing is changed then.
    pub fn open(&mut self, track: Track, text: TextNo, row: Option<usize>) -> Result<u32, Refusal>
        requires on_desk { text ≤ MAX_TEXT }
        ensures { IsStep self.old (λ i. ask i (arrange (Open track text row))) (open_reply result) self.new }
    {
        self.windows.open(&self.texts, track, text, row)
    }

    /// Closes a viewer: its rows go to its neighbour, and the caret and the selection go with it.
    pub fn close(&mut self, viewer: u32) -> Result<(), Refusal>
        ensures { IsStep self.old (λ i. ask i (arrange (Close viewer))) (done_reply result) self.new }
    {
        self.windows.close(&self.texts, viewer)
    }

    /// Moves the top of a viewer to a row, and with it the bottom of the one above.
    pub fn move_top(&mut self, viewer: u32, row: usize) -> Result<(), Refusal>
        ensures { IsStep self.old (λ i. ask i (arrange (Move viewer row))) (done_reply result) self.new }
    {
        self.windows.move_top(&self.texts, viewer, row)
    }

    /// Begins a viewer with another line, counted from 0; past the last one, with that.
    pub fn scroll(&mut self, viewer: u32, line: u64) -> Result<(), Refusal>
        ensures { IsStep self.old (λ i. ask i (arrange (Scroll viewer line))) (done_reply result) self.new }
    {
        self.windows.scroll(&self.texts, viewer, line)
    }

    /// Sets the caret into a cell below a viewer's menu.
    pub fn point(&mut self, col: usize, row: usize) -> Result<(), Refusal>
        ensures { IsStep self.old (λ i. ask i (arrange (Point (record { col = col; row = row })))) (done_reply result) self.new }
    {
        self.windows.point(&self.texts, col, row)
    }

    /// Selects what a viewer shows from one cell to another, each told by its column and its row.
    pub fn select(&mut self, beg: (usize, usize), end: (usize, usize)) -> Result<(), Refusal>
        ensures { IsStep self.old (λ i. ask i (arrange (Select (record { col = beg.0; row = beg.1 })
            (record { col = end.0; row = end.1 })))) (done_reply result) self.new }
    {
        self.windows.select(&self.texts, beg, end)
    }

    /// The lines that are printed of the screen: a row for each view. Refused `OutOfMemory` alone.
    pub fn view(&self, asked: View) -> Result<Vec<u8>, Refusal>
        ensures step { IsStep self.now (λ i. ask i (print asked)) (print_reply result (λ lines. lines.items)) self.now }
        ensures errors { RefusedForMemoryAlone result }
    {
        match asked {
            View::Views => self.windows.views(&self.texts),
            View::Marks => self.windows.marks(&self.texts),
            View::Show => self.windows.show(&self.texts),
        }
    }

    /// The lines that tell where caret and selection stand. Refused `OutOfMemory` alone.
    pub fn marks(&self) -> Result<Vec<u8>, Refusal>
        ensures step { IsStep self.now (λ i. ask i (print View.Marks)) (print_reply result (λ lines. lines.items)) self.now }
        ensures errors { RefusedForMemoryAlone result }
    {
        self.view(View::Marks)
    }

    /// The lines of the viewers. Refused `OutOfMemory` alone.
    pub fn views(&self) -> Result<Vec<u8>, Refusal>
        ensures step { IsStep self.now (λ i. ask i (print View.Views)) (print_reply result (λ lines. lines.items)) self.now }
        ensures errors { RefusedForMemoryAlone result }
    {
        self.view(View::Views)
    }

    /// The screen's rows of cells. Refused `OutOfMemory` alone.
    pub fn show(&self) -> Result<Vec<u8>, Refusal>
        ensures step { IsStep self.now (λ i. ask i (print View.Show)) (print_reply result (λ lines. lines.items)) self.now }
        ensures errors { RefusedForMemoryAlone result }
    {
        self.view(View::Show)
    }

    /// Types bytes of default looks at the caret, which stands after the last that came in then.
    ///
    /// Refused `NoCaret` where there is none, else as `type_in` is. More than 2^24 bytes are refused alike.
    pub fn key(&mut self, bytes: &[u8], outbox: &mut Outbox) -> Result<u32, EditRefusal>
        ensures step { length bytes.now ≤ MAX_FILE → IsEditStep self.old
            (λ i. ask i (insert_at_caret (map (λ b. (b, plain_looks)) bytes.now))) result self.new outbox.old outbox.new }
        ensures long { MAX_FILE < length bytes.now
            → (result ≡ Err (Whole (if is_none self.old.screen.caret then NoCaret else FileSpent)))
            × (self.new ≡ self.old) × (outbox.new ≡ outbox.old) }
    {
        if MAX_FILE < bytes.len() as u64 {
            return Err(EditRefusal::Whole(self.too_long_to_key()));
        }
        self.insert_at_caret(Insertion::Bytes(bytes), outbox)
    }

    // Why more bytes than a file has room for aren't typed at the caret.
    fn too_long_to_key(&self) -> Refusal
        ensures { result ≡ (if is_none self.now.screen.caret then NoCaret else FileSpent) }
    {
        if self.windows.has_caret() {
            Refusal::FileSpent
        } else {
            Refusal::NoCaret
        }
    }
}
