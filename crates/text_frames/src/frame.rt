ghost use Rattle.std.specs.Prelude.{◌≡◌, ◌+◌, ◌<◌, ◌≤◌, length, slice_get, IfOk, IfSome, IsTrue, ◌↔◌};
ghost use Rattle.std.specs.List.{AllPass};
ghost use Rattle.looks.specs.Refusal.{RefusedForMemoryAlone};
ghost use Rattle.char_files.specs.declared.name.Anchor.TheVariants.{Root};
ghost use Rattle.line_drawing.specs.Lines.{beg_of};
ghost use Rattle.line_drawing.specs.Rows.{place_of};
ghost use Rattle.list_changes.specs.Changes.{Leads};
ghost use Rattle.taken_text.specs.Noted.{SameChar};
ghost use Rattle.texts.specs.Laws.{KeepsTheOrder};
ghost use Rattle.texts.specs.Text.{IsAnchor, IsText};
ghost use Rattle.texts.specs.TextState.{TextState, shown_of};
ghost use Rattle.machine.specs.Windows.{bytes_shown, line_anchor, position_in, row_from_anchor};
ghost use Rattle.text_frames.specs.Frames.{AreRows, IsDrawn, ReadsOnce, drawing_reads, is_quiet_for, last_row, leaves_rows, replaces};
ghost use Rattle.text_frames.specs.Reading.{counted};

use crate::MAX_ROWS;
use crate::drawing::{begin_of_line, draw};
use crate::reading::CountingReader;
use crate::rows::DrawnRow;
use char_files::Anchor;
use line_drawing::located;
use list_changes::{Change, ChangeKind, all_quiet};
use looks::Refusal;
use std::alloc::Global;
use std::marker::Model;
use texts::Replica;
use viewers::MAX_WIDTH;

/// Rows of cells that show a text from the line of a character on (Project Oberon, chapter 5). The line is told by a
/// character, which stays where positions move.
#[derive(Drop)]
pub struct Frame {
    anchor: Anchor,
    width: usize,
    rows: Vec<DrawnRow>,
    full: bool,
    reads: u64,
    all_reads: u64,
}

impl Model for Frame {
    ghost use Rattle.std.specs.Prelude.{◌≤◌, vec_capacity};
    ghost use Rattle.text_frames.specs.Frames.{FrameSeen, AreRows};
    ghost use Rattle.viewers.specs.declared.seats.TheConstants.{MAX_WIDTH};
    ghost use Rattle.text_frames.specs.declared.TheConstants.{MAX_ROWS};

    ghost Value = { FrameSeen };

    ghost view = { λ f. record {
      anchor = f.anchor;
      width = f.width;
      rows = f.rows.items;
      full = f.full;
      reads = f.reads;
      all_reads = f.all_reads;
    } };

    ghost invariant = { λ f. AreRows f.width f.rows.items × (MAX_ROWS ≤ vec_capacity f.rows) };
}

// Whether each change replaces.
fn are_replaces(changes: &[Change]) -> bool
    ensures { IsTrue result ↔ AllPass (λ change. replaces change.kind) changes.now }
{
    changes
        .iter()
        .all(|change| change.kind == ChangeKind::Replace)
}

// Whether each change leaves rows as they are.
fn leave_rows(rows: &[DrawnRow], full: bool, changes: &[Change]) -> bool
    requires { 0 < length rows.now }
    ensures { IsTrue result ↔ AllPass (leaves_rows full (last_row rows.now).end) changes.now }
{
    if full {
        let last = &rows[rows.len() - 1];
        all_quiet(changes, last.end)
    } else {
        are_replaces(changes)
    }
}

impl Frame {
    /// A frame at the begin of a text, drawn. It reserves all rows that it can have; no other call takes memory.
    /// Refused `OutOfMemory` alone.
    pub fn fresh(
        alloc: Global,
        replica: &Replica,
        width: usize,
        rows: usize,
    ) -> Result<Frame, Refusal>
        requires wide { 1 ≤ width }
        requires narrow { width ≤ MAX_WIDTH }
        requires high { 1 ≤ rows }
        requires low { rows ≤ MAX_ROWS }
        ensures anchor { IfOk result (λ f. f.anchor ≡ Root) }
        ensures width { IfOk result (λ f. f.width ≡ width) }
        ensures rows { IfOk result (λ f. length f.rows ≡ rows) }
        ensures drawn { IfOk result (λ f. IsDrawn f replica.now) }
        ensures reads { IfOk result (λ f. f.reads ≡ counted (drawing_reads replica.now f)) }
        ensures all_reads { IfOk result (λ f. f.all_reads ≡ f.reads) }
        ensures errors { RefusedForMemoryAlone result }
    {
        let mut drawn = Vec::with_capacity(alloc, MAX_ROWS)?;
        let mut text = CountingReader::of(replica);
        let full = draw(&mut drawn, &mut text, Anchor::Root, width, rows);
        Ok(Frame {
            anchor: Anchor::Root,
            width,
            rows: drawn,
            full,
            reads: text.count(),
            all_reads: text.count(),
        })
    }

    /// A law: it has 1 to `MAX_ROWS` rows, each as wide as the frame, which has 1 to `MAX_WIDTH` columns. A proof gets it by
    /// calling this, at no cost.
    pub fn lemma_are_rows(&self)
        ensures { AreRows self.now.width self.now.rows }
    {
        let _ = &self.width;
    }

    /// The character whose line is the first.
    pub fn anchor(&self) -> Anchor
        ensures { result ≡ self.now.anchor }
    {
        self.anchor
    }

    /// How many columns it has, 1 to `MAX_WIDTH`.
    pub fn width(&self) -> usize
        ensures { result ≡ self.now.width }
    {
        self.width
    }

    /// How many rows it has, 1 to `MAX_ROWS`.
    pub fn len(&self) -> usize
        ensures { result ≡ length self.now.rows }
    {
        self.rows.len()
    }

    /// How many characters the last `fresh`, `update`, `resize` or `scroll` read from the text; at 2^64-1 it stays there.
    pub fn reads(&self) -> u64
        ensures { result ≡ self.now.reads }
    {
        self.reads
    }

    /// How many characters were read for this frame since it was made; at 2^64-1 it stays there.
    pub fn all_reads(&self) -> u64
        ensures { result ≡ self.now.all_reads }
    {
        self.all_reads
    }

    // Draws so many rows of a text anew, and keeps how many characters its reader has counted by then.
    fn redraw(&mut self, text: &mut CountingReader<'_>, rows: usize)
        requires high { 1 ≤ rows }
        requires low { rows ≤ MAX_ROWS }
        ensures anchor { self.new.anchor ≡ self.old.anchor }
        ensures width { self.new.width ≡ self.old.width }
        ensures rows { length self.new.rows ≡ rows }
        ensures drawn { IsAnchor text.old.text.operations self.old.anchor → IsDrawn self.new text.old.text }
        ensures reads { IsAnchor text.old.text.operations self.old.anchor
            → text.new.reads ≡ counted (text.old.reads + drawing_reads text.old.text self.new) }
        ensures kept { self.new.reads ≡ text.new.reads }
        ensures all_reads { self.new.all_reads ≡ counted (self.old.all_reads + text.new.reads) }
    {
        self.full = draw(&mut self.rows, text, self.anchor, self.width, rows);
        self.reads = text.count();
        self.all_reads = self.all_reads.saturating_add(text.count());
    }

    // Follows changes of a text; where it reads nothing, that is what it has read.
    fn follow(&mut self, text: &mut CountingReader<'_>, changes: &[Change])
        requires unread { text.old.reads ≡ 0 }
        ensures anchor { self.new.anchor ≡ self.old.anchor }
        ensures width { self.new.width ≡ self.old.width }
        ensures rows { length self.new.rows ≡ length self.old.rows }
        ensures drawn { (t : TextState) → IsText t → IsDrawn self.old t → KeepsTheOrder t text.old.text
            → IsAnchor text.old.text.operations self.old.anchor
            → Leads SameChar changes.now (shown_of t) (shown_of text.old.text) → IsDrawn self.new text.old.text }
        ensures quiet { AllPass (is_quiet_for self.old) changes.now
            → (self.new ≡ record self.old { reads = 0 }) × (text.new ≡ text.old) }
        ensures anew { ¬ AllPass (is_quiet_for self.old) changes.now
            → IsAnchor text.old.text.operations self.old.anchor → ReadsOnce text.old.text self.old self.new }
        ensures kept { self.new.reads ≡ text.new.reads }
    {
        text.lemma_is_text();
        if leave_rows(self.rows.as_slice(), self.full, changes) {
            self.reads = text.count();
        } else {
            let count = self.rows.len();
            self.redraw(text, count);
        }
    }

    // Begins with another line of a text, and draws it anew.
    fn begin_with(&mut self, text: &mut CountingReader<'_>, line: u64)
        requires unread { text.old.reads ≡ 0 }
        ensures anchor { self.new.anchor ≡ line_anchor text.old.text line }
        ensures width { self.new.width ≡ self.old.width }
        ensures rows { length self.new.rows ≡ length self.old.rows }
        ensures drawn { IsDrawn self.new text.old.text }
        ensures reads { text.new.reads
            ≡ counted (beg_of (bytes_shown text.old.text) line + drawing_reads text.old.text self.new) }
        ensures kept { self.new.reads ≡ text.new.reads }
        ensures all_reads { self.new.all_reads ≡ counted (self.old.all_reads + text.new.reads) }
    {
        text.lemma_is_text();
        let beg = begin_of_line(text, line);
        self.anchor = text.anchor_after(beg);
        let count = self.rows.len();
        self.redraw(text, count);
    }

    /// Follows changes of its text. A frame that showed the text as it was shows it as it is now, where the changes lead from
    /// what was shown to what is shown now, the characters stand in the order in which they stood, and the frame's own is
    /// still one of them.
    ///
    /// Where each change replaces, or lies after the lines of a frame whose rows each hold a line, the rows stay and nothing
    /// is read; else they are drawn anew.
    pub fn update(&mut self, replica: &Replica, changes: &[Change])
        ensures anchor { self.new.anchor ≡ self.old.anchor }
        ensures width { self.new.width ≡ self.old.width }
        ensures rows { length self.new.rows ≡ length self.old.rows }
        ensures drawn { (t : TextState) → IsText t → IsDrawn self.old t → KeepsTheOrder t replica.now
            → IsAnchor replica.now.operations self.old.anchor
            → Leads SameChar changes.now (shown_of t) (shown_of replica.now) → IsDrawn self.new replica.now }
        ensures quiet { AllPass (is_quiet_for self.old) changes.now → self.new ≡ record self.old { reads = 0 } }
        ensures anew { ¬ AllPass (is_quiet_for self.old) changes.now
            → IsAnchor replica.now.operations self.old.anchor → ReadsOnce replica.now self.old self.new }
    {
        self.follow(&mut CountingReader::of(replica), changes);
    }

    /// Gives the frame another height, and draws it anew.
    pub fn resize(&mut self, replica: &Replica, rows: usize)
        requires high { 1 ≤ rows }
        requires low { rows ≤ MAX_ROWS }
        ensures anchor { self.new.anchor ≡ self.old.anchor }
        ensures width { self.new.width ≡ self.old.width }
        ensures rows { length self.new.rows ≡ rows }
        ensures drawn { IsAnchor replica.now.operations self.old.anchor → IsDrawn self.new replica.now }
        ensures reads { IsAnchor replica.now.operations self.old.anchor → ReadsOnce replica.now self.old self.new }
    {
        self.redraw(&mut CountingReader::of(replica), rows);
    }

    /// Begins with another line, counted from 0; past the last one, with that. It is drawn anew.
    pub fn scroll(&mut self, replica: &Replica, line: u64)
        ensures anchor { self.new.anchor ≡ line_anchor replica.now line }
        ensures width { self.new.width ≡ self.old.width }
        ensures rows { length self.new.rows ≡ length self.old.rows }
        ensures drawn { IsDrawn self.new replica.now }
        ensures reads { self.new.reads
            ≡ counted (beg_of (bytes_shown replica.now) line + drawing_reads replica.now self.new) }
        ensures all_reads { self.new.all_reads ≡ counted (self.old.all_reads + self.new.reads) }
    {
        self.begin_with(&mut CountingReader::of(replica), line);
    }

    /// The position of the cell in this column of a row, both counted from 0: that of its character, or past the line's last
    /// one that of the line's end.
    pub fn locate(&self, col: usize, row: usize) -> u64
        requires in_rows { row < length self.now.rows }
        requires in_columns { col < self.now.width }
        ensures kept { IfSome (slice_get self.now.rows row) (λ r. result ≡ place_of r.beg r.end col) }
        ensures placed { (t : TextState) → IsDrawn self.now t
            → result ≡ position_in t self.now.anchor self.now.width col row }
    {
        let row = &self.rows[row];
        located(row.beg, row.end, col as u64)
    }

    /// Copies the cells of a row, counted from 0.
    pub fn row(&self, i: usize, cells: &mut [u8])
        requires in_rows { i < length self.now.rows }
        requires wide { length cells.old ≡ self.now.width }
        ensures kept { IfSome (slice_get self.now.rows i) (λ r. cells.new ≡ r.cells) }
        ensures shown { (t : TextState) → IsDrawn self.now t
            → cells.new ≡ (row_from_anchor t self.now.anchor self.now.width i).cells }
    {
        let row = &self.rows[i];
        cells.copy_from_slice(row.cells.as_slice());
    }
}
