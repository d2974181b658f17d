//! Caret and selection, set by cells of the screen.

ghost use Rattle.std.specs.Prelude.{◌≡◌, ◌+◌, ◌≤◌, None as Nothing, length, max, min, option_map, slice_get};
ghost use Rattle.machine.specs.Windows.{arranged, selected_from};
ghost use Rattle.machine.specs.declared.asked.Arrangement.TheVariants.{Point, Select};
ghost use Rattle.texts.specs.TextState.{shown_of};
ghost use Rattle.desk_windows.specs.Pointing.{IsClicked, IsInWindow, IsTargetIn, IsPointed, spot_of};
ghost use Rattle.desk_windows.specs.Windows.{AreOf, ComesTo, screened};

use crate::window::Window;
use crate::windows::Windows;
use char_files::{Anchor, Name, TextNo};
use desk_texts::Texts;
use looks::Refusal;
use text_frames::{Caret, Selection};
use texts::Replica;
use viewers::Area;

/// Where a cell of a viewer stands: at a position of its menu's text, or of the text that it shows.
#[derive(Clone, Copy)]
pub enum CellTarget {
    Menu(u64),
    Text(u64),
}

/// What a click meets: a viewer, the number of its text, and where the cell stands in it.
#[derive(Clone, Copy)]
pub struct Clicked {
    pub viewer: u32,
    pub text: TextNo,
    pub place: CellTarget,
}

// A position of the text that a viewer shows.
#[derive(Clone, Copy)]
pub(crate) struct Spot {
    pub(crate) viewer: u32,
    pub(crate) text: TextNo,
    pub(crate) pos: u64,
}

// The name of the character shown at a position; `None` after the last one.
fn name_at(replica: &Replica, pos: u64) -> Option<Name>
    ensures { result ≡ option_map (λ c. c.name) (slice_get (shown_of replica.now) pos) }
{
    if replica.shown_len() <= pos {
        return None;
    }
    match replica.anchor_after(pos + 1) {
        Anchor::At(name) => Some(name),
        Anchor::Root => None,
    }
}

// What is selected from the smaller of two positions to the greater one, with the character there; `None` where none is shown
// at the smaller one.
fn between(replica: &Replica, viewer: u32, pos: u64, other: u64) -> Option<Selection>
    ensures { result ≡ selected_from viewer replica.now (min pos other)
        (min (max pos other + 1) (length (shown_of replica.now))) }
{
    let last_shown = replica.shown_len().saturating_sub(1);
    let first = name_at(replica, pos.min(other));
    let last = name_at(replica, pos.max(other).min(last_shown));
    match (first, last) {
        (Some(first), Some(last)) => Some(Selection {
            viewer,
            first,
            last,
        }),
        _ => None,
    }
}

// Where a cell of a viewer with this area stands in it.
fn cell_target(window: &Window, area: &Area, col: usize, row: usize) -> CellTarget
    requires { IsInWindow area.now window.now col row }
    ensures { IsTargetIn area.now window.now col row result }
{
    let col = col - area.col;
    if row == area.top {
        return CellTarget::Menu(col as u64);
    }
    CellTarget::Text(window.frame.locate(col, row - area.top - 1))
}

impl Windows {
    /// What a click into a cell meets; `None` in a blank track and outside the screen.
    pub fn clicked(&self, texts: &Texts, col: usize, row: usize) -> Option<Clicked>
        requires { AreOf texts.now self.now }
        ensures meets { IsClicked texts.now self.now col row result }
        ensures points { IsPointed texts.now self.now col row (spot_of result) }
    {
        self.viewers.lemma_are_viewers();
        if self.viewers.height() <= row {
            return None;
        }
        let Some(viewer) = self.viewers.at(col, row) else {
            return None;
        };
        let Some(area) = self.viewers.area(viewer) else {
            return None;
        };
        let Some(window) = self.viewers.content_at(viewer) else {
            return None;
        };
        Some(Clicked {
            viewer,
            text: window.text,
            place: cell_target(window, &area, col, row),
        })
    }

    // The position that a cell below a viewer's menu stands for; `None` for a cell of a menu, of a blank track and outside
    // the screen.
    fn pointed(&self, texts: &Texts, col: usize, row: usize) -> Option<Spot>
        requires { AreOf texts.now self.now }
        ensures { IsPointed texts.now self.now col row result }
    {
        let Some(at) = self.clicked(texts, col, row) else {
            return None;
        };
        match at.place {
            CellTarget::Menu(_) => None,
            CellTarget::Text(pos) => Some(Spot {
                viewer: at.viewer,
                text: at.text,
                pos,
            }),
        }
    }

    /// Sets the caret into a cell below a viewer's menu: after the character before the cell's, or at the text's begin.
    ///
    /// Refused `NoViewer` for a cell of a menu, of a blank track and outside the screen. Nothing is changed then.
    pub fn point(&mut self, texts: &Texts, col: usize, row: usize) -> Result<(), Refusal>
        requires { AreOf texts.now self.old }
        ensures comes { ComesTo (arranged texts.now (screened self.old) (Point (record { col = col; row = row })))
            self.old (λ _. Nothing) result self.new }
        ensures of { AreOf texts.now self.new }
    {
        let Some(spot) = self.pointed(texts, col, row) else {
            return Err(Refusal::NoViewer);
        };
        let replica = texts.replica(spot.text);
        replica.lemma_is_text();
        let anchor = replica.anchor_after(spot.pos);
        self.caret = Some(Caret {
            viewer: spot.viewer,
            anchor,
        });
        Ok(())
    }

    /// Selects what a viewer shows from one cell below its menu to another: from the smaller of their positions to the
    /// greater one, with the character there.
    ///
    /// Refused, in this order, `NoViewer` for a cell of a menu, of a blank track and outside the screen, and for cells of two
    /// viewers, and `OutOfRange` where both stand after the text's last character. Nothing is changed then.
    pub fn select(
        &mut self,
        texts: &Texts,
        beg: (usize, usize),
        end: (usize, usize),
    ) -> Result<(), Refusal>
        requires { AreOf texts.now self.old }
        ensures comes { ComesTo (arranged texts.now (screened self.old) (Select (record { col = beg.0; row = beg.1 }) (record { col = end.0; row = end.1 })))
            self.old (λ _. Nothing) result self.new }
        ensures of { AreOf texts.now self.new }
    {
        let Some(from) = self.pointed(texts, beg.0, beg.1) else {
            return Err(Refusal::NoViewer);
        };
        let Some(to) = self.pointed(texts, end.0, end.1) else {
            return Err(Refusal::NoViewer);
        };
        if from.viewer != to.viewer {
            return Err(Refusal::NoViewer);
        }
        let replica = texts.replica(from.text);
        replica.lemma_is_text();
        let Some(selection) = between(replica, from.viewer, from.pos, to.pos) else {
            return Err(Refusal::OutOfRange);
        };
        self.selected = Some(selection);
        Ok(())
    }
}
