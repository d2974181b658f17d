ghost use Rattle.std.specs.Prelude.{◌≡◌, ◌<◌, ◌≤◌, ◌==◌, IfOk, IfSome, Some as Just, None as Nothing, if◌then◌else◌};
ghost use Rattle.std.specs.Option.{option_and_then};
ghost use Rattle.looks.specs.Refusal.{RefusedForMemoryAlone};
ghost use Rattle.looks.specs.declared.refusal.Refusal.TheVariants.{NoRoom};
ghost use Rattle.viewers.specs.Viewers.{after_opening, has_room};
ghost use Rattle.machine.specs.SiteTexts.{SiteTexts, InText, IsTextOf};
ghost use Rattle.machine.specs.Windows.{arranged, blank_screen, is_open, is_row_below};
ghost use Rattle.machine.specs.declared.asked.Arrangement.TheVariants.{Close, Move, Open, Scroll};
ghost use Rattle.texts.specs.TextState.{TextState};
ghost use Rattle.desk_windows.specs.Windows.{AreOf, AreToldOnce, ComesTo, ComesToOrShort, FollowsChanges, IsTextShown, screened, width_of};

use crate::fitting::fit_all;
use crate::telling::tell_each;
use crate::window::Window;
use char_files::TextNo;
use desk_texts::Texts;
use list_changes::Change;
use looks::Refusal;
use machine::MAX_TEXT;
use std::alloc::Global;
use std::marker::Model;
use text_frames::{Caret, Frame, Selection};
use viewers::{MAX_HEIGHT, MAX_WIDTH, MIN_HEIGHT, MIN_WIDTH, Screen, Track};

/// The windows of a site's viewers over its texts, its caret, and what is selected.
#[derive(Drop)]
pub struct Windows {
    pub(crate) viewers: Screen<Window>,
    pub(crate) caret: Option<Caret>,
    pub(crate) selected: Option<Selection>,
    pub(crate) alloc: Global,
}

impl Model for Windows {
    ghost use Rattle.desk_windows.specs.Windows.{WindowsSeen};

    ghost Value = { WindowsSeen };

    ghost view = { λ w. record { viewers = w.viewers; caret = w.caret; selected = w.selected } };
}

// A caret, unless it stands in this viewer.
fn caret_without(caret: Option<Caret>, viewer: u32) -> Option<Caret>
    ensures { result ≡ option_and_then (λ c. if c.viewer == viewer then Nothing else Just c) caret }
{
    match caret {
        Some(caret) if caret.viewer == viewer => None,
        other => other,
    }
}

// A selection, unless it stands in this viewer.
fn selection_without(selected: Option<Selection>, viewer: u32) -> Option<Selection>
    ensures { result ≡ option_and_then (λ s. if s.viewer == viewer then Nothing else Just s) selected }
{
    match selected {
        Some(selected) if selected.viewer == viewer => None,
        other => other,
    }
}

// The columns of a track of a screen of this width.
pub(crate) fn track_width(width: usize, track: Track) -> usize
    ensures { result ≡ width_of width track }
{
    let border = width / 8 * 5;
    match track {
        Track::User => border,
        Track::System => width - border,
    }
}

// Opens a viewer at a row, or where none is named.
fn open_at(
    viewers: &mut Screen<Window>,
    track: Track,
    row: Option<usize>,
    window: Window,
) -> Result<u32, Refusal>
    requires { IfSome row (λ y. y < viewers.old.tracks.height) }
    ensures value { result
        ≡ (if has_room viewers.old track row then Ok viewers.old.next else Err NoRoom) }
    ensures after { viewers.new ≡ after_opening viewers.old track row window }
{
    let opened = match row {
        Some(row) => viewers.open(track, row, window),
        None => viewers.open_default(track, window),
    };
    match opened {
        Ok(number) => Ok(number),
        Err((_window, why)) => Err(why),
    }
}

impl Windows {
    /// Two blank tracks, no caret, and nothing selected. Refused `OutOfMemory` alone.
    pub fn new(alloc: Global, width: usize, height: usize) -> Result<Windows, Refusal>
        requires wide { MIN_WIDTH ≤ width }
        requires narrow { width ≤ MAX_WIDTH }
        requires high { MIN_HEIGHT ≤ height }
        requires low { height ≤ MAX_HEIGHT }
        ensures ok { IfOk result (λ w. screened w ≡ blank_screen width height) }
        ensures of { IfOk result (λ w. (d : SiteTexts) → AreOf d w) }
        ensures errors { RefusedForMemoryAlone result }
    {
        Ok(Windows {
            viewers: Screen::new(alloc, width, height)?,
            caret: None,
            selected: None,
            alloc,
        })
    }

    // Whether a row that is named lies below the screen.
    fn is_below(&self, row: Option<usize>) -> bool
        ensures { result ≡ is_row_below (screened self.now) row }
    {
        match row {
            Some(row) => self.viewers.height() <= row,
            None => false,
        }
    }

    // Whether a viewer stands on the screen.
    fn is_open(&self, viewer: u32) -> bool
        ensures { result ≡ is_open (screened self.now) viewer }
    {
        self.viewers.area(viewer).is_some()
    }

    /// The number of the text that a viewer shows; `None` for a viewer that isn't on the screen.
    pub fn text_of(&self, viewer: u32) -> Option<TextNo>
        ensures text { (d : SiteTexts) → AreOf d self.now → IsTextShown d self.now viewer result }
        ensures on_desk { (d : SiteTexts) → AreOf d self.now → IfSome result (λ text. text ≤ MAX_TEXT) }
    {
        match self.viewers.content_at(viewer) {
            Some(window) => Some(window.text),
            None => None,
        }
    }

    /// Opens a viewer of a text at a row of a track; where no row is named, in the middle of the track's tallest viewer.
    ///
    /// Refused, in this order, `OutOfRange` for a row below the screen, `NoRoom` where the viewer there has fewer than four
    /// rows or no number is left, and `OutOfMemory`. Nothing is changed then.
    pub fn open(
        &mut self,
        texts: &Texts,
        track: Track,
        text: TextNo,
        row: Option<usize>,
    ) -> Result<u32, Refusal>
        requires on_desk { text ≤ MAX_TEXT }
        requires of { AreOf texts.now self.old }
        ensures comes { ComesToOrShort (arranged texts.now (screened self.old) (Open track text row))
            self.old (λ v. Just v) result self.new }
        ensures of { AreOf texts.now self.new }
    {
        self.viewers.lemma_are_viewers();
        if self.is_below(row) {
            return Err(Refusal::OutOfRange);
        }
        if !self.viewers.fits(track, row) {
            return Err(Refusal::NoRoom);
        }
        let width = track_width(self.viewers.width(), track);
        let frame = Frame::fresh(self.alloc, texts.replica(text), width, 1)?;
        let number = open_at(&mut self.viewers, track, row, Window { text, frame })?;
        fit_all(&mut self.viewers, texts);
        Ok(number)
    }

    /// Closes a viewer: its rows go to its neighbour, and the caret and the selection go with it.
    ///
    /// Refused `NoViewer` for a number that isn't on the screen. Nothing is changed then.
    pub fn close(&mut self, texts: &Texts, viewer: u32) -> Result<(), Refusal>
        requires { AreOf texts.now self.old }
        ensures comes { ComesTo (arranged texts.now (screened self.old) (Close viewer))
            self.old (λ _. Nothing) result self.new }
        ensures of { AreOf texts.now self.new }
    {
        self.viewers.lemma_are_viewers();
        let _window = self.viewers.close(viewer)?;
        self.caret = caret_without(self.caret, viewer);
        self.selected = selection_without(self.selected, viewer);
        fit_all(&mut self.viewers, texts);
        Ok(())
    }

    /// Moves the top of a viewer to a row, and with it the bottom of the one above.
    ///
    /// Refused, in this order, `NoViewer` for a number that isn't on the screen, `OutOfRange` for a row below the screen, and
    /// `NoRoom` for the topmost viewer and where one of the two would keep fewer than two rows. Nothing is changed then.
    pub fn move_top(&mut self, texts: &Texts, viewer: u32, row: usize) -> Result<(), Refusal>
        requires { AreOf texts.now self.old }
        ensures comes { ComesTo (arranged texts.now (screened self.old) (Move viewer row))
            self.old (λ _. Nothing) result self.new }
        ensures of { AreOf texts.now self.new }
    {
        if !self.is_open(viewer) {
            return Err(Refusal::NoViewer);
        }
        if self.viewers.height() <= row {
            return Err(Refusal::OutOfRange);
        }
        self.viewers.move_top(viewer, row)?;
        fit_all(&mut self.viewers, texts);
        Ok(())
    }

    /// Begins a viewer with another line, counted from 0; past the last one, with that.
    ///
    /// Refused `NoViewer` for a number that isn't on the screen. Nothing is changed then.
    pub fn scroll(&mut self, texts: &Texts, viewer: u32, line: u64) -> Result<(), Refusal>
        requires { AreOf texts.now self.old }
        ensures comes { ComesTo (arranged texts.now (screened self.old) (Scroll viewer line))
            self.old (λ _. Nothing) result self.new }
        ensures of { AreOf texts.now self.new }
    {
        let Some(window) = self.viewers.content(viewer) else {
            return Err(Refusal::NoViewer);
        };
        window.scroll(texts, line);
        Ok(())
    }

    /// Tells each window of a text of what changed in it. Where the windows showed a site's texts, of which this one alone
    /// has changed since, and so, they show them as they are now. A window that only quiet changes reach reads nothing, and any
    /// other of the text reads what it takes to draw it once.
    pub fn tell(&mut self, texts: &Texts, text: TextNo, changes: &[Change])
        requires { text ≤ MAX_TEXT }
        ensures screen { screened self.new ≡ screened self.old }
        ensures of { (d : SiteTexts) → AreOf d self.old → InText (FollowsChanges changes.now) d text texts.now
            → AreOf texts.now self.new }
        ensures once { (now : TextState) × IsTextOf texts.now text now
            × AreToldOnce text changes.now now self.old.viewers self.new.viewers }
    {
        let replica = texts.replica(text);
        tell_each(self.viewers.contents_mut(), replica, text, changes);
    }
}
