//! A site's viewers and its screen, as answers print them.

ghost use Rattle.std.specs.Prelude.{◌≡◌, ◌+◌, ◌<◌, ◌++◌, length, IfOk, OnOk};
ghost use Rattle.looks.specs.Refusal.{RefusedForMemoryAlone};
ghost use Rattle.viewers.specs.Screen.{seats_of};
ghost use Rattle.machine.specs.ScreenPrinting.{screen_line, screen_lines, track_lines, viewer_line, views_lines};
ghost use Rattle.desk_windows.specs.Printing.{IsRowHeld, cells_in, column_of, over, seat_lines, track_name, viewer_row};
ghost use Rattle.desk_windows.specs.Windows.{AreOf, ShowTexts, screened, width_of};

use crate::marks::put_spaced;
use crate::window::Window;
use crate::windows::{Windows, track_width};
use command_words::menu_text;
use desk_texts::Texts;
use line_drawing::draw_line;
use looks::Refusal;
use std::alloc::AllocError;
use viewers::{MAX_WIDTH, Screen, Seat, Track};

// A track's name.
fn name_of(track: Track) -> &'static [u8]
    ensures { result.now ≡ track_name track }
{
    match track {
        Track::User => b"user",
        Track::System => b"system",
    }
}

// Appends a viewer's line. After an `Err` of this and of the others that append, some of it may stand there.
fn put_viewer(
    out: &mut Vec<u8>,
    track: Track,
    seat: Seat,
    top: u64,
    text: u64,
) -> Result<(), AllocError>
    ensures { OnOk result (out.new.items ≡ out.old.items ++ viewer_line (track_name track) seat top text) }
{
    out.extend_from_slice(b"viewer")?;
    put_spaced(out, &[u64::from(seat.number)])?;
    out.push(b' ')?;
    out.extend_from_slice(name_of(track))?;
    put_spaced(out, &[top, seat.height as u64, text])?;
    out.push(b'\n')?;
    Ok(())
}

// Appends the line of the viewer of a seat.
fn put_seat(
    out: &mut Vec<u8>,
    viewers: &Screen<Window>,
    texts: &Texts,
    track: Track,
    seat: Seat,
    top: u64,
) -> Result<(), AllocError>
    requires { ShowTexts texts.now viewers.now }
    ensures { OnOk result (out.new.items
        ≡ out.old.items ++ seat_lines texts.now viewers.now (track_name track) top seat) }
{
    match viewers.content_at(seat.number) {
        Some(window) => put_viewer(out, track, seat, top, u64::from(window.text.get())),
        None => Ok(()),
    }
}

// Appends the lines of a track's viewers.
fn put_track(
    out: &mut Vec<u8>,
    viewers: &Screen<Window>,
    texts: &Texts,
    track: Track,
) -> Result<(), AllocError>
    requires { ShowTexts texts.now viewers.now }
    ensures { OnOk result (out.new.items ≡ out.old.items
        ++ track_lines texts.now (over viewers.now) (track_name track) 0 (seats_of viewers.now.tracks track)) }
{
    viewers.lemma_are_viewers();
    let mut top = 0;
    for seat in viewers.seats(track) {
        put_seat(out, viewers, texts, track, *seat, top)?;
        top += seat.height as u64;
    }
    Ok(())
}

// Draws a row of a viewer, the menu being row 0.
fn draw_viewer(cells: &mut [u8], window: &Window, number: u32, row: usize)
    requires below { row < 1 + length window.now.frame.rows }
    requires wide { length cells.old ≡ window.now.frame.width }
    ensures { cells.new ≡ viewer_row number window.now row }
{
    if row == 0 {
        draw_line(cells, menu_text(number, window.text.get()).as_slice());
    } else {
        window.frame.row(row - 1, cells);
    }
}

// The first column of a track.
fn first_column(width: usize, track: Track) -> usize
    ensures { result ≡ column_of width track }
{
    match track {
        Track::User => 0,
        Track::System => track_width(width, Track::User),
    }
}

// The viewer that has a row of a track, and which of its rows that is; `None` in a blank track.
fn holder(viewers: &Screen<Window>, track: Track, row: usize) -> Option<(u32, usize)>
    requires { row < viewers.now.tracks.height }
    ensures { IsRowHeld viewers.now track row result }
{
    viewers.lemma_are_viewers();
    let col = first_column(viewers.width(), track);
    let Some(number) = viewers.at(col, row) else {
        return None;
    };
    let Some(area) = viewers.area(number) else {
        return None;
    };
    Some((number, row - area.top))
}

// Draws a row of a track.
fn draw_track(cells: &mut [u8], viewers: &Screen<Window>, texts: &Texts, track: Track, row: usize)
    requires shown { ShowTexts texts.now viewers.now }
    requires below { row < viewers.now.tracks.height }
    requires wide { length cells.old ≡ width_of viewers.now.tracks.width track }
    ensures { cells.new ≡ cells_in texts.now viewers.now track row }
{
    let Some((number, line)) = holder(viewers, track, row) else {
        draw_line(cells, b"");
        return;
    };
    match viewers.content_at(number) {
        Some(window) => draw_viewer(cells, window, number, line),
        None => draw_line(cells, b""),
    }
}

// Appends a row of a track.
fn put_row(
    out: &mut Vec<u8>,
    viewers: &Screen<Window>,
    texts: &Texts,
    track: Track,
    row: usize,
) -> Result<(), AllocError>
    requires shown { ShowTexts texts.now viewers.now }
    requires below { row < viewers.now.tracks.height }
    ensures { OnOk result (out.new.items ≡ out.old.items ++ cells_in texts.now viewers.now track row) }
{
    viewers.lemma_are_viewers();
    let mut room = [0; MAX_WIDTH];
    let cells = &mut room[..track_width(viewers.width(), track)];
    draw_track(cells, viewers, texts, track, row);
    out.extend_from_slice(cells)
}

// Appends a row of the screen.
fn put_line(
    out: &mut Vec<u8>,
    viewers: &Screen<Window>,
    texts: &Texts,
    row: usize,
) -> Result<(), AllocError>
    requires shown { ShowTexts texts.now viewers.now }
    requires below { row < viewers.now.tracks.height }
    ensures { OnOk result (out.new.items ≡ out.old.items ++ screen_line texts.now (over viewers.now) row) }
{
    out.push(b'|')?;
    put_row(out, viewers, texts, Track::User, row)?;
    put_row(out, viewers, texts, Track::System, row)?;
    out.extend_from_slice(b"|\n")
}

impl Windows {
    /// The lines of its viewers: those of the user track, then those of the system track, from the top. Refused
    /// `OutOfMemory` alone.
    pub fn views(&self, texts: &Texts) -> Result<Vec<u8>, Refusal>
        requires { AreOf texts.now self.now }
        ensures ok { IfOk result (λ lines. lines.items ≡ views_lines texts.now (screened self.now)) }
        ensures errors { RefusedForMemoryAlone result }
    {
        let mut lines = Vec::new(self.alloc);
        put_track(&mut lines, &self.viewers, texts, Track::User)?;
        put_track(&mut lines, &self.viewers, texts, Track::System)?;
        lines.extend_from_slice(b"ok\n")?;
        Ok(lines)
    }

    /// Its rows of cells from the top, each between two bars. Refused `OutOfMemory` alone.
    pub fn show(&self, texts: &Texts) -> Result<Vec<u8>, Refusal>
        requires { AreOf texts.now self.now }
        ensures ok { IfOk result (λ lines. lines.items ≡ screen_lines texts.now (screened self.now)) }
        ensures errors { RefusedForMemoryAlone result }
    {
        let mut lines = Vec::new(self.alloc);
        for row in 0..self.viewers.height() {
            put_line(&mut lines, &self.viewers, texts, row)?;
        }
        Ok(lines)
    }
}
