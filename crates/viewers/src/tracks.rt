ghost use Rattle.std.specs.Prelude.{◌≡◌, ◌<◌, ◌≤◌, length};
ghost use Rattle.viewers.specs.Screen.{area_in, area_of, blank_tracks, seats_of, viewer_at};
ghost use Rattle.viewers.specs.Screen.{after_close, after_closing, after_move, after_moving, after_open};
ghost use Rattle.viewers.specs.Screen.{close_answer, closing, move_answer, moving, open_answer, with_seats};
ghost use Rattle.viewers.specs.Tracks.{Covers, can_open, seat_index, rows};

use crate::screen::{Area, Track};
use crate::seats::{
    MAX_HEIGHT, MAX_SEATS, MAX_WIDTH, MIN_HEIGHT, MIN_WIDTH, Seat, can_move, can_open, close,
    divide, holder, move_border, seat_at, seat_index, top, viewer_in,
};
use arrayvec::ArrayVec;
use looks::Refusal;
use std::marker::Model;

// The rows of two tracks, divided among viewers.
#[derive(Drop)]
pub(crate) struct Tracks {
    width: usize,
    height: usize,
    user: ArrayVec<Seat, MAX_SEATS>,
    system: ArrayVec<Seat, MAX_SEATS>,
}

impl Model for Tracks {
    ghost use Rattle.viewers.specs.Screen.{IsScreen, ScreenSeen};

    ghost Value = { ScreenSeen };

    ghost view = { λ s. record { width = s.width; height = s.height; user = s.user.items; system = s.system.items } };

    ghost invariant = { λ s. IsScreen (record { width = s.width; height = s.height; user = s.user.items; system = s.system.items }) };
}

// The cells of the viewer of a track that has these columns.
fn area_in(seats: &[Seat], viewer: u32, col: usize, width: usize) -> Area
    requires there { seat_index seats.now viewer < length seats.now }
    requires few { rows seats.now ≤ MAX_HEIGHT }
    ensures { result ≡ area_in seats.now viewer col width }
{
    let index = seat_index(seats, viewer);
    let height = seat_at(seats, index).height;
    Area {
        col,
        top: top(seats, index),
        width,
        height,
    }
}

// Moves the top of a viewer of a track to the row.
#[tactic(auto, using(crate::proofs::Covering::few_rows, crate::proofs::Covering::moved_covers))]
fn move_in(
    seats: &mut ArrayVec<Seat, MAX_SEATS>,
    height: usize,
    viewer: u32,
    row: usize,
) -> Result<(), Refusal>
    requires covered { Covers height seats.old.items }
    requires low { height ≤ MAX_HEIGHT }
    requires on_screen { row < height }
    ensures value { result ≡ move_answer seats.old.items viewer row }
    ensures after { seats.new.items ≡ after_move seats.old.items viewer row }
    ensures covered { Covers height seats.new.items }
{
    let index = seat_index(seats.as_slice(), viewer);
    if seats.len() <= index {
        return Err(Refusal::NoViewer);
    }
    if !can_move(seats.as_slice(), index, row) {
        return Err(Refusal::NoRoom);
    }
    move_border(seats, index, row);
    Ok(())
}

// Closes a viewer of a track.
#[tactic(auto, using(crate::proofs::Covering::few_rows, crate::proofs::Covering::closed_covers))]
fn close_in(
    seats: &mut ArrayVec<Seat, MAX_SEATS>,
    height: usize,
    viewer: u32,
) -> Result<(), Refusal>
    requires covered { Covers height seats.old.items }
    requires low { height ≤ MAX_HEIGHT }
    ensures value { result ≡ close_answer seats.old.items viewer }
    ensures after { seats.new.items ≡ after_close seats.old.items viewer }
    ensures covered { Covers height seats.new.items }
{
    let index = seat_index(seats.as_slice(), viewer);
    if seats.len() <= index {
        return Err(Refusal::NoViewer);
    }
    close(seats, index);
    Ok(())
}

// Opens a viewer at the row of a track.
#[tactic(auto, using(crate::proofs::Covering::few_rows, crate::proofs::Covering::row_there, crate::proofs::Covering::one_covers, crate::proofs::Covering::room_to_open, crate::proofs::Covering::opened_there, crate::proofs::Covering::opened_covers, crate::proofs::Covering::four_rows, crate::proofs::Rows::holder_there))]
fn open_in(
    seats: &mut ArrayVec<Seat, MAX_SEATS>,
    height: usize,
    viewer: u32,
    row: usize,
) -> Result<(), Refusal>
    requires covered { Covers height seats.old.items }
    requires low { height ≤ MAX_HEIGHT }
    requires high { MIN_HEIGHT ≤ height }
    requires on_screen { row < height }
    ensures value { result ≡ open_answer seats.old.items row }
    ensures after { seats.new.items ≡ after_open height seats.old.items viewer row }
    ensures covered { Covers height seats.new.items }
{
    if !can_open(seats.as_slice(), row) {
        return Err(Refusal::NoRoom);
    }
    if seats.is_empty() {
        seats.push(Seat {
            number: viewer,
            height,
        });
        return Ok(());
    }
    let index = holder(seats.as_slice(), row);
    divide(seats, viewer, index, row);
    Ok(())
}

impl Tracks {
    // Two blank tracks.
    #[tactic(auto, using(crate::proofs::Covering::blank))]
    pub fn new(width: usize, height: usize) -> Tracks
        requires wide { MIN_WIDTH ≤ width }
        requires narrow { width ≤ MAX_WIDTH }
        requires high { MIN_HEIGHT ≤ height }
        requires low { height ≤ MAX_HEIGHT }
        ensures { result ≡ blank_tracks width height }
    {
        Tracks {
            width,
            height,
            user: ArrayVec::new(),
            system: ArrayVec::new(),
        }
    }

    pub fn width(&self) -> usize
        ensures { result ≡ self.now.width }
    {
        self.width
    }

    pub fn height(&self) -> usize
        ensures { result ≡ self.now.height }
    {
        self.height
    }

    // The seats of a track, from the top down.
    pub fn seats(&self, track: Track) -> &[Seat]
        ensures { result.now ≡ seats_of self.now track }
    {
        match track {
            Track::User => self.user.as_slice(),
            Track::System => self.system.as_slice(),
        }
    }

    // The viewer at a column and a row; `None` in a blank track, and past the width.
    #[tactic(auto, using(crate::proofs::Covering::row_there))]
    pub fn at(&self, col: usize, row: usize) -> Option<u32>
        requires { row < self.now.height }
        ensures { result ≡ viewer_at self.now col row }
    {
        if col < self.width / 8 * 5 {
            viewer_in(self.user.as_slice(), row)
        } else if col < self.width {
            viewer_in(self.system.as_slice(), row)
        } else {
            None
        }
    }

    // The cells of a viewer; `None` for a number that isn't on the screen.
    #[tactic(auto, using(crate::proofs::Covering::few_rows))]
    pub fn area(&self, viewer: u32) -> Option<Area>
        ensures { result ≡ area_of self.now viewer }
    {
        let border = self.width / 8 * 5;
        let user = self.user.as_slice();
        let system = self.system.as_slice();
        if seat_index(user, viewer) < user.len() {
            return Some(area_in(user, viewer, 0, border));
        }
        if seat_index(system, viewer) < system.len() {
            return Some(area_in(system, viewer, border, self.width - border));
        }
        None
    }

    // Whether a viewer may open at a row of a track: the viewer there has four rows, or the track is blank.
    #[tactic(auto, using(crate::proofs::Covering::row_there))]
    pub fn fits(&self, track: Track, row: usize) -> bool
        requires { row < self.now.height }
        ensures { result ≡ can_open (seats_of self.now track) row }
    {
        match track {
            Track::User => can_open(self.user.as_slice(), row),
            Track::System => can_open(self.system.as_slice(), row),
        }
    }

    // Closes a viewer: its rows go to the one above it, those of the topmost to the one below, and with the last viewer
    // the track is blank.
    //
    // Refused `NoViewer` for a number that isn't on the screen. Nothing is changed then.
    pub fn close(&mut self, viewer: u32) -> Result<(), Refusal>
        ensures value { result ≡ closing self.old viewer }
        ensures after { self.new ≡ after_closing self.old viewer }
    {
        if seat_index(self.user.as_slice(), viewer) < self.user.len() {
            close_in(&mut self.user, self.height, viewer)
        } else {
            close_in(&mut self.system, self.height, viewer)
        }
    }

    // Moves the top of a viewer to a row, and with it the bottom of the one above.
    //
    // Refused, in this order, `NoViewer` for a number that isn't on the screen, and `NoRoom` for the topmost viewer
    // and where one of the two would keep fewer than two rows. Nothing is changed then.
    pub fn move_top(&mut self, viewer: u32, row: usize) -> Result<(), Refusal>
        requires { row < self.old.height }
        ensures value { result ≡ moving self.old viewer row }
        ensures after { self.new ≡ after_moving self.old viewer row }
    {
        if seat_index(self.user.as_slice(), viewer) < self.user.len() {
            move_in(&mut self.user, self.height, viewer, row)
        } else {
            move_in(&mut self.system, self.height, viewer, row)
        }
    }

    // Opens a viewer of this number at a row of a track: it takes the rows from there to the bottom of the viewer that
    // has the row, where each of the two keeps two rows at least. The first viewer of a track takes all rows.
    //
    // Refused `NoRoom` where the viewer that has the row has fewer than four rows. Nothing is changed then.
    pub fn open(&mut self, track: Track, viewer: u32, row: usize) -> Result<(), Refusal>
        requires { row < self.old.height }
        ensures value { result ≡ open_answer (seats_of self.old track) row }
        ensures after { self.new
            ≡ with_seats self.old track (after_open self.old.height (seats_of self.old track) viewer row) }
    {
        match track {
            Track::User => open_in(&mut self.user, self.height, viewer, row),
            Track::System => open_in(&mut self.system, self.height, viewer, row),
        }
    }
}
