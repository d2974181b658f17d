ghost use Rattle.std.specs.Prelude.{◌≡◌, ◌<◌, ◌≤◌, Some as Just, None as Nothing, IfOk, IfSome, OnErr};
ghost use Rattle.std.specs.Prelude.{map};
ghost use Rattle.std.specs.Borrow.{sem};
ghost use Rattle.std.specs.Option.{option_copied, option_copied_mut};
ghost use Rattle.looks.specs.Refusal.{RefusedForMemoryAlone};
ghost use Rattle.viewers.specs.Screen.{area_of, moving, seats_of, viewer_at};
ghost use Rattle.viewers.specs.Viewers.{AreViewers, after_opening, blank, close_result, content_of, has_room, index_of};
ghost use Rattle.viewers.specs.Tracks.{row_for};
ghost use Rattle.viewers.specs.Viewers.{open_result, with_top, without_viewer};

use crate::seats::{MAX_HEIGHT, MAX_VIEWERS, MAX_WIDTH, MIN_HEIGHT, MIN_WIDTH, Seat, default_row};
use crate::tracks::Tracks;
use arrayvec::ArrayVec;
use looks::Refusal;
use std::alloc::Global;
use std::marker::Model;

/// One of the two tracks of a screen (Project Oberon, chapter 4).
#[derive(Clone, Copy, Debug, PartialEq, Eq)]
pub enum Track {
    /// The left one.
    User,
    /// The right one.
    System,
}

/// The cells of a viewer: its first column and row, and how many of each.
#[derive(Clone, Copy, Debug, PartialEq, Eq)]
pub struct Area {
    pub col: usize,
    pub top: usize,
    pub width: usize,
    pub height: usize,
}

/// Two tracks of viewers, each with a content of its own.
#[derive(Drop)]
pub struct Screen<C> {
    tracks: Tracks,
    next: u64,
    // The numbers of the viewers, in order of opening, and beside them what they show.
    numbers: ArrayVec<u32, MAX_VIEWERS>,
    contents: Vec<C>,
}

impl<C> Model for Screen<C> {
    ghost use Rattle.std.specs.Prelude.{◌≡◌, ◌≤◌, length, vec_capacity, zip};
    ghost use Rattle.viewers.specs.declared.seats.TheConstants.{MAX_VIEWERS};
    ghost use Rattle.viewers.specs.Viewers.{AreNumbered, ViewersSeen};

    ghost Value = { ViewersSeen C };

    ghost view = { λ s. record {
      tracks = s.tracks;
      next = s.next;
      contents = zip s.numbers.items s.contents.items;
    } };

    ghost invariant = { λ s. AreNumbered s.tracks s.next s.numbers.items
        × (length s.contents.items ≡ length s.numbers.items) × (MAX_VIEWERS ≤ vec_capacity s.contents) };
}

// The index of a number in a list; the length where it isn't there.
fn index_of(numbers: &[u32], number: u32) -> usize
    ensures { result ≡ index_of numbers.now number }
{
    for index in 0..numbers.len() {
        if numbers[index] == number {
            return index;
        }
    }
    numbers.len()
}

impl<C> Screen<C> {
    ghost use Rattle.viewers.specs.Lends.{lends_content, lends_contents};

    /// Two blank tracks. It alone takes memory: room for all viewers. Refused `OutOfMemory` alone.
    pub fn new(alloc: Global, width: usize, height: usize) -> Result<Screen<C>, Refusal>
        requires wide { MIN_WIDTH ≤ width }
        requires narrow { width ≤ MAX_WIDTH }
        requires high { MIN_HEIGHT ≤ height }
        requires low { height ≤ MAX_HEIGHT }
        ensures ok { IfOk result (λ s. s ≡ blank width height) }
        ensures errors { RefusedForMemoryAlone result }
    {
        let contents = Vec::with_capacity(alloc, MAX_VIEWERS)?;
        Ok(Screen {
            tracks: Tracks::new(width, height),
            next: 1,
            numbers: ArrayVec::new(),
            contents,
        })
    }

    /// A law: each viewer has one seat and one content, and numbers rise. A proof gets it by calling this, at no cost.
    pub fn lemma_are_viewers(&self)
        ensures { AreViewers self.now }
    {
        let _ = &self.next;
    }

    /// How many columns it has.
    pub fn width(&self) -> usize
        ensures { result ≡ self.now.tracks.width }
    {
        self.tracks.width()
    }

    /// How many rows it has.
    pub fn height(&self) -> usize
        ensures { result ≡ self.now.tracks.height }
    {
        self.tracks.height()
    }

    /// The seats of a track, from the top down.
    pub fn seats(&self, track: Track) -> &[Seat]
        ensures { result.now ≡ seats_of self.now.tracks track }
    {
        self.tracks.seats(track)
    }

    /// The viewer at a column and a row; `None` in a blank track, and past the width.
    pub fn at(&self, col: usize, row: usize) -> Option<u32>
        requires { row < self.now.tracks.height }
        ensures { result ≡ viewer_at self.now.tracks col row }
    {
        self.tracks.at(col, row)
    }

    /// The cells of a viewer; `None` for a number that isn't on the screen.
    pub fn area(&self, viewer: u32) -> Option<Area>
        ensures { result ≡ area_of self.now.tracks viewer }
    {
        self.tracks.area(viewer)
    }

    /// Whether a viewer may open at a row of a track, or where none is named.
    pub fn fits(&self, track: Track, row: Option<usize>) -> bool
        requires { IfSome row (λ y. y < self.now.tracks.height) }
        ensures { result ≡ has_room self.now track row }
    {
        let row = match row {
            Some(row) => row,
            None => self.default_row(track),
        };
        self.next <= u64::from(u32::MAX) && self.tracks.fits(track, row)
    }

    /// Opens a viewer at a row of a track, under the next number: it takes the rows from there to the bottom of the viewer that
    /// has the row, where each of the two keeps two rows at least. The first viewer of a track takes all rows.
    ///
    /// Refused `NoRoom` where the viewer that has the row has fewer than four rows, and where no number below 2^32 is left.
    /// Nothing is changed then, and the content comes back.
    pub fn open(&mut self, track: Track, row: usize, content: C) -> Result<u32, (C, Refusal)>
        requires { row < self.old.tracks.height }
        ensures value { result ≡ open_result self.old track (Just row) content }
        ensures after { self.new ≡ after_opening self.old track (Just row) content }
    {
        let Ok(number) = u32::try_from(self.next) else {
            return Err((content, Refusal::NoRoom));
        };
        if let Err(refusal) = self.tracks.open(track, number, row) {
            return Err((content, refusal));
        }
        self.next += 1;
        self.numbers.push(number);
        self.contents.push_reserved(content);
        Ok(number)
    }

    /// Opens a viewer in the middle of a track's tallest one, the topmost of equals. Refused as `open` is.
    pub fn open_default(&mut self, track: Track, content: C) -> Result<u32, (C, Refusal)>
        ensures value { result ≡ open_result self.old track Nothing content }
        ensures after { self.new ≡ after_opening self.old track Nothing content }
    {
        let row = self.default_row(track);
        self.open(track, row, content)
    }

    // The row at which a viewer opens where none is named.
    fn default_row(&self, track: Track) -> usize
        ensures value { result ≡ row_for (seats_of self.now.tracks track) Nothing }
        ensures bound { result < self.now.tracks.height }
    {
        default_row(self.tracks.seats(track))
    }

    /// Closes a viewer, and gives what it showed: its rows go to the viewer above it, those of the topmost to the one below,
    /// and with the last viewer the track is blank.
    ///
    /// Refused `NoViewer` for a number that isn't on the screen. Nothing is changed then.
    pub fn close(&mut self, viewer: u32) -> Result<C, Refusal>
        ensures value { result ≡ close_result self.old viewer }
        ensures after { self.new ≡ without_viewer self.old viewer }
        ensures err { OnErr result (self.new ≡ self.old) }
    {
        self.tracks.close(viewer)?;
        let index = index_of(self.numbers.as_slice(), viewer);
        self.numbers.remove(index);
        Ok(self.contents.remove(index))
    }

    /// Moves the top of a viewer to a row, and with it the bottom of the one above.
    ///
    /// Refused, in this order, `NoViewer` for a number that isn't on the screen, and `NoRoom` for the topmost viewer
    /// and where one of the two would keep fewer than two rows. Nothing is changed then.
    pub fn move_top(&mut self, viewer: u32, row: usize) -> Result<(), Refusal>
        requires { row < self.old.tracks.height }
        ensures value { result ≡ moving self.old.tracks viewer row }
        ensures after { self.new ≡ with_top self.old viewer row }
    {
        self.tracks.move_top(viewer, row)
    }

    /// What a viewer shows; `None` for a number that isn't on the screen.
    pub fn content_at(&self, viewer: u32) -> Option<&C>
        ensures { option_copied result ≡ content_of self.now.contents viewer }
    {
        let index = index_of(self.numbers.as_slice(), viewer);
        self.contents.get(index)
    }

    /// The same, to be changed.
    pub fn content(&mut self, viewer: u32) -> Option<&mut C>
        ensures* writes_back { sem 𝓛 (lends_content C.row self.entry viewer result) }
        ensures value { option_copied_mut result ≡ content_of self.old.contents viewer }
    {
        let index = index_of(self.numbers.as_slice(), viewer);
        self.contents.get_mut(index)
    }

    /// What all viewers show, in order of opening, to be changed.
    pub fn contents_mut(&mut self) -> &mut [C]
        ensures* writes_back { sem 𝓛 (lends_contents C.row self.entry result) }
        ensures value { result.now ≡ map (λ entry. entry.1) self.old.contents }
    {
        self.contents.as_mut_slice()
    }
}
