ghost use Rattle.std.specs.Prelude.{◌≡◌, ◌+◌, ◌-◌, ◌<◌, ◌≤◌, ◌⊎◌, [], IsTrue, None as Nothing, length};
ghost use Rattle.viewers.specs.Tracks.{AreTall, bottom, can_move, can_open, closed, divided, height_at, holder, moved, seat_index};
ghost use Rattle.viewers.specs.Tracks.{row_for, rows, seat_at, tallest, top, viewer_in, with_height};

use arrayvec::ArrayVec;

/// The fewest columns of a screen.
pub const MIN_WIDTH: usize = 20;

/// The most columns of a screen.
pub const MAX_WIDTH: usize = 200;

/// The fewest rows of a screen.
pub const MIN_HEIGHT: usize = 8;

/// The most rows of a screen.
pub const MAX_HEIGHT: usize = 100;

/// The most viewers of a track: each has two rows at least.
pub const MAX_SEATS: usize = 50;

/// The most viewers of a screen: those of two tracks.
pub const MAX_VIEWERS: usize = 100;

/// A viewer's number, and how many rows it has.
#[derive(Clone, Copy, Debug, Default, PartialEq, Eq)]
pub struct Seat {
    pub number: u32,
    /// Rows, 2 or more on a screen.
    pub height: usize,
}

// The index of the seat that has the row; their count below the last one.
pub(crate) fn holder(seats: &[Seat], row: usize) -> usize
    ensures value { result ≡ holder seats.now row }
    ensures bound { result ≤ length seats.now }
{
    let mut left = row;
    for index in 0..seats.len() {
        if left < seats[index].height {
            return index;
        }
        left -= seats[index].height;
    }
    seats.len()
}

// The index of the viewer's seat; their count where it has none.
pub(crate) fn seat_index(seats: &[Seat], number: u32) -> usize
    ensures value { result ≡ seat_index seats.now number }
    ensures bound { result ≤ length seats.now }
{
    for index in 0..seats.len() {
        if seats[index].number == number {
            return index;
        }
    }
    seats.len()
}

// The first row of the seat at an index.
#[tactic(auto, using(crate::proofs::Rows::next_top, crate::proofs::Rows::next_bound, crate::proofs::Rows::top_bound))]
pub(crate) fn top(seats: &[Seat], index: usize) -> usize
    requires there { index ≤ length seats.now }
    requires few { rows seats.now ≤ MAX_HEIGHT }
    ensures value { result ≡ top seats.now index }
    ensures bound { result ≤ rows seats.now }
{
    let mut top = 0;
    for before in 0..index {
        top += seats[before].height;
    }
    top
}

// The seat at an index.
#[tactic(auto, using(crate::proofs::Rows::same_seat))]
pub(crate) fn seat_at(seats: &[Seat], index: usize) -> Seat
    requires { index < length seats.now }
    ensures { result ≡ seat_at seats.now index }
{
    seats[index]
}

// Another height for the seat at an index.
fn set_height(seats: &mut [Seat], index: usize, height: usize)
    requires { index < length seats.old }
    ensures { seats.new ≡ with_height seats.old index height }
{
    let number = seat_at(seats, index).number;
    seats[index] = Seat { number, height };
}

// The viewer that has the row; `None` in a blank track.
#[tactic(auto, using(crate::proofs::Rows::holder_there))]
pub(crate) fn viewer_in(seats: &[Seat], row: usize) -> Option<u32>
    requires { (seats.now ≡ []) ⊎ (row < rows seats.now) }
    ensures { result ≡ viewer_in seats.now row }
{
    if seats.is_empty() {
        return None;
    }
    Some(seat_at(seats, holder(seats, row)).number)
}

// Whether a viewer may open at the row.
#[tactic(auto, using(crate::proofs::Rows::holder_there))]
pub(crate) fn can_open(seats: &[Seat], row: usize) -> bool
    requires { (seats.now ≡ []) ⊎ (row < rows seats.now) }
    ensures { result ≡ can_open seats.now row }
{
    seats.is_empty() || 4 <= seat_at(seats, holder(seats, row)).height
}

// The index of the tallest seat, the topmost of equals.
fn tallest(seats: &[Seat]) -> usize
    ensures value { result ≡ tallest seats.now }
    ensures bound { (0 < length seats.now) → result < length seats.now }
{
    let mut best = 0;
    for index in 1..seats.len() {
        if seats[best].height < seats[index].height {
            best = index;
        }
    }
    best
}

// The row at which a viewer opens where none is named: the middle of the tallest one.
#[tactic(auto, using(crate::proofs::Rows::next_bound, crate::proofs::Covering::tall_at))]
pub(crate) fn default_row(seats: &[Seat]) -> usize
    requires tall { AreTall seats.now }
    requires few { rows seats.now ≤ MAX_HEIGHT }
    ensures value { result ≡ row_for seats.now Nothing }
    ensures bound { (0 < length seats.now) → result < rows seats.now }
{
    if seats.is_empty() {
        return 0;
    }
    let index = tallest(seats);
    top(seats, index) + seat_at(seats, index).height / 2
}

// Divides the rows of the seat at an index: the new viewer takes those from the cut on.
#[tactic(auto, using(crate::proofs::Rows::next_bound, crate::proofs::Rows::top_bound))]
pub(crate) fn divide(seats: &mut ArrayVec<Seat, MAX_SEATS>, number: u32, index: usize, row: usize)
    requires there { index < length seats.old.items }
    requires room { length seats.old.items < MAX_SEATS }
    requires few { rows seats.old.items ≤ MAX_HEIGHT }
    requires tall { 4 ≤ height_at seats.old.items index }
    ensures { seats.new.items ≡ divided seats.old.items number index row }
{
    let first = top(seats.as_slice(), index);
    let bottom = first + seat_at(seats.as_slice(), index).height;
    let cut = row.max(first + 2).min(bottom - 2);
    set_height(seats.as_mut_slice(), index, cut - first);
    let height = bottom - cut;
    seats.insert(index + 1, Seat { number, height });
}

// Whether the top of the seat at an index may move to the row.
#[tactic(auto, using(crate::proofs::Rows::next_bound, crate::proofs::Rows::top_bound))]
pub(crate) fn can_move(seats: &[Seat], index: usize, row: usize) -> bool
    requires there { index < length seats.now }
    requires few { rows seats.now ≤ MAX_HEIGHT }
    requires on_screen { row < MAX_HEIGHT }
    ensures value { result ≡ can_move seats.now index row }
    ensures room { IsTrue result → (0 < index) × (top seats.now (index - 1) + 2 ≤ row)
        × (row + 2 ≤ bottom seats.now index) }
{
    if index == 0 {
        return false;
    }
    let bottom = top(seats, index) + seat_at(seats, index).height;
    top(seats, index - 1) + 2 <= row && row + 2 <= bottom
}

// Moves the top of the seat at an index to the row.
#[tactic(auto, using(crate::proofs::Rows::next_bound, crate::proofs::Rows::top_bound))]
pub(crate) fn move_border(seats: &mut ArrayVec<Seat, MAX_SEATS>, index: usize, row: usize)
    requires there { index < length seats.old.items }
    requires few { rows seats.old.items ≤ MAX_HEIGHT }
    requires lower { 0 < index }
    requires above { top seats.old.items (index - 1) + 2 ≤ row }
    requires below { row + 2 ≤ bottom seats.old.items index }
    ensures { seats.new.items ≡ moved seats.old.items index row }
{
    let first = top(seats.as_slice(), index - 1);
    let bottom = top(seats.as_slice(), index) + seat_at(seats.as_slice(), index).height;
    set_height(seats.as_mut_slice(), index - 1, row - first);
    set_height(seats.as_mut_slice(), index, bottom - row);
}

// Takes the seat at an index out, and gives its rows to the one above, or below where it is the topmost.
#[tactic(auto, using(crate::proofs::Rows::height_bound))]
pub(crate) fn close(seats: &mut ArrayVec<Seat, MAX_SEATS>, index: usize)
    requires there { index < length seats.old.items }
    requires few { rows seats.old.items ≤ MAX_HEIGHT }
    ensures { seats.new.items ≡ closed seats.old.items index }
{
    let heir = if index == 0 { 1 } else { index - 1 };
    if heir < seats.len() {
        let kept = seat_at(seats.as_slice(), heir).height;
        let height = kept + seat_at(seats.as_slice(), index).height;
        set_height(seats.as_mut_slice(), heir, height);
    }
    seats.remove(index);
}
