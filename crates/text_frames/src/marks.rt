ghost use Rattle.std.specs.Prelude.{◌≡◌, ◌↔◌, IsTrue};
ghost use Rattle.texts.specs.Text.{IsAnchor};
ghost use Rattle.tree_order.specs.Tree.{IsChar};
ghost use Rattle.machine.specs.Windows.{place_before, place_in};
ghost use Rattle.text_frames.specs.Marks.{range_in};

use crate::drawing::place_of;
use char_files::{Anchor, Name};
use std::marker::Model;
use texts::Replica;

/// Where the next character is typed: in a viewer, after a character of its text or at the text's begin (Project Oberon,
/// chapter 5).
#[derive(Clone, Copy, Debug, PartialEq, Eq)]
pub struct Caret {
    /// The viewer's number.
    pub viewer: u32,
    /// The character before the caret, or the root. It may be hidden.
    pub anchor: Anchor,
}

impl Model for Caret {
    ghost use Rattle.machine.specs.Windows.{Caret as Seen};

    ghost Value = { Seen };

    ghost view = { λ c. record { viewer = c.viewer; anchor = c.anchor } };

    ghost inverse = { λ c. record { viewer = c.viewer; anchor = c.anchor } };
}

impl Caret {
    /// How many shown characters stand before the caret.
    pub fn place(&self, replica: &Replica) -> u64
        requires { IsAnchor replica.now.operations self.now.anchor }
        ensures { result ≡ place_in replica.now self.now.anchor }
    {
        place_of(replica, self.anchor)
    }
}

/// What is selected in a viewer: what its text shows from one character to another, both included (Project Oberon,
/// chapter 5).
#[derive(Clone, Copy, Debug, PartialEq, Eq)]
pub struct Selection {
    /// The viewer's number.
    pub viewer: u32,
    /// The first character selected. It may be hidden.
    pub first: Name,
    /// The last one. It may be hidden.
    pub last: Name,
}

impl Model for Selection {
    ghost use Rattle.machine.specs.Windows.{Selected};

    ghost Value = { Selected };

    ghost view = { λ s. record { viewer = s.viewer; first = s.first; last = s.last } };

    ghost inverse = { λ s. record { viewer = s.viewer; first = s.first; last = s.last } };
}

// Whether both are the same.
fn are_same(anchor: &Anchor, other: &Anchor) -> bool
    ensures { IsTrue result ↔ (anchor.now ≡ other.now) }
{
    anchor == other
}

// How many shown characters stand before this one.
fn place_before(replica: &Replica, name: Name) -> u64
    requires { IsChar replica.now.operations name }
    ensures { result ≡ place_before replica.now name }
{
    replica.lemma_is_text();
    let place = place_of(replica, Anchor::At(name));
    if are_same(&replica.anchor_after(place), &Anchor::At(name)) {
        place - 1
    } else {
        place
    }
}

impl Selection {
    /// The positions of what is shown of it: where it begins, and one past its last character. `None` where none of it is
    /// shown.
    pub fn range(&self, replica: &Replica) -> Option<(u64, u64)>
        requires first { IsChar replica.now.operations self.now.first }
        requires last { IsChar replica.now.operations self.now.last }
        ensures { result ≡ range_in replica.now self.now }
    {
        let beg = place_before(replica, self.first);
        let end = place_of(replica, Anchor::At(self.last));
        (beg < end).then_some((beg, end))
    }
}
