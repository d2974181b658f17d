ghost use Rattle.std.specs.Prelude.{◌≡◌, ◌+◌, ◌-◌, ◌<◌, ◌≤◌, length, drop, slice_index};
ghost use Rattle.texts.specs.Edit.{anchor_before};
ghost use Rattle.texts.specs.Text.{IsAnchor, IsText};
ghost use Rattle.texts.specs.TextState.{shown_of};
ghost use Rattle.machine.specs.Windows.{bytes_shown, place_in};
ghost use Rattle.text_frames.specs.Reading.{GivesNext, counted};

use crate::drawing::place_of;
use char_files::Anchor;
use line_drawing::LINE_END;
use std::marker::Model;
use texts::{Replica, Shown};

/// A text that is read, and how many characters of it were. It alone holds the text, and hands out its characters one by
/// one, by `byte_at` and `next_byte`, each of which adds one, up to the greatest `u64`. Whatever draws is given this,
/// and no replica.
#[derive(Drop)]
pub(crate) struct CountingReader<'a> {
    replica: &'a Replica,
    // What is left to walk over; none before a first `go_to`.
    walk: Option<Shown<'a>>,
    reads: u64,
}

impl<'a> Model for CountingReader<'a> {
    ghost use Rattle.text_frames.specs.Reading.{ReaderSeen, left_of};

    ghost Value = { ReaderSeen };

    ghost view = { λ r. record { text = r.replica.now; left = left_of r.walk; reads = r.reads } };
}

impl<'a> CountingReader<'a> {
    // A reader that has read nothing.
    pub(crate) fn of(replica: &'a Replica) -> CountingReader<'a>
        ensures text { result.text ≡ replica.now }
        ensures reads { result.reads ≡ 0 }
    {
        CountingReader {
            replica,
            walk: None,
            reads: 0,
        }
    }

    // How many characters were read.
    pub(crate) fn count(&self) -> u64
        ensures { result ≡ self.now.reads }
    {
        self.reads
    }

    // A law: the text is what its operations define.
    pub(crate) fn lemma_is_text(&self)
        ensures { IsText self.now.text }
    {
        self.replica.lemma_is_text();
    }

    // How many characters are shown.
    pub(crate) fn shown_len(&self) -> u64
        ensures { result ≡ length (shown_of self.now.text) }
    {
        self.replica.shown_len()
    }

    // How many shown characters are the anchor or stand before it; 0 for one that isn't here.
    pub(crate) fn place_of(&self, anchor: Anchor) -> u64
        ensures place { IsAnchor self.now.text.operations anchor → result ≡ place_in self.now.text anchor }
        ensures within { result ≤ length (shown_of self.now.text) }
    {
        place_of(self.replica, anchor)
    }

    // The name of the character shown before a position, or the root.
    pub(crate) fn anchor_after(&self, pos: u64) -> Anchor
        requires { pos ≤ length (shown_of self.now.text) }
        ensures { result ≡ anchor_before (shown_of self.now.text) pos }
    {
        self.replica.anchor_after(pos)
    }

    // Counts one character that is read.
    fn add_one(&mut self)
        ensures { self.new ≡ record self.old { reads = counted (self.old.reads + 1) } }
    {
        self.reads = self.reads.saturating_add(1);
    }

    // Reads the byte of the character at a position, and counts it.
    pub(crate) fn byte_at(&mut self, pos: u64) -> u8
        requires { pos < length (shown_of self.old.text) }
        ensures value { result ≡ slice_index (bytes_shown self.old.text) pos }
        ensures reads { self.new ≡ record self.old { reads = counted (self.old.reads + 1) } }
    {
        self.add_one();
        self.replica.attributes(pos).0
    }

    // Begins to walk at a position.
    pub(crate) fn go_to(&mut self, pos: u64)
        requires { pos ≤ length (shown_of self.old.text) }
        ensures left { self.new.left ≡ drop pos (shown_of self.old.text) }
        ensures text { self.new.text ≡ self.old.text }
        ensures reads { self.new.reads ≡ self.old.reads }
    {
        let len = self.replica.shown_len();
        self.walk = Some(self.replica.shown_between(pos, len));
    }

    // Reads the next byte of the walk's line, and counts it; `None` for the 0DH that ends the line, which is counted too, and
    // after the last character, where nothing is read.
    pub(crate) fn next_byte(&mut self) -> Option<u8>
        ensures next { GivesNext self.old.left result self.new.left }
        ensures text { self.new.text ≡ self.old.text }
        ensures reads { self.new.reads ≡ counted (self.old.reads + (length self.old.left - length self.new.left)) }
    {
        // A count is in range.
        let _reads = self.reads;
        let char = self.walk.as_mut()?.next()?;
        self.add_one();
        if char.byte == LINE_END {
            return None;
        }
        Some(char.byte)
    }
}
