//! A stretch as the pieces that are inserted one by one.

ghost use Rattle.std.specs.Prelude.{◌≡◌, ◌≤◌, length};
ghost use Rattle.std.specs.Iterator.{YieldsFirst, item_count};
ghost use Rattle.texts.specs.Edit.{pieces_of};

use char_files::{Buffer, LooksRun};
use looks::Looks;
use operations::MAX_INSERT;
use std::marker::Model;

/// Neighbouring characters of equal looks, 1 to 4,096 of them.
#[derive(Drop)]
pub(crate) struct Piece<'a> {
    pub(crate) looks: &'a Looks,
    pub(crate) bytes: &'a [u8],
}

impl<'a> Model for Piece<'a> {
    ghost use Rattle.std.specs.Prelude.{◌<◌, ◌≤◌, length};
    ghost use Rattle.char_files.specs.Stretch.{Stretch};
    ghost use Rattle.operations.specs.declared.kind.TheConstants.{MAX_INSERT};

    ghost Value = { Stretch };

    ghost view = { λ p. record { looks = p.looks.now; bytes = p.bytes.now } };

    ghost invariant = { λ p. (0 < length p.bytes.now) × (length p.bytes.now ≤ MAX_INSERT) };
}

/// The pieces of a stretch, one after the other, without memory: seen as the list of those that are left.
#[derive(Drop)]
pub(crate) struct Pieces<'a> {
    runs: &'a [LooksRun],
    // How many bytes of the first run are read.
    read: usize,
}

impl<'a> Model for Pieces<'a> {
    ghost use Rattle.std.specs.Prelude.{List};
    ghost use Rattle.char_files.specs.Stretch.{Stretch};
    ghost use Rattle.texts.specs.Pieces.{AreUnread, pieces_left};

    ghost Value = { List Stretch };

    ghost view = { λ p. pieces_left p.runs.now p.read };

    ghost invariant = { λ p. AreUnread p.runs.now p.read };
}

impl<'a> Pieces<'a> {
    /// All pieces of a buffer.
    pub(crate) fn of(buffer: &'a Buffer) -> Pieces<'a>
        ensures value { result ≡ pieces_of buffer.now }
        ensures few { length result ≤ length buffer.now }
    {
        Pieces {
            runs: buffer.runs(),
            read: 0,
        }
    }
}

impl<'a> Iterator for Pieces<'a> {
    type Item = Piece<'a>;

    ghost next_gives = { YieldsFirst (λ pieces. pieces) };

    ghost remaining = { item_count (λ pieces. pieces) };

    fn next(&mut self) -> Option<Piece<'a>> {
        let (run, after) = self.runs.split_first()?;
        let (_, bytes) = run.bytes().split_at(self.read);
        if bytes.len() <= MAX_INSERT {
            self.runs = after;
            self.read = 0;
            return Some(Piece {
                looks: run.looks(),
                bytes,
            });
        }
        let (part, _) = bytes.split_at(MAX_INSERT);
        self.read += MAX_INSERT;
        Some(Piece {
            looks: run.looks(),
            bytes: part,
        })
    }
}
