ghost use Rattle.std.specs.Prelude.{◌≡◌, ◌<◌, length, map, slice_get, Some};
ghost use Rattle.char_files.specs.Stretch.{items_of};

use crate::buffer::Buffer;
use crate::looks_run::LooksRun;
use looks::Looks;

/// Characters with their looks, read by position. No call takes memory.
///
/// It is for the readers of Project Oberon, chapter 5.
pub trait Source {
    ghost use Rattle.std.specs.Prelude.{List};
    ghost use Rattle.char_files.specs.Stretch.{Item};

    ghost items: { Self → List Item };

    /// How many characters there are.
    fn len(&self) -> u64
        ensures { result ≡ length (items self.now) };

    /// The character at this position, counted from 0, with its looks.
    fn at(&self, pos: u64) -> (u8, Looks)
        requires { pos < length (items self.now) }
        ensures { slice_get (items self.now) pos ≡ Some result };
}

// The character at this position of the runs' characters.
fn item_at(runs: &[LooksRun], pos: usize) -> (u8, Looks)
    requires { pos < length (items_of runs.now) }
    ensures { slice_get (items_of runs.now) pos ≡ Some result }
{
    let mut index = 0;
    let mut within = pos;
    while runs[index].bytes().len() <= within {
        within -= runs[index].bytes().len();
        index += 1;
    }
    let run = &runs[index];
    (run.bytes()[within], run.looks().copy())
}

impl Source for Buffer {
    ghost items = { λ b. b };

    fn len(&self) -> u64 {
        Buffer::len(self)
    }

    fn at(&self, pos: u64) -> (u8, Looks) {
        item_at(self.runs(), pos as usize)
    }
}

/// Bytes as a source: each is a character in the default looks.
#[derive(Clone, Copy, Debug)]
pub struct Plain<'a>(pub &'a [u8]);

impl<'a> Source for Plain<'a> {
    ghost use Rattle.char_files.specs.Plain.{plain_items};

    ghost items = { λ p. plain_items p.0.now };

    fn len(&self) -> u64 {
        self.0.len() as u64
    }

    fn at(&self, pos: u64) -> (u8, Looks) {
        (self.0[pos as usize], Looks::plain())
    }
}
