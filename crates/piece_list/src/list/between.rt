//! What is shown between two positions.

ghost use Rattle.std.specs.Prelude.{◌≡◌, ◌+◌, ◌<◌, ◌≤◌, map, drop, All, slice_range};
ghost use Rattle.std.specs.Iterator.{YieldsFirst, item_count};
ghost use Rattle.std.specs.List.{flat_map};
ghost use Rattle.char_files.specs.declared.TheConstants.{MAX_FILE};
ghost use Rattle.piece_list.specs.RunSplits.{AreWithin, HasFront, HaveStamps, with_first_run};
ghost use Rattle.piece_list.specs.Shown.{appearance_of, appearances_in};
ghost use Rattle.piece_list.specs.Spelled.{spelled, shown_chars};

use super::PieceList;
use super::walking::Walk;
use crate::run::Run;
use std::marker::Model;

/// The stretches of a text that are shown between two positions, one after the other, without memory: seen as
/// the list of the runs that are left. It reads no piece after the last of them.
#[derive(Drop)]
pub struct Between<'a> {
    // The first run, if it was read before: split at its front.
    first: Option<Run>,
    // The runs after it.
    walk: Walk<'a>,
    // How many characters are wanted.
    left: u64,
}

impl<'a> Model for Between<'a> {
    ghost use Rattle.std.specs.Prelude.{List};
    ghost use Rattle.piece_list.specs.declared.run.Run.{Run as Seen};
    ghost use Rattle.piece_list.specs.RunSplits.{first_chars, with_first_run};

    ghost Value = { List Seen };

    ghost view = { λ b. first_chars b.left (with_first_run b.first b.walk) };
}

impl<'a> Iterator for Between<'a> {
    type Item = Run;

    ghost next_gives = { YieldsFirst (λ runs. runs) };

    ghost remaining = { item_count (λ runs. runs) };

    fn next(&mut self) -> Option<Run> {
        if self.left == 0 {
            return None;
        }
        let mut run = match self.first.take() {
            Some(first) => first,
            None => self.walk.next()?,
        };
        if self.left < u64::from(run.len) {
            run.len = self.left as u32;
        }
        self.left -= u64::from(run.len);
        Some(run)
    }
}

// Takes the first run of a walk, which has more than `n` characters, and leaves its first `n` out.
fn skip_front(walk: &mut Walk<'_>, n: u64) -> Option<Run>
    requires within { AreWithin walk.old }
    requires stamps { HaveStamps walk.old }
    requires front { HasFront n walk.old }
    ensures left { flat_map appearances_in (with_first_run result walk.new)
        ≡ drop n (flat_map appearances_in walk.old) }
    ensures within { AreWithin (with_first_run result walk.new) }
{
    let mut run = walk.next()?;
    run.skip(n as u32);
    Some(run)
}

impl PieceList {
    /// Walks the stretches that are shown from `beg` to `end`, which isn't before it, in order: each a run that
    /// isn't empty. It takes no memory. It begins at the piece that is shown at `beg`, which is found without
    /// reading those before it, and then each step reads on to the next piece that is shown.
    pub fn walk_between(&self, beg: u64, end: u64) -> Between<'_>
        requires range { beg ≤ end }
        ensures shown { flat_map appearances_in result
            ≡ slice_range (map appearance_of (shown_chars (spelled self.now.items))) beg end }
        ensures some { All (λ run. 0 < run.len) result }
        ensures within { All (λ run. run.off + run.len ≤ MAX_FILE) result }
    {
        let (mut walk, before) = self.walk_from(beg);
        let first = skip_front(&mut walk, before);
        Between {
            first,
            walk,
            left: end - beg,
        }
    }
}
