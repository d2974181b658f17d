//! The noting of changes ends, where whoever follows the text wants a bound on the memory that it takes.

ghost use Rattle.std.specs.Prelude.{◌≡◌};
ghost use Rattle.texts.specs.Changes.{all_reported, noting_ended, replacement_of};

use super::Replica;
use crate::replacement::Replacement;

impl Replica {
    // Lets go what was noted, where noting has ended.
    pub(crate) fn let_notes_go(&mut self)
        ensures { self.new ≡ self.old }
    {
        let Some(_) = self.reported else {
            return;
        };
        let _ = self.taken.changes();
    }

    /// Ends the noting of changes, which can't begin again: what was noted is let go, with its memory, and from now on no change
    /// is kept after the operation that made it, so that `changes` has none. `shown` is how many characters whoever follows the
    /// text shows now: `replacement` goes on from there.
    pub fn end_noting(&mut self, shown: u64)
        ensures { self.new ≡ noting_ended self.old shown }
    {
        self.reported = Some(shown);
        self.let_notes_go();
    }

    /// Where noting has ended, what leads from what was reported last, of which the length alone is kept, to what is shown now, which
    /// is then what was reported last; `None` where changes are noted.
    pub fn replacement(&mut self) -> Option<Replacement>
        ensures value { result ≡ replacement_of self.old }
        ensures reported { self.new ≡ all_reported self.old }
    {
        match self.reported {
            None => None,
            Some(deleted) => {
                let inserted = self.taken.shown_len();
                self.reported = Some(inserted);
                Some(Replacement { deleted, inserted })
            }
        }
    }
}
