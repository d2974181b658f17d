ghost use Rattle.std.specs.Prelude.{◌≡◌, ◌+◌, ◌<◌, ◌≤◌, ◌^◌, true};
ghost use Rattle.piece_list.specs.RunSplits.{after_first};

use char_files::SiteNo;
use looks::{Key, Looks};

/// Neighbouring names of one site's file in one set of looks: what an Insert brings to a text, or a stretch of what is shown, which a
/// row of Inserts may have typed.
#[derive(Debug, Drop, PartialEq, Eq)]
pub struct Run {
    pub site: SiteNo,
    /// The first name's offset in the site's file, below 2^24.
    pub off: u32,
    /// How many characters there are, one at least.
    pub len: u32,
    /// The key of the first one's Insert.
    pub key: Key,
    /// Whether each next one was inserted by an Insert of its own, whose stamp is one greater; else one Insert brought them all.
    pub rising: bool,
    pub looks: Looks,
}

impl Run {
    // Leaves its first `n` characters out, of more than so many.
    pub(crate) fn skip(&mut self, n: u32)
        requires within { n < self.old.len }
        requires small { self.old.off + self.old.len < 2 ^ 32 }
        requires stamps { self.old.rising ≡ true → self.old.key.stamp + self.old.len ≤ 2 ^ 64 }
        ensures { self.new ≡ after_first n self.old }
    {
        self.off += n;
        self.len -= n;
        if self.rising {
            self.key.stamp += u64::from(n);
        }
    }
}
