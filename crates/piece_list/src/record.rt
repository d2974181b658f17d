ghost use Rattle.std.specs.Prelude.{◌≡◌, ◌+◌, ◌-◌, ◌<◌, ◌≤◌, ◌^◌, ◌↔◌, IsTrue, true};
ghost use Rattle.piece_list.specs.Values.{FollowsIn, IsAsInserted, record_key, record_of, rest_in};

use crate::run::Run;
use char_files::SiteNo;
use looks::Key;

/// A piece as it is kept, in 40 bytes: what its registers hold stands in tables, and the piece has the numbers of the entries.
#[derive(Clone, Copy, Drop)]
pub(crate) struct PieceRecord {
    // The key of the first character's Insert.
    pub(crate) stamp: u64,
    pub(crate) off: u32,
    // The looks that they were inserted with.
    pub(crate) looks: u32,
    // Which entry set each register, counted from 1; 0 where none did since the Insert.
    pub(crate) font_by: u32,
    pub(crate) colour_by: u32,
    pub(crate) offset_by: u32,
    pub(crate) hidden_by: u32,
    pub(crate) len: u16,
    pub(crate) site: SiteNo,
    pub(crate) key_site: u16,
    // Whether each next character has an Insert of its own, of a stamp one greater.
    pub(crate) rising: bool,
}

// Whether so many numbers from the first one on end before this one.
fn end_before(first: u64, count: u64, at: u64) -> bool
    ensures { IsTrue result ↔ (at ≡ first + count) }
{
    first <= at && at - first == count
}

impl PieceRecord {
    // The piece of a run, shown, whose looks have this number.
    pub(crate) fn of_run(run: &Run, looks: u32) -> PieceRecord
        requires { run.now.len < 2 ^ 16 }
        ensures { result ≡ record_of run.now looks }
    {
        PieceRecord {
            stamp: run.key.stamp,
            off: run.off,
            looks,
            font_by: 0,
            colour_by: 0,
            offset_by: 0,
            hidden_by: 0,
            len: run.len as u16,
            site: run.site,
            key_site: run.key.site,
            rising: run.rising,
        }
    }

    // The key of the first character's Insert.
    pub(crate) fn key(&self) -> Key
        ensures { result ≡ record_key self.now }
    {
        Key {
            stamp: self.stamp,
            site: self.key_site,
        }
    }

    // Splits off all after the first `n` characters, of more than so many.
    pub(crate) fn split_off(&mut self, n: u32) -> PieceRecord
        requires within { n < self.old.len }
        requires small { self.old.off + self.old.len < 2 ^ 32 }
        requires stamps { self.old.rising ≡ true → self.old.stamp + self.old.len ≤ 2 ^ 64 }
        ensures front { self.new ≡ record self.old { len = n } }
        ensures rest { result ≡ rest_in n self.old }
    {
        let mut rest = *self;
        rest.off += n;
        rest.len -= n as u16;
        if rest.rising {
            rest.stamp += u64::from(n);
        }
        self.len = n as u16;
        rest
    }

    // Adds `n` characters at its end.
    pub(crate) fn lengthen(&mut self, n: u32)
        requires { self.old.len + n < 2 ^ 16 }
        ensures { self.new ≡ record self.old { len = self.old.len + n } }
    {
        self.len += n as u16;
    }

    // Whether no register was set since the Inserts.
    fn is_as_inserted(&self) -> bool
        ensures { IsTrue result ↔ IsAsInserted self.now }
    {
        self.font_by == 0 && self.colour_by == 0 && self.offset_by == 0 && self.hidden_by == 0
    }

    // Whether a run, looks aside, goes on with names and keys where these characters end, which are as they were inserted.
    pub(crate) fn is_followed_by(&self, run: &Run) -> bool
        ensures { IsTrue result ↔ FollowsIn self.now run.now }
    {
        let (len, key) = (u64::from(self.len), self.key());
        self.rising
            && run.rising
            && self.is_as_inserted()
            && self.site.get() == run.site.get()
            && key.site == run.key.site
            && end_before(u64::from(self.off), len, u64::from(run.off))
            && end_before(key.stamp, len, run.key.stamp)
    }
}
