//! What is shown, in rows of neighbouring bytes.

ghost use Rattle.std.specs.Prelude.{◌≡◌, ◌<◌, length, map};
ghost use Rattle.std.specs.Iterator.{YieldsFirst, item_count};
ghost use Rattle.taken_text.specs.Rows.{row_in};
ghost use Rattle.taken_text.specs.Shown.{AreInFiles, IsInFile};

use char_files::{CharFiles, SiteNo};
use looks::Looks;
use piece_list::{Between, Run};
use std::marker::Model;

/// Characters that are shown one after the other, look alike, and stand so in their site's file.
#[derive(Drop)]
pub struct ShownRow<'a> {
    site: SiteNo,
    off: u32,
    bytes: &'a [u8],
    looks: Looks,
}

impl<'a> Model for ShownRow<'a> {
    ghost use Rattle.std.specs.Prelude.{◌<◌, length};
    ghost use Rattle.taken_text.specs.Rows.{RowSeen};

    ghost Value = { RowSeen };

    ghost view = { λ r. record { site = r.site; off = r.off; bytes = r.bytes.now; looks = r.looks } };

    ghost invariant = { λ r. 0 < length r.bytes.now };
}

impl<'a> ShownRow<'a> {
    /// The site that inserted them.
    pub fn site(&self) -> SiteNo
        ensures { result ≡ self.now.site }
    {
        self.site
    }

    /// Where the first one's byte stands in the site's file.
    pub fn off(&self) -> u32
        ensures { result ≡ self.now.off }
    {
        self.off
    }

    /// The characters' bytes, one at least.
    pub fn bytes(&self) -> &'a [u8]
        ensures value { result.now ≡ self.now.bytes }
        ensures some { 0 < length result.now }
    {
        self.bytes
    }

    /// What they all look like.
    pub fn looks(&self) -> &Looks
        ensures { result.now ≡ self.now.looks }
    {
        &self.looks
    }
}

// A run as a row.
fn row_of<'a>(files: &'a CharFiles, run: Run) -> ShownRow<'a>
    requires { IsInFile files.now run }
    ensures { result ≡ row_in files.now run }
{
    ShownRow {
        site: run.site,
        off: run.off,
        bytes: files.bytes(run.site, run.off, run.off + run.len),
        looks: run.looks,
    }
}

/// The rows of a text's characters that are shown, one after the other, without memory: seen as the list of those that are left.
#[derive(Drop)]
pub struct ShownRows<'a> {
    files: &'a CharFiles,
    walk: Between<'a>,
}

impl<'a> Model for ShownRows<'a> {
    ghost use Rattle.std.specs.Prelude.{List, map};
    ghost use Rattle.taken_text.specs.Rows.{RowSeen, row_in};
    ghost use Rattle.taken_text.specs.Shown.{AreInFiles};

    ghost Value = { List RowSeen };

    ghost view = { λ s. map (row_in s.files.now) s.walk };

    ghost invariant = { λ s. AreInFiles s.files.now s.walk };
}

impl<'a> Iterator for ShownRows<'a> {
    type Item = ShownRow<'a>;

    ghost next_gives = { YieldsFirst (λ rows. rows) };

    ghost remaining = { item_count (λ rows. rows) };

    fn next(&mut self) -> Option<ShownRow<'a>> {
        let run = self.walk.next()?;
        Some(row_of(self.files, run))
    }
}

impl<'a> ShownRows<'a> {
    // All rows of these runs.
    pub(crate) fn of(walk: Between<'a>, files: &'a CharFiles) -> ShownRows<'a>
        requires { AreInFiles files.now walk }
        ensures { result ≡ map (row_in files.now) walk.entry }
    {
        ShownRows { files, walk }
    }
}
