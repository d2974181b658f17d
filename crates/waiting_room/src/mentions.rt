//! What an operation mentions past the end of a site's file. It goes by ranges: a set of few may have 2^24 names in each.

ghost use Rattle.std.specs.Prelude.{◌≡◌, ◌↔◌, IsTrue};
ghost use Rattle.operations.specs.NameSet.{IsAmong};
ghost use Rattle.operations.specs.Operation.{Mentions};
ghost use Rattle.waiting_room.specs.Room.{HasNamePast, mentions_past};

use char_files::{Anchor, SiteNo};
use operations::{Kind, NameSet, Op, named};

// Whether the set has a name of the site at or past this end of its file.
fn reaches_past(names: &NameSet, site: SiteNo, end: u32) -> bool
    ensures { IsTrue result ↔ HasNamePast (IsAmong names.now) site end }
{
    let ranges = names.ranges();
    // Of a site's ranges the last one goes furthest.
    let after = ranges.partition_point(|range| range.site().get() <= site.get());
    if after == 0 {
        return false;
    }
    let last = ranges[after - 1];
    last.site() == site && end < last.at() + last.len()
}

// Whether the operation mentions a name of the site at or past this end of its file.
pub(crate) fn mentions_past(op: &Op, site: SiteNo, end: u32) -> bool
    ensures value { result ≡ mentions_past op.now site end }
    ensures means { IsTrue result ↔ HasNamePast (Mentions op.now) site end }
{
    // The walk's names are those that the operation mentions.
    let _ = named(op);
    match op.kind() {
        Kind::Insert { cause, .. } => match *cause {
            Anchor::Root => false,
            Anchor::At(name) => name.site() == site && end <= name.off(),
        },
        Kind::Delete { names } | Kind::Restore { names } | Kind::ChangeLooks { names, .. } => {
            reaches_past(names, site, end)
        }
    }
}
