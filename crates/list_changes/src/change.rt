ghost use Rattle.std.specs.Prelude.{◌≡◌, ◌↔◌, IsTrue};
ghost use Rattle.std.specs.List.{AllPass};
ghost use Rattle.list_changes.specs.Quiet.{is_quiet};

/// What a change does to a stretch of a list.
#[derive(Clone, Copy, Debug, PartialEq, Eq)]
pub enum ChangeKind {
    /// Elements are put in. The stretch is theirs in the list after the change.
    Insert,
    /// The stretch is cut out of the list.
    Delete,
    /// The elements of the stretch give way to as many that are alike.
    Replace,
}

/// A change of a list: what is done, and the stretch from `beg` up to `end`, positions of the list's elements
/// counted from 0. Of an insertion it lies in the new list, else in the old one.
#[derive(Clone, Copy, Debug, PartialEq, Eq)]
pub struct Change {
    /// What is done to the stretch.
    pub kind: ChangeKind,
    /// Where the stretch begins.
    pub beg: u64,
    /// One past the stretch's last position.
    pub end: u64,
}

impl Change {
    /// Whether the change leaves alone what stands at the positions 0 to `last`, but for putting elements that
    /// are alike in their places: it replaces, or it begins after `last`.
    pub fn is_quiet(&self, last: u64) -> bool
        ensures { result ≡ is_quiet last self.now }
    {
        match self.kind {
            ChangeKind::Insert | ChangeKind::Delete => last < self.beg,
            ChangeKind::Replace => true,
        }
    }
}

/// Whether each of the changes is quiet up to the position `last`.
pub fn all_quiet(changes: &[Change], last: u64) -> bool
    ensures { IsTrue result ↔ AllPass (is_quiet last) changes.now }
{
    changes.iter().all(|change| change.is_quiet(last))
}
