ghost use Rattle.std.specs.Prelude.{◌≡◌};
ghost use Rattle.piece_list.specs.Noted.{setting_kind};

use list_changes::ChangeKind;
use looks::{Key, Looks, Sel};

// What is set in the registers of each character of a set of names.
#[derive(Drop)]
pub(crate) enum Setting {
    // Hidden, or shown again.
    Switch { hidden: bool, key: Key },
    // Given new looks.
    Relook { sel: Sel, looks: Looks, key: Key },
}

impl Setting {
    // What it does to a list of what is shown, where it does something.
    pub(crate) fn kind(&self) -> ChangeKind
        ensures { result ≡ setting_kind self.now }
    {
        match self {
            Setting::Switch { hidden: true, .. } => ChangeKind::Delete,
            Setting::Switch { hidden: false, .. } => ChangeKind::Insert,
            Setting::Relook { .. } => ChangeKind::Replace,
        }
    }
}
