ghost use Rattle.std.specs.Prelude.{◌≡◌};
ghost use Rattle.operations.specs.Seen.{kind_of};
ghost use Rattle.texts.specs.Named.{changes_shown, kind_by_names};

use operations::{Kind, NameSet};

/// What an edit by names does.
#[derive(Clone, Copy, Debug, PartialEq, Eq, Hash)]
pub enum ByNames {
    /// Takes those that are shown of the characters that are named out of what is shown.
    Delete,
    /// Shows those that are hidden of them again.
    Restore,
}

impl ByNames {
    // Whether it changes the characters that are shown, or those that are hidden.
    pub(crate) fn changes_shown(self) -> bool
        ensures { result ≡ changes_shown self }
    {
        match self {
            ByNames::Delete => true,
            ByNames::Restore => false,
        }
    }

    // The kind of its operation.
    pub(crate) fn kind(self, names: NameSet) -> Kind
        ensures { kind_of result ≡ kind_by_names self names }
    {
        match self {
            ByNames::Delete => Kind::Delete { names },
            ByNames::Restore => Kind::Restore { names },
        }
    }
}
