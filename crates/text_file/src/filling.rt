//! Characters at the end of a buffer that has room for them, so that memory alone can be refused.

ghost use Rattle.std.specs.Prelude.{◌≡◌, ◌+◌, ◌<◌, ◌≤◌, [], ◌∷◌, ◌++◌, length, OnOk};
ghost use Rattle.looks.specs.Refusal.{RefusedForMemoryAlone};
ghost use Rattle.char_files.specs.Stretch.{items_of_run};
ghost use Rattle.char_files.specs.declared.TheConstants.{MAX_FILE};

use char_files::Buffer;
use looks::{Looks, Refusal};

/// Puts a character at the end. Refused `OutOfMemory` alone.
pub(crate) fn push_char(text: &mut Buffer, byte: u8, looks: Looks) -> Result<(), Refusal>
    requires { length text.old < MAX_FILE }
    ensures ok { OnOk result (text.new ≡ text.old ++ (byte, looks) ∷ []) }
    ensures errors { RefusedForMemoryAlone result }
{
    text.push(byte, looks)
}

/// Puts bytes in these looks at the end. Refused `OutOfMemory` alone.
pub(crate) fn push_all(text: &mut Buffer, bytes: &[u8], looks: &Looks) -> Result<(), Refusal>
    requires { length text.old + length bytes.now ≤ MAX_FILE }
    ensures ok { OnOk result
        (text.new ≡ text.old ++ items_of_run (record { looks = looks.now; bytes = bytes.now })) }
    ensures errors { RefusedForMemoryAlone result }
{
    text.push_all(bytes, looks)
}
