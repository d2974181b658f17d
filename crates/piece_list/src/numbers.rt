//! Keys as numbers, which the index keeps.

ghost use Rattle.std.specs.Prelude.{◌≡◌};
ghost use Rattle.piece_list.specs.Numbers.{key_number as Number};

use looks::Key;

// The first stamp that no operation has.
const STAMPS: u64 = 1 << 48;

// A number of a key, which isn't less than that of a lesser one, and is greater where the keys' stamps are those of operations.
pub(crate) fn number_of(key: Key) -> u64
    ensures { result ≡ Number key }
{
    if key.stamp < STAMPS {
        key.stamp * 65_536 + u64::from(key.site)
    } else {
        u64::MAX
    }
}
