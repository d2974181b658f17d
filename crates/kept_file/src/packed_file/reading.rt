//! What a packed file begins with.

ghost use Rattle.std.specs.Prelude.{◌≡◌, ◌≢◌, ◌++◌, take, MatchOption};
ghost use Rattle.kept_file.specs.PackedFiles.{packed_tag};

use super::TAG;

/// What stands after the tag, where the file begins with it.
pub(crate) fn rest_of_tag(bytes: &[u8]) -> Option<&[u8]>
    ensures { MatchOption result (take 4 bytes.now ≢ packed_tag) (λ rest. bytes.now ≡ packed_tag ++ rest.now) }
{
    bytes.strip_prefix(TAG)
}
