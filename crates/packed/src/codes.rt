ghost use Rattle.std.specs.Prelude.{◌≡◌};
ghost use Rattle.packed.specs.Spelling.{is_code};

// The bytes that an operation's leads and its edit begin with.

// The operation before isn't of this site.
pub(crate) const OTHER_SITE: u8 = 1;

// The stamp is above the one expected.
pub(crate) const LATER: u8 = 2;

// The looks aren't those expected.
pub(crate) const OTHER_LOOKS: u8 = 3;

// Another place in the caret's file.
pub(crate) const STEP: u8 = 4;

// A place in another file, or the root.
pub(crate) const FAR: u8 = 5;

// An Insert of more than one byte.
pub(crate) const BYTES: u8 = 6;

// A Delete of a set.
pub(crate) const DELETE_SET: u8 = 7;

// A Delete of one character.
pub(crate) const DELETE: u8 = 8;

pub(crate) const CHANGE_LOOKS: u8 = 11;

pub(crate) const RESTORE: u8 = 12;

// An Insert of a byte that is a code.
pub(crate) const ESCAPE: u8 = 14;

// In a chunk, a site that begins.
pub(crate) const BEGIN: u8 = 15;

// Whether the byte doesn't stand for an Insert of itself.
pub(crate) fn is_code(in_chunk: bool, byte: u8) -> bool
    ensures { result ≡ is_code in_chunk byte }
{
    matches!(byte, OTHER_SITE..=DELETE | CHANGE_LOOKS | RESTORE | ESCAPE)
        || (in_chunk && byte == BEGIN)
}
