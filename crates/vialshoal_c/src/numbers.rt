ghost use Rattle.std.specs.Prelude.{◌≡◌};

/// The handle has no text: it wasn't opened, or was freed.
pub const NOT_OPEN: u32 = 101;

/// The handle has a text already.
pub const ALREADY_OPEN: u32 = 102;

/// A position lies outside the text, or a range ends before its begin.
pub const OUT_OF_TEXT: u32 = 103;

/// More than 2^24 bytes are to be put in.
pub const TOO_LONG: u32 = 104;

/// A number is that of no text, site, name, selection, font or colour.
pub const NO_NUMBER: u32 = 105;

/// The name is that of no character that was taken in.
pub const NO_NAME: u32 = 106;

/// The room is too short; nothing was changed.
pub const TOO_SHORT: u32 = 107;

/// No message has this index.
pub const NO_MESSAGE: u32 = 108;

/// Changes are noted, and nothing is told in their place.
pub const STILL_NOTED: u32 = 109;

/// A message's operation was taken in.
pub const IS_TAKEN: u32 = 1;

/// A message's operation is held already.
pub const IS_REPEAT: u32 = 2;

/// A message's operation waits for a cause.
pub const IS_WAITING: u32 = 3;

/// Characters were put in.
pub const IS_INSERT: u32 = 1;

/// Characters were cut out.
pub const IS_DELETE: u32 = 2;

/// Characters gave way to as many that differ in looks alone.
pub const IS_REPLACE: u32 = 3;

// The most messages whose memory is kept once they are let go: that of a great edit is freed.
pub(crate) const KEPT_ROOM: usize = 16;

/// A law: the numbers of misuse.
pub fn the_numbers_of_misuse()
    ensures handles { (NOT_OPEN ≡ 101) × (ALREADY_OPEN ≡ 102) }
    ensures arguments { (OUT_OF_TEXT ≡ 103) × (TOO_LONG ≡ 104) × (NO_NUMBER ≡ 105) × (NO_NAME ≡ 106) }
    ensures rooms { (TOO_SHORT ≡ 107) × (NO_MESSAGE ≡ 108) }
    ensures noting { STILL_NOTED ≡ 109 }
{}

/// A law: the numbers of what a taking did, and of what a change does.
pub fn the_numbers_of_kinds()
    ensures takings { (IS_TAKEN ≡ 1) × (IS_REPEAT ≡ 2) × (IS_WAITING ≡ 3) }
    ensures changes { (IS_INSERT ≡ 1) × (IS_DELETE ≡ 2) × (IS_REPLACE ≡ 3) }
{}
