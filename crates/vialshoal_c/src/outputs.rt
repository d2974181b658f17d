//! What calls write into memory that C owns.

/// What the taking of a message did.
#[repr(C)]
#[derive(Clone, Copy, Debug, PartialEq, Eq)]
pub struct Taking {
    /// `IS_TAKEN`, `IS_REPEAT` or `IS_WAITING`; 0 where it was refused.
    pub kind: u32,
    /// How many operations that waited were taken in after it.
    pub drained: u32,
    /// How many operations that waited were thrown away.
    pub dropped: u32,
    /// Whether that ended early, for want of memory.
    pub stopped: bool,
}

/// What settling did.
#[repr(C)]
#[derive(Clone, Copy, Debug, PartialEq, Eq)]
pub struct Settling {
    /// How many operations that waited were taken in.
    pub drained: u32,
    /// How many operations that waited were thrown away.
    pub dropped: u32,
    /// Whether that ended early, for want of memory.
    pub stopped: bool,
}

/// What the unpacking of a chunk did.
#[repr(C)]
#[derive(Clone, Copy, Debug, PartialEq, Eq)]
pub struct Unpacking {
    /// How many operations were taken in, those that had waited among them.
    pub taken: u64,
    /// How many of the chunk's are held already, or wait already.
    pub known: u64,
    /// How many of the chunk's were put among those that wait.
    pub waiting: u64,
    /// Where one was refused, how many of the chunk's were handed in before it; else 0.
    pub done: u64,
    /// Whether taking in what waited ended early, for want of memory.
    pub stopped: bool,
}

/// The lasting name of a character.
#[repr(C)]
#[derive(Clone, Copy, Debug, PartialEq, Eq)]
pub struct CharName {
    /// The site that put it in.
    pub site: u16,
    /// Its offset among all that this site ever put into the text.
    pub offset: u32,
}

/// Where a character is.
#[repr(C)]
#[derive(Clone, Copy, Debug, PartialEq, Eq)]
pub struct Place {
    /// How many shown characters are this one or stand before it.
    pub pos: u64,
    /// Whether it is shown itself, at `pos - 1` then.
    pub is_shown: bool,
}

/// A change of what is shown.
#[repr(C)]
#[derive(Clone, Copy, Debug, PartialEq, Eq)]
pub struct TextChange {
    /// `IS_INSERT`, `IS_DELETE` or `IS_REPLACE`.
    pub kind: u32,
    /// Where its stretch begins: that of an insertion in the text after it, else in the text before it.
    pub beg: u64,
    /// One past the stretch's last position.
    pub end: u64,
}

/// All that was reported last gives way to all that is shown.
#[repr(C)]
#[derive(Clone, Copy, Debug, PartialEq, Eq)]
pub struct Replacing {
    /// How many characters are deleted, from 0 on.
    pub deleted: u64,
    /// How many are inserted at 0 then.
    pub inserted: u64,
}

/// Characters of equal looks, but for the font's name.
#[repr(C)]
#[derive(Clone, Copy, Debug, PartialEq, Eq)]
pub struct LooksRun {
    /// One past the last of them.
    pub end: u64,
    /// The colour's number, 0 to 15.
    pub colour: u8,
    /// The vertical offset from the base line.
    pub offset: i8,
}
