/// What is to be done where noting has ended: all that was reported last gives way to all that is shown now.
#[derive(Clone, Copy, Debug, PartialEq, Eq)]
pub struct Replacement {
    /// How many characters were reported last. They are deleted, from 0 on; 0 where there is nothing to delete.
    pub deleted: u64,
    /// How many characters are shown. They are inserted at 0 then; 0 where there is nothing to insert.
    pub inserted: u64,
}
