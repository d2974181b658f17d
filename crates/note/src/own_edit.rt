use char_files::Buffer;
use looks::{Looks, Sel};
use operations::NameRange;
use texts::ByNames;

/// An edit of a site's own, in a text of a note.
#[derive(Drop)]
pub enum OwnEdit {
    /// To put characters after the first `pos` that are shown.
    Insert {
        pos: u64,
        buffer: Buffer,
    },
    /// To take those from `beg` to `end` out of what is shown.
    Delete {
        beg: u64,
        end: u64,
    },
    /// To give those from `beg` to `end` the looks that are selected of these.
    ChangeLooks {
        beg: u64,
        end: u64,
        sel: Sel,
        looks: Looks,
    },
    /// To hide or to show those of these names, wherever they stand.
    ByNames {
        what: ByNames,
        names: Vec<NameRange>,
    },
}
