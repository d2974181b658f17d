//! The files of the program's current folder, as a shelf.
#![tactic(auto)]

mod folder;
mod folder_shelf;
mod host_folder;
mod limits;
mod whole_files;

pub use folder::{Folder, MAX_PIECE, PRIVATE};
pub use folder_shelf::{FolderShelf, HostShelf};
pub use host_folder::HostFolder;
pub use limits::the_limits;
pub use whole_files::{MAX_FILE_LEN, read_whole, replace};
