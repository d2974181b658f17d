ghost use Rattle.std.specs.Prelude.{◌≡◌, ◌+◌, IfErr, IfOk, OnOk, length};
ghost use Rattle.folder_shelf.specs.Calls.{AnswersLength, AppendsToFile, GivesPiece, IsMadeFor, MakesFile, MakesNot, Moves, Perhaps, Removes, Same, Syncs, SyncsFolder, TakesMode, TouchesContent, TouchesMode, Well};
ghost use Rattle.folder_shelf.specs.Moments.{Goes};

use std::io;

/// The most bytes that one call reads.
pub const MAX_PIECE: usize = 1 << 20;

/// The mode of a new file that is to take the place of another, until it has the mode of that: its owner reads and writes it.
pub const PRIVATE: u32 = 0o600;

/// A folder in which nobody else writes meanwhile, by the calls that it takes.
pub trait Folder {
    ghost use Rattle.std.specs.Prelude.{◌≡◌, ℕ, Option, Some};
    ghost use Rattle.folder_shelf.specs.Moments.{History};

    /// An open file.
    type File: Drop;

    // The moments so far; none where the folder doesn't tell them.
    ghost history: { Self → Option History };

    // An open file's number.
    ghost number: { Self.File → ℕ };

    // How many bytes of an open file were read.
    ghost place: { Self.File → ℕ };

    /// Makes a file under a name that has none, and opens it for writing. It is to take the place of the target's plain file,
    /// and is private if there is one. It fails if the target is something else.
    fn make_new(&mut self, name: &str, target: &str) -> io::Result<Self::File>
        ensures ok { IfOk result (λ file. Goes (Well (MakesFile name.now (number file))) (history self.old) (history self.new)) }
        ensures target { IfOk result (λ file. Goes (IsMadeFor target.now (number file)) (history self.old) (history self.new)) }
        ensures err { IfErr result (λ error. Goes (MakesNot error name.now target.now) (history self.old) (history self.new)) };

    /// Gives a file the mode of a name's plain file, if it has one. It fails if the name has something else.
    fn take_mode(&mut self, file: &Self::File, name: &str) -> io::Result<()>
        ensures ok { OnOk result (Goes (Well (TakesMode (number file.now) name.now)) (history self.old) (history self.new)) }
        ensures err { IfErr result (λ error. Goes (Perhaps error (TouchesMode (number file.now) name.now)) (history self.old) (history self.new)) };

    /// Writes these bytes at a file's end.
    fn append(&mut self, file: &mut Self::File, bytes: &[u8]) -> io::Result<()>
        ensures ok { OnOk result (Goes (Well (AppendsToFile (number file.old) bytes.now)) (history self.old) (history self.new)) }
        ensures err { IfErr result (λ error. Goes (Perhaps error (TouchesContent (number file.old))) (history self.old) (history self.new)) }
        ensures file { number file.new ≡ number file.old };

    /// Waits until the disk has what was written to a file.
    fn sync(&mut self, file: &Self::File) -> io::Result<()>
        ensures ok { OnOk result (Goes (Well (Syncs (number file.now))) (history self.old) (history self.new)) }
        ensures err { IfErr result (λ error. Goes (Perhaps error (TouchesContent (number file.now))) (history self.old) (history self.new)) };

    /// Gives a name the file of another, in place of its own.
    fn rename(&mut self, from: &str, to: &str) -> io::Result<()>
        ensures ok { OnOk result (Goes (Well (Moves from.now to.now)) (history self.old) (history self.new)) }
        ensures err { IfErr result (λ error. Goes (Perhaps error (Moves from.now to.now)) (history self.old) (history self.new)) };

    /// Takes a name's file away.
    fn remove(&mut self, name: &str) -> io::Result<()>
        ensures ok { OnOk result (Goes (Well (Removes name.now)) (history self.old) (history self.new)) }
        ensures err { IfErr result (λ error. Goes (Perhaps error (Removes name.now)) (history self.old) (history self.new)) };

    /// Waits until the disk has the names.
    fn sync_folder(&mut self) -> io::Result<()>
        ensures ok { OnOk result (Goes (Well SyncsFolder) (history self.old) (history self.new)) }
        ensures err { IfErr result (λ error. Goes (Perhaps error Same) (history self.old) (history self.new)) };

    /// The length of the plain file of a name; none of what is no plain file.
    fn look(&mut self, name: &str) -> io::Result<Option<u64>>
        ensures ok { IfOk result (λ len. Goes (λ old new. Well Same old new × AnswersLength name.now len old) (history self.old) (history self.new)) }
        ensures err { IfErr result (λ error. Goes (Perhaps error Same) (history self.old) (history self.new)) };

    /// Opens a file for reading, from its start.
    fn open(&mut self, name: &str) -> io::Result<Self::File>
        ensures ok { IfOk result (λ file. Goes (λ old new. Well Same old new × (old.names name.now ≡ Some (number file)) × (place file ≡ 0))
            (history self.old) (history self.new)) }
        ensures err { IfErr result (λ error. Goes (Perhaps error Same) (history self.old) (history self.new)) };

    /// Puts the next piece of a file after the bytes, and returns how many came: fewer than `MAX_PIECE` at the
    /// file's end alone.
    fn read(&mut self, file: &mut Self::File, bytes: &mut Vec<u8>) -> io::Result<usize>
        ensures ok { IfOk result (λ count. Goes (λ old new. Well Same old new
            × GivesPiece (number file.old) (place file.old) count (place file.new) bytes.old.items bytes.new.items old)
            (history self.old) (history self.new)) }
        ensures err { IfErr result (λ error. Goes (Perhaps error Same) (history self.old) (history self.new)) }
        ensures grows { IfOk result (λ count. length bytes.new.items ≡ length bytes.old.items + count) }
        ensures file { number file.new ≡ number file.old };
}
