ghost use Rattle.std.specs.Prelude.{◌≡◌, ◌<◌, ◌≤◌, ◌+◌, ◌⊎◌, length, IfErr, IfOk, IsErr, IsFalse, IsTrue, IsErrOf, None, OnErr, OnOk, Some};
ghost use Rattle.shelf.specs.Files.{Counts};
ghost use Rattle.shelf.specs.Names.{is_file_name};
ghost use Rattle.folder_shelf.specs.Calls.{CallFailed, NoFault, Same};
ghost use Rattle.folder_shelf.specs.Moments.{Anything, Since};
ghost use Rattle.folder_shelf.specs.Whole.{BeforeOrAfter, HasNoPlain, IsHindered, IsRead, Replaced};
ghost use Rattle.folder_shelf.specs.declared.whole_files.TheConstants.{MAX_FILE_LEN};

use crate::folder::Folder;
use crate::host_folder::HostFolder;
use crate::whole_files::{MAX_FILE_LEN, read_whole, replace};
use looks::Refusal;
use shelf::{Shelf, is_file_name};
use std::alloc::Global;

/// The files of a folder.
///
/// Others may write there between two calls, so the shelf reports no files; what a call finds and leaves, the folder's
/// history says, where the folder tells one.
#[derive(Drop)]
pub struct FolderShelf<F> {
    /// The folder.
    pub folder: F,
    // Of which the names of files that aren't whole yet take their memory.
    alloc: Global,
    /// How many calls failed.
    pub failures: u64,
    /// Why the folder didn't take what was written last: memory was refused, or a call of the folder failed; none where it
    /// did, or wasn't asked.
    pub refused: Option<Refusal>,
}

/// The files of the program's current folder: what it reads is believed of the file system.
pub type HostShelf<R> = FolderShelf<HostFolder<R>>;

impl<F: Folder + Drop> FolderShelf<F> {
    /// The files of this folder.
    pub fn new(folder: F, alloc: Global) -> FolderShelf<F>
        ensures folder { result.folder ≡ folder }
        ensures failures { result.failures ≡ 0 }
    {
        FolderShelf {
            folder,
            alloc,
            failures: 0,
            refused: None,
        }
    }

    // Counts a failure.
    fn count(&mut self)
        ensures folder { self.new.folder ≡ self.old.folder }
        ensures failures { Counts self.old.failures self.new.failures }
        ensures once { self.new.failures ≤ self.old.failures + 1 }
        ensures refused { self.new.refused ≡ self.old.refused }
    {
        self.failures = self.failures.saturating_add(1);
    }
}

impl<F: Folder + Drop> Shelf for FolderShelf<F> {
    ghost files = { λ shelf. None };

    ghost faults = { λ shelf. shelf.failures };

    ghost writes = { λ shelf. None };

    // As each shelf does; and what is read is all that the plain file of the name has. A name of no file of the folder
    // itself is a failure, and the folder isn't asked then; so is a file that is too long.
    fn read(&mut self, alloc: Global, name: &str) -> Result<Vec<u8>, Refusal>
        ensures errors { IfErr result (λ e. (e ≡ Refusal.ReadFault) ⊎ (e ≡ Refusal.OutOfMemory)) }
        ensures fault { IsErrOf result Refusal.ReadFault → Counts self.old.failures self.new.failures }
        ensures kept { (¬ IsErrOf result Refusal.ReadFault) → self.new.failures ≡ self.old.failures }
        ensures once { self.new.failures ≤ self.old.failures + 1 }
        ensures rises { self.old.failures ≤ self.new.failures }
        ensures named { IsFalse (is_file_name name.now) → IsErrOf result Refusal.ReadFault }
        ensures limit { IfOk result (λ bytes. length bytes.items ≤ MAX_FILE_LEN) }
        ensures reads { IfOk result (λ bytes. Since Same (IsRead name.now bytes.items) (F.history self.old.folder) (F.history self.new.folder)) }
        ensures cause { IsErrOf result Refusal.ReadFault → IsTrue (is_file_name name.now)
            → Since Same (λ old now. CallFailed old now ⊎ HasNoPlain old name.now) (F.history self.old.folder) (F.history self.new.folder) }
        ensures memory { IsErrOf result Refusal.OutOfMemory → Since Same NoFault (F.history self.old.folder) (F.history self.new.folder) }
        ensures unasked { IsFalse (is_file_name name.now) → F.history self.new.folder ≡ F.history self.old.folder }
    {
        if is_file_name(name.as_bytes()) {
            match read_whole(&mut self.folder, alloc, name) {
                Err(Refusal::ReadFault) => {}
                answer => return answer,
            }
        }
        self.count();
        Err(Refusal::ReadFault)
    }

    // As each shelf does; and at each moment the name has the bytes of before or the new ones, whole, whatever a crash makes
    // of the folder; once it is done, the new ones, and no other name has changed. A name of no file of the folder itself is
    // a failure, as are more bytes than are read, and the folder isn't asked then. Else it fails for want of memory, which is
    // kept, or for what happened in the folder.
    fn write(&mut self, name: &str, bytes: &[u8]) -> Result<(), Refusal>
        ensures errors { IfErr result (λ e. e ≡ Refusal.WriteFault) }
        ensures fault { OnErr result (Counts self.old.failures self.new.failures) }
        ensures kept { OnOk result (self.new.failures ≡ self.old.failures) }
        ensures once { self.new.failures ≤ self.old.failures + 1 }
        ensures rises { self.old.failures ≤ self.new.failures }
        ensures named { IsFalse (is_file_name name.now) → IsErr result }
        ensures limit { MAX_FILE_LEN < length bytes.now → IsErr result }
        ensures any_moment { Since (BeforeOrAfter name.now bytes.now) Anything (F.history self.old.folder) (F.history self.new.folder) }
        ensures done { OnOk result (Since Anything (Replaced name.now bytes.now) (F.history self.old.folder) (F.history self.new.folder)) }
        ensures cause { IsErr result → IsTrue (is_file_name name.now) → length bytes.now ≤ MAX_FILE_LEN
            → (self.new.refused ≡ Some Refusal.OutOfMemory) ⊎ Since Anything IsHindered (F.history self.old.folder) (F.history self.new.folder) }
        ensures taken { OnOk result (self.new.refused ≡ None) }
        ensures unasked { IsFalse (is_file_name name.now) ⊎ (MAX_FILE_LEN < length bytes.now)
            → F.history self.new.folder ≡ F.history self.old.folder }
    {
        self.refused = None;
        if is_file_name(name.as_bytes()) && bytes.len() <= MAX_FILE_LEN {
            match replace(&mut self.folder, self.alloc, name, bytes) {
                Ok(()) => return Ok(()),
                Err(why) => self.refused = Some(Refusal::of_error(&why, Refusal::WriteFault)),
            }
        }
        self.count();
        Err(Refusal::WriteFault)
    }

    fn failures(&self) -> u64 {
        self.failures
    }
}
