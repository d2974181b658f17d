//! A file read whole, and one put in the place of another.
ghost use Rattle.std.specs.Prelude.{◌≡◌, ◌≤◌, ◌⊎◌, IfErr, IfOk, IsErrOf, IsFalse, IsTrue, OnOk, length, string_bytes};
ghost use Rattle.std.specs.IoError.{error_kind};
ghost use Rattle.shelf.specs.Names.{is_file_name};
ghost use Rattle.folder_shelf.specs.Calls.{CallFailed, Fails, NoFault, Same, Well};
ghost use Rattle.folder_shelf.specs.Moments.{Anything, Since};
ghost use Rattle.folder_shelf.specs.Whole.{BeforeOrAfter, GivenUp, HasNoPlain, IsBeside, IsFileTooLong, IsPlacedWhole, IsRead, MakesBeside, MakesFor, Opened, Placing, ReadAll, RefusesCall, Replaced};
ghost use Rattle.folder_shelf.specs.declared.whole_files.TheConstants.{MAX_FILE_LEN};

use crate::folder::{Folder, MAX_PIECE};
use looks::Refusal;
use std::alloc::{AllocError, Global};
use std::io;
use std::io::ErrorKind;

/// The most bytes of a file that is read or written.
pub const MAX_FILE_LEN: usize = 1 << 30;

// How the names of files begin that aren't whole yet, after which comes a number: longer than a file's name in a
// command, so that no command names one.
const BESIDE: &str = ".file-of-a-text-that-is-not-whole-yet-";

// How many such files may lie in a folder: each end of a program in the midst of a write leaves one.
const MAX_BESIDE: usize = 1000;

// Why what is no plain file, or is too long, isn't read.
fn no_plain_file() -> io::Error
    ensures { error_kind result ≡ ErrorKind.InvalidInput }
{
    ErrorKind::InvalidInput.into()
}

// Opens a file for reading. A link, a folder, a pipe or a device is none, nor is a file that is too long.
fn open_plain<F: Folder>(folder: &mut F, name: &str) -> io::Result<F::File>
    ensures ok { IfOk result (λ file. Since Same (Opened name.now (F.number file) (F.place file))
        (F.history folder.old) (F.history folder.new)) }
    ensures err { IfErr result (λ error. Since Same (λ old now. RefusesCall error (HasNoPlain old name.now) old now)
        (F.history folder.old) (F.history folder.new)) }
{
    let Some(len) = folder.look(name)? else {
        return Err(no_plain_file());
    };
    if (MAX_FILE_LEN as u64) < len {
        return Err(no_plain_file());
    }
    folder.open(name)
}

// The bytes of a file that was just opened. The length that the system told of it isn't rested on.
fn read_pieces<F: Folder>(folder: &mut F, file: &mut F::File, alloc: Global) -> io::Result<Vec<u8>>
    ensures ok { IfOk result (λ bytes. Since Same (ReadAll (F.number file.old) (F.place file.old) bytes.items)
        (F.history folder.old) (F.history folder.new)) }
    ensures limit { IfOk result (λ bytes. length bytes.items ≤ MAX_FILE_LEN) }
    ensures err { IfErr result (λ error. Since Same (λ old now. RefusesCall error (IsFileTooLong (F.number file.old) (F.place file.old) old) old now)
        (F.history folder.old) (F.history folder.new)) }
{
    let mut bytes = Vec::new(alloc);
    while bytes.len() <= MAX_FILE_LEN {
        let count = folder.read(file, &mut bytes)?;
        if count < MAX_PIECE {
            if MAX_FILE_LEN < bytes.len() {
                return Err(no_plain_file());
            }
            return Ok(bytes);
        }
    }
    Err(no_plain_file())
}

// The bytes of a plain file.
fn read_plain<F: Folder>(folder: &mut F, alloc: Global, name: &str) -> io::Result<Vec<u8>>
    ensures ok { IfOk result (λ bytes. Since Same (IsRead name.now bytes.items) (F.history folder.old) (F.history folder.new)) }
    ensures limit { IfOk result (λ bytes. length bytes.items ≤ MAX_FILE_LEN) }
    ensures err { IfErr result (λ error. Since Same (λ old now. RefusesCall error (HasNoPlain old name.now) old now)
        (F.history folder.old) (F.history folder.new)) }
{
    let mut file = open_plain(folder, name)?;
    read_pieces(folder, &mut file, alloc)
}

/// The bytes of the plain file of a name: all of them, or a refusal.
pub fn read_whole<F: Folder>(folder: &mut F, alloc: Global, name: &str) -> Result<Vec<u8>, Refusal>
    ensures ok { IfOk result (λ bytes. Since Same (IsRead name.now bytes.items) (F.history folder.old) (F.history folder.new)) }
    ensures limit { IfOk result (λ bytes. length bytes.items ≤ MAX_FILE_LEN) }
    ensures errors { IfErr result (λ e. (e ≡ Refusal.ReadFault) ⊎ (e ≡ Refusal.OutOfMemory)) }
    // What failed is told as that, and nothing else is.
    ensures fault { IsErrOf result Refusal.ReadFault → Since Same (λ old now. CallFailed old now ⊎ HasNoPlain old name.now)
        (F.history folder.old) (F.history folder.new) }
    ensures memory { IsErrOf result Refusal.OutOfMemory → Since Same NoFault (F.history folder.old) (F.history folder.new) }
{
    match read_plain(folder, alloc, name) {
        Ok(bytes) => Ok(bytes),
        Err(error) => Err(Refusal::of_error(&error, Refusal::ReadFault)),
    }
}

// The name of a file that isn't whole yet: no command can name it.
fn name_beside(alloc: Global, number: usize) -> Result<String, AllocError>
    ensures beside { IfOk result (λ name. IsBeside (string_bytes name)) }
    ensures no_file { IfOk result (λ name. IsFalse (is_file_name (string_bytes name))) }
{
    format!(in alloc; "{BESIDE}{number}")
}

// Whether a file wasn't made because there is one of its name.
fn is_taken(why: &io::Error) -> bool
    ensures { IsTrue result → error_kind why.now ≡ ErrorKind.AlreadyExists }
{
    matches!(why.kind(), ErrorKind::AlreadyExists)
}

// A new file beside the others, which is to take the place of that of a name, and its own name.
fn new_beside<F: Folder>(
    folder: &mut F,
    alloc: Global,
    target: &str,
) -> io::Result<(F::File, String)>
    ensures beside { IfOk result (λ made. IsBeside (string_bytes made.1)) }
    ensures no_file { IfOk result (λ made. IsFalse (is_file_name (string_bytes made.1))) }
    ensures ok { IfOk result (λ made. Since (MakesBeside target.now) (Well (MakesFor target.now (string_bytes made.1) (F.number made.0)))
        (F.history folder.old) (F.history folder.new)) }
    ensures err { IfErr result (λ error. Since (MakesBeside target.now) (GivenUp error) (F.history folder.old) (F.history folder.new)) }
{
    for number in 0..MAX_BESIDE {
        let name = name_beside(alloc, number)?;
        match folder.make_new(name.as_str(), target) {
            Ok(file) => return Ok((file, name)),
            Err(why) if is_taken(&why) => {}
            Err(why) => return Err(why),
        }
    }
    Err(ErrorKind::AlreadyExists.into())
}

// Gives a new file the mode of the name's, writes the bytes to it, waits until the disk has them, and gives it the name.
fn write_and_rename<F: Folder>(
    folder: &mut F,
    mut file: F::File,
    beside: &str,
    name: &str,
    bytes: &[u8],
) -> io::Result<()>
    ensures ok { OnOk result (Since (Placing (F.number file) beside.now name.now bytes.now) (IsPlacedWhole (F.number file) beside.now name.now bytes.now)
        (F.history folder.old) (F.history folder.new)) }
    ensures err { IfErr result (λ error. Since (Placing (F.number file) beside.now name.now bytes.now)
        (λ old now. Placing (F.number file) beside.now name.now bytes.now old now × Fails error old now)
        (F.history folder.old) (F.history folder.new)) }
{
    folder.take_mode(&file, name)?;
    folder.append(&mut file, bytes)?;
    folder.sync(&file)?;
    folder.rename(beside, name)
}

/// Puts these bytes in the place of the file of a name, by a new file beside it: so at each moment the name has the old
/// bytes or the new ones, whole, whatever a crash makes of the folder.
pub fn replace<F: Folder>(folder: &mut F, alloc: Global, name: &str, bytes: &[u8]) -> io::Result<()>
    requires { ¬ IsBeside name.now }
    ensures any_moment { Since (BeforeOrAfter name.now bytes.now) Anything (F.history folder.old) (F.history folder.new) }
    ensures done { OnOk result (Since Anything (Replaced name.now bytes.now) (F.history folder.old) (F.history folder.new)) }
    ensures cause { IfErr result (λ error. Since Anything (GivenUp error) (F.history folder.old) (F.history folder.new)) }
{
    let (file, beside) = new_beside(folder, alloc, name)?;
    match write_and_rename(folder, file, beside.as_str(), name, bytes) {
        Ok(()) => folder.sync_folder(),
        Err(why) => {
            let _ = folder.remove(beside.as_str());
            Err(why)
        }
    }
}
