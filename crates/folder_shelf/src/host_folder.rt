ghost use Rattle.std.specs.Prelude.{None};

use crate::folder::{Folder, MAX_PIECE, PRIVATE};
use std::fs::{File, Files, OpenFile, OpenOptions, Permissions};
use std::io::{ErrorKind, Read, Write};
use std::os::unix::fs::{OpenOptionsExt, PermissionsExt};
use std::{fs, io};

/// The program's current folder. That each call does what `Folder` says is believed of the system: so no history is told.
#[derive(Drop)]
pub struct HostFolder<R> {
    pub host: R,
}

// Which bits of a mode are kept. What runs as a file's owner is not to run as another, who writes the file.
const RIGHTS: u32 = 0o777;

impl<R: Files + Drop> HostFolder<R> {
    // The mode of a name's plain file, if it has one. A link isn't followed: like a folder, a pipe or a device it is an error.
    fn mode(&self, name: &str) -> io::Result<Option<u32>> {
        match fs::symlink_metadata(&self.host, name) {
            Ok(told) if told.is_file() => Ok(Some(told.permissions().mode() & RIGHTS)),
            Ok(_) => Err(ErrorKind::InvalidInput.into()),
            Err(why) if why.kind() == ErrorKind::NotFound => Ok(None),
            Err(why) => Err(why),
        }
    }
}

impl<R: Files + Drop> Folder for HostFolder<R> {
    type File = R::File;

    ghost history = { λ folder. None };

    ghost number = { λ file. 0 };

    ghost place = { λ file. 0 };

    fn make_new(&mut self, name: &str, target: &str) -> io::Result<R::File> {
        let mut how = OpenOptions::new();
        how.read(true).write(true).create_new(true);
        if self.mode(target)?.is_some() {
            how.mode(PRIVATE);
        }
        how.open(&self.host, name)
    }

    fn take_mode(&mut self, file: &R::File, name: &str) -> io::Result<()> {
        match self.mode(name)? {
            Some(mode) => file.set_permissions(Permissions::from_mode(mode)),
            None => Ok(()),
        }
    }

    fn append(&mut self, file: &mut R::File, bytes: &[u8]) -> io::Result<()> {
        file.write_all(bytes)
    }

    fn sync(&mut self, file: &R::File) -> io::Result<()> {
        file.sync_all()
    }

    fn rename(&mut self, from: &str, to: &str) -> io::Result<()> {
        fs::rename(&self.host, from, to)
    }

    fn remove(&mut self, name: &str) -> io::Result<()> {
        fs::remove_file(&self.host, name)
    }

    fn sync_folder(&mut self) -> io::Result<()> {
        File::open(&self.host, ".")?.sync_all()
    }

    // A link isn't followed, and a pipe isn't opened, since that may wait for its writer.
    fn look(&mut self, name: &str) -> io::Result<Option<u64>> {
        let told = fs::symlink_metadata(&self.host, name)?;
        Ok(if told.is_file() {
            Some(told.len())
        } else {
            None
        })
    }

    fn open(&mut self, name: &str) -> io::Result<R::File> {
        File::open(&self.host, name)
    }

    fn read(&mut self, file: &mut R::File, bytes: &mut Vec<u8>) -> io::Result<usize> {
        Read::by_ref(file).take(MAX_PIECE as u64).read_to_end(bytes)
    }
}
