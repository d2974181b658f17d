ghost use Rattle.std.specs.Prelude.{◌≡◌, ◌<◌, ◌≤◌, ◌+◌, [], ◌++◌, ◌↔◌, ◌⊎◌, length, slice_index, slice_range};
ghost use Rattle.std.specs.Prelude.{IfOk, IfErr, IsOk, OnOk, OnErr, IsErrOf};
ghost use Rattle.char_files.specs.CharFiles.{bytes_of, file_room, OtherSitesStay, SameBytes};

use crate::MAX_FILE;
use crate::char_file::CharFile;
use crate::name::Name;
use crate::site_map::SiteMap;
use crate::site_no::SiteNo;
use looks::Refusal;
use std::alloc::Global;
use std::marker::Model;

/// The files of all sites that inserted bytes in a text, each at most 2^24 bytes long.
#[derive(Drop)]
pub struct CharFiles {
    files: SiteMap<CharFile>,
    alloc: Global,
}

impl Model for CharFiles {
    ghost use Rattle.char_files.specs.CharFiles.{FilesBySite};

    ghost Value = { FilesBySite };

    ghost view = { λ f. f.files };
}

impl CharFiles {
    /// No files.
    pub fn new(alloc: Global) -> CharFiles
        ensures { result ≡ [] }
    {
        CharFiles {
            files: SiteMap::new(alloc),
            alloc,
        }
    }

    /// The length of a site's file; 0 where it has none.
    pub fn len(&self, site: SiteNo) -> u32
        ensures value { result ≡ length (bytes_of self.now site) }
        ensures bound { result ≤ MAX_FILE }
    {
        match self.files.get(site) {
            Some(file) => file.len(),
            None => 0,
        }
    }

    /// The byte of this name.
    pub fn byte(&self, name: Name) -> u8
        requires { name.off < length (bytes_of self.now name.site) }
        ensures { result ≡ slice_index (bytes_of self.now name.site) name.off }
    {
        match self.files.get(name.site()) {
            Some(file) => file.byte(name.off()),
            None => unreachable!(),
        }
    }

    /// The bytes of a site's file from one offset to another.
    pub fn bytes(&self, site: SiteNo, beg: u32, end: u32) -> &[u8]
        requires rising { beg ≤ end }
        requires in_file { end ≤ length (bytes_of self.now site) }
        ensures { result.now ≡ slice_range (bytes_of self.now site) beg end }
    {
        match self.files.get(site) {
            Some(file) => file.bytes(beg, end),
            None => &[],
        }
    }

    /// Makes room for n more bytes of a site: the next append to it of at most so many takes no memory, and
    /// succeeds.
    ///
    /// Refused `FileSpent` where n more bytes pass 2^24, else `OutOfMemory` where memory is.
    pub fn reserve(&mut self, site: SiteNo, n: usize) -> Result<(), Refusal>
        ensures ok { OnOk result (n ≤ file_room self.new site) }
        ensures spent { IsErrOf result Refusal.FileSpent ↔ (MAX_FILE < length (bytes_of self.old site) + n) }
        ensures errors { IfErr result (λ e. (e ≡ Refusal.FileSpent) ⊎ (e ≡ Refusal.OutOfMemory)) }
        ensures unchanged { SameBytes self.old self.new }
    {
        if let Some(file) = self.files.get_mut(site) {
            return file.reserve(n);
        }
        let mut file = CharFile::new(self.alloc);
        file.reserve(n)?;
        self.files.insert(site, file)?;
        Ok(())
    }

    /// Puts the bytes at the end of a site's file, and gives the offset of the first one.
    ///
    /// Refused `FileSpent` where they pass 2^24, else `OutOfMemory` where memory is.
    pub fn append(&mut self, site: SiteNo, bytes: &[u8]) -> Result<u32, Refusal>
        ensures ok { OnOk result (bytes_of self.new site ≡ bytes_of self.old site ++ bytes.now) }
        ensures others { OtherSitesStay self.old site self.new }
        ensures offset { IfOk result (λ off. off ≡ length (bytes_of self.old site)) }
        ensures spent { IsErrOf result Refusal.FileSpent
            ↔ (MAX_FILE < length (bytes_of self.old site) + length bytes.now) }
        ensures errors { IfErr result (λ e. (e ≡ Refusal.FileSpent) ⊎ (e ≡ Refusal.OutOfMemory)) }
        ensures err { OnErr result (bytes_of self.new site ≡ bytes_of self.old site) }
        ensures reserved { length bytes.now ≤ file_room self.old site → IsOk result }
    {
        if let Some(file) = self.files.get_mut(site) {
            return file.append(bytes);
        }
        if bytes.is_empty() {
            return Ok(0);
        }
        let mut file = CharFile::new(self.alloc);
        let off = file.append(bytes)?;
        self.files.insert(site, file)?;
        Ok(off)
    }
}
