ghost use Rattle.std.specs.Prelude.{◌≡◌, ◌<◌, ◌≤◌, ◌+◌, [], ◌++◌, ◌↔◌, ◌⊎◌, length, slice_index, slice_range};
ghost use Rattle.std.specs.Prelude.{IfOk, IfErr, IsOk, OnOk, OnErr, IsErrOf, IsTrue};

use crate::MAX_FILE;
use looks::Refusal;
use std::alloc::Global;
use std::marker::Model;

/// The bytes that one site inserted in one text, in the order in which it did: at most 2^24.
///
/// Bytes are appended and never overwritten, as in the files of Oberon's texts (Project Oberon, chapter 5).
#[derive(Debug, Drop)]
pub struct CharFile {
    bytes: Vec<u8>,
}

impl Model for CharFile {
    ghost use Rattle.std.specs.Prelude.{◌≤◌, ◌-◌, min, vec_len, vec_capacity};
    ghost use Rattle.char_files.specs.CharFiles.{FileSeen};
    ghost use Rattle.char_files.specs.declared.TheConstants.{MAX_FILE};

    ghost Value = { FileSeen };

    ghost view = { λ f. record {
      bytes = f.bytes.items;
      room = min (vec_capacity f.bytes) MAX_FILE - vec_len f.bytes;
    } };

    ghost invariant = { λ f. vec_len f.bytes ≤ MAX_FILE };
}

impl CharFile {
    /// No bytes.
    pub fn new(alloc: Global) -> CharFile
        ensures { result.bytes ≡ [] }
    {
        CharFile {
            bytes: Vec::new(alloc),
        }
    }

    /// How many bytes there are, at most 2^24.
    pub fn len(&self) -> u32
        ensures value { result ≡ length self.now.bytes }
        ensures bound { result ≤ MAX_FILE }
    {
        self.bytes.len() as u32
    }

    /// The byte at this offset.
    pub fn byte(&self, off: u32) -> u8
        requires { off < length self.now.bytes }
        ensures { result ≡ slice_index self.now.bytes off }
    {
        self.bytes[off as usize]
    }

    /// The bytes from one offset to another.
    pub fn bytes(&self, beg: u32, end: u32) -> &[u8]
        requires rising { beg ≤ end }
        requires in_file { end ≤ length self.now.bytes }
        ensures { result.now ≡ slice_range self.now.bytes beg end }
    {
        &self.bytes[beg as usize..end as usize]
    }

    // Whether n more bytes pass the limit.
    fn is_spent_by(&self, n: usize) -> bool
        ensures { IsTrue result ↔ (MAX_FILE < length self.now.bytes + n) }
    {
        MAX_FILE - (self.bytes.len() as u64) < n as u64
    }

    /// Makes room for n more bytes: an append of at most so many takes no memory, and succeeds.
    ///
    /// Refused `FileSpent` where n more bytes pass 2^24, else `OutOfMemory` where memory is.
    pub fn reserve(&mut self, n: usize) -> Result<(), Refusal>
        ensures ok { OnOk result (n ≤ self.new.room) }
        ensures spent { IsErrOf result Refusal.FileSpent ↔ (MAX_FILE < length self.old.bytes + n) }
        ensures errors { IfErr result (λ e. (e ≡ Refusal.FileSpent) ⊎ (e ≡ Refusal.OutOfMemory)) }
        ensures unchanged { self.new.bytes ≡ self.old.bytes }
    {
        if self.is_spent_by(n) {
            return Err(Refusal::FileSpent);
        }
        self.bytes.reserve(n)?;
        Ok(())
    }

    /// Puts the bytes at the end, and gives the offset of the first one.
    ///
    /// Refused `FileSpent` where they pass 2^24, else `OutOfMemory` where memory is.
    pub fn append(&mut self, bytes: &[u8]) -> Result<u32, Refusal>
        ensures ok { OnOk result (self.new.bytes ≡ self.old.bytes ++ bytes.now) }
        ensures offset { IfOk result (λ off. off ≡ length self.old.bytes) }
        ensures spent { IsErrOf result Refusal.FileSpent
            ↔ (MAX_FILE < length self.old.bytes + length bytes.now) }
        ensures errors { IfErr result (λ e. (e ≡ Refusal.FileSpent) ⊎ (e ≡ Refusal.OutOfMemory)) }
        ensures err { OnErr result (self.new.bytes ≡ self.old.bytes) }
        ensures reserved { length bytes.now ≤ self.old.room → IsOk result }
    {
        if self.is_spent_by(bytes.len()) {
            return Err(Refusal::FileSpent);
        }
        let off = self.bytes.len() as u32;
        self.bytes.extend_from_slice(bytes)?;
        Ok(off)
    }
}
