ghost use Rattle.std.specs.Prelude.{◌≡◌, ◌≢◌, ◌↔◌, ◌≤◌, ◌⊎◌, ℕ, List, IsTrue, IsErr, IsErrOf, IfErr, IfOk, OnErr, OnOk};
ghost use Rattle.std.specs.Prelude.{IsOkUnless, None, Some};
ghost use Rattle.shelf.specs.Files.{Counts, OthersStay};
ghost use Rattle.shelf.specs.Memory.{HasNoFile, calls_left, files_in};

use crate::shelf::Shelf;
use looks::Refusal;
use std::alloc::{AllocError, Global};
use std::collections::BTreeMap;

/// A shelf over memory, which reports its files, for tests.
#[derive(Drop)]
pub struct MemoryShelf {
    /// The files by their names.
    pub files: BTreeMap<String, Vec<u8>>,
    /// How many calls failed.
    pub failures: u64,
    /// How many calls go well before one is made to fail; none where no call is.
    pub good_calls: Option<u64>,
    /// What the last write was refused: memory; none where it was done, or was made to fail.
    pub refused: Option<Refusal>,
    /// What the files' memory is taken of.
    pub alloc: Global,
}

impl MemoryShelf {
    /// No files.
    pub fn new(alloc: Global) -> MemoryShelf
        ensures files { HasNoFile (files_in result.files) }
        ensures failures { result.failures ≡ 0 }
        ensures good_calls { result.good_calls ≡ None }
    {
        MemoryShelf {
            files: BTreeMap::new(alloc),
            alloc,
            failures: 0,
            good_calls: None,
            refused: None,
        }
    }

    // Whether the call that begins is the one that is to fail.
    fn is_to_fail(&mut self) -> bool
        ensures files { self.new.files ≡ self.old.files }
        ensures failures { self.new.failures ≡ self.old.failures }
        ensures told { IsTrue result ↔ (self.old.good_calls ≡ Some 0) }
        ensures left { self.new.good_calls ≡ calls_left self.old.good_calls }
        ensures refused { self.new.refused ≡ self.old.refused }
    {
        match self.good_calls {
            None => false,
            Some(0) => {
                self.good_calls = None;
                true
            }
            Some(calls) => {
                self.good_calls = Some(calls - 1);
                false
            }
        }
    }

    // Counts a failure.
    fn count(&mut self)
        ensures files { self.new.files ≡ self.old.files }
        ensures failures { Counts self.old.failures self.new.failures }
        ensures left { self.new.good_calls ≡ self.old.good_calls }
        ensures refused { self.new.refused ≡ self.old.refused }
    {
        self.failures = self.failures.saturating_add(1);
    }

    // Keeps these bytes under this name.
    fn keep(&mut self, name: &str, bytes: &[u8]) -> Result<(), AllocError>
        ensures ok { OnOk result (files_in self.new.files name.now ≡ Some bytes.now) }
        ensures others { (other : List ℕ) → other ≢ name.now → files_in self.new.files other ≡ files_in self.old.files other }
        ensures err { OnErr result ((other : List ℕ) → files_in self.new.files other ≡ files_in self.old.files other) }
        ensures failures { self.new.failures ≡ self.old.failures }
        ensures left { self.new.good_calls ≡ self.old.good_calls }
        ensures refused { self.new.refused ≡ self.old.refused }
    {
        let key = String::from_str(self.alloc, name)?;
        let bytes = Vec::from_slice(self.alloc, bytes)?;
        self.files.insert(key, bytes)?;
        Ok(())
    }
}

impl Shelf for MemoryShelf {
    ghost files = { λ m. Some (files_in m.files) };

    ghost faults = { λ m. m.failures };

    ghost writes = { λ m. None };

    // As each shelf does; and it fails exactly where it was told to or has no such file.
    fn read(&mut self, alloc: Global, name: &str) -> Result<Vec<u8>, Refusal>
        ensures ok { IfOk result (λ bytes. files_in self.old.files name.now ≡ Some bytes.items) }
        ensures files { self.new.files ≡ self.old.files }
        ensures errors { IfErr result (λ e. (e ≡ Refusal.ReadFault) ⊎ (e ≡ Refusal.OutOfMemory)) }
        ensures fault { IsErrOf result Refusal.ReadFault → Counts self.old.failures self.new.failures }
        ensures kept { (¬ IsErrOf result Refusal.ReadFault) → self.new.failures ≡ self.old.failures }
        ensures rises { self.old.failures ≤ self.new.failures }
        ensures told { self.old.good_calls ≡ Some 0 → IsErrOf result Refusal.ReadFault }
        ensures absent { files_in self.old.files name.now ≡ None → IsErrOf result Refusal.ReadFault }
        ensures good { (bytes : List ℕ) → self.old.good_calls ≢ Some 0 → files_in self.old.files name.now ≡ Some bytes
            → IsOkUnless result Refusal.OutOfMemory }
        ensures left { self.new.good_calls ≡ calls_left self.old.good_calls }
    {
        if self.is_to_fail() {
            self.count();
            return Err(Refusal::ReadFault);
        }
        match self.files.get(name) {
            Some(bytes) => Ok(Vec::from_slice(alloc, bytes.as_slice())?),
            None => {
                self.count();
                Err(Refusal::ReadFault)
            }
        }
    }

    // As each shelf does; and it fails exactly where it was told to, or memory is refused, which is kept: then the file is as
    // before.
    fn write(&mut self, name: &str, bytes: &[u8]) -> Result<(), Refusal>
        ensures ok { OnOk result (files_in self.new.files name.now ≡ Some bytes.now) }
        ensures others { OthersStay (Some (files_in self.old.files)) (Some (files_in self.new.files)) name.now }
        ensures errors { IfErr result (λ e. e ≡ Refusal.WriteFault) }
        ensures fault { OnErr result (Counts self.old.failures self.new.failures) }
        ensures kept { OnOk result (self.new.failures ≡ self.old.failures) }
        ensures rises { self.old.failures ≤ self.new.failures }
        ensures told { self.old.good_calls ≡ Some 0 → IsErr result }
        ensures good { self.old.good_calls ≢ Some 0 → IsErr result → self.new.refused ≡ Some Refusal.OutOfMemory }
        ensures done { OnOk result (self.new.refused ≡ None) }
        ensures same { OnErr result (files_in self.new.files name.now ≡ files_in self.old.files name.now) }
        ensures left { self.new.good_calls ≡ calls_left self.old.good_calls }
    {
        self.refused = None;
        if !self.is_to_fail() {
            match self.keep(name, bytes) {
                Ok(()) => return Ok(()),
                Err(why) => self.refused = Some(Refusal::from(why)),
            }
        }
        self.count();
        Err(Refusal::WriteFault)
    }

    fn failures(&self) -> u64 {
        self.failures
    }
}
