ghost use Rattle.std.specs.Prelude.{◌≡◌, ◌≢◌, [], ◌++◌, is_ok, if◌then◌else◌, IfOk};

use looks::Looks;
use std::alloc::{AllocError, Global};
use std::marker::Model;

/// Neighbouring characters of equal looks, one at least.
#[derive(Debug, Drop)]
pub struct LooksRun {
    looks: Looks,
    bytes: Vec<u8>,
}

impl Model for LooksRun {
    ghost use Rattle.std.specs.Prelude.{◌≢◌, []};
    ghost use Rattle.char_files.specs.Stretch.{Stretch};

    ghost Value = { Stretch };

    ghost view = { λ r. record { looks = r.looks; bytes = r.bytes.items } };

    ghost invariant = { λ r. r.bytes.items ≢ [] };
}

impl LooksRun {
    // Characters of these looks.
    pub(crate) fn new(alloc: Global, looks: Looks, bytes: &[u8]) -> Result<LooksRun, AllocError>
        requires { bytes.now ≢ [] }
        ensures { IfOk result (λ run. run ≡ record { looks = looks; bytes = bytes.now }) }
    {
        Ok(LooksRun {
            looks,
            bytes: Vec::from_slice(alloc, bytes)?,
        })
    }

    // More characters of these looks.
    pub(crate) fn push_all(&mut self, bytes: &[u8]) -> Result<(), AllocError>
        ensures { self.new
            ≡ (if is_ok result then record self.old { bytes = self.old.bytes ++ bytes.now } else self.old) }
    {
        self.bytes.extend_from_slice(bytes)?;
        Ok(())
    }

    pub(crate) fn copy(&self) -> Result<LooksRun, AllocError>
        ensures { IfOk result (λ run. run ≡ self.now) }
    {
        let alloc = *self.bytes.allocator();
        Ok(LooksRun {
            looks: self.looks.copy(),
            bytes: Vec::from_slice(alloc, &self.bytes)?,
        })
    }

    /// The looks of each of its characters.
    pub fn looks(&self) -> &Looks
        ensures { result.now ≡ self.now.looks }
    {
        &self.looks
    }

    /// Its characters in order, one at least.
    pub fn bytes(&self) -> &[u8]
        ensures value { result.now ≡ self.now.bytes }
        ensures some { self.now.bytes ≢ [] }
    {
        &self.bytes
    }
}
