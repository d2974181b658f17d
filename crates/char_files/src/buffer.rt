ghost use Rattle.std.specs.Prelude.{◌≡◌, ◌<◌, ◌≤◌, ◌+◌, [], ◌∷◌, ◌++◌, ◌↔◌, ◌⊎◌, length, map};
ghost use Rattle.std.specs.Prelude.{IfOk, IfErr, OnOk, OnErr, IsTrue, IsErrOf};
ghost use Rattle.looks.specs.Refusal.{RefusedForMemoryAlone};
ghost use Rattle.char_files.specs.Stretch.{items_of, AreRuns, EndsIn};

use crate::MAX_FILE;
use crate::looks_run::LooksRun;
use looks::{Looks, Refusal};
use std::alloc::{AllocError, Global};
use std::marker::Model;

/// Characters with their looks, outside any text: at most 2^24 of them, kept as runs of equal looks.
///
/// These are Oberon's buffers (Project Oberon, chapter 5).
#[derive(Debug, Drop)]
pub struct Buffer {
    runs: Vec<LooksRun>,
    len: u64,
}

impl Model for Buffer {
    ghost use Rattle.std.specs.Prelude.{◌≡◌, List, length};
    ghost use Rattle.char_files.specs.Stretch.{Item, items_of, IsBuffer};

    ghost Value = { List Item };

    ghost view = { λ b. items_of b.runs.items };

    ghost invariant = { λ b. IsBuffer b.runs.items b.len };
}

// Whether the last run has these looks.
fn ends_in(runs: &[LooksRun], looks: &Looks) -> bool
    ensures { IsTrue result ↔ EndsIn runs.now looks.now }
{
    match runs.last() {
        Some(last) => last.looks() == looks,
        None => false,
    }
}

// Puts the bytes at the end, all of them or none.
fn push_bytes(runs: &mut Vec<LooksRun>, bytes: &[u8], looks: &Looks) -> Result<(), AllocError>
    ensures ok { OnOk result
        (items_of runs.new.items ≡ items_of runs.old.items ++ map (λ b. (b, looks.now)) bytes.now) }
    ensures maximal { AreRuns runs.old.items → AreRuns runs.new.items }
    ensures err { OnErr result (runs.new.items ≡ runs.old.items) }
{
    if bytes.is_empty() {
        return Ok(());
    }
    if ends_in(runs, looks) {
        let last = runs.len() - 1;
        return runs[last].push_all(bytes);
    }
    let run = LooksRun::new(*runs.allocator(), looks.copy(), bytes)?;
    runs.push(run)?;
    Ok(())
}

impl Buffer {
    /// No characters.
    pub fn new(alloc: Global) -> Buffer
        ensures { result ≡ [] }
    {
        Buffer {
            runs: Vec::new(alloc),
            len: 0,
        }
    }

    /// How many characters there are, at most 2^24.
    pub fn len(&self) -> u64
        ensures value { result ≡ length self.now }
        ensures bound { result ≤ MAX_FILE }
    {
        self.len
    }

    /// Whether there is no character.
    pub fn is_empty(&self) -> bool
        ensures { IsTrue result ↔ (self.now ≡ []) }
    {
        self.len == 0
    }

    /// The characters as maximal runs of equal looks.
    pub fn runs(&self) -> &[LooksRun]
        ensures value { items_of result.now ≡ self.now }
        ensures maximal { AreRuns result.now }
    {
        &self.runs
    }

    /// Puts a character at the end.
    ///
    /// Refused `FileSpent` where 2^24 characters are here, else `OutOfMemory` where memory is.
    pub fn push(&mut self, byte: u8, looks: Looks) -> Result<(), Refusal>
        ensures ok { OnOk result (self.new ≡ self.old ++ (byte, looks) ∷ []) }
        ensures full { IsErrOf result Refusal.FileSpent ↔ (length self.old ≡ MAX_FILE) }
        ensures errors { IfErr result (λ e. (e ≡ Refusal.FileSpent) ⊎ (e ≡ Refusal.OutOfMemory)) }
        ensures err { OnErr result (self.new ≡ self.old) }
    {
        // There are at most 2^24 characters.
        let _ = &self.len;
        self.push_all(&[byte], &looks)
    }

    /// Puts bytes of one set of looks at the end, all of them or none.
    ///
    /// Refused `FileSpent` where they pass 2^24 characters, else `OutOfMemory` where memory is.
    pub fn push_all(&mut self, bytes: &[u8], looks: &Looks) -> Result<(), Refusal>
        ensures ok { OnOk result (self.new ≡ self.old ++ map (λ b. (b, looks.now)) bytes.now) }
        ensures full { IsErrOf result Refusal.FileSpent
            ↔ (MAX_FILE < length self.old + length bytes.now) }
        ensures errors { IfErr result (λ e. (e ≡ Refusal.FileSpent) ⊎ (e ≡ Refusal.OutOfMemory)) }
        ensures err { OnErr result (self.new ≡ self.old) }
    {
        if MAX_FILE - self.len < bytes.len() as u64 {
            return Err(Refusal::FileSpent);
        }
        push_bytes(&mut self.runs, bytes, looks)?;
        self.len += bytes.len() as u64;
        Ok(())
    }

    /// The same characters again. Refused `OutOfMemory` alone.
    pub fn copy(&self) -> Result<Buffer, Refusal>
        ensures ok { IfOk result (λ buffer. buffer ≡ self.now) }
        ensures errors { RefusedForMemoryAlone result }
    {
        let mut runs = Vec::new(*self.runs.allocator());
        for run in &self.runs {
            runs.push(run.copy()?)?;
        }
        Ok(Buffer {
            runs,
            len: self.len,
        })
    }
}
