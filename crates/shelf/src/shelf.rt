ghost use Rattle.std.specs.Prelude.{◌≡◌, ◌≤◌, ◌⊎◌, IfErr, IfOk, IsErrOf, OnErr, OnOk};
ghost use Rattle.shelf.specs.Files.{Counts, HasFile, IsThere, OthersStay, SameFiles, with_write};

use looks::Refusal;
use std::alloc::Global;

/// Files by their names. What one call reads and writes is whole: no file is open between calls.
///
/// An absent file is a failure, as is any other error of what holds the files.
pub trait Shelf {
    ghost use Rattle.std.specs.Prelude.{ℕ, List, Option};
    ghost use Rattle.shelf.specs.Files.{Files, Write};

    // The files; none where the shelf doesn't tell them.
    ghost files: { Self → Option Files };

    // How many calls failed.
    ghost faults: { Self → ℕ };

    // The writes that were asked for, also those that failed; none where the shelf doesn't tell them.
    ghost writes: { Self → Option (List Write) };

    /// The bytes of the file of this name. Refused `ReadFault` where the shelf fails, and `OutOfMemory` where memory is
    /// refused to the bytes of a file that is there.
    fn read(&mut self, alloc: Global, name: &str) -> Result<Vec<u8>, Refusal>
        ensures ok { IfOk result (λ bytes. HasFile (files self.old) name.now bytes.items) }
        ensures files { SameFiles (files self.old) (files self.new) }
        ensures errors { IfErr result (λ e. (e ≡ Refusal.ReadFault) ⊎ (e ≡ Refusal.OutOfMemory)) }
        ensures there { IsErrOf result Refusal.OutOfMemory → IsThere (files self.old) name.now }
        ensures fault { IsErrOf result Refusal.ReadFault → Counts (faults self.old) (faults self.new) }
        ensures kept { (¬ IsErrOf result Refusal.ReadFault) → faults self.new ≡ faults self.old }
        ensures rises { faults self.old ≤ faults self.new }
        ensures writes { writes self.new ≡ writes self.old };

    /// Makes these the bytes of the file of this name. Refused `WriteFault` alone, where the shelf fails: then
    /// nothing is said of this file's bytes.
    fn write(&mut self, name: &str, bytes: &[u8]) -> Result<(), Refusal>
        ensures ok { OnOk result (HasFile (files self.new) name.now bytes.now) }
        ensures others { OthersStay (files self.old) (files self.new) name.now }
        ensures errors { IfErr result (λ e. e ≡ Refusal.WriteFault) }
        ensures fault { OnErr result (Counts (faults self.old) (faults self.new)) }
        ensures kept { OnOk result (faults self.new ≡ faults self.old) }
        ensures rises { faults self.old ≤ faults self.new }
        ensures writes { writes self.new ≡ with_write name.now bytes.now (writes self.old) };

    /// How many calls failed. Past 2^64 - 1 they aren't counted.
    fn failures(&self) -> u64
        ensures { result ≡ faults self.now };
}
