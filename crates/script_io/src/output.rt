ghost use Rattle.std.specs.Prelude.{◌≡◌, ◌<◌, ◌≤◌, ◌||◌, false, is_err, is_ok, length, take, IfErr, IfOk};
ghost use Rattle.std.specs.Prelude.{OnErr};
ghost use Rattle.std.specs.Io.KnownBytes.{Appends, Keeps};

use looks::Refusal;
use std::io::Write;
use std::marker::Model;

/// The writer of a run, and what became of its calls. No other code calls the writer, or says of it that it
/// failed.
#[derive(Drop)]
pub struct Output<W: Write> {
    writer: W,
    // Whether a write or a flush failed.
    failed: bool,
    // Whether all that was written was flushed.
    flushed: bool,
}

impl<W: Write> Model for Output<W> {
    ghost use Rattle.script_io.specs.Wires.{OutputState};

    ghost Value = { OutputState };

    ghost view = { λ o. record { contents = W.contents o.writer; failed = o.failed; flushed = o.flushed } };
}

impl<W: Write> Output<W> {
    /// A writer to which nothing was written yet.
    pub fn new(writer: W) -> Output<W>
        ensures contents { result.contents ≡ W.contents writer }
        ensures failed { result.failed ≡ false }
        ensures flushed { result.flushed ≡ false }
    {
        Output {
            writer,
            failed: false,
            flushed: false,
        }
    }

    /// Writes some of these bytes, which aren't none, and answers how many: one at least. A writer that
    /// fails, is interrupted or takes nothing is a fault.
    pub fn write(&mut self, bytes: &[u8]) -> Result<usize, Refusal>
        requires some { 0 < length bytes.now }
        ensures ok { IfOk result (λ count. (0 < count) × (count ≤ length bytes.now)
            × Appends self.old.contents self.new.contents (take count bytes.now)) }
        ensures err { OnErr result (Keeps self.old.contents self.new.contents) }
        ensures errors { IfErr result (λ e. e ≡ Refusal.WriteFault) }
        ensures failed { self.new.failed ≡ (self.old.failed || is_err result) }
        ensures cleared { self.new.flushed ≡ false }
    {
        self.flushed = false;
        match self.writer.write(bytes) {
            // Neither is tried again: either may come each time.
            Ok(0) | Err(_) => {
                self.failed = true;
                Err(Refusal::WriteFault)
            }
            Ok(count) => Ok(count),
        }
    }

    /// Flushes what was written. A writer that fails is a fault.
    pub fn flush(&mut self) -> Result<(), Refusal>
        ensures kept { Keeps self.old.contents self.new.contents }
        ensures errors { IfErr result (λ e. e ≡ Refusal.WriteFault) }
        ensures failed { self.new.failed ≡ (self.old.failed || is_err result) }
        ensures flushed { self.new.flushed ≡ is_ok result }
    {
        match self.writer.flush() {
            Ok(()) => {
                self.flushed = true;
                Ok(())
            }
            Err(_) => {
                self.failed = true;
                self.flushed = false;
                Err(Refusal::WriteFault)
            }
        }
    }

    /// Whether a call of the writer failed.
    pub fn failed(&self) -> bool
        ensures { result ≡ self.now.failed }
    {
        self.failed
    }

    /// Whether all that was written was flushed.
    pub fn flushed(&self) -> bool
        ensures { result ≡ self.now.flushed }
    {
        self.flushed
    }

    /// The writer.
    pub fn into_writer(self) -> W
        ensures { W.contents result ≡ self.contents }
    {
        let Output {
            writer,
            failed: _,
            flushed: _,
        } = self;
        writer
    }
}
