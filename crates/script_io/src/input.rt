ghost use Rattle.std.specs.Prelude.{◌≡◌, ◌↔◌, ◌≤◌, ◌-◌, ◌||◌, false, is_err, ℕ, List, ◌∷◌, ◌++◌, length, drop, Ok, Some, Contains, IfOk, IsTrue};
ghost use Rattle.std.specs.Prelude.{vec_capacity, vec_len};
ghost use Rattle.std.specs.Io.KnownBytes.{Consumes};
ghost use Rattle.looks.specs.Refusal.{RefusedForMemoryAlone};
ghost use Rattle.script_io.specs.Wires.{line_front, TakesByte};

use crate::lines::MAX_LINE;
use looks::Refusal;
use std::alloc::Global;
use std::io::{BufRead, BufReader, Read};
use std::marker::Model;

// How many bytes are held at most: two of the longest lines with their newlines. So a script that is at hand isn't put
// out line by line.
const HELD: usize = 2 * (MAX_LINE + 1);

// What is held of a line, before its newline: `most` bytes at most.
fn front_of_line(held: &[u8], most: usize) -> &[u8]
    ensures { result.now ≡ line_front most held.now }
{
    let near = &held[..most.min(held.len())];
    let count = near
        .iter()
        .position(|byte| *byte == b'\n')
        .unwrap_or(near.len());
    &near[..count]
}

/// The reader of a run, and whether a call of it failed. No other code calls the reader, or says of it that
/// it failed.
#[derive(Drop)]
pub struct Input<R: Read + Drop> {
    reader: BufReader<R>,
    failed: bool,
}

impl<R: Read + Drop> Model for Input<R> {
    ghost use Rattle.std.specs.Io.Buffered.{reader_buffer, reader_remaining};
    ghost use Rattle.script_io.specs.Wires.{InputState};

    ghost Value = { InputState };

    ghost view = { λ i. record {
      left = reader_remaining R.remaining i.reader;
      held = reader_buffer i.reader;
      failed = i.failed;
    } };
}

impl<R: Read + Drop> Input<R> {
    /// A reader that wasn't asked for anything yet. Refused `OutOfMemory` alone, for its buffer.
    pub fn new(alloc: Global, reader: R) -> Result<Input<R>, Refusal>
        ensures left { IfOk result (λ input. input.left ≡ R.remaining reader) }
        ensures failed { IfOk result (λ input. input.failed ≡ false) }
        ensures errors { RefusedForMemoryAlone result }
    {
        match BufReader::with_capacity(alloc, HELD, reader) {
            Ok(reader) => Ok(Input {
                reader,
                failed: false,
            }),
            Err(error) => Err(Refusal::of_error(&error, Refusal::ReadFault)),
        }
    }

    /// The next byte, or none at the end. Any error of the reader is a fault. The reader isn't asked while a byte
    /// is held.
    pub(crate) fn byte(&mut self) -> Result<Option<u8>, Refusal>
        ensures bytes { TakesByte self.old.left self.new.left result }
        ensures failed { self.new.failed ≡ (self.old.failed || is_err result) }
        ensures held { (byte : ℕ) (rest : List ℕ) → self.old.held ≡ byte ∷ rest
            → (result ≡ Ok (Some byte)) × (self.new.held ≡ rest) }
    {
        match self.reader.buffer().first().copied() {
            Some(byte) => {
                self.reader.consume(1);
                Ok(Some(byte))
            }
            None => self.read_byte(),
        }
    }

    // The next byte, for which the reader is asked.
    fn read_byte(&mut self) -> Result<Option<u8>, Refusal>
        ensures bytes { TakesByte self.old.left self.new.left result }
        ensures failed { self.new.failed ≡ (self.old.failed || is_err result) }
    {
        let mut byte = [0];
        match self.reader.read(&mut byte) {
            Ok(0) => Ok(None),
            Ok(_) => Ok(Some(byte[0])),
            // An interrupted read is an error as any other: it may come again each time.
            Err(_) => {
                self.failed = true;
                Err(Refusal::ReadFault)
            }
        }
    }

    /// Moves what is held of a line, before its newline, after `line`, until that has `most` bytes. The reader
    /// isn't asked.
    pub(crate) fn move_held(&mut self, line: &mut Vec<u8>, most: usize)
        requires short { vec_len line.old ≤ most }
        requires room { most ≤ vec_capacity line.old }
        ensures moved { line.new.items ≡ line.old.items ++ line_front (most - vec_len line.old) self.old.held }
        ensures left { Consumes self.old.left self.new.left (line_front (most - vec_len line.old) self.old.held) }
        ensures held { self.new.held
            ≡ drop (length (line_front (most - vec_len line.old) self.old.held)) self.old.held }
        ensures failed { self.new.failed ≡ self.old.failed }
        ensures room { vec_capacity line.old ≤ vec_capacity line.new }
    {
        let front = front_of_line(self.reader.buffer(), most - line.len());
        let count = front.len();
        // There is room for them.
        let _ = line.extend_from_slice(front);
        self.reader.consume(count);
    }

    /// Whether a whole line is at hand, for which the reader isn't asked.
    pub fn holds_line(&self) -> bool
        ensures { IsTrue result ↔ Contains self.now.held 10 }
    {
        self.reader.buffer().contains(&b'\n')
    }

    /// Whether a call of the reader failed.
    pub fn failed(&self) -> bool
        ensures { result ≡ self.now.failed }
    {
        self.failed
    }
}
