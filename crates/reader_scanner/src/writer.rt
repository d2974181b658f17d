ghost use Rattle.std.specs.Prelude.{◌≡◌, ◌<◌, ◌≤◌, ◌+◌, [], ◌∷◌, ◌++◌, ◌↔◌, ◌⊎◌, length};
ghost use Rattle.std.specs.Prelude.{IfErr, OnOk, OnErr, IsErrOf};
ghost use Rattle.looks.specs.Looks.{plain_looks};
ghost use Rattle.reader_scanner.specs.ReaderState.{in_looks, filled_decimal};

use arrayvec::ArrayVec;
use char_files::{Buffer, MAX_FILE};
use looks::{Colour, FontName, Looks, Refusal};
use std::alloc::Global;
use std::marker::Model;

/// Writes characters to a buffer in its current looks (Project Oberon, chapter 5).
#[derive(Debug, Drop)]
pub struct Writer {
    buffer: Buffer,
    looks: Looks,
}

impl Model for Writer {
    ghost use Rattle.reader_scanner.specs.ReaderState.{WriterState};

    ghost Value = { WriterState };

    ghost view = { λ w. record { written = w.buffer; looks = w.looks } };
}

// The number in decimal digits, with blanks on the left up to this width.
fn filled(number: i32, width: u8) -> ArrayVec<u8, 255>
    ensures { result.items ≡ filled_decimal number width }
{
    let mut digits = itoa::Buffer::new();
    let digits = digits.format(number).as_bytes();
    let blanks = usize::from(width).saturating_sub(digits.len());
    let mut bytes = ArrayVec::new();
    for _ in 0..blanks {
        bytes.push(b' ');
    }
    let _ = bytes.try_extend_from_slice(digits);
    bytes
}

impl Writer {
    /// Nothing written, in the default looks.
    pub fn new(alloc: Global) -> Writer
        ensures { result ≡ record { written = []; looks = plain_looks } }
    {
        Writer {
            buffer: Buffer::new(alloc),
            looks: Looks::plain(),
        }
    }

    /// Writes a byte.
    ///
    /// Refused `FileSpent` where 2^24 characters are written, else `OutOfMemory` where memory is.
    pub fn write(&mut self, byte: u8) -> Result<(), Refusal>
        ensures ok { OnOk result
            (self.new ≡ record self.old { written = self.old.written ++ (byte, self.old.looks) ∷ [] }) }
        ensures full { IsErrOf result Refusal.FileSpent ↔ (length self.old.written ≡ MAX_FILE) }
        ensures errors { IfErr result (λ e. (e ≡ Refusal.FileSpent) ⊎ (e ≡ Refusal.OutOfMemory)) }
        ensures err { OnErr result (self.new ≡ self.old) }
    {
        self.buffer.push(byte, self.looks.copy())
    }

    /// Writes a line end, which is 0DH. Refused as `write` is.
    pub fn write_ln(&mut self) -> Result<(), Refusal>
        ensures ok { OnOk result
            (self.new ≡ record self.old { written = self.old.written ++ (13, self.old.looks) ∷ [] }) }
        ensures full { IsErrOf result Refusal.FileSpent ↔ (length self.old.written ≡ MAX_FILE) }
        ensures errors { IfErr result (λ e. (e ≡ Refusal.FileSpent) ⊎ (e ≡ Refusal.OutOfMemory)) }
        ensures err { OnErr result (self.new ≡ self.old) }
    {
        self.write(b'\r')
    }

    /// Writes bytes, all of them or none.
    ///
    /// Refused `FileSpent` where more than 2^24 characters would be written, else `OutOfMemory` where memory
    /// is.
    pub fn write_string(&mut self, bytes: &[u8]) -> Result<(), Refusal>
        ensures ok { OnOk result (self.new ≡ record self.old {
          written = self.old.written ++ in_looks self.old.looks bytes.now;
        }) }
        ensures full { IsErrOf result Refusal.FileSpent
            ↔ (MAX_FILE < length self.old.written + length bytes.now) }
        ensures errors { IfErr result (λ e. (e ≡ Refusal.FileSpent) ⊎ (e ≡ Refusal.OutOfMemory)) }
        ensures err { OnErr result (self.new ≡ self.old) }
    {
        self.buffer.push_all(bytes, &self.looks)
    }

    /// Writes a number in decimal digits, with blanks on the left up to this width. Refused as `write_string`
    /// is.
    pub fn write_int(&mut self, number: i32, width: u8) -> Result<(), Refusal>
        ensures ok { OnOk result (self.new ≡ record self.old {
          written = self.old.written ++ in_looks self.old.looks (filled_decimal number width);
        }) }
        ensures full { IsErrOf result Refusal.FileSpent
            ↔ (MAX_FILE < length self.old.written + length (filled_decimal number width)) }
        ensures errors { IfErr result (λ e. (e ≡ Refusal.FileSpent) ⊎ (e ≡ Refusal.OutOfMemory)) }
        ensures err { OnErr result (self.new ≡ self.old) }
    {
        let bytes = filled(number, width);
        self.write_string(bytes.as_slice())
    }

    /// The font of what is written next.
    pub fn set_font(&mut self, font: FontName)
        ensures { self.new ≡ record self.old { looks = record self.old.looks { font = font } } }
    {
        self.looks.font = font;
    }

    /// The colour of what is written next.
    pub fn set_colour(&mut self, colour: Colour)
        ensures { self.new ≡ record self.old { looks = record self.old.looks { colour = colour } } }
    {
        self.looks.colour = colour;
    }

    /// The vertical offset of what is written next.
    pub fn set_offset(&mut self, offset: i8)
        ensures { self.new ≡ record self.old { looks = record self.old.looks { offset = offset } } }
    {
        self.looks.offset = offset;
    }

    /// What was written.
    pub fn into_buffer(self) -> Buffer
        ensures { result ≡ self.written }
    {
        let Writer { buffer, looks: _ } = self;
        buffer
    }
}
