ghost use Rattle.std.specs.Prelude.{◌≡◌, ◌+◌, ◌≤◌, ◌++◌, length, option_map, IfSome};
ghost use Rattle.std.specs.Prelude.{vec_capacity, vec_len};
ghost use Rattle.script_events.specs.Script.{bytes_in, split_byte};

use crate::hex_bytes::split_hex_byte;
use std::marker::Model;

/// Bytes as a line of a script spells them: a backslash and two hex digits of either case stand for one byte,
/// and each other byte for itself.
///
/// They are checked when they are parsed, and decoded when they are used.
#[derive(Debug, Drop)]
pub struct Escaped<'a> {
    raw: &'a [u8],
    // How many bytes are spelled.
    len: usize,
}

impl<'a> Model for Escaped<'a> {
    ghost use Rattle.std.specs.Prelude.{◌≡◌, ℕ, List, [], Some, length, option_map, unwrap_or};
    ghost use Rattle.script_events.specs.Script.{bytes_in};

    ghost Value = { List ℕ };

    ghost view = { λ e. unwrap_or (bytes_in e.raw.now) [] };

    ghost invariant = { λ e. option_map length (bytes_in e.raw.now) ≡ Some e.len };
}

impl<'a> Escaped<'a> {
    /// The bytes that `raw` spells, or `None` where a backslash stands without its two digits.
    pub fn new(raw: &'a [u8]) -> Option<Escaped<'a>>
        ensures bytes { result ≡ bytes_in raw.now }
        ensures shorter { IfSome result (λ bytes. length bytes ≤ length raw.now) }
    {
        if !raw.contains(&b'\\') {
            return Some(Escaped {
                raw,
                len: raw.len(),
            });
        }
        let mut len = 0;
        let mut rest = raw;
        while let Some((first, after)) = rest.split_first() {
            rest = split_byte(*first, after)?.1;
            len += 1;
        }
        Some(Escaped { raw, len })
    }

    /// How many bytes there are.
    pub fn len(&self) -> usize
        ensures { result ≡ length self.now }
    {
        self.len
    }

    /// The bytes as they stand in the line, where no backslash is among them: they need no decoding.
    pub fn as_plain(&self) -> Option<&'a [u8]>
        ensures { IfSome result (λ plain. plain.now ≡ self.now) }
    {
        (!self.raw.contains(&b'\\')).then_some(self.raw)
    }

    /// Puts the bytes after those that `out` has, which has the room.
    pub fn decode(&self, out: &mut Vec<u8>)
        requires { vec_len out.old + length self.now ≤ vec_capacity out.old }
        ensures bytes { out.new.items ≡ out.old.items ++ self.now }
        ensures room { vec_capacity out.new ≡ vec_capacity out.old }
    {
        let mut rest = self.raw;
        while let Some((first, after)) = rest.split_first() {
            let (byte, left) = split_byte(*first, after).unwrap();
            out.push_reserved(byte);
            rest = left;
        }
    }
}

// The byte that `first` spells with what stands after it, and what is left after that.
fn split_byte(first: u8, after: &[u8]) -> Option<(u8, &[u8])>
    ensures value { option_map (λ cut. (cut.0, cut.1.now)) result ≡ split_byte first after.now }
    ensures shorter { IfSome result (λ cut. length cut.1.now ≤ length after.now) }
{
    if first == b'\\' {
        split_hex_byte(after)
    } else {
        Some((first, after))
    }
}
