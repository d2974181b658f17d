ghost use Rattle.std.specs.Prelude.{◌≡◌, ◌+◌, ◌<◌, ◌≤◌, ◌++◌, length, option_map, IfSome};
ghost use Rattle.std.specs.Prelude.{vec_capacity, vec_len};
ghost use Rattle.hex.specs.Hex.{hex_digit_value};
ghost use Rattle.script_events.specs.Script.{split_hex_byte, hex_in};

use std::marker::Model;

/// A message as a line of a script spells it: two hex digits of either case for each byte, one byte at least.
///
/// They are checked when they are parsed, and decoded when they are used.
#[derive(Debug, Drop)]
pub struct Hex<'a> {
    raw: &'a [u8],
}

impl<'a> Model for Hex<'a> {
    ghost use Rattle.std.specs.Prelude.{ℕ, List, [], IsSome, unwrap_or};
    ghost use Rattle.script_events.specs.Script.{hex_in};

    ghost Value = { List ℕ };

    ghost view = { λ h. unwrap_or (hex_in h.raw.now) [] };

    ghost invariant = { λ h. IsSome (hex_in h.raw.now) };
}

impl<'a> Hex<'a> {
    /// The bytes that `raw` spells, or `None` where it has other characters, an odd number of digits or none.
    pub fn new(raw: &'a [u8]) -> Option<Hex<'a>>
        ensures bytes { result ≡ hex_in raw.now }
        ensures shorter { IfSome result (λ bytes. length bytes ≤ length raw.now) }
    {
        if raw.is_empty() {
            return None;
        }
        let mut rest = raw;
        while !rest.is_empty() {
            rest = split_hex_byte(rest)?.1;
        }
        Some(Hex { raw })
    }

    /// Puts the bytes after those that `out` has, which has the room.
    pub fn decode(&self, out: &mut Vec<u8>)
        requires { vec_len out.old + length self.now ≤ vec_capacity out.old }
        ensures bytes { out.new.items ≡ out.old.items ++ self.now }
        ensures room { vec_capacity out.new ≡ vec_capacity out.old }
    {
        let mut rest = self.raw;
        while !rest.is_empty() {
            let (byte, left) = split_hex_byte(rest).unwrap();
            out.push_reserved(byte);
            rest = left;
        }
    }
}

// The byte of the two hex digits in front, and what stands after them.
pub(crate) fn split_hex_byte(raw: &[u8]) -> Option<(u8, &[u8])>
    ensures value { option_map (λ cut. (cut.0, cut.1.now)) result ≡ split_hex_byte raw.now }
    ensures shorter { IfSome result (λ cut. length cut.1.now + 2 ≡ length raw.now) }
{
    let [high, low, rest @ ..] = raw else {
        return None;
    };
    Some((16 * hex_digit(*high)? + hex_digit(*low)?, rest))
}

// The value of a hex digit of either case, from the bits of its code: no branch hangs on which digit it is.
fn hex_digit(byte: u8) -> Option<u8>
    ensures value { result ≡ hex_digit_value byte }
    ensures small { IfSome result (λ digit. digit < 16) }
{
    byte.is_ascii_hexdigit()
        .then_some(byte % 16 + 9 * (byte / 64))
}
