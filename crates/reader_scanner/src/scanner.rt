ghost use Rattle.std.specs.Prelude.{◌≡◌, ◌+◌, ◌-◌, ◌<◌, ◌≤◌, length, slice_index, Some, None, pos};
ghost use Rattle.std.specs.Prelude.{if◌then◌else◌, ◌-ℤ◌, ◌^◌, ◌==◌, ◌&&◌};
ghost use Rattle.std.specs.Char.{is_ascii_digit};
ghost use Rattle.std.specs.List.{prefix_len};
ghost use Rattle.std.specs.Str.Parse.{digits_value};
ghost use Rattle.reader_scanner.specs.Lexeme.{has_byte, name_at, string_at, int_at, lexeme_at};
ghost use Rattle.reader_scanner.specs.ReaderState.{item_bytes, bytes_from, bytes_between};
ghost use Rattle.reader_scanner.specs.Tokens.{IsTokenAt, is_size, int_token};
ghost use Rattle.reader_scanner.specs.Tokens.{is_blank, is_name_byte, is_string_byte, is_hex_digit};

use crate::token::{MAX_INT, MAX_TOKEN, Token, TokenText, TokenValue};
use char_files::Source;
use std::marker::Model;

// What a longest stretch is made of.
#[derive(Clone, Copy)]
enum ByteClass {
    Blank,
    OfName,
    OfString,
    HexDigit,
}

// What a token says, and where it ends.
#[derive(Drop)]
struct Lexeme {
    value: TokenValue,
    end: u64,
}

fn is_name_byte(byte: u8) -> bool
    ensures { result ≡ is_name_byte byte }
{
    byte.is_ascii_alphanumeric() || byte == b'.'
}

fn is_hex_digit(byte: u8) -> bool
    ensures { result ≡ is_hex_digit byte }
{
    byte.is_ascii_digit() || (b'A'..=b'F').contains(&byte)
}

impl ByteClass {
    fn has(self, byte: u8) -> bool
        ensures { result ≡ has_byte self byte }
    {
        match self {
            ByteClass::Blank => byte == b' ' || byte == b'\t' || byte == b'\r',
            ByteClass::OfName => is_name_byte(byte),
            ByteClass::OfString => byte != b'"' && byte != b'\r',
            ByteClass::HexDigit => is_hex_digit(byte),
        }
    }
}

/// The byte at this position; past the end 0, as Oberon's readers give it. No test here passes 0 for anything
/// that a token begins with.
pub fn byte_at<S: Source>(source: &S, pos: u64) -> u8
    ensures { result ≡ slice_index (item_bytes (S.items source.now)) pos }
{
    if source.len() <= pos {
        return 0;
    }
    let (byte, _) = source.at(pos);
    byte
}

// Where the longest stretch of bytes of this class ends.
fn stretch_end<S: Source>(source: &S, from: u64, class: ByteClass) -> u64
    requires { from ≤ length (S.items source.now) }
    ensures end { result ≡ from + prefix_len (has_byte class) (bytes_from (S.items source.now) from) }
    ensures fits { length (S.items source.now) < 2 ^ 64 }
{
    for pos in from..source.len() {
        if !class.has(byte_at(source, pos)) {
            return pos;
        }
    }
    source.len()
}

// The bytes from beg up to end, few enough for a token.
fn text_between<S: Source>(source: &S, beg: u64, end: u64) -> TokenText
    requires order { beg ≤ end }
    requires inside { end ≤ length (S.items source.now) }
    requires short { end - beg ≤ MAX_TOKEN }
    ensures { result ≡ bytes_between (S.items source.now) beg end }
{
    let mut text = TokenText::new();
    for pos in beg..end {
        text.push(byte_at(source, pos));
    }
    text
}

// The number that these digits write, if each is one in this base and it isn't past the greatest.
fn size_of<S: Source>(source: &S, beg: u64, end: u64, radix: u32) -> Option<u32>
    requires order { beg ≤ end }
    requires inside { end ≤ length (S.items source.now) }
    requires low { 2 ≤ radix }
    requires high { radix ≤ 16 }
    ensures { let digits = bytes_between (S.items source.now) beg end in
        result ≡ (if is_size radix digits then Some (digits_value radix digits) else None) }
{
    let mut size = 0;
    for pos in beg..end {
        let digit = char::from(byte_at(source, pos)).to_digit(radix)?;
        let next = u64::from(size) * u64::from(radix) + u64::from(digit);
        if u64::from(MAX_INT) < next {
            return None;
        }
        size = next as u32;
    }
    Some(size)
}

fn int_between<S: Source>(source: &S, beg: u64, end: u64, radix: u32, negative: bool) -> TokenValue
    requires order { beg ≤ end }
    requires inside { end ≤ length (S.items source.now) }
    requires low { 2 ≤ radix }
    requires high { radix ≤ 16 }
    ensures { result ≡ int_token radix negative (bytes_between (S.items source.now) beg end) }
{
    match size_of(source, beg, end, radix) {
        None => TokenValue::Inval,
        Some(size) if negative => TokenValue::Int(0 - size as i32),
        Some(size) => TokenValue::Int(size as i32),
    }
}

fn name_at<S: Source>(source: &S, beg: u64) -> Lexeme
    requires { beg ≤ length (S.items source.now) }
    ensures value { result.value ≡ (name_at (bytes_from (S.items source.now) beg)).token }
    ensures end { result.end ≡ beg + (name_at (bytes_from (S.items source.now) beg)).len }
{
    let end = stretch_end(source, beg, ByteClass::OfName);
    let value = if end - beg <= MAX_TOKEN as u64 {
        TokenValue::Name(text_between(source, beg, end))
    } else {
        TokenValue::Inval
    };
    Lexeme { value, end }
}

// A string, from after its first quote on.
fn string_at<S: Source>(source: &S, beg: u64) -> Lexeme
    requires { beg ≤ length (S.items source.now) }
    ensures value { result.value ≡ (string_at (bytes_from (S.items source.now) beg)).token }
    ensures end { result.end + 1 ≡ beg + (string_at (bytes_from (S.items source.now) beg)).len }
{
    let end = stretch_end(source, beg, ByteClass::OfString);
    if byte_at(source, end) != b'"' {
        return Lexeme {
            value: TokenValue::Inval,
            end,
        };
    }
    let value = if end - beg <= MAX_TOKEN as u64 {
        TokenValue::String(text_between(source, beg, end))
    } else {
        TokenValue::Inval
    };
    Lexeme {
        value,
        end: end + 1,
    }
}

// A number, from its first digit on.
fn int_at<S: Source>(source: &S, beg: u64, negative: bool) -> Lexeme
    requires { beg ≤ length (S.items source.now) }
    ensures value { result.value ≡ (int_at negative (bytes_from (S.items source.now) beg)).token }
    ensures end { result.end ≡ beg + (int_at negative (bytes_from (S.items source.now) beg)).len }
{
    let end = stretch_end(source, beg, ByteClass::HexDigit);
    if byte_at(source, end) == b'H' {
        return Lexeme {
            value: int_between(source, beg, end, 16, negative),
            end: end + 1,
        };
    }
    Lexeme {
        value: int_between(source, beg, end, 10, negative),
        end,
    }
}

// Whether a minus sign stands here, directly before a digit.
fn begins_negative<S: Source>(source: &S, pos: u64) -> bool
    requires { pos + 1 < 2 ^ 64 }
    ensures { let bytes = item_bytes (S.items source.now) in
        result ≡ (slice_index bytes pos == 45 && is_ascii_digit (slice_index bytes (pos + 1))) }
{
    byte_at(source, pos) == b'-' && byte_at(source, pos + 1).is_ascii_digit()
}

// What stands here, where no blank does.
fn lexeme_at<S: Source>(source: &S, beg: u64) -> Lexeme
    requires { beg ≤ length (S.items source.now) }
    ensures value { result.value ≡ (lexeme_at (bytes_from (S.items source.now) beg)).token }
    ensures end { result.end ≡ beg + (lexeme_at (bytes_from (S.items source.now) beg)).len }
{
    if source.len() <= beg {
        return Lexeme {
            value: TokenValue::Inval,
            end: beg,
        };
    }
    let byte = byte_at(source, beg);
    if byte.is_ascii_alphabetic() {
        name_at(source, beg)
    } else if byte == b'"' {
        string_at(source, beg + 1)
    } else if byte.is_ascii_digit() {
        int_at(source, beg, false)
    } else if begins_negative(source, beg) {
        int_at(source, beg + 1, true)
    } else {
        Lexeme {
            value: TokenValue::Char(byte),
            end: beg + 1,
        }
    }
}

/// Reads the tokens of a source one after the other (Project Oberon, chapter 5). It takes no memory.
#[derive(Drop)]
pub struct Scanner<'a, S: Source> {
    source: &'a S,
    pos: u64,
}

impl<'a, S: Source> Model for Scanner<'a, S> {
    ghost use Rattle.reader_scanner.specs.ReaderState.{ReaderState};

    ghost Value = { ReaderState };

    ghost view = { λ s. record { items = S.items s.source.now; pos = s.pos } };
}

impl<'a, S: Source> Scanner<'a, S> {
    /// Begins at this position, which may be past the end.
    pub fn open(source: &'a S, pos: u64) -> Scanner<'a, S>
        ensures { result ≡ record { items = S.items source.now; pos = pos } }
    {
        Scanner { source, pos }
    }

    /// The next token; past the last one it is Inval and empty at the source's end, again and again.
    pub fn scan(&mut self) -> Token
        ensures token { IsTokenAt (item_bytes self.old.items) self.old.pos result }
        ensures next { self.new ≡ record self.old { pos = result.end } }
    {
        let from = self.pos.min(self.source.len());
        let beg = stretch_end(self.source, from, ByteClass::Blank);
        let lexeme = lexeme_at(self.source, beg);
        self.pos = lexeme.end;
        Token {
            beg,
            end: lexeme.end,
            value: lexeme.value,
        }
    }

    /// The position after the last token.
    pub fn pos(&self) -> u64
        ensures { result ≡ self.now.pos }
    {
        self.pos
    }
}
