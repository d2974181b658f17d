ghost use Rattle.std.specs.Prelude.{◌≡◌, ◌≤◌, [], ◌∷◌, ◌++◌, length, ◌<◌};
ghost use Rattle.reader_scanner.specs.Class.{class_number, class_of};

use arrayvec::ArrayVec;
use std::marker::Model;

/// The most bytes that a name has, and that stand between a string's quotes: 31.
pub const MAX_TOKEN: usize = 31;

/// The greatest size of a number: 2^31 - 1.
pub const MAX_INT: u32 = 2147483647;

/// The bytes of a name or a string, at most 31.
#[derive(Debug, Drop, PartialEq, Eq)]
pub struct TokenText {
    bytes: ArrayVec<u8, MAX_TOKEN>,
}

impl Model for TokenText {
    ghost use Rattle.std.specs.Prelude.{ℕ, List};

    ghost Value = { List ℕ };

    ghost view = { λ t. t.bytes.items };

    ghost inverse = { λ bytes. record { bytes = record { items = bytes } } };
}

impl TokenText {
    // No bytes.
    pub(crate) fn new() -> TokenText
        ensures { result ≡ [] }
    {
        TokenText {
            bytes: ArrayVec::new(),
        }
    }

    // One more byte.
    pub(crate) fn push(&mut self, byte: u8)
        requires { length self.old < MAX_TOKEN }
        ensures { self.new ≡ self.old ++ byte ∷ [] }
    {
        self.bytes.push(byte);
    }

    /// The bytes.
    pub fn as_bytes(&self) -> &[u8]
        ensures value { result.now ≡ self.now }
        ensures few { length self.now ≤ MAX_TOKEN }
    {
        self.bytes.as_slice()
    }
}

/// What a token says. The classes are some of Oberon's (Project Oberon, chapter 5).
#[derive(Debug, Drop, PartialEq, Eq)]
pub enum TokenValue {
    /// No token, or one that is too long or too large.
    Inval,
    /// A letter, and letters, digits and full stops.
    Name(TokenText),
    /// What stands between two quotes on one line.
    String(TokenText),
    /// A number.
    Int(i32),
    /// Any other byte.
    Char(u8),
}

/// The class of a token, with its number in Oberon.
#[derive(Clone, Copy, Debug, PartialEq, Eq)]
pub enum Class {
    Inval = 0,
    Name = 1,
    String = 2,
    Int = 3,
    Char = 6,
}

impl Class {
    /// Its number.
    pub fn number(self) -> u8
        ensures { result ≡ class_number self }
    {
        self as u8
    }
}

/// A token, and where it stands in its source.
#[derive(Debug, Drop, PartialEq, Eq)]
pub struct Token {
    /// The position of its first byte.
    pub beg: u64,
    /// The position after its last byte.
    pub end: u64,
    pub value: TokenValue,
}

impl Token {
    /// What kind of token it is.
    pub fn class(&self) -> Class
        ensures { result ≡ class_of self.now.value }
    {
        match &self.value {
            TokenValue::Inval => Class::Inval,
            TokenValue::Name(_) => Class::Name,
            TokenValue::String(_) => Class::String,
            TokenValue::Int(_) => Class::Int,
            TokenValue::Char(_) => Class::Char,
        }
    }
}
