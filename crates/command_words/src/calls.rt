ghost use Rattle.std.specs.Prelude.{◌≡◌, ◌-◌, ◌<◌, ◌≤◌, ℕ, true, false, length, slice_index, None, IfSome};
ghost use Rattle.reader_scanner.specs.ReaderState.{item_bytes, bytes_between};
ghost use Rattle.reader_scanner.specs.Tokens.{is_name_byte};
ghost use Rattle.command_words.specs.Calls.{IsCallAt, NoCallAt};

use crate::command::Command;
use arrayvec::ArrayVec;
use char_files::Source;
use reader_scanner::{Scanner, Token, byte_at};

// How many bytes are looked at, before a position and from a word's begin on: more than any command's word
// has, so that a long word costs no more than one of so many bytes.
const NEAR: usize = 32;

/// A command's word in a text, with the token that stands first after it.
#[derive(Debug, Drop, PartialEq, Eq)]
pub struct Call {
    pub command: Command,
    /// The command's parameter, where it asks for one.
    pub token: Token,
}

// Whether the byte at this position is a letter, a digit or a full stop.
fn is_of_word<S: Source>(source: &S, pos: u64) -> bool
    requires { pos < length (S.items source.now) }
    ensures { result ≡ is_name_byte (slice_index (item_bytes (S.items source.now)) pos) }
{
    let byte = byte_at(source, pos);
    byte.is_ascii_alphanumeric() || byte == b'.'
}

// Where the word begins that ends before this position, not looking farther than NEAR bytes.
fn word_begin<S: Source>(source: &S, pos: u64) -> u64
    requires { pos ≤ length (S.items source.now) }
    ensures order { result ≤ pos }
    ensures near { pos - result ≤ NEAR }
    ensures each { (k : ℕ) → result ≤ k → k < pos
        → is_name_byte (slice_index (item_bytes (S.items source.now)) k) ≡ true }
    ensures before { 0 < result → pos - result < NEAR
        → is_name_byte (slice_index (item_bytes (S.items source.now)) (result - 1)) ≡ false }
{
    let least = pos.saturating_sub(NEAR as u64);
    let mut beg = pos;
    while least < beg && is_of_word(source, beg - 1) {
        beg -= 1;
    }
    beg
}

// Where the word ends that has the bytes from beg up to pos, not looking farther than NEAR bytes from beg.
fn word_end<S: Source>(source: &S, beg: u64, pos: u64) -> u64
    requires within { pos ≤ length (S.items source.now) }
    requires order { beg ≤ pos }
    requires near { pos - beg ≤ NEAR }
    ensures order { pos ≤ result }
    ensures within { result ≤ length (S.items source.now) }
    ensures near { result - beg ≤ NEAR }
    ensures each { (k : ℕ) → pos ≤ k → k < result
        → is_name_byte (slice_index (item_bytes (S.items source.now)) k) ≡ true }
    ensures after { result < length (S.items source.now) → result - beg < NEAR
        → is_name_byte (slice_index (item_bytes (S.items source.now)) result) ≡ false }
{
    let most = source.len().min(beg.saturating_add(NEAR as u64));
    let mut end = pos;
    while end < most && is_of_word(source, end) {
        end += 1;
    }
    end
}

// The bytes from beg up to end.
fn word_between<S: Source>(source: &S, beg: u64, end: u64) -> ArrayVec<u8, NEAR>
    requires order { beg ≤ end }
    requires inside { end ≤ length (S.items source.now) }
    requires short { end - beg ≤ NEAR }
    ensures { result.items ≡ bytes_between (S.items source.now) beg end }
{
    let mut word = ArrayVec::new();
    for pos in beg..end {
        word.push(byte_at(source, pos));
    }
    word
}

/// The call at this position, if the word that contains the position is a command's. Past the end there is
/// none. It takes no memory.
///
/// It is after the calls of commands in Project Oberon, chapter 4.
pub fn command_at<S: Source>(source: &S, pos: u64) -> Option<Call>
    ensures some { IfSome result (λ call. IsCallAt (item_bytes (S.items source.now)) pos call) }
    ensures none { result ≡ None → NoCallAt (item_bytes (S.items source.now)) pos }
{
    if source.len() <= pos {
        return None;
    }
    let beg = word_begin(source, pos);
    let end = word_end(source, beg, pos);
    if end == pos {
        return None;
    }
    let command = Command::named(word_between(source, beg, end).as_slice())?;
    let token = Scanner::open(source, end).scan();
    Some(Call { command, token })
}
