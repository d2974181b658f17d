//! Plain files: bytes of which line ends alone are changed.

ghost use Rattle.std.specs.Prelude.{◌≡◌, ◌<◌, ◌≤◌, [], ◌∷◌, length, MatchOption, IfSome, IfOk};
ghost use Rattle.looks.specs.Refusal.{RefusedForMemoryAlone};
ghost use Rattle.char_files.specs.Plain.{plain_items};
ghost use Rattle.text_file.specs.Files.{as_line_end, without_newline, plain_bytes};

use crate::MAX_STORED;
use crate::filling::push_char;
use char_files::Buffer;
use looks::{Looks, Refusal};
use std::alloc::Global;

// The byte as a text has it: a 0AH that is a line end becomes 0DH.
fn as_line_end(byte: u8) -> u8
    ensures { result ≡ as_line_end byte }
{
    if byte == b'\n' { b'\r' } else { byte }
}

// The bytes after a 0DH, to which a 0AH that follows it belongs.
fn after_return(rest: &[u8]) -> &[u8]
    ensures value { result.now ≡ without_newline rest.now }
    ensures few { length result.now ≤ length rest.now }
{
    match rest {
        [b'\n', after @ ..] => after,
        _ => rest,
    }
}

// The first character of a plain file, and the bytes after it.
fn first_of(bytes: &[u8]) -> Option<(u8, &[u8])>
    ensures value { MatchOption result (bytes.now ≡ [])
        (λ x. plain_bytes bytes.now ≡ x.0 ∷ plain_bytes x.1.now) }
    ensures shorter { IfSome result (λ x. length x.1.now < length bytes.now) }
{
    let Some((first, rest)) = bytes.split_first() else {
        return None;
    };
    if *first == b'\r' {
        return Some((b'\r', after_return(rest)));
    }
    Some((as_line_end(*first), rest))
}

/// How many characters a plain file has.
pub(crate) fn plain_len(bytes: &[u8]) -> u64
    ensures { result ≡ length (plain_bytes bytes.now) }
{
    let mut len = 0;
    let mut rest = bytes;
    while let Some((_, after)) = first_of(rest) {
        len += 1;
        rest = after;
    }
    len
}

/// The characters of a plain file. Refused `OutOfMemory` alone.
pub(crate) fn plain_text(alloc: Global, bytes: &[u8]) -> Result<Buffer, Refusal>
    requires { length (plain_bytes bytes.now) ≤ MAX_STORED }
    ensures ok { IfOk result (λ text. text ≡ plain_items (plain_bytes bytes.now)) }
    ensures errors { RefusedForMemoryAlone result }
{
    let mut text = Buffer::new(alloc);
    let mut rest = bytes;
    while let Some((byte, after)) = first_of(rest) {
        push_char(&mut text, byte, Looks::plain())?;
        rest = after;
    }
    Ok(text)
}
