ghost use Rattle.std.specs.Prelude.{◌≡◌, ◌↔◌, Some, None, if◌then◌else◌, IsTrue, codes, nat_eq};
ghost use Rattle.std.specs.Cmp.Lexicographic.{pointwise};
ghost use Rattle.std.specs.List.{AllPass};
ghost use Rattle.std.specs.Option.{option_copied};
ghost use Rattle.shelf.specs.Names.{is_file_byte, is_file_name};

use std::str;

/// The most bytes that a file's name may have.
pub const MAX_NAME_LEN: usize = 31;

// Whether a file's name may have this byte.
fn is_file_byte(byte: u8) -> bool
    ensures { result ≡ is_file_byte byte }
{
    32 <= byte && byte <= 126 && byte != b'/'
}

// Whether a file's name may have each of these bytes.
fn are_file_bytes(bytes: &[u8]) -> bool
    ensures { IsTrue result ↔ AllPass is_file_byte bytes.now }
{
    bytes.iter().all(|byte| is_file_byte(*byte))
}

// Whether these bytes name this folder.
fn is_this_folder(bytes: &[u8]) -> bool
    ensures { result ≡ pointwise nat_eq bytes.now (codes ".") }
{
    bytes == b".".as_slice()
}

// Whether these bytes name the folder above.
fn is_folder_above(bytes: &[u8]) -> bool
    ensures { result ≡ pointwise nat_eq bytes.now (codes "..") }
{
    bytes == b"..".as_slice()
}

/// Whether these bytes are the name of a file of a folder itself: 1 to 31 bytes of printable ASCII without a slash, neither
/// `.` nor `..`. So no path leads out of the folder.
pub fn is_file_name(bytes: &[u8]) -> bool
    ensures { result ≡ is_file_name bytes.now }
{
    if bytes.is_empty() || MAX_NAME_LEN < bytes.len() {
        return false;
    }
    if is_this_folder(bytes) || is_folder_above(bytes) {
        return false;
    }
    are_file_bytes(bytes)
}

/// The bytes as a file's name, where they are one.
#[tactic(auto, using(crate::proofs::FileNames::name_is_text))]
pub fn file_name(bytes: &[u8]) -> Option<&str>
    ensures { option_copied result ≡ if is_file_name bytes.now then Some bytes.now else None }
{
    if is_file_name(bytes) {
        str::from_utf8(bytes).ok()
    } else {
        None
    }
}
