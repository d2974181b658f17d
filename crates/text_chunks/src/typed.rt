//! Letters that operations begin with, one typed after the other. The operations stand in reverse, the first one last.

ghost use Rattle.std.specs.Prelude.{◌≡◌, ◌+◌, ◌++◌, ◌∷◌, [], ◌<◌, ◌↔◌, ℕ, true, false, List, IfSome, IsTrue, length, reverse};
ghost use Rattle.operations.specs.Letters.{letter};
ghost use Rattle.operations.specs.Operation.{Operation};
ghost use Rattle.operations.specs.Spelling.{HasSpelling};
ghost use Rattle.operations.specs.declared.kind.TheConstants.{MAX_INSERT};
ghost use Rattle.chunks.specs.Rows.{cause_at, typed_at};
ghost use Rattle.text_chunks.specs.Typed.{AreTypedFirst};

use char_files::Anchor;
use looks::Looks;
use operations::{Kind, MAX_INSERT, Op, Typing};

// Where the site types, if the operation is a letter, and the letter.
fn typing_of(op: &Op) -> Option<(Typing, u8)>
    ensures letter { IfSome result (λ x. op.now ≡ letter x.0 x.1) }
    ensures spelled { HasSpelling op.now }
{
    op.lemma_has_spelling();
    match op.kind() {
        Kind::Insert {
            cause,
            at,
            looks,
            bytes,
        } if bytes.len() == 1 => {
            let typing = Typing {
                text: op.text(),
                site: op.site(),
                seq: op.seq(),
                stamp: op.stamp(),
                at: *at,
                cause: *cause,
                looks: looks.copy(),
            };
            Some((typing, bytes[0]))
        }
        _ => None,
    }
}

// Whether the operation's numbers are those of the letter after so many.
fn has_numbers(typing: &Typing, k: u32, op: &Op) -> bool
    ensures { IsTrue result → (op.now.text ≡ typing.now.text) × (op.now.site ≡ typing.now.site)
        × (op.now.seq ≡ typing.now.seq + k) × (op.now.stamp ≡ typing.now.stamp + k) }
{
    op.text() == typing.text
        && op.site() == typing.site
        && u64::from(op.seq()) == u64::from(typing.seq) + u64::from(k)
        && typing.stamp <= op.stamp()
        && op.stamp() - typing.stamp == u64::from(k)
}

// Whether a letter hangs on the one before it, of which there are so many.
fn hangs_so(typing: &Typing, k: u32, cause: Anchor) -> bool
    requires { 0 < k }
    ensures { IsTrue result → cause ≡ cause_at typing.now k }
{
    let at = u64::from(typing.at) + u64::from(k);
    match cause {
        Anchor::At(name) => name.site() == typing.site && u64::from(name.off()) + 1 == at,
        Anchor::Root => false,
    }
}

fn have_same_looks(typing: &Typing, looks: &Looks) -> bool
    ensures { IsTrue result → looks.now ≡ typing.now.looks }
{
    *looks == typing.looks
}

// The byte of the operation, if it is the letter after so many.
fn letter_after(typing: &Typing, k: u32, op: &Op) -> Option<u8>
    requires { 0 < k }
    ensures letter { IfSome result (λ byte. op.now ≡ letter (typed_at typing.now k) byte) }
    ensures spelled { HasSpelling op.now }
{
    op.lemma_has_spelling();
    match op.kind() {
        Kind::Insert {
            cause,
            at,
            looks,
            bytes,
        } => {
            if has_numbers(typing, k, op)
                && hangs_so(typing, k, *cause)
                && u64::from(*at) == u64::from(typing.at) + u64::from(k)
                && have_same_looks(typing, looks)
                && bytes.len() == 1
            {
                Some(bytes[0])
            } else {
                None
            }
        }
        _ => None,
    }
}

// Appends the byte of the operation, if it is the letter after those. `false` where it isn't, or no room is left.
fn push_letter(typing: &Typing, op: &Op, bytes: &mut Vec<u8>) -> bool
    requires { 0 < length bytes.old.items }
    ensures pushed { result ≡ true → (byte : ℕ) × (bytes.new.items ≡ bytes.old.items ++ byte ∷ [])
        × (op.now ≡ letter (typed_at typing.now (length bytes.old.items)) byte) }
    ensures few { result ≡ true → length bytes.old.items < MAX_INSERT }
    ensures spelled { HasSpelling op.now }
    ensures stays { result ≡ false → bytes.new.items ≡ bytes.old.items }
{
    op.lemma_has_spelling();
    let len = bytes.len();
    if len >= MAX_INSERT {
        return false;
    }
    match letter_after(typing, len as u32, op) {
        Some(byte) => bytes.push(byte).is_ok(),
        None => false,
    }
}

// Appends the bytes of the letters that these operations begin with and that go on from those.
fn push_letters(typing: &Typing, operations: &[Op], bytes: &mut Vec<u8>)
    requires { 0 < length bytes.old.items }
    ensures { (ops : List Operation) → AreTypedFirst ops typing.now bytes.old.items (reverse operations.now)
        → (rest : List Operation) × AreTypedFirst ops typing.now bytes.new.items rest }
{
    let mut left = operations;
    while let Some((op, rest)) = left.split_last() {
        if !push_letter(typing, op, bytes) {
            return;
        }
        left = rest;
    }
}

/// Where the letters are typed that the operations begin with, and their bytes in place of what was there. `None` where the first one
/// is no letter.
pub(crate) fn typed_first(operations: &[Op], bytes: &mut Vec<u8>) -> Option<Typing>
    ensures { IfSome result (λ typing. (rest : List Operation)
        × AreTypedFirst (reverse operations.now) typing bytes.new.items rest) }
{
    bytes.clear();
    let (op, rest) = operations.split_last()?;
    let (typing, byte) = typing_of(op)?;
    if bytes.push(byte).is_err() {
        return None;
    }
    push_letters(&typing, rest, bytes);
    Some(typing)
}
