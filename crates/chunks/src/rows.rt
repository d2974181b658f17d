//! Letters that a site types one after the other, as operations.

ghost use Rattle.std.specs.Prelude.{◌≡◌, ◌+◌, ◌++◌, ◌≤◌, All, IfOk, OnOk, length};
ghost use Rattle.char_files.specs.declared.TheConstants.{MAX_FILE};
ghost use Rattle.looks.specs.Refusal.{RefusedForMemoryAlone};
ghost use Rattle.operations.specs.Letters.{letter, letters};
ghost use Rattle.operations.specs.Spelling.{HasSpelling};
ghost use Rattle.chunks.specs.Rows.{cause_at, typed_at};

use char_files::{Anchor, Name};
use looks::Refusal;
use operations::{Kind, MAX_INSERT, Op, Typing};
use std::alloc::Global;

// What the letter hangs on after so many.
fn cause_at(typing: &Typing, k: u32) -> Anchor
    requires { typing.now.at + k ≤ MAX_FILE }
    ensures { result ≡ cause_at typing.now k }
{
    if k == 0 {
        return typing.cause;
    }
    match Name::new(typing.site, typing.at + (k - 1)) {
        Some(name) => Anchor::At(name),
        None => unreachable!(),
    }
}

// The letter after so many, which has a spelling. Refused `OutOfMemory` alone.
fn letter_at(alloc: Global, typing: &Typing, k: u32, byte: u8) -> Result<Op, Refusal>
    requires { HasSpelling (letter (typed_at typing.now k) byte) }
    ensures ok { IfOk result (λ op. op ≡ letter (typed_at typing.now k) byte) }
    ensures errors { RefusedForMemoryAlone result }
{
    let kind = Kind::Insert {
        cause: cause_at(typing, k),
        at: typing.at + k,
        looks: typing.looks.copy(),
        bytes: Vec::from_slice(alloc, &[byte])?,
    };
    let stamp = typing.stamp + u64::from(k);
    let op = Op::new(typing.text, typing.site, typing.seq + k, stamp, kind);
    Ok(op.unwrap())
}

// Appends the letters as operations. Refused `OutOfMemory` alone; some of them may stand there then.
pub(crate) fn push_letters(
    operations: &mut Vec<Op>,
    alloc: Global,
    typing: &Typing,
    bytes: &[u8],
) -> Result<(), Refusal>
    requires few { length bytes.now ≤ MAX_INSERT }
    requires spelled { All HasSpelling (letters typing.now bytes.now) }
    ensures ok { OnOk result (operations.new.items ≡ operations.old.items ++ letters typing.now bytes.now) }
    ensures errors { RefusedForMemoryAlone result }
{
    for k in 0..bytes.len() {
        operations.push(letter_at(alloc, typing, k as u32, bytes[k])?)?;
    }
    Ok(())
}
