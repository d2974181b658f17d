ghost use Rattle.std.specs.Prelude.{◌≡◌, ℕ, ◌<◌, ◌≤◌, List, ◌∷◌, ◌++◌, All, IfSome, IfNone, IsOk, OnOk, OnErr, false, true, length, drop, take};
ghost use Rattle.looks.specs.Refusal.{RefusedForMemoryAlone};
ghost use Rattle.operations.specs.Letters.{letter, letters};
ghost use Rattle.operations.specs.Spelling.{HasSpelling};
ghost use Rattle.operations.specs.declared.typing.Typing.{Typing};
ghost use Rattle.packed.specs.Letters.{AreTypedNext, TypesOn};
ghost use Rattle.packed.specs.Spelling.{is_code};
ghost use Rattle.packed.specs.Told.{has_begun, told_after};

use super::History;
use crate::codes::is_code;
use crate::expected::{Expected, name_at};
use char_files::TextNo;
use looks::Refusal;
use operations::{MAX_INSERT, Typing};

// How many of the bytes, from the first on, stand each for an Insert of itself.
fn letters_len(in_chunk: bool, bytes: &[u8]) -> usize
    ensures within { result ≤ length bytes.now }
    ensures letters { All (λ b. is_code in_chunk b ≡ false) (take result bytes.now) }
    ensures ended { (b : ℕ) (rest : List ℕ) → drop result bytes.now ≡ b ∷ rest → is_code in_chunk b ≡ true }
{
    match bytes.iter().position(|byte| is_code(in_chunk, *byte)) {
        Some(end) => end,
        None => bytes.len(),
    }
}

impl History {
    // How the site of the last operation types on; `None` where there is none, or its numbers or stamps are spent.
    fn typing(&self, text: TextNo) -> Option<Typing>
        ensures some { IfSome result (λ typing. TypesOn self.now text typing) }
        ensures none { IfNone result ((typing : Typing) (b : ℕ) → TypesOn self.now text typing
            → HasSpelling (letter typing b) → ⊥) }
    {
        let site = self.last?;
        let expected = self.expected(site);
        let seq = expected.seq.checked_add(1)?;
        let stamp = expected.stamp.checked_add(1)?;
        Some(Typing {
            text,
            site,
            seq,
            stamp,
            at: expected.len,
            cause: expected.caret,
            looks: expected.looks,
        })
    }

    /// All the letters that the bytes begin with, as the site of the last operation types them, `MAX_INSERT` of them at most; their
    /// bytes, and the bytes after them. They aren't taken into the history. `None` where no letter stands there that can come
    /// next: then what does is for `next`.
    pub fn letters<'a>(&self, text: TextNo, bytes: &'a [u8]) -> Option<(Typing, &'a [u8], &'a [u8])>
        ensures some { IfSome result (λ x. (bytes.now ≡ x.1.now ++ x.2.now) × AreTypedNext self.now text x.0 x.1.now) }
        ensures all { IfSome result (λ x. (typing : Typing) (typed rest : List ℕ) → bytes.now ≡ typed ++ rest
            → AreTypedNext self.now text typing typed → length typed ≤ length x.1.now) }
        ensures none { IfNone result ((typing : Typing) (typed rest : List ℕ) → bytes.now ≡ typed ++ rest
            → AreTypedNext self.now text typing typed → ⊥) }
    {
        let found = letters_len(self.in_chunk, &bytes[..bytes.len().min(MAX_INSERT)]);
        if found == 0 {
            return None;
        }
        let Some(typing) = self.typing(text) else {
            return None;
        };
        let end = typing.room().min(found as u64) as usize;
        if end == 0 {
            return None;
        }
        let (typed, rest) = bytes.split_at(end);
        Some((typing, typed, rest))
    }

    /// Takes letters into the history that `letters` gave.
    ///
    /// Refused `OutOfMemory` alone, and then all is as before.
    pub fn pass_letters(&mut self, typing: &Typing, bytes: &[u8]) -> Result<(), Refusal>
        requires { (text : ℕ) × AreTypedNext self.old text typing.now bytes.now }
        ensures ok { OnOk result (self.new ≡ told_after self.old (letters typing.now bytes.now)) }
        // A site that has begun needs no memory.
        ensures room { has_begun self.old typing.now.site ≡ true → IsOk result }
        ensures errors { RefusedForMemoryAlone result }
        ensures err { OnErr result (self.new ≡ self.old) }
    {
        let last = bytes.len() as u32 - 1;
        let expected = Expected {
            seq: typing.seq + last,
            len: typing.at + last + 1,
            stamp: typing.stamp + u64::from(last),
            caret: name_at(typing.site, typing.at + last),
            looks: typing.looks.copy(),
        };
        self.tell(typing.site, expected)
    }
}
