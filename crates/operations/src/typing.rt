ghost use Rattle.std.specs.Prelude.{◌≡◌, ℕ, ◌<◌, ◌≤◌, List, All, IfOk, length};
ghost use Rattle.looks.specs.Refusal.{RefusedForMemoryAlone};
ghost use Rattle.operations.specs.Letters.{letter, letters};
ghost use Rattle.operations.specs.Spelling.{HasSpelling};

use crate::kind::{Kind, is_cause};
use crate::op::{MAX_STAMP, Op};
use char_files::{Anchor, MAX_FILE, SiteNo, TextNo};
use looks::{Looks, Refusal};
use std::alloc::Global;

/// Where a site types letters one after the other: each is an Insert of one byte that hangs on the one before, under the next
/// number and the next stamp, in the same looks.
#[derive(Drop)]
pub struct Typing {
    pub text: TextNo,
    pub site: SiteNo,
    /// The number of the first letter's operation, 1 or more.
    pub seq: u32,
    /// Its stamp, 1 or more.
    pub stamp: u64,
    /// Where its byte stands in its site's file.
    pub at: u32,
    /// What it hangs on.
    pub cause: Anchor,
    pub looks: Looks,
}

impl Typing {
    /// For how many letters there are numbers, stamps and places in the file, so that each has a spelling, whatever it is; 0 where
    /// what the first one hangs on didn't stand in the file before it.
    pub fn room(&self) -> u64
        ensures some { (bytes : List ℕ) → length bytes ≤ result → All (λ b. b < 256) bytes
            → All HasSpelling (letters self.now bytes) }
        ensures most { (bytes : List ℕ) → All HasSpelling (letters self.now bytes) → length bytes ≤ result }
    {
        self.looks.lemma_are_in_range();
        let _ = (self.text.get(), self.site.get());
        if self.seq == 0 || self.stamp == 0 || !is_cause(self.site, self.at, self.cause) {
            return 0;
        }
        let numbers = (1_u64 << 32).saturating_sub(u64::from(self.seq));
        let stamps = (MAX_STAMP + 1).saturating_sub(self.stamp);
        let places = MAX_FILE.saturating_sub(u64::from(self.at));
        numbers.min(stamps).min(places)
    }

    /// The Insert of the first letter, which has a spelling. Refused `OutOfMemory` alone.
    pub fn letter(&self, alloc: Global, byte: u8) -> Result<Op, Refusal>
        requires { HasSpelling (letter self.now byte) }
        ensures ok { IfOk result (λ op. op ≡ letter self.now byte) }
        ensures errors { RefusedForMemoryAlone result }
    {
        let kind = Kind::Insert {
            cause: self.cause,
            at: self.at,
            looks: self.looks.copy(),
            bytes: Vec::from_slice(alloc, &[byte])?,
        };
        let op = Op::new(self.text, self.site, self.seq, self.stamp, kind);
        Ok(op.unwrap())
    }
}
