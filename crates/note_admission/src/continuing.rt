//! Messages of one's own that continue a chain.

ghost use Rattle.std.specs.Prelude.{◌≡◌, ◌∷◌, ◌++◌, ℕ, [], filter, List, IfOk, OnOk};
ghost use Rattle.looks.specs.Refusal.{RefusedForMemoryAlone};
ghost use Rattle.note_laws.specs.Note.{Saying as Said};
ghost use Rattle.note_admission.specs.Continuing.{AreMentionedIn, is_past};

use crate::mentioned::mentioned_ranges;
use crate::offsets::Offsets;
use char_files::Name;
use looks::Refusal;
use operations::Op;
use std::alloc::Global;
use std::marker::Model;

/// What messages mentioned that continue a chain, one after the other, behind those that are admitted.
#[derive(Drop)]
pub struct Continuing {
    mentioned: Offsets,
    alloc: Global,
}

impl Model for Continuing {
    ghost use Rattle.note_admission.specs.Kept.{Offsets as Ends};

    ghost Value = { Ends };

    ghost view = { λ c. c.mentioned };
}

impl Continuing {
    /// No message continues it.
    pub fn new(alloc: Global) -> Continuing
        ensures { result ≡ [] }
    {
        Continuing {
            mentioned: Offsets::new(alloc),
            alloc,
        }
    }

    // Whether a name is behind all that was mentioned of its number.
    fn is_past(&self, name: Name) -> bool
        ensures { result ≡ is_past self.now name }
    {
        self.mentioned.end(name.site()) <= name.off()
    }

    // Those of these names that are. Refused `OutOfMemory` alone.
    pub(crate) fn past(&self, names: &[Name]) -> Result<Vec<Name>, Refusal>
        ensures ok { IfOk result (λ past. past.items ≡ filter (is_past self.now) names.now) }
        ensures errors { RefusedForMemoryAlone result }
    {
        let mut past = Vec::new(self.alloc);
        for name in names {
            if self.is_past(*name) {
                past.push(*name)?;
            }
        }
        Ok(past)
    }

    /// One message more continues it, by this operation. Refused `OutOfMemory` alone, and then it doesn't.
    pub fn add(&mut self, op: &Op) -> Result<(), Refusal>
        ensures ok { OnOk result ((chain : ℕ) (more : List Said) (s : Said) → s.op ≡ op.now → s.op.site ≡ chain
            → AreMentionedIn chain more self.old → AreMentionedIn chain (more ++ s ∷ []) self.new) }
        ensures errors { RefusedForMemoryAlone result }
    {
        let ranges = mentioned_ranges(self.alloc, op)?;
        self.mentioned.reserve_all(&ranges)?;
        self.mentioned.raise_all(&ranges);
        Ok(())
    }
}
