//! Of each number the claim of least rank.

ghost use Rattle.std.specs.Prelude.{◌≡◌, [], Contains, IfNone, IfOk, IfSome, OnErr, OnOk};
ghost use Rattle.looks.specs.Refusal.{RefusedForMemoryAlone};
ghost use Rattle.note_entries.specs.Claims.{Claims, IsClaimant, IsPutClaim, IsUnclaimed, Outdoes, OutdoesKept};

use crate::claim::Claim;
use crate::hash::Hash;
use char_files::SiteNo;
use looks::Refusal;
use std::alloc::Global;
use std::collections::BTreeMap;
use std::marker::Model;

/// What came of a claim.
#[derive(Clone, Copy, Debug, PartialEq, Eq)]
pub enum Claimed {
    /// The number's claimant is who he was.
    Same,
    /// Nobody had claimed the number.
    First,
    /// Another had claimed it, whose rank is greater.
    Other,
}

// What a claim does to another of its number: `None` where that one stays.
fn outdone(kept: &Claim, claim: &Claim) -> Option<Claimed>
    ensures { Outdoes kept.now claim.now result }
{
    if kept.rank <= claim.rank {
        return None;
    }
    if kept.author == claim.author {
        return Some(Claimed::Same);
    }
    Some(Claimed::Other)
}

// Of each number the claim of least rank.
#[derive(Drop)]
pub(crate) struct Holders {
    // By the claims' numbers.
    claims: BTreeMap<u16, Claim>,
}

impl Model for Holders {
    ghost use Rattle.std.specs.Prelude.{List};
    ghost use Rattle.std.specs.Map.{values_of};
    ghost use Rattle.std.specs.Ordering.{eq_by_cmp, nat_cmp};
    ghost use Rattle.note_laws.specs.Note.{Claim as Claimed};
    ghost use Rattle.note_entries.specs.Keyed.{StandUnderKeys};

    ghost Value = { List Claimed };

    ghost view = { λ h. values_of h.claims.entries };

    ghost invariant = { λ h. StandUnderKeys (eq_by_cmp nat_cmp) (λ c. c.site) h.claims.entries };
}

impl Holders {
    // Nobody claims a number.
    pub(crate) fn new(alloc: Global) -> Holders
        ensures { result ≡ [] }
    {
        Holders {
            claims: BTreeMap::new(alloc),
        }
    }

    // The claim of the number that is kept.
    fn kept(&self, site: SiteNo) -> Option<&Claim>
        ensures some { IfSome result (λ kept. Contains self.now kept.now × (kept.now.site ≡ site)) }
        ensures none { IfNone result (IsUnclaimed self.now site) }
    {
        self.claims.get(&site.get())
    }

    // Whose claim of the number is kept.
    pub(crate) fn claimant(&self, site: SiteNo) -> Option<Hash>
        ensures some { IfSome result (IsClaimant self.now site) }
        ensures none { IfNone result (IsUnclaimed self.now site) }
    {
        match self.kept(site) {
            Some(kept) => Some(kept.author),
            None => None,
        }
    }

    // The claim is its number's. Refused `OutOfMemory` alone, and then all is as before.
    fn put(&mut self, claim: Claim) -> Result<(), Refusal>
        ensures ok { OnOk result (IsPutClaim self.old claim self.new) }
        ensures errors { RefusedForMemoryAlone result }
        ensures err { OnErr result (self.new ≡ self.old) }
    {
        self.claims.insert(claim.site.get(), claim)?;
        Ok(())
    }

    // What the claim does to the one of its number that is kept.
    fn outdone(&self, claim: &Claim) -> Option<Claimed>
        ensures { OutdoesKept self.now claim.now result }
    {
        match self.kept(claim.site) {
            None => Some(Claimed::First),
            Some(kept) => outdone(kept, claim),
        }
    }

    // A claim came. Refused `OutOfMemory` alone, and then all is as before.
    pub(crate) fn claim(&mut self, claim: Claim) -> Result<Claimed, Refusal>
        ensures ok { IfOk result (λ claimed. Claims self.old claim claimed self.new) }
        ensures errors { RefusedForMemoryAlone result }
        ensures err { OnErr result (self.new ≡ self.old) }
    {
        let Some(claimed) = self.outdone(&claim) else {
            return Ok(Claimed::Same);
        };
        self.put(claim)?;
        Ok(claimed)
    }
}
