//! What can stand in the chains of a note.

ghost use Rattle.std.specs.Prelude.{◌≡◌, ◌≢◌, ◌<◌, ◌↔◌, ℕ, true, Contains, IfNone, IfOk, IfSome, IsTrue, OnErr, OnOk, Some as Just};
ghost use Rattle.looks.specs.Refusal.{RefusedForMemoryAlone};
ghost use Rattle.note_laws.specs.Note.{Note, Entries, IsHolder, IsOfBase, Saying as Message};
ghost use Rattle.note_laws.specs.Chains.{AreBranches, HoldsItsPlace};
ghost use Rattle.note_laws.specs.Laws.{AreToldApart, IsBaseIdentified};
ghost use Rattle.note_entries.specs.declared.branches.Said.TheVariants.{Lesser};
ghost use Rattle.note_entries.specs.declared.holders.Claimed.TheVariants.{Other};
ghost use Rattle.note_entries.specs.Kept.{no_entries, with_claim, with_saying};
ghost use Rattle.note_admission.specs.Places.{StandsInChain};
ghost use Rattle.note_admission.specs.Standing.{AreChainsOf, CanBeClaimed, BeginsNote};

use crate::base_messages::Base;
use crate::chains::Chains;
use char_files::{SiteNo, TextNo};
use looks::Refusal;
use note_entries::{Claim, Claimed, Hash, KeptEntries, Said, Saying};
use std::alloc::Global;
use std::marker::Model;

/// What a note begins with, beside its base.
#[derive(Clone, Copy, Debug)]
pub struct Opening {
    /// Whose note it is.
    pub founder: Hash,
    /// His number, if he has one.
    pub number: Option<SiteNo>,
}

// Whether a claim took its number, which claims can take or not, from another.
fn takes_number(is_open: bool, claimed: Claimed) -> bool
    ensures { claimed ≡ Other → IsTrue is_open → IsTrue result }
{
    match claimed {
        Claimed::Same | Claimed::First => false,
        Claimed::Other => is_open,
    }
}

// Whether a message took the place of another that its author said.
fn is_lesser(said: Said) -> bool
    ensures { said ≡ Lesser → IsTrue result }
{
    match said {
        Said::Repeat | Said::Greater | Said::First => false,
        Said::Lesser => true,
    }
}

/// The messages that hold a place in a chain of a note, those of the base and those of the numbers' holders.
#[derive(Drop)]
pub struct NoteChains {
    opening: Opening,
    base: Base,
    kept: KeptEntries,
}

impl Model for NoteChains {
    ghost use Rattle.note_admission.specs.Standing.{ChainsSeen};

    ghost Value = { ChainsSeen };

    ghost view = { λ c. record { opening = c.opening; base = c.base; kept = c.kept } };
}

impl NoteChains {
    /// Those of no entries but the opening and these messages of the base. Refused `OutOfMemory` alone.
    pub fn new(alloc: Global, opening: Opening, base: Vec<Saying>) -> Result<NoteChains, Refusal>
        ensures ok { IfOk result (λ chains. (note : Note) → BeginsNote opening note → note.base ≡ base.items
            → IsBaseIdentified note → AreChainsOf chains note no_entries) }
        ensures errors { RefusedForMemoryAlone result }
    {
        Ok(NoteChains {
            opening,
            base: Base::new(alloc, base)?,
            kept: KeptEntries::new(alloc),
        })
    }

    /// The numbers that the base has messages of.
    pub fn base_sites(&self) -> &[SiteNo]
        ensures { (note : Note) (entries : Entries) → AreChainsOf self.now note entries
            → (site : ℕ) → Contains result.now site ↔ IsOfBase note site }
    {
        self.base.sites()
    }

    // Whether a number is the founder's.
    fn is_founders(&self, site: SiteNo) -> bool
        ensures own { IsTrue result ↔ (self.now.opening.number ≡ Just site) }
        ensures above { 0 < site }
    {
        let site = site.get();
        match self.opening.number {
            Some(number) => number.get() == site,
            None => false,
        }
    }

    // Who holds a number that isn't of the base.
    fn holder(&self, site: SiteNo) -> Option<Hash>
        ensures some { IfSome result (λ holder. (note : Note) (entries : Entries) → AreChainsOf self.now note entries
            → ¬ IsOfBase note site → (author : ℕ) → IsHolder note entries site author ↔ (author ≡ holder)) }
        ensures none { IfNone result ((note : Note) (entries : Entries) → AreChainsOf self.now note entries
            → (author : ℕ) → ¬ IsHolder note entries site author) }
    {
        if self.is_founders(site) {
            return Some(self.opening.founder);
        }
        self.kept.claimant(site)
    }

    // Whether a number is an author's.
    fn is_held_by(&self, site: SiteNo, author: Hash) -> bool
        ensures { (note : Note) (entries : Entries) → AreChainsOf self.now note entries
            → IsHolder note entries site author → IsTrue result }
    {
        match self.holder(site) {
            Some(holder) => holder == author,
            None => false,
        }
    }

    // Whether a claim can take a number: neither has the base messages of it, nor is it the founder's.
    fn is_open(&self, site: SiteNo) -> bool
        ensures { CanBeClaimed self.now site → IsTrue result }
    {
        !self.base.has(site) && !self.is_founders(site)
    }

    /// A claim came. Whether its number, which another held, is the claim's author's now. Refused `OutOfMemory` alone, and then all is
    /// as before.
    pub fn claim(&mut self, claim: Claim) -> Result<bool, Refusal>
        ensures kept { OnOk result ((note : Note) (entries : Entries) → AreToldApart (with_claim entries claim)
            → AreChainsOf self.old note entries → AreChainsOf self.new note (with_claim entries claim)) }
        ensures places { IfOk result (λ lost. (note : Note) (entries : Entries) → AreToldApart (with_claim entries claim)
            → AreChainsOf self.old note entries → (s : Message) → HoldsItsPlace note entries s
            → (lost ≡ true → s.op.site ≢ claim.site) → HoldsItsPlace note (with_claim entries claim) s) }
        ensures errors { RefusedForMemoryAlone result }
        ensures err { OnErr result (self.new ≡ self.old) }
    {
        let is_open = self.is_open(claim.site);
        let claimed = self.kept.claim(claim)?;
        Ok(takes_number(is_open, claimed))
    }

    /// A message came. Whether it took the place of another that the number's holder said. Refused `OutOfMemory` alone, and then all is as
    /// before.
    pub fn say(&mut self, saying: Saying) -> Result<bool, Refusal>
        ensures kept { OnOk result ((note : Note) (entries : Entries) → AreToldApart (with_saying entries saying)
            → AreChainsOf self.old note entries → AreChainsOf self.new note (with_saying entries saying)) }
        ensures places { IfOk result (λ lost. (note : Note) (entries : Entries) → AreChainsOf self.old note entries
            → (s : Message) → HoldsItsPlace note entries s → (lost ≡ true → ¬ AreBranches saying s)
            → HoldsItsPlace note (with_saying entries saying) s) }
        ensures errors { RefusedForMemoryAlone result }
        ensures err { OnErr result (self.new ≡ self.old) }
    {
        let is_holders = self.is_held_by(saying.op.site(), saying.author);
        let said = self.kept.say(saying)?;
        Ok(is_holders && is_lesser(said))
    }
}

impl Chains for NoteChains {
    ghost are_of = { AreChainsOf };

    fn at(&self, text: TextNo, site: SiteNo, seq: u32, before: Hash) -> Option<&Saying> {
        if self.base.has(site) {
            return self.base.at(text, site, seq);
        }
        self.kept.least(self.holder(site)?, text, site, seq, before)
    }
}
