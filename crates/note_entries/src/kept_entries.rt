ghost use Rattle.std.specs.Prelude.{◌≡◌, Contains, IfNone, IfOk, IfSome, OnErr, OnOk};
ghost use Rattle.looks.specs.Refusal.{RefusedForMemoryAlone};
ghost use Rattle.note_laws.specs.Note.{Note, Entries, Saying as Message};
ghost use Rattle.note_laws.specs.Chains.{HoldsItsPlace};
ghost use Rattle.note_laws.specs.Laws.{AreToldApart};
ghost use Rattle.note_entries.specs.Branches.{Says, TakesPlaceOf, place_in_chain};
ghost use Rattle.note_entries.specs.Claims.{Claims, IsClaimant, IsUnclaimed, TakesNumberOf};
ghost use Rattle.note_entries.specs.Kept.{AreKeptOf, no_entries, with_claim, with_saying};

use crate::branches::{Branches, Said};
use crate::claim::Claim;
use crate::hash::Hash;
use crate::holders::{Claimed, Holders};
use crate::place::Place;
use crate::saying::Saying;
use char_files::{SiteNo, TextNo};
use looks::Refusal;
use std::alloc::Global;
use std::marker::Model;

/// What is kept of a note's entries: of each number the claim of least rank, and of messages that one author said to follow the same one
/// of a number and a text, that of least hash. Of those with one rank or hash it is the first that came.
#[derive(Drop)]
pub struct KeptEntries {
    holders: Holders,
    branches: Branches,
}

impl Model for KeptEntries {
    ghost use Rattle.note_laws.specs.Note.{Entries};

    ghost Value = { Entries };

    ghost view = { λ k. record { claims = k.holders; said = k.branches } };
}

impl KeptEntries {
    /// Nothing is kept.
    pub fn new(alloc: Global) -> KeptEntries
        ensures value { result ≡ no_entries }
        ensures kept { AreKeptOf no_entries result }
    {
        KeptEntries {
            holders: Holders::new(alloc),
            branches: Branches::new(alloc),
        }
    }

    /// Whose claim of the number is kept.
    pub fn claimant(&self, site: SiteNo) -> Option<Hash>
        ensures some { IfSome result (IsClaimant self.now.claims site) }
        ensures none { IfNone result (IsUnclaimed self.now.claims site) }
    {
        self.holders.claimant(site)
    }

    /// A claim came.
    ///
    /// Refused `OutOfMemory` alone, and then all is as before.
    pub fn claim(&mut self, claim: Claim) -> Result<Claimed, Refusal>
        ensures kept { OnOk result ((entries : Entries) → AreToldApart (with_claim entries claim)
            → AreKeptOf entries self.old → AreKeptOf (with_claim entries claim) self.new) }
        ensures ok { IfOk result (λ claimed. Claims self.old.claims claim claimed self.new.claims) }
        ensures places { IfOk result (λ claimed. (note : Note) (entries : Entries)
            → AreToldApart (with_claim entries claim) → AreKeptOf entries self.old → (s : Message)
            → HoldsItsPlace note entries s → ¬ TakesNumberOf claim claimed s
            → HoldsItsPlace note (with_claim entries claim) s) }
        ensures said { self.new.said ≡ self.old.said }
        ensures errors { RefusedForMemoryAlone result }
        ensures err { OnErr result (self.new ≡ self.old) }
    {
        self.holders.claim(claim)
    }

    /// The message that is kept of those of this place in a chain.
    pub fn least(
        &self,
        author: Hash,
        text: TextNo,
        site: SiteNo,
        seq: u32,
        before: Hash,
    ) -> Option<&Saying>
        ensures some { IfSome result (λ s. Contains self.now.said s.now
            × (place_in_chain s.now ≡ record { author = author; text = text; site = site; seq = seq; before = before })) }
        ensures none { IfNone result ((s : Message) → Contains self.now.said s
            → ¬ (place_in_chain s ≡ record { author = author; text = text; site = site; seq = seq; before = before })) }
    {
        self.branches.least(Place {
            author,
            text,
            site,
            seq,
            before,
        })
    }

    /// A message came.
    ///
    /// Refused `OutOfMemory` alone, and then all is as before.
    pub fn say(&mut self, saying: Saying) -> Result<Said, Refusal>
        ensures kept { OnOk result ((entries : Entries) → AreToldApart (with_saying entries saying)
            → AreKeptOf entries self.old → AreKeptOf (with_saying entries saying) self.new) }
        ensures ok { IfOk result (λ said. Says self.old.said saying said self.new.said) }
        ensures places { IfOk result (λ said. (note : Note) (entries : Entries) → AreKeptOf entries self.old
            → (s : Message) → HoldsItsPlace note entries s → ¬ TakesPlaceOf saying said s
            → HoldsItsPlace note (with_saying entries saying) s) }
        ensures claims { self.new.claims ≡ self.old.claims }
        ensures errors { RefusedForMemoryAlone result }
        ensures err { OnErr result (self.new ≡ self.old) }
    {
        self.branches.say(saying)
    }
}
