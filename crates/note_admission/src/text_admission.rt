//! What is admitted of one text of a note.

ghost use Rattle.std.specs.Prelude.{◌≡◌, ℕ, ◌^◌, ◌<◌, ◌⊎◌, ◌↔◌, ◌++◌, ◌∷◌, [], length, slice_get, false, true, Contains, List, IfErr, IfNone, IfOk, IfSome, IsTrue, OnErr, OnOk, Some as Just};
ghost use Rattle.looks.specs.Refusal.{RefusedForMemoryAlone};
ghost use Rattle.looks.specs.declared.refusal.Refusal.TheVariants as refusal;
ghost use Rattle.set_laws.specs.Fronts.{IsHeld, front_of};
ghost use Rattle.set_laws.specs.Verdict as verdict;
ghost use Rattle.note_laws.specs.Note.{Note, Entries, IsOfBase, Saying as Said};
ghost use Rattle.note_laws.specs.Admission.{BuildsOn, CountInTurn, IsAdmission, on_others, wrong};
ghost use Rattle.note_laws.specs.Chains.{ComesNext};
ghost use Rattle.note_laws.specs.Laws.{AreAmong, AreEqualAdmissions, AreReadyInTurn, AreToldApart, EndsOrWaits, IsBaseIdentified, KeepTheirPlaces};
ghost use Rattle.note_admission.specs.Kept.{IsKeptOf};
ghost use Rattle.note_admission.specs.Continuing.{AreMentionedIn};
ghost use Rattle.note_admission.specs.Fates.{fate_of};
ghost use Rattle.note_admission.specs.Growing.{AreAdmitted, AreOfNote, AreTaken, FollowsEntries, LogGoesOn, GoesOnOrAnew, HasNoNext, IsHashOf, IsHeadOfChain, IsLastHash, IsOfLost, IsOnlyHead, IsReplaced, LastsWhereItKeepsItsPlace, AdmissionGrows, IsNextOfNumber, MayCount, StaysAdmitted, TakesAllOfNumber, TakesNone, TakesOn};
ghost use Rattle.note_admission.specs.declared.text_admission.Unsettled.TheVariants.{Any, Nothing, One};

use crate::admitted::Admitted;
use crate::chains::Chains;
use crate::continuing::Continuing;
use crate::fate::Fate;
use char_files::{SiteNo, TextNo};
use looks::Refusal;
use note_entries::{Digest, Hash, Saying};
use note_laws::admissions::{
    lemma_a_chain_ends_or_waits, lemma_building_on_others_lasts, lemma_one_message_comes_next,
    lemma_the_next_has_one_fate, lemma_there_is_one_admission, lemma_what_keeps_its_place_stays,
    lemma_wrong_is_for_good,
};
use op_log::Log;
use operations::Op;
use std::alloc::Global;
use std::marker::Model;

/// Of which chains the next message may count.
#[derive(Clone, Copy, Drop)]
pub enum Unsettled {
    Nothing,
    // Of this number's alone.
    One(SiteNo),
    Any,
}

// Which may count, where one of this number may, too.
fn doubted(unsettled: Unsettled, site: SiteNo) -> Unsettled
    ensures own { MayCount result site }
    ensures others { (other : ℕ) → MayCount unsettled other → MayCount result other }
{
    match unsettled {
        Unsettled::Nothing => Unsettled::One(site),
        Unsettled::One(_) | Unsettled::Any => Unsettled::Any,
    }
}

/// What is admitted of a text, grown entry by entry. A message's number is expected before the chains have the message; each entry that
/// they have is told by `note_message` or `note_claim`; `settle` admits what counts then.
#[derive(Drop)]
pub struct TextAdmission {
    text: TextNo,
    log: Log,
    admitted: Admitted,
    // The numbers that have messages.
    sites: Vec<SiteNo>,
    unsettled: Unsettled,
    looked_at: u64,
    alloc: Global,
}

impl Model for TextAdmission {
    ghost use Rattle.note_admission.specs.Growing.{IsSoundLog, TextSeen};

    ghost Value = { TextSeen };

    ghost view = { λ t. record {
      text = t.text;
      ops = t.log.ops;
      kept = t.admitted;
      sites = t.sites.items;
      unsettled = t.unsettled;
    } };

    ghost invariant = { λ t. IsSoundLog t.text t.log.ops t.admitted.hashes };
}

impl TextAdmission {
    /// Nothing is admitted yet. Refused `OutOfMemory` alone.
    pub fn new(alloc: Global, text: TextNo, base: &[SiteNo]) -> Result<TextAdmission, Refusal>
        ensures text { IfOk result (λ t. t.text ≡ text) }
        ensures ok { IfOk result (λ t. (note : Note) (entries : Entries) → entries.said ≡ []
            → ((site : ℕ) → Contains base.now site ↔ IsOfBase note site) → AreAdmitted note entries t []) }
        ensures errors { RefusedForMemoryAlone result }
    {
        let sites = Vec::from_slice(alloc, base)?;
        let admitted = Admitted::new(alloc, base)?;
        Ok(TextAdmission {
            text,
            log: Log::new(alloc),
            admitted,
            sites,
            unsettled: Unsettled::Any,
            looked_at: 0,
            alloc,
        })
    }

    /// The operations of what is admitted, in the order of their admission.
    pub fn log(&self) -> &Log
        ensures value { result.now.ops ≡ self.now.ops }
        ensures ready { AreReadyInTurn self.now.text result.now.ops }
    {
        &self.log
    }

    /// The numbers that have messages.
    pub fn sites(&self) -> &[SiteNo]
        ensures { result.now ≡ self.now.sites }
    {
        &self.sites
    }

    /// How many messages were asked for their fates.
    pub fn looked_at(&self) -> u64 {
        self.looked_at
    }

    /// The hash of the message that was admitted at this place.
    pub fn hash(&self, place: u64) -> Hash
        requires { place < length self.now.ops }
        ensures { slice_get self.now.kept.hashes place ≡ Just result }
    {
        self.admitted.hash(place)
    }

    /// The seq of the last message that is admitted of a number, 0 for none.
    pub fn front(&self, site: SiteNo) -> u32
        ensures { result ≡ front_of self.now.ops site }
    {
        self.log.front(site)
    }

    // The hash of the chain's admitted message of this seq, zeros before the first.
    fn hash_of(&self, site: SiteNo, seq: u32) -> Hash
        ensures held { IsHeld self.now.ops site seq → IsHashOf self.now.ops self.now.kept.hashes site seq result }
        ensures none { ¬ IsHeld self.now.ops site seq → result ≡ 0 }
    {
        match self.log.place(site, seq) {
            Some(place) => self.admitted.hash(place),
            None => Hash::new(0, 0),
        }
    }

    /// The hash of the last message that is admitted of a number, zeros for none.
    pub fn last(&self, site: SiteNo) -> Hash
        ensures { (note : Note) (entries : Entries) (admitted : List Said)
            → AreTaken note entries self.now admitted
            → IsLastHash admitted site result }
    {
        self.hash_of(site, self.log.front(site))
    }

    // The next message of a chain, if it is here. Refused `OutOfMemory` alone, which is also where there is no greater seq.
    fn next<'a, C: Chains>(
        &self,
        chains: &'a C,
        site: SiteNo,
    ) -> Result<Option<&'a Saying>, Refusal>
        ensures placed { IfOk result (λ next. IfSome next (λ s. IsNextOfNumber self.now.text self.now.ops site s.now.op)) }
        ensures some { IfOk result (λ next. IfSome next (λ s. (note : Note) (entries : Entries) (admitted : List Said)
            → C.are_of chains.now note entries
            → AreTaken note entries self.now admitted
            → ComesNext note entries self.now.text admitted s.now)) }
        ensures none { IfOk result (λ next. IfNone next ((note : Note) (entries : Entries) (admitted : List Said)
            → C.are_of chains.now note entries
            → AreTaken note entries self.now admitted
            → (s : Said) → s.op.site ≡ site → ¬ ComesNext note entries self.now.text admitted s)) }
        ensures errors { RefusedForMemoryAlone result }
    {
        let front = self.log.front(site);
        Refusal::within_memory(front as usize, u32::MAX as usize - 1)?;
        Ok(chains.at(self.text, site, front + 1, self.last(site)))
    }

    /// What becomes of the next message of a chain, and its hash, if it is here. Refused `OutOfMemory` alone.
    pub fn head<D: Digest, C: Chains>(
        &self,
        chains: &C,
        digest: &D,
        site: SiteNo,
    ) -> Result<Option<(Hash, Fate)>, Refusal>
        ensures some { IfOk result (λ head. IfSome head (λ h. (note : Note) (entries : Entries) (admitted : List Said)
            → AreOfNote note entries (D.digest digest.now) (C.are_of chains.now) → AreTaken note entries self.now admitted
            → IsHeadOfChain note entries self.now.text admitted site h.0 (fate_of h.1))) }
        ensures only { IfOk result (λ head. IfSome head (λ h. (note : Note) (entries : Entries) (admitted : List Said)
            → AreOfNote note entries (D.digest digest.now) (C.are_of chains.now) → AreTaken note entries self.now admitted
            → IsOnlyHead note entries self.now.text admitted site h.0 (fate_of h.1))) }
        ensures lasts { IfOk result (λ head. IfSome head (λ h. (fate_of h.1 ≡ wrong) ⊎ (fate_of h.1 ≡ on_others)
            → (note : Note) (entries : Entries) (admitted : List Said)
            → AreOfNote note entries (D.digest digest.now) (C.are_of chains.now) → AreTaken note entries self.now admitted
            → LastsWhereItKeepsItsPlace note entries self.now.text admitted (fate_of h.1))) }
        ensures none { IfOk result (λ head. IfNone head ((note : Note) (entries : Entries) (admitted : List Said)
            → C.are_of chains.now note entries → AreTaken note entries self.now admitted
            → HasNoNext note entries self.now.text admitted site)) }
        ensures errors { RefusedForMemoryAlone result }
    {
        lemma_one_message_comes_next();
        lemma_the_next_has_one_fate();
        lemma_wrong_is_for_good();
        lemma_building_on_others_lasts();
        match self.next(chains, site)? {
            Some(saying) => {
                let fate = self.admitted.fate(&self.log, digest, saying)?;
                Ok(Some((saying.hash, fate)))
            }
            None => Ok(None),
        }
    }

    /// What the next message of a chain has to say that it builds on, where this is its operation, and these messages of the chain come
    /// between what is admitted and it.
    ///
    /// Refused `Behind` where it mentions another's character that isn't there, and `OutOfMemory`.
    pub fn builds_on<D: Digest>(
        &self,
        digest: &D,
        op: &Op,
        between: &Continuing,
    ) -> Result<Option<Hash>, Refusal>
        ensures ok { IfOk result (λ on. (note : Note) (entries : Entries) (admitted more : List Said)
            → note.digest ≡ D.digest digest.now → AreTaken note entries self.now admitted
            → AreMentionedIn op.now.site more between.now → (s : Said) → s.op ≡ op.now → s.on ≡ on
            → BuildsOn note (admitted ++ more) s) }
        ensures errors { IfErr result (λ why. (why ≡ refusal.Behind) ⊎ (why ≡ refusal.OutOfMemory)) }
    {
        self.admitted.builds_on(&self.log, digest, op, between)
    }

    // Admits the next message of a chain, which counts. Refused `OutOfMemory` alone, and then it isn't.
    fn admit(&mut self, saying: &Saying) -> Result<(), Refusal>
        requires text { saying.now.op.text ≡ self.old.text }
        requires new { verdict.IsNew self.old.ops saying.now.op }
        requires ready { verdict.HasVerdict self.old.ops saying.now.op verdict.ready }
        ensures ops { OnOk result (self.new.ops ≡ self.old.ops ++ saying.now.op ∷ []) }
        ensures kept { OnOk result ((note : Note) (admitted : List Said) → IsKeptOf note admitted self.old.kept
            → IsKeptOf note (admitted ++ saying.now ∷ []) self.new.kept) }
        ensures same { OnErr result (self.new.ops ≡ self.old.ops) }
        ensures still { OnErr result ((note : Note) (admitted : List Said) → IsKeptOf note admitted self.old.kept
            → IsKeptOf note admitted self.new.kept) }
        ensures rest { self.new ≡ record self.old { ops = self.new.ops; kept = self.new.kept } }
        ensures errors { RefusedForMemoryAlone result }
    {
        let op = saying.op.copy()?;
        self.log.reserve(op.site())?;
        self.admitted.admit(saying)?;
        self.log.push(op);
        Ok(())
    }

    // Admits the next message of a chain, if it is here and counts. Refused `OutOfMemory` alone, and then it isn't.
    fn step<D: Digest, C: Chains>(
        &mut self,
        chains: &C,
        digest: &D,
        site: SiteNo,
    ) -> Result<(), Refusal>
        ensures taken { TakesOn (D.digest digest.now) (C.are_of chains.now) self.old self.new }
        ensures none { OnOk result (length self.new.ops ≡ length self.old.ops
            → TakesNone (D.digest digest.now) (C.are_of chains.now) self.old site) }
        ensures grows { LogGoesOn self.old self.new }
        ensures rest { self.new ≡ record self.old { ops = self.new.ops; kept = self.new.kept } }
        ensures errors { RefusedForMemoryAlone result }
    {
        match self.next(chains, site)? {
            None => Ok(()),
            Some(saying) => {
                self.looked_at = self.looked_at.saturating_add(1);
                let fate = self.admitted.fate(&self.log, digest, saying)?;
                if fate.counts() {
                    self.admit(saying)?;
                }
                Ok(())
            }
        }
    }

    // Admits messages of a chain until none is next that counts. Refused `OutOfMemory` alone.
    fn advance<D: Digest, C: Chains>(
        &mut self,
        chains: &C,
        digest: &D,
        site: SiteNo,
    ) -> Result<(), Refusal>
        ensures taken { TakesOn (D.digest digest.now) (C.are_of chains.now) self.old self.new }
        ensures none { OnOk result (TakesAllOfNumber (D.digest digest.now) (C.are_of chains.now) self.old self.new site) }
        ensures grows { LogGoesOn self.old self.new }
        ensures rest { self.new ≡ record self.old { ops = self.new.ops; kept = self.new.kept } }
        ensures errors { RefusedForMemoryAlone result }
    {
        loop {
            let before = self.log.len();
            self.step(chains, digest, site)?;
            if self.log.len() == before {
                return Ok(());
            }
        }
    }

    // Whether no chain has a next message that counts.
    fn is_settled(&self) -> bool
        ensures { IsTrue result ↔ (self.now.unsettled ≡ Nothing) }
    {
        match self.unsettled {
            Unsettled::Nothing => true,
            Unsettled::One(_) | Unsettled::Any => false,
        }
    }

    // Asks each chain once. Refused `OutOfMemory` alone.
    fn ask_all<D: Digest, C: Chains>(&mut self, chains: &C, digest: &D) -> Result<(), Refusal>
        ensures grown { AdmissionGrows (D.digest digest.now) (C.are_of chains.now) self.old self.new }
        ensures longer { LogGoesOn self.old self.new }
        ensures text { self.new.text ≡ self.old.text }
        ensures settles { OnOk result (self.new.unsettled ≡ Nothing
            ⊎ (length self.old.ops < length self.new.ops × length self.old.ops < 2 ^ 64)) }
        ensures errors { RefusedForMemoryAlone result }
    {
        let before = self.log.len();
        self.unsettled = Unsettled::Any;
        for at in 0..self.sites.len() {
            let site = self.sites[at];
            self.advance(chains, digest, site)?;
        }
        if before == self.log.len() {
            self.unsettled = Unsettled::Nothing;
        }
        Ok(())
    }

    // Asks a chain beside which no other has a message that counts. Refused `OutOfMemory` alone.
    fn ask_one<D: Digest, C: Chains>(
        &mut self,
        chains: &C,
        digest: &D,
        site: SiteNo,
    ) -> Result<(), Refusal>
        requires { self.old.unsettled ≡ One site }
        ensures grown { AdmissionGrows (D.digest digest.now) (C.are_of chains.now) self.old self.new }
        ensures longer { LogGoesOn self.old self.new }
        ensures text { self.new.text ≡ self.old.text }
        ensures errors { RefusedForMemoryAlone result }
    {
        let before = self.log.len();
        self.unsettled = Unsettled::Any;
        self.advance(chains, digest, site)?;
        if before == self.log.len() {
            self.unsettled = Unsettled::Nothing;
        }
        Ok(())
    }

    /// Admits messages until none is left that counts. Refused `OutOfMemory` alone, and then some may be left.
    pub fn settle<D: Digest, C: Chains>(&mut self, chains: &C, digest: &D) -> Result<(), Refusal>
        ensures grown { AdmissionGrows (D.digest digest.now) (C.are_of chains.now) self.old self.new }
        ensures longer { LogGoesOn self.old self.new }
        ensures text { self.new.text ≡ self.old.text }
        ensures settled { OnOk result (self.new.unsettled ≡ Nothing) }
        ensures whole { OnOk result ((note : Note) (entries : Entries) (admitted : List Said)
            → AreAdmitted note entries self.new admitted → IsAdmission note entries self.new.text admitted) }
        ensures only { OnOk result ((note : Note) (entries : Entries) (admitted other : List Said) → IsBaseIdentified note
            → AreToldApart entries → AreAdmitted note entries self.new admitted
            → IsAdmission note entries self.new.text other → AreEqualAdmissions other admitted) }
        ensures stays { OnOk result ((note : Note) (fewer entries : Entries) (was admitted : List Said) → IsBaseIdentified note
            → AreToldApart entries → CountInTurn note fewer self.new.text was → KeepTheirPlaces note entries was
            → AreAdmitted note entries self.new admitted → AreAmong was admitted) }
        ensures ends { OnOk result ((note : Note) (entries : Entries) (admitted : List Said) (s : Said)
            → AreAdmitted note entries self.new admitted → ComesNext note entries self.new.text admitted s
            → EndsOrWaits note admitted s) }
        ensures errors { RefusedForMemoryAlone result }
    {
        if let Unsettled::One(site) = &self.unsettled {
            let site = *site;
            self.ask_one(chains, digest, site)?;
        }
        while !self.is_settled() {
            self.ask_all(chains, digest)?;
        }
        lemma_there_is_one_admission();
        lemma_what_keeps_its_place_stays();
        lemma_a_chain_ends_or_waits();
        Ok(())
    }

    // Whether messages of this number may have come.
    fn knows(&self, site: SiteNo) -> bool
        ensures { IsTrue result → Contains self.now.sites site }
    {
        for one in &self.sites {
            if *one == site {
                return true;
            }
        }
        false
    }

    /// A message of this number may come. Refused `OutOfMemory` alone, and then all is as before.
    pub fn expect(&mut self, site: SiteNo) -> Result<(), Refusal>
        ensures known { OnOk result (Contains self.new.sites site) }
        ensures keeps { (other : ℕ) → Contains self.old.sites other → Contains self.new.sites other }
        ensures stays { StaysAdmitted self.old self.new }
        ensures rest { self.new ≡ record self.old { sites = self.new.sites } }
        ensures err { OnErr result (self.new ≡ self.old) }
        ensures errors { RefusedForMemoryAlone result }
    {
        if !self.knows(site) {
            self.sites.push(site)?;
        }
        Ok(())
    }

    // Takes out all that is admitted.
    fn begin_anew(&mut self)
        ensures ops { self.new.ops ≡ [] }
        ensures hashes { self.new.kept.hashes ≡ [] }
        ensures seen { self.new.kept.seen ≡ [] }
        ensures base { self.new.kept.base ≡ self.old.kept.base }
        ensures any { self.new.unsettled ≡ Any }
        ensures rest { self.new ≡ record self.old { ops = self.new.ops; kept = self.new.kept; unsettled = self.new.unsettled } }
    {
        self.log = Log::new(self.alloc);
        self.admitted.clear();
        self.unsettled = Unsettled::Any;
    }

    // Entries came, by which no other number's message gets a place: begins anew where a message that is admitted may have lost its own.
    fn follow(&mut self, site: SiteNo, may_lose: bool)
        ensures kept { may_lose ≡ false → FollowsEntries self.old self.new site (λ s. ⊥) }
        ensures anew { may_lose ≡ true → FollowsEntries self.old self.new site (λ s. Unit {0}) }
        ensures ops { GoesOnOrAnew may_lose self.old self.new }
        ensures text { self.new.text ≡ self.old.text }
        ensures sites { self.new.sites ≡ self.old.sites }
    {
        if may_lose {
            self.begin_anew();
        } else {
            self.unsettled = doubted(self.unsettled, site);
        }
    }

    /// The chains have a message of a number that is expected, and it may have taken another's place. Whether what is admitted begins
    /// anew.
    pub fn note_message(&mut self, site: SiteNo, seq: u32, lost: bool) -> bool
        ensures follows { FollowsEntries self.old self.new site (IsReplaced lost site seq) }
        ensures ops { GoesOnOrAnew result self.old self.new }
        ensures text { self.new.text ≡ self.old.text }
    {
        let is_replaced = lost && self.log.place(site, seq).is_some();
        self.follow(site, is_replaced);
        is_replaced
    }

    /// The chains have a claim of a number, and it may have taken the number from another. Whether what is admitted begins anew.
    pub fn note_claim(&mut self, site: SiteNo, lost: bool) -> bool
        ensures follows { FollowsEntries self.old self.new site (IsOfLost lost site) }
        ensures ops { GoesOnOrAnew result self.old self.new }
        ensures text { self.new.text ≡ self.old.text }
    {
        let is_lost = lost && 0 < self.log.front(site);
        self.follow(site, is_lost);
        is_lost
    }
}
