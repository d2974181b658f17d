ghost use Rattle.std.specs.Prelude.{◌≡◌, ◌≢◌, ℕ, ◌<◌, ◌≤◌, ◌↔◌, [], ◌∷◌, ◌++◌, length, Contains, List, IfOk, IsTrue, OnErr, OnOk, Some as Just, slice_get};
ghost use Rattle.std.specs.List.{AllZip};
ghost use Rattle.looks.specs.Refusal.{RefusedForMemoryAlone};
ghost use Rattle.char_files.specs.CharName.{CharName};
ghost use Rattle.tree_order.specs.Good.{Good};
ghost use Rattle.set_laws.specs.Fronts.{IsHere};
ghost use Rattle.note_laws.specs.Note.{Note, Saying as Said, IsOfBase};
ghost use Rattle.note_admission.specs.Kept.{IsHashOfInsert, IsKeptOf, is_past_seen};
ghost use Rattle.note_admission.specs.Ranges.{lasts_of};

use crate::inserter::inserter_place;
use crate::mentioned::{ends_site, last_name, mentioned_ranges};
use crate::seen::Seen;
use char_files::{Name, SiteMap, SiteNo};
use looks::Refusal;
use note_entries::{Hash, Saying};
use op_log::Log;
use operations::NameRange;
use std::alloc::Global;
use std::marker::Model;

/// What is kept of the messages of a text that are admitted, beside a log that has their operations in the same order:
/// their hashes, what each number's messages mentioned of each number, and the numbers of the note's base.
#[derive(Drop)]
pub struct Admitted {
    hashes: Vec<Hash>,
    seen: Seen,
    base: SiteMap<()>,
    alloc: Global,
}

impl Model for Admitted {
    ghost use Rattle.note_admission.specs.Kept.{Kept};

    ghost Value = { Kept };

    ghost view = { λ a. record { hashes = a.hashes.items; seen = a.seen; base = a.base } };
}

impl Admitted {
    /// Nothing is admitted yet, and the base has these numbers. Refused `OutOfMemory` alone.
    pub fn new(alloc: Global, base: &[SiteNo]) -> Result<Admitted, Refusal>
        ensures ok { IfOk result (λ kept. (note : Note)
            → ((site : ℕ) → Contains base.now site ↔ IsOfBase note site) → IsKeptOf note [] kept) }
        ensures empty { IfOk result (λ kept. kept.hashes ≡ []) }
        ensures errors { RefusedForMemoryAlone result }
    {
        let mut sites = SiteMap::new(alloc);
        for site in base {
            sites.insert(*site, ())?;
        }
        Ok(Admitted {
            hashes: Vec::new(alloc),
            seen: Seen::new(alloc),
            base: sites,
            alloc,
        })
    }

    // The allocator.
    pub(crate) fn alloc(&self) -> Global {
        self.alloc
    }

    // The hash of the message that was admitted at this place.
    pub(crate) fn hash(&self, place: u64) -> Hash
        requires { place < length self.now.hashes }
        ensures { slice_get self.now.hashes place ≡ Just result }
    {
        self.hashes[place as usize]
    }

    // Nothing is admitted any more.
    pub(crate) fn clear(&mut self)
        ensures { self.new ≡ record self.old { hashes = []; seen = [] } }
    {
        self.hashes.clear();
        self.seen = Seen::new(self.alloc);
    }

    // Whether the name is another number's, not of the base, and after all that the chain mentioned of that number.
    fn is_past_seen(&self, chain: SiteNo, name: Name) -> bool
        ensures { result ≡ is_past_seen self.now chain name }
    {
        name.site() != chain
            && self.base.get(name.site()).is_none()
            && self.seen.end(chain, name.site()) <= name.off()
    }

    // Of each number the last name beyond that the chain's next message mentions, where these are its ranges. Refused
    // `OutOfMemory` alone.
    pub(crate) fn lasts_beyond(
        &self,
        chain: SiteNo,
        ranges: &[NameRange],
    ) -> Result<Vec<Name>, Refusal>
        ensures ok { IfOk result (λ lasts. lasts.items ≡ lasts_of (is_past_seen self.now chain) ranges.now) }
        ensures errors { RefusedForMemoryAlone result }
    {
        let mut lasts = Vec::new(self.alloc);
        let mut rest = ranges;
        while let Some((range, after)) = rest.split_first() {
            let name = last_name(*range);
            if ends_site(*range, after) && self.is_past_seen(chain, name) {
                lasts.push(name)?;
            }
            rest = after;
        }
        Ok(lasts)
    }

    // The hash of the message that inserted the character.
    fn hash_of_insert(&self, log: &Log, name: Name) -> Hash
        requires here { IsHere log.now.ops name }
        requires good { Good log.now.ops }
        requires whole { length self.now.hashes ≡ length log.now.ops }
        ensures { IsHashOfInsert log.now.ops self.now.hashes name result }
    {
        self.hashes[inserter_place(log, name) as usize]
    }

    // The hashes of the messages that inserted these. Refused `OutOfMemory` alone.
    pub(crate) fn hashes_of_inserts(&self, log: &Log, names: &[Name]) -> Result<Vec<Hash>, Refusal>
        requires here { (name : CharName) → Contains names.now name → IsHere log.now.ops name }
        requires good { Good log.now.ops }
        requires whole { length self.now.hashes ≡ length log.now.ops }
        ensures ok { IfOk result (λ hashes.
            AllZip (IsHashOfInsert log.now.ops self.now.hashes) names.now hashes.items) }
        ensures errors { RefusedForMemoryAlone result }
    {
        let mut hashes = Vec::new(self.alloc);
        for name in names {
            hashes.push(self.hash_of_insert(log, *name))?;
        }
        Ok(hashes)
    }

    /// Notes that the next message of a chain counts.
    ///
    /// Refused `OutOfMemory` alone, and then what is kept is of the messages before.
    pub fn admit(&mut self, saying: &Saying) -> Result<(), Refusal>
        ensures ok { OnOk result ((note : Note) (admitted : List Said) → IsKeptOf note admitted self.old
            → IsKeptOf note (admitted ++ saying.now ∷ []) self.new) }
        ensures err { OnErr result ((note : Note) (admitted : List Said) → IsKeptOf note admitted self.old
            → IsKeptOf note admitted self.new) }
        ensures hashes { OnOk result (self.new.hashes ≡ self.old.hashes ++ saying.now.hash ∷ []) }
        ensures same { OnErr result (self.new.hashes ≡ self.old.hashes) }
        ensures errors { RefusedForMemoryAlone result }
    {
        let chain = saying.op.site();
        let ranges = mentioned_ranges(self.alloc, &saying.op)?;
        self.seen.reserve(chain, &ranges)?;
        self.hashes.push(saying.hash)?;
        self.seen.raise(chain, &ranges);
        Ok(())
    }
}
