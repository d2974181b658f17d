//! What the messages of each number mentioned of each number.

ghost use Rattle.std.specs.Prelude.{◌≡◌, ℕ, [], OnOk};
ghost use Rattle.looks.specs.Refusal.{RefusedForMemoryAlone};
ghost use Rattle.note_admission.specs.Kept.{AreSeenBy, HasPlaces, seen_of};

use crate::offsets::Offsets;
use char_files::{SiteMap, SiteNo};
use looks::Refusal;
use operations::NameRange;
use std::alloc::Global;
use std::marker::Model;

// What the messages of each number mentioned.
#[derive(Drop)]
pub(crate) struct Seen {
    chains: SiteMap<Offsets>,
    alloc: Global,
}

impl Model for Seen {
    ghost use Rattle.note_admission.specs.Kept.{Seen as SeenBy};

    ghost Value = { SeenBy };

    ghost view = { λ s. s.chains };
}

impl Seen {
    // Nothing was mentioned.
    pub(crate) fn new(alloc: Global) -> Seen
        ensures { result ≡ [] }
    {
        Seen {
            chains: SiteMap::new(alloc),
            alloc,
        }
    }

    // The offset after the last character of a site that messages of the chain mentioned, 0 for none.
    pub(crate) fn end(&self, chain: SiteNo, site: SiteNo) -> u32
        ensures { result ≡ seen_of self.now chain site }
    {
        match self.chains.get(chain) {
            Some(offsets) => offsets.end(site),
            None => 0,
        }
    }

    // Makes places for what the chain's next message mentions. Refused `OutOfMemory` alone.
    pub(crate) fn reserve(&mut self, chain: SiteNo, ranges: &[NameRange]) -> Result<(), Refusal>
        ensures ok { OnOk result (HasPlaces self.new chain ranges.now) }
        ensures same { (other site : ℕ) → seen_of self.new other site ≡ seen_of self.old other site }
        ensures errors { RefusedForMemoryAlone result }
    {
        if let Some(offsets) = self.chains.get_mut(chain) {
            return offsets.reserve_all(ranges);
        }
        let mut offsets = Offsets::new(self.alloc);
        offsets.reserve_all(ranges)?;
        self.chains.insert(chain, offsets)?;
        Ok(())
    }

    // The chain's next message mentions these ranges, for which there are places.
    pub(crate) fn raise(&mut self, chain: SiteNo, ranges: &[NameRange])
        requires { HasPlaces self.old chain ranges.now }
        ensures { AreSeenBy self.old chain ranges.now self.new }
    {
        match self.chains.get_mut(chain) {
            Some(offsets) => offsets.raise_all(ranges),
            None => unreachable!(),
        }
    }
}
