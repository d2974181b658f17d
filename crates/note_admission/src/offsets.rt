//! What the messages of one number mentioned of each number.

ghost use Rattle.std.specs.Prelude.{◌≡◌, ℕ, [], ◌∷◌, All, OnOk};
ghost use Rattle.looks.specs.Refusal.{RefusedForMemoryAlone};
ghost use Rattle.note_admission.specs.Kept.{AreSeenIn, HasPlace, end_in};

use char_files::{SiteMap, SiteNo};
use looks::Refusal;
use operations::NameRange;
use std::alloc::Global;
use std::marker::Model;

// Of each number the offset after the last of its characters that was mentioned.
#[derive(Drop)]
pub(crate) struct Offsets {
    ends: SiteMap<u32>,
}

impl Model for Offsets {
    ghost use Rattle.note_admission.specs.Kept.{Offsets as Ends};

    ghost Value = { Ends };

    ghost view = { λ o. o.ends };
}

impl Offsets {
    // None was mentioned.
    pub(crate) fn new(alloc: Global) -> Offsets
        ensures { result ≡ [] }
    {
        Offsets {
            ends: SiteMap::new(alloc),
        }
    }

    // The offset after the last character of the number that was mentioned, 0 for none.
    pub(crate) fn end(&self, site: SiteNo) -> u32
        ensures { result ≡ end_in self.now site }
    {
        match self.ends.get(site) {
            Some(end) => *end,
            None => 0,
        }
    }

    // Makes a place for a number. Refused `OutOfMemory` alone.
    fn reserve(&mut self, site: SiteNo) -> Result<(), Refusal>
        ensures ok { OnOk result (HasPlace self.new site) }
        ensures same { (other : ℕ) → end_in self.new other ≡ end_in self.old other }
        ensures keeps { (other : ℕ) → HasPlace self.old other → HasPlace self.new other }
        ensures errors { RefusedForMemoryAlone result }
    {
        if self.ends.get(site).is_none() {
            self.ends.insert(site, 0)?;
        }
        Ok(())
    }

    // Makes a place for each number of these ranges. Refused `OutOfMemory` alone.
    pub(crate) fn reserve_all(&mut self, ranges: &[NameRange]) -> Result<(), Refusal>
        ensures ok { OnOk result (All (λ r. HasPlace self.new r.site) ranges.now) }
        ensures same { (other : ℕ) → end_in self.new other ≡ end_in self.old other }
        ensures errors { RefusedForMemoryAlone result }
    {
        for range in ranges {
            self.reserve(range.site())?;
        }
        Ok(())
    }

    // A range was mentioned, for whose number there is a place.
    fn raise(&mut self, range: NameRange)
        requires { HasPlace self.old range.site }
        ensures seen { AreSeenIn self.old (range ∷ []) self.new }
        ensures keeps { (other : ℕ) → HasPlace self.old other → HasPlace self.new other }
    {
        if let Some(end) = self.ends.get_mut(range.site()) {
            *end = (range.at() + range.len()).max(*end);
        }
    }

    // These ranges were mentioned, for whose numbers there are places.
    pub(crate) fn raise_all(&mut self, ranges: &[NameRange])
        requires { All (λ r. HasPlace self.old r.site) ranges.now }
        ensures { AreSeenIn self.old ranges.now self.new }
    {
        for range in ranges {
            self.raise(*range);
        }
    }
}
