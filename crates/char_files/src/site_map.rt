ghost use Rattle.std.specs.Prelude.{◌≡◌, ◌<◌, [], length, nat_eq, slice_get, IfNone, IfSome, OnErr, OnOk, None, Some};
ghost use Rattle.std.specs.Borrow.{sem};
ghost use Rattle.std.specs.Map.{lookup};
ghost use Rattle.std.specs.Option.{option_copied, option_copied_mut};
ghost use Rattle.looks.specs.Refusal.{RefusedForMemoryAlone};
ghost use Rattle.char_files.specs.SiteMap.{HoldsSiteValue, IsPut};

use crate::site_no::SiteNo;
use indexmap::IndexMap;
use looks::Refusal;
use std::alloc::Global;
use std::marker::Model;

/// Values by the sites' numbers. Mostly the one that is asked for is the one that was put or lent last, so that is looked at before
/// any search.
#[derive(Drop)]
pub struct SiteMap<V> {
    values: IndexMap<u16, V>,
    // Where to look first. No promise rests on it.
    last: usize,
}

impl<V> Model for SiteMap<V> {
    ghost use Rattle.std.specs.Prelude.{ℕ, List};

    ghost Value = { List (ℕ × V) };

    ghost view = { λ m. m.values.entries };
}

impl<V> SiteMap<V> {
    ghost use Rattle.char_files.specs.SiteMapLends.{lends_site_value};

    /// No values.
    pub fn new(alloc: Global) -> SiteMap<V>
        ensures { result ≡ [] }
    {
        SiteMap {
            values: IndexMap::new(alloc),
            last: 0,
        }
    }

    /// How many sites have a value.
    pub fn len(&self) -> usize
        ensures { result ≡ length self.now }
    {
        self.values.len()
    }

    /// The site at this place, from 0, among those that have a value.
    pub fn site_at(&self, place: usize) -> Option<SiteNo>
        ensures some { IfSome (slice_get self.now place) (λ v. 0 < v.0 → result ≡ Some v.0) }
        ensures none { IfNone (slice_get self.now place) (result ≡ None) }
    {
        SiteNo::new(*self.values.get_index(place)?.0)
    }

    // Where a site's value stands, if it has one.
    fn slot(&self, site: SiteNo) -> Option<usize>
        ensures some { IfSome result (HoldsSiteValue self.now site) }
        ensures none { IfNone result (lookup (nat_eq site) self.now ≡ None) }
    {
        match self.values.get_index(self.last) {
            Some((key, _)) if *key == site.get() => Some(self.last),
            _ => Some(self.values.get_full(&site.get())?.0),
        }
    }

    /// A site's value, if it has one.
    pub fn get(&self, site: SiteNo) -> Option<&V>
        ensures { option_copied result ≡ lookup (nat_eq site) self.now }
    {
        match self.values.get_index(self.last) {
            Some((key, value)) if *key == site.get() => Some(value),
            _ => self.values.get(&site.get()),
        }
    }

    /// The same, to be changed.
    pub fn get_mut(&mut self, site: SiteNo) -> Option<&mut V>
        ensures* writes_back { sem 𝓛 (lends_site_value V.row self.entry site result) }
        ensures value { option_copied_mut result ≡ lookup (nat_eq site) self.old }
    {
        let slot = self.slot(site)?;
        self.last = slot;
        self.values.get_index_mut(slot)
    }
}

impl<V: Drop> SiteMap<V> {
    /// Gives a site this value.
    ///
    /// Refused `OutOfMemory` alone, and then all is as before.
    pub fn insert(&mut self, site: SiteNo, value: V) -> Result<(), Refusal>
        ensures ok { OnOk result (IsPut self.old site value self.new) }
        ensures errors { RefusedForMemoryAlone result }
        ensures err { OnErr result (self.new ≡ self.old) }
    {
        // A new one stands last.
        self.last = self.values.len();
        self.values.insert(site.get(), value)?;
        Ok(())
    }
}
