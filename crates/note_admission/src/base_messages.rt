//! The messages of a note's base.

ghost use Rattle.std.specs.Prelude.{◌≡◌, ◌↔◌, ◌⊎◌, ℕ, Contains, IfNone, IfOk, IfSome, IsTrue, OnOk};
ghost use Rattle.std.specs.Map.{values_of};
ghost use Rattle.looks.specs.Refusal.{RefusedForMemoryAlone};
ghost use Rattle.note_laws.specs.Note.{Saying as Message};
ghost use Rattle.note_entries.specs.Keyed.{StandUnderKeys};
ghost use Rattle.note_admission.specs.Base.{AreOneOfEach, HasSite, IsListed, IsPutAt, is_same_spot, message_spot};

use char_files::{SiteMap, SiteNo, TextNo};
use looks::Refusal;
use note_entries::Saying;
use std::alloc::Global;
use std::collections::BTreeMap;
use std::marker::Model;

// Where in a text a message of the base stands.
#[derive(Clone, Copy, Debug, PartialEq, Eq, PartialOrd, Ord)]
pub(crate) struct Spot {
    pub text: TextNo,
    pub site: SiteNo,
    pub seq: u32,
}

impl Model for Spot {
    ghost use Rattle.note_admission.specs.Base.{Spot as InText};

    ghost Value = { InText };

    ghost view = { λ p. record { text = p.text; site = p.site; seq = p.seq } };

    ghost inverse = { λ p. record { text = p.text; site = p.site; seq = p.seq } };
}

impl Spot {
    fn of(saying: &Saying) -> Spot
        ensures { result ≡ message_spot saying.now }
    {
        Spot {
            text: saying.op.text(),
            site: saying.op.site(),
            seq: saying.op.seq(),
        }
    }
}

// A number, noted where it is new. Refused `OutOfMemory` alone.
fn note_site(known: &mut SiteMap<()>, listed: &mut Vec<SiteNo>, site: SiteNo) -> Result<(), Refusal>
    ensures listed { OnOk result (IsListed known.old listed.old.items → IsListed known.new listed.new.items) }
    ensures with_it { OnOk result (IsListed known.old listed.old.items
        → (x : ℕ) → Contains listed.new.items x ↔ Contains listed.old.items x ⊎ (site ≡ x)) }
    ensures errors { RefusedForMemoryAlone result }
{
    if known.get(site).is_none() {
        listed.push(site)?;
        known.insert(site, ())?;
    }
    Ok(())
}

// The message stands in its spot. Refused `OutOfMemory` alone.
fn put(said: &mut BTreeMap<Spot, Saying>, saying: Saying) -> Result<(), Refusal>
    ensures ok { OnOk result (StandUnderKeys is_same_spot message_spot said.old.entries
        → StandUnderKeys is_same_spot message_spot said.new.entries
        × IsPutAt (values_of said.old.entries) saying (values_of said.new.entries)) }
    ensures errors { RefusedForMemoryAlone result }
{
    said.insert(Spot::of(&saying), saying)?;
    Ok(())
}

// The messages that were copied into a note, found by their places at once.
#[derive(Drop)]
pub(crate) struct Base {
    said: BTreeMap<Spot, Saying>,
    // The numbers that have some.
    known: SiteMap<()>,
    sites: Vec<SiteNo>,
}

impl Model for Base {
    ghost use Rattle.std.specs.Prelude.{List};
    ghost use Rattle.std.specs.Map.{values_of};
    ghost use Rattle.note_laws.specs.Note.{Saying as Message};
    ghost use Rattle.note_admission.specs.Base.{AreFound};

    ghost Value = { List Message };

    ghost view = { λ b. values_of b.said.entries };

    ghost invariant = { λ b. AreFound b.said.entries b.known b.sites.items };
}

impl Base {
    // These messages, of each place the last. Refused `OutOfMemory` alone.
    pub(crate) fn new(alloc: Global, messages: Vec<Saying>) -> Result<Base, Refusal>
        ensures ok { IfOk result (λ base. AreOneOfEach messages.items base) }
        ensures errors { RefusedForMemoryAlone result }
    {
        let mut said = BTreeMap::new(alloc);
        let mut known = SiteMap::new(alloc);
        let mut sites = Vec::new(alloc);
        for saying in messages {
            note_site(&mut known, &mut sites, saying.op.site())?;
            put(&mut said, saying)?;
        }
        Ok(Base { said, known, sites })
    }

    // Whether it has messages of this number.
    pub(crate) fn has(&self, site: SiteNo) -> bool
        ensures { IsTrue result ↔ HasSite self.now site }
    {
        self.known.get(site).is_some()
    }

    // The numbers that it has messages of.
    pub(crate) fn sites(&self) -> &[SiteNo]
        ensures { (site : ℕ) → Contains result.now site ↔ HasSite self.now site }
    {
        &self.sites
    }

    // The message at a place.
    pub(crate) fn at(&self, text: TextNo, site: SiteNo, seq: u32) -> Option<&Saying>
        ensures some { IfSome result (λ s. Contains self.now s.now
            × (message_spot s.now ≡ record { text = text; site = site; seq = seq })) }
        ensures none { IfNone result ((s : Message) → Contains self.now s
            → ¬ (message_spot s ≡ record { text = text; site = site; seq = seq })) }
    {
        self.said.get(&Spot { text, site, seq })
    }
}
