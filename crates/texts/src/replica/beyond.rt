//! What was taken in beyond fronts that somebody names.

ghost use Rattle.std.specs.Prelude.{◌≡◌, ◌<◌, ◌≤◌, ℕ, false, true, All, IfSome, length, slice_get};
ghost use Rattle.operations.specs.Spelling.{HasSpelling};
ghost use Rattle.set_laws.specs.Sets.{KeepsCauses};
ghost use Rattle.texts.specs.Beyond.{BeginsBeyond};
ghost use Rattle.texts.specs.Fronts.{is_beyond};
ghost use Rattle.tree_order.specs.Good.{file_before};

use super::Replica;
use crate::front::{Front, front_in};
use char_files::SiteNo;
use op_log::Log;

// The place of a site's first operation beyond the fronts; behind all where it has none.
fn begin_of(log: &Log, fronts: &[Front], site: SiteNo) -> u64
    requires { KeepsCauses log.now.ops }
    ensures { BeginsBeyond fronts.now log.now.ops site result }
{
    log.lemma_are_held_to_the_front();
    let seq = front_in(fronts, site);
    if log.front(site) <= seq {
        return log.len();
    }
    match log.place(site, seq + 1) {
        Some(place) => place,
        None => unreachable!(),
    }
}

// The same of the site at this place among those that are known.
fn begin_at(log: &Log, fronts: &[Front], at: usize) -> u64
    requires { KeepsCauses log.now.ops }
    ensures begins { IfSome (slice_get log.now.rooms at) (λ known. 0 < known.0
        → BeginsBeyond fronts.now log.now.ops known.0 result) }
    ensures within { result ≤ length log.now.ops }
    ensures here { IfSome (slice_get log.now.ops result) (λ op. is_beyond fronts.now op ≡ true) }
{
    match log.site_at(at) {
        Some(site) => begin_of(log, fronts, site),
        None => log.len(),
    }
}

impl Replica {
    /// The place of the first operation beyond the fronts that was taken in; behind all where there is none.
    ///
    /// The time grows with the number of sites times that of the fronts, and not with the number of operations.
    pub fn first_beyond(&self, fronts: &[Front]) -> u64
        ensures within { result ≤ length self.now.operations }
        ensures here { IfSome (slice_get self.now.operations result) (λ op. is_beyond fronts.now op ≡ true) }
        ensures before { (k : ℕ) → k < result
            → IfSome (slice_get self.now.operations k) (λ op. is_beyond fronts.now op ≡ false) }
    {
        self.taken.lemma_is_defined();
        let log = self.taken.log();
        log.lemma_sites_are_known();
        log.lemma_have_spelling();
        let mut first = log.len();
        for at in 0..log.sites_len() {
            first = first.min(begin_at(log, fronts, at));
        }
        first
    }

    /// How long its site's file is before the operation that was taken in at this place. It takes no memory.
    pub fn file_before(&self, place: u64) -> u32
        requires { place < length self.now.operations }
        ensures { IfSome (slice_get self.now.operations place)
            (λ op. result ≡ file_before self.now.operations op.site op.seq) }
    {
        self.taken.log().file_before(place)
    }

    /// A law: each operation taken in has a message. A proof gets it by calling this, at no cost.
    pub fn lemma_have_spelling(&self)
        ensures { All HasSpelling self.now.operations }
    {
        self.taken.log().lemma_have_spelling();
    }
}
