//! The operation that inserted a character, by halving among its site's.

ghost use Rattle.std.specs.Prelude.{◌≡◌, ◌+◌, ◌<◌, ◌≤◌, slice_get, Some as Just};
ghost use Rattle.operations.specs.Operation.{Operation, Inserts};
ghost use Rattle.tree_order.specs.Good.{Good, file_before};
ghost use Rattle.set_laws.specs.Fronts.{front_of, IsHeld, IsHere};

use char_files::{Name, SiteNo};
use op_log::Log;

// How long a site's file is before its operation of this seq.
fn file_before(log: &Log, site: SiteNo, seq: u32) -> u32
    requires { IsHeld log.now.ops site seq }
    ensures { result ≡ file_before log.now.ops site seq }
{
    match log.place(site, seq) {
        Some(place) => log.file_before(place),
        None => unreachable!(),
    }
}

// The seq of the operation of its site that inserted the character.
fn inserter(log: &Log, name: Name) -> u32
    requires here { IsHere log.now.ops name }
    requires good { Good log.now.ops }
    ensures first { 0 < result }
    ensures last { result ≤ front_of log.now.ops name.site }
    ensures from { file_before log.now.ops name.site result ≤ name.off }
    ensures to { name.off < file_before log.now.ops name.site (result + 1) }
{
    log.lemma_are_held_to_the_front();
    let site = name.site();
    let mut from = 1;
    let mut to = log.front(site);
    while from < to {
        let middle = to - (to - from) / 2;
        if file_before(log, site, middle) <= name.off() {
            from = middle;
        } else {
            to = middle - 1;
        }
    }
    from
}

/// The place of the operation that inserted the character. The time grows as the logarithm of how many operations
/// its site has.
pub(crate) fn inserter_place(log: &Log, name: Name) -> u64
    requires here { IsHere log.now.ops name }
    requires good { Good log.now.ops }
    ensures { (op : Operation) × (slice_get log.now.ops result ≡ Just op) × Inserts op name }
{
    log.lemma_are_held_to_the_front();
    match log.place(name.site(), inserter(log, name)) {
        Some(place) => place,
        None => unreachable!(),
    }
}
