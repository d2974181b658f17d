//! The walk along chunks that passes members of greater key: whole groups by the groups' least keys, whole chunks by the chunks', and
//! members by their own.

ghost use Rattle.std.specs.Prelude.{◌≡◌, ℕ, ◌+◌, ◌-◌, ◌*◌, ◌/◌, ◌%◌, ◌<◌, ◌≤◌, IsTrue, length, take, drop};
ghost use Rattle.rank_index.specs.Chunks.{members_of, AreHalfFull};
ghost use Rattle.rank_index.specs.Groups.{AreLows, least_among};
ghost use Rattle.rank_index.specs.Keyed.{AreLeast, IsPassed};

use crate::chunk::{Chunk, MOST};
use crate::groups::GROUP;
use crate::peeks::Peeks;

// How many chunks there are from this slot up to where a group begins.
fn to_next_group(slot: usize) -> usize
    ensures short { result < GROUP }
    ensures begins { (slot + result) % GROUP ≡ 0 }
{
    let over = slot % GROUP;
    if over == 0 { 0 } else { GROUP - over }
}

// Passes the members of the chunks from one slot up to another, one chunk after the other, after a member of this tag. It answers the
// tag of the last that was passed, and whether a first one whose key isn't greater is among them.
fn pass_chunks(
    chunks: &[Chunk],
    from: usize,
    to: usize,
    tag: u64,
    keys: &[u64],
    key: u64,
    peeks: &mut Peeks,
) -> (u64, bool)
    requires from { 0 < from }
    requires order { from ≤ to }
    requires within { to ≤ length chunks.now }
    requires least { AreLeast keys.now chunks.now }
    requires halves { AreHalfFull chunks.now }
    ensures stops { IsTrue result.1 → IsPassed keys.now key (members_of (drop from chunks.now)) tag result.0 }
    ensures on { ¬ IsTrue result.1 → (last : ℕ) → IsPassed keys.now key (members_of (drop to chunks.now)) result.0 last
        → IsPassed keys.now key (members_of (drop from chunks.now)) tag last }
    ensures above { ¬ IsTrue result.1 → from < to → key < least_among (take (to - from) (drop from chunks.now)) }
    ensures few { peeks.new ≤ peeks.old + (to - from + MOST) }
    ensures each { ¬ IsTrue result.1 → peeks.new ≤ peeks.old + (to - from) }
{
    let mut last = tag;
    for slot in from..to {
        let (next, stops) = chunks[slot].pass_from(last, keys, key, peeks);
        if stops {
            return (next, true);
        }
        last = next;
    }
    (last, false)
}

// Passes whole groups from a slot on where one begins, up to the first whose least key isn't greater. It answers the tag of the last
// member that was passed, and the slot where that group begins; the number of chunks where there is none.
fn pass_groups(
    chunks: &[Chunk],
    lows: &[u64],
    from: usize,
    tag: u64,
    keys: &[u64],
    key: u64,
    peeks: &mut Peeks,
) -> (u64, usize)
    requires from { 0 < from }
    requires within { from ≤ length chunks.now }
    requires begins { from < length chunks.now → from % GROUP ≡ 0 }
    requires least { AreLeast keys.now chunks.now }
    requires lows { AreLows lows.now chunks.now }
    requires halves { AreHalfFull chunks.now }
    ensures order { from ≤ result.1 }
    ensures within { result.1 ≤ length chunks.now }
    ensures on { (last : ℕ) → IsPassed keys.now key (members_of (drop result.1 chunks.now)) result.0 last
        → IsPassed keys.now key (members_of (drop from chunks.now)) tag last }
    ensures stops { result.1 < length chunks.now → least_among (take GROUP (drop result.1 chunks.now)) ≤ key }
    ensures few { peeks.new ≤ peeks.old + (length chunks.now / GROUP + 1) }
{
    let _ = keys;
    let mut last = tag;
    let mut at = from;
    while at < chunks.len() {
        if !peeks.is_above(lows[at / GROUP], key) {
            return (last, at);
        }
        at += GROUP.min(chunks.len() - at);
        last = chunks[at - 1].last_tag(last);
    }
    (last, at)
}

// Passes the members of the chunks from this slot on, up to the first whose key isn't greater, after a member of this tag: the chunks
// up to the next group, whole groups, and the chunks of the group that stops it. It answers the tag of the last that was passed.
pub(crate) fn pass_on(
    chunks: &[Chunk],
    lows: &[u64],
    from: usize,
    tag: u64,
    keys: &[u64],
    key: u64,
    peeks: &mut Peeks,
) -> u64
    requires from { 0 < from }
    requires within { from ≤ length chunks.now }
    requires least { AreLeast keys.now chunks.now }
    requires lows { AreLows lows.now chunks.now }
    requires halves { AreHalfFull chunks.now }
    ensures passed { IsPassed keys.now key (members_of (drop from chunks.now)) tag result }
    ensures few { peeks.new ≤ peeks.old + (length chunks.now / GROUP + 2 * GROUP + MOST) }
{
    let edge = from + to_next_group(from).min(chunks.len() - from);
    let (last, stops) = pass_chunks(chunks, from, edge, tag, keys, key, peeks);
    if stops {
        return last;
    }
    let (last, at) = pass_groups(chunks, lows, edge, last, keys, key, peeks);
    let end = at + GROUP.min(chunks.len() - at);
    pass_chunks(chunks, at, end, last, keys, key, peeks).0
}
