//! Sums and least keys of neighbouring chunks, which a search goes along before it goes along chunks.

ghost use Rattle.std.specs.Prelude.{◌≡◌, ◌+◌, ◌<◌, ◌≤◌, ◌^◌, length, vec_capacity};
ghost use Rattle.rank_index.specs.Chunks.{members_of};
ghost use Rattle.rank_index.specs.Groups.{AreGroups, AreLows, least_among, weight_to};
ghost use Rattle.rank_index.specs.Ranked.{weight_of};

use crate::chunk::Chunk;

// How many neighbouring chunks a group has. The last one may have fewer.
pub(crate) const GROUP: usize = 32;

// The sum of the weights in these chunks.
fn weight_in(chunks: &[Chunk]) -> u64
    requires { weight_of (members_of chunks.now) < 2 ^ 64 }
    ensures { result ≡ weight_of (members_of chunks.now) }
{
    let mut weight = 0;
    for chunk in chunks {
        weight += chunk.sum();
    }
    weight
}

// Sums all groups up anew.
fn regroup(groups: &mut Vec<u64>, chunks: &[Chunk])
    requires room { length chunks.now ≤ vec_capacity groups.old }
    requires total { weight_of (members_of chunks.now) < 2 ^ 64 }
    ensures groups { AreGroups groups.new.items chunks.now }
    ensures room { vec_capacity groups.old ≤ vec_capacity groups.new }
{
    groups.clear();
    let mut done = 0;
    while done < chunks.len() {
        let next = done + GROUP.min(chunks.len() - done);
        groups.push_reserved(weight_in(&chunks[done..next]));
        done = next;
    }
}

// The same where there are more chunks than before. Where there are not, the sums stand.
pub(crate) fn regroup_if_grown(groups: &mut Vec<u64>, chunks: &[Chunk], before: usize)
    requires same { length chunks.now ≤ before → AreGroups groups.old.items chunks.now }
    requires room { length chunks.now ≤ vec_capacity groups.old }
    requires total { weight_of (members_of chunks.now) < 2 ^ 64 }
    ensures groups { AreGroups groups.new.items chunks.now }
    ensures room { vec_capacity groups.old ≤ vec_capacity groups.new }
{
    if before < chunks.len() {
        regroup(groups, chunks);
    }
}

// How much stands before the chunk at this slot.
pub(crate) fn weight_before(groups: &[u64], chunks: &[Chunk], slot: usize) -> u64
    requires groups { AreGroups groups.now chunks.now }
    requires total { weight_of (members_of chunks.now) < 2 ^ 64 }
    requires slot { slot < length chunks.now }
    ensures { result ≡ weight_to chunks.now slot }
{
    let whole = slot / GROUP;
    let mut weight = 0;
    for k in 0..whole {
        weight += groups[k];
    }
    weight + weight_in(&chunks[GROUP * whole..slot])
}

// The slot where the group begins whose stretch of the sum holds the position, and how far inside that lies.
pub(crate) fn group_at(groups: &[u64], chunks: &[Chunk], pos: u64) -> (usize, u64)
    requires groups { AreGroups groups.now chunks.now }
    requires within { pos < weight_of (members_of chunks.now) }
    ensures slot { result.0 ≤ length chunks.now }
    ensures left { pos ≡ weight_to chunks.now result.0 + result.1 }
    ensures holds { pos < weight_to chunks.now (result.0 + GROUP) }
{
    let _ = chunks;
    let mut left = pos;
    for k in 0..groups.len() {
        if left < groups[k] {
            return (GROUP * k, left);
        }
        left -= groups[k];
    }
    unreachable!()
}

// The least key of the members of these chunks.
fn least_in(chunks: &[Chunk]) -> u64
    ensures { result ≡ least_among chunks.now }
{
    let mut least = u64::MAX;
    for chunk in chunks {
        least = least.min(chunk.least());
    }
    least
}

// Finds the least keys of all groups anew.
fn find_lows(lows: &mut Vec<u64>, chunks: &[Chunk])
    requires room { length chunks.now ≤ vec_capacity lows.old }
    ensures lows { AreLows lows.new.items chunks.now }
    ensures room { vec_capacity lows.old ≤ vec_capacity lows.new }
{
    lows.clear();
    let mut done = 0;
    while done < chunks.len() {
        let next = done + GROUP.min(chunks.len() - done);
        lows.push_reserved(least_in(&chunks[done..next]));
        done = next;
    }
}

// The same where there are more chunks than before. Where there are not, the least keys stand.
pub(crate) fn find_lows_if_grown(lows: &mut Vec<u64>, chunks: &[Chunk], before: usize)
    requires same { length chunks.now ≤ before → AreLows lows.old.items chunks.now }
    requires room { length chunks.now ≤ vec_capacity lows.old }
    ensures lows { AreLows lows.new.items chunks.now }
    ensures room { vec_capacity lows.old ≤ vec_capacity lows.new }
{
    if before < chunks.len() {
        find_lows(lows, chunks);
    }
}
