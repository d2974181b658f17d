//! The members' keys, by tag.

ghost use Rattle.std.specs.Prelude.{◌≡◌, ℕ, ◌+◌, ◌≤◌, List, ◌++◌, length, take, drop, IsTrue};
ghost use Rattle.rank_index.specs.Keyed.{key_in, least_of, AreAbove, BeginAtMost, IsPassed, last_tag_from};

use crate::peeks::Peeks;

// The key of the member of this tag.
fn key_of(keys: &[u64], tag: u32) -> u64
    ensures { result ≡ key_in keys.now tag }
{
    match keys.get(tag as usize) {
        Some(key) => *key,
        None => 0,
    }
}

// The least key of these members.
pub(crate) fn least_in(keys: &[u64], members: &[(u32, u32)]) -> u64
    ensures { result ≡ least_of keys.now members.now }
{
    let mut least = u64::MAX;
    for member in members {
        least = least.min(key_of(keys, member.0));
    }
    least
}

// How many of these members come before the first whose key isn't greater.
fn count_above(keys: &[u64], members: &[(u32, u32)], key: u64, peeks: &mut Peeks) -> usize
    ensures within { result ≤ length members.now }
    ensures above { AreAbove keys.now key (take result members.now) }
    ensures stops { BeginAtMost keys.now key (drop result members.now) }
    ensures few { peeks.new ≤ peeks.old + length members.now }
{
    for slot in 0..members.len() {
        if !peeks.is_above(key_of(keys, members[slot].0), key) {
            return slot;
        }
    }
    members.len()
}

// The tag of the last of the first `n` of these members, this one where there are none.
pub(crate) fn last_of(members: &[(u32, u32)], n: usize, tag: u64) -> u64
    requires { n ≤ length members.now }
    ensures { result ≡ last_tag_from tag (take n members.now) }
{
    if n == 0 {
        return tag;
    }
    u64::from(members[n - 1].0)
}

// Passes these members up to the first whose key isn't greater, after a member of this tag. It answers the tag of the last that
// was passed, and whether there is such a first one.
pub(crate) fn pass(
    keys: &[u64],
    members: &[(u32, u32)],
    key: u64,
    tag: u64,
    peeks: &mut Peeks,
) -> (u64, bool)
    ensures stops { IsTrue result.1 → (more : List (ℕ × ℕ)) → IsPassed keys.now key (members.now ++ more) tag result.0 }
    ensures all { ¬ IsTrue result.1 → AreAbove keys.now key members.now × (result.0 ≡ last_tag_from tag members.now) }
    ensures few { peeks.new ≤ peeks.old + length members.now }
{
    let n = count_above(keys, members, key, peeks);
    let last = last_of(members, n, tag);
    if n < members.len() {
        return (last, true);
    }
    (last, false)
}
