//! Names of characters as a line of a script spells them.

ghost use Rattle.std.specs.Prelude.{◌≡◌, ◌+◌, ◌<◌, ◌≤◌, ◌++◌, ℕ, length, option_map, IfSome};
ghost use Rattle.std.specs.Prelude.{vec_capacity, vec_len};
ghost use Rattle.script_events.specs.NameWords.{range_of_words, ranges_in_words, split_range};

use crate::event::words::{front_word, number_in, split_word};
use char_files::{MAX_FILE, SiteNo};
use operations::NameRange;
use std::marker::Model;

/// Names of characters as a line of a script spells them: a site, an offset and how many there are, as often as
/// there are words, and once at least.
///
/// They are checked when they are parsed, and decoded when they are used.
#[derive(Debug, Drop)]
pub struct NameWords<'a> {
    words: &'a [u8],
}

impl<'a> Model for NameWords<'a> {
    ghost use Rattle.std.specs.Prelude.{List, [], IsSome, unwrap_or};
    ghost use Rattle.operations.specs.NameSet.{Range};
    ghost use Rattle.script_events.specs.NameWords.{ranges_in_words};

    ghost Value = { List Range };

    ghost view = { λ n. unwrap_or (ranges_in_words n.words.now) [] };

    ghost invariant = { λ n. IsSome (ranges_in_words n.words.now) };
}

// Names of a site, as a message has them too: the site, the first one's offset, and how many they are.
pub(crate) fn range_of_words(site: &[u8], at: &[u8], len: &[u8]) -> Option<NameRange>
    ensures { result ≡ range_of_words site.now at.now len.now }
{
    let site = number_in(site)?;
    let at = u64::from(number_in(at)?);
    let len = u64::from(number_in(len)?);
    if site > u32::from(u16::MAX) || len == 0 || MAX_FILE < at + len {
        return None;
    }
    Some(NameRange::new(SiteNo::new(site as u16)?, at as u32, len as u32))
}

// The names in front, and what stands after their blank, if they aren't the last ones.
fn split_range(words: &[u8]) -> Option<(NameRange, Option<&[u8]>)>
    ensures value { option_map (λ cut. (cut.0, option_map (λ rest. rest.now) cut.1)) result ≡ split_range words.now }
    ensures shorter { IfSome result (λ cut. (0 < length words.now) × IfSome cut.1 (λ rest. length rest.now < length words.now)) }
{
    let (site, rest) = split_word(words)?;
    let (at, rest) = split_word(rest)?;
    let (len, rest) = front_word(rest);
    Some((range_of_words(site, at, len)?, rest))
}

impl<'a> NameWords<'a> {
    /// The names that these words spell, or `None` where they spell none.
    pub fn new(words: &'a [u8]) -> Option<NameWords<'a>>
        ensures names { result ≡ ranges_in_words words.now }
        ensures shorter { IfSome result (λ names. (len : ℕ) → length words.now ≤ len → length names ≤ len) }
    {
        let mut rest = Some(words);
        while let Some(left) = rest {
            let Some((_, after)) = split_range(left) else {
                return None;
            };
            rest = after;
        }
        Some(NameWords { words })
    }

    /// Puts the names after those that `out` has, which has the room.
    pub fn decode(&self, out: &mut Vec<NameRange>)
        requires { vec_len out.old + length self.now ≤ vec_capacity out.old }
        ensures names { out.new.items ≡ out.old.items ++ self.now }
        ensures room { vec_capacity out.new ≡ vec_capacity out.old }
    {
        let mut rest = Some(self.words);
        while let Some(left) = rest {
            // They were checked.
            let Some(cut) = split_range(left) else {
                return;
            };
            out.push_reserved(cut.0);
            rest = cut.1;
        }
    }
}
