//! Fronts as a line of a script spells them.

ghost use Rattle.std.specs.Prelude.{◌≡◌, ◌+◌, ◌<◌, ◌≤◌, ◌++◌, ℕ, length, option_map, IfSome};
ghost use Rattle.std.specs.Prelude.{vec_capacity, vec_len};
ghost use Rattle.script_events.specs.FrontWords.{fronts_in, has_front, site_in, split_front};

use crate::event::words::{front_word, number_in, split_word};
use char_files::SiteNo;
use std::marker::Model;
use texts::Front;

/// Fronts as a line of a script spells them: a site and a seq, as often as there are words, and no site twice.
///
/// They are checked when they are parsed, and decoded when they are used.
#[derive(Debug, Drop)]
pub struct FrontWords<'a> {
    words: Option<&'a [u8]>,
}

impl<'a> Model for FrontWords<'a> {
    ghost use Rattle.std.specs.Prelude.{List, [], IsSome, option_map, unwrap_or};
    ghost use Rattle.texts.specs.declared.front.Front.{Front};
    ghost use Rattle.script_events.specs.FrontWords.{fronts_in};

    ghost Value = { List Front };

    ghost view = { λ f. unwrap_or (fronts_in (option_map (λ words. words.now) f.words)) [] };

    ghost invariant = { λ f. IsSome (fronts_in (option_map (λ words. words.now) f.words)) };
}

// A site's number.
fn site_in(word: &[u8]) -> Option<SiteNo>
    ensures { result ≡ site_in word.now }
{
    SiteNo::new(u16::try_from(number_in(word)?).ok()?)
}

// The front in front, and what stands after its blank, if it isn't the last one.
fn split_front(words: &[u8]) -> Option<(Front, Option<&[u8]>)>
    ensures value { option_map (λ cut. (cut.0, option_map (λ rest. rest.now) cut.1)) result ≡ split_front words.now }
    ensures shorter { IfSome result (λ cut. (0 < length words.now) × IfSome cut.1 (λ rest. length rest.now < length words.now)) }
{
    let (site, rest) = split_word(words)?;
    let (seq, rest) = front_word(rest);
    let front = Front {
        site: site_in(site)?,
        seq: number_in(seq)?,
    };
    Some((front, rest))
}

// Whether a site has a front among these, if they are fronts.
fn has_front(words: Option<&[u8]>, site: SiteNo) -> bool
    ensures { IfSome (fronts_in (option_map (λ words. words.now) words.entry)) (λ fronts. result ≡ has_front fronts site) }
{
    let mut rest = words;
    while let Some(left) = rest {
        let Some((front, after)) = split_front(left) else {
            return false;
        };
        if front.site == site {
            return true;
        }
        rest = after;
    }
    false
}

impl<'a> FrontWords<'a> {
    /// The fronts that these words spell, or `None` where they spell none; where nothing stands, no front.
    pub fn new(words: Option<&'a [u8]>) -> Option<FrontWords<'a>>
        ensures fronts { result ≡ fronts_in (option_map (λ words. words.now) words.entry) }
        ensures shorter { IfSome result (λ fronts. (len : ℕ) → IfSome words.entry (λ words. length words.now ≤ len) → length fronts ≤ len) }
    {
        let mut rest = words;
        while let Some(left) = rest {
            let Some((front, after)) = split_front(left) else {
                return None;
            };
            if has_front(after, front.site) {
                return None;
            }
            rest = after;
        }
        Some(FrontWords { words })
    }

    /// Puts the fronts after those that `out` has, which has the room.
    pub fn decode(&self, out: &mut Vec<Front>)
        requires { vec_len out.old + length self.now ≤ vec_capacity out.old }
        ensures fronts { out.new.items ≡ out.old.items ++ self.now }
        ensures room { vec_capacity out.new ≡ vec_capacity out.old }
    {
        let mut rest = self.words;
        while let Some(left) = rest {
            // They were checked.
            let Some((front, after)) = split_front(left) else {
                return;
            };
            out.push_reserved(front);
            rest = after;
        }
    }
}
