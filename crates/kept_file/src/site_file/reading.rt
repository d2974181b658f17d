//! The parts of a site's file, each with the bytes after it.

ghost use Rattle.std.specs.Prelude.{◌≡◌, ◌≢◌, ◌++◌, ◌↔◌, List, ℕ, take, IfSome, IsTrue, MatchOption};
ghost use Rattle.std.specs.Int.{w16, w32};
ghost use Rattle.byte_fields.specs.Fields.{Finds, number_at, stretch_at};
ghost use Rattle.texts.specs.SiteFiles.{site_tag};
ghost use Rattle.kept_file.specs.Parts.{head_at};
ghost use Rattle.kept_file.specs.SiteParts.{AreMessages, IsShort, counted_at, message_at, message_spelling};

use crate::head::head_at;
use byte_fields::{stretch_at, u16_at, u32_at};
use char_files::{SiteNo, TextNo};

/// What stands between the tag and the messages.
#[derive(Clone, Copy, Drop)]
pub(crate) struct CountedHead {
    /// The text's number.
    pub(crate) text: TextNo,
    /// The site whose text it is.
    pub(crate) site: SiteNo,
    /// How many messages there are.
    pub(crate) count: u32,
}

/// What stands after the tag, where the file begins with it.
pub(crate) fn rest_of_tag(bytes: &[u8]) -> Option<&[u8]>
    ensures { MatchOption result (take 4 bytes.now ≢ site_tag) (λ rest. bytes.now ≡ site_tag ++ rest.now) }
{
    bytes.strip_prefix(b"OTS1")
}

/// The text, the site, and how many messages there are.
#[tactic(auto, unfolding(crate::specs::SiteParts::counted_at))]
pub(crate) fn counted_at(bytes: &[u8]) -> Option<(CountedHead, &[u8])>
    ensures { Finds (λ x. (x.0, x.1.now)) result (counted_at bytes.now) }
{
    let Some((head, rest)) = head_at(bytes) else {
        return None;
    };
    let (count, rest) = u32_at(rest)?;
    let (text, site) = (head.text, head.site);
    Some((CountedHead { text, site, count }, rest))
}

/// A message that stands after its length. None of it is copied.
#[tactic(auto, unfolding(crate::specs::SiteParts::message_at))]
pub(crate) fn message_at(bytes: &[u8]) -> Option<(&[u8], &[u8])>
    ensures found { Finds (λ x. (x.0.now, x.1.now)) result (message_at bytes.now) }
    ensures parts { IfSome result (λ x. bytes.now ≡ message_spelling x.0.now ++ x.1.now) }
    ensures short { IfSome result (λ x. IsShort x.0.now) }
{
    let (len, rest) = u16_at(bytes)?;
    stretch_at(usize::from(len), rest)
}

/// Whether these bytes are so many messages, each after its length. No message is read.
pub(crate) fn are_messages(count: u32, bytes: &[u8]) -> bool
    ensures { IsTrue result ↔ ((messages : List (List ℕ)) × AreMessages messages count bytes.now) }
{
    let mut rest = bytes;
    for _ in 0..count {
        let Some((_message, after)) = message_at(rest) else {
            return false;
        };
        rest = after;
    }
    rest.is_empty()
}
