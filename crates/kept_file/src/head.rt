//! What stands behind the tag in either form.

ghost use Rattle.byte_fields.specs.Fields.{Finds};
ghost use Rattle.kept_file.specs.Parts.{head_at};

use byte_fields::{site_at, text_at};
use char_files::{SiteNo, TextNo};

/// Whose file it is.
#[derive(Clone, Copy, Drop)]
pub(crate) struct Head {
    /// The text's number.
    pub(crate) text: TextNo,
    /// The site whose text it is.
    pub(crate) site: SiteNo,
}

/// The text and the site.
#[tactic(auto, unfolding(crate::specs::Parts::head_at))]
pub(crate) fn head_at(bytes: &[u8]) -> Option<(Head, &[u8])>
    ensures { Finds (λ x. (x.0, x.1.now)) result (head_at bytes.now) }
{
    let Some((text, rest)) = text_at(bytes) else {
        return None;
    };
    let Some((site, rest)) = site_at(rest) else {
        return None;
    };
    Some((Head { text, site }, rest))
}
