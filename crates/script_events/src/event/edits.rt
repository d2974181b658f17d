ghost use Rattle.std.specs.Prelude.{◌≡◌, ℕ, ◌≤◌, length, option_map, IfSome};
ghost use Rattle.script_events.specs.EventView.{edit_of, TypesAtMost};
ghost use Rattle.script_events.specs.Script.{type_edit, cut_edit, looks_edit, recall_edit};

use crate::escaped::Escaped;
use crate::event::Edit;
use crate::event::looks_words::change_in;
use crate::event::words::{number_in, split_number};

// What `type` goes on with after its text: a position and the bytes.
pub(crate) fn type_edit(rest: &[u8]) -> Option<Edit<'_>>
    ensures edit { option_map edit_of result ≡ type_edit rest.now }
    ensures short { IfSome result (λ edit. (len : ℕ) → length rest.now ≤ len → TypesAtMost len edit) }
{
    let (pos, raw) = split_number(rest)?;
    Some(Edit::TypeIn {
        pos,
        bytes: Escaped::new(raw)?,
    })
}

// `cut`: from where to where.
pub(crate) fn cut_edit(rest: &[u8]) -> Option<Edit<'_>>
    ensures edit { option_map edit_of result ≡ cut_edit rest.now }
    ensures short { IfSome result (λ edit. (len : ℕ) → TypesAtMost len edit) }
{
    let (beg, end) = split_number(rest)?;
    let end = u64::from(number_in(end)?);
    Some(Edit::Cut { beg, end })
}

// `looks`: from where to where, and the attributes.
pub(crate) fn looks_edit(rest: &[u8]) -> Option<Edit<'_>>
    ensures edit { option_map edit_of result ≡ looks_edit rest.now }
    ensures short { IfSome result (λ edit. (len : ℕ) → TypesAtMost len edit) }
{
    let (beg, rest) = split_number(rest)?;
    let (end, words) = split_number(rest)?;
    let (sel, looks) = change_in(words)?;
    Some(Edit::Looks {
        beg,
        end,
        sel,
        looks,
    })
}

// `recall`: a position.
pub(crate) fn recall_edit(rest: &[u8]) -> Option<Edit<'_>>
    ensures edit { option_map edit_of result ≡ recall_edit rest.now }
    ensures short { IfSome result (λ edit. (len : ℕ) → TypesAtMost len edit) }
{
    let pos = u64::from(number_in(rest)?);
    Some(Edit::Recall { pos })
}
