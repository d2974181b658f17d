ghost use Rattle.std.specs.Prelude.{◌≡◌, ◌^◌, ◌<◌, ◌++◌, IfSome};
ghost use Rattle.std.specs.Int.{w16, w32, w64};
ghost use Rattle.byte_fields.specs.Fields.{Finds, byte_at, number_at, number_spelling, positive_at, stretch_at};

use char_files::{SiteNo, TextNo};

/// So many bytes, as they are.
pub fn stretch_at(len: usize, bytes: &[u8]) -> Option<(&[u8], &[u8])>
    ensures { Finds (λ x. (x.0.now, x.1.now)) result (stretch_at len bytes.now) }
{
    if bytes.len() < len {
        return None;
    }
    Some(bytes.split_at(len))
}

/// One byte.
pub fn u8_at(bytes: &[u8]) -> Option<(u8, &[u8])>
    ensures { Finds (λ x. (x.0, x.1.now)) result (byte_at bytes.now) }
{
    match bytes {
        [] => None,
        [byte, rest @ ..] => Some((*byte, rest)),
    }
}

/// A number of two bytes.
pub fn u16_at(bytes: &[u8]) -> Option<(u16, &[u8])>
    ensures found { Finds (λ x. (x.0, x.1.now)) result (number_at w16 bytes.now) }
    ensures parts { IfSome result (λ x. (x.0 < 2 ^ 16) × (bytes.now ≡ number_spelling w16 x.0 ++ x.1.now)) }
{
    let (front, rest) = bytes.split_first_chunk::<2>()?;
    Some((u16::from_be_bytes(*front), rest))
}

/// A number of four bytes.
pub fn u32_at(bytes: &[u8]) -> Option<(u32, &[u8])>
    ensures found { Finds (λ x. (x.0, x.1.now)) result (number_at w32 bytes.now) }
    ensures parts { IfSome result (λ x. (x.0 < 2 ^ 32) × (bytes.now ≡ number_spelling w32 x.0 ++ x.1.now)) }
{
    let (front, rest) = bytes.split_first_chunk::<4>()?;
    Some((u32::from_be_bytes(*front), rest))
}

/// A number of eight bytes.
pub fn u64_at(bytes: &[u8]) -> Option<(u64, &[u8])>
    ensures found { Finds (λ x. (x.0, x.1.now)) result (number_at w64 bytes.now) }
    ensures parts { IfSome result (λ x. (x.0 < 2 ^ 64) × (bytes.now ≡ number_spelling w64 x.0 ++ x.1.now)) }
{
    let (front, rest) = bytes.split_first_chunk::<8>()?;
    Some((u64::from_be_bytes(*front), rest))
}

/// A text's number, which isn't 0.
#[tactic(auto, unfolding(crate::specs::Fields::positive_at))]
pub fn text_at(bytes: &[u8]) -> Option<(TextNo, &[u8])>
    ensures { Finds (λ x. (x.0, x.1.now)) result (positive_at w16 bytes.now) }
{
    let (number, rest) = u16_at(bytes)?;
    let text = TextNo::new(number)?;
    Some((text, rest))
}

/// A site's number, which isn't 0.
#[tactic(auto, unfolding(crate::specs::Fields::positive_at))]
pub fn site_at(bytes: &[u8]) -> Option<(SiteNo, &[u8])>
    ensures { Finds (λ x. (x.0, x.1.now)) result (positive_at w16 bytes.now) }
{
    let (number, rest) = u16_at(bytes)?;
    let site = SiteNo::new(number)?;
    Some((site, rest))
}
