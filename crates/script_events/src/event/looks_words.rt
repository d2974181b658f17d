ghost use Rattle.std.specs.Prelude.{◌≡◌, option_map};
ghost use Rattle.looks.specs.Looks.{plain_looks};
ghost use Rattle.script_events.specs.LooksWords.{split_value, colour_in, signed_in, offset_in};
ghost use Rattle.script_events.specs.LooksWords.{font_in, given_or, looks_in_words, selection_in, change_of, change_in};

use crate::event::words::{front_word, number_in};
use looks::{Colour, FontName, Looks, Sel};

// The value of this key's attribute, where the words that are left begin with it; and the words that are then
// left.
fn split_value<'a>(key: &[u8], left: Option<&'a [u8]>) -> (Option<&'a [u8]>, Option<&'a [u8]>)
    ensures { (option_map (λ value. value.now) result.0, option_map (λ rest. rest.now) result.1)
        ≡ split_value key.now (option_map (λ words. words.now) left.entry) }
{
    let Some(words) = left else {
        return (None, None);
    };
    let (word, rest) = front_word(words);
    match word.strip_prefix(key) {
        Some(value) => (Some(value), rest),
        None => (None, left),
    }
}

// A font's name.
fn font_in(word: &[u8]) -> Option<FontName>
    ensures { result ≡ font_in word.now }
{
    FontName::new(word)
}

// A font's name, or that of default looks where none is given.
fn font_or_plain(given: Option<&[u8]>) -> Option<FontName>
    ensures { result ≡ given_or font_in plain_looks.font (option_map (λ value. value.now) given.entry) }
{
    match given {
        Some(value) => font_in(value),
        None => Some(Looks::plain().font),
    }
}

// A colour's number.
fn colour_in(word: &[u8]) -> Option<Colour>
    ensures { result ≡ colour_in word.now }
{
    let number = u8::try_from(number_in(word)?).ok()?;
    Colour::new(number)
}

// A colour, or that of default looks where none is given.
fn colour_or_plain(given: Option<&[u8]>) -> Option<Colour>
    ensures { result ≡ given_or colour_in plain_looks.colour (option_map (λ value. value.now) given.entry) }
{
    match given {
        Some(value) => colour_in(value),
        None => Some(Looks::plain().colour),
    }
}

// A number, perhaps after a `-`.
fn signed_in(word: &[u8]) -> Option<i64>
    ensures { result ≡ signed_in word.now }
{
    match word {
        [b'-', digits @ ..] => Some(-i64::from(number_in(digits)?)),
        _ => Some(i64::from(number_in(word)?)),
    }
}

// An offset.
fn offset_in(word: &[u8]) -> Option<i8>
    ensures { result ≡ offset_in word.now }
{
    i8::try_from(signed_in(word)?).ok()
}

// An offset, or that of default looks where none is given.
fn offset_or_plain(given: Option<&[u8]>) -> Option<i8>
    ensures { result ≡ given_or offset_in plain_looks.offset (option_map (λ value. value.now) given.entry) }
{
    match given {
        Some(value) => offset_in(value),
        None => Some(Looks::plain().offset),
    }
}

// The looks of these values, with the default looks for what isn't given.
fn looks_of(font: Option<&[u8]>, colour: Option<&[u8]>, offset: Option<&[u8]>) -> Option<Looks>
    ensures { result ≡ looks_in_words (option_map (λ value. value.now) font.entry)
        (option_map (λ value. value.now) colour.entry) (option_map (λ value. value.now) offset.entry) }
{
    let font = font_or_plain(font)?;
    let colour = colour_or_plain(colour)?;
    let offset = offset_or_plain(offset)?;
    Some(Looks {
        font,
        colour,
        offset,
    })
}

// Which of the attributes are given: one at least.
fn selection_in(font: bool, colour: bool, offset: bool) -> Option<Sel>
    ensures { result ≡ selection_in font colour offset }
{
    Sel::new(u8::from(font) + 2 * u8::from(colour) + 4 * u8::from(offset))
}

// Looks with the attributes of these values, and which these are.
fn change_of(
    font: Option<&[u8]>,
    colour: Option<&[u8]>,
    offset: Option<&[u8]>,
) -> Option<(Sel, Looks)>
    ensures { result ≡ change_of (option_map (λ value. value.now) font.entry)
        (option_map (λ value. value.now) colour.entry) (option_map (λ value. value.now) offset.entry) }
{
    let sel = selection_in(font.is_some(), colour.is_some(), offset.is_some())?;
    let looks = looks_of(font, colour, offset)?;
    Some((sel, looks))
}

// The attributes that these words give, where they are all that there is, and which these are.
pub(crate) fn change_in(words: &[u8]) -> Option<(Sel, Looks)>
    ensures { result ≡ change_in words.now }
{
    let (font, left) = split_value(b"font=", Some(words));
    let (colour, left) = split_value(b"colour=", left);
    let (offset, left) = split_value(b"offset=", left);
    match left {
        Some(_) => None,
        None => change_of(font, colour, offset),
    }
}
