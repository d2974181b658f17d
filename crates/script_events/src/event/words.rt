ghost use Rattle.std.specs.Prelude.{◌≡◌, ◌<◌, ◌≤◌, length, option_map, IfSome};
ghost use Rattle.script_events.specs.Words.{split_word, front_word, number_in, split_number, desk_in, text_in};

use char_files::TextNo;
use machine::MAX_TEXT;

// The word up to the first blank, and what stands after that blank.
pub(crate) fn split_word(bytes: &[u8]) -> Option<(&[u8], &[u8])>
    ensures word { option_map (λ cut. (cut.0.now, cut.1.now)) result ≡ split_word bytes.now }
    ensures shorter { IfSome result (λ cut. length cut.1.now ≤ length bytes.now) }
{
    let end = bytes.iter().position(|byte| *byte == b' ')?;
    Some((&bytes[..end], &bytes[end + 1..]))
}

// The word in front, and what stands after its blank, if it isn't the last word.
pub(crate) fn front_word(words: &[u8]) -> (&[u8], Option<&[u8]>)
    ensures word { (result.0.now, option_map (λ rest. rest.now) result.1) ≡ front_word words.now }
    ensures shorter { IfSome result.1 (λ rest. length rest.now ≤ length words.now) }
{
    match split_word(words) {
        Some((word, rest)) => (word, Some(rest)),
        None => (words, None),
    }
}

// A number of 1 to 10 digits, to 2^32 - 1.
pub(crate) fn number_in(word: &[u8]) -> Option<u32>
    ensures { result ≡ number_in word.now }
{
    if word.is_empty() || 10 < word.len() {
        return None;
    }
    let mut number = 0u64;
    for byte in word {
        if !byte.is_ascii_digit() {
            return None;
        }
        number = number * 10 + u64::from(*byte - b'0');
    }
    u32::try_from(number).ok()
}

// The number up to the first blank, and what stands after that blank.
pub(crate) fn split_number(bytes: &[u8]) -> Option<(u64, &[u8])>
    ensures value { option_map (λ cut. (cut.0, cut.1.now)) result ≡ split_number bytes.now }
    ensures shorter { IfSome result (λ cut. length cut.1.now ≤ length bytes.now) }
{
    let (word, rest) = split_word(bytes)?;
    Some((u64::from(number_in(word)?), rest))
}

// The index among the run's sites of the site with this number.
pub(crate) fn desk_in(first: u16, count: usize, word: &[u8]) -> Option<usize>
    ensures index { result ≡ desk_in first count word.now }
    ensures in_run { IfSome result (λ desk. desk < count) }
{
    let desk = number_in(word)?.checked_sub(u32::from(first))? as usize;
    (desk < count).then_some(desk)
}

// A text of a desk, 1 to `MAX_TEXT`.
pub(crate) fn text_in(word: &[u8]) -> Option<TextNo>
    ensures value { result ≡ text_in word.now }
    ensures on_desk { IfSome result (λ text. text ≤ MAX_TEXT) }
{
    let number = number_in(word)?;
    if u32::from(MAX_TEXT) < number {
        return None;
    }
    TextNo::new(number as u16)
}
