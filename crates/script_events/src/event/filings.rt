ghost use Rattle.std.specs.Prelude.{◌≡◌, ◌≤◌, option_map, IfSome};
ghost use Rattle.std.specs.Option.{option_copied};
ghost use Rattle.script_events.specs.Script.{file_in, filing_in, form_in, keeping_in};

use crate::event::words::{front_word, split_word, text_in};
use char_files::TextNo;
use kept_file::KeptForm;
use machine::MAX_TEXT;
use shelf::file_name;

// A file's name without a blank.
fn file_in(word: &[u8]) -> Option<&str>
    ensures { option_copied result ≡ file_in word.now }
{
    if word.contains(&b' ') {
        return None;
    }
    file_name(word)
}

// What `reopen` goes on with: a text, and the file, which ends the line.
pub(crate) fn filing_in(rest: &[u8]) -> Option<(TextNo, &str)>
    ensures filing { option_map (λ filing. (filing.0, filing.1.now)) result ≡ filing_in rest.now }
    ensures on_desk { IfSome result (λ filing. filing.0 ≤ MAX_TEXT) }
{
    let (text, name) = split_word(rest)?;
    let text = text_in(text)?;
    let name = file_in(name)?;
    Some((text, name))
}

// The form of a file that is told after its name, if one is.
fn form_in(word: Option<&[u8]>) -> Option<KeptForm>
    ensures { result ≡ form_in (option_map (λ word. word.now) word.entry) }
{
    let Some(word) = word else {
        return Some(KeptForm::Messages);
    };
    (word == b"packed".as_slice()).then_some(KeptForm::Packed)
}

// What `keep` goes on with: a text, and the file, after which its form may be told.
pub(crate) fn keeping_in(rest: &[u8]) -> Option<(KeptForm, TextNo, &str)>
    ensures keeping { option_map (λ keeping. (keeping.0, (keeping.1, keeping.2.now))) result ≡ keeping_in rest.now }
    ensures on_desk { IfSome result (λ keeping. keeping.1 ≤ MAX_TEXT) }
{
    let (word, words) = split_word(rest)?;
    let text = text_in(word)?;
    let (word, form) = front_word(words);
    let name = file_in(word)?;
    let form = form_in(form)?;
    Some((form, text, name))
}
