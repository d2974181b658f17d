ghost use Rattle.std.specs.Prelude.{◌≡◌, ◌≤◌, IfSome, Some, None, if◌then◌else◌};
ghost use Rattle.std.specs.Option.{option_copied};
ghost use Rattle.machine.specs.Commands.{bytes_parameter, colour_parameter, file_parameter, font_parameter, is_caret_sign, offset_parameter};
ghost use Rattle.machine.specs.Commands.{text_parameter};
ghost use Rattle.operations.specs.Reading.{is_font_name};

use char_files::TextNo;
use looks::{Colour, FontName, Looks, Sel};
use machine::MAX_TEXT;
use reader_scanner::TokenValue;
use shelf::file_name;
use std::slice;

// The text that a value tells.
pub(crate) fn text_parameter(value: &TokenValue) -> Option<TextNo>
    ensures told { result ≡ text_parameter value.now }
    ensures on_desk { IfSome result (λ text. text ≤ MAX_TEXT) }
{
    let TokenValue::Int(number) = value else {
        return None;
    };
    let number = u16::try_from(*number).ok()?;
    if number <= MAX_TEXT {
        TextNo::new(number)
    } else {
        None
    }
}

// The file that a value tells.
pub(crate) fn file_parameter(value: &TokenValue) -> Option<&str>
    ensures { option_copied result ≡ file_parameter value.now }
{
    match value {
        TokenValue::Name(name) | TokenValue::String(name) => file_name(name.as_bytes()),
        _ => None,
    }
}

// The bytes to search for that a value tells.
pub(crate) fn bytes_parameter(value: &TokenValue) -> Option<&[u8]>
    ensures { option_copied result ≡ bytes_parameter value.now }
{
    match value {
        TokenValue::Name(text) | TokenValue::String(text) if !text.as_bytes().is_empty() => {
            Some(text.as_bytes())
        }
        TokenValue::Char(byte) => Some(slice::from_ref(byte)),
        _ => None,
    }
}

// The font of this name, where there may be one.
fn font_named(name: &[u8]) -> Option<FontName>
    ensures { result ≡ if is_font_name name.now then Some name.now else None }
{
    FontName::new(name)
}

// The font that a value tells, as a change of looks.
pub(crate) fn font_parameter(value: &TokenValue) -> Option<(Sel, Looks)>
    ensures { result ≡ font_parameter value.now }
{
    let TokenValue::Name(name) = value else {
        return None;
    };
    let font = font_named(name.as_bytes())?;
    let looks = Looks {
        font,
        ..Looks::plain()
    };
    Some((Sel::new(1).unwrap(), looks))
}

// The colour that a value tells, alike.
pub(crate) fn colour_parameter(value: &TokenValue) -> Option<(Sel, Looks)>
    ensures { result ≡ colour_parameter value.now }
{
    let TokenValue::Int(number) = value else {
        return None;
    };
    let colour = Colour::new(u8::try_from(*number).ok()?)?;
    let looks = Looks {
        colour,
        ..Looks::plain()
    };
    Some((Sel::new(2).unwrap(), looks))
}

// The offset that a value tells, alike.
pub(crate) fn offset_parameter(value: &TokenValue) -> Option<(Sel, Looks)>
    ensures { result ≡ offset_parameter value.now }
{
    let TokenValue::Int(number) = value else {
        return None;
    };
    let offset = i8::try_from(*number).ok()?;
    let looks = Looks {
        offset,
        ..Looks::plain()
    };
    Some((Sel::new(4).unwrap(), looks))
}

// Whether a value is the sign that the selection has the parameter.
pub(crate) fn is_caret_sign(value: &TokenValue) -> bool
    ensures { result ≡ is_caret_sign value.now }
{
    matches!(value, TokenValue::Char(b'^'))
}
