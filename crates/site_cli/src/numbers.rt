ghost use Rattle.std.specs.Prelude.{◌≡◌, ◌⊎◌, IfErr, IfOk, None, Some};
ghost use Rattle.std.specs.Str.{all_ascii_digits};
ghost use Rattle.clap.specs.Words.{first_value, found_of, kind_of};
ghost use Rattle.site_cli.specs.Numbers.{bounded_number, decimal_in, number_found};

use clap::error::ErrorKind;
use clap::{ArgMatches, Command, Error};
use std::alloc::Global;

// Whether each byte is a decimal digit.
fn are_digits(bytes: &[u8]) -> bool
    ensures { result ≡ all_ascii_digits bytes.now }
{
    bytes.iter().all(|byte| byte.is_ascii_digit())
}

// The number of decimal digits alone: `parse` takes a plus sign too.
fn decimal_in(text: &str) -> Option<u16>
    ensures { result ≡ decimal_in text.now }
{
    if text.is_empty() || !are_digits(text.as_bytes()) {
        return None;
    }
    text.parse().ok()
}

fn number_in(text: &str, least: u16, most: u16) -> Option<u16>
    ensures { result ≡ bounded_number least most text.now }
{
    let number = decimal_in(text)?;
    if number < least || most < number {
        return None;
    }
    Some(number)
}

// The number that was found for an option.
fn number_found(matches: &ArgMatches<'_>, name: &str, least: u16, most: u16) -> Option<u16>
    ensures { result ≡ number_found least most (first_value (found_of matches.now) name.now) }
{
    number_in(matches.get_str(name)?, least, most)
}

/// The number of an option, `least` to `most`.
pub(crate) fn number_of<'a>(
    alloc: Global,
    command: &mut Command<'a>,
    matches: &ArgMatches<'a>,
    name: &str,
    least: u16,
    most: u16,
) -> Result<u16, Error>
    ensures ok { IfOk result (λ number.
        number_found least most (first_value (found_of matches.now) name.now) ≡ Some number) }
    ensures err { IfErr result (λ e. (kind_of e ≡ ErrorKind.OutOfMemory)
        ⊎ ((kind_of e ≡ ErrorKind.ValueValidation)
        × (number_found least most (first_value (found_of matches.now) name.now) ≡ None))) }
{
    match number_found(matches, name, least, most) {
        Some(number) => Ok(number),
        None => {
            let text = matches.get_str(name).unwrap_or("");
            let message = format!(in alloc;
                "invalid value '{text}' for '--{name} <N>': a decimal number from {least} to {most} is wanted"
            )?;
            Err(command.error(ErrorKind::ValueValidation, &message)?)
        }
    }
}
