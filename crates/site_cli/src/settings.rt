ghost use Rattle.std.specs.Prelude.{◌≡◌, ◌⊎◌, IfErr, IfOk, false, map, if◌then◌else◌};
ghost use Rattle.clap.specs.Words.{FailsBy, app_of, found_of, kind_of, rule_of};
ghost use Rattle.site_cli.specs.CommandLine.{Gives, faults_in, is_help, option_rule, program};
ghost use Rattle.site_cli.specs.Finding.{FindsSettings, are_found};

use crate::numbers::number_of;
use clap::error::ErrorKind;
use clap::{Arg, ArgMatches, Command, Error};
use script_sites::{MAX_FIRST, MAX_HEIGHT, MAX_SITES, MAX_WIDTH, MIN_HEIGHT, MIN_WIDTH, Settings};
use std::alloc::{AllocError, Global};
use std::convert::AsStr;

// An option that takes one number.
fn number_option<'a>(alloc: Global, name: &'a str, default: &'a str, help: &'a str) -> Arg<'a>
    ensures rule { rule_of result ≡ option_rule name.entry.now default.entry.now }
    ensures local { result.global ≡ false }
{
    Arg::new(alloc, name)
        .long(name)
        .value_name("N")
        .default_value(default)
        .help(help)
}

// The program with its four options.
fn program<'a>(alloc: Global) -> Result<Command<'a>, AllocError>
    ensures { IfOk result (λ command. app_of command ≡ program) }
{
    let first = number_option(alloc, "first", "1", "The first site's number, 1 to 65528");
    let count = number_option(alloc, "count", "2", "How many sites there are, 1 to 8");
    let width = number_option(alloc, "width", "80", "The columns of a screen, 20 to 200");
    let height = number_option(alloc, "height", "24", "The rows of a screen, 8 to 100");
    Command::new(alloc, "site_cli")
        .about("Answers a script of events for several sites, from standard input")
        .arg(first)?
        .arg(count)?
        .arg(width)?
        .arg(height)
}

// The settings of the numbers that were found.
#[tactic(auto, using(crate::proofs::Reading::lacks_first, crate::proofs::Reading::lacks_count, crate::proofs::Reading::lacks_width, crate::proofs::Reading::lacks_height))]
fn settings_in<'a>(
    alloc: Global,
    program: &mut Command<'a>,
    matches: &ArgMatches<'a>,
) -> Result<Settings, Error>
    ensures ok { IfOk result (FindsSettings (found_of matches.now)) }
    ensures err { IfErr result (λ e. (kind_of e ≡ ErrorKind.OutOfMemory)
        ⊎ ((kind_of e ≡ ErrorKind.ValueValidation) × (are_found (found_of matches.now) ≡ false))) }
{
    let first = number_of(alloc, program, matches, "first", 1, MAX_FIRST)?;
    let count = number_of(alloc, program, matches, "count", 1, MAX_SITES)?;
    let width = number_of(alloc, program, matches, "width", MIN_WIDTH, MAX_WIDTH)?;
    let height = number_of(alloc, program, matches, "height", MIN_HEIGHT, MAX_HEIGHT)?;
    Ok(Settings {
        first,
        count,
        width,
        height,
    })
}

/// The settings that the words give, of which the first is the program's name.
///
/// The options are `--first`, `--count`, `--width` and `--height`, each with a decimal number.
/// Refused with `DisplayHelp` where help is asked for, with `ValueValidation` where an option's value isn't a
/// decimal number in its range, with `OutOfMemory`, and with clap's other kinds where the words aren't such
/// options, each once at most, with their values.
pub fn read_settings<'a, S: AsStr>(alloc: Global, words: &'a [S]) -> Result<Settings, Error>
    ensures given { IfOk result (Gives (map S.text words.entry.now)) }
    ensures faults { FailsBy (faults_in (map S.text words.entry.now)) result }
{
    let mut program = program(alloc)?;
    let matches = program.try_get_matches_from_mut(words)?;
    settings_in(alloc, &mut program, &matches)
}

/// The exit status of the program where it has no settings: 0 where help was asked for, else 2.
pub fn error_status(error: &Error) -> u8
    ensures { result ≡ (if is_help (kind_of error.now) then 0 else 2) }
{
    match error.kind() {
        ErrorKind::DisplayHelp => 0,
        _ => 2,
    }
}
