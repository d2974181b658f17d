//! Runs a script of events for the sites that the command line names: reads it from standard input, and writes
//! the answers to standard output. Its files are those of the current folder.
#![tactic(auto)]

mod numbers;
mod settings;

use crate::settings::{error_status, read_settings};
use folder_shelf::{FolderShelf, HostFolder};
use script_io::{Input, Output};
use script_runs::{run, status_of};
use std::alloc::Global;
use std::io::BufWriter;
use std::process::ExitCode;
use std::{env, io};

// The status where the words can't be had: that of a wrong command line.
const NO_WORDS: u8 = 2;

// How many bytes of answers wait at most, where the script is at hand.
const KEPT_BACK: usize = 1 << 16;

fn gathered(alloc: Global, words: env::Args) -> io::Result<Vec<String>> {
    Ok(words.collect(alloc)?)
}

fn main(rt: HostRuntime) -> io::Result<ExitCode> {
    let alloc = rt.alloc();
    let words = match env::args(&rt) {
        Ok(words) => gathered(alloc, words),
        Err(why) => Err(why),
    };
    let words = match words {
        Ok(words) => words,
        Err(why) => {
            let _unwritten = eprintln!(rt; "error: {why}");
            return Ok(ExitCode::from(NO_WORDS));
        }
    };
    let settings = match read_settings(alloc, words.as_slice()) {
        Ok(settings) => settings,
        // What is wrong with the words decides the status, also where it can't be written.
        Err(error) => {
            let _unwritten = error.print(&rt);
            return Ok(ExitCode::from(error_status(&error)));
        }
    };
    let mut output = Output::new(BufWriter::with_capacity(alloc, KEPT_BACK, io::writer(&rt))?);
    let mut shelf = FolderShelf::new(HostFolder { host: &rt }, alloc);
    let ended = match Input::new(alloc, rt.reader()) {
        Ok(mut input) => run(alloc, &mut input, &mut output, &mut shelf, settings),
        Err(why) => Err(why),
    };
    Ok(ExitCode::from(status_of(&ended)))
}
