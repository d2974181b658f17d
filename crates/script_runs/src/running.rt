ghost use Rattle.std.specs.Prelude.{◌≡◌, ◌≤◌, ◌⊎◌, ℕ, List, Contains, IsTrue, OnErr, OnOk, length, vec_capacity, is_ok};
ghost use Rattle.std.specs.Prelude.{if◌then◌else◌, Err, IfSome, IfErr, is_some};
ghost use Rattle.std.specs.Io.KnownBytes.{Keeps};
ghost use Rattle.shelved_texts.specs.Filing.{shelf_seen};
ghost use Rattle.script_runs.specs.Ends.{Ends, IsEnd};
ghost use Rattle.script_runs.specs.Parts.{BreaksOff};
ghost use Rattle.script_sites.specs.Seen.{OverFiles, run_seen};
ghost use Rattle.script_sites.specs.Trace.{Answers, begun_run};
ghost use Rattle.script_sites.specs.Writing.{PutsToOutput};

use looks::Refusal;
use script_io::{Input, MAX_LINE, NextLine, Output, next_line};
use script_sites::{Settings, Sites, put_refused};
use shelf::Shelf;
use std::alloc::Global;
use std::io::{Read, Write};

/// The most lines of a script.
pub const MAX_LINES: usize = 1 << 20;

// What was written is put out before the reader is asked for bytes that the input doesn't hold. A script that is
// at hand isn't flushed line by line.
fn put_out<R: Read + Drop, W: Write>(
    input: &Input<R>,
    output: &mut Output<W>,
) -> Result<(), Refusal>
    ensures kept { Keeps output.old.contents output.new.contents }
    ensures errors { IfErr result (λ e. e ≡ Refusal.WriteFault) }
    ensures failed { OnErr result (IsTrue output.new.failed) }
    ensures out { OnOk result (Contains input.now.held 10 ⊎ IsTrue output.new.flushed) }
    ensures at_hand { Contains input.now.held 10 → output.new ≡ output.old }
{
    if input.holds_line() {
        Ok(())
    } else {
        output.flush()
    }
}

// Answers the last line, and puts the answer out.
fn answer_last<W: Write, S: Shelf>(
    sites: &mut Sites,
    output: &mut Output<W>,
    shelf: &mut S,
    line: &[u8],
) -> Result<(), Refusal>
    requires { length line.now ≤ MAX_LINE }
    ensures answers { (answer : List ℕ) × PutsToOutput result output.old output.new answer
        × OverFiles (shelf_seen (S.files shelf.old) (S.faults shelf.old)) (shelf_seen (S.files shelf.new) (S.faults shelf.new)) (λ was now.
        Answers (run_seen sites.old was) line.now answer (run_seen sites.new now)) }
    ensures flushed { OnOk result (IsTrue output.new.flushed) }
{
    sites.answer(output, shelf, line)?;
    output.flush()
}

// The end where the reader failed or a limit was passed: the refusal goes out.
fn break_off<W: Write>(output: &mut Output<W>) -> Result<(), Refusal>
    ensures ends { BreaksOff output.new.failed output.old.contents output.new.contents result }
    ensures flushed { result ≡ Err Refusal.ReadFault → IsTrue output.new.flushed }
{
    put_refused(output, Refusal::ReadFault)?;
    output.flush()?;
    Err(Refusal::ReadFault)
}

// Answers line by line, to the end of the script.
fn run_lines<R: Read + Drop, W: Write, S: Shelf>(
    input: &mut Input<R>,
    output: &mut Output<W>,
    shelf: &mut S,
    line: &mut Vec<u8>,
    sites: &mut Sites,
) -> Result<(), Refusal>
    requires { MAX_LINE ≤ vec_capacity line.old }
    ensures answers { OverFiles (shelf_seen (S.files shelf.old) (S.faults shelf.old)) (shelf_seen (S.files shelf.new) (S.faults shelf.new)) (λ was now. IfSome input.old.left (λ script.
        Ends (is_some (S.files shelf.old)) (run_seen sites.old was) script result input.new.failed
        input.new.left output.old.contents output.new.contents now)) }
    ensures errors { IfErr result IsEnd }
    ensures write_fault { result ≡ Err Refusal.WriteFault → IsTrue output.new.failed }
    ensures flushed { OnOk result (IsTrue output.new.flushed) }
    ensures told { result ≡ Err Refusal.ReadFault → IsTrue output.new.flushed }
{
    for _ in 0..MAX_LINES {
        put_out(input, output)?;
        match next_line(input, output, line) {
            Ok(NextLine::Line) => sites.answer(output, shelf, line)?,
            Ok(NextLine::Last) => return answer_last(sites, output, shelf, line),
            Ok(NextLine::End) => return output.flush(),
            Err(_) => return break_off(output),
        }
    }
    // After the last line that is read nothing may follow.
    put_out(input, output)?;
    match next_line(input, output, line) {
        Ok(NextLine::End) => output.flush(),
        _ => break_off(output),
    }
}

/// Runs the script that the input gives, over the files of the shelf, and writes the answers.
///
/// Ends with `OutOfMemory` where the first memory is refused, with nothing written; with `ReadFault`, after
/// the line `refused 21`, where the reader fails or the script passes a limit: 2^20 lines of at most 32,768
/// bytes; and with `WriteFault` where the writer fails, with a prefix of the answers written.
pub fn run<R: Read + Drop, W: Write, S: Shelf>(
    alloc: Global,
    input: &mut Input<R>,
    output: &mut Output<W>,
    shelf: &mut S,
    settings: Settings,
) -> Result<(), Refusal>
    ensures answers { OverFiles (shelf_seen (S.files shelf.old) (S.faults shelf.old)) (shelf_seen (S.files shelf.new) (S.faults shelf.new)) (λ was now. IfSome input.old.left (λ script.
        Ends (is_some (S.files shelf.old)) (begun_run settings.first settings.count settings.width settings.height was) script result input.new.failed
        input.new.left output.old.contents output.new.contents now)) }
    ensures errors { IfErr result IsEnd }
    ensures write_fault { result ≡ Err Refusal.WriteFault → IsTrue output.new.failed }
    ensures flushed { OnOk result (IsTrue output.new.flushed) }
    ensures told { result ≡ Err Refusal.ReadFault → IsTrue output.new.flushed }
{
    let mut line = Vec::with_capacity(alloc, MAX_LINE)?;
    let mut sites = Sites::new(alloc, settings)?;
    run_lines(input, output, shelf, &mut line, &mut sites)
}

/// The exit status of the program: 0 where the run ended well, else 1.
pub fn status_of(ended: &Result<(), Refusal>) -> u8
    ensures { result ≡ (if is_ok ended.now then 0 else 1) }
{
    match ended {
        Ok(()) => 0,
        Err(_) => 1,
    }
}
