ghost use Rattle.std.specs.Prelude.{◌≡◌, ◌≤◌, ◌⊎◌, Contains, IsTrue, OnOk, vec_capacity};
ghost use Rattle.script_io.specs.Lines.{TakesLine, without_return};

use crate::input::Input;
use crate::output::Output;
use looks::Refusal;
use std::io::{Read, Write};

/// The most bytes of a line, before its newline.
pub const MAX_LINE: usize = 32768;

/// What stands next in a script.
#[derive(Clone, Copy, Debug, PartialEq, Eq)]
pub enum NextLine {
    /// A line that a newline ends.
    Line,
    /// The last line, without a newline.
    Last,
    /// Nothing, at the end.
    End,
}

// Takes off a carriage return at the end.
fn strip_return(line: &mut Vec<u8>)
    ensures line { line.new.items ≡ without_return line.old.items }
    ensures room { vec_capacity line.new ≡ vec_capacity line.old }
{
    if line.last() == Some(&b'\r') {
        line.pop();
    }
}

/// Takes the next line into `line`, which has the room. Any error of the reader, and a line that is too long,
/// is a fault.
///
/// All that was written to `output` is out, unless a whole line is at hand: so a person sees each answer before
/// the next line is asked for. The output is there for this condition alone.
pub fn next_line<R: Read + Drop, W: Write>(
    input: &mut Input<R>,
    output: &Output<W>,
    line: &mut Vec<u8>,
) -> Result<NextLine, Refusal>
    requires out { Contains input.old.held 10 ⊎ IsTrue output.now.flushed }
    requires room { MAX_LINE ≤ vec_capacity line.old }
    ensures taken { TakesLine input.new.failed input.old.left input.new.left
        result line.new.items }
    ensures whole { OnOk result (input.new.failed ≡ input.old.failed) }
    ensures room { MAX_LINE ≤ vec_capacity line.new }
{
    line.clear();
    loop {
        match input.byte()? {
            None if line.is_empty() => return Ok(NextLine::End),
            // A carriage return is a part of a line's end: where no newline ends the line it stays.
            None => return Ok(NextLine::Last),
            Some(b'\n') => {
                strip_return(line);
                return Ok(NextLine::Line);
            }
            Some(byte) if line.len() < MAX_LINE => {
                line.push_reserved(byte);
                input.move_held(line, MAX_LINE);
            }
            Some(_) => return Err(Refusal::ReadFault),
        }
    }
}
