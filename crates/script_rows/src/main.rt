//! Plays many scripts, each over memory: reads them from standard input, and writes what each is answered.
#![tactic(auto)]

mod playing;
mod rows;

use playing::{ByteByByte, Played, play};
use rows::{row_in, spelled};
use script_sites::Settings;
use std::alloc::Global;
use std::io::{self, BufWriter, Write};

// Writes what a script was answered, and how its run ended where it didn't end well.
fn tell<W: Write>(writer: &mut W, what: &str, played: &Played) -> io::Result<()> {
    write!(writer, "= {what}")?;
    if !played.ended_well() {
        let ending = played.ending;
        write!(writer, ": {ending:?}")?;
    }
    writer.write_all(b"\n")?;
    writer.write_all(&played.answers)?;
    writer.write_all(b"\n")
}

// Plays a script that is read at once, and again byte by byte, which is to be answered alike.
fn play_script<W: Write>(
    alloc: Global,
    settings: Settings,
    what: &str,
    script: &[u8],
    writer: &mut W,
) -> io::Result<()> {
    let at_once = play(alloc, script, settings)?;
    let again = play(alloc, ByteByByte { bytes: script }, settings)?;
    tell(writer, what, &at_once)?;
    if again != at_once {
        tell(writer, "byte by byte", &again)?;
    }
    Ok(())
}

fn play_row<W: Write>(alloc: Global, row: &str, writer: &mut W) -> io::Result<()> {
    let Some((settings, what, script)) = row_in(row) else {
        return writeln!(writer, "= no sites in front of: {row}");
    };
    let script = spelled(alloc, script)?;
    play_script(alloc, settings, what, &script, writer)
}

// What stands before the first row is for the reader of the data.
fn play_rows<W: Write>(alloc: Global, rows: &str, writer: &mut W) -> io::Result<()> {
    for row in rows.split("\n= ").skip(1) {
        play_row(alloc, row, writer)?;
    }
    writer.flush()
}

fn main(rt: HostRuntime) -> io::Result<()> {
    let rows = io::read_to_string(rt.alloc(), rt.reader())?;
    let mut writer = BufWriter::new(rt.alloc(), io::writer(&rt))?;
    play_rows(rt.alloc(), rows.as_str(), &mut writer)
}
