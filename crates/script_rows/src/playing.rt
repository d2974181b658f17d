use looks::Refusal;
use script_io::{Input, Output};
use script_runs::run;
use script_sites::Settings;
use shelf::MemoryShelf;
use std::alloc::Global;
use std::io::{self, Read};

/// A reader over memory that gives a byte at a time.
#[derive(Clone, Copy, Drop)]
pub(crate) struct ByteByByte<'a> {
    pub bytes: &'a [u8],
}

impl Read for ByteByByte<'_> {
    fn read(&mut self, buf: &mut [u8]) -> io::Result<usize> {
        let len = self.bytes.len().min(buf.len()).min(1);
        let (given, left) = self.bytes.split_at(len);
        buf[..len].copy_from_slice(given);
        self.bytes = left;
        Ok(len)
    }
}

/// How a run ended.
#[derive(Clone, Copy, Debug, PartialEq, Eq)]
pub(crate) struct Ending {
    result: Result<(), Refusal>,
    read_failed: bool,
    write_failed: bool,
    flushed: bool,
}

const WELL: Ending = Ending {
    result: Ok(()),
    read_failed: false,
    write_failed: false,
    flushed: true,
};

/// What a script was answered, and how its run ended.
#[derive(PartialEq, Eq, Drop)]
pub(crate) struct Played {
    pub answers: Vec<u8>,
    pub ending: Ending,
}

impl Played {
    /// Whether the run ended well, with all answers flushed.
    pub(crate) fn ended_well(&self) -> bool {
        self.ending == WELL
    }
}

/// Plays a script that a reader gives.
pub(crate) fn play<R: Read + Drop>(
    alloc: Global,
    reader: R,
    settings: Settings,
) -> io::Result<Played> {
    let Ok(mut input) = Input::new(alloc, reader) else {
        return Err(io::ErrorKind::OutOfMemory.into());
    };
    let mut output = Output::new(Vec::new(alloc));
    let ending = Ending {
        result: run(
            alloc,
            &mut input,
            &mut output,
            &mut MemoryShelf::new(alloc),
            settings,
        ),
        read_failed: input.failed(),
        write_failed: output.failed(),
        flushed: output.flushed(),
    };
    Ok(Played {
        answers: output.into_writer(),
        ending,
    })
}
