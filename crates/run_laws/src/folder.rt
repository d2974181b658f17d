ghost use Rattle.std.specs.Prelude.{IfSome, false};
ghost use Rattle.shelf.specs.Files.{Files};
ghost use Rattle.script_runs.specs.Ends.{Ends};
ghost use Rattle.script_sites.specs.Trace.{begun_run};

use folder_shelf::HostShelf;
use looks::Refusal;
use script_io::{Input, Output};
use script_runs::run;
use script_sites::Settings;
use std::alloc::Global;
use std::fs;
use std::io::{Read, Write};

/// A law, of the call that the program makes: over the files of a folder, what is written is the answers of a run in which the
/// files may be others at each line, since others may write there, and nothing else is open. A file is refused as failed only
/// where the shelf counted a failure.
pub fn run_over_a_folder<R: Read + Drop, W: Write, F: fs::Files + Drop>(
    alloc: Global,
    input: &mut Input<R>,
    output: &mut Output<W>,
    shelf: &mut HostShelf<F>,
    settings: Settings,
) -> Result<(), Refusal>
    ensures answers { (was now : Files) × IfSome input.old.left (λ script.
        Ends false (begun_run settings.first settings.count settings.width settings.height (record { files = was; faults = shelf.old.failures }))
        script result input.new.failed input.new.left output.old.contents output.new.contents
        (record { files = now; faults = shelf.new.failures })) }
{
    run(alloc, input, output, shelf, settings)
}
