//! A text that is read from a formatted file or a plain one, and written as a formatted one.

ghost use Rattle.std.specs.Prelude.{◌≡◌, IsErrOf};
ghost use Rattle.shelf.specs.Files.{Counts, SameFiles};
ghost use Rattle.text_file.specs.Files.{formatted};
ghost use Rattle.texts.specs.TextState.{shown_items};
ghost use Rattle.shelved_texts.specs.Filing.{ReadsText, WritesOnce, WritesText, shelf_seen};

use char_files::Buffer;
use looks::Refusal;
use shelf::Shelf;
use std::alloc::Global;
use texts::Replica;

/// The characters of a file. Refused `ReadFault` where the shelf fails, `BadFile` where the file is no text's, and `OutOfMemory`.
pub fn read_text<S: Shelf>(alloc: Global, name: &str, shelf: &mut S) -> Result<Buffer, Refusal>
    ensures reads { ReadsText (shelf_seen (S.files shelf.old) (S.faults shelf.old)) (shelf_seen (S.files shelf.new) (S.faults shelf.new)) name.now result }
    ensures files { SameFiles (S.files shelf.old) (S.files shelf.new) }
    ensures fault { IsErrOf result Refusal.ReadFault → Counts (S.faults shelf.old) (S.faults shelf.new) }
    ensures writes { S.writes shelf.new ≡ S.writes shelf.old }
{
    let file = shelf.read(alloc, name)?;
    text_file::load(alloc, file.as_slice())
}

/// Writes what a text shows. Refused, in this order, `BadFile` where that is too long for a file, `OutOfMemory`, and `WriteFault` where
/// the shelf fails.
pub fn write_text<S: Shelf>(
    alloc: Global,
    replica: &Replica,
    name: &str,
    shelf: &mut S,
) -> Result<(), Refusal>
    ensures writes { WritesText replica.now name.now (shelf_seen (S.files shelf.old) (S.faults shelf.old)) (shelf_seen (S.files shelf.new) (S.faults shelf.new)) result }
    ensures once { WritesOnce Refusal.WriteFault name.now (formatted (shown_items replica.now))
        (S.writes shelf.old) (S.writes shelf.new) result }
    ensures fault { IsErrOf result Refusal.WriteFault → Counts (S.faults shelf.old) (S.faults shelf.new) }
{
    let mut file = Vec::new(alloc);
    text_file::store(replica, &mut file)?;
    shelf.write(name, file.as_slice())
}
