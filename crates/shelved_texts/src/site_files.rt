//! A text that is kept in its site's file, in either form.

ghost use Rattle.std.specs.Prelude.{◌≡◌, IsErrOf};
ghost use Rattle.shelf.specs.Files.{Counts, SameFiles};
ghost use Rattle.kept_file.specs.KeptFiles.{kept_bytes};
ghost use Rattle.shelved_texts.specs.Filing.{ReadsSite, WritesOnce, WritesSite, shelf_seen};

use kept_file::{KeptForm, load_kept, store_kept};
use looks::Refusal;
use shelf::Shelf;
use std::alloc::Global;
use texts::Replica;

/// The text of a site's file. Refused `ReadFault` where the shelf fails, `BadFile` where the file is no site's file, in either form, and
/// `OutOfMemory`.
pub fn read_site<S: Shelf>(alloc: Global, name: &str, shelf: &mut S) -> Result<Replica, Refusal>
    ensures reads { ReadsSite (shelf_seen (S.files shelf.old) (S.faults shelf.old)) (shelf_seen (S.files shelf.new) (S.faults shelf.new)) name.now result }
    ensures files { SameFiles (S.files shelf.old) (S.files shelf.new) }
    ensures fault { IsErrOf result Refusal.ReadFault → Counts (S.faults shelf.old) (S.faults shelf.new) }
    ensures writes { S.writes shelf.new ≡ S.writes shelf.old }
{
    let file = shelf.read(alloc, name)?;
    load_kept(alloc, file.as_slice())
}

/// Writes all that a text has taken in, in this form. Refused, in this order, `BadFile` where this is more operations than such a file
/// tells, `OutOfMemory`, and `WriteFault` where the shelf fails.
pub fn write_site<S: Shelf>(
    alloc: Global,
    form: KeptForm,
    replica: &Replica,
    name: &str,
    shelf: &mut S,
) -> Result<(), Refusal>
    ensures writes { WritesSite form replica.now name.now (shelf_seen (S.files shelf.old) (S.faults shelf.old)) (shelf_seen (S.files shelf.new) (S.faults shelf.new)) result }
    ensures once { WritesOnce Refusal.WriteFault name.now
        (kept_bytes form replica.now.text replica.now.site replica.now.operations) (S.writes shelf.old) (S.writes shelf.new) result }
    ensures fault { IsErrOf result Refusal.WriteFault → Counts (S.faults shelf.old) (S.faults shelf.new) }
{
    let mut file = Vec::new(alloc);
    store_kept(form, replica, &mut file)?;
    shelf.write(name, file.as_slice())
}
