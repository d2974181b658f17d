//! What a text has taken in beyond some fronts, in chunks.

ghost use Rattle.std.specs.Prelude.{◌≡◌, ◌++◌, IfOk, OnOk};
ghost use Rattle.looks.specs.Refusal.{RefusedForMemoryAlone};
ghost use Rattle.machine.specs.OnTexts.{Prints};
ghost use Rattle.machine.specs.Since.{chunk_line};
ghost use Rattle.machine.specs.declared.asked.Query.TheVariants.{Pack};

use crate::since::put_hex;
use looks::Refusal;
use machine::Fronts;
use std::alloc::{AllocError, Global};
use text_chunks::pack;
use texts::Replica;

// Appends the line of a chunk.
fn put_chunk(out: &mut Vec<u8>, chunk: &[u8]) -> Result<(), AllocError>
    ensures { OnOk result (out.new.items ≡ out.old.items ++ chunk_line chunk.now) }
{
    out.extend_from_slice(b"chunk ")?;
    put_hex(out, chunk)?;
    out.push(b'\n')?;
    Ok(())
}

// The lines that print the chunks of what was taken in beyond some fronts.
pub(crate) fn pack_lines(
    alloc: Global,
    replica: &Replica,
    fronts: &Fronts,
) -> Result<Vec<u8>, Refusal>
    ensures ok { IfOk result (λ lines. Prints (Pack fronts.now) replica.now lines.items) }
    ensures errors { RefusedForMemoryAlone result }
{
    let mut lines = Vec::new(alloc);
    for chunk in &pack(alloc, replica, fronts.list())? {
        put_chunk(&mut lines, chunk)?;
    }
    lines.extend_from_slice(b"ok\n")?;
    Ok(lines)
}
