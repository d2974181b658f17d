ghost use Rattle.std.specs.Prelude.{◌≡◌, true, false, IfOk, OnOk, map};
ghost use Rattle.looks.specs.Refusal.{RefusedForMemoryAlone};
ghost use Rattle.chunks.specs.Chunks.{CanCome};
ghost use Rattle.chunks.specs.Parts.{placed};
ghost use Rattle.texts.specs.Fronts.{is_beyond};
ghost use Rattle.text_chunks.specs.Packing.{chunks_beyond};
ghost use Rattle.text_chunks.specs.Parts.{IsCutOn, told_in};

use crate::cutter::Cutter;
use looks::Refusal;
use operations::Op;
use std::alloc::Global;
use texts::{Front, Replica, front_in};

// Adds an operation that is beyond the fronts, before which its site's file is so long; any other is left out.
fn add_beyond(fronts: &[Front], cutter: &mut Cutter, op: &Op, len: u32) -> Result<(), Refusal>
    requires { is_beyond fronts.now op.now ≡ true
        → CanCome (told_in cutter.old.current) cutter.old.text (placed op.now len) }
    ensures beyond { is_beyond fronts.now op.now ≡ true → OnOk result (IsCutOn cutter.old (placed op.now len) cutter.new) }
    ensures up_to { is_beyond fronts.now op.now ≡ false → cutter.new ≡ cutter.old }
    ensures errors { RefusedForMemoryAlone result }
{
    if op.seq() <= front_in(fronts, op.site()) {
        return Ok(());
    }
    cutter.add(op, len)
}

/// The chunks of what a text has taken in beyond some fronts, in the order of its taking; none where that is nothing.
///
/// Refused `OutOfMemory` alone. The time grows with what was taken in from the first of them on, and with the number of sites
/// times that of the fronts.
pub fn pack(alloc: Global, replica: &Replica, fronts: &[Front]) -> Result<Vec<Vec<u8>>, Refusal>
    ensures ok { IfOk result (λ packed. map (λ chunk. chunk.items) packed.items ≡ chunks_beyond fronts.now replica.now) }
    ensures errors { RefusedForMemoryAlone result }
{
    replica.lemma_is_text();
    replica.lemma_are_taken_once();
    replica.lemma_have_spelling();
    let mut cutter = Cutter::new(alloc, replica.text());
    for place in replica.first_beyond(fronts)..replica.taken_len() {
        let op = replica.taken(place)?;
        add_beyond(fronts, &mut cutter, &op, replica.file_before(place))?;
    }
    cutter.finish()
}
