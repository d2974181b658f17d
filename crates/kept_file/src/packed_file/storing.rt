ghost use Rattle.std.specs.Prelude.{◌≡◌, ◌<◌, ◌≤◌, ◌++◌, ◌↔◌, ◌⊎◌, All, length, IfErr, IsErrOf, OnErr, OnOk};
ghost use Rattle.std.specs.Int.{w16};
ghost use Rattle.looks.specs.Refusal.{RefusedForMemoryAlone};
ghost use Rattle.byte_fields.specs.Fields.{Appends, number_spelling};
ghost use Rattle.operations.specs.Spelling.{HasSpelling};
ghost use Rattle.packed.specs.Spelling.{packed};
ghost use Rattle.kept_file.specs.PackedFiles.{HasPackedFile, IsPackedFileOf, packed_bytes, packed_tag};
ghost use Rattle.kept_file.specs.declared.TheConstants.{MAX_PACKED};

use super::TAG;
use crate::MAX_PACKED;
use byte_fields::put_u16;
use looks::Refusal;
use packed::History;
use std::alloc::AllocError;
use texts::Replica;

// What stands before the operations.
fn put_head(out: &mut Vec<u8>, text: u16, site: u16) -> Result<(), AllocError>
    ensures { Appends result out.old.items out.new.items
        (packed_tag ++ number_spelling w16 text ++ number_spelling w16 site) }
{
    out.extend_from_slice(TAG)?;
    put_u16(out, text)?;
    put_u16(out, site)
}

// All operations of the text, each packed after those before it.
fn put_operations(out: &mut Vec<u8>, replica: &Replica) -> Result<(), Refusal>
    ensures errors { RefusedForMemoryAlone result }
    ensures packed { Appends result out.old.items out.new.items (packed replica.now.operations) }
    ensures spelled { OnOk result (All HasSpelling replica.now.operations) }
{
    replica.lemma_is_text();
    replica.lemma_are_taken_once();
    let mut history = History::new(*out.allocator());
    for place in 0..replica.taken_len() {
        let op = replica.taken(place)?;
        op.lemma_has_spelling();
        history.put(&op, out)?;
    }
    Ok(())
}

// The whole file. Where memory is refused, some of it may stand at the end.
fn put_file(out: &mut Vec<u8>, replica: &Replica) -> Result<(), Refusal>
    requires { length replica.now.operations ≤ MAX_PACKED }
    ensures errors { RefusedForMemoryAlone result }
    ensures bytes { Appends result out.old.items out.new.items
        (packed_bytes replica.now.text replica.now.site replica.now.operations) }
    ensures tells { OnOk result (HasPackedFile replica.now.text replica.now.site replica.now.operations) }
{
    replica.lemma_is_text();
    replica.lemma_are_taken_once();
    let (text, site) = (replica.text().get(), replica.site().get());
    put_head(out, text, site)?;
    put_operations(out, replica)
}

/// Appends the packed file of a text: all that it has taken in, in the order of its taking, in a byte a keystroke.
///
/// Refused `BadFile` where these are more than `MAX_PACKED`, else `OutOfMemory` where memory is; the vector's bytes are
/// then as they were. What waits, what was cut last, and which changes were told aren't kept.
pub fn store_packed(replica: &Replica, file: &mut Vec<u8>) -> Result<(), Refusal>
    ensures ok { OnOk result (file.new.items
        ≡ file.old.items ++ packed_bytes replica.now.text replica.now.site replica.now.operations) }
    // What was stored loads as itself.
    ensures loads { OnOk result (IsPackedFileOf replica.now.text replica.now.site replica.now.operations
        (packed_bytes replica.now.text replica.now.site replica.now.operations)) }
    ensures long { IsErrOf result Refusal.BadFile ↔ (MAX_PACKED < length replica.now.operations) }
    ensures errors { IfErr result (λ e. (e ≡ Refusal.BadFile) ⊎ (e ≡ Refusal.OutOfMemory)) }
    ensures err { OnErr result (file.new.items ≡ file.old.items) }
{
    if MAX_PACKED < replica.taken_len() {
        return Err(Refusal::BadFile);
    }
    let start = file.len();
    if let Err(refused) = put_file(file, replica) {
        file.truncate(start);
        return Err(refused);
    }
    Ok(())
}
