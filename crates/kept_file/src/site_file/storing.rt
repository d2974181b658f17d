ghost use Rattle.std.specs.Prelude.{◌≡◌, ◌<◌, ◌≤◌, ◌++◌, ◌↔◌, ◌⊎◌, All, length, IfErr, IsErrOf, OnErr, OnOk};
ghost use Rattle.std.specs.Int.{w16, w32};
ghost use Rattle.std.specs.List.{flat_map};
ghost use Rattle.looks.specs.Refusal.{RefusedForMemoryAlone};
ghost use Rattle.byte_fields.specs.Fields.{Appends, number_spelling};
ghost use Rattle.operations.specs.Spelling.{HasSpelling};
ghost use Rattle.texts.specs.SiteFiles.{HasSiteFile, IsSiteFileOf, entry_spelling, site_bytes, site_tag};
ghost use Rattle.texts.specs.declared.TheConstants.{MAX_KEPT};

use byte_fields::{put_u16, put_u32};
use looks::Refusal;
use operations::{Op, encode};
use std::alloc::AllocError;
use texts::{MAX_KEPT, Replica};

// What stands before the messages.
fn put_head(out: &mut Vec<u8>, text: u16, site: u16, count: u32) -> Result<(), AllocError>
    ensures { Appends result out.old.items out.new.items
        (site_tag ++ number_spelling w16 text ++ number_spelling w16 site ++ number_spelling w32 count) }
{
    out.extend_from_slice(b"OTS1")?;
    put_u16(out, text)?;
    put_u16(out, site)?;
    put_u32(out, count)
}

// A message after its length. It is put together in `message`, whose own bytes are lost.
fn put_entry(out: &mut Vec<u8>, message: &mut Vec<u8>, op: &Op) -> Result<(), Refusal>
    ensures entry { Appends result out.old.items out.new.items (entry_spelling op.now) }
    ensures spelled { HasSpelling op.now }
    ensures errors { RefusedForMemoryAlone result }
{
    op.lemma_has_spelling();
    message.clear();
    encode(op, message)?;
    put_u16(out, message.len() as u16)?;
    out.extend_from_slice(message)?;
    Ok(())
}

// All messages of the text, each after its length.
fn put_entries(out: &mut Vec<u8>, replica: &Replica) -> Result<(), Refusal>
    ensures errors { RefusedForMemoryAlone result }
    ensures entries { Appends result out.old.items out.new.items
        (flat_map entry_spelling replica.now.operations) }
    ensures spelled { OnOk result (All HasSpelling replica.now.operations) }
{
    let mut message = Vec::new(*out.allocator());
    for place in 0..replica.taken_len() {
        let op = replica.taken(place)?;
        put_entry(out, &mut message, &op)?;
    }
    Ok(())
}

// The whole file. Where memory is refused, some of it may stand at the end.
fn put_site(out: &mut Vec<u8>, replica: &Replica) -> Result<(), Refusal>
    requires { length replica.now.operations ≤ MAX_KEPT }
    ensures errors { RefusedForMemoryAlone result }
    ensures bytes { Appends result out.old.items out.new.items
        (site_bytes replica.now.text replica.now.site replica.now.operations) }
    ensures tells { OnOk result (HasSiteFile replica.now.text replica.now.site replica.now.operations) }
{
    replica.lemma_is_text();
    replica.lemma_are_taken_once();
    let (text, site) = (replica.text().get(), replica.site().get());
    put_head(out, text, site, replica.taken_len() as u32)?;
    put_entries(out, replica)
}

/// Appends the site's file of a text: all that it has taken in, as messages in the order of their taking.
///
/// Refused `BadFile` where these are more than 2^32 - 1, else `OutOfMemory` where memory is; the vector's bytes are then
/// as they were. What waits, what was cut last, and which changes were told aren't kept.
pub fn store_site(replica: &Replica, file: &mut Vec<u8>) -> Result<(), Refusal>
    ensures ok { OnOk result (file.new.items
        ≡ file.old.items ++ site_bytes replica.now.text replica.now.site replica.now.operations) }
    // What was stored loads as itself.
    ensures loads { OnOk result (IsSiteFileOf replica.now.text replica.now.site replica.now.operations
        (site_bytes replica.now.text replica.now.site replica.now.operations)) }
    ensures long { IsErrOf result Refusal.BadFile ↔ (MAX_KEPT < length replica.now.operations) }
    ensures errors { IfErr result (λ e. (e ≡ Refusal.BadFile) ⊎ (e ≡ Refusal.OutOfMemory)) }
    ensures err { OnErr result (file.new.items ≡ file.old.items) }
{
    if MAX_KEPT < replica.taken_len() {
        return Err(Refusal::BadFile);
    }
    let start = file.len();
    if let Err(refused) = put_site(file, replica) {
        file.truncate(start);
        return Err(refused);
    }
    Ok(())
}
