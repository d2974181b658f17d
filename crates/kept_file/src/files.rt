ghost use Rattle.std.specs.Prelude.{◌≡◌, ◌<◌, ◌++◌, ◌↔◌, ◌⊎◌, length, take, IfErr, IfOk, IsErrOf, IsTrue, OnErr, OnOk};
ghost use Rattle.texts.specs.Taking.{HasTakenAll};
ghost use Rattle.texts.specs.TextState.{empty_text};
ghost use Rattle.kept_file.specs.SiteParts.{IsCutAsFile};
ghost use Rattle.kept_file.specs.PackedFiles.{BeginsAsPackedFile, packed_tag};
ghost use Rattle.kept_file.specs.KeptFiles.{IsKeptFileOf, IsNoKeptFile, kept_bytes, most_kept};

use crate::form::KeptForm;
use crate::packed_file::{TAG, load_packed, store_packed};
use crate::site_file::{load_site, store_site};
use looks::Refusal;
use std::alloc::Global;
use texts::Replica;

/// Appends a text's file in this form: all that it has taken in, in the order of its taking.
///
/// Refused `BadFile` where this is more than such a file tells, else `OutOfMemory` where memory is; the vector's bytes are
/// then as they were. What waits, and what was cut last, isn't kept.
pub fn store_kept(form: KeptForm, replica: &Replica, file: &mut Vec<u8>) -> Result<(), Refusal>
    ensures ok { OnOk result (file.new.items
        ≡ file.old.items ++ kept_bytes form replica.now.text replica.now.site replica.now.operations) }
    // What was stored loads as itself.
    ensures loads { OnOk result (IsKeptFileOf replica.now.text replica.now.site replica.now.operations
        (kept_bytes form replica.now.text replica.now.site replica.now.operations)) }
    ensures long { IsErrOf result Refusal.BadFile ↔ (most_kept form < length replica.now.operations) }
    ensures errors { IfErr result (λ e. (e ≡ Refusal.BadFile) ⊎ (e ≡ Refusal.OutOfMemory)) }
    ensures err { OnErr result (file.new.items ≡ file.old.items) }
{
    match form {
        KeptForm::Messages => store_site(replica, file),
        KeptForm::Packed => store_packed(replica, file),
    }
}

// Whether the file is to be a packed one.
fn is_packed(bytes: &[u8]) -> bool
    ensures { IsTrue result ↔ (take 4 bytes.now ≡ packed_tag) }
{
    bytes.starts_with(TAG)
}

/// The text of a file in either form, as its site kept it: with the same operations, taken in in the same order. Nothing
/// waits for it, and nothing was cut last. The first four bytes tell the form.
///
/// Refused `BadFile` where no text of a site has this file; `OutOfMemory` may come in the place of that where it is begun as one.
/// The time, and the memory, are those of taking the operations in.
pub fn load_kept(alloc: Global, bytes: &[u8]) -> Result<Replica, Refusal>
    // What is loaded has this file, and nothing else was done to it.
    ensures ok { IfOk result (λ r. IsKeptFileOf r.text r.site r.operations bytes.now
        × HasTakenAll (empty_text r.text r.site) r.operations r) }
    ensures refused { IsErrOf result Refusal.BadFile → IsNoKeptFile bytes.now }
    // Whether there is memory or not.
    ensures short { IsErrOf result Refusal.OutOfMemory → IsCutAsFile bytes.now ⊎ BeginsAsPackedFile bytes.now }
    ensures errors { IfErr result (λ e. (e ≡ Refusal.BadFile) ⊎ (e ≡ Refusal.OutOfMemory)) }
{
    if is_packed(bytes) {
        load_packed(alloc, bytes)
    } else {
        load_site(alloc, bytes)
    }
}
