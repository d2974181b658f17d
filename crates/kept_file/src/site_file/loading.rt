ghost use Rattle.std.specs.Prelude.{◌≡◌, ◌⊎◌, ℕ, List, [], IfErr, IfOk, IsErrOf, OnOk};
ghost use Rattle.operations.specs.Operation.{Operation};
ghost use Rattle.set_laws.specs.Verdict.{ready};
ghost use Rattle.texts.specs.SiteFiles.{HasSiteFile, IsNoSiteFile, IsSiteFileOf};
ghost use Rattle.texts.specs.Take.{Encodes};
ghost use Rattle.texts.specs.Taking.{HasTaken, HasTakenAll, IsJudged};
ghost use Rattle.texts.specs.TextState.{empty_text};
ghost use Rattle.kept_file.specs.SiteParts.{AreEntries, IsCutAsFile};

use super::reading::{CountedHead, are_messages, counted_at, message_at, rest_of_tag};
use crate::taking::{MOST_NOTED, refusal_of_file, take_ready};
use looks::Refusal;
use operations::decode;
use std::alloc::Global;
use texts::Replica;

// Takes in the operation of a message. Refused `BadFile` where it tells none that is ready.
fn take_message(replica: &mut Replica, alloc: Global, message: &[u8]) -> Result<(), Refusal>
    requires { replica.old.waiting_room ≡ [] }
    ensures ok { OnOk result ((op : Operation) × Encodes message.now op × HasTaken replica.old op replica.new) }
    ensures refused { IsErrOf result Refusal.BadFile → (op : Operation) → Encodes message.now op
        → IsJudged replica.old op ready → ⊥ }
    ensures errors { IfErr result (λ e. (e ≡ Refusal.BadFile) ⊎ (e ≡ Refusal.OutOfMemory)) }
{
    match decode(alloc, message) {
        Ok(op) => {
            op.lemma_has_spelling();
            take_ready(replica, op)
        }
        Err(why) => Err(refusal_of_file(why)),
    }
}

// The same, and where many changes are noted then, they are noted together.
fn take_next(replica: &mut Replica, alloc: Global, message: &[u8]) -> Result<(), Refusal>
    requires { replica.old.waiting_room ≡ [] }
    ensures ok { OnOk result ((op : Operation) × Encodes message.now op × HasTaken replica.old op replica.new) }
    ensures refused { IsErrOf result Refusal.BadFile → (op : Operation) → Encodes message.now op
        → IsJudged replica.old op ready → ⊥ }
    ensures errors { IfErr result (λ e. (e ≡ Refusal.BadFile) ⊎ (e ≡ Refusal.OutOfMemory)) }
{
    take_message(replica, alloc, message)?;
    replica.note_together(MOST_NOTED)
}

// Takes in the operations of so many messages, after which nothing may follow.
fn take_all(replica: &mut Replica, alloc: Global, count: u32, entries: &[u8]) -> Result<(), Refusal>
    requires { replica.old ≡ empty_text replica.old.text replica.old.site }
    ensures ok { OnOk result ((ops : List Operation) × AreEntries ops count entries.now
        × HasTakenAll replica.old ops replica.new) }
    ensures refused { IsErrOf result Refusal.BadFile → (ops : List Operation)
        → HasSiteFile replica.old.text replica.old.site ops → AreEntries ops count entries.now → ⊥ }
    ensures errors { IfErr result (λ e. (e ≡ Refusal.BadFile) ⊎ (e ≡ Refusal.OutOfMemory)) }
{
    replica.lemma_is_text();
    let mut rest = entries;
    for _ in 0..count {
        let Some((message, after)) = message_at(rest) else {
            return Err(Refusal::BadFile);
        };
        take_next(replica, alloc, message)?;
        rest = after;
    }
    if !rest.is_empty() {
        return Err(Refusal::BadFile);
    }
    Ok(())
}

// The text of a file, of which these bytes stand after its head.
fn text_of(alloc: Global, head: CountedHead, entries: &[u8]) -> Result<Replica, Refusal>
    ensures ok { IfOk result (λ r. (r.text ≡ head.text) × (r.site ≡ head.site)
        × HasSiteFile r.text r.site r.operations × AreEntries r.operations head.count entries.now
        × HasTakenAll (empty_text r.text r.site) r.operations r) }
    ensures refused { IsErrOf result Refusal.BadFile → (ops : List Operation)
        → HasSiteFile head.text head.site ops → AreEntries ops head.count entries.now → ⊥ }
    ensures errors { IfErr result (λ e. (e ≡ Refusal.BadFile) ⊎ (e ≡ Refusal.OutOfMemory)) }
{
    let mut replica = Replica::new(alloc, head.text, head.site)?;
    take_all(&mut replica, alloc, head.count, entries)?;
    replica.lemma_are_taken_once();
    replica.lemma_is_text();
    Ok(replica)
}

/// The text of a site's file, as its site kept it: with the same operations, taken in in the same order. Nothing waits
/// for it, and nothing was cut last; its changes are told as those of one insertion where they are many.
///
/// Refused `BadFile` where no text of a site has this file. Where the file isn't cut as one this is told before memory is
/// asked for; where a message is at fault, `OutOfMemory` may come in the place of it, as of all else. The time, and the memory,
/// are those of taking the messages in.
pub fn load_site(alloc: Global, bytes: &[u8]) -> Result<Replica, Refusal>
    // What is loaded has this file, and nothing else was done to it.
    ensures ok { IfOk result (λ r. IsSiteFileOf r.text r.site r.operations bytes.now
        × HasTakenAll (empty_text r.text r.site) r.operations r) }
    ensures refused { IsErrOf result Refusal.BadFile → IsNoSiteFile bytes.now }
    // Whether there is memory or not.
    ensures short { IsErrOf result Refusal.OutOfMemory → IsCutAsFile bytes.now }
    ensures errors { IfErr result (λ e. (e ≡ Refusal.BadFile) ⊎ (e ≡ Refusal.OutOfMemory)) }
{
    let Some(rest) = rest_of_tag(bytes) else {
        return Err(Refusal::BadFile);
    };
    let Some((head, entries)) = counted_at(rest) else {
        return Err(Refusal::BadFile);
    };
    if !are_messages(head.count, entries) {
        return Err(Refusal::BadFile);
    }
    text_of(alloc, head, entries)
}
