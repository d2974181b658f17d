ghost use Rattle.std.specs.Prelude.{◌≡◌, ◌++◌, ◌⊎◌, ℕ, List, [], IfErr, IfNone, IfOk, IfSome, IsErrOf, OnOk};
ghost use Rattle.looks.specs.Refusal.{RefusedForMemoryAlone};
ghost use Rattle.operations.specs.Operation.{Operation};
ghost use Rattle.operations.specs.Spelling.{HasSpelling};
ghost use Rattle.set_laws.specs.Verdict.{ready};
ghost use Rattle.texts.specs.Taking.{HasTaken, HasTakenAll, IsJudged};
ghost use Rattle.texts.specs.TextState.{empty_text};
ghost use Rattle.packed.specs.Spelling.{packed};
ghost use Rattle.packed.specs.Told.{told_on};
ghost use Rattle.kept_file.specs.PackedFiles.{BeginsAsPackedFile, HasPackedFile, IsNoPackedFile, IsPackedFileOf};
ghost use Rattle.kept_file.specs.PackedParts.{ArePacked, HasTakenFirst, IsFirstPacked};

use super::reading::rest_of_tag;
use crate::MAX_PACKED;
use crate::head::{Head, head_at};
use crate::taking::{MOST_NOTED, take_ready};
use looks::Refusal;
use packed::History;
use std::alloc::Global;
use texts::Replica;

// Takes in the first of packed operations, and answers the bytes after it. Refused `BadFile` where none is there that is
// ready.
fn take_first<'a>(
    replica: &mut Replica,
    history: &mut History,
    alloc: Global,
    bytes: &'a [u8],
) -> Result<&'a [u8], Refusal>
    requires { replica.old.waiting_room ≡ [] }
    ensures ok { IfOk result (λ rest. (op : Operation)
        × IsFirstPacked history.old replica.old.text bytes.now op rest.now
        × (history.new ≡ told_on history.old op) × HasTaken replica.old op replica.new) }
    ensures refused { IsErrOf result Refusal.BadFile → (op : Operation) (rest : List ℕ)
        → IsFirstPacked history.old replica.old.text bytes.now op rest → IsJudged replica.old op ready → ⊥ }
    ensures errors { IfErr result (λ e. (e ≡ Refusal.BadFile) ⊎ (e ≡ Refusal.OutOfMemory)) }
{
    match history.next(alloc, replica.text(), bytes) {
        Ok((op, rest)) => {
            op.lemma_has_spelling();
            take_ready(replica, op)?;
            Ok(rest)
        }
        Err(why) => Err(why),
    }
}

// Takes in the letters that the bytes begin with, and answers how many, and the bytes after them. `None` where none are there
// that are ready, and then nothing is taken in. Refused `OutOfMemory` alone.
fn take_letters<'a>(
    replica: &mut Replica,
    history: &mut History,
    bytes: &'a [u8],
) -> Result<Option<(u64, &'a [u8])>, Refusal>
    requires { replica.old.waiting_room ≡ [] }
    ensures taken { IfOk result (λ found. IfSome found (λ x.
        HasTakenFirst replica.old history.old bytes.now x.0 x.1.now replica.new history.new)) }
    ensures none { IfOk result (λ found. IfNone found ((replica.new ≡ replica.old) × (history.new ≡ history.old))) }
    ensures errors { RefusedForMemoryAlone result }
{
    let Some((typing, typed, rest)) = history.letters(replica.text(), bytes) else {
        return Ok(None);
    };
    if !replica.take_letters(&typing, typed)? {
        return Ok(None);
    }
    history.pass_letters(&typing, typed)?;
    Ok(Some((typed.len() as u64, rest)))
}

// Takes in the first of packed operations: a row of letters, or else one. Answers how many, and the bytes after them. Refused
// `BadFile` where none is there that is ready.
fn take_letters_or_first<'a>(
    replica: &mut Replica,
    history: &mut History,
    alloc: Global,
    bytes: &'a [u8],
) -> Result<(u64, &'a [u8]), Refusal>
    requires { replica.old.waiting_room ≡ [] }
    ensures ok { IfOk result (λ x.
        HasTakenFirst replica.old history.old bytes.now x.0 x.1.now replica.new history.new) }
    ensures refused { IsErrOf result Refusal.BadFile → (op : Operation) (rest : List ℕ)
        → IsFirstPacked history.old replica.old.text bytes.now op rest → IsJudged replica.old op ready → ⊥ }
    ensures errors { IfErr result (λ e. (e ≡ Refusal.BadFile) ⊎ (e ≡ Refusal.OutOfMemory)) }
{
    match take_letters(replica, history, bytes) {
        Ok(Some(taken)) => Ok(taken),
        Ok(None) => match take_first(replica, history, alloc, bytes) {
            Ok(after) => Ok((1, after)),
            Err(why) => Err(why),
        },
        Err(why) => Err(why),
    }
}

// The same, and where many changes are noted then, they are noted together.
fn take_some<'a>(
    replica: &mut Replica,
    history: &mut History,
    alloc: Global,
    bytes: &'a [u8],
) -> Result<(u64, &'a [u8]), Refusal>
    requires { replica.old.waiting_room ≡ [] }
    ensures ok { IfOk result (λ x.
        HasTakenFirst replica.old history.old bytes.now x.0 x.1.now replica.new history.new) }
    ensures refused { IsErrOf result Refusal.BadFile → (op : Operation) (rest : List ℕ)
        → IsFirstPacked history.old replica.old.text bytes.now op rest → IsJudged replica.old op ready → ⊥ }
    ensures errors { IfErr result (λ e. (e ≡ Refusal.BadFile) ⊎ (e ≡ Refusal.OutOfMemory)) }
{
    let taken = take_letters_or_first(replica, history, alloc, bytes)?;
    replica.note_together(MOST_NOTED)?;
    Ok(taken)
}

// Takes in packed operations, of which there may be `MAX_PACKED`.
fn take_all(replica: &mut Replica, alloc: Global, bytes: &[u8]) -> Result<(), Refusal>
    requires { replica.old ≡ empty_text replica.old.text replica.old.site }
    ensures ok { OnOk result ((ops : List Operation) × ArePacked ops bytes.now
        × HasTakenAll replica.old ops replica.new) }
    ensures refused { IsErrOf result Refusal.BadFile → (ops : List Operation)
        → HasPackedFile replica.old.text replica.old.site ops → bytes.now ≡ packed ops → ⊥ }
    ensures errors { IfErr result (λ e. (e ≡ Refusal.BadFile) ⊎ (e ≡ Refusal.OutOfMemory)) }
{
    replica.lemma_is_text();
    let mut history = History::new(alloc);
    let mut rest = bytes;
    let mut done = 0;
    while !rest.is_empty() {
        let (more, after) = take_some(replica, &mut history, alloc, rest)?;
        if MAX_PACKED - done < more {
            return Err(Refusal::BadFile);
        }
        done += more;
        rest = after;
    }
    Ok(())
}

// The text of a file, of which these bytes stand after its head.
fn text_of(alloc: Global, head: Head, bytes: &[u8]) -> Result<Replica, Refusal>
    ensures ok { IfOk result (λ r. (r.text ≡ head.text) × (r.site ≡ head.site)
        × HasPackedFile r.text r.site r.operations × (bytes.now ≡ packed r.operations)
        × HasTakenAll (empty_text r.text r.site) r.operations r) }
    ensures refused { IsErrOf result Refusal.BadFile → (ops : List Operation)
        → HasPackedFile head.text head.site ops → bytes.now ≡ packed ops → ⊥ }
    ensures errors { IfErr result (λ e. (e ≡ Refusal.BadFile) ⊎ (e ≡ Refusal.OutOfMemory)) }
{
    let mut replica = Replica::new(alloc, head.text, head.site)?;
    take_all(&mut replica, alloc, bytes)?;
    replica.lemma_are_taken_once();
    replica.lemma_is_text();
    Ok(replica)
}

/// The text of a packed file, as its site kept it: with the same operations, taken in in the same order. Nothing waits
/// for it, and nothing was cut last; its changes are told as those of one insertion where they are many.
///
/// Refused `BadFile` where no text of a site has this file. Where it doesn't begin as one this is told before memory is
/// asked for; where an operation is at fault, `OutOfMemory` may come in the place of it, as of all else. The time, and the
/// memory, are those of taking the operations in, of which a file has `MAX_PACKED` at most; letters that stand each as one
/// byte are taken in a row at a time.
pub fn load_packed(alloc: Global, bytes: &[u8]) -> Result<Replica, Refusal>
    // What is loaded has this file, and nothing else was done to it.
    ensures ok { IfOk result (λ r. IsPackedFileOf r.text r.site r.operations bytes.now
        × HasTakenAll (empty_text r.text r.site) r.operations r) }
    ensures refused { IsErrOf result Refusal.BadFile → IsNoPackedFile bytes.now }
    // Whether there is memory or not.
    ensures short { IsErrOf result Refusal.OutOfMemory → BeginsAsPackedFile bytes.now }
    ensures errors { IfErr result (λ e. (e ≡ Refusal.BadFile) ⊎ (e ≡ Refusal.OutOfMemory)) }
{
    let Some(rest) = rest_of_tag(bytes) else {
        return Err(Refusal::BadFile);
    };
    let Some((head, operations)) = head_at(rest) else {
        return Err(Refusal::BadFile);
    };
    text_of(alloc, head, operations)
}
