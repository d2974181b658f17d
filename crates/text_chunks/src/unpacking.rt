ghost use Rattle.std.specs.Prelude.{◌≡◌, ◌≢◌, ◌<◌, ◌≤◌, ◌⊎◌, AllPairs, Bool, IfErr, IfOk, List, [], false, true, length, nat_lt, reverse};
ghost use Rattle.operations.specs.Letters.{letters};
ghost use Rattle.operations.specs.Operation.{Operation};
ghost use Rattle.operations.specs.declared.typing.Typing.{Typing};
ghost use Rattle.chunks.specs.declared.TheConstants.{MAX_CHUNK};
ghost use Rattle.texts.specs.Taking.{HasTakenAll};
ghost use Rattle.texts.specs.Text.{IsText};
ghost use Rattle.texts.specs.TextState.{TextState};
ghost use Rattle.text_chunks.specs.Parts.{CountsHaveRoom, HandsInOne, HasGrown};
ghost use Rattle.text_chunks.specs.Typed.{AreTypedFirst, CountsAreLow, EndsRefused, GoesOnTo};
ghost use Rattle.text_chunks.specs.Unpacking.{HandsInAll, Unpacks, UnpacksShort, counted_in, nothing_unpacked, refusal_after};

use crate::typed::typed_first;
use crate::unpacked::{UnpackRefusal, Unpacked};
use chunks::read_chunk;
use looks::Refusal;
use operations::Op;
use std::alloc::Global;
use texts::{Replica, Took};

// Counts an operation that was answered so; and whether the room grew then.
fn count(counts: Unpacked, took: Took, grew: bool) -> Unpacked
    requires { CountsHaveRoom counts }
    ensures grown { HasGrown counts result }
    ensures counted { (t new : TextState) → grew ≡ nat_lt (length t.waiting_room) (length new.waiting_room)
        → result ≡ counted_in counts t new took }
{
    match took {
        Took::Taken {
            drained,
            stopped,
            ..
        } => Unpacked {
            taken: counts.taken + (u64::from(drained) + 1),
            stopped: counts.stopped || stopped,
            ..counts
        },
        Took::Waits if grew => Unpacked {
            waiting: counts.waiting + 1,
            ..counts
        },
        Took::Waits | Took::Repeat => Unpacked {
            known: counts.known + 1,
            ..counts
        },
    }
}

// Why a chunk is refused of which so many operations were handed in.
fn refusal_after(done: u64, why: Refusal) -> UnpackRefusal
    ensures { result ≡ refusal_after done why }
{
    if done == 0 {
        UnpackRefusal::Whole(why)
    } else {
        UnpackRefusal::Partial { done, why }
    }
}

// Hands in an operation, and counts it.
fn hand_in(replica: &mut Replica, op: Op, counts: Unpacked) -> Result<Unpacked, Refusal>
    requires { CountsHaveRoom counts }
    ensures grown { IfOk result (HasGrown counts) }
    ensures answered { HandsInOne counts replica.old op result replica.new }
{
    let waiting = replica.waiting();
    match replica.take_op(op) {
        Ok(took) => Ok(count(counts, took, waiting < replica.waiting())),
        Err(why) => Err(why),
    }
}

// Takes in the letters that the operations begin with, if nothing waits and they are ready: their bytes are those then.
fn take_row(replica: &mut Replica, operations: &[Op], bytes: &mut Vec<u8>) -> bool
    ensures taken { result ≡ true → (typing : Typing) × (rest : List Operation)
        × AreTypedFirst (reverse operations.now) typing bytes.new.items rest
        × HasTakenAll replica.old (letters typing bytes.new.items) replica.new }
    ensures room { result ≡ true → replica.old.waiting_room ≡ [] }
    ensures is { IsText replica.old }
    ensures once { result ≡ true → AllPairs (λ a b. a ≢ b) replica.new.operations }
    ensures stays { result ≡ false → replica.new ≡ replica.old }
{
    replica.lemma_is_text();
    bytes.clear();
    if replica.waiting() > 0 {
        return false;
    }
    let Some(typing) = typed_first(operations, bytes) else {
        return false;
    };
    match replica.take_letters(&typing, bytes) {
        Ok(true) => {
            replica.lemma_are_taken_once();
            true
        }
        Ok(false) => false,
        Err(_) => false,
    }
}

// Hands in the first of the operations, which is the last one here.
fn hand_in_first(
    replica: &mut Replica,
    operations: &mut Vec<Op>,
    done: u64,
    counts: Unpacked,
) -> Result<(u64, Unpacked), UnpackRefusal>
    requires low { CountsAreLow done counts (length operations.old.items) }
    requires some { 0 < length operations.old.items }
    ensures ok { IfOk result (λ x. GoesOnTo done counts replica.old (reverse operations.old.items)
        x.0 x.1 replica.new (reverse operations.new.items)) }
    ensures refused { IfErr result (λ why.
        EndsRefused done counts replica.old (reverse operations.old.items) why replica.new) }
    ensures fewer { length operations.new.items < length operations.old.items }
{
    let Some(op) = operations.pop() else {
        unreachable!()
    };
    match hand_in(replica, op, counts) {
        Ok(more) => Ok((done + 1, more)),
        Err(why) => Err(refusal_after(done, why)),
    }
}

// Hands in some of the operations, of which the first one is the last here: a row of letters, or else one; so many of the next ones are
// known to be no such row.
fn hand_in_some(
    replica: &mut Replica,
    operations: &mut Vec<Op>,
    bytes: &mut Vec<u8>,
    single: &mut usize,
    done: u64,
    counts: Unpacked,
) -> Result<(u64, Unpacked), UnpackRefusal>
    requires low { CountsAreLow done counts (length operations.old.items) }
    requires some { 0 < length operations.old.items }
    ensures ok { IfOk result (λ x. GoesOnTo done counts replica.old (reverse operations.old.items)
        x.0 x.1 replica.new (reverse operations.new.items)) }
    ensures refused { IfErr result (λ why.
        EndsRefused done counts replica.old (reverse operations.old.items) why replica.new) }
    ensures fewer { length operations.new.items < length operations.old.items }
{
    if *single > 0 {
        *single -= 1;
        return hand_in_first(replica, operations, done, counts);
    }
    if !take_row(replica, operations, bytes) {
        *single = bytes.len().saturating_sub(1);
        return hand_in_first(replica, operations, done, counts);
    }
    let len = bytes.len();
    operations.truncate(operations.len().saturating_sub(len));
    let taken = counts.taken + len as u64;
    Ok((done + len as u64, Unpacked { taken, ..counts }))
}

// Hands in operations, one after the other.
fn hand_in_all(
    alloc: Global,
    replica: &mut Replica,
    operations: Vec<Op>,
) -> Result<Unpacked, UnpackRefusal>
    requires { length operations.items ≤ MAX_CHUNK }
    ensures { (short : Bool) × HandsInAll replica.old operations.items short result replica.new }
{
    let mut left = operations;
    left.reverse();
    let mut bytes = Vec::new(alloc);
    let mut single = 0;
    let mut done = 0;
    let mut counts = Unpacked {
        taken: 0,
        known: 0,
        waiting: 0,
        stopped: false,
    };
    while !left.is_empty() {
        match hand_in_some(replica, &mut left, &mut bytes, &mut single, done, counts) {
            Ok((so_many, more)) => {
                done = so_many;
                counts = more;
            }
            Err(refused) => return Err(refused),
        }
    }
    Ok(counts)
}

/// Hands in the operations of a chunk, one after the other, as `Replica::take_op` does; the whole chunk is read before. Where nothing
/// waits, letters that a site typed one after the other are taken in at once.
///
/// Refused, with nothing done, `Malformed` where the bytes are no chunk, `WrongText` where it is another text's, and as its
/// first operation is. Where a later one is refused, those before it stand. `OutOfMemory` comes in the place of
/// `Malformed` only where the bytes begin as a chunk.
pub fn unpack(alloc: Global, replica: &mut Replica, bytes: &[u8]) -> Result<Unpacked, UnpackRefusal>
    ensures { Unpacks replica.old bytes.now result replica.new ⊎ UnpacksShort replica.old bytes.now result replica.new }
{
    match read_chunk(alloc, bytes) {
        Ok(chunk) if chunk.text != replica.text() => Err(UnpackRefusal::Whole(Refusal::WrongText)),
        Ok(chunk) => hand_in_all(alloc, replica, chunk.operations),
        Err(why) => Err(UnpackRefusal::Whole(why)),
    }
}
