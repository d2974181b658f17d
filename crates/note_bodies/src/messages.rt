ghost use Rattle.std.specs.Prelude.{◌≡◌, ◌+◌, ◌↔◌, ◌⊎◌, IfOk, IfErr, IsTrue, Some, None, Err};
ghost use Rattle.std.specs.Prelude.{List, length};
ghost use Rattle.looks.specs.declared.refusal.Refusal.TheVariants as refusal;
ghost use Rattle.note_laws.specs.Note.{Saying as Said};
ghost use Rattle.note_bodies.specs.Bodies.{AreMessagesOf, CanHaveMessages, is_of_head, said_in_turn};

use crate::ons::{On, on_here, ons_at};
use byte_fields::u16_at;
use char_files::{SiteNo, TextNo};
use chunks::read_chunk;
use looks::Refusal;
use note_entries::{Hash, Saying};
use note_hashes::NoteKey;
use operations::Op;
use std::alloc::Global;

/// The texts of a note have the numbers from 1 up to this one.
pub const TEXTS: u16 = 16;

/// The greatest number that a note's site may have.
pub const MAX_SITE: u16 = 65_528;

/// The head of an opened entry of messages.
#[derive(Clone, Copy, Debug)]
pub struct Head {
    /// Its author's key.
    pub author: Hash,
    pub site: SiteNo,
    pub text: TextNo,
    /// The seq of its first message.
    pub first: u32,
    /// How many messages it has.
    pub count: u16,
    /// The hash of the message before its first one, zeros before seq 1.
    pub before: Hash,
}

// Whether an entry of messages may have such a head.
fn can_have_messages(head: &Head) -> bool
    ensures { IsTrue result ↔ CanHaveMessages head.now }
{
    let is_first = head.first == 1;
    let is_begun = head.before == Hash::new(0, 0);
    head.site.get() <= MAX_SITE
        && head.text.get() <= TEXTS
        && 0 < head.count
        && is_first == is_begun
}

// Whether an operation has the site and the seq of the message of this index.
fn is_of(head: &Head, index: usize, op: &Op) -> bool
    ensures { result ≡ is_of_head head.now index op.now }
{
    op.site() == head.site && head.first <= op.seq() && (op.seq() - head.first) as usize == index
}

// What an author says by these operations, each after the one before it. Refused `Malformed` where they aren't those of the head, and
// `OutOfMemory`.
fn say_in_turn(
    alloc: Global,
    key: &NoteKey,
    head: &Head,
    ons: &[On],
    operations: &[Op],
) -> Result<Vec<Saying>, Refusal>
    ensures ok { IfOk result (λ sayings. said_in_turn key.now head.now ons.now 0 head.now.before operations.now
        ≡ Some sayings.items) }
    ensures refused { result ≡ Err refusal.Malformed
        → said_in_turn key.now head.now ons.now 0 head.now.before operations.now ≡ None }
    ensures errors { IfErr result (λ why. (why ≡ refusal.Malformed) ⊎ (why ≡ refusal.OutOfMemory)) }
{
    let mut sayings = Vec::new(alloc);
    let mut before = head.before;
    let mut left = ons;
    for index in 0..operations.len() {
        let op = &operations[index];
        if !is_of(head, index, op) {
            return Err(Refusal::Malformed);
        }
        let (on, after) = on_here(left, index);
        left = after;
        let saying = key.saying(alloc, head.author, before, op.copy()?, on)?;
        before = saying.hash;
        sayings.push(saying)?;
    }
    Ok(sayings)
}

/// The messages of an opened entry, in their order, each with its hash.
///
/// Refused `Malformed` where the body isn't one of such an entry, and `OutOfMemory`.
pub fn messages_of(
    alloc: Global,
    key: &NoteKey,
    head: &Head,
    body: &[u8],
) -> Result<Vec<Saying>, Refusal>
    ensures ok { IfOk result (λ sayings. AreMessagesOf key.now head.now body.now sayings.items) }
    ensures refused { result ≡ Err refusal.Malformed → (sayings : List Said) → ¬ AreMessagesOf key.now head.now body.now sayings }
    ensures errors { IfErr result (λ why. (why ≡ refusal.Malformed) ⊎ (why ≡ refusal.OutOfMemory)) }
{
    if !can_have_messages(head) {
        return Err(Refusal::Malformed);
    }
    let Some((count, rest)) = u16_at(body) else {
        return Err(Refusal::Malformed);
    };
    let (ons, rest) = ons_at(alloc, count, head.count, rest)?;
    let chunk = read_chunk(alloc, rest)?;
    if chunk.text != head.text || chunk.operations.len() != head.count as usize {
        return Err(Refusal::Malformed);
    }
    say_in_turn(alloc, key, head, &ons, &chunk.operations)
}
