//! What other sites made is taken into a session.

ghost use Rattle.std.specs.Prelude.{◌≡◌, Ok, false};
ghost use Rattle.vialshoal_c.specs.Feeding.{ForgetsWaiting, MergesIn, SessionTakesIn, Settles, UnpacksIn};
ghost use Rattle.vialshoal_c.specs.Feeding.{merged_by, number_of_merge, number_of_taking, number_of_unpacking};
ghost use Rattle.vialshoal_c.specs.Feeding.{taking_of, unpacking_of, unpacking_refused_after};

use crate::numbers::{IS_REPEAT, IS_TAKEN, IS_WAITING};
use crate::outputs::{Settling, Taking, Unpacking};
use crate::session::Session;
use looks::{OUT_OF_MEMORY, Refusal};
use std::alloc::Global;
use text_chunks::{UnpackRefusal, Unpacked, unpack};
use texts::{MergeRefusal, Settled, Took};

/// The answer to a message: its number, and what the taking did.
#[derive(Clone, Copy)]
pub(crate) struct Answered {
    pub(crate) number: u32,
    pub(crate) taking: Taking,
}

/// The answer to a chunk: its number, and what the unpacking did.
#[derive(Clone, Copy)]
pub(crate) struct Handed {
    pub(crate) number: u32,
    pub(crate) unpacking: Unpacking,
}

/// A merge's answer: its number, and how many operations were taken in.
#[derive(Clone, Copy)]
pub(crate) struct Merged {
    pub(crate) number: u32,
    pub(crate) taken: u64,
}

// A taking that drained nothing.
fn undrained(kind: u32) -> Taking
    ensures { result ≡ record { kind = kind; drained = 0; dropped = 0; stopped = false } }
{
    Taking {
        kind,
        drained: 0,
        dropped: 0,
        stopped: false,
    }
}

// What a message did that wasn't refused.
fn taking_of(took: Took) -> Taking
    ensures { result ≡ taking_of (Ok took) }
{
    match took {
        Took::Taken {
            drained,
            dropped,
            stopped,
        } => Taking {
            kind: IS_TAKEN,
            drained,
            dropped,
            stopped,
        },
        Took::Repeat => undrained(IS_REPEAT),
        Took::Waits => undrained(IS_WAITING),
    }
}

// What a replica answered to a message.
fn answer_of(answer: Result<Took, Refusal>) -> Answered
    ensures { (result.number ≡ number_of_taking answer) × (result.taking ≡ taking_of answer) }
{
    match answer {
        Ok(took) => Answered {
            number: 0,
            taking: taking_of(took),
        },
        Err(why) => Answered {
            number: u32::from(why.number()),
            taking: undrained(0),
        },
    }
}

// What a chunk did that was refused after so many of its operations.
fn refused_after(done: u64) -> Unpacking
    ensures { result ≡ unpacking_refused_after done }
{
    Unpacking {
        taken: 0,
        known: 0,
        waiting: 0,
        done,
        stopped: false,
    }
}

// What a chunk did that wasn't refused.
fn unpacking_of(unpacked: Unpacked) -> Unpacking
    ensures { result ≡ unpacking_of (Ok unpacked) }
{
    let Unpacked {
        taken,
        known,
        waiting,
        stopped,
    } = unpacked;
    Unpacking {
        taken,
        known,
        waiting,
        done: 0,
        stopped,
    }
}

// What a replica answered to a chunk.
fn handed_of(answer: Result<Unpacked, UnpackRefusal>) -> Handed
    ensures { (result.number ≡ number_of_unpacking answer) × (result.unpacking ≡ unpacking_of answer) }
{
    match answer {
        Ok(unpacked) => Handed {
            number: 0,
            unpacking: unpacking_of(unpacked),
        },
        Err(UnpackRefusal::Whole(why)) => Handed {
            number: u32::from(why.number()),
            unpacking: refused_after(0),
        },
        Err(UnpackRefusal::Partial { done, why }) => Handed {
            number: u32::from(why.number()),
            unpacking: refused_after(done),
        },
    }
}

// What a replica answered to a merge.
fn merge_of(answer: Result<u64, MergeRefusal>) -> Merged
    ensures { (result.number ≡ number_of_merge answer) × (result.taken ≡ merged_by answer) }
{
    match answer {
        Ok(taken) => Merged { number: 0, taken },
        Err(MergeRefusal::Whole(why)) => Merged {
            number: u32::from(why.number()),
            taken: 0,
        },
        Err(MergeRefusal::Stopped { done, .. }) => Merged {
            number: u32::from(OUT_OF_MEMORY),
            taken: done,
        },
    }
}

impl Session {
    /// Takes in a message of any site, or lets it wait.
    pub(crate) fn take(&mut self, message: &[u8]) -> Answered
        ensures { SessionTakesIn self.old message.now result.number result.taking self.new }
    {
        answer_of(self.replica.take(message))
    }

    /// Takes in the operations of a chunk, or lets them wait.
    pub(crate) fn unpack(&mut self, alloc: Global, chunk: &[u8]) -> Handed
        ensures { UnpacksIn self.old chunk.now result.number result.unpacking self.new }
    {
        handed_of(unpack(alloc, &mut self.replica, chunk))
    }

    /// Takes in what waits, as far as it is ready.
    pub(crate) fn settle(&mut self) -> Settling
        ensures { Settles self.old 0 result.drained result.dropped result.stopped self.new }
    {
        let Settled {
            drained,
            dropped,
            stopped,
        } = self.replica.settle();
        Settling {
            drained,
            dropped,
            stopped,
        }
    }

    /// Forgets what waits, and answers how much it was.
    pub(crate) fn forget(&mut self) -> u32
        ensures { ForgetsWaiting self.old 0 result self.new }
    {
        self.replica.forget_waiting()
    }

    /// Takes in what another session's text holds.
    pub(crate) fn merge(&mut self, other: &Session) -> Merged
        ensures { MergesIn self.old other.now result.number result.taken self.new }
    {
        merge_of(self.replica.merge_from(&other.replica))
    }
}
