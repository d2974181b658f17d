//! A replica takes in the operations of a log.

ghost use Rattle.std.specs.Prelude.{◌≡◌, [], ◌∷◌, ◌++◌, OnErr, OnOk};
ghost use Rattle.looks.specs.Refusal.{RefusedForMemoryAlone};
ghost use Rattle.set_laws.specs.Verdict.{ready};
ghost use Rattle.texts.specs.Taking.{IsJudged};
ghost use Rattle.note_laws.specs.Laws.{AreReadyInTurn};
ghost use Rattle.note_replicas.specs.Following.{Advances, HasTakenBeginning, HasTakenJust, IsOfPlace};

use looks::Refusal;
use op_log::Log;
use operations::Op;
use texts::Replica;

// Takes in an operation that is ready, where nothing waits. Refused `OutOfMemory` alone, and then all is as before.
fn take_ready(replica: &mut Replica, op: Op) -> Result<(), Refusal>
    requires ready { IsJudged replica.old op ready }
    requires room { replica.old.waiting_room ≡ [] }
    ensures ok { OnOk result (HasTakenJust replica.new (replica.old.operations ++ op ∷ [])) }
    ensures place { IsOfPlace replica.old replica.new }
    ensures on { Advances replica.old replica.new }
    ensures err { OnErr result (replica.new ≡ replica.old) }
    ensures errors { RefusedForMemoryAlone result }
{
    replica.lemma_is_text();
    match replica.take_op(op) {
        Ok(_) => Ok(()),
        Err(why) => Err(why),
    }
}

/// Takes in the rest of a log, of which the replica took in the first operations. Refused `OutOfMemory` alone, and then a part of
/// the rest is taken in.
pub fn take_rest(replica: &mut Replica, log: &Log) -> Result<(), Refusal>
    requires ready { AreReadyInTurn replica.old.text log.now.ops }
    requires begun { HasTakenBeginning replica.old log.now.ops }
    ensures ok { OnOk result (HasTakenJust replica.new log.now.ops) }
    ensures place { IsOfPlace replica.old replica.new }
    ensures on { Advances replica.old replica.new }
    ensures err { OnErr result (HasTakenBeginning replica.new log.now.ops) }
    ensures errors { RefusedForMemoryAlone result }
{
    while replica.taken_len() < log.len() {
        let op = log.op(replica.taken_len())?;
        take_ready(replica, op)?;
    }
    Ok(())
}
