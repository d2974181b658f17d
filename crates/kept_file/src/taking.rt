//! Operations of a file, taken in where nothing waits.

ghost use Rattle.std.specs.Prelude.{◌≡◌, ◌⊎◌, [], IfErr, IsErrOf, OnOk};
ghost use Rattle.set_laws.specs.Verdict.{ready};
ghost use Rattle.texts.specs.Taking.{HasTaken, IsJudged};
ghost use Rattle.kept_file.specs.Parts.{WasTaken};

use looks::Refusal;
use operations::Op;
use texts::{Replica, Took};

/// So many changes are noted at most while a file is loaded, beside those of one operation or row of letters.
pub(crate) const MOST_NOTED: usize = 1_024;

/// Why a file is refused, one of whose operations is refused for this.
pub(crate) fn refusal_of_file(why: Refusal) -> Refusal
    ensures short { (why ≡ Refusal.OutOfMemory) → result ≡ Refusal.OutOfMemory }
    ensures value { (result ≡ Refusal.BadFile) ⊎ (result ≡ Refusal.OutOfMemory) }
{
    match why {
        Refusal::OutOfMemory { .. } => why,
        _ => Refusal::BadFile,
    }
}

// What a file's operation does is that it is taken in. Refused `BadFile` alone.
fn only_taken(took: Took) -> Result<(), Refusal>
    ensures ok { OnOk result (WasTaken took) }
    ensures errors { IfErr result (λ e. (e ≡ Refusal.BadFile) × (¬ WasTaken took)) }
{
    match took {
        Took::Taken { .. } => Ok(()),
        Took::Repeat | Took::Waits => Err(Refusal::BadFile),
    }
}

/// Takes in an operation. Refused `BadFile` where it isn't ready.
pub(crate) fn take_ready(replica: &mut Replica, op: Op) -> Result<(), Refusal>
    requires { replica.old.waiting_room ≡ [] }
    ensures ok { OnOk result (HasTaken replica.old op replica.new) }
    ensures refused { IsErrOf result Refusal.BadFile → IsJudged replica.old op ready → ⊥ }
    ensures errors { IfErr result (λ e. (e ≡ Refusal.BadFile) ⊎ (e ≡ Refusal.OutOfMemory)) }
{
    match replica.take_op(op) {
        Ok(took) => only_taken(took),
        Err(why) => Err(refusal_of_file(why)),
    }
}
