ghost use Rattle.std.specs.Prelude.{◌≡◌, ℕ, ◌<◌, ◌↔◌, IsTrue};
ghost use Rattle.char_files.specs.CharName.{CharName};
ghost use Rattle.operations.specs.NameSet.{IsAmong};
ghost use Rattle.operations.specs.Operation.{Operation, Mentions, Begins};
ghost use Rattle.set_laws.specs.Fronts.{IsHere};
ghost use Rattle.set_laws.specs.Verdict.{IsNew, FollowsOn, FitsFile, HasForeignNames, IsAboveCauses, HasVerdict};
ghost use Rattle.waiting_room.specs.Judged.{verdict_of, HasOwnNamesBelow, HasLowerInsert, HaveLowerInserts};
ghost use Rattle.waiting_room.specs.Judged.{IsAboveInserts, IsAbovePredecessor};

use crate::held::Held;
use crate::mentions::mentions_past;
use crate::missing::{is_here, last_name, missing_name};
use char_files::{Anchor, Name};
use operations::{Kind, NameSet, Op};

/// What becomes of an operation that is handed in.
#[derive(Clone, Copy, Debug, PartialEq, Eq)]
pub enum Verdict {
    /// It waits for its predecessor, or for the Insert of another site's name.
    Wait,
    /// It is refused: its offset isn't the end of its site's file, or it names an own character after that
    /// end (refusal 4).
    Misfit,
    /// It is refused: its stamp isn't above each cause's (refusal 5).
    LowStamp,
    /// It may be taken in.
    Ready,
}

/// Whether the operation's predecessor is held, if it needs one.
pub(crate) fn follows_on<H: Held>(op: &Op, held: &H) -> bool
    requires { IsNew (H.ops held.now) op.now }
    ensures { IsTrue result ↔ FollowsOn (H.ops held.now) op.now }
{
    held.lemma_are_good();
    op.seq() - 1 <= held.front(op.site())
}

// Whether the names of its own site that the operation mentions stand below this end of its file.
fn has_own_names_below(op: &Op, len: u32) -> bool
    ensures { IsTrue result ↔ HasOwnNamesBelow op.now len }
{
    !mentions_past(op, op.site(), len)
}

/// Whether what the operation says of its own site's file is so.
pub(crate) fn fits_file<H: Held>(op: &Op, held: &H) -> bool
    ensures { IsTrue result ↔ FitsFile (H.ops held.now) op.now }
{
    let len = held.file_len(op.site());
    op.begins_at(u64::from(len)) && has_own_names_below(op, len)
}

// Whether the names of other sites that the operation mentions are here.
fn has_foreign_names<H: Held>(op: &Op, held: &H) -> bool
    ensures { IsTrue result ↔ HasForeignNames (H.ops held.now) op.now }
{
    missing_name(op, held).is_none()
}

// Whether the name is here, and its Insert's stamp is lower.
fn has_lower_insert<H: Held>(name: Name, stamp: u64, held: &H) -> bool
    ensures { IsTrue result ↔ HasLowerInsert (H.ops held.now) stamp name }
{
    is_here(name, held) && held.name_stamp(name) < stamp
}

// Whether the names are here, and their Inserts' stamps are lower. Stamps rise along a site's file, so a range's last
// name decides.
fn have_lower_inserts<H: Held>(names: &NameSet, stamp: u64, held: &H) -> bool
    ensures { IsTrue result ↔ HaveLowerInserts (H.ops held.now) stamp (IsAmong names.now) }
{
    held.lemma_are_good();
    names
        .ranges()
        .iter()
        .all(|range| has_lower_insert(last_name(*range), stamp, held))
}

// Whether the names that the operation mentions are here, and their Inserts' stamps are lower.
fn is_above_inserts<H: Held>(op: &Op, held: &H) -> bool
    ensures { IsTrue result ↔ IsAboveInserts (H.ops held.now) op.now }
{
    match op.kind() {
        Kind::Insert { cause, .. } => match *cause {
            Anchor::Root => true,
            Anchor::At(name) => has_lower_insert(name, op.stamp(), held),
        },
        Kind::Delete { names } | Kind::Restore { names } | Kind::ChangeLooks { names, .. } => {
            have_lower_inserts(names, op.stamp(), held)
        }
    }
}

// Whether the stamp of the operation's predecessor is lower, if it has one.
fn is_above_predecessor<H: Held>(op: &Op, held: &H) -> bool
    requires new { IsNew (H.ops held.now) op.now }
    requires follows { FollowsOn (H.ops held.now) op.now }
    ensures { IsTrue result ↔ IsAbovePredecessor (H.ops held.now) op.now }
{
    op.seq() == 1 || held.op_stamp(op.site(), op.seq() - 1) < op.stamp()
}

// Whether the operation's stamp is above those of its causes.
fn is_above_causes<H: Held>(op: &Op, held: &H) -> bool
    requires new { IsNew (H.ops held.now) op.now }
    requires follows { FollowsOn (H.ops held.now) op.now }
    requires here { (name : CharName) → Mentions op.now name → IsHere (H.ops held.now) name }
    ensures { IsTrue result ↔ IsAboveCauses (H.ops held.now) op.now }
{
    held.lemma_are_good();
    is_above_predecessor(op, held) && is_above_inserts(op, held)
}

/// The verdict on an operation whose identity isn't held.
///
/// It is asked in this order: whether its predecessor is held, else it waits; whether it begins at the end of
/// its site's file, and its own names stand below that, else it is refused; whether the Inserts of other
/// sites' names are held, else it waits; whether its stamp is above its causes', else it is refused.
pub fn judge<H: Held>(op: &Op, held: &H) -> Verdict
    requires { IsNew (H.ops held.now) op.now }
    ensures { HasVerdict (H.ops held.now) op.now (verdict_of result) }
{
    if !follows_on(op, held) {
        return Verdict::Wait;
    }
    if !fits_file(op, held) {
        return Verdict::Misfit;
    }
    if !has_foreign_names(op, held) {
        return Verdict::Wait;
    }
    if !is_above_causes(op, held) {
        return Verdict::LowStamp;
    }
    Verdict::Ready
}
