//! Which of the names that an operation mentions aren't here. A site's names that are here are the first of its file, so a
//! range's are where its last one is.

ghost use Rattle.std.specs.Prelude.{◌≡◌, ◌↔◌, IsTrue, IfSome, IfNone};
ghost use Rattle.operations.specs.NameSet.{IsAmong};
ghost use Rattle.operations.specs.Operation.{Mentions};
ghost use Rattle.set_laws.specs.Fronts.{IsHere};
ghost use Rattle.set_laws.specs.Verdict.{HasForeignNames};
ghost use Rattle.waiting_room.specs.Judged.{last_of, AreForeignHere, IsMissing};

use crate::held::Held;
use char_files::{Anchor, Name, SiteNo};
use operations::{Kind, NameRange, NameSet, Op};

/// The range's last name.
pub(crate) fn last_name(range: NameRange) -> Name
    ensures { result ≡ last_of range }
{
    Name::new(range.site(), range.at() + (range.len() - 1)).unwrap()
}

/// Whether the name's Insert is held.
pub(crate) fn is_here<H: Held>(name: Name, held: &H) -> bool
    ensures { IsTrue result ↔ IsHere (H.ops held.now) name }
{
    name.off() < held.file_len(name.site())
}

// Whether the name is another site's, and isn't here.
fn is_missing<H: Held>(name: Name, site: SiteNo, held: &H) -> bool
    ensures { IsTrue result ↔ IsMissing (H.ops held.now) site name }
{
    name.site() != site && !is_here(name, held)
}

// The first of the ranges' last names that is another site's, and isn't here.
fn missing_among<H: Held>(names: &NameSet, site: SiteNo, held: &H) -> Option<Name>
    ensures some { IfSome result (λ name. IsAmong names.now name × IsMissing (H.ops held.now) site name) }
    ensures none { IfNone result (AreForeignHere (H.ops held.now) site (IsAmong names.now)) }
{
    for range in names.ranges() {
        let name = last_name(*range);
        if is_missing(name, site, held) {
            return Some(name);
        }
    }
    None
}

// Whether the operation mentions the name.
fn mentions(op: &Op, name: Name) -> bool
    ensures { IsTrue result ↔ Mentions op.now name }
{
    match op.kind() {
        Kind::Insert { cause, .. } => match *cause {
            Anchor::Root => false,
            Anchor::At(cause) => cause == name,
        },
        Kind::Delete { names } | Kind::Restore { names } | Kind::ChangeLooks { names, .. } => {
            names.contains(name)
        }
    }
}

/// Whether the operation mentions the name of another site, and it isn't here.
pub(crate) fn misses<H: Held>(op: &Op, name: Name, held: &H) -> bool
    ensures { IsTrue result → Mentions op.now name × IsMissing (H.ops held.now) op.now.site name }
{
    is_missing(name, op.site(), held) && mentions(op, name)
}

/// A name of another site that the operation mentions and that isn't here.
pub(crate) fn missing_name<H: Held>(op: &Op, held: &H) -> Option<Name>
    ensures some { IfSome result (λ name. Mentions op.now name × IsMissing (H.ops held.now) op.now.site name) }
    ensures none { IfNone result (HasForeignNames (H.ops held.now) op.now) }
{
    match op.kind() {
        Kind::Insert { cause, .. } => match *cause {
            Anchor::Root => None,
            Anchor::At(name) => {
                if is_missing(name, op.site(), held) {
                    Some(name)
                } else {
                    None
                }
            }
        },
        Kind::Delete { names } | Kind::Restore { names } | Kind::ChangeLooks { names, .. } => {
            missing_among(names, op.site(), held)
        }
    }
}
