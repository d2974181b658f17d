ghost use Rattle.std.specs.Prelude.{◌≡◌, ◌≢◌, ◌↔◌, AllPairs, Contains};
ghost use Rattle.std.specs.Iterator.{YieldsFirst, item_count};
ghost use Rattle.char_files.specs.CharName.{CharName};
ghost use Rattle.operations.specs.Operation.{Mentions, mentioned_names};

use crate::kind::Kind;
use crate::name_set::NameRange;
use crate::op::Op;
use char_files::{Anchor, Name};
use std::marker::Model;

// The function is `named`; a type `Named` beside it would differ in case alone, which the toolchain refuses.

/// The names that an operation mentions, one after the other, without memory.
#[derive(Drop)]
pub struct NameWalk<'a> {
    // What is left of the range at hand.
    range: Option<NameRange>,
    // The ranges after it.
    ranges: &'a [NameRange],
}

impl<'a> Model for NameWalk<'a> {
    ghost use Rattle.std.specs.Prelude.{List, ◌++◌};
    ghost use Rattle.std.specs.Option.{option_to_list};
    ghost use Rattle.char_files.specs.CharName.{CharName};
    ghost use Rattle.operations.specs.NameSet.{names_in};

    ghost Value = { List CharName };

    ghost view = { λ w. names_in (option_to_list w.range ++ w.ranges.now) };
}

impl<'a> Iterator for NameWalk<'a> {
    type Item = Name;

    ghost next_gives = { YieldsFirst (λ names. names) };

    ghost remaining = { item_count (λ names. names) };

    fn next(&mut self) -> Option<Name> {
        let range = match self.range {
            Some(range) => range,
            None => {
                let (first, after) = self.ranges.split_first()?;
                self.ranges = after;
                *first
            }
        };
        self.range = range.others();
        range.first()
    }
}

/// Walks the names that the operation mentions, each once: the cause of an Insert, unless it is the root, or
/// the names of a set, rising.
pub fn named(op: &Op) -> NameWalk<'_>
    ensures names { result ≡ mentioned_names op.now }
    ensures all { (name : CharName) → Contains result name ↔ Mentions op.now name }
    ensures once { AllPairs (λ a b. a ≢ b) result }
{
    op.lemma_has_spelling();
    match op.kind() {
        Kind::Insert { cause, .. } => NameWalk {
            range: match *cause {
                Anchor::Root => None,
                Anchor::At(name) => Some(NameRange::of(name)),
            },
            ranges: &[],
        },
        Kind::Delete { names } | Kind::Restore { names } | Kind::ChangeLooks { names, .. } =>
            NameWalk {
                range: None,
                ranges: names.ranges(),
            },
    }
}
