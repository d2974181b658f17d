//! Which of some names are those of characters that are shown, or that are hidden.

ghost use Rattle.std.specs.Prelude.{◌≡◌, ◌<◌, ◌≤◌, ◌⊎◌, ◌++◌, length, filter, IfErr, IfOk, IsErrOf, OnErr, OnOk};
ghost use Rattle.std.specs.List.{list_any};
ghost use Rattle.looks.specs.Refusal.{RefusedForMemoryAlone};
ghost use Rattle.char_files.specs.CharName.{CharName};
ghost use Rattle.operations.specs.NameSet.{IsAmong, IsIn, names_in, names_of};
ghost use Rattle.operations.specs.declared.name_set.TheConstants.{MAX_RANGES};
ghost use Rattle.tree_order.specs.Shown.{is_visible};
ghost use Rattle.tree_order.specs.Tree.{IsChar};
ghost use Rattle.taken_text.specs.Named.{has_visibility, names_with};

use crate::joining::{joined, push_joined};
use crate::taken_text::TakenText;
use char_files::Name;
use looks::Refusal;
use operations::{NameRange, NameSet};

impl TakenText {
    // Whether the first character of these names is shown, and how many of the first ones are alike: those of a piece.
    fn first_alike(&self, range: NameRange) -> (bool, u32)
        requires { (c : CharName) → IsIn range c → IsChar self.now.operations c }
        ensures some { 0 < result.1 }
        ensures within { result.1 ≤ range.len }
        ensures alike { (c : CharName) → IsIn (record range { len = result.1 }) c
            → is_visible self.now.operations c ≡ result.0 }
    {
        let (at, len) = (range.at(), range.len());
        let Some(name) = Name::new(range.site(), at) else {
            unreachable!()
        };
        let (hidden, next) = self.pieces.hidden_from(name);
        (!hidden, (next - at).min(len))
    }

    // Whether a character of these names is shown, or is hidden.
    fn has_in(&self, range: NameRange, visible: bool) -> bool
        requires { (c : CharName) → IsIn range c → IsChar self.now.operations c }
        ensures { result ≡ list_any (has_visibility self.now.operations visible) (names_of range) }
    {
        let end = range.at() + range.len();
        let mut at = range.at();
        while at < end {
            let (shown, len) = self.first_alike(NameRange::new(range.site(), at, end - at));
            if shown == visible {
                return true;
            }
            at += len;
        }
        false
    }

    // Puts those of these names after others whose characters are shown, or are hidden. Refused `OutOfMemory` alone.
    fn gather_from(
        &self,
        range: NameRange,
        visible: bool,
        found: &mut Vec<NameRange>,
    ) -> Result<(), Refusal>
        requires { (c : CharName) → IsIn range c → IsChar self.now.operations c }
        ensures ok { OnOk result (names_in found.new.items ≡ names_in found.old.items
            ++ filter (has_visibility self.now.operations visible) (names_of range)) }
        ensures errors { RefusedForMemoryAlone result }
    {
        let end = range.at() + range.len();
        let mut at = range.at();
        while at < end {
            let (shown, len) = self.first_alike(NameRange::new(range.site(), at, end - at));
            if shown == visible {
                push_joined(found, NameRange::new(range.site(), at, len))?;
            }
            at += len;
        }
        Ok(())
    }

    /// Whether a character of these names is shown, or is hidden. One step a piece of each range, each found by one entry of a
    /// table; it takes no memory.
    pub fn has_any(&self, names: &[NameRange], visible: bool) -> bool
        requires { (c : CharName) → IsAmong names.now c → IsChar self.now.operations c }
        ensures { result ≡ list_any (has_visibility self.now.operations visible) (names_in names.now) }
    {
        for range in names {
            if self.has_in(*range, visible) {
                return true;
            }
        }
        false
    }

    /// Those of these names, in any order and perhaps repeated, whose characters are shown, or are hidden, as a set. One step a
    /// piece.
    ///
    /// Refused `Scattered` where they make more than 1,024 ranges, and `OutOfMemory`, which may come before it.
    pub fn names_with(&self, names: &[NameRange], visible: bool) -> Result<NameSet, Refusal>
        requires { (c : CharName) → IsAmong names.now c → IsChar self.now.operations c }
        ensures ok { IfOk result (λ set. set ≡ names_with self.now.operations visible names.now) }
        ensures scattered { IsErrOf result Refusal.Scattered
            → MAX_RANGES < length (names_with self.now.operations visible names.now) }
        ensures errors { IfErr result (λ e. (e ≡ Refusal.Scattered) ⊎ (e ≡ Refusal.OutOfMemory)) }
    {
        let ranges = joined(self.alloc, names)?;
        let mut found = Vec::new(self.alloc);
        for range in &ranges {
            self.gather_from(*range, visible, &mut found)?;
        }
        NameSet::of_all(found)
    }
}
