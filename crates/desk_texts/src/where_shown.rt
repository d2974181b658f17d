//! Where the characters of a site's names are shown.

ghost use Rattle.std.specs.Prelude.{◌≡◌, ◌+◌, ◌-◌, ◌<◌, ◌≤◌, ◌↔◌, [], ◌∷◌, ◌++◌, length, Some, OnOk, IfOk, IsTrue};
ghost use Rattle.looks.specs.Refusal.{RefusedForMemoryAlone};
ghost use Rattle.operations.specs.NameSet.{names_of};
ghost use Rattle.machine.specs.OnTexts.{Prints};
ghost use Rattle.machine.specs.declared.asked.Query.TheVariants.{WhereShown};
ghost use Rattle.machine.specs.WhereShown.{shown_at, shown_line, shown_lines, shown_ranges};
ghost use Rattle.texts.specs.TextState.{shown_of};

use crate::printing::{put_shown, put_word};
use char_files::{Anchor, Name};
use looks::Refusal;
use operations::NameRange;
use std::alloc::{AllocError, Global};
use texts::Replica;

// A range's name after so many others.
fn name_in(names: NameRange, within: u32) -> Name
    requires { within < names.len }
    ensures { result ≡ record { site = names.site; off = names.at + within } }
{
    // All of them are within the site's file.
    let _ = names.len();
    Name::new(names.site(), names.at() + within).unwrap()
}

// Whether two names are the same.
fn are_same(name: Name, other: Name) -> bool
    ensures { IsTrue result ↔ ((name.site ≡ other.site) × (name.off ≡ other.off)) }
{
    name.site().get() == other.site().get() && name.off() == other.off()
}

// Where the character of a name is shown.
fn shown_at(replica: &Replica, name: Name) -> Option<u64>
    ensures { result ≡ shown_at (shown_of replica.now) name }
{
    replica.lemma_is_text();
    let place = replica.position(Anchor::At(name))?;
    match replica.anchor_after(place) {
        // Of a hidden character another one stands there.
        Anchor::At(other) if are_same(other, name) => Some(place - 1),
        _ => None,
    }
}

// How many of a range's names are shown one after the other, of which the first is shown here.
fn run_len(replica: &Replica, names: NameRange, pos: u64) -> u32
    requires { shown_at (shown_of replica.now) (record { site = names.site; off = names.at }) ≡ Some pos }
    ensures some { 0 < result }
    ensures within { result ≤ names.len }
    ensures in_text { pos + result ≤ length (shown_of replica.now) }
    ensures longest { shown_ranges (shown_of replica.now) (names_of names)
        ≡ record { at = names.at; pos = pos; len = result } ∷ shown_ranges (shown_of replica.now)
        (names_of (record { site = names.site; at = names.at + result; len = names.len - result })) }
{
    replica.lemma_is_text();
    // A walk that went on after the names would step over all that is hidden there.
    let most = u64::from(names.len()).min(replica.shown_len() - pos);
    let mut len = 0;
    for char in replica.shown_between(pos, pos + most) {
        if !are_same(char.name, name_in(names, len)) {
            return len;
        }
        len += 1;
    }
    len
}

// Appends the line of names that stand so. After an `Err` of this and of the other that appends, some of it may stand
// there.
fn put_shown_range(
    out: &mut Vec<u8>,
    replica: &Replica,
    at: u32,
    pos: u64,
    len: u32,
) -> Result<(), AllocError>
    requires { pos + len ≤ length (shown_of replica.now) }
    ensures { OnOk result (out.new.items
        ≡ out.old.items ++ shown_line (shown_of replica.now) (record { at = at; pos = pos; len = len })) }
{
    // How many characters are shown fits a `u64`, so the end of these does.
    let _ = replica.shown_len();
    out.extend_from_slice(b"shown ")?;
    put_word(out, u64::from(at))?;
    put_word(out, pos)?;
    put_word(out, u64::from(len))?;
    put_shown(out, replica, pos, pos + u64::from(len))?;
    out.push(b'\n')?;
    Ok(())
}

// Appends the line of the first names of a range, if they are shown, and tells how many names it is done with.
fn put_first(out: &mut Vec<u8>, replica: &Replica, names: NameRange) -> Result<u32, AllocError>
    ensures { IfOk result (λ done. (0 < done) × (done ≤ names.len)
        × (out.new.items ++ shown_lines (shown_of replica.now)
        (names_of (record { site = names.site; at = names.at + done; len = names.len - done }))
        ≡ out.old.items ++ shown_lines (shown_of replica.now) (names_of names))) }
{
    match shown_at(replica, name_in(names, 0)) {
        Some(pos) => {
            let len = run_len(replica, names, pos);
            put_shown_range(out, replica, names.at(), pos, len)?;
            Ok(len)
        }
        None => Ok(1),
    }
}

// The lines that print where names are shown.
pub(crate) fn where_lines(
    alloc: Global,
    replica: &Replica,
    names: NameRange,
) -> Result<Vec<u8>, Refusal>
    ensures ok { IfOk result (λ lines. Prints (WhereShown names) replica.now lines.items) }
    ensures errors { RefusedForMemoryAlone result }
{
    let mut lines = Vec::new(alloc);
    let mut done = 0;
    while done < names.len() {
        let left = NameRange::new(names.site(), names.at() + done, names.len() - done);
        done += put_first(&mut lines, replica, left)?;
    }
    lines.extend_from_slice(b"ok\n")?;
    Ok(lines)
}
