//! The names of what is shown between two positions.

ghost use Rattle.std.specs.Prelude.{◌≡◌, ◌+◌, ◌^◌, ◌<◌, ◌≤◌, List, ◌∷◌, ◌++◌, length, OnOk, IfOk, IfErr, IsTrue};
ghost use Rattle.char_files.specs.CharName.{CharName};
ghost use Rattle.operations.specs.NameSet.{of_name, touches, with_first};
ghost use Rattle.machine.specs.NamesShown.{name_line, name_lines, named_stretches, ranges_of, shown_from};
ghost use Rattle.machine.specs.OnTexts.{Prints, is_asked_in, query_refusal};
ghost use Rattle.machine.specs.declared.asked.Query.TheVariants.{Names};
ghost use Rattle.texts.specs.TextState.{shown_of};

use crate::editing::has_range;
use crate::printing::{put_number, put_word};
use char_files::Name;
use looks::Refusal;
use operations::NameRange;
use std::alloc::{AllocError, Global};
use texts::Replica;

// Names that follow one another, shown one after the other, and the position of the first of them.
#[derive(Drop)]
struct NameRow {
    pos: u64,
    names: NameRange,
}

// The name alone.
fn alone(name: Name) -> NameRange
    ensures { result ≡ of_name name }
{
    NameRange::new(name.site(), name.off(), 1)
}

// Whether a name follows the last of these.
fn is_next(names: NameRange, name: Name) -> bool
    ensures { result ≡ touches names (of_name name) }
{
    // All of them are within the site's file, so the end is.
    let len = names.len();
    names.site().get() == name.site().get() && names.at() + len == name.off()
}

// Appends the line of a stretch. After an `Err` of this and of the others that append, some of it may stand there.
fn put_stretch(out: &mut Vec<u8>, stretch: &NameRow) -> Result<(), AllocError>
    ensures { OnOk result (out.new.items
        ≡ out.old.items ++ name_line (record { pos = stretch.now.pos; names = stretch.now.names })) }
{
    out.extend_from_slice(b"name ")?;
    put_word(out, stretch.pos)?;
    put_word(out, u64::from(stretch.names.site().get()))?;
    put_word(out, u64::from(stretch.names.at()))?;
    put_number(out, u64::from(stretch.names.len()))?;
    out.push(b'\n')?;
    Ok(())
}

// Goes on to the name that is shown next: the stretch has one more, or its line is put and another begins.
fn go_on(out: &mut Vec<u8>, stretch: &mut NameRow, name: Name) -> Result<(), AllocError>
    requires { stretch.old.pos + stretch.old.names.len < 2 ^ 64 }
    ensures end { OnOk result (stretch.new.pos + stretch.new.names.len ≡ stretch.old.pos + stretch.old.names.len + 1) }
    ensures lines { OnOk result ((names : List CharName)
        → out.new.items ++ name_lines (shown_from stretch.new.pos (with_first stretch.new.names (ranges_of names)))
        ≡ out.old.items ++ name_lines (shown_from stretch.old.pos (with_first stretch.old.names (ranges_of (name ∷ names))))) }
{
    let names = stretch.names;
    let len = names.len();
    if is_next(names, name) {
        stretch.names = NameRange::new(names.site(), names.at(), len + 1);
        return Ok(());
    }
    put_stretch(out, stretch)?;
    *stretch = NameRow {
        pos: stretch.pos + u64::from(len),
        names: alone(name),
    };
    Ok(())
}

// Appends the lines of what is shown from one position to another.
fn put_names(out: &mut Vec<u8>, replica: &Replica, beg: u64, end: u64) -> Result<(), AllocError>
    requires rising { beg ≤ end }
    requires in_text { end ≤ length (shown_of replica.now) }
    ensures { OnOk result (out.new.items ≡ out.old.items ++ name_lines (named_stretches (shown_of replica.now) beg end)) }
{
    let mut chars = replica.shown_between(beg, end);
    let Some(first) = chars.next() else {
        return Ok(());
    };
    let mut stretch = NameRow {
        pos: beg,
        names: alone(first.name),
    };
    for char in chars {
        go_on(out, &mut stretch, char.name)?;
    }
    put_stretch(out, &stretch)
}

// The lines that print the names of what is shown from one position to another.
pub(crate) fn names_lines(
    alloc: Global,
    replica: &Replica,
    beg: u64,
    end: u64,
) -> Result<Vec<u8>, Refusal>
    ensures ok { IfOk result (λ lines. IsTrue (is_asked_in replica.now (Names beg end))
        × Prints (Names beg end) replica.now lines.items) }
    ensures errors { IfErr result (λ why. why ≡ query_refusal replica.now (Names beg end)) }
{
    if !has_range(replica, beg, end) {
        return Err(Refusal::OutOfRange);
    }
    let mut lines = Vec::new(alloc);
    put_names(&mut lines, replica, beg, end)?;
    lines.extend_from_slice(b"ok\n")?;
    Ok(lines)
}
