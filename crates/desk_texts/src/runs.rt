ghost use Rattle.std.specs.Prelude.{◌≡◌, ℕ, List, [], ◌∷◌, ◌++◌, ◌^◌, ◌+◌, ◌<◌, ◌↔◌, OnOk, IfOk, IsTrue};
ghost use Rattle.std.specs.Fmt.{signed_decimal};
ghost use Rattle.looks.specs.Refusal.{RefusedForMemoryAlone};
ghost use Rattle.char_files.specs.Stretch.{Item};
ghost use Rattle.machine.specs.OnTexts.{Prints};
ghost use Rattle.machine.specs.declared.asked.Query.TheVariants.{Runs};
ghost use Rattle.machine.specs.Printing.{run_line};
ghost use Rattle.desk_texts.specs.RunSoFar.{HasRunsSoFar, ended_line};

use crate::printing::put_number;
use looks::{Looks, Refusal};
use std::alloc::{AllocError, Global};
use texts::Replica;

// The run that a walk over a text is in. It has no character where the walk begins.
#[derive(Drop)]
struct RunSoFar {
    looks: Looks,
    len: u64,
}

// Appends a number that may be negative. After an `Err` of this and of the others that append, some of it may
// stand there.
fn put_signed(out: &mut Vec<u8>, number: i8) -> Result<(), AllocError>
    ensures { OnOk result (out.new.items ≡ out.old.items ++ signed_decimal number) }
{
    out.extend_from_slice(itoa::Buffer::new().format(number).as_bytes())
}

// Appends the line of a run.
fn put_run(out: &mut Vec<u8>, looks: &Looks, len: u64) -> Result<(), AllocError>
    ensures { OnOk result (out.new.items ≡ out.old.items ++ run_line looks.now len) }
{
    out.extend_from_slice(b"run ")?;
    out.extend_from_slice(looks.font.as_bytes())?;
    out.push(b' ')?;
    put_number(out, u64::from(looks.colour.number()))?;
    out.push(b' ')?;
    put_signed(out, looks.offset)?;
    out.push(b' ')?;
    put_number(out, len)?;
    out.push(b'\n')?;
    Ok(())
}

// Appends the line of the run that ends here, if it has a character.
fn put_ended(out: &mut Vec<u8>, run: &RunSoFar) -> Result<(), AllocError>
    ensures { OnOk result (out.new.items ≡ out.old.items ++ ended_line run.now.looks run.now.len) }
{
    if run.len == 0 {
        return Ok(());
    }
    put_run(out, &run.looks, run.len)
}

// Whether two looks are the same.
fn are_same(looks: &Looks, other: &Looks) -> bool
    ensures { IsTrue result ↔ (looks.now ≡ other.now) }
{
    looks == other
}

// Goes on to a character of these looks: the run has one more, or it ends and another begins.
fn go_on(out: &mut Vec<u8>, run: &mut RunSoFar, looks: &Looks) -> Result<(), AllocError>
    requires { run.old.len + 1 < 2 ^ 64 }
    ensures { OnOk result ((items : List Item) (byte : ℕ)
        → HasRunsSoFar items out.old.items run.old.looks run.old.len
        → HasRunsSoFar (items ++ (byte, looks.now) ∷ []) out.new.items run.new.looks run.new.len) }
{
    if are_same(&run.looks, looks) {
        run.len += 1;
        return Ok(());
    }
    put_ended(out, run)?;
    *run = RunSoFar {
        looks: looks.copy(),
        len: 1,
    };
    Ok(())
}

// The lines that print a replica's runs of equal looks.
pub(crate) fn run_lines(alloc: Global, replica: &Replica) -> Result<Vec<u8>, Refusal>
    ensures ok { IfOk result (λ lines. Prints Runs replica.now lines.items) }
    ensures errors { RefusedForMemoryAlone result }
{
    // No run has more characters than there are, and these fit a `u64`.
    let _ = replica.shown_len();
    let mut lines = Vec::new(alloc);
    let mut run = RunSoFar {
        looks: Looks::plain(),
        len: 0,
    };
    for char in replica.shown() {
        go_on(&mut lines, &mut run, &char.looks)?;
    }
    put_ended(&mut lines, &run)?;
    lines.extend_from_slice(b"ok\n")?;
    Ok(lines)
}
