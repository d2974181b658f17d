ghost use Rattle.std.specs.Prelude.{◌≡◌, ◌≤◌, [], ◌∷◌, ◌++◌, length, slice_range, OnOk, IfOk};
ghost use Rattle.std.specs.Fmt.{decimal};
ghost use Rattle.hex.specs.Hex.{encode_lower};
ghost use Rattle.looks.specs.Refusal.{RefusedForMemoryAlone};
ghost use Rattle.machine.specs.OnTexts.{Prints};
ghost use Rattle.machine.specs.declared.asked.Query.TheVariants.{Front, Past};
ghost use Rattle.texts.specs.TextState.{shown_of};
ghost use Rattle.machine.specs.Printing.{front_line, print_of, printed_byte, text_lines, waiting_line};

use char_files::SiteNo;
use looks::Refusal;
use machine::Fronts;
use std::alloc::{AllocError, Global};
use texts::Replica;

// Appends a number. After an `Err` of this and of the others that append, some of it may stand there.
pub(crate) fn put_number(out: &mut Vec<u8>, number: u64) -> Result<(), AllocError>
    ensures { OnOk result (out.new.items ≡ out.old.items ++ decimal number) }
{
    out.extend_from_slice(itoa::Buffer::new().format(number).as_bytes())
}

// Appends a number and a blank.
pub(crate) fn put_word(out: &mut Vec<u8>, number: u64) -> Result<(), AllocError>
    ensures { OnOk result (out.new.items ≡ out.old.items ++ decimal number ++ 32 ∷ []) }
{
    put_number(out, number)?;
    out.push(b' ')?;
    Ok(())
}

// Appends a byte in hex.
pub(crate) fn put_hex_byte(out: &mut Vec<u8>, byte: u8) -> Result<(), AllocError>
    ensures { OnOk result (out.new.items ≡ out.old.items ++ encode_lower (byte ∷ [])) }
{
    let mut digits = [0; 2];
    let _ = hex::encode_to_slice([byte].as_slice(), &mut digits);
    out.extend_from_slice(&digits)
}

// Appends a byte of a text as answers print it.
fn put_printed(out: &mut Vec<u8>, byte: u8) -> Result<(), AllocError>
    ensures { OnOk result (out.new.items ≡ out.old.items ++ printed_byte byte) }
{
    if 32 <= byte && byte <= 126 && byte != b'\\' {
        out.push(byte)?;
        return Ok(());
    }
    out.push(b'\\')?;
    put_hex_byte(out, byte)
}

// Appends the characters that a replica shows from one position to another, as answers print them.
pub(crate) fn put_shown(
    out: &mut Vec<u8>,
    replica: &Replica,
    beg: u64,
    end: u64,
) -> Result<(), AllocError>
    requires rising { beg ≤ end }
    requires in_text { end ≤ length (shown_of replica.now) }
    ensures { OnOk result (out.new.items ≡ out.old.items ++ print_of (slice_range (shown_of replica.now) beg end)) }
{
    for char in replica.shown_between(beg, end) {
        put_printed(out, char.byte)?;
    }
    Ok(())
}

// The line that prints a replica's text.
pub(crate) fn text_lines(alloc: Global, replica: &Replica) -> Result<Vec<u8>, Refusal>
    ensures ok { IfOk result (λ lines. lines.items ≡ text_lines replica.now) }
    ensures errors { RefusedForMemoryAlone result }
{
    let mut lines = Vec::from_slice(alloc, b"text ")?;
    let len = replica.shown_len();
    put_number(&mut lines, len)?;
    if len != 0 {
        lines.push(b' ')?;
    }
    put_shown(&mut lines, replica, 0, len)?;
    lines.push(b'\n')?;
    Ok(lines)
}

// The line that prints a replica's text as it was, up to some fronts.
pub(crate) fn past_lines(
    alloc: Global,
    replica: &Replica,
    fronts: &Fronts,
) -> Result<Vec<u8>, Refusal>
    ensures ok { IfOk result (λ lines. Prints (Past fronts.now) replica.now lines.items) }
    ensures errors { RefusedForMemoryAlone result }
{
    text_lines(alloc, replica.past(fronts.list())?.replica())
}

// Appends the line of a site's front.
fn put_front(out: &mut Vec<u8>, site: SiteNo, front: u32) -> Result<(), AllocError>
    ensures { OnOk result (out.new.items ≡ out.old.items ++ front_line site front) }
{
    out.extend_from_slice(b"front ")?;
    put_number(out, u64::from(site.get()))?;
    out.push(b' ')?;
    put_number(out, u64::from(front))?;
    out.push(b'\n')?;
    Ok(())
}

// Appends the line of how many operations wait.
fn put_waiting(out: &mut Vec<u8>, count: u32) -> Result<(), AllocError>
    ensures { OnOk result (out.new.items ≡ out.old.items ++ waiting_line count) }
{
    out.extend_from_slice(b"waiting ")?;
    put_number(out, u64::from(count))?;
    out.push(b'\n')?;
    Ok(())
}

// The lines that print a replica's fronts.
pub(crate) fn front_lines(alloc: Global, replica: &Replica) -> Result<Vec<u8>, Refusal>
    ensures ok { IfOk result (λ lines. Prints Front replica.now lines.items) }
    ensures errors { RefusedForMemoryAlone result }
{
    let sites = replica.sites()?;
    let mut lines = Vec::new(alloc);
    for site in &sites {
        put_front(&mut lines, *site, replica.front(*site))?;
    }
    put_waiting(&mut lines, replica.waiting())?;
    Ok(lines)
}
