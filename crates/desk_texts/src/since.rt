//! What a text has taken in beyond some fronts.

ghost use Rattle.std.specs.Prelude.{◌≡◌, ◌++◌, IfOk, OnOk};
ghost use Rattle.hex.specs.Hex.{encode_lower};
ghost use Rattle.looks.specs.Refusal.{RefusedForMemoryAlone};
ghost use Rattle.machine.specs.OnTexts.{Prints};
ghost use Rattle.machine.specs.Since.{message_line};
ghost use Rattle.machine.specs.declared.asked.Query.TheVariants.{Since};

use crate::printing::put_hex_byte;
use looks::Refusal;
use machine::Fronts;
use operations::{Op, encode};
use std::alloc::{AllocError, Global};
use texts::{Replica, front_in};

// Appends bytes in hex. After an `Err` of this and of the others that append, some of it may stand there.
pub(crate) fn put_hex(out: &mut Vec<u8>, bytes: &[u8]) -> Result<(), AllocError>
    ensures { OnOk result (out.new.items ≡ out.old.items ++ encode_lower bytes.now) }
{
    for byte in bytes {
        put_hex_byte(out, *byte)?;
    }
    Ok(())
}

// Appends the line of an operation's message.
fn put_message(out: &mut Vec<u8>, op: Op) -> Result<(), Refusal>
    ensures ok { OnOk result (out.new.items ≡ out.old.items ++ message_line op) }
    ensures errors { RefusedForMemoryAlone result }
{
    let mut message = Vec::new(*out.allocator());
    encode(&op, &mut message)?;
    out.extend_from_slice(b"message ")?;
    put_hex(out, &message)?;
    out.push(b'\n')?;
    Ok(())
}

// The lines that print the messages of what was taken in beyond some fronts.
pub(crate) fn since_lines(
    alloc: Global,
    replica: &Replica,
    fronts: &Fronts,
) -> Result<Vec<u8>, Refusal>
    ensures ok { IfOk result (λ lines. Prints (Since fronts.now) replica.now lines.items) }
    ensures errors { RefusedForMemoryAlone result }
{
    let named = fronts.list();
    let mut lines = Vec::new(alloc);
    for place in replica.first_beyond(named)..replica.taken_len() {
        let (site, seq) = replica.taken_identity(place);
        if front_in(named, site) < seq {
            let op = replica.taken(place)?;
            put_message(&mut lines, op)?;
        }
    }
    lines.extend_from_slice(b"ok\n")?;
    Ok(lines)
}
