ghost use Rattle.std.specs.Prelude.{◌≡◌, ℕ, ◌+◌, ◌*◌, ◌≤◌, [], ◌∷◌, ◌++◌, codes, drop, length};
ghost use Rattle.std.specs.Fmt.{decimal};
ghost use Rattle.hex.specs.Hex.{encode_lower};
ghost use Rattle.machine.specs.Events.{edit_reply, merge_reply, take_reply, unpack_reply};
ghost use Rattle.machine.specs.Printing.{line};
ghost use Rattle.commands.specs.Steps.{answer_reply, done_reply, open_reply, print_reply};
ghost use Rattle.script_sites.specs.Answers.{counts_line, refused_line, reply_lines, send_line};
ghost use Rattle.script_sites.specs.Answers.{send_lines, settled_line, unpacked_line};
ghost use Rattle.script_sites.specs.Replying.{reply_of};
ghost use Rattle.script_sites.specs.Writing.{PutsToOutput};
ghost use Rattle.script_sites.specs.declared.answers.TheConstants.{STRETCH};

use crate::reply::Reply;
use commands::Answer;
use looks::{OUT_OF_MEMORY, Refusal};
use script_io::Output;
use std::io::Write;
use text_chunks::{UnpackRefusal, Unpacked};
use texts::{EditRefusal, MergeRefusal, Outbox, Settled, Took};

// How many bytes are written in hex at once.
const STRETCH: usize = 64;

/// Writes the bytes. Refused `WriteFault` where the writer fails, is interrupted or takes nothing.
pub fn put<W: Write>(output: &mut Output<W>, bytes: &[u8]) -> Result<(), Refusal>
    ensures { PutsToOutput result output.old output.new bytes.now }
{
    let mut rest = bytes;
    while !rest.is_empty() {
        let count = output.write(rest)?;
        rest = &rest[count..];
    }
    Ok(())
}

fn put_number<W: Write>(output: &mut Output<W>, number: u64) -> Result<(), Refusal>
    ensures { PutsToOutput result output.old output.new (decimal number) }
{
    put(output, itoa::Buffer::new().format(number).as_bytes())
}

// Some bytes, and a number after them.
#[tactic(auto, using(crate::proofs::WriteLemmas::writes_after, crate::proofs::WriteLemmas::writes_stopped))]
fn put_numbered<W: Write>(output: &mut Output<W>, front: &[u8], number: u64) -> Result<(), Refusal>
    ensures { PutsToOutput result output.old output.new (front.now ++ decimal number) }
{
    put(output, front)?;
    put_number(output, number)
}

// The same of a number that may be a sum.
#[tactic(auto, using(crate::proofs::WriteLemmas::writes_after, crate::proofs::WriteLemmas::writes_stopped))]
fn put_numbered_far<W: Write>(
    output: &mut Output<W>,
    front: &[u8],
    number: u128,
) -> Result<(), Refusal>
    ensures { PutsToOutput result output.old output.new (front.now ++ decimal number) }
{
    put(output, front)?;
    put(output, itoa::Buffer::new().format(number).as_bytes())
}

// The line of a number after a word.
#[tactic(auto, using(crate::proofs::WriteLemmas::writes_after, crate::proofs::WriteLemmas::writes_stopped))]
fn put_count<W: Write>(output: &mut Output<W>, word: &[u8], count: u64) -> Result<(), Refusal>
    ensures { PutsToOutput result output.old output.new (line (word.now ++ decimal count)) }
{
    put_numbered(output, word, count)?;
    put(output, b"\n")
}

// A stretch of bytes. Its digits go into an array, so that no answer needs a growth after its edit stands.
fn put_hex_stretch<W: Write>(output: &mut Output<W>, stretch: &[u8]) -> Result<(), Refusal>
    requires { length stretch.now ≤ STRETCH }
    ensures { PutsToOutput result output.old output.new (encode_lower stretch.now) }
{
    let mut room = [0; 2 * STRETCH];
    let digits = &mut room[..2 * stretch.len()];
    let _ = hex::encode_to_slice(stretch, digits);
    put(output, digits)
}

fn put_hex<W: Write>(output: &mut Output<W>, bytes: &[u8]) -> Result<(), Refusal>
    ensures { PutsToOutput result output.old output.new (encode_lower bytes.now) }
{
    for stretch in bytes.chunks(STRETCH) {
        put_hex_stretch(output, stretch)?;
    }
    Ok(())
}

/// Writes the answer that refuses an event.
pub fn put_refused<W: Write>(output: &mut Output<W>, why: Refusal) -> Result<(), Refusal>
    ensures { PutsToOutput result output.old output.new (refused_line why) }
{
    put_numbered(output, b"refused ", u64::from(why.number()))?;
    put(output, b"\n")
}

// A blank, the digits of a message, and the end of its line.
fn fill_hex_line(message: &[u8], line: &mut [u8])
    requires { length line.old ≡ 2 * length message.now + 2 }
    ensures { line.new ≡ 32 ∷ encode_lower message.now ++ 10 ∷ [] }
{
    let (blank, rest) = line.split_at_mut(1);
    let (digits, newline) = rest.split_at_mut(2 * message.len());
    blank[0] = b' ';
    let _ = hex::encode_to_slice(message, digits);
    newline[0] = b'\n';
}

// The whole line of a message whose number has these digits.
fn fill_send_line(number: &[u8], message: &[u8], line: &mut [u8])
    requires { length line.old ≡ 6 + length number.now + 2 * length message.now + 2 }
    ensures { line.new ≡ codes "send m" ++ number.now ++ 32 ∷ encode_lower message.now ++ 10 ∷ [] }
{
    let (front, rest) = line.split_at_mut(6);
    let (digits, rest) = rest.split_at_mut(number.len());
    front.copy_from_slice(b"send m");
    digits.copy_from_slice(number);
    fill_hex_line(message, rest);
}

// The line of a message of one stretch, the run's k-th, in one write.
#[tactic(auto, unfolding(crate::specs::Answers::send_line))]
fn put_short_send<W: Write>(output: &mut Output<W>, k: u128, message: &[u8]) -> Result<(), Refusal>
    requires { length message.now ≤ STRETCH }
    ensures { PutsToOutput result output.old output.new (send_line k message.now) }
{
    let mut number = itoa::Buffer::new();
    let number = number.format(k).as_bytes();
    let mut room = [0; 2 * STRETCH + 48];
    let line = &mut room[..6 + number.len() + 2 * message.len() + 2];
    fill_send_line(number, message, line);
    put(output, line)
}

// The same of any message.
fn put_long_send<W: Write>(output: &mut Output<W>, k: u128, message: &[u8]) -> Result<(), Refusal>
    ensures { PutsToOutput result output.old output.new (send_line k message.now) }
{
    put_numbered_far(output, b"send m", k)?;
    put(output, b" ")?;
    put_hex(output, message)?;
    put(output, b"\n")
}

// The line of one message, the run's k-th.
fn put_send<W: Write>(output: &mut Output<W>, k: u128, message: &[u8]) -> Result<(), Refusal>
    ensures { PutsToOutput result output.old output.new (send_line k message.now) }
{
    if message.len() <= STRETCH {
        put_short_send(output, k, message)
    } else {
        put_long_send(output, k, message)
    }
}

// The lines of the messages of an Outbox after the first `from` of it, where `before` were sent before these.
fn put_sends<W: Write>(
    output: &mut Output<W>,
    outbox: &Outbox,
    from: usize,
    before: usize,
) -> Result<(), Refusal>
    ensures { PutsToOutput result output.old output.new (send_lines (before + from) (drop from outbox.now)) }
{
    for index in from..outbox.len() {
        put_send(
            output,
            before as u128 + index as u128 + 1,
            outbox.message(index),
        )?;
    }
    Ok(())
}

// The last line of an edit, or of a merge, of which the first operations stand; and the number of why not all do.
fn put_partial<W: Write>(output: &mut Output<W>, done: u64, number: u8) -> Result<(), Refusal>
    ensures { PutsToOutput result output.old output.new (line (codes "partial " ++ decimal done ++ 32 ∷ decimal number)) }
{
    put_numbered(output, b"partial ", done)?;
    put_numbered(output, b" ", u64::from(number))?;
    put(output, b"\n")
}

// Writes the lines of an edit's reply, where the outbox had `from` messages before the edit, and `before` were sent before these.
fn put_edit<W: Write>(
    output: &mut Output<W>,
    outbox: &Outbox,
    from: usize,
    before: usize,
    outcome: Result<u32, EditRefusal>,
) -> Result<(), Refusal>
    ensures { PutsToOutput result output.old output.new
        (reply_lines (before + from) (edit_reply outcome (drop from outbox.now))) }
{
    match outcome {
        Ok(_) => {
            put_sends(output, outbox, from, before)?;
            put(output, b"ok\n")
        }
        Err(EditRefusal::Whole(why)) => put_refused(output, why),
        Err(EditRefusal::Partial { done, why }) => {
            put_sends(output, outbox, from, before)?;
            put_partial(output, u64::from(done), why.number())
        }
    }
}

// Two counts after a word, and whether a draining ended early.
fn put_counts<W: Write>(
    output: &mut Output<W>,
    word: &[u8],
    first: u64,
    second: u64,
    stopped: bool,
) -> Result<(), Refusal>
    ensures { PutsToOutput result output.old output.new (counts_line word.now first second stopped) }
{
    put_numbered(output, word, first)?;
    put_numbered(output, b" ", second)?;
    if stopped {
        put(output, b" stopped\n")
    } else {
        put(output, b"\n")
    }
}

// The line of a message that was taken in. Mostly no other had waited for it, and that line is at hand.
fn put_drained<W: Write>(
    output: &mut Output<W>,
    drained: u32,
    dropped: u32,
    stopped: bool,
) -> Result<(), Refusal>
    ensures { PutsToOutput result output.old output.new (counts_line (codes "taken ") drained dropped stopped) }
{
    if drained == 0 && dropped == 0 && !stopped {
        return put(output, b"taken 0 0\n");
    }
    put_counts(
        output,
        b"taken ",
        u64::from(drained),
        u64::from(dropped),
        stopped,
    )
}

// Writes the line of a message that was taken.
fn put_taken<W: Write>(
    output: &mut Output<W>,
    outcome: Result<Took, Refusal>,
) -> Result<(), Refusal>
    ensures { (k : ℕ) → PutsToOutput result output.old output.new (reply_lines k (take_reply outcome)) }
{
    match outcome {
        Ok(
            Took::Taken {
                drained,
                dropped,
                stopped,
            },
        ) => put_drained(output, drained, dropped, stopped),
        Ok(Took::Repeat) => put(output, b"repeat\n"),
        Ok(Took::Waits) => put(output, b"waits\n"),
        Err(why) => put_refused(output, why),
    }
}

// The line of a chunk of which each operation was handed in.
#[tactic(auto, using(crate::proofs::WriteLemmas::writes_after, crate::proofs::WriteLemmas::writes_stopped))]
fn put_unpacked_whole<W: Write>(output: &mut Output<W>, counts: Unpacked) -> Result<(), Refusal>
    ensures { PutsToOutput result output.old output.new (unpacked_line counts) }
{
    put_numbered(output, b"unpacked ", counts.taken)?;
    put_counts(output, b" ", counts.known, counts.waiting, counts.stopped)
}

// Writes the line of a chunk.
fn put_unpacked<W: Write>(
    output: &mut Output<W>,
    outcome: Result<Unpacked, UnpackRefusal>,
) -> Result<(), Refusal>
    ensures { (k : ℕ) → PutsToOutput result output.old output.new (reply_lines k (unpack_reply outcome)) }
{
    match outcome {
        Ok(counts) => put_unpacked_whole(output, counts),
        Err(UnpackRefusal::Whole(why)) => put_refused(output, why),
        Err(UnpackRefusal::Partial { done, why }) => put_partial(output, done, why.number()),
    }
}

// Writes the line of a room that was drained.
fn put_settled<W: Write>(output: &mut Output<W>, settled: Settled) -> Result<(), Refusal>
    ensures { PutsToOutput result output.old output.new (settled_line settled.drained settled.dropped settled.stopped) }
{
    let Settled {
        drained,
        dropped,
        stopped,
    } = settled;
    put_counts(
        output,
        b"settled ",
        u64::from(drained),
        u64::from(dropped),
        stopped,
    )
}

// Writes the line of a merge.
fn put_merged<W: Write>(
    output: &mut Output<W>,
    outcome: Result<u64, MergeRefusal>,
) -> Result<(), Refusal>
    ensures { (k : ℕ) → PutsToOutput result output.old output.new (reply_lines k (merge_reply outcome)) }
{
    match outcome {
        Ok(count) => put_count(output, b"merged ", count),
        Err(MergeRefusal::Whole(why)) => put_refused(output, why),
        Err(MergeRefusal::Stopped { done, .. }) => put_partial(output, done, OUT_OF_MEMORY),
    }
}

// Writes the line of an opening.
fn put_opened<W: Write>(
    output: &mut Output<W>,
    outcome: Result<u32, Refusal>,
) -> Result<(), Refusal>
    ensures { (k : ℕ) → PutsToOutput result output.old output.new (reply_lines k (open_reply outcome)) }
{
    match outcome {
        Ok(viewer) => put_count(output, b"viewer ", u64::from(viewer)),
        Err(why) => put_refused(output, why),
    }
}

// Writes the line of another arrangement.
fn put_done<W: Write>(output: &mut Output<W>, outcome: Result<(), Refusal>) -> Result<(), Refusal>
    ensures { (k : ℕ) → PutsToOutput result output.old output.new (reply_lines k (done_reply outcome)) }
{
    match outcome {
        Ok(()) => put(output, b"ok\n"),
        Err(why) => put_refused(output, why),
    }
}

// Writes the lines of a command's reply, where the outbox had `from` messages before it, and `before` were sent before these.
fn put_answer<W: Write>(
    output: &mut Output<W>,
    outbox: &Outbox,
    from: usize,
    before: usize,
    outcome: Result<Answer, EditRefusal>,
) -> Result<(), Refusal>
    ensures { PutsToOutput result output.old output.new (reply_lines (before + from) (answer_reply outcome (drop from outbox.now))) }
{
    match outcome {
        Ok(Answer::Sent(count)) => put_edit(output, outbox, from, before, Ok(count)),
        Ok(Answer::Viewer(viewer)) => put_count(output, b"viewer ", u64::from(viewer)),
        Ok(Answer::Found(pos)) => put_count(output, b"found ", pos),
        Ok(Answer::NotFound) => put(output, b"not found\n"),
        Ok(Answer::Forgot(count)) => put_count(output, b"forgot ", u64::from(count)),
        Ok(Answer::Done) => put(output, b"ok\n"),
        Err(why) => put_edit(output, outbox, from, before, Err(why)),
    }
}

// Writes the lines of a print.
fn put_printed<W: Write>(
    output: &mut Output<W>,
    outcome: Result<Vec<u8>, Refusal>,
) -> Result<(), Refusal>
    ensures { (k : ℕ) → PutsToOutput result output.old output.new
        (reply_lines k (print_reply outcome (λ lines. lines.items))) }
{
    match outcome {
        Ok(lines) => put(output, &lines),
        Err(why) => put_refused(output, why),
    }
}

/// Writes the lines of a reply, where the outbox had `from` messages before it, and `before` were sent before these: a row for
/// each.
pub fn put_reply<W: Write>(
    output: &mut Output<W>,
    outbox: &Outbox,
    from: usize,
    before: usize,
    reply: Reply,
) -> Result<(), Refusal>
    ensures { PutsToOutput result output.old output.new (reply_lines (before + from) (reply_of reply (drop from outbox.now))) }
{
    match reply {
        Reply::Edited(outcome) => put_edit(output, outbox, from, before, outcome),
        Reply::Taken(outcome) => put_taken(output, outcome),
        Reply::Unpacked(outcome) => put_unpacked(output, outcome),
        Reply::Settled(settled) => put_settled(output, settled),
        Reply::Merged(outcome) => put_merged(output, outcome),
        Reply::Printed(outcome) => put_printed(output, outcome),
        Reply::Opened(outcome) => put_opened(output, outcome),
        Reply::Arranged(outcome) => put_done(output, outcome),
        Reply::Commanded(outcome) => put_answer(output, outbox, from, before, outcome),
    }
}
