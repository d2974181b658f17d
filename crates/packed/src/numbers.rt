ghost use Rattle.std.specs.Prelude.{◌≡◌, ◌^◌, ◌<◌, ◌≤◌, IfSome};
ghost use Rattle.byte_fields.specs.Fields.{Appends, Finds};
ghost use Rattle.packed.specs.Numbers.{sevens, sevens_within_at, sevens_at, step_number};
ghost use Rattle.packed.specs.Numbers.{step_spelling, stepped, step_at};

use byte_fields::u8_at;
use std::alloc::AllocError;

// The bit of a byte after which more follow.
const MORE: u8 = 128;

// The most bytes of a number.
const MAX_SEVENS: u32 = 7;

/// Appends a number in sevens of bits, in 7 bytes at most. After an `Err` some of it may stand there.
pub fn put_number(out: &mut Vec<u8>, number: u64) -> Result<(), AllocError>
    requires { number < 2 ^ 49 }
    ensures { Appends result out.old.items out.new.items (sevens number) }
{
    let mut rest = number;
    while rest >= 128 {
        out.push((rest % 128) as u8 + MORE)?;
        rest /= 128;
    }
    out.push(rest as u8)?;
    Ok(())
}

// A number in so many sevens of bits at most. It calls itself once for each.
#[tactic(auto, unfolding(crate::specs::Numbers::sevens_within_at))]
fn number_within(fuel: u32, bytes: &[u8]) -> Option<(u64, &[u8])>
    requires { fuel ≤ 7 }
    ensures found { Finds (λ x. (x.0, x.1.now)) result (sevens_within_at fuel bytes.now) }
    ensures bound { IfSome result (λ x. x.0 < 128 ^ fuel) }
{
    if fuel == 0 {
        return None;
    }
    let (low, rest) = u8_at(bytes)?;
    if low < MORE {
        return Some((u64::from(low), rest));
    }
    let (high, rest) = number_within(fuel - 1, rest)?;
    if high == 0 {
        return None;
    }
    Some((128 * high + u64::from(low - MORE), rest))
}

/// A number in sevens of bits; `None` where the bytes end in it, where it has more than 7 bytes, or where its last byte is
/// a 0 that isn't needed.
#[tactic(auto, unfolding(crate::specs::Numbers::sevens_at))]
pub fn number_at(bytes: &[u8]) -> Option<(u64, &[u8])>
    ensures found { Finds (λ x. (x.0, x.1.now)) result (sevens_at bytes.now) }
    ensures bound { IfSome result (λ x. x.0 < 2 ^ 49) }
{
    number_within(MAX_SEVENS, bytes)
}

/// Appends a number as the step to it from another one. After an `Err` some of it may stand there.
#[tactic(auto, unfolding(crate::specs::Numbers::step_spelling))]
pub(crate) fn put_step(out: &mut Vec<u8>, from: u32, to: u32) -> Result<(), AllocError>
    ensures { Appends result out.old.items out.new.items (step_spelling from to) }
{
    put_number(out, step_number(from, to))
}

fn step_number(from: u32, to: u32) -> u64
    ensures value { result ≡ step_number from to }
    ensures bound { result < 2 ^ 49 }
{
    if from <= to {
        2 * u64::from(to - from)
    } else {
        2 * u64::from(from - to) - 1
    }
}

// Where the step of this number leads.
fn stepped(from: u32, step: u64) -> Option<u32>
    requires { step < 2 ^ 49 }
    ensures { Finds (λ to. to) result (stepped from step) }
{
    let from = u64::from(from);
    let half = step / 2;
    let to = if step % 2 == 0 {
        from + half
    } else {
        from.checked_sub(half + 1)?
    };
    u32::try_from(to).ok()
}

/// A number that is told by the step to it from this one; `None` where no number is spelled, or where the step leads below
/// 0 or to 2^32 or above.
#[tactic(auto, unfolding(crate::specs::Numbers::step_at))]
pub(crate) fn step_at(from: u32, bytes: &[u8]) -> Option<(u32, &[u8])>
    ensures { Finds (λ x. (x.0, x.1.now)) result (step_at from bytes.now) }
{
    let (step, rest) = number_at(bytes)?;
    let to = stepped(from, step)?;
    Some((to, rest))
}
