ghost use Rattle.std.specs.Prelude.{◌≡◌, ◌<◌, ◌≤◌, ◌+◌, ◌↔◌, ℕ, length, IfSome, IfNone, IsTrue, slice_index};
ghost use Rattle.texts.specs.TextState.{shown_of};
ghost use Rattle.machine.specs.Tasks.{IsFirstFrom, StandsAt};
ghost use Rattle.machine.specs.Windows.{bytes_shown};

use texts::Replica;

// The byte of the character shown at this position.
fn byte_at(replica: &Replica, pos: u64) -> u8
    requires { pos < length (shown_of replica.now) }
    ensures { result ≡ slice_index (bytes_shown replica.now) pos }
{
    replica.attributes(pos).0
}

// Whether the bytes stand at this position of what a text shows, which goes on so far.
#[tactic(auto, using(crate::proofs::Standing::each_stands))]
fn stand_at(replica: &Replica, bytes: &[u8], pos: u64) -> bool
    requires { pos + length bytes.now ≤ length (shown_of replica.now) }
    ensures { IsTrue result ↔ StandsAt bytes.now (bytes_shown replica.now) pos }
{
    // Positions are in range.
    let _len = replica.shown_len();
    for i in 0..bytes.len() {
        if byte_at(replica, pos + i as u64) != bytes[i] {
            return false;
        }
    }
    true
}

// The first position from here on where the bytes stand in what a text shows.
pub(crate) fn find(replica: &Replica, bytes: &[u8], from: u64) -> Option<u64>
    requires { from ≤ length (shown_of replica.now) }
    ensures found { IfSome result (λ q. IsFirstFrom bytes.now (bytes_shown replica.now) from q) }
    ensures none { IfNone result ((q : ℕ) → from ≤ q → StandsAt bytes.now (bytes_shown replica.now) q → ⊥) }
{
    let last = replica.shown_len().checked_sub(bytes.len() as u64)?;
    for pos in from..=last {
        if stand_at(replica, bytes, pos) {
            return Some(pos);
        }
    }
    None
}
