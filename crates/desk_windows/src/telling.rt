//! How windows are told of changes.

ghost use Rattle.std.specs.Prelude.{◌≡◌, ℕ, ◌<◌, length, slice_index_or};
ghost use Rattle.desk_windows.specs.Windows.{IsWindowTold, WindowSeen};

use crate::window::Window;
use char_files::TextNo;
use list_changes::Change;
use texts::Replica;

// Tells each window of changes of a text.
pub(crate) fn tell_each(windows: &mut [Window], replica: &Replica, text: TextNo, changes: &[Change])
    ensures len { length windows.new ≡ length windows.old }
    ensures told { (k : ℕ) (d : WindowSeen) → k < length windows.old
        → IsWindowTold text changes.now replica.now (slice_index_or windows.old k d) (slice_index_or windows.new k d) }
{
    for index in 0..windows.len() {
        windows[index].tell(replica, text, changes);
    }
}
