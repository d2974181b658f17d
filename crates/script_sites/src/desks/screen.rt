//! What a run's sites do with their screens.

ghost use Rattle.std.specs.Prelude.{◌≤◌, ◌<◌, List, ℕ, length};
ghost use Rattle.char_files.specs.Plain.{plain_items};
ghost use Rattle.machine.specs.Events.{arrange, ask, edit_reply, insert_at_caret};
ghost use Rattle.script_events.specs.EventView.{OpensDeskText};
ghost use Rattle.script_sites.specs.Replying.{reply_of};
ghost use Rattle.script_sites.specs.Seen.{Replied};

use crate::desks::Desks;
use crate::reply::Reply;
use machine::Arrangement;
use script_events::Escaped;
use script_io::MAX_LINE;
use texts::EditRefusal;

impl Desks {
    // Arranges a desk's screen: a row for each arrangement.
    pub(super) fn arrange(&mut self, desk: usize, asked: Arrangement) -> Reply
        requires in_run { desk < length self.old.desks }
        requires on_desk { OpensDeskText asked }
        ensures { (messages : List (List ℕ)) → Replied self.old (ask desk (arrange asked))
            (reply_of result messages) self.new }
    {
        match asked {
            Arrangement::Open { track, text, row } => {
                Reply::Opened(self.desks[desk].open(track, text, row))
            }
            Arrangement::Close { viewer } => Reply::Arranged(self.desks[desk].close(viewer)),
            Arrangement::Move { viewer, row } => {
                Reply::Arranged(self.desks[desk].move_top(viewer, row))
            }
            Arrangement::Scroll { viewer, line } => {
                Reply::Arranged(self.desks[desk].scroll(viewer, line))
            }
            Arrangement::Point { cell } => {
                Reply::Arranged(self.desks[desk].point(cell.col, cell.row))
            }
            Arrangement::Select { beg, end } => {
                Reply::Arranged(self.desks[desk].select((beg.col, beg.row), (end.col, end.row)))
            }
        }
    }

    // Types bytes of default looks at a desk's caret.
    pub(super) fn key(&mut self, desk: usize, bytes: &Escaped) -> Result<u32, EditRefusal>
        requires in_run { desk < length self.old.desks }
        requires short { length bytes.now ≤ MAX_LINE }
        ensures { (messages : List (List ℕ)) × Replied self.old
            (ask desk (insert_at_caret (plain_items bytes.now))) (edit_reply result messages) self.new }
    {
        match bytes.as_plain() {
            Some(plain) => self.desks[desk].key(plain, &mut self.outbox),
            None => {
                self.bytes.clear();
                bytes.decode(&mut self.bytes);
                self.desks[desk].key(&self.bytes, &mut self.outbox)
            }
        }
    }
}
