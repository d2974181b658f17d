ghost use Rattle.std.specs.Prelude.{◌≡◌, ◌≤◌, length};
ghost use Rattle.machine.specs.SiteTexts.{IsTextOf};
ghost use Rattle.machine.specs.declared.TheConstants.{MAX_TEXT};
ghost use Rattle.machine.specs.Windows.{line_anchor};
ghost use Rattle.texts.specs.TextState.{TextState};
ghost use Rattle.texts.specs.Text.{IsAnchor};
ghost use Rattle.text_frames.specs.Frames.{IsDrawn};
ghost use Rattle.desk_windows.specs.Windows.{IsWindowTold};
ghost use Rattle.text_frames.specs.declared.TheConstants.{MAX_ROWS};

use char_files::TextNo;
use desk_texts::Texts;
use list_changes::Change;
use std::marker::Model;
use text_frames::Frame;
use texts::Replica;

/// What a viewer shows: a text of the desk, by a frame.
#[derive(Drop)]
pub struct Window {
    pub(crate) text: TextNo,
    pub(crate) frame: Frame,
}

impl Model for Window {
    ghost use Rattle.desk_windows.specs.Windows.{WindowSeen};

    ghost Value = { WindowSeen };

    ghost view = { λ w. record { text = w.text; frame = w.frame } };
}

impl Window {
    // Gives the frame so many rows of the text as it is now.
    pub(crate) fn fit(&mut self, texts: &Texts, rows: usize)
        requires on_desk { self.old.text ≤ MAX_TEXT }
        requires high { 1 ≤ rows }
        requires low { rows ≤ MAX_ROWS }
        ensures text { self.new.text ≡ self.old.text }
        ensures anchor { self.new.frame.anchor ≡ self.old.frame.anchor }
        ensures width { self.new.frame.width ≡ self.old.frame.width }
        ensures rows { length self.new.frame.rows ≡ rows }
        ensures drawn { (t : TextState) → IsTextOf texts.now self.old.text t
            → IsAnchor t.operations self.old.frame.anchor → IsDrawn self.new.frame t }
    {
        self.frame.resize(texts.replica(self.text), rows);
    }

    // Begins with another line of the text as it is now.
    pub(crate) fn scroll(&mut self, texts: &Texts, line: u64)
        requires { self.old.text ≤ MAX_TEXT }
        ensures text { self.new.text ≡ self.old.text }
        ensures width { self.new.frame.width ≡ self.old.frame.width }
        ensures rows { length self.new.frame.rows ≡ length self.old.frame.rows }
        ensures shown { (t : TextState) × IsTextOf texts.now self.old.text t
            × (self.new.frame.anchor ≡ line_anchor t line) × IsDrawn self.new.frame t }
    {
        self.frame.scroll(texts.replica(self.text), line);
    }

    // Follows changes of a text, where it shows this one.
    pub(crate) fn tell(&mut self, replica: &Replica, text: TextNo, changes: &[Change])
        ensures { IsWindowTold text changes.now replica.now self.old self.new }
    {
        if self.text.get() == text.get() {
            self.frame.update(replica, changes);
        }
    }
}
