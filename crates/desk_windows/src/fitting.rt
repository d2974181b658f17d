//! How windows get the rows of their viewers.

ghost use Rattle.std.specs.Prelude.{◌≡◌, ℕ, ◌<◌, length};
ghost use Rattle.viewers.specs.Screen.{seats_of};
ghost use Rattle.viewers.specs.Tracks.{seat_at};
ghost use Rattle.desk_windows.specs.Windows.{AllShow, AreSameWindows, HasRows, ShowTexts};

use crate::window::Window;
use desk_texts::Texts;
use viewers::{Screen, Track};

// Gives a viewer's window the rows of its viewer below the menu.
fn fit(viewers: &mut Screen<Window>, texts: &Texts, number: u32)
    requires { AllShow texts.now viewers.old }
    ensures same { AreSameWindows viewers.old viewers.new }
    ensures shown { AllShow texts.now viewers.new }
    ensures fitted { HasRows viewers.new number }
    ensures kept { (v : ℕ) → HasRows viewers.old v → HasRows viewers.new v }
{
    viewers.lemma_are_viewers();
    if let Some(area) = viewers.area(number) {
        if let Some(window) = viewers.content(number) {
            window.fit(texts, area.height - 1);
        }
    }
}

// Gives the windows of a track's viewers their rows.
fn fit_track(viewers: &mut Screen<Window>, texts: &Texts, track: Track)
    requires { AllShow texts.now viewers.old }
    ensures same { AreSameWindows viewers.old viewers.new }
    ensures shown { AllShow texts.now viewers.new }
    ensures fitted { (i : ℕ) → i < length (seats_of viewers.old.tracks track)
        → HasRows viewers.new (seat_at (seats_of viewers.old.tracks track) i).number }
    ensures kept { (v : ℕ) → HasRows viewers.old v → HasRows viewers.new v }
{
    let count = viewers.seats(track).len();
    for index in 0..count {
        let number = viewers.seats(track)[index].number;
        fit(viewers, texts, number);
    }
}

// Gives each window the rows of its viewer below the menu.
pub(crate) fn fit_all(viewers: &mut Screen<Window>, texts: &Texts)
    requires { AllShow texts.now viewers.old }
    ensures same { AreSameWindows viewers.old viewers.new }
    ensures shown { ShowTexts texts.now viewers.new }
{
    fit_track(viewers, texts, Track::User);
    fit_track(viewers, texts, Track::System);
}
