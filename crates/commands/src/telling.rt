//! How windows follow the texts: after each change of a text they are told of it, in this one place.

ghost use Rattle.std.specs.Prelude.{◌≡◌, ◌≤◌};
ghost use Rattle.machine.specs.SiteTexts.{SiteTexts, InText};
ghost use Rattle.machine.specs.declared.TheConstants.{MAX_TEXT};
ghost use Rattle.texts.specs.TextState.{all_told};
ghost use Rattle.desk_windows.specs.Windows.{AreOf, AreToldOfText, screened};
ghost use Rattle.commands.specs.Steps.{AreTold};
ghost use Rattle.machine_laws.specs.Growing.{Grows};

use char_files::TextNo;
use desk_texts::Texts;
use desk_windows::Windows;

// Tells the windows once what changed of a text since they were last told; each of the text's reads as often as that asks.
pub(crate) fn tell(texts: &mut Texts, windows: &mut Windows, text: TextNo)
    requires on_desk { text ≤ MAX_TEXT }
    ensures told { InText (λ t new. new ≡ all_told t) texts.old text texts.new }
    ensures screen { screened windows.new ≡ screened windows.old }
    ensures once { AreToldOfText texts.old text texts.new windows.old.viewers windows.new.viewers }
    ensures shown { (d : SiteTexts) → AreOf d windows.old → AreTold d → InText Grows d text texts.old
        → AreOf texts.new windows.new × AreTold texts.new }
{
    let changes = texts.changes(text);
    windows.tell(texts, text, &changes);
    texts.reuse(text, changes);
}
