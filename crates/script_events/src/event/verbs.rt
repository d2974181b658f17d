//! The table of verbs.

ghost use Rattle.std.specs.Prelude.{◌≡◌, map};
ghost use Rattle.script_events.specs.Script.{verb_among, verb_in};

use crate::event::Side;
use machine::View;
use texts::ByNames;

// A verb, by what stands after it.
#[derive(Clone, Copy, Debug)]
pub(crate) enum Verb {
    // A text, which ends the line.
    Short(ShortVerb),
    // A text, and perhaps fronts.
    Fronts(Side),
    // A text, and names of characters; or, where hidden ones are shown again, perhaps none.
    ByNames(ByNames),
    // A text, and what an edit of it goes on with.
    Edit(EditVerb),
    // A text, and what else is asked of it.
    Long(LongVerb),
    // What an arrangement of the desk's screen goes on with.
    Arrange(ArrangeVerb),
    // What else is asked of the desk.
    Desk(DeskVerb),
    // Nothing: the desk's screen is printed.
    Prints(View),
}

#[derive(Clone, Copy, Debug)]
pub(crate) enum ShortVerb {
    Settle,
    Text,
    Front,
    Runs,
}

#[derive(Clone, Copy, Debug)]
pub(crate) enum EditVerb {
    TypeIn,
    Cut,
    Looks,
    Recall,
}

#[derive(Clone, Copy, Debug)]
pub(crate) enum LongVerb {
    Save,
    Take,
    Unpack,
    Merge,
    Where,
    Names,
}

#[derive(Clone, Copy, Debug)]
pub(crate) enum ArrangeVerb {
    Open,
    Close,
    Move,
    Scroll,
    Point,
    Select,
}

#[derive(Clone, Copy, Debug)]
pub(crate) enum DeskVerb {
    Keep,
    Reopen,
    Key,
    Click,
}

// The verbs: a row for each.
const VERBS: [(&[u8], Verb); 32] = [
    (b"type", Verb::Edit(EditVerb::TypeIn)),
    (b"cut", Verb::Edit(EditVerb::Cut)),
    (b"looks", Verb::Edit(EditVerb::Looks)),
    (b"recall", Verb::Edit(EditVerb::Recall)),
    (b"restore", Verb::ByNames(ByNames::Restore)),
    (b"delete", Verb::ByNames(ByNames::Delete)),
    (b"save", Verb::Long(LongVerb::Save)),
    (b"take", Verb::Long(LongVerb::Take)),
    (b"unpack", Verb::Long(LongVerb::Unpack)),
    (b"settle", Verb::Short(ShortVerb::Settle)),
    (b"merge", Verb::Long(LongVerb::Merge)),
    (b"text", Verb::Short(ShortVerb::Text)),
    (b"front", Verb::Short(ShortVerb::Front)),
    (b"runs", Verb::Short(ShortVerb::Runs)),
    (b"where", Verb::Long(LongVerb::Where)),
    (b"names", Verb::Long(LongVerb::Names)),
    (b"since", Verb::Fronts(Side::Beyond)),
    (b"past", Verb::Fronts(Side::UpTo)),
    (b"pack", Verb::Fronts(Side::Packed)),
    (b"keep", Verb::Desk(DeskVerb::Keep)),
    (b"reopen", Verb::Desk(DeskVerb::Reopen)),
    (b"open", Verb::Arrange(ArrangeVerb::Open)),
    (b"close", Verb::Arrange(ArrangeVerb::Close)),
    (b"move", Verb::Arrange(ArrangeVerb::Move)),
    (b"scroll", Verb::Arrange(ArrangeVerb::Scroll)),
    (b"point", Verb::Arrange(ArrangeVerb::Point)),
    (b"select", Verb::Arrange(ArrangeVerb::Select)),
    (b"key", Verb::Desk(DeskVerb::Key)),
    (b"click", Verb::Desk(DeskVerb::Click)),
    (b"views", Verb::Prints(View::Views)),
    (b"marks", Verb::Prints(View::Marks)),
    (b"show", Verb::Prints(View::Show)),
];

// The verb of a word, among these rows.
fn verb_among(rows: &[(&[u8], Verb)], word: &[u8]) -> Option<Verb>
    ensures { result ≡ verb_among (map (λ row. (row.0.now, row.1)) rows.now) word.now }
{
    for (spelled, verb) in rows {
        if *spelled == word {
            return Some(*verb);
        }
    }
    None
}

impl Verb {
    // The verb of this word.
    pub(crate) fn named(word: &[u8]) -> Option<Verb>
        ensures { result ≡ verb_in word.now }
    {
        verb_among(&VERBS, word)
    }
}
