ghost use Rattle.std.specs.Prelude.{◌≡◌, ℕ, ◌<◌, ◌≤◌, length, option_map, IfSome};
ghost use Rattle.script_events.specs.EventView.{delivery_of, edit_of, event_of, event_or_unknown, IsInRun, IsOfLine, IsDeliveryWithin};
ghost use Rattle.script_events.specs.EventView.{OpensDeskText, TypesAtMost};
ghost use Rattle.script_events.specs.Script.{arrangement_in, by_names_event, delivery_in, desk_event, edit_in, event_in};
ghost use Rattle.script_events.specs.Script.{fronts_event, long_event, merge_event, names_event, names_in_words};
ghost use Rattle.script_events.specs.Script.{where_event, save_event, short_event, verb_event};

mod arrangements;
mod edits;
mod filings;
mod looks_words;
mod verbs;
pub(crate) mod words;

use crate::escaped::Escaped;
use crate::event::arrangements::{
    cell_in, close_arrangement, move_arrangement, open_arrangement, point_arrangement,
    scroll_arrangement, select_arrangement,
};
use crate::event::edits::{cut_edit, looks_edit, recall_edit, type_edit};
use crate::event::filings::{filing_in, keeping_in};
use crate::event::verbs::{ArrangeVerb, DeskVerb, EditVerb, LongVerb, ShortVerb, Verb};
use crate::event::words::{desk_in, front_word, number_in, split_number, split_word, text_in};
use crate::front_words::FrontWords;
use crate::hex_bytes::Hex;
use crate::name_words::{NameWords, range_of_words};
use char_files::TextNo;
use kept_file::KeptForm;
use looks::{Looks, Sel};
use machine::{Arrangement, Cell, MAX_TEXT, Query, View};
use operations::NameRange;
use texts::ByNames;

/// What a line of a script asks; it borrows its bytes from the line.
///
/// A desk is told by its index among the run's.
#[derive(Debug, Drop)]
pub enum Event<'a> {
    /// An edit of a desk's text.
    Edits {
        desk: usize,
        text: TextNo,
        edit: Edit<'a>,
    },
    /// An edit of a desk's text by the names of characters.
    EditsByNames {
        desk: usize,
        text: TextNo,
        what: ByNames,
        names: NameWords<'a>,
    },
    /// A copy of the characters from one position of a desk's text to another, put into a text of that desk.
    Saves {
        desk: usize,
        text: TextNo,
        save: Save,
    },
    /// A message handed to a desk's text.
    Takes {
        desk: usize,
        text: TextNo,
        message: Delivery<'a>,
    },
    /// A chunk handed to a desk's text.
    Unpacks {
        desk: usize,
        text: TextNo,
        chunk: Hex<'a>,
    },
    /// A draining of what waits for a desk's text.
    Settles {
        desk: usize,
        text: TextNo,
    },
    /// A merge of another desk's text of this number into a desk's.
    Merges {
        desk: usize,
        text: TextNo,
        other: usize,
    },
    /// A print of a desk's text.
    Queries {
        desk: usize,
        text: TextNo,
        query: Query<'a>,
    },
    /// A print of what a desk's text has on one side of these fronts.
    AsksAt {
        desk: usize,
        text: TextNo,
        side: Side,
        fronts: FrontWords<'a>,
    },
    /// A keeping of a desk's text in its site's file, in this form, with all that it has taken in.
    Keeps {
        desk: usize,
        form: KeptForm,
        text: TextNo,
        name: &'a str,
    },
    /// A reopening of a desk's text, which begins as its site's file tells.
    Reopens {
        desk: usize,
        text: TextNo,
        name: &'a str,
    },
    /// An arrangement of a desk's screen.
    Arranges {
        desk: usize,
        arrangement: Arrangement,
    },
    /// A print of a desk's screen.
    Prints {
        desk: usize,
        view: View,
    },
    /// Bytes of default looks that are put in at the caret.
    Keys {
        desk: usize,
        bytes: Escaped<'a>,
    },
    /// A click into a cell of a desk's screen.
    Clicks {
        desk: usize,
        cell: Cell,
    },
}

/// What an edit asks of a text.
#[derive(Debug, Drop)]
pub enum Edit<'a> {
    /// To type bytes of default looks at a position.
    TypeIn {
        pos: u64,
        bytes: Escaped<'a>,
    },
    /// To take the characters from one position to another out.
    Cut {
        beg: u64,
        end: u64,
    },
    /// To give the characters from one position to another the looks that are selected.
    Looks {
        beg: u64,
        end: u64,
        sel: Sel,
        looks: Looks,
    },
    /// To put a copy of what was cut last in at a position.
    Recall {
        pos: u64,
    },
    /// To show again what was cut last.
    Restore,
}

/// On which side of fronts a text is asked.
#[derive(Clone, Copy, Debug)]
pub enum Side {
    /// For the messages of what it has taken in beyond them.
    Beyond,
    /// For its characters as they were, up to them.
    UpTo,
    /// For chunks of what it has taken in beyond them.
    Packed,
}

/// From where to where of a text is copied, into which other one, and to which position there.
#[derive(Clone, Copy, Debug)]
pub struct Save {
    pub beg: u64,
    pub end: u64,
    pub other: TextNo,
    pub pos: u64,
}

/// How a message is told that is to be taken.
#[derive(Debug, Drop)]
pub enum Delivery<'a> {
    /// By its number among those that were sent, from 1; it may not be sent yet.
    Sent(u32),
    /// By its bytes.
    Bytes(Hex<'a>),
}

// The number of the run's first site, and how many there are.
#[derive(Clone, Copy)]
struct RunSites {
    first: u16,
    count: usize,
}

// How a message is told.
fn delivery_in(word: &[u8]) -> Option<Delivery<'_>>
    ensures delivery { option_map delivery_of result ≡ delivery_in word.now }
    ensures within { IfSome result (λ told. (len : ℕ) → length word.now ≤ len → IsDeliveryWithin len told) }
{
    match word {
        [b'm', number @ ..] => Some(Delivery::Sent(number_in(number)?)),
        _ => Some(Delivery::Bytes(Hex::new(word)?)),
    }
}

// What `save` goes on with after its text: from where to where, the other text, and a position in that.
fn save_event(desk: usize, text: TextNo, rest: &[u8]) -> Option<Event<'_>>
    requires { text ≤ MAX_TEXT }
    ensures event { option_map event_of result ≡ save_event desk text rest.now }
    ensures in_run { IfSome result (λ event. (count : ℕ) → desk < count → IsInRun count event) }
    ensures within { IfSome result (λ event. (len : ℕ) → IsOfLine len event) }
{
    let (beg, rest) = split_number(rest)?;
    let (end, rest) = split_number(rest)?;
    let (other, pos) = split_word(rest)?;
    let save = Save {
        beg,
        end,
        other: text_in(other)?,
        pos: u64::from(number_in(pos)?),
    };
    Some(Event::Saves { desk, text, save })
}

// Names of a site that end the line.
fn names_in(rest: &[u8]) -> Option<NameRange>
    ensures { result ≡ names_in_words rest.now }
{
    let (site, rest) = split_word(rest)?;
    let (at, len) = split_word(rest)?;
    range_of_words(site, at, len)
}

// `where`: names of a site.
fn where_event(desk: usize, text: TextNo, rest: &[u8]) -> Option<Event<'static>>
    requires { text ≤ MAX_TEXT }
    ensures event { option_map event_of result ≡ where_event desk text rest.now }
    ensures in_run { IfSome result (λ event. (count : ℕ) → desk < count → IsInRun count event) }
    ensures within { IfSome result (λ event. (len : ℕ) → IsOfLine len event) }
{
    let query = Query::WhereShown(names_in(rest)?);
    Some(Event::Queries { desk, text, query })
}

// `names`: from where to where.
fn names_event(desk: usize, text: TextNo, rest: &[u8]) -> Option<Event<'static>>
    requires { text ≤ MAX_TEXT }
    ensures event { option_map event_of result ≡ names_event desk text rest.now }
    ensures in_run { IfSome result (λ event. (count : ℕ) → desk < count → IsInRun count event) }
    ensures within { IfSome result (λ event. (len : ℕ) → IsOfLine len event) }
{
    let (beg, rest) = split_number(rest)?;
    let end = u64::from(number_in(rest)?);
    let query = Query::Names { beg, end };
    Some(Event::Queries { desk, text, query })
}

// `merge`: the site whose text is taken over.
fn merge_event(run: RunSites, desk: usize, text: TextNo, rest: &[u8]) -> Option<Event<'static>>
    requires { text ≤ MAX_TEXT }
    ensures event { option_map event_of result ≡ merge_event run.first run.count desk text rest.now }
    ensures in_run { IfSome result (λ event. desk < run.count → IsInRun run.count event) }
    ensures within { IfSome result (λ event. (len : ℕ) → IsOfLine len event) }
{
    let other = desk_in(run.first, run.count, rest)?;
    Some(Event::Merges { desk, text, other })
}

// What a verb asks of a text that ends the line: a row for each verb.
fn short_event(verb: ShortVerb, desk: usize, text: TextNo) -> Event<'static>
    requires { text ≤ MAX_TEXT }
    ensures event { event_of result ≡ short_event verb desk text }
    ensures in_run { (count : ℕ) → desk < count → IsInRun count result }
    ensures within { (len : ℕ) → IsOfLine len result }
{
    match verb {
        ShortVerb::Settle => Event::Settles { desk, text },
        ShortVerb::Text => {
            let query = Query::Text;
            Event::Queries { desk, text, query }
        }
        ShortVerb::Front => {
            let query = Query::Front;
            Event::Queries { desk, text, query }
        }
        ShortVerb::Runs => {
            let query = Query::Runs;
            Event::Queries { desk, text, query }
        }
    }
}

// The edit that a verb asks for with what stands after the text: a row for each verb.
fn edit_in(verb: EditVerb, rest: &[u8]) -> Option<Edit<'_>>
    ensures edit { option_map edit_of result ≡ edit_in verb rest.now }
    ensures short { IfSome result (λ edit. (len : ℕ) → length rest.now ≤ len → TypesAtMost len edit) }
{
    match verb {
        EditVerb::TypeIn => type_edit(rest),
        EditVerb::Cut => cut_edit(rest),
        EditVerb::Looks => looks_edit(rest),
        EditVerb::Recall => recall_edit(rest),
    }
}

// What else a verb asks of a text with what stands after it: a row for each verb.
fn long_event<'a>(
    run: RunSites,
    verb: LongVerb,
    desk: usize,
    text: TextNo,
    rest: &'a [u8],
) -> Option<Event<'a>>
    requires { text ≤ MAX_TEXT }
    ensures event { option_map event_of result ≡ long_event run.first run.count verb desk text rest.now }
    ensures in_run { IfSome result (λ event. desk < run.count → IsInRun run.count event) }
    ensures within { IfSome result (λ event. (len : ℕ) → length rest.now ≤ len → IsOfLine len event) }
{
    match verb {
        LongVerb::Save => save_event(desk, text, rest),
        LongVerb::Take => {
            let message = delivery_in(rest)?;
            Some(Event::Takes {
                desk,
                text,
                message,
            })
        }
        LongVerb::Unpack => {
            let chunk = Hex::new(rest)?;
            Some(Event::Unpacks { desk, text, chunk })
        }
        LongVerb::Merge => merge_event(run, desk, text, rest),
        LongVerb::Where => where_event(desk, text, rest),
        LongVerb::Names => names_event(desk, text, rest),
    }
}

// What a query at fronts goes on with after its text: the fronts.
fn fronts_event<'a>(
    side: Side,
    desk: usize,
    text: TextNo,
    rest: Option<&'a [u8]>,
) -> Option<Event<'a>>
    requires { text ≤ MAX_TEXT }
    ensures event { option_map event_of result ≡ fronts_event side desk text (option_map (λ rest. rest.now) rest.entry) }
    ensures in_run { IfSome result (λ event. (count : ℕ) → desk < count → IsInRun count event) }
    ensures within { IfSome result (λ event. (len : ℕ)
        → IfSome rest.entry (λ rest. length rest.now ≤ len) → IsOfLine len event) }
{
    let fronts = FrontWords::new(rest)?;
    Some(Event::AsksAt {
        desk,
        text,
        side,
        fronts,
    })
}

// What an edit by names goes on with after its text: the names; without any, what was cut last is shown again.
fn by_names_event<'a>(
    what: ByNames,
    desk: usize,
    text: TextNo,
    rest: Option<&'a [u8]>,
) -> Option<Event<'a>>
    requires { text ≤ MAX_TEXT }
    ensures event { option_map event_of result ≡ by_names_event what desk text (option_map (λ rest. rest.now) rest.entry) }
    ensures in_run { IfSome result (λ event. (count : ℕ) → desk < count → IsInRun count event) }
    ensures within { IfSome result (λ event. (len : ℕ)
        → IfSome rest.entry (λ rest. length rest.now ≤ len) → IsOfLine len event) }
{
    let Some(words) = rest else {
        return match what {
            ByNames::Delete => None,
            ByNames::Restore => {
                let edit = Edit::Restore;
                Some(Event::Edits { desk, text, edit })
            }
        };
    };
    let names = NameWords::new(words)?;
    Some(Event::EditsByNames {
        desk,
        text,
        what,
        names,
    })
}

// The arrangement that a verb asks for with what stands after it: a row for each verb.
fn arrangement_in(verb: ArrangeVerb, rest: &[u8]) -> Option<Arrangement>
    ensures arrangement { result ≡ arrangement_in verb rest.now }
    ensures on_desk { IfSome result (λ arrangement. OpensDeskText arrangement) }
{
    match verb {
        ArrangeVerb::Open => open_arrangement(rest),
        ArrangeVerb::Close => close_arrangement(rest),
        ArrangeVerb::Move => move_arrangement(rest),
        ArrangeVerb::Scroll => scroll_arrangement(rest),
        ArrangeVerb::Point => point_arrangement(rest),
        ArrangeVerb::Select => select_arrangement(rest),
    }
}

// What else a verb asks of a desk with what stands after it: a row for each verb.
fn desk_event<'a>(verb: DeskVerb, desk: usize, rest: &'a [u8]) -> Option<Event<'a>>
    ensures event { option_map event_of result ≡ desk_event verb desk rest.now }
    ensures in_run { IfSome result (λ event. (count : ℕ) → desk < count → IsInRun count event) }
    ensures within { IfSome result (λ event. (len : ℕ) → length rest.now ≤ len → IsOfLine len event) }
{
    match verb {
        DeskVerb::Keep => {
            let Some((form, text, name)) = keeping_in(rest) else {
                return None;
            };
            Some(Event::Keeps {
                desk,
                form,
                text,
                name,
            })
        }
        DeskVerb::Reopen => {
            let Some((text, name)) = filing_in(rest) else {
                return None;
            };
            Some(Event::Reopens { desk, text, name })
        }
        DeskVerb::Key => {
            let bytes = Escaped::new(rest)?;
            Some(Event::Keys { desk, bytes })
        }
        DeskVerb::Click => {
            let cell = cell_in(rest)?;
            Some(Event::Clicks { desk, cell })
        }
    }
}

// What a verb asks with what stands after its blank, if it doesn't end the line.
fn verb_event<'a>(
    run: RunSites,
    verb: Verb,
    desk: usize,
    rest: Option<&'a [u8]>,
) -> Option<Event<'a>>
    ensures event { option_map event_of result
        ≡ verb_event run.first run.count verb desk (option_map (λ rest. rest.now) rest.entry) }
    ensures in_run { IfSome result (λ event. desk < run.count → IsInRun run.count event) }
    ensures within { IfSome result (λ event. (len : ℕ)
        → IfSome rest.entry (λ rest. length rest.now ≤ len) → IsOfLine len event) }
{
    match verb {
        Verb::Prints(view) => match rest {
            Some(_) => None,
            None => Some(Event::Prints { desk, view }),
        },
        Verb::Short(verb) => Some(short_event(verb, desk, text_in(rest?)?)),
        Verb::Fronts(side) => {
            let (text, rest) = front_word(rest?);
            fronts_event(side, desk, text_in(text)?, rest)
        }
        Verb::ByNames(what) => {
            let (text, rest) = front_word(rest?);
            by_names_event(what, desk, text_in(text)?, rest)
        }
        Verb::Edit(verb) => {
            let (text, rest) = split_word(rest?)?;
            let text = text_in(text)?;
            let edit = edit_in(verb, rest)?;
            Some(Event::Edits { desk, text, edit })
        }
        Verb::Long(verb) => {
            let (text, rest) = split_word(rest?)?;
            long_event(run, verb, desk, text_in(text)?, rest)
        }
        Verb::Arrange(verb) => {
            let arrangement = arrangement_in(verb, rest?)?;
            Some(Event::Arranges { desk, arrangement })
        }
        Verb::Desk(verb) => desk_event(verb, desk, rest?),
    }
}

/// The event that a line spells, where `count` sites run from `first` on, or `None` where it spells none.
#[tactic(auto, unfolding(crate::specs::Script::spelled_event))]
pub fn event_in<'a>(first: u16, count: usize, line: &'a [u8]) -> Option<Event<'a>>
    ensures event { event_or_unknown result ≡ event_in first count line.now }
    ensures in_run { IfSome result (λ event. IsInRun count event) }
    ensures within { IfSome result (λ event. IsOfLine (length line.now) event) }
{
    let (site, rest) = split_word(line)?;
    let (word, rest) = front_word(rest);
    let verb = Verb::named(word)?;
    let desk = desk_in(first, count, site)?;
    verb_event(RunSites { first, count }, verb, desk, rest)
}
