ghost use Rattle.std.specs.Prelude.{◌≡◌, ◌≤◌, ◌<◌, ◌++◌, List, ℕ, drop, length, IfOk};
ghost use Rattle.looks.specs.Refusal.{RefusedForMemoryAlone};
ghost use Rattle.machine.specs.Events.{copy, edit, edit_by_names, edit_reply, merge, merge_reply, query, settle, settles};
ghost use Rattle.machine.specs.Events.{unpack, unpack_reply};
ghost use Rattle.machine.specs.State.{new_state};
ghost use Rattle.shelf.specs.Files.{Files};
ghost use Rattle.shelved_texts.specs.Filing.{shelf_seen};
ghost use Rattle.commands.specs.Steps.{print_reply};
ghost use Rattle.script_events.specs.EventView.{edit_of, event_of, IsInRun, IsOfLine, TypesAtMost};
ghost use Rattle.script_events.specs.Script.{query_at, typing};
ghost use Rattle.script_sites.specs.Answers.{reply_lines};
ghost use Rattle.script_sites.specs.Replying.{reply_of};
ghost use Rattle.script_sites.specs.Seen.{OverFiles, Replied, run_seen, sent_after, state_of, texts_of};
ghost use Rattle.script_sites.specs.Sent.{AreSentOperations, messages_at};
ghost use Rattle.script_sites.specs.Trace.{Answers, Step, is_silent};
ghost use Rattle.script_sites.specs.Writing.{PutsToOutput};

mod screen;
mod sending;

use crate::answers::{put_refused, put_reply};
use crate::reply::Reply;
use crate::sent_at::SentAt;
use crate::settings::Settings;
use char_files::{SiteNo, TextNo};
use commands::Desk;
use looks::Refusal;
use machine::{Fronts, MAX_TEXT, Query};
use operations::NameRange;
use script_events::{Edit, Escaped, Event, FrontWords, Hex, NameWords, Save, Side, event_in};
use script_io::{MAX_LINE, Output};
use shelf::Shelf;
use std::alloc::Global;
use std::io::Write;
use std::marker::Model;
use text_chunks::{UnpackRefusal, Unpacked};
use texts::{ByNames, EditRefusal, Front, MergeRefusal, Outbox, Settled};

/// The desks of a run's sites, and the messages whose bytes they hold: the last ones that were sent.
#[derive(Drop)]
pub struct Desks {
    first: u16,
    desks: Vec<Desk>,
    outbox: Outbox,
    // Where the bytes of an event are decoded: there is room for those of any line.
    bytes: Vec<u8>,
    // The same for fronts, and for names.
    fronts: Vec<Front>,
    names: Vec<NameRange>,
}

impl Model for Desks {
    ghost use Rattle.std.specs.Prelude.{◌≤◌, length, vec_capacity};
    ghost use Rattle.script_io.specs.declared.lines.TheConstants.{MAX_LINE};
    ghost use Rattle.script_sites.specs.Seen.{SitesSeen};
    ghost use Rattle.script_sites.specs.declared.settings.TheConstants.{MAX_SITES};

    ghost Value = { SitesSeen };

    ghost view = { λ s. record { first = s.first; desks = s.desks.items; sent = s.outbox } };

    ghost invariant = { λ s. (length s.desks.items ≤ MAX_SITES) × (MAX_LINE ≤ vec_capacity s.bytes)
        × (MAX_LINE ≤ vec_capacity s.fronts) × (MAX_LINE ≤ vec_capacity s.names) };
}

// Whether a line is answered by nothing.
fn is_silent(line: &[u8]) -> bool
    ensures { result ≡ is_silent line.now }
{
    matches!(line, [] | [b'#', ..])
}

impl Desks {
    /// The sites as a run begins. Refused `OutOfMemory` alone.
    pub fn new(alloc: Global, settings: Settings) -> Result<Desks, Refusal>
        ensures ok { IfOk result (λ desks. (files : Files) → state_of desks files
            ≡ new_state settings.first settings.count settings.width settings.height files) }
        ensures errors { RefusedForMemoryAlone result }
    {
        let bytes = Vec::with_capacity(alloc, MAX_LINE)?;
        let fronts = Vec::with_capacity(alloc, MAX_LINE)?;
        let names = Vec::with_capacity(alloc, MAX_LINE)?;
        let Settings {
            first,
            count,
            width,
            height,
        } = settings;
        let mut desks = Vec::new(alloc);
        for i in 0..count {
            let site = SiteNo::new(first + i).unwrap();
            desks.push(Desk::new(alloc, site, usize::from(width), usize::from(height))?)?;
        }
        Ok(Desks {
            first,
            desks,
            outbox: Outbox::new(alloc),
            bytes,
            fronts,
            names,
        })
    }

    /// Answers a line of the script, where the messages that stand so were sent before those that the desks hold. Refused
    /// `WriteFault` where the writer fails.
    pub fn answer<W: Write, S: Shelf>(
        &mut self,
        noted: &[SentAt],
        output: &mut Output<W>,
        shelf: &mut S,
        line: &[u8],
    ) -> Result<(), Refusal>
        requires held { AreSentOperations (texts_of self.old) noted.now }
        requires short { length line.now ≤ MAX_LINE }
        ensures { (answer : List ℕ) × PutsToOutput result output.old output.new answer
            × OverFiles (shelf_seen (S.files shelf.old) (S.faults shelf.old)) (shelf_seen (S.files shelf.new) (S.faults shelf.new)) (λ was now.
            let before = messages_at (texts_of self.old) noted.now in
            Answers (run_seen (sent_after before self.old) was) line.now answer (run_seen (sent_after before self.new) now)) }
    {
        if is_silent(line) {
            return Ok(());
        }
        // What an event did stands, and its messages are in the Outbox, before the first byte of the answer goes out: the
        // step is taken also where the writer fails.
        let from = self.outbox.len();
        match event_in(self.first, self.desks.len(), line) {
            Some(event) => {
                let reply = self.step(noted, shelf, event);
                put_reply(output, &self.outbox, from, noted.len(), reply)
            }
            None => put_refused(output, Refusal::BadEvent),
        }
    }

    // Does what an event asks: a row for each.
    fn step<S: Shelf>(&mut self, noted: &[SentAt], shelf: &mut S, event: Event) -> Reply
        requires held { AreSentOperations (texts_of self.old) noted.now }
        requires in_run { IsInRun (length self.old.desks) event }
        requires of_line { IsOfLine MAX_LINE event }
        ensures { OverFiles (shelf_seen (S.files shelf.old) (S.faults shelf.old)) (shelf_seen (S.files shelf.new) (S.faults shelf.new)) (λ was now.
            let before = messages_at (texts_of self.old) noted.now in Step (run_seen (sent_after before self.old) was) (event_of event.entry)
            (reply_lines (length (before ++ self.old.sent)) (reply_of result (drop (length (before ++ self.old.sent)) (before ++ self.new.sent))))
            (run_seen (sent_after before self.new) now)) }
    {
        match event {
            Event::Edits { desk, text, edit } => Reply::Edited(self.edit(desk, text, &edit)),
            Event::EditsByNames {
                desk,
                text,
                what,
                names,
            } => Reply::Edited(self.edit_by_names(desk, text, what, &names)),
            Event::Saves { desk, text, save } => Reply::Edited(self.save(desk, text, save)),
            Event::Takes {
                desk,
                text,
                message,
            } => Reply::Taken(self.take(noted, desk, text, &message)),
            Event::Unpacks { desk, text, chunk } => {
                Reply::Unpacked(self.unpack(desk, text, &chunk))
            }
            Event::Settles { desk, text } => Reply::Settled(self.settle(desk, text)),
            Event::Merges { desk, text, other } => Reply::Merged(self.merge(desk, text, other)),
            Event::Queries { desk, text, query } => {
                Reply::Printed(self.desks[desk].query(text, query))
            }
            Event::AsksAt {
                desk,
                text,
                side,
                fronts,
            } => Reply::Printed(self.query_at(desk, text, side, &fronts)),
            Event::Keeps {
                desk,
                form,
                text,
                name,
            } => Reply::Commanded(self.desks[desk].keep(form, text, name, shelf)),
            Event::Reopens { desk, text, name } => {
                Reply::Commanded(self.desks[desk].reopen(text, name, shelf))
            }
            Event::Arranges { desk, arrangement } => self.arrange(desk, arrangement),
            Event::Prints { desk, view } => Reply::Printed(self.desks[desk].view(view)),
            Event::Keys { desk, bytes } => Reply::Edited(self.key(desk, &bytes)),
            Event::Clicks { desk, cell } => {
                let outcome = self.desks[desk].click(cell.col, cell.row, shelf, &mut self.outbox);
                Reply::Commanded(outcome)
            }
        }
    }

    // Makes an edit of a desk's text.
    fn edit(&mut self, desk: usize, text: TextNo, asked: &Edit) -> Result<u32, EditRefusal>
        requires in_run { desk < length self.old.desks }
        requires on_desk { text ≤ MAX_TEXT }
        requires short { TypesAtMost MAX_LINE asked.now }
        ensures { (messages : List (List ℕ))
            × Replied self.old (edit desk text (edit_of asked.now)) (edit_reply result messages) self.new }
    {
        match asked {
            Edit::TypeIn { pos, bytes } => self.type_in(desk, text, *pos, bytes),
            Edit::Cut { beg, end } => self.desks[desk].cut(text, *beg, *end, &mut self.outbox),
            Edit::Looks {
                beg,
                end,
                sel,
                looks,
            } => self.desks[desk].looks(text, *beg, *end, *sel, looks, &mut self.outbox),
            Edit::Recall { pos } => self.desks[desk].recall(text, *pos, &mut self.outbox),
            Edit::Restore => self.desks[desk].restore(text, &mut self.outbox),
        }
    }

    // Types bytes of default looks.
    fn type_in(
        &mut self,
        desk: usize,
        text: TextNo,
        pos: u64,
        bytes: &Escaped,
    ) -> Result<u32, EditRefusal>
        requires in_run { desk < length self.old.desks }
        requires on_desk { text ≤ MAX_TEXT }
        requires short { length bytes.now ≤ MAX_LINE }
        ensures { (messages : List (List ℕ)) × Replied self.old
            (edit desk text (typing pos bytes.now)) (edit_reply result messages) self.new }
    {
        match bytes.as_plain() {
            Some(plain) => self.desks[desk].type_in(text, pos, plain, &mut self.outbox),
            None => {
                self.bytes.clear();
                bytes.decode(&mut self.bytes);
                self.desks[desk].type_in(text, pos, &self.bytes, &mut self.outbox)
            }
        }
    }

    // Makes an edit of a desk's text by names.
    fn edit_by_names(
        &mut self,
        desk: usize,
        text: TextNo,
        what: ByNames,
        names: &NameWords,
    ) -> Result<u32, EditRefusal>
        requires in_run { desk < length self.old.desks }
        requires on_desk { text ≤ MAX_TEXT }
        requires within { length names.now ≤ MAX_LINE }
        ensures { (messages : List (List ℕ)) × Replied self.old
            (edit_by_names desk text what names.now) (edit_reply result messages) self.new }
    {
        self.names.clear();
        names.decode(&mut self.names);
        self.desks[desk].edit_by_names(text, what, &self.names, &mut self.outbox)
    }

    // Copies a part of a desk's text into another one.
    fn save(&mut self, desk: usize, text: TextNo, asked: Save) -> Result<u32, EditRefusal>
        requires in_run { desk < length self.old.desks }
        requires on_desk { text ≤ MAX_TEXT }
        requires other_on_desk { asked.other ≤ MAX_TEXT }
        ensures { (messages : List (List ℕ)) × Replied self.old
            (copy desk text asked.beg asked.end asked.other asked.pos) (edit_reply result messages) self.new }
    {
        let Save {
            beg,
            end,
            other,
            pos,
        } = asked;
        self.desks[desk].save(text, beg, end, other, pos, &mut self.outbox)
    }

    // Hands a chunk to a desk's text.
    fn unpack(&mut self, desk: usize, text: TextNo, chunk: &Hex) -> Result<Unpacked, UnpackRefusal>
        requires in_run { desk < length self.old.desks }
        requires on_desk { text ≤ MAX_TEXT }
        requires within { length chunk.now ≤ MAX_LINE }
        ensures { Replied self.old (unpack desk text chunk.now) (unpack_reply result) self.new }
    {
        self.bytes.clear();
        chunk.decode(&mut self.bytes);
        self.desks[desk].unpack(text, &self.bytes)
    }

    // Prints what a desk's text has on one side of some fronts.
    fn query_at(
        &mut self,
        desk: usize,
        text: TextNo,
        side: Side,
        fronts: &FrontWords,
    ) -> Result<Vec<u8>, Refusal>
        requires in_run { desk < length self.old.desks }
        requires on_desk { text ≤ MAX_TEXT }
        requires within { length fronts.now ≤ MAX_LINE }
        ensures { Replied self.old (query desk text (query_at side fronts.now))
            (print_reply result (λ lines. lines.items)) self.new }
    {
        self.fronts.clear();
        fronts.decode(&mut self.fronts);
        let fronts = Fronts::new(&self.fronts);
        let asked = match side {
            Side::Beyond => Query::Since(fronts),
            Side::UpTo => Query::Past(fronts),
            Side::Packed => Query::Pack(fronts),
        };
        self.desks[desk].query(text, asked)
    }

    // Drains what waits for a desk's text.
    fn settle(&mut self, desk: usize, text: TextNo) -> Settled
        requires in_run { desk < length self.old.desks }
        requires on_desk { text ≤ MAX_TEXT }
        ensures { Replied self.old (settle desk text)
            (settles result.drained result.dropped result.stopped) self.new }
    {
        self.desks[desk].settle(text)
    }

    // Merges another desk's text into a desk's. Into itself it brings nothing new.
    fn merge(&mut self, desk: usize, text: TextNo, other: usize) -> Result<u64, MergeRefusal>
        requires in_run { desk < length self.old.desks }
        requires other_in_run { other < length self.old.desks }
        requires on_desk { text ≤ MAX_TEXT }
        ensures { Replied self.old (merge desk text other) (merge_reply result) self.new }
    {
        if other < desk {
            let (front, back) = self.desks.split_at_mut(desk);
            back[0].merge(text, &front[other])
        } else if desk < other {
            let (front, back) = self.desks.split_at_mut(other);
            front[desk].merge(text, &back[0])
        } else {
            self.desks[desk].lemma_has_text(text);
            Ok(0)
        }
    }
}
