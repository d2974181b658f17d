ghost use Rattle.std.specs.Borrow.{Lends, sem};
ghost use Rattle.std.specs.Prelude.{◌≡◌, ◌≤◌, [], map, length, IfErr, IfOk};
ghost use Rattle.looks.specs.Looks.{plain_looks};
ghost use Rattle.looks.specs.Refusal.{RefusedForMemoryAlone};
ghost use Rattle.operations.specs.Spelling.{spelling};
ghost use Rattle.texts.specs.Changes.{TellsOfChanges};
ghost use Rattle.texts.specs.Edit.{deletion, insertion, looks_change, recalling, restoration};
ghost use Rattle.texts.specs.Text.{IsText};
ghost use Rattle.texts.specs.TextState.{TextState, all_told, with_room};
ghost use Rattle.texts.specs.contracts.replica.Replica.{the_row as replica_row};
ghost use Rattle.machine.specs.SiteTexts.{InText, IsTextOf, fresh_texts, with_text};
ghost use Rattle.machine.specs.OnTexts.{CopiesSite, EditsNamesSite, EditsSite, MergesSite, QueriesSite, RefusesQuery, SettlesSite};
ghost use Rattle.machine.specs.OnTexts.{TakesSite, UnpacksSite};
ghost use Rattle.desk_texts.specs.contracts.site_texts.Texts.{the_row};

use crate::editing::{copy_out_of, has_position, has_range};
use crate::names_shown::names_lines;
use crate::packing::pack_lines;
use crate::printing::{front_lines, past_lines, text_lines};
use crate::runs::run_lines;
use crate::since::since_lines;
use crate::where_shown::where_lines;
use char_files::{Buffer, MAX_FILE, SiteNo, TextNo};
use list_changes::Change;
use looks::{Looks, Refusal, Sel};
use machine::{MAX_TEXT, Query};
use operations::{NameRange, Op};
use std::alloc::Global;
use std::marker::Model;
use text_chunks::{UnpackRefusal, Unpacked, unpack};
use texts::{ByNames, EditRefusal, MergeRefusal, Outbox, Replica, Settled, Took};

/// One site's texts, 1 to 16, each empty until it is first changed.
#[derive(Drop)]
pub struct Texts {
    site: SiteNo,
    texts: Vec<Replica>,
}

impl Model for Texts {
    ghost use Rattle.std.specs.Prelude.{◌≡◌, length};
    ghost use Rattle.machine.specs.SiteTexts.{SiteTexts};
    ghost use Rattle.machine.specs.declared.TheConstants.{MAX_TEXT};

    ghost Value = { SiteTexts };

    ghost view = { λ d. record { site = d.site; texts = d.texts.items } };

    ghost invariant = { λ d. length d.texts.items ≡ MAX_TEXT };
}

impl Texts {
    /// A site's desk as it begins. Refused `OutOfMemory` alone.
    pub fn new(alloc: Global, site: SiteNo) -> Result<Texts, Refusal>
        ensures ok { IfOk result (λ desk. desk ≡ fresh_texts site) }
        ensures errors { RefusedForMemoryAlone result }
    {
        // All sixteen at once: an empty replica takes no memory, and no event has to make its text first.
        let mut texts = Vec::new(alloc);
        for number in 1..MAX_TEXT + 1 {
            texts.push(Replica::new(alloc, TextNo::new(number).unwrap(), site)?)?;
        }
        Ok(Texts { site, texts })
    }

    /// Types bytes of default looks at a position of a text.
    ///
    /// This and the other edits answer how many messages they added to the Outbox. They are refused
    /// `OutOfRange` where a position lies outside the text, else as the replica refuses them; an empty edit is
    /// refused for its positions alone.
    pub fn type_in(
        &mut self,
        text: TextNo,
        pos: u64,
        bytes: &[u8],
        outbox: &mut Outbox,
    ) -> Result<u32, EditRefusal>
        requires on_desk { text ≤ MAX_TEXT }
        requires short { length bytes.now ≤ MAX_FILE }
        ensures { EditsSite self.old text (insertion pos (map (λ b. (b, plain_looks)) bytes.now))
            result self.new outbox.old outbox.new }
    {
        let replica = self.replica_mut(text);
        if !has_position(replica, pos) {
            return Err(EditRefusal::Whole(Refusal::OutOfRange));
        }
        replica.type_in(pos, bytes, outbox)
    }

    /// Puts a stretch in at a position of a text.
    pub fn insert(
        &mut self,
        text: TextNo,
        pos: u64,
        items: &Buffer,
        outbox: &mut Outbox,
    ) -> Result<u32, EditRefusal>
        requires on_desk { text ≤ MAX_TEXT }
        ensures { EditsSite self.old text (insertion pos items.now) result
            self.new outbox.old outbox.new }
    {
        let replica = self.replica_mut(text);
        if !has_position(replica, pos) {
            return Err(EditRefusal::Whole(Refusal::OutOfRange));
        }
        replica.insert(pos, items, outbox)
    }

    /// Takes the characters from `beg` to `end` out of a text; they are kept for `recall` and `restore`.
    pub fn cut(
        &mut self,
        text: TextNo,
        beg: u64,
        end: u64,
        outbox: &mut Outbox,
    ) -> Result<u32, EditRefusal>
        requires on_desk { text ≤ MAX_TEXT }
        ensures { EditsSite self.old text (deletion beg end) result self.new outbox.old outbox.new }
    {
        let replica = self.replica_mut(text);
        if !has_range(replica, beg, end) {
            return Err(EditRefusal::Whole(Refusal::OutOfRange));
        }
        replica.delete(beg, end, outbox)
    }

    /// Gives the characters from `beg` to `end` of a text the looks that are selected.
    pub fn change_looks(
        &mut self,
        text: TextNo,
        beg: u64,
        end: u64,
        sel: Sel,
        looks: &Looks,
        outbox: &mut Outbox,
    ) -> Result<u32, EditRefusal>
        requires on_desk { text ≤ MAX_TEXT }
        ensures { EditsSite self.old text (looks_change beg end sel looks.now) result
            self.new outbox.old outbox.new }
    {
        let replica = self.replica_mut(text);
        if !has_range(replica, beg, end) {
            return Err(EditRefusal::Whole(Refusal::OutOfRange));
        }
        replica.change_looks(beg, end, sel, looks, outbox)
    }

    /// Puts a copy of what was cut last out of a text into it, at a position.
    pub fn recall(
        &mut self,
        text: TextNo,
        pos: u64,
        outbox: &mut Outbox,
    ) -> Result<u32, EditRefusal>
        requires on_desk { text ≤ MAX_TEXT }
        ensures { EditsSite self.old text (recalling pos) result self.new outbox.old outbox.new }
    {
        let replica = self.replica_mut(text);
        if !has_position(replica, pos) {
            return Err(EditRefusal::Whole(Refusal::OutOfRange));
        }
        replica.insert_recalled(pos, outbox)
    }

    /// Shows again what was cut last out of a text.
    pub fn restore(&mut self, text: TextNo, outbox: &mut Outbox) -> Result<u32, EditRefusal>
        requires on_desk { text ≤ MAX_TEXT }
        ensures { EditsSite self.old text restoration result self.new outbox.old outbox.new }
    {
        self.replica_mut(text).restore(outbox)
    }

    /// Takes the characters of these names out of what a text shows, or shows them again. Refused `OutOfRange` where one of the
    /// names isn't here, else as the replica refuses it.
    pub fn edit_by_names(
        &mut self,
        text: TextNo,
        what: ByNames,
        names: &[NameRange],
        outbox: &mut Outbox,
    ) -> Result<u32, EditRefusal>
        requires on_desk { text ≤ MAX_TEXT }
        ensures { EditsNamesSite self.old text what names.now result self.new outbox.old outbox.new }
    {
        let replica = self.replica_mut(text);
        if !replica.has_names(names) {
            return Err(EditRefusal::Whole(Refusal::OutOfRange));
        }
        replica.edit_by_names(what, names, outbox)
    }

    /// Puts a copy of the characters from `beg` to `end` of a text into another one, or into itself, at a
    /// position. Refused `FileSpent`, after `OutOfRange`, where there are more than 2^24, and `OutOfMemory` where memory
    /// is refused to the copy, before what the other text's replica refuses.
    pub fn save(
        &mut self,
        text: TextNo,
        beg: u64,
        end: u64,
        other: TextNo,
        pos: u64,
        outbox: &mut Outbox,
    ) -> Result<u32, EditRefusal>
        requires on_desk { text ≤ MAX_TEXT }
        requires other_on_desk { other ≤ MAX_TEXT }
        ensures { CopiesSite self.old text beg end other pos result self.new outbox.old outbox.new }
    {
        match copy_out_of(self.replica(text), beg, end, self.replica(other), pos) {
            Ok(buffer) => self.replica_mut(other).insert(pos, &buffer, outbox),
            Err(why) => Err(EditRefusal::Whole(why)),
        }
    }

    /// Takes a message for a text, as its replica does.
    pub fn take(&mut self, text: TextNo, message: &[u8]) -> Result<Took, Refusal>
        requires on_desk { text ≤ MAX_TEXT }
        ensures { TakesSite self.old text message.now result self.new }
    {
        self.replica_mut(text).take(message)
    }

    /// Takes an operation for a text, as its message is taken.
    pub fn take_op(&mut self, text: TextNo, op: Op) -> Result<Took, Refusal>
        requires on_desk { text ≤ MAX_TEXT }
        ensures { TakesSite self.old text (spelling op) result self.new }
    {
        op.lemma_has_spelling();
        self.replica_mut(text).take_op(op)
    }

    /// Hands the operations of a chunk to a text, as `unpack` does.
    pub fn unpack(&mut self, text: TextNo, chunk: &[u8]) -> Result<Unpacked, UnpackRefusal>
        requires on_desk { text ≤ MAX_TEXT }
        ensures { UnpacksSite self.old text chunk.now result self.new }
    {
        let alloc = *self.texts.allocator();
        unpack(alloc, self.replica_mut(text), chunk)
    }

    /// Drains what waits for a text, as its replica does.
    pub fn settle(&mut self, text: TextNo) -> Settled
        requires on_desk { text ≤ MAX_TEXT }
        ensures { SettlesSite self.old text result.drained result.dropped result.stopped self.new }
    {
        self.replica_mut(text).settle()
    }

    /// Throws away all operations that wait for a text, and answers how many there were.
    pub fn forget(&mut self, text: TextNo) -> u32
        requires { text ≤ MAX_TEXT }
        ensures { InText (λ t new. (result ≡ length t.waiting_room) × (new ≡ with_room t [])) self.old text self.new }
    {
        self.replica_mut(text).forget_waiting()
    }

    /// Takes in what another desk's text of this number holds, as its replica does.
    pub fn merge(&mut self, text: TextNo, other: &Texts) -> Result<u64, MergeRefusal>
        requires on_desk { text ≤ MAX_TEXT }
        ensures { MergesSite self.old text other.now result self.new }
    {
        self.replica_mut(text).merge_from(other.replica(text))
    }

    /// Puts another replica in the place of a text's.
    pub fn replace(&mut self, text: TextNo, replica: Replica)
        requires { text ≤ MAX_TEXT }
        ensures { InText (λ _ new. new ≡ replica) self.old text self.new }
    {
        *self.replica_mut(text) = replica;
    }

    /// What changed of what a text shows since this was last asked for, as its replica tells. It takes no memory.
    pub fn changes(&mut self, text: TextNo) -> Vec<Change>
        requires on_desk { text ≤ MAX_TEXT }
        ensures told { (t : TextState) × IsTextOf self.old text t × TellsOfChanges t result.items }
        ensures asked { InText (λ t new. new ≡ all_told t) self.old text self.new }
    {
        self.replica_mut(text).changes()
    }

    /// Keeps the memory of changes that a text told for those to come, where it is little.
    pub fn reuse(&mut self, text: TextNo, told: Vec<Change>)
        requires on_desk { text ≤ MAX_TEXT }
        ensures { self.new ≡ self.old }
    {
        self.replica_mut(text).reuse(told);
    }

    /// A law: the desk has a text of this number, and it is what its operations define. A proof gets it by calling
    /// this, at no cost.
    pub fn lemma_has_text(&self, text: TextNo)
        requires { text ≤ MAX_TEXT }
        ensures { (t : TextState) × IsTextOf self.now text t × IsText t }
    {
        self.replica(text).lemma_is_text();
    }

    /// The lines that a query prints of a text: a row for each query. Refused `OutOfRange` for positions outside the text, and
    /// else `OutOfMemory` alone.
    pub fn query(&self, text: TextNo, asked: Query) -> Result<Vec<u8>, Refusal>
        requires { text ≤ MAX_TEXT }
        ensures ok { IfOk result (λ lines. QueriesSite self.now text asked.entry lines.items) }
        ensures errors { IfErr result (λ why. RefusesQuery self.now text asked.entry why) }
    {
        let (alloc, replica) = (*self.texts.allocator(), self.replica(text));
        match asked {
            Query::Text => text_lines(alloc, replica),
            Query::Front => front_lines(alloc, replica),
            Query::Runs => run_lines(alloc, replica),
            Query::WhereShown(names) => where_lines(alloc, replica, names),
            Query::Names { beg, end } => names_lines(alloc, replica, beg, end),
            Query::Since(fronts) => since_lines(alloc, replica, &fronts),
            Query::Past(fronts) => past_lines(alloc, replica, &fronts),
            Query::Pack(fronts) => pack_lines(alloc, replica, &fronts),
        }
    }

    /// The replica of a text.
    pub fn replica(&self, text: TextNo) -> &Replica
        requires { text ≤ MAX_TEXT }
        ensures { IsTextOf self.now text result.now }
    {
        &self.texts[text.get() as usize - 1]
    }

    // The same, to be changed.
    fn replica_mut(&mut self, text: TextNo) -> &mut Replica
        requires { text ≤ MAX_TEXT }
        ensures* writes_back { sem 𝓛 (Lends the_row replica_row self.entry result (with_text self.old text)) }
        ensures value { IsTextOf self.old text result.now }
    {
        &mut self.texts[text.get() as usize - 1]
    }
}
