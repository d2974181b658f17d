//! The messages of a run: where their operations stand, which are handed in for them.

ghost use Rattle.std.specs.Prelude.{◌≡◌, ◌≤◌, ◌<◌, ◌+◌, ◌++◌, ℕ, List, [], ◌↔◌, length, IfOk, IfSome, IsTrue};
ghost use Rattle.looks.specs.Refusal.{RefusedForMemoryAlone};
ghost use Rattle.operations.specs.Operation.{Operation};
ghost use Rattle.machine.specs.Events.{sent, take, take_reply};
ghost use Rattle.script_events.specs.EventView.{delivery_of, IsDeliveryWithin};
ghost use Rattle.script_sites.specs.Seen.{Replied, TakesMessage, sent_after, texts_of};
ghost use Rattle.script_sites.specs.Sent.{AreSentOperations, IsOperationAt, IsSentOperation, IsToldAt, messages_at, sent_message};
ghost use Rattle.script_sites.specs.declared.sent_at.SentAt.{SentAt};

use crate::desks::Desks;
use crate::sent_at::SentAt;
use byte_fields::{site_at, stretch_at, text_at};
use char_files::{SiteNo, TextNo};
use looks::Refusal;
use machine::MAX_TEXT;
use operations::Op;
use script_events::Delivery;
use script_io::MAX_LINE;
use texts::Took;

// Where the text's number stands in a message.
const TEXT_FIELD: usize = 4;

// The text and the site of which a message speaks. They say where its operation is looked for, and no more rests on them.
fn text_and_site(message: &[u8]) -> Option<(TextNo, SiteNo)> {
    let (_, rest) = stretch_at(TEXT_FIELD, message)?;
    let Some((text, rest)) = text_at(rest) else {
        return None;
    };
    let Some((site, _)) = site_at(rest) else {
        return None;
    };
    Some((text, site))
}

impl Desks {
    // The operation that stands there. Refused `OutOfMemory` alone.
    fn op_at(&self, at: &SentAt) -> Result<Op, Refusal>
        requires { (op : Operation) × IsOperationAt (texts_of self.now) at.now op }
        ensures ok { IfOk result (IsOperationAt (texts_of self.now) at.now) }
        ensures errors { RefusedForMemoryAlone result }
    {
        self.desks[usize::from(at.desk)]
            .replica(at.text)
            .taken(u64::from(at.place))
    }

    // Where the operation of a message is looked for after which its site's text took in so many, if there is such a place.
    fn place_of(&self, message: &[u8], later: u64) -> Option<SentAt>
        ensures { IfSome result (λ at. (other : Operation) × IsOperationAt (texts_of self.now) at other) }
    {
        let (text, site) = text_and_site(message)?;
        let desk = site.get().checked_sub(self.first)?;
        if self.desks.len() <= usize::from(desk) || MAX_TEXT < text.get() {
            return None;
        }
        let len = self.desks[usize::from(desk)].replica(text).taken_len();
        if len <= later {
            return None;
        }
        let Ok(place) = u32::try_from(len - later - 1) else {
            return None;
        };
        Some(SentAt { place, text, desk })
    }

    // Where the operation of a message stands, if its site's text took in so many after it.
    fn told_at(&self, message: &[u8], later: u64) -> Option<SentAt>
        ensures { IfSome result (IsToldAt (texts_of self.now) message.now) }
    {
        let at = self.place_of(message, later)?;
        let op = self.op_at(&at).ok()?;
        op.lemma_has_spelling();
        if op.is_spelled(message) {
            Some(at)
        } else {
            None
        }
    }

    // Notes where the operations of the messages stand whose bytes are held. They are looked for as the last that their text
    // took in, as those of an edit are. `None` where one isn't found, or memory is refused.
    fn note_each(&self, noted: &mut Vec<SentAt>) -> Option<()>
        ensures { (more : List SentAt) × (noted.new.items ≡ noted.old.items ++ more) × AreSentOperations (texts_of self.now) more
            × IfSome result (λ _. messages_at (texts_of self.now) more ≡ self.now.sent) }
    {
        let count = self.outbox.len();
        for index in 0..count {
            let later = (count - 1 - index) as u64;
            let at = self.told_at(self.outbox.message(index), later)?;
            let Ok(()) = noted.push(at) else {
                return None;
            };
        }
        Some(())
    }

    /// Lets the bytes of the messages go, and notes where their operations stand. Where one isn't found, or memory is refused,
    /// all are held on to, and the answer is no.
    pub fn let_go(&mut self, noted: &mut Vec<SentAt>) -> bool
        requires { AreSentOperations (texts_of self.old) noted.old.items }
        ensures held { AreSentOperations (texts_of self.new) noted.new.items }
        ensures same { sent_after (messages_at (texts_of self.new) noted.new.items) self.new
            ≡ sent_after (messages_at (texts_of self.old) noted.old.items) self.old }
        ensures gone { IsTrue result ↔ (self.new.sent ≡ []) }
    {
        if self.outbox.is_empty() {
            return true;
        }
        let len = noted.len();
        match self.note_each(noted) {
            Some(()) => {
                self.outbox.clear();
                true
            }
            None => {
                noted.truncate(len);
                false
            }
        }
    }

    // Hands the operation that stands there to a desk's text, as its message. Refused `OutOfMemory` where it can't be read.
    fn take_noted(&mut self, at: &SentAt, desk: usize, text: TextNo) -> Result<Took, Refusal>
        requires held { IsSentOperation (texts_of self.old) at.now }
        requires in_run { desk < length self.old.desks }
        requires on_desk { text ≤ MAX_TEXT }
        ensures { TakesMessage self.old desk text (sent_message (texts_of self.old) at.now) result self.new }
    {
        self.desks[desk].lemma_has_text(text);
        let op = self.op_at(at)?;
        self.desks[desk].take_op(text, op)
    }

    // Hands a message whose bytes are held to a desk's text, by its number among them, from 0. Refused `BadEvent` where there is
    // none.
    fn take_held(&mut self, index: usize, desk: usize, text: TextNo) -> Result<Took, Refusal>
        requires in_run { desk < length self.old.desks }
        requires on_desk { text ≤ MAX_TEXT }
        ensures { (before : List (List ℕ)) → Replied (sent_after before self.old)
            (take desk text (sent (length before + index + 1))) (take_reply result) (sent_after before self.new) }
    {
        if self.outbox.len() <= index {
            return Err(Refusal::BadEvent);
        }
        let message = self.outbox.message(index);
        self.desks[desk].take(text, message)
    }

    // Hands the k-th message that was sent to a desk's text. Refused `BadEvent` where it wasn't sent yet.
    fn take_sent(
        &mut self,
        noted: &[SentAt],
        desk: usize,
        text: TextNo,
        k: u32,
    ) -> Result<Took, Refusal>
        requires held { AreSentOperations (texts_of self.old) noted.now }
        requires in_run { desk < length self.old.desks }
        requires on_desk { text ≤ MAX_TEXT }
        ensures { let before = messages_at (texts_of self.old) noted.now in
            Replied (sent_after before self.old) (take desk text (sent k)) (take_reply result) (sent_after before self.new) }
    {
        let k = k as usize;
        if k == 0 {
            return Err(Refusal::BadEvent);
        }
        if k <= noted.len() {
            self.take_noted(&noted[k - 1], desk, text)
        } else {
            self.take_held(k - 1 - noted.len(), desk, text)
        }
    }

    // Hands a message to a desk's text.
    pub(super) fn take(
        &mut self,
        noted: &[SentAt],
        desk: usize,
        text: TextNo,
        delivery: &Delivery,
    ) -> Result<Took, Refusal>
        requires held { AreSentOperations (texts_of self.old) noted.now }
        requires in_run { desk < length self.old.desks }
        requires on_desk { text ≤ MAX_TEXT }
        requires within { IsDeliveryWithin MAX_LINE delivery.now }
        ensures { let before = messages_at (texts_of self.old) noted.now in
            Replied (sent_after before self.old) (take desk text (delivery_of delivery.now)) (take_reply result)
            (sent_after before self.new) }
    {
        match delivery {
            Delivery::Sent(k) => self.take_sent(noted, desk, text, *k),
            Delivery::Bytes(message) => {
                self.bytes.clear();
                message.decode(&mut self.bytes);
                self.desks[desk].take(text, &self.bytes)
            }
        }
    }
}
