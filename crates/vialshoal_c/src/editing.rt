//! A session's edits of its own.

ghost use Rattle.std.specs.Prelude.{◌≡◌, ◌<◌, ◌≤◌, length, map, nat_le, IfErr, IfNone, IfOk, IfSome, IsSome, ◌↔◌};
ghost use Rattle.looks.specs.FontName.{IsFontName};
ghost use Rattle.looks.specs.Looks.{plain_looks};
ghost use Rattle.looks.specs.Refusal.{RefusedForMemoryAlone};
ghost use Rattle.looks.specs.declared.colour.TheConstants.{MAX_COLOUR};
ghost use Rattle.texts.specs.Edit.{deletion, is_range_in, looks_change, recalling, restoration};
ghost use Rattle.texts.specs.Order.{with_selected};
ghost use Rattle.texts.specs.TextState.{shown_of};
ghost use Rattle.vialshoal_c.specs.Editing.{AreLooks, Dresses, EditsSession, InsertsRun, asked_looks, number_of_edit};
ghost use Rattle.vialshoal_c.specs.Editing.{AnswersBytes, AreFontAndColour, InsertsBytes, InsertsInLooks, sent_by};

use crate::numbers::{NO_NUMBER, OUT_OF_TEXT, TOO_LONG};
use crate::session::Session;
use crate::showing::has_range;
use char_files::{Buffer, MAX_FILE};
use looks::{Colour, FontName, Looks, Refusal, Sel};
use std::alloc::Global;
use texts::EditRefusal;

/// An edit's answer: its number, and how many messages it sent.
#[derive(Clone, Copy)]
pub(crate) struct Edited {
    pub(crate) number: u32,
    pub(crate) sent: u32,
}

impl Edited {
    // Nothing was done, for misuse.
    pub(crate) fn misused(number: u32) -> Edited
        ensures { (result.number ≡ number) × (result.sent ≡ 0) }
    {
        Edited { number, sent: 0 }
    }

    // What a replica answered.
    pub(crate) fn of(answer: Result<u32, EditRefusal>) -> Edited
        ensures { (result.number ≡ number_of_edit answer) × (result.sent ≡ sent_by answer) }
    {
        match answer {
            Ok(sent) => Edited { number: 0, sent },
            Err(EditRefusal::Whole(why)) => Edited {
                number: u32::from(why.number()),
                sent: 0,
            },
            Err(EditRefusal::Partial { done, why }) => Edited {
                number: u32::from(why.number()),
                sent: done,
            },
        }
    }
}

// The looks that are selected of these, and the default ones elsewhere; `None` where one that is selected is none.
pub(crate) fn asked_looks(sel: Sel, font: &[u8], colour: u8, offset: i8) -> Option<Looks>
    ensures some { IfSome result (λ looks. looks ≡ asked_looks sel font.now colour offset) }
    ensures valid { IsSome result ↔ AreLooks sel font.now colour }
{
    let mut looks = Looks::plain();
    if sel.font() {
        looks.font = FontName::new(font)?;
    }
    if sel.colour() {
        looks.colour = Colour::new(colour)?;
    }
    if sel.offset() {
        looks.offset = offset;
    }
    Some(looks)
}

// Whether these bytes aren't too many for any text.
pub(crate) fn are_few(bytes: &[u8]) -> bool
    ensures { result ≡ nat_le (length bytes.now) MAX_FILE }
{
    bytes.len() as u64 <= MAX_FILE
}

// The looks of this font, colour and offset, or `None` where they are none.
fn looks_of(font: &[u8], colour: u8, offset: i8) -> Option<Looks>
    ensures some { IfSome result (λ looks. looks ≡ record { font = font.now; colour = colour; offset = offset }) }
    ensures valid { IsSome result ↔ AreFontAndColour font.now colour }
{
    Some(Looks {
        font: FontName::new(font)?,
        colour: Colour::new(colour)?,
        offset,
    })
}

// These bytes in these looks. Refused `OutOfMemory` alone, and where there are bytes.
pub(crate) fn stretch_of(alloc: Global, bytes: &[u8], looks: &Looks) -> Result<Buffer, Refusal>
    requires { length bytes.now ≤ MAX_FILE }
    ensures ok { IfOk result (λ stretch. stretch ≡ map (λ b. (b, looks.now)) bytes.now) }
    ensures some { IfErr result (λ _. 0 < length bytes.now) }
    ensures errors { RefusedForMemoryAlone result }
{
    let mut stretch = Buffer::new(alloc);
    if !bytes.is_empty() {
        stretch.push_all(bytes, looks)?;
    }
    Ok(stretch)
}

impl Session {
    // Whether so many characters are shown at least.
    pub(crate) fn has_position(&self, pos: u64) -> bool
        ensures { result ≡ nat_le pos (length (shown_of self.now.text)) }
    {
        pos <= self.replica.shown_len()
    }

    // Whether a range lies in the text.
    pub(crate) fn has_range(&self, beg: u64, end: u64) -> bool
        ensures { result ≡ is_range_in self.now.text beg end }
    {
        has_range(&self.replica, beg, end)
    }

    /// Puts bytes in default looks after the first `pos` characters.
    pub(crate) fn insert(&mut self, pos: u64, bytes: &[u8]) -> Edited
        ensures { InsertsRun self.old pos bytes.now plain_looks result.number result.sent self.new }
    {
        if !are_few(bytes) {
            return Edited::misused(TOO_LONG);
        }
        if !self.has_position(pos) {
            return Edited::misused(OUT_OF_TEXT);
        }
        Edited::of(self.replica.type_in(pos, bytes, &mut self.outbox))
    }

    // Hands bytes in these looks on to the text.
    fn hand_on(
        &mut self,
        alloc: Global,
        pos: u64,
        bytes: &[u8],
        looks: &Looks,
    ) -> Result<u32, EditRefusal>
        requires position { pos ≤ length (shown_of self.old.text) }
        requires few { length bytes.now ≤ MAX_FILE }
        ensures { AnswersBytes self.old pos bytes.now looks.now result self.new }
    {
        match stretch_of(alloc, bytes, looks) {
            Ok(stretch) => self.replica.insert(pos, &stretch, &mut self.outbox),
            Err(why) => Err(EditRefusal::Whole(why)),
        }
    }

    // Puts bytes in these looks after the first `pos` characters.
    fn insert_stretch(&mut self, alloc: Global, pos: u64, bytes: &[u8], looks: &Looks) -> Edited
        ensures { InsertsBytes self.old pos bytes.now looks.now result.number result.sent self.new }
    {
        if !are_few(bytes) {
            return Edited::misused(TOO_LONG);
        }
        if !self.has_position(pos) {
            return Edited::misused(OUT_OF_TEXT);
        }
        Edited::of(self.hand_on(alloc, pos, bytes, looks))
    }

    /// Puts bytes in looks of this font, colour and offset after the first `pos` characters.
    pub(crate) fn insert_in_looks(
        &mut self,
        alloc: Global,
        pos: u64,
        bytes: &[u8],
        font: &[u8],
        colour: u8,
        offset: i8,
    ) -> Edited
        ensures { InsertsInLooks self.old pos bytes.now font.now colour offset result.number result.sent self.new }
    {
        match looks_of(font, colour, offset) {
            Some(looks) => self.insert_stretch(alloc, pos, bytes, &looks),
            None => Edited::misused(NO_NUMBER),
        }
    }

    /// Takes the characters from `beg` to `end` out of what is shown.
    pub(crate) fn delete(&mut self, beg: u64, end: u64) -> Edited
        ensures { EditsSession self.old (deletion beg end) result.number result.sent self.new }
    {
        if !self.has_range(beg, end) {
            return Edited::misused(OUT_OF_TEXT);
        }
        Edited::of(self.replica.delete(beg, end, &mut self.outbox))
    }

    // Gives the characters from `beg` to `end` the looks that are selected.
    fn dress(&mut self, beg: u64, end: u64, sel: Sel, looks: &Looks) -> Edited
        ensures { EditsSession self.old (looks_change beg end sel looks.now) result.number result.sent self.new }
    {
        if !self.has_range(beg, end) {
            return Edited::misused(OUT_OF_TEXT);
        }
        let answer = self
            .replica
            .change_looks(beg, end, sel, looks, &mut self.outbox);
        Edited::of(answer)
    }

    /// Gives the characters from `beg` to `end` the looks of these that the bits select.
    pub(crate) fn change_looks(
        &mut self,
        beg: u64,
        end: u64,
        bits: u8,
        font: &[u8],
        colour: u8,
        offset: i8,
    ) -> Edited
        ensures { Dresses self.old beg end bits font.now colour offset result.number result.sent self.new }
    {
        let Some(sel) = Sel::new(bits) else {
            return Edited::misused(NO_NUMBER);
        };
        match asked_looks(sel, font, colour, offset) {
            Some(looks) => self.dress(beg, end, sel, &looks),
            None => Edited::misused(NO_NUMBER),
        }
    }

    /// Shows again what was cut last by positions.
    pub(crate) fn restore(&mut self) -> Edited
        ensures { EditsSession self.old restoration result.number result.sent self.new }
    {
        Edited::of(self.replica.restore(&mut self.outbox))
    }

    /// Puts a copy of what was cut last by positions after the first `pos` characters.
    pub(crate) fn recall(&mut self, pos: u64) -> Edited
        ensures { EditsSession self.old (recalling pos) result.number result.sent self.new }
    {
        if !self.has_position(pos) {
            return Edited::misused(OUT_OF_TEXT);
        }
        Edited::of(self.replica.insert_recalled(pos, &mut self.outbox))
    }
}
