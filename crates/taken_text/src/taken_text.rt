ghost use Rattle.std.specs.Prelude.{◌≡◌, ◌<◌, ◌↔◌, [], ◌∷◌, ◌++◌, length, slice_get};
ghost use Rattle.std.specs.Prelude.{IfOk, IfSome, IsSome, OnOk, OnErr};
ghost use Rattle.looks.specs.Refusal.{RefusedForMemoryAlone};
ghost use Rattle.char_files.specs.CharFiles.{SameBytes};
ghost use Rattle.char_files.specs.declared.name.Anchor.{Anchor};
ghost use Rattle.tree_order.specs.Insertion.{IsInsertAt};
ghost use Rattle.tree_order.specs.Shown.{IsPlace};
ghost use Rattle.tree_order.specs.Tree.{IsChar};
ghost use Rattle.set_laws.specs.Verdict.{HasVerdict, IsNew, ready};
ghost use Rattle.taken_text.specs.Noted.{AreChangesSince, GainsChangesOf, insertion_of};
ghost use Rattle.taken_text.specs.Taken.{IsDefined, IsTaken, chars_shown, shown_of_taken};

use crate::shown::Shown;
use char_files::{Char, CharFiles, Name};
use list_changes::{Change, ChangeKind};
use looks::Refusal;
use op_log::Log;
use operations::{Kind, Op};
use piece_list::{PieceList, Run};
use std::alloc::Global;
use std::marker::Model;
use std::mem;

// The most changes whose memory is kept for those to come.
const MOST_REUSED: usize = 8;

/// The operations that a replica has taken in, found by their identities at once, and the characters that they
/// make: a list of pieces over append-only files. What they change of what is shown is noted until it is asked
/// for.
#[derive(Drop)]
pub struct TakenText {
    pub(crate) log: Log,
    pub(crate) pieces: PieceList,
    pub(crate) files: CharFiles,
    // How many operations there were when the changes were last asked for, and those that the others made.
    pub(crate) asked: u64,
    pub(crate) note: Vec<Change>,
    pub(crate) alloc: Global,
}

impl Model for TakenText {
    ghost use Rattle.taken_text.specs.Noted.{IsNotedText};
    ghost use Rattle.taken_text.specs.Taken.{TakenSeen, seen_in};

    ghost Value = { TakenSeen };

    ghost view = { λ t. seen_in t.log.ops t.pieces.items t.files t.asked };

    ghost invariant = { λ t. IsNotedText t.log.ops t.pieces.items t.files t.asked t.note.items };
}

// Takes in an Insert: its bytes go to the end of its site's file, and its run among the pieces. The note tells of it.
fn insert_run(
    log: &Log,
    pieces: &mut PieceList,
    files: &mut CharFiles,
    note: &mut Vec<Change>,
    op: &Op,
) -> Result<(), Refusal>
    requires taken { IsTaken log.now.ops pieces.old.items files.old }
    requires new { IsNew log.now.ops op.now }
    requires ready { HasVerdict log.now.ops op.now ready }
    requires insert { (cause : Anchor) × IsInsertAt op.now cause }
    ensures ok { OnOk result (IsTaken (log.now.ops ++ op.now ∷ []) pieces.new.items files.new) }
    ensures noted { OnOk result (GainsChangesOf log.now.ops op.now note.old.items note.new.items
        (chars_shown pieces.old.items files.old) (chars_shown pieces.new.items files.new)) }
    ensures errors { RefusedForMemoryAlone result }
    ensures err { OnErr result ((pieces.new.items ≡ pieces.old.items) × SameBytes files.old files.new
        × (note.new.items ≡ note.old.items)) }
{
    op.lemma_has_spelling();
    let Kind::Insert {
        cause,
        at,
        looks,
        bytes,
    } = op.kind()
    else {
        unreachable!()
    };
    let run = Run {
        site: op.site(),
        off: *at,
        len: bytes.len() as u32,
        key: op.key(),
        rising: bytes.len() == 1,
        looks: looks.copy(),
    };
    files.reserve(op.site(), bytes.len())?;
    pieces.place_noting(run, *cause, note)?;
    match files.append(op.site(), bytes) {
        Ok(_) => Ok(()),
        Err(_) => unreachable!(),
    }
}

// Takes in an operation: each kind changes pieces, and an Insert its site's file besides. The note tells of it.
fn apply(
    log: &Log,
    pieces: &mut PieceList,
    files: &mut CharFiles,
    note: &mut Vec<Change>,
    op: &Op,
) -> Result<(), Refusal>
    requires taken { IsTaken log.now.ops pieces.old.items files.old }
    requires new { IsNew log.now.ops op.now }
    requires ready { HasVerdict log.now.ops op.now ready }
    ensures ok { OnOk result (IsTaken (log.now.ops ++ op.now ∷ []) pieces.new.items files.new) }
    ensures noted { OnOk result (GainsChangesOf log.now.ops op.now note.old.items note.new.items
        (chars_shown pieces.old.items files.old) (chars_shown pieces.new.items files.new)) }
    ensures errors { RefusedForMemoryAlone result }
    ensures err { OnErr result ((pieces.new.items ≡ pieces.old.items) × SameBytes files.old files.new
        × (note.new.items ≡ note.old.items)) }
{
    let key = op.key();
    match op.kind() {
        Kind::Insert { .. } => insert_run(log, pieces, files, note, op),
        Kind::Delete { names } => pieces.hide_noting(names, key, note),
        Kind::Restore { names } => pieces.reveal_noting(names, key, note),
        Kind::ChangeLooks { sel, looks, names } => {
            pieces.relook_noting(names, *sel, looks, key, note)
        }
    }
}

// One insertion of so many characters, where there is one. Refused `OutOfMemory` alone.
fn insertion_of(alloc: Global, len: u64) -> Result<Vec<Change>, Refusal>
    ensures ok { IfOk result (λ note. note.items ≡ insertion_of len) }
    ensures errors { RefusedForMemoryAlone result }
{
    let mut note = Vec::new(alloc);
    if len > 0 {
        note.push(Change {
            kind: ChangeKind::Insert,
            beg: 0,
            end: len,
        })?;
    }
    Ok(note)
}

impl TakenText {
    /// Nothing taken in, and no characters. Refused `OutOfMemory` alone.
    pub fn new(alloc: Global) -> Result<TakenText, Refusal>
        ensures ok { IfOk result (λ t. t ≡ record { operations = []; chars = []; asked = 0 }) }
        ensures errors { RefusedForMemoryAlone result }
    {
        Ok(TakenText {
            log: Log::new(alloc),
            pieces: PieceList::new(alloc)?,
            files: CharFiles::new(alloc),
            asked: 0,
            note: Vec::new(alloc),
            alloc,
        })
    }

    /// A law: the operations are good, each after its causes, and the characters are those that the definition
    /// gives. A proof gets it by calling this, at no cost.
    pub fn lemma_is_defined(&self)
        ensures { IsDefined self.now }
    {
        let _ = &self.log;
    }

    /// The operations taken in.
    pub fn log(&self) -> &Log
        ensures { result.now.ops ≡ self.now.operations }
    {
        &self.log
    }

    /// How many characters are shown.
    pub fn shown_len(&self) -> u64
        ensures { result ≡ length (shown_of_taken self.now) }
    {
        self.pieces.shown_len()
    }

    /// The character that is shown at this position, from 0.
    pub fn char_at(&self, pos: u64) -> Char
        requires { pos < length (shown_of_taken self.now) }
        ensures { slice_get (shown_of_taken self.now) pos ≡ Some result }
    {
        let (name, looks) = self.pieces.shown_at(pos);
        Char {
            name,
            byte: self.files.byte(name),
            looks,
        }
    }

    /// How many shown characters stand at or before the character of this name, which may be hidden; `None`
    /// for a name that isn't here.
    pub fn place_of(&self, name: Name) -> Option<u64>
        ensures here { IsSome result ↔ IsChar self.now.operations name }
        ensures place { IfSome result (IsPlace self.now.operations (Anchor.At name)) }
    {
        self.pieces.shown_to(name)
    }

    /// The characters that are shown, in their order, one after the other: takes no memory.
    pub fn shown(&self) -> Shown<'_>
        ensures { result ≡ shown_of_taken self.now }
    {
        self.shown_between(0, self.shown_len())
    }

    /// What the operations taken in since the last call changed of what is shown, in their order. They are
    /// handed out and no longer kept. It takes no memory.
    pub fn changes(&mut self) -> Vec<Change>
        ensures told { AreChangesSince self.old.asked self.old.operations result.items (shown_of_taken self.old) }
        ensures asked { self.new ≡ record self.old { asked = length self.old.operations } }
    {
        self.asked = self.log.len();
        mem::replace(&mut self.note, Vec::new(self.alloc))
    }

    /// Keeps the memory of changes that were told for those to come, where it is little and none are noted.
    pub fn reuse(&mut self, mut told: Vec<Change>)
        ensures { self.new ≡ self.old }
    {
        if self.note.is_empty() && told.capacity() <= MOST_REUSED {
            told.clear();
            self.note = told;
        }
    }

    /// Where more changes than so many are noted, and none was asked for before, one insertion of all that is shown is noted in
    /// their place. Refused `OutOfMemory` alone, and then the note stays.
    pub fn note_together(&mut self, most: usize) -> Result<(), Refusal>
        ensures same { self.new ≡ self.old }
        ensures errors { RefusedForMemoryAlone result }
    {
        if self.asked > 0 || self.note.len() <= most {
            return Ok(());
        }
        self.note = insertion_of(self.alloc, self.pieces.shown_len())?;
        Ok(())
    }

    /// Takes in an operation that is ready: it stands after those that were taken in, and the characters are
    /// then those that the definition gives of them all (`lemma_is_defined`). What it changes of what is shown is noted.
    ///
    /// Refused `OutOfMemory` alone.
    pub fn add(&mut self, op: Op) -> Result<(), Refusal>
        requires new { IsNew self.old.operations op }
        requires ready { HasVerdict self.old.operations op ready }
        ensures ok { OnOk result (self.new.operations ≡ self.old.operations ++ op ∷ []) }
        ensures asked { self.new.asked ≡ self.old.asked }
        ensures errors { RefusedForMemoryAlone result }
        ensures err { OnErr result (self.new ≡ self.old) }
    {
        self.log.reserve(op.site())?;
        apply(
            &self.log,
            &mut self.pieces,
            &mut self.files,
            &mut self.note,
            &op,
        )?;
        self.log.push(op);
        Ok(())
    }
}
