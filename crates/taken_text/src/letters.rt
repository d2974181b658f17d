//! Letters that a site typed one after the other are taken in at once.

ghost use Rattle.std.specs.Prelude.{◌≡◌, ℕ, ◌<◌, ◌≤◌, ◌++◌, All, length, OnOk, OnErr};
ghost use Rattle.looks.specs.Refusal.{RefusedForMemoryAlone};
ghost use Rattle.char_files.specs.CharFiles.{SameBytes};
ghost use Rattle.operations.specs.Letters.{letter, letters};
ghost use Rattle.operations.specs.Spelling.{HasSpelling};
ghost use Rattle.set_laws.specs.Verdict.{HasVerdict, IsNew, ready};
ghost use Rattle.taken_text.specs.Letters.{typed_run};
ghost use Rattle.taken_text.specs.Noted.{IsNotedText};
ghost use Rattle.taken_text.specs.Taken.{IsTaken};

use crate::TakenText;
use char_files::CharFiles;
use list_changes::Change;
use looks::{Key, Refusal};
use op_log::Log;
use operations::{MAX_INSERT, Typing};
use piece_list::{PieceList, Run};

// Letters as one run.
fn run_of(typing: &Typing, len: usize) -> Run
    requires { len ≤ MAX_INSERT }
    ensures { result ≡ typed_run typing.now len }
{
    Run {
        site: typing.site,
        off: typing.at,
        len: len as u32,
        key: Key {
            stamp: typing.stamp,
            site: typing.site.get(),
        },
        rising: true,
        looks: typing.looks.copy(),
    }
}

// Takes in letters: their bytes go to the end of their site's file, and they go among the pieces as one run. The note tells of each.
fn insert_letters(
    log: &Log,
    pieces: &mut PieceList,
    files: &mut CharFiles,
    note: &mut Vec<Change>,
    typing: &Typing,
    bytes: &[u8],
) -> Result<(), Refusal>
    requires taken { IsTaken log.now.ops pieces.old.items files.old }
    requires some { 0 < length bytes.now }
    requires few { length bytes.now ≤ MAX_INSERT }
    requires spelled { All HasSpelling (letters typing.now bytes.now) }
    requires new { (b : ℕ) → IsNew log.now.ops (letter typing.now b) }
    requires ready { (b : ℕ) → HasVerdict log.now.ops (letter typing.now b) ready }
    ensures ok { OnOk result ((asked : ℕ) → IsNotedText log.now.ops pieces.old.items files.old asked note.old.items
        → IsNotedText (log.now.ops ++ letters typing.now bytes.now) pieces.new.items files.new asked note.new.items) }
    ensures errors { RefusedForMemoryAlone result }
    ensures err { OnErr result ((pieces.new.items ≡ pieces.old.items) × SameBytes files.old files.new
        × (note.new.items ≡ note.old.items)) }
{
    let run = run_of(typing, bytes.len());
    files.reserve(typing.site, bytes.len())?;
    pieces.place_noting(run, typing.cause, note)?;
    match files.append(typing.site, bytes) {
        Ok(_) => Ok(()),
        Err(_) => unreachable!(),
    }
}

impl TakenText {
    /// Takes in letters that a site typed one after the other, of which the first is ready: their operations stand after those that
    /// were taken in, in their order, as if each was added after the one before.
    ///
    /// Refused `OutOfMemory` alone, and then none is taken in.
    pub fn add_letters(&mut self, typing: &Typing, bytes: &[u8]) -> Result<(), Refusal>
        requires some { 0 < length bytes.now }
        requires few { length bytes.now ≤ MAX_INSERT }
        requires spelled { All HasSpelling (letters typing.now bytes.now) }
        requires new { (b : ℕ) → IsNew self.old.operations (letter typing.now b) }
        requires ready { (b : ℕ) → HasVerdict self.old.operations (letter typing.now b) ready }
        ensures ok { OnOk result (self.new.operations ≡ self.old.operations ++ letters typing.now bytes.now) }
        ensures asked { self.new.asked ≡ self.old.asked }
        ensures errors { RefusedForMemoryAlone result }
        ensures err { OnErr result (self.new ≡ self.old) }
    {
        self.log.reserve_letters(typing.site, bytes.len())?;
        insert_letters(
            &self.log,
            &mut self.pieces,
            &mut self.files,
            &mut self.note,
            typing,
            bytes,
        )?;
        self.log.push_letters(typing, bytes);
        Ok(())
    }
}
