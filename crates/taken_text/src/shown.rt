ghost use Rattle.std.specs.Prelude.{◌≡◌};
ghost use Rattle.std.specs.Iterator.{YieldsFirst, item_count};
ghost use Rattle.piece_list.specs.Shown.{appearance_in};
ghost use Rattle.taken_text.specs.Shown.{AreInFiles, IsInFile, chars_of_runs, with_byte};

use char_files::{Char, CharFiles, Name};
use piece_list::{Between, Run};
use std::marker::Model;

// The first character of a run.
fn first_of(files: &CharFiles, run: &Run) -> Char
    requires { IsInFile files.now run.now }
    ensures { result
        ≡ with_byte files.now (appearance_in run.now (record { site = run.now.site; off = run.now.off })) }
{
    match Name::new(run.site, run.off) {
        Some(name) => Char {
            name,
            byte: files.byte(name),
            looks: run.looks.copy(),
        },
        None => unreachable!(),
    }
}

/// The characters of a text that are shown, one after the other, without memory: seen as the list of those
/// that are left. Each piece is found once, by the one before it.
#[derive(Drop)]
pub struct Shown<'a> {
    files: &'a CharFiles,
    // What is left of the run that is being read; none after the last one.
    run: Option<Run>,
    // The runs after it.
    walk: Between<'a>,
}

impl<'a> Model for Shown<'a> {
    ghost use Rattle.std.specs.Prelude.{List};
    ghost use Rattle.char_files.specs.declared.character.Char.{Char as Seen};
    ghost use Rattle.taken_text.specs.Shown.{AreInFiles, chars_of_runs, runs_left};

    ghost Value = { List Seen };

    ghost view = { λ s. chars_of_runs s.files.now (runs_left s.run s.walk) };

    ghost invariant = { λ s. AreInFiles s.files.now (runs_left s.run s.walk) };
}

impl<'a> Iterator for Shown<'a> {
    type Item = Char;

    ghost next_gives = { YieldsFirst (λ chars. chars) };

    ghost remaining = { item_count (λ chars. chars) };

    fn next(&mut self) -> Option<Char> {
        let mut run = self.run.take()?;
        let char = first_of(self.files, &run);
        run.off += 1;
        run.len -= 1;
        self.run = if run.len > 0 {
            Some(run)
        } else {
            self.walk.next()
        };
        Some(char)
    }
}

impl<'a> Shown<'a> {
    // All characters of these runs.
    pub(crate) fn of(mut walk: Between<'a>, files: &'a CharFiles) -> Shown<'a>
        requires { AreInFiles files.now walk }
        ensures { result ≡ chars_of_runs files.now walk.entry }
    {
        let run = walk.next();
        Shown { files, run, walk }
    }
}
