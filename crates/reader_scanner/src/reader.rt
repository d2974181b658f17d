ghost use Rattle.std.specs.Prelude.{◌≡◌, ◌+◌, slice_get, MatchOption};

use char_files::Source;
use looks::Looks;
use std::marker::Model;

/// Reads the characters of a source one after the other (Project Oberon, chapter 5). It takes no memory.
#[derive(Drop)]
pub struct Reader<'a, S: Source> {
    source: &'a S,
    pos: u64,
}

impl<'a, S: Source> Model for Reader<'a, S> {
    ghost use Rattle.reader_scanner.specs.ReaderState.{ReaderState};

    ghost Value = { ReaderState };

    ghost view = { λ r. record { items = S.items r.source.now; pos = r.pos } };
}

impl<'a, S: Source> Reader<'a, S> {
    /// Begins at this position, which may be past the end.
    pub fn open(source: &'a S, pos: u64) -> Reader<'a, S>
        ensures { result ≡ record { items = S.items source.now; pos = pos } }
    {
        Reader { source, pos }
    }

    /// The next character with its looks; past the end `None`, again and again.
    pub fn read(&mut self) -> Option<(u8, Looks)>
        ensures value { result ≡ slice_get self.old.items self.old.pos }
        ensures next { MatchOption result (self.new ≡ self.old)
            (λ item. self.new ≡ record self.old { pos = self.old.pos + 1 }) }
    {
        if self.source.len() <= self.pos {
            return None;
        }
        let item = self.source.at(self.pos);
        self.pos += 1;
        Some(item)
    }

    /// The position of the next character.
    pub fn pos(&self) -> u64
        ensures { result ≡ self.now.pos }
    {
        self.pos
    }
}
