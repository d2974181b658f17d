ghost use Rattle.std.specs.Prelude.{◌≡◌, ◌+◌, ◌<◌, ◌≤◌, ◌^◌, true, All, IsTrue, if◌then◌else◌};
ghost use Rattle.std.specs.Iterator.{YieldsFirst, item_count};
ghost use Rattle.piece_list.specs.Pieces.{GoesOn, piece_of, risen};
ghost use Rattle.piece_list.specs.Shown.{looks_of, piece_run};
ghost use Rattle.piece_list.specs.Values.{IsWithin, piece_in, pieces_in};

use crate::record::PieceRecord;
use crate::run::Run;
use crate::values::ValueTables;
use char_files::SiteNo;
use looks::{Key, Looks};
use piece_raw::Members;
use std::marker::Model;

/// The most characters of a piece.
pub const MAX_PIECE: u32 = 4096;

/// Neighbouring characters of a site's file that one Insert typed, or a row of Inserts of one character each whose stamps rise by one,
/// and that all changes since then took alike.
///
/// Oberon's texts are lists of such pieces (Project Oberon, chapter 5), without keys and registers.
#[derive(Drop)]
pub(crate) struct PieceRef<'a> {
    record: &'a PieceRecord,
    values: &'a ValueTables,
}

impl<'a> Model for PieceRef<'a> {
    ghost use Rattle.piece_list.specs.Piece.{Piece};
    ghost use Rattle.piece_list.specs.Values.{IsWithin, piece_in};

    ghost Value = { Piece };

    ghost view = { λ p. piece_in p.values.now.values p.record.now };

    ghost invariant = { λ p. IsWithin p.values.now.values p.record.now };
}

impl<'a> PieceRef<'a> {
    // The piece that a record stands for.
    pub(crate) fn new(record: &'a PieceRecord, values: &'a ValueTables) -> PieceRef<'a>
        requires { IsWithin values.now.values record.now }
        ensures { result ≡ piece_in values.now.values record.now }
    {
        PieceRef { record, values }
    }

    pub(crate) fn site(&self) -> SiteNo
        ensures { result ≡ self.now.site }
    {
        self.record.site
    }

    // The first name's offset in the site's file.
    pub(crate) fn off(&self) -> u32
        ensures { result ≡ self.now.off }
    {
        self.record.off
    }

    // How many characters there are.
    pub(crate) fn len(&self) -> u32
        ensures { result ≡ self.now.len }
    {
        u32::from(self.record.len)
    }

    // The key of the first one's Insert.
    pub(crate) fn key(&self) -> Key
        ensures { result ≡ self.now.key }
    {
        self.record.key()
    }

    // The key of the Insert of the character after so many others.
    pub(crate) fn key_at(&self, within: u32) -> Key
        requires within { within < self.now.len }
        requires stamps { self.now.rising ≡ true → self.now.key.stamp + self.now.len ≤ 2 ^ 64 }
        ensures { result ≡ risen self.now.rising within self.now.key }
    {
        let mut key = self.key();
        if self.record.rising {
            key.stamp += u64::from(within);
        }
        key
    }

    // Whether they are hidden.
    pub(crate) fn is_hidden(&self) -> bool
        ensures { result ≡ self.now.hidden.value }
    {
        self.values.is_hidden(self.record)
    }

    // The looks of its characters.
    pub(crate) fn looks(&self) -> Looks
        ensures { result ≡ looks_of self.now }
    {
        self.values.looks_of(self.record)
    }

    // The run of all its characters.
    pub(crate) fn run(&self) -> Run
        ensures { result ≡ piece_run self.now }
    {
        Run {
            site: self.site(),
            off: self.off(),
            len: self.len(),
            key: self.key(),
            rising: self.record.rising,
            looks: self.looks(),
        }
    }

    // Whether a run goes on where its characters end, so that one piece may hold both. Of runs those of letters are asked alone.
    pub(crate) fn goes_on(&self, run: &Run) -> bool
        requires { run.now.len < 2 ^ 16 }
        ensures on { IsTrue result → GoesOn self.now (piece_of run.now) }
        ensures otherwise { ¬ IsTrue result → run.now.rising ≡ true → ¬ GoesOn self.now (piece_of run.now) }
    {
        let len = self.record.len;
        if MAX_PIECE < u32::from(len) + run.len || !self.record.is_followed_by(run) {
            return false;
        }
        *self.values.inserted_with(self.record) == run.looks
    }

    // How many of its first `n` characters are shown: all of them, or none.
    pub(crate) fn shown_of(&self, n: u32) -> u32
        ensures { result ≡ (if self.now.hidden.value then 0 else n) }
    {
        if self.is_hidden() { 0 } else { n }
    }
}

/// Pieces in order, each with its number.
#[derive(Drop)]
pub(crate) struct PieceRefs<'a> {
    records: Members<'a, PieceRecord>,
    values: &'a ValueTables,
}

impl<'a> Model for PieceRefs<'a> {
    ghost use Rattle.std.specs.Prelude.{ℕ, List, All};
    ghost use Rattle.piece_list.specs.Piece.{Piece};
    ghost use Rattle.piece_list.specs.Values.{IsWithin, pieces_in};

    ghost Value = { List (ℕ × Piece) };

    ghost view = { λ p. pieces_in p.values.now.values p.records };

    ghost invariant = { λ p. All (λ m. IsWithin p.values.now.values m.1) p.records };
}

impl<'a> Iterator for PieceRefs<'a> {
    type Item = (u64, PieceRef<'a>);

    ghost next_gives = { YieldsFirst (λ rest. rest) };

    ghost remaining = { item_count (λ rest. rest) };

    fn next(&mut self) -> Option<(u64, PieceRef<'a>)> {
        let (number, record) = self.records.next()?;
        Some((number, PieceRef::new(record, self.values)))
    }
}

impl<'a> PieceRefs<'a> {
    // The pieces that these records stand for.
    pub(crate) fn new(records: Members<'a, PieceRecord>, values: &'a ValueTables) -> PieceRefs<'a>
        requires { All (λ m. IsWithin values.now.values m.1) records }
        ensures { result ≡ pieces_in values.now.values records.entry }
    {
        PieceRefs { records, values }
    }
}
