//! What a session is asked, beside what it shows.

ghost use Rattle.std.specs.Prelude.{◌≡◌, ◌++◌, ◌≤◌, [], length, drop};
ghost use Rattle.vialshoal_c.specs.Asking.{Hands, PutsMessage, PutsSites, TellsChanges, TellsFront, TellsReplacement};
ghost use Rattle.vialshoal_c.specs.Asking.{changes_of, number_of_kind};
ghost use Rattle.vialshoal_c.specs.Outputs.{Puts};

use crate::numbers::{
    IS_DELETE, IS_INSERT, IS_REPLACE, NO_MESSAGE, NO_NUMBER, STILL_NOTED, TOO_SHORT,
};
use crate::outputs::{Replacing, TextChange};
use crate::session::Session;
use char_files::SiteNo;
use list_changes::{Change, ChangeKind};
use texts::{Replacement, Replica};

/// What putting something into a room answered: a number, and how much there was to put.
#[derive(Clone, Copy)]
pub(crate) struct Put {
    pub(crate) number: u32,
    pub(crate) need: u64,
}

impl Put {
    // Nothing was put, for misuse.
    pub(crate) fn none(number: u32) -> Put
        ensures { (result.number ≡ number) × (result.need ≡ 0) }
    {
        Put { number, need: 0 }
    }
}

// Puts bytes at the beginning of a room.
pub(crate) fn put_bytes(bytes: &[u8], room: &mut [u8]) -> Put
    ensures { Puts bytes.now room.old result.number result.need room.new }
{
    let need = bytes.len() as u64;
    if room.len() < bytes.len() {
        return Put {
            number: TOO_SHORT,
            need,
        };
    }
    let (front, _) = room.split_at_mut(bytes.len());
    front.copy_from_slice(bytes);
    Put { number: 0, need }
}

// The number of what a change does.
fn number_of_kind(kind: ChangeKind) -> u32
    ensures { result ≡ number_of_kind kind }
{
    match kind {
        ChangeKind::Insert => IS_INSERT,
        ChangeKind::Delete => IS_DELETE,
        ChangeKind::Replace => IS_REPLACE,
    }
}

// Changes alike.
fn fill_with_changes(changes: &[Change], room: &mut [TextChange])
    requires { length changes.now ≤ length room.old }
    ensures { room.new ≡ changes_of changes.now ++ drop (length changes.now) room.old }
{
    let mut at = 0;
    for change in changes {
        room[at] = TextChange {
            kind: number_of_kind(change.kind),
            beg: change.beg,
            end: change.end,
        };
        at += 1;
    }
}

// Puts changes that are kept into a room, and keeps them no longer if it is long enough.
pub(crate) fn put_changes(kept: &mut Vec<Change>, room: &mut [TextChange]) -> Put
    ensures { Hands kept.old.items room.old result.number result.need room.new kept.new.items }
{
    let need = kept.len() as u64;
    if room.len() < kept.len() {
        return Put {
            number: TOO_SHORT,
            need,
        };
    }
    fill_with_changes(kept, room);
    kept.clear();
    Put { number: 0, need }
}

// The numbers of sites alike.
fn fill_with_sites(sites: &[SiteNo], room: &mut [u16])
    requires { length sites.now ≤ length room.old }
    ensures { room.new ≡ sites.now ++ drop (length sites.now) room.old }
{
    let mut at = 0;
    for site in sites {
        room[at] = site.get();
        at += 1;
    }
}

// Puts the numbers of sites at the beginning of a room.
fn put_sites(sites: &[SiteNo], room: &mut [u16]) -> Put
    ensures { Puts sites.now room.old result.number result.need room.new }
{
    let need = sites.len() as u64;
    if room.len() < sites.len() {
        return Put {
            number: TOO_SHORT,
            need,
        };
    }
    fill_with_sites(sites, room);
    Put { number: 0, need }
}

/// Puts the sites of which operations were taken in into a room.
pub(crate) fn put_sites_of(replica: &Replica, room: &mut [u16]) -> Put
    ensures { PutsSites replica.now room.old result.number result.need room.new }
{
    match replica.sites() {
        Ok(sites) => put_sites(&sites, room),
        Err(why) => Put::none(u32::from(why.number())),
    }
}

/// The front of a site.
pub(crate) fn tell_front(replica: &Replica, site: u16, front: &mut u32) -> u32
    ensures { TellsFront replica.now site result front.old front.new }
{
    match SiteNo::new(site) {
        Some(site) => {
            *front = replica.front(site);
            0
        }
        None => NO_NUMBER,
    }
}

impl Session {
    /// Puts a message into a room, of those that edits sent.
    pub(crate) fn message(&self, index: u64, room: &mut [u8]) -> Put
        ensures { PutsMessage self.now.sent index room.old result.number result.need room.new }
    {
        if self.outbox.len() as u64 <= index {
            return Put::none(NO_MESSAGE);
        }
        put_bytes(self.outbox.message(index as usize), room)
    }

    /// Puts the changes of what is shown into a room.
    pub(crate) fn changes(&mut self, room: &mut [TextChange]) -> Put
        ensures { TellsChanges self.old room.old result.number result.need room.new self.new }
    {
        if self.told.is_empty() {
            self.told = self.replica.changes();
        }
        put_changes(&mut self.told, room)
    }

    /// Tells what leads from what was reported last to what is shown, where noting has ended.
    pub(crate) fn replacement(&mut self, replacing: &mut Replacing) -> u32
        ensures { TellsReplacement self.old result replacing.old replacing.new self.new }
    {
        match self.replica.replacement() {
            Some(Replacement { deleted, inserted }) => {
                *replacing = Replacing { deleted, inserted };
                0
            }
            None => STILL_NOTED,
        }
    }
}
