ghost use Rattle.std.specs.Prelude.{◌≡◌, [], IfOk};
ghost use Rattle.looks.specs.Refusal.{RefusedForMemoryAlone};
ghost use Rattle.texts.specs.Changes.{noting_ended};
ghost use Rattle.texts.specs.TextState.{empty_text};
ghost use Rattle.vialshoal_c.specs.SessionState.{session_of};

use crate::numbers::KEPT_ROOM;
use char_files::{SiteNo, TextNo};
use list_changes::Change;
use looks::Refusal;
use std::alloc::Global;
use std::marker::Model;
use texts::{Outbox, Replica};

/// What an open handle holds.
#[derive(Drop)]
pub struct Session {
    pub(crate) replica: Replica,
    // The messages that edits sent, until they are let go.
    pub(crate) outbox: Outbox,
    // Changes that were asked for, until they go into a room.
    pub(crate) told: Vec<Change>,
    alloc: Global,
}

impl Model for Session {
    ghost use Rattle.vialshoal_c.specs.SessionState.{SessionState};

    ghost Value = { SessionState };

    ghost view = { λ s. record { text = s.replica; sent = s.outbox; told = s.told.items } };
}

impl Session {
    /// A session of a replica.
    pub(crate) fn of(alloc: Global, replica: Replica) -> Session
        ensures { result ≡ session_of replica }
    {
        Session {
            replica,
            outbox: Outbox::new(alloc),
            told: Vec::new(alloc),
            alloc,
        }
    }

    /// A session of a text that nothing has changed. Refused `OutOfMemory` alone.
    pub(crate) fn begin(alloc: Global, text: TextNo, site: SiteNo) -> Result<Box<Session>, Refusal>
        ensures ok { IfOk result (λ session. session.value ≡ session_of (empty_text text site)) }
        ensures errors { RefusedForMemoryAlone result }
    {
        let replica = Replica::new(alloc, text, site)?;
        Ok(Box::new(alloc, Session::of(alloc, replica))?)
    }

    /// Ends the noting of changes, of which so many characters tell what was reported. Those that weren't handed out are let go.
    pub(crate) fn end_noting(&mut self, shown: u64)
        ensures { self.new ≡ record self.old { text = noting_ended self.old.text shown; told = [] } }
    {
        self.told = Vec::new(self.alloc);
        self.replica.end_noting(shown);
    }

    /// Lets all messages go. The memory of a few is kept for others.
    pub(crate) fn let_go(&mut self)
        ensures { self.new ≡ record self.old { sent = [] } }
    {
        if self.outbox.len() <= KEPT_ROOM {
            self.outbox.clear();
        } else {
            self.outbox = Outbox::new(self.alloc);
        }
    }
}
