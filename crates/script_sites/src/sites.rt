ghost use Rattle.std.specs.Prelude.{◌≡◌, ◌≤◌, List, ℕ, length, IfOk};
ghost use Rattle.looks.specs.Refusal.{RefusedForMemoryAlone};
ghost use Rattle.machine.specs.State.{new_state};
ghost use Rattle.shelf.specs.Files.{Files};
ghost use Rattle.shelved_texts.specs.Filing.{shelf_seen};
ghost use Rattle.script_sites.specs.Seen.{OverFiles, run_seen, state_of};
ghost use Rattle.script_sites.specs.Trace.{Answers};
ghost use Rattle.script_sites.specs.Writing.{PutsToOutput};

use crate::desks::Desks;
use crate::sent_at::SentAt;
use crate::settings::Settings;
use looks::Refusal;
use script_io::{MAX_LINE, Output};
use shelf::Shelf;
use std::alloc::Global;
use std::io::Write;
use std::marker::Model;

/// The desks of a run's sites, and the messages that they sent.
#[derive(Drop)]
pub struct Sites {
    desks: Desks,
    // Where the operations of the messages stand whose bytes were let go. Those that were sent after them the desks hold.
    sent: Vec<SentAt>,
}

impl Model for Sites {
    ghost use Rattle.script_sites.specs.Seen.{SitesSeen, sent_after, texts_of};
    ghost use Rattle.script_sites.specs.Sent.{AreSentOperations, AreSound, messages_at};

    ghost Value = { SitesSeen };

    ghost view = { λ s. sent_after (messages_at (texts_of s.desks) s.sent.items) s.desks };

    ghost invariant = { λ s. AreSentOperations (texts_of s.desks) s.sent.items × AreSound (texts_of s.desks) };
}

impl Sites {
    /// The sites as a run begins. Refused `OutOfMemory` alone.
    pub fn new(alloc: Global, settings: Settings) -> Result<Sites, Refusal>
        ensures ok { IfOk result (λ sites. (files : Files) → state_of sites files
            ≡ new_state settings.first settings.count settings.width settings.height files) }
        ensures errors { RefusedForMemoryAlone result }
    {
        let desks = Desks::new(alloc, settings)?;
        let sent = Vec::new(alloc);
        Ok(Sites { desks, sent })
    }

    /// Answers a line of the script. Refused `WriteFault` where the writer fails.
    pub fn answer<W: Write, S: Shelf>(
        &mut self,
        output: &mut Output<W>,
        shelf: &mut S,
        line: &[u8],
    ) -> Result<(), Refusal>
        requires { length line.now ≤ MAX_LINE }
        ensures { (answer : List ℕ) × PutsToOutput result output.old output.new answer
            × OverFiles (shelf_seen (S.files shelf.old) (S.faults shelf.old)) (shelf_seen (S.files shelf.new) (S.faults shelf.new)) (λ was now.
            Answers (run_seen self.old was) line.now answer (run_seen self.new now)) }
    {
        let answered = self.desks.answer(&self.sent, output, shelf, line);
        let _ = self.desks.let_go(&mut self.sent);
        answered
    }
}
