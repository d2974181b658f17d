//! A session as its site's file, in either form, and what it shows as a text's.

ghost use Rattle.std.specs.Prelude.{◌≡◌, ◌⊎◌, IfErr, IfOk, IsErrOf};
ghost use Rattle.kept_file.specs.KeptFiles.{IsNoKeptFile};
ghost use Rattle.vialshoal_c.specs.Keeping.{IsOfFile, PutsFile, PutsText};
ghost use Rattle.vialshoal_c.specs.SessionState.{session_of};

use crate::asking::{Put, put_bytes};
use crate::session::Session;
use kept_file::{KeptForm, load_kept, store_kept};
use looks::Refusal;
use std::alloc::Global;

impl Session {
    /// The session of a site's file, in either form. Refused `BadFile` where the bytes are none, or `OutOfMemory`.
    pub(crate) fn load(alloc: Global, file: &[u8]) -> Result<Box<Session>, Refusal>
        ensures ok { IfOk result (λ session. (session.value ≡ session_of session.value.text) × IsOfFile file.now session.value.text) }
        ensures refused { IsErrOf result Refusal.BadFile → IsNoKeptFile file.now }
        ensures errors { IfErr result (λ e. (e ≡ Refusal.BadFile) ⊎ (e ≡ Refusal.OutOfMemory)) }
    {
        let replica = load_kept(alloc, file)?;
        Ok(Box::new(alloc, Session::of(alloc, replica))?)
    }

    /// Puts the site's file of the text, in this form, into a room.
    pub(crate) fn store(&self, alloc: Global, form: KeptForm, room: &mut [u8]) -> Put
        ensures { PutsFile form self.now.text room.old result.number result.need room.new }
    {
        let mut file = Vec::new(alloc);
        match store_kept(form, &self.replica, &mut file) {
            Ok(()) => put_bytes(&file, room),
            Err(why) => Put::none(u32::from(why.number())),
        }
    }

    /// Puts the formatted file of what the text shows into a room.
    pub(crate) fn save(&self, alloc: Global, room: &mut [u8]) -> Put
        ensures { PutsText self.now.text room.old result.number result.need room.new }
    {
        let mut saved = Vec::new(alloc);
        match text_file::store(&self.replica, &mut saved) {
            Ok(()) => put_bytes(&saved, room),
            Err(why) => Put::none(u32::from(why.number())),
        }
    }
}
