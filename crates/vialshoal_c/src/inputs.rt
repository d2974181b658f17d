//! What calls read of memory that C owns.

ghost use Rattle.std.specs.Prelude.{◌≡◌};
ghost use Rattle.note_entries.specs.Bytes.{hash_of};
ghost use Rattle.vialshoal_c.specs.History.{front_given};
ghost use Rattle.vialshoal_c.specs.Naming.{checked_range};
ghost use Rattle.vialshoal_c.specs.NoteFeeding.{c_head, head_given};

use char_files::{MAX_FILE, SiteNo, TextNo};
use note::Head;
use note_entries::Hash;
use operations::NameRange;
use texts::Front;

/// Lasting names of neighbouring characters: so many of a site, from an offset on.
#[repr(C)]
#[derive(Clone, Copy, Debug, PartialEq, Eq)]
pub struct CharNames {
    /// The site that put them in.
    pub site: u16,
    /// The first one's offset among all that this site ever put into the text.
    pub offset: u32,
    /// How many they are.
    pub len: u32,
}

impl CharNames {
    // These names as a replica takes them, or `None` where the numbers are those of no names.
    pub(crate) fn range(self) -> Option<NameRange>
        ensures { result ≡ checked_range self }
    {
        let site = SiteNo::new(self.site)?;
        if self.len == 0 || MAX_FILE < u64::from(self.offset) + u64::from(self.len) {
            return None;
        }
        Some(NameRange::new(site, self.offset, self.len))
    }
}

/// How far the operations of a site go.
#[repr(C)]
#[derive(Clone, Copy, Debug, PartialEq, Eq)]
pub struct SiteFront {
    /// The site.
    pub site: u16,
    /// The number of the last of its operations that is meant, 0 for none.
    pub seq: u32,
}

impl SiteFront {
    // This front as a replica takes it, or `None` where the number is that of no site.
    pub(crate) fn front(self) -> Option<Front>
        ensures { result ≡ front_given self }
    {
        let site = SiteNo::new(self.site)?;
        Some(Front {
            site,
            seq: self.seq,
        })
    }
}

/// A hash or a key.
#[repr(C)]
#[derive(Clone, Copy, Debug, PartialEq, Eq)]
pub struct NoteHash {
    /// The bytes.
    pub bytes: [u8; 32],
}

impl NoteHash {
    // This hash as a note takes it.
    pub(crate) fn hash(&self) -> Hash
        ensures { result ≡ hash_of self.now.bytes }
    {
        Hash::of_bytes(self.bytes)
    }
}

/// The head of an entry of messages.
#[repr(C)]
#[derive(Clone, Copy, Debug, PartialEq, Eq)]
pub struct EntryHead {
    /// Its author's key.
    pub author: NoteHash,
    /// The hash of the message before its first one, zeros before seq 1.
    pub before: NoteHash,
    /// The seq of its first message.
    pub first: u32,
    /// How many messages it has.
    pub count: u16,
    /// The site.
    pub site: u16,
    /// The text.
    pub text: u16,
}

impl EntryHead {
    // A head, as C sees it.
    pub(crate) fn of(head: &Head) -> EntryHead
        ensures { result ≡ c_head head.now }
    {
        EntryHead {
            author: NoteHash {
                bytes: head.author.bytes(),
            },
            before: NoteHash {
                bytes: head.before.bytes(),
            },
            first: head.first,
            count: head.count,
            site: head.site.get(),
            text: head.text.get(),
        }
    }

    // This head as a note takes it, or `None` where the numbers are those of no site or text.
    pub(crate) fn head(&self) -> Option<Head>
        ensures { result ≡ head_given self.now }
    {
        Some(Head {
            author: self.author.hash(),
            site: SiteNo::new(self.site)?,
            text: TextNo::new(self.text)?,
            first: self.first,
            count: self.count,
            before: self.before.hash(),
        })
    }
}
