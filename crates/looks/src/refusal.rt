ghost use Rattle.std.specs.Prelude.{◌≡◌, ◌≢◌, ◌<◌, ◌≤◌, OnErr, OnOk};
ghost use Rattle.std.specs.IoError.{error_kind};
ghost use Rattle.looks.specs.declared.refusal.Refusal.TheVariants.{OutOfMemory};
ghost use Rattle.looks.specs.Refusal.{number_of, RefusedForMemoryAlone};

use std::alloc::{AllocError, AllocFailed};
use std::io::{self, ErrorKind};

/// The number of `Refusal::OutOfMemory`, for where it is printed of an outcome that means no other refusal.
pub const OUT_OF_MEMORY: u8 = Refusal::OutOfMemory as u8;

/// Why a call was refused. After a refusal the object is unchanged, unless the call says otherwise.
#[derive(Clone, Copy, Debug, PartialEq, Eq, Hash)]
pub enum Refusal {
    /// The bytes spell no message.
    Malformed = 1,
    /// The message is of another text.
    WrongText = 2,
    /// Another operation has this identity.
    Conflict = 3,
    /// The message's offset in its site's file isn't where that file ends, or it names an own character
    /// after that end.
    BadOffset = 4,
    /// The stamp isn't above each cause's.
    BadStamp = 5,
    /// As many messages wait as may wait.
    RoomFull = 6,
    /// A growth was refused memory. No other crate can make one: it is handed over by an allocation that was refused,
    /// through `From`, and by `within_memory` and `of_error`.
    #[non_exhaustive]
    OutOfMemory = 7,
    /// A waiting message shows that this site has already gone further.
    Behind = 8,
    /// The greatest stamp was taken in.
    StampsSpent = 9,
    /// The site's file, or a stretch, would pass 2^24 bytes.
    FileSpent = 10,
    /// A position or a row is out of range.
    OutOfRange = 11,
    /// A set of names needs more than 1,024 ranges.
    Scattered = 12,
    /// The file is no text file.
    BadFile = 13,
    /// The track has no room for the viewer.
    NoRoom = 14,
    /// There is no such viewer, or none there.
    NoViewer = 15,
    /// There is no such command.
    UnknownCommand = 16,
    /// The command's parameter is of another kind, or its value is out of range.
    BadParameter = 17,
    /// Nothing is selected.
    NoSelection = 18,
    /// The caret isn't set.
    NoCaret = 19,
    /// The line is no event.
    BadEvent = 20,
    /// The reader or the file failed, or the input passed a limit.
    ReadFault = 21,
    /// The writer or the file failed.
    WriteFault = 22,
    /// The site's sequence numbers are spent.
    SeqSpent = 23,
}

impl Refusal {
    /// The number that answers print.
    pub fn number(self) -> u8
        ensures { result ≡ number_of self }
    {
        self as u8
    }

    /// Whether so many are within a limit that stands for memory; refused `OutOfMemory` alone.
    pub fn within_memory(many: usize, most: usize) -> Result<(), Refusal>
        ensures ok { OnOk result (many ≤ most) }
        ensures err { OnErr result (most < many) }
        ensures errors { RefusedForMemoryAlone result }
    {
        if most < many {
            return Err(Refusal::OutOfMemory);
        }
        Ok(())
    }

    /// Why a call ended with this error: `OutOfMemory` where the error says that memory was refused, else `otherwise`.
    pub fn of_error(error: &io::Error, otherwise: Refusal) -> Refusal
        ensures memory { error_kind error.now ≡ ErrorKind.OutOfMemory → result ≡ OutOfMemory }
        ensures other { error_kind error.now ≢ ErrorKind.OutOfMemory → result ≡ otherwise }
    {
        match error.kind() {
            ErrorKind::OutOfMemory => Refusal::OutOfMemory,
            _ => otherwise,
        }
    }
}

impl From<AllocError> for Refusal {
    ghost from_gives = { λ _ refusal. refusal ≡ OutOfMemory };

    fn from(_error: AllocError) -> Refusal {
        Refusal::OutOfMemory
    }
}

impl<T: Drop> From<AllocFailed<T>> for Refusal {
    ghost from_gives = { λ _ refusal. refusal ≡ OutOfMemory };

    fn from(error: AllocFailed<T>) -> Refusal {
        AllocError::from(error).into()
    }
}
