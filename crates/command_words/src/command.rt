ghost use Rattle.std.specs.Prelude.{◌≡◌, ◌≢◌, None, IfSome, length, ◌<◌};
ghost use Rattle.command_words.specs.Commands.{command_row, has_parameter, name_of};

/// A command that a text can call by its word. The forms are those of Project Oberon, chapter 4.
#[derive(Clone, Copy, Debug, PartialEq, Eq)]
pub enum Command {
    /// Opens a viewer on a text in the system track.
    SystemOpen,
    /// Closes the viewer that was clicked.
    SystemClose,
    /// Opens a viewer on a text in the user track.
    EditOpen,
    /// Inserts a file's text at the caret.
    EditLoad,
    /// Stores the clicked viewer's text in a file.
    EditStore,
    /// Inserts what was deleted last at the caret.
    EditRecall,
    /// Brings back the characters that the last own deletion named.
    EditRestore,
    /// Changes the font of the selection.
    EditChangeFont,
    /// Changes the colour of the selection.
    EditChangeColor,
    /// Changes the vertical offset of the selection.
    EditChangeOffset,
    /// Looks for bytes from the caret on.
    EditSearch,
    /// Empties the waiting room of the clicked viewer's text.
    ShareForget,
}

// All commands.
const COMMANDS: [Command; 12] = [
    Command::SystemOpen,
    Command::SystemClose,
    Command::EditOpen,
    Command::EditLoad,
    Command::EditStore,
    Command::EditRecall,
    Command::EditRestore,
    Command::EditChangeFont,
    Command::EditChangeColor,
    Command::EditChangeOffset,
    Command::EditSearch,
    Command::ShareForget,
];

impl Command {
    // Its row of the table: its word, and whether it asks for a parameter.
    fn row(self) -> (&'static [u8], bool)
        ensures { (result.0.now, result.1) ≡ command_row self }
    {
        match self {
            Command::SystemOpen => (b"System.Open", true),
            Command::SystemClose => (b"System.Close", false),
            Command::EditOpen => (b"Edit.Open", true),
            Command::EditLoad => (b"Edit.Load", true),
            Command::EditStore => (b"Edit.Store", true),
            Command::EditRecall => (b"Edit.Recall", false),
            Command::EditRestore => (b"Edit.Restore", false),
            Command::EditChangeFont => (b"Edit.ChangeFont", true),
            Command::EditChangeColor => (b"Edit.ChangeColor", true),
            Command::EditChangeOffset => (b"Edit.ChangeOffset", true),
            Command::EditSearch => (b"Edit.Search", true),
            Command::ShareForget => (b"Share.Forget", false),
        }
    }

    /// Its word.
    pub fn name(self) -> &'static [u8]
        ensures { result.now ≡ name_of self }
    {
        self.row().0
    }

    /// The command of this word, if there is one.
    pub fn named(word: &[u8]) -> Option<Command>
        ensures some { IfSome result (λ command. name_of command ≡ word.now) }
        ensures none { result ≡ None → (command : Command) → name_of command ≢ word.now }
    {
        for command in COMMANDS {
            if command.name() == word {
                return Some(command);
            }
        }
        None
    }

    /// Whether it asks for a parameter, which is the token after its word.
    pub fn has_parameter(self) -> bool
        ensures { result ≡ has_parameter self }
    {
        self.row().1
    }
}
