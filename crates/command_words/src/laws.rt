ghost use Rattle.command_words.specs.Calls.{OneCall, OneCommand, OneWord};

/// A law: at most one call, its command and its token, stands at a position. For at most one word contains the
/// position, and this is at most one command's.
pub fn one_call()
    ensures command { OneCommand }
    ensures word { OneWord }
    ensures call { OneCall }
{}
