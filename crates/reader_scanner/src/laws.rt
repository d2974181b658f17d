ghost use Rattle.reader_scanner.specs.Tokens.{TokenThere, OneToken};

/// A law: every source has exactly one token after every position. A proof gets it by calling this, at no
/// cost.
pub fn lemma_one_token()
    ensures there { TokenThere }
    ensures one { OneToken }
{}
