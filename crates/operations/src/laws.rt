ghost use Rattle.operations.specs.NameSet.{SetOfHasTheNames, NamesDetermineTheSet};

/// A law: a set of names is told by its names, and `set_of` is the one that has these names. A proof gets it
/// by calling this, at no cost.
pub fn sets_are_determined_by_their_names()
    ensures of { SetOfHasTheNames }
    ensures only { NamesDetermineTheSet }
{}
