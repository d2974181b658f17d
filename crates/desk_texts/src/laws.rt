//! Laws of what is printed, over the definitions alone.

ghost use Rattle.desk_texts.specs.Laws.{WhereGivesNamesBack};

/// A law: `names` tells of all that is shown between two positions, by stretches as long as they can be; asked for the names
/// of such a stretch, `where` prints that they are shown at these positions, and nothing else.
pub fn where_gives_names_back()
    ensures { WhereGivesNamesBack }
{}
