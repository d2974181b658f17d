ghost use Rattle.std.specs.Prelude.{ℕ, List, Option};
ghost use Rattle.viewers.specs.declared.screen.Track.{Track};
ghost use Rattle.viewers.specs.declared.seats.Seat.{Seat};
ghost use Rattle.viewers.specs.Laws.{AreUnused, ClosingKeepsOthers, MovingKeepsOthers, OpeningKeepsOthers};
ghost use Rattle.viewers.specs.Laws.{OpeningRises, ShowWhereTheyStand, StaysCovered};
ghost use Rattle.viewers.specs.Screen.{ScreenSeen};
ghost use Rattle.viewers.specs.Viewers.{ViewersSeen};

/// A law: a track that its viewers cover stays covered as viewers open, close and move.
pub fn a_track_stays_covered()
    ensures { (height : ℕ) (seats : List Seat) → StaysCovered height seats }
{}

/// A law: as a viewer opens, closes or moves, each other viewer keeps its area, but the neighbour that gives rows or
/// takes them.
pub fn others_keep_their_rows()
    ensures opening { (s : ScreenSeen) (track : Track) (v row : ℕ) → OpeningKeepsOthers s track v row }
    ensures closing { (s : ScreenSeen) (v : ℕ) → ClosingKeepsOthers s v }
    ensures moving { (s : ScreenSeen) (v row : ℕ) → MovingKeepsOthers s v row }
{}

/// A law: a viewer is on the screen where it shows something, and nowhere else.
pub fn viewers_show_where_they_stand<C>()
    ensures { (s : ViewersSeen C) → ShowWhereTheyStand s }
{}

/// A law: no number is used twice, as a viewer gets one that none has and numbers only rise. What closes or moves leaves the
/// next number as it is.
pub fn a_number_is_used_once<C>()
    ensures unused { (s : ViewersSeen C) → AreUnused s }
    ensures rises { (s : ViewersSeen C) (track : Track) (row : Option ℕ) (c : C) → OpeningRises s track row c }
{}
