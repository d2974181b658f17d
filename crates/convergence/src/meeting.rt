//! Two sites that meet, with no server between them.

ghost use Rattle.convergence.specs.Meeting.{SinceIsTakenIn, TheyMeet};

/// A law: the messages of what a text has beyond fronts, handed in one after the other to a text that has all up to
/// these fronts, are taken in or were held, and leave there the operations of both.
pub fn since_is_taken_in()
    ensures { SinceIsTakenIn }
{}

/// A law: two texts, each of which is handed what the other has beyond its own fronts, are alike afterwards.
pub fn they_meet()
    ensures { TheyMeet }
{}
