//! Laws of the axis, of the scale and of the window of a whole trace. The functions do nothing: what they ensure is the law.
ghost use Rattle.trace_draw.specs.AxisLaws.{StepsReach, TicksStand, MultiplesHaveTicks, TicksAscend, TicksAreFew, PlacesRise, PlacesAreWithin, PlacesReachTheEnds, PlacesAreExact, WholeShowsAll, WholeIsFirstToLast};

/// Seven steps of a window reach over it.
pub fn steps_reach()
    ensures { StepsReach }
{}

/// Each tick of a window stands in it, at a multiple of its step, and says which moment it is.
pub fn ticks_stand()
    ensures { TicksStand }
{}

/// Each multiple of the step that a window shows has a tick.
pub fn multiples_have_ticks()
    ensures { MultiplesHaveTicks }
{}

/// The ticks of a window ascend.
pub fn ticks_ascend()
    ensures { TicksAscend }
{}

/// A window has eight ticks at most.
pub fn ticks_are_few()
    ensures { TicksAreFew }
{}

/// A later moment stands no further to the front.
pub fn places_rise()
    ensures { PlacesRise }
{}

/// No moment stands behind the width.
pub fn places_are_within()
    ensures { PlacesAreWithin }
{}

/// The first moment of a window stands at 0, and the last one at the width.
pub fn places_reach_the_ends()
    ensures { PlacesReachTheEnds }
{}

/// A place is the part of the width that has passed, rounded down.
pub fn places_are_exact()
    ensures { PlacesAreExact }
{}

/// The window of a whole trace shows each of its lines.
pub fn whole_shows_all()
    ensures { WholeShowsAll }
{}

/// The window of a whole trace is from its first line to its last one.
pub fn whole_is_first_to_last()
    ensures { WholeIsFirstToLast }
{}
