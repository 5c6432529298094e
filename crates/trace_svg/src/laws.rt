//! Laws of piles and of stacks. The functions do nothing: what they ensure is the law.
ghost use Rattle.trace_svg.specs.Laws.{BarsAreCounted, BarsLieOnPiles, BarsOfPilesOverlap, MarksAreCounted, PilesDoNotOverlap, PilesHoldBars, PilesReachOverBars, StacksHoldMarks, StacksStandApart};

/// The piles of a lane, one behind the other, are its bars, in their order. None is empty.
pub fn piles_hold_bars()
    ensures { PilesHoldBars }
{}

/// The piles of all lanes have as many bars as there are: each worker that a line can name has its lane.
pub fn bars_are_counted()
    ensures { BarsAreCounted }
{}

/// Each bar of a pile but the first begins left of where those before it in the pile end.
pub fn bars_lie_on_piles()
    ensures { BarsLieOnPiles }
{}

/// Of two piles of a lane the one that stands first ends no further right than where the other begins.
pub fn piles_do_not_overlap()
    ensures { PilesDoNotOverlap }
{}

/// Each pile of a picture of a trace reaches over each of its bars.
pub fn piles_reach_over_bars()
    ensures { PilesReachOverBars }
{}

/// The bars of a pile of a picture of a trace lie over one another: each but the first over one of those before it.
pub fn bars_of_piles_overlap()
    ensures { BarsOfPilesOverlap }
{}

/// The stacks of a row, one behind the other, are its marks, in their order. None is empty, and all marks of one stand at one place.
pub fn stacks_hold_marks()
    ensures { StacksHoldMarks }
{}

/// The numbers of the stacks of all rows add up to the number of marks.
pub fn marks_are_counted()
    ensures { MarksAreCounted }
{}

/// No two stacks of a row of a picture of a trace stand at one place: they stand from left to right.
pub fn stacks_stand_apart()
    ensures { StacksStandApart }
{}
