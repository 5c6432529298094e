//! Laws of the pictures of traces. The functions do nothing: what they ensure is the law.
ghost use Rattle.trace_draw.specs.Laws.{ConformingTextsAreTraces, MomentsDoNotFall, BarsStart, StartsHaveBars, BarsMeetTheWindow, NoRunHasTwoBars, BarsAreInLanes, FinishesAreTheirOwn, BarsDoNotOverlap, LinesHaveMarks, MarksAreLines, LinesAreCounted, FinishesAreCounted};

/// The lines that a text spells are those of a history, where it conforms.
pub fn conforming_texts_are_traces()
    ensures { ConformingTextsAreTraces }
{}

/// No line of a trace has a moment below that of one before it.
pub fn moments_do_not_fall()
    ensures { MomentsDoNotFall }
{}

/// Each bar stands for a line that starts a run, and its finish is the first by its worker behind that line.
pub fn bars_start()
    ensures { BarsStart }
{}

/// A picture has a bar for each line that starts a run of which its window shows a part: with the worker, the task, the run, the
/// due moment, the moment of the start, and the first finish by the worker behind it.
pub fn starts_have_bars()
    ensures { StartsHaveBars }
{}

/// Each bar of a picture stands for a line that starts a run, and the window shows a part of that run.
pub fn bars_meet_the_window()
    ensures { BarsMeetTheWindow }
{}

/// No two bars of a trace are of the same run of the same task.
pub fn no_run_has_two_bars()
    ensures { NoRunHasTwoBars }
{}

/// The worker of a bar of a trace is one of the workers.
pub fn bars_are_in_lanes()
    ensures { BarsAreInLanes }
{}

/// A bar of a trace that has a finish ends with that of its own run, at no lower moment.
pub fn finishes_are_their_own()
    ensures { FinishesAreTheirOwn }
{}

/// Of two bars of a trace in one lane the one that stands first is over before the other begins.
pub fn bars_do_not_overlap()
    ensures { BarsDoNotOverlap }
{}

/// A picture has a mark for each line that starts no run, finishes none, is no purge and that its window shows: the marks stand in the order of
/// these lines.
pub fn lines_have_marks()
    ensures { LinesHaveMarks }
{}

/// Each mark of a picture is such a line.
pub fn marks_are_lines()
    ensures { MarksAreLines }
{}

/// Lines are as many as their bars, their finishes, their marks and their purges.
pub fn lines_are_counted()
    ensures { LinesAreCounted }
{}

/// Each worker has in a trace as many finishes as bars that have one.
pub fn finishes_are_counted()
    ensures { FinishesAreCounted }
{}
