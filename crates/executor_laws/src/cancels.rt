//! What a cancel from outside the plan is answered, by the words of the tasks, and what it leaves.
ghost use Rattle.executor_laws.specs.Cancels.{CancelsGoByWords, CancelsTouchOneTask, OnlyCallsSweep, OutsideNeedsItsCancel};

/// A cancel from outside says `Yes` exactly where the word of its task is new or running and has no bit, `Absent` exactly
/// where it is vacant, and `No` where it is any other one; where the plan has no such task it is an error. The plan's own
/// cancels do the same.
pub fn cancels_go_by_words()
    ensures { CancelsGoByWords }
{}

/// A cancel from outside that has an effect touches its task alone. Each other task stays as it is; a start finds the same
/// tasks enabled but that one, and a happening ends the same ones but that one. What needed no word of that task needs the
/// same; what needed one needs nothing, but a start, which picks anew.
pub fn cancels_touch_one_task()
    ensures { CancelsTouchOneTask }
{}

/// Only a call of the plan needs a sweep.
pub fn only_calls_sweep()
    ensures { OnlyCallsSweep }
{}

/// A cancel from outside that says `Yes` needs the cancel of its task, and any other one needs nothing.
pub fn outside_needs_its_cancel()
    ensures { OutsideNeedsItsCancel }
{}
