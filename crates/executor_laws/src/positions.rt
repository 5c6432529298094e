//! What the definitions by recursion say of the positions in a history.
ghost use Rattle.executor_laws.specs.Positions.{WorkIsTheLastStart, StartsExceedFinishes, NowIsTheGreatest, FirstIsTheLeast, NoneIsEnabled, ReachedIsAFront, TasksAreSubmitted, TermsAreItsOwn, FlowKeepsTheEvents, FlowMakesWhatIsReached, FlowMayCome, WaitingIsATask, WaitingIsDueInTime, LastFinishIsTheLast, FinishKeepsNow};
ghost use Rattle.executor_laws.specs.Lines.{LinesAreInRange};
ghost use Rattle.executor_laws.specs.Asks.{AsksByPosition};

/// The work of a worker is the task of its last start, where no finish came after it; where a start has no finish after it,
/// its task is the work.
pub fn work_is_the_last_start()
    ensures { WorkIsTheLastStart }
{}

/// A worker that works has started once more than it finished, and any other one as often.
pub fn starts_exceed_finishes()
    ensures { StartsExceedFinishes }
{}

/// The moment is the greatest one of the calls made and the accepted clocks, and 0 before any.
pub fn now_is_the_greatest()
    ensures { NowIsTheGreatest }
{}

/// The first enabled task is the enabled one that every other enabled one comes after.
pub fn first_is_the_least()
    ensures { FirstIsTheLeast }
{}

/// There is no first enabled task exactly when none is enabled.
pub fn none_is_enabled()
    ensures { NoneIsEnabled }
{}

/// The calls that a clock reaches are those left with a moment of at most its own, and a front.
pub fn reached_is_a_front()
    ensures { ReachedIsAFront }
{}

/// The tasks of a plan are those that a call submits, each by just one call.
pub fn tasks_are_submitted()
    ensures { TasksAreSubmitted }
{}

/// The terms of a task are those of its submission.
pub fn terms_are_its_own()
    ensures { TermsAreItsOwn }
{}

/// The events of a flow are the events given, in their order.
pub fn flow_keeps_the_events()
    ensures { FlowKeepsTheEvents }
{}

/// A flow makes calls before accepted clocks alone, and there exactly those that the clock reaches.
pub fn flow_makes_what_is_reached()
    ensures { FlowMakesWhatIsReached }
{}

/// Each happening of a flow may come after those before it.
pub fn flow_may_come()
    ensures { FlowMayCome }
{}

/// A task that waits is one of the plan, and the call that submits it was made.
pub fn waiting_is_a_task()
    ensures { WaitingIsATask }
{}

/// A task that waits is due at a moment of at most 2^63 nanoseconds.
pub fn waiting_is_due_in_time()
    ensures { WaitingIsDueInTime }
{}

/// Each line of a history has a moment of at most 2^62 nanoseconds. Each due moment in it is at most 2^63, each task is one
/// of the plan and each worker one of the workers, a run has a number below the length of the history, no more tasks are
/// counted than there are, and a value or a code is one that a run ended with.
pub fn lines_are_in_range()
    ensures { LinesAreInRange }
{}

/// The last finish of a task is the one with no other after it, at its moment.
pub fn last_finish_is_the_last()
    ensures { LastFinishIsTheLast }
{}

/// A finish does not move now.
pub fn finish_keeps_now()
    ensures { FinishKeepsNow }
{}

/// An ask tells how many tasks wait or are kept, how many runs are under way, whether a shutdown was
/// made, and whether after one nothing is queued or run: each by the positions before it.
pub fn asks_by_position()
    ensures { AsksByPosition }
{}
