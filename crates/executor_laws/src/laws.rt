//! What holds of each history, whatever the events: laws over the definitions alone.
ghost use Rattle.executor_laws.specs.Laws.{NoStartIsEarly, StartsAreInOrder, TiesGoBySubmission, RateRunsAreDue, FixedRunsAreDue, AgainIsDue, RunsDoNotOverlap, NothingStartsAfterAFailure, NothingStartsAfterACancel, CancelsHaveOneEffect, NothingStartsOnceDone, OneShotsRunOnce, OneShotsStartOnce, RunsAreNumbered, IllegalTasksDoNotStart, AnswersByPosition, OneHistory, FlowsAreAnswered, HistoriesAreOne, StatesAnswer};

/// No task starts before its due moment.
pub fn no_start_is_early()
    ensures { NoStartIsEarly }
{}

/// Where a task starts, no other enabled task comes before it in the order.
pub fn starts_are_in_order()
    ensures { StartsAreInOrder }
{}

/// Of tasks that are due at the same moment the one that was submitted first starts.
pub fn ties_go_by_submission()
    ensures { TiesGoBySubmission }
{}

/// The run n of a task at a fixed rate is due at its submission plus its initial delay plus n
/// periods.
pub fn rate_runs_are_due()
    ensures { RateRunsAreDue }
{}

/// The first run of a task with a fixed delay is due at its submission plus its initial delay, and
/// each other one a delay after the finish before it.
pub fn fixed_runs_are_due()
    ensures { FixedRunsAreDue }
{}

/// The run after a finish is due when its answer says.
pub fn again_is_due()
    ensures { AgainIsDue }
{}

/// Between two starts of a task stands its finish.
pub fn runs_do_not_overlap()
    ensures { RunsDoNotOverlap }
{}

/// After a run that failed nothing of its task starts.
pub fn nothing_starts_after_a_failure()
    ensures { NothingStartsAfterAFailure }
{}

/// After a task is cancelled, by a cancel with an effect, by a sweep or at the end of its run,
/// nothing of it starts.
pub fn nothing_starts_after_a_cancel()
    ensures { NothingStartsAfterACancel }
{}

/// At most one cancel of a task has an effect.
pub fn cancels_have_one_effect()
    ensures { CancelsHaveOneEffect }
{}

/// A task whose one run ended with a value does not start again.
pub fn nothing_starts_once_done()
    ensures { NothingStartsOnceDone }
{}

/// A one-shot task has run 0 alone, which is due at its submission plus its delay.
pub fn one_shots_run_once()
    ensures { OneShotsRunOnce }
{}

/// A one-shot task does not start a second time.
pub fn one_shots_start_once()
    ensures { OneShotsStartOnce }
{}

/// The runs of a task are numbered by its starts.
pub fn runs_are_numbered()
    ensures { RunsAreNumbered }
{}

/// A task whose submission is illegal does not start.
pub fn illegal_tasks_do_not_start()
    ensures { IllegalTasksDoNotStart }
{}

/// Each answer of a history is the one that the table has for what stands before it.
pub fn answers_by_position()
    ensures { AnswersByPosition }
{}

/// The happenings of some events have one history and no other.
pub fn one_history()
    ensures { OneHistory }
{}

/// Happenings of which each may come where it stands have a history.
pub fn flows_are_answered()
    ensures { FlowsAreAnswered }
{}

/// No two histories that mean the same calls have the same happenings.
pub fn histories_are_one()
    ensures { HistoriesAreOne }
{}

/// The state that the happenings lead to is what the history shows by counting.
pub fn states_answer()
    ensures { StatesAnswer }
{}
