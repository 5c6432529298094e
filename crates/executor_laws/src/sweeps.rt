//! What holds of policies, the shutdown, sweeps and kept tasks.
ghost use Rattle.executor_laws.specs.Policies.{NothingStartsAfterAnEnd, TasksAreCancelledOnce, PoliciesAreTheLastSet, ShutIsAShutdown, NothingIsAcceptedOnceShut, RefusedTasksDoNotStart, NothingStartsOnceTerminated, NothingWaitsOnceStopped, NothingStartsAfterAStop, QueuedAndRunningAreTasks, SweptAreThose, SweepsEndThose, KeptByPositions};

/// After a task is ended, by a sweep or at the end of its run, nothing of it starts.
pub fn nothing_starts_after_an_end()
    ensures { NothingStartsAfterAnEnd }
{}

/// A task is cancelled once: by a cancel, by a sweep or at the end of its run.
pub fn tasks_are_cancelled_once()
    ensures { TasksAreCancelledOnce }
{}

/// A policy has the value that it was set to last, and its default where it was never set.
pub fn policies_are_the_last_set()
    ensures { PoliciesAreTheLastSet }
{}

/// The executor is shut exactly when a shutdown call was made, orderly or at once, and stopped exactly when one at once was.
pub fn shut_is_a_shutdown()
    ensures { ShutIsAShutdown }
{}

/// Once the executor is shut no task is accepted.
pub fn nothing_is_accepted_once_shut()
    ensures { NothingIsAcceptedOnceShut }
{}

/// A task that is refused does not start, neither before nor after.
pub fn refused_tasks_do_not_start()
    ensures { RefusedTasksDoNotStart }
{}

/// After an answer that says that the executor is terminated nothing starts.
pub fn nothing_starts_once_terminated()
    ensures { NothingStartsOnceTerminated }
{}

/// Once the executor is stopped, by a shutdown at once, no task waits.
pub fn nothing_waits_once_stopped()
    ensures { NothingWaitsOnceStopped }
{}

/// After a shutdown at once nothing starts.
pub fn nothing_starts_after_a_stop()
    ensures { NothingStartsAfterAStop }
{}

/// A task that stands in the queue, as it waits or is kept, is one of the plan, and so is one that a run of is under
/// way.
pub fn queued_and_running_are_tasks()
    ensures { QueuedAndRunningAreTasks }
{}

/// A sweep ends, in ascending number, exactly the tasks of the plan that wait and that the policies say, or all that wait where the
/// executor is stopped.
pub fn swept_are_those()
    ensures { SweptAreThose }
{}

/// An answer that sweeps ends those tasks under the policies and at the moment after it, and any other
/// answer ends none.
pub fn sweeps_end_those()
    ensures { SweepsEndThose }
{}

/// A task is kept exactly when it was cancelled while it waited, the remove policy was false then, and since then there
/// was no sweep, and no purge or start that meets it.
pub fn kept_by_positions()
    ensures { KeptByPositions }
{}
