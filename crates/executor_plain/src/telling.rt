ghost use Rattle.std.specs.Prelude.{◌≡◌};
ghost use Rattle.executor_model.specs.Histories as histories;

use executor_model::{Answer, CancelEffect, Outcome};

/// Whether an answer accepts a task.
pub(crate) fn is_submit(k: u32, answer: Answer) -> bool
    ensures { result ≡ histories.is_submit k answer }
{
    matches!(answer, Answer::Submit { task, .. } if task == k)
}

/// Whether an answer starts a run of a task.
pub(crate) fn is_start(k: u32, answer: Answer) -> bool
    ensures { result ≡ histories.is_start k answer }
{
    matches!(answer, Answer::Start { task, .. } if task == k)
}

/// Whether an answer ends a run of a task.
pub(crate) fn is_finish(k: u32, answer: Answer) -> bool
    ensures { result ≡ histories.is_finish k answer }
{
    matches!(answer, Answer::Finish { task, .. } if task == k)
}

/// Whether an outcome is the value of a task's one run.
fn is_done(outcome: Outcome) -> bool
    ensures { result ≡ histories.is_done outcome }
{
    matches!(outcome, Outcome::Done(_))
}

/// Whether an outcome is a failure.
fn is_failed(outcome: Outcome) -> bool
    ensures { result ≡ histories.is_failed outcome }
{
    matches!(outcome, Outcome::Failed(_))
}

/// Whether an outcome is the last one of a periodic task that does not go on.
fn is_ended(outcome: Outcome) -> bool
    ensures { result ≡ histories.is_ended outcome }
{
    matches!(outcome, Outcome::Ended)
}

/// Whether an answer ends the one run of a task with a value.
pub(crate) fn is_done_finish(k: u32, answer: Answer) -> bool
    ensures { result ≡ histories.is_finish_with histories.is_done k answer }
{
    matches!(answer, Answer::Finish { task, outcome, .. } if task == k && is_done(outcome))
}

/// Whether an answer says that a run of a task failed.
pub(crate) fn is_failed_finish(k: u32, answer: Answer) -> bool
    ensures { result ≡ histories.is_finish_with histories.is_failed k answer }
{
    matches!(answer, Answer::Finish { task, outcome, .. } if task == k && is_failed(outcome))
}

/// Whether an answer says that the last run of a periodic task ended it.
fn is_ended_finish(k: u32, answer: Answer) -> bool
    ensures { result ≡ histories.is_finish_with histories.is_ended k answer }
{
    matches!(answer, Answer::Finish { task, outcome, .. } if task == k && is_ended(outcome))
}

/// Whether an answer says that a task was cancelled, by the plan or from outside.
pub(crate) fn is_cancel(k: u32, answer: Answer) -> bool
    ensures { result ≡ histories.is_cancel k answer }
{
    match answer {
        Answer::Cancel { task, effect } | Answer::Outside { task, effect } => {
            task == k && effect == CancelEffect::Yes
        }
        _ => false,
    }
}

/// Whether a task is one of those that an answer ends.
fn is_end(k: u32, ends: &[u32]) -> bool
    ensures { result ≡ histories.is_end k ends.now }
{
    ends.iter().any(|task| *task == k)
}

/// Whether a task is cancelled from an answer on, which ends these tasks.
pub(crate) fn cancels(k: u32, answer: Answer, ends: &[u32]) -> bool
    ensures { result ≡ histories.cancels k answer ends.now }
{
    is_cancel(k, answer) || is_end(k, ends) || is_ended_finish(k, answer)
}

/// Whether an answer says that a call to shut down was made, orderly or at once.
pub(crate) fn is_shutdown(answer: Answer) -> bool
    ensures { result ≡ histories.is_shutdown answer }
{
    matches!(
        answer,
        Answer::Shutdown | Answer::ShutdownAgain | Answer::ShutdownNow
    )
}

/// Whether an answer says that a call to shut down at once was made.
pub(crate) fn is_stop(answer: Answer) -> bool
    ensures { result ≡ histories.is_stop answer }
{
    matches!(answer, Answer::ShutdownNow)
}

/// The task of a worker after an answer, given the one before.
pub(crate) fn work_after(worker: u8, answer: Answer, before: Option<u32>) -> Option<u32>
    ensures { result ≡ histories.work_after worker answer before }
{
    match answer {
        Answer::Start {
            worker: starter,
            task,
            ..
        } => {
            if starter == worker {
                Some(task)
            } else {
                before
            }
        }
        Answer::Finish {
            worker: finisher,
            ..
        } => { if finisher == worker { None } else { before } }
        _ => before,
    }
}
