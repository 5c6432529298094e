ghost use Rattle.std.specs.Prelude.{◌≡◌};
ghost use Rattle.task_word.specs.Answers.{core_answer, cancel_answer, shown_state};

use crate::phases::Phase;
use crate::values::Word;

/// How a move of the core's seat went.
#[derive(Clone, Copy, Debug, PartialEq, Eq)]
pub enum Moved {
    /// The task's word moved on.
    Yes,
    /// The task's word had the bit of a cancel, and did not change.
    Cancelled,
}

/// What the core's cancel met.
#[derive(Clone, Copy, Debug, PartialEq, Eq)]
pub enum CoreCancel {
    /// The task waited or was run, and this call cancelled it.
    Won,
    /// The task waited or was run, and was cancelled before.
    Late,
    /// The task had ended.
    Over,
    /// The task was not submitted.
    Vacant,
}

/// What a handle's cancel met.
#[derive(Clone, Copy, Debug, PartialEq, Eq)]
pub enum CancelAnswer {
    /// The task waited or was run, and this call cancelled it.
    Yes,
    /// The task had ended, or was cancelled before.
    No,
    /// The task was not submitted.
    Absent,
    /// The table has no task of this number.
    NoTask,
}

/// The state in which a handle met a task.
#[derive(Clone, Copy, Debug, PartialEq, Eq)]
pub enum TaskState {
    /// It was not submitted.
    Unsubmitted,
    /// It waited for a run.
    Waiting,
    /// It was run.
    Running,
    /// It was cancelled.
    Cancelled,
    /// Its last run was done.
    Done,
    /// Its last run had failed.
    Failed,
    /// The table has no task of this number.
    NoTask,
}

impl CoreCancel {
    /// The answer of the core's cancel that met this word.
    pub(crate) fn of_word(met: Word) -> CoreCancel
        ensures { result ≡ core_answer met }
    {
        match met.phase() {
            Phase::Vacant => CoreCancel::Vacant,
            Phase::New | Phase::Running => {
                if met.is_marked() {
                    CoreCancel::Late
                } else {
                    CoreCancel::Won
                }
            }
            Phase::Done | Phase::Failed => CoreCancel::Over,
        }
    }
}

impl CancelAnswer {
    /// The answer of a handle's cancel that met this word.
    pub(crate) fn of_word(met: Word) -> CancelAnswer
        ensures { result ≡ cancel_answer met }
    {
        match met.phase() {
            Phase::Vacant => CancelAnswer::Absent,
            Phase::New | Phase::Running => {
                if met.is_marked() {
                    CancelAnswer::No
                } else {
                    CancelAnswer::Yes
                }
            }
            Phase::Done | Phase::Failed => CancelAnswer::No,
        }
    }
}

impl TaskState {
    /// The state that this word shows.
    pub(crate) fn of_word(met: Word) -> TaskState
        ensures { result ≡ shown_state met }
    {
        match met.phase() {
            Phase::Vacant => TaskState::Unsubmitted,
            Phase::New => {
                if met.is_marked() {
                    TaskState::Cancelled
                } else {
                    TaskState::Waiting
                }
            }
            Phase::Running => {
                if met.is_marked() {
                    TaskState::Cancelled
                } else {
                    TaskState::Running
                }
            }
            Phase::Done => TaskState::Done,
            Phase::Failed => TaskState::Failed,
        }
    }
}
