//! How far an executor and its tasks are, as numbers.
ghost use Rattle.std.specs.Prelude.{◌≡◌};
ghost use Rattle.sched_c.specs.Numbers.{number_of_bool, number_of_phase};
ghost use Rattle.sched_c.specs.Calls.{no_task, task_state_of, IsStateOf};

use crate::session::Session;
use task_word::{Phase, Word};

/// How far an executor is.
#[repr(C)]
#[derive(Clone, Copy, Debug, PartialEq, Eq)]
pub struct State {
    /// The moment, 0 to 2^62 nanoseconds.
    pub now: u64,
    /// How many lines the last event was answered.
    pub lines: usize,
    /// How many tasks the plan has.
    pub tasks: usize,
    /// How many events were taken.
    pub taken: u32,
    /// 1 where the due moment of some task that waits or is kept is reached, and else 0.
    pub ripe: u32,
}

impl State {
    /// That of no executor.
    pub fn none() -> State
        ensures { result ≡ record { now = 0; taken = 0; tasks = 0; lines = 0; ripe = 0 } }
    {
        State {
            now: 0,
            lines: 0,
            tasks: 0,
            taken: 0,
            ripe: 0,
        }
    }

    /// That of a session.
    pub fn of(session: &Session) -> State
        ensures { IsStateOf session.now result }
    {
        let core = session.core();
        State {
            now: core.now(),
            lines: session.lines().len(),
            tasks: core.tasks(),
            taken: core.taken(),
            ripe: bool_number(core.ripe()),
        }
    }
}

/// How far a task is.
#[repr(C)]
#[derive(Clone, Copy, Debug, PartialEq, Eq)]
pub struct TaskState {
    /// The phase, 0 to 4.
    pub phase: u32,
    /// The number of the run, from 0.
    pub run: u32,
    /// 1 where the task was cancelled, and else 0.
    pub cancelled: u32,
}

impl TaskState {
    /// That of no task.
    pub fn none() -> TaskState
        ensures { result ≡ no_task }
    {
        TaskState {
            phase: 0,
            run: 0,
            cancelled: 0,
        }
    }

    /// That of the task with this word.
    pub fn of(word: Word) -> TaskState
        ensures { result ≡ task_state_of word }
    {
        TaskState {
            phase: phase_number(word.phase()),
            run: word.run(),
            cancelled: bool_number(word.is_marked()),
        }
    }
}

/// The number of a phase.
fn phase_number(phase: Phase) -> u32
    ensures { result ≡ number_of_phase phase }
{
    match phase {
        Phase::Vacant => 0,
        Phase::New => 1,
        Phase::Running => 2,
        Phase::Done => 3,
        Phase::Failed => 4,
    }
}

/// 1 for yes, 0 for no.
fn bool_number(answer: bool) -> u32
    ensures { result ≡ number_of_bool answer }
{
    if answer { 1 } else { 0 }
}
