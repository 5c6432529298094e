//! How far timers and their tasks are, as numbers.
ghost use Rattle.std.specs.Prelude.{◌≡◌};
ghost use Rattle.std.specs.Option.{option_map_or};
ghost use Rattle.live_core.specs.Said.{tasks_in};
ghost use Rattle.task_table.specs.Seats.{task_in};
ghost use Rattle.timers_c.specs.Numbers.{number_of_bool, number_of_phase};
ghost use Rattle.timers_c.specs.Calls.{bits_of, counts_of, no_counts, no_state, no_task, phase_of, state_of, task_state_of};

use crate::session::Session;
use executor_model::Stage;
use live_core::Asked;
use sched_time::Policies;
use task_table::Seat;

/// How far timers are.
#[repr(C)]
#[derive(Clone, Copy, Debug, PartialEq, Eq)]
pub struct State {
    /// The moment, 0 to 2^62 nanoseconds.
    pub now: u64,
    /// How many submissions were given a number.
    pub numbers: u64,
    /// How many tasks stand in the queue, or have a run under way.
    pub alive: usize,
    /// How many tasks the last call ended, but for the one whose run was finished.
    pub ended: usize,
    /// How many lines the last call has.
    pub lines: usize,
    /// Bit n: the policy of number n is true.
    pub policies: u32,
    /// 1 where a call to shut down was made, and else 0.
    pub shut: u32,
    /// 1 where they are shut, and no task is alive, and else 0.
    pub terminated: u32,
}

impl State {
    /// That of no timers.
    pub fn none() -> State
        ensures { result ≡ no_state }
    {
        State {
            now: 0,
            numbers: 0,
            alive: 0,
            ended: 0,
            lines: 0,
            policies: 0,
            shut: 0,
            terminated: 0,
        }
    }

    /// That of a session.
    pub fn of(session: &Session) -> State
        ensures state { result ≡ state_of session.now }
        ensures slots { tasks_in session.now.timers.live.table.slots ≡ result.alive }
    {
        let timers = session.timers();
        let alive = timers.len();
        let shut = timers.is_shut();
        State {
            now: timers.now(),
            numbers: timers.numbers(),
            alive,
            ended: timers.ended().len(),
            lines: session.lines(),
            policies: policy_bits(timers.policies()),
            shut: bool_number(shut),
            terminated: bool_number(shut && alive == 0),
        }
    }
}

/// The bits of policies: bit 0 is that on periodic tasks, bit 1 that on delayed ones, bit 2 that on removal.
fn policy_bits(policies: Policies) -> u32
    ensures { result ≡ bits_of policies }
{
    let continues = if policies.continues { 1 } else { 0 };
    let executes = if policies.executes { 2 } else { 0 };
    let removes = if policies.removes { 4 } else { 0 };
    continues + executes + removes
}

/// How many tasks there are, as a call asks.
#[repr(C)]
#[derive(Clone, Copy, Debug, PartialEq, Eq)]
pub struct Counts {
    /// How many tasks wait, or are kept in the queue after a cancel.
    pub queue: usize,
    /// How many tasks have a run under way.
    pub running: usize,
    /// 1 where a call to shut down was made, and else 0.
    pub shut: u32,
    /// 1 where they are shut, and nothing is queued or run, and else 0.
    pub terminated: u32,
}

impl Counts {
    /// None.
    pub fn none() -> Counts
        ensures { result ≡ no_counts }
    {
        Counts {
            queue: 0,
            running: 0,
            shut: 0,
            terminated: 0,
        }
    }

    /// Those of an answer.
    pub fn of(asked: Asked) -> Counts
        ensures { result ≡ counts_of asked }
    {
        Counts {
            queue: asked.queue,
            running: asked.running,
            shut: bool_number(asked.shutdown),
            terminated: bool_number(asked.terminated),
        }
    }
}

/// How far a task is.
#[derive(Clone, Copy, Debug, PartialEq, Eq)]
pub enum Phase {
    /// It is over, or was cancelled and left the queue, or its submission was rejected.
    Gone,
    /// It waits for a run.
    Waiting,
    /// A run of it is under way.
    Running,
    /// It was cancelled while it waited, and stands in the queue still.
    Kept,
}

impl Phase {
    /// That of the task in a slot.
    fn of(seat: Seat) -> Phase
        ensures { result ≡ phase_of (task_in seat) }
    {
        match seat.phase {
            Stage::Running => Phase::Running,
            Stage::Waiting if !seat.cancelled => Phase::Waiting,
            _ if seat.kept => Phase::Kept,
            _ => Phase::Gone,
        }
    }

    /// The number by which C knows it.
    fn number(self) -> u32
        ensures { result ≡ number_of_phase self }
    {
        match self {
            Phase::Gone => 0,
            Phase::Waiting => 1,
            Phase::Running => 2,
            Phase::Kept => 3,
        }
    }
}

/// How far a task is, as numbers.
#[repr(C)]
#[derive(Clone, Copy, Debug, PartialEq, Eq)]
pub struct TaskState {
    /// The number of the run that it waits for, or that is under way; 0 where the task is gone.
    pub run: u64,
    /// The moment at which that run is due; 0 where the task is gone.
    pub due: u64,
    /// The phase, 0 to 3.
    pub phase: u32,
    /// 1 where it was cancelled, and is not gone, and else 0.
    pub cancelled: u32,
}

impl TaskState {
    /// That of no task.
    pub fn none() -> TaskState
        ensures { result ≡ no_task }
    {
        TaskState {
            run: 0,
            due: 0,
            phase: 0,
            cancelled: 0,
        }
    }

    /// That of the task in a slot.
    fn of(seat: Seat) -> TaskState
        ensures { result ≡ task_state_of (task_in seat) }
    {
        let run = seat.run;
        let due = seat.due;
        let cancelled = seat.cancelled;
        match Phase::of(seat) {
            Phase::Gone => TaskState::none(),
            phase => TaskState {
                run,
                due,
                phase: phase.number(),
                cancelled: bool_number(cancelled),
            },
        }
    }

    /// That of a task that is found so, and of one that is found in no slot.
    pub fn found(seat: Option<Seat>) -> TaskState
        ensures { result ≡ option_map_or (λ x. task_state_of (task_in x)) seat no_task }
    {
        match seat {
            Some(seat) => TaskState::of(seat),
            None => TaskState::none(),
        }
    }
}

/// 1 for yes, 0 for no.
pub fn bool_number(answer: bool) -> u32
    ensures { result ≡ number_of_bool answer }
{
    if answer { 1 } else { 0 }
}
