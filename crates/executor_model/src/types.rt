ghost use Rattle.std.specs.Prelude.{◌≡◌};
ghost use Rattle.executor_model.specs.Flows.{happening_of};
ghost use Rattle.executor_model.specs.Said.{message_of};

use crate::said::Said;
use sched_time::{Ending, Which};
use std::marker::Model;

/// What the outside reports to the executor.
#[derive(Clone, Copy, Debug, PartialEq, Eq)]
pub enum Event {
    /// The clock shows this moment, in nanoseconds.
    Clock(u64),
    /// This worker asks for work.
    Start(u8),
    /// The run of this worker ended.
    Finish(u8, Ending),
    /// A cancel of this task is asked for from outside the plan.
    Cancel(u32),
}

/// One happening of the executor: an event, the next call of the plan, or a purge.
#[derive(Clone, Copy, Debug, PartialEq, Eq)]
pub enum Happening {
    /// The next call of the plan is made.
    Call,
    /// The clock shows this moment, in nanoseconds.
    Clock(u64),
    /// This worker asks for work.
    Start(u8),
    /// The run of this worker ended.
    Finish(u8, Ending),
    /// A cancel of this task is asked for from outside the plan.
    Cancel(u32),
    /// The tasks that were cancelled while they waited, and are kept, are to leave the queue.
    Purge,
}

impl Event {
    /// The event as a happening.
    pub fn happening(self) -> Happening
        ensures { result ≡ happening_of self }
    {
        match self {
            Event::Clock(moment) => Happening::Clock(moment),
            Event::Start(worker) => Happening::Start(worker),
            Event::Finish(worker, ending) => Happening::Finish(worker, ending),
            Event::Cancel(task) => Happening::Cancel(task),
        }
    }
}

/// The kind of a task.
#[derive(Clone, Copy, Debug, PartialEq, Eq)]
pub enum Kind {
    /// One run after a delay.
    Schedule,
    /// Runs at a fixed rate.
    Rate,
    /// Runs with a fixed delay between the end of one and the start of the next.
    Fixed,
}

/// Why a task was not accepted.
#[derive(Clone, Copy, Debug, PartialEq, Eq)]
pub enum Refusal {
    /// Its period, or its fixed delay, is zero or negative.
    Illegal,
    /// The executor is shut.
    Rejected,
}

/// Why an event had no effect.
#[derive(Clone, Copy, Debug, PartialEq, Eq)]
pub enum EventError {
    /// The clock would go back.
    Backward,
    /// The clock would pass 2^62 nanoseconds.
    TooFar,
    /// There is no worker of this number.
    NoWorker,
    /// The worker has a run under way.
    Busy,
    /// The worker has no run under way.
    NotRunning,
    /// The plan has no task of this number.
    NoTask,
}

/// What a cancel did.
#[derive(Clone, Copy, Debug, PartialEq, Eq)]
pub enum CancelEffect {
    /// The task waited or was run, and is cancelled now.
    Yes,
    /// It was cancelled before, or was done, or had failed.
    No,
    /// Its submission was not accepted, or not made yet.
    Absent,
}

/// What a finished run leads to.
#[derive(Clone, Copy, Debug, PartialEq, Eq)]
pub enum Outcome {
    /// The task is done, with this value.
    Done(u64),
    /// The run failed, with this code; no run of the task comes after it.
    Failed(u32),
    /// The task waits for its next run, with this due moment, at most 2^63 nanoseconds.
    Again(u64),
    /// The task was cancelled while the run was under way, so that its outcome does not count.
    Dropped,
    /// The executor is stopped, or is shut and its periodic tasks do not go on: the task is cancelled.
    Ended,
}

/// What a happening is answered.
#[derive(Clone, Copy, Debug, PartialEq, Eq)]
pub enum Answer {
    /// The task was accepted.
    Submit {
        task: u32,
        kind: Kind,
        /// The due moment of its first run, at most 2^63 nanoseconds.
        due: u64,
    },
    /// The task was not accepted.
    Refuse {
        task: u32,
        refusal: Refusal,
    },
    /// The plan asked for a cancel of a task.
    Cancel {
        task: u32,
        effect: CancelEffect,
    },
    /// A cancel of a task was asked for from outside the plan.
    Outside {
        task: u32,
        effect: CancelEffect,
    },
    /// The tasks that were cancelled while they waited have left the queue.
    Purge,
    /// A policy was set.
    Policy {
        which: Which,
        value: bool,
    },
    /// The executor was shut.
    Shutdown,
    /// The executor was shut before.
    ShutdownAgain,
    /// The executor was shut at once, whether it was shut before or not.
    ShutdownNow,
    /// How far the executor is.
    Ask {
        /// How many tasks wait, or are kept after a cancel.
        queue: u32,
        /// How many tasks have a run under way.
        running: u32,
        /// A call to shut down was made, orderly or at once.
        shutdown: bool,
        /// It is shut, and nothing is queued or run.
        terminated: bool,
    },
    /// The clock was moved.
    Clock,
    /// The worker starts a run of a task.
    Start {
        worker: u8,
        task: u32,
        /// The number of the run, from 0.
        run: u64,
        /// The due moment of the run, at most 2^63 nanoseconds.
        due: u64,
    },
    /// The worker gets no work.
    Idle {
        worker: u8,
    },
    /// The run of the worker ended.
    Finish {
        worker: u8,
        task: u32,
        /// The number of the run, from 0.
        run: u64,
        outcome: Outcome,
    },
    /// The event had no effect.
    Error(EventError),
}

/// What a line of a trace says.
#[derive(Clone, Copy, Debug, PartialEq, Eq)]
pub enum Message {
    /// The answer to a happening.
    Answer(Answer),
    /// The happening that was answered last ends this task, which is cancelled.
    End(u32),
}

/// A line of a trace: what it says, and the moment at which it was said.
///
/// It takes 32 bytes, where a [`Message`] alone takes 40.
#[derive(Clone, Copy, Debug, PartialEq, Eq)]
pub struct Line {
    moment: u64,
    said: Said,
}

const _: () = prove!(size_of::<Line>() == 32);

impl Model for Line {
    ghost use Rattle.executor_model.specs.Lines.{LineView};
    ghost use Rattle.executor_model.specs.Said.{said_of, message_of};
    ghost use Rattle.executor_model.specs.own.Said.{said_of_message};

    ghost Value = { LineView };

    ghost view = { λ l. record { moment = l.moment; message = message_of l.said } };

    ghost inverse = { λ v. record { moment = v.moment; said = said_of v.message } };

    ghost inverse_ok = { λ l h. said_of_message (λ said. record { moment = l.moment; said = said }) l.said };
}

impl Line {
    /// A line that says this at that moment, in nanoseconds. A core makes lines of moments up to 2^62.
    #[inline(always)]
    pub fn new(moment: u64, message: Message) -> Line
        ensures { result ≡ record { moment = moment; message = message } }
    {
        Line {
            moment,
            said: Said::of(message),
        }
    }

    /// A line that says this, which is told without nesting: nothing is taken apart.
    #[inline(always)]
    pub fn saying(moment: u64, said: Said) -> Line
        ensures { result ≡ record { moment = moment; message = message_of said } }
    {
        Line { moment, said }
    }

    /// The moment, in nanoseconds: up to 2^62 where a core made the line.
    #[inline(always)]
    pub fn moment(self) -> u64
        ensures { result ≡ self.moment }
    {
        self.moment
    }

    /// What it says.
    #[inline(always)]
    pub fn message(self) -> Message
        ensures { result ≡ self.message }
    {
        self.said.message()
    }

    /// What it says, without nesting, as the line keeps it: nothing is put together.
    #[inline(always)]
    pub fn said(&self) -> &Said
        ensures { message_of result.now ≡ self.now.message }
    {
        &self.said
    }
}

/// The word moves of the step that would follow.
#[derive(Clone, Copy, Debug, PartialEq, Eq)]
pub enum Need {
    /// No word moves.
    Nothing,
    /// The word of this task goes from vacant to new, with run 0.
    Submit(u32),
    /// The word of this task goes from new to running.
    Start(u32),
    /// The word of this task goes from running to done.
    Done(u32),
    /// The word of this task goes from running to failed.
    Fail(u32),
    /// The word of this task goes from running to new, with the next run.
    Rearm(u32),
    /// The word of this task, which is new or running, gets its cancel bit.
    Cancel(u32),
    /// The word of each task that the sweep ends, which is new, gets its cancel bit.
    Sweep,
}
