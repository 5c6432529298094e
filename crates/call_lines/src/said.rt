//! What a call was answered, to be told as a line.
ghost use Rattle.std.specs.Prelude.{◌≡◌};
ghost use Rattle.executor_model.specs.declared.types.Answer.TheVariants as a;
ghost use Rattle.executor_model.specs.Answers.{bare};
ghost use Rattle.timers.specs.Calls.{run_reply};
ghost use Rattle.call_lines.specs.Lasts.{answer_of};

use executor_model::{CancelEffect, Kind, Outcome};
use live_core::Asked;
use sched_time::Which;
use timers::{Finished, Run};

/// What a call was answered. It names tasks by 64 bits, where a line names them by 32.
#[derive(Clone, Copy, Debug)]
pub enum Said {
    /// The task was accepted.
    Submit {
        kind: Kind,
        task: u64,
        /// The due moment of its first run, at most 2^63 nanoseconds.
        due: u64,
    },
    /// The submission was rejected.
    Reject {
        task: u64,
    },
    /// A cancel had this effect.
    Outside {
        effect: CancelEffect,
        task: u64,
    },
    /// The tasks that were cancelled while they waited have left the queue.
    Purge,
    /// A policy was set.
    Policy {
        which: Which,
        value: bool,
    },
    /// The timers were shut in order.
    Shutdown {
        /// They were not shut before.
        first: bool,
    },
    /// The timers were shut at once.
    ShutdownNow,
    /// How far the timers are.
    Ask(Asked),
    /// The worker starts a run of a task.
    Start {
        worker: u8,
        task: u64,
        /// The number of the run, from 0.
        run: u64,
        /// The due moment of the run, at most 2^63 nanoseconds.
        due: u64,
    },
    /// The worker gets no work.
    Idle {
        worker: u8,
    },
    /// The run of the worker ended.
    Finish {
        worker: u8,
        task: u64,
        /// The number of the run, from 0.
        run: u64,
        outcome: Outcome,
    },
}

impl Said {
    /// What is answered to a start of a worker, which begins this run or none.
    pub fn begun(worker: u8, run: Option<Run>) -> Said
        ensures { bare (answer_of result) ≡ run_reply worker run }
    {
        match run {
            Some(Run { task, run, due, .. }) => Said::Start {
                worker,
                task: task.number,
                run,
                due,
            },
            None => Said::Idle { worker },
        }
    }

    /// What is answered to a worker that has ended this run.
    pub fn finished(worker: u8, ended: Finished) -> Said
        ensures { answer_of result ≡ a.Finish worker ended.task.number ended.run ended.outcome }
    {
        Said::Finish {
            worker,
            task: ended.task.number,
            run: ended.run,
            outcome: ended.outcome,
        }
    }
}
