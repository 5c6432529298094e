use sched_time::{Timing, Which};

/// A call that a plan makes at its own moment.
#[derive(Clone, Copy, Debug, PartialEq, Eq)]
pub enum CodeCall {
    /// A task is submitted.
    Submit {
        /// The number of the task: submissions are numbered 0, 1, .. in their order.
        task: u32,
        /// How often it runs. With a period or a fixed delay of 0 each run may start as soon as the one before has ended.
        timing: Timing,
        /// From the call's moment to its first run, 0 to 2^62 nanoseconds.
        delay: u64,
    },
    /// A task is submitted with a period, or a fixed delay, that is zero or negative.
    Illegal {
        /// The number of the task, as that of a submission.
        task: u32,
    },
    /// A cancel of a task is asked for.
    Cancel {
        /// The number of the task, whose submission comes before.
        task: u32,
    },
    /// A policy is set.
    SetPolicy {
        /// The policy.
        which: Which,
        /// What it is set to.
        value: bool,
    },
    /// A shutdown: no task is accepted after it.
    Shutdown,
    /// A shutdown at once: no task is accepted after it, and none starts.
    ShutdownNow,
    /// The executor is asked how it stands.
    Ask,
}
