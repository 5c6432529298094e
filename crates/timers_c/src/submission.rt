//! Submissions, by when their tasks are to run.
ghost use Rattle.std.specs.Prelude.{◌≡◌, ◌+◌, IfOk, IfErr, OnOk, OnErr};
ghost use Rattle.executor_model.specs.Answers.{bare, kind_of};
ghost use Rattle.live_core.specs.Lives.{StaysQuiet};
ghost use Rattle.live_core.specs.Said.{submit_reply};
ghost use Rattle.timers.specs.Calls as calls;
ghost use Rattle.timers.specs.Timers.{Gives};
ghost use Rattle.timers_c.specs.Calls.{IsLegal, IsRefused};
ghost use Rattle.call_lines.specs.Lasts.{answer_of};
ghost use Rattle.timers_c.specs.own.Submissions.{first_of, timing_of};

use call_lines::Said;
use executor_model::Kind;
use live_core::{CallError, Submitted};
use std::alloc::Global;
use timers::Timers;

/// When a task is to run. All spans are in nanoseconds.
#[derive(Clone, Copy, Debug, PartialEq, Eq)]
pub enum Submission {
    /// Once, so long after the moment of the call.
    Once { delay: u64 },
    /// First so long after the moment of the call, and then at a fixed rate.
    Rate { first: u64, period: u64 },
    /// First so long after the moment of the call, and then so long after the end of each run.
    Fixed { first: u64, delay: u64 },
}

impl Submission {
    /// Makes the submission, with these data.
    #[inline(always)]
    pub fn make(
        self,
        timers: &mut Timers<Global>,
        now: u64,
        user_data: u64,
    ) -> Result<Submitted, CallError>
        ensures legal { OnOk result (IsLegal (timing_of self)) }
        ensures made { IfOk result
            (λ s. calls.Submits timers.old.live timers.new.live now (timing_of self)
            (first_of self) s) }
        ensures gives { OnOk result (Gives timers.old timers.new user_data) }
        ensures stays { OnOk result
            (StaysQuiet timers.old.live timers.new.live (timers.old.live.count + 1)) }
        ensures refused { OnErr result (timers.new ≡ timers.old) }
        ensures failed { IfErr result
            (λ error. IsRefused timers.old.live now (timing_of self) (first_of self) error) }
    {
        match self {
            Submission::Once { delay } => timers.schedule(now, delay, user_data),
            Submission::Rate { first, period } => timers.at_rate(now, first, period, user_data),
            Submission::Fixed { first, delay } => timers.with_delay(now, first, delay, user_data),
        }
    }

    /// The kind of task.
    fn kind(self) -> Kind
        ensures { result ≡ kind_of (timing_of self) }
    {
        match self {
            Submission::Once { .. } => Kind::Schedule,
            Submission::Rate { .. } => Kind::Rate,
            Submission::Fixed { .. } => Kind::Fixed,
        }
    }

    /// What is answered where this became of it.
    #[inline(always)]
    pub fn answer(self, submitted: Submitted) -> Said
        ensures { bare (answer_of result) ≡ submit_reply (timing_of self) submitted }
    {
        match submitted {
            Submitted::Accepted { task, due } => Said::Submit {
                task: task.number,
                kind: self.kind(),
                due,
            },
            Submitted::Rejected { number } => Said::Reject { task: number },
        }
    }
}
