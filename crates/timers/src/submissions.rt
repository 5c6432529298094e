//! Submissions, each with a `u64` of the caller's.
ghost use Rattle.std.specs.Prelude.{◌≡◌, ◌+◌, ◌<◌, ◌≤◌, IfOk, IfErr, IfSome, IfNone, OnOk, OnErr};
ghost use Rattle.sched_time.specs.Times.{longest};
ghost use Rattle.sched_time.specs.declared.timing.Timing.TheVariants as timings;

use crate::submitting::submit;
use crate::timers::Timers;
use live_core::{CallError, Submitted};
use sched_time::{LONGEST, Span, Timing, Unit, span};
use std::alloc::Allocator;

impl<A: Allocator> Timers<A> {
    ghost use Rattle.live_core.specs.Lives.{StaysQuiet};
    ghost use Rattle.live_core.specs.Said.{IsSubmitError, IsPeriodicError};
    ghost use Rattle.timers.specs.Timers.{Gives};
    ghost use Rattle.timers.specs.Calls.{Submits};

    /// Submits a task for one run, `delay` nanoseconds after the moment of this call, which is the greatest of `now`, the moment
    /// that it is, and 1 ns after the last poll or finish. `user_data` comes back with the run.
    ///
    /// # Errors
    ///
    /// [`CallError::TooLong`] where `delay` is above 2^62, [`CallError::TooFar`] where the moment of the call would be,
    /// [`CallError::Full`] where 2^64 - 1 numbers were given out, and [`CallError::Memory`] where each slot holds a task, and memory
    /// for more is refused, or there are 2^30: nothing has changed then.
    #[inline(always)]
    pub fn schedule(&mut self, now: u64, delay: u64, user_data: u64) -> Result<Submitted, CallError>
        ensures made { IfOk result
            (λ s. Submits self.old.live self.new.live now timings.Once delay s) }
        ensures gives { OnOk result (Gives self.old self.new user_data) }
        ensures stays { OnOk result
            (StaysQuiet self.old.live self.new.live (self.old.live.count + 1)) }
        ensures refused { OnErr result (self.new ≡ self.old) }
        ensures failed { IfErr result
            (λ error. IsSubmitError self.old.live now timings.Once delay error) }
    {
        submit(
            &mut self.executor,
            &mut self.user_data,
            now,
            Timing::Once,
            delay,
            user_data,
        )
    }

    /// Submits a task for one run at once, as [`schedule`](Timers::schedule) does with no delay.
    pub fn execute(&mut self, now: u64, user_data: u64) -> Result<Submitted, CallError>
        ensures made { IfOk result (λ s. Submits self.old.live self.new.live now timings.Once 0 s) }
        ensures gives { OnOk result (Gives self.old self.new user_data) }
        ensures stays { OnOk result
            (StaysQuiet self.old.live self.new.live (self.old.live.count + 1)) }
        ensures refused { OnErr result (self.new ≡ self.old) }
        ensures failed { IfErr result
            (λ error. IsSubmitError self.old.live now timings.Once 0 error) }
    {
        self.schedule(now, 0, user_data)
    }

    /// Submits a task that runs first `first` nanoseconds after the moment of this call, and then at a fixed rate, each `period`
    /// nanoseconds. `user_data` comes back with each run.
    ///
    /// # Errors
    ///
    /// [`CallError::Illegal`] where the period is 0; else as [`schedule`](Timers::schedule), where no span may be above 2^62.
    pub fn at_rate(
        &mut self,
        now: u64,
        first: u64,
        period: u64,
        user_data: u64,
    ) -> Result<Submitted, CallError>
        ensures made { IfOk result
            (λ s. Submits self.old.live self.new.live now (timings.Rate period) first s) }
        ensures gives { OnOk result (Gives self.old self.new user_data) }
        ensures stays { OnOk result
            (StaysQuiet self.old.live self.new.live (self.old.live.count + 1)) }
        ensures refused { OnErr result (self.new ≡ self.old) }
        ensures legal { OnOk result (0 < period) }
        ensures failed { IfErr result
            (λ error. IsPeriodicError period self.old.live now (timings.Rate period) first error) }
    {
        if period == 0 {
            return Err(CallError::Illegal);
        }
        let Some(span) = span_of_nanos(period) else {
            return Err(CallError::TooLong);
        };
        submit(
            &mut self.executor,
            &mut self.user_data,
            now,
            Timing::Rate(span),
            first,
            user_data,
        )
    }

    /// Submits a task that runs first `first` nanoseconds after the moment of this call, and then `delay` nanoseconds after the
    /// end of each run. `user_data` comes back with each run.
    ///
    /// # Errors
    ///
    /// [`CallError::Illegal`] where the fixed delay is 0; else as [`schedule`](Timers::schedule), where no span may be above
    /// 2^62.
    pub fn with_delay(
        &mut self,
        now: u64,
        first: u64,
        delay: u64,
        user_data: u64,
    ) -> Result<Submitted, CallError>
        ensures made { IfOk result
            (λ s. Submits self.old.live self.new.live now (timings.Fixed delay) first s) }
        ensures gives { OnOk result (Gives self.old self.new user_data) }
        ensures stays { OnOk result
            (StaysQuiet self.old.live self.new.live (self.old.live.count + 1)) }
        ensures refused { OnErr result (self.new ≡ self.old) }
        ensures legal { OnOk result (0 < delay) }
        ensures failed { IfErr result
            (λ error. IsPeriodicError delay self.old.live now (timings.Fixed delay) first error) }
    {
        if delay == 0 {
            return Err(CallError::Illegal);
        }
        let Some(span) = span_of_nanos(delay) else {
            return Err(CallError::TooLong);
        };
        submit(
            &mut self.executor,
            &mut self.user_data,
            now,
            Timing::Fixed(span),
            first,
            user_data,
        )
    }
}

/// The span of so many nanoseconds, and `None` where they are above the limit.
fn span_of_nanos(nanos: u64) -> Option<Span>
    ensures span { IfSome result (λ span. span ≡ nanos) }
    ensures limit { IfSome result (λ span. nanos ≤ longest) }
    ensures long { IfNone result (longest < nanos) }
{
    if nanos > LONGEST {
        return None;
    }
    span(nanos as i64, Unit::Ns).ok()
}
