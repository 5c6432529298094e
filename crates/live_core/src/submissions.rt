//! Submissions.
ghost use Rattle.std.specs.Prelude.{◌≡◌, ◌+◌, ◌<◌, ◌≤◌, IfOk, IfErr, IfSome, IfNone, OnOk, OnErr};
ghost use Rattle.sched_time.specs.Times.{longest};
ghost use Rattle.queue_code.specs.Calls.{IsTimed};
ghost use Rattle.sched_time.specs.declared.timing.Timing.TheVariants as timings;

use crate::answers::Submitted;
use crate::error::CallError;
use crate::executor::ScheduledExecutor;
use sched_time::{LONGEST, Span, Timing, Unit, span};
use std::alloc::Allocator;

impl<A: Allocator> ScheduledExecutor<A> {
    ghost use Rattle.live_core.specs.Lives.{moment_of_call, StaysQuiet};
    ghost use Rattle.live_core.specs.Said.{Submits, IsSubmitError, IsPeriodicError};

    /// Submits a task for one run, `delay` nanoseconds after the moment of this call, which is the greatest of `at`, now, and
    /// 1 ns after the last accepted clock.
    ///
    /// # Errors
    ///
    /// [`CallError::TooLong`] where `delay` is above 2^62, [`CallError::TooFar`] where the moment of the call would be,
    /// [`CallError::Full`] where 2^64 - 1 numbers were given out, and [`CallError::Memory`] where each slot holds a task, and memory
    /// for more is refused, or there are 2^30: nothing has changed then.
    ///
    /// ```rust
    /// let mut executor = ScheduledExecutor::new(alloc, 1)?;
    /// executor.schedule(7, 5)?; // at moment 7, and due 5 nanoseconds later
    /// assert_eq!(rt; (executor.len(), executor.next_due()), (1, Some(12)));
    /// assert_eq!(rt;
    ///     executor.schedule(7, u64::MAX).err(),
    ///     Some(CallError::TooLong)
    /// );
    /// executor.shut_down(8)?;
    /// assert_eq!(rt; executor.schedule(8, 5)?, Submitted::Rejected { number: 1 });
    /// ```
    #[inline(always)]
    pub fn schedule(&mut self, at: u64, delay: u64) -> Result<Submitted, CallError>
        ensures made { IfOk result (λ s. Submits self.old self.new at timings.Once delay s) }
        ensures stays { OnOk result (StaysQuiet self.old self.new (self.old.count + 1)) }
        ensures refused { OnErr result (self.new ≡ self.old) }
        ensures failed { IfErr result
            (λ error. IsSubmitError self.old at timings.Once delay error) }
    {
        self.submit(at, Timing::Once, delay)
    }

    /// Submits a task for one run at once, as [`schedule`](ScheduledExecutor::schedule) does with no delay.
    pub fn execute(&mut self, at: u64) -> Result<Submitted, CallError>
        ensures made { IfOk result (λ s. Submits self.old self.new at timings.Once 0 s) }
        ensures stays { OnOk result (StaysQuiet self.old self.new (self.old.count + 1)) }
        ensures refused { OnErr result (self.new ≡ self.old) }
        ensures failed { IfErr result (λ error. IsSubmitError self.old at timings.Once 0 error) }
    {
        self.submit(at, Timing::Once, 0)
    }

    /// Submits a task that runs first `first` nanoseconds after the moment of this call, and then at a fixed rate, each `period`
    /// nanoseconds.
    ///
    /// # Errors
    ///
    /// [`CallError::Illegal`] where the period is 0; else as [`schedule`](ScheduledExecutor::schedule), where no span may be
    /// above 2^62.
    pub fn at_rate(&mut self, at: u64, first: u64, period: u64) -> Result<Submitted, CallError>
        ensures made { IfOk result
            (λ s. Submits self.old self.new at (timings.Rate period) first s) }
        ensures stays { OnOk result (StaysQuiet self.old self.new (self.old.count + 1)) }
        ensures refused { OnErr result (self.new ≡ self.old) }
        ensures legal { OnOk result (0 < period) }
        ensures failed { IfErr result
            (λ error. IsPeriodicError period self.old at (timings.Rate period) first error) }
    {
        if period == 0 {
            return Err(CallError::Illegal);
        }
        let Some(span) = span_of_nanos(period) else {
            return Err(CallError::TooLong);
        };
        self.submit(at, Timing::Rate(span), first)
    }

    /// Submits a task that runs first `first` nanoseconds after the moment of this call, and then `delay` nanoseconds after the
    /// end of each run.
    ///
    /// # Errors
    ///
    /// [`CallError::Illegal`] where the fixed delay is 0; else as [`schedule`](ScheduledExecutor::schedule), where no span may
    /// be above 2^62.
    pub fn with_delay(&mut self, at: u64, first: u64, delay: u64) -> Result<Submitted, CallError>
        ensures made { IfOk result
            (λ s. Submits self.old self.new at (timings.Fixed delay) first s) }
        ensures stays { OnOk result (StaysQuiet self.old self.new (self.old.count + 1)) }
        ensures refused { OnErr result (self.new ≡ self.old) }
        ensures legal { OnOk result (0 < delay) }
        ensures failed { IfErr result
            (λ error. IsPeriodicError delay self.old at (timings.Fixed delay) first error) }
    {
        if delay == 0 {
            return Err(CallError::Illegal);
        }
        let Some(span) = span_of_nanos(delay) else {
            return Err(CallError::TooLong);
        };
        self.submit(at, Timing::Fixed(span), first)
    }

    /// Submits a task that is timed so.
    #[inline(always)]
    fn submit(&mut self, at: u64, timing: Timing, delay: u64) -> Result<Submitted, CallError>
        requires { IsTimed timing }
        ensures made { IfOk result (λ s. Submits self.old self.new at timing delay s) }
        ensures stays { OnOk result (StaysQuiet self.old self.new (self.old.count + 1)) }
        ensures refused { OnErr result (self.new ≡ self.old) }
        ensures failed { IfErr result (λ error. IsSubmitError self.old at timing delay error) }
    {
        if delay > LONGEST {
            return Err(CallError::TooLong);
        }
        let moment = self.moment_of(at);
        if moment > LONGEST {
            return Err(CallError::TooFar);
        }
        if self.count == u64::MAX {
            return Err(CallError::Full);
        }
        if self.table.is_shut() {
            return Ok(self.reject(moment));
        }
        match self.accept(moment, timing, delay) {
            Ok(submitted) => Ok(submitted),
            Err(_) => Err(CallError::Memory),
        }
    }

    /// The moment of a call that is made at this one: the greatest of `at`, now, and 1 ns after the last accepted clock.
    pub fn moment_of(&self, at: u64) -> u64
        ensures { result ≡ moment_of_call self.now at }
    {
        at.max(self.table.now().max(self.earliest))
    }
}

/// The span of so many nanoseconds, and `None` where they are above the limit.
fn span_of_nanos(nanos: u64) -> Option<Span>
    ensures span { IfSome result (λ span. span ≡ nanos) }
    ensures limit { IfSome result (λ span. nanos ≤ longest) }
    ensures long { IfNone result (longest < nanos) }
{
    if nanos > LONGEST {
        return None;
    }
    span(nanos as i64, Unit::Ns).ok()
}
