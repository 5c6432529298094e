ghost use Rattle.std.specs.Prelude.{◌≡◌, ◌+◌, ◌<◌, ◌↔◌, IfOk, IsErrOf};
ghost use Rattle.sched_time.specs.Times.{longest, span_of, period_of};

use crate::error::TimeError;
use crate::limits::LONGEST;
use crate::spans::Span;
use crate::unit::Unit;

/// The span of `value` units, where a negative value counts as 0.
///
/// The Java documentation of `ScheduledExecutorService` treats a zero or negative
/// delay as a request for immediate execution. It is refused as
/// [`TimeError::TooLarge`] exactly when it is more than 2^62 nanoseconds.
pub fn span(value: i64, unit: Unit) -> Result<Span, TimeError>
    ensures ok { IfOk result (λ s. s ≡ span_of value unit) }
    ensures too_large { IsErrOf result TimeError.TooLarge ↔ (longest < span_of value unit) }
{
    if value < 0 {
        return Ok(Span::of_nanos(0));
    }
    match (value as u64).checked_mul(unit.nanos()) {
        Some(nanos) if nanos <= LONGEST => Ok(Span::of_nanos(nanos)),
        _ => Err(TimeError::TooLarge),
    }
}

/// The period, or the fixed delay, of `value` units, and none exactly when the value is zero or negative.
///
/// The Java documentation of `ScheduledExecutorService` answers a period or a fixed delay that is
/// zero or negative by `IllegalArgumentException`. What is there is at least 1 nanosecond. It is
/// refused as [`TimeError::TooLarge`] exactly when it is more than 2^62 nanoseconds.
pub fn period(value: i64, unit: Unit) -> Result<Option<Span>, TimeError>
    ensures ok { IfOk result (λ p. p ≡ period_of value unit) }
    ensures too_large { IsErrOf result TimeError.TooLarge ↔ (longest < span_of value unit) }
{
    if value <= 0 {
        return Ok(None);
    }
    span(value, unit).map(Some)
}

/// The moment `offset` nanoseconds after `base`.
///
/// It is refused as [`TimeError::TooLarge`] exactly when it is past 2^62 nanoseconds.
/// The limit is this project's rule.
pub fn moment(base: u64, offset: u64) -> Result<u64, TimeError>
    ensures ok { IfOk result (λ m. m ≡ base + offset) }
    ensures too_large { IsErrOf result TimeError.TooLarge ↔ (longest < base + offset) }
{
    match base.checked_add(offset) {
        Some(sum) if sum <= LONGEST => Ok(sum),
        _ => Err(TimeError::TooLarge),
    }
}
