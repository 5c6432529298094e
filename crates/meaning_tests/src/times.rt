//! Spans and moments by hand.
mod usage;

use sched_time::{
    Ending, LONGEST, Policies, TimeError, Timing, Unit, Which, moment, next_due, period, span,
};
use std::process::Abort;
use std::test::Fail;

/// A number of units, and how many nanoseconds a span of so many has.
type SpanRow = (i64, Unit, Result<u64, TimeError>);

/// A number of units, and how many nanoseconds a period of so many has, where there is one.
type PeriodRow = (i64, Unit, Result<Option<u64>, TimeError>);

/// A base, an offset, and the moment so long after the base.
type MomentRow = (u64, u64, Result<u64, TimeError>);

/// How many nanoseconds a span has.
fn span_nanos(value: i64, unit: Unit) -> Result<u64, TimeError> {
    Ok(span(value, unit)?.nanos())
}

/// How many nanoseconds a period has, where there is one.
fn period_nanos(value: i64, unit: Unit) -> Result<Option<u64>, TimeError> {
    match period(value, unit)? {
        Some(period) => Ok(Some(period.nanos())),
        None => Ok(None),
    }
}

/// Checks each span.
fn spans_are(rt: &impl Abort, rows: &[SpanRow]) {
    for (value, unit, nanos) in rows {
        assert!(rt; span_nanos(*value, *unit) == *nanos, "{value} {unit:?}");
    }
}

/// Checks each period.
fn periods_are(rt: &impl Abort, rows: &[PeriodRow]) {
    for (value, unit, nanos) in rows {
        assert!(rt; period_nanos(*value, *unit) == *nanos, "{value} {unit:?}");
    }
}

/// Checks each moment.
fn moments_are(rt: &impl Abort, rows: &[MomentRow]) {
    for (base, offset, sum) in rows {
        assert!(rt; moment(*base, *offset) == *sum, "{base} and {offset}");
    }
}

const SPANS: &[SpanRow] = &[
    (5, Unit::Ns, Ok(5)),
    (5, Unit::Us, Ok(5_000)),
    (5, Unit::Ms, Ok(5_000_000)),
    (5, Unit::S, Ok(5_000_000_000)),
    (5, Unit::Min, Ok(300_000_000_000)),
    (5, Unit::Hour, Ok(18_000_000_000_000)),
    (5, Unit::Day, Ok(432_000_000_000_000)),
    (-5, Unit::S, Ok(0)),
    (1 << 62, Unit::Ns, Ok(1 << 62)),
    ((1 << 62) + 1, Unit::Ns, Err(TimeError::TooLarge)),
    (i64::MAX, Unit::S, Err(TimeError::TooLarge)),
];

#[test]
fn converts_spans(rt: HostRuntime) {
    spans_are(&rt, SPANS);
}

const MOMENTS: &[MomentRow] = &[
    (0, 5, Ok(5)),
    (1 << 61, 1 << 61, Ok(1 << 62)),
    (1 << 62, 1, Err(TimeError::TooLarge)),
    (u64::MAX, 1, Err(TimeError::TooLarge)),
];

#[test]
fn adds_offsets(rt: HostRuntime) {
    moments_are(&rt, MOMENTS);
}

const PERIODS: &[PeriodRow] = &[
    (1, Unit::Us, Ok(Some(1_000))),
    (0, Unit::S, Ok(None)),
    (-1, Unit::S, Ok(None)),
    (1 << 62, Unit::Ns, Ok(Some(1 << 62))),
    ((1 << 62) + 1, Unit::Ns, Err(TimeError::TooLarge)),
];

#[test]
fn a_period_is_at_least_one_nanosecond(rt: HostRuntime) {
    periods_are(&rt, PERIODS);
}

#[test]
fn a_run_is_due_again(rt: HostRuntime) -> Result<(), Fail> {
    let ten = span(10, Unit::Ns)?;
    assert!(rt; next_due(Timing::Once, 20, 25).is_none());
    assert!(rt; next_due(Timing::Rate(ten), 20, 25) == Some(30));
    assert!(rt; next_due(Timing::Fixed(ten), 20, 25) == Some(35));
    Ok(())
}

const LAST_MOMENTS: &[MomentRow] = &[
    (LONGEST, 0, Ok(LONGEST)),
    (1, LONGEST, Err(TimeError::TooLarge)),
];

/// The last of each unit that is taken, the first that is not, and the least number.
const LAST_SPANS: &[SpanRow] = &[
    (4_611_686_018, Unit::S, Ok(4_611_686_018_000_000_000)),
    (4_611_686_019, Unit::S, Err(TimeError::TooLarge)),
    (i64::MIN, Unit::S, Ok(0)),
    (76_861_433, Unit::Min, Ok(76_861_433 * 60_000_000_000)),
    (76_861_434, Unit::Min, Err(TimeError::TooLarge)),
    (i64::MIN, Unit::Min, Ok(0)),
    (1_281_023, Unit::Hour, Ok(1_281_023 * 3_600_000_000_000)),
    (1_281_024, Unit::Hour, Err(TimeError::TooLarge)),
    (i64::MIN, Unit::Hour, Ok(0)),
    (53_375, Unit::Day, Ok(53_375 * 86_400_000_000_000)),
    (53_376, Unit::Day, Err(TimeError::TooLarge)),
    (i64::MIN, Unit::Day, Ok(0)),
];

const LAST_PERIODS: &[PeriodRow] = &[
    (4_611_686_019, Unit::S, Err(TimeError::TooLarge)),
    (76_861_433, Unit::Min, Ok(Some(76_861_433 * 60_000_000_000))),
    (76_861_434, Unit::Min, Err(TimeError::TooLarge)),
    (i64::MIN, Unit::Min, Ok(None)),
    (
        1_281_023,
        Unit::Hour,
        Ok(Some(1_281_023 * 3_600_000_000_000)),
    ),
    (1_281_024, Unit::Hour, Err(TimeError::TooLarge)),
    (i64::MIN, Unit::Hour, Ok(None)),
    (53_375, Unit::Day, Ok(Some(53_375 * 86_400_000_000_000))),
    (53_376, Unit::Day, Err(TimeError::TooLarge)),
    (i64::MIN, Unit::Day, Ok(None)),
];

#[test]
fn the_longest_is_the_last_that_is_taken(rt: HostRuntime) -> Result<(), Fail> {
    assert!(rt; LONGEST == 4_611_686_018_427_387_904);
    moments_are(&rt, LAST_MOMENTS);
    spans_are(&rt, LAST_SPANS);
    periods_are(&rt, LAST_PERIODS);
    let longest = span(4_611_686_018_427_387_904, Unit::Ns)?;
    assert!(rt; next_due(Timing::Rate(longest), LONGEST, 0) == Some(1 << 63));
    assert!(rt; next_due(Timing::Fixed(longest), 0, LONGEST) == Some(1 << 63));
    Ok(())
}

const UNITS: &[(Unit, u64)] = &[
    (Unit::Ns, 1),
    (Unit::Us, 1_000),
    (Unit::Ms, 1_000_000),
    (Unit::S, 1_000_000_000),
    (Unit::Min, 60_000_000_000),
    (Unit::Hour, 3_600_000_000_000),
    (Unit::Day, 86_400_000_000_000),
];

#[test]
fn each_unit_has_its_nanoseconds(rt: HostRuntime) {
    for (unit, nanos) in UNITS {
        assert!(rt; unit.nanos() == *nanos, "{unit:?}");
    }
}

#[test]
fn the_error_says_what_is_too_large(rt: HostRuntime) -> Result<(), Fail> {
    let fault = TimeError::TooLarge;
    let text = format!(in rt.alloc(); "{fault}")?;
    assert!(rt; text.as_str() == "more than 2^62 nanoseconds");
    Ok(())
}

#[test]
fn values_are_told_apart(rt: HostRuntime) -> Result<(), Fail> {
    let (ten, six) = (span(10, Unit::Ns)?, span(6, Unit::Ns)?);
    assert!(rt; ten == span(10, Unit::Ns)? && ten != six);
    assert!(rt; Timing::Rate(ten) != Timing::Fixed(ten) && Timing::Rate(ten) != Timing::Rate(six));
    assert!(rt; Ending::Value(1) != Ending::Fault(1) && Ending::Fault(1) != Ending::Fault(2));
    assert!(rt; Unit::Us != Unit::Ms && Unit::Us == Unit::Us);
    assert!(rt; Unit::Min != Unit::Hour && Unit::Hour != Unit::Day && Unit::Day == Unit::Day);
    Ok(())
}

#[test]
fn policies_are_set_one_by_one(rt: HostRuntime) -> Result<(), Fail> {
    let start = Policies::defaults();
    assert!(rt; !start.continues && start.executes && !start.removes);
    let goes_on = start.with(Which::Continue, true);
    assert!(rt; goes_on.continues && goes_on.executes && !goes_on.removes);
    let ends = goes_on.with(Which::Execute, false);
    assert!(rt; ends.continues && !ends.executes && !ends.removes);
    let removes = ends.with(Which::Remove, true);
    assert!(rt; removes.continues && !removes.executes && removes.removes);
    // Set to what it is, a policy stays as it is.
    assert!(rt; removes.with(Which::Remove, true) == removes && removes != ends);
    let back = removes
        .with(Which::Continue, false)
        .with(Which::Execute, true)
        .with(Which::Remove, false);
    assert!(rt; back == start);
    Ok(())
}
