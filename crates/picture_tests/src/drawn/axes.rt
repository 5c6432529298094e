//! The ticks of windows of all lengths.
use super::*;
use sched_time::Unit;

/// Windows, the number of their ticks, the counts of the first two, and the unit of these.
const AXES: &[(u64, u64, usize, u64, u64, Unit)] = &[
    (0, 7, 8, 0, 1, Unit::Ns),
    (0, 8, 5, 0, 2, Unit::Ns),
    (3, 17, 7, 4, 6, Unit::Ns),
    (0, 5_001, 6, 0, 1, Unit::Us),
    (1, 20_000_001, 4, 5, 10, Unit::Ms),
    (0, 60_000_000_000, 7, 0, 10, Unit::S),
    (0, 3_600_000_000_000, 7, 0, 10, Unit::Min),
    (0, 86_400_000_000_000, 5, 0, 6, Unit::Hour),
    (0, 604_800_000_000_000, 8, 0, 1, Unit::Day),
    (0, u64::MAX, 5, 0, 50_000, Unit::Day),
];

#[test]
fn steps_fit_from_nanoseconds_to_days(rt: HostRuntime) -> Result<(), Fail> {
    for (from, to, count, first, second, unit) in AXES {
        let shown = drawn(rt.alloc(), "", *from, *to, 0)?;
        let ticks = shown.ticks();
        assert!(rt; ticks.len() == *count && *count > 1, "{from}");
        assert!(rt;
            ticks[0].count == *first && ticks[0].unit == *unit,
            "{from}"
        );
        assert!(rt; ticks[1].count == *second, "{from}");
    }
    Ok(())
}

#[test]
fn a_window_of_one_moment_may_have_a_tick(rt: HostRuntime) -> Result<(), Fail> {
    let shown = drawn(rt.alloc(), "", u64::MAX, u64::MAX, 0)?;
    let ticks = shown.ticks();
    assert!(rt; ticks.len() == 1);
    let tick = ticks[0];
    assert!(rt; tick.moment == u64::MAX && tick.count == u64::MAX && tick.unit == Unit::Ns);
    Ok(())
}

#[test]
fn a_tick_says_which_moment_it_is(rt: HostRuntime) -> Result<(), Fail> {
    let shown = drawn(rt.alloc(), "", 86_399_000_000_000, 90_000_000_000_000, 0)?;
    assert!(rt; shown.ticks().len() > 5);
    for tick in shown.ticks() {
        assert!(rt;
            tick.count.checked_mul(tick.unit.nanos()) == Some(tick.moment),
            "{tick:?}"
        );
    }
    Ok(())
}
