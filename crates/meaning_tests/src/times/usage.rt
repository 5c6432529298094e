//! The examples of the comments, as they stand there: `tools/docs` compares them.
use sched_time::{Policies, Timing, Unit, Which, moment, next_due, period, span};
use std::test::Fail;

#[test]
fn the_page_is_run(rt: HostRuntime) -> Result<(), Fail> {
    // example: sched_time
    let delay = span(5, Unit::Ms)?;
    assert_eq!(rt; moment(7, delay.nanos())?, 5_000_007);
    assert_eq!(rt; span(-5, Unit::Ms)?.nanos(), 0); // at once
    assert_eq!(rt; period(0, Unit::Ms)?, None); // no period

    // A run that was due at 7 has ended at 9.
    assert_eq!(rt; next_due(Timing::Once, 7, 9), None);
    assert_eq!(rt; next_due(Timing::Rate(delay), 7, 9), Some(5_000_007));
    assert_eq!(rt; next_due(Timing::Fixed(delay), 7, 9), Some(5_000_009));

    // The policies once a cancelled task leaves the queue at once.
    assert!(rt; Policies::defaults().with(Which::Remove, true).removes);
    // end of example
    Ok(())
}
