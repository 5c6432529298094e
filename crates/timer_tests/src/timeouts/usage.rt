//! The examples of the comments, as they stand there: `tools/docs` compares them.

use super::play_case;
use executor_model::Outcome;
use sched_time::Ending;
use std::alloc::Global;
use std::process::Abort;
use std::test::Fail;
use timers::{Submitted, Timers};

#[test]
fn the_page_is_run(rt: HostRuntime) -> Result<(), Fail> {
    let alloc = rt.alloc();
    // example: timers
    let mut timers = Timers::new(alloc, 2)?;
    // end of example
    submits(&rt, &mut timers)?;
    runs(&rt, &mut timers)?;
    shuts(&rt, &mut timers)
}

fn submits(rt: &impl Abort, timers: &mut Timers<Global>) -> Result<(), Fail> {
    // example: timers
    timers.schedule(0, 5, 70)?; // task 0, with 70, is accepted, and due at 5
    timers.at_rate(0, 3, 10, 71)?; // task 1, with 71, is due at 3, 13, 23 and so on
    assert_eq!(rt; timers.next_due(), Some(3)); // the moment to wait for
    // end of example
    Ok(())
}

fn runs(rt: &impl Abort, timers: &mut Timers<Global>) -> Result<(), Fail> {
    // example: timers
    assert_eq!(rt; timers.poll(3, 0)?.map(|run| run.user_data), Some(71)); // task 1
    assert!(rt; timers.poll(4, 1)?.is_none()); // nothing is due
    let finished = timers.finish(4, 0, Ending::Value(1))?;
    assert_eq!(rt; finished.outcome, Outcome::Again(13));
    assert_eq!(rt; timers.poll(5, 1)?.map(|run| run.user_data), Some(70)); // task 0
    let finished = timers.finish(6, 1, Ending::Value(2))?;
    assert_eq!(rt;
        (finished.user_data, finished.outcome),
        (70, Outcome::Done(2))
    );
    // end of example
    Ok(())
}

fn shuts(rt: &impl Abort, timers: &mut Timers<Global>) -> Result<(), Fail> {
    // example: timers
    timers.shut_down_now(7)?; // ends task 1, which waits
    assert_eq!(rt; timers.ended().len(), 1);
    assert_eq!(rt; timers.ended_user_data(0), Some(71));
    assert_eq!(rt; timers.execute(8, 72)?, Submitted::Rejected { number: 2 });
    // end of example
    assert_eq!(rt; timers.ended_user_data(1), None);
    Ok(())
}

const A_RUN: &str = "\
a run has its task, number and due moment
schedule 0 5 70 | accepted 0 5
at_rate 0 3 10 71 | accepted 1 3
next_due | due 3
poll 3 0 | begun 1 0 3 71
finish 4 0 1 | again 1 0 71 13
poll 5 1 | begun 0 0 5 70
shut_down_now 7 | made
first_ended | task 1
";

#[test]
fn a_run_has_its_task_number_and_due(rt: HostRuntime) -> Result<(), Fail> {
    play_case(&rt, 2, A_RUN)
}
