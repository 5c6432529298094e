//! Calls that are refused, which change nothing.

use super::play_case;
use std::test::Fail;
use timers::{MakeError, Timers};

/// Numbers of workers, and whether timers are made for so many.
const WORKERS: &[(u8, bool)] = &[(0, false), (64, true), (65, true), (255, true)];

#[test]
fn workers_are_1_to_255(rt: HostRuntime) {
    for (workers, made) in WORKERS {
        let error = Timers::new(rt.alloc(), *workers).err();
        let wanted = if *made {
            None
        } else {
            Some(MakeError::Workers)
        };
        assert!(rt; error == wanted, "{workers}");
    }
}

const SUBMISSIONS: &str = "\
submissions are refused in this order
at_rate late late 0 1 | illegal
with_delay late late 0 1 | illegal
at_rate late 1 late 1 | too_long
with_delay 0 1 late 1 | too_long
schedule late late 1 | too_long
schedule late 1 1 | too_far
execute late 1 | too_far
now | now 0
numbers | numbers 0
len | len 0
";

#[test]
fn submissions_are_refused_in_this_order(rt: HostRuntime) -> Result<(), Fail> {
    play_case(&rt, 1, SUBMISSIONS)
}

const POLLS_AND_FINISHES: &str = "\
polls and finishes are refused before the clock
execute 0 5 | accepted 0 0
poll 10 1 | no_worker
poll late 0 | too_far
finish 10 1 0 | no_worker
finish 10 0 0 | not_running
now | now 0
next_due | due 0
poll 3 0 | begun 0 0 0 5
poll 10 0 | busy
finish late 0 0 | too_far
now | now 3
";

#[test]
fn polls_and_finishes_are_refused_before_the_clock(rt: HostRuntime) -> Result<(), Fail> {
    play_case(&rt, 1, POLLS_AND_FINISHES)
}

const A_MOMENT_THAT_GOES_BACK: &str = "\
a moment that goes back counts as now
execute 20 5 | accepted 0 20
poll 10 0 | begun 0 0 20 5
now | now 20
fail 0 0 1 | failed 0 0 5 1
now | now 20
";

#[test]
fn a_moment_that_goes_back_counts_as_now(rt: HostRuntime) -> Result<(), Fail> {
    play_case(&rt, 1, A_MOMENT_THAT_GOES_BACK)
}

const A_CANCEL_OF_NO_TASK: &str = "\
a cancel of no task changes none
cancel 0 0 | no_task
data_of 0 0 | none
has_seat 0 0 | seat false
set_remove late true | too_far
shut_down late | too_far
shut_down_now late | too_far
is_shut | shut false
";

#[test]
fn a_cancel_of_no_task_changes_none(rt: HostRuntime) -> Result<(), Fail> {
    play_case(&rt, 1, A_CANCEL_OF_NO_TASK)
}
