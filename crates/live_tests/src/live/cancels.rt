//! Cancels, from outside and by calls.

use super::play_cases;
use std::test::Fail;

const CASES: &str = "\
a task that waits is cancelled once and kept
schedule 5 10 | accepted 0 3 15
cancel 0 3 | yes
is_waiting 0 3 | waits false
ends | ends 0 0
look | looks 5 1
cancel 0 3 | no
cancel_number 0 | no
cancel_by_call 6 0 3 | no
cancel_number_by_call 7 0 | no
look | looks 7 1
# It stands in the queue, and no start begins a run of it.
ask 7 | asked 1 0 false false
next_due | none
schedule 7 20 | accepted 1 2 27
next_due | due 27
ask 7 | asked 2 0 false false

a kept task leaves when a start meets it
schedule 0 5 | accepted 0 3 5
schedule 0 5 | accepted 1 2 5
schedule 0 6 | accepted 2 1 6
cancel 0 3 | yes
cancel 2 1 | yes
# It is not due yet.
clock 4 | made
start 0 | idle
look | looks 4 3
next_due | due 5
# The one before the task that is begun is met, and not the one behind it.
clock 6 | made
start 0 | begun 1 2 0 5
look | looks 6 2
ask 0 | asked 1 1 false false
cancel 0 3 | no
start 1 | idle
look | looks 7 1
ask 0 | asked 0 1 false false
# Its slot is used again.
execute 0 | accepted 3 1 7
execute 0 | accepted 4 3 7
cancel 2 1 | no
is_waiting 3 1 | waits true

a start that is refused meets no kept task
execute 0 | accepted 0 3 0
execute 0 | accepted 1 2 0
start 0 | begun 0 3 0 0
cancel_number 1 | yes
start 0 | busy
start 2 | no_worker
look | looks 0 2
start 1 | idle
look | looks 0 1

by the remove policy a cancelled task leaves at once
schedule 0 5 | accepted 0 3 5
cancel_number 0 | yes
set_remove 0 true | made
# One that was kept stays.
look | looks 0 1
at_rate 0 5 5 | accepted 1 2 5
cancel 1 2 | yes
look | looks 0 1
schedule 0 5 | accepted 2 2 5
cancel_by_call 1 2 2 | yes
look | looks 1 1
ask 1 | asked 1 0 false false
cancel_number 1 | no
cancel_number 2 | no
set_remove 1 false | made
schedule 1 5 | accepted 3 2 6
cancel_number 3 | yes
look | looks 1 2

a run that is cancelled is dropped
at_rate 0 0 5 | accepted 0 3 0
execute 0 | accepted 1 2 0
start 0 | begun 0 3 0 0
start 1 | begun 1 2 0 0
cancel 0 3 | yes
cancel_number_by_call 0 1 | yes
cancel_number 0 | no
# The runs go on to their end.
look | looks 0 2
ask 0 | asked 0 2 false false
finish 0 7 | dropped 0 3 0
fail 1 7 | dropped 1 2 0
look | looks 0 0
start 0 | idle

a cancel goes by the number whatever the slot
execute 0 | accepted 0 3 0
execute 0 | accepted 1 2 0
execute 0 | accepted 2 1 0
# The slot that another task uses, one past the end, and an empty one.
cancel 0 2 | yes
is_waiting 0 3 | waits false
is_waiting 1 2 | waits true
cancel 0 3 | no
cancel_by_call 0 1 4294967295 | yes
is_waiting 1 2 | waits false
cancel 2 0 | yes
is_waiting 2 1 | waits false

a number that was not given out has no task
cancel_number 0 | no_task
cancel 0 0 | no_task
execute 0 | accepted 0 3 0
cancel_number 1 | no_task
cancel_number max | no_task
cancel 1 3 | no_task
cancel max 3 | no_task
is_waiting 0 3 | waits true
cancel_number 0 | yes

a call cancels at its moment
schedule 5 1 | accepted 0 3 6
schedule 5 1 | accepted 1 2 6
# A moment that goes back counts as now.
cancel_number_by_call 3 0 | yes
look | looks 5 2
cancel_by_call 9 1 2 | yes
look | looks 9 2
clock 20 | made
cancel_number_by_call 20 1 | no
look | looks 21 2
cancel_by_call most 0 3 | no
look | looks most 2

a cancel that is no call changes nothing
schedule 5 1 | accepted 0 3 6
# A number that was not given out comes first.
cancel_number_by_call 7 1 | no_task
cancel_number_by_call late max | no_task
cancel_by_call 7 1 3 | no_task
cancel_by_call late max 3 | no_task
cancel_number_by_call late 0 | too_far
cancel_by_call max 0 3 | too_far
look | looks 5 1
is_waiting 0 3 | waits true
";

#[test]
fn each_cancel_is_told_as_its_rows_have_it(rt: HostRuntime) -> Result<(), Fail> {
    play_cases(&rt, CASES)
}
