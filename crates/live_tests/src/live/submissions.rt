//! Submissions, and the runs of what was submitted.

use super::play_cases;
use std::test::Fail;

const CASES: &str = "\
submissions are numbered and due after their delay
schedule 5 10 | accepted 0 3 15
# A moment that goes back counts as now.
execute 4 | accepted 1 2 5
at_rate 7 1 3 | accepted 2 1 8
with_delay 7 0 most | accepted 3 0 7
look | looks 7 4
ends | ends 0 0
numbers | numbers 4
next_due | due 5

a task that is accepted waits in its slot
is_waiting 0 3 | waits false
schedule 0 1 | accepted 0 3 1
is_waiting 0 3 | waits true
is_waiting 1 3 | waits false
is_waiting max 3 | waits false
is_waiting 0 2 | waits true
is_waiting 0 4294967295 | waits true

a submission with a fault changes nothing
at_rate 3 0 0 | illegal
with_delay 3 late 0 | illegal
at_rate late 0 0 | illegal
schedule 3 late | too_long
at_rate 3 0 late | too_long
at_rate 3 late 1 | too_long
with_delay 3 0 max | too_long
schedule late late | too_long
execute late | too_far
execute max | too_far
look | looks 0 0
numbers | numbers 0
next_due | none

a shut executor tells faults and else rejects
execute 0 | accepted 0 3 0
shut_down 0 | first true
at_rate 0 0 0 | illegal
schedule 0 late | too_long
execute late | too_far
execute 4 | rejected 1
at_rate 5 0 1 | rejected 2
with_delay 5 0 1 | rejected 3
schedule 2 most | rejected 4
look | looks 5 1
numbers | numbers 5
# For good.
cancel_number 1 | absent
cancel 4 3 | absent
cancel_number 0 | yes
shut_down_now 6 | made
cancel_number 1 | absent
cancel_number 0 | no

spans and moments reach their limit
schedule most most | accepted 0 3 double
at_rate most most most | accepted 1 2 double
with_delay most 0 most | accepted 2 1 most
clock most | made
start 0 | begun 2 1 0 most
finish 0 max | again 2 1 0 double
start 0 | idle
next_due | due double

a task runs once
schedule 0 10 | accepted 0 3 10
clock 9 | made
start 0 | idle
clock 10 | made
start 1 | begun 0 3 0 10
look | looks 10 1
next_due | none
is_waiting 0 3 | waits false
finish 1 7 | done 0 3 0 7
look | looks 10 0
ends | ends 0 0
start 1 | idle
execute 10 | accepted 1 3 11
clock 11 | made
start 0 | begun 1 3 0 11
fail 0 4294967295 | failed 1 3 0 4294967295
look | looks 11 0

a rate keeps its moments until a run fails
at_rate 0 5 3 | accepted 0 3 5
clock 6 | made
start 0 | begun 0 3 0 5
finish 0 1 | again 0 3 0 8
is_waiting 0 3 | waits true
next_due | due 8
start 0 | idle
clock 20 | made
start 1 | begun 0 3 1 8
# A run that is late does not run beside the one before.
start 0 | idle
finish 1 2 | again 0 3 1 11
start 0 | begun 0 3 2 11
clock 21 | made
finish 0 3 | again 0 3 2 14
start 0 | begun 0 3 3 14
fail 0 3 | failed 0 3 3 3
look | looks 21 0
next_due | none
cancel_number 0 | no

a fixed delay counts from the end of a run
with_delay 0 5 3 | accepted 0 3 5
clock 6 | made
start 0 | begun 0 3 0 5
clock 9 | made
finish 0 1 | again 0 3 0 12
start 0 | idle
clock 12 | made
start 1 | begun 0 3 1 12
finish 1 2 | again 0 3 1 15
clock 30 | made
start 0 | begun 0 3 2 15
# The end of a run is at the moment of a call too.
ask 33 | asked 0 1 false false
finish 0 3 | again 0 3 2 36
look | looks 33 1
";

#[test]
fn each_run_is_told_as_its_rows_have_it(rt: HostRuntime) -> Result<(), Fail> {
    play_cases(&rt, CASES)
}
