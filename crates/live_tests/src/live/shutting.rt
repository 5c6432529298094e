//! The calls that set a policy, shut the executor down, or ask how far it is.

use super::play_cases;
use std::test::Fail;

const CASES: &str = "\
an orderly shutdown ends periodic tasks
schedule 0 10 | accepted 0 3 10
at_rate 0 5 3 | accepted 1 2 5
execute 0 | accepted 2 1 0
with_delay 0 5 2 | accepted 3 0 5
is_shut | shut false
shut_down 1 | first true
ends | ends 2 13
look | looks 1 2
is_shut | shut true
# The second time nothing is ended.
shut_down 2 | first false
ends | ends 0 0
look | looks 2 2
cancel_number 1 | no
# Delayed tasks run still.
clock 10 | made
start 0 | begun 2 1 0 0
start 1 | begun 0 3 0 10
ask 10 | asked 0 2 true false
finish 0 1 | done 2 1 0 1
finish 1 2 | done 0 3 0 2
ask 10 | asked 0 0 true true

ended tasks are told by number whatever their slots
set_remove 0 true | made
at_rate 0 9 1 | accepted 0 3 9
at_rate 0 8 1 | accepted 1 2 8
at_rate 0 7 1 | accepted 2 1 7
at_rate 0 6 1 | accepted 3 0 6
cancel_number 1 | yes
cancel_number 3 | yes
with_delay 0 5 1 | accepted 4 0 5
with_delay 0 4 1 | accepted 5 2 4
with_delay 0 3 1 | accepted 6 11 3
shut_down 0 | first true
ends | ends 5 2456
look | looks 0 0

policies that are set after a shutdown end tasks
set_continue 0 true | made
at_rate 0 9 9 | accepted 0 3 9
schedule 0 9 | accepted 1 2 9
with_delay 0 1 1 | accepted 2 1 1
schedule 0 1 | accepted 3 0 1
shut_down 0 | first true
ends | ends 0 0
look | looks 0 4
set_remove 1 false | made
set_execute 1 true | made
ends | ends 0 0
set_continue 1 false | made
ends | ends 2 2
look | looks 1 2
# A task that is due runs still.
set_execute 1 false | made
ends | ends 1 1
look | looks 1 1
set_execute 1 false | made
ends | ends 0 0
start 0 | begun 3 0 0 1

a policy is set and ends no task before a shutdown
policies | policies false true false
schedule 0 9 | accepted 0 3 9
at_rate 0 9 9 | accepted 1 2 9
cancel_number 1 | yes
set_remove 1 true | made
policies | policies false true true
set_continue 2 true | made
policies | policies true true true
set_continue 3 false | made
set_execute 4 false | made
policies | policies false false true
ends | ends 0 0
look | looks 4 2
shut_down 4 | first true
ends | ends 1 0
look | looks 4 0

a sweep drops kept tasks
schedule 0 9 | accepted 0 3 9
schedule 0 9 | accepted 1 2 9
schedule 0 9 | accepted 2 1 9
cancel_number 1 | yes
look | looks 0 3
shut_down 0 | first true
ends | ends 0 0
look | looks 0 2
cancel_number 2 | yes
# Neither sweeps.
shut_down 1 | first false
set_execute 1 true | made
set_remove 1 true | made
ask 1 | asked 2 0 true false
set_continue 1 false | made
ask 1 | asked 1 0 true false
set_remove 1 false | made
cancel_number 0 | yes
look | looks 1 1
shut_down_now 2 | made
ends | ends 0 0
look | looks 2 0
cancel_number 1 | no
ask 2 | asked 0 0 true true

a shutdown at once ends what waits and no run comes after it
set_continue 0 true | made
at_rate 0 0 5 | accepted 0 3 0
execute 0 | accepted 1 2 0
execute 0 | accepted 2 1 0
at_rate 0 9 9 | accepted 3 0 9
start 0 | begun 0 3 0 0
start 1 | begun 1 2 0 0
shut_down_now 1 | made
ends | ends 2 23
look | looks 1 2
is_shut | shut true
ask 1 | asked 0 2 true false
# The runs that are under way go on to their end.
finish 0 1 | ended 0 3 0
finish 1 2 | done 1 2 0 2
look | looks 1 0
ask 1 | asked 0 0 true true
start 0 | idle
shut_down_now 2 | made
shut_down 2 | first false
ends | ends 0 0
look | looks 2 0

at the end of a run the policy decides whether one comes after it
set_continue 0 true | made
at_rate 0 0 5 | accepted 0 3 0
start 0 | begun 0 3 0 0
shut_down 0 | first true
ends | ends 0 0
finish 0 1 | again 0 3 0 5
clock 5 | made
start 0 | begun 0 3 1 5
set_continue 6 false | made
ends | ends 0 0
look | looks 6 1
finish 0 2 | ended 0 3 1
look | looks 6 0
cancel_number 0 | no
";

#[test]
fn each_call_is_told_as_its_rows_have_it(rt: HostRuntime) -> Result<(), Fail> {
    play_cases(&rt, CASES)
}
