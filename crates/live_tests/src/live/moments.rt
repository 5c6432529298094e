//! The moments of calls.

use super::play_cases;
use std::test::Fail;

const CASES: &str = "\
a call after a clock is a nanosecond behind it
clock 10 | made
execute 10 | accepted 0 3 11
look | looks 11 1
execute 0 | accepted 1 2 11
clock 11 | made
clock 11 | made
set_remove 0 true | made
look | looks 12 2
clock 12 | made
ask 13 | asked 2 0 false false
look | looks 13 2
shut_down 40 | first true
shut_down_now 39 | made
look | looks 40 0

behind the last clock no call is made but events come
execute 0 | accepted 0 3 0
at_rate 0 0 1 | accepted 1 2 0
clock most | made
execute 0 | too_far
cancel_number_by_call 0 0 | too_far
ask most | too_far
clock most | made
start 0 | begun 0 3 0 0
finish 0 3 | done 0 3 0 3
cancel_number 1 | yes
look | looks most 1

a call that is too late changes nothing
at_rate 1 0 1 | accepted 0 3 1
set_remove late true | too_far
shut_down late | too_far
shut_down_now max | too_far
ask late | too_far
look | looks 1 1
is_shut | shut false
policies | policies false true false
shut_down most | first true
ends | ends 1 0
# What was ended stands until something happens.
shut_down_now late | too_far
execute late | too_far
ends | ends 1 0
ask 0 | asked 0 0 true true
ends | ends 0 0
look | looks most 0
";

#[test]
fn each_moment_is_told_as_its_rows_have_it(rt: HostRuntime) -> Result<(), Fail> {
    play_cases(&rt, CASES)
}
