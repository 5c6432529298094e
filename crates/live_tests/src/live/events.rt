//! The clock, and the starts and finishes of the workers.

use super::play_cases;
use std::test::Fail;

const CASES: &str = "\
the first due is begun first and of a tie the first submitted
schedule 0 9 | accepted 0 3 9
schedule 0 5 | accepted 1 2 5
schedule 0 5 | accepted 2 1 5
clock 100 | made
start 0 | begun 1 2 0 5
start 1 | begun 2 1 0 5
finish 0 0 | done 1 2 0 0
start 0 | begun 0 3 0 9

of a tie the number decides and not the slot
execute 0 | accepted 0 3 0
at_rate 0 2 2 | accepted 1 2 2
start 0 | begun 0 3 0 0
finish 0 0 | done 0 3 0 0
schedule 0 4 | accepted 2 3 4
schedule 0 2 | accepted 3 1 2
clock 4 | made
start 0 | begun 1 2 0 2
start 1 | begun 3 1 0 2
# It keeps its number, and with it its place.
finish 0 0 | again 1 2 0 4
start 0 | begun 1 2 1 4
finish 1 0 | done 3 1 0 0
start 1 | begun 2 3 0 4

an event of a wrong worker is answered by an error
execute 4 | accepted 0 3 4
start 2 | no_worker
start 255 | no_worker
finish 2 0 | no_worker
finish 255 0 | no_worker
finish 0 0 | not_running
start 0 | begun 0 3 0 4
start 0 | busy
finish 1 0 | not_running
start 1 | idle
look | looks 4 1
finish 0 0 | done 0 3 0 0
finish 0 0 | not_running

the clock goes neither back nor past the limit
clock 4 | made
clock 4 | made
clock 3 | backward
execute 9 | accepted 0 3 9
clock 8 | backward
look | looks 9 1
clock 9 | made
clock late | too_far
clock max | too_far
look | looks 9 1
clock most | made
look | looks most 1

a refused start ends no task
schedule 0 9 | accepted 0 3 9
execute 0 | accepted 1 2 0
start 0 | begun 1 2 0 0
shut_down_now 0 | made
ends | ends 1 0
start 0 | busy
ends | ends 0 0

a refused finish ends no task
schedule 0 9 | accepted 0 3 9
execute 0 | accepted 1 2 0
start 0 | begun 1 2 0 0
shut_down_now 0 | made
ends | ends 1 0
finish 1 0 | not_running
ends | ends 0 0

a refused clock ends no task
schedule 0 9 | accepted 0 3 9
execute 0 | accepted 1 2 0
start 0 | begun 1 2 0 0
shut_down_now 0 | made
ends | ends 1 0
clock max | too_far
ends | ends 0 0

a refused cancel ends no task
schedule 0 9 | accepted 0 3 9
execute 0 | accepted 1 2 0
start 0 | begun 1 2 0 0
shut_down_now 0 | made
ends | ends 1 0
cancel_number 2 | no_task
ends | ends 0 0
";

#[test]
fn each_event_is_told_as_its_rows_have_it(rt: HostRuntime) -> Result<(), Fail> {
    play_cases(&rt, CASES)
}
