//! Purges, and the head of the queue.

use super::play_cases;
use std::test::Fail;

const CASES: &str = "\
a purge takes each kept task and no other
schedule 0 5 | accepted 0 3 5
schedule 0 7 | accepted 1 2 7
schedule 0 9 | accepted 2 1 9
execute 0 | accepted 3 0 0
start 0 | begun 3 0 0 0
cancel 0 3 | yes
cancel 2 1 | yes
cancel 3 0 | yes
head_due | due 5
next_due | due 7
ask 0 | asked 3 1 false false
purge | purged
ask 0 | asked 1 1 false false
look | looks 0 2
is_waiting 1 2 | waits true
head_due | due 7
finish 0 7 | dropped 3 0 0
# What was taken out stays cancelled, and its slot is used again.
cancel 0 3 | no
execute 0 | accepted 4 0 0
execute 0 | accepted 5 1 0
execute 0 | accepted 6 3 0
clock 7 | made
start 0 | begun 4 0 0 0

a purge of none changes nothing
purge | purged
head_due | none
schedule 5 5 | accepted 0 3 10
purge | purged
look | looks 5 1
head_due | due 10
# By the remove policy none is kept.
set_remove 5 true | made
cancel 0 3 | yes
head_due | none
purge | purged
look | looks 5 0

a purge may come once the executor is shut
schedule 0 5 | accepted 0 3 5
at_rate 0 5 5 | accepted 1 2 5
shut_down 1 | first true
ends | ends 1 1
cancel 0 3 | yes
ask 1 | asked 1 0 true false
purge | purged
# It ends no task, and moves no clock.
ends | ends 0 0
look | looks 1 0
ask 1 | asked 0 0 true true
shut_down_now 1 | made
purge | purged
ask 1 | asked 0 0 true true

the head of the queue waits or is kept
schedule 0 5 | accepted 0 3 5
schedule 0 6 | accepted 1 2 6
cancel 1 2 | yes
head_due | due 5
cancel 0 3 | yes
next_due | none
head_due | due 5
clock 5 | made
start 0 | idle
head_due | due 6
";

#[test]
fn each_purge_is_told_as_its_rows_have_it(rt: HostRuntime) -> Result<(), Fail> {
    play_cases(&rt, CASES)
}
