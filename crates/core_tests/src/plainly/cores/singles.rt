//! What a core tells between single happenings: whether a task is ripe, how much room it has, and whether it is full.
use super::scripts::play_cases;
use std::test::Fail;

/// Room is one line, one for each call that is left, and one for each task that is not cancelled.
const CASES: &str = "\
a waiting task is ripe at its due moment
submit 0 5
--
look | room 3, lines 0
call | room 2, lines 1
clock 4 | room 2, lines 2
clock 5 | ripe, room 2, lines 3
start 0 | room 2, lines 4

a kept task is ripe until a start meets it
submit 0 5
submit 0 9
cancel 2 0
--
look | room 6, lines 0
call | room 5, lines 1
call | room 4, lines 2
call | room 2, lines 3
clock 4 | room 2, lines 4
clock 5 | ripe, room 2, lines 5
start 0 | room 2, lines 6

a purge takes a kept task and none that waits
submit 0 5
submit 0 9
cancel 2 0
--
look | room 6, lines 0
call | room 5, lines 1
call | room 4, lines 2
call | room 2, lines 3
clock 5 | ripe, room 2, lines 4
purge | room 2, lines 5
start 0 | room 2, lines 6
clock 9 | ripe, room 2, lines 7
purge | ripe, room 2, lines 8

room falls with calls and cancels
submit 0 5
submit 0 9
cancel 2 0
--
look | room 6, lines 0
call | room 5, lines 1
call | room 4, lines 2
call | room 2, lines 3
cancel 0 | room 2, lines 4
clock 9 | ripe, room 2, lines 5
cancel 1 | ripe, room 1, lines 6
";

#[test]
fn a_core_tells_whether_a_task_is_ripe_and_its_room(rt: HostRuntime) -> Result<(), Fail> {
    play_cases(&rt, 100, CASES)
}

const LIMITED: &str = "\
no event is counted past the limit
--
look | room 1, lines 0
clock 1 | room 1, lines 1
clock 2 | full, room 1, lines 2 | taken 2, moment 2, tasks 0
give clock 3 | refused Some(Full) | full, room 1, lines 2
";

#[test]
fn no_event_is_counted_past_the_limit(rt: HostRuntime) -> Result<(), Fail> {
    play_cases(&rt, 2, LIMITED)
}
