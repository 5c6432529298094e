//! What the words of the tasks say after each event.
use super::scripts::play_cases;
use std::test::Fail;

/// In the second case a sweep that a shutdown makes ends a periodic task that waits, one that a policy makes later ends a delayed one,
/// and the periodic task that runs meanwhile ends at its finish. In the third a shutdown at once ends each task that waits, also one
/// that is due, and the periodic task that runs ends at its finish.
const CASES: &str = "\
words tell how far each task has come
rate 0 5 0
submit 0 0
submit 9 0
--
look | words v0 v0 v0
give clock 0 | words n0 n0 v0
give start 0 | words r0 n0 v0
give finish 0 1 | words n1 n0 v0
give start 0 | words n1 r0 v0
give cancel 1 | words n1 r0! v0
give finish 0 1 | words n1 r0! v0

words tell which tasks were ended
rate 0 5 0
fixed 0 5 3
submit 0 9
shut_down 2
set_execute 4 false
--
look | words v0 v0 v0
give clock 0 | words n0 n0 n0
give start 0 | words r0 n0 n0
give clock 2 | words r0 n0! n0
give clock 4 | words r0 n0! n0!
give finish 0 1 | words r0! n0! n0!

words tell which tasks were ended at once
set_continue 0 true
rate 0 5 0
fixed 0 5 3
submit 0 1
shut_down_now 2
submit 4 0
--
look | words v0 v0 v0 v0
give clock 0 | words n0 n0 n0 v0
give start 0 | words r0 n0 n0 v0
give clock 4 | words r0 n0! n0! v0
give finish 0 1 | words r0! n0! n0! v0
";

#[test]
fn words_tell_how_far_each_task_has_come(rt: HostRuntime) -> Result<(), Fail> {
    play_cases(&rt, 100, CASES)
}
