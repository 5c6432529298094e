//! What is told before each happening: what it moves of the words, and whom a sweep ends.
use super::scripts::play_cases;
use std::test::Fail;

/// First each kind of call and of event, with eight tasks: the calls at moment 0, before the first clock; runs that end with a value,
/// the first of them of a periodic task, and before them a start and an end that change nothing; runs that fail, the second of them of
/// a cancelled task, and that of a periodic task, which is left under way; the other calls, with two sweeps, and the end of the run
/// that is under way. Then a shutdown at once, while a periodic task runs and one with one run waits.
const MOVES: &str = "\
each kind of call and of event with eight tasks
rate 0 5 0
submit 0 0
submit 0 0
submit 0 9
submit 0 0
fixed 0 5 0
illegal 0
cancel 0 3
cancel 0 3
ask 0
set_execute 1 false
shut_down 2
shut_down 2
submit 2 0
set_continue 3 false
--
call | need Submit(0) | words n0 v0 v0 v0 v0 v0 v0 v0
call | need Submit(1) | words n0 n0 v0 v0 v0 v0 v0 v0
call | need Submit(2) | words n0 n0 n0 v0 v0 v0 v0 v0
call | need Submit(3) | words n0 n0 n0 n0 v0 v0 v0 v0
call | need Submit(4) | words n0 n0 n0 n0 n0 v0 v0 v0
call | need Submit(5) | words n0 n0 n0 n0 n0 n0 v0 v0
call | need Nothing | words n0 n0 n0 n0 n0 n0 v0 v0
call | need Cancel(3) | words n0 n0 n0 n0! n0 n0 v0 v0
call | need Nothing | words n0 n0 n0 n0! n0 n0 v0 v0
call | need Nothing | words n0 n0 n0 n0! n0 n0 v0 v0
clock 0 | need Nothing | words n0 n0 n0 n0! n0 n0 v0 v0
start 1 | need Nothing | words n0 n0 n0 n0! n0 n0 v0 v0
finish 0 1 | need Nothing | words n0 n0 n0 n0! n0 n0 v0 v0
start 0 | need Start(0) | words r0 n0 n0 n0! n0 n0 v0 v0
start 0 | need Nothing | words r0 n0 n0 n0! n0 n0 v0 v0
finish 0 1 | need Rearm(0) | words n1 n0 n0 n0! n0 n0 v0 v0
start 0 | need Start(1) | words n1 r0 n0 n0! n0 n0 v0 v0
finish 0 1 | need Done(1) | words n1 d0 n0 n0! n0 n0 v0 v0
start 0 | need Start(2) | words n1 d0 r0 n0! n0 n0 v0 v0
fail 0 3 | need Fail(2) | words n1 d0 f0 n0! n0 n0 v0 v0
start 0 | need Start(4) | words n1 d0 f0 n0! r0 n0 v0 v0
cancel 4 | need Cancel(4) | words n1 d0 f0 n0! r0! n0 v0 v0
fail 0 3 | need Nothing | words n1 d0 f0 n0! r0! n0 v0 v0
start 0 | need Start(5) | words n1 d0 f0 n0! r0! r0 v0 v0
call | need Nothing | words n1 d0 f0 n0! r0! r0 v0 v0
call | need Sweep | words n1! d0 f0 n0! r0! r0 v0 v0
call | need Nothing | words n1! d0 f0 n0! r0! r0 v0 v0
call | need Nothing | words n1! d0 f0 n0! r0! r0 v0 v0
call | need Sweep | words n1! d0 f0 n0! r0! r0 v0 v0
finish 0 1 | need Cancel(5) | words n1! d0 f0 n0! r0! r0! v0 v0
start 0 | need Nothing | words n1! d0 f0 n0! r0! r0! v0 v0
clock 9 | need Nothing | words n1! d0 f0 n0! r0! r0! v0 v0 | taken 32, moment 9, tasks 8 | room 5, lines 33

a run under way at a shutdown at once needs a cancel at its end
set_continue 0 true
rate 0 5 0
submit 0 9
shut_down_now 1
--
call | need Nothing | words v0 v0
call | need Submit(0) | words n0 v0
call | need Submit(1) | words n0 n0
start 0 | need Start(0) | words r0 n0
call | need Sweep | words r0 n0!
clock 9 | need Nothing | words r0 n0!
finish 0 1 | need Cancel(0) | words r0! n0!
start 0 | need Nothing | words r0! n0!
";

#[test]
fn needs_name_the_moves_of_words(rt: HostRuntime) -> Result<(), Fail> {
    play_cases(&rt, 100, MOVES)
}

/// A sweep of a shutdown at once ends each task that waits, whatever the policies say: the second one there has nothing more to end,
/// and no task there is.
const SWEEPS: &str = "\
sweeps tell whom the next call ends
rate 0 5 0
submit 0 4
submit 0 3
shut_down 3
set_execute 3 false
--
call | ends ....
call | ends ....
call | ends 0...
call | ends .1..
call | ends ....

a shutdown at once ends each task that waits
rate 0 5 9
submit 0 4
submit 0 3
cancel 2 1
illegal 3
shut_down_now 3
shut_down_now 3
set_continue 3 false
set_execute 3 false
--
call | ends ....
call | ends ....
call | ends ....
call | ends ....
call | ends 0.2.
call | ends ....
call | ends ....
call | ends ....
call | ends ....
";

#[test]
fn sweeps_tell_whom_the_next_call_ends(rt: HostRuntime) -> Result<(), Fail> {
    play_cases(&rt, 100, SWEEPS)
}

/// Each shutdown at once needs a sweep, whether the executor is shut before it or not; a shutdown and a submission after it need
/// nothing.
const CALLS: &str = "\
calls are needed from their moments on
submit 0 5
submit 0 9
cancel 2 0
--
until 0 | until Some(Submit(0))
until 0 | until Some(Submit(1))
until 1 | until None
until 2 | until Some(Cancel(0))
until 18446744073709551615 | until None

a shutdown at once needs a sweep
submit 0 9
shut_down_now 1
shut_down_now 2
shut_down 2
submit 2 0
cancel 2 0
set_execute 3 false
set_execute 3 true
set_remove 3 false
shut_down 3
--
until 0 | until Some(Submit(0))
until 0 | until None
until 1 | until Some(Sweep)
until 2 | until Some(Sweep)
until 2 | until Some(Nothing)
until 2 | until Some(Nothing)
until 2 | until Some(Nothing)
until 3 | until Some(Sweep)
until 3 | until Some(Nothing)
until 3 | until Some(Nothing)
until 18446744073709551615 | until Some(Nothing)
until 18446744073709551615 | until None
";

#[test]
fn calls_are_needed_from_their_moments_on(rt: HostRuntime) -> Result<(), Fail> {
    play_cases(&rt, 100, CALLS)
}
