//! What is foreseen of a happening: the need of it, and the end of the run that it ends. What then comes is what comes
//! where nothing was foreseen.
use super::scripts::play_cases;
use std::test::Fail;

/// The calls and events of the example at the head of `executor_core`'s documentation.
///
/// Then tasks for each outcome: the first is to be done, the second to fail, the third to run again and to be ended, the fourth to be
/// dropped. The fifth waits at the shutdown, which ends it. What happens are first the submissions, a clock, and finishes that end no
/// run: of an idle worker, and of no worker. Then runs that end with each outcome but the last: the runs of the first four tasks. Then
/// the second run of the third task, which the shutdown ends.
///
/// Of a run that ends, the task is told, the number of the run, the due moment that the task holds from then on, and the outcome.
const CASES: &str = "\
a task runs once its delay has passed
submit 0 5
--
give clock 5 | said 0 Answer(Submit { task: 0, kind: Schedule, due: 5 }); 5 Answer(Clock);
give start 0 | said 5 Answer(Start { worker: 0, task: 0, run: 0, due: 5 });
give finish 0 7 | said 5 Answer(Finish { worker: 0, task: 0, run: 0, outcome: Done(7) }); | taken 3, moment 5, tasks 1

what is foreseen is what happens
submit 0 0
submit 0 0
rate 0 5 0
submit 0 0
fixed 0 5 9
shut_down 7
--
call | no end | said 0 Answer(Submit { task: 0, kind: Schedule, due: 0 });
call | no end | said 0 Answer(Submit { task: 1, kind: Schedule, due: 0 });
call | no end | said 0 Answer(Submit { task: 2, kind: Rate, due: 0 });
call | no end | said 0 Answer(Submit { task: 3, kind: Schedule, due: 0 });
call | no end | said 0 Answer(Submit { task: 4, kind: Fixed, due: 9 });
clock 1 | no end | said 1 Answer(Clock);
finish 0 1 | no end | said 1 Answer(Error(NotRunning));
finish 1 1 | no end | said 1 Answer(Error(NoWorker));
start 0 | no end | said 1 Answer(Start { worker: 0, task: 0, run: 0, due: 0 });
finish 0 7 | end 0 0 0 Done(7) | said 1 Answer(Finish { worker: 0, task: 0, run: 0, outcome: Done(7) });
start 0 | no end | said 1 Answer(Start { worker: 0, task: 1, run: 0, due: 0 });
fail 0 3 | end 1 0 0 Failed(3) | said 1 Answer(Finish { worker: 0, task: 1, run: 0, outcome: Failed(3) });
start 0 | no end | said 1 Answer(Start { worker: 0, task: 2, run: 0, due: 0 });
finish 0 8 | end 2 0 5 Again(5) | said 1 Answer(Finish { worker: 0, task: 2, run: 0, outcome: Again(5) });
start 0 | no end | said 1 Answer(Start { worker: 0, task: 3, run: 0, due: 0 });
cancel 3 | no end | said 1 Answer(Outside { task: 3, effect: Yes });
finish 0 9 | end 3 0 0 Dropped | said 1 Answer(Finish { worker: 0, task: 3, run: 0, outcome: Dropped });
clock 6 | no end | said 6 Answer(Clock);
start 0 | no end | said 6 Answer(Start { worker: 0, task: 2, run: 1, due: 5 });
call | no end | said 7 Answer(Shutdown); 7 End(4);
finish 0 10 | end 2 1 10 Ended | said 7 Answer(Finish { worker: 0, task: 2, run: 1, outcome: Ended });
start 0 | no end | said 7 Answer(Idle { worker: 0 });
";

#[test]
fn what_is_foreseen_is_what_happens(rt: HostRuntime) -> Result<(), Fail> {
    play_cases(&rt, 100, CASES)
}
