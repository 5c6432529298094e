//! What a run comes to, which errors come, and what later runs are answered.
use super::plays::{Came, Known};
use super::scripts::play;
use super::{RunNumber, count_done, tasks_of};
use crate::told::{AMPLE, are_told, check_lines, conforms};
use executor_model::{Answer, Line, Message};
use plan_read::read_plan;
use result_cell::Verdict;
use sched_time::Ending;
use std::alloc::AllocGlobal;
use std::process::Abort;
use std::sync::Wait;
use std::sync::atomic::{AtomicU64, Ordering};
use std::test::Fail;
use std::thread::Threads;
use std::time::Clock;
use worker_pool::Job;

/// Some tasks that are submitted at moment 0, with their delay, what is done with a pool of one worker for them, and the text of its
/// lines then. A line of the script has a call, ` | ` and what it is answered.
#[derive(Clone, Copy)]
struct Row<'a> {
    name: &'a str,
    tasks: u8,
    delay: u64,
    limit: u32,
    script: &'a str,
    trace: &'a str,
}

const A_TASK_IS_RUN_ONCE_IT_IS_DUE: Row<'static> = Row {
    name: "a task is run once it is due",
    tasks: 1,
    delay: 5,
    limit: AMPLE,
    script: "advance 0 | Advanced(Ok(Applied { first: 0, count: 2, work: None }))\nrun 5 | Ran(Ok(()))\n",
    trace: "0 submit 0 schedule due 5\n0 clock\n\
            5 clock\n5 start 0 task 0 run 0 due 5\n5 finish 0 task 0 run 0 done 0\n",
};

/// All rows but the one whose verdict is read.
const ROWS: &[Row<'static>] = &[
    Row {
        name: "a limit ends this run and each later one",
        tasks: 1,
        delay: 5,
        limit: 3,
        script: "run 0 5 | Ran(Err(Full))\nrun 6 | Ran(Err(Full))\nrun | Ran(Err(Full))\n\
                 advance 9 | Advanced(Err(Full))\n",
        trace: "0 submit 0 schedule due 5\n0 clock\n\
                5 clock\n5 start 0 task 0 run 0 due 5\n",
    },
    Row {
        name: "a refused advance ends no run",
        tasks: 1,
        delay: 5,
        limit: 1,
        script: "advance 0 | Advanced(Ok(Applied { first: 0, count: 2, work: None }))\nadvance 5 | Advanced(Err(Full))\n\
                 run | Ran(Ok(()))\nrun 6 | Ran(Err(Full))\nrun | Ran(Err(Full))\n",
        trace: "0 submit 0 schedule due 5\n0 clock\n",
    },
    Row {
        name: "nothing starts before a clock of the run",
        tasks: 2,
        delay: 0,
        limit: AMPLE,
        script: "advance 3 | Advanced(Ok(Applied { first: 0, count: 3, work: None }))\nrun | Ran(Ok(()))\n\
                 run | Ran(Ok(()))\nrun 2 | Ran(Ok(()))\nrun 4 | Ran(Ok(()))\n",
        trace: "0 submit 0 schedule due 0\n0 submit 1 schedule due 0\n\
                3 clock\n3 error backward\n3 start 0 task 0 run 0 due 0\n3 finish 0 task 0 run 0 done 0\n\
                3 start 0 task 1 run 0 due 0\n3 finish 0 task 1 run 0 done 0\n\
                4 clock\n",
    },
];

/// Checks what the calls of a row are answered, and the text of the lines; and gives back what else is known.
fn plays<R: AllocGlobal + Threads + Wait + Sync + Clock + Abort>(
    rt: &R,
    row: &Row<'_>,
) -> Result<Came, Fail> {
    let plan = tasks_of(rt.alloc(), row.tasks, row.delay)?;
    let (said, came) = play(rt, plan.as_str(), 1, row.limit, &RunNumber, row.script)?;
    are_told(rt, row.name, &said, row.script)?;
    assert!(rt; !came.is_forestalled, "{}", row.name);
    check_lines(rt, row.name, &came.lines, row.trace)?;
    Ok(came)
}

/// Whether a handle, and handle and book, know of each of so many tasks that it is done with this value.
fn all_read(known: &[Known], tasks: u32, value: u64) -> bool {
    let ending = Ending::Value(value);
    for (task, read) in (0..tasks).zip(known) {
        let verdict = Some(Verdict { task, ending });
        if read.result != verdict || read.agreed != verdict {
            return false;
        }
    }
    known.len() == tasks as usize
}

#[test]
fn each_row_is_played(rt: HostRuntime) -> Result<(), Fail> {
    for row in ROWS {
        plays(&rt, row)?;
    }
    let came = plays(&rt, &A_TASK_IS_RUN_ONCE_IT_IS_DUE)?;
    assert!(rt; all_read(&came.known, 1, 0));
    Ok(())
}

/// A job that waits until so many of them run at once; those of later tasks, until so many of them do so again.
#[derive(Drop)]
struct Gate {
    wanted: u64,
    inside: AtomicU64,
}

impl Job for Gate {
    fn run(&self, task: u32, _run: u64) -> Ending {
        self.inside.fetch_add(1, Ordering::SeqCst);
        let wanted = if (task as u64) < self.wanted {
            self.wanted
        } else {
            self.wanted.saturating_mul(2)
        };
        if super::saw(&self.inside, wanted) {
            Ending::Value(1)
        } else {
            Ending::Fault(1)
        }
    }
}

/// How many lines are those of a run that ended.
fn count_finishes(lines: &[Line]) -> usize {
    lines
        .iter()
        .filter(|line| matches!(line.message(), Message::Answer(Answer::Finish { .. })))
        .count()
}

/// Checks that each of so many tasks is done with the value 1, as its line says and as a handle reads it.
fn all_done(
    rt: &(impl AllocGlobal + Abort),
    name: &str,
    plan: &str,
    workers: u8,
    tasks: u32,
    came: &Came,
) -> Result<(), Fail> {
    assert!(rt;
        all_read(&came.known, tasks, 1) && !came.is_forestalled,
        "{name}"
    );
    let finishes = count_finishes(&came.lines);
    let done = count_done(&came.lines);
    assert!(rt;
        finishes == tasks as usize && done == finishes,
        "{name}: {done}"
    );
    let plan = read_plan(rt.alloc(), plan.as_bytes())?;
    conforms(rt, &plan, workers, &came.lines)
}

/// Runs so many tasks of a plan by so many workers, each of whose jobs waits for the others, and checks that all are done.
fn runs_gated<R: AllocGlobal + Threads + Wait + Sync + Clock + Abort>(
    rt: &R,
    plan: &str,
    workers: u8,
    tasks: u32,
    script: &str,
) -> Result<(), Fail> {
    let gate = Gate {
        wanted: workers as u64,
        inside: AtomicU64::new(0),
    };
    let (said, came) = play(rt, plan, workers, AMPLE, &gate, script)?;
    are_told(rt, script, &said, script)?;
    all_done(rt, script, plan, workers, tasks, &came)
}

/// As many jobs as workers at moment 0; and where they are to run twice, as many once more at moment 5, when all sleep.
fn runs_all<R: AllocGlobal + Threads + Wait + Sync + Clock + Abort>(
    rt: &R,
    workers: u8,
    twice: bool,
) -> Result<(), Fail> {
    let mut plan = tasks_of(rt.alloc(), workers, 0)?;
    let tasks = u32::from(workers);
    if !twice {
        return runs_gated(rt, plan.as_str(), workers, tasks, "run 0 | Ran(Ok(()))");
    }
    write!(
        plan,
        "[[block]]\ntimes = {workers}\nevery = 0\ncall = [{{ op = \"schedule\", name = \"b\", delay = 5 }}]\n"
    )?;
    runs_gated(
        rt,
        plan.as_str(),
        workers,
        2 * tasks,
        "run 0 5 | Ran(Ok(()))",
    )
}

/// Each job waits until as many run as there are workers: at moment 0, and then once more at moment 5. There all workers are asleep,
/// so that each but the first is woken by another one.
#[test]
fn as_many_jobs_run_as_there_are_workers(rt: HostRuntime) -> Result<(), Fail> {
    for workers in [2u8, 8, 64] {
        runs_all(&rt, workers, false)?;
        runs_all(&rt, workers, true)?;
    }
    Ok(())
}
