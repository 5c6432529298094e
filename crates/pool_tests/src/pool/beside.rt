//! What is answered to another thread while a job is run.
use super::plays::{Came, Play, play_in_time};
use super::scripts::{Said, Script, say_all};
use super::{RunNumber, count_done, saw, tasks_of};
use crate::told::{are_told, check_lines, code_of};
use heap_allocator::HeapAllocator;
use sched_time::Ending;
use std::alloc::{AllocError, AllocGlobal, Global};
use std::process::Abort;
use std::sync::Wait;
use std::sync::atomic::{AtomicU64, Ordering};
use std::test::Fail;
use std::thread;
use std::thread::Threads;
use std::time::Clock;
use worker_pool::{Handle, Job, Named, Pool, PoolError};

/// A job that says that it began, and waits until it may end.
#[derive(Drop)]
struct Held {
    began: AtomicU64,
    may_end: AtomicU64,
    /// The task whose job lets all jobs end. Where it is `None`, who calls beside them does.
    opener: Option<u32>,
}

impl Held {
    /// Jobs none of which has begun.
    fn new(opener: Option<u32>) -> Held {
        Held {
            began: AtomicU64::new(0),
            may_end: AtomicU64::new(0),
            opener,
        }
    }
}

impl Job for Held {
    fn run(&self, task: u32, _run: u64) -> Ending {
        self.began.store(1, Ordering::SeqCst);
        if self.opener == Some(task) {
            self.may_end.store(1, Ordering::SeqCst);
        }
        if saw(&self.may_end, 1) {
            Ending::Value(1)
        } else {
            Ending::Fault(1)
        }
    }
}

/// Does the calls of a script once a job runs, and lets it end then.
fn call_beside<N: Named + Send + Sync, A: HeapAllocator + Send + Sync, R: Threads + Wait + Sync>(
    rt: &R,
    alloc: Global,
    pool: &Pool<'_, N, A>,
    held: &Held,
    script: &Script<'_>,
) -> Result<Vec<Said>, Fail> {
    let said = if saw(&held.began, 1) {
        say_all(rt, alloc, pool, &RunNumber, script)
    } else {
        Ok(Vec::new(alloc))
    };
    if held.opener.is_none() {
        held.may_end.store(1, Ordering::SeqCst);
    }
    said
}

/// A run at moment 0, and the calls of a script beside it while its first job is run.
#[derive(Drop)]
pub struct Beside<'a> {
    held: &'a Held,
    script: Script<'a>,
    ran: Result<(), PoolError>,
    said: Option<Vec<Said>>,
}

/// Does it with a pool.
pub fn play_in<
    's,
    N: Named + Send + Sync,
    A: HeapAllocator + Send + Sync,
    R: Threads + Wait + Sync,
>(
    rt: &R,
    alloc: Global,
    pool: &Pool<'s, N, A>,
    beside: &mut Beside<'_>,
) -> Result<Vec<Handle<'s, N, A>>, Fail> {
    let (held, script) = (beside.held, beside.script);
    let (ran, said) = thread::join(
        rt,
        || pool.run(rt, held, &[0]),
        || call_beside(rt, alloc, pool, held, &script),
    );
    beside.ran = ran;
    beside.said = Some(said?);
    Ok(Vec::new(alloc))
}

/// Checks what calls beside a run of a plan are answered, which runs well, and gives what is known then.
fn runs_beside<R: AllocGlobal + Threads + Wait + Sync + Clock + Abort>(
    rt: &R,
    name: &str,
    plan: &str,
    workers: u8,
    opener: Option<u32>,
    script: &str,
) -> Result<Came, Fail> {
    let alloc = rt.alloc();
    let code = code_of(alloc, plan)?;
    let mut beside = Beside {
        held: &Held::new(opener),
        script: Script { text: script },
        ran: Ok(()),
        said: None,
    };
    let came = play_in_time(
        rt,
        alloc,
        alloc,
        code,
        workers,
        1_000,
        Play::Beside::<RunNumber>(&mut beside),
    )?;
    assert!(rt; beside.ran == Ok(()), "{name}");
    are_told(rt, name, &beside.said.ok_or("nothing was said")?, script)?;
    Ok(came)
}

/// Calls beside a run, and what they are answered.
const BESIDE_A_RUN: &str = "run 1 | Ran(Err(Running))\nrun | Ran(Err(Running))\n\
                            advance 7 | Advanced(Ok(Applied { first: 4, count: 1, work: None }))\n\
                            run 8 | Ran(Err(Running))";

/// The lines of the run, and of the clock beside it.
const LINES_BESIDE: &str = "0 submit 0 schedule due 0\n0 submit 1 schedule due 0\n0 clock\n\
                            0 start 0 task 0 run 0 due 0\n7 clock\n7 finish 0 task 0 run 0 done 1\n\
                            7 start 0 task 1 run 0 due 0\n7 finish 0 task 1 run 0 done 1\n";

#[test]
fn a_second_run_is_told_so(rt: HostRuntime) -> Result<(), Fail> {
    let plan = tasks_of(rt.alloc(), 2, 0)?;
    let came = runs_beside(&rt, "beside a run", plan.as_str(), 1, None, BESIDE_A_RUN)?;
    check_lines(&rt, "beside a run", &came.lines, LINES_BESIDE)
}

/// The plan of a task that is due at moment 0, and one that is due at this moment.
fn two_tasks(alloc: Global, moment: u64) -> Result<String, AllocError> {
    format!(in alloc;
        "version = 1\n[[block]]\ncall = [{{ op = \"schedule\", name = \"a\", delay = 0 }},\n\
         {{ op = \"schedule\", name = \"b\", delay = {moment} }}]\n"
    )
}

/// Moments, up to the greatest one.
const MOMENTS: &[u64] = &[
    1,
    65_536,
    4_294_967_295,
    4_294_967_296,
    4_611_686_018_427_387_904,
];

/// The job of the task that is due at this moment, which another thread lets the clock show, lets both end.
#[test]
fn a_clock_from_elsewhere_wakes_a_worker(rt: HostRuntime) -> Result<(), Fail> {
    let alloc = rt.alloc();
    for moment in MOMENTS {
        let plan = two_tasks(alloc, *moment)?;
        let script = format!(in alloc;
            "advance {moment} | Advanced(Ok(Applied {{ first: 4, count: 1, work: None }}))"
        )?;
        let came = runs_beside(
            &rt,
            "from elsewhere",
            plan.as_str(),
            2,
            Some(1),
            script.as_str(),
        )?;
        assert!(rt; count_done(&came.lines) == 2, "{moment}");
    }
    Ok(())
}
