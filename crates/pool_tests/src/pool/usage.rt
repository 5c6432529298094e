//! A pool with a job of one's own.
ghost use Rattle.std.specs.Prelude.{◌≡◌};
ghost use Rattle.queue_code.specs.Calls.{task_count};
ghost use Rattle.queue_code.specs.Codes.{calls_of};
ghost use Rattle.task_word.specs.Views.{new_core};

use super::{in_time, tasks_of};
use crate::told::code_of;
use queue_code::Code;
use result_cell::Verdict;
use sched_time::Ending;
use std::alloc::Global;
use std::marker::Brand;
use std::sync::Wait;
use std::test::Fail;
use std::thread::Threads;
use task_word::CoreSeat;
use worker_pool::{Job, Named, Pool, PoolError, Shared};

/// A job of one's own: it doubles the number of its task.
struct Double;

impl Job for Double {
    fn run(&self, task: u32, _run: u64) -> Ending {
        Ending::Value(2 * task as u64)
    }
}

/// Runs what is due at moments 0 and 5, with two workers, and reads what came of task 3.
fn double_three<N: Named + Send + Sync, R: Threads + Wait + Sync>(
    rt: &R,
    alloc: Global,
    shared: &Shared<Global>,
    seat: CoreSeat<Global>,
    code: Code<Global>,
) -> Result<Option<Verdict>, PoolError>
    requires shared { (shared.now.table ≡ N.table) × (shared.now.cells ≡ N.cells) }
    requires seat { (seat.table ≡ shared.now.table) × (seat.view ≡ new_core shared.now.tasks) }
    requires tasks { shared.now.tasks ≡ task_count (calls_of code) }
    requires named { (calls_of code ≡ N.calls) × (2 ≡ N.workers) }
{
    // example: worker_pool::Pool::run
    let pool = Pool::<N, Global>::new(alloc, shared, seat, code, 2, 100)?; // two workers
    let mut handle = pool.handle(rt)?; // for another thread
    // `Double` is a `Job`: it answers twice the number of its task.
    pool.run(rt, &Double, &[0, 5])?; // what is due at moment 0, and then what is at 5
    // end of example
    Ok(handle.result(3))
}

/// The same with a new pool for four tasks that are due at moment 5.
fn play_double<R: Threads + Wait + Sync>(rt: &R, alloc: Global) -> Result<Option<Verdict>, Fail> {
    let code = code_of(alloc, tasks_of(alloc, 4, 5)?.as_str())?;
    let (shared, seat) = Shared::new(alloc, code.tasks())?;
    Ok(double_three::<Brand, _>(rt, alloc, &shared, seat, code)?)
}

#[test]
fn a_job_of_ones_own_is_run(rt: HostRuntime) -> Result<(), Fail> {
    let wanted = Verdict {
        task: 3,
        ending: Ending::Value(6),
    };
    assert!(rt; in_time(&rt, || play_double(&rt, rt.alloc()))? == Some(wanted));
    Ok(())
}
