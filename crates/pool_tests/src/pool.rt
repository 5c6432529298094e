//! Tests of the pool: jobs, and what is done with a pool, by one thread and by several.
mod beside;
mod growths;
mod long;
mod outcomes;
mod plays;
mod race;
mod scripts;
mod seats;
mod stress;
mod usage;

use executor_model::{Answer, Line, Message, Outcome};
use sched_time::Ending;
use std::alloc::{AllocError, Global};
use std::process::Abort;
use std::sync::atomic::{AtomicU64, Ordering};
use std::thread;
use std::thread::Threads;
use std::time::{Clock, Duration};
use worker_pool::Job;

/// How often a test looks whether what it waits for came, before it gives up.
const MOST_LOADS: u64 = 1_000_000_000;

/// How many milliseconds a pool has for what is done with it.
const MOST_MILLISECONDS: u32 = 45_000;

/// Ends the test as failed where what it does is not done in time.
fn watch<R: Clock + Abort>(rt: &R, done: &AtomicU64) {
    for _look in 0..MOST_MILLISECONDS {
        if done.load(Ordering::SeqCst) == 1 {
            return;
        }
        thread::sleep(rt, Duration::from_millis(1));
    }
    panic!(rt; "a call of the pool has not returned");
}

/// Does it, and ends the test as failed where it is not done in time: a call that waits for good is seen so.
fn in_time<R: Threads + Clock + Abort + Sync, T, F: FnOnce() -> T>(rt: &R, work: F) -> T
    requires { F.pre work }
{
    let done = AtomicU64::new(0);
    let ((), came) = thread::join(
        rt,
        || watch(rt, &done),
        || -> T
            requires { F.pre work }
        {
            let came = work();
            done.store(1, Ordering::SeqCst);
            came
        },
    );
    came
}

/// A job whose value is the number of the run.
struct RunNumber;

impl Job for RunNumber {
    fn run(&self, _task: u32, run: u64) -> Ending {
        Ending::Value(run)
    }
}

/// Waits until a count is as great as is wanted. Whether it was seen so.
fn saw(count: &AtomicU64, wanted: u64) -> bool {
    for _load in 0..MOST_LOADS {
        if count.load(Ordering::SeqCst) >= wanted {
            return true;
        }
    }
    false
}

/// A job whose value is the number of the run, and which looks whether the runs of its task have the numbers 0, 1 and so on.
#[derive(Drop)]
struct Counting {
    /// How many runs there were.
    runs: AtomicU64,
    /// How many had another number.
    astray: AtomicU64,
}

impl Counting {
    /// A job that was never run.
    fn new() -> Counting {
        Counting {
            runs: AtomicU64::new(0),
            astray: AtomicU64::new(0),
        }
    }
}

impl Job for Counting {
    fn run(&self, _task: u32, run: u64) -> Ending {
        if self.runs.fetch_add(1, Ordering::SeqCst) != run {
            self.astray.fetch_add(1, Ordering::SeqCst);
        }
        Ending::Value(run)
    }
}

/// Whether a line says that a task is done, with the value 1.
fn is_done(line: &Line) -> bool {
    matches!(
        line.message(),
        Message::Answer(Answer::Finish {
            outcome: Outcome::Done(1),
            ..
        })
    )
}

/// How many lines say so.
fn count_done(lines: &[Line]) -> usize {
    lines.iter().filter(|line| is_done(line)).count()
}

/// The plan of so many tasks with one run, each submitted at moment 0.
fn tasks_of(alloc: Global, count: u8, delay: u64) -> Result<String, AllocError> {
    format!(in alloc;
        "version = 1\n[[block]]\ntimes = {count}\nevery = 0\ncall = [{{ op = \"schedule\", name = \"a\", delay = {delay} }}]\n"
    )
}
