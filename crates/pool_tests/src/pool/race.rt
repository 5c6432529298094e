//! Workers run tasks while handles on threads of their own cancel them, and a further thread moves the clock.
use super::plays::{Came, Known, Play, play_once};
use super::{MOST_LOADS, RunNumber, in_time, saw};
use crate::told::conforms;
use executor_model::{Answer, CancelEffect, Line, Message, Outcome};
use heap_allocator::HeapAllocator;
use plan_compile::compile;
use plan_read::{Plan, read_plan};
use sched_time::Ending;
use std::alloc::{AllocError, AllocGlobal, Global};
use std::process::Abort;
use std::sync::Wait;
use std::sync::atomic::{AtomicU64, Ordering};
use std::test::Fail;
use std::thread;
use std::thread::Threads;
use std::time::Clock;
use task_word::{CancelAnswer, TaskState};
use worker_pool::{Handle, Job, Named, Pool, PoolError};

/// How often each race is run.
const ROUNDS: u32 = 200;

/// The first so many tasks are cancelled.
const TASKS: usize = 64;

/// A plan, who runs its tasks and who cancels them, and how the run ends.
#[derive(Clone, Copy)]
pub struct Race<'a> {
    pub plan: &'a str,
    pub workers: u8,
    pub handles: usize,
    pub limit: u32,
    pub moments: &'a [u64],
    /// What a further thread lets the clock show meanwhile.
    pub beside: u64,
    /// How many turns a job takes.
    pub turns: u32,
    pub ran: Result<(), PoolError>,
    /// Whether each of the tasks is done or cancelled by a handle at the end.
    pub all_end: bool,
}

/// A job that takes some turns, and what who cancels and who runs it wait for. Each is 0 at first.
#[derive(Drop)]
struct Turns {
    count: u32,
    /// Whether each job, and the clock beside, waits until a handle has won a cancel.
    waits: bool,
    /// How many jobs were begun.
    begun: AtomicU64,
    /// 1 once a handle has won a cancel.
    cancelled: AtomicU64,
    /// 1 once the run has ended.
    ended: AtomicU64,
    /// 1 where what is waited for did not come.
    gave_up: AtomicU64,
}

impl Turns {
    /// A job that takes so many turns.
    fn new(count: u32, waits: bool) -> Turns {
        Turns {
            count,
            waits,
            begun: AtomicU64::new(0),
            cancelled: AtomicU64::new(0),
            ended: AtomicU64::new(0),
            gave_up: AtomicU64::new(0),
        }
    }

    /// Waits until a first job has begun, or the run has ended without one.
    fn await_begin(&self) {
        for _look in 0..MOST_LOADS {
            let begun = self.begun.load(Ordering::SeqCst);
            if begun > 0 || self.ended.load(Ordering::SeqCst) > 0 {
                return;
            }
        }
        self.gave_up.store(1, Ordering::SeqCst);
    }

    /// Waits until a handle has won a cancel, where that is waited for.
    fn await_cancel(&self) {
        if self.waits && !saw(&self.cancelled, 1) {
            self.gave_up.store(1, Ordering::SeqCst);
        }
    }
}

impl Job for Turns {
    fn run(&self, _task: u32, run: u64) -> Ending {
        self.begun.fetch_add(1, Ordering::SeqCst);
        self.await_cancel();
        for _turn in 0..self.count {
            let _begun = self.begun.load(Ordering::SeqCst);
        }
        Ending::Value(run)
    }
}

/// A handle, and which tasks it won.
#[derive(Drop)]
struct Canceller<'s, N: Named, A: HeapAllocator> {
    handle: Handle<'s, N, A>,
    won: [bool; TASKS],
    /// Whether each task that it won was cancelled each time that it looked.
    keeps: bool,
}

impl<'s, N: Named, A: HeapAllocator> Canceller<'s, N, A> {
    /// Cancels each task, from the first one on or from the last one on, and looks each time at those that it won.
    fn cancel_all(&mut self, is_ascending: bool, job: &Turns) {
        for place in 0..TASKS {
            let task = if is_ascending {
                place
            } else {
                TASKS - 1 - place
            };
            if self.handle.cancel(task as u32) == CancelAnswer::Yes {
                self.won[task] = true;
                job.cancelled.store(1, Ordering::SeqCst);
            }
            self.look();
        }
    }

    /// Looks at the tasks that it won.
    fn look(&mut self) {
        for task in 0..TASKS {
            if self.won[task] && self.handle.state(task as u32) != TaskState::Cancelled {
                self.keeps = false;
            }
        }
    }
}

/// So many handles of a pool.
fn cancellers_of<'s, N: Named, A: HeapAllocator, R: Wait>(
    rt: &R,
    alloc: Global,
    pool: &Pool<'s, N, A>,
    count: usize,
) -> Result<Vec<Canceller<'s, N, A>>, Fail> {
    let mut cancellers = Vec::new(alloc);
    for _place in 0..count {
        cancellers.push(Canceller {
            handle: pool.handle(rt)?,
            won: [false; TASKS],
            keeps: true,
        })?;
    }
    Ok(cancellers)
}

/// Cancels with all handles, each on a thread of its own, once a first job has begun.
fn cancel_with_all<
    N: Named + Send + Sync,
    A: HeapAllocator + Send + Sync,
    R: Threads + Wait + Sync,
>(rt: &R, job: &Turns, cancellers: &mut [Canceller<'_, N, A>]) {
    job.await_begin();
    let threads = cancellers.len();
    if threads == 0 {
        return;
    }
    thread::for_each_mut(
        rt,
        cancellers,
        threads,
        &|place, canceller| { canceller.cancel_all(place % 2 == 0, job) },
    );
}

/// Runs the pool, with all handles and the clock beside it.
fn run_beside<N: Named + Send + Sync, A: HeapAllocator + Send + Sync, R: Threads + Wait + Sync>(
    rt: &R,
    pool: &Pool<'_, N, A>,
    race: &Race<'_>,
    job: &Turns,
    cancellers: &mut [Canceller<'_, N, A>],
) -> Result<(), PoolError> {
    let (ran, ()) = thread::join(
        rt,
        || {
            let ran = pool.run(rt, job, race.moments);
            job.ended.store(1, Ordering::SeqCst);
            ran
        },
        || cancel_and_move(rt, pool, race.beside, job, cancellers),
    );
    ran
}

/// Cancels with all handles, and lets the clock show a moment meanwhile: once a handle has won, where that is waited for.
fn cancel_and_move<
    N: Named + Send + Sync,
    A: HeapAllocator + Send + Sync,
    R: Threads + Wait + Sync,
>(rt: &R, pool: &Pool<'_, N, A>, moment: u64, job: &Turns, cancellers: &mut [Canceller<'_, N, A>]) {
    let (_applied, ()) = thread::join(
        rt,
        || {
            job.await_cancel();
            pool.advance(rt, moment)
        },
        || cancel_with_all(rt, job, cancellers),
    );
}

/// How a race is run in one of its rounds.
#[derive(Clone, Copy)]
struct Round {
    /// Whether the handles are given back the last one first, and not as they were made.
    is_reversed: bool,
    /// Whether each job, and the clock beside, waits until a handle has won a cancel, so that some handle wins.
    waits: bool,
}

/// A race in one of its rounds, and what it came to.
#[derive(Drop)]
pub struct Raced<'a> {
    race: &'a Race<'a>,
    round: Round,
    ran: Result<(), PoolError>,
    /// What a later run was answered.
    again: Result<(), PoolError>,
    /// Which of the tasks each handle won, in the order in which the handles are given back.
    won: Vec<bool>,
    /// Whether each task that a handle won was cancelled each time that it looked.
    keeps: bool,
    /// Whether somebody waited in vain.
    gave_up: bool,
}

impl<'a> Raced<'a> {
    /// Notes what handles won, and gives the handles.
    fn note<'s, N: Named, A: HeapAllocator>(
        &mut self,
        alloc: Global,
        cancellers: Vec<Canceller<'s, N, A>>,
    ) -> Result<Vec<Handle<'s, N, A>>, Fail> {
        let mut handles = Vec::new(alloc);
        for canceller in cancellers {
            self.keeps = self.keeps && canceller.keeps;
            self.won.extend_from_slice(&canceller.won)?;
            handles.push(canceller.handle)?;
        }
        Ok(handles)
    }
}

/// Runs a pool with handles beside it, and once more when all is done.
/// Does it with a pool.
pub fn play_in<
    's,
    N: Named + Send + Sync,
    A: HeapAllocator + Send + Sync,
    R: Threads + Wait + Sync,
>(
    rt: &R,
    alloc: Global,
    pool: &Pool<'s, N, A>,
    raced: &mut Raced<'_>,
) -> Result<Vec<Handle<'s, N, A>>, Fail> {
    // So that the handles meet tasks that are submitted.
    pool.advance(rt, 0)?;
    let mut cancellers = cancellers_of(rt, alloc, pool, raced.race.handles)?;
    let job = Turns::new(raced.race.turns, raced.round.waits);
    raced.ran = run_beside(rt, pool, raced.race, &job, &mut cancellers);
    raced.gave_up = job.gave_up.load(Ordering::SeqCst) > 0;
    raced.again = pool.run(rt, &RunNumber, raced.race.moments);
    if raced.round.is_reversed {
        cancellers.reverse();
    }
    raced.note(alloc, cancellers)
}

/// How often each of the tasks was done, and how often it was cancelled from outside.
#[derive(Clone, Copy)]
struct Ends {
    done: [u32; TASKS],
    cancelled: [u32; TASKS],
    /// Whether a run ended well: its task is done, or waits for the next one.
    any_well: bool,
}

/// Counts an end of a task.
fn count_end(counts: &mut [u32; TASKS], task: u32) {
    if let Some(count) = counts.get_mut(task as usize) {
        *count = count.saturating_add(1);
    }
}

/// Counts how tasks end in some lines.
fn ends_in(lines: &[Line]) -> Ends {
    let mut ends = Ends {
        done: [0; TASKS],
        cancelled: [0; TASKS],
        any_well: false,
    };
    for line in lines {
        let Message::Answer(answer) = line.message() else {
            continue;
        };
        match answer {
            Answer::Outside {
                task,
                effect: CancelEffect::Yes,
            } => count_end(&mut ends.cancelled, task),
            Answer::Finish {
                task,
                outcome: Outcome::Done(_),
                ..
            } => {
                count_end(&mut ends.done, task);
                ends.any_well = true;
            }
            Answer::Finish {
                outcome: Outcome::Again(_),
                ..
            } => ends.any_well = true,
            _ => {}
        }
    }
    ends
}

/// How many tasks the handles won, and whether each of them is cancelled once the pool has ended.
fn count_won(won: &[bool], known: &[Known]) -> (u64, bool) {
    let mut count = 0u64;
    let mut keeps = won.len() == known.len();
    for (won, known) in won.iter().zip(known) {
        keeps = keeps && (!*won || known.state == TaskState::Cancelled);
        count = count.saturating_add(u64::from(*won));
    }
    (count, keeps)
}

/// Checks how the tasks end in the lines of a race in which the handles won so many. Whether a run ended well in it.
fn check_ends(rt: &impl Abort, race: &Race<'_>, won: u64, lines: &[Line]) -> bool {
    let ends = ends_in(lines);
    let mut cancelled = 0u64;
    for (done, outside) in ends.done.iter().zip(&ends.cancelled) {
        let both = done.saturating_add(*outside);
        assert!(rt;
            both <= 1 && (both == 1 || !race.all_end),
            "{done} {outside}"
        );
        cancelled = cancelled.saturating_add(*outside as u64);
    }
    assert!(rt; won == cancelled);
    ends.any_well
}

/// Checks what a race came to, and its lines by the plan alone. Whether a run ended well in it, and whether a cancel won.
fn check_raced(
    rt: &(impl Abort + AllocGlobal),
    plan: &Plan<Global>,
    raced: &Raced<'_>,
    came: &Came,
) -> Result<(bool, bool), Fail> {
    let race = raced.race;
    assert!(rt; raced.ran == race.ran);
    assert!(rt; raced.again == race.ran);
    let (won, keeps) = count_won(&raced.won, &came.known);
    assert!(rt;
        keeps && raced.keeps,
        "a task that was won is not cancelled"
    );
    assert!(rt;
        !raced.gave_up,
        "no job began, or no handle cancelled, in all the time"
    );
    let any_well = check_ends(rt, race, won, &came.lines);
    conforms(rt, plan, race.workers, &came.lines)?;
    Ok((any_well, won > 0))
}

/// Runs a race once. Whether a run ended well in it, and whether a cancel won.
fn run_round<R: Threads + Wait + Sync + Abort + AllocGlobal>(
    rt: &R,
    plan: &Plan<Global>,
    race: &Race<'_>,
    round: Round,
) -> Result<(bool, bool), Fail> {
    let alloc = rt.alloc();
    let mut raced = Raced {
        race,
        round,
        ran: Ok(()),
        again: Ok(()),
        won: Vec::new(alloc),
        keeps: true,
        gave_up: false,
    };
    let code = compile(alloc, plan)?;
    let (workers, limit) = (race.workers, race.limit);
    let came = play_once(
        rt,
        alloc,
        alloc,
        code,
        workers,
        limit,
        Play::Race::<RunNumber>(&mut raced),
    )?;
    check_raced(rt, plan, &raced, &came)
}

/// Runs a race again and again: in some rounds runs end well, and in some cancels win.
fn rounds<R: Threads + Wait + Sync + Abort + AllocGlobal>(
    rt: &R,
    race: &Race<'_>,
) -> Result<(), Fail> {
    let plan = read_plan(rt.alloc(), race.plan.as_bytes())?;
    let mut any_well = false;
    let mut any_won = false;
    for number in 0..ROUNDS {
        let how = Round {
            is_reversed: number % 2 == 1,
            waits: number % 4 >= 2,
        };
        let (well, won) = run_round(rt, &plan, race, how)?;
        any_well |= well;
        any_won |= won;
    }
    assert!(rt; any_well, "no run ended well in any round");
    assert!(rt; any_won, "no cancel won in any round");
    Ok(())
}

/// Runs a race again and again, and fails where that takes too long.
pub fn run_races<R: Threads + Wait + Sync + Abort + AllocGlobal + Clock>(
    rt: &R,
    race: &Race<'_>,
) -> Result<(), Fail> {
    in_time(rt, || rounds(rt, race))
}
