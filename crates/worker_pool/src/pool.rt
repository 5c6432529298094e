//! A pool: a book under one lock, workers that run the jobs of its tasks, and one who leads them through the moments of a run.
//!
//! # The protocol
//!
//! One lock is round the book, and with it round how far a run is. A run is *closed* before it begins and when it has ended;
//! *opening* while its workers are made; *open* from its first clock on; *leaving* once its workers are to stop. There is
//! *work* while the run is open and a task is ripe: then a start may be taken. All is *quiet* while nothing is ripe and no
//! worker is in a job, and also while no run is open. Both are computed from what is under the lock.
//!
//! What a thread does in one hold of the lock is a function over what lies there: `Shift::hold` for a worker, `Shift::lead` for
//! who leads, and `Shift::advance`. Its clauses say what it leaves there, and its answer says what the thread does once it lets
//! go, or sleeps: the job that it does, whether it leaves, and whom it wakes. The functions of this page only call these, and do
//! what they answer. Whom to wake can't be forgotten: it is a value that can be neither copied nor let go, and a call of `Hall`
//! alone takes it. That this call wakes is seen in its body, and no contract says so. By `Shift::lead` a moment is shown, and by
//! `Shift::leave` all are let go, only where it is proved that all is quiet.
//!
//! | Who | Waits for | Where | Is woken by |
//! |---|---|---|---|
//! | a worker | work, or that all leave | `work` | who makes or leaves work: one, where one is wanted; who makes all leave: all |
//! | who leads | quiet | `quiet` | who makes all quiet |
//!
//! Who waits looks under the lock, and goes to sleep and lets go of the lock in one step; it looks again when it is woken.
//! Who makes true what another waits for does so under the lock, and wakes it afterwards. So a waiter either sees the change or
//! is asleep when it is woken: no wake-up is lost. It is left to see that each such change wakes somebody, or that somebody comes
//! anyhow. Whom a hold wakes is in its answer, and clauses say when: a worker exactly where there is work, some worker is asleep
//! and none is coming; who leads exactly where all is quiet.
//!
//! **Who is asleep, and who is coming**, is counted under the lock. A worker is *asleep* from the hold that finds no work for it
//! until it is back at the lock. One of those that are asleep is *coming* from the hold that tells to wake it. A worker that is
//! back from its sleep, woken or not, takes one from each count, and leaves a 0 as it is.
//!
//! **Work** comes into being in three ways.
//! - A clock makes a task ripe, that of who leads or that of [`Pool::advance`]: each wakes a worker where one is wanted.
//! - A finish arms its task again, and the next due moment is reached: the worker that finished is awake, and takes a start in
//!   the same hold of the lock.
//! - The first clock of a run opens it: it is one of the clocks above.
//!
//! A worker that takes a start and leaves work behind wakes one more where one is wanted. So while there is work and the lock is
//! free, some worker is awake and will look, or one is coming, or none is asleep: all are in jobs, and each looks for work when
//! its job is done. For a hold that leaves work wakes a worker unless one is coming or none is asleep, and no worker goes to
//! sleep beside work.
//!
//! What is counted as coming does come. One is woken only where none is coming, so the count is 0 or 1, and it is 0 again as soon
//! as any worker is back from its sleep. While it is 1, none came back since it was counted, so one at least is asleep; and who
//! counted it has woken one, or is about to. If somebody waits by then, that one comes; if nobody does, each that is asleep has
//! stopped waiting already, and comes. Whichever is back first looks under the lock, takes a start where there is work, and wakes
//! the next where it leaves some behind. One that woke by itself may be back before the one that was woken, and takes its count:
//! then one more may be woken than is wanted, and never one too few.
//!
//! All that are asleep are woken where all leave, whoever is coming. Each is back at the lock once more before it leaves, and is
//! joined before the run ends: so both counts are 0 then, and the next run begins with them. A clock of [`Pool::advance`] may
//! wake a worker so late that the run has ended: nobody waits then, or one of the next run looks once for nothing.
//!
//! **Quiet** comes into being in four ways.
//! - The last job is done, or a start finds only tasks that are cancelled: that worker looks for more in the same hold, and
//!   before it sleeps wakes who leads.
//! - A clock of [`Pool::advance`] takes away what was ripe, as a sweep does: it wakes who leads.
//! - A call of the run is refused, and the run is leaving: who sees that leaves, and wakes all others and who leads.
//! - A clock of who leads, which looks itself.
//!
//! A handle's cancel changes nothing under the lock. Its task stays ripe until a start has noted the cancel.
//!
//! **The end of a run.** Who leads goes to the next moment when all is quiet. After the last one the run is leaving and all
//! workers are woken; each is joined before [`Pool::run`] returns. The first call of the run that is refused, a clock, a start
//! or a finish, or a thread that can't be made, makes the run leave too, and is kept: nothing takes it back, and each later run
//! is answered by it. A worker in its job then gives its finish to the book all the same, and leaves.
//!
//! No lock is held while a job runs. So a job may call the pool: [`Pool::advance`], [`Pool::handle`]; and [`Pool::run`], which
//! answers that a run is under way.
ghost use Rattle.std.specs.Prelude.{◌≡◌, ◌⊎◌, ◌↔◌, ◌≤◌, ℕ, None, IsErrOf, IfErr, IfOk, length};
ghost use Rattle.queue_code.specs.Calls.{task_count};
ghost use Rattle.queue_code.specs.Codes.{calls_of};
ghost use Rattle.task_word.specs.Views.{new_core, new_handle};
ghost use Rattle.result_cell.specs.Cells.{AreNotesOf};
ghost use Rattle.executor_model.specs.Counts.{IsWorkerCount};
ghost use Rattle.executor_core.specs.CoreView.{workers_of};
ghost use Rattle.worker_pool.specs.Books.{IsBook};
ghost use Rattle.worker_pool.specs.Shares.{known_to};

mod hall;
mod shift;
mod sleepers;
mod stage;

use crate::applied::{Applied, Work};
use crate::book::Book;
use crate::error::PoolError;
use crate::handle::Handle;
use crate::named::Named;
use crate::shared::Shared;
use hall::Hall;
use heap_allocator::HeapAllocator;
use queue_code::Code;
use sched_time::Ending;
use shift::Shift;
use stage::{Advanced, Came, Lead, Next};
use std::alloc::Allocator;
use std::marker::Model;
use std::sync::{MutexGuard, Wait};
use std::thread;
use std::thread::Threads;
use task_word::CoreSeat;

/// What is done in a run of a task.
pub trait Job {
    /// Does it, and says how it ended.
    fn run(&self, task: u32, run: u64) -> Ending;
}

/// A book that threads share, and workers for the time of a run.
#[derive(Drop)]
pub struct Pool<'s, N: Named, A: Allocator> {
    shared: &'s Shared<A>,
    workers: u8,
    hall: Hall<N, A>,
}

impl<'s, N: Named, A: Allocator> Model for Pool<'s, N, A> {
    ghost use Rattle.std.specs.Prelude.{◌≡◌};
    ghost use Rattle.worker_pool.specs.Pools.{PoolView};

    ghost Value = { PoolView };

    ghost view = { λ p. record { shared = p.shared.now; limit = p.hall.events } };

    ghost invariant = { λ p. (p.shared.now.table ≡ N.table) × (p.shared.now.cells ≡ N.cells) × (p.workers ≡ N.workers) };
}

impl<'s, N: Named, A: HeapAllocator> Pool<'s, N, A> {
    /// A pool with a new book: what is asked for and answered is as for [`Book::new`].
    ///
    /// # Errors
    ///
    /// [`PoolError::Workers`] and then [`PoolError::Limit`], exactly where that number is out of range; then
    /// [`PoolError::Memory`]. The seat and the code are dropped, so a new `Shared` has to be made.
    pub fn new(
        alloc: A,
        shared: &'s Shared<A>,
        seat: CoreSeat<A>,
        code: Code<A>,
        workers: u8,
        limit: u32,
    ) -> Result<Pool<'s, N, A>, PoolError>
        requires shared { (shared.now.table ≡ N.table) × (shared.now.cells ≡ N.cells) }
        requires seat { (seat.table ≡ shared.now.table) × (seat.view ≡ new_core shared.now.tasks) }
        requires tasks { shared.now.tasks ≡ task_count (calls_of code) }
        requires named { (calls_of code ≡ N.calls) × (workers ≡ N.workers) }
        ensures made { IfOk result (λ p. p ≡ record { shared = shared.now; limit = limit }) }
        ensures workers { IsErrOf result PoolError.Workers ↔ ¬ IsWorkerCount workers }
        ensures limit { IsErrOf result PoolError.Limit ↔ (IsWorkerCount workers × (limit ≡ 0)) }
        ensures others { (IsErrOf result PoolError.Full → ⊥) × (IsErrOf result PoolError.Seats → ⊥)
            × (IsErrOf result PoolError.Running → ⊥) }
    {
        let book = Book::new(alloc, shared, seat, code, workers, limit)?;
        let hall = Hall::new(book, limit);
        Ok(Pool {
            shared,
            workers,
            hall,
        })
    }

    /// Runs the tasks that are due while the clock shows these moments, one after the other: at each moment until nothing is
    /// due and nothing runs. With no moments nothing runs. When it answers, none of its threads is left.
    ///
    /// # Errors
    ///
    /// [`PoolError::Running`] where a run is under way. [`PoolError::Full`] and [`PoolError::Memory`], the first that a clock,
    /// a start or a finish of this run was refused with; a thread that can't be made counts as `Memory`. Then no further task
    /// is started, and each later run of this pool is answered the same, and does nothing.
    ///
    /// ```rust
    /// let pool = Pool::<N, Global>::new(alloc, shared, seat, code, 2, 100)?; // two workers
    /// let mut handle = pool.handle(rt)?; // for another thread
    /// // `Double` is a `Job`: it answers twice the number of its task.
    /// pool.run(rt, &Double, &[0, 5])?; // what is due at moment 0, and then what is at 5
    /// ```
    pub fn run<R: Threads + Wait + Sync, J: Job + Sync>(
        &self,
        rt: &R,
        job: &J,
        moments: &[u64],
    ) -> Result<(), PoolError>
    where
        N: Send + Sync,
        A: Send + Sync,
        ensures others { IfErr result
            (λ e. (e ≡ PoolError.Running) ⊎ ((e ≡ PoolError.Full) ⊎ (e ≡ PoolError.Memory))) }
    {
        self.hall.enter(rt).open()?;
        let workers = self.workers;
        thread::scope(thread::scope_env(), rt, |scope| {
            let mut made = true;
            for worker in 0..workers {
                if scope.spawn(move || self.work(rt, job, worker)).is_err() {
                    made = false;
                    break;
                }
            }
            self.lead(rt, moments, made);
        });
        self.hall.enter(rt).close()
    }

    /// Moves the clock through the moments, and waits at each until all is quiet. Then all workers leave.
    fn lead<R: Wait>(&self, rt: &R, moments: &[u64], made: bool) {
        let mut shift = self.hall.enter(rt);
        if let Some(call) = shift.begin(made) {
            return self.hall.leave(shift, call);
        }
        for &moment in moments {
            shift = self.hall.until_quiet(rt, shift);
            match shift.lead(self.shared, moment) {
                Lead::Moves(call) => shift = self.hall.pass(rt, shift, call),
                Lead::Ends(call) => return self.hall.leave(shift, call),
            }
        }
        shift = self.hall.until_quiet(rt, shift);
        let call = shift.leave();
        self.hall.leave(shift, call);
    }

    /// What a worker does: the jobs that it is given, until it is to leave.
    fn work<R: Wait, J: Job>(&self, rt: &R, job: &J, worker: u8) {
        let mut came = Came::Made;
        for _ in rt.forever() {
            let Some(work) = self.next(rt, worker, came) else {
                return;
            };
            came = Came::Done(job.run(work.task, work.run));
        }
    }

    /// Gives the finish of the job that a worker has done to the book, and the worker its next one. `None`: it is to leave.
    fn next<R: Wait>(&self, rt: &R, worker: u8, came: Came) -> Option<Work> {
        let mut shift = self.hall.enter(rt);
        match shift.hold(self.shared, worker, came) {
            Next::Job { work, call } => {
                drop(shift);
                self.hall.wake_worker(call);
                Some(work)
            }
            Next::Leave(call) => {
                self.hall.leave(shift, call);
                None
            }
            Next::Sleep(rest) => {
                shift = self.hall.sleep(rt, shift, rest);
                self.rest(rt, worker, shift)
            }
        }
    }

    /// A worker that is back from its sleep and holds the lock looks, and sleeps again, until there is a job for it. `None`: it is
    /// to leave.
    #[inline(never)]
    fn rest<R: Wait>(&self, rt: &R, worker: u8, held: MutexGuard<'_, Shift<N, A>>) -> Option<Work> {
        let mut shift = held;
        for _ in rt.forever() {
            match shift.hold(self.shared, worker, Came::Woken) {
                Next::Job { work, call } => {
                    drop(shift);
                    self.hall.wake_worker(call);
                    return Some(work);
                }
                Next::Leave(call) => {
                    self.hall.leave(shift, call);
                    return None;
                }
                Next::Sleep(rest) => shift = self.hall.sleep(rt, shift, rest),
            }
        }
        unreachable!()
    }

    /// Cuts off a handle, as [`Book::admit`] does.
    ///
    /// # Errors
    ///
    /// [`PoolError::Seats`], where 63 are out; then [`PoolError::Memory`].
    pub fn handle<R: Wait>(&self, rt: &R) -> Result<Handle<'s, N, A>, PoolError>
        ensures others { IfErr result (λ e. (e ≡ PoolError.Seats) ⊎ (e ≡ PoolError.Memory)) }
        ensures handle { IfOk result (λ h. h.seat ≡ new_handle (length N.cells)) }
        ensures notes { IfOk result
            (λ h. AreNotesOf h.notes N.cells × ((k : ℕ) → known_to h k ≡ None)) }
    {
        self.hall.enter(rt).admit(self.shared)
    }

    /// Lets the clock show a moment, whether a run is under way or not. A run that is under way goes on with what is due then.
    /// A line at least is added, and no work is started.
    ///
    /// # Errors
    ///
    /// Those of [`Book::apply`], [`PoolError::Full`] and then [`PoolError::Memory`]. They end no run.
    pub fn advance<R: Wait>(&self, rt: &R, moment: u64) -> Result<Applied, PoolError>
        ensures told { IfOk result (λ told. (1 ≤ told.count) × (told.work ≡ None)) }
        ensures others { IfErr result (λ e. (e ≡ PoolError.Full) ⊎ (e ≡ PoolError.Memory)) }
    {
        let Advanced {
            applied,
            worker,
            leader,
        } = self.hall.enter(rt).advance(self.shared, moment);
        self.hall.wake_worker(worker);
        self.hall.wake_leader(leader);
        applied
    }
}

impl<'s, N: Named, A: Allocator> Pool<'s, N, A> {
    /// The book, which takes back the handles that are out. It took no more events than its limit.
    pub fn end(self) -> Book<N, A>
        ensures book { IsBook N.cells result }
        ensures named { (result.core.calls ≡ N.calls) × (workers_of result.core ≡ N.workers) }
        ensures within { result.core.taken ≤ result.core.limit }
    {
        let Pool {
            shared: _,
            workers: _,
            hall,
        } = self;
        hall.into_book()
    }
}
