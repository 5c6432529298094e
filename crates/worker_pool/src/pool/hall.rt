//! Where the threads of a pool meet: what lies under its lock, and where they wait. And whom a thread that held the lock is to
//! wake: such an answer can be neither copied nor let go, and a call of the [`Hall`] that does what it says alone takes it.
ghost use Rattle.std.specs.Prelude.{◌≡◌, ◌≤◌, [], length};
ghost use Rattle.std.specs.Sync.Mutex.{mutex_guard_value};
ghost use Rattle.task_word.specs.Views.{new_core};
ghost use Rattle.executor_core.specs.CoreView.{IsOpening, workers_of};
ghost use Rattle.worker_pool.specs.Books.{IsBook};
ghost use Rattle.worker_pool.specs.own.Shifts.{IsQuiet};

use crate::book::Book;
use crate::named::Named;
use crate::pool::shift::Shift;
use std::alloc::Allocator;
use std::sync::{Condvar, Mutex, MutexGuard, Wait};

/// Whether a worker that sleeps is to be woken.
pub struct WakeWorker {
    wanted: bool,
}

impl WakeWorker {
    /// It is, where it is wanted.
    pub fn new(wanted: bool) -> WakeWorker
        ensures { result.wanted ≡ wanted }
    {
        WakeWorker { wanted }
    }
}

/// Whether who leads is to be woken.
pub struct WakeLeader {
    wanted: bool,
}

impl WakeLeader {
    /// It is, where it is wanted.
    pub fn new(wanted: bool) -> WakeLeader
        ensures { result.wanted ≡ wanted }
    {
        WakeLeader { wanted }
    }
}

/// A worker is to sleep, and first to wake who leads, where that is wanted.
pub struct Rest {
    wakes_leader: bool,
}

impl Rest {
    /// It is to sleep.
    pub fn new(wakes_leader: bool) -> Rest
        ensures { result.wakes_leader ≡ wakes_leader }
    {
        Rest { wakes_leader }
    }
}

/// All workers that sleep are to be woken, and who leads.
pub struct WakeAll(());

impl WakeAll {
    /// They are.
    pub fn new() -> WakeAll {
        WakeAll(())
    }
}

/// What lies under the lock of a pool, and where threads wait for a change of it. None is made but round a new book.
#[derive(Drop)]
pub struct Hall<N: Named, A: Allocator> {
    /// How many events the book takes.
    events: u32,
    shift: Mutex<Shift<N, A>>,
    /// Workers wait here for work.
    work: Condvar,
    /// Who leads a run waits here until all is quiet.
    quiet: Condvar,
}

impl<N: Named, A: Allocator> Hall<N, A> {
    ghost use Rattle.worker_pool.specs.own.Seen.{seen};

    /// A hall round a new book, over which no run is under way.
    pub fn new(book: Book<N, A>, limit: u32) -> Hall<N, A>
        requires opening { IsOpening book.core N.calls N.workers limit }
        requires new { (book.happened ≡ []) × (book.lines ≡ [])
            × (book.seat ≡ new_core (length N.cells)) }
        ensures limit { result.events ≡ limit }
    {
        Hall {
            events: limit,
            shift: Mutex::new(Shift::new(book)),
            work: Condvar::new(),
            quiet: Condvar::new(),
        }
    }

    /// Takes the lock.
    pub fn enter<R: Wait>(&self, rt: &R) -> MutexGuard<'_, Shift<N, A>> {
        self.shift.lock(rt)
    }

    /// Waits until all is quiet.
    pub fn until_quiet<'h, R: Wait>(
        &self,
        rt: &R,
        held: MutexGuard<'h, Shift<N, A>>,
    ) -> MutexGuard<'h, Shift<N, A>>
        ensures quiet { IsQuiet (seen (mutex_guard_value result)) }
    {
        self.quiet.wait_while(rt, held, |shift| !shift.is_quiet())
    }

    /// Wakes a worker, where that is wanted.
    pub fn wake_worker(&self, call: WakeWorker) {
        let WakeWorker { wanted } = call;
        if wanted {
            self.work.notify_one();
        }
    }

    /// Wakes who leads, where that is wanted.
    pub fn wake_leader(&self, call: WakeLeader) {
        let WakeLeader { wanted } = call;
        if wanted {
            self.quiet.notify_one();
        }
    }

    /// Who leads lets go of the lock to wake a worker, where that is wanted, and takes it again.
    pub fn pass<'h, R: Wait>(
        &'h self,
        rt: &R,
        held: MutexGuard<'h, Shift<N, A>>,
        call: WakeWorker,
    ) -> MutexGuard<'h, Shift<N, A>> {
        let WakeWorker { wanted } = call;
        if !wanted {
            return held;
        }
        drop(held);
        self.work.notify_one();
        self.enter(rt)
    }

    /// A worker sleeps until it is woken, or wakes by itself. It wakes who leads first, where that is wanted.
    pub fn sleep<'h, R: Wait>(
        &self,
        rt: &R,
        held: MutexGuard<'h, Shift<N, A>>,
        rest: Rest,
    ) -> MutexGuard<'h, Shift<N, A>> {
        let Rest { wakes_leader } = rest;
        if wakes_leader {
            self.quiet.notify_one();
        }
        self.work.wait(rt, held)
    }

    /// Who leaves lets go of the lock, and wakes all who wait.
    #[inline(never)]
    pub fn leave(&self, held: MutexGuard<'_, Shift<N, A>>, call: WakeAll) {
        let WakeAll(()) = call;
        drop(held);
        self.work.notify_all();
        self.quiet.notify_one();
    }

    /// The book alone.
    pub fn into_book(self) -> Book<N, A>
        ensures book { IsBook N.cells result }
        ensures named { (result.core.calls ≡ N.calls) × (workers_of result.core ≡ N.workers) }
        ensures within { result.core.taken ≤ result.core.limit }
    {
        let Hall {
            events: _,
            shift,
            work: _,
            quiet: _,
        } = self;
        shift.into_inner().into_book()
    }
}
