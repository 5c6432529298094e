//! What lies under the lock of a pool: a book, how far the run over it is, and who sleeps. Its functions are what a thread does
//! there in one hold of the lock, and say what it does next.
ghost use Rattle.std.specs.Prelude.{◌≡◌, ◌⊎◌, ◌+◌, ◌≤◌, ◌↔◌, ℕ, not, true, false, Some, None, Err, IsTrue, IsOk, IsSome, IsErrOf, IfErr, IfOk, OnOk, OnErr, MatchOption, is_some, unwrap_or, length};
ghost use Rattle.std.specs.Option.{ForSome};
ghost use Rattle.task_word.specs.Views.{most_handles, new_handle, one_out};
ghost use Rattle.result_cell.specs.Cells.{AreNotesOf};
ghost use Rattle.executor_core.specs.CoreView.{workers_of};
ghost use Rattle.executor_model.specs.declared.types.Event.TheVariants as v;
ghost use Rattle.worker_pool.specs.Books.{IsBook};
ghost use Rattle.worker_pool.specs.Shares.{known_to};
ghost use Rattle.worker_pool.specs.Applies.{Applies, Tells};
ghost use Rattle.worker_pool.specs.own.Shifts.{is_leave, is_stopped, ends_run, ends_runs, Under, HasWork, IsQuiet, KeepsLimit, KeepsFault, Refuses, no_sleepers, Wakes, Starts, GetNothing, Decides, Finishes, Brings, Holds, Leads};

use crate::applied::Work;
use crate::book::Book;
use crate::error::PoolError;
use crate::handle::Handle;
use crate::named::Named;
use crate::pool::hall::{Rest, WakeAll, WakeLeader, WakeWorker};
use crate::pool::sleepers::Sleepers;
use crate::pool::stage::{Advanced, Came, Lead, Next, Stage};
use crate::shared::Shared;
use executor_model::Event;
use heap_allocator::HeapAllocator;
use sched_time::Ending;
use std::alloc::Allocator;

/// A book, how far the run over it is, and who sleeps.
#[derive(Drop)]
pub struct Shift<N: Named, A: Allocator> {
    book: Book<N, A>,
    stage: Stage,
    /// How many workers are in a job.
    running: u64,
    /// What a call of a run was refused with first. It ends that run and each later one.
    fault: Option<PoolError>,
    sleepers: Sleepers,
    ghost kept: { ForSome fault (λ e. (ends_runs e ≡ true) × (is_stopped stage ≡ true)) },
    ghost within: { book.core.taken ≤ book.core.limit },
}

impl<N: Named, A: Allocator> Shift<N, A> {
    ghost use Rattle.worker_pool.specs.own.Seen.{seen};

    /// A book over which no run is under way.
    pub fn new(book: Book<N, A>) -> Shift<N, A>
        requires within { book.core.taken ≤ book.core.limit }
        ensures new { seen result
            ≡ record {
              book = book;
              stage = Stage.Closed;
              running = 0;
              fault = None;
              sleepers = no_sleepers;
            } }
    {
        Shift {
            book,
            stage: Stage::Closed,
            running: 0,
            fault: None,
            sleepers: Sleepers::new(),
        }
    }

    /// Begins a run.
    pub fn open(&mut self) -> Result<(), PoolError>
        ensures running { IsErrOf result PoolError.Running ↔ ¬ (self.old.stage ≡ Stage.Closed) }
        ensures fault { self.old.stage ≡ Stage.Closed
            → ForSome self.old.fault (λ e. result ≡ Err e) }
        ensures others { IfErr result (λ e. (e ≡ PoolError.Running) ⊎ (self.old.fault ≡ Some e)) }
        ensures kinds { IfErr result
            (λ e. (e ≡ PoolError.Running) ⊎ ((e ≡ PoolError.Full) ⊎ (e ≡ PoolError.Memory))) }
        ensures opened { OnOk result ((self.new.stage ≡ Stage.Opening) × (self.old.fault ≡ None)) }
        ensures refused { OnErr result (self.new.stage ≡ self.old.stage) }
        ensures same { (self.new.book ≡ self.old.book) × (self.new.running ≡ self.old.running)
            × (self.new.fault ≡ self.old.fault) × (self.new.sleepers ≡ self.old.sleepers) }
    {
        if self.stage != Stage::Closed {
            return Err(PoolError::Running);
        }
        if let Some(fault) = self.fault {
            return Err(fault);
        }
        self.stage = Stage::Opening;
        Ok(())
    }

    /// Ends a run whose workers are gone, and answers what it was refused with, if anything.
    pub fn close(&mut self) -> Result<(), PoolError>
        ensures answer { MatchOption self.old.fault (IsOk result) (λ e. result ≡ Err e) }
        ensures kinds { IfErr result (λ e. (e ≡ PoolError.Full) ⊎ (e ≡ PoolError.Memory)) }
        ensures closed { self.new.stage ≡ Stage.Closed }
        ensures same { (self.new.book ≡ self.old.book) × (self.new.running ≡ self.old.running)
            × (self.new.fault ≡ self.old.fault) × (self.new.sleepers ≡ self.old.sleepers) }
    {
        self.stage = Stage::Closed;
        match self.fault {
            Some(fault) => Err(fault),
            None => Ok(()),
        }
    }

    /// Who leads begins. Where some worker could not be made the run is refused for want of memory, shows no moment, and the workers
    /// that were made are to be woken.
    pub fn begin(&mut self, made: bool) -> Option<WakeAll>
        ensures ends { is_some result ≡ not made }
        ensures made { IsTrue made → seen self.new ≡ seen self.old }
        ensures unmade { made ≡ false
            → (self.new.stage ≡ Stage.Leaving)
            × (self.new.fault ≡ Some (unwrap_or self.old.fault PoolError.Memory)) }
        ensures same { (self.new.book ≡ self.old.book) × (self.new.running ≡ self.old.running)
            × (self.new.sleepers ≡ self.old.sleepers) }
    {
        if made {
            return None;
        }
        self.fail(PoolError::Memory);
        Some(WakeAll::new())
    }

    /// Lets the workers of a run leave, once all is quiet.
    pub fn leave(&mut self) -> WakeAll
        requires quiet { IsQuiet (seen self.old) }
        ensures leaving { self.new.stage ≡ Stage.Leaving }
        ensures same { (self.new.book ≡ self.old.book) × (self.new.running ≡ self.old.running)
            × (self.new.fault ≡ self.old.fault) × (self.new.sleepers ≡ self.old.sleepers) }
    {
        self.stage = Stage::Leaving;
        WakeAll::new()
    }

    /// A call of the run was refused: the first such is kept, and the workers leave.
    fn fail(&mut self, fault: PoolError)
        requires { ends_runs fault ≡ true }
        ensures first { self.new.fault ≡ Some (unwrap_or self.old.fault fault) }
        ensures leaving { self.new.stage ≡ Stage.Leaving }
        ensures same { (self.new.book ≡ self.old.book) × (self.new.running ≡ self.old.running)
            × (self.new.sleepers ≡ self.old.sleepers) }
    {
        self.stage = Stage::Leaving;
        if self.fault.is_none() {
            self.fault = Some(fault);
        }
    }

    /// Whether a worker may take a start: the run is open, and some task is ripe.
    fn has_work(&self) -> bool
        ensures { IsTrue result ↔ HasWork (seen self.now) }
    {
        self.stage == Stage::Open && self.book.ripe()
    }

    /// Whether who leads has nothing to wait for: nothing is ripe and no job is run, or the run is not open.
    pub fn is_quiet(&self) -> bool
        ensures { IsTrue result ↔ IsQuiet (seen self.now) }
    {
        if self.stage != Stage::Open {
            return true;
        }
        if self.running > 0 {
            return false;
        }
        !self.book.ripe()
    }

    /// Whether a worker is to be woken, which is counted as coming from then on: there is work, some sleep, and none is
    /// counted as coming.
    fn wake(&mut self) -> bool
        ensures wakes { Wakes result (seen self.old) (seen self.new) }
    {
        if !self.sleepers.is_callable() {
            return false;
        }
        if !self.has_work() {
            return false;
        }
        self.sleepers.call();
        true
    }

    /// The book alone.
    pub fn into_book(self) -> Book<N, A>
        ensures same { result ≡ self.book }
        ensures book { IsBook N.cells result }
        ensures named { (result.core.calls ≡ N.calls) × (workers_of result.core ≡ N.workers) }
        ensures within { result.core.taken ≤ result.core.limit }
    {
        let Shift {
            book,
            stage: _,
            running: _,
            fault: _,
            sleepers: _,
        } = self;
        let _happenings = book.happenings();
        book
    }
}

impl<N: Named, A: HeapAllocator> Shift<N, A> {
    ghost use Rattle.worker_pool.specs.own.Seen.{seen};

    /// What a worker does while it holds the lock: it gives the finish of its job to the book, if it comes from one, whether the
    /// run goes on or not; is counted as back, if it slept; and takes a start as long as there is work. What it does next is
    /// the answer.
    ///
    /// A start may find only tasks that are cancelled: then the worker looks again. A refused finish or start makes the run
    /// leave.
    pub fn hold(&mut self, shared: &Shared<A>, worker: u8, came: Came) -> Next
        requires shared { (shared.now.table ≡ N.table) × (shared.now.cells ≡ N.cells) }
        ensures holds { Holds worker came result (seen self.old) (seen self.new) }
        ensures leaves { IsTrue (is_leave result) ↔ (self.new.stage ≡ Stage.Leaving) }
        ensures limit { KeepsLimit (seen self.old) (seen self.new) }
        ensures fault { KeepsFault (seen self.old) (seen self.new) }
    {
        self.bring(shared, worker, came);
        self.next(shared, worker)
    }

    /// Takes what a worker brings to the lock.
    fn bring(&mut self, shared: &Shared<A>, worker: u8, came: Came)
        requires shared { (shared.now.table ≡ N.table) × (shared.now.cells ≡ N.cells) }
        ensures brings { Brings worker came (seen self.old) (seen self.new) }
        ensures limit { KeepsLimit (seen self.old) (seen self.new) }
        ensures fault { KeepsFault (seen self.old) (seen self.new) }
    {
        match came {
            Came::Made => {}
            Came::Done(ending) => self.finish(shared, worker, ending),
            Came::Woken => self.sleepers.rise(),
        }
    }

    /// Takes starts until one gets work, or there is no more of it.
    fn next(&mut self, shared: &Shared<A>, worker: u8) -> Next
        requires shared { (shared.now.table ≡ N.table) × (shared.now.cells ≡ N.cells) }
        ensures decides { (count : ℕ) × (last : Under)
            × GetNothing worker count (seen self.old) last
            × Decides worker result last (seen self.new) }
        ensures leaves { IsTrue (is_leave result) ↔ (self.new.stage ≡ Stage.Leaving) }
        ensures limit { KeepsLimit (seen self.old) (seen self.new) }
        ensures fault { KeepsFault (seen self.old) (seen self.new) }
    {
        while self.has_work() {
            match self.start(shared, worker) {
                Ok(Some(work)) => {
                    let call = WakeWorker::new(self.wake());
                    return Next::Job { work, call };
                }
                // What was ripe is cancelled.
                Ok(None) => {}
                Err(_) => return Next::Leave(WakeAll::new()),
            }
        }
        if self.stage == Stage::Leaving {
            return Next::Leave(WakeAll::new());
        }
        let rest = Rest::new(self.is_quiet());
        self.sleepers.rest();
        Next::Sleep(rest)
    }

    /// A worker takes a start, and is in a job where it gets work. Where the start is refused, the run is to end.
    fn start(&mut self, shared: &Shared<A>, worker: u8) -> Result<Option<Work>, PoolError>
        requires shared { (shared.now.table ≡ N.table) × (shared.now.cells ≡ N.cells) }
        requires work { HasWork (seen self.old) }
        ensures taken { IfOk result (λ got. Starts worker got (seen self.old) (seen self.new)) }
        ensures one { OnOk result (self.new.book.core.taken ≡ self.old.book.core.taken + 1) }
        ensures refused { IfErr result (λ e. Refuses e (seen self.old) (seen self.new)) }
        ensures limit { KeepsLimit (seen self.old) (seen self.new) }
    {
        match self.book.apply(shared, Event::Start(worker)) {
            Ok(applied) => {
                if applied.work.is_some() {
                    self.running = self.running.saturating_add(1);
                }
                Ok(applied.work)
            }
            Err(fault) => {
                self.fail(fault);
                Err(fault)
            }
        }
    }

    /// A worker has run its job, whether the run goes on or not. Where the finish is refused, the run is to end.
    fn finish(&mut self, shared: &Shared<A>, worker: u8, ending: Ending)
        requires shared { (shared.now.table ≡ N.table) × (shared.now.cells ≡ N.cells) }
        ensures done { Finishes worker ending (seen self.old) (seen self.new) }
        ensures limit { KeepsLimit (seen self.old) (seen self.new) }
        ensures fault { KeepsFault (seen self.old) (seen self.new) }
    {
        self.running = self.running.saturating_sub(1);
        if let Err(fault) = self.book.apply(shared, Event::Finish(worker, ending)) {
            self.fail(fault);
        }
    }

    /// Who leads shows the next moment of its run once all is quiet, which opens it, if no call of the run was refused. Where
    /// this clock is refused, the run is to end.
    pub fn lead(&mut self, shared: &Shared<A>, moment: u64) -> Lead
        requires shared { (shared.now.table ≡ N.table) × (shared.now.cells ≡ N.cells) }
        requires quiet { IsQuiet (seen self.old) }
        ensures leads { Leads moment result (seen self.old) (seen self.new) }
        ensures ends { ends_run result ≡ is_some self.new.fault }
        ensures limit { KeepsLimit (seen self.old) (seen self.new) }
        ensures fault { KeepsFault (seen self.old) (seen self.new) }
    {
        if self.fault.is_some() {
            return Lead::Ends(WakeAll::new());
        }
        if let Err(fault) = self.book.apply(shared, Event::Clock(moment)) {
            self.fail(fault);
            return Lead::Ends(WakeAll::new());
        }
        self.stage = Stage::Open;
        Lead::Moves(WakeWorker::new(self.wake()))
    }

    /// The clock shows a moment, which ends no run and opens none.
    pub fn advance(&mut self, shared: &Shared<A>, moment: u64) -> Advanced
        requires shared { (shared.now.table ≡ N.table) × (shared.now.cells ≡ N.cells) }
        ensures full { IsErrOf result.applied PoolError.Full
            ↔ (self.old.book.core.taken ≡ self.old.book.core.limit) }
        ensures others { IfErr result.applied (λ e. (e ≡ PoolError.Full) ⊎ (e ≡ PoolError.Memory)) }
        ensures refused { OnErr result.applied (self.new.book ≡ self.old.book) }
        ensures applied { IfOk result.applied
            (λ told. (did : Applies self.old.book self.new.book (v.Clock moment))
            × Tells self.old.book self.new.book did.last told) }
        ensures told { IfOk result.applied (λ told. (1 ≤ told.count) × (told.work ≡ None)) }
        ensures wakes { Wakes result.worker.wanted (record (seen self.old) { book = self.new.book })
            (seen self.new) }
        ensures quiet { IsTrue result.leader.wanted ↔ IsQuiet (seen self.new) }
        ensures limit { KeepsLimit (seen self.old) (seen self.new) }
    {
        let _before = self.book.lines();
        let applied = self.book.apply(shared, Event::Clock(moment));
        let _after = self.book.lines();
        Advanced {
            applied,
            worker: WakeWorker::new(self.wake()),
            leader: WakeLeader::new(self.is_quiet()),
        }
    }

    /// Cuts off a handle, as [`Book::admit`] does.
    pub fn admit<'s>(&mut self, shared: &'s Shared<A>) -> Result<Handle<'s, N, A>, PoolError>
        requires shared { (shared.now.table ≡ N.table) × (shared.now.cells ≡ N.cells) }
        ensures seats { IsErrOf result PoolError.Seats ↔ (self.old.book.seat.out ≡ most_handles) }
        ensures others { IfErr result (λ e. (e ≡ PoolError.Seats) ⊎ (e ≡ PoolError.Memory)) }
        ensures refused { OnErr result (self.new.book ≡ self.old.book) }
        ensures admitted { OnOk result
            (self.new.book ≡ record self.old.book { seat = one_out self.old.book.seat }) }
        ensures same { (self.new.stage ≡ self.old.stage) × (self.new.running ≡ self.old.running)
            × (self.new.fault ≡ self.old.fault) × (self.new.sleepers ≡ self.old.sleepers) }
        ensures handle { IfOk result (λ h. h.seat ≡ new_handle (length N.cells)) }
        ensures notes { IfOk result
            (λ h. AreNotesOf h.notes N.cells × ((k : ℕ) → known_to h k ≡ None)) }
    {
        self.book.admit(shared)
    }
}
