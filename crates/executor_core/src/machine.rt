ghost use Rattle.std.specs.Prelude.{◌≡◌, ◌+◌, ◌^◌, ◌<◌, ◌≤◌, ◌↔◌, ◌⊎◌, List, length, map, OnOk, OnErr, IsOk, IfOk, IfErr, IsErrOf, IsTrue, false, vec_len, vec_capacity};
ghost use Rattle.queue_code.specs.Calls.{task_count};
ghost use Rattle.queue_code.specs.Codes.{calls_of};
ghost use Rattle.executor_model.specs.Histories as histories;
ghost use Rattle.sched_time.specs.Times.{longest};
ghost use Rattle.executor_model.specs.Tasks.{word_of_task};
ghost use Rattle.executor_model.specs.Counts.{IsWorkerCount};
ghost use Rattle.executor_model.specs.Flows.{part_of};

mod calls;
mod cancels;
mod clocks;
mod happenings;
mod needs;
mod purges;
mod sweeps;
mod workers;

use crate::error::CoreError;
use crate::plan_table::{PlanTable, plan_table};
use crate::room::make_room;
use executor_model::{Event, Happening, Line, MOST_WORKERS};
use queue_code::{Agenda, Code};
use std::alloc::{AllocError, Allocator};
use std::marker::Model;
use task_word::Word;

/// An executor of the calls of a plan.
#[derive(Drop)]
pub struct Core<A: Allocator> {
    calls: Agenda<A>,
    /// The tasks, each in the slot of its number, and the workers.
    table: PlanTable<A>,
    /// A sweep has looked for the delayed tasks and ended them, and no more come.
    sought: bool,
    limit: u32,
    taken: u32,
}

impl<A: Allocator> Model for Core<A> {
    ghost use Rattle.executor_core.specs.CoreView.{CoreView};
    ghost use Rattle.executor_core.specs.own.Invariants.{IsCore, core_of};

    ghost Value = { CoreView };

    ghost view = { λ c. core_of c.calls.items c.limit c.taken c.calls.made c.table };

    ghost invariant = { λ c. IsCore (core_of c.calls.items c.limit c.taken c.calls.made c.table) c.table c.sought };
}

impl<A: Allocator> Core<A> {
    ghost use Rattle.executor_core.specs.CoreView.{workers_of, room_of, Counts, IsCounted, Steps, Stands, Continues, ErrorOnlyCounts, IsOpening};

    /// A core before anything happened, for the calls of a code.
    ///
    /// `workers` is the number of workers, 1 to 64, and `limit` the number of events that it
    /// takes, 1 to 4,294,967,295. What is out of range is found in this order: the workers, then
    /// the limit. The code is dropped on a refusal. All memory that the core ever needs for
    /// itself is taken here.
    pub fn new(alloc: A, code: Code<A>, workers: u8, limit: u32) -> Result<Core<A>, CoreError>
    where
        A: Copy,
        ensures opening { IfOk result (λ core. IsOpening core (calls_of code) workers limit) }
        ensures workers { IsErrOf result CoreError.Workers ↔ ¬ IsWorkerCount workers }
        ensures limit { IsErrOf result CoreError.Limit ↔ (IsWorkerCount workers × (limit ≡ 0)) }
        ensures full { IsErrOf result CoreError.Full → ⊥ }
    {
        if workers == 0 || workers > MOST_WORKERS {
            return Err(CoreError::Workers);
        }
        if limit == 0 {
            return Err(CoreError::Limit);
        }
        Core::with_table(alloc, code, workers, limit).map_err(|_| CoreError::Memory)
    }

    /// The moment, 0 to 2^62 nanoseconds: the greatest of the accepted clocks and the calls made.
    pub fn now(&self) -> u64
        ensures value { result ≡ self.now.moment }
        ensures limit { result ≤ longest }
    {
        self.table.now()
    }

    /// How many events were taken.
    pub fn taken(&self) -> u32
        ensures value { result ≡ self.now.taken }
        ensures limit { self.now.taken < 2 ^ 32 }
    {
        self.taken
    }

    /// How many tasks the plan has.
    pub fn tasks(&self) -> usize
        ensures { result ≡ task_count self.now.calls }
    {
        self.table.slots()
    }

    /// The word of each task by its number: how far the task has come, and whether it was cancelled.
    /// A cancelled word stands still, also once the run that was under way has ended.
    pub fn words(&self) -> &[Word]
        ensures words { result.now ≡ map word_of_task self.now.tasks }
        ensures count { length result.now ≡ task_count self.now.calls }
    {
        self.table.stored().words()
    }

    /// Takes an event: makes the calls that an accepted clock reaches, then answers it. It is [counted](Core::count), and as
    /// long as it [reaches a call](Core::reaches_call) that call [happens](Core::happen), and then the event does.
    ///
    /// The lines of the answers are added to `out`, the oldest first. The answer is
    /// [`CoreError::Full`] exactly when as many events were taken as the limit allows. It is
    /// [`CoreError::Memory`] where `out` cannot grow. That does not come, and `out` keeps its capacity,
    /// where `out` has [`room`](Core::room) for the lines: one, one for each call that is left, and one for each task
    /// that is not cancelled. Both errors leave the core and `out` as they were, and the event may
    /// be given again. `out` never loses capacity, and `room` never grows: a list that once had room for the lines of an
    /// event has it for those of each later one, once it is cleared.
    ///
    /// An event that is answered by [`Answer::Error`] changes nothing but the number of events taken.
    ///
    /// ```rust
    /// let instrs = vec![in alloc; Instr::Ask(3), Instr::Halt]?;
    /// let mut core = Core::new(alloc, Code::check(alloc, instrs)?, 1, 2)?; // two events at most
    /// let mut lines = Vec::new(alloc);
    /// core.event(Event::Clock(5), &mut lines)?;
    /// assert_eq!(rt; lines.len(), 2); // of the question at 3, and of the clock
    /// core.event(Event::Start(0), &mut lines)?;
    /// let idle = Line::new(5, Message::Answer(Answer::Idle { worker: 0 }));
    /// assert_eq!(rt; lines.pop(), Some(idle));
    /// assert_eq!(rt;
    ///     core.event(Event::Clock(9), &mut lines),
    ///     Err(CoreError::Full)
    /// );
    /// ```
    #[inline(always)]
    pub fn event<B: Allocator>(
        &mut self,
        event: Event,
        out: &mut Vec<Line, B>,
    ) -> Result<(), CoreError>
        ensures full { IsErrOf result CoreError.Full ↔ (self.old.taken ≡ self.old.limit) }
        ensures others { IfErr result (λ e. (e ≡ CoreError.Full) ⊎ (e ≡ CoreError.Memory)) }
        ensures room { vec_len out.old + room_of self.old ≤ vec_capacity out.old
            → self.old.taken < self.old.limit → IsOk result }
        ensures capacity { vec_len out.old + room_of self.old ≤ vec_capacity out.old
            → vec_capacity out.new ≡ vec_capacity out.old }
        ensures keeps { vec_capacity out.old ≤ vec_capacity out.new }
        ensures shrinks { room_of self.new ≤ room_of self.old }
        ensures few { vec_len out.new ≤ vec_len out.old + room_of self.old }
        ensures refused { OnErr result
            ((self.new ≡ self.old) × (out.new.items ≡ out.old.items)
            × (vec_capacity out.new ≡ vec_capacity out.old)) }
        ensures taken { OnOk result (self.new.taken ≡ self.old.taken + 1) }
        ensures steps { OnOk result
            (Steps self.old self.new out.old.items out.new.items
            (part_of self.old.calls self.old.made self.old.moment event)) }
        ensures errors { OnOk result
            (ErrorOnlyCounts self.old self.new out.old.items out.new.items event) }
        ensures history { OnOk result
            ((past : List histories.HistoryEntry)
            → histories.IsHistoryOf self.old.calls (workers_of self.old) past
            → Stands self.old past
            → Continues self.old self.new out.old.items out.new.items event past) }
    {
        if self.taken == self.limit {
            return Err(CoreError::Full);
        }
        if make_room(out, self.room()).is_err() {
            return Err(CoreError::Memory);
        }
        self.count();
        while self.reaches_call(event) {
            self.happen(Happening::Call, out);
        }
        self.happen(event.happening(), out);
        Ok(())
    }

    /// Whether as many events were taken as the limit allows.
    pub fn full(&self) -> bool
        ensures full { IsTrue result ↔ (self.now.taken ≡ self.now.limit) }
        ensures room { result ≡ false → self.now.taken < self.now.limit }
    {
        self.taken == self.limit
    }

    /// Takes one event: the run in [`words`](Core::words) of each task is then below [`taken`](Core::taken).
    ///
    /// The limit may not be reached, as [`full`](Core::full) tells.
    pub fn count(&mut self)
        requires { self.old.taken < self.old.limit }
        ensures same { Counts self.old self.new }
        ensures runs { IsCounted self.new }
        ensures limit { self.new.taken < 2 ^ 32 }
    {
        self.taken += 1;
    }

    /// How many lines the next event adds at most: one, one for each call that is left, and one for each task that is not
    /// cancelled. No single happening adds more, and none makes it greater.
    pub fn room(&self) -> usize
        ensures { result ≡ room_of self.now }
    {
        1 + self.calls.left() + self.table.stored().uncancelled()
    }

    /// A core with a table for the tasks of a code and this many workers.
    fn with_table(alloc: A, code: Code<A>, workers: u8, limit: u32) -> Result<Core<A>, AllocError>
    where
        A: Copy,
        requires { IsWorkerCount workers }
        ensures { IfOk result (λ core. IsOpening core (calls_of code) workers limit) }
    {
        let table = plan_table(alloc, code.tasks(), workers)?;
        Ok(Core {
            calls: Agenda::new(code),
            table,
            sought: false,
            limit,
            taken: 0,
        })
    }
}
