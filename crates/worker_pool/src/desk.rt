//! What a book does, one happening at a time. A desk says in its clauses what stays so, and may be in the midst of a step
//! between two calls.
ghost use Rattle.std.specs.Prelude.{◌≡◌, ◌≢◌, ◌⊎◌, ℕ, ◌+◌, ◌<◌, ◌≤◌, ◌++◌, ◌∷◌, [], Some, true, false, IsTrue, OnOk, OnErr, List, None, is_some, slice_index_or, vec_len, vec_capacity};
ghost use Rattle.queue_code.specs.Calls.{task_count};
ghost use Rattle.executor_core.specs.CoreView.{IsCounted, room_of, workers_of};
ghost use Rattle.executor_model.specs.declared.types.Happening.TheVariants as h;
ghost use Rattle.executor_model.specs.declared.types.Happening.{Happening as OneHappening};
ghost use Rattle.executor_model.specs.declared.types.Need.TheVariants as n;
ghost use Rattle.executor_model.specs.Flows.{happening_of, answer_line, EventComes};
ghost use Rattle.executor_model.specs.Histories.{is_call};
ghost use Rattle.task_word.specs.declared.views.CoreSeatView.{CoreSeatView};
ghost use Rattle.worker_pool.specs.Applies.{OnlyMarks, TellsUpTo};
ghost use Rattle.worker_pool.specs.own.Moves.{WasMet};
ghost use Rattle.worker_pool.specs.own.Steps.{IsKept, past_in, Comes, need_in, HasRoom, SamePlan, OnlyOwnGrows, OnlyNoted, NotedFor, Notes, Passes, Completes, MovesOn, part_in, SweepsUpTo};

use crate::moving::move_word;
use executor_core::{Core, make_room};
use executor_model::{Answer, Event, Happening, KeptHappening, Line, Message, Need};
use sched_time::Ending;
use std::alloc::{AllocError, Allocator};
use task_word::{CoreCancel, CoreSeat, TaskWords};

/// A core with its seat, and the happenings and the lines, the oldest first.
#[derive(Drop)]
pub struct Desk<A: Allocator> {
    pub core: Core<A>,
    pub seat: CoreSeat<A>,
    pub happenings: Vec<KeptHappening, A>,
    pub lines: Vec<Line, A>,
}

impl<A: Allocator> Desk<A> {
    /// Makes room for all that one event may add. Nothing else changes.
    pub fn make_room(&mut self) -> Result<(), AllocError>
        ensures core { self.new.core ≡ self.old.core }
        ensures seat { self.new.seat ≡ self.old.seat }
        ensures happenings { self.new.happenings.items ≡ self.old.happenings.items }
        ensures lines { self.new.lines.items ≡ self.old.lines.items }
        ensures room { OnOk result
            (HasRoom self.new.core (vec_len self.new.lines) (vec_capacity self.new.lines)
            (vec_len self.new.happenings) (vec_capacity self.new.happenings)) }
    {
        let room = self.core.room();
        make_room(&mut self.happenings, room)?;
        make_room(&mut self.lines, room)
    }

    /// Notes a cancel that the seat met: the core cancels the task from outside.
    fn note(&mut self, task: u32)
        requires room { HasRoom self.old.core (vec_len self.old.lines) (vec_capacity self.old.lines)
            (vec_len self.old.happenings) (vec_capacity self.old.happenings) }
        ensures seat { self.new.seat ≡ self.old.seat }
        ensures notes { (v next : CoreSeatView)
            → IsKept self.old.core v self.old.happenings.items self.old.lines.items
            → WasMet (task_count self.old.core.calls) v next task
            → IsKept self.new.core next self.new.happenings.items self.new.lines.items
            × Notes self.old.core self.new.core self.old.happenings.items
            self.new.happenings.items task
            × HasRoom self.new.core (vec_len self.new.lines) (vec_capacity self.new.lines)
            (vec_len self.new.happenings) (vec_capacity self.new.happenings) }
    {
        self.core.cancel(task, &mut self.lines);
        self.happenings
            .push_reserved(KeptHappening::new(Happening::Cancel(task)));
    }

    /// Takes the words of a happening, and lets it happen; or notes the cancel of a task whose word was met cancelled. Says
    /// whether it happened.
    #[inline(always)]
    fn attempt(&mut self, words: &TaskWords<A>, happening: Happening) -> bool
        requires table { self.old.seat.table ≡ words.now.table }
        requires tasks { words.now.tasks ≡ task_count self.old.core.calls }
        requires kept { IsKept self.old.core self.old.seat.view self.old.happenings.items
            self.old.lines.items }
        requires counted { IsCounted self.old.core }
        requires comes { Comes self.old.core happening }
        requires room { HasRoom self.old.core (vec_len self.old.lines) (vec_capacity self.old.lines)
            (vec_len self.old.happenings) (vec_capacity self.old.happenings) }
        ensures table { self.new.seat.table ≡ self.old.seat.table }
        ensures kept { IsKept self.new.core self.new.seat.view self.new.happenings.items
            self.new.lines.items }
        ensures same { SamePlan self.old.core self.new.core }
        ensures handles { OnlyOwnGrows self.old.seat.view self.new.seat.view }
        ensures done { IsTrue result
            → Completes self.old.core.calls (workers_of self.old.core) self.old.seat.view.own
            self.new.seat.view.own (past_in self.old.core self.old.happenings.items)
            (past_in self.new.core self.new.happenings.items) (happening ∷ [])
            × MovesOn self.old.core self.new.core happening }
        ensures noted { result ≡ false
            → NotedFor self.old.core self.new.core self.old.happenings.items
            self.new.happenings.items happening
            × (self.new.seat.view.own ≡ self.old.seat.view.own) }
        ensures more { (result ≡ false) ⊎ (is_call happening ≡ true)
            → IsCounted self.new.core × (room_of self.new.core + 1 ≤ room_of self.old.core)
            × HasRoom self.new.core (vec_len self.new.lines) (vec_capacity self.new.lines)
            (vec_len self.new.happenings) (vec_capacity self.new.happenings) }
    {
        let foreseen = self.core.foresee(happening);
        let need = foreseen.need;
        if let Need::Sweep = need {
            self.sweep(words);
            return true;
        }
        prove_bound(&self.core);
        if let Some(task) = move_word(&mut self.seat, words, need) {
            self.note(task);
            return false;
        }
        self.core.happen_foreseen(foreseen, &mut self.lines);
        self.happenings.push_reserved(KeptHappening::new(happening));
        true
    }
}

impl<A: Allocator> Desk<A> {
    /// Cancels a task by the seat, where the next call ends it; or notes that it was cancelled.
    fn sweep_one(&mut self, words: &TaskWords<A>, task: u32)
        requires table { self.old.seat.table ≡ words.now.table }
        requires tasks { words.now.tasks ≡ task_count self.old.core.calls }
        requires task { task < words.now.tasks }
        requires upto { (own : List ℕ)
            × SweepsUpTo own self.old.core self.old.seat.view self.old.happenings.items
            self.old.lines.items task }
        requires room { HasRoom self.old.core (vec_len self.old.lines) (vec_capacity self.old.lines)
            (vec_len self.old.happenings) (vec_capacity self.old.happenings) }
        ensures table { self.new.seat.table ≡ self.old.seat.table }
        ensures upto { (own : List ℕ)
            → SweepsUpTo own self.old.core self.old.seat.view self.old.happenings.items
            self.old.lines.items task
            → SweepsUpTo own self.new.core self.new.seat.view self.new.happenings.items
            self.new.lines.items (task + 1) }
        ensures handles { OnlyOwnGrows self.old.seat.view self.new.seat.view }
        ensures noted { NotedFor self.old.core self.new.core self.old.happenings.items
            self.new.happenings.items h.Call }
        ensures room { HasRoom self.new.core (vec_len self.new.lines) (vec_capacity self.new.lines)
            (vec_len self.new.happenings) (vec_capacity self.new.happenings) }
    {
        if !self.core.sweeps(task) {
            return;
        }
        match self.seat.cancel(words, task) {
            CoreCancel::Late => self.note(task),
            CoreCancel::Won | CoreCancel::Over | CoreCancel::Vacant => {}
        }
    }

    /// Cancels each task by the seat that the next call ends, but those that are met cancelled, which are noted.
    fn sweep_all(&mut self, words: &TaskWords<A>)
        requires table { self.old.seat.table ≡ words.now.table }
        requires tasks { words.now.tasks ≡ task_count self.old.core.calls }
        requires kept { IsKept self.old.core self.old.seat.view self.old.happenings.items
            self.old.lines.items }
        requires room { HasRoom self.old.core (vec_len self.old.lines) (vec_capacity self.old.lines)
            (vec_len self.old.happenings) (vec_capacity self.old.happenings) }
        ensures table { self.new.seat.table ≡ self.old.seat.table }
        ensures upto { SweepsUpTo self.old.seat.view.own self.new.core self.new.seat.view
            self.new.happenings.items self.new.lines.items words.now.tasks }
        ensures handles { OnlyOwnGrows self.old.seat.view self.new.seat.view }
        ensures noted { NotedFor self.old.core self.new.core self.old.happenings.items
            self.new.happenings.items h.Call }
        ensures room { HasRoom self.new.core (vec_len self.new.lines) (vec_capacity self.new.lines)
            (vec_len self.new.happenings) (vec_capacity self.new.happenings) }
    {
        let tasks = self.core.tasks();
        for task in 0..tasks as u32 {
            self.sweep_one(words, task);
        }
    }

    /// Makes the next call, which sweeps: the seat first cancels whom it ends.
    fn sweep(&mut self, words: &TaskWords<A>)
        requires table { self.old.seat.table ≡ words.now.table }
        requires tasks { words.now.tasks ≡ task_count self.old.core.calls }
        requires kept { IsKept self.old.core self.old.seat.view self.old.happenings.items
            self.old.lines.items }
        requires counted { IsCounted self.old.core }
        requires need { need_in self.old.core h.Call ≡ n.Sweep }
        requires comes { Comes self.old.core h.Call }
        requires room { HasRoom self.old.core (vec_len self.old.lines) (vec_capacity self.old.lines)
            (vec_len self.old.happenings) (vec_capacity self.old.happenings) }
        ensures table { self.new.seat.table ≡ self.old.seat.table }
        ensures kept { IsKept self.new.core self.new.seat.view self.new.happenings.items
            self.new.lines.items }
        ensures same { SamePlan self.old.core self.new.core }
        ensures handles { OnlyOwnGrows self.old.seat.view self.new.seat.view }
        ensures done { Completes self.old.core.calls (workers_of self.old.core)
            self.old.seat.view.own self.new.seat.view.own
            (past_in self.old.core self.old.happenings.items)
            (past_in self.new.core self.new.happenings.items) (h.Call ∷ []) }
        ensures on { MovesOn self.old.core self.new.core h.Call }
        ensures counted { IsCounted self.new.core }
        ensures less { room_of self.new.core + 1 ≤ room_of self.old.core }
        ensures room { HasRoom self.new.core (vec_len self.new.lines) (vec_capacity self.new.lines)
            (vec_len self.new.happenings) (vec_capacity self.new.happenings) }
    {
        self.sweep_all(words);
        self.core.make_call(&mut self.lines);
        self.happenings
            .push_reserved(KeptHappening::new(Happening::Call));
    }
}

impl<A: Allocator> Desk<A> {
    /// The next call, as [`attempt`](Desk::attempt) takes it. It stands alone, as calls come before clocks alone: what an event
    /// takes is so short that it is laid out for each kind of event.
    #[inline(never)]
    fn attempt_call(&mut self, words: &TaskWords<A>) -> bool
        requires table { self.old.seat.table ≡ words.now.table }
        requires tasks { words.now.tasks ≡ task_count self.old.core.calls }
        requires kept { IsKept self.old.core self.old.seat.view self.old.happenings.items
            self.old.lines.items }
        requires counted { IsCounted self.old.core }
        requires comes { Comes self.old.core h.Call }
        requires room { HasRoom self.old.core (vec_len self.old.lines) (vec_capacity self.old.lines)
            (vec_len self.old.happenings) (vec_capacity self.old.happenings) }
        ensures table { self.new.seat.table ≡ self.old.seat.table }
        ensures kept { IsKept self.new.core self.new.seat.view self.new.happenings.items
            self.new.lines.items }
        ensures same { SamePlan self.old.core self.new.core }
        ensures handles { OnlyOwnGrows self.old.seat.view self.new.seat.view }
        ensures done { IsTrue result
            → Completes self.old.core.calls (workers_of self.old.core) self.old.seat.view.own
            self.new.seat.view.own (past_in self.old.core self.old.happenings.items)
            (past_in self.new.core self.new.happenings.items) (h.Call ∷ [])
            × MovesOn self.old.core self.new.core h.Call }
        ensures noted { result ≡ false
            → NotedFor self.old.core self.new.core self.old.happenings.items
            self.new.happenings.items h.Call × (self.new.seat.view.own ≡ self.old.seat.view.own) }
        ensures more { IsCounted self.new.core × (room_of self.new.core + 1 ≤ room_of self.old.core)
            × HasRoom self.new.core (vec_len self.new.lines) (vec_capacity self.new.lines)
            (vec_len self.new.happenings) (vec_capacity self.new.happenings) }
    {
        self.attempt(words, Happening::Call)
    }

    /// Makes the calls that come before an event.
    #[inline(always)]
    fn make_calls(&mut self, words: &TaskWords<A>, event: Event)
        requires table { self.old.seat.table ≡ words.now.table }
        requires tasks { words.now.tasks ≡ task_count self.old.core.calls }
        requires kept { IsKept self.old.core self.old.seat.view self.old.happenings.items
            self.old.lines.items }
        requires counted { IsCounted self.old.core }
        requires room { HasRoom self.old.core (vec_len self.old.lines) (vec_capacity self.old.lines)
            (vec_len self.old.happenings) (vec_capacity self.old.happenings) }
        ensures table { self.new.seat.table ≡ self.old.seat.table }
        ensures kept { IsKept self.new.core self.new.seat.view self.new.happenings.items
            self.new.lines.items }
        ensures same { SamePlan self.old.core self.new.core }
        ensures handles { OnlyOwnGrows self.old.seat.view self.new.seat.view }
        ensures counted { IsCounted self.new.core }
        ensures room { HasRoom self.new.core (vec_len self.new.lines) (vec_capacity self.new.lines)
            (vec_len self.new.happenings) (vec_capacity self.new.happenings) }
        ensures comes { EventComes self.new.core.calls self.new.core.made self.new.core.moment
            event }
        ensures passed { (more : List OneHappening)
            × Passes self.old.core.calls (workers_of self.old.core) (happening_of event)
            self.old.seat.view.own self.new.seat.view.own
            (past_in self.old.core self.old.happenings.items)
            (past_in self.new.core self.new.happenings.items) more
            × (part_in self.old.core event ≡ part_in self.new.core event ++ more) }
    {
        while self.core.reaches_call(event) {
            self.attempt_call(words);
        }
    }

    /// Takes an event that comes next.
    #[inline(always)]
    fn take_last(&mut self, words: &TaskWords<A>, event: Event)
        requires table { self.old.seat.table ≡ words.now.table }
        requires tasks { words.now.tasks ≡ task_count self.old.core.calls }
        requires kept { IsKept self.old.core self.old.seat.view self.old.happenings.items
            self.old.lines.items }
        requires counted { IsCounted self.old.core }
        requires room { HasRoom self.old.core (vec_len self.old.lines) (vec_capacity self.old.lines)
            (vec_len self.old.happenings) (vec_capacity self.old.happenings) }
        requires comes { Comes self.old.core (happening_of event) }
        ensures table { self.new.seat.table ≡ self.old.seat.table }
        ensures kept { IsKept self.new.core self.new.seat.view self.new.happenings.items
            self.new.lines.items }
        ensures same { SamePlan self.old.core self.new.core }
        ensures handles { OnlyOwnGrows self.old.seat.view self.new.seat.view }
        ensures took { Completes self.old.core.calls (workers_of self.old.core)
            self.old.seat.view.own self.new.seat.view.own
            (past_in self.old.core self.old.happenings.items)
            (past_in self.new.core self.new.happenings.items) (happening_of event ∷ []) }
    {
        let happening = event.happening();
        while !self.attempt(words, happening) {}
    }

    /// Takes an event: the calls that come before it, and then the event itself. Before each of them the cancels are noted
    /// that stand in its way.
    #[inline(always)]
    pub fn take(&mut self, words: &TaskWords<A>, event: Event)
        requires table { self.old.seat.table ≡ words.now.table }
        requires tasks { words.now.tasks ≡ task_count self.old.core.calls }
        requires kept { IsKept self.old.core self.old.seat.view self.old.happenings.items
            self.old.lines.items }
        requires counted { IsCounted self.old.core }
        requires room { HasRoom self.old.core (vec_len self.old.lines) (vec_capacity self.old.lines)
            (vec_len self.old.happenings) (vec_capacity self.old.happenings) }
        ensures table { self.new.seat.table ≡ self.old.seat.table }
        ensures kept { IsKept self.new.core self.new.seat.view self.new.happenings.items
            self.new.lines.items }
        ensures same { SamePlan self.old.core self.new.core }
        ensures handles { OnlyOwnGrows self.old.seat.view self.new.seat.view }
        ensures took { Completes self.old.core.calls (workers_of self.old.core)
            self.old.seat.view.own self.new.seat.view.own
            (past_in self.old.core self.old.happenings.items)
            (past_in self.new.core self.new.happenings.items) (part_in self.old.core event) }
    {
        self.make_calls(words, event);
        self.take_last(words, event);
    }
}

impl<A: Allocator> Desk<A> {
    /// Reads a task's word, and notes its cancel where the core does not know of it.
    fn look_one(&mut self, words: &TaskWords<A>, task: u32)
        requires table { self.old.seat.table ≡ words.now.table }
        requires tasks { words.now.tasks ≡ task_count self.old.core.calls }
        requires task { task < words.now.tasks }
        requires kept { IsKept self.old.core self.old.seat.view self.old.happenings.items
            self.old.lines.items }
        requires room { HasRoom self.old.core (vec_len self.old.lines) (vec_capacity self.old.lines)
            (vec_len self.old.happenings) (vec_capacity self.old.happenings) }
        ensures table { self.new.seat.table ≡ self.old.seat.table }
        ensures kept { IsKept self.new.core self.new.seat.view self.new.happenings.items
            self.new.lines.items }
        ensures room { HasRoom self.new.core (vec_len self.new.lines) (vec_capacity self.new.lines)
            (vec_len self.new.happenings) (vec_capacity self.new.happenings) }
        ensures noted { OnlyNoted self.old.core self.new.core self.old.happenings.items
            self.new.happenings.items }
        ensures own { self.new.seat.view.own ≡ self.old.seat.view.own }
        ensures handles { OnlyOwnGrows self.old.seat.view self.new.seat.view }
        ensures entries { OnlyMarks self.old.seat.view self.new.seat.view }
        ensures tells { TellsUpTo self.old.seat.view task
            → TellsUpTo self.new.seat.view (task + 1) }
    {
        let found = self.seat.look(words, task).is_cancelled();
        if !found {
            return;
        }
        let known = self.core.is_cancelled(task);
        if known {
            return;
        }
        self.note(task);
    }

    /// Reads each task's word, and notes each cancel of which the core does not know.
    pub fn look_all(&mut self, words: &TaskWords<A>)
        requires table { self.old.seat.table ≡ words.now.table }
        requires tasks { words.now.tasks ≡ task_count self.old.core.calls }
        requires kept { IsKept self.old.core self.old.seat.view self.old.happenings.items
            self.old.lines.items }
        requires room { HasRoom self.old.core (vec_len self.old.lines) (vec_capacity self.old.lines)
            (vec_len self.old.happenings) (vec_capacity self.old.happenings) }
        ensures table { self.new.seat.table ≡ self.old.seat.table }
        ensures kept { IsKept self.new.core self.new.seat.view self.new.happenings.items
            self.new.lines.items }
        ensures noted { OnlyNoted self.old.core self.new.core self.old.happenings.items
            self.new.happenings.items }
        ensures own { self.new.seat.view.own ≡ self.old.seat.view.own }
        ensures handles { OnlyOwnGrows self.old.seat.view self.new.seat.view }
        ensures entries { OnlyMarks self.old.seat.view self.new.seat.view }
        ensures tells { TellsUpTo self.new.seat.view words.now.tasks }
    {
        let tasks = self.core.tasks();
        for task in 0..tasks as u32 {
            self.look_one(words, task);
        }
    }
}

impl<A: Allocator> Desk<A> {
    /// Whether a run by a worker is under way: its finish would end one.
    pub fn works(&self, worker: u8) -> bool
        ensures { result ≡ is_some (slice_index_or self.now.core.work worker None) }
    {
        let finish = Happening::Finish(worker, Ending::Value(0));
        self.core.foresee(finish).end.is_some()
    }

    /// The answer of the last line, where it has one.
    #[inline(always)]
    pub fn last_answer(&self) -> Option<Answer>
        ensures { (before : List Line) (moment : ℕ) (answer : Answer)
            → self.now.lines.items ≡ before ++ answer_line moment answer ∷ []
            → result ≡ Some answer }
    {
        match self.lines.last()?.message() {
            Message::Answer(answer) => Some(answer),
            Message::End(_) => None,
        }
    }
}

/// How many events a core took is below 2^32.
fn prove_bound<A: Allocator>(core: &Core<A>)
    ensures { core.now.taken < 4294967296 }
{
    let _taken = core.taken();
}
