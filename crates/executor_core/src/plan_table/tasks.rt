//! The tasks of a plan: the word of each, and beside it what its word does not say.
ghost use Rattle.std.specs.Prelude.{◌≡◌, ◌≢◌, ◌+◌, ◌^◌, ◌<◌, true, false, length, replicate, map, slice_index_or, slice_set, IfOk};
ghost use Rattle.executor_model.specs.declared.task.Stage.TheVariants as ph;
ghost use Rattle.executor_model.specs.declared.types.Outcome.TheVariants as o;
ghost use Rattle.executor_model.specs.State.{vacant, submit_task, end_task};
ghost use Rattle.executor_model.specs.Tasks.{word_of_task, uncancelled_in};
ghost use Rattle.executor_core.specs.plan_table.Numbered.{slots_by, tasks_at};
ghost use Rattle.executor_core.specs.plan_table.Tasks.{periodic_in, is_periodic};
ghost use Rattle.executor_core.specs.plan_table.own.Tables.{phase_in, is_again, is_over};

use crate::plan_table::tallies::{Tallies, is_periodic};
use executor_model::{Outcome, Stage, Task};
use sched_time::Timing;
use std::alloc::{AllocError, Allocator};
use std::marker::Model;
use task_word::Word;

/// What is kept of a task beside its word.
#[derive(Clone, Copy)]
pub(crate) struct Detail {
    /// The due moment of the task, in nanoseconds.
    due: u64,
    /// How often it runs.
    timing: Timing,
    /// Its last run has ended, and its word does not say so.
    over: bool,
    /// It was cancelled while it waited, and still stands in the queue.
    kept: bool,
}

/// The tasks of a plan by their numbers. Contracts see the list of them.
#[derive(Drop)]
pub struct Tasks<A: Allocator> {
    words: Vec<Word, A>,
    details: Vec<Detail, A>,
    tallies: Tallies,
}

impl<A: Allocator> Model for Tasks<A> {
    ghost use Rattle.std.specs.Prelude.{List};
    ghost use Rattle.executor_model.specs.declared.task.Task.{Task};
    ghost use Rattle.executor_core.specs.plan_table.own.Tables.{tasks_in_tables, TablesAgree};

    ghost Value = { List Task };

    ghost view = { λ t. tasks_in_tables t.words.items t.details.items };

    ghost invariant = { λ t. TablesAgree t.words.items t.details.items t.tallies };
}

impl<A: Allocator> Tasks<A> {
    /// `count` tasks, of which none was submitted.
    pub(crate) fn new(alloc: A, count: u32) -> Result<Tasks<A>, AllocError>
    where
        A: Copy,
        ensures { IfOk result (λ t. t ≡ replicate count vacant) }
    {
        let detail = Detail {
            due: 0,
            timing: Timing::Once,
            over: false,
            kept: false,
        };
        Ok(Tasks {
            words: Vec::from_elem(alloc, Word::vacant(), count as usize)?,
            details: Vec::from_elem(alloc, detail, count as usize)?,
            tallies: Tallies {
                uncancelled: count as usize,
                periodic: 0,
            },
        })
    }

    /// How many tasks there are.
    pub(crate) fn count(&self) -> usize
        ensures { result ≡ length self.now }
    {
        self.words.len()
    }

    /// How many of the tasks that the slots show are not cancelled; those that were not submitted yet are not.
    pub fn uncancelled(&self) -> usize
        ensures value { result ≡ uncancelled_in self.now }
        ensures same { tasks_at (slots_by 0 self.now) ≡ self.now }
    {
        self.tallies.uncancelled
    }

    /// How many periodic tasks, of those that the slots show, wait for a run.
    pub fn periodic(&self) -> usize
        ensures value { result ≡ periodic_in self.now }
        ensures same { tasks_at (slots_by 0 self.now) ≡ self.now }
    {
        self.tallies.periodic
    }

    /// The words of the tasks that the slots show, by number.
    pub fn words(&self) -> &[Word]
        ensures value { result.now ≡ map word_of_task self.now }
        ensures same { tasks_at (slots_by 0 self.now) ≡ self.now }
    {
        &self.words
    }

    /// The task of this number.
    pub(crate) fn task(&self, task: usize) -> Task
        requires { task < length self.now }
        ensures { result ≡ slice_index_or self.now task vacant }
    {
        let word = self.words[task];
        let detail = self.details[task];
        Task {
            phase: phase_in(word.phase(), detail.over),
            run: word.run(),
            due: detail.due,
            timing: detail.timing,
            cancelled: word.is_marked(),
            kept: detail.kept,
        }
    }

    /// The task of this number, which is not cancelled. What the caller knows of it need not be looked up.
    fn get_live(&self, task: usize) -> Task
        requires known { task < length self.now }
        requires live { (slice_index_or self.now task vacant).cancelled ≡ false }
        ensures { result ≡ slice_index_or self.now task vacant }
    {
        Task {
            cancelled: false,
            ..self.task(task)
        }
    }

    /// A task is submitted, timed so, and first due at this moment.
    pub(crate) fn submit(&mut self, task: usize, timing: Timing, due: u64)
        requires known { task < length self.old }
        requires vacant { (slice_index_or self.old task vacant).phase ≡ ph.Vacant }
        ensures { self.new ≡ slice_set self.old task (submit_task timing due vacant) }
    {
        let before = vacant();
        let after = Task {
            phase: Stage::Waiting,
            timing,
            due,
            ..before
        };
        self.words[task] = self.words[task].submitted();
        self.details[task] = Detail {
            due,
            timing: after.timing,
            over: false,
            kept: false,
        };
        self.tallies = self.tallies.recount(before, after);
    }

    /// A run of a task begins.
    pub(crate) fn start(&mut self, task: usize)
        requires known { task < length self.old }
        requires phase { (slice_index_or self.old task vacant).phase ≡ ph.Waiting }
        requires live { (slice_index_or self.old task vacant).cancelled ≡ false }
        ensures { self.new
            ≡ slice_set self.old task
            (record (slice_index_or self.old task vacant) { phase = ph.Running }) }
    {
        self.words[task] = self.words[task].started();
        let detail = &mut self.details[task];
        detail.over = false;
        let again = is_periodic(detail.timing);
        self.tallies = self.tallies.run_started(again);
    }

    /// The run of a task ends with this outcome, and the run after it is due at this moment.
    #[inline(always)]
    pub(crate) fn finish(&mut self, task: usize, outcome: Outcome, due: u64)
        requires known { task < length self.old }
        requires phase { (slice_index_or self.old task vacant).phase ≡ ph.Running }
        requires live { outcome ≢ o.Dropped
            → (slice_index_or self.old task vacant).cancelled ≡ false }
        requires run { (slice_index_or self.old task vacant).run + 1 < 2 ^ 32 }
        requires again { is_again outcome ≡ true
            → is_periodic (slice_index_or self.old task vacant).timing ≡ true }
        ensures { self.new
            ≡ slice_set self.old task (end_task outcome due (slice_index_or self.old task vacant)) }
    {
        let word = self.words[task];
        self.words[task] = match outcome {
            Outcome::Done(_) => word.done(),
            Outcome::Failed(_) => word.failed(),
            Outcome::Again(_) => word.rearmed(),
            Outcome::Dropped | Outcome::Ended => word,
        };
        let over = is_over(outcome);
        let detail = &mut self.details[task];
        detail.due = due;
        detail.over = over;
        self.tallies = self.tallies.run_ended(is_again(outcome));
    }

    /// A task that is not cancelled is cancelled.
    pub(crate) fn mark(&mut self, task: usize)
        requires known { task < length self.old }
        requires accepted { (slice_index_or self.old task vacant).phase ≢ ph.Vacant }
        requires live { (slice_index_or self.old task vacant).cancelled ≡ false }
        ensures { self.new
            ≡ slice_set self.old task
            (record (slice_index_or self.old task vacant) { cancelled = true }) }
    {
        let before = self.get_live(task);
        let after = Task {
            cancelled: true,
            ..before
        };
        self.words[task] = self.words[task].with_cancel_bit();
        self.tallies = self.tallies.recount(before, after);
    }

    /// A task is kept from now on, or is kept no more.
    pub(crate) fn keep(&mut self, task: usize, kept: bool)
        requires known { task < length self.old }
        requires accepted { (slice_index_or self.old task vacant).phase ≢ ph.Vacant }
        ensures { self.new
            ≡ slice_set self.old task
            (record (slice_index_or self.old task vacant) { kept = kept }) }
    {
        self.details[task].kept = kept;
    }
}

/// A task that was not submitted.
fn vacant() -> Task
    ensures { result ≡ vacant }
{
    Task {
        phase: Stage::Vacant,
        run: 0,
        due: 0,
        timing: Timing::Once,
        cancelled: false,
        kept: false,
    }
}

/// Whether a run that comes to this is the last one of its task, and its word does not say so.
#[inline(always)]
fn is_over(outcome: Outcome) -> bool
    ensures { result ≡ is_over outcome }
{
    match outcome {
        Outcome::Dropped | Outcome::Ended => true,
        Outcome::Done(_) | Outcome::Failed(_) | Outcome::Again(_) => false,
    }
}

/// Whether the task waits for another run.
#[inline(always)]
fn is_again(outcome: Outcome) -> bool
    ensures { result ≡ is_again outcome }
{
    match outcome {
        Outcome::Again(_) => true,
        Outcome::Done(_) | Outcome::Failed(_) | Outcome::Dropped | Outcome::Ended => false,
    }
}

/// The phase of a task whose word has this one.
fn phase_in(phase: task_word::Phase, over: bool) -> Stage
    ensures { result ≡ phase_in phase over }
{
    match phase {
        task_word::Phase::Vacant => Stage::Vacant,
        task_word::Phase::New => Stage::Waiting,
        task_word::Phase::Running if over => Stage::Dropped,
        task_word::Phase::Running => Stage::Running,
        task_word::Phase::Done => Stage::Done,
        task_word::Phase::Failed => Stage::Failed,
    }
}
