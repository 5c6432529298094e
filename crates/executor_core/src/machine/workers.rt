//! Starts and finishes: what a core answers to its workers.
ghost use Rattle.std.specs.Prelude.{◌≡◌, ℕ, ◌+◌, ◌<◌, ◌≤◌, List, [], ◌∷◌, length, Some, vec_len, vec_capacity};
ghost use Rattle.queue_code.specs.Calls.{Planned};
ghost use Rattle.executor_model.specs.declared.types.Happening.TheVariants as happening;
ghost use Rattle.executor_model.specs.declared.types.Answer.TheVariants as answer;
ghost use Rattle.executor_model.specs.Histories.{HistoryEntry};
ghost use Rattle.executor_model.specs.Needs.{need_of};
ghost use Rattle.executor_model.specs.State.{reply_of};
ghost use Rattle.task_table.specs.Tables.{StandsBefore};
ghost use Rattle.task_table.specs.Firsts.{NoneMet};
ghost use Rattle.task_table.specs.Runs.{IsFree};
ghost use Rattle.executor_core.specs.Foresight.{end_in};
ghost use Rattle.executor_core.specs.own.Ends.{need_of_end, table_end};
ghost use Rattle.executor_core.specs.own.OwnSteps.{AreUnkept};
ghost use Rattle.executor_core.specs.declared.foreseen.RunEnd.{RunEnd as RunEndOf};

use super::Core;
use crate::foreseen::RunEnd;
use crate::plan_table::PlanTable;
use executor_model::{Answer, EventError, Line, Message};
use sched_time::Ending;
use std::alloc::Allocator;
use task_table::TaskRef;

impl<A: Allocator> Core<A> {
    ghost use Rattle.executor_core.specs.CoreView.{Steps, ContinuesAny, Leaves, room_of, workers_of, state_of};
    ghost use Rattle.executor_core.specs.own.OwnSteps.{Takes};
    ghost use Rattle.executor_core.specs.CoreView.{RunsBelowTaken};

    /// A worker asks for work: it gets the first task that is due, or none. The line is added, for which `out` has room.
    ///
    /// The task that it gets, which [`start_need`](Core::start_need) names, has in [`words`](Core::words) a run below
    /// [`taken`](Core::taken).
    #[inline(always)]
    pub fn start<B: Allocator>(&mut self, worker: u8, out: &mut Vec<Line, B>)
        requires counted { RunsBelowTaken self.old
            (need_of self.old.calls (workers_of self.old) (state_of self.old)
            (happening.Start worker)) }
        requires room { vec_len out.old + room_of self.old ≤ vec_capacity out.old }
        ensures steps { Steps self.old self.new out.old.items out.new.items
            (happening.Start worker ∷ []) }
        ensures history { ContinuesAny self.old self.new out.old.items out.new.items
            (happening.Start worker) }
        ensures leaves { Leaves self.old self.new (vec_len out.old) (vec_len out.new) }
        ensures capacity { vec_capacity out.new ≡ vec_capacity out.old }
    {
        let answer = self.answer_start(worker);
        out.push_reserved(Line::new(self.table.now(), Message::Answer(answer)));
    }

    /// What a worker that asks for work is answered.
    #[inline(always)]
    fn answer_start(&mut self, worker: u8) -> Answer
        requires { RunsBelowTaken self.old
            (need_of self.old.calls (workers_of self.old) (state_of self.old)
            (happening.Start worker)) }
        ensures step { Takes self.old self.new (happening.Start worker) result }
        ensures size { length self.new.tasks ≡ length self.old.tasks }
    {
        if let Some(error) = self.table.start_error(worker) {
            return Answer::Error(error);
        }
        drop_met(&mut self.table);
        let Ok(begun) = self.table.start_free(worker) else {
            unreachable!()
        };
        let Some(begun) = begun else {
            return Answer::Idle { worker };
        };
        Answer::Start {
            worker,
            task: begun.task.slot,
            run: begun.run,
            due: begun.due,
        }
    }

    /// The run of a worker ended. The line is added, for which `out` has room.
    #[inline(always)]
    pub fn finish<B: Allocator>(&mut self, worker: u8, ending: Ending, out: &mut Vec<Line, B>)
        requires { vec_len out.old + room_of self.old ≤ vec_capacity out.old }
        ensures steps { Steps self.old self.new out.old.items out.new.items
            (happening.Finish worker ending ∷ []) }
        ensures history { ContinuesAny self.old self.new out.old.items out.new.items
            (happening.Finish worker ending) }
        ensures leaves { Leaves self.old self.new (vec_len out.old) (vec_len out.new) }
        ensures capacity { vec_capacity out.new ≡ vec_capacity out.old }
    {
        let end = self.run_end(worker, ending);
        self.finish_as(worker, ending, end, out);
    }

    /// The run of a worker ended, and this was told of its end.
    #[inline(always)]
    pub(super) fn finish_as<B: Allocator>(
        &mut self,
        worker: u8,
        ending: Ending,
        end: Option<RunEnd>,
        out: &mut Vec<Line, B>,
    )
        requires end { end ≡ end_in self.old (happening.Finish worker ending) }
        requires room { vec_len out.old + room_of self.old ≤ vec_capacity out.old }
        ensures steps { Steps self.old self.new out.old.items out.new.items
            (happening.Finish worker ending ∷ []) }
        ensures history { ContinuesAny self.old self.new out.old.items out.new.items
            (happening.Finish worker ending) }
        ensures leaves { Leaves self.old self.new (vec_len out.old) (vec_len out.new) }
        ensures capacity { vec_capacity out.new ≡ vec_capacity out.old }
    {
        let answer = self.answer_finish(worker, ending, end);
        out.push_reserved(Line::new(self.table.now(), Message::Answer(answer)));
    }

    /// What a worker is answered whose run ended so, where this was told of its end.
    #[inline(always)]
    fn answer_finish(&mut self, worker: u8, ending: Ending, end: Option<RunEnd>) -> Answer
        requires { end ≡ end_in self.old (happening.Finish worker ending) }
        ensures step { Takes self.old self.new (happening.Finish worker ending) result }
        ensures size { length self.new.tasks ≡ length self.old.tasks }
    {
        let Some(end) = end else {
            if worker as usize >= self.table.workers() {
                return Answer::Error(EventError::NoWorker);
            }
            return Answer::Error(EventError::NotRunning);
        };
        self.table.end_as(worker, table_end(end));
        Answer::Finish {
            worker,
            task: end.task,
            run: u64::from(end.run),
            outcome: end.outcome,
        }
    }

    /// The end of the run of a worker, whose run ended so, where one is under way.
    #[inline(always)]
    pub(super) fn run_end(&self, worker: u8, ending: Ending) -> Option<RunEnd>
        ensures end { result ≡ end_in self.now (happening.Finish worker ending) }
        ensures answer { (end : RunEndOf) → result ≡ Some end
            → (reply_of self.now.calls (workers_of self.now) (state_of self.now)
            (happening.Finish worker ending)).answer
            ≡ answer.Finish worker end.task end.run end.outcome }
        ensures need { need_of_end result
            ≡ need_of self.now.calls (workers_of self.now) (state_of self.now)
            (happening.Finish worker ending) }
    {
        match self.table.end_of(worker, ending) {
            Ok(end) => Some(RunEnd {
                task: end.task.slot,
                run: run_number(end.run, self.taken),
                due: end.due,
                outcome: end.outcome,
            }),
            Err(_) => None,
        }
    }
}

/// The number of a run as a core tells it: it is below the number of events taken.
#[inline(always)]
fn run_number(run: u64, taken: u32) -> u32
    requires { run < taken }
    ensures { result ≡ run }
{
    run as u32
}

/// The end of a run as a table of tasks is told it: the slot of a task has its number.
#[inline(always)]
fn table_end(end: RunEnd) -> task_table::RunEnd
    ensures { result ≡ table_end end }
{
    task_table::RunEnd {
        task: TaskRef {
            number: u64::from(end.task),
            slot: end.task,
        },
        run: u64::from(end.run),
        due: end.due,
        outcome: end.outcome,
    }
}

/// Drops the kept tasks that the next start meets, if it is not refused.
#[inline(always)]
fn drop_met<A: Allocator>(table: &mut PlanTable<A>)
    ensures unkept { AreUnkept table.old table.new }
    ensures steps { (worker : ℕ) → IsFree table.old worker → (calls : List Planned)
        (past : List HistoryEntry) → StandsBefore table.old calls past (happening.Start worker)
        → StandsBefore table.new calls past (happening.Start worker) }
    ensures none { NoneMet table.new }
{
    while table.drop_met().is_some() {}
}
