//! Policies, the shutdowns, and the sweep that they make.
ghost use Rattle.std.specs.Prelude.{◌≡◌, ℕ, ◌+◌, ◌≤◌, List, [], ◌∷◌, ◌++◌, length, map, Some, slice_get, true, false, vec_len, vec_capacity};
ghost use Rattle.executor_model.specs.declared.types.Happening.TheVariants as happening;
ghost use Rattle.executor_model.specs.declared.types.Answer.TheVariants as answer;
ghost use Rattle.executor_model.specs.Answers.{bare};
ghost use Rattle.queue_code.specs.declared.call.CodeCall.TheVariants as call;
ghost use Rattle.queue_code.specs.Calls.{Planned, task_count};
ghost use Rattle.executor_model.specs.Histories.{HistoryEntry};
ghost use Rattle.executor_model.specs.Flows.{end_line};
ghost use Rattle.executor_model.specs.Tasks.{uncancelled_in};
ghost use Rattle.task_table.specs.Tables.{IsNextCall, StandsBefore, EventStepsBefore};
ghost use Rattle.task_table.specs.Firsts.{NoneKept};
ghost use Rattle.task_table.specs.Ends.{sweeps_at, ends_at_slot};
ghost use Rattle.task_table.specs.Changes.{after_sweep};
ghost use Rattle.executor_core.specs.plan_table.Numbered.{tasks_at};
ghost use Rattle.executor_core.specs.own.OwnSteps.{AreUnkept, NoneWaitsDelayed, swept_slots};

use super::Core;
use crate::plan_table::PlanTable;
use executor_model::{Answer, Line, Message};
use sched_time::Which;
use std::alloc::Allocator;

impl<A: Allocator> Core<A> {
    ghost use Rattle.executor_core.specs.CoreView.{Steps, room_of};

    /// The next call sets a policy.
    #[cold]
    pub(super) fn set_policy<B: Allocator>(
        &mut self,
        which: Which,
        value: bool,
        out: &mut Vec<Line, B>,
    )
        requires call { (at : ℕ)
            × (slice_get self.old.calls self.old.made ≡ Some (at, call.SetPolicy which value)) }
        requires room { vec_len out.old + room_of self.old ≤ vec_capacity out.old }
        ensures steps { Steps self.old self.new out.old.items out.new.items (happening.Call ∷ []) }
        ensures made { self.new.made ≡ self.old.made + 1 }
        ensures taken { self.new.taken ≡ self.old.taken }
        ensures tasks { length self.new.tasks ≡ task_count self.new.calls }
        ensures room { vec_len out.new + room_of self.new ≤ vec_len out.old + room_of self.old }
        ensures capacity { vec_capacity out.new ≡ vec_capacity out.old }
    {
        let at = self.calls.pass();
        let still = !self.table.setting_sweeps(which, value);
        if still {
            self.table.set(at, which, value);
            out.push_reserved(Line::new(at, Message::Answer(Answer::Policy { which, value })));
            return;
        }
        drop_kept(&mut self.table);
        self.table.set(at, which, value);
        out.push_reserved(Line::new(at, Message::Answer(Answer::Policy { which, value })));
        self.sought = sweep(&mut self.table, self.sought, out);
    }

    /// The next call is a shutdown.
    #[cold]
    pub(super) fn shut_down<B: Allocator>(&mut self, out: &mut Vec<Line, B>)
        requires call { (at : ℕ)
            × (slice_get self.old.calls self.old.made ≡ Some (at, call.Shutdown)) }
        requires room { vec_len out.old + room_of self.old ≤ vec_capacity out.old }
        ensures steps { Steps self.old self.new out.old.items out.new.items (happening.Call ∷ []) }
        ensures made { self.new.made ≡ self.old.made + 1 }
        ensures taken { self.new.taken ≡ self.old.taken }
        ensures tasks { length self.new.tasks ≡ task_count self.new.calls }
        ensures room { vec_len out.new + room_of self.new ≤ vec_len out.old + room_of self.old }
        ensures capacity { vec_capacity out.new ≡ vec_capacity out.old }
    {
        let at = self.calls.pass();
        if self.table.is_shut() {
            self.table.pass(at);
            out.push_reserved(Line::new(at, Message::Answer(Answer::ShutdownAgain)));
            return;
        }
        drop_kept(&mut self.table);
        self.table.shut_at(at);
        out.push_reserved(Line::new(at, Message::Answer(Answer::Shutdown)));
        self.sought = sweep(&mut self.table, self.sought, out);
    }

    /// The next call is a shutdown at once.
    #[cold]
    pub(super) fn shut_down_now<B: Allocator>(&mut self, out: &mut Vec<Line, B>)
        requires call { (at : ℕ)
            × (slice_get self.old.calls self.old.made ≡ Some (at, call.ShutdownNow)) }
        requires room { vec_len out.old + room_of self.old ≤ vec_capacity out.old }
        ensures steps { Steps self.old self.new out.old.items out.new.items (happening.Call ∷ []) }
        ensures made { self.new.made ≡ self.old.made + 1 }
        ensures taken { self.new.taken ≡ self.old.taken }
        ensures tasks { length self.new.tasks ≡ task_count self.new.calls }
        ensures room { vec_len out.new + room_of self.new ≤ vec_len out.old + room_of self.old }
        ensures capacity { vec_capacity out.new ≡ vec_capacity out.old }
    {
        let at = self.calls.pass();
        drop_kept(&mut self.table);
        self.table.stop_at(at);
        out.push_reserved(Line::new(at, Message::Answer(Answer::ShutdownNow)));
        self.sought = sweep(&mut self.table, self.sought, out);
    }
}

/// Ends what a sweep under the present policies ends, a line for each. The answer says whether no delayed task waits from then on,
/// as `sought` says it of the table before.
fn sweep<A: Allocator, B: Allocator>(
    table: &mut PlanTable<A>,
    sought: bool,
    out: &mut Vec<Line, B>,
) -> bool
    requires few { length table.old.slots ≤ 65536 }
    requires room { vec_len out.old + uncancelled_in (tasks_at table.old.slots) ≤ vec_capacity out.old }
    requires sought { sought ≡ true → NoneWaitsDelayed table.old }
    ensures swept { table.new ≡ after_sweep table.old }
    ensures lines { out.new.items ≡ out.old.items ++ map (end_line table.old.moment) (swept_slots table.old) }
    ensures sought { result ≡ true → NoneWaitsDelayed table.new }
    ensures room { vec_len out.new + uncancelled_in (tasks_at table.new.slots)
        ≡ vec_len out.old + uncancelled_in (tasks_at table.old.slots) }
    ensures capacity { vec_capacity out.new ≡ vec_capacity out.old }
{
    if !may_end(table, sought) {
        return sought;
    }
    end_tasks(table, out);
    sought || !table.policies().executes
}

/// Whether there may be a task that a sweep ends.
fn may_end<A: Allocator>(table: &PlanTable<A>, sought: bool) -> bool
    requires { sought ≡ true → NoneWaitsDelayed table.now }
    ensures { result ≡ false → (i : ℕ) → ends_at_slot table.now i ≡ false }
{
    if table.is_stopped() {
        return table.next_due().is_some();
    }
    let policies = table.policies();
    (!policies.continues && table.stored().periodic() > 0) || (!policies.executes && !sought)
}

/// Ends each task that a sweep ends, in ascending number.
fn end_tasks<A: Allocator, B: Allocator>(table: &mut PlanTable<A>, out: &mut Vec<Line, B>)
    requires few { length table.old.slots ≤ 65536 }
    requires room { vec_len out.old + uncancelled_in (tasks_at table.old.slots) ≤ vec_capacity out.old }
    ensures swept { table.new ≡ after_sweep table.old }
    ensures lines { out.new.items ≡ out.old.items ++ map (end_line table.old.moment) (swept_slots table.old) }
    ensures room { vec_len out.new + uncancelled_in (tasks_at table.new.slots)
        ≡ vec_len out.old + uncancelled_in (tasks_at table.old.slots) }
    ensures capacity { vec_capacity out.new ≡ vec_capacity out.old }
{
    let mut task = 0;
    while (task as usize) < table.slots() {
        if table.sweep_slot(task) {
            out.push_reserved(Line::new(table.now(), Message::End(task)));
        }
        task += 1;
    }
}

/// Drops the kept tasks from the queue, before a call that sweeps, or of a purge.
pub(super) fn drop_kept<A: Allocator>(table: &mut PlanTable<A>)
    ensures unkept { AreUnkept table.old table.new }
    ensures steps { (calls : List Planned) (past : List HistoryEntry) (p : Planned)
        → IsNextCall calls past p → sweeps_at table.old.shut p.1 ≡ true
        → StandsBefore table.old calls past happening.Call
        → StandsBefore table.new calls past happening.Call }
    ensures purges { EventStepsBefore table.old table.new happening.Purge (bare answer.Purge) }
    ensures none { NoneKept table.new }
{
    while table.drop_kept().is_some() {}
}
