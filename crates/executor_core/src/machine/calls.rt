//! The calls of the plan, as a core makes them.
ghost use Rattle.std.specs.Prelude.{◌≡◌, ℕ, ◌+◌, ◌<◌, ◌≤◌, [], ◌∷◌, length, Some, slice_get, vec_len, vec_capacity};
ghost use Rattle.executor_model.specs.declared.types.Happening.TheVariants as happening;
ghost use Rattle.queue_code.specs.declared.call.CodeCall.TheVariants as call;
ghost use Rattle.queue_code.specs.Calls.{IsOrderly, Planned};
ghost use Rattle.executor_model.specs.Answers.{kind_of};
ghost use Rattle.executor_model.specs.Tasks.{uncancelled_in};

use super::Core;
use executor_model::{Answer, CancelEffect, Kind, Line, Message, Refusal};
use queue_code::CodeCall;
use sched_time::Timing;
use std::alloc::Allocator;

impl<A: Allocator> Core<A> {
    ghost use Rattle.executor_core.specs.CoreView.{Steps, ContinuesAny, Leaves, GivesRoom, IsCounted, room_of};
    ghost use Rattle.executor_core.specs.own.OwnSteps.{Takes};

    /// The next call with its moment, which is not before that of the core, and none after the last one.
    pub(super) fn next_call(&self) -> Option<(u64, CodeCall)>
        ensures call { result ≡ slice_get self.now.calls self.now.made }
        ensures orderly { IsOrderly self.now.calls }
        ensures ahead { (call : Planned) → slice_get self.now.calls self.now.made ≡ Some call
            → self.now.moment ≤ call.0 }
    {
        self.calls.next()
    }

    /// Makes the next call: its line is added, and one for each task that it ends, for which `out` has room.
    ///
    /// A call has to be left, as [`call_need`](Core::call_need) tells at `u64::MAX`.
    pub fn make_call<B: Allocator>(&mut self, out: &mut Vec<Line, B>)
        requires left { self.old.made < length self.old.calls }
        requires room { vec_len out.old + room_of self.old ≤ vec_capacity out.old }
        ensures steps { Steps self.old self.new out.old.items out.new.items (happening.Call ∷ []) }
        ensures history { ContinuesAny self.old self.new out.old.items out.new.items
            happening.Call }
        ensures made { self.new.made ≡ self.old.made + 1 }
        ensures leaves { Leaves self.old self.new (vec_len out.old) (vec_len out.new) }
        ensures room { GivesRoom self.old self.new (vec_len out.old) (vec_len out.new) }
        ensures counted { IsCounted self.old → IsCounted self.new }
        ensures capacity { vec_capacity out.new ≡ vec_capacity out.old }
    {
        let Some((moment, call)) = self.calls.next() else {
            unreachable!()
        };
        let answer = match call {
            CodeCall::SetPolicy { which, value } => {
                return self.set_policy(which, value, out);
            }
            CodeCall::Shutdown => return self.shut_down(out),
            CodeCall::ShutdownNow => return self.shut_down_now(out),
            CodeCall::Submit {
                task,
                timing,
                delay,
            } => self.submit(moment, task, timing, delay),
            CodeCall::Illegal { task } => self.refuse(task),
            CodeCall::Cancel { task } => self.cancel_by_plan(task),
            CodeCall::Ask => self.ask(),
        };
        out.push_reserved(Line::new(self.table.now(), Message::Answer(answer)));
    }

    /// The next call submits a task: it is refused where the executor is shut.
    fn submit(&mut self, moment: u64, task: u32, timing: Timing, delay: u64) -> Answer
        requires { slice_get self.old.calls self.old.made
            ≡ Some (moment, call.Submit task timing delay) }
        ensures step { Takes self.old self.new happening.Call result }
        ensures made { self.new.made ≡ self.old.made + 1 }
        ensures uncancelled { uncancelled_in self.new.tasks ≤ uncancelled_in self.old.tasks }
    {
        self.calls.pass();
        if self.table.is_shut() {
            self.table.refuse(moment);
            return Answer::Refuse {
                task,
                refusal: Refusal::Rejected,
            };
        }
        let kind = kind_of(&timing);
        let due = self
            .table
            .admit(task, u64::from(task), moment, timing, delay);
        Answer::Submit { task, kind, due }
    }

    /// The next call asks for a task with an illegal period.
    fn refuse(&mut self, task: u32) -> Answer
        requires { (at : ℕ)
            × (slice_get self.old.calls self.old.made ≡ Some (at, call.Illegal task)) }
        ensures step { Takes self.old self.new happening.Call result }
        ensures made { self.new.made ≡ self.old.made + 1 }
        ensures uncancelled { uncancelled_in self.new.tasks ≤ uncancelled_in self.old.tasks }
    {
        let at = self.calls.pass();
        self.table.pass(at);
        Answer::Refuse {
            task,
            refusal: Refusal::Illegal,
        }
    }

    /// The next call cancels a task.
    fn cancel_by_plan(&mut self, task: u32) -> Answer
        requires { (at : ℕ)
            × (slice_get self.old.calls self.old.made ≡ Some (at, call.Cancel task)) }
        ensures step { Takes self.old self.new happening.Call result }
        ensures made { self.new.made ≡ self.old.made + 1 }
        ensures uncancelled { uncancelled_in self.new.tasks ≤ uncancelled_in self.old.tasks }
    {
        let at = self.calls.pass();
        if self.table.seat(task).is_none() {
            self.table.pass(at);
            let effect = CancelEffect::Absent;
            return Answer::Cancel { task, effect };
        }
        let effect = self.table.cancel_by_call(at, task);
        Answer::Cancel { task, effect }
    }

    /// The next call asks how far the executor is.
    fn ask(&mut self) -> Answer
        requires { (at : ℕ) × (slice_get self.old.calls self.old.made ≡ Some (at, call.Ask)) }
        ensures step { Takes self.old self.new happening.Call result }
        ensures made { self.new.made ≡ self.old.made + 1 }
        ensures uncancelled { uncancelled_in self.new.tasks ≤ uncancelled_in self.old.tasks }
    {
        let at = self.calls.pass();
        let asked = self.table.ask(at);
        Answer::Ask {
            queue: asked.queue as u32,
            running: asked.running as u32,
            shutdown: asked.shutdown,
            terminated: asked.terminated,
        }
    }
}

/// The kind of a task of this timing.
fn kind_of(timing: &Timing) -> Kind
    ensures { result ≡ kind_of timing.now }
{
    match timing {
        Timing::Once => Kind::Schedule,
        Timing::Rate(_) => Kind::Rate,
        Timing::Fixed(_) => Kind::Fixed,
    }
}
