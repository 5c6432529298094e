//! One happening of any kind: whether it may come, what it moves of the words, and its step.
ghost use Rattle.std.specs.Prelude.{◌≡◌, ℕ, ◌+◌, ◌≤◌, ◌↔◌, [], ◌∷◌, Some, true, false, IsTrue, vec_len, vec_capacity};
ghost use Rattle.sched_time.specs.declared.timing.Ending.{Ending as EndingOf};
ghost use Rattle.executor_core.specs.declared.foreseen.RunEnd.{RunEnd as RunEndOf};
ghost use Rattle.executor_model.specs.Flows.{happening_of, CallComes, EventComes};
ghost use Rattle.executor_model.specs.Histories.{MayFrom, is_call};
ghost use Rattle.executor_model.specs.Needs.{need_of};
ghost use Rattle.executor_core.specs.Foresight.{foresight};
ghost use Rattle.executor_model.specs.State.{reply_of};
ghost use Rattle.executor_model.specs.declared.types.Happening.TheVariants as h;
ghost use Rattle.executor_model.specs.declared.types.Answer.TheVariants as answer;
ghost use Rattle.executor_model.specs.declared.types.CancelEffect.TheVariants as effect;

use super::Core;
use super::needs::need_of_end;
use crate::foreseen::Foreseen;
use executor_model::{Event, Happening, Line, Need};
use sched_time::LONGEST;
use std::alloc::Allocator;

impl<A: Allocator> Core<A> {
    ghost use Rattle.executor_core.specs.CoreView.{Steps, ContinuesAny, Leaves, GivesRoom, IsCounted, comes_before_event, room_of, workers_of, state_of};
    ghost use Rattle.executor_core.specs.CoreView.{RunsBelowTaken};

    /// Whether a happening may come: a call where one is left, a clock unless it is accepted and reaches a call that is not
    /// made yet, and each other one.
    #[inline(always)]
    pub fn may_come(&self, happening: Happening) -> bool
        ensures { IsTrue result ↔ MayFrom self.now.calls self.now.made self.now.moment happening }
    {
        match happening {
            Happening::Call => self.next_call().is_some(),
            Happening::Clock(moment) => !self.reaches_call(Event::Clock(moment)),
            Happening::Start(_)
            | Happening::Finish(_, _)
            | Happening::Cancel(_)
            | Happening::Purge => true,
        }
    }

    /// Whether a call of the plan comes next, before this event: it is a clock that is accepted, and reaches a call that is not
    /// made yet. Where none does, the event itself [may come](Core::may_come).
    ///
    /// So an event's part is what follows, and cancels of its own that a layer notes may stand between two happenings of it.
    /// Here a clock reaches one call; as long as it reaches one, the next call happens.
    ///
    /// ```rust
    /// let event = Event::Clock(9);
    /// assert!(rt; !core.full());
    /// core.count();
    /// lines.reserve(core.room())?;
    /// assert!(rt; core.reaches_call(event)); // so the call at 3 comes first
    /// assert!(rt; core.may_come(Happening::Call));
    /// core.happen(Happening::Call, &mut lines);
    /// assert!(rt; !core.reaches_call(event)); // so the event comes next
    /// assert!(rt; core.may_come(event.happening()));
    /// ```
    #[inline(always)]
    pub fn reaches_call(&self, event: Event) -> bool
        ensures comes { (result ≡ false)
            ↔ MayFrom self.now.calls self.now.made self.now.moment (happening_of event) }
        ensures call { IsTrue result
            → CallComes self.now.calls self.now.made self.now.moment event }
        ensures event { result ≡ false
            → EventComes self.now.calls self.now.made self.now.moment event }
    {
        let Event::Clock(moment) = event else {
            return false;
        };
        // The next call is not before the moment of the core, so a clock that reaches it does not go back.
        match self.next_call() {
            Some((at, _)) => moment <= LONGEST && at <= moment,
            None => false,
        }
    }

    /// The word moves of a happening; of a call where none is left, `Nothing`.
    #[inline(always)]
    pub fn need(&self, happening: Happening) -> Need
        ensures { result
            ≡ need_of self.now.calls (workers_of self.now) (state_of self.now) happening }
    {
        match happening {
            Happening::Call => match self.next_call() {
                Some((_, call)) => self.need_of_call(call),
                None => Need::Nothing,
            },
            Happening::Clock(_) | Happening::Purge => Need::Nothing,
            Happening::Start(worker) => self.start_need(worker),
            Happening::Finish(worker, ending) => self.finish_need(worker, ending),
            Happening::Cancel(task) => self.cancel_need(task),
        }
    }

    /// What one look tells of a happening, so that a layer that moves words of its own first, and then lets it
    /// [happen](Core::happen_foreseen), has the outcome of a finish worked out once. The end that is told is the one that the finish
    /// is answered.
    #[inline(always)]
    pub fn foresee(&self, happening: Happening) -> Foreseen
        ensures foreseen { result ≡ foresight self.now happening }
        ensures answer { (worker : ℕ) (ending : EndingOf) (end : RunEndOf)
            → happening ≡ h.Finish worker ending → result.end ≡ Some end
            → (reply_of self.now.calls (workers_of self.now) (state_of self.now) happening).answer
            ≡ answer.Finish worker end.task end.run end.outcome }
    {
        if let Happening::Finish(worker, ending) = happening {
            let end = self.run_end(worker, ending);
            return Foreseen {
                happening,
                need: need_of_end(end),
                end,
            };
        }
        Foreseen {
            happening,
            need: self.need(happening),
            end: None,
        }
    }

    /// A happening comes: its line is added, and one for each task that it ends, for which `out` has room.
    ///
    /// It [may come](Core::may_come), and where it is a start, the task that it gets, which [`need`](Core::need) names, has in
    /// [`words`](Core::words) a run below [`taken`](Core::taken), as each task has once the event is [counted](Core::count).
    #[inline(always)]
    pub fn happen<B: Allocator>(&mut self, happening: Happening, out: &mut Vec<Line, B>)
        requires comes { MayFrom self.old.calls self.old.made self.old.moment happening }
        requires counted { RunsBelowTaken self.old
            (need_of self.old.calls (workers_of self.old) (state_of self.old) happening) }
        requires room { vec_len out.old + room_of self.old ≤ vec_capacity out.old }
        ensures steps { Steps self.old self.new out.old.items out.new.items (happening ∷ []) }
        ensures history { ContinuesAny self.old self.new out.old.items out.new.items happening }
        ensures leaves { Leaves self.old self.new (vec_len out.old) (vec_len out.new) }
        ensures call { is_call happening ≡ true
            → GivesRoom self.old self.new (vec_len out.old) (vec_len out.new) }
        ensures effective { (task : ℕ) → happening ≡ h.Cancel task
            → (reply_of self.old.calls (workers_of self.old) (state_of self.old) happening).answer
            ≡ answer.Outside task effect.Yes
            → GivesRoom self.old self.new (vec_len out.old) (vec_len out.new) }
        ensures counted { comes_before_event happening ≡ true → IsCounted self.old
            → IsCounted self.new }
        ensures capacity { vec_capacity out.new ≡ vec_capacity out.old }
    {
        match happening {
            Happening::Call => self.make_call(out),
            Happening::Clock(moment) => self.move_clock(moment, out),
            Happening::Start(worker) => self.start(worker, out),
            Happening::Finish(worker, ending) => self.finish(worker, ending, out),
            Happening::Cancel(task) => self.cancel(task, out),
            Happening::Purge => self.purge(out),
        }
    }

    /// A happening comes, as it was [foreseen](Core::foresee): the core is as it was then. The rest is as with
    /// [`happen`](Core::happen).
    #[inline(always)]
    pub fn happen_foreseen<B: Allocator>(&mut self, foreseen: Foreseen, out: &mut Vec<Line, B>)
        requires foreseen { foreseen ≡ foresight self.old foreseen.happening }
        requires comes { MayFrom self.old.calls self.old.made self.old.moment foreseen.happening }
        requires counted { RunsBelowTaken self.old foreseen.need }
        requires room { vec_len out.old + room_of self.old ≤ vec_capacity out.old }
        ensures steps { Steps self.old self.new out.old.items out.new.items
            (foreseen.happening ∷ []) }
        ensures history { ContinuesAny self.old self.new out.old.items out.new.items
            foreseen.happening }
        ensures leaves { Leaves self.old self.new (vec_len out.old) (vec_len out.new) }
        ensures call { is_call foreseen.happening ≡ true
            → GivesRoom self.old self.new (vec_len out.old) (vec_len out.new) }
        ensures effective { (task : ℕ) → foreseen.happening ≡ h.Cancel task
            → (reply_of self.old.calls (workers_of self.old) (state_of self.old)
            foreseen.happening).answer ≡ answer.Outside task effect.Yes
            → GivesRoom self.old self.new (vec_len out.old) (vec_len out.new) }
        ensures counted { comes_before_event foreseen.happening ≡ true → IsCounted self.old
            → IsCounted self.new }
        ensures capacity { vec_capacity out.new ≡ vec_capacity out.old }
    {
        match foreseen.happening {
            Happening::Call => self.make_call(out),
            Happening::Clock(moment) => self.move_clock(moment, out),
            Happening::Start(worker) => self.start(worker, out),
            Happening::Finish(worker, ending) => self.finish_as(worker, ending, foreseen.end, out),
            Happening::Cancel(task) => self.cancel(task, out),
            Happening::Purge => self.purge(out),
        }
    }
}
