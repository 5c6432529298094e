//! Cancels, of the plan and from outside.
ghost use Rattle.std.specs.Prelude.{◌≡◌, ◌+◌, ◌≤◌, [], ◌∷◌, true, length, vec_len, vec_capacity};
ghost use Rattle.executor_model.specs.declared.types.Happening.TheVariants as happening;
ghost use Rattle.executor_model.specs.declared.types.Answer.TheVariants as answer;
ghost use Rattle.executor_model.specs.declared.types.CancelEffect.TheVariants as effect;
ghost use Rattle.executor_model.specs.State.{reply_of};
ghost use Rattle.executor_model.specs.Tasks.{uncancelled_in};

use super::Core;
use executor_model::{Answer, CancelEffect, EventError, Line, Message};
use std::alloc::Allocator;

impl<A: Allocator> Core<A> {
    ghost use Rattle.executor_core.specs.CoreView.{Steps, ContinuesAny, Leaves, GivesRoom, IsCounted, room_of, workers_of, state_of};
    ghost use Rattle.executor_core.specs.own.OwnSteps.{Takes};

    /// A task is cancelled from outside the plan. The line is added, for which `out` has room.
    #[inline(always)]
    pub fn cancel<B: Allocator>(&mut self, task: u32, out: &mut Vec<Line, B>)
        requires { vec_len out.old + room_of self.old ≤ vec_capacity out.old }
        ensures steps { Steps self.old self.new out.old.items out.new.items
            (happening.Cancel task ∷ []) }
        ensures history { ContinuesAny self.old self.new out.old.items out.new.items
            (happening.Cancel task) }
        ensures leaves { Leaves self.old self.new (vec_len out.old) (vec_len out.new) }
        ensures effective { (reply_of self.old.calls (workers_of self.old) (state_of self.old)
            (happening.Cancel task)).answer ≡ answer.Outside task effect.Yes
            → GivesRoom self.old self.new (vec_len out.old) (vec_len out.new) }
        ensures counted { IsCounted self.old → IsCounted self.new }
        ensures capacity { vec_capacity out.new ≡ vec_capacity out.old }
    {
        let answer = self.answer_cancel(task);
        out.push_reserved(Line::new(self.table.now(), Message::Answer(answer)));
    }

    /// What a cancel from outside the plan is answered.
    fn answer_cancel(&mut self, task: u32) -> Answer
        ensures step { Takes self.old self.new (happening.Cancel task) result }
        ensures size { length self.new.tasks ≡ length self.old.tasks }
        ensures fewer { result ≡ answer.Outside task effect.Yes
            → uncancelled_in self.new.tasks + 1 ≡ uncancelled_in self.old.tasks }
    {
        if task as usize >= self.table.slots() {
            return Answer::Error(EventError::NoTask);
        }
        if self.table.seat(task).is_none() {
            let effect = CancelEffect::Absent;
            return Answer::Outside { task, effect };
        }
        let effect = self.table.cancel(task);
        Answer::Outside { task, effect }
    }
}
