//! A purge, which takes the kept tasks out of the queue.
ghost use Rattle.std.specs.Prelude.{◌≡◌, ◌+◌, ◌≤◌, [], ◌∷◌, length, vec_len, vec_capacity};
ghost use Rattle.executor_model.specs.declared.types.Happening.TheVariants as happening;
ghost use Rattle.executor_model.specs.declared.types.Answer.TheVariants as answer;

use super::Core;
use super::sweeps::drop_kept;
use executor_model::{Answer, Line, Message};
use std::alloc::Allocator;

impl<A: Allocator> Core<A> {
    ghost use Rattle.executor_core.specs.CoreView.{Steps, ContinuesAny, Leaves, IsCounted, room_of};
    ghost use Rattle.executor_core.specs.own.OwnSteps.{Takes};

    /// The tasks that were cancelled while they waited, and are kept, leave the queue. The line is added, for which `out` has room.
    pub fn purge<B: Allocator>(&mut self, out: &mut Vec<Line, B>)
        requires { vec_len out.old + room_of self.old ≤ vec_capacity out.old }
        ensures steps { Steps self.old self.new out.old.items out.new.items
            (happening.Purge ∷ []) }
        ensures history { ContinuesAny self.old self.new out.old.items out.new.items
            happening.Purge }
        ensures leaves { Leaves self.old self.new (vec_len out.old) (vec_len out.new) }
        ensures counted { IsCounted self.old → IsCounted self.new }
        ensures capacity { vec_capacity out.new ≡ vec_capacity out.old }
    {
        self.take_out_kept();
        out.push_reserved(Line::new(self.table.now(), Message::Answer(Answer::Purge)));
    }

    /// Takes the kept tasks out of the queue.
    fn take_out_kept(&mut self)
        ensures step { Takes self.old self.new happening.Purge answer.Purge }
        ensures size { length self.new.tasks ≡ length self.old.tasks }
    {
        drop_kept(&mut self.table);
    }
}
