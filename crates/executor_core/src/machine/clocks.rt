//! Clocks: whether one is accepted, and what it does.
ghost use Rattle.std.specs.Prelude.{◌≡◌, ◌+◌, ◌≤◌, [], ◌∷◌, true, length, vec_len, vec_capacity};
ghost use Rattle.executor_model.specs.declared.types.Happening.TheVariants as happening;
ghost use Rattle.executor_model.specs.Answers.{is_accepted};
ghost use Rattle.executor_model.specs.Histories.{AreMade};

use super::Core;
use executor_model::{Answer, Line, Message};
use std::alloc::Allocator;

impl<A: Allocator> Core<A> {
    ghost use Rattle.executor_core.specs.CoreView.{Steps, ContinuesAny, Leaves, room_of};
    ghost use Rattle.executor_core.specs.own.OwnSteps.{Takes};

    /// The clock shows a moment, in nanoseconds: it is moved there, unless it would go back or pass 2^62. Its line is
    /// added, for which `out` has room.
    ///
    /// Where the clock is moved, no call with a moment of at most this one may be left.
    #[inline(always)]
    pub fn move_clock<B: Allocator>(&mut self, moment: u64, out: &mut Vec<Line, B>)
        requires calls { is_accepted self.old.moment moment ≡ true
            → AreMade self.old.calls self.old.made moment }
        requires room { vec_len out.old + room_of self.old ≤ vec_capacity out.old }
        ensures steps { Steps self.old self.new out.old.items out.new.items
            (happening.Clock moment ∷ []) }
        ensures history { ContinuesAny self.old self.new out.old.items out.new.items
            (happening.Clock moment) }
        ensures leaves { Leaves self.old self.new (vec_len out.old) (vec_len out.new) }
        ensures capacity { vec_capacity out.new ≡ vec_capacity out.old }
    {
        let answer = self.answer_clock(moment);
        out.push_reserved(Line::new(self.table.now(), Message::Answer(answer)));
    }

    /// The clock shows a moment.
    fn answer_clock(&mut self, moment: u64) -> Answer
        requires { is_accepted self.old.moment moment ≡ true
            → AreMade self.old.calls self.old.made moment }
        ensures step { Takes self.old self.new (happening.Clock moment) result }
        ensures size { length self.new.tasks ≡ length self.old.tasks }
    {
        if let Err(error) = self.table.clock(moment) {
            return Answer::Error(error);
        }
        Answer::Clock
    }
}
