//! What is so of all timers, in a function that does nothing: it ensures a law.
ghost use Rattle.std.specs.Prelude.{ℕ, List};
ghost use Rattle.live_core.specs.Snapshots.{IsSound};
ghost use Rattle.timers.specs.Timers.{WereGiven};

use crate::timers::Timers;
use live_core::each_executor_is_sound;
use std::alloc::Allocator;

/// The executor of all timers is sound, and some data were given, one with each submission. So what a clause says for whatever was
/// given so far is said of some.
pub fn all_timers_are_sound<A: Allocator>(timers: &Timers<A>)
    ensures sound { IsSound timers.now.live }
    ensures given { (given : List ℕ) × WereGiven timers.now given }
{
    each_executor_is_sound(&timers.executor);
}
