//! Purges, which take the tasks out of the queue that were cancelled while they waited.
use crate::executor::ScheduledExecutor;
use crate::sweeps::drop_kept;
use std::alloc::Allocator;

impl<A: Allocator> ScheduledExecutor<A> {
    ghost use Rattle.live_core.specs.Lives.{StaysQuiet};
    ghost use Rattle.live_core.specs.Purges.{Purges};

    /// The tasks that were cancelled while they waited, and are kept in the queue, leave it at once: their slots are empty from now
    /// on. No other task changes.
    ///
    /// It happens at the moment that it is now, whether the executor is shut or not, and is never refused.
    pub fn purge(&mut self)
        ensures purged { Purges self.old self.new }
        ensures stays { StaysQuiet self.old self.new self.old.count }
    {
        self.ended.clear();
        drop_kept(&mut self.table, &mut self.notes);
    }
}
