//! Questions: how far the executor is.
ghost use Rattle.std.specs.Prelude.{◌≡◌, ◌≤◌, ◌↔◌, count_by, is_some, IsTrue};
ghost use Rattle.queue_code.specs.Calls.{how_many};
ghost use Rattle.queue_code.specs.declared.call.CodeCall.TheVariants as call;
ghost use Rattle.sched_time.specs.Times.{longest};
ghost use Rattle.executor_model.specs.Answers.{bare, is_terminated};
ghost use Rattle.executor_model.specs.declared.types.Answer.TheVariants as answer;
ghost use Rattle.task_table.specs.Changes as changes;

use crate::answers::Asked;
use crate::queues::TaskQueue;
use crate::slots::Slots;
use crate::table::Table;
use std::alloc::Allocator;

impl<S: Slots, Q: TaskQueue, A: Allocator> Table<S, Q, A> {
    ghost use Rattle.task_table.specs.Tables.{CallSteps};
    ghost use Rattle.task_table.specs.Firsts.{queue_in, IsRipe};
    ghost use Rattle.task_table.specs.Formed.{IsFormed};

    /// A call asks, at the moment `at`, how far the executor is.
    pub fn ask(&mut self, at: u64) -> Asked
        requires moment { self.old.moment ≤ at }
        requires limit { at ≤ longest }
        ensures queue { result.queue ≡ queue_in self.old.slots }
        ensures running { result.running ≡ how_many is_some self.old.work }
        ensures shutdown { result.shutdown ≡ self.old.shut }
        ensures terminated { result.terminated
            ≡ is_terminated self.old.shut result.queue result.running }
        ensures slots { self.new ≡ changes.at_moment self.old at }
        ensures steps { CallSteps self.old self.new (at, call.Ask)
            (bare (answer.Ask result.queue result.running result.shutdown result.terminated)) }
    {
        let queue = self.queued();
        let running = self.running();
        let shutdown = self.is_shut();
        let terminated = shutdown && queue == 0 && running == 0;
        self.pass(at);
        Asked {
            queue,
            running,
            shutdown,
            terminated,
        }
    }

    /// Whether some task that waits, or is kept, is due. It looks at the first entry of each queue alone.
    pub fn is_ripe(&self) -> bool
        ensures { IsTrue result ↔ IsRipe self.now }
    {
        let now = self.now();
        match self.first_due() {
            Some(_) => true,
            None => match self.first_kept() {
                Some(kept) => kept.due <= now,
                None => false,
            },
        }
    }

    /// How many tasks wait, or are kept after a cancel.
    fn queued(&self) -> usize
        ensures count { result ≡ queue_in self.now.slots }
        ensures formed { IsFormed self.now }
    {
        self.queue.len() + self.kept.len()
    }

    /// How many tasks have a run under way.
    fn running(&self) -> usize
        ensures { result ≡ count_by is_some self.now.work }
    {
        self.work.iter().filter(|slot| slot.is_some()).count()
    }
}
