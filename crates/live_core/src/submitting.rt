//! Submissions that are accepted, and those that are rejected.
ghost use Rattle.std.specs.Prelude.{◌≡◌, ℕ, ◌^◌, ◌<◌, ◌≤◌, ◌+◌, true, false, IfOk, OnOk, OnErr};
ghost use Rattle.sched_time.specs.Times.{longest};
ghost use Rattle.sched_time.specs.declared.timing.Timing as timings;
ghost use Rattle.queue_code.specs.Calls.{IsTimed};
ghost use Rattle.queue_code.specs.declared.call.CodeCall.TheVariants as call;

use crate::answers::Submitted;
use crate::executor::ScheduledExecutor;
use crate::place::place;
use crate::room::make_room;
use sched_time::Timing;
use std::alloc::{AllocError, Allocator};

impl<A: Allocator> ScheduledExecutor<A> {
    ghost use Rattle.live_core.specs.Lives.{Calls, StaysQuiet};
    ghost use Rattle.live_core.specs.Said.{AreTaken, IsSeated, SlotsFor, submit_reply, number_of, has_task};
    ghost use Rattle.live_core.specs.declared.answers.Submitted.TheVariants as submitted;

    /// A call submits a task at this moment, where the executor is not shut.
    #[inline(always)]
    pub(crate) fn accept(
        &mut self,
        moment: u64,
        timing: Timing,
        delay: u64,
    ) -> Result<Submitted, AllocError>
        requires unshut { self.old.table.shut ≡ false }
        requires early { self.old.earliest ≤ moment }
        requires ahead { self.old.table.moment ≤ moment }
        requires limit { moment ≤ longest }
        requires spans { (delay ≤ longest) × IsTimed timing }
        requires few { self.old.count + 1 < 2 ^ 64 }
        ensures number { IfOk result (λ s. number_of s ≡ self.old.count) }
        ensures accepts { IfOk result (λ s. has_task s ≡ true) }
        ensures seated { IfOk result (λ s. IsSeated self.new s) }
        ensures slots { IfOk result (λ s. SlotsFor self.old.table.slots self.new.table.slots s) }
        ensures full { OnErr result (AreTaken self.old.table.slots) }
        ensures stays { OnOk result (StaysQuiet self.old self.new (self.old.count + 1)) }
        ensures made { IfOk result
            (λ s. Calls self.old self.new (moment, call.Submit self.old.count timing delay)
            (submit_reply timing s)) }
        ensures refused { OnErr result (self.new ≡ self.old) }
    {
        make_room(
            &mut self.table,
            &mut self.notes,
            &mut self.ended,
            self.count,
        )?;
        self.accepted += 1;
        let placed = place(
            &mut self.table,
            &mut self.notes,
            &mut self.ended,
            self.count,
            moment,
            timing,
            delay,
        );
        self.count += 1;
        Ok(Submitted::Accepted {
            task: placed.task,
            due: placed.due,
        })
    }

    /// A call submits a task at this moment, where the executor is shut: it is rejected.
    pub(crate) fn reject(&mut self, moment: u64) -> Submitted
        requires shut { self.old.table.shut ≡ true }
        requires early { self.old.earliest ≤ moment }
        requires ahead { self.old.table.moment ≤ moment }
        requires limit { moment ≤ longest }
        requires few { self.old.count + 1 < 2 ^ 64 }
        ensures number { result ≡ submitted.Rejected self.old.count }
        ensures seated { IsSeated self.new result }
        ensures slots { self.new.table.slots ≡ self.old.table.slots }
        ensures stays { StaysQuiet self.old self.new (self.old.count + 1) }
        ensures made { (timing : timings.Timing) (delay : ℕ) → delay ≤ longest → IsTimed timing
            → Calls self.old self.new (moment, call.Submit self.old.count timing delay)
            (submit_reply timing result) }
    {
        let number = self.count;
        self.table.refuse(moment);
        self.ended.clear();
        self.count += 1;
        Submitted::Rejected { number }
    }
}
