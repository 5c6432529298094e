//! What stands on the heap for C: an executor, and the lines that its last event was answered.
ghost use Rattle.std.specs.Prelude.{◌≡◌, ◌+◌, ◌^◌, ◌<◌, ◌≤◌, ◌↔◌, List, [], IfOk, IfErr, IsNone, IsTrue, false, map, slice_get};
ghost use Rattle.executor_core.specs.CoreView.{workers_of, Steps, Stands, Continues, ErrorOnlyCounts};
ghost use Rattle.queue_code.specs.Calls.{task_count};
ghost use Rattle.executor_model.specs.Tasks.{word_of_task};
ghost use Rattle.executor_model.specs.Flows.{part_of};
ghost use Rattle.executor_model.specs.Histories.{HistoryEntry, IsHistoryOf};
ghost use Rattle.sched_engine.specs.Cores.{Opens};
ghost use Rattle.sched_c.specs.Calls.{Refuses};
ghost use Rattle.sched_c.specs.own.Told.{IsToldAs};

use executor_core::Core;
use executor_model::{Event, Line};
use sched_engine::{OpenError, core_of};
use std::alloc::Global;
use std::marker::Model;
use task_word::Word;

/// An executor, and the lines that the last event was answered.
#[derive(Drop)]
pub struct Session {
    core: Core<Global>,
    /// They have room for those of any event, so that no event takes memory.
    lines: Vec<Line, Global>,
}

impl Model for Session {
    ghost use Rattle.std.specs.Prelude.{◌≤◌, vec_capacity};
    ghost use Rattle.executor_core.specs.CoreView.{room_of};
    ghost use Rattle.sched_c.specs.Seen.{Seen};

    ghost Value = { Seen };

    ghost view = { λ s. record { core = s.core; lines = s.lines.items } };

    ghost invariant = { λ s. room_of s.core ≤ vec_capacity s.lines };
}

impl Session {
    /// An executor of the plan that a text writes, before anything happened. It takes all memory that it ever needs.
    pub fn open(
        alloc: Global,
        plan_text: &[u8],
        workers: u32,
        limit: u64,
    ) -> Result<Session, OpenError>
        ensures opens { IfOk result (λ session. Opens session.core plan_text.now workers limit) }
        ensures lines { IfOk result (λ session. session.lines ≡ []) }
        ensures refuses { IfErr result (λ e. Refuses e plan_text.now workers limit) }
    {
        let core = core_of(alloc, plan_text, told_workers(workers), told_limit(limit))?;
        let lines = Vec::with_capacity(alloc, core.room())?;
        Ok(Session { core, lines })
    }

    /// Takes an event: the lines are then those of this event. `false` exactly when as many events were taken as the limit
    /// allows; nothing changes then.
    pub fn take(&mut self, event: Event) -> bool
        ensures full { (result ≡ false) ↔ (self.old.core.taken ≡ self.old.core.limit) }
        ensures refused { result ≡ false → self.new ≡ self.old }
        ensures below { IsTrue result → self.old.core.taken < self.old.core.limit }
        ensures taken { IsTrue result → self.new.core.taken ≡ self.old.core.taken + 1 }
        ensures steps { IsTrue result
            → Steps self.old.core self.new.core [] self.new.lines
            (part_of self.old.core.calls self.old.core.made self.old.core.moment event) }
        ensures errors { IsTrue result
            → ErrorOnlyCounts self.old.core self.new.core [] self.new.lines event }
        ensures history { IsTrue result → (past : List HistoryEntry)
            → IsHistoryOf self.old.core.calls (workers_of self.old.core) past
            → Stands self.old.core past
            → Continues self.old.core self.new.core [] self.new.lines event past }
    {
        if self.core.full() {
            return false;
        }
        self.lines.clear();
        let Ok(()) = self.core.event(event, &mut self.lines) else {
            unreachable!();
        };
        true
    }

    /// The executor.
    pub fn core(&self) -> &Core<Global>
        ensures { result.now ≡ self.now.core }
    {
        &self.core
    }

    /// The lines that the last event was answered; none before the first one.
    pub fn lines(&self) -> &[Line]
        ensures { result.now ≡ self.now.lines }
    {
        &self.lines
    }

    /// How far the task of this number is. `None` exactly when the plan has no task of this number.
    pub fn word(&self, task: u32) -> Option<Word>
        ensures word { result ≡ slice_get (map word_of_task self.now.core.tasks) task }
        ensures none { IsNone result ↔ (task_count self.now.core.calls ≤ task) }
    {
        self.core.words().get(task as usize).copied()
    }
}

/// The number of workers for a core, which refuses 0 as it would one that is too large.
fn told_workers(workers: u32) -> u8
    ensures { IsToldAs 256 workers result }
{
    if workers < 256 { workers as u8 } else { 0 }
}

/// The limit on events for a core, which refuses 0 as it would one that is too large.
fn told_limit(limit: u64) -> u32
    ensures { IsToldAs (2 ^ 32) limit result }
{
    if limit < 1 << 32 { limit as u32 } else { 0 }
}
