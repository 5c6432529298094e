//! The steps of events.
ghost use Rattle.std.specs.Prelude.{◌≡◌, ◌≤◌, [], IfOk, IfErr, OnOk};
ghost use Rattle.executor_model.specs.declared.types.Event.TheVariants as v;
ghost use Rattle.live_core.specs.Said as said;
ghost use Rattle.live_core.specs.Said.{ending};
ghost use Rattle.live_engine.specs.LiveLines.{most_numbers};
ghost use Rattle.live_engine.specs.declared.live_line.LiveLine.TheVariants as l;
ghost use Rattle.live_engine.specs.own.LiveSteps.{TakesLine, Refuses};

use crate::replies::{finish_answer, start_answer};
use crate::stops::PieceEnd;
use executor_model::{Answer, Event};
use live_core::{ScheduledExecutor, StartError};
use sched_time::Ending;
use std::alloc::Allocator;

/// An event comes.
pub(crate) fn step_event<A: Allocator>(
    executor: &mut ScheduledExecutor<A>,
    event: Event,
) -> Result<Answer, PieceEnd>
    requires few { executor.old.count ≤ most_numbers }
    ensures takes { IfOk result
        (λ answer. TakesLine executor.old executor.new (l.Event event)
        (ending answer executor.new.ended)) }
    ensures few { executor.new.count ≤ most_numbers }
    ensures ended { OnOk result (executor.new.ended ≡ []) }
    ensures refuses { IfErr result (λ end. Refuses end executor.old (l.Event event)) }
{
    match event {
        Event::Clock(moment) => Ok(clock(executor, moment)),
        Event::Start(worker) => start(executor, worker),
        Event::Finish(worker, ending) => Ok(finish(executor, worker, ending)),
        Event::Cancel(task) => Ok(cancel(executor, task)),
    }
}

/// The clock shows a moment.
fn clock<A: Allocator>(executor: &mut ScheduledExecutor<A>, moment: u64) -> Answer
    ensures takes { TakesLine executor.old executor.new (l.Event (v.Clock moment))
        (ending result executor.new.ended) }
    ensures few { executor.new.count ≡ executor.old.count }
    ensures ended { executor.new.ended ≡ [] }
{
    match executor.clock(moment) {
        Ok(()) => Answer::Clock,
        Err(error) => Answer::Error(error),
    }
}

/// A worker asks for work.
fn start<A: Allocator>(executor: &mut ScheduledExecutor<A>, worker: u8) -> Result<Answer, PieceEnd>
    requires few { executor.old.count ≤ most_numbers }
    ensures takes { IfOk result
        (λ answer. TakesLine executor.old executor.new (l.Event (v.Start worker))
        (ending answer executor.new.ended)) }
    ensures few { executor.new.count ≡ executor.old.count }
    ensures ended { OnOk result (executor.new.ended ≡ []) }
    ensures refuses { IfErr result (λ end. Refuses end executor.old (l.Event (v.Start worker))) }
{
    match executor.start(worker) {
        Ok(begun) => Ok(start_answer(worker, begun)),
        Err(StartError::Refused(error)) => Ok(Answer::Error(error)),
        Err(StartError::Full) => Err(PieceEnd::Full),
    }
}

/// The run of a worker ended.
fn finish<A: Allocator>(executor: &mut ScheduledExecutor<A>, worker: u8, ending: Ending) -> Answer
    requires few { executor.old.count ≤ most_numbers }
    ensures takes { TakesLine executor.old executor.new (l.Event (v.Finish worker ending))
        (said.ending result executor.new.ended) }
    ensures few { executor.new.count ≡ executor.old.count }
    ensures ended { executor.new.ended ≡ [] }
{
    match executor.finish(worker, ending) {
        Ok(ended) => finish_answer(worker, ended),
        Err(error) => Answer::Error(error),
    }
}

/// A task is cancelled from outside.
fn cancel<A: Allocator>(executor: &mut ScheduledExecutor<A>, task: u32) -> Answer
    ensures takes { TakesLine executor.old executor.new (l.Event (v.Cancel task))
        (ending result executor.new.ended) }
    ensures few { executor.new.count ≡ executor.old.count }
    ensures ended { executor.new.ended ≡ [] }
{
    match executor.cancel_number(task as u64) {
        Ok(effect) => Answer::Outside { task, effect },
        Err(error) => Answer::Error(error),
    }
}
