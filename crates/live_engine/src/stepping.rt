//! One line: a step of the executor.
ghost use Rattle.std.specs.Prelude.{◌≡◌, ◌≤◌, ◌⊎◌, [], IfOk, IfErr, OnOk};
ghost use Rattle.live_core.specs.Said.{ending};
ghost use Rattle.live_engine.specs.LiveLines.{FitsLive, IsCallLine, most_numbers};
ghost use Rattle.live_engine.specs.own.LiveSteps.{IsMeant, TakesLine, Refuses};

use crate::live_line::LiveLine;
use crate::step_calls::step_call;
use crate::step_events::step_event;
use crate::stops::PieceEnd;
use executor_model::Answer;
use live_core::ScheduledExecutor;
use std::alloc::Allocator;

/// The executor takes a line that is meant as it stands; calls alone end tasks by a sweep. Where it does not take it, the answer is
/// why.
pub(crate) fn step<A: Allocator>(
    executor: &mut ScheduledExecutor<A>,
    line: LiveLine,
) -> Result<Answer, PieceEnd>
    requires fits { FitsLive line }
    requires meant { IsMeant executor.old.count line }
    requires few { executor.old.count ≤ most_numbers }
    ensures takes { IfOk result
        (λ answer. TakesLine executor.old executor.new line (ending answer executor.new.ended)) }
    ensures few { executor.new.count ≤ most_numbers }
    ensures ended { OnOk result ((executor.new.ended ≡ []) ⊎ IsCallLine line) }
    ensures refuses { IfErr result (λ end. Refuses end executor.old line) }
{
    match line {
        LiveLine::Event(event) => step_event(executor, event),
        LiveLine::Call(call) => step_call(executor, call),
    }
}
