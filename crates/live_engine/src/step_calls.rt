//! The steps of calls.
ghost use Rattle.std.specs.Prelude.{◌≡◌, ℕ, ◌^◌, ◌<◌, ◌≤◌, IfOk, IfErr};
ghost use Rattle.sched_time.specs.Times.{longest};
ghost use Rattle.call_text.specs.Spelling.{FitsCall, FitsSpans};
ghost use Rattle.call_text.specs.declared.call.CallLine.TheVariants as call;
ghost use Rattle.live_core.specs.Said.{ending};
ghost use Rattle.live_engine.specs.LiveLines.{most_numbers};
ghost use Rattle.live_engine.specs.declared.live_line.LiveLine.TheVariants as l;
ghost use Rattle.live_engine.specs.own.LiveSteps.{IsMeant, TakesLine, Refuses};

use crate::replies::{ask_answer, shutdown_answer, stop_of, submit_answer};
use crate::stops::PieceEnd;
use call_text::CallLine;
use executor_model::{Answer, Kind};
use live_core::ScheduledExecutor;
use sched_time::Which;
use std::alloc::Allocator;

/// So many numbers are given out at most, since a line names a task by 32 bits.
pub(crate) const MOST_NUMBERS: u64 = 1 << 32;

/// A call is made, which is meant as it stands.
pub(crate) fn step_call<A: Allocator>(
    executor: &mut ScheduledExecutor<A>,
    call: CallLine,
) -> Result<Answer, PieceEnd>
    requires fits { FitsCall call }
    requires meant { IsMeant executor.old.count (l.Call call) }
    requires few { executor.old.count ≤ most_numbers }
    ensures takes { IfOk result
        (λ answer. TakesLine executor.old executor.new (l.Call call)
        (ending answer executor.new.ended)) }
    ensures few { executor.new.count ≤ most_numbers }
    ensures refuses { IfErr result (λ end. Refuses end executor.old (l.Call call)) }
{
    match call {
        CallLine::Schedule(delay) => schedule(executor, delay),
        CallLine::Execute => execute(executor),
        CallLine::Rate(first, period) => at_rate(executor, first, period),
        CallLine::Fixed(first, delay) => with_delay(executor, first, delay),
        CallLine::Cancel(task) => cancel(executor, task),
        CallLine::Policy(which, value) => set_policy(executor, which, value),
        CallLine::Shutdown => shut_down(executor),
        CallLine::ShutdownNow => shut_down_now(executor),
        CallLine::Ask => ask(executor),
    }
}

/// A task is submitted for one run.
fn schedule<A: Allocator>(
    executor: &mut ScheduledExecutor<A>,
    delay: u64,
) -> Result<Answer, PieceEnd>
    requires fits { delay ≤ longest }
    requires few { executor.old.count ≤ most_numbers }
    ensures takes { IfOk result
        (λ answer. TakesLine executor.old executor.new (l.Call (call.Schedule delay))
        (ending answer executor.new.ended)) }
    ensures few { executor.new.count ≤ most_numbers }
    ensures refuses { IfErr result
        (λ end. Refuses end executor.old (l.Call (call.Schedule delay))) }
{
    if executor.numbers() >= MOST_NUMBERS {
        return Err(PieceEnd::Full);
    }
    match executor.schedule(0, delay) {
        Ok(submitted) => Ok(submit_answer(submitted, Kind::Schedule)),
        Err(error) => Err(stop_of(error)),
    }
}

/// A task is submitted for one run at once.
fn execute<A: Allocator>(executor: &mut ScheduledExecutor<A>) -> Result<Answer, PieceEnd>
    requires few { executor.old.count ≤ most_numbers }
    ensures takes { IfOk result
        (λ answer. TakesLine executor.old executor.new (l.Call call.Execute)
        (ending answer executor.new.ended)) }
    ensures few { executor.new.count ≤ most_numbers }
    ensures refuses { IfErr result (λ end. Refuses end executor.old (l.Call call.Execute)) }
{
    if executor.numbers() >= MOST_NUMBERS {
        return Err(PieceEnd::Full);
    }
    match executor.execute(0) {
        Ok(submitted) => Ok(submit_answer(submitted, Kind::Schedule)),
        Err(error) => Err(stop_of(error)),
    }
}

/// A task is submitted that runs at a fixed rate.
fn at_rate<A: Allocator>(
    executor: &mut ScheduledExecutor<A>,
    first: u64,
    period: u64,
) -> Result<Answer, PieceEnd>
    requires fits { FitsSpans (first, period) }
    requires few { executor.old.count ≤ most_numbers }
    ensures takes { IfOk result
        (λ answer. TakesLine executor.old executor.new (l.Call (call.Rate first period))
        (ending answer executor.new.ended)) }
    ensures few { executor.new.count ≤ most_numbers }
    ensures refuses { IfErr result
        (λ end. Refuses end executor.old (l.Call (call.Rate first period))) }
{
    if executor.numbers() >= MOST_NUMBERS {
        return Err(PieceEnd::Full);
    }
    match executor.at_rate(0, first, period) {
        Ok(submitted) => Ok(submit_answer(submitted, Kind::Rate)),
        Err(error) => Err(stop_of(error)),
    }
}

/// A task is submitted that runs with a fixed delay.
fn with_delay<A: Allocator>(
    executor: &mut ScheduledExecutor<A>,
    first: u64,
    delay: u64,
) -> Result<Answer, PieceEnd>
    requires fits { FitsSpans (first, delay) }
    requires few { executor.old.count ≤ most_numbers }
    ensures takes { IfOk result
        (λ answer. TakesLine executor.old executor.new (l.Call (call.Fixed first delay))
        (ending answer executor.new.ended)) }
    ensures few { executor.new.count ≤ most_numbers }
    ensures refuses { IfErr result
        (λ end. Refuses end executor.old (l.Call (call.Fixed first delay))) }
{
    if executor.numbers() >= MOST_NUMBERS {
        return Err(PieceEnd::Full);
    }
    match executor.with_delay(0, first, delay) {
        Ok(submitted) => Ok(submit_answer(submitted, Kind::Fixed)),
        Err(error) => Err(stop_of(error)),
    }
}

/// A task is cancelled, whose number was given out.
fn cancel<A: Allocator>(executor: &mut ScheduledExecutor<A>, task: u32) -> Result<Answer, PieceEnd>
    requires given { task < executor.old.count }
    requires few { executor.old.count ≤ most_numbers }
    ensures takes { IfOk result
        (λ answer. TakesLine executor.old executor.new (l.Call (call.Cancel task))
        (ending answer executor.new.ended)) }
    ensures few { executor.new.count ≤ most_numbers }
    ensures refuses { IfErr result (λ end. Refuses end executor.old (l.Call (call.Cancel task))) }
{
    match executor.cancel_number_by_call(0, task as u64) {
        Ok(effect) => Ok(Answer::Cancel { task, effect }),
        Err(error) => Err(stop_of(error)),
    }
}

/// A policy is set.
fn set_policy<A: Allocator>(
    executor: &mut ScheduledExecutor<A>,
    which: Which,
    value: bool,
) -> Result<Answer, PieceEnd>
    requires few { executor.old.count ≤ most_numbers }
    ensures takes { IfOk result
        (λ answer. TakesLine executor.old executor.new (l.Call (call.Policy which value))
        (ending answer executor.new.ended)) }
    ensures few { executor.new.count ≤ most_numbers }
    ensures refuses { IfErr result
        (λ end. Refuses end executor.old (l.Call (call.Policy which value))) }
{
    match executor.set_policy(0, which, value) {
        Ok(()) => Ok(Answer::Policy { which, value }),
        Err(error) => Err(stop_of(error)),
    }
}

/// The executor is shut, in order.
fn shut_down<A: Allocator>(executor: &mut ScheduledExecutor<A>) -> Result<Answer, PieceEnd>
    requires few { executor.old.count ≤ most_numbers }
    ensures takes { IfOk result
        (λ answer. TakesLine executor.old executor.new (l.Call call.Shutdown)
        (ending answer executor.new.ended)) }
    ensures few { executor.new.count ≤ most_numbers }
    ensures refuses { IfErr result (λ end. Refuses end executor.old (l.Call call.Shutdown)) }
{
    match executor.shut_down(0) {
        Ok(is_first) => Ok(shutdown_answer(is_first)),
        Err(error) => Err(stop_of(error)),
    }
}

/// The executor is shut at once.
fn shut_down_now<A: Allocator>(executor: &mut ScheduledExecutor<A>) -> Result<Answer, PieceEnd>
    requires few { executor.old.count ≤ most_numbers }
    ensures takes { IfOk result
        (λ answer. TakesLine executor.old executor.new (l.Call call.ShutdownNow)
        (ending answer executor.new.ended)) }
    ensures few { executor.new.count ≤ most_numbers }
    ensures refuses { IfErr result (λ end. Refuses end executor.old (l.Call call.ShutdownNow)) }
{
    match executor.shut_down_now(0) {
        Ok(()) => Ok(Answer::ShutdownNow),
        Err(error) => Err(stop_of(error)),
    }
}

/// The executor is asked how far it is.
fn ask<A: Allocator>(executor: &mut ScheduledExecutor<A>) -> Result<Answer, PieceEnd>
    requires few { executor.old.count ≤ most_numbers }
    ensures takes { IfOk result
        (λ answer. TakesLine executor.old executor.new (l.Call call.Ask)
        (ending answer executor.new.ended)) }
    ensures few { executor.new.count ≤ most_numbers }
    ensures refuses { IfErr result (λ end. Refuses end executor.old (l.Call call.Ask)) }
{
    match executor.ask(0) {
        Ok(asked) => ask_answer(asked),
        Err(error) => Err(stop_of(error)),
    }
}
