//! The executor, driven by the lines of a live input.

use super::replies::{ask_answer, finish_answer, shutdown_answer, start_answer, submit_answer};
use call_text::CallLine;
use executor_model::{Answer, Event, Kind, Line};
use live_core::{CallError, ScheduledExecutor, StartError};
use live_engine::LiveLine;
use std::alloc::{Allocator, Global};
use std::test::Fail;

/// What an executor tells of some lines, and `None` where a call among them is refused.
pub fn trace_of_executor(
    alloc: Global,
    workers: u8,
    lines: &[LiveLine],
) -> Result<Option<Vec<Line, Global>>, Fail> {
    let mut executor = ScheduledExecutor::new(alloc, workers)?;
    let mut told = Vec::new(alloc);
    for line in lines {
        let Some(answer) = answer_to(&mut executor, *line)? else {
            return Ok(None);
        };
        executor.add_lines(answer, &mut told)?;
    }
    Ok(Some(told))
}

/// The answer to a line, and `None` where it is a call that is refused. A call that cancels a number not given out is the event.
fn answer_to<A: Allocator>(
    executor: &mut ScheduledExecutor<A>,
    line: LiveLine,
) -> Result<Option<Answer>, Fail> {
    match line {
        LiveLine::Event(event) => Ok(Some(meet(executor, event)?)),
        LiveLine::Call(CallLine::Cancel(task)) if u64::from(task) >= executor.numbers() => {
            Ok(Some(meet(executor, Event::Cancel(task))?))
        }
        LiveLine::Call(call) => match make(executor, call) {
            Ok(answer) => Ok(Some(answer)),
            Err(CallError::Memory) => Err(CallError::Memory.into()),
            Err(_) => Ok(None),
        },
    }
}

/// The answer to an event.
fn meet<A: Allocator>(
    executor: &mut ScheduledExecutor<A>,
    event: Event,
) -> Result<Answer, StartError> {
    match event {
        Event::Clock(moment) => match executor.clock(moment) {
            Ok(()) => Ok(Answer::Clock),
            Err(error) => Ok(Answer::Error(error)),
        },
        Event::Start(worker) => match executor.start(worker) {
            Ok(begun) => Ok(start_answer(worker, begun)),
            Err(StartError::Refused(error)) => Ok(Answer::Error(error)),
            Err(StartError::Full) => Err(StartError::Full),
        },
        Event::Finish(worker, ending) => match executor.finish(worker, ending) {
            Ok(ended) => Ok(finish_answer(worker, ended)),
            Err(error) => Ok(Answer::Error(error)),
        },
        Event::Cancel(task) => match executor.cancel_number(u64::from(task)) {
            Ok(effect) => Ok(Answer::Outside { task, effect }),
            Err(error) => Ok(Answer::Error(error)),
        },
    }
}

/// The answer to a call, which is made as soon as it can be.
fn make<A: Allocator>(
    executor: &mut ScheduledExecutor<A>,
    call: CallLine,
) -> Result<Answer, CallError> {
    match call {
        CallLine::Schedule(delay) => {
            Ok(submit_answer(executor.schedule(0, delay)?, Kind::Schedule))
        }
        CallLine::Execute => Ok(submit_answer(executor.execute(0)?, Kind::Schedule)),
        CallLine::Rate(first, period) => {
            Ok(submit_answer(executor.at_rate(0, first, period)?, Kind::Rate))
        }
        CallLine::Fixed(first, delay) => {
            Ok(submit_answer(executor.with_delay(0, first, delay)?, Kind::Fixed))
        }
        CallLine::Cancel(task) => {
            let effect = executor.cancel_number_by_call(0, u64::from(task))?;
            Ok(Answer::Cancel { task, effect })
        }
        CallLine::Policy(which, value) => {
            executor.set_policy(0, which, value)?;
            Ok(Answer::Policy { which, value })
        }
        CallLine::Shutdown => Ok(shutdown_answer(executor.shut_down(0)?)),
        CallLine::ShutdownNow => {
            executor.shut_down_now(0)?;
            Ok(Answer::ShutdownNow)
        }
        CallLine::Ask => Ok(ask_answer(executor.ask(0)?)),
    }
}
