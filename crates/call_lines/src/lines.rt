//! The lines of the last call, one at a time: they stand nowhere.
ghost use Rattle.std.specs.Prelude.{◌≡◌, ◌<◌, true, length, map, is_some, slice_get, IfSome};
ghost use Rattle.std.specs.List.{list_all};
ghost use Rattle.executor_model.specs.Flows.{end_line};
ghost use Rattle.executor_model.specs.declared.types.Answer.TheVariants as answer;
ghost use Rattle.executor_model.specs.declared.types.Message.TheVariants as message;
ghost use Rattle.task_table.specs.Endings.{numbers_of};
ghost use Rattle.live_core.specs.Lined as lined;
ghost use Rattle.call_lines.specs.Narrow as narrows;
ghost use Rattle.call_lines.specs.Narrow.{are_spelled, is_told};
ghost use Rattle.call_lines.specs.Lasts.{answer_of, lines_of_last, said_lines};

use crate::last::Last;
use crate::said::Said;
use executor_model::{Answer, Line, Message, Refusal};
use live_core::TaskRef;

/// How many lines there are of the last call, where these tasks were ended.
pub fn line_count(last: Last, moment: u64, ended: &[TaskRef]) -> usize
    ensures { result ≡ length (lines_of_last last moment ended.now) }
{
    match last {
        Last::Nothing => 0,
        Last::Clock { .. } => 1,
        Last::Call { .. } => 1 + ended.len(),
        Last::Event { .. } => 2 + ended.len(),
    }
}

/// Whether the lines have room for each number.
pub fn all_spelled(last: Last, moment: u64, ended: &[TaskRef]) -> bool
    ensures { result ≡ are_spelled (lines_of_last last moment ended.now) }
{
    match last {
        Last::Nothing | Last::Clock { .. } => true,
        Last::Call { said } | Last::Event { said, .. } => {
            answer_in(said).is_some() && all_narrow(ended, moment)
        }
    }
}

/// Whether the lines of tasks that were ended have room for their numbers.
fn all_narrow(ended: &[TaskRef], moment: u64) -> bool
    ensures { result ≡ are_spelled (map (end_line moment) (numbers_of ended.now)) }
{
    are_narrow(ended)
}

/// Whether a line has room for the number of each of these tasks.
fn are_narrow(tasks: &[TaskRef]) -> bool
    ensures { result ≡ lined.are_spelled tasks.now }
{
    tasks.iter().all(|task| is_narrow(*task))
}

/// Whether a line has room for the number of a task.
fn is_narrow(task: TaskRef) -> bool
    ensures { result ≡ lined.is_spelled task }
{
    task.number < 1 << 32
}

/// The line at a place, from 0 on, and `None` behind the last one.
pub fn line_at(last: Last, moment: u64, ended: &[TaskRef], place: usize) -> Option<Line>
    requires { are_spelled (lines_of_last last moment ended.now) ≡ true }
    ensures { result ≡ slice_get (lines_of_last last moment ended.now) place }
{
    match last {
        Last::Nothing => None,
        Last::Clock { moment } if place == 0 => Some(clock_line(moment)),
        Last::Clock { .. } => None,
        Last::Call { said } => said_line(said, moment, ended, place),
        Last::Event { moment, .. } if place == 0 => Some(clock_line(moment)),
        Last::Event { said, .. } => said_line(said, moment, ended, place - 1),
    }
}

/// The line of a clock that shows a moment.
fn clock_line(moment: u64) -> Line
    ensures { result ≡ record { moment = moment; message = message.Answer answer.Clock } }
{
    let message = Message::Answer(Answer::Clock);
    Line::new(moment, message)
}

/// The line at a place of those behind that of the clock: the answer, and then the tasks that were ended.
fn said_line(said: Said, moment: u64, ended: &[TaskRef], place: usize) -> Option<Line>
    requires { are_spelled (said_lines said moment ended.now) ≡ true }
    ensures { result ≡ slice_get (said_lines said moment ended.now) place }
{
    let answer = answer_in(said)?;
    if place == 0 {
        let message = Message::Answer(answer);
        return Some(Line::new(moment, message));
    }
    end_line_at(moment, ended, place - 1)
}

/// The line of the task at a place of those that were ended.
fn end_line_at(moment: u64, ended: &[TaskRef], place: usize) -> Option<Line>
    requires { are_spelled (map (end_line moment) (numbers_of ended.now)) ≡ true }
    ensures { result ≡ slice_get (map (end_line moment) (numbers_of ended.now)) place }
{
    let Some(task) = ended.get(place) else {
        return None;
    };
    let message = Message::End(task.number as u32);
    Some(Line::new(moment, message))
}

/// The answer of a line, and `None` where it has no room for a number.
fn answer_in(said: Said) -> Option<Answer>
    ensures there { IfSome result (λ answer. answer ≡ answer_of said) }
    ensures told { is_some result ≡ is_told (answer_of said) }
{
    Some(match said {
        Said::Submit { task, kind, due } => Answer::Submit {
            task: narrow(task)?,
            kind,
            due,
        },
        Said::Reject { task } => Answer::Refuse {
            task: narrow(task)?,
            refusal: Refusal::Rejected,
        },
        Said::Outside { task, effect } => Answer::Outside {
            task: narrow(task)?,
            effect,
        },
        Said::Purge => Answer::Purge,
        Said::Policy { which, value } => Answer::Policy { which, value },
        Said::Shutdown { first: true } => Answer::Shutdown,
        Said::Shutdown { first: false } => Answer::ShutdownAgain,
        Said::ShutdownNow => Answer::ShutdownNow,
        Said::Ask(asked) => Answer::Ask {
            queue: narrow(asked.queue as u64)?,
            running: narrow(asked.running as u64)?,
            shutdown: asked.shutdown,
            terminated: asked.terminated,
        },
        Said::Start {
            worker,
            task,
            run,
            due,
        } => Answer::Start {
            worker,
            task: narrow(task)?,
            run,
            due,
        },
        Said::Idle { worker } => Answer::Idle { worker },
        Said::Finish {
            worker,
            task,
            run,
            outcome,
        } => Answer::Finish {
            worker,
            task: narrow(task)?,
            run,
            outcome,
        },
    })
}

/// A number with 32 bits, where it has no more.
fn narrow(number: u64) -> Option<u32>
    ensures there { IfSome result (λ n. n ≡ number) }
    ensures narrow { is_some result ≡ narrows.is_narrow number }
{
    if number < 1 << 32 {
        Some(number as u32)
    } else {
        None
    }
}
