//! What is found of a text by a slow program, which follows the definitions word by word: the text is cut at its newlines,
//! and for each number of its lines all representatives are answered from the beginning, by the plain executor.
ghost use Rattle.queue_code.specs.Calls.{IsPlanned};

use executor_model::{Answer, EventError, Happening, Line, Message, Outcome};
use executor_plain::trace_of_happenings;
use queue_code::CodeCall;
use sched_time::{Ending, LONGEST};
use std::alloc::{AllocError, Global};
use trace_check::Finding;
use trace_text::read_line;

/// What is found of a text: the least number of lines that do not go, and whether all is there.
pub fn plain_finding(
    alloc: Global,
    calls: &[(u64, CodeCall)],
    workers: u8,
    text: &[u8],
) -> Result<Finding, AllocError>
    requires { IsPlanned calls.now }
{
    let (lines, is_whole) = lines_in_front(alloc, text)?;
    let mut owed = 0;
    let mut number = 1u64;
    for at in 0..lines.len() {
        match owed_after(alloc, calls, workers, &lines[..at + 1])? {
            Some(more) => owed = more,
            None => return Ok(Finding::Breaks(number)),
        }
        number = number.saturating_add(1);
    }
    if is_whole && owed == 0 {
        return Ok(Finding::Conforms);
    }
    Ok(Finding::Breaks(number))
}

/// The lines in front of a text, which is cut at its newlines, and whether nothing follows them.
fn lines_in_front(alloc: Global, text: &[u8]) -> Result<(Vec<Line>, bool), AllocError> {
    let mut lines = Vec::new(alloc);
    let mut piece = Vec::new(alloc);
    for code in text {
        piece.push(*code)?;
        if *code == b'\n' {
            let Some(line) = read_line(&piece) else {
                return Ok((lines, false));
            };
            lines.push(line)?;
            piece.clear();
        }
    }
    Ok((lines, piece.is_empty()))
}

/// How many lines are still to come after these, where they go.
fn owed_after(
    alloc: Global,
    calls: &[(u64, CodeCall)],
    workers: u8,
    lines: &[Line],
) -> Result<Option<usize>, AllocError>
    requires { IsPlanned calls.now }
{
    let mut happened = Vec::new(alloc);
    if !happen_plainly(calls, workers, lines, &mut happened)? {
        return Ok(None);
    }
    let trace = trace_of_happenings(alloc, calls, workers, &happened)?;
    Ok(trace.strip_prefix(lines).map(|rest| rest.len()))
}

/// Adds the representatives of lines, and answers whether each line that needs one has one, which may come.
fn happen_plainly(
    calls: &[(u64, CodeCall)],
    workers: u8,
    lines: &[Line],
    happened: &mut Vec<Happening>,
) -> Result<bool, AllocError> {
    for i in 0..lines.len() {
        let Message::Answer(answer) = lines[i].message() else {
            continue;
        };
        let Some(happening) = plain_happening(workers, &lines[..i], lines[i].moment(), answer)
        else {
            return Ok(false);
        };
        if !may_come(calls, happened, happening) {
            return Ok(false);
        }
        happened.push(happening)?;
    }
    Ok(true)
}

/// The representative of an answer at a moment, behind these lines.
fn plain_happening(workers: u8, before: &[Line], moment: u64, answer: Answer) -> Option<Happening> {
    Some(match answer {
        Answer::Submit { .. } | Answer::Refuse { .. } | Answer::Cancel { .. } => Happening::Call,
        Answer::Policy { .. } => Happening::Call,
        Answer::Shutdown | Answer::ShutdownAgain | Answer::ShutdownNow => Happening::Call,
        Answer::Ask { .. } => Happening::Call,
        Answer::Clock => Happening::Clock(moment),
        Answer::Start { worker, .. } | Answer::Idle { worker } => Happening::Start(worker),
        Answer::Finish {
            worker,
            outcome,
            ..
        } => Happening::Finish(worker, ending_of(outcome)),
        Answer::Outside { task, .. } => Happening::Cancel(task),
        Answer::Purge => Happening::Purge,
        Answer::Error(EventError::Backward) => Happening::Clock(0),
        Answer::Error(EventError::TooFar) => Happening::Clock(LONGEST + 1),
        Answer::Error(EventError::NoWorker) => Happening::Start(255),
        Answer::Error(EventError::NoTask) => Happening::Cancel(4_294_967_295),
        Answer::Error(EventError::Busy) => Happening::Start(first_worker(workers, before, true)?),
        Answer::Error(EventError::NotRunning) => {
            Happening::Finish(first_worker(workers, before, false)?, Ending::Value(0))
        }
    })
}

/// The ending of a run in the representative of its line.
fn ending_of(outcome: Outcome) -> Ending {
    match outcome {
        Outcome::Done(value) => Ending::Value(value),
        Outcome::Failed(code) => Ending::Fault(code),
        _ => Ending::Value(0),
    }
}

/// The worker of least number that is busy by the lines, or that is not.
fn first_worker(workers: u8, before: &[Line], wanted: bool) -> Option<u8> {
    (0..workers).find(|worker| is_busy(before, *worker) == wanted)
}

/// Whether a worker is busy by the lines: it started a run, and has not finished it.
fn is_busy(before: &[Line], asked: u8) -> bool {
    let mut is_busy = false;
    for line in before {
        match line.message() {
            Message::Answer(Answer::Start { worker, .. }) if worker == asked => is_busy = true,
            Message::Answer(Answer::Finish { worker, .. }) if worker == asked => is_busy = false,
            _ => {}
        }
    }
    is_busy
}

/// Whether a happening may come after others: a call where one is left, and an accepted clock where no call that it
/// reaches is left.
fn may_come(calls: &[(u64, CodeCall)], happened: &[Happening], happening: Happening) -> bool {
    let made = made(happened);
    match happening {
        Happening::Call => made < calls.len(),
        Happening::Clock(moment) if is_accepted(now(calls, happened), moment) => {
            calls.iter().skip(made).all(|call| moment < call.0)
        }
        _ => true,
    }
}

/// Whether a clock that shows a moment is accepted.
fn is_accepted(now: u64, moment: u64) -> bool {
    now <= moment && moment <= LONGEST
}

/// How many calls were made.
fn made(happened: &[Happening]) -> usize {
    happened
        .iter()
        .filter(|happening| matches!(happening, Happening::Call))
        .count()
}

/// The greatest moment of the calls made and of the accepted clocks.
fn now(calls: &[(u64, CodeCall)], happened: &[Happening]) -> u64 {
    let mut made = 0usize;
    let mut now = 0;
    for happening in happened {
        match happening {
            Happening::Call => {
                now = calls.get(made).map_or(now, |call| call.0.max(now));
                made = made.saturating_add(1);
            }
            Happening::Clock(moment) if is_accepted(now, *moment) => now = *moment,
            _ => {}
        }
    }
    now
}
