//! The lines of the tasks that a shutdown ends, orderly or at once.
use super::calls::{core_over, instrs_of};
use super::lines_of;
use executor_model::{Answer, Event, Line, Message};
use queue_code::Instr;
use std::alloc::{AllocGlobal, Global};
use std::process::Abort;
use std::test::Fail;

/// A plan of 1,000 tasks at a fixed rate, and then these calls.
fn plan_of_thousand(alloc: Global, last: &str) -> Result<Vec<Instr>, Fail> {
    let mut instrs = Vec::with_capacity(alloc, 1_002)?;
    for _ in 0..1_000 {
        instrs.extend_from_slice(&instrs_of(alloc, "rate 0 5 9")?)?;
    }
    instrs.extend_from_slice(&instrs_of(alloc, last)?)?;
    Ok(instrs)
}

/// Whether a line says this, at moment 3.
fn line_says(line: Option<&Line>, message: Message) -> bool {
    match line {
        Some(line) => line.moment() == 3 && line.message() == message,
        None => false,
    }
}

/// What is told of a question behind the shutdown.
const ASKED: Answer = Answer::Ask {
    queue: 0,
    running: 0,
    shutdown: true,
    terminated: true,
};

/// Checks the lines of a thousand tasks that end behind this answer, and of the calls before and behind them.
fn thousand_end(rt: &impl Abort, lines: &[Line], answer: Answer) {
    assert!(rt; lines.len() == 2_003);
    assert!(rt; line_says(lines.get(1_000), Message::Answer(answer)));
    for task in 0..1_000u32 {
        let line = lines.get(1_001 + task as usize);
        assert!(rt; line_says(line, Message::End(task)), "{task}");
    }
    assert!(rt; line_says(lines.get(2_001), Message::Answer(ASKED)));
    assert!(rt; line_says(lines.get(2_002), Message::Answer(Answer::Clock)));
}

/// The lines of a clock behind a thousand tasks and these calls.
fn lines_behind(rt: &(impl AllocGlobal + Abort), last: &str) -> Result<Vec<Line>, Fail> {
    let instrs = plan_of_thousand(rt.alloc(), last)?;
    let mut core = core_over(rt.alloc(), &instrs, 1, u32::MAX)?;
    lines_of(rt, &mut core, &[Event::Clock(3)])
}

#[test]
fn one_clock_ends_a_thousand_tasks(rt: HostRuntime) -> Result<(), Fail> {
    let lines = lines_behind(&rt, "shut_down 3\nask 3")?;
    thousand_end(&rt, &lines, Answer::Shutdown);
    let lines = lines_behind(&rt, "shut_down_now 3\nask 3")?;
    thousand_end(&rt, &lines, Answer::ShutdownNow);
    Ok(())
}
