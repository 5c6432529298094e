//! The examples of the comments of `executor_model` and `executor_core`, as they stand there: `tools/docs` compares them.
use executor_core::{Core, CoreError};
use executor_model::{Answer, Event, Happening, KeptHappening, Line, Message, Outcome, Said};
use queue_code::{Code, Instr};
use sched_time::{Ending, Timing};
use std::process::Abort;
use std::test::Fail;

#[test]
fn what_is_said_is_kept(rt: HostRuntime) -> Result<(), Fail> {
    // example: executor_model
    // At moment 5 worker 0 has a run of task 0 behind it, which gave the value 7.
    let outcome = Outcome::Done(7);
    let answer = Answer::Finish {
        worker: 0,
        task: 0,
        run: 0,
        outcome,
    };
    let line = Line::new(5, Message::Answer(answer));
    // end of example
    is_kept(&rt, outcome, answer, line);
    Ok(())
}

fn is_kept(rt: &impl Abort, outcome: Outcome, answer: Answer, line: Line) {
    // example: executor_model
    assert_eq!(rt; line.moment(), 5);
    assert_eq!(rt; line.message(), Message::Answer(answer));
    // The line keeps it without nesting, and so it can be looked at.
    assert_eq!(rt; *line.said(), Said::finish(0, 0, 0, outcome));
    // What is kept of a happening is that happening.
    let happening = Event::Finish(0, Ending::Value(7)).happening();
    assert_eq!(rt; KeptHappening::new(happening).happening(), happening);
    // end of example
}

#[test]
fn the_page_is_run(rt: HostRuntime) -> Result<(), Fail> {
    let alloc = rt.alloc();
    // example: executor_core
    // At moment 0 task 0 is submitted, for one run 5 nanoseconds later.
    let instrs = vec![in alloc; Instr::Submit(0, Timing::Once, 5), Instr::Halt]?;
    let mut core = Core::new(alloc, Code::check(alloc, instrs)?, 1, 100)?;
    let mut lines = Vec::new(alloc);
    core.event(Event::Clock(5), &mut lines)?;
    core.event(Event::Start(0), &mut lines)?;
    core.event(Event::Finish(0, Ending::Value(7)), &mut lines)?;
    // end of example
    are_answered(&rt, lines);
    Ok(())
}

fn are_answered(rt: &impl Abort, mut lines: Vec<Line>) {
    // example: executor_core
    assert_eq!(rt; lines.len(), 4); // of the submission, the clock, the start and the finish
    let finish = Answer::Finish {
        worker: 0,
        task: 0,
        run: 0,
        outcome: Outcome::Done(7),
    };
    assert_eq!(rt; lines.pop(), Some(Line::new(5, Message::Answer(finish))));
    // end of example
}

#[test]
fn an_event_is_taken(rt: HostRuntime) -> Result<(), Fail> {
    let alloc = rt.alloc();
    // example: executor_core::Core::event
    let instrs = vec![in alloc; Instr::Ask(3), Instr::Halt]?;
    let mut core = Core::new(alloc, Code::check(alloc, instrs)?, 1, 2)?; // two events at most
    let mut lines = Vec::new(alloc);
    core.event(Event::Clock(5), &mut lines)?;
    assert_eq!(rt; lines.len(), 2); // of the question at 3, and of the clock
    core.event(Event::Start(0), &mut lines)?;
    let idle = Line::new(5, Message::Answer(Answer::Idle { worker: 0 }));
    assert_eq!(rt; lines.pop(), Some(idle));
    assert_eq!(rt;
        core.event(Event::Clock(9), &mut lines),
        Err(CoreError::Full)
    );
    // end of example
    Ok(())
}

#[test]
fn an_event_is_taken_apart(rt: HostRuntime) -> Result<(), Fail> {
    let alloc = rt.alloc();
    let instrs = vec![in alloc; Instr::Ask(3), Instr::Halt]?;
    let mut core = Core::new(alloc, Code::check(alloc, instrs)?, 1, 2)?;
    let mut lines = Vec::new(alloc);
    // example: executor_core::Core::reaches_call
    let event = Event::Clock(9);
    assert!(rt; !core.full());
    core.count();
    lines.reserve(core.room())?;
    assert!(rt; core.reaches_call(event)); // so the call at 3 comes first
    assert!(rt; core.may_come(Happening::Call));
    core.happen(Happening::Call, &mut lines);
    assert!(rt; !core.reaches_call(event)); // so the event comes next
    assert!(rt; core.may_come(event.happening()));
    // end of example
    Ok(())
}
