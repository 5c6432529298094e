//! Cores and lines of several sizes, with ample memory.
use super::calls::{code_of, core_over, submissions};
use super::events::events_of;
use super::lines_of;
use super::scripts::play_cases;
use crate::said::text_of_lines;
use executor_core::{Core, CoreError};
use executor_model::{Answer, Event, Line, Message};
use queue_code::{Instr, MOST_CALLS};
use std::alloc::AllocGlobal;
use std::process::Abort;
use std::test::Fail;

/// Gives a core of these 70 tasks and this many workers a clock, a start of its last worker, and one of no worker.
fn last_worker_starts(
    rt: &(impl AllocGlobal + Abort),
    instrs: &[Instr],
    workers: u8,
) -> Result<(), Fail> {
    let last = workers.saturating_sub(1);
    let events = [Event::Clock(0), Event::Start(last), Event::Start(workers)];
    let mut core = core_over(rt.alloc(), instrs, workers, u32::MAX)?;
    let out = lines_of(rt, &mut core, &events)?;
    assert!(rt; out.len() == 73, "{workers}");
    assert!(rt; core.tasks() == 70, "{workers}");
    assert!(rt; core.taken() == 3, "{workers}");
    assert!(rt; core.now() == 0, "{workers}");
    Ok(())
}

#[test]
fn cores_of_each_number_of_workers(rt: HostRuntime) -> Result<(), Fail> {
    let instrs = submissions(rt.alloc(), 70)?;
    for workers in 1..=64 {
        last_worker_starts(&rt, &instrs, workers)?;
    }
    Ok(())
}

/// What is said of a clock and a start where there are no calls.
const IDLE: &str = "9 Answer(Clock)\n9 Answer(Idle { worker: 0 })\n";

/// What a core without calls says of a clock and a start.
fn said_without_calls(rt: &(impl AllocGlobal + Abort), workers: u8) -> Result<String, Fail> {
    let mut core = core_over(rt.alloc(), &[], workers, u32::MAX)?;
    assert!(rt; core.words().len() == 0);
    let out = lines_of(rt, &mut core, &[Event::Clock(9), Event::Start(0)])?;
    text_of_lines(rt.alloc(), &out)
}

/// It has no words, and its workers get no work.
#[test]
fn a_core_without_calls(rt: HostRuntime) -> Result<(), Fail> {
    for workers in 1..=64 {
        let said = said_without_calls(&rt, workers)?;
        assert!(rt; said.as_str() == IDLE, "{workers}: {said}");
    }
    Ok(())
}

/// A core without calls is given four starts, of which it takes three.
const LIMITED: &str = "\
a core takes as many events as its limit
--
give start 0 | refused None
give start 0 | refused None
give start 0 | refused None
give start 0 | refused Some(Full) | taken 3, moment 0, tasks 0 | full, room 1, lines 3
";

#[test]
fn a_core_takes_as_many_events_as_its_limit(rt: HostRuntime) -> Result<(), Fail> {
    play_cases(&rt, 3, LIMITED)
}

/// Numbers of workers, and why no core is made for so many, with a limit of 0.
const REFUSED: &[(u8, CoreError)] = &[
    (0, CoreError::Workers),
    (65, CoreError::Workers),
    (255, CoreError::Workers),
    (64, CoreError::Limit),
];

#[test]
fn a_core_is_refused_for_its_numbers(rt: HostRuntime) -> Result<(), Fail> {
    for (workers, error) in REFUSED {
        let code = code_of(rt.alloc(), &[])?;
        let refused = Core::new(rt.alloc(), code, *workers, 0).err();
        assert!(rt; refused == Some(*error), "{workers}");
    }
    Ok(())
}

/// A clock, and a start of each of 64 workers.
fn clock_and_starts(rt: &impl AllocGlobal) -> Result<Vec<Event>, Fail> {
    let mut events = events_of(rt.alloc(), "clock 1")?;
    for worker in 0..64 {
        events.push(Event::Start(worker))?;
    }
    Ok(events)
}

/// What is answered to the start of the last of 64 workers.
const LAST: Answer = Answer::Start {
    worker: 63,
    task: 63,
    run: 0,
    due: 0,
};

/// Checks that there are 65,601 lines, with the start of the last of 64 workers behind the others.
fn end_with_the_last_start(rt: &impl Abort, lines: &[Line]) {
    assert!(rt; lines.len() == 65_601);
    let last = lines.get(65_600).map(|line| line.message());
    assert!(rt; last == Some(Message::Answer(LAST)));
}

/// The lines with which a core of 64 workers answers these events.
fn lines_after(
    rt: &(impl AllocGlobal + Abort),
    instrs: &[Instr],
    events: &[Event],
) -> Result<Vec<Line>, Fail> {
    let mut core = core_over(rt.alloc(), instrs, 64, u32::MAX)?;
    lines_of(rt, &mut core, events)
}

#[test]
fn more_than_65536_lines_stay_in_one_list(rt: HostRuntime) -> Result<(), Fail> {
    let instrs = submissions(rt.alloc(), MOST_CALLS as u32)?;
    let first = lines_after(&rt, &instrs, &[Event::Clock(1)])?;
    assert!(rt; first.len() == 65_537);
    let all = lines_after(&rt, &instrs, &clock_and_starts(&rt)?)?;
    end_with_the_last_start(&rt, &all);
    Ok(())
}
