//! All sequences of four steps, and those of five that begin with the clock, also with a shutdown at once: the text of the book's lines conforms, by the plan
//! alone, and the lines are those that the plain program has for the happenings.
use super::{Played, Step, Told, found, play_code};
use executor_model::{Answer, CancelEffect, Event, Happening, Line, Message};
use executor_plain::{planned_calls, trace_of_happenings};
use plan_compile::compile;
use plan_read::{Plan, read_plan};
use sched_time::Ending;
use std::alloc::{AllocError, AllocGlobal, Allocator, Global};
use std::process::Abort;
use std::test::Fail;
use task_word::CancelAnswer;
use trace_check::Finding;

/// The plan of a task with one run, one at a fixed rate, and a shutdown.
const PLAN: &str = "version = 1\n[[block]]\ncall = [{ op = 'schedule', name = 'a', delay = 0 },\
                    { op = 'rate', name = 'b', first = 0, period = 2 }, { op = 'shutdown', at = 5 }]\n";

/// The same with a shutdown at once, and a task that is due later.
const STOPPED: &str = "version = 1\n[[block]]\ncall = [{ op = 'execute', name = 'a' },\
                       { op = 'rate', name = 'b', first = 0, period = 2 },\
                       { op = 'schedule', name = 'c', delay = 9 }, { op = 'shutdown_now', at = 5 }]\n";

/// How many tasks the greater of the plans has.
const TASKS: u32 = 3;

/// How many steps there are to choose from.
const CHOICES: u32 = 9;

/// One of the steps; the handle is the first one.
fn choice(number: u32) -> Step {
    match number {
        0 => Step::Apply(Event::Clock(0)),
        1 => Step::Apply(Event::Clock(9)),
        2 => Step::Apply(Event::Start(0)),
        3 => Step::Apply(Event::Finish(0, Ending::Value(7))),
        4 => Step::Cancel(0, 0),
        5 => Step::Cancel(0, 1),
        6 => Step::Apply(Event::Cancel(1)),
        7 => Step::NoteCancels,
        _ => Step::Renew(0),
    }
}

/// What a line says that a cancel of this task from outside did, if it says that.
fn outside(line: &Line, task: u32) -> Option<CancelEffect> {
    match line.message() {
        Message::Answer(Answer::Outside { task: of, effect }) if of == task => Some(effect),
        _ => None,
    }
}

/// How often a handle won a task, and how often it was cancelled by an event.
fn count_cancels(steps: &[Step], told: &[Told], task: u32) -> (usize, usize) {
    let mut wins = 0usize;
    let mut events = 0usize;
    for (step, told) in steps.iter().zip(told) {
        match (*step, *told) {
            (Step::Cancel(_, of), Told::Cancel(CancelAnswer::Yes)) => {
                wins = wins.saturating_add(usize::from(of == task));
            }
            (Step::Apply(Event::Cancel(of)), Told::Lines(..)) => {
                events = events.saturating_add(usize::from(of == task));
            }
            _ => {}
        }
    }
    (wins, events)
}

/// Whether a task has a line for each time that a handle won it and for each event that cancels it, and no further one from
/// outside; and whether one of them says that it had an effect where a handle won, and else only where there was an event.
fn is_noted(steps: &[Step], played: &Played, task: u32) -> bool {
    let (wins, events) = count_cancels(steps, &played.told, task);
    let mut lines = 0usize;
    let mut effects = 0usize;
    for effect in played.lines.iter().filter_map(|line| outside(line, task)) {
        lines = lines.saturating_add(1);
        effects = effects.saturating_add(usize::from(effect == CancelEffect::Yes));
    }
    let asked = wins.saturating_add(events);
    lines == asked && wins <= effects && effects <= asked.min(1)
}

/// The steps of a sequence: four of them, by their number, behind a first one.
fn sequence(first: Step, number: u32) -> [Step; 7] {
    let fourth = number / (CHOICES * CHOICES * CHOICES);
    [
        Step::Admit,
        first,
        choice(number % CHOICES),
        choice(number / CHOICES % CHOICES),
        choice(number / (CHOICES * CHOICES) % CHOICES),
        choice(fourth % CHOICES),
        Step::Retire(0),
    ]
}

/// The lines that the plain program has for what happened.
fn plain_lines(
    alloc: Global,
    plan: &Plan<Global>,
    happened: &[Happening],
) -> Result<Vec<Line>, Fail> {
    let code = compile(alloc, plan)?;
    // Its calls are in order, as the plain program asks.
    let _count = code.calls();
    let calls = planned_calls(alloc, &code)?;
    Ok(trace_of_happenings(alloc, &calls, 1, happened)?)
}

/// Plays a sequence of steps, and checks and compares the lines.
fn compare(
    rt: &impl Abort,
    alloc: Global,
    plan: &Plan<Global>,
    steps: &[Step],
    number: u32,
) -> Result<(), Fail> {
    let code = compile(alloc, plan)?;
    let played = play_code(alloc, alloc, code, 1, 100, steps, false)?;
    let finding = found(rt, alloc, plan, 1, &played.lines)?;
    assert!(rt; finding == Finding::Conforms, "{number}: {finding:?}");
    let plain = plain_lines(alloc, plan, &played.happened)?;
    assert!(rt; plain.as_slice() == played.lines.as_slice(), "{number}");
    for task in 0..TASKS {
        assert!(rt; is_noted(steps, &played, task), "{number} {task}");
    }
    Ok(())
}

/// Plays each sequence of four steps behind a first one, with a book for this plan.
fn compare_all(rt: &(impl Abort + AllocGlobal), plan: &str, first: Step) -> Result<(), Fail> {
    let plan = read_plan(rt.alloc(), plan.as_bytes())?;
    for number in 0..6_561u32 {
        compare(rt, rt.alloc(), &plan, &sequence(first, number), number)?;
    }
    Ok(())
}

#[test]
fn all_sequences_of_four_conform(rt: HostRuntime) -> Result<(), Fail> {
    compare_all(&rt, PLAN, Step::NoteCancels)
}

#[test]
fn all_sequences_behind_a_clock_conform(rt: HostRuntime) -> Result<(), Fail> {
    compare_all(&rt, PLAN, Step::Apply(Event::Clock(0)))
}

#[test]
fn all_sequences_around_a_shutdown_at_once_conform(rt: HostRuntime) -> Result<(), Fail> {
    compare_all(&rt, STOPPED, Step::Apply(Event::Clock(0)))
}
