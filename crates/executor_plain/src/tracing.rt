ghost use Rattle.std.specs.Prelude.{◌≡◌, ◌-◌, [], ◌∷◌, ◌++◌, drop, nat_le, reverse, replicate, OnOk, IfOk};
ghost use Rattle.executor_model.specs.declared.types.Happening.TheVariants as happening;
ghost use Rattle.queue_code.specs.Calls.{IsPlanned, how_many};
ghost use Rattle.executor_model.specs.Histories as histories;
ghost use Rattle.executor_model.specs.Flows as flows;
ghost use Rattle.executor_model.specs.Within.{IsAnsweredByTable};

use crate::ends::ends_after;
use crate::history::{Past, is_accepted, made, now_of};
use crate::table::answer_after;
use executor_model::{Event, Happening, Line, Message};
use queue_code::CodeCall;
use std::alloc::{AllocError, Allocator};

/// The lines of some events, the oldest first, as a core of these calls gives them.
///
/// It takes as many events as there are; a core stops at its limit. A growth that is refused for
/// want of memory is the only error.
pub fn trace<A: Allocator + Copy>(
    alloc: A,
    calls: &[(u64, CodeCall)],
    workers: u8,
    events: &[Event],
) -> Result<Vec<Line, A>, AllocError>
    requires { IsPlanned calls.now }
    ensures { IfOk result
        (λ lines. lines.items
        ≡ flows.lines_of calls.now (flows.history_of calls.now workers (reverse events.now))) }
{
    let past = history_of(alloc, calls, workers, events)?;
    lines_of(alloc, calls, &past)
}

/// The lines of some happenings, the oldest first, each with its answer.
///
/// The calls of the plan stand among the happenings, wherever they are put: none is added. A call past the
/// last one never comes in a history; it is answered as a clock is. A growth that is refused for want of
/// memory is the only error.
pub fn trace_of_happenings<A: Allocator + Copy>(
    alloc: A,
    calls: &[(u64, CodeCall)],
    workers: u8,
    happenings: &[Happening],
) -> Result<Vec<Line, A>, AllocError>
    requires { IsPlanned calls.now }
    ensures { IfOk result
        (λ lines. lines.items
        ≡ flows.lines_of calls.now
        (flows.history_from calls.now workers [] (reverse happenings.now))) }
{
    let past = happened(alloc, calls, workers, happenings)?;
    lines_of(alloc, calls, &past)
}

/// The happening that an event is.
fn happening_of(event: Event) -> Happening
    ensures { result ≡ flows.happening_of event }
{
    match event {
        Event::Clock(moment) => Happening::Clock(moment),
        Event::Start(worker) => Happening::Start(worker),
        Event::Finish(worker, ending) => Happening::Finish(worker, ending),
        Event::Cancel(task) => Happening::Cancel(task),
    }
}

/// How many of some calls have a moment of at most this one.
fn count_reached(calls: &[(u64, CodeCall)], moment: u64) -> usize
    ensures { result ≡ how_many (λ p. nat_le p.0 moment) calls.now }
{
    match calls {
        [] => 0,
        [(first, _), later @ ..] => {
            if *first <= moment {
                1 + count_reached(later, moment)
            } else {
                count_reached(later, moment)
            }
        }
    }
}

/// How many of the calls after the first `made` have a moment of at most `moment`.
fn reached(calls: &[(u64, CodeCall)], made: usize, moment: u64) -> usize
    ensures { result ≡ flows.reached calls.now made moment }
{
    if made < calls.len() {
        count_reached(&calls[made..], moment)
    } else {
        0
    }
}

/// How many calls are made just before an event.
fn calls_before(calls: &[(u64, CodeCall)], made: usize, now: u64, event: Event) -> usize
    ensures { result ≡ flows.calls_before calls.now made now event }
{
    match event {
        Event::Clock(moment) => {
            if is_accepted(now, moment) {
                reached(calls, made, moment)
            } else {
                0
            }
        }
        Event::Start(_) | Event::Finish(..) | Event::Cancel(_) => 0,
    }
}

/// Adds a happening to a history, with its answer.
fn happen<A: Allocator + Copy>(
    alloc: A,
    calls: &[(u64, CodeCall)],
    workers: u8,
    past: &mut Vec<Past<A>, A>,
    happening: Happening,
) -> Result<(), AllocError>
    requires orderly { IsPlanned calls.now }
    requires answered { IsAnsweredByTable calls.now workers past.old.items }
    ensures { OnOk result
        (past.new.items ≡ flows.history_from calls.now workers past.old.items (happening ∷ [])) }
{
    let answer = answer_after(calls, workers, past, happening);
    let ends = ends_after(alloc, calls, workers, past, happening)?;
    let entry = Past {
        happening,
        answer,
        ends,
    };
    past.insert(0, entry)?;
    Ok(())
}

/// Makes `count` calls.
fn make_calls<A: Allocator + Copy>(
    alloc: A,
    calls: &[(u64, CodeCall)],
    workers: u8,
    past: &mut Vec<Past<A>, A>,
    count: usize,
) -> Result<(), AllocError>
    requires orderly { IsPlanned calls.now }
    requires answered { IsAnsweredByTable calls.now workers past.old.items }
    ensures { OnOk result
        (past.new.items
        ≡ flows.history_from calls.now workers past.old.items (replicate count happening.Call)) }
{
    for _made in 0..count {
        happen(alloc, calls, workers, past, Happening::Call)?;
    }
    Ok(())
}

/// Adds an event to a history, after the calls that are made just before it.
fn take_event<A: Allocator + Copy>(
    alloc: A,
    calls: &[(u64, CodeCall)],
    workers: u8,
    past: &mut Vec<Past<A>, A>,
    event: Event,
) -> Result<(), AllocError>
    requires orderly { IsPlanned calls.now }
    requires answered { IsAnsweredByTable calls.now workers past.old.items }
    ensures { OnOk result
        (past.new.items
        ≡ flows.history_from calls.now workers past.old.items
        (flows.part_of calls.now (histories.made (histories.happenings past.old.items))
        (histories.now_of calls.now (histories.happenings past.old.items)) event)) }
{
    let count = calls_before(calls, made(past), now_of(calls, past), event);
    make_calls(alloc, calls, workers, past, count)?;
    happen(alloc, calls, workers, past, happening_of(event))
}

/// The history of some events, which stand the oldest first.
fn history_of<A: Allocator + Copy>(
    alloc: A,
    calls: &[(u64, CodeCall)],
    workers: u8,
    events: &[Event],
) -> Result<Vec<Past<A>, A>, AllocError>
    requires { IsPlanned calls.now }
    ensures { IfOk result
        (λ past. past.items ≡ flows.history_of calls.now workers (reverse events.now)) }
{
    let mut past = Vec::new(alloc);
    for event in events {
        take_event(alloc, calls, workers, &mut past, *event)?;
    }
    Ok(past)
}

/// The history of some happenings, which stand the oldest first.
fn happened<A: Allocator + Copy>(
    alloc: A,
    calls: &[(u64, CodeCall)],
    workers: u8,
    happenings: &[Happening],
) -> Result<Vec<Past<A>, A>, AllocError>
    requires { IsPlanned calls.now }
    ensures { IfOk result
        (λ past. past.items ≡ flows.history_from calls.now workers [] (reverse happenings.now)) }
{
    let mut past = Vec::new(alloc);
    for happening in happenings {
        happen(alloc, calls, workers, &mut past, *happening)?;
    }
    Ok(past)
}

/// The lines of a history, the oldest first.
fn lines_of<A: Allocator>(
    alloc: A,
    calls: &[(u64, CodeCall)],
    past: &[Past<A>],
) -> Result<Vec<Line, A>, AllocError>
    ensures { IfOk result (λ lines. lines.items ≡ flows.lines_of calls.now past.now) }
{
    match past {
        [] => Ok(Vec::new(alloc)),
        [newest, before @ ..] => {
            let mut lines = lines_of(alloc, calls, before)?;
            add_lines(&mut lines, now_of(calls, past), newest)?;
            Ok(lines)
        }
    }
}

/// Adds the lines of an entry of a history: that of its answer, and one of each task that it ends.
fn add_lines<A: Allocator>(
    lines: &mut Vec<Line, A>,
    moment: u64,
    entry: &Past<A>,
) -> Result<(), AllocError>
    ensures { OnOk result
        (lines.new.items ≡ lines.old.items ++ flows.lines_at moment (flows.reply_in entry.now)) }
{
    lines.push(Line::new(moment, Message::Answer(entry.answer)))?;
    for task in &entry.ends {
        lines.push(Line::new(moment, Message::End(*task)))?;
    }
    Ok(())
}
