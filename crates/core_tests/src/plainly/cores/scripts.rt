//! Cases that are written as text: what is asked of a core, and what it tells.
//!
//! A case is a name on a line of its own, the calls of its plan, a line with two dashes, and rows. A row is a line: a step, and what is
//! told of it, with ` | ` before each fact. A step is the next call, an event, `give` and an event with the calls that it reaches,
//! `until` and a moment, up to which the next call is asked for, and made where there is one, or `look`. An empty line stands between
//! two cases.
use super::calls::{core_over, instrs_of};
use super::events::{event_of, happening_of};
use super::refusal_of;
use super::tells::{add_ahead, add_state, are_told};
use executor_core::Core;
use executor_model::{Event, Happening, Line};
use std::alloc::{AllocGlobal, Global};
use std::process::Abort;
use std::test::Fail;

/// Plays each case with a core of one worker that takes so many events: once with nothing foreseen, and once with all foreseen.
pub fn play_cases(rt: &(impl AllocGlobal + Abort), limit: u32, cases: &str) -> Result<(), Fail> {
    for case in cases.split("\n\n") {
        play_case(rt, limit, case, false)?;
        play_case(rt, limit, case, true)?;
    }
    Ok(())
}

/// Plays a case.
fn play_case(
    rt: &(impl AllocGlobal + Abort),
    limit: u32,
    case: &str,
    foreseen: bool,
) -> Result<(), Fail> {
    let (_, script) = case.split_once('\n').ok_or("no calls")?;
    let (calls, rows) = script.split_once("--\n").ok_or("no rows")?;
    let instrs = instrs_of(rt.alloc(), calls)?;
    let mut core = core_over(rt.alloc(), &instrs, 1, limit)?;
    play_rows(rt, &mut core, rows, foreseen)
}

/// Does what stands in each row, and checks what is told.
fn play_rows(
    rt: &(impl AllocGlobal + Abort),
    core: &mut Core<Global>,
    rows: &str,
    foreseen: bool,
) -> Result<(), Fail> {
    let mut lines = Vec::new(rt.alloc());
    for row in rows.lines() {
        play_row(rt, core, row, foreseen, &mut lines)?;
    }
    Ok(())
}

/// Does what stands in a row, and checks what is told.
fn play_row(
    rt: &(impl AllocGlobal + Abort),
    core: &mut Core<Global>,
    row: &str,
    foreseen: bool,
    lines: &mut Vec<Line>,
) -> Result<(), Fail> {
    let (step, facts) = row.split_once(" | ").ok_or("nothing told")?;
    let before = lines.len();
    let mut told = do_step(rt, core, step, foreseen, lines)?;
    add_state(&mut told, core, lines, before)?;
    are_told(rt, told.as_str(), facts);
    Ok(())
}

/// Does a step. What is told ahead of it.
fn do_step(
    rt: &(impl AllocGlobal + Abort),
    core: &mut Core<Global>,
    step: &str,
    foreseen: bool,
    lines: &mut Vec<Line>,
) -> Result<String, Fail> {
    let (word, rest) = step.split_once(' ').unwrap_or((step, ""));
    match word {
        "look" => Ok(String::new(rt.alloc())),
        "give" => give(rt.alloc(), core, event_of(rest)?, lines),
        "until" => call_until(rt, core, rest.parse::<u64>()?, lines),
        _ => come(rt, core, happening_of(step)?, foreseen, lines),
    }
}

/// Gives a core an event with the calls that it reaches, and tells whether it is refused.
fn give(
    alloc: Global,
    core: &mut Core<Global>,
    event: Event,
    lines: &mut Vec<Line>,
) -> Result<String, Fail> {
    let refused = refusal_of(core, event, lines);
    Ok(format!(in alloc; "refused {refused:?}")?)
}

/// Makes the next call, where there is one up to this moment. What is told of it ahead.
fn call_until(
    rt: &(impl AllocGlobal + Abort),
    core: &mut Core<Global>,
    moment: u64,
    lines: &mut Vec<Line>,
) -> Result<String, Fail> {
    let need = core.call_need(moment);
    if need.is_some() {
        take(rt, core, Happening::Call, false, lines)?;
    }
    Ok(format!(in rt.alloc(); "until {need:?}")?)
}

/// Has one thing happen to a core. What is told ahead of it.
fn come(
    rt: &(impl AllocGlobal + Abort),
    core: &mut Core<Global>,
    happening: Happening,
    foreseen: bool,
    lines: &mut Vec<Line>,
) -> Result<String, Fail> {
    let mut told = String::new(rt.alloc());
    add_ahead(rt, &mut told, core, happening)?;
    take(rt, core, happening, foreseen, lines)?;
    Ok(told)
}

/// Counts an event, and has one thing happen to a core, as it is foreseen or with nothing foreseen.
fn take(
    rt: &impl Abort,
    core: &mut Core<Global>,
    happening: Happening,
    foreseen: bool,
    lines: &mut Vec<Line>,
) -> Result<(), Fail> {
    assert!(rt; !core.full());
    core.count();
    lines.reserve(core.room())?;
    assert!(rt; core.may_come(happening));
    if foreseen {
        core.happen_foreseen(core.foresee(happening), lines);
    } else {
        core.happen(happening, lines);
    }
    Ok(())
}
