//! What a core tells, as text: facts, with ` | ` before each.
use executor_core::{Core, RunEnd};
use executor_model::{Happening, Line, Message, Need};
use std::alloc::Global;
use std::process::Abort;
use std::test::Fail;
use task_word::{Phase, Word};

/// Checks that each of these facts is told.
pub fn are_told(rt: &impl Abort, told: &str, facts: &str) {
    for fact in facts.split(" | ") {
        assert!(rt; is_among(told, fact), "{fact}: {told}");
    }
}

/// Whether a fact is one of these.
fn is_among(told: &str, fact: &str) -> bool {
    for one in told.split(" | ") {
        if one == fact {
            return true;
        }
    }
    false
}

/// What a core needs for a happening, by the call that is asked for its kind.
fn need_for(core: &Core<Global>, happening: Happening) -> Need {
    match happening {
        Happening::Call => core.call_need(u64::MAX).unwrap_or(Need::Nothing),
        Happening::Start(worker) => core.start_need(worker),
        Happening::Finish(worker, ending) => core.finish_need(worker, ending),
        Happening::Clock(_) | Happening::Purge => Need::Nothing,
        Happening::Cancel(task) => core.cancel_need(task),
    }
}

/// Adds what is foreseen of a happening: what a core needs for it, and the end of a run, if any.
pub fn add_ahead(
    rt: &impl Abort,
    told: &mut String,
    core: &Core<Global>,
    happening: Happening,
) -> Result<(), Fail> {
    let foreseen = core.foresee(happening);
    assert!(rt; foreseen.happening == happening);
    assert!(rt; foreseen.need == core.need(happening), "{happening:?}");
    assert!(rt; foreseen.need == need_for(core, happening), "{happening:?}");
    add_need(told, foreseen.need)?;
    add_end(told, foreseen.end)
}

/// Adds a need.
fn add_need(told: &mut String, need: Need) -> Result<(), Fail> {
    write!(told, "need {need:?}")?;
    Ok(())
}

/// Adds the end of a run, if any: the task, the number of the run, the due moment that the task holds from then on, and the outcome.
fn add_end(told: &mut String, end: Option<RunEnd>) -> Result<(), Fail> {
    match end {
        None => told.push_str(" | no end")?,
        Some(end) => {
            let (task, run, due, outcome) = (end.task, end.run, end.due, end.outcome);
            write!(told, " | end {task} {run} {due} {outcome:?}")?;
        }
    }
    Ok(())
}

/// Adds what a core tells behind these lines, of which so many were said before.
pub fn add_state(
    told: &mut String,
    core: &Core<Global>,
    lines: &[Line],
    before: usize,
) -> Result<(), Fail> {
    add_words(told, core.words())?;
    add_ends(told, core)?;
    add_room(told, core, lines.len())?;
    add_counts(told, core)?;
    told.push_str(" | said")?;
    for line in lines.iter().skip(before) {
        add_line(told, line.moment(), line.message())?;
    }
    Ok(())
}

/// Adds the words in short: of each its phase and its run, and a mark where it is cancelled.
fn add_words(told: &mut String, words: &[Word]) -> Result<(), Fail> {
    told.push_str(" | words")?;
    for word in words {
        add_word(told, *word)?;
    }
    Ok(())
}

/// Adds a word in short.
fn add_word(told: &mut String, word: Word) -> Result<(), Fail> {
    let mark = if word.is_cancelled() { "!" } else { "" };
    write!(told, " {}{}{mark}", letter_of(word.phase()), word.run())?;
    Ok(())
}

/// The letter of a phase.
fn letter_of(phase: Phase) -> char {
    match phase {
        Phase::Vacant => 'v',
        Phase::New => 'n',
        Phase::Running => 'r',
        Phase::Done => 'd',
        Phase::Failed => 'f',
    }
}

/// Adds which of four tasks the next call would end: the number of each that it ends, and a point for each other one.
fn add_ends(told: &mut String, core: &Core<Global>) -> Result<(), Fail> {
    told.push_str(" | ends ")?;
    for task in 0..4u32 {
        if core.sweeps(task) {
            write!(told, "{task}")?;
        } else {
            told.push_str(".")?;
        }
    }
    Ok(())
}

/// Adds a mark where a task is ripe, and where the core is full, its room, and how many lines there are.
fn add_room(told: &mut String, core: &Core<Global>, lines: usize) -> Result<(), Fail> {
    let ripe = if core.ripe() { "ripe, " } else { "" };
    let full = if core.full() { "full, " } else { "" };
    let room = core.room();
    write!(told, " | {ripe}{full}room {room}, lines {lines}")?;
    Ok(())
}

/// Adds how many events were taken, the moment, and how many tasks there are.
fn add_counts(told: &mut String, core: &Core<Global>) -> Result<(), Fail> {
    let (taken, now, tasks) = (core.taken(), core.now(), core.tasks());
    write!(told, " | taken {taken}, moment {now}, tasks {tasks}")?;
    Ok(())
}

/// Adds a line.
fn add_line(told: &mut String, moment: u64, message: Message) -> Result<(), Fail> {
    write!(told, " {moment} {message:?};")?;
    Ok(())
}
