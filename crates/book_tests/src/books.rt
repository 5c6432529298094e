//! Tests of the book and its handles, by scripts: what is done, what is told, and which lines there are then.
mod growths;
mod handles;
mod limits;
mod noted;
mod results;
mod row_by_row;
mod table;
mod usage;

ghost use Rattle.std.specs.Prelude.{◌≡◌};
ghost use Rattle.queue_code.specs.Calls.{task_count};
ghost use Rattle.queue_code.specs.Codes.{calls_of};
ghost use Rattle.task_word.specs.Views.{new_core};

use executor_model::{Event, Happening, Line};
use heap_allocator::HeapAllocator;
use plan_compile::compile;
use plan_read::{Plan, read_plan};
use queue_code::Code;
use result_cell::Verdict;
use std::alloc::{AllocError, AllocGlobal, Allocator, Global};
use std::fmt::Debug;
use std::marker::Brand;
use std::process::Abort;
use std::test::Fail;
use task_word::{CancelAnswer, CoreSeat, TaskState};
use trace_check::{Finding, MOST_BYTES, check};
use trace_text::{read_event, write_line};
use worker_pool::{Book, Handle, Named, PoolError, Shared, Work};

/// What is done; handles are numbered as they were admitted.
#[derive(Clone, Copy)]
enum Step {
    Apply(Event),
    Admit,
    Cancel(usize, u32),
    State(usize, u32),
    Result(usize, u32),
    Agrees(usize, u32),
    NoteCancels,
    Retire(usize),
    /// Gives a handle back, and takes another in its place.
    Renew(usize),
}

/// What is told.
#[derive(Clone, Copy, Debug)]
enum Told {
    /// How many lines an event added, and what it started.
    Lines(usize, Option<Work>),
    Admitted,
    Cancel(CancelAnswer),
    State(TaskState),
    Verdict(Option<Verdict>),
    Noted(usize),
    Retired,
    Refused(PoolError),
    NoHandle,
}

/// A plan, what is done with a book for it that has one worker, and the text of the lines then. A line of the script has a step, ` | `
/// and what is told.
#[derive(Clone, Copy)]
pub struct Row<'a> {
    pub name: &'a str,
    pub plan: &'a str,
    pub script: &'a str,
    pub trace: &'a str,
}

/// The plan of a task that is due at moment 0.
const ONE_TASK: &str =
    "version = 1\n[[block]]\ncall = [{ op = 'schedule', name = 'a', delay = 0 }]";

/// The plan of two tasks that are due at moment 0.
const TWO_TASKS: &str =
    "version = 1\n[[block]]\ncall = [{ op = 'schedule', name = 'a', delay = 0 },\
                         { op = 'schedule', name = 'b', delay = 0 }]";

/// A limit that is not reached.
const AMPLE: u32 = 1_000_000;

/// The code of a plan's text.
fn code_of(alloc: Global, plan: &str) -> Result<Code<Global>, Fail> {
    let plan = read_plan(alloc, plan.as_bytes())?;
    Ok(compile(alloc, &plan)?)
}

/// The step of a handle: `retire` and its number, or `handle`, its number, what it does and the number of the task.
fn read_asked(line: &str) -> Option<Step> {
    let (word, rest) = line.split_once(' ')?;
    if word == "retire" {
        return Some(Step::Retire(rest.parse::<usize>().ok()?));
    }
    if word != "handle" {
        return None;
    }
    let (handle, rest) = rest.split_once(' ')?;
    let (verb, task) = rest.split_once(' ')?;
    let handle = handle.parse::<usize>().ok()?;
    let task = task.parse::<u32>().ok()?;
    match verb {
        "cancel" => Some(Step::Cancel(handle, task)),
        "state" => Some(Step::State(handle, task)),
        "result" => Some(Step::Result(handle, task)),
        "agrees" => Some(Step::Agrees(handle, task)),
        _ => None,
    }
}

/// The event of a line, as a step.
fn read_applied(alloc: Global, line: &str) -> Result<Step, Fail> {
    let text = format!(in alloc; "{line}\n")?;
    match read_event(text.as_bytes()) {
        Some(event) => Ok(Step::Apply(event)),
        None => Err("no step".into()),
    }
}

/// The step of a line of a script: an event, or one of these.
fn read_step(alloc: Global, line: &str) -> Result<Step, Fail> {
    if line == "admit" {
        return Ok(Step::Admit);
    }
    if line == "note" {
        return Ok(Step::NoteCancels);
    }
    match read_asked(line) {
        Some(step) => Ok(step),
        None => read_applied(alloc, line),
    }
}

/// The step or call of a line of a script, and what is told of it behind ` | `, or nothing.
fn parts_of(line: &str) -> (&str, &str) {
    line.split_once(" | ").unwrap_or((line, ""))
}

/// The steps of a script.
fn read_steps(alloc: Global, script: &str) -> Result<Vec<Step>, Fail> {
    let mut steps = Vec::new(alloc);
    for line in script.lines() {
        steps.push(read_step(alloc, parts_of(line).0)?)?;
    }
    Ok(steps)
}

/// Checks what is told of the step of a line of a script.
fn is_told<T: Debug>(
    rt: &(impl Abort + AllocGlobal),
    name: &str,
    told: &T,
    line: &str,
) -> Result<(), Fail> {
    let told = format!(in rt.alloc(); "{told:?}")?;
    assert!(rt; told.as_str() == parts_of(line).1, "{name}: {line}: {told}");
    Ok(())
}

/// Checks what is told of each step of a script.
fn are_told<T: Debug>(
    rt: &(impl Abort + AllocGlobal),
    name: &str,
    told: &[T],
    script: &str,
) -> Result<(), Fail> {
    assert!(rt; told.len() == script.lines().count(), "{name}");
    for (told, line) in told.iter().zip(script.lines()) {
        is_told(rt, name, told, line)?;
    }
    Ok(())
}

/// A call that was refused a growth.
#[derive(Clone, Copy, Debug, PartialEq, Eq)]
enum Refused {
    Shared,
    Book,
    /// A step, by its place in the script.
    Step(usize),
}

/// What was told, what happened, and the lines.
#[derive(Drop)]
struct Played {
    told: Vec<Told>,
    happened: Vec<Happening>,
    lines: Vec<Line>,
    /// The last call that was refused a growth.
    refused: Option<Refused>,
}

impl Played {
    /// Nothing, but that a call may have been refused a growth.
    fn new(alloc: Global, refused: Option<Refused>) -> Played {
        Played {
            told: Vec::new(alloc),
            happened: Vec::new(alloc),
            lines: Vec::new(alloc),
            refused,
        }
    }
}

type Handles<'s, N, A> = Vec<Option<Handle<'s, N, A>>>;

/// What is told of an event.
fn apply<N: Named, A: HeapAllocator>(
    book: &mut Book<N, A>,
    shared: &Shared<A>,
    event: Event,
) -> Told
    requires { (shared.now.table ≡ N.table) × (shared.now.cells ≡ N.cells) }
{
    match book.apply(shared, event) {
        Ok(applied) => Told::Lines(applied.count, applied.work),
        Err(error) => Told::Refused(error),
    }
}

/// A handle of a book, or why there is none.
fn admit<'s, N: Named, A: HeapAllocator>(
    book: &mut Book<N, A>,
    shared: &'s Shared<A>,
) -> Result<Handle<'s, N, A>, PoolError>
    requires { (shared.now.table ≡ N.table) × (shared.now.cells ≡ N.cells) }
{
    book.admit(shared)
}

/// What is told of the look at each word.
fn note<N: Named, A: Allocator>(book: &mut Book<N, A>, shared: &Shared<A>) -> Told
    requires { (shared.now.table ≡ N.table) × (shared.now.cells ≡ N.cells) }
{
    match book.note_cancels(shared) {
        Ok(count) => Told::Noted(count),
        Err(error) => Told::Refused(error),
    }
}

/// Gives a handle back; where that is refused it stays in its place.
fn give_back<'s, N: Named, A: Allocator>(
    book: &mut Book<N, A>,
    shared: &'s Shared<A>,
    place: &mut Option<Handle<'s, N, A>>,
) -> Told
    requires { (shared.now.table ≡ N.table) × (shared.now.cells ≡ N.cells) }
{
    let Some(handle) = place.take() else {
        return Told::NoHandle;
    };
    match book.retire(shared, handle) {
        Ok(()) => Told::Retired,
        Err((error, handle)) => {
            *place = Some(handle);
            Told::Refused(error)
        }
    }
}

/// Gives a handle back, and takes another in its place.
fn renew<'s, N: Named, A: HeapAllocator>(
    book: &mut Book<N, A>,
    shared: &'s Shared<A>,
    place: &mut Option<Handle<'s, N, A>>,
) -> Told
    requires { (shared.now.table ≡ N.table) × (shared.now.cells ≡ N.cells) }
{
    let told = give_back(book, shared, place);
    match admit(book, shared) {
        Ok(handle) => {
            *place = Some(handle);
            told
        }
        Err(error) => Told::Refused(error),
    }
}

/// What a handle tells.
fn ask<N: Named, A: Allocator>(
    book: &mut Book<N, A>,
    shared: &Shared<A>,
    handle: &mut Handle<'_, N, A>,
    step: Step,
) -> Told
    requires { (shared.now.table ≡ N.table) × (shared.now.cells ≡ N.cells) }
{
    match step {
        Step::Cancel(_, task) => Told::Cancel(handle.cancel(task)),
        Step::State(_, task) => Told::State(handle.state(task)),
        Step::Result(_, task) => Told::Verdict(handle.result(task)),
        Step::Agrees(_, task) => Told::Verdict(book.agrees(shared, handle, task)),
        _ => Told::NoHandle,
    }
}

/// Does a step with the handle of some place.
fn step_at<'s, N: Named, A: HeapAllocator>(
    book: &mut Book<N, A>,
    shared: &'s Shared<A>,
    place: &mut Option<Handle<'s, N, A>>,
    step: Step,
) -> Told
    requires { (shared.now.table ≡ N.table) × (shared.now.cells ≡ N.cells) }
{
    match step {
        Step::Retire(_) => give_back(book, shared, place),
        Step::Renew(_) => renew(book, shared, place),
        _ => match place {
            Some(handle) => ask(book, shared, handle, step),
            None => Told::NoHandle,
        },
    }
}

/// The number of the handle with which a step is done.
fn handle_of(step: Step) -> usize {
    match step {
        Step::Cancel(number, _)
        | Step::State(number, _)
        | Step::Result(number, _)
        | Step::Agrees(number, _)
        | Step::Retire(number)
        | Step::Renew(number) => number,
        _ => 0,
    }
}

/// Does one step.
fn step_of<'s, N: Named, A: HeapAllocator>(
    book: &mut Book<N, A>,
    shared: &'s Shared<A>,
    handles: &mut Handles<'s, N, A>,
    step: Step,
) -> Result<Told, AllocError>
    requires { (shared.now.table ≡ N.table) × (shared.now.cells ≡ N.cells) }
{
    match step {
        Step::Apply(event) => Ok(apply(book, shared, event)),
        Step::NoteCancels => Ok(note(book, shared)),
        Step::Admit => match admit(book, shared) {
            Ok(handle) => {
                handles.push(Some(handle))?;
                Ok(Told::Admitted)
            }
            Err(error) => Ok(Told::Refused(error)),
        },
        _ => match handles.get_mut(handle_of(step)) {
            Some(place) => Ok(step_at(book, shared, place, step)),
            None => Ok(Told::NoHandle),
        },
    }
}

/// Does the steps in order. Where growths are refused, a step that was refused one is done once more.
fn tell_steps<'s, N: Named, A: HeapAllocator>(
    alloc: Global,
    book: &mut Book<N, A>,
    shared: &'s Shared<A>,
    steps: &[Step],
    refuses: bool,
    played: &mut Played,
) -> Result<(), Fail>
    requires { (shared.now.table ≡ N.table) × (shared.now.cells ≡ N.cells) }
{
    let mut handles = Vec::new(alloc);
    for step in steps {
        let told = if refuses {
            growths::step_again(alloc, book, shared, &mut handles, *step, played)?
        } else {
            step_of(book, shared, &mut handles, *step)?
        };
        played.told.push(told)?;
    }
    Ok(())
}

/// What happened in a book, and its lines, the oldest first.
fn show<N: Named, A: Allocator>(
    book: &Book<N, A>,
    happened: &mut Vec<Happening>,
    lines: &mut Vec<Line>,
) -> Result<(), AllocError> {
    for kept in book.happenings() {
        happened.push(kept.happening())?;
    }
    lines.extend_from_slice(book.lines())?;
    Ok(())
}

/// Does the steps with a book.
fn play_steps<N: Named, A: HeapAllocator>(
    alloc: Global,
    mut book: Book<N, A>,
    shared: &Shared<A>,
    steps: &[Step],
    refuses: bool,
) -> Result<Played, Fail>
    requires { (shared.now.table ≡ N.table) × (shared.now.cells ≡ N.cells) }
{
    let mut played = Played::new(alloc, None);
    tell_steps(alloc, &mut book, shared, steps, refuses, &mut played)?;
    show(&book, &mut played.happened, &mut played.lines)?;
    Ok(played)
}

/// What is known where there is no book.
fn not_made(alloc: Global, call: Refused, error: PoolError) -> Result<Played, Fail> {
    let mut played = Played::new(alloc, Some(call));
    played.told.push(Told::Refused(error))?;
    Ok(played)
}

/// Does the steps with a book of these names.
fn book_of<N: Named, A: HeapAllocator>(
    alloc: Global,
    heap: A,
    shared: &Shared<A>,
    seat: CoreSeat<A>,
    code: Code<A>,
    workers: u8,
    limit: u32,
    steps: &[Step],
    refuses: bool,
) -> Result<Played, Fail>
    requires shared { (shared.now.table ≡ N.table) × (shared.now.cells ≡ N.cells) }
    requires seat { (seat.table ≡ shared.now.table) × (seat.view ≡ new_core shared.now.tasks) }
    requires tasks { shared.now.tasks ≡ task_count (calls_of code) }
    requires named { (calls_of code ≡ N.calls) × (workers ≡ N.workers) }
{
    match Book::<N, A>::new(heap, shared, seat, code, workers, limit) {
        Ok(book) => play_steps(alloc, book, shared, steps, refuses),
        Err(error) => not_made(alloc, Refused::Book, error),
    }
}

/// Does the steps with a new book for this code.
fn play_code<A: HeapAllocator>(
    alloc: Global,
    heap: A,
    code: Code<A>,
    workers: u8,
    limit: u32,
    steps: &[Step],
    refuses: bool,
) -> Result<Played, Fail> {
    match Shared::new(heap, code.tasks()) {
        Ok((shared, seat)) => {
            book_of::<Brand, _>(
                alloc, heap, &shared, seat, code, workers, limit, steps, refuses,
            )
        }
        Err(error) => not_made(alloc, Refused::Shared, error),
    }
}

/// The text of some lines.
fn text_of(alloc: Global, lines: &[Line]) -> Result<Vec<u8>, Fail> {
    let mut text = Vec::new(alloc);
    for line in lines {
        write_line(&mut text, line)?;
    }
    Ok(text)
}

/// What is found of the text of some lines, held against a plan.
fn found(
    rt: &impl Abort,
    alloc: Global,
    plan: &Plan<Global>,
    workers: u8,
    lines: &[Line],
) -> Result<Finding, Fail> {
    let text = text_of(alloc, lines)?;
    assert!(rt; text.len() <= MOST_BYTES);
    Ok(check(alloc, plan, workers, &text)?)
}

/// Checks the text of the lines.
fn check_lines(
    rt: &(impl Abort + AllocGlobal),
    name: &str,
    lines: &[Line],
    text: &str,
) -> Result<(), Fail> {
    let written = text_of(rt.alloc(), lines)?;
    assert!(rt; written.as_slice() == text.as_bytes(), "{name}: {text}");
    Ok(())
}

/// Checks what is told of each step of a row, and the text of the lines, with a book that takes so many events.
fn plays(rt: &(impl Abort + AllocGlobal), row: &Row<'_>, limit: u32) -> Result<(), Fail> {
    let alloc = rt.alloc();
    let steps = read_steps(alloc, row.script)?;
    let code = code_of(alloc, row.plan)?;
    check_played(
        rt,
        row,
        &play_code(alloc, alloc, code, 1, limit, &steps, false)?,
    )
}

/// Checks what is told of each step of a row, and the text of the lines.
fn check_played(
    rt: &(impl Abort + AllocGlobal),
    row: &Row<'_>,
    played: &Played,
) -> Result<(), Fail> {
    are_told(rt, row.name, &played.told, row.script)?;
    check_lines(rt, row.name, &played.lines, row.trace)
}

/// Does so with each of some rows.
fn play_all(rt: &(impl Abort + AllocGlobal), rows: &[Row<'_>], limit: u32) -> Result<(), Fail> {
    for row in rows {
        plays(rt, row, limit)?;
    }
    Ok(())
}

#[test]
fn each_row_is_played(rt: HostRuntime) -> Result<(), Fail> {
    play_all(&rt, limits::FULL, 2)?;
    play_all(&rt, limits::ROWS, 100)?;
    play_all(&rt, handles::ROWS, AMPLE)?;
    play_all(&rt, results::ROWS, AMPLE)
}
