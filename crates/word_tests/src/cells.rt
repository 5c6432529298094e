//! Tests of the cells: what no contract says, and how callers rest on what the contracts say.
mod usage;

ghost use Rattle.std.specs.Prelude.{◌≡◌, ◌≢◌, ℕ, ◌<◌, true, false, ◌&&◌, Some, length, IfOk, OnOk, IfSome};
ghost use Rattle.result_cell.specs.Cells.{KnowTheSame, AreNotesOf, known_at};

use result_cell::{Note, ResultCell, Verdict, same};
use sched_time::Ending;
use std::alloc::{AllocError, Global};
use std::test::Fail;
use std::thread;
use std::thread::Threads;

// The verdicts that the tests put.
const FIRST: Verdict = Verdict {
    task: 3,
    ending: Ending::Value(7),
};

const SECOND: Verdict = Verdict {
    task: 4,
    ending: Ending::Fault(9),
};

// By whose note a step is done: one of two that are kept, or a new one.
#[derive(Clone, Copy)]
enum Who {
    One,
    Two,
    New,
}

// What is done with a cell.
#[derive(Clone, Copy)]
enum Act {
    Read,
    Put(Verdict),
}

// A step, and what it tells: the verdict that is read, or that comes back.
type Step = (Who, Act, Option<Verdict>);

// Does one step.
fn done_by(
    alloc: Global,
    cell: &ResultCell,
    note: &mut Note<Verdict>,
    act: Act,
) -> Result<Option<Verdict>, AllocError>
    requires { note.old.cell ≡ cell.now }
    ensures { note.new.cell ≡ note.old.cell }
{
    match act {
        Act::Read => Ok(cell.read(note)),
        Act::Put(verdict) => match cell.put(note, Box::new(alloc, verdict)?) {
            Ok(()) => Ok(None),
            Err(back) => Ok(Some(Box::into_inner(back))),
        },
    }
}

// Does the steps. Whether each tells what it has to.
fn all_told(
    alloc: Global,
    cell: &ResultCell,
    one: &mut Note<Verdict>,
    two: &mut Note<Verdict>,
    steps: &[Step],
) -> Result<bool, AllocError>
    requires { (one.old.cell ≡ cell.now) × (two.old.cell ≡ cell.now) }
{
    for (who, act, told) in steps {
        let found = match who {
            Who::One => done_by(alloc, cell, one, *act)?,
            Who::Two => done_by(alloc, cell, two, *act)?,
            Who::New => done_by(alloc, cell, &mut cell.note(), *act)?,
        };
        if found != *told {
            return Ok(false);
        }
    }
    Ok(true)
}

// Does the steps with a new cell. Whether each tells what it has to.
fn plays(alloc: Global, steps: &[Step]) -> Result<bool, AllocError> {
    let cell = ResultCell::new(alloc);
    let (mut one, mut two) = (cell.note(), cell.note());
    all_told(alloc, &cell, &mut one, &mut two, steps)
}

const FIRST_STANDS: &[Step] = &[
    (Who::One, Act::Read, None),
    (Who::One, Act::Put(FIRST), None),
    (Who::One, Act::Read, Some(FIRST)),
    (Who::One, Act::Put(SECOND), Some(SECOND)),
    (Who::One, Act::Read, Some(FIRST)),
];

#[test]
fn the_first_verdict_stands(rt: HostRuntime) -> Result<(), Fail> {
    assert!(rt; plays(rt.alloc(), FIRST_STANDS)?);
    Ok(())
}

const PUT_BY_A_NEW_NOTE: &[Step] = &[
    (Who::New, Act::Put(FIRST), None),
    (Who::One, Act::Put(SECOND), Some(SECOND)),
    (Who::One, Act::Read, Some(FIRST)),
    (Who::New, Act::Read, Some(FIRST)),
];

#[test]
fn a_new_note_reads_the_first_verdict(rt: HostRuntime) -> Result<(), Fail> {
    assert!(rt; plays(rt.alloc(), PUT_BY_A_NEW_NOTE)?);
    Ok(())
}

// Whether the first verdict that is put is accepted and stands, and another one comes back as it was twice, by notes that
// knew the first one and by a note that knew nothing.
fn only_the_first_is_accepted(
    alloc: Global,
    first: Verdict,
    other: Verdict,
) -> Result<bool, AllocError> {
    let steps = [
        (Who::One, Act::Put(first), None),
        (Who::Two, Act::Put(other), Some(other)),
        (Who::One, Act::Put(other), Some(other)),
        (Who::One, Act::Read, Some(first)),
        (Who::Two, Act::Read, Some(first)),
        (Who::New, Act::Read, Some(first)),
    ];
    plays(alloc, &steps)
}

// Verdicts of tasks and endings of many sizes.
const TASKS: &[u32] = &[0, 1, 2, 3, 5, 70, 65_535, 65_536, u32::MAX];

const ENDINGS: &[Ending] = &[
    Ending::Value(0),
    Ending::Value(u64::MAX),
    Ending::Fault(0),
    Ending::Fault(u32::MAX),
];

// Whether the first of two verdicts stands, one of them being this one, and the other one of the two above, or the same.
fn stands(alloc: Global, verdict: Verdict) -> Result<bool, AllocError> {
    Ok(
        only_the_first_is_accepted(alloc, verdict, FIRST)?
            && only_the_first_is_accepted(alloc, verdict, verdict)?
            && only_the_first_is_accepted(alloc, SECOND, verdict)?,
    )
}

#[test]
fn the_first_verdict_of_any_task_stands(rt: HostRuntime) -> Result<(), Fail> {
    for task in TASKS {
        for ending in ENDINGS {
            let verdict = Verdict {
                task: *task,
                ending: *ending,
            };
            assert!(rt; stands(rt.alloc(), verdict)?, "{verdict:?}");
        }
    }
    Ok(())
}

// What two notes of one cell read, which is the same where both read a verdict.
fn read_by_two(
    cell: &ResultCell,
    one: &mut Note<Verdict>,
    other: &mut Note<Verdict>,
) -> (Option<Verdict>, Option<Verdict>)
    requires one { one.old.cell ≡ cell.now }
    requires other { other.old.cell ≡ cell.now }
    ensures agree { KnowTheSame result.0 result.1 }
    ensures one { (one.new.cell ≡ one.old.cell) × (one.new.known ≡ result.0) }
    ensures other { (other.new.cell ≡ other.old.cell) × (other.new.known ≡ result.1) }
{
    let first = cell.read(one);
    let second = cell.read(other);
    same(one, other);
    (first, second)
}

#[test]
fn notes_of_one_cell_agree(rt: HostRuntime) -> Result<(), Fail> {
    let alloc = rt.alloc();
    let cell = ResultCell::new(alloc);
    let mut one = cell.note();
    let mut other = cell.note();
    same(&mut one, &mut other);
    assert!(rt; read_by_two(&cell, &mut one, &mut other) == (None, None));
    assert!(rt; cell.put(&mut one, Box::new(alloc, FIRST)?).is_ok());
    same(&mut one, &mut other);
    assert!(rt; read_by_two(&cell, &mut one, &mut other) == (Some(FIRST), Some(FIRST)));
    same(&mut one, &mut other);
    Ok(())
}

// Reads the cell of a task by the note of that task, for a caller with a cell and a note for each task.
#[tactic(auto, using(result_cell::proofs::Notes::known_elsewhere))]
fn read_of(cells: &[ResultCell], notes: &mut Vec<Note<Verdict>>, task: u32) -> Option<Verdict>
    requires below { task < length cells.now }
    requires notes { AreNotesOf notes.old.items cells.now }
    ensures notes { AreNotesOf notes.new.items cells.now }
    ensures known { result ≡ known_at notes.new.items task }
    ensures others { (j : ℕ) → j ≢ task → known_at notes.new.items j ≡ known_at notes.old.items j }
{
    let k = task as usize;
    cells[k].read(&mut notes[k])
}

// A note of each cell.
fn notes_of(alloc: Global, cells: &[ResultCell]) -> Result<Vec<Note<Verdict>>, AllocError>
    ensures { IfOk result (λ notes. AreNotesOf notes.items cells.now) }
{
    let mut notes = Vec::new(alloc);
    for cell in cells {
        notes.push(cell.note())?;
    }
    Ok(notes)
}

#[test]
fn each_task_has_a_cell_and_a_note(rt: HostRuntime) -> Result<(), Fail> {
    let alloc = rt.alloc();
    let cells = [ResultCell::new(alloc), ResultCell::new(alloc)];
    let mut notes = notes_of(alloc, &cells)?;
    assert!(rt; cells[1].put(&mut notes[1], Box::new(alloc, FIRST)?).is_ok());
    assert!(rt; read_of(&cells, &mut notes, 0).is_none());
    assert!(rt; read_of(&cells, &mut notes, 1) == Some(FIRST));
    Ok(())
}

// Puts a verdict in one thread and reads in another. Says whether it was accepted, and what was read: that very
// verdict, if both.
fn hand_over<R: Threads + Sync>(
    rt: &R,
    cell: &ResultCell,
    verdict: Box<Verdict>,
) -> (Result<(), Box<Verdict>>, Option<Verdict>)
    ensures { OnOk result.0 (IfSome result.1 (λ v. v ≡ verdict.value)) }
{
    let mut mine = cell.note();
    let mut theirs = cell.note();
    let ((answer, mut mine), (found, mut theirs)) = thread::join(
        rt,
        move || -> (Result<(), Box<Verdict>>, Note<Verdict>)
            requires { mine.cell ≡ cell.now }
            ensures { (result.1.cell ≡ cell.entry.now)
                × OnOk result.0 (result.1.known ≡ Some verdict.value) }
        {
            let answer = cell.put(&mut mine, verdict);
            (answer, mine)
        },
        move || -> (Option<Verdict>, Note<Verdict>)
            requires { theirs.cell ≡ cell.now }
            ensures { (result.1.cell ≡ cell.entry.now) × (result.1.known ≡ result.0) }
        {
            let found = cell.read(&mut theirs);
            (found, theirs)
        },
    );
    same(&mut mine, &mut theirs);
    (answer, found)
}

#[test]
fn another_thread_reads_what_was_put(rt: HostRuntime) -> Result<(), Fail> {
    let alloc = rt.alloc();
    for _round in 0..100u32 {
        let cell = ResultCell::new(alloc);
        let (answer, found) = hand_over(&rt, &cell, Box::new(alloc, FIRST)?);
        assert!(rt; answer.is_ok());
        assert!(rt; found.is_none() || found == Some(FIRST));
    }
    Ok(())
}

// Puts a verdict with a note of its own. Says whether it was accepted.
fn put_once(cell: &ResultCell, verdict: Box<Verdict>) -> (bool, Note<Verdict>)
    ensures cell { result.1.cell ≡ cell.now }
    ensures accepted { result.0 ≡ true → result.1.known ≡ Some verdict.value }
{
    let mut note = cell.note();
    let accepted = cell.put(&mut note, verdict).is_ok();
    (accepted, note)
}

// Puts two verdicts in two threads. Where they are different, one at most is accepted.
fn put_both<R: Threads + Sync>(
    rt: &R,
    cell: &ResultCell,
    one: Box<Verdict>,
    two: Box<Verdict>,
) -> (bool, bool)
    ensures { one.value ≢ two.value → (result.0 && result.1) ≡ false }
{
    let ((first, mut mine), (second, mut theirs)) = thread::join(
        rt,
        move || -> (bool, Note<Verdict>)
            ensures { (result.1.cell ≡ cell.entry.now)
                × (result.0 ≡ true → result.1.known ≡ Some one.value) }
        { put_once(cell, one) },
        move || -> (bool, Note<Verdict>)
            ensures { (result.1.cell ≡ cell.entry.now)
                × (result.0 ≡ true → result.1.known ≡ Some two.value) }
        { put_once(cell, two) },
    );
    same(&mut mine, &mut theirs);
    (first, second)
}

#[test]
fn one_of_two_threads_puts(rt: HostRuntime) -> Result<(), Fail> {
    let alloc = rt.alloc();
    for _round in 0..100u32 {
        let cell = ResultCell::new(alloc);
        let (one, two) = (Box::new(alloc, FIRST)?, Box::new(alloc, SECOND)?);
        let (first, second) = put_both(&rt, &cell, one, two);
        assert!(rt; first != second);
    }
    Ok(())
}

// What the threads of a race do: the verdict that one puts, or `None` where it looks for one.
const TURNS: &[Option<Verdict>] = &[None, Some(FIRST), None, None, Some(SECOND), None];

// What a thread of a race found: whether its verdict was accepted, and what it read last.
#[derive(Clone, Copy)]
struct Found {
    accepted: bool,
    verdict: Option<Verdict>,
}

// How often a thread looks for a verdict.
const LOOKS: u32 = 10_000;

// Reads until there is a verdict, some times at most.
fn look_for(cell: &ResultCell) -> Option<Verdict> {
    let mut note = cell.note();
    for _ in 0..LOOKS {
        let found = cell.read(&mut note);
        if found.is_some() {
            return found;
        }
        thread::yield_now();
    }
    None
}

// Puts a verdict and reads, with a note of its own.
fn put_and_read(cell: &ResultCell, verdict: Box<Verdict>) -> Found {
    let mut note = cell.note();
    let accepted = cell.put(&mut note, verdict).is_ok();
    Found {
        accepted,
        verdict: cell.read(&mut note),
    }
}

// One thread's part in a race. Where memory is wanting for a verdict it finds nothing, as no put may.
fn take_turn(alloc: Global, cell: &ResultCell, turn: Option<Verdict>) -> Found {
    let Some(verdict) = turn else {
        return Found {
            accepted: false,
            verdict: look_for(cell),
        };
    };
    match Box::new(alloc, verdict) {
        Ok(verdict) => put_and_read(cell, verdict),
        Err(_) => Found {
            accepted: false,
            verdict: None,
        },
    }
}

// Two threads put and four read.
fn race<R: Threads + Sync>(
    rt: &R,
    alloc: Global,
    cell: &ResultCell,
) -> Result<Vec<Found>, AllocError> {
    let turns = TURNS.to_vec(alloc)?;
    thread::map_vec(rt, turns, &|turn| take_turn(alloc, cell, turn))
}

// Whether a thread that put a verdict, or looked for one, found what it may, by the verdict that the cell holds at last:
// that of the thread which was accepted, and no other was. Who put reads it, and who looked reads it or nothing.
fn is_sound(put: Option<Verdict>, found: Found, last: Option<Verdict>) -> bool {
    let accepted = put.is_some() && last == put;
    let reads = found.verdict == last || (put.is_none() && found.verdict.is_none());
    found.accepted == accepted && reads
}

#[test]
fn one_of_two_threads_sets_the_cell(rt: HostRuntime) -> Result<(), Fail> {
    let alloc = rt.alloc();
    for _round in 0..200u32 {
        let cell = ResultCell::new(alloc);
        let found = race(&rt, alloc, &cell)?;
        let last = cell.read(&mut cell.note());
        assert!(rt; found.len() == TURNS.len() && (last == Some(FIRST) || last == Some(SECOND)));
        for (turn, found) in TURNS.iter().zip(&found) {
            assert!(rt; is_sound(*turn, *found, last), "{turn:?}");
        }
    }
    Ok(())
}

// Only for their bounds.
fn may_cross<T: Send>(_it: &T) {}

fn may_be_shared<T: Sync>(_it: &T) {}

#[test]
fn cells_and_notes_may_go_to_other_threads(rt: HostRuntime) {
    let cell = ResultCell::new(rt.alloc());
    may_cross(&cell);
    may_be_shared(&cell);
    may_cross(&cell.note());
}
