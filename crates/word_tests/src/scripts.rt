//! Scripts: what is done with a table of words by its core and one handle, and what is told of each step.
ghost use Rattle.std.specs.Prelude.{◌≡◌, ◌<◌};

use crate::moves::{Move, moved, submit_vacant};
use std::alloc::{AllocGlobal, Allocator};
use std::process::Abort;
use std::test::Fail;
use task_word::*;

/// What is done with a task.
#[derive(Clone, Copy)]
enum Act {
    Submit,
    Move(Move),
    /// The handle cancels it while it is run, and its end comes late.
    DoneLate,
    /// The core's seat cancels it.
    Cancel,
    Look,
    HandleCancel,
    HandleState,
}

/// What is told.
#[derive(Clone, Copy, PartialEq, Eq)]
enum Told {
    Submitted(bool),
    Moved(Option<Moved>),
    DoneLate(CancelAnswer, Moved),
    Cancel(CoreCancel),
    /// The word's number.
    Look(u64),
    HandleCancel(CancelAnswer),
    HandleState(TaskState),
    /// The task is not run, or is none of the table.
    Nothing,
}

/// What is done with which task, and what is told.
type Step = (Act, u32, Told);

/// Ends a task, if it is run, once the handle has cancelled it behind the core's back.
fn done_late<A: Allocator>(
    words: &TaskWords<A>,
    core: &mut CoreSeat<A>,
    handle: &mut HandleSeat,
    task: u32,
) -> Told
    requires core { (core.old.table ≡ words.now.table) × (task < words.now.tasks) }
    requires handle { handle.old.table ≡ words.now.table }
    ensures { (core.new.table ≡ core.old.table) × (handle.new.table ≡ handle.old.table) }
{
    let word = core.look(words, task);
    if word.phase() != Phase::Running || word.is_cancelled() {
        return Told::Nothing;
    }
    let answer = handle.cancel(words, task);
    Told::DoneLate(answer, core.done(words, task))
}

/// What the core does with a task of the table.
fn core_step<A: Allocator>(
    words: &TaskWords<A>,
    core: &mut CoreSeat<A>,
    task: u32,
    act: Act,
) -> Told
    requires { (core.old.table ≡ words.now.table) × (task < words.now.tasks) }
    ensures { core.new.table ≡ core.old.table }
{
    match act {
        Act::Submit => Told::Submitted(submit_vacant(words, core, task)),
        Act::Move(how) => Told::Moved(moved(words, core, task, how)),
        Act::Cancel => Told::Cancel(core.cancel(words, task)),
        Act::Look => Told::Look(core.look(words, task).value()),
        _ => Told::Nothing,
    }
}

/// Does one step; the table has so many tasks.
fn step_of<A: Allocator>(
    words: &TaskWords<A>,
    core: &mut CoreSeat<A>,
    handle: &mut HandleSeat,
    tasks: u32,
    task: u32,
    act: Act,
) -> Told
    requires core { (core.old.table ≡ words.now.table) × (tasks ≡ words.now.tasks) }
    requires handle { handle.old.table ≡ words.now.table }
    ensures { (core.new.table ≡ core.old.table) × (handle.new.table ≡ handle.old.table) }
{
    match act {
        Act::HandleCancel => Told::HandleCancel(handle.cancel(words, task)),
        Act::HandleState => Told::HandleState(handle.state(words, task)),
        _ if task >= tasks => Told::Nothing,
        Act::DoneLate => done_late(words, core, handle, task),
        _ => core_step(words, core, task, act),
    }
}

/// Does the steps, and checks what is told of each.
fn do_steps<A: Allocator>(
    rt: &impl Abort,
    words: &TaskWords<A>,
    core: &mut CoreSeat<A>,
    handle: &mut HandleSeat,
    tasks: u32,
    steps: &[Step],
)
    requires core { (core.old.table ≡ words.now.table) × (tasks ≡ words.now.tasks) }
    requires handle { handle.old.table ≡ words.now.table }
    ensures { (core.new.table ≡ core.old.table) × (handle.new.table ≡ handle.old.table) }
{
    for (place, (act, task, told)) in steps.iter().enumerate() {
        let found = step_of(words, core, handle, tasks, *task, *act);
        assert!(rt; found == *told, "step {place}");
    }
}

/// Does the steps with a new table of so many tasks, and checks what is told of each, and the words at the end.
fn plays(
    rt: &(impl Abort + AllocGlobal),
    tasks: u32,
    steps: &[Step],
    last: &[u64],
) -> Result<(), Fail> {
    let (words, mut core) = TaskWords::new(rt.alloc(), tasks)?;
    let mut handle = core.split(&words)?;
    do_steps(rt, &words, &mut core, &mut handle, tasks, steps);
    core.join(&words, handle);
    assert!(rt; words.close(rt.alloc(), core)?.as_slice() == last);
    Ok(())
}

/// A move that is made.
const YES: Told = Told::Moved(Some(Moved::Yes));

const CANCELLED_WHILE_RUN: &[Step] = &[
    (Act::Submit, 0, Told::Submitted(true)),
    (Act::Look, 0, Told::Look(1)),
    (Act::Move(Move::Start), 0, YES),
    (Act::Look, 0, Told::Look(2)),
    (
        Act::HandleCancel,
        1,
        Told::HandleCancel(CancelAnswer::Absent),
    ),
    (
        Act::DoneLate,
        0,
        Told::DoneLate(CancelAnswer::Yes, Moved::Cancelled),
    ),
    (Act::Cancel, 0, Told::Cancel(CoreCancel::Late)),
    (Act::Look, 0, Told::Look(9223372036854775810)),
    // It is vacant, with the bit, which a submission clears.
    (Act::Look, 1, Told::Look(9223372036854775808)),
    (Act::Submit, 1, Told::Submitted(true)),
    (Act::Look, 1, Told::Look(1)),
    (Act::HandleState, 1, Told::HandleState(TaskState::Waiting)),
    (Act::HandleState, 2, Told::HandleState(TaskState::NoTask)),
    (
        Act::HandleCancel,
        2,
        Told::HandleCancel(CancelAnswer::NoTask),
    ),
];

#[test]
fn a_handle_cancels_a_task_that_is_run(rt: HostRuntime) -> Result<(), Fail> {
    plays(&rt, 2, CANCELLED_WHILE_RUN, &[9223372036854775810, 1])
}

const RUN_TWICE: &[Step] = &[
    (Act::Submit, 0, Told::Submitted(true)),
    (Act::Move(Move::Start), 0, YES),
    (Act::Move(Move::Rearm), 0, YES),
    (Act::Look, 0, Told::Look(9)),
    (Act::Move(Move::Start), 0, YES),
    (Act::Look, 0, Told::Look(10)),
    (Act::Move(Move::Fail), 0, YES),
    (Act::Look, 0, Told::Look(12)),
    (Act::Cancel, 0, Told::Cancel(CoreCancel::Over)),
    (Act::HandleCancel, 0, Told::HandleCancel(CancelAnswer::No)),
    (Act::HandleState, 0, Told::HandleState(TaskState::Failed)),
];

#[test]
fn a_task_runs_twice_and_fails(rt: HostRuntime) -> Result<(), Fail> {
    plays(&rt, 1, RUN_TWICE, &[9223372036854775820])
}
