//! Cursors and agendas through examples by hand.
ghost use Rattle.std.specs.Prelude.{◌≡◌};
ghost use Rattle.queue_code.specs.Cursors.{IsCursorOf};

use super::code_of;
use queue_code::{Agenda, Code, CodeCall, Cursor, Instr};
use sched_time::{LONGEST, Timing, Which};
use std::alloc::Global;
use std::process::Abort;
use std::test::Fail;

/// Whether the cursor looks at these calls, and fetches them, next.
fn makes(cursor: &mut Cursor, code: &Code<Global>, calls: &[(u64, CodeCall)]) -> bool
    requires { IsCursorOf code.now cursor.old }
    ensures { IsCursorOf code.now cursor.new }
{
    for call in calls {
        let next = cursor.next_moment(code);
        let fetched = cursor.fetch(code);
        if next != Some(call.0) || fetched != Some(*call) {
            return false;
        }
    }
    true
}

/// Whether a code makes `times` illegal submissions, `every` nanoseconds apart, and then none.
fn submits_each(code: &Code<Global>, times: u32, every: u32) -> bool {
    let mut cursor = Cursor::new(code);
    for task in 0..times {
        let at = u64::from(task) * u64::from(every);
        if cursor.fetch(code) != Some((at, CodeCall::Illegal { task })) {
            return false;
        }
    }
    cursor.fetch(code).is_none()
}

/// A code's instructions, how many tasks they make, how many are executed up to the last call and up to the end, and the calls.
struct Row<'a> {
    name: &'a str,
    instrs: &'a [Instr],
    tasks: u32,
    steps: (u64, u64),
    calls: &'a [(u64, CodeCall)],
}

/// Rows, in which instructions and calls stand by their names.
macro_rules! rows {
    ($($name:literal, $tasks:literal tasks, steps $steps:expr;
        [$($instr:tt)*] => [$(($at:expr, $call:ident $({ $($field:ident: $value:expr),* })?)),*];)*) => {
        &[$(Row {
            name: $name,
            instrs: &instrs![$($instr)*],
            tasks: $tasks,
            steps: $steps,
            calls: &[$(($at, CodeCall::$call $({ $($field: $value),* })?)),*],
        }),*]
    };
}

/// Whether an agenda shows these calls next, twice each, and goes past them.
fn goes_past(agenda: &mut Agenda<Global>, calls: &[(u64, CodeCall)]) -> bool {
    for call in calls {
        let left = agenda.left();
        if left == 0 || agenda.next() != Some(*call) || agenda.next() != Some(*call) {
            return false;
        }
        if agenda.pass() != call.0 || agenda.left() != left - 1 {
            return false;
        }
    }
    true
}

/// Checks that a cursor and an agenda go through the calls of each code, and rest behind the last.
fn make_their_calls(rt: &(impl AllocGlobal + Abort), rows: &[Row<'_>]) -> Result<(), Fail> {
    for row in rows {
        let code = code_of(rt.alloc(), row.instrs)?;
        assert_eq!(rt; code.calls() as usize, row.calls.len(), "{}", row.name);
        assert_eq!(rt; code.tasks(), row.tasks, "{}", row.name);
        walks_and_rests(rt, row, &code);
        let mut agenda = Agenda::new(code);
        assert_eq!(rt; agenda.left(), row.calls.len(), "{}", row.name);
        assert!(rt; goes_past(&mut agenda, row.calls), "{}", row.name);
        assert_eq!(rt; agenda.left(), 0, "{}", row.name);
        assert_eq!(rt; agenda.next(), None, "{}", row.name);
    }
    Ok(())
}

/// Checks the steps of a cursor: past the last call it looks at none, and past the end it rests.
fn walks_and_rests(rt: &impl Abort, row: &Row<'_>, code: &Code<Global>) {
    let (last, end) = row.steps;
    let mut cursor = Cursor::new(code);
    assert_eq!(rt; cursor.steps(), 0, "{}", row.name);
    assert!(rt; makes(&mut cursor, code, row.calls), "{}", row.name);
    assert_eq!(rt; cursor.steps(), last, "{}", row.name);
    assert_eq!(rt; cursor.next_moment(code), None, "{}", row.name);
    assert_eq!(rt; cursor.steps(), last, "{}", row.name);
    assert_eq!(rt; cursor.fetch(code), None, "{}", row.name);
    assert_eq!(rt; cursor.steps(), end, "{}", row.name);
    assert_eq!(rt; cursor.next_moment(code), None, "{}", row.name);
    assert_eq!(rt; cursor.fetch(code), None, "{}", row.name);
    assert_eq!(rt; cursor.steps(), end, "{}", row.name);
}

#[test]
fn codes_make_their_calls(rt: HostRuntime) -> Result<(), Fail> {
    let rows: &[Row<'_>] = rows! {
        "a loop of three iterations with a submission and a cancel of it", 3 tasks, steps (9, 11);
        [Loop(3, 10), Submit(100, Timing::Once, 50), CancelHere(104, 0), EndLoop, Halt]
        => [
            (100, Submit { task: 0, timing: Timing::Once, delay: 50 }), (104, Cancel { task: 0 }),
            (110, Submit { task: 1, timing: Timing::Once, delay: 50 }), (114, Cancel { task: 1 }),
            (120, Submit { task: 2, timing: Timing::Once, delay: 50 }), (124, Cancel { task: 2 })
        ];

        "no call", 0 tasks, steps (0, 1);
        [Halt] => [];

        "calls at the first moment and at the last", 1 tasks, steps (5, 6);
        [Illegal(0), ShutdownNow(0), ShutdownNow(LONGEST), Shutdown(LONGEST), Ask(LONGEST), Halt]
        => [(0, Illegal { task: 0 }), (0, ShutdownNow), (LONGEST, ShutdownNow), (LONGEST, Shutdown), (LONGEST, Ask)];

        "a loop of one iteration", 1 tasks, steps (2, 4);
        [Loop(1, LONGEST), Illegal(LONGEST), EndLoop, Halt] => [(LONGEST, Illegal { task: 0 })];
    };
    make_their_calls(&rt, rows)
}

#[test]
fn cancels_policies_shutdowns_and_questions_are_made(rt: HostRuntime) -> Result<(), Fail> {
    let rows: &[Row<'_>] = rows! {
        "cancels of each kind", 6 tasks, steps (14, 15);
        [
            Illegal(1), Loop(2, 10), CancelFixed(2, 0), Illegal(3), Illegal(4), CancelHere(5, 1), EndLoop,
            CancelFixed(20, 1), Illegal(20), Halt
        ] => [
            (1, Illegal { task: 0 }),
            (2, Cancel { task: 0 }), (3, Illegal { task: 1 }), (4, Illegal { task: 2 }), (5, Cancel { task: 2 }),
            (12, Cancel { task: 0 }), (13, Illegal { task: 3 }), (14, Illegal { task: 4 }), (15, Cancel { task: 4 }),
            (20, Cancel { task: 1 }), (20, Illegal { task: 5 })
        ];

        "policies, shutdowns and questions", 2 tasks, steps (17, 18);
        [
            SetPolicy(1, Which::Continue, true), Loop(2, 10), Ask(2), Illegal(3), SetPolicy(4, Which::Execute, false),
            CancelHere(4, 0), ShutdownNow(4), EndLoop, Shutdown(14), SetPolicy(14, Which::Remove, true), Ask(15), Halt
        ] => [
            (1, SetPolicy { which: Which::Continue, value: true }), (2, Ask), (3, Illegal { task: 0 }),
            (4, SetPolicy { which: Which::Execute, value: false }), (4, Cancel { task: 0 }), (4, ShutdownNow),
            (12, Ask), (13, Illegal { task: 1 }),
            (14, SetPolicy { which: Which::Execute, value: false }), (14, Cancel { task: 1 }), (14, ShutdownNow),
            (14, Shutdown), (14, SetPolicy { which: Which::Remove, value: true }), (15, Ask)
        ];
    };
    make_their_calls(&rt, rows)
}

#[test]
fn loops_of_most_iterations(rt: HostRuntime) -> Result<(), Fail> {
    for every in [0u32, 1] {
        let instrs = instrs![Loop(65_536, u64::from(every)), Illegal(0), EndLoop, Halt];
        let code = code_of(rt.alloc(), &instrs)?;
        assert_eq!(rt; (code.calls(), code.tasks()), (65_536, 65_536));
        assert!(rt; submits_each(&code, 65_536, every));
    }
    Ok(())
}
