//! Faults: of plans, and of writers.
use super::*;
use scripted_runs::ends::{Script, Taking, Trouble};
use std::io::ErrorKind;

/// Texts that are no plans, and the fault of each.
const FAULTS: &[(&str, PlanFaultKind, u32, u32)] = &[
    ("version = 3", PlanFaultKind::Version, 0, 0),
    (
        "version = 1\n[[block]]\ncall = [ { op = \"execute\", name = \"a\" }, { op = \"execute\", name = \"a\" } ]",
        PlanFaultKind::DuplicateName,
        1,
        2,
    ),
];

#[test]
fn writes_nothing_of_a_text_that_is_no_plan(rt: HostRuntime) {
    for (plan, kind, block, call) in FAULTS {
        let (answer, text) = written(rt.alloc(), plan);
        let fault = PlanFault {
            kind: *kind,
            block: *block,
            call: *call,
        };
        assert!(rt; answer == Err(RunError::Plan(fault)), "{plan}: {answer:?}");
        assert!(rt; text.is_empty());
    }
}

/// The tasks of a plan through a writer with a script: what was answered, whether what it took is a front of the lines, and
/// how many bytes that is.
fn scripted(alloc: Global, script: Script) -> (Result<(), RunError>, bool, usize) {
    let mut writer = Writing::new(Taking::new(alloc, script));
    let answer = write(alloc, EACH_KIND, &mut writer);
    let end = writer.into_inner();
    let taken = end.taken();
    (answer, ITS_TASKS.as_bytes().starts_with(taken), taken.len())
}

/// Checks that a writer with a trouble at its write of this number has the front that it took before.
fn writes_a_front(rt: &(impl AllocGlobal + Abort), trouble_at: u32, trouble: Trouble) {
    let script = Script {
        trouble_at,
        trouble,
        ..Script::smooth(7)
    };
    let (answer, is_front, len) = scripted(rt.alloc(), script);
    assert!(rt; answer == Err(RunError::Write), "{answer:?}");
    assert!(rt; is_front);
    assert!(rt; len as u64 == 7 * u64::from(trouble_at).saturating_sub(1));
}

#[test]
fn a_front_is_written_where_the_writer_is_at_fault(rt: HostRuntime) {
    for trouble_at in 1..5u32 {
        writes_a_front(&rt, trouble_at, Trouble::TakesNothing);
        writes_a_front(&rt, trouble_at, Trouble::Fails(ErrorKind::BrokenPipe));
    }
}

#[test]
fn an_interrupted_write_is_tried_again(rt: HostRuntime) {
    let script = Script {
        interrupts: 3,
        ..Script::smooth(100)
    };
    let (answer, is_front, len) = scripted(rt.alloc(), script);
    assert!(rt; answer == Ok(()), "{answer:?}");
    assert!(rt; is_front && len == ITS_TASKS.len());
}
