//! The plan that the calls of a live run are written as.

use byte_ends::Writing;
use call_journal::{CallLine, Journal, MadeCall};
use command_work::{ProgramError, write_plan, write_plan_text};
use plan_read::{PlanFault, PlanFaultKind};
use sched_engine::RunError;
use scripted_runs::ends::{Script, Taking};
use std::alloc::Global;
use std::io;
use std::io::ErrorKind;
use std::process::Abort;
use std::test::Fail;

/// A journal of so many calls, each an ask at the moment of its number.
fn asks(alloc: Global, calls: u64) -> Result<Journal<Global>, Fail> {
    let mut journal = Journal::new(alloc, true);
    for moment in 0..calls {
        journal.make_room()?;
        journal.note(MadeCall {
            moment,
            call: CallLine::Ask,
        });
    }
    Ok(journal)
}

/// How the plan of a journal is written where a file is not to be touched.
fn untouched(rt: &impl AllocGlobal, journal: &Journal<Global>) -> Result<(), ProgramError> {
    let create = |_: &str| -> io::Result<Writing<io::Sink>> {
        Err(io::Error::from(ErrorKind::Unsupported))
    };
    write_plan(rt.alloc(), journal, "calls.toml", create)
}

/// The fault of a plan as a whole.
fn of_plan(kind: PlanFaultKind) -> Result<(), ProgramError> {
    Err(ProgramError::Run(RunError::Plan(PlanFault {
        kind,
        block: 0,
        call: 0,
    })))
}

#[test]
fn tells_a_plan_of_too_many_calls(rt: HostRuntime) -> Result<(), Fail> {
    let journal = asks(rt.alloc(), 65_537)?;
    assert!(&rt; untouched(&rt, &journal) == of_plan(PlanFaultKind::TooMany));
    Ok(())
}

#[test]
fn tells_a_plan_whose_text_is_too_long(rt: HostRuntime) -> Result<(), Fail> {
    let journal = asks(rt.alloc(), 40_000)?;
    assert!(&rt; untouched(&rt, &journal) == of_plan(PlanFaultKind::TooLong));
    Ok(())
}

/// The text of a plan over files with a script.
#[test]
fn writes_the_text_of_a_plan(rt: HostRuntime) {
    let five = Script::smooth(5);
    let full = Script {
        trouble_at: 3,
        ..five
    };
    for (script, taken, is_written) in [
        (five, "version = 2\n", true),
        (full, "version = ", false),
    ] {
        let mut file = Writing::new(Taking::new(rt.alloc(), script));
        let written = write_plan_text(&mut file, b"version = 2\n");
        assert!(&rt; written.is_ok() == is_written);
        assert!(&rt; file.into_inner().taken() == taken.as_bytes(), "{taken}");
    }
}
