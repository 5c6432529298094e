//! The examples of the comments, as they stand there: `tools/docs` compares them.
use byte_ends::{Pieces, Writing};
use command_line::{Asked, AskedAlone, RunArguments};
use command_work::{ProgramError, run_file};
use sched_program::tell;
use std::test::Fail;

#[test]
fn a_command_line_asks(rt: HostRuntime) -> Result<(), Fail> {
    let alloc = rt.alloc();
    // example: command_line
    let mut arguments = Vec::new(alloc);
    for word in ["sched", "code", "plan.toml"] {
        arguments.push(String::from_str(alloc, word)?)?;
    }
    let path = match Asked::parse(alloc, &arguments) {
        Ok(Asked::Alone(AskedAlone::Code(code))) => code.path,
        _ => "another command, or a fault",
    };
    assert!(rt; path == "plan.toml");
    // end of example
    Ok(())
}

#[test]
fn a_plan_is_run(rt: HostRuntime) {
    let alloc = rt.alloc();
    // example: command_work
    let asked = RunArguments {
        path: "plan.toml",
        workers: 1,
        limit: 100,
    };
    let plan = Ok(Pieces::new(b"version = 2\n", 512)); // of no calls
    let mut events = Pieces::new(b"clock 5\n", 512);
    let mut trace = Writing::new(Vec::new(alloc));
    let status = run_file(alloc, &asked, plan, &mut events, &mut trace);
    assert!(rt; status == Ok(0));
    assert!(rt; trace.into_inner().as_slice() == b"5 clock\n".as_slice());
    // end of example
}

#[test]
fn an_error_is_told(rt: HostRuntime) {
    let alloc = rt.alloc();
    // example: sched_program
    let mut faults = Writing::new(Vec::new(alloc));
    let status = tell(&mut faults, Err(ProgramError::PlanFile), None);
    assert!(rt; status == 1);
    assert!(rt; faults.into_inner().as_slice() == b"sched: plan file not read\n".as_slice());
    // end of example
}
