//! The examples of the comments, as they stand there: `tools/docs` compares them.
use queue_code::{Code, CodeCall, Cursor, Instr, listing};
use sched_time::Timing;
use std::test::Fail;

#[test]
fn the_page_is_run(rt: HostRuntime) -> Result<(), Fail> {
    let alloc = rt.alloc();
    // example: queue_code
    let instrs = vec![in alloc;
        Instr::Loop(3, 10),
        Instr::Submit(100, Timing::Once, 50),
        Instr::CancelHere(104, 0),
        Instr::EndLoop,
        Instr::Halt,
    ]?;
    let code = Code::check(alloc, instrs)?;
    assert_eq!(rt; (code.calls(), code.tasks()), (6, 3));
    let text = listing(alloc, &code)?;
    assert_eq!(rt; text.lines().nth(1), Some("1 submit 100 schedule 50"));
    // end of example
    Ok(())
}

#[test]
fn calls_are_fetched(rt: HostRuntime) -> Result<(), Fail> {
    let alloc = rt.alloc();
    // example: queue_code::Cursor::fetch
    let instrs = vec![in alloc;
        Instr::Loop(2, 10),
        Instr::Illegal(100),
        Instr::EndLoop,
        Instr::Halt,
    ]?;
    let code = Code::check(alloc, instrs)?;
    let mut cursor = Cursor::new(&code);
    let first = CodeCall::Illegal { task: 0 };
    assert_eq!(rt; cursor.fetch(&code), Some((100, first)));
    let second = CodeCall::Illegal { task: 1 };
    assert_eq!(rt; cursor.fetch(&code), Some((110, second)));
    assert_eq!(rt; cursor.fetch(&code), None);
    // end of example
    Ok(())
}
