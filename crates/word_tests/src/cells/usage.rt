//! The examples of the comments, as they stand there: `tools/docs` compares them.
use result_cell::{ResultCell, Verdict};
use sched_time::Ending;
use std::test::Fail;

#[test]
fn the_page_is_run(rt: HostRuntime) -> Result<(), Fail> {
    let alloc = rt.alloc();
    // example: result_cell
    let cell = ResultCell::new(alloc);
    let mut note = cell.note();
    assert_eq!(rt; cell.read(&mut note), None); // nobody has put a verdict

    let ending = Ending::Value(7);
    let done = Verdict { task: 0, ending };
    assert!(rt; cell.put(&mut note, Box::new(alloc, done)?).is_ok());

    let ending = Ending::Fault(3);
    let failed = Verdict { task: 0, ending };
    assert!(rt; cell.put(&mut note, Box::new(alloc, failed)?).is_err()); // the first one stands
    assert_eq!(rt; cell.read(&mut cell.note()), Some(done));
    // end of example
    Ok(())
}
