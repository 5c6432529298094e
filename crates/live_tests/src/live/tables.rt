//! The example of the page of `task_table`, as it stands there: `tools/docs` compares them.
use executor_model::EventError;
use std::test::Fail;
use task_table::TaskTable;

#[test]
fn the_page_is_run(rt: HostRuntime) -> Result<(), Fail> {
    let alloc = rt.alloc();
    // example: task_table
    let mut table = TaskTable::new(alloc, 2)?;
    table.reserve(3)?; // slots for three tasks
    assert_eq!(rt; (table.workers(), table.slots()), (2, 3));
    table.clock(5)?;
    assert_eq!(rt; table.clock(4), Err(EventError::Backward));
    assert_eq!(rt; (table.now(), table.next_due()), (5, None)); // no task waits
    assert_eq!(rt; table.head_due(), None); // and none is kept
    // end of example
    Ok(())
}
