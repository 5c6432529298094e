//! The examples of the comments, as they stand there: `tools/docs` compares them.
use crate::calls::read_plan;
use byte_ends::Writing;
use plan_compile::names_of_tasks;
use plan_list::write_tasks;
use std::test::Fail;

#[test]
fn the_page_is_run(rt: HostRuntime) -> Result<(), Fail> {
    let alloc = rt.alloc();
    // example: plan_list
    let text = b"version = 2\n[[block]]\ncall = [ { op = \"execute\", name = \"backup\" } ]\n";
    let mut writer = Writing::new(Vec::new(alloc));
    write_tasks(alloc, text, &mut writer)?;
    let lines = writer.into_inner();
    assert_eq!(rt;
        lines.as_slice(),
        b"0 backup schedule submitted 0 due 0\n".as_slice()
    );

    let plan = read_plan(alloc, text)?;
    let names = names_of_tasks(alloc, &plan)?;
    assert_eq!(rt; names.first().map(|name| name.as_str()), Some("backup")); // of task 0
    // end of example
    Ok(())
}
