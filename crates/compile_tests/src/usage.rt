//! The examples of the comments, as they stand there: `tools/docs` compares them.
use crate::calls::{compile, listing, read_plan};
use plan_read::migrate;
use queue_code::{CodeCall, Cursor};
use std::test::Fail;

#[test]
fn the_page_of_plan_read_is_run(rt: HostRuntime) -> Result<(), Fail> {
    let alloc = rt.alloc();
    // example: plan_read
    let text = "version = 2\n[[block]]\ntimes = 7\nevery = 1\nevery_unit = \"d\"\n";
    let plan = read_plan(alloc, text.as_bytes())?;
    let block = plan.blocks().first().ok_or("no block")?;
    assert_eq!(rt; (block.times(), block.every()), (7, 86_400_000_000_000));

    let newer = migrate(alloc, b"version = 1\n[[block]]\nat = 5\n")?;
    assert_eq!(rt; read_plan(alloc, newer.as_bytes())?.blocks().len(), 1);
    // end of example
    Ok(())
}

#[test]
fn a_fault_is_told(rt: HostRuntime) -> Result<(), Fail> {
    let alloc = rt.alloc();
    // example: plan_read::read_plan
    let fault = read_plan(alloc, b"version = 2\n[[block]]\ntimes = 7\n").err();
    let fault = fault.ok_or("a plan")?;
    let told = fault.to_string(alloc)?; // `every` is missing
    assert_eq!(rt; told.as_str(), "Missing block 1 call 0");
    // end of example
    Ok(())
}

#[test]
fn the_page_of_plan_compile_is_run(rt: HostRuntime) -> Result<(), Fail> {
    let alloc = rt.alloc();
    // example: plan_compile
    let text = "version = 2\n[[block]]\nat = 100\ntimes = 3\nevery = 10\n\
        call = [ { op = \"schedule\", name = \"a\", delay = 50 }, { op = \"ask\", at = 4 } ]\n";
    let plan = read_plan(alloc, text.as_bytes())?;
    let code = compile(alloc, &plan)?;
    let listed = "0 loop 3 every 10\n1 submit 100 schedule 50\n2 ask 104\n3 endloop\n4 halt\n";
    assert_eq!(rt; listing(alloc, &code)?.as_str(), listed);
    // end of example
    Ok(())
}

#[test]
fn the_calls_of_a_plan_are_made(rt: HostRuntime) -> Result<(), Fail> {
    let alloc = rt.alloc();
    // example: plan_compile::compile
    let text = b"version = 2\n[[block]]\nat = 5\n[[block.call]]\nop = \"ask\"\n";
    let code = compile(alloc, &read_plan(alloc, text)?)?;
    assert_eq!(rt; (code.calls(), code.tasks()), (1, 0));
    let mut cursor = Cursor::new(&code);
    assert_eq!(rt; cursor.fetch(&code), Some((5, CodeCall::Ask)));
    assert_eq!(rt; cursor.fetch(&code), None);
    // end of example
    Ok(())
}
