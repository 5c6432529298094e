//! The examples of the comments, as they stand there: `tools/docs` compares them.
use byte_ends::Writing;
use plan_read::read_plan;
use std::test::Fail;
use trace_svg::{Drawn, View, draw};

#[test]
fn the_page_is_run(rt: HostRuntime) -> Result<(), Fail> {
    let alloc = rt.alloc();
    // example: trace_svg
    let plan = read_plan(alloc, b"version = 2\n")?; // of no calls
    let view = View {
        from: None,
        to: None,
        marks: 2_000,
    };
    let mut writer = Writing::new(Vec::new(alloc));
    let drawn = draw(alloc, &plan, 1, b"5 clock\n", view, &mut writer)?;
    assert!(rt; matches!(drawn, Drawn::Drawn));
    let drawn = draw(alloc, &plan, 1, b"5 clock", view, &mut writer)?; // nothing is written
    assert!(rt; matches!(drawn, Drawn::Breaks(1)));
    assert!(rt; writer.into_inner().starts_with(b"<svg "));
    // end of example
    Ok(())
}
