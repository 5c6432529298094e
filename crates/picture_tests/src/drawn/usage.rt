//! The examples of the comments, as they stand there: `tools/docs` compares them.
use plan_read::read_plan;
use std::test::Fail;
use trace_check::check_and_read;
use trace_draw::{picture, place, whole_window};

#[test]
fn the_page_is_run(rt: HostRuntime) -> Result<(), Fail> {
    let alloc = rt.alloc();
    // example: trace_draw
    let plan =
        b"version = 2\n[[block]]\ncall = [ { op = \"schedule\", name = \"a\", delay = 5 } ]\n";
    let plan = read_plan(alloc, plan)?;
    let text = "0 submit 0 schedule due 5\n5 clock\n5 start 0 task 0 run 0 due 5\n\
        9 clock\n9 finish 0 task 0 run 0 done 7\n";
    let (_, lines) = check_and_read(alloc, &plan, 1, text.as_bytes())?;
    let window = whole_window(&lines); // from 0 to 9
    let shown = picture(alloc, &lines, 1, window, 2_000)?;
    assert_eq!(rt; shown.bars().len(), 1); // from the start at 5 to the finish at 9
    assert_eq!(rt; shown.marks().len(), 3); // the submission, and two clocks
    assert_eq!(rt; shown.ticks().len(), 5); // 0 ns, 2 ns, and so on to 8 ns
    assert_eq!(rt; place(window, 900, 5), 500);
    // end of example
    Ok(())
}
