//! The examples of the comments, as they stand there: `tools/docs` compares them.
use std::test::Fail;
use trace_svg::elements::{Fill, Rectangle};

#[test]
fn the_page_is_run(rt: HostRuntime) -> Result<(), Fail> {
    let alloc = rt.alloc();
    // example: trace_svg::elements
    let bar = Rectangle {
        fill: Fill::Done,
        left: 1,
        top: 2,
        width: 30,
        height: 4,
        tip: "a & b",
    };
    let text = format!(in alloc; "{bar}")?;
    let front = "<rect class=\"done\" x=\"1\" y=\"2\" width=\"30\" height=\"4\">";
    assert!(rt; text.starts_with(front));
    assert!(rt; text.ends_with("<title>a &amp; b</title></rect>\n"));
    // end of example
    Ok(())
}
