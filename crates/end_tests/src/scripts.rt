//! The example of the page, as it stands there: `tools/docs` compares them.
use scripted_runs::ends::{Giving, Script};
use std::io::Read;
use std::test::Fail;

#[test]
fn the_page_is_run(rt: HostRuntime) -> Result<(), Fail> {
    // example: scripted_runs::ends
    let script = Script {
        interrupts: 1,
        ..Script::smooth(3)
    };
    let mut reader = Giving::new(b"clock", b"", script);
    let mut buffer = [0u8; 5];
    assert!(rt; reader.read(&mut buffer).is_err()); // the first call is interrupted
    assert_eq!(rt; reader.read(&mut buffer)?, 3);
    assert_eq!(rt; reader.calls(), 2);
    // end of example
    Ok(())
}
