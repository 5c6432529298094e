//! The examples of the comments, as they stand there: `tools/docs` compares them.
use byte_ends::{Filled, HeldBytes, Pieces, Writing, write_text};
use std::test::Fail;

#[test]
fn the_page_is_run(rt: HostRuntime) -> Result<(), Fail> {
    let alloc = rt.alloc();
    // example: byte_ends
    let mut source = Pieces::new(b"5 clock\n", 7); // in place of `Reading::new(rt.stdin())`
    let mut held = HeldBytes::new(alloc)?;
    assert_eq!(rt; held.fill(&mut source), Filled::More);
    assert_eq!(rt; held.bytes(), b"5 clock".as_slice()); // the 7 bytes of one read

    let mut sink = Writing::new(Vec::new(alloc)); // in place of `Writing::new(rt.stdout())`
    assert!(rt; write_text(&mut sink, held.bytes())); // false: the sink is at fault
    assert_eq!(rt; sink.into_inner().as_slice(), b"5 clock".as_slice());
    // end of example
    Ok(())
}
