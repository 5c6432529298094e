//! Want of memory: each growth is refused in turn.

use super::read_lines;
use live_plain::trace_of_lines;
use refusing_allocator::Refusing;
use std::process::Abort;
use std::test::Fail;

#[test]
fn each_growth_is_refused_in_turn(rt: HostRuntime) -> Result<(), Fail> {
    let text = "call schedule 0\ncall rate 9 1\nstart 0\ncall shutdown_now\n";
    let lines = read_lines(rt.alloc(), text)?;
    for number in 1..100u64 {
        let heap = Refusing::new(rt.alloc());
        heap.refuse(number);
        let wants = trace_of_lines(&heap, 1, &lines).is_err();
        assert!(rt; wants == heap.has_refused(), "{number}");
        assert!(rt; heap.used() == 0, "{number}");
        if !wants {
            assert!(rt; number > 3, "{number}");
            return Ok(());
        }
    }
    Err("a growth was refused each time".into())
}
