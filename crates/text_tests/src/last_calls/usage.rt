//! The examples of the comments, as they stand there: `tools/docs` compares them.
use call_lines::{Last, Said, all_spelled, line_at, line_count};
use executor_model::{Answer, Line, Message};
use std::process::Abort;

#[test]
fn the_page_is_run(rt: HostRuntime) {
    // example: call_lines
    let last = Last::Event {
        moment: 5,
        said: Said::Idle { worker: 1 },
    };
    assert!(rt; all_spelled(last, 5, &[]));
    assert_eq!(rt; line_count(last, 5, &[]), 2);
    let clock = Line::new(5, Message::Answer(Answer::Clock));
    let idle = Line::new(5, Message::Answer(Answer::Idle { worker: 1 }));
    assert_eq!(rt; line_at(last, 5, &[], 0), Some(clock));
    assert_eq!(rt; line_at(last, 5, &[], 1), Some(idle));
    assert_eq!(rt; line_at(last, 5, &[], 2), None);
    // end of example
}
