//! Rows of plans and events: a book answers each as the row says, without handles.
use super::{AMPLE, check_lines, code_of, play_code, read_steps};
use scripted_runs::{Row, TOPICS, topic};
use std::alloc::AllocGlobal;
use std::process::Abort;
use std::test::Fail;

/// Checks the lines of a book that takes the events of a row.
fn answers(rt: &(impl Abort + AllocGlobal), row: &Row) -> Result<(), Fail> {
    let alloc = rt.alloc();
    let steps = read_steps(alloc, row.events)?;
    let code = code_of(alloc, row.plan)?;
    let played = play_code(alloc, alloc, code, row.workers, AMPLE, &steps, false)?;
    check_lines(rt, row.name, &played.lines, row.trace)
}

#[test]
fn a_book_answers_each_row(rt: HostRuntime) -> Result<(), Fail> {
    for number in 0..TOPICS {
        for row in topic(number) {
            answers(&rt, row)?;
        }
    }
    Ok(())
}
